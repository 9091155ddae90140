//! Hints for the constructs of other languages in a text.

ghost use Rattle.std.specs.Prelude.{IfOk, IfSome};
ghost use Rattle.vsi_hints.specs.Hints.{OffersRead};

use crate::drafts::{Found, Hint, Shape, put_sentence};
use crate::expression::{FALSE, TRUE};
use crate::names::{declaration, local, named};
use crate::offers::{hint_of, narrow, offer};
use crate::scan::{DECLARING, Scan, is_one_of};
use crate::structure::{COUNTED, LOCAL, commands_at, halved_at, sign, structure_at};
use std::alloc::{AllocError, Global};
use vsi_syntax::put_place;

/// The largest number of further places that are listed.
const MOST: usize = 12;

/// The largest number of bytes of a name that are shown.
const LONGEST: usize = 40;

/// A text with its constructs of other languages, and the piece at which it is refused.
#[derive(Drop)]
struct Advice<'s> {
    scan: Scan<'s>,
    /// The constructs in order; none begins inside another one. A loop is one with its body, if its
    /// commands can be offered.
    shapes: Vec<Found>,
    /// The last piece that begins at or before the refused byte, or the one after the last piece.
    piece: usize,
}

impl<'s> Advice<'s> {
    /// The advice on a text that is refused at this byte.
    fn of(alloc: Global, source: &'s [u8], at: usize) -> Result<Advice<'s>, AllocError> {
        let scan = Scan::of(alloc, source)?;
        let mut shapes = Vec::new(alloc);
        let mut next: usize = 0;
        for at in 0..scan.pieces.len() {
            if at < next {
                continue;
            }
            let mut shape = match scan.text(at) {
                [b'v', b'a', b'r'] => declaration(&scan, at),
                [b'l', b'e', b't', b'v', b'a', b'r'] => local(&scan, at),
                _ if scan.is_name(at) => named(&scan, at).or(sign(&scan, at)),
                _ => sign(&scan, at),
            };
            if let Some(found) = commands_at(&scan, at)
                && offer(&scan, &found)?.is_some()
            {
                shape = Some(found);
            }
            if let Some(found) = shape {
                next = found.next;
                shapes.push(found)?;
            }
        }
        let count = scan.pieces.len();
        let begun = scan.pieces.iter().rposition(|piece| piece.at <= at);
        let is_within = at < scan.stop(count.saturating_sub(1));
        let piece = if is_within { begun.unwrap_or(0) } else { count };
        Ok(Advice {
            scan,
            shapes,
            piece,
        })
    }

    /// The last construct that the refused piece belongs to or directly follows.
    fn covering(&self) -> Option<Found> {
        let covers = |found: &Found| found.covers(self.piece);
        let covering = self.shapes.iter().rposition(covers)?;
        self.shapes.get(covering).copied()
    }

    /// Whether a piece is in a construct, and the text that replaces it has or hasn't the piece.
    fn is_in(&self, at: usize, is_kept: bool) -> bool {
        self.shapes.iter().any(|found| match found.shape {
            Shape::Commands if is_kept => {
                let next = at.saturating_add(usize::from(!self.scan.is(at, b";")));
                found.first < at && next < found.next
            }
            Shape::Commands | Shape::Value | Shape::Comment => false,
            _ => !is_kept && found.first <= at && at < found.next,
        })
    }

    /// The constructs, and then the structures where no commands replace them, with whether each is
    /// a construct: those that share their advice with none before them or for the refused piece.
    fn chosen(&self) -> Result<Vec<(Found, bool)>, AllocError> {
        let scan = &self.scan;
        let mut all = Vec::from_slice(scan.alloc, &self.shapes)?;
        for at in 0..scan.pieces.len() {
            if !self.is_in(at, true) {
                all.extend(structure_at(scan, at))?;
                all.extend(halved_at(scan, at))?;
            }
        }
        let mut keys = Vec::new(scan.alloc);
        let mut chosen = Vec::new(scan.alloc);
        if let Some(found) = self.covering() {
            keys.push(found.key(scan))?;
        }
        for (number, found) in all.iter().enumerate() {
            let key = found.key(scan);
            if !keys.contains(&key) && keys.len() <= MOST {
                keys.push(key)?;
                chosen.push((*found, number < self.shapes.len()))?;
            }
        }
        Ok(chosen)
    }

    /// Whether a piece is a name that the text reads or assigns to and doesn't declare, also after
    /// the hints for the text are followed.
    fn is_undeclared(&self, at: usize) -> bool {
        let scan = &self.scan;
        let name = scan.text(at);
        let declares = |found: &Found| match found.shape {
            Shape::Say | Shape::Put | Shape::Declarations => {
                scan.has(found.first, found.next, name)
            }
            Shape::Commands => {
                (found.after == COUNTED || found.after == LOCAL)
                    && scan.has(found.first, found.value, name)
            }
            // The offer for a name that isn't valid here begins with it.
            Shape::Expression => {
                matches!(name.strip_prefix(scan.text(found.first)), Some([b'_', ..]))
            }
            _ => false,
        };
        scan.is_operand(at)
            && scan.is_name(at)
            && !matches!(narrow(scan.text(at.saturating_sub(1))), [b':'])
            && !scan.is_operand(at.saturating_add(1))
            && (at == 0 || !scan.is_operand(at.saturating_sub(1)))
            && !scan.is_declared(name)
            && !self.is_in(at, false)
            && name != scan.text(self.piece)
            && !self.shapes.iter().any(declares)
            && !is_one_of(TRUE, name)
            && !is_one_of(FALSE, name)
            && !is_one_of(b"default repeat", name)
    }

    /// The names in the positions of classes that are none of these classes, in order; without
    /// classes, the names that the text uses and doesn't declare.
    fn names(&self, classes: Option<&[&[u8]]>) -> Result<Vec<&'s [u8]>, AllocError> {
        let scan = &self.scan;
        let mut names = Vec::new(scan.alloc);
        for at in 0..scan.pieces.len() {
            let name = scan.text(at);
            let is_wrong = match classes {
                _ if names.len() >= MOST || names.contains(&name) => false,
                Some(classes) => {
                    scan.is_name(at)
                        && scan.is_after(at, b":")
                        && scan.is_after(at.saturating_sub(2), DECLARING)
                        && !(&*classes).contains(&name)
                }
                None => self.is_undeclared(at),
            };
            if is_wrong {
                names.push(name)?;
            }
        }
        Ok(names)
    }
}

/// The hint for the construct of another language at a place of a text, if there is one.
pub fn hint_at<'s>(
    alloc: Global,
    source: &'s [u8],
    at: usize,
) -> Result<Option<Hint<'s>>, AllocError>
    ensures read { IfOk result (λ hint. IfSome hint OffersRead) }
{
    let advice = Advice::of(alloc, source, at)?;
    match advice.covering() {
        Some(found) => hint_of(&advice.scan, &found),
        None => Ok(None),
    }
}

/// Adds names after a text, each between back quotes.
fn put_names(words: &mut Vec<u8>, first: &[u8], names: &[&[u8]]) -> Result<(), AllocError> {
    let mut joint = first;
    for name in names {
        for part in [joint, b"`", &name[..name.len().min(LONGEST)], b"`"] {
            words.extend_from_slice(part)?;
        }
        joint = b", ";
    }
    Ok(())
}

/// Adds a line for each further place in a text that is written as in another language, the first
/// one of each sort. Then adds the names that aren't declared, or aren't classes.
pub fn put_further(
    alloc: Global,
    words: &mut Vec<u8>,
    source: &[u8],
    at: usize,
    classes: &[&[u8]],
) -> Result<(), AllocError> {
    let advice = Advice::of(alloc, source, at)?;
    let scan = &advice.scan;
    for (found, is_construct) in &advice.chosen()? {
        let is_refused = found.first == advice.piece || found.next == advice.piece;
        if is_refused || *is_construct && found.covers(advice.piece) {
            continue;
        }
        if let Some(hint) = hint_of(scan, found)? {
            words.extend_from_slice(b"Also at ")?;
            put_place(words, source, scan.piece(found.first).at)?;
            words.extend_from_slice(b": ")?;
            put_sentence(words, &hint)?;
            words.extend_from_slice(b"\n")?;
        }
    }
    let no_classes = advice.names(Some(classes))?;
    if !no_classes.is_empty() {
        put_names(words, b"Also not classes: ", &no_classes)?;
        let known = &classes[..classes.len().min(MOST)];
        put_names(words, b": the lattice has ", known)?;
        words.extend_from_slice(b".\n")?;
    }
    let undeclared = advice.names(None)?;
    if !undeclared.is_empty() {
        put_names(words, b"Also undeclared: ", &undeclared)?;
        words.extend_from_slice(b": declare each at the beginning, as in `var x : L;`.\n")?;
    }
    Ok(())
}

/// The places for which `hint_at` and `put_further` have hints in a text refused at this byte.
pub fn listed_places(alloc: Global, source: &[u8], at: usize) -> Result<Vec<usize>, AllocError> {
    let advice = Advice::of(alloc, source, at)?;
    let chosen = advice.chosen()?;
    let place = |(found, _): &(Found, bool)| advice.scan.piece(found.first).at;
    chosen.iter().map(place).collect(alloc)
}
