//! The faults of a text: a walk over its tokens, from one fault of the tree to the next.

ghost use Rattle.std.specs.Prelude.{◌≡◌, ◌≤◌, IfOk, length, true};
ghost use Rattle.vsi_recovery.specs.Listed.{AreListed};

use crate::holes::Pieces;
use crate::open::{Open, Reading, landmark_from, put_numbered, put_text, read, span};
use crate::search::{Choice, repair_of};
use std::alloc::{AllocError, Global};
use vsi_lattice::Lattice;
use vsi_scope::ScopeError;
use vsi_syntax::{Kind, LexError, Span, Token};

/// The most faults of a text that are reported after its first one.
const MAX_FURTHER: usize = 19;

/// Why a part of a text is refused.
#[derive(Clone, Copy, Debug)]
pub enum Cause {
    /// It has no token: the error of `lex`.
    Lex(LexError),
    /// No program goes on with it: `Unexpected`.
    Tree,
    /// It is a name that can't be resolved: the error of `resolve`.
    Scope(ScopeError),
}

/// A fault with its part of the text.
#[derive(Clone, Copy, Debug)]
pub struct Fault {
    pub cause: Cause,
    pub span: Span,
}

/// The fewest tokens that are read at once.
const CHUNK: usize = 500;

/// The most repairs of the tree that are made in a text.
const MAX_REPAIRS: usize = 60;

/// The most faults of a text that are looked for.
pub(crate) const MAX_FAULTS: usize = 20;

/// A part of a text with a repair, by bytes. Names from `first` up to `stop` aren't judged, and no
/// fault of the tree is reported from `from` to `stop`.
#[derive(Clone, Copy)]
pub(crate) struct Stretch {
    pub(crate) first: usize,
    pub(crate) from: usize,
    pub(crate) stop: usize,
    /// Whether something is left out.
    pub(crate) is_out: bool,
}

/// The tokens of a text up to one of them, with repairs, and the faults that were found.
#[derive(Drop)]
pub(crate) struct Walk<'s, 'a> {
    pub(crate) alloc: Global,
    pub(crate) lattice: &'a Lattice,
    /// The tokens of the text, and the number of the next one.
    pub(crate) source: &'s [Token<'a>],
    pub(crate) next: usize,
    /// The tokens before that one with repairs, and the constructs that haven't ended.
    pub(crate) list: Vec<Token<'a>>,
    pub(crate) open: Open<'a>,
    pub(crate) stretches: Vec<Stretch>,
    pub(crate) faults: Vec<Fault>,
    /// Whether the tree was repaired.
    pub(crate) is_mended: bool,
    /// Whether a repair may have changed which braces match.
    pub(crate) is_unclear: bool,
    /// How many more tokens may be read again.
    pub(crate) left: usize,
}

/// The byte at which the last of these tokens ends, or 0 if there is none.
pub(crate) fn stop_of(list: &[Token<'_>]) -> usize {
    list.last().map_or(0, |last| last.span.stop)
}

/// Whether some of these tokens are braces.
fn has_brace(list: &[Token<'_>]) -> bool {
    let is_brace = |token: &Token<'_>| matches!(token.kind, Kind::OpenBrace | Kind::CloseBrace);
    list.iter().any(is_brace)
}

impl<'s, 'a> Walk<'s, 'a> {
    /// The tokens of the text that come next.
    pub(crate) fn rest(&self) -> &'s [Token<'a>] {
        let source = self.source;
        &source[self.next.min(source.len())..]
    }

    /// The byte at which a token that was read or the next one begins, or the last one ends.
    pub(crate) fn byte_at(&self, place: usize) -> usize {
        let read = self.list.get(place).map(|token| token.span.start);
        let next = self.rest().first().map(|token| token.span.start);
        read.or(next).unwrap_or(stop_of(&self.list))
    }

    /// Whether a byte belongs to a part that was repaired, and has lost something if `is_cut`.
    pub(crate) fn is_within(&self, at: usize, is_cut: bool) -> bool {
        let has = |part: &Stretch| part.first <= at && at < part.stop && (part.is_out || !is_cut);
        self.stretches.iter().any(has)
    }

    /// Goes on to the next fault of the tree, or to the end of the text.
    fn go_on(&mut self) -> Result<Reading, AllocError> {
        self.left = self.left.saturating_sub(self.open.kept.len());
        for _chunk in 0..self.source.len().saturating_add(1) {
            let rest = self.rest();
            let count = self.open.kept.len().max(CHUNK).min(rest.len());
            let chunk = rest.get(..count).unwrap_or(rest);
            let mut made = Vec::new(self.alloc);
            put_numbered(&mut made, &self.open.kept)?;
            let before = made.len();
            put_numbered(&mut made, chunk)?;
            let reading = read(self.alloc, &made)?;
            let passed = match reading {
                Reading::Unexpected(place) => place.saturating_sub(before).min(count),
                Reading::Stopped => 0,
                Reading::Whole => count,
            };
            for token in chunk.get(..passed).unwrap_or(chunk) {
                self.open.note(self.list.len(), *token)?;
                self.list.push(*token)?;
            }
            self.next = self.next.saturating_add(passed);
            if passed < count || count == rest.len() {
                return Ok(reading);
            }
        }
        Ok(Reading::Stopped)
    }

    /// The part of the text with a repair: from the innermost command around the fault to the next
    /// landmark, or the declaration that is out of place.
    fn stretch_of(&self, choice: Choice) -> Stretch {
        let rest = self.rest();
        let place = choice.start.place;
        let from = stop_of(&self.list);
        let is_out = 0 < choice.stop || !choice.is_before && place < self.list.len();
        let out = rest.get(..choice.stop).unwrap_or(rest);
        let (first, stop) = if choice.is_misplaced {
            (self.list.len(), stop_of(out).saturating_sub(1))
        } else {
            let landmark = rest.get(landmark_from(rest, choice.stop));
            let end = stop_of(rest).max(from);
            let stop = landmark.map_or(end, |token| token.span.start);
            (self.open.now.command.place.min(place), stop)
        };
        Stretch {
            first: self.byte_at(first),
            from,
            stop,
            is_out: is_out && !choice.is_misplaced,
        }
    }

    /// Repairs the first fault of the tree. The answer is no if it can't be repaired.
    fn mend(&mut self) -> Result<bool, AllocError> {
        let rest = self.rest();
        let (found, left) = repair_of(self.alloc, &self.open, self.list.len(), rest, self.left)?;
        self.left = left;
        let Some(choice) = found else {
            return Ok(false);
        };
        let stretch = self.stretch_of(choice);
        self.is_mended = true;
        self.stretches.push(stretch)?;
        let from = choice.start.place;
        // Whether the repair changes which braces match, or may do so: it leaves some out, or puts
        // a `;` before one.
        let stop = choice.stop.saturating_add(usize::from(choice.put == ";"));
        let is_of_braces = choice.put == "}"
            || !choice.is_before && has_brace(self.list.get(from..).unwrap_or(&[]))
            || has_brace(rest.get(..stop).unwrap_or(rest));
        self.is_unclear = self.is_unclear || !choice.is_misplaced && is_of_braces;
        let start = self.byte_at(from);
        self.open = self.open.with(choice)?;
        self.next = self.next.saturating_add(choice.stop);
        let mut after = Vec::new(self.alloc);
        if choice.is_before {
            after.extend_from_slice(self.list.get(from..).unwrap_or(&[]))?;
        }
        self.list.truncate(from);
        put_text(&mut self.list, choice.put.as_bytes(), span(start, start))?;
        self.list.extend_from_slice(&after)?;
        Ok(true)
    }

    /// Adds the faults of the tree, without those that may come from a repair. The answer is yes if
    /// the repaired tokens are a program.
    fn put_trees(&mut self) -> Result<bool, AllocError> {
        for _repair in 0..MAX_REPAIRS {
            match self.go_on()? {
                Reading::Whole => return Ok(true),
                Reading::Stopped => return Ok(false),
                Reading::Unexpected(_) => {}
            }
            if MAX_FAULTS <= self.faults.len() {
                return Ok(false);
            }
            let at = self.byte_at(self.list.len());
            let (span, is_end) = match self.rest().first() {
                Some(token) => (token.span, token.kind == Kind::CloseBrace),
                None => (span(at, at), true),
            };
            // A fault in a part with a repair may come from that.
            let is_near = |part: &Stretch| part.from <= at && at <= part.stop;
            if !self.stretches.iter().any(is_near) && !(is_end && self.is_unclear) {
                let cause = Cause::Tree;
                self.faults.push(Fault { cause, span })?;
            }
            if !self.mend()? {
                return Ok(false);
            }
        }
        Ok(false)
    }
}

/// Whether the faults begin in the text, each after the one before it.
fn are_listed(text: &[u8], faults: &[Fault]) -> bool
    ensures { result ≡ true → AreListed 0 (length text.now) faults.now }
{
    let mut from = 0usize;
    let mut rest = faults;
    while let [fault, behind @ ..] = rest {
        let start = fault.span.start;
        if start < from || text.len() < start {
            return false;
        }
        from = start + 1;
        rest = behind;
    }
    true
}

/// The faults after the first one in the order of their places, up to 19.
fn sorted(alloc: Global, text: &[u8], faults: &[Fault]) -> Result<Vec<Fault>, AllocError> {
    let mut sorted = Vec::from_slice(alloc, faults.get(1..).unwrap_or(&[]))?;
    sorted.sort_by_key(|fault| fault.span.start)?;
    let mut kept = Vec::new(alloc);
    let mut from = 0usize;
    for fault in &sorted {
        let start = fault.span.start;
        if kept.len() < MAX_FURTHER && from <= start && start <= text.len() {
            from = start.saturating_add(1);
            kept.push(*fault)?;
        }
    }
    Ok(kept)
}

/// The faults of a text after the one for which it is refused, in the order of their places; none
/// of flows, and at most 19.
///
/// `room` is the most tokens that are read again for repairs and for names, in all readings
/// together: with less, fewer faults of a long text are found.
///
/// # Errors
///
/// Only if memory runs out.
pub fn further_faults(
    alloc: Global,
    lattice: &Lattice,
    text: &[u8],
    room: usize,
) -> Result<Vec<Fault>, AllocError>
    ensures few { IfOk result (λ faults. length faults.items ≤ 19) }
    // They begin in the text, each after the one before it.
    ensures listed { IfOk result (λ faults. AreListed 0 (length text.now) faults.items) }
{
    let mut pieces = Pieces {
        alloc,
        text,
        list: Vec::new(alloc),
        faults: Vec::new(alloc),
        from: 0,
    };
    let is_whole = pieces.read(MAX_FAULTS)?;
    let around = |fault: &Fault| pieces.stretch_of(fault.span);
    let stretches = pieces.faults.iter().map(around).collect(alloc)?;
    let Pieces { list, faults, .. } = pieces;
    let mut walk = Walk {
        alloc,
        lattice,
        source: &list,
        next: 0,
        list: Vec::new(alloc),
        open: Open::new(alloc, 0),
        stretches,
        faults,
        is_mended: false,
        is_unclear: false,
        left: room,
    };
    if is_whole && walk.put_trees()? {
        walk.put_names()?;
    }
    // `sorted` proposes the faults, and they are examined here.
    let kept = sorted(alloc, text, &walk.faults)?;
    if kept.len() <= MAX_FURTHER && are_listed(text, &kept) {
        return Ok(kept);
    }
    Ok(Vec::new(alloc))
}
