//! Hints and their sentences, and texts in which letters stand for parts of another text.

ghost use Rattle.std.specs.Prelude.{◌≡◌, ◌++◌, IfOk, OnOk, codes, is_some, take};
ghost use Rattle.vsi_hints.specs.Hints as spec;

use crate::expression::rewritten;
use crate::scan::{Scan, after, number_of};
use crate::structure::{choice_at, counting_at};
use std::alloc::AllocError;
use vsi_syntax::put_number;

/// The kind of advice on some pieces: whether a text takes their place.
#[derive(Clone, Copy, PartialEq, Eq)]
pub(crate) enum Shape {
    /// No text: the parts of a sentence are around the first piece.
    Say,
    /// No text, and the first piece can't be shown: a sentence.
    Tell,
    /// A fixed text, and then the rest of a sentence.
    Put,
    /// An expression, for the piece `value`.
    Value,
    /// An expression that is made from the pieces.
    Expression,
    /// Commands that are made from the pieces.
    Commands,
    /// Declarations that are made from the pieces.
    Declarations,
    /// A comment.
    Comment,
}

/// Some pieces, from the first one up to but not including the next one, and the advice on them.
#[derive(Clone, Copy)]
pub(crate) struct Found {
    pub(crate) first: usize,
    /// The first one of the value in them, or the one that the advice is for.
    pub(crate) value: usize,
    pub(crate) next: usize,
    pub(crate) shape: Shape,
    /// The letters of the text that is made from the pieces, if one is.
    pub(crate) letters: &'static [u8],
    /// The end of the sentence, as the reason for an offer.
    pub(crate) after: &'static str,
    /// The beginning of the sentence, the fixed text, or the sentence if no text can be offered.
    pub(crate) before: &'static str,
}

/// The last three parts of a `Found`.
pub(crate) type Letters = (&'static [u8], &'static str, &'static str);

/// The advice on these pieces and the value in them.
pub(crate) fn valued(
    (first, value, next): (usize, usize, usize),
    shape: Shape,
    (letters, after, before): Letters,
) -> Option<Found> {
    Some(Found {
        first,
        value,
        next,
        shape,
        letters,
        after,
        before,
    })
}

/// The advice on these pieces.
pub(crate) fn shaped(first: usize, next: usize, shape: Shape, letters: Letters) -> Option<Found> {
    valued((first, first, next), shape, letters)
}

/// A sentence around the first of these pieces.
pub(crate) fn say(
    first: usize,
    next: usize,
    before: &'static str,
    after: &'static str,
) -> Option<Found> {
    shaped(first, next, Shape::Say, (b"", after, before))
}

impl Found {
    /// Whether a piece belongs to the construct or directly follows it.
    pub(crate) fn covers(&self, piece: usize) -> bool {
        self.first <= piece && piece <= self.next
    }

    /// The part of the advice that constructs with the same advice share. Texts of the same length in
    /// place of a piece count as the same, as for `true` and `false`.
    pub(crate) fn key<'s>(&self, scan: &Scan<'s>) -> (&'s [u8], usize) {
        match self.shape {
            Shape::Put => (b"", self.before.len()),
            Shape::Value => (scan.text(self.value), 0),
            _ => (self.after.as_bytes(), self.before.len()),
        }
    }
}

/// The most bytes of a text that are shown.
pub(crate) const LONGEST: usize = 120;

/// The reason why a text is offered.
#[derive(Clone, Copy, Debug)]
pub enum Reason<'s> {
    /// The end of a sentence.
    Rule(&'static str),
    /// There is no such sign.
    Lacking(&'s [u8]),
}

/// Advice on a construct of another language.
#[derive(Debug, Drop)]
pub enum Hint<'s> {
    /// A text that the reader of the language has read, in place of a part of the source, and why.
    Offer(Vec<u8>, &'s [u8], Reason<'s>),
    /// A fixed text in place of a part of the source, and the end of the sentence.
    Put(&'static str, &'s [u8], &'static str),
    /// A form of this language for a sign of another.
    Operator(&'static [u8], &'s [u8]),
    /// A sentence with a part of the source in it.
    Piece(&'static str, &'s [u8], &'static str),
    /// A sentence.
    Plain(&'static str),
}

/// A text, or its beginning if it is long.
fn beginning(text: &[u8]) -> &[u8]
    ensures { result.now ≡ take 120 text.now }
{
    if text.len() > LONGEST {
        &text[..LONGEST]
    } else {
        text
    }
}

/// Adds a text between back quotes, or its beginning if it is long.
fn put_quoted(words: &mut Vec<u8>, text: &[u8]) -> Result<(), AllocError>
    ensures { OnOk result (words.new.items ≡ words.old.items ++ spec.quoted text.now) }
{
    words.extend_from_slice(b"`")?;
    words.extend_from_slice(beginning(text))?;
    words.extend_from_slice(b"`")?;
    Ok(())
}

/// Adds that one text replaces another.
fn put_replacing(words: &mut Vec<u8>, new: &[u8], old: &[u8]) -> Result<(), AllocError>
    ensures { OnOk result (words.new.items ≡ words.old.items ++ spec.replacing new.now old.now) }
{
    words.extend_from_slice(b"write ")?;
    put_quoted(words, new)?;
    words.extend_from_slice(b" in place of ")?;
    put_quoted(words, old)?;
    Ok(())
}

/// Adds the reason why a text is offered.
fn put_reason(words: &mut Vec<u8>, reason: Reason) -> Result<(), AllocError>
    ensures { OnOk result (words.new.items ≡ words.old.items ++ spec.reason reason.entry) }
{
    match reason {
        Reason::Rule(text) => words.extend_from_slice(text.as_bytes()),
        Reason::Lacking(sign) => {
            words.extend_from_slice(b": there is no ")?;
            put_quoted(words, sign)?;
            words.extend_from_slice(b".")
        }
    }
}

/// Adds the sentence of a hint.
pub(crate) fn put_sentence(words: &mut Vec<u8>, hint: &Hint) -> Result<(), AllocError>
    ensures { OnOk result (words.new.items ≡ words.old.items ++ spec.sentence hint.now) }
{
    match hint {
        Hint::Offer(new, old, reason) => {
            put_replacing(words, new, old)?;
            put_reason(words, *reason)
        }
        Hint::Put(new, old, rest) => {
            put_replacing(words, new.as_bytes(), old)?;
            words.extend_from_slice(rest.as_bytes())
        }
        Hint::Operator(text, sign) => {
            words.extend_from_slice(b"write ")?;
            put_quoted(words, text)?;
            words.extend_from_slice(b" for `P ")?;
            words.extend_from_slice(sign)?;
            words.extend_from_slice(b" Q`.")
        }
        Hint::Piece(before, piece, rest) => {
            words.extend_from_slice(before.as_bytes())?;
            put_quoted(words, piece)?;
            words.extend_from_slice(rest.as_bytes())
        }
        Hint::Plain(text) => words.extend_from_slice(text.as_bytes()),
    }
}

/// Adds the line of a hint, if there is one, and returns whether there is.
pub fn put_hint(words: &mut Vec<u8>, hint: &Option<Hint>) -> Result<bool, AllocError>
    ensures line { OnOk result (words.new.items ≡ words.old.items ++ spec.hint_line hint.now) }
    ensures is { IfOk result (λ is. is ≡ is_some hint.now) }
{
    let Some(hint) = hint else {
        return Ok(false);
    };
    words.extend_from_slice(b"Hint: ")?;
    put_sentence(words, hint)?;
    words.extend_from_slice(b"\n")?;
    Ok(true)
}

/// A text that is made from the pieces of a construct. Each method that adds to it returns whether
/// what it adds could be written.
#[derive(Drop)]
struct Draft<'s, 't> {
    scan: &'t Scan<'s>,
    found: Found,
    words: Vec<u8>,
}

/// The text of an offer for pieces, if it can be written.
pub(crate) fn text_of(scan: &Scan, found: &Found) -> Result<Option<Vec<u8>>, AllocError> {
    let mut draft = Draft {
        scan,
        found: *found,
        words: Vec::new(scan.alloc),
    };
    for letter in found.letters {
        if !draft.put_letter(*letter)? {
            return Ok(None);
        }
    }
    let Draft { words, .. } = draft;
    Ok(Some(words))
}

impl<'s, 't> Draft<'s, 't> {
    /// Adds a text.
    fn put(&mut self, text: &[u8]) -> Result<bool, AllocError> {
        self.words.extend_from_slice(text)?;
        Ok(true)
    }

    /// Adds the first of some names that occurs in no piece.
    fn put_fresh(&mut self, names: &'static [u8]) -> Result<bool, AllocError> {
        let scan = self.scan;
        let mut names = names.split(|byte| *byte == b' ');
        let fresh = names.find(|name| !scan.has(0, scan.pieces.len(), *name));
        self.put(fresh.unwrap_or(b"a_name_of_its_own"))
    }

    /// Adds the expression for a letter, written in this language.
    fn put_value(&mut self, letter: u8) -> Result<bool, AllocError> {
        let (scan, found) = (self.scan, self.found);
        let comma = scan.value_stop(found.value);
        let stop = comma.min(found.next);
        let value = (found.value, stop);
        let choice = choice_at(scan, found.first).unwrap_or((value, value, value));
        let (first, next) = match letter {
            b'E' => (found.first, found.next),
            b'W' if scan.is(comma, b",") => (comma.saturating_add(1), found.next),
            b'W' => (stop, stop),
            b'J' => choice.0,
            b'H' => choice.1,
            b'S' => choice.2,
            _ => value,
        };
        let level = match letter {
            b'X' => 2,
            b'Y' => 3,
            _ => 0,
        };
        if (first..next).any(|at| scan.is_hyphened(at)) {
            return Ok(false);
        }
        let pieces = scan.pieces.get(first..next).unwrap_or(&[]);
        match rewritten(scan.alloc, pieces, level)? {
            Some(text) => self.put(&text),
            None => Ok(false),
        }
    }

    /// Adds 1 more than an operand if `is_more`, and otherwise 1 less, if that isn't below 0.
    fn put_changed(&mut self, text: &[u8], is_more: bool) -> Result<bool, AllocError> {
        let Some(number) = number_of(text) else {
            self.words.extend_from_slice(text)?;
            return self.put(if is_more { b" + 1" } else { b" - 1" });
        };
        let (more, less) = (number.saturating_add(1), number.saturating_sub(1));
        let changed = if is_more { more } else { less };
        put_number(&mut self.words, changed as usize)?;
        Ok(is_more || number > 0)
    }

    /// Adds the body of a loop, or the commands after a declaration, without braces around them and
    /// without a `;` after a last command.
    fn put_body(&mut self) -> Result<bool, AllocError> {
        let (scan, found) = (self.scan, self.found);
        let (mut start, mut stop) = (found.value, found.next);
        if scan.is_any(found.first, b"do repeat") {
            start = found.first.saturating_add(1);
            stop = found.value.saturating_sub(1);
        } else if !scan.is(found.first, b"for") {
            start = scan.value_stop(start).saturating_add(1);
        }
        if scan.is(start, b"{") && scan.is(stop.saturating_sub(1), b"}") {
            start = start.saturating_add(1);
            stop = stop.saturating_sub(1);
        }
        for at in start..stop {
            let next = at.saturating_add(1);
            if scan.is(at, b";") && (next == stop || scan.is(next, b"}")) {
                continue;
            }
            if at > start && !scan.touches(at) {
                self.words.push(b' ')?;
            }
            self.words.extend_from_slice(scan.text(at))?;
        }
        Ok(true)
    }

    /// Adds what a letter stands for in a loop that counts: `G` for the first number beyond it.
    fn put_counting(&mut self, letter: u8) -> Result<bool, AllocError> {
        let scan = self.scan;
        let Some((counter, first, limit, _)) = counting_at(scan, self.found.first) else {
            return Ok(false);
        };
        match letter {
            b'I' => self.put(scan.text(counter)),
            b'F' if first == counter => self.put(b"0"),
            b'F' => self.put(scan.text(first)),
            _ if scan.is_after(limit, b"to <=") => self.put_changed(scan.text(limit), true),
            _ => self.put(scan.text(limit)),
        }
    }

    /// Adds what a letter of an offer stands for.
    fn put_letter(&mut self, letter: u8) -> Result<bool, AllocError> {
        let (scan, first) = (self.scan, self.found.first);
        let last = self.found.next.saturating_sub(1);
        let (second, third, fourth, ..) = after(first);
        match letter {
            b'N' => self.put(scan.text(first)),
            b'A' => self.put(scan.text(second)),
            b'P' => self.put(scan.text(third)),
            b'C' => self.put(scan.text(fourth)),
            b'U' => self.put(scan.text(self.found.value)),
            b'Z' => self.put(scan.text(last)),
            b'M' => self.put_changed(scan.text(last), false),
            b'K' => self.put_fresh(b"t old kept former"),
            b'R' => self.put_fresh(b"r left rest remainder"),
            b'T' => self.put_fresh(b"q times count quotient"),
            b'E' | b'H' | b'J' | b'S' | b'V' | b'W' | b'X' | b'Y' => self.put_value(letter),
            b'L' => {
                let mut joint: &[u8] = b"var ";
                for at in first..last {
                    if scan.is_name(at) {
                        for part in [joint, scan.text(at), b" : ", scan.text(last)] {
                            self.words.extend_from_slice(part)?;
                        }
                        joint = b"; var ";
                    }
                }
                Ok(true)
            }
            b'B' => self.put_body(),
            b'F' | b'G' | b'I' => self.put_counting(letter),
            other => self.put(&[other]),
        }
    }
}
