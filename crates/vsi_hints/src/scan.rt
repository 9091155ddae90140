//! A text of another language, cut into pieces: words, numbers, signs, texts and comments.

use crate::expression::{NO_OPERANDS, is_operator};
use std::alloc::{AllocError, Global};

/// The largest number of pieces of a text that is examined; the rest of a longer text is not.
const MOST: usize = 4096;

/// The sort of a piece.
#[derive(Clone, Copy, PartialEq, Eq)]
pub(crate) enum Sort {
    /// Letters, digits and `_`, beginning with a letter or `_`.
    Word,
    /// The same and `.`, beginning with a digit.
    Number,
    /// A sign of ASCII.
    Sign,
    /// A text between quotes.
    Quoted,
    /// A comment of another language.
    Comment,
    /// A character outside of ASCII.
    Strange,
}

/// A piece of a text, and its position.
#[derive(Clone, Copy)]
pub(crate) struct Piece<'a> {
    pub sort: Sort,
    pub text: &'a [u8],
    pub at: usize,
    /// Whether it is the first piece of its line.
    pub is_first: bool,
}

/// The signs of more than one byte, longer ones first.
const SIGNS: &[u8] = b">>>= === !== **= //= <<= >>= >>> << >> |= &= ^= := == != <> ~= <= >= =< => \
    && || ** // ++ -- += -= *= /= %= ->";

/// Whether a word is one of these, which have blanks between them.
pub(crate) fn is_one_of(words: &[u8], word: &[u8]) -> bool {
    words.split(|byte| *byte == b' ').any(|one| one == word)
}

/// A text up to the end of its first line.
fn line(text: &[u8]) -> &[u8] {
    text.split(|byte| *byte == b'\n').next().unwrap_or(text)
}

/// The number of bytes of a text up to the end of a part of it that begins at or after `from`.
fn up_to_end(text: &[u8], from: usize, end: &[u8]) -> usize {
    let is_end = |at: &usize| text.get(*at..).unwrap_or(b"").starts_with(end);
    let found = (from..text.len()).find(is_end);
    found.map_or(text.len(), |at| at.saturating_add(end.len()))
}

/// The number of bytes of a name or a number. A point belongs to a number if a digit follows.
fn word_length(rest: &[u8], is_number: bool) -> usize {
    let ends = |at: &usize| match rest.get(*at..).unwrap_or(b"") {
        [b'.', b'0'..=b'9', ..] if is_number => false,
        [byte, ..] => !byte.is_ascii_alphanumeric() && *byte != b'_',
        [] => true,
    };
    (0..rest.len()).find(ends).unwrap_or(rest.len())
}

/// The sort and the length of the piece at the beginning of a text. A quotation is on one line.
fn measured(rest: &[u8], is_begun: bool) -> (Sort, usize) {
    match rest {
        [b'-', b'-', b' ', ..] if is_begun => (Sort::Comment, line(rest).len()),
        // In Python `//` divides by the number after it, and `//=` assigns.
        [b'/', b'/', after @ ..]
            if !matches!(after.trim_ascii_start().first(), Some(b'0'..=b'9' | b'=')) => {
            (Sort::Comment, line(rest).len())
        }
        [b'/', b'*', ..] => (Sort::Comment, up_to_end(rest, 2, b"*/")),
        [b'a'..=b'z' | b'A'..=b'Z' | b'_', ..] => (Sort::Word, word_length(rest, false)),
        [b'0'..=b'9', ..] => (Sort::Number, word_length(rest, true)),
        [quote @ (b'"' | b'\''), ..] => (Sort::Quoted, up_to_end(line(rest), 1, &[*quote])),
        [128..=255, 128..=191, 128..=191, 128..=191, ..] => (Sort::Strange, 4),
        [128..=255, 128..=191, 128..=191, ..] => (Sort::Strange, 3),
        [128..=255, 128..=191, ..] => (Sort::Strange, 2),
        [128..=255, ..] => (Sort::Strange, 1),
        _ => {
            let mut signs = SIGNS.split(|byte| *byte == b' ');
            let sign = signs.find(|sign| rest.starts_with(*sign));
            (Sort::Sign, sign.map_or(1, |sign| sign.len()))
        }
    }
}

/// Whether a text has digits alone.
pub(crate) fn is_decimal(text: &[u8]) -> bool {
    text.iter().all(|byte| byte.is_ascii_digit())
}

/// The value of a whole number of another language, if this language can write it.
pub(crate) fn number_of(text: &[u8]) -> Option<u64> {
    let (digits, base) = match text {
        [b'0', b'x' | b'X', digits @ ..] => (digits, 16),
        [b'0', b'b' | b'B', digits @ ..] => (digits, 2),
        [b'0', b'o' | b'O', digits @ ..] => (digits, 8),
        [digits @ .., b'l' | b'L' | b'u' | b'U'] => (digits, 10),
        _ => (text, 10),
    };
    let mut value: u64 = 0;
    for byte in digits.iter().filter(|byte| **byte != b'_') {
        let digit = char::from(*byte).to_digit(16)? as u64;
        if digit >= base {
            return None;
        }
        value = value.checked_mul(base)?.checked_add(digit)?;
    }
    let is_number = !digits.is_empty() && value <= 9_223_372_036_854_775_807;
    is_number.then_some(value)
}

/// A text and its pieces.
#[derive(Drop)]
pub(crate) struct Scan<'s> {
    pub(crate) alloc: Global,
    pub(crate) source: &'s [u8],
    pub(crate) pieces: Vec<Piece<'s>>,
}

/// The keywords and signs after which an expression begins.
const VALUE_STARTS: &[u8] = b":= ; { } : , then else do in if while until elif elsif elseif return \
    += -= *= /= %= **= ?";

/// The keywords and signs before which an expression ends.
const VALUE_STOPS: &[u8] = b"; { } : , then else do in := ?";

/// The keywords and signs after which a command begins.
const COMMAND_STARTS: &[u8] = b"; { } then else do in begin";

/// The keywords of the language.
pub(crate) const KEYWORDS: &[u8] = b"var letvar in if then else while do";

/// The keywords that declare.
pub(crate) const DECLARING: &[u8] = b"var letvar";

/// The numbers of the five pieces after a piece.
pub(crate) fn after(at: usize) -> (usize, usize, usize, usize, usize) {
    let place = |by: usize| at.saturating_add(by);
    (place(1), place(2), place(3), place(4), place(5))
}

impl<'s> Scan<'s> {
    /// A text, cut into its pieces, without the blanks and the comments of the language.
    pub(crate) fn of(alloc: Global, source: &'s [u8]) -> Result<Scan<'s>, AllocError> {
        let mut pieces = Vec::new(alloc);
        let mut at: usize = 0;
        let mut is_first = true;
        let mut is_begun = true;
        for _ in 0..source.len() {
            let rest = source.get(at..).unwrap_or(b"");
            let mut length = 1;
            match rest {
                [b'#', ..] => length = line(rest).len(),
                [b' ' | b'\t' | b'\r', ..] => {}
                [b'\n', ..] => is_first = true,
                [_, ..] if pieces.len() < MOST => {
                    let (sort, size) = measured(rest, is_first || is_begun);
                    let text = rest.get(..size).unwrap_or(rest);
                    pieces.push(Piece {
                        sort,
                        text,
                        at,
                        is_first,
                    })?;
                    is_first = false;
                    is_begun = matches!(text, [b';' | b'{' | b'}']);
                    length = size.max(1);
                }
                _ => break,
            }
            at = at.saturating_add(length);
        }
        Ok(Scan {
            alloc,
            source,
            pieces,
        })
    }

    /// A piece, or an empty one if there is none.
    pub(crate) fn piece(&self, at: usize) -> Piece<'s> {
        self.pieces.get(at).copied().unwrap_or(Piece {
            sort: Sort::Sign,
            text: b"",
            at: 0,
            is_first: true,
        })
    }

    /// The text of a piece, or an empty text if there is none.
    pub(crate) fn text(&self, at: usize) -> &'s [u8] {
        self.piece(at).text
    }

    /// Whether a piece is this text.
    pub(crate) fn is(&self, at: usize, text: &[u8]) -> bool {
        self.text(at) == text
    }

    /// Whether a piece is one of these texts, which have blanks between them.
    pub(crate) fn is_any(&self, at: usize, texts: &[u8]) -> bool {
        is_one_of(texts, self.text(at))
    }

    /// Whether there is a piece before this one, and it is one of these texts.
    pub(crate) fn is_after(&self, at: usize, texts: &[u8]) -> bool {
        0 < at && self.is_any(at.saturating_sub(1), texts)
    }

    /// Whether the pieces from this one on are these texts. A `*` is any name or number, a `?` is
    /// `=` or `:=`, and a `_` is `<` or `<=`.
    pub(crate) fn begins(&self, at: usize, texts: &[u8]) -> bool {
        let mut texts = texts.split(|byte| *byte == b' ').enumerate();
        texts.all(|(number, text)| {
            let place = at.saturating_add(number);
            match text {
                [b'*'] => self.is_operand(place) || self.is(place, text),
                [b'?'] => self.is_any(place, b"= :="),
                [b'_'] => self.is_any(place, b"< <="),
                _ => self.is(place, text),
            }
        })
    }

    /// Whether a piece may be a name.
    pub(crate) fn is_name(&self, at: usize) -> bool {
        self.piece(at).sort == Sort::Word && !self.is_any(at, KEYWORDS)
    }

    /// The position after a piece.
    pub(crate) fn stop(&self, at: usize) -> usize {
        let piece = self.piece(at);
        piece.at.saturating_add(piece.text.len())
    }

    /// Whether a piece begins where the one before it ends.
    pub(crate) fn touches(&self, at: usize) -> bool {
        0 < at && at < self.pieces.len() && self.stop(at.saturating_sub(1)) == self.piece(at).at
    }

    /// Whether a command may begin at a piece.
    pub(crate) fn is_command_start(&self, at: usize) -> bool {
        let Some(before) = at.checked_sub(1) else {
            return true;
        };
        if self.is_any(before, COMMAND_STARTS) || self.piece(before).sort == Sort::Comment {
            return true;
        }
        let goes_on = is_operator(self.text(before)) || self.is_any(before, VALUE_STARTS);
        self.piece(at).is_first && (!goes_on || self.is(before, b":"))
    }

    /// Whether a name is declared somewhere in the text.
    pub(crate) fn is_declared(&self, name: &[u8]) -> bool {
        (1..self.pieces.len()).any(|at| self.is(at, name) && self.is_after(at, DECLARING))
    }

    /// Whether one of the pieces from a number up to another one is one of these texts.
    pub(crate) fn has(&self, first: usize, next: usize, texts: &[u8]) -> bool {
        (first..next).any(|at| self.is_any(at, texts))
    }

    /// Whether a sign comes after a name with which a command begins.
    pub(crate) fn is_assignment(&self, at: usize) -> bool {
        let name = at.saturating_sub(1);
        0 < at && self.is_name(name) && self.is_command_start(name)
    }

    /// The piece with which the expression around a piece begins.
    pub(crate) fn value_start(&self, at: usize) -> usize {
        let begins = |start: &usize| {
            let before = start.saturating_sub(1);
            self.is_any(before, VALUE_STARTS)
                || self.piece(before).sort == Sort::Comment
                || self.is(before, b"=") && self.is_assignment(before)
                || self.piece(*start).is_first && self.is_command_start(*start)
        };
        (1..at.saturating_add(1)).rev().find(begins).unwrap_or(0)
    }

    /// Whether a piece is an operand, or begins a call.
    pub(crate) fn is_operand(&self, at: usize) -> bool {
        let text = self.text(at);
        (self.is_name(at) || self.piece(at).sort == Sort::Number)
            && !is_operator(text)
            && !is_one_of(NO_OPERANDS, text)
    }

    /// Whether an operand ends with a piece.
    pub(crate) fn ends_operand(&self, at: usize) -> bool {
        self.is_operand(at) || self.is(at, b")")
    }

    /// Whether an operand ends before a piece.
    pub(crate) fn is_after_operand(&self, at: usize) -> bool {
        0 < at && self.ends_operand(at.saturating_sub(1))
    }

    /// Whether a piece begins a name with a `-` in it, which no declaration can have.
    pub(crate) fn is_hyphened(&self, at: usize) -> bool {
        let (middle, last, ..) = after(at);
        self.is(middle, b"-")
            && self.touches(middle)
            && self.touches(last)
            && self.is_name(at)
            && self.piece(last).sort == Sort::Word
            && !self.is_declared(self.text(last))
    }

    /// The piece after the expression that begins with a piece.
    pub(crate) fn value_stop(&self, start: usize) -> usize {
        let mut open: usize = 0;
        for at in start..self.pieces.len() {
            match self.text(at) {
                [b'('] => open = open.saturating_add(1),
                [b')'] if open == 0 => return at,
                [b')'] => open = open.saturating_sub(1),
                _ => {}
            }
            if self.is_any(at, VALUE_STOPS) || self.piece(at).sort == Sort::Comment {
                return at;
            }
            let is_apart = self.is_after_operand(at)
                && (self.is_operand(at) || self.is_any(at, KEYWORDS))
                || self.piece(at).is_first && self.is_command_start(at);
            if is_apart && at > start && open == 0 {
                return at;
            }
        }
        self.pieces.len()
    }

    /// The bracket that closes the one around a piece, or the piece after the last one.
    pub(crate) fn closing(&self, at: usize, opens: &[u8], closes: &[u8]) -> usize {
        let mut open: usize = 0;
        for place in at..self.pieces.len() {
            open = match self.text(place) {
                text if text == opens => open.saturating_add(1),
                text if text != closes => open,
                _ if open == 0 => return place,
                _ => open.saturating_sub(1),
            };
        }
        self.pieces.len()
    }

    /// The piece after the bracket that closes the one at a piece, or the brace that comes first.
    pub(crate) fn after_closing(&self, at: usize) -> usize {
        let stop = self.closing(at.saturating_add(1), b"(", b")");
        let brace = (at..stop).find(|place| self.is_any(*place, b"{ }"));
        brace.unwrap_or(stop.saturating_add(1).min(self.pieces.len()))
    }

    /// The piece at which the command around a piece has ended.
    pub(crate) fn command_stop(&self, at: usize) -> usize {
        let count = self.pieces.len();
        let ends = |place: &usize| self.piece(*place).is_first || self.is_any(*place, b"; { } :");
        (at.saturating_add(1)..count).find(ends).unwrap_or(count)
    }
}
