//! The tokens of a text in which some bytes begin no token.

use crate::open::{is_landmark, put_text, span, spanned, tokens_of};
use crate::search::NAME;
use crate::walk::{Cause, Fault, Stretch, stop_of};
use std::alloc::{AllocError, Global};
use vsi_syntax::{LexError, Span, Token, lex};

/// The number of bytes that are skipped for a byte that begins no token: a comment, the beginning
/// alone of one that doesn't end, a quotation, or a run of the byte or of bytes outside of ASCII.
fn skipped(rest: &[u8]) -> usize {
    match rest {
        [b'/', b'/', ..] => {
            let line = rest.split(|byte| *byte == b'\n').next();
            line.unwrap_or(rest).len()
        }
        [b'/', b'*', ..] => {
            let is_end = |at: &usize| rest.get(*at..).unwrap_or(b"").starts_with(b"*/");
            let found = (2..rest.len()).find(is_end);
            found.map_or(2, |at| at.saturating_add(2))
        }
        [quote, ..] if matches!(*quote, b'"' | b'\'') => {
            let mut line = rest.iter().take_while(|byte| **byte != b'\n').skip(1);
            let found = line.position(|byte| *byte == *quote);
            found.map_or(1, |length| length.saturating_add(2))
        }
        [first, ..] => {
            let ends = |byte: &u8| *byte != *first && (*byte < 128 || *first < 128);
            rest.iter().position(ends).unwrap_or(rest.len())
        }
        [] => 1,
    }
}

/// The span of a part of a text that begins later.
fn moved(part: Span, by: usize) -> Span {
    span(part.start.saturating_add(by), part.stop.saturating_add(by))
}

/// What was read of a text up to a byte: the tokens, and the faults of the parts without.
#[derive(Drop)]
pub(crate) struct Pieces<'a> {
    pub(crate) alloc: Global,
    pub(crate) text: &'a [u8],
    pub(crate) list: Vec<Token<'a>>,
    pub(crate) faults: Vec<Fault>,
    pub(crate) from: usize,
}

impl<'a> Pieces<'a> {
    /// Adds tokens of the rest of the text.
    fn put_tokens(&mut self, tokens: &[Token<'a>]) -> Result<(), AllocError> {
        for token in tokens {
            self.list
                .push(spanned(token, moved(token.span, self.from)))?;
        }
        Ok(())
    }

    /// Reads up to a fault of a token, and over it.
    fn put_fault(&mut self, fault: Fault) -> Result<(), AllocError> {
        let part = self.text.get(self.from..fault.span.start).unwrap_or(b"");
        let tokens = tokens_of(self.alloc, part)?;
        self.put_tokens(&tokens)?;
        let put = match fault.cause {
            Cause::Lex(LexError::BadWord(_)) => NAME,
            Cause::Lex(LexError::BadNumber(_)) => "0",
            _ => "",
        };
        put_text(&mut self.list, put.as_bytes(), fault.span)?;
        self.faults.push(fault)?;
        self.from = fault.span.stop;
        Ok(())
    }

    /// Reads the text, and returns whether it has fewer such faults than `most`.
    pub(crate) fn read(&mut self, most: usize) -> Result<bool, AllocError> {
        for _fault in 0..most {
            let from = self.from;
            let (span, error) = match lex(self.alloc, self.text.get(from..).unwrap_or(b"")) {
                Ok(tokens) => {
                    self.put_tokens(&tokens)?;
                    return Ok(true);
                }
                Err(LexError::Memory) => return Err(AllocError),
                Err(LexError::TooLong) => return Ok(true),
                Err(LexError::BadByte(at)) => {
                    let count = skipped(self.text.get(at.saturating_add(from)..).unwrap_or(b""));
                    let part = moved(span(at, at.saturating_add(count)), from);
                    (part, LexError::BadByte(part.start))
                }
                Err(LexError::BadWord(part)) => {
                    let part = moved(part, from);
                    (part, LexError::BadWord(part))
                }
                Err(LexError::BadNumber(part)) => {
                    let part = moved(part, from);
                    (part, LexError::BadNumber(part))
                }
            };
            let cause = Cause::Lex(error);
            self.put_fault(Fault { cause, span })?;
        }
        Ok(false)
    }

    /// The part of the text around a hole whose tokens aren't judged: from the token after the
    /// landmark before it to the landmark after it, or to the next token after a comment.
    pub(crate) fn stretch_of(&self, hole: Span) -> Stretch {
        let skipped = self.text.get(hole.start..).unwrap_or(b"");
        let is_comment = matches!(skipped, [b'/', b'/' | b'*', ..]);
        let mut stretch = Stretch {
            first: 0,
            from: 0,
            stop: stop_of(&self.list).max(hole.stop),
            is_out: true,
        };
        for token in &self.list {
            let is_after = hole.stop <= token.span.start;
            if is_after && (is_comment || is_landmark(token.kind)) {
                stretch.stop = token.span.start;
                return stretch;
            }
            if !is_after {
                stretch.from = token.span.stop.min(hole.start);
            }
            if is_landmark(token.kind) {
                stretch.first = token.span.stop;
            }
        }
        stretch
    }
}
