//! The commands that are indented as if the loop or the `if` above them had them.

use crate::warning::{AFTER_CHOICE, AFTER_LOOP, Warning};
use std::alloc::{AllocError, Global};
use vsi_syntax::{Kind, Span, Token};

/// A construct that isn't finished at a token.
#[derive(Clone, Copy, Debug, PartialEq, Eq)]
enum Frame {
    Brace,
    Loop,
    /// An `if` before its `else`.
    Choice,
    /// An `if` after its `else`.
    Otherwise,
}

/// Something that isn't finished, and where it begins.
#[derive(Clone, Copy)]
struct Opened {
    frame: Frame,
    start: usize,
}

/// The bytes of the line of a byte that are before it, and the blanks with which these begin.
fn line_before(text: &[u8], at: usize) -> (&[u8], &[u8]) {
    let before = text.get(..at).unwrap_or(b"");
    let line = before.iter().rev().take_while(|byte| **byte != b'\n');
    let start = at.saturating_sub(line.count());
    let line = text.get(start..at).unwrap_or(b"");
    let blanks = line
        .iter()
        .take_while(|byte| matches!(**byte, b' ' | b'\t'));
    (line, line.get(..blanks.count()).unwrap_or(b""))
}

/// The number of things up to and including the last one of a frame.
fn count_to(open: &[Opened], frame: Frame) -> usize {
    let inner = open.iter().rev().take_while(|opened| opened.frame != frame);
    open.len().saturating_sub(inner.count())
}

/// The warning about a command that begins its line at a token right of a loop or an `if` that ends
/// there: the line is indented as if the innermost of these had the command.
fn warning_at(text: &[u8], span: Span, open: &[Opened]) -> Option<Warning> {
    let (own, blanks) = line_before(text, span.start);
    if blanks.len() < own.len() {
        return None;
    }
    let mut found = None;
    for opened in open {
        let (_, outer) = line_before(text, opened.start);
        let is_right = outer.len() < own.len() && own.starts_with(outer);
        match opened.frame {
            Frame::Brace => found = None,
            Frame::Loop if is_right => found = Some(AFTER_LOOP),
            _ if is_right => found = Some(AFTER_CHOICE),
            _ => {}
        }
    }
    let sentence = found?;
    Some(Warning { sentence, span })
}

/// Begins what a token begins, and finishes what it finishes: an `else` all within the `if` to
/// which it belongs, a brace the braces and all within, and a semicolon all within its braces.
fn pass(token: &Token<'_>, open: &mut Vec<Opened>) -> Result<(), AllocError> {
    let start = token.span.start;
    let frame = match token.kind {
        Kind::OpenBrace => Frame::Brace,
        Kind::While => Frame::Loop,
        Kind::If => Frame::Choice,
        Kind::Else => {
            open.truncate(count_to(open, Frame::Choice));
            if let Some(last) = open.last_mut() {
                last.frame = Frame::Otherwise;
            }
            return Ok(());
        }
        Kind::CloseBrace => {
            open.truncate(count_to(open, Frame::Brace).saturating_sub(1));
            return Ok(());
        }
        Kind::Semicolon => {
            open.truncate(count_to(open, Frame::Brace));
            return Ok(());
        }
        _ => return Ok(()),
    };
    Ok(open.push(Opened { frame, start })?)
}

/// Adds the warnings about commands that are indented as if what ends before them had them.
pub(crate) fn put_indented(
    alloc: Global,
    text: &[u8],
    tokens: &[Token<'_>],
    found: &mut Vec<Warning>,
) -> Result<(), AllocError> {
    let mut open = Vec::new(alloc);
    let mut before = Kind::Semicolon;
    for (place, token) in tokens.iter().enumerate() {
        if token.kind == Kind::Semicolon
            && before != Kind::CloseBrace
            && let Some(next) = tokens.get(place.saturating_add(1))
            && let Some(warning) = warning_at(text, next.span, &open)
        {
            found.push(warning)?;
        }
        pass(token, &mut open)?;
        before = token.kind;
    }
    Ok(())
}
