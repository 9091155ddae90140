//! Writes the layout of a text: its tokens, and the blanks and comments between them.

ghost use Rattle.std.specs.Prelude.{◌≡◌, ◌≤◌, ◌++◌, drop, IfOk, OnOk};
ghost use Rattle.vsi_syntax.specs.{Cut.{pieces}};
ghost use Rattle.vsi_syntax.specs.Comments as comments;
ghost use Rattle.vsi_syntax.specs.Gaps as blanks;
ghost use Rattle.vsi_syntax.specs.Joints as joints;
ghost use Rattle.vsi_syntax.specs.Writing as spec;

use crate::printer::put_spaces;
use crate::{Kind, Token, put_word};
use std::alloc::{AllocError, Global};

/// The separation of two tokens without comments between them.
#[derive(Clone, Copy, Debug)]
enum Joint {
    /// Nothing, before the first token.
    Start,
    /// Nothing.
    Nothing,
    /// A space.
    Space,
    /// The end of the line, and the indentation of the next one.
    Line,
    /// The end of the last line.
    End,
}

/// How a text is laid out between two tokens.
#[derive(Clone, Copy, Debug)]
struct Place {
    /// The separation of the tokens without comments between them.
    joint: Joint,
    /// Whether a blank line is kept.
    keeps_blank: bool,
    /// The levels of indentation of a comment.
    comment_level: u8,
    /// The levels of indentation of the next token if it begins a line.
    token_level: u8,
}

/// The separation of a token, if there is one, from the next, if there is one.
fn joint_of(before: Option<Kind>, after: Option<Kind>) -> Joint
    ensures { result ≡ joints.joint_of before after }
{
    match (before, after) {
        (None, _) => Joint::Start,
        (Some(_), None) => Joint::End,
        (Some(Kind::Semicolon | Kind::OpenBrace), _) | (_, Some(Kind::CloseBrace)) => Joint::Line,
        (Some(Kind::Open), _) | (_, Some(Kind::Close | Kind::Semicolon)) => Joint::Nothing,
        _ => Joint::Space,
    }
}

/// The levels of indentation of a comment there, and of the token that follows if it begins a line:
/// the same, except that the comment is within the block that the token closes.
fn levels(joint: Joint, after: Option<Kind>, depth: u8) -> (u8, u8)
    requires { depth ≤ 200 }
    ensures comment { result.0 ≡ joints.comment_level joint after depth }
    ensures token { result.1 ≡ joints.token_level joint after depth }
{
    let Some(kind) = after else {
        return (depth, depth);
    };
    match (joint, kind) {
        // These are no further in than their command.
        (
            Joint::Nothing | Joint::Space,
            Kind::Then | Kind::Else | Kind::Do | Kind::In | Kind::OpenBrace | Kind::Semicolon,
        ) => (depth, depth),
        (Joint::Nothing | Joint::Space, _) => (depth + 1, depth + 1),
        (_, Kind::CloseBrace) => (depth, depth.saturating_sub(1)),
        _ => (depth, depth),
    }
}

/// How a text is laid out between two tokens, within this number of blocks.
fn place_of(before: Option<Kind>, after: Option<Kind>, depth: u8) -> Place
    requires { depth ≤ 200 }
    ensures { result ≡ joints.place_of before after depth }
{
    let joint = joint_of(before, after);
    let (comment_level, token_level) = levels(joint, after, depth);
    let keeps_blank = match (before, after) {
        (Some(kind), Some(_)) => matches!(kind, Kind::Semicolon),
        _ => true,
    };
    Place {
        joint,
        keeps_blank,
        comment_level,
        token_level,
    }
}

/// The state of the reader of a gap.
#[derive(Clone, Copy, Debug)]
struct Cursor {
    /// Whether the position is inside a comment.
    is_inside: bool,
    /// The number of line feeds since the last comment or token, up to two.
    breaks: u8,
    /// Whether a comment was read.
    has_comment: bool,
}

/// At the beginning of a gap.
const FRESH: Cursor = Cursor {
    is_inside: false,
    breaks: 0,
    has_comment: false,
};

/// Inside a comment.
const INSIDE: Cursor = Cursor {
    is_inside: true,
    breaks: 0,
    has_comment: true,
};

/// After the line feed of a comment.
const AFTER_COMMENT: Cursor = Cursor {
    is_inside: false,
    breaks: 1,
    has_comment: true,
};

/// Writes a new line at a level of indentation, after a blank one if the text has one that is kept.
fn put_line(out: &mut Vec<u8>, place: &Place, cursor: Cursor, level: u8) -> Result<(), AllocError>
    ensures { OnOk result (out.new.items ≡ out.old.items ++ blanks.new_line place.now cursor level) }
{
    if place.keeps_blank && 2 <= cursor.breaks {
        out.extend_from_slice(b"\n\n")?;
    } else {
        out.extend_from_slice(b"\n")?;
    }
    put_spaces(out, u16::from(level))
}

/// Writes what a byte of a gap makes, and returns what was read then.
fn put_byte(out: &mut Vec<u8>, place: &Place, cursor: Cursor, b: u8) -> Result<Cursor, AllocError>
    ensures { IfOk result (λ after. out.new.items ≡ out.old.items ++ blanks.byte_text place.now cursor b
        × (after ≡ blanks.cursor_after cursor b)) }
{
    if cursor.is_inside {
        if b == b'\n' {
            return Ok(AFTER_COMMENT);
        }
        out.push(b)?;
        return Ok(cursor);
    }
    if b == b'#' {
        if cursor.has_comment || cursor.breaks != 0 && !matches!(place.joint, Joint::Start) {
            put_line(out, place, cursor, place.comment_level)?;
        } else if !matches!(place.joint, Joint::Start) {
            out.extend_from_slice(b" ")?;
        }
        out.push(b)?;
        return Ok(INSIDE);
    }
    let breaks = if b == b'\n' && cursor.breaks < 2 {
        cursor.breaks + 1
    } else {
        cursor.breaks
    };
    Ok(Cursor { breaks, ..cursor })
}

/// Lays out a gap.
fn put_gap(out: &mut Vec<u8>, place: &Place, gap: &[u8]) -> Result<(), AllocError>
    ensures { OnOk result
        (out.new.items ≡ out.old.items ++ blanks.gap_text place.now blanks.fresh gap.now) }
{
    let mut cursor = FRESH;
    let mut rest = gap;
    while let [b, behind @ ..] = rest {
        cursor = put_byte(out, place, cursor, *b)?;
        rest = behind;
    }
    match place.joint {
        Joint::End => out.extend_from_slice(b"\n"),
        Joint::Start | Joint::Nothing if !cursor.has_comment => Ok(()),
        Joint::Space if !cursor.has_comment => out.extend_from_slice(b" "),
        _ => put_line(out, place, cursor, place.token_level),
    }
}

/// The part of a text from one position up to another, empty if there is none.
pub(crate) fn part(text: &[u8], from: usize, to: usize) -> &[u8]
    ensures { result.now ≡ comments.part text.now from to }
{
    let rest = rest_of(text, from);
    let length = to.saturating_sub(from);
    if length <= rest.len() {
        &rest[..length]
    } else {
        rest
    }
}

/// The text from a position on, empty if there is none.
pub(crate) fn rest_of(text: &[u8], from: usize) -> &[u8]
    ensures { result.now ≡ drop from text.now }
{
    if from <= text.len() {
        &text[from..]
    } else {
        &[]
    }
}

/// The layout of a text with these tokens.
pub(crate) fn laid(alloc: Global, text: &[u8], tokens: &[Token<'_>]) -> Result<Vec<u8>, AllocError>
    ensures { IfOk result (λ out. out.items ≡ spec.laid text.now (pieces tokens.now)) }
{
    let mut out = Vec::new(alloc);
    let mut at = 0;
    let mut before = None;
    let mut depth = 0;
    let mut rest = tokens;
    while let [token, behind @ ..] = rest {
        let gap = part(text, at, token.span.start);
        put_gap(&mut out, &place_of(before, Some(token.kind), depth), gap)?;
        match token.kind {
            Kind::Number(number) => put_word(&mut out, number)?,
            _ => out.extend_from_slice(token.text)?,
        }
        at = token.span.stop;
        before = Some(token.kind);
        depth = match token.kind {
            Kind::OpenBrace if depth < 200 => depth + 1,
            Kind::CloseBrace => depth.saturating_sub(1),
            _ => depth,
        };
        rest = behind;
    }
    put_gap(&mut out, &place_of(before, None, depth), rest_of(text, at))?;
    Ok(out)
}
