//! Lays out a text, checks what was laid out, and tells where a text differs from it.

ghost use Rattle.std.specs.Prelude.{◌≡◌, true, false, IfOk, IfErr, ◌+◌, ◌++◌, OnOk};
ghost use Rattle.vsi_syntax.specs.{Cut.{piece, pieces}, Layout.{IsGood, IsLayout, HasProgram, HasTokens}, declared.layouts.LayoutError.TheVariants.{Memory}};
ghost use Rattle.vsi_syntax.specs.Comments as gaps;
ghost use Rattle.vsi_syntax.specs.Same as sames;
ghost use Rattle.vsi_syntax.specs.Writing as spec;
ghost use Rattle.vsi_syntax.specs.Places as places_spec;

use crate::numbers::{START, moved};
use crate::writing::{laid, part, rest_of};
use crate::{Kind, LexError, ParseError, Token, lex, parse, put_line_column};
use std::alloc::{AllocError, Global};
use thiserror::Error;

/// Why a text isn't laid out.
#[derive(Debug, Drop, Error)]
pub enum LayoutError {
    /// Memory ran out.
    #[error("out of memory")]
    Memory,
    /// The text isn't that of a program.
    #[error("the text has no program")]
    NoProgram,
}

impl From<AllocError> for LayoutError {
    ghost from_gives = { λ _ e. e ≡ Memory };

    fn from(_error: AllocError) -> Self {
        LayoutError::Memory
    }
}

impl From<LexError> for LayoutError {
    ghost use Rattle.vsi_syntax.specs.Errors.{lexical};

    ghost from_gives = { λ inner e. e ≡ lexical inner };

    fn from(error: LexError) -> Self {
        match error {
            LexError::Memory => LayoutError::Memory,
            _ => LayoutError::NoProgram,
        }
    }
}

impl From<ParseError> for LayoutError {
    ghost use Rattle.vsi_syntax.specs.Errors.{syntactic};

    ghost from_gives = { λ inner e. e ≡ syntactic inner };

    fn from(error: ParseError) -> Self {
        match error {
            ParseError::Memory => LayoutError::Memory,
            _ => LayoutError::NoProgram,
        }
    }
}

/// The layout of a text: its canonical text with the comments of the text, each between the same
/// two tokens, and with one blank line where the text has any between two commands.
///
/// A text whose layout would be too long to be read again is its own layout.
///
/// # Errors
///
/// `NoProgram` if the text isn't that of a program, `Memory`.
pub fn layout(alloc: Global, text: &[u8]) -> Result<Vec<u8>, LayoutError>
    ensures laid { IfOk result (λ out. IsLayout text.now out.items) }
    ensures exact { HasProgram text.now → IfErr result (λ e. e ≡ Memory) }
{
    let tokens = lex(alloc, text)?;
    let _program = parse(alloc, &tokens)?;
    let out = laid(alloc, text, &tokens)?;
    if is_good(alloc, text, &tokens, &out)? {
        Ok(out)
    } else {
        Ok(Vec::from_slice(alloc, text)?)
    }
}

/// Whether a proposed layout has the tokens and comments of the text and is laid out as itself.
fn is_good(alloc: Global, text: &[u8], tokens: &[Token<'_>], out: &[u8]) -> Result<bool, AllocError>
    requires { out.now ≡ spec.laid text.now (pieces tokens.now) }
    ensures good { IfOk result (λ is. is ≡ true → IsGood text.now (pieces tokens.now) out.now) }
    ensures not_good { IfOk result
        (λ is. is ≡ false → IsGood text.now (pieces tokens.now) out.now → ⊥) }
{
    let again = match lex(alloc, out) {
        Ok(again) => again,
        Err(error) => match error {
            LexError::Memory => return Err(AllocError),
            _ => return Ok(false),
        },
    };
    let same = is_same(alloc, text, tokens, out, &again)?;
    if same {
        let twice = laid(alloc, out, &again)?;
        Ok(twice.as_slice() == out)
    } else {
        Ok(false)
    }
}

/// The comments in a gap, each with a line feed at its end.
fn comments(alloc: Global, gap: &[u8]) -> Result<Vec<u8>, AllocError>
    ensures { IfOk result (λ text. text.items ≡ gaps.comments false gap.now) }
{
    let mut text = Vec::new(alloc);
    let mut is_inside = false;
    let mut rest = gap;
    while let [b, behind @ ..] = rest {
        if is_inside {
            text.push(*b)?;
            is_inside = *b != b'\n';
        } else if *b == b'#' {
            text.push(*b)?;
            is_inside = true;
        }
        rest = behind;
    }
    if is_inside {
        text.push(b'\n')?;
    }
    Ok(text)
}

/// Whether two tokens are the same: they have one text, or they are numbers of one value.
fn is_same_token(a: &Token<'_>, b: &Token<'_>) -> bool
    ensures { result ≡ sames.is_same_token (piece a.now) (piece b.now) }
{
    if a.text == b.text {
        return true;
    }
    match (a.kind, b.kind) {
        (Kind::Number(first), Kind::Number(second)) => first == second,
        _ => false,
    }
}

/// Whether two texts have the same tokens and comments in the same order.
fn is_same(
    alloc: Global,
    first: &[u8],
    firsts: &[Token<'_>],
    second: &[u8],
    seconds: &[Token<'_>],
) -> Result<bool, AllocError>
    ensures { IfOk result (λ is. is
        ≡ sames.is_same first.now (pieces firsts.now) second.now (pieces seconds.now)) }
{
    let mut a_at = 0;
    let mut b_at = 0;
    let mut a_rest = firsts;
    let mut b_rest = seconds;
    while let [a, a_behind @ ..] = a_rest {
        let [b, b_behind @ ..] = b_rest else {
            return Ok(false);
        };
        if !is_same_token(a, b) {
            return Ok(false);
        }
        let a_gap = part(first, a_at, a.span.start);
        let b_gap = part(second, b_at, b.span.start);
        if comments(alloc, a_gap)? != comments(alloc, b_gap)? {
            return Ok(false);
        }
        a_at = a.span.stop;
        b_at = b.span.stop;
        a_rest = a_behind;
        b_rest = b_behind;
    }
    if !b_rest.is_empty() {
        return Ok(false);
    }
    Ok(comments(alloc, rest_of(first, a_at))? == comments(alloc, rest_of(second, b_at))?)
}

/// The number of bytes with which both texts begin.
fn common(first: &[u8], second: &[u8]) -> usize
    ensures { result ≡ places_spec.common first.now second.now }
{
    let mut a_rest = first;
    let mut b_rest = second;
    let mut count = 0;
    while let [a, a_behind @ ..] = a_rest {
        let [b, b_behind @ ..] = b_rest else {
            return count;
        };
        if *a != *b {
            return count;
        }
        count += 1;
        a_rest = a_behind;
        b_rest = b_behind;
    }
    count
}

/// Adds where two gaps begin to differ, if they do. A position above the greatest `usize`, which no
/// text in memory has, counts as lack of memory.
fn put_gap_change(
    starts: &mut Vec<usize>,
    at: usize,
    gap: &[u8],
    other: &[u8],
) -> Result<(), AllocError>
    ensures { OnOk result
        (starts.new.items ≡ starts.old.items ++ places_spec.gap_change at gap.now other.now) }
{
    if gap == other {
        return Ok(());
    }
    let Some(place) = at.checked_add(common(gap, other)) else {
        return Err(AllocError);
    };
    Ok(starts.push(place)?)
}

/// The positions at which a text begins to differ from another one.
fn changes(
    alloc: Global,
    text: &[u8],
    tokens: &[Token<'_>],
    out: &[u8],
    others: &[Token<'_>],
) -> Result<Vec<usize>, AllocError>
    ensures { IfOk result (λ starts. starts.items
        ≡ places_spec.changes text.now (pieces tokens.now) out.now (pieces others.now)) }
{
    let mut starts = Vec::new(alloc);
    let mut at = 0;
    let mut other_at = 0;
    let mut rest = tokens;
    let mut other_rest = others;
    while let [token, behind @ ..] = rest {
        let [other, other_behind @ ..] = other_rest else {
            starts.push(at)?;
            return Ok(starts);
        };
        let gap = part(text, at, token.span.start);
        let other_gap = part(out, other_at, other.span.start);
        put_gap_change(&mut starts, at, gap, other_gap)?;
        if token.text != other.text {
            starts.push(token.span.start)?;
        }
        at = token.span.stop;
        other_at = other.span.stop;
        rest = behind;
        other_rest = other_behind;
    }
    if other_rest.is_empty() {
        put_gap_change(&mut starts, at, rest_of(text, at), rest_of(out, other_at))?;
    } else {
        starts.push(at)?;
    }
    Ok(starts)
}

/// The lines about these positions of a text.
fn lines_of(alloc: Global, text: &[u8], starts: &[usize]) -> Result<Vec<u8>, AllocError>
    ensures { IfOk result
        (λ lines. lines.items ≡ places_spec.change_lines text.now 0 starts.now) }
{
    let mut lines = Vec::new(alloc);
    let mut spot = START;
    let mut last = 0;
    let mut rest = starts;
    while let [at, behind @ ..] = rest {
        spot = moved(text, spot, *at);
        if spot.line != last {
            put_line_column(&mut lines, spot.line, spot.column)?;
            lines.extend_from_slice(b" differs\n")?;
        }
        last = spot.line;
        rest = behind;
    }
    Ok(lines)
}

/// The lines `LINE:COLUMN differs` about the places in which a text differs from its layout: one
/// for each line of the text, at the first byte of it where what separates two tokens begins to
/// differ, or at its first token that is spelled otherwise.
///
/// # Errors
///
/// `NoProgram` if one of the two isn't a text with tokens, `Memory`.
pub fn places_text(alloc: Global, text: &[u8], out: &[u8]) -> Result<Vec<u8>, LayoutError>
    ensures places { IfOk result (λ lines. places_spec.IsChangeText text.now out.now lines.items) }
    ensures exact { HasTokens text.now → HasTokens out.now → IfErr result (λ e. e ≡ Memory) }
{
    let tokens = lex(alloc, text)?;
    let others = lex(alloc, out)?;
    let starts = changes(alloc, text, &tokens, out, &others)?;
    Ok(lines_of(alloc, text, &starts)?)
}
