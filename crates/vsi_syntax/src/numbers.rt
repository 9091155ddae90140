//! Numbers and positions as every text writes them, and the lines and columns of a text.

ghost use Rattle.std.specs.{Prelude.{◌≡◌, ◌+◌, take, length, ◌++◌, codes, decimal, is_ok, if◌then◌else◌}, Fmt.{signed_decimal}};
ghost use Rattle.vsi_syntax.specs.Lines.{place_text};
ghost use Rattle.vsi_syntax.specs.Lines as spec;
ghost use Rattle.vsi_syntax.specs.Places as places;

use itoa::Buffer;
use std::alloc::AllocError;

/// A position in a text with its line and column, which are counted from 1.
#[derive(Clone, Copy)]
pub(crate) struct Spot {
    pub(crate) at: usize,
    pub(crate) line: usize,
    pub(crate) column: usize,
}

/// The beginning of a text.
pub(crate) const START: Spot = Spot {
    at: 0,
    line: 1,
    column: 1,
};

/// The spot of a position. The text is scanned from another spot on, if that comes first.
pub(crate) fn moved(text: &[u8], spot: Spot, to: usize) -> Spot
    requires { places.IsSpot text.now spot }
    ensures spot { places.IsSpot text.now result }
    ensures line { result.line ≡ 1 + spec.breaks (take to text.now) }
    ensures column { result.column ≡ 1 + length (spec.last_line (take to text.now)) }
{
    let end = to.min(text.len());
    let from = if spot.at <= end { spot } else { START };
    let (mut line, mut column) = (from.line, from.column);
    let mut i = from.at;
    while i < end {
        if text[i] == b'\n' {
            line += 1;
            column = 1;
        } else {
            column += 1;
        }
        i += 1;
    }
    Spot {
        at: i,
        line,
        column,
    }
}

/// The line and the column of a position, both counted from 1. Only a line feed ends a line: it is
/// the last byte of its own line, and a carriage return is a byte like any other. A position past
/// the end counts as the end.
pub fn line_column(text: &[u8], at: usize) -> (usize, usize)
    ensures line { result.0 ≡ 1 + spec.breaks (take at text.now) }
    ensures column { result.1 ≡ 1 + length (spec.last_line (take at text.now)) }
{
    let spot = moved(text, START, at);
    (spot.line, spot.column)
}

/// Appends a number in decimal. If memory runs out, the text is unchanged.
pub fn put_number(text: &mut Vec<u8>, number: usize) -> Result<(), AllocError>
    ensures written { text.new.items ≡ (if is_ok result
        then text.old.items ++ decimal number else text.old.items) }
{
    let mut buffer = Buffer::new();
    text.extend_from_slice(buffer.format(number).as_bytes())
}

/// Appends a machine word in decimal, with a minus sign if it is negative. If memory runs out, the
/// text is unchanged.
pub fn put_word(text: &mut Vec<u8>, word: i64) -> Result<(), AllocError>
    ensures written { text.new.items ≡ (if is_ok result
        then text.old.items ++ signed_decimal word else text.old.items) }
{
    let mut buffer = Buffer::new();
    text.extend_from_slice(buffer.format(word).as_bytes())
}

/// Appends `LINE:COLUMN`. If memory runs out, the text is unchanged.
pub fn put_line_column(text: &mut Vec<u8>, line: usize, column: usize) -> Result<(), AllocError>
    ensures written { text.new.items ≡ (if is_ok result
        then text.old.items ++ decimal line ++ codes ":" ++ decimal column else text.old.items) }
{
    let before = text.len();
    put_number(text, line)?;
    if text.extend_from_slice(b":").is_err() || put_number(text, column).is_err() {
        text.truncate(before);
        return Err(AllocError);
    }
    Ok(())
}

/// Appends `LINE:COLUMN` for a position of a source text, both counted from 1. This scans the
/// source up to the position. If memory runs out, the text is unchanged.
pub fn put_place(text: &mut Vec<u8>, source: &[u8], at: usize) -> Result<(), AllocError>
    ensures written { text.new.items ≡ (if is_ok result
        then text.old.items ++ place_text source.now at else text.old.items) }
{
    let (line, column) = line_column(source, at);
    put_line_column(text, line, column)
}
