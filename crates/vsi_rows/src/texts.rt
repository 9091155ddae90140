//! Calls that read a source text.

use crate::row::{Row, Wrong};
use std::alloc::Global;
use vsi_client::{Encoding, place_of};
use vsi_compiler::{CompileError, format_text};
use vsi_syntax::{Program, is_name, lex, line_column, parse};

/// `lex TEXT`: each token's kind and position, or the fault.
pub(crate) fn tokens(row: &mut Row<'_>) -> Result<(), Wrong> {
    let text = row.text()?;
    match lex(row.alloc, &text) {
        Ok(tokens) => {
            for token in &tokens {
                row.put_line(&(token.kind, token.span))?;
            }
            Ok(())
        }
        Err(error) => row.put_line(&error),
    }
}

/// The tree of a text.
fn tree_of<'t>(alloc: Global, text: &'t [u8]) -> Result<Program<'t>, CompileError> {
    let tokens = lex(alloc, text)?;
    Ok(parse(alloc, &tokens)?)
}

/// `parse TEXT`: that the text is a program, or the fault.
pub(crate) fn parsed(row: &mut Row<'_>) -> Result<(), Wrong> {
    let text = row.text()?;
    let _tree = tree_of(row.alloc, &text)?;
    row.put("accepted\n")
}

/// `format TEXT`: the canonical text of the text, or the fault.
pub(crate) fn formatted(row: &mut Row<'_>) -> Result<(), Wrong> {
    let text = row.text()?;
    let formatted = format_text(row.alloc, &text)?;
    row.put_bytes(&formatted)
}

/// `name TEXT`: whether the text is a name.
pub(crate) fn name(row: &mut Row<'_>) -> Result<(), Wrong> {
    let text = row.text()?;
    row.put_line(&is_name(&text))
}

/// `place AT TEXT`: the line and the column of the byte with this number.
pub(crate) fn place(row: &mut Row<'_>) -> Result<(), Wrong> {
    let at = row.number()? as usize;
    let text = row.text()?;
    row.put_line(&line_column(&text, at))
}

/// `place_of ENCODING AT TEXT`: the position in an editor of the byte with this number, if a
/// character begins there.
pub(crate) fn position(row: &mut Row<'_>) -> Result<(), Wrong> {
    let encoding = match row.field() {
        "utf8" => Encoding::Utf8,
        _ => Encoding::Utf16,
    };
    let at = row.number()? as usize;
    let text = row.text()?;
    row.put_line(&place_of(encoding, &text, at))
}
