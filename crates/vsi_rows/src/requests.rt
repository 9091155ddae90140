//! Calls about the requests that arguments make.

use crate::row::{Row, Wrong};
use std::alloc::{AllocError, Global};
use vsi_arguments::{ArgumentsError, asks_help, manner_of, request_of};

/// The arguments in a line, each after a single space; an empty line has none.
fn words_of(alloc: Global, line: &str) -> Result<Vec<String>, AllocError> {
    let mut words = Vec::new(alloc);
    if !line.is_empty() {
        for word in line.split(' ') {
            words.push(String::from_str(alloc, word)?)?;
        }
    }
    Ok(words)
}

/// `asked LINE`: whether the arguments of the line make a request, whose parts the contract of
/// `request_of` determines; no answer if the parser of the command line disagrees.
pub(crate) fn asked(row: &mut Row<'_>) -> Result<(), Wrong> {
    let words = words_of(row.alloc, row.rest)?;
    let is_made = request_of(row.alloc, words.as_slice())?.is_some();
    match manner_of(row.alloc, words.as_slice()) {
        Ok(_) if is_made => row.put_verdict(true),
        Err(ArgumentsError::Mistake(_)) if !is_made => row.put_verdict(false),
        Err(ArgumentsError::Memory) => Err(Wrong::Memory),
        _ => Err(Wrong::Row),
    }
}

/// `help LINE`: whether the arguments of the line ask for help or the version.
pub(crate) fn help_asked(row: &mut Row<'_>) -> Result<(), Wrong> {
    let words = words_of(row.alloc, row.rest)?;
    row.put_verdict(asks_help(words.as_slice()))
}
