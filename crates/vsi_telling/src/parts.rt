//! The parts of a file: names, the places of words, and tables of a TOML document.

use std::alloc::{AllocError, Global};
use toml::{Table, Value};
use vsi_lattice::{Class, Classes, Lattice};
use vsi_syntax::Span;

/// How many bytes of a word are compared at most.
const LONGEST: usize = 64;

/// The most classes of a lattice.
const MOST_CLASSES: usize = 64;

/// The part of a text that a span covers.
pub fn part_of(text: &[u8], span: Span) -> &[u8] {
    let stop = span.stop.min(text.len());
    let start = span.start.min(stop);
    &text[start..stop]
}

/// The part of this length from a place on.
pub fn span_at(start: usize, length: usize) -> Span {
    Span {
        start,
        stop: start.saturating_add(length),
    }
}

/// The beginning of a word.
fn beginning(word: &[u8]) -> &[u8] {
    &word[..word.len().min(LONGEST)]
}

/// Whether the bytes are a word and a quote after it.
fn is_quoted(bytes: &[u8], word: &[u8]) -> bool {
    match bytes.strip_prefix(beginning(word)) {
        Some([b'"' | b'\'', ..]) => true,
        Some(_) => word.len() > LONGEST,
        None => false,
    }
}

/// The place of a word between quotes, after so many other times.
pub fn quoted_place(bytes: &[u8], word: &[u8], others: usize) -> Option<Span> {
    let is_here = |at: &usize| match bytes.get(*at..) {
        Some([b'"' | b'\'', rest @ ..]) => is_quoted(rest, word),
        _ => false,
    };
    let quote = (0..bytes.len()).filter(is_here).nth(others)?;
    Some(span_at(quote.saturating_add(1), word.len()))
}

/// The place of a word at the beginning of a line, after these blanks and so many other times.
pub fn line_place(bytes: &[u8], word: &[u8], blanks: &[u8], others: usize) -> Option<Span> {
    let mut left = others;
    let mut is_at_beginning = true;
    for at in 0..bytes.len() {
        if is_at_beginning && bytes[at..].starts_with(beginning(word)) {
            if left == 0 {
                return Some(span_at(at, word.len()));
            }
            left -= 1;
        }
        is_at_beginning = bytes[at] == b'\n' || is_at_beginning && blanks.contains(&bytes[at]);
    }
    None
}

/// The place of a word at the beginning of a line, after blanks and a quote.
pub fn key_place(bytes: &[u8], word: &[u8]) -> Option<Span> {
    line_place(bytes, word, b" \t\"'", 0)
}

/// The place of a word without quotes after a bracket or a comma.
pub(crate) fn bare_place(bytes: &[u8]) -> Option<Span> {
    let mut is_quoted = false;
    let mut is_behind = false;
    for at in 0..bytes.len() {
        let byte = bytes[at];
        if byte == b'"' {
            is_quoted = !is_quoted;
            is_behind = false;
        } else if is_quoted || byte == b' ' {
            continue;
        } else if is_behind && byte.is_ascii_alphabetic() {
            return Some(span_at(at, 1));
        } else {
            is_behind = byte == b'[' || byte == b',';
        }
    }
    None
}

/// The names of the classes of a lattice, in their order.
pub fn class_names<'l>(alloc: Global, lattice: &'l Lattice) -> Result<Vec<&'l [u8]>, AllocError> {
    let mut names = Vec::new(alloc);
    for number in 0..lattice.count() {
        names.push(lattice.name(Class::at(number as u8)))?;
    }
    Ok(names)
}

/// The table that a file is, if it is one.
pub fn table_in(alloc: Global, bytes: &[u8]) -> Result<Option<Table>, AllocError> {
    match toml::table_from_slice(alloc, bytes) {
        Ok(table) => Ok(Some(table)),
        Err(error) if error.is_memory() => Err(AllocError),
        Err(_) => Ok(None),
    }
}

/// The array at a key, or an empty one.
pub fn array_in<'t>(table: &'t Table, key: &str) -> &'t [Value] {
    let array = table.get(key).and_then(|value| value.as_array());
    array.map(|array| array.as_slice()).unwrap_or(&[])
}

/// The names in an array of a TOML document.
pub fn texts_in<'t>(alloc: Global, values: &'t [Value]) -> Result<Vec<&'t [u8]>, AllocError> {
    let names = values.iter().filter_map(|value| value.as_str());
    names.map(|name| name.as_bytes()).collect(alloc)
}

/// The first names of the classes of a table, as many as a lattice may have.
pub fn table_classes<'t>(alloc: Global, table: &'t Table) -> Result<Vec<&'t [u8]>, AllocError> {
    let classes = array_in(table, "classes");
    texts_in(alloc, &classes[..classes.len().min(MOST_CLASSES)])
}

/// Whether one of the values is this text.
pub fn has_text(values: &[Value], name: &[u8]) -> bool {
    values.iter().any(|value| value.as_str().is_some_and(|text| text.as_bytes() == name))
}
