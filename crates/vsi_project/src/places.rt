//! The places of tables and keys in a project file. Nothing is promised of them.

use vsi_syntax::line_column;
use vsi_telling::line_place;

/// The bytes that may precede a key in its line.
const BEFORE: &[u8] = b" \t\"'";

/// The beginning of the header of a program's table.
const HEADER: &[u8] = b"[programs.";

/// The byte at a position of the header of the table of this program, `[programs.NAME]`.
fn header_byte(name: &[u8], at: usize) -> Option<u8> {
    match at.checked_sub(HEADER.len()) {
        None => HEADER.get(at).copied(),
        Some(at) if at == name.len() => Some(b']'),
        Some(at) => name.get(at).copied(),
    }
}

/// Whether a line is the header of the table of this program, maybe with blanks and quotes.
fn is_header(line: &[u8], name: &[u8]) -> bool {
    let mut seen: usize = 0;
    for byte in line {
        if BEFORE.contains(byte) {
            continue;
        }
        match header_byte(name, seen) {
            Some(next) if next == *byte => seen = seen.saturating_add(1),
            Some(_) => return false,
            None => return true,
        }
    }
    header_byte(name, seen).is_none()
}

/// The position of the table of a program, or else of its key.
pub(crate) fn program_place(bytes: &[u8], name: &[u8]) -> usize {
    let mut start: usize = 0;
    for line in bytes.split(|byte| *byte == b'\n') {
        if is_header(line, name) {
            return start;
        }
        start = start.saturating_add(line.len()).saturating_add(1);
    }
    line_place(bytes, name, BEFORE, 0).map_or(bytes.len(), |span| span.start)
}

/// The line and the column of a key in the table at a position, or else of the table.
pub(crate) fn key_place(bytes: &[u8], start: usize, key: &[u8]) -> (usize, usize) {
    let rest = bytes.get(start..).unwrap_or(b"");
    let offset = line_place(rest, key, BEFORE, 0).map_or(0, |span| span.start);
    line_column(bytes, start.saturating_add(offset))
}
