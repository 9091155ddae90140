//! Messages in a stream of a client, each after a header with its length, and paths of files beside
//! its documents.

ghost use Rattle.std.specs.Prelude.{◌≤◌, length, IfSome};
ghost use Rattle.vsi_client.specs.Pieces as spec;

use percent_encoding::percent_decode;
use std::alloc::{AllocError, Global};

/// A piece at the beginning of a stream of messages.
#[derive(Clone, Copy, Debug, PartialEq, Eq)]
pub enum Piece {
    /// The end of the next message hasn't come yet.
    Unfinished,
    /// A message of this many bytes after a header of this many bytes.
    Message(usize, usize),
    /// A header that gives no length, or is too long.
    Faulty,
}

/// The longest header, in bytes.
const LONGEST_HEADER: usize = 4096;

/// The longest message, in bytes: a text of the greatest length, each of whose bytes is escaped.
const LONGEST_MESSAGE: usize = 16_777_216;

/// The number of bytes up to and with the end of the header, if it is there.
fn header_size(bytes: &[u8]) -> Option<usize>
    ensures { IfSome result (λ size. size ≤ length bytes.now) }
{
    for end in 4..bytes.len().min(LONGEST_HEADER).saturating_add(1) {
        if end <= bytes.len() && bytes[..end].ends_with(b"\r\n\r\n") {
            return Some(end);
        }
    }
    None
}

/// The number that digits spell, if it is small enough for a message.
fn number_in(digits: &[u8]) -> Option<usize> {
    let mut number: usize = 0;
    for digit in digits {
        let digit = char::from(*digit).to_digit(10)?;
        number = number.checked_mul(10)?.checked_add(digit as usize)?;
    }
    if digits.is_empty() || number > LONGEST_MESSAGE {
        return None;
    }
    Some(number)
}

/// The length that a header gives.
fn message_size(header: &[u8]) -> Option<usize> {
    let name = b"content-length:";
    for line in header.split(|byte| *byte == b'\n') {
        if let Some((start, rest)) = line.split_at_checked(name.len())
            && start.eq_ignore_ascii_case(name)
            && let Some(length) = number_in(rest.trim_ascii())
        {
            return Some(length);
        }
    }
    None
}

/// The piece at the beginning of a stream.
pub fn next_piece(bytes: &[u8]) -> Piece
    ensures within { spec.IsWithin (length bytes.now) result }
{
    let Some(header) = header_size(bytes) else {
        if bytes.len() >= LONGEST_HEADER {
            return Piece::Faulty;
        }
        return Piece::Unfinished;
    };
    match message_size(&bytes[..header]) {
        Some(size) if size <= bytes.len() - header => Piece::Message(header, size),
        Some(_) => Piece::Unfinished,
        None => Piece::Faulty,
    }
}

/// The path of a file beside a document, whose name spells a path after `file:` and a host.
pub fn path_beside(alloc: Global, uri: &[u8], name: &[u8]) -> Result<String, AllocError> {
    if name.starts_with(b"/") {
        return String::from_utf8_lossy(alloc, name);
    }
    let named = uri.strip_prefix(b"file://").unwrap_or(b"");
    let host = named.iter().take_while(|byte| **byte != b'/').count();
    let mut path = Vec::new(alloc);
    percent_decode(named.get(host..).unwrap_or(b"")).append_to(&mut path)?;
    let last = path.iter().rev().take_while(|byte| **byte != b'/').count();
    path.truncate(path.len().saturating_sub(last));
    path.extend_from_slice(name)?;
    String::from_utf8_lossy(alloc, &path)
}
