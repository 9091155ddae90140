//! Positions of a text: a line and the code units before a place in that line.

ghost use Rattle.std.specs.Prelude.{◌≡◌, ◌≤◌, ◌+◌, ◌<◌, ◌^◌, length, take, drop, true, false, is_some, IfSome};
ghost use Rattle.vsi_client.specs.Places as spec;

use std::alloc::{AllocError, Global};
use vsi_syntax::Span;

/// The distance between two marks of a text.
const SPACE: usize = 32;

/// A place of a text: the byte before it, the client's position for it, and its line and column, both
/// from 1.
#[derive(Clone, Copy)]
struct Mark {
    at: usize,
    last: u8,
    place: Place,
    written: (usize, usize),
}

/// The mark of the beginning of a text.
const START: Mark = Mark {
    at: 0,
    last: 0,
    place: Place {
        line: 0,
        character: 0,
    },
    written: (1, 1),
};

/// A text with marks.
#[derive(Drop)]
pub struct Marked<'p> {
    encoding: Encoding,
    text: &'p [u8],
    marks: Vec<Mark>,
}

impl<'p> Marked<'p> {
    /// A text with its marks.
    pub fn of(alloc: Global, encoding: Encoding, text: &'p [u8]) -> Result<Self, AllocError> {
        let marks = Vec::new(alloc);
        let mut marked = Marked {
            encoding,
            text,
            marks,
        };
        let mut mark = START;
        marked.marks.push(mark)?;
        for number in 0..text.len() / SPACE {
            mark = marked.moved(mark, number.saturating_add(1).saturating_mul(SPACE));
            marked.marks.push(mark)?;
        }
        Ok(marked)
    }

    /// The mark of a place after a mark. A line feed after a carriage return is one end of a line
    /// with it for the client.
    fn moved(&self, mark: Mark, at: usize) -> Mark {
        let (mut last, mut place) = (mark.last, mark.place);
        let (mut line, mut column) = mark.written;
        let part = self.text.get(mark.at..at).unwrap_or(b"");
        for byte in part {
            column = column.saturating_add(1);
            if *byte == b'\n' {
                line = line.saturating_add(1);
                column = 1;
            }
            if *byte == b'\r' || *byte == b'\n' && last != b'\r' {
                place.line = place.line.saturating_add(1);
                place.character = 0;
            } else if *byte != b'\n' {
                place.character = place.character.saturating_add(units(self.encoding, *byte));
            }
            last = *byte;
        }
        Mark {
            at: mark.at.saturating_add(part.len()),
            last,
            place,
            written: (line, column),
        }
    }

    /// The mark of a place.
    fn mark(&self, at: usize) -> Mark {
        let mark = self.marks.get(at / SPACE).copied();
        self.moved(mark.unwrap_or(START), at)
    }

    /// The positions of a part of the text.
    pub fn range(&self, span: Span) -> Range {
        Range {
            start: self.mark(span.start).place,
            stop: self.mark(span.stop).place,
        }
    }

    /// The line and the column of a place, both from 1, as `line_column` counts them.
    pub fn line_column(&self, at: usize) -> (usize, usize) {
        self.mark(at).written
    }
}

/// The code units in which a client counts.
#[derive(Clone, Copy, Debug, PartialEq, Eq)]
pub enum Encoding {
    Utf8,
    Utf16,
}

/// A position: a line, and the code units before the place in that line.
#[derive(Clone, Copy, Debug, PartialEq, Eq)]
pub struct Place {
    pub line: usize,
    pub character: usize,
}

/// The code units that a byte adds: those of its character at the first byte.
pub(crate) fn units(encoding: Encoding, byte: u8) -> usize
    ensures { result ≡ spec.units encoding byte }
{
    match encoding {
        _ if byte < 128 => 1,
        _ if byte < 192 => 0,
        Encoding::Utf8 if byte < 224 => 2,
        Encoding::Utf8 if byte < 240 => 3,
        Encoding::Utf8 => 4,
        Encoding::Utf16 if byte < 240 => 1,
        Encoding::Utf16 => 2,
    }
}

/// Whether a byte ends a line.
fn is_break(byte: u8) -> bool
    ensures { result ≡ spec.is_break byte }
{
    byte == b'\n' || byte == b'\r'
}

/// The length of the first line with its end.
fn line_size(text: &[u8]) -> usize
    ensures size { result ≡ spec.line_size text.now }
    ensures within { result ≤ length text.now }
{
    let mut count = 0;
    let mut rest = text;
    while let [byte, behind @ ..] = rest {
        if *byte == b'\n' {
            return count + 1;
        }
        if *byte == b'\r' {
            return match behind {
                [b'\n', ..] => count + 2,
                _ => count + 1,
            };
        }
        count += 1;
        rest = behind;
    }
    count
}

/// The bytes of a text after the first ones.
fn after(text: &[u8], size: usize) -> &[u8]
    requires { size ≤ length text.now }
    ensures rest { result.now ≡ drop size text.now }
    ensures left { size + length result.now ≡ length text.now }
{
    let (_, rest) = text.split_at(size);
    rest
}

/// The bytes before a line; all of them if there are fewer lines.
fn line_start(text: &[u8], line: usize) -> usize
    ensures start { result ≡ spec.line_start line text.now }
    ensures within { result ≤ length text.now }
{
    let mut start = 0;
    let mut left = line;
    let mut rest = text;
    while left > 0 && !rest.is_empty() {
        let size = line_size(rest);
        start += size;
        left -= 1;
        rest = after(rest, size);
    }
    start
}

/// The bytes of the whole characters within a number of code units, up to the end of the line.
fn in_line(encoding: Encoding, text: &[u8], character: usize) -> usize
    ensures size { result ≡ spec.in_line encoding character text.now }
    ensures within { result ≤ length text.now }
{
    let mut count = 0;
    let mut left = character;
    let mut rest = text;
    while let [byte, behind @ ..] = rest {
        let wanted = units(encoding, *byte);
        if is_break(*byte) || left < wanted {
            return count;
        }
        left -= wanted;
        count += 1;
        rest = behind;
    }
    count
}

/// The beginning of a line of a text: the line's number, and the bytes before it.
#[derive(Clone, Copy)]
pub(crate) struct Line {
    pub(crate) number: usize,
    pub(crate) start: usize,
}

/// The beginning of a line that isn't before this one.
pub(crate) fn line_after(text: &[u8], line: Line, number: usize) -> Option<Line>
    requires line { line.start ≡ spec.line_start line.number text.now }
    requires within { line.start ≤ length text.now }
    ensures number { IfSome result (λ found. found.number ≡ number) }
    ensures start { IfSome result (λ found. found.start ≡ spec.line_start number text.now) }
    ensures within { IfSome result (λ found. found.start ≤ length text.now) }
{
    let more = number.checked_sub(line.number)?;
    let start = line.start + line_start(after(text, line.start), more);
    Some(Line { number, start })
}

/// The bytes before a place in a line.
pub(crate) fn offset_in_line(encoding: Encoding, text: &[u8], line: Line, character: usize) -> usize
    requires line { line.start ≡ spec.line_start line.number text.now }
    requires within { line.start ≤ length text.now }
    ensures offset { result ≡ spec.offset_at encoding text.now line.number character }
    ensures within { result ≤ length text.now }
{
    line.start + in_line(encoding, after(text, line.start), character)
}

/// The bytes before a position. A position past the end of its line is the end of that line, and one
/// inside of a character is the beginning of that character.
pub fn offset_of(encoding: Encoding, text: &[u8], place: Place) -> usize
    ensures offset { result ≡ spec.offset_in encoding text.now place }
    ensures within { result ≤ length text.now }
    ensures boundary { spec.BeginsCharacter (drop result text.now) }
{
    let start = line_start(text, place.line);
    start + in_line(encoding, after(text, start), place.character)
}

/// The bytes of a line without its end.
fn content_size(text: &[u8]) -> usize
    ensures size { result ≡ spec.content_size text.now }
    ensures within { result ≤ length text.now }
{
    let mut count = 0;
    let mut rest = text;
    while let [byte, behind @ ..] = rest {
        if is_break(*byte) {
            return count;
        }
        count += 1;
        rest = behind;
    }
    count
}

/// The code units of a text, if they are fewer than 2^62 bytes.
fn units_in(encoding: Encoding, text: &[u8]) -> usize
    ensures { length text.now < 2 ^ 62 → result ≡ spec.units_in encoding text.now }
{
    let mut count: usize = 0;
    let mut rest = text;
    while let [byte, behind @ ..] = rest {
        count = count.wrapping_add(units(encoding, *byte));
        rest = behind;
    }
    count
}

/// Whether a place so many bytes away is past the first line.
fn is_past(text: &[u8], left: usize) -> bool
    ensures past { result ≡ true → spec.content_size text.now < left }
    ensures some { result ≡ true → 0 < length text.now }
    ensures within { result ≡ false → left ≤ length text.now →
        left ≤ spec.content_size text.now }
{
    !text.is_empty() && left > content_size(text)
}

/// The code units of the first line before a place so many bytes away.
fn units_before(encoding: Encoding, text: &[u8], left: usize) -> usize
    ensures { length text.now < 2 ^ 62 → left ≤ spec.content_size text.now →
        result ≡ spec.units_in encoding (take left text.now) }
{
    let (line, _) = text.split_at(left.min(content_size(text)));
    units_in(encoding, line)
}

/// The position of the place before a byte, unless that is inside a character or a line's end.
pub fn place_of(encoding: Encoding, text: &[u8], at: usize) -> Option<Place>
    ensures denoted { IfSome result (λ place. spec.offset_in encoding text.now place ≡ at) }
    ensures found { length text.now < 2 ^ 62 → spec.IsPlaced text.now at → is_some result ≡ true }
{
    let mut line: usize = 0;
    let mut left = at;
    let mut rest = text;
    while is_past(rest, left) {
        let size = line_size(rest);
        line += 1;
        left = left.saturating_sub(size);
        rest = after(rest, size);
    }
    let character = units_before(encoding, rest, left);
    let place = Place { line, character };
    (offset_of(encoding, text, place) == at).then_some(place)
}

/// A part of a text between two positions.
#[derive(Clone, Copy, Debug, PartialEq, Eq)]
pub struct Range {
    pub start: Place,
    pub stop: Place,
}
