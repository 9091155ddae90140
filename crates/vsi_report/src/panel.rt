//! The source text in a page, with the class of each name and the steps of a walk. Comments, and
//! characters that aren't visible or change the direction of a line, are set apart.

ghost use Rattle.std.specs.Prelude.{◌≡◌, ◌<◌, ◌++◌, ◌∷◌, ℕ, List, [], length, slice_index, OnOk, IfOk};
ghost use Rattle.vsi_report.specs.{Reading.{Shows}, Panel.{attribute, line_tag}};

use crate::facts::colour;
use crate::page::Part::{Markup, Number};
use crate::page::{Added, Made, Piece, either, fill, put_byte, put_escaped};
use crate::report::View;
use itoa::Buffer;
use std::alloc::{AllocError, Global};
use vsi_client::Mention;
use vsi_syntax::{Kind, LexError, Token, lex};

/// The names of the control characters below the space.
const CONTROLS: [&[u8]; 32] = [
    b"NUL", b"SOH", b"STX", b"ETX", b"EOT", b"ENQ", b"ACK", b"BEL", b"BS", b"TAB", b"LF", b"VT",
    b"FF", b"CR", b"SO", b"SI", b"DLE", b"DC1", b"DC2", b"DC3", b"DC4", b"NAK", b"SYN", b"ETB",
    b"CAN", b"EM", b"SUB", b"ESC", b"FS", b"GS", b"RS", b"US",
];

/// The characters of several bytes that are invisible or turn a line around.
const UNSEEN: [u32; 18] = [
    0xd89c, 0xe2808b, 0xe2808c, 0xe2808d, 0xe2808e, 0xe2808f, 0xe280a8, 0xe280a9, 0xe280aa,
    0xe280ab, 0xe280ac, 0xe280ad, 0xe280ae, 0xe281a6, 0xe281a7, 0xe281a8, 0xe281a9, 0xefbbbf,
];

/// The labels of these characters.
const LABELS: [&[u8]; 18] = [
    b"U+061C", b"U+200B", b"U+200C", b"U+200D", b"U+200E", b"U+200F", b"U+2028", b"U+2029",
    b"U+202A", b"U+202B", b"U+202C", b"U+202D", b"U+202E", b"U+2066", b"U+2067", b"U+2068",
    b"U+2069", b"U+FEFF",
];

/// The byte of a text at a position; a line feed past the end.
fn byte_at(source: &[u8], at: usize) -> u8 {
    source.get(at).copied().unwrap_or(b'\n')
}

/// Whether a line ends at a position: at its line feed, or at the carriage return before that.
pub(crate) fn ends_at(source: &[u8], at: usize) -> bool {
    match byte_at(source, at) {
        b'\n' => true,
        b'\r' => byte_at(source, at.saturating_add(1)) == b'\n',
        _ => false,
    }
}

/// The character at a position, if it isn't visible: its length and its label.
pub(crate) fn hidden_at(source: &[u8], at: usize) -> Option<(usize, Piece)> {
    let byte = byte_at(source, at);
    if (32 <= byte && byte < 127) || byte == b'\t' || ends_at(source, at) {
        return None;
    }
    if byte < 128 {
        return Some((1, CONTROLS.get(byte as usize).copied().unwrap_or(b"DEL")));
    }
    let length = if byte < 0xe0 { 2 } else { 3 };
    let mut code: u32 = 0;
    for part in source.get(at..at.saturating_add(length))? {
        code = (code << 8) | *part as u32;
    }
    let place = UNSEEN.iter().position(|unseen| *unseen == code)?;
    Some((length, LABELS.get(place).copied()?))
}

/// What begins at a position before `stop`: the end of the part, its kind, which is empty if it is
/// plain, its label, and whether a comment goes on after it.
fn mark_at(source: &[u8], at: usize, stop: usize, is_comment: bool) -> (usize, Piece, Piece, bool) {
    if let Some((length, label)) = hidden_at(source, at) {
        let end = at.saturating_add(length).min(stop);
        return (end, b"mark", label, is_comment);
    }
    if ends_at(source, at) {
        return (at.saturating_add(1).min(stop), b"", b"", false);
    }
    // A part ends where a line ends, a comment begins, or a character isn't visible.
    let is_note = is_comment || byte_at(source, at) == b'#';
    let ends = |place: &usize| {
        let is_start = byte_at(source, *place) == b'#' && !is_note;
        is_start || ends_at(source, *place) || hidden_at(source, *place).is_some()
    };
    let end = (at..stop).find(ends).unwrap_or(stop);
    (end, either(is_note, b"note", b""), b"", is_note)
}

/// A part of a source text: its first byte, the byte after it, its kind, and its two labels.
#[derive(Drop)]
pub(crate) struct Tagged {
    pub(crate) start: usize,
    pub(crate) stop: usize,
    pub(crate) kind: Piece,
    pub(crate) label: Vec<u8>,
    pub(crate) steps: Vec<u8>,
}

/// Adds the beginning of a line.
fn put_line(page: &mut Vec<u8>, number: usize) -> Added
    ensures { OnOk result (page.new.items ≡ page.old.items ++ line_tag number) }
{
    page.extend_from_slice(b"<span class=\"line\" id=\"L")?;
    put_escaped(page, Buffer::new().format(number).as_bytes())?;
    page.extend_from_slice(b"\">")
}

/// Adds an attribute of a part, up to the end of its value, unless that is empty.
fn put_attribute(page: &mut Vec<u8>, begin: Piece, value: &[u8]) -> Added
    ensures { OnOk result (page.new.items ≡ page.old.items ++ attribute begin.now value.now) }
{
    match value {
        [] => Ok(()),
        [_, ..] => {
            page.extend_from_slice(begin)?;
            put_escaped(page, value)
        }
    }
}

/// Ends the part with a number, if it ends at a position, and answers which part comes next.
fn put_end(page: &mut Vec<u8>, parts: &[Tagged], number: usize, at: usize) -> Made<usize>
    ensures { (t : List ℕ) → Shows page.old.items t → OnOk result (Shows page.new.items t) }
{
    if !parts.get(number).is_some_and(|part| part.stop == at) {
        return Ok(number);
    }
    page.extend_from_slice(b"</b>")?;
    Ok(number.saturating_add(1))
}

/// Adds the beginning of the part with a number, if it begins at a position.
fn put_begin(page: &mut Vec<u8>, parts: &[Tagged], number: usize, at: usize) -> Added
    ensures { (t : List ℕ) → Shows page.old.items t → OnOk result (Shows page.new.items t) }
{
    let Some(part) = parts.get(number).filter(|part| part.start == at) else {
        return Ok(());
    };
    page.extend_from_slice(b"<b class=\"")?;
    put_escaped(page, part.kind)?;
    put_attribute(page, b"\" data-class=\"", &part.label)?;
    put_attribute(page, b"\" data-step=\"", &part.steps)?;
    page.extend_from_slice(b"\">")?;
    Ok(())
}

/// Adds the byte of a source text at a position, with the tags before it. The place is the number
/// of the part that begins or ends next, and that of the line.
fn put_at(
    page: &mut Vec<u8>,
    source: &[u8],
    parts: &[Tagged],
    at: usize,
    place: (usize, usize),
) -> Made<(usize, usize)>
    requires { at < length source.now }
    ensures { (t : List ℕ) → Shows page.old.items t
        → OnOk result (Shows page.new.items (t ++ slice_index source.now at ∷ [])) }
{
    let part = put_end(page, parts, place.0, at)?;
    put_begin(page, parts, part, at)?;
    put_byte(page, source[at])?;
    if source[at] != b'\n' || at + 1 == source.len() {
        return Ok((part, place.1));
    }
    let line = place.1.saturating_add(1);
    page.extend_from_slice(b"</span>")?;
    put_line(page, line)?;
    Ok((part, line))
}

/// The panel of a text, with these parts set apart, which are in order.
pub(crate) fn panel_of(alloc: Global, source: &[u8], parts: &[Tagged]) -> Made<Vec<u8>>
    ensures { IfOk result (λ page. Shows page.items source.now) }
{
    let mut page = Vec::new(alloc);
    let mut place = (0, 1);
    put_line(&mut page, 1)?;
    for at in 0..source.len() {
        place = put_at(&mut page, source, parts, at, place)?;
    }
    put_end(&mut page, parts, place.0, source.len())?;
    page.extend_from_slice(b"</span>")?;
    Ok(page)
}

/// A part without steps.
fn plain(alloc: Global, start: usize, stop: usize, kind: Piece, label: Piece) -> Made<Tagged> {
    Ok(Tagged {
        start,
        stop,
        kind,
        label: label.to_vec(alloc)?,
        steps: Vec::new(alloc),
    })
}

/// Adds the comments from a position up to another, characters that aren't visible, and a fault.
fn put_marks(parts: &mut Vec<Tagged>, view: &View<'_>, from: usize, stop: usize) -> Added {
    let fault = view.fault.unwrap_or(usize::MAX);
    let mut at = from;
    let mut is_comment = false;
    for _ in from..stop {
        if at >= stop {
            return Ok(());
        }
        let limit = if at < fault { stop.min(fault) } else { stop };
        let (mut end, mut kind, label, goes_on) = mark_at(view.source, at, limit, is_comment);
        is_comment = goes_on;
        if at == fault && kind.is_empty() && !ends_at(view.source, at) {
            // A name, or a character.
            let ends = |place: &usize| {
                let byte = byte_at(view.source, *place);
                let is_letter = byte.is_ascii_alphanumeric() || byte == b'_' || byte >= 128;
                !is_letter || hidden_at(view.source, *place).is_some()
            };
            let found = (at.saturating_add(1)..stop).find(ends);
            (end, kind) = (found.unwrap_or(stop), b"fault");
        }
        if !kind.is_empty() {
            parts.push(plain(view.alloc, at, end, kind, label)?)?;
        }
        at = end;
    }
    Ok(())
}

/// The most names of a text whose classes and keywords are shown.
const MOST_NAMES: usize = 5_000;

/// Whether a text has too many names for their classes to be shown.
pub(crate) fn is_large(view: &View<'_>) -> bool {
    view.facts.mentions.len() > MOST_NAMES
}

/// The part with the name of a variable, if it is shown; its label is its class, with a star if the
/// text doesn't declare that. It also has the steps of the walk that read or write there.
fn name_part(
    view: &View<'_>,
    variable: usize,
    token: &Token<'_>,
    has_label: bool,
) -> Made<Option<Tagged>> {
    let found = view.facts.variable(variable);
    let start = token.span.start;
    let mut steps = Vec::new(view.alloc);
    for (place, step) in view.walk.iter().enumerate() {
        if step.read.start == start || step.written.start == start {
            let comma = Markup(either(steps.is_empty(), b"", b", "));
            let end = Markup(either(step.read.start == start, b" from", b" to"));
            let parts = [comma, Number(place.saturating_add(1)), end];
            fill(&mut steps, b"%0%1%2", &parts)?;
        }
    }
    if is_large(view) && steps.is_empty() {
        return Ok(None);
    }
    let mut label = Vec::new(view.alloc);
    if has_label {
        label.extend_from_slice(found.class_name)?;
        label.extend_from_slice(either(found.is_declared, b"", b"*"))?;
    }
    Ok(Some(Tagged {
        start,
        stop: token.span.stop,
        kind: colour(found.class),
        label,
        steps,
    }))
}

/// Adds the parts of a text with these tokens. A name has its class where a line has it first,
/// unless the text says the class there.
fn put_parts(parts: &mut Vec<Tagged>, view: &View<'_>, tokens: &[Token<'_>]) -> Added {
    let mut at: usize = 0;
    let mut next: usize = 0;
    let mut labelled = Vec::new(view.alloc);
    for (index, token) in tokens.iter().enumerate() {
        let (start, stop) = (token.span.start, token.span.stop);
        put_marks(parts, view, at, start)?;
        if view.source.get(at..start).unwrap_or(b"").contains(&b'\n') {
            labelled.clear();
        }
        at = start;
        let is_word = byte_at(view.source, start).is_ascii_alphabetic();
        let is_keyword = is_word && token.kind != Kind::Name;
        if let Some(found) = view.facts.mentions.get(next)
            && found.span.start == start
        {
            let variable = found.variable;
            next = next.saturating_add(1);
            let after = tokens.get(index.saturating_add(1));
            let says_class = matches!(&after, Some(sign) if sign.kind == Kind::Colon);
            let has_label = !says_class && !labelled.contains(&variable);
            if let Some(part) = name_part(view, variable, token, has_label)? {
                at = stop;
                parts.push(part)?;
                labelled.push(variable)?;
            }
        } else if is_keyword && !is_large(view) && view.fault != Some(start) {
            at = stop;
            parts.push(plain(view.alloc, start, stop, b"word", b"")?)?;
        }
    }
    put_marks(parts, view, at, view.source.len())
}

/// The panel of a text.
pub(crate) fn source_panel(view: &View<'_>) -> Made<Vec<u8>>
    ensures { IfOk result (λ page. Shows page.items view.now.source.now) }
{
    let mut parts = Vec::new(view.alloc);
    match lex(view.alloc, view.source) {
        Ok(tokens) => put_parts(&mut parts, view, &tokens)?,
        Err(LexError::Memory) => return Err(AllocError),
        Err(_) => put_parts(&mut parts, view, &[])?,
    }
    panel_of(view.alloc, view.source, &parts)
}
