//! A position of a text, its line as far as it is shown, and its carets.

ghost use Rattle.std.specs.Prelude.{◌≡◌, ◌++◌, OnOk, true};
ghost use Rattle.vsi_telling.specs.declared.place.ColourMode.TheVariants.{Plain};
ghost use Rattle.vsi_telling.specs.Safe as safe_spec;

use std::alloc::{AllocError, Global};
use vsi_syntax::{line_column, put_line_column, put_number};

/// How a text is shown.
#[derive(Clone, Copy, Debug, PartialEq, Eq)]
pub enum ColourMode {
    /// Without colours: every byte is printable ASCII or a line feed.
    Plain,
    /// With the fixed byte sequences that turn a terminal's colours on and off.
    Coloured,
}

/// Appends a sequence for colours, if there are colours.
fn put_colour(text: &mut Vec<u8>, mode: ColourMode, sequence: &[u8]) -> Result<(), AllocError>
    ensures { mode ≡ Plain → safe_spec.all_plain text.old.items ≡ true
        → OnOk result (safe_spec.all_plain text.new.items ≡ true) }
{
    match mode {
        ColourMode::Plain => Ok(()),
        ColourMode::Coloured => text.extend_from_slice(sequence),
    }
}

/// The hexadecimal digit of a number's last four bits.
fn hex_digit(number: u8) -> u8
    ensures { result ≡ safe_spec.hex_digit number }
{
    let digit = number % 16;
    if digit < 10 { 48 + digit } else { 87 + digit }
}

/// Appends a byte in its shown form.
fn put_byte(text: &mut Vec<u8>, byte: u8) -> Result<(), AllocError>
    ensures { OnOk result (text.new.items ≡ text.old.items ++ safe_spec.shown_byte byte) }
{
    match byte {
        b'\t' => text.extend_from_slice(b"  "),
        32..=126 => text.extend_from_slice(&[byte]),
        other => {
            let digits = [b'\\', b'x', hex_digit(other / 16), hex_digit(other)];
            text.extend_from_slice(&digits)
        }
    }
}

/// Appends bytes so that they can neither control a terminal nor end a line: a tab as blanks,
/// printable ASCII as it is, and any other byte as `\x` and its two digits.
pub fn put_safe(text: &mut Vec<u8>, bytes: &[u8]) -> Result<(), AllocError>
    ensures shown { OnOk result (text.new.items ≡ text.old.items ++ safe_spec.shown bytes.now) }
    ensures printable { safe_spec.all_printable (safe_spec.shown bytes.now) ≡ true }
    ensures plain { safe_spec.all_plain text.old.items ≡ true
        → OnOk result (safe_spec.all_plain text.new.items ≡ true) }
{
    for byte in bytes {
        put_byte(text, *byte)?;
    }
    Ok(())
}

/// Appends a byte of a text with several lines.
fn put_told_byte(text: &mut Vec<u8>, byte: u8) -> Result<(), AllocError>
    ensures { OnOk result (text.new.items ≡ text.old.items ++ safe_spec.told_byte byte) }
{
    if byte == b'\n' {
        text.extend_from_slice(b"\n")
    } else {
        put_byte(text, byte)
    }
}

/// Appends the bytes of a text: a line feed ends a line, any other byte is shown as by `put_safe`.
pub fn put_text(text: &mut Vec<u8>, bytes: &[u8]) -> Result<(), AllocError>
    ensures told { OnOk result (text.new.items ≡ text.old.items ++ safe_spec.told bytes.now) }
    ensures plain { safe_spec.all_plain text.old.items ≡ true
        → OnOk result (safe_spec.all_plain text.new.items ≡ true) }
{
    for byte in bytes {
        put_told_byte(text, *byte)?;
    }
    Ok(())
}

/// The most bytes of a line that are shown.
const WIDTH: usize = 68;

/// The number of them before the position if the line is long on both sides.
const BEFORE: usize = 34;

/// Whether the bytes of a line end before this position.
fn ends_line(source: &[u8], at: usize) -> bool {
    let rest = source.get(at..).unwrap_or(b"");
    matches!(rest, [] | [b'\n', ..] | [b'\r', b'\n', ..])
}

/// Where the part of its line that is shown begins and ends, for a position of a text.
fn window_of(source: &[u8], start: usize) -> (usize, usize) {
    let rest = source.get(start..).unwrap_or(b"");
    let length = (0..WIDTH).find(|at| ends_line(rest, *at)).unwrap_or(WIDTH);
    let left = WIDTH.saturating_sub(length).max(BEFORE);
    let least = start.saturating_sub(left);
    let before = source.get(least..start).unwrap_or(b"");
    let last = before.iter().rposition(|byte| *byte == b'\n');
    let from = least.saturating_add(last.map_or(0, |at| at.saturating_add(1)));
    let end = start.saturating_add(length);
    (from, end.min(from.saturating_add(WIDTH)).max(start))
}

/// The heading of a place after its path, its line and the blanks below that, and the number of
/// carets.
fn lines_of(
    alloc: Global,
    source: &[u8],
    start: usize,
    stop: usize,
) -> Result<(Vec<u8>, usize), AllocError> {
    let (from, end) = window_of(source, start);
    let stop = stop.max(start).min(end);
    let (line, column) = line_column(source, start);
    let mut lines = Vec::from_slice(alloc, b":")?;
    put_line_column(&mut lines, line, column)?;
    lines.extend_from_slice(b"\n  ")?;
    let begin = lines.len();
    put_number(&mut lines, line)?;
    let margin = lines.len().saturating_sub(begin).saturating_add(2);
    lines.extend_from_slice(b" | ")?;
    let begin = lines.len();
    if from > 0 && source.get(from - 1) != Some(&b'\n') {
        lines.extend_from_slice(b"..")?;
    }
    put_safe(&mut lines, source.get(from..start).unwrap_or(b""))?;
    let before = lines.len().saturating_sub(begin);
    let begin = lines.len();
    put_safe(&mut lines, source.get(start..stop).unwrap_or(b""))?;
    let carets = lines.len().saturating_sub(begin).max(1);
    put_safe(&mut lines, source.get(stop..end).unwrap_or(b""))?;
    let is_cut = !ends_line(source, end);
    lines.extend_from_slice(if is_cut { b"..\n" } else { b"\n" })?;
    lines.resize(lines.len().saturating_add(margin), b' ')?;
    lines.extend_from_slice(b" | ")?;
    lines.resize(lines.len().saturating_add(before), b' ')?;
    Ok((lines, carets))
}

/// Appends a position of a text in a mode: `PATH:LINE:COLUMN`, the line after a margin with its
/// number, and carets below the bytes from `start` up to but not including `stop`, at least one. If
/// a line is long, only the part around the position is shown, with `..` where it is cut. A
/// position beyond the text counts as its end.
pub fn put_place_in(
    text: &mut Vec<u8>,
    mode: ColourMode,
    path: &[u8],
    source: &[u8],
    start: usize,
    stop: usize,
) -> Result<(), AllocError>
    ensures plain { mode ≡ Plain → safe_spec.all_plain text.old.items ≡ true
        → OnOk result (safe_spec.all_plain text.new.items ≡ true) }
{
    let alloc = *text.allocator();
    let (lines, count) = lines_of(alloc, source, start.min(source.len()), stop)?;
    let mut carets = Vec::new(alloc);
    carets.resize(count, b'^')?;
    put_safe(text, path)?;
    put_text(text, &lines)?;
    put_colour(text, mode, b"\x1b[1;31m")?;
    put_text(text, &carets)?;
    put_colour(text, mode, b"\x1b[0m")?;
    put_text(text, b"\n")
}
