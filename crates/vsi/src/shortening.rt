//! An explanation as it is written: at most 40 lines, unless all are requested.

ghost use Rattle.std.specs.Prelude.{◌≡◌, ◌≤◌, ◌++◌, IfOk, OnOk, decimal, drop, false, length, take, true};
ghost use Rattle.vsi.specs.Shortened.{Shows, page_line};
ghost use Rattle.vsi_syntax.specs.Lines.{breaks};

use std::alloc::{AllocError, Global};
use vsi_syntax::{line_column, put_number};

/// Lines of an explanation.
pub(crate) type Explained = Result<Vec<u8>, AllocError>;

/// The most lines of an explanation, unless all are requested.
const MOST: usize = 40;

/// The most lines of a last paragraph that stays.
const MOST_LAST: usize = 12;

/// The number of line feeds of a text.
fn line_feeds(text: &[u8]) -> usize
    ensures { result ≡ breaks text.now }
{
    line_column(text, text.len()).0 - 1
}

/// The length of a beginning of lines that has at most so many of them. It ends with a sentence,
/// and so never between a place and its carets.
fn head_length(lines: &[u8], room: usize) -> usize
    ensures within { result ≤ length lines.now }
    ensures short { breaks (take result lines.now) ≤ room }
{
    let (mut count, mut end): (usize, usize) = (0, 0);
    for (at, byte) in lines.iter().enumerate() {
        if *byte != b'\n' || count >= room {
            continue;
        }
        count += 1;
        let (before, after) = lines.split_at(at + 1);
        if before.ends_with(b".\n") && !after.starts_with(b" ") {
            end = before.len();
        }
    }
    let head = &lines[..end.min(lines.len())];
    if line_feeds(head) <= room {
        head.len()
    } else {
        0
    }
}

/// Adds a number between two texts.
fn put(text: &mut Vec<u8>, before: &[u8], number: usize, after: &[u8]) -> Result<(), AllocError>
    ensures put { OnOk result
        (text.new.items ≡ text.old.items ++ before.now ++ decimal number ++ after.now) }
    ensures one_line { breaks (decimal number) ≡ 0 }
{
    text.extend_from_slice(before)?;
    put_number(text, number)?;
    text.extend_from_slice(after)
}

/// Adds the line that names the page of a refusal with this number, if there is one.
fn put_page(text: &mut Vec<u8>, code: Option<usize>) -> Result<(), AllocError>
    ensures put { OnOk result (text.new.items ≡ text.old.items ++ page_line code) }
    ensures one_line { breaks (page_line code) ≤ 1 }
{
    match code {
        Some(code) => put(text, b"More: vsi explain ", code, b"\n"),
        None => Ok(()),
    }
}

/// The place of the last paragraph of lines, which an empty line begins, or their length if it has
/// more than a few lines.
fn tail_place(lines: &[u8]) -> usize
    ensures within { result ≤ length lines.now }
    ensures short { breaks (drop result lines.now) ≤ 12 }
{
    let mut place = lines.len();
    for at in 0..lines.len() {
        if lines[at..].starts_with(b"\n\n") {
            place = at + 1;
        }
    }
    let place = place.min(lines.len());
    if line_feeds(&lines[place..]) <= MOST_LAST {
        place
    } else {
        lines.len()
    }
}

/// The explanation with these lines, and with the line of the page of a refusal with this number.
/// Unless all lines are requested it has at most 40. One of them says how many are left out; the
/// last paragraph, which says what to do, stays if it is short.
pub(crate) fn shortened(
    alloc: Global,
    lines: &[u8],
    code: Option<usize>,
    is_whole: bool,
) -> Explained
    ensures shown { IfOk result (λ text. Shows lines.now code text.items) }
    ensures whole { is_whole ≡ true
        → IfOk result (λ text. text.items ≡ lines.now ++ page_line code) }
    ensures short { is_whole ≡ false → IfOk result (λ text. breaks text.items ≤ 40) }
{
    let mut text = Vec::new(alloc);
    if is_whole || line_feeds(lines) < MOST {
        text.extend_from_slice(lines)?;
        put_page(&mut text, code)?;
        return Ok(text);
    }
    let (body, tail) = lines.split_at(tail_place(lines));
    let (head, rest) = body.split_at(head_length(body, MOST - 2 - line_feeds(tail)));
    text.extend_from_slice(head)?;
    let left = line_feeds(rest);
    put(
        &mut text,
        b"Lines left out here: ",
        left,
        b"; `--all` writes all.\n",
    )?;
    text.extend_from_slice(tail)?;
    put_page(&mut text, code)?;
    Ok(text)
}
