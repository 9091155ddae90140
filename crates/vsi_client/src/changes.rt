//! Changes of a text.

ghost use Rattle.std.specs.Prelude.{◌≡◌, IfOk, IfSome};
ghost use Rattle.vsi_client.specs.Changes as spec;

use crate::places::{Encoding, Line, Place, line_after, offset_in_line, offset_of};
use std::alloc::{AllocError, Global};

/// A change: a text in place of the part between two positions, or of the whole text.
#[derive(Clone, Copy, Debug)]
pub struct Change<'a> {
    pub range: Option<(Place, Place)>,
    pub text: &'a [u8],
}

/// The text after a change.
fn changed(
    alloc: Global,
    encoding: Encoding,
    text: &[u8],
    change: &Change<'_>,
) -> Result<Vec<u8>, AllocError>
    ensures { IfOk result (λ out. out.items ≡ spec.changed encoding change.now text.now) }
{
    match change.range {
        Some((from, to)) => {
            let start = offset_of(encoding, text, from);
            let stop = offset_of(encoding, text, to);
            let mut out = Vec::from_slice(alloc, &text[..start])?;
            out.extend_from_slice(change.text)?;
            out.extend_from_slice(&text[start.max(stop)..])?;
            Ok(out)
        }
        None => Vec::from_slice(alloc, change.text),
    }
}

/// The text after changes, in one pass over it, if each change is of a part before that of the one
/// before it, and apart from it.
fn changed_at_once(
    alloc: Global,
    encoding: Encoding,
    text: &[u8],
    changes: &[Change<'_>],
) -> Result<Option<Vec<u8>>, AllocError>
    ensures { IfOk result (λ answer. IfSome answer
        (λ out. out.items ≡ spec.changed_by encoding changes.now text.now)) }
{
    let mut out = Vec::new(alloc);
    let mut at = 0;
    let mut line = Line {
        number: 0,
        start: 0,
    };
    let mut left = changes.len();
    while left > 0 {
        left -= 1;
        let change = &changes[left];
        let Some((from, to)) = change.range else {
            return Ok(None);
        };
        let Some(first) = line_after(text, line, from.line) else {
            return Ok(None);
        };
        let start = offset_in_line(encoding, text, first, from.character);
        let Some(second) = line_after(text, first, to.line) else {
            return Ok(None);
        };
        let stop = offset_in_line(encoding, text, second, to.character);
        if start <= at || start > stop {
            return Ok(None);
        }
        out.extend_from_slice(&text[at..start])?;
        out.extend_from_slice(change.text)?;
        at = stop;
        line = second;
    }
    out.extend_from_slice(&text[at..])?;
    Ok(Some(out))
}

/// The text after changes, each of the text that the one before it left.
pub fn changed_by(
    alloc: Global,
    encoding: Encoding,
    text: &[u8],
    changes: &[Change<'_>],
) -> Result<Vec<u8>, AllocError>
    ensures changed { IfOk result
        (λ out. out.items ≡ spec.changed_by encoding changes.now text.now) }
{
    if let Some(out) = changed_at_once(alloc, encoding, text, changes)? {
        return Ok(out);
    }
    let mut current = Vec::from_slice(alloc, text)?;
    let mut rest = changes;
    while let [change, more @ ..] = rest {
        current = changed(alloc, encoding, &current, change)?;
        rest = more;
    }
    Ok(current)
}
