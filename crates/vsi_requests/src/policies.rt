//! The classes that each class sees under lattices and interfaces, and lattice files.

ghost use Rattle.std.specs.Prelude.{◌≡◌, ◌&&◌, IfErr, IfOk, not};
ghost use Rattle.vsi_subject.specs.{Refusals.{NoOther, FailsBy}, Reasons.{WhyPolicy, WhyVisible}, Seeing.{IsInLines, SeesFiles}, Shaping.{ShapedText}, Undriven.{IsUnusable}, Visible.{ShowsFiles}};

use std::alloc::{AllocError, Global};
use vsi_arguments::{Looking, Visibility};
use vsi_documents::{
    Reply, Shape, ShapeError, interface_sees_more, lattice_sees_more, lattice_text,
    policy_changes_json, policy_json, policy_warnings, seen_changes, seen_table, unused_warnings,
    visible_changes, visible_changes_json, visible_json, visible_table,
};
use vsi_subject::{Failure, Fallible, Files, Subject};
use vsi_telling::put_safe;

/// The table of the lattice of a file, or its differences from an older one, as lines or as a line
/// of JSON. The note gets the warnings about the lattice.
pub fn policy<'a, F: Files>(
    subject: &Subject<'_, F>,
    looking: Looking<'a>,
    is_json: bool,
    note: &mut Vec<u8>,
) -> Fallible<'a, Reply>
    ensures told { IfOk result (λ reply. SeesFiles is_json (F.holds subject.now.files.now)
        looking.entry reply.is_good reply.text) }
    ensures failed { IfErr result (FailsBy (WhyPolicy (F.holds subject.now.files.now)
        looking.entry.lattice.now looking.entry.old) NoOther) }
{
    let classes = subject.lattice_in(looking.lattice)?;
    let alloc = subject.alloc;
    let reply = match looking.old {
        Some(old) => {
            let before = subject.lattice_in(old)?;
            let sees_more = lattice_sees_more(alloc, &classes, &before)?;
            let lines = seen_changes(alloc, &classes, &before)?;
            let json = policy_changes_json(alloc, &classes, &before)?;
            in_form(is_json, lines, json, looking.is_denying, sees_more)
        }
        None => {
            let lines = seen_table(alloc, &classes)?;
            let json = policy_json(alloc, &classes)?;
            in_form(is_json, lines, json, false, false)
        }
    };
    let warnings = policy_warnings(alloc, &classes)?;
    note.extend_from_slice(&warnings)?;
    Ok(reply)
}

/// An answer in lines, or as a line of JSON in their place. It is bad if it says that some class
/// sees more, and that is denied.
fn in_form(is_json: bool, lines: Vec<u8>, json: Vec<u8>, is_denying: bool, sees_more: bool) -> Reply
    ensures verdict { result.is_good ≡ not (is_denying && sees_more) }
    ensures lines { IsInLines is_json lines.items result.text.items }
{
    let text = if is_json { json } else { lines };
    let is_good = !(is_denying && sees_more);
    Reply { is_good, text }
}

/// How a mistake in the arguments ends.
const MORE: &[u8] = b"\n\nFor more information, try 'vsi help lattice'.\n";

/// The text of the lattice file that arguments describe.
pub fn lattice<'a>(alloc: Global, arguments: &[&[u8]]) -> Fallible<'a, Vec<u8>>
    ensures told { IfOk result (ShapedText arguments.now) }
    ensures failed { IfErr result (FailsBy (λ reason. ⊥) NoOther) }
{
    match lattice_text(alloc, arguments) {
        Ok(text) => Ok(text),
        Err(ShapeError::Memory) => Err(Failure::Memory),
        Err(error) => Err(Failure::Usage(mistake_text(alloc, &error)?)),
    }
}

/// The message that says what is wrong with the arguments.
fn mistake_text(alloc: Global, error: &ShapeError) -> Result<String, AllocError> {
    let mut text = Vec::from_slice(alloc, b"error: ")?;
    match error {
        ShapeError::NoShape => {
            text.extend_from_slice(b"the shapes are two, levels, diamond and powerset")?;
        }
        ShapeError::WrongCount(shape) => {
            let taken: &[u8] = match shape {
                Shape::Two => b"`two` takes no names: its classes are L and H",
                Shape::Levels => b"`levels` takes 1 to 64 names",
                Shape::Diamond => {
                    b"`diamond` takes 4 names, the lowest first and the highest last"
                }
                Shape::Powerset => b"`powerset` takes 1 to 6 names",
            };
            text.extend_from_slice(taken)?;
        }
        ShapeError::NoName(name) => {
            put_quoted(&mut text, name)?;
            text.extend_from_slice(b" isn't a valid name of a class")?;
        }
        ShapeError::Twice(name) => {
            text.extend_from_slice(b"two classes would have the name ")?;
            put_quoted(&mut text, name)?;
        }
        ShapeError::Memory => {}
    }
    text.extend_from_slice(MORE)?;
    String::from_utf8_lossy(alloc, &text)
}

/// Adds a name in quotes, safe for a terminal.
fn put_quoted(text: &mut Vec<u8>, name: &[u8]) -> Result<(), AllocError> {
    text.extend_from_slice(b"`")?;
    put_safe(text, name)?;
    text.extend_from_slice(b"`")
}

/// The globals that each class sees, sets, reads and releases under the interface of a file, or
/// the differences from an older one, as lines or as a line of JSON. The note gets the warnings
/// about the interface.
pub fn visible<'a, F: Files>(
    subject: &Subject<'_, F>,
    asked: Visibility<'a>,
    is_json: bool,
    note: &mut Vec<u8>,
) -> Fallible<'a, Reply>
    ensures told { IfOk result (λ reply. ShowsFiles is_json (F.holds subject.now.files.now)
        asked.entry reply.is_good reply.text) }
    ensures failed { IfErr result (FailsBy (WhyVisible (F.holds subject.now.files.now)
        asked.entry.interface.now asked.entry.old) IsUnusable) }
{
    let (found, lattice) = subject.asked_in(asked.interface, None)?;
    let alloc = subject.alloc;
    let reply = match asked.old {
        Some(old) => {
            let (before, old_lattice) = subject.asked_in(old, None)?;
            let gains = interface_sees_more(&lattice, &found, &old_lattice, &before);
            let lines = visible_changes(alloc, &lattice, &found, &old_lattice, &before)?;
            let json = visible_changes_json(alloc, &lattice, &found, &old_lattice, &before)?;
            in_form(is_json, lines, json, asked.is_denying, gains)
        }
        None => {
            let lines = visible_table(alloc, &lattice, &found)?;
            let json = visible_json(alloc, &lattice, &found)?;
            in_form(is_json, lines, json, false, false)
        }
    };
    let warnings = policy_warnings(alloc, &lattice)?;
    note.extend_from_slice(&warnings)?;
    let unused = unused_warnings(alloc, &lattice, &found.interface)?;
    note.extend_from_slice(&unused)?;
    Ok(reply)
}
