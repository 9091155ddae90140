//! Answers and refused files as lines of JSON, and their parts.

ghost use Rattle.std.specs.Prelude.{◌≡◌, false, IfOk, length, map, IfSome};
ghost use Rattle.serde_json.specs.View.{members_view, view};
ghost use Rattle.vsi_answers.specs.{Members.{object_line}, View.{diagnostic_of}};
ghost use Rattle.vsi_image.specs.Fields.{globals};
ghost use Rattle.vsi_lattice.specs.{LatticeView.{class_named, order}, Order.{IsClass}};
ghost use Rattle.vsi_documents.specs.Objects.{verdict_line as verdict_line_of};
ghost use Rattle.vsi_documents.specs.Refused as spec;
ghost use Rattle.vsi_documents.specs.Words as words_spec;

use std::alloc::{AllocError, Global};
use vsi_answers::{Diagnostic, Object, Objects, refusal_object, without_end};
use vsi_conform::{Checked, InterfaceError, fault_name};
use vsi_lattice::{Class, Lattice};
use vsi_leak::is_shown;
use vsi_store::RunEnding;

/// A part of an answer, whose making fails if memory runs out.
pub(crate) type Made<T> = Result<T, AllocError>;

/// The text that answers a request, and whether it says that all is well: then the status of the
/// subcommand is 0. The answer about raises is good if the text is accepted as it is or with them.
#[derive(Debug, Drop)]
pub struct Reply {
    pub is_good: bool,
    pub text: Vec<u8>,
}

/// The answer for a text that `check` refuses.
pub(crate) fn refused(checked: Checked) -> Result<Reply, AllocError>
    ensures { IfOk result (λ answer. (answer.is_good ≡ false) × (checked.is_accepted ≡ false)
        × (answer.text ≡ checked.line)) }
{
    if checked.is_accepted {
        return Err(AllocError);
    }
    Ok(Reply {
        is_good: false,
        text: checked.line,
    })
}

/// The line of a verdict and of an array of objects at a key.
pub(crate) fn verdict_line(
    alloc: Global,
    is_accepted: bool,
    key: &str,
    objects: Objects,
) -> Result<Vec<u8>, AllocError>
    ensures { IfOk result
        (λ line. line.items ≡ verdict_line_of is_accepted key.now (map view objects)) }
{
    Object::new(alloc)
        .flag("accepted", is_accepted)?
        .array(key, objects)?
        .line()
}

/// A refusal as a line of JSON: an object with `accepted`, `number`, `name`, `text`, these lines
/// without the last line feed, and `line` and `column` if the refusal has a position. It has no
/// `steps`. An error means that memory ran out.
pub fn refused_json(
    alloc: Global,
    diagnostic: &Diagnostic,
    text: &[u8],
) -> Result<Vec<u8>, AllocError>
    ensures line { IfOk result
        (λ line. line.items ≡ spec.refused_line (diagnostic_of diagnostic.now) text.now) }
{
    refusal_object(alloc, diagnostic, None, text)?.line()
}

/// A refused interface as a line of JSON: an object with `accepted`, `name` and `text`, these lines
/// without the last line feed. An error means that memory ran out.
pub fn refused_interface_json(
    alloc: Global,
    error: &InterfaceError,
    text: &[u8],
) -> Result<Vec<u8>, AllocError>
    ensures line { IfOk result
        (λ line. line.items ≡ spec.refused_interface_line error.now text.now) }
{
    Object::new(alloc)
        .flag("accepted", false)?
        .text("name", fault_name(error))?
        .text("text", without_end(text))?
        .line()
}

/// An object for each global, in order.
pub(crate) fn word_objects(
    alloc: Global,
    variables: &[(Vec<u8>, Vec<u8>)],
    words: &[i64],
) -> Result<Objects, AllocError>
    requires { length words.now ≡ length variables.now }
    ensures { IfOk result (λ found. map view found
        ≡ words_spec.word_objects (globals variables.now) words.now) }
{
    let mut found = Objects::new(alloc);
    for (i, variable) in variables.iter().enumerate() {
        let made = Object::new(alloc).text("name", variable.0.as_slice())?;
        found.push(made.word("word", words[i])?)?;
    }
    Ok(found)
}

/// The object with an array of an object for each global that is shown.
pub(crate) fn with_pairs(
    alloc: Global,
    made: Object,
    key: &str,
    lattice: &Lattice,
    to: &Option<Class>,
    variables: &[(Vec<u8>, Vec<u8>)],
    words: (&[i64], &[i64]),
) -> Result<Object, AllocError>
    requires { IfSome to.now (IsClass (order lattice.now)) }
    ensures { IfOk result (λ all. members_view all ≡ words_spec.with_pairs key.now
        (class_named lattice.now) (order lattice.now) to.now (globals variables.now)
        words.entry.0.now words.entry.1.now (members_view made)) }
{
    let (first, second) = words;
    let mut found = Objects::new(alloc);
    for (i, variable) in variables.iter().enumerate() {
        let (Some(one), Some(other)) = (first.get(i), second.get(i)) else {
            break;
        };
        if is_shown(lattice, to, variable.1.as_slice()) {
            let made = Object::new(alloc).text("name", variable.0.as_slice())?;
            found.push(made.word("first", *one)?.word("second", *other)?)?;
        }
    }
    made.array(key, found)
}

/// The line of the object with the globals that the class sees at the ends of both runs, if both
/// halt, and how they end within a budget.
pub(crate) fn runs_line(
    alloc: Global,
    made: Object,
    lattice: &Lattice,
    class: Class,
    variables: &[(Vec<u8>, Vec<u8>)],
    budget: u64,
    ends: (&RunEnding, &RunEnding),
) -> Result<Vec<u8>, AllocError>
    requires { IsClass (order lattice.now) class }
    ensures { IfOk result (λ line. line.items ≡ object_line
        (words_spec.with_endings (class_named lattice.now) (order lattice.now) class
        (globals variables.now) budget ends.entry.0.now ends.entry.1.now
        (members_view made))) }
{
    let (first, second) = ends;
    let made = match (first, second) {
        (RunEnding::Halted { words, .. }, RunEnding::Halted { words: others, .. }) => {
            let (to, stores) = (Some(class), (words.as_slice(), others.as_slice()));
            with_pairs(alloc, made, "after", lattice, &to, variables, stores)?
        }
        (RunEnding::Halted { .. }, RunEnding::OutOfBudget) => made,
        (RunEnding::OutOfBudget, _) => made,
    };
    let made = with_ending(alloc, made, "first", budget, first)?;
    with_ending(alloc, made, "second", budget, second)?.line()
}

/// The object with the end of a run within a budget at a key.
fn with_ending(
    alloc: Global,
    made: Object,
    key: &str,
    budget: u64,
    ending: &RunEnding,
) -> Result<Object, AllocError>
    ensures { IfOk result (λ all. members_view all
        ≡ words_spec.with_ending key.now budget ending.now (members_view made)) }
{
    let end = match ending {
        RunEnding::Halted { instructions, .. } => end_object(alloc, true, *instructions)?,
        RunEnding::OutOfBudget => end_object(alloc, false, budget)?,
    };
    made.object(key, end)
}

/// The object of a run that executes so many instructions.
pub(crate) fn end_object(alloc: Global, halted: bool, instructions: u64) -> Made<Object>
    ensures { IfOk result
        (λ made. members_view made ≡ words_spec.end_members halted instructions) }
{
    Object::new(alloc)
        .flag("halted", halted)?
        .natural("instructions", instructions as usize)
}
