//! A refusal as a line of JSON.

ghost use Rattle.std.specs.Prelude.{◌≡◌, map, option_map, IfOk};
ghost use Rattle.serde_json.specs.View.{members_view, view};
ghost use Rattle.vsi_answers.specs.View.{diagnostic_of};
ghost use Rattle.vsi_answers.specs.Json as spec;
ghost use Rattle.vsi_answers.specs.Members as members_spec;

use crate::diagnostic::{Diagnostic, Field};
use crate::object::{Object, Objects};
use std::alloc::{AllocError, Global};
use vsi_compiler::{CompileError, Source, read_source};
use vsi_infer::{rule_text, variable_name};
use vsi_lattice::Lattice;
use vsi_syntax::line_column;
use vsi_types::Step;

/// The objects of the steps of a walk, in their order, by the names of the program of a source
/// text: the position where the source of a step is read, its rule, and the names of both ends.
pub fn source_objects(
    alloc: Global,
    source: &Source<'_>,
    steps: &[Step],
) -> Result<Objects, AllocError>
    ensures { IfOk result (λ found.
        spec.NamesWalk source.now.lattice source.now.text steps.now (map view found)) }
{
    let program = source.resolved();
    let text = source.text();
    let mut found = Objects::new(alloc);
    for step in steps {
        let (line, column) = line_column(text, step.read.start);
        let made = Object::new(alloc)
            .natural("line", line)?
            .natural("column", column)?
            .text("kind", rule_text(step.rule))?
            .text("from", variable_name(program, step.source))?
            .text("to", variable_name(program, step.target))?;
        found.push(made)?;
    }
    Ok(found)
}

/// The same for a text, which may have no program; then there is no object.
fn walk_objects(
    alloc: Global,
    lattice: &Lattice,
    text: &[u8],
    steps: &[Step],
) -> Result<Objects, AllocError>
    ensures { IfOk result (λ found.
        spec.NamesWalk lattice.now text.now steps.now (map view found)) }
{
    match read_source(alloc, lattice, text) {
        Ok(source) => source_objects(alloc, &source, steps),
        Err(CompileError::Memory) => Err(AllocError),
        Err(_error) => Ok(Objects::new(alloc)),
    }
}

/// The object of a refusal with these lines, and with the objects of the steps of a flow.
pub fn refusal_object(
    alloc: Global,
    diagnostic: &Diagnostic,
    steps: Option<Objects>,
    lines: &[u8],
) -> Result<Object, AllocError>
    ensures members { IfOk result (λ made. members_view made
        ≡ spec.refusal_members (diagnostic_of diagnostic.now)
        (option_map (map view) steps) lines.now) }
{
    let made = Object::new(alloc)
        .flag("accepted", false)?
        .natural("number", diagnostic.code)?
        .text("name", diagnostic.name)?;
    let made = match diagnostic.field {
        Field::Place(line, column) => made.natural("line", line)?.natural("column", column)?,
        _ => made,
    };
    let made = match steps {
        Some(steps) => made.array("steps", steps)?,
        None => made,
    };
    made.text("text", without_end(lines))
}

/// A refusal of a source text as a line of JSON: an object with `accepted`, `number`, `name`,
/// `text` (these lines without the last line feed), `line` and `column` if the refusal has a
/// position, and `steps` for a flow.
pub fn refusal_json(
    alloc: Global,
    lattice: &Lattice,
    source: &[u8],
    diagnostic: &Diagnostic,
    lines: &[u8],
) -> Result<Vec<u8>, AllocError>
    ensures json { IfOk result (λ out. spec.IsRefusalJson lattice.now source.now
        (diagnostic_of diagnostic.now) lines.now out.items) }
{
    let steps = match diagnostic.steps {
        Some(steps) => Some(walk_objects(alloc, lattice, source, steps)?),
        None => None,
    };
    refusal_object(alloc, diagnostic, steps, lines)?.line()
}

/// The line of `refusal_json` for a source text that was read already.
pub fn refusal_json_of(
    alloc: Global,
    source: &Source<'_>,
    diagnostic: &Diagnostic,
    lines: &[u8],
) -> Result<Vec<u8>, AllocError>
    ensures json { IfOk result (λ out. spec.IsRefusalJson source.now.lattice source.now.text
        (diagnostic_of diagnostic.now) lines.now out.items) }
{
    let steps = match diagnostic.steps {
        Some(steps) => Some(source_objects(alloc, source, steps)?),
        None => None,
    };
    refusal_object(alloc, diagnostic, steps, lines)?.line()
}

/// The line of JSON that says that a text is accepted.
pub fn accepted_json(alloc: Global) -> Result<Vec<u8>, AllocError>
    ensures line { IfOk result (λ out. out.items ≡ spec.accepted_line) }
{
    Vec::from_slice(alloc, b"{\"accepted\":true}\n")
}

/// The lines without their last byte, which is a line feed: a text that a member has.
pub fn without_end(lines: &[u8]) -> &[u8]
    ensures lines { result.now ≡ members_spec.without_end lines.now }
{
    &lines[..lines.len().saturating_sub(1)]
}
