//! The document of a refusal, its locations and the steps of a flow.

ghost use Rattle.std.specs.Prelude.{◌≡◌, map, option_map, string_bytes, IfOk};
ghost use Rattle.serde_json.specs.View.{members_view, view};
ghost use Rattle.vsi_lattice.specs.declared.lattice.Lattice.{Lattice as Named};
ghost use Rattle.vsi_answers.specs.View.{diagnostic_of};
ghost use Rattle.vsi_documents.specs.Location as location_spec;
ghost use Rattle.vsi_documents.specs.Refusals as spec;
ghost use Rattle.vsi_documents.specs.Steps as steps_spec;

use crate::answer::Made;
use crate::sarif::document;
use percent_encoding::{AsciiSet, NON_ALPHANUMERIC, ascii_set, percent_encode};
use std::alloc::{AllocError, Global};
use vsi_answers::{Diagnostic, Field, Object, Objects, without_end};
use vsi_compiler::Source;
use vsi_infer::{rule_text, variable_name};
use vsi_scope::Resolved;
use vsi_syntax::{line_column, put_number};
use vsi_types::Step;

/// The ASCII bytes that are escaped in a path: all but letters, digits and `-._~/`.
pub(crate) const ESCAPED: AsciiSet = ascii_set!(
    NON_ALPHANUMERIC
        .remove(b'-')
        .remove(b'.')
        .remove(b'_')
        .remove(b'~')
        .remove(b'/')
);

/// The path of a file as a URI.
pub(crate) fn uri_of(alloc: Global, path: &str) -> Result<String, AllocError>
    ensures { IfOk result (λ uri. string_bytes uri ≡ location_spec.uri_of path.now) }
{
    let mut uri = String::new(alloc);
    percent_encode(path.as_bytes(), ESCAPED).append_to(&mut uri)?;
    Ok(uri)
}

/// The object of a location: the URI of its file and, if it is known, its position.
pub(crate) fn location(alloc: Global, uri: &[u8], place: Option<(usize, usize)>) -> Made<Object>
    ensures { IfOk result
        (λ made. members_view made ≡ location_spec.location_members uri.now place) }
{
    let file = Object::new(alloc).text("uri", uri)?;
    let physical = Object::new(alloc).object("artifactLocation", file)?;
    let physical = match place {
        Some((line, column)) => {
            let region = Object::new(alloc)
                .natural("startColumn", column)?
                .natural("startLine", line)?;
            physical.object("region", region)?
        }
        None => physical,
    };
    Object::new(alloc).object("physicalLocation", physical)
}

/// The object of a step: its message, of its two variables and its rule, and the position where its
/// source is read.
fn step_object(
    alloc: Global,
    uri: &[u8],
    source: &[u8],
    program: &Resolved<'_>,
    step: &Step,
) -> Result<Object, AllocError>
    ensures { IfOk result (λ made. members_view made
        ≡ steps_spec.step_members uri.now source.now program.now step.now) }
{
    let mut text = Vec::from_slice(alloc, variable_name(program, step.source))?;
    text.extend_from_slice(b" flows to ")?;
    text.extend_from_slice(variable_name(program, step.target))?;
    text.extend_from_slice(b" by ")?;
    text.extend_from_slice(rule_text(step.rule))?;
    let (line, column) = line_column(source, step.read.start);
    let message = Object::new(alloc).text("text", &text)?;
    let inner = location(alloc, uri, Some((line, column)))?.object("message", message)?;
    Object::new(alloc).object("location", inner)
}

/// The objects of the steps of a flow of a source text, or none for any other refusal.
pub(crate) fn flow_objects(
    alloc: Global,
    uri: &[u8],
    source: &Source<'_>,
    steps: Option<&[Step]>,
) -> Result<Option<Objects>, AllocError>
    ensures { IfOk result (λ found. steps_spec.LocatesFlow
        source.now.lattice uri.now source.now.text (option_map (λ s. s.now) steps.entry)
        (option_map (map view) found)) }
{
    let Some(steps) = steps else {
        return Ok(None);
    };
    let (text, program) = (source.text(), source.resolved());
    let mut found = Objects::new(alloc);
    for step in steps {
        let made = step_object(alloc, uri, text, program, step)?;
        found.push(made)?;
    }
    Ok(Some(found))
}

/// The position at which the last step of a flow writes, if there is one.
fn written_place(source: &[u8], steps: Option<&[Step]>) -> Option<(usize, usize)>
    ensures { result ≡ spec.written_place source.now (option_map (λ s. s.now) steps.entry) }
{
    let step = steps?.last()?;
    let (line, column) = line_column(source, step.written.start);
    Some((line, column))
}

/// The position of a refusal: its own, or for a flow that at which the last step writes.
fn place_of(source: &[u8], diagnostic: &Diagnostic) -> Option<(usize, usize)>
    ensures { result ≡ spec.place_of source.now (diagnostic_of diagnostic.now) }
{
    match diagnostic.field {
        Field::Place(line, column) => Some((line, column)),
        Field::Nothing | Field::Number(_) | Field::Pair(_, _) => {
            written_place(source, diagnostic.steps)
        }
        Field::Word(_) | Field::Numbered(_, _) => written_place(source, diagnostic.steps),
    }
}

/// The object of a result of the rule with an identifier and an index.
pub(crate) fn result_object(
    alloc: Global,
    id: &[u8],
    index: usize,
    location: Object,
    steps: Option<Objects>,
    lines: &[u8],
) -> Result<Object, AllocError>
    ensures { IfOk result (λ made. members_view made ≡ spec.result_members id.now index
        (members_view location) (option_map (map view) steps) lines.now) }
{
    let message = Object::new(alloc).text("text", without_end(lines))?;
    let made = match steps {
        Some(steps) => {
            let thread = Object::new(alloc).array("locations", steps)?;
            let flow = Object::new(alloc).array("threadFlows", Objects::of(alloc, thread)?)?;
            Object::new(alloc).array("codeFlows", Objects::of(alloc, flow)?)?
        }
        None => Object::new(alloc),
    };
    made.text("level", b"error")?
        .array("locations", Objects::of(alloc, location)?)?
        .object("message", message)?
        .text("ruleId", id)?
        .natural("ruleIndex", index)
}

/// The document of a refusal whose flow has these objects. The identifier of its rule is the number
/// of the refusal.
pub(crate) fn identified(
    alloc: Global,
    uri: &[u8],
    text: &[u8],
    diagnostic: &Diagnostic,
    steps: Option<Objects>,
    lines: &[u8],
) -> Result<Vec<u8>, AllocError>
    ensures { IfOk result (λ out. (l : Named) → steps_spec.LocatesFlow l uri.now text.now
        (diagnostic_of diagnostic.now).steps (option_map (map view) steps)
        → spec.IsRefusalDocument l uri.now text.now
        (diagnostic_of diagnostic.now) lines.now out.items) }
{
    let mut id = Vec::new(alloc);
    put_number(&mut id, diagnostic.code)?;
    let rule = Object::new(alloc)
        .text("id", &id)?
        .text("name", diagnostic.name)?;
    let place = location(alloc, uri, place_of(text, diagnostic))?;
    let found = result_object(alloc, &id, 0, place, steps, lines)?;
    document(alloc, Objects::of(alloc, rule)?, Objects::of(alloc, found)?)
}

/// The document of a refusal other than that of a flow, of the text or the image in the file with
/// this URI, with the lines that are printed for it.
pub(crate) fn refusal_document(
    alloc: Global,
    uri: &[u8],
    text: &[u8],
    diagnostic: &Diagnostic,
    lines: &[u8],
) -> Result<Vec<u8>, AllocError>
    ensures { IfOk result (λ out. (l : Named) → spec.IsRefusalDocument l uri.now text.now
        (diagnostic_of diagnostic.now) lines.now out.items) }
{
    // Only a text that has a program is refused for a flow.
    let None = diagnostic.steps else {
        return Err(AllocError);
    };
    let written = identified(alloc, uri, text, diagnostic, None, lines)?;
    Ok(written)
}
