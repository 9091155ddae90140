//! The errors and the warnings about a text, as objects.

ghost use Rattle.std.specs.Prelude.{◌≡◌, ◌≢◌, [], length, All, IfOk};
ghost use Rattle.vsi_compiler.specs.declared.source.CompileError.TheVariants.{Memory};
ghost use Rattle.vsi_lsp.specs.Severity.{IsError, IsWarning};
ghost use Rattle.vsi_lsp.specs.Verdict as spec;

use crate::document::{DocumentText, Made, joined, text_value};
use serde_json::{Value, json};
use std::alloc::AllocError;
use vsi_answers::{Warning, put_message, refusal_diagnostic, warnings_of};
use vsi_compiler::{CompileError, Source, judge, read_source};
use vsi_flows::{ends_text, further_flows, step_text};
use vsi_lattice::Lattice;
use vsi_recovery::{Cause, further_faults};
use vsi_scope::{ScopeError, Var};
use vsi_syntax::{LexError, ParseError, Span, put_number};
use vsi_telling::{Telling, put_text};
use vsi_types::Step;

/// The number of a refused flow.
pub(crate) const REFUSED: u64 = 25;

/// The errors in a text, and then the warnings about it, or further errors if it has no program.
pub(crate) fn objects_in<'a>(document: DocumentText<'a>, lattice: &'a Lattice) -> Made<Vec<Value>>
    ensures exact { IfOk result (λ objects. spec.ShowsVerdict
        lattice.now document.entry.profile document.entry.text.now objects.items) }
{
    match read_source(document.alloc, lattice, document.text) {
        Ok(source) => source_objects(document, &source),
        Err(error) => refused_objects(document, lattice, &error),
    }
}

/// The errors in a text that has a program, and the warnings about it. No code is generated.
fn source_objects(document: DocumentText<'_>, source: &Source<'_>) -> Made<Vec<Value>>
    ensures exact { IfOk result (λ objects. spec.ShowsVerdict
        source.now.lattice document.entry.profile source.now.text objects.items) }
{
    let mut warnings = source_warnings(document, source)?;
    match judge(document.alloc, document.profile, source) {
        Ok(_classes) => Ok(warnings),
        Err(error) => {
            let mut errors = judged_errors(document, source, &error)?;
            errors.append(&mut warnings)?;
            Ok(errors)
        }
    }
}

/// The most tokens that are read again to find faults: those of a text of 64 KB some eight times.
const MAX_READ: usize = 131_072;

/// The errors in a text that has no program: one alone if it is too large, which is judged last.
fn refused_objects(
    document: DocumentText<'_>,
    lattice: &Lattice,
    error: &CompileError,
) -> Made<Vec<Value>>
    ensures judged { IfOk result (λ objects. error.now ≢ Memory) }
    ensures begins { IfOk result (λ objects. spec.BeginsWithErrors objects.items) }
{
    let mut errors = refusal_errors(document, Some(lattice), error)?;
    if let CompileError::Scope(ScopeError::TooLarge) = error {
        return Ok(errors);
    }
    let has_tokens = !matches!(error, CompileError::Lex(_));
    let mut further = Vec::new(document.alloc);
    for fault in &further_faults(document.alloc, lattice, document.text, MAX_READ)? {
        // The tokens that may come at a further place of the tree aren't known.
        let (error, is_told) = match fault.cause {
            Cause::Lex(error) => (CompileError::Lex(error), true),
            Cause::Tree => (ParseError::Unexpected(fault.span).into(), false),
            Cause::Scope(error) => (CompileError::Scope(error), has_tokens),
        };
        let lattice = if is_told { Some(lattice) } else { None };
        further.append(&mut refusal_errors(document, lattice, &error)?)?;
    }
    errors.append(&mut further)?;
    Ok(errors)
}

/// The errors in a source text that is refused, unless memory ran out: for a flow that flow, at the
/// place where its first step reads, and further ones, each where the last step of its walk writes.
fn judged_errors(
    document: DocumentText<'_>,
    source: &Source<'_>,
    error: &CompileError,
) -> Made<Vec<Value>>
    ensures some { IfOk result (λ errors. errors.items ≢ []) }
    ensures judged { IfOk result (λ errors. error.now ≢ Memory) }
    ensures severe { IfOk result (λ errors. All IsError errors.items) }
{
    let CompileError::Flow(walk) = error else {
        return refusal_errors(document, None, error);
    };
    let (Some(first), Some(last)) = (walk.steps.first(), walk.steps.last()) else {
        return refusal_errors(document, None, error);
    };
    let (code, line) = line_of(document, error)?;
    let text = RefusedText {
        document,
        source,
        code,
        line,
    };
    let (from, to) = (first.source, last.target);
    let mut errors = Vec::new(document.alloc);
    for flow in &further_flows(document.alloc, document.profile, source, from, to)? {
        let Some(last) = flow.steps.last() else {
            continue;
        };
        let (from, to) = (flow.pair.source, flow.pair.target);
        errors.push(text.flow(last.written, from, to, &flow.steps)?)?;
    }
    errors.insert(0, text.flow(first.read, from, to, &walk.steps)?)?;
    Ok(errors)
}

/// The error in a text that is refused, with its explanation if the lattice is given.
fn refusal_errors(
    document: DocumentText<'_>,
    lattice: Option<&Lattice>,
    error: &CompileError,
) -> Made<Vec<Value>>
    ensures some { IfOk result (λ errors. errors.items ≢ []) }
    ensures judged { IfOk result (λ errors. error.now ≢ Memory) }
    ensures severe { IfOk result (λ errors. All IsError errors.items) }
{
    if let CompileError::Memory = error {
        return Err(AllocError);
    }
    let (code, mut message) = line_of(document, error)?;
    if let Some(lattice) = lattice {
        let mut telling = Telling::new(document.alloc, document.uri, document.text);
        telling.put_refusal(lattice, error)?;
        message.extend_from_slice(b"\n")?;
        put_text(&mut message, &telling.words)?;
    }
    let span = refused_span(document.text, error);
    error_list(document, span, code, message.trim_ascii_end())
}

/// The list of the error at a part of a document, with a number and a message.
pub(crate) fn error_list(
    document: DocumentText<'_>,
    span: Span,
    code: usize,
    message: &[u8],
) -> Made<Vec<Value>>
    ensures alone { IfOk result (λ errors. length errors.items ≡ 1) }
    ensures severe { IfOk result (λ errors. All IsError errors.items) }
{
    let error = error_object(document, span, code, message)?;
    Ok(vec![in document.alloc; error]?)
}

/// The object of an error at a part of a document.
fn error_object(document: DocumentText<'_>, span: Span, code: usize, message: &[u8]) -> Made<Value>
    ensures { IfOk result IsError }
{
    let range = document.range(span)?;
    let message = text_value(document.alloc, message)?;
    json!(in document.alloc; {
        "range": range, "severity": 1, "code": code, "source": "vsi", "message": message
    })
}

/// The number of a refusal, and its line without its position.
fn line_of(document: DocumentText<'_>, error: &CompileError) -> Made<(usize, Vec<u8>)> {
    let Some(diagnostic) = refusal_diagnostic(document.text, error) else {
        return Err(AllocError);
    };
    let mut line = Vec::from_slice(document.alloc, b"refused: ")?;
    put_number(&mut line, diagnostic.code)?;
    line.extend_from_slice(b" ")?;
    line.extend_from_slice(diagnostic.name)?;
    Ok((diagnostic.code, line))
}

/// The part of no length at the beginning of a text.
pub(crate) const START: Span = Span { start: 0, stop: 0 };

/// The part to which a refusal points; for a flow, where its first step reads.
fn refused_span(text: &[u8], error: &CompileError) -> Span {
    match error {
        CompileError::Lex(LexError::BadByte(at)) => {
            let next = at.saturating_add(1);
            let rest = text.get(next..).unwrap_or(b"").iter().take(3);
            let more = rest.take_while(|byte| **byte >= 128 && **byte < 192);
            let stop = next.saturating_add(more.count());
            Span { start: *at, stop }
        }
        CompileError::Lex(LexError::BadWord(span) | LexError::BadNumber(span)) => *span,
        CompileError::Parse(ParseError::Unexpected(span) | ParseError::TooDeep(span)) => *span,
        CompileError::Scope(error) => match error {
            ScopeError::Duplicate(span) | ScopeError::UnknownClass(span) => *span,
            ScopeError::Unbound(span) | ScopeError::TooManyGlobals(span) => *span,
            ScopeError::TooManyDeclarations(span) => *span,
            ScopeError::TooLarge | ScopeError::Memory => START,
        },
        CompileError::Flow(walk) => walk.steps.first().map_or(START, |step| step.read),
        _ => START,
    }
}

/// The most warnings that are published for a text.
const MAX_WARNINGS: usize = 100;

/// The object of a warning: its part and its message.
fn warning_object(document: DocumentText<'_>, warning: Warning) -> Made<Value>
    ensures { IfOk result IsWarning }
{
    let mut message = Vec::new(document.alloc);
    put_message(&mut message, document.text, warning)?;
    let message = text_value(document.alloc, &message)?;
    let range = document.range(warning.span)?;
    json!(in document.alloc; {"range": range, "severity": 2, "source": "vsi", "message": message})
}

/// The warnings about a source text, up to the first 100.
fn source_warnings(document: DocumentText<'_>, source: &Source<'_>) -> Made<Vec<Value>>
    ensures { IfOk result (λ objects. All IsWarning objects.items) }
{
    let alloc = document.alloc;
    let mut objects = Vec::new(alloc);
    for warning in warnings_of(alloc, source)?.iter().take(MAX_WARNINGS) {
        objects.push(warning_object(document, *warning)?)?;
    }
    Ok(objects)
}

/// A source text that is refused for a flow, with the number and the line of its refusal.
#[derive(Drop)]
struct RefusedText<'p, 's, 'a> {
    document: DocumentText<'p>,
    source: &'s Source<'a>,
    code: usize,
    line: Vec<u8>,
}

impl RefusedText<'_, '_, '_> {
    /// The message of a refused flow, with the steps of its walk if the client doesn't show them
    /// beside it, and the objects of these steps: where each reads, and its message.
    fn told(&self, from: Var, to: Var, steps: &[Step]) -> Made<(Value, Value)> {
        let alloc = self.document.alloc;
        let ends = ends_text(alloc, self.source, from, to)?;
        let mut message = joined(alloc, &[&self.line, b"\n", &ends])?;
        let mut objects = Vec::new(alloc);
        for step in steps {
            let location = self.document.location(step.read)?;
            let (line, column) = self.document.marked.line_column(step.written.start);
            let text = step_text(alloc, self.source, step, line, column)?;
            if !self.document.shows_steps {
                message.extend_from_slice(b"\n")?;
                message.extend_from_slice(&text)?;
            }
            let text = text_value(alloc, &text)?;
            objects.push(json!(in alloc; {"location": location, "message": text})?)?;
        }
        Ok((text_value(alloc, &message)?, Value::Array(objects)))
    }

    /// The object of a refused flow: its message, and the steps of its walk.
    fn flow(&self, span: Span, from: Var, to: Var, steps: &[Step]) -> Made<Value>
        ensures { IfOk result IsError }
    {
        let (message, related) = self.told(from, to, steps)?;
        let range = self.document.range(span)?;
        json!(in self.document.alloc; {
            "range": range, "severity": 1, "code": self.code, "source": "vsi", "message": message,
            "relatedInformation": related
        })
    }
}
