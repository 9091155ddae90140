//! The verdict on a source text, and each of its faults.

ghost use Rattle.std.specs.Prelude.{IfOk};
ghost use Rattle.vsi_subject.specs.Surveys.{IsVerdict};

use crate::findings::{Made, Written, refusal_rule};
use std::alloc::{AllocError, Global};
use vsi_answers::{
    Diagnostic, Field, Object, Objects, line_text, refusal_diagnostic, refusal_object,
    source_objects,
};
use vsi_compiler::{CompileError, Source, read_source};
use vsi_conform::{
    Judgement, flows_profile, judged_of, put_parts, refusal_lines, refusal_lines_of,
    unsteady_diagnostic,
};
use vsi_documents::Finding;
use vsi_flows::{ends_text, further_flows};
use vsi_lattice::Lattice;
use vsi_recovery::{Cause, further_faults};
use vsi_scope::ScopeError;
use vsi_steady::UnsteadyError;
use vsi_syntax::{LexError, ParseError, line_column, put_line_column};
use vsi_types::Step;

/// The most tokens that are read again to find the further faults of a text.
const MAX_READ: usize = 131_072;

/// Where a fault without a position is reported.
pub(crate) const START: (usize, usize) = (1, 1);

/// Adds a path and a place of its file, before what is said there.
pub(crate) fn put_place(lines: &mut Vec<u8>, path: &str, place: (usize, usize)) -> Made<()> {
    put_parts(lines, &[path.as_bytes(), b":"])?;
    put_line_column(lines, place.0, place.1)?;
    lines.extend_from_slice(b": ")
}

/// How many bytes are at fault, or 0 if this isn't known.
fn length_of(error: &CompileError) -> usize {
    match error {
        CompileError::Lex(LexError::BadByte(_)) => 1,
        CompileError::Lex(LexError::BadWord(span) | LexError::BadNumber(span))
        | CompileError::Parse(ParseError::Unexpected(span) | ParseError::TooDeep(span))
        | CompileError::Scope(
            ScopeError::Duplicate(span)
            | ScopeError::UnknownClass(span)
            | ScopeError::Unbound(span)
            | ScopeError::TooManyGlobals(span)
            | ScopeError::TooManyDeclarations(span),
        ) => span.stop.saturating_sub(span.start),
        _ => 0,
    }
}

/// A source text at a path, which is judged under a lattice.
#[derive(Clone, Copy)]
pub(crate) struct Judged<'s> {
    pub(crate) alloc: Global,
    pub(crate) judgement: Judgement,
    pub(crate) lattice: &'s Lattice,
    pub(crate) path: &'s str,
    pub(crate) text: &'s [u8],
}

impl Judged<'_> {
    /// Whether the text is accepted, with the object of JSON that says so, after each of its faults
    /// was added.
    pub(crate) fn verdict(&self, written: &mut Written) -> Made<(bool, Object)>
        ensures { IfOk result
            (λ pair. IsVerdict self.now.judgement self.now.lattice.now self.now.text.now pair.0) }
    {
        match read_source(self.alloc, self.lattice, self.text) {
            Ok(source) => self.source_verdict(&source, written),
            Err(CompileError::Memory) => Err(AllocError),
            Err(error) => {
                let made = self.unread(error, written)?;
                Ok((false, made))
            }
        }
    }

    /// The verdict on the text, which was read.
    fn source_verdict(&self, source: &Source<'_>, written: &mut Written) -> Made<(bool, Object)>
        ensures { IfOk result (λ pair.
            IsVerdict self.now.judgement source.now.lattice source.now.text pair.0) }
    {
        match judged_of(self.alloc, self.judgement, source)? {
            Ok(_verified) => {
                let made = Object::new(self.alloc).flag("accepted", true)?;
                let made = made.text("file", self.path.as_bytes())?;
                Ok((true, made))
            }
            Err(error) => {
                let made = self.refused(source, &error, written)?;
                Ok((false, made))
            }
        }
    }

    /// Whether a steady image is demanded.
    fn is_steady(&self) -> bool {
        matches!(self.judgement, Judgement::Steady)
    }

    /// Adds the faults of a text without a program, and returns the object of the first one.
    fn unread(&self, error: CompileError, written: &mut Written) -> Made<Object> {
        self.put_error(&error, written)?;
        self.put_further(&error, written)?;
        let error = UnsteadyError::Compile(error);
        let is_steady = self.is_steady();
        let told = refusal_lines(self.alloc, self.lattice, self.text, &error, is_steady)?;
        let Some(diagnostic) = unsteady_diagnostic(self.text, &error) else {
            return Err(AllocError);
        };
        self.refusal(&diagnostic, None, &told)
    }

    /// Adds the faults of a text without a program after its first one.
    fn put_further(&self, error: &CompileError, written: &mut Written) -> Made<()> {
        if let CompileError::Scope(ScopeError::TooLarge) = error {
            return Ok(());
        }
        for fault in &further_faults(self.alloc, self.lattice, self.text, MAX_READ)? {
            let error = match fault.cause {
                Cause::Lex(error) => CompileError::Lex(error),
                Cause::Tree => CompileError::Parse(ParseError::Unexpected(fault.span)),
                Cause::Scope(error) => CompileError::Scope(error),
            };
            self.put_error(&error, written)?;
        }
        Ok(())
    }

    /// Adds the faults of a text with a program, and returns the object of the first one.
    fn refused(
        &self,
        source: &Source<'_>,
        error: &UnsteadyError,
        written: &mut Written,
    ) -> Made<Object> {
        let told = refusal_lines_of(self.alloc, source, error, self.is_steady())?;
        let Some(diagnostic) = unsteady_diagnostic(self.text, error) else {
            return Err(AllocError);
        };
        let Some(steps) = diagnostic.steps else {
            self.put_fault(&diagnostic, 0, written)?;
            return self.refusal(&diagnostic, None, &told);
        };
        self.put_flows(source, &diagnostic, steps, written)?;
        let objects = source_objects(self.alloc, source, steps)?;
        self.refusal(&diagnostic, Some(objects), &told)
    }

    /// The object of a refusal with these lines.
    fn refusal(&self, fault: &Diagnostic, steps: Option<Objects>, told: &[u8]) -> Made<Object> {
        let made = refusal_object(self.alloc, fault, steps, told)?;
        made.text("file", self.path.as_bytes())
    }

    /// Adds an error, at its place.
    fn put_error(&self, error: &CompileError, written: &mut Written) -> Made<()> {
        let Some(diagnostic) = refusal_diagnostic(self.text, error) else {
            return Err(AllocError);
        };
        self.put_fault(&diagnostic, length_of(error), written)
    }

    /// Adds a refusal of so many bytes: its fixed line, at its place.
    fn put_fault(&self, diagnostic: &Diagnostic, length: usize, written: &mut Written) -> Made<()> {
        let (place, field) = match diagnostic.field {
            Field::Place(line, column) => ((line, column), Field::Nothing),
            field => (START, field),
        };
        let fixed = Diagnostic::new(diagnostic.code, diagnostic.name, field);
        let line = line_text(self.alloc, &fixed)?;
        let path = String::from_str(self.alloc, self.path)?;
        let fault = Finding {
            path: path.as_str(),
            place,
            length,
            rule: refusal_rule(fixed.code),
            line: &line,
        };
        written.put(&fault, None)
    }

    /// Adds the refused flow with these steps, and further refused flows.
    fn put_flows(
        &self,
        source: &Source<'_>,
        diagnostic: &Diagnostic,
        steps: &[Step],
        written: &mut Written,
    ) -> Made<()> {
        let (Some(first), Some(last)) = (steps.first(), steps.last()) else {
            return self.put_fault(diagnostic, 0, written);
        };
        self.put_flow(source, diagnostic, steps, written)?;
        let profile = flows_profile(self.judgement);
        let (from, to) = (first.source, last.target);
        for flow in &further_flows(self.alloc, profile, source, from, to)? {
            self.put_flow(source, diagnostic, &flow.steps, written)?;
        }
        Ok(())
    }

    /// Adds a refused flow: its ends, where its first step reads.
    fn put_flow(
        &self,
        source: &Source<'_>,
        diagnostic: &Diagnostic,
        steps: &[Step],
        written: &mut Written,
    ) -> Made<()> {
        let (Some(first), Some(last)) = (steps.first(), steps.last()) else {
            return Ok(());
        };
        let fixed = Diagnostic::new(diagnostic.code, diagnostic.name, Field::Nothing);
        let mut line = line_text(self.alloc, &fixed)?;
        line.pop();
        let ends = ends_text(self.alloc, source, first.source, last.target)?;
        put_parts(&mut line, &[b": ", &ends, b"\n"])?;
        let path = String::from_str(self.alloc, self.path)?;
        let fault = Finding {
            path: path.as_str(),
            place: line_column(self.text, first.read.start),
            length: first.read.stop.saturating_sub(first.read.start),
            rule: refusal_rule(fixed.code),
            line: &line,
        };
        written.put(&fault, Some((source, steps)))
    }
}
