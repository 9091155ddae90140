//! Answers about source texts and programs: lines, objects of JSON, or a document of SARIF.

use crate::faults::put_place;
use std::alloc::{AllocError, Global};
use std::mem;
use vsi_answers::{Object, Objects, without_end};
use vsi_arguments::{AnswerForm, page};
use vsi_compiler::Source;
use vsi_conform::{Kind, put_parts};
use vsi_documents::{FaultReport, FaultRule, Finding};
use vsi_flows::step_text;
use vsi_syntax::line_column;
use vsi_types::Step;

/// A part of an answer, or its addition, which fails if memory runs out.
pub(crate) type Made<T> = Result<T, AllocError>;

/// The rule of the refusal with a number, whose name is the second word of its page.
pub(crate) fn refusal_rule(code: usize) -> FaultRule {
    let page = page(code as u64).unwrap_or("");
    let name = page.split_whitespace().nth(1).unwrap_or("");
    FaultRule(Some(code), name.as_bytes(), page)
}

/// The rule of a kind of point.
pub(crate) fn point_rule(kind: Kind) -> FaultRule {
    let page = match kind {
        Kind::Refused => "The program is refused under the profile of its interface.",
        Kind::Missing => "The program has no global with the name of this one of its interface.",
        Kind::Unexpected => "The interface of the program has no global with this name.",
        Kind::Class => "A global has another class than in the interface.",
        Kind::Order => "The globals are the interface's, in another order.",
        Kind::Budget => "A run of the interface doesn't halt within its budget.",
        Kind::Word => "A run of the interface ends with another number in a global.",
        Kind::Bound => "No bound is known for the instructions of a run, and one is required.",
    };
    FaultRule(None, kind.word(), page)
}

/// Adds the line of a fault, at its place, and for a flow a note where each step reads.
fn put_lines(
    lines: &mut Vec<u8>,
    alloc: Global,
    fault: &Finding,
    flow: Option<(&Source<'_>, &[Step])>,
) -> Made<()> {
    put_place(lines, fault.path, fault.place)?;
    put_parts(lines, &[without_end(fault.line), b"\n"])?;
    let Some((source, steps)) = flow else {
        return Ok(());
    };
    let text = source.text();
    for step in steps {
        let (line, column) = line_column(text, step.written.start);
        let message = step_text(alloc, source, step, line, column)?;
        put_place(lines, fault.path, line_column(text, step.read.start))?;
        put_parts(lines, &[b"note: ", &message, b"\n"])?;
    }
    Ok(())
}

/// The answer about source texts or programs as far as it is written, in its form.
#[derive(Drop)]
pub(crate) struct Written {
    pub(crate) alloc: Global,
    pub(crate) form: AnswerForm,
    pub(crate) lines: Vec<u8>,
    /// The objects of texts, and those of the faults of the next one.
    pub(crate) objects: Objects,
    errors: Objects,
    /// The faults of the next program besides those of its text, as texts.
    pub(crate) texts: Objects,
    pub(crate) report: FaultReport,
}

impl Written {
    /// Nothing yet.
    pub(crate) fn new(alloc: Global, form: AnswerForm) -> Written {
        Written {
            alloc,
            form,
            lines: Vec::new(alloc),
            objects: Objects::new(alloc),
            errors: Objects::new(alloc),
            texts: Objects::new(alloc),
            report: FaultReport::new(alloc),
        }
    }

    /// Adds a fault.
    pub(crate) fn put(
        &mut self,
        fault: &Finding,
        flow: Option<(&Source<'_>, &[Step])>,
    ) -> Made<()> {
        match self.form {
            AnswerForm::Lines => put_lines(&mut self.lines, self.alloc, fault, flow),
            AnswerForm::Json => self.errors.push(fault.object(self.alloc, flow)?),
            AnswerForm::Sarif => self.report.add(fault, flow),
        }
    }

    /// Adds what is wrong with a program besides its text, at a place of a file.
    pub(crate) fn put_wrong(
        &mut self,
        path: &str,
        place: (usize, usize),
        rule: FaultRule,
        line: &[u8],
    ) -> Made<()> {
        self.texts.push_text(without_end(line))?;
        let path = String::from_str(self.alloc, path)?;
        let line = Vec::from_slice(self.alloc, line)?;
        let fault = Finding {
            path: path.as_str(),
            place,
            length: 0,
            rule,
            line: &line,
        };
        self.put(&fault, None)
    }

    /// Adds the line of a text or a program that is good, or the object of any, with its faults.
    pub(crate) fn put_said(&mut self, name: &[u8], good: Option<&[u8]>, made: Object) -> Made<()> {
        match (self.form, good) {
            (AnswerForm::Json, _) => {
                let errors = mem::replace(&mut self.errors, Objects::new(self.alloc));
                self.objects.push(made.array("errors", errors)?)
            }
            (AnswerForm::Lines, Some(good)) => {
                put_parts(&mut self.lines, &[name, b": ", good, b"\n"])
            }
            _ => Ok(()),
        }
    }
}
