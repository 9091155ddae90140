//! Faults at places of files: objects of JSON, and the results of a document of SARIF.

use crate::answer::Made;
use crate::refusal::{flow_objects, result_object, uri_of};
use crate::sarif::check_document;
use std::alloc::{AllocError, Global};
use vsi_answers::{Object, Objects, source_objects, without_end};
use vsi_compiler::Source;
use vsi_conform::put_parts;
use vsi_infer::variable_name;
use vsi_syntax::put_number;
use vsi_types::Step;

/// The rule that a fault breaks: the number of a refusal, or none for another kind of fault, its
/// name, and the page of the refusal or a sentence.
#[derive(Clone, Copy)]
pub struct FaultRule(pub Option<usize>, pub &'static [u8], pub &'static str);

/// A fault at a line and a column of a file: how many bytes it has, or 0 if this isn't known, and
/// what is wrong, as a line. A refused flow comes with its source text and the steps of its walk.
#[derive(Clone, Copy)]
pub struct Finding<'f> {
    pub path: &'f str,
    pub place: (usize, usize),
    pub length: usize,
    pub rule: FaultRule,
    pub line: &'f [u8],
}

/// An object with the line and the column of a fault, at keys, and the column after it if known.
fn with_place(made: Object, keys: (&str, &str), fault: &Finding) -> Made<Object> {
    let (line, column) = fault.place;
    let made = made.natural(keys.0, line)?.natural(keys.1, column)?;
    if fault.length == 0 {
        return Ok(made);
    }
    made.natural("endColumn", column.saturating_add(fault.length))
}

impl Finding<'_> {
    /// The object of JSON of the fault: its file, its line, its columns, its rule and its text, and
    /// the ends and the steps of a flow.
    pub fn object(
        &self,
        alloc: Global,
        flow: Option<(&Source<'_>, &[Step])>,
    ) -> Result<Object, AllocError> {
        let FaultRule(number, name, _) = self.rule;
        let made = Object::new(alloc)
            .text("file", self.path.as_bytes())?
            .text("name", name)?
            .text("text", without_end(self.line))?;
        let made = match number {
            Some(number) => made.natural("number", number)?,
            None => made,
        };
        let made = with_place(made, ("line", "column"), self)?;
        let Some((source, steps)) = flow else {
            return Ok(made);
        };
        let (Some(first), Some(last)) = (steps.first(), steps.last()) else {
            return Ok(made);
        };
        made.text("from", variable_name(source.resolved(), first.source))?
            .text("to", variable_name(source.resolved(), last.target))?
            .array("steps", source_objects(alloc, source, steps)?)
    }

    /// The object of the result of the rule with an identifier and an index.
    fn result(
        &self,
        alloc: Global,
        id: &[u8],
        index: usize,
        flow: Option<(&Source<'_>, &[Step])>,
    ) -> Result<Object, AllocError> {
        let uri = uri_of(alloc, self.path)?;
        let region = with_place(Object::new(alloc), ("startLine", "startColumn"), self)?;
        let file = Object::new(alloc).text("uri", uri.as_bytes())?;
        let physical = Object::new(alloc)
            .object("artifactLocation", file)?
            .object("region", region)?;
        let at = Object::new(alloc).object("physicalLocation", physical)?;
        let steps = match flow {
            Some((source, steps)) => flow_objects(alloc, uri.as_bytes(), source, Some(steps))?,
            None => None,
        };
        result_object(alloc, id, index, at, steps, self.line)
    }
}

/// The object of a rule: its description is the first sentence of its page, after the title.
fn rule_object(alloc: Global, id: &[u8], rule: FaultRule) -> Result<Object, AllocError> {
    let FaultRule(_, name, page) = rule;
    let (_, rest) = page.split_once("\n\n").unwrap_or(("", page));
    let mut short = Vec::new(alloc);
    for word in rest.split_whitespace() {
        put_parts(&mut short, &[word.as_bytes(), b" "])?;
        if word.strip_suffix(".").is_some() {
            break;
        }
    }
    let short = Object::new(alloc).text("text", short.trim_ascii_end())?;
    let help = Object::new(alloc).text("text", page.as_bytes().trim_ascii_end())?;
    let made = Object::new(alloc).text("id", id)?.text("name", name)?;
    made.object("shortDescription", short)?.object("help", help)
}

/// A document of SARIF about files: a result for each fault, and the rules that they break.
#[derive(Drop)]
pub struct FaultReport {
    alloc: Global,
    /// The identifiers of the rules.
    ids: Vec<Vec<u8>>,
    rules: Objects,
    results: Objects,
}

impl FaultReport {
    ghost use Rattle.std.specs.Prelude.{◌≡◌, ◌+◌, IfOk, OnOk, [], length};
    ghost use Rattle.vsi_documents.specs.Document as spec;

    /// A document without results.
    pub fn new(alloc: Global) -> FaultReport
        ensures none { result.results ≡ [] }
    {
        FaultReport {
            alloc,
            ids: Vec::new(alloc),
            rules: Objects::new(alloc),
            results: Objects::new(alloc),
        }
    }

    /// The index of the rule with an identifier, which is added if it isn't there.
    fn index_of(&mut self, id: &[u8], rule: FaultRule) -> Result<usize, AllocError>
        ensures { self.new.results ≡ self.old.results }
    {
        let found = self.ids.iter().position(|known| known.as_slice() == id);
        if let Some(index) = found {
            return Ok(index);
        }
        let index = self.ids.len();
        self.rules.push(rule_object(self.alloc, id, rule)?)?;
        self.ids.push(Vec::from_slice(self.alloc, id)?)?;
        Ok(index)
    }

    /// Adds a fault, which is one result.
    pub fn add(
        &mut self,
        fault: &Finding,
        flow: Option<(&Source<'_>, &[Step])>,
    ) -> Result<(), AllocError>
        ensures added { OnOk result (length self.new.results ≡ length self.old.results + 1) }
    {
        let mut id = Vec::new(self.alloc);
        match fault.rule {
            FaultRule(Some(number), _, _) => put_number(&mut id, number)?,
            FaultRule(None, name, _) => id.extend_from_slice(name)?,
        }
        let index = self.index_of(&id, fault.rule)?;
        let made = fault.result(self.alloc, &id, index, flow)?;
        self.results.push(made)
    }

    /// The text of the document, a line.
    pub fn document(self) -> Result<Vec<u8>, AllocError>
        ensures document { IfOk result (λ line. spec.IsReport (length self.results) line.items) }
    {
        check_document(self.alloc, self.rules, self.results)
    }
}
