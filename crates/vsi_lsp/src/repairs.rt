//! Repairs of a text that is refused: its least raises, and rewrites of the parts with errors.

ghost use Rattle.std.specs.Prelude.{IfOk, IfSome, ◌≡◌, ◌++◌, OnOk};
ghost use Rattle.vsi_lattice.specs.{LatticeView.{class_named, order}, Order.{IsClass}};
ghost use Rattle.vsi_compiler.specs.Acceptance.{IsAccepted};
ghost use Rattle.vsi_flows.specs.Answers.{HasClassesIn};
ghost use Rattle.vsi_client.specs.Changes.{changed_by};
ghost use Rattle.vsi_lsp.specs.Titles as spec;

use crate::diagnostics::{REFUSED, objects_in};
use crate::document::{
    DocumentText, Fault, Made, PARAMETERS, joined, number_at, place_at, text_value, tokens_of,
};
use crate::reading::names_after;
use serde_json::{Value, json};
use std::alloc::{AllocError, Global};
use std::str::from_utf8;
use strsim::osa_distance;
use vsi_client::{Change, Place, Range, changed_by};
use vsi_compiler::Source;
use vsi_flows::{Raise, RaisedError, Raising, raised_text_of, raises_of};
use vsi_hints::{Hint, hint_at};
use vsi_infer::variable_name;
use vsi_lattice::Lattice;
use vsi_recovery::{Sort, expected_after};
use vsi_scope::Resolved;
use vsi_syntax::{Kind, ParseError, Span, Token, parse};

/// The number of the refusal of the tree as Unexpected; the three before it are those of tokens.
const UNEXPECTED: u64 = 15;

/// The number of the refusal of a name that isn't declared.
const UNBOUND: u64 = 19;

/// The most bytes of a text that a title shows.
const LONGEST: usize = 120;

/// The repairs for a request, if it asks for those: of the errors that touch its range.
pub(crate) fn fixes(
    document: DocumentText<'_>,
    lattice: &Lattice,
    value: &Value,
) -> Result<Value, Fault> {
    let start = place_at(value, "/params/range/start").ok_or(PARAMETERS)?;
    let stop = place_at(value, "/params/range/end").ok_or(PARAMETERS)?;
    if is_for_repairs(value) {
        return Ok(repairs_in(document, lattice, start, stop)?);
    }
    Ok(Value::Array(Vec::new(document.alloc)))
}

/// The repairs of the errors that touch the part between two positions: the rewrites of their
/// parts, up to 20 errors, or the least raises if one of them is a refused flow. A rewrite is
/// preferred if its error has no other. A raise never is: it is the policy that it changes.
fn repairs_in(
    document: DocumentText<'_>,
    lattice: &Lattice,
    start: Place,
    stop: Place,
) -> Made<Value> {
    let alloc = document.alloc;
    let mut actions = Vec::new(alloc);
    let errors = objects_in(document, lattice)?;
    let touched = errors.iter().filter(|error| touches(error, start, stop));
    for error in touched.take(20) {
        if number_at(error, "/code") == Some(REFUSED) {
            // One repair makes all raises at once, and so repairs all flows.
            return raising(document, lattice, &errors);
        }
        let list = Vec::new(alloc);
        let mut repairs = Repairs { document, list };
        repairs.put_rewrites(error)?;
        let is_preferred = repairs.list.len() == 1;
        for (title, span, new) in &repairs.list {
            let repaired = json!(in alloc; [error])?;
            let edits = document.edits(*span, new)?;
            actions.push(action(document, title, repaired, is_preferred, edits)?)?;
        }
    }
    Ok(Value::Array(actions))
}

/// Whether a request for actions is for repairs: for all kinds, or for theirs.
fn is_for_repairs(value: &Value) -> bool {
    let Some(Value::Array(kinds)) = value.pointer("/params/context/only") else {
        return true;
    };
    let mut kinds = kinds.iter().map(Value::as_str);
    kinds.any(|kind| kind == Some("") || kind == Some("quickfix"))
}

/// Whether the part of an error touches the part between two positions.
fn touches(error: &Value, start: Place, stop: Place) -> bool {
    let is_before = |a: Place, b: Place| (a.line, a.character) < (b.line, b.character);
    let first = place_at(error, "/range/start").unwrap_or(start);
    let last = place_at(error, "/range/end").unwrap_or(stop);
    !is_before(stop, first) && !is_before(last, start)
}

/// The object of a repair: its title, the errors that it repairs, and its changes of the text.
fn action(
    document: DocumentText<'_>,
    title: &[u8],
    repaired: Value,
    is_preferred: bool,
    edits: Value,
) -> Made<Value> {
    let title = text_value(document.alloc, title)?;
    let changes = document.changes(edits)?;
    json!(in document.alloc; {
        "title": title, "kind": "quickfix", "diagnostics": repaired, "isPreferred": is_preferred,
        "edit": changes
    })
}

/// The list of the repair that makes the least raises, which repairs each refused flow, if any do.
fn raising(document: DocumentText<'_>, lattice: &Lattice, errors: &[Value]) -> Made<Value> {
    let alloc = document.alloc;
    let mut list = Vec::new(alloc);
    if let Some(source) = document.source(lattice)?
        && let Some(title) = raising_title(document, &source)?
        && let Some(new) = raised_text(document, &source)?
        && let Some(changes) = changes_to(document, &new)?
    {
        let mut repaired = Vec::new(alloc);
        for error in errors {
            if number_at(error, "/code") == Some(REFUSED) {
                repaired.push(error.clone()?)?;
            }
        }
        let edits = document.change_list(&changes)?;
        list.push(action(document, &title, Value::Array(repaired), false, edits)?)?;
    }
    Ok(Value::Array(list))
}

/// The changes of single tokens that make another text, the last token first, if there are some.
fn changes_to<'n>(document: DocumentText<'_>, new: &'n [u8]) -> Made<Option<Vec<Change<'n>>>>
    ensures made { IfOk result (λ found. IfSome found (λ changes.
        changed_by document.entry.encoding changes.items document.entry.text.now ≡ new.now)) }
{
    let alloc = document.alloc;
    let (olds, news) = (tokens_of(alloc, document.text)?, tokens_of(alloc, new)?);
    let (Some(olds), Some(news)) = (olds, news) else {
        return Ok(None);
    };
    let mut changes = Vec::new(alloc);
    for (old, token) in olds.iter().rev().zip(news.iter().rev()) {
        if old.text != token.text {
            let Range { start, stop } = document.marked.range(old.span);
            let range = Some((start, stop));
            let text = token.text;
            changes.push(Change { range, text })?;
        }
    }
    let changed = changed_by(alloc, document.encoding, document.text, &changes)?;
    if changed.as_slice() == new {
        return Ok(Some(changes));
    }
    Ok(None)
}

/// The rewrites found for an error of a document: each title, and the text in place of a part.
#[derive(Drop)]
struct Repairs<'a> {
    document: DocumentText<'a>,
    list: Vec<(Vec<u8>, Span, Vec<u8>)>,
}

impl Repairs<'_> {
    /// Adds the rewrites for an error.
    fn put_rewrites(&mut self, error: &Value) -> Made<()> {
        let Some(at) = self.document.byte_at(error, "/range/start") else {
            return Ok(());
        };
        match number_at(error, "/code") {
            Some(UNBOUND) => {
                let alloc = self.document.alloc;
                let Some(tokens) = tokens_of(alloc, self.document.text)? else {
                    return Ok(());
                };
                let (ahead, rest) = parted(&tokens, at);
                if let Some(token) = rest.first()
                    && token.span.start == at
                    && let Some(name) = nearest(alloc, token.text, &names_after(alloc, ahead)?)?
                {
                    self.put_rewrite(token.span, name, token.text)?;
                }
                Ok(())
            }
            Some(UNEXPECTED) => {
                self.put_hinted(at)?;
                self.put_branch(at)
            }
            Some(12..=14) => self.put_hinted(at),
            _ => Ok(()),
        }
    }

    /// Adds the repair with a title that puts a text in place of a part.
    fn put(&mut self, title: &[&[u8]], span: Span, new: &[u8]) -> Made<()> {
        let alloc = self.document.alloc;
        let title = joined(alloc, title)?;
        let new = Vec::from_slice(alloc, new)?;
        Ok(self.list.push((title, span, new))?)
    }

    /// Adds the repair that writes a text in place of a part.
    fn put_rewrite(&mut self, span: Span, new: &[u8], old: &[u8]) -> Made<()> {
        self.put(&[b"Write `", new, b"` in place of `", old, b"`"], span, new)
    }

    /// Adds the rewrite that the hint at a byte offers, if it has one.
    fn put_hinted(&mut self, at: usize) -> Made<()> {
        let text = self.document.text;
        let hint = hint_at(self.document.alloc, text, at)?;
        let (new, old): (&[u8], &[u8]) = match &hint {
            Some(Hint::Offer(new, old, _)) => (new, old),
            Some(Hint::Put(new, old, _)) => (new.as_bytes(), old),
            _ => return Ok(()),
        };
        if old.is_empty() || LONGEST < old.len() || LONGEST < new.len() {
            return Ok(());
        }
        // The offer is for the part of the text around the byte.
        for start in at.saturating_sub(old.len())..at.saturating_add(1) {
            let stop = start.saturating_add(old.len());
            if at <= stop && text.get(start..).unwrap_or(b"").starts_with(old) {
                return self.put_rewrite(Span { start, stop }, new, old);
            }
        }
        Ok(())
    }

    /// Adds the repair of an `if` whose `else` is missing at a byte, if `else` may come there and
    /// the text is read on with the repair. The branch assigns to a variable of the other branch
    /// its own value, so nothing flows by it that doesn't flow without it.
    fn put_branch(&mut self, at: usize) -> Made<()> {
        let (alloc, text) = (self.document.alloc, self.document.text);
        let Some(tokens) = tokens_of(alloc, text)? else {
            return Ok(());
        };
        let (ahead, rest) = parted(&tokens, at);
        if let Some(last) = ahead.last()
            && expected_after(alloc, ahead)?.has(Sort::Else)
            && let Some(name) = assigned(alloc, ahead)?
        {
            let stop = last.span.stop;
            let new = branch(alloc, name)?;
            if is_read(alloc, text, stop, &new, rest)? {
                let branch = new.trim_ascii_start();
                let start = stop;
                let span = Span { start, stop };
                self.put(&[b"Add `", branch, b"`, which changes nothing"], span, &new)?;
            }
        }
        Ok(())
    }
}

/// A branch that assigns to a variable its own value.
fn branch(alloc: Global, name: &[u8]) -> Made<Vec<u8>> {
    joined(alloc, &[b" else ", name, b" := ", name])
}

/// The text with the least raises, which is accepted: nothing if no raise makes the text accepted.
fn raised_text(document: DocumentText<'_>, source: &Source<'_>) -> Made<Option<Vec<u8>>>
    ensures accepted { IfOk result (λ found. IfSome found (λ out. IsAccepted
        (class_named source.now.lattice) (order source.now.lattice) document.entry.profile
        out.items)) }
{
    match raised_text_of(document.alloc, document.profile, source) {
        Ok(out) => Ok(Some(out)),
        Err(RaisedError::Memory) => Err(AllocError),
        Err(_) => Ok(None),
    }
}

/// Adds a raise: `l from L to H`.
fn put_raise(
    title: &mut Vec<u8>,
    lattice: &Lattice,
    program: &Resolved<'_>,
    raise: &Raise,
) -> Made<()>
    requires old { IsClass (order lattice.now) raise.now.old }
    requires new { IsClass (order lattice.now) raise.now.new }
    ensures { OnOk result (title.new.items ≡ title.old.items
        ++ spec.raise_words lattice.now program.now raise.now) }
{
    title.extend_from_slice(variable_name(program, raise.variable))?;
    title.extend_from_slice(b" from ")?;
    title.extend_from_slice(lattice.name(raise.old))?;
    title.extend_from_slice(b" to ")?;
    title.extend_from_slice(lattice.name(raise.new))
}

/// The title of the fix that makes these raises: `Raise l from L to H, m from L to H`.
fn title_of(
    alloc: Global,
    lattice: &Lattice,
    program: &Resolved<'_>,
    raises: &[Raise],
) -> Made<Vec<u8>>
    requires old { spec.HasOldClassesIn (order lattice.now) raises.now }
    requires new { HasClassesIn (order lattice.now) raises.now }
    ensures { IfOk result (λ title. title.items
        ≡ spec.raises_title lattice.now program.now raises.now) }
{
    let mut title = Vec::from_slice(alloc, b"Raise ")?;
    let [first, rest @ ..] = raises else {
        return Ok(title);
    };
    put_raise(&mut title, lattice, program, first)?;
    for raise in rest {
        title.extend_from_slice(b", ")?;
        put_raise(&mut title, lattice, program, raise)?;
    }
    Ok(title)
}

/// The title of the fix that makes all raises of a source, if it needs some and they help.
fn raising_title(document: DocumentText<'_>, source: &Source<'_>) -> Made<Option<Vec<u8>>>
    ensures title { IfOk result (λ found. IfSome found (λ title. spec.IsTitle
        source.now.lattice document.entry.profile source.now.text title.items)) }
{
    let lattice = source.lattice();
    let program = source.resolved();
    let raising = raises_of(document.alloc, document.profile, source)?;
    match raising {
        Raising::Raised(raises) => {
            if raises.is_empty() {
                return Ok(None);
            }
            let title = title_of(document.alloc, lattice, program, &raises)?;
            Ok(Some(title))
        }
        Raising::Refused(_walk) => Ok(None),
    }
}

/// The tokens that begin before a byte, and the others.
fn parted<'a>(tokens: &'a [Token<'a>], at: usize) -> (&'a [Token<'a>], &'a [Token<'a>]) {
    let ahead = tokens.iter().take_while(|token| token.span.start < at);
    tokens.split_at(ahead.count().min(tokens.len()))
}

/// The nearest of the names, the first of those as near: fewer than half of its letters differ.
fn nearest<'n>(alloc: Global, written: &[u8], names: &[&'n [u8]]) -> Made<Option<&'n [u8]>> {
    let mut best = None;
    let mut least = LONGEST;
    for name in names {
        let (Ok(written_text), Ok(text)) = (from_utf8(written), from_utf8(name)) else {
            continue;
        };
        let mut far = 0;
        if !written.eq_ignore_ascii_case(name) {
            far = osa_distance(alloc, written_text, text)?;
        }
        if far.saturating_mul(2) < written.len().min(name.len()) && far < least {
            least = far;
            best = Some(*name);
        }
    }
    Ok(best)
}

/// The last variable that is assigned after the last `then` and is in scope after an `else`.
fn assigned<'a>(alloc: Global, ahead: &[Token<'a>]) -> Made<Option<&'a [u8]>> {
    let mut list = Vec::from_slice(alloc, ahead)?;
    if let Some(tokens) = tokens_of(alloc, b"else")? {
        list.extend_from_slice(&tokens)?;
    }
    let names = names_after(alloc, &list)?;
    let mut found = None;
    let mut last: &'a [u8] = b"";
    for token in ahead {
        match token.kind {
            Kind::Then => found = None,
            Kind::Assign if names.contains(&last) => found = Some(last),
            _ => {}
        }
        last = token.text;
    }
    Ok(found)
}

/// Whether the text with `new` at a byte is read over the next two tokens, or else is a program.
fn is_read(alloc: Global, text: &[u8], at: usize, new: &[u8], next: &[Token<'_>]) -> Made<bool> {
    let (before, after) = text.split_at(at.min(text.len()));
    let changed = joined(alloc, &[before, new, after])?;
    let least = match next {
        [_, second, ..] => second.span.stop.saturating_add(new.len()),
        _ => usize::MAX,
    };
    let Some(tokens) = tokens_of(alloc, &changed)? else {
        return Ok(false);
    };
    match parse(alloc, &tokens) {
        Ok(_) => Ok(true),
        Err(ParseError::Unexpected(span)) => Ok(least <= span.start),
        Err(ParseError::Memory) => Err(AllocError),
        Err(ParseError::TooDeep(_)) => Ok(false),
    }
}
