//! The lines of runs, of two runs in step, and the same as values of JSON.

ghost use Rattle.std.specs.Prelude.{◌≤◌, IfOk, length};

use crate::listing::{Listing, Site};
use crate::run::{Step, Trace};
use serde_json::{Value, json};
use std::alloc::{AllocError, Global};
use vsi_lattice::{Class, Classes, Lattice};
use vsi_syntax::{put_line_column, put_number, put_word};

/// The runs that take a step.
#[derive(Clone, Copy, Debug, PartialEq, Eq)]
pub enum Side {
    Both,
    First,
    Second,
}

impl Side {
    /// The mark before the lines of these runs, and their name.
    pub(crate) fn texts(self) -> (&'static [u8], &'static [u8]) {
        match self {
            Side::Both => (b"  ", b"both"),
            Side::First => (b"< ", b"first"),
            Side::Second => (b"> ", b"second"),
        }
    }
}

/// A step of one run, or of both.
pub type Row = (Side, Step);

/// Adds the rows of the first of these steps of one run, whose sites are from a number up to
/// another, and returns the rest.
fn put_side<'s>(
    rows: &mut Vec<Row>,
    sites: (usize, usize),
    side: Side,
    steps: &'s [Step],
) -> Result<&'s [Step], AllocError>
    ensures { IfOk result (λ rest. length rest.now ≤ length steps.now) }
{
    for (i, step) in steps.iter().enumerate() {
        let at = step.site as usize;
        if at < sites.0 || at >= sites.1 {
            return Ok(&steps[i..]);
        }
        rows.push((side, *step))?;
    }
    Ok(&steps[steps.len()..])
}

/// The sites in which two runs differ after a step of both: those of a guard that is true in one of
/// them, and of what it guards.
fn apart(listing: &Listing<'_>, one: &Step, other: &Step) -> (usize, usize) {
    let at = one.site as usize;
    match listing.sites.get(at) {
        Some(site) if site.name.is_empty() && (one.value != 0) != (other.value != 0) => {
            (at, site.end)
        }
        _ => (0, 0),
    }
}

/// The rows of two runs of one program: a row for each step of both that has one value, two where
/// the values differ, and the steps of each run from the guard at which they go apart to the end of
/// its branch or loop.
pub fn rows_of(
    alloc: Global,
    listing: &Listing<'_>,
    first: &[Step],
    second: &[Step],
) -> Result<Vec<Row>, AllocError> {
    let mut rows = Vec::new(alloc);
    let (mut left, mut right) = (first, second);
    while let ([one, rest @ ..], [other, others @ ..]) = (left, right) {
        if one == other {
            rows.push((Side::Both, *one))?;
        } else {
            rows.push((Side::First, *one))?;
            rows.push((Side::Second, *other))?;
        }
        let sites = apart(listing, one, other);
        left = put_side(&mut rows, sites, Side::First, rest)?;
        right = put_side(&mut rows, sites, Side::Second, others)?;
    }
    put_side(&mut rows, (0, usize::MAX), Side::First, left)?;
    put_side(&mut rows, (0, usize::MAX), Side::Second, right)?;
    Ok(rows)
}

/// Whether a class sees what a site writes or tests.
fn sees(lattice: &Lattice, class: Class, site: &Site<'_>) -> bool {
    class.index() < lattice.count()
        && site.class.index() < lattice.count()
        && lattice.leq(site.class, class)
}

/// The site of the first row that a class sees in one of the runs alone, if there is one.
pub fn first_seen<'l, 'a>(
    listing: &'l Listing<'a>,
    rows: &[Row],
    class: Class,
) -> Option<&'l Site<'a>> {
    for (side, step) in rows {
        if let Some(site) = listing.sites.get(step.site as usize) {
            if *side != Side::Both && sees(listing.lattice, class, site) {
                return Some(site);
            }
        }
    }
    None
}

/// The widest text of a site that is aligned.
const WIDEST: usize = 40;

/// Fills a line up with spaces to a width, and adds two.
fn pad(line: &mut Vec<u8>, width: usize) -> Result<(), AllocError> {
    let end = line.len().max(width).saturating_add(2);
    line.resize(end, b' ')
}

/// Adds some texts.
pub fn put_parts(text: &mut Vec<u8>, parts: &[&[u8]]) -> Result<(), AllocError> {
    for part in parts {
        text.extend_from_slice(part)?;
    }
    Ok(())
}

/// The name of a class, or of the mark above all classes, by which a monitor labels words.
pub fn class_name(lattice: &Lattice, class: Class) -> &[u8] {
    if class.index() < lattice.count() {
        lattice.name(class)
    } else {
        b"partly leaked"
    }
}

/// The place and the text of each site, aligned.
fn heads(alloc: Global, sites: &[Site<'_>]) -> Result<Vec<Vec<u8>>, AllocError> {
    let mut heads: Vec<Vec<u8>> = Vec::new(alloc);
    let (mut width, mut longest): (usize, usize) = (0, 0);
    for site in sites {
        let mut head = Vec::new(alloc);
        put_line_column(&mut head, site.line, site.column)?;
        width = width.max(head.len());
        longest = longest.max(site.text.len().min(WIDEST));
        heads.push(head)?;
    }
    let column = width.saturating_add(longest).saturating_add(2);
    for (head, site) in heads.iter_mut().zip(sites.iter()) {
        pad(head, width)?;
        head.extend_from_slice(&site.text)?;
        pad(head, column)?;
    }
    Ok(heads)
}

/// Adds the line of a step after a mark: `x = 7 : L` for a word that is stored, `is 1 : H` for a
/// guard.
fn put_step(
    text: &mut Vec<u8>,
    listing: &Listing<'_>,
    heads: &[Vec<u8>],
    mark: &[u8],
    step: Step,
) -> Result<(), AllocError> {
    let at = step.site as usize;
    let (Some(site), Some(head)) = (listing.sites.get(at), heads.get(at)) else {
        return Ok(());
    };
    let verb: &[u8] = if site.name.is_empty() { b"is " } else { b" = " };
    put_parts(text, &[mark, head, site.name, verb])?;
    put_word(text, step.value)?;
    let class = class_name(listing.lattice, site.class);
    put_parts(text, &[b" : ", class, b"\n"])
}

/// Adds the lines of the globals, or that a run has more steps than the limit.
fn put_ending(
    text: &mut Vec<u8>,
    listing: &Listing<'_>,
    mark: &[u8],
    trace: &Trace,
) -> Result<(), AllocError> {
    if !trace.halted {
        put_parts(text, &[mark, b"limit of "])?;
        put_number(text, trace.steps.len())?;
        return text.extend_from_slice(b" steps\n");
    }
    for (global, word) in listing.globals.iter().zip(trace.words.iter()) {
        put_parts(text, &[mark, global.name, b" = "])?;
        put_word(text, *word)?;
        text.extend_from_slice(b"\n")?;
    }
    Ok(())
}

/// A line for each step of a run, then the lines of the last store or of the limit.
pub fn steps_text(
    alloc: Global,
    listing: &Listing<'_>,
    trace: &Trace,
) -> Result<Vec<u8>, AllocError> {
    let heads = heads(alloc, &listing.sites)?;
    let mut text = Vec::new(alloc);
    for step in &trace.steps {
        put_step(&mut text, listing, &heads, b"", *step)?;
    }
    put_ending(&mut text, listing, b"", trace)?;
    Ok(text)
}

/// Adds a line for each class: whether it sees a difference of two runs, and where the first one
/// is.
fn put_seen(text: &mut Vec<u8>, listing: &Listing<'_>, rows: &[Row]) -> Result<(), AllocError> {
    for number in 0..listing.lattice.count() {
        let class = Class::at(number as u8);
        text.extend_from_slice(class_name(listing.lattice, class))?;
        match first_seen(listing, rows, class) {
            Some(site) => {
                text.extend_from_slice(b" sees a difference at ")?;
                put_line_column(text, site.line, site.column)?;
                text.extend_from_slice(b"\n")?;
            }
            None => text.extend_from_slice(b" sees no difference\n")?,
        }
    }
    Ok(())
}

/// Two runs in step: a line for each step, the endings of both runs, and a line for each class. A
/// line of one run alone has a mark, `<` for the first and `>` for the second.
pub fn together_text(
    alloc: Global,
    listing: &Listing<'_>,
    first: &Trace,
    second: &Trace,
) -> Result<Vec<u8>, AllocError> {
    let heads = heads(alloc, &listing.sites)?;
    let rows = rows_of(alloc, listing, &first.steps, &second.steps)?;
    let mut text = Vec::new(alloc);
    for (side, step) in &rows {
        put_step(&mut text, listing, &heads, side.texts().0, *step)?;
    }
    put_ending(&mut text, listing, Side::First.texts().0, first)?;
    put_ending(&mut text, listing, Side::Second.texts().0, second)?;
    put_seen(&mut text, listing, &rows)?;
    Ok(text)
}

/// A text as a string.
pub fn string(alloc: Global, bytes: &[u8]) -> Result<Value, AllocError> {
    Ok(Value::String(String::from_utf8_lossy(alloc, bytes)?))
}

/// The object of a step.
fn step_value(alloc: Global, listing: &Listing<'_>, step: Step) -> Result<Value, AllocError> {
    let Some(site) = listing.sites.get(step.site as usize) else {
        return Ok(Value::Null);
    };
    json!(in alloc; {
        "line": (site.line), "column": (site.column), "text": (string(alloc, &site.text)?),
        "name": (string(alloc, site.name)?), "value": (step.value),
        "class": (string(alloc, class_name(listing.lattice, site.class))?)
    })
}

/// The array of the globals with their words.
fn store_value(alloc: Global, listing: &Listing<'_>, words: &[i64]) -> Result<Value, AllocError> {
    let mut store = Vec::new(alloc);
    for (global, word) in listing.globals.iter().zip(words.iter()) {
        store.push(json!(in alloc; {"name": (string(alloc, global.name)?), "word": (*word)})?)?;
    }
    Ok(Value::Array(store))
}

/// A run: the array `steps`, whether it `halted`, and the array `store` of its last words.
pub fn steps_json(
    alloc: Global,
    listing: &Listing<'_>,
    trace: &Trace,
) -> Result<Value, AllocError> {
    let mut steps = Vec::new(alloc);
    for step in &trace.steps {
        steps.push(step_value(alloc, listing, *step)?)?;
    }
    let store = store_value(alloc, listing, &trace.words)?;
    json!(in alloc; {"steps": (Value::Array(steps)), "halted": (trace.halted), "store": store})
}

/// The array of the rows of two runs, each with the runs that take its step.
fn rows_value(alloc: Global, listing: &Listing<'_>, rows: &[Row]) -> Result<Value, AllocError> {
    let mut values = Vec::new(alloc);
    for (side, step) in rows {
        let step = step_value(alloc, listing, *step)?;
        let run = string(alloc, side.texts().1)?;
        values.push(json!(in alloc; {"run": run, "step": step})?)?;
    }
    Ok(Value::Array(values))
}

/// The array of the classes, with the place of the first step at which each sees a difference.
fn seen_value(alloc: Global, listing: &Listing<'_>, rows: &[Row]) -> Result<Value, AllocError> {
    let mut seen = Vec::new(alloc);
    for number in 0..listing.lattice.count() {
        let class = Class::at(number as u8);
        let name = string(alloc, class_name(listing.lattice, class))?;
        let value = match first_seen(listing, rows, class) {
            Some(site) => {
                json!(in alloc; {"class": name, "column": (site.column), "line": (site.line)})?
            }
            None => json!(in alloc; {"class": name})?,
        };
        seen.push(value)?;
    }
    Ok(Value::Array(seen))
}

/// Two runs in step as a class compares them: the arrays `steps` of their rows, `seen` of the
/// classes with their first differences, and `first` and `second` of their last words.
pub fn together_json(
    alloc: Global,
    listing: &Listing<'_>,
    class: Class,
    is_same: bool,
    first: &Trace,
    second: &Trace,
) -> Result<Value, AllocError> {
    let rows = rows_of(alloc, listing, &first.steps, &second.steps)?;
    json!(in alloc; {
        "class": (string(alloc, class_name(listing.lattice, class))?), "same": is_same,
        "seen": (seen_value(alloc, listing, &rows)?), "steps": (rows_value(alloc, listing, &rows)?),
        "first": (store_value(alloc, listing, &first.words)?),
        "second": (store_value(alloc, listing, &second.words)?)
    })
}
