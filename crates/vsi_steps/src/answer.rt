//! The answer of a monitored run, as lines and as a value of JSON.

use crate::watch::{Stop, Unfinished, Watched};
use crate::{class_name, put_parts, string};
use serde_json::{Value, json};
use std::alloc::{AllocError, Global as Heap};
use vsi_lattice::{Classes, Lattice};
use vsi_scope::Global;
use vsi_syntax::{line_column, put_place, put_word};

/// What the answer of a run names: the classes, the text, and the globals.
#[derive(Clone, Copy)]
pub struct Naming<'a> {
    pub lattice: &'a Lattice,
    pub text: &'a [u8],
    pub globals: &'a [Global<'a>],
}

/// The name of the variable of an assignment or in a guard.
fn variable_name<'a>(naming: &Naming<'a>, stop: &Stop) -> &'a [u8] {
    let name = naming.text.get(stop.place.start..stop.place.stop);
    name.unwrap_or(b"?")
}

/// The line of a run that is stopped: `3:5 l : L may not be assigned under H`, or
/// `3:5 a guard reads l, which is partly leaked`.
fn put_stop(text: &mut Vec<u8>, naming: &Naming<'_>, stop: &Stop) -> Result<(), AllocError> {
    put_place(text, naming.text, stop.place.start)?;
    let name = variable_name(naming, stop);
    if stop.label.index() >= naming.lattice.count() {
        put_parts(text, &[b" a guard reads ", name])?;
        return text.extend_from_slice(b", which is partly leaked\n");
    }
    let label = class_name(naming.lattice, stop.label);
    put_parts(text, &[b" ", name, b" : ", label])?;
    let counter = class_name(naming.lattice, stop.counter);
    put_parts(text, &[b" may not be assigned under ", counter, b"\n"])
}

/// The lines of the last store, each with its label.
fn put_store(text: &mut Vec<u8>, naming: &Naming<'_>, end: &Watched) -> Result<(), AllocError> {
    let ends = end.words.iter().zip(end.labels.iter());
    for (global, (word, label)) in naming.globals.iter().zip(ends) {
        put_parts(text, &[global.name, b" = "])?;
        put_word(text, *word)?;
        put_parts(text, &[b" : ", class_name(naming.lattice, *label), b"\n"])?;
    }
    Ok(())
}

/// The lines of the last store of a run, each with its label, or the line of the stop or of the
/// limit.
pub fn monitor_text(
    alloc: Heap,
    naming: &Naming<'_>,
    run: &Result<Watched, Unfinished>,
) -> Result<Vec<u8>, AllocError> {
    let mut text = Vec::new(alloc);
    match run {
        Ok(end) => put_store(&mut text, naming, end)?,
        Err(Unfinished::Stopped(stop)) => put_stop(&mut text, naming, stop)?,
        Err(Unfinished::Limit) => text.extend_from_slice(b"limit of steps\n")?,
        Err(Unfinished::Memory) => return Err(AllocError),
    }
    Ok(text)
}

/// The object of a run that halts: the array `store` of the globals, each with its label.
fn halted(alloc: Heap, naming: &Naming<'_>, end: &Watched) -> Result<Value, AllocError> {
    let mut store = Vec::new(alloc);
    let ends = end.words.iter().zip(end.labels.iter());
    for (global, (word, label)) in naming.globals.iter().zip(ends) {
        let name = string(alloc, global.name)?;
        let label = string(alloc, class_name(naming.lattice, *label))?;
        store.push(json!(in alloc; {"name": name, "word": (*word), "label": label})?)?;
    }
    json!(in alloc; {"outcome": "halted", "store": (Value::Array(store))})
}

/// The object of a run that is stopped: the place of the assignment, its variable and the
/// variable's label, and the class of the counter.
fn stopped(alloc: Heap, naming: &Naming<'_>, stop: &Stop) -> Result<Value, AllocError> {
    let (line, column) = line_column(naming.text, stop.place.start);
    json!(in alloc; {
        "outcome": "stopped", "line": line, "column": column,
        "name": (string(alloc, variable_name(naming, stop))?),
        "label": (string(alloc, class_name(naming.lattice, stop.label))?),
        "counter": (string(alloc, class_name(naming.lattice, stop.counter))?)
    })
}

/// A monitored run: its `outcome`, which is `halted`, `stopped` or `limit`, with the last store or
/// with the assignment.
pub fn monitor_json(
    alloc: Heap,
    naming: &Naming<'_>,
    run: &Result<Watched, Unfinished>,
) -> Result<Value, AllocError> {
    match run {
        Ok(end) => halted(alloc, naming, end),
        Err(Unfinished::Stopped(stop)) => stopped(alloc, naming, stop),
        Err(Unfinished::Limit) => json!(in alloc; {"outcome": "limit"}),
        Err(Unfinished::Memory) => Err(AllocError),
    }
}
