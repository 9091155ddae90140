//! The text of a leak: both runs side by side, a row for each word.

ghost use Rattle.std.specs.Prelude.{◌≡◌, ◌++◌, max, IfOk, IfSome, OnOk};
ghost use Rattle.vsi_image.specs.Fields.{globals};
ghost use Rattle.vsi_lattice.specs.{LatticeView.{class_named, order}, Order.{IsClass}};
ghost use Rattle.vsi_leak.specs.Texts as spec;

use crate::check::Leak;
use std::alloc::{AllocError, Global};
use vsi_image::Image;
use vsi_lattice::{Class, Lattice};
use vsi_machine::{halted_cell, word_cell};
use vsi_store::{RunEnding, sees};

/// A cell filled up with spaces to the width.
fn padded(alloc: Global, width: usize, cell: &[u8]) -> Result<Vec<u8>, AllocError>
    ensures { IfOk result (λ wide. wide.items ≡ spec.padded width cell.now) }
{
    let mut wide = cell.to_vec(alloc)?;
    if wide.len() < width {
        wide.resize(width, b' ')?;
    }
    Ok(wide)
}

/// A star before a row whose cells differ.
fn mark(left: &[u8], right: &[u8]) -> &'static [u8]
    ensures { result.now ≡ spec.mark left.now right.now }
{
    if left == right { b"  " } else { b"* " }
}

/// A row of two cells, marked if they differ.
fn put_row(
    alloc: Global,
    text: &mut Vec<u8>,
    width: usize,
    left: &[u8],
    right: &[u8],
) -> Result<(), AllocError>
    ensures { OnOk result (text.new.items ≡ text.old.items ++ spec.row width left.now right.now) }
{
    let cell = padded(alloc, width, left)?;
    text.extend_from_slice(mark(left, right))?;
    text.extend_from_slice(&cell)?;
    text.extend_from_slice(b"  ")?;
    text.extend_from_slice(right)?;
    text.extend_from_slice(b"\n")
}

/// The number of instructions after which a run halts, or that it is out of budget.
fn end_cell(alloc: Global, ending: &RunEnding) -> Result<Vec<u8>, AllocError>
    ensures { IfOk result (λ cell. cell.items ≡ spec.end_cell ending.now) }
{
    match ending {
        RunEnding::Halted { instructions, .. } => halted_cell(alloc, *instructions),
        RunEnding::OutOfBudget => Vec::from_slice(alloc, b"out of budget"),
    }
}

/// Whether a global of this class name is shown: those that the class sees or, without a class,
/// all.
pub fn is_shown(lattice: &Lattice, to: &Option<Class>, name: &[u8]) -> bool
    requires { IfSome to.now (IsClass (order lattice.now)) }
    ensures { result ≡ spec.is_shown (class_named lattice.now) (order lattice.now) to.now name.now }
{
    match to {
        None => true,
        Some(class) => sees(lattice, *class, name),
    }
}

/// The row of a global, if it is shown.
fn put_word_row(
    alloc: Global,
    text: &mut Vec<u8>,
    width: usize,
    shown: bool,
    name: &[u8],
    words: (i64, i64),
) -> Result<(), AllocError>
    ensures { OnOk result (text.new.items ≡ text.old.items
        ++ spec.shown_row shown width name.now words.0 words.1) }
{
    if shown {
        let left = word_cell(alloc, name, words.0)?;
        let right = word_cell(alloc, name, words.1)?;
        put_row(alloc, text, width, &left, &right)?;
    }
    Ok(())
}

/// A row for each global that is shown.
fn put_rows(
    alloc: Global,
    text: &mut Vec<u8>,
    lattice: &Lattice,
    to: &Option<Class>,
    width: usize,
    variables: &[(Vec<u8>, Vec<u8>)],
    words: (&[i64], &[i64]),
) -> Result<(), AllocError>
    requires { IfSome to.now (IsClass (order lattice.now)) }
    ensures { OnOk result (text.new.items ≡ text.old.items
        ++ spec.word_rows (class_named lattice.now) (order lattice.now) to.now width
        (globals variables.now)
        words.entry.0.now words.entry.1.now) }
{
    let (first, second) = words;
    for (i, variable) in variables.iter().enumerate() {
        let shown = is_shown(lattice, to, variable.1.as_slice());
        match (first.get(i), second.get(i)) {
            (Some(one), Some(other)) => {
                let pair = (*one, *other);
                put_word_row(alloc, text, width, shown, variable.0.as_slice(), pair)?;
            }
            _ => return Ok(()),
        }
    }
    Ok(())
}

/// The words at the ends of two runs that halt.
fn put_seen(
    alloc: Global,
    text: &mut Vec<u8>,
    lattice: &Lattice,
    width: usize,
    variables: &[(Vec<u8>, Vec<u8>)],
    leak: &Leak,
) -> Result<(), AllocError>
    requires { IsClass (order lattice.now) leak.now.class }
    ensures { OnOk result (text.new.items ≡ text.old.items
        ++ spec.seen_rows (class_named lattice.now) (order lattice.now) leak.now.class width
        (globals variables.now)
        leak.now.first.ending leak.now.second.ending) }
{
    match (&leak.first.ending, &leak.second.ending) {
        (RunEnding::Halted { words, .. }, RunEnding::Halted { words: others, .. }) => put_rows(
            alloc,
            text,
            lattice,
            &Some(leak.class),
            width,
            variables,
            (words.as_slice(), others.as_slice()),
        ),
        (RunEnding::Halted { .. }, RunEnding::OutOfBudget) => Ok(()),
        (RunEnding::OutOfBudget, _) => Ok(()),
    }
}

/// The greater of a width and the length of a global's left cell, if its row is shown.
fn wider(
    alloc: Global,
    width: usize,
    shown: bool,
    name: &[u8],
    word: i64,
) -> Result<usize, AllocError>
    ensures { IfOk result (λ n.
        n ≡ max width (spec.longest (spec.shown_cell shown name.now word))) }
{
    if shown {
        let cell = word_cell(alloc, name, word)?;
        Ok(width.max(cell.len()))
    } else {
        Ok(width)
    }
}

/// The greater of a width and the length of the longest left cell of these rows.
fn widened(
    alloc: Global,
    lattice: &Lattice,
    to: &Option<Class>,
    width: usize,
    variables: &[(Vec<u8>, Vec<u8>)],
    words: (&[i64], &[i64]),
) -> Result<usize, AllocError>
    requires { IfSome to.now (IsClass (order lattice.now)) }
    ensures { IfOk result (λ n. n ≡ max width (spec.longest
        (spec.left_cells (class_named lattice.now) (order lattice.now) to.now
        (globals variables.now) words.entry.0.now words.entry.1.now))) }
{
    let (first, second) = words;
    let mut widest = width;
    for (i, variable) in variables.iter().enumerate() {
        let (Some(word), Some(_)) = (first.get(i), second.get(i)) else {
            break;
        };
        let shown = is_shown(lattice, to, variable.1.as_slice());
        widest = wider(alloc, widest, shown, variable.0.as_slice(), *word)?;
    }
    Ok(widest)
}

/// The length of the longest left cell of a leak's text.
fn left_width(
    alloc: Global,
    lattice: &Lattice,
    variables: &[(Vec<u8>, Vec<u8>)],
    leak: &Leak,
) -> Result<usize, AllocError>
    requires { IsClass (order lattice.now) leak.now.class }
    ensures { IfOk result (λ n. n ≡ spec.left_width (class_named lattice.now) (order lattice.now)
        (globals variables.now) leak.now) }
{
    let width = end_cell(alloc, &leak.first.ending)?.len();
    let stores = (leak.first.store.as_slice(), leak.second.store.as_slice());
    let width = widened(alloc, lattice, &None, width, variables, stores)?;
    match (&leak.first.ending, &leak.second.ending) {
        (RunEnding::Halted { words, .. }, RunEnding::Halted { words: others, .. }) => {
            let ends = (words.as_slice(), others.as_slice());
            widened(alloc, lattice, &Some(leak.class), width, variables, ends)
        }
        (RunEnding::Halted { .. }, RunEnding::OutOfBudget) => Ok(width),
        (RunEnding::OutOfBudget, _) => Ok(width),
    }
}

/// The text of a leak: both stores side by side, then the words that the class sees after both
/// runs, and the number of instructions of each. A star marks each row whose sides differ.
pub fn leak_text(
    alloc: Global,
    lattice: &Lattice,
    image: &Image,
    leak: &Leak,
) -> Result<Vec<u8>, AllocError>
    requires { IsClass (order lattice.now) leak.now.class }
    ensures { IfOk result (λ text.
        spec.IsLeakText lattice.now (globals image.now.globals.items) leak.now text.items) }
{
    let name = lattice.name(leak.class);
    let variables = image.globals.as_slice();
    let width = left_width(alloc, lattice, variables, leak)?;
    let mut text = Vec::from_slice(alloc, b"leak at ")?;
    text.extend_from_slice(name)?;
    text.push(b'\n')?;
    let stores = (leak.first.store.as_slice(), leak.second.store.as_slice());
    put_rows(alloc, &mut text, lattice, &None, width, variables, stores)?;
    text.extend_from_slice(name)?;
    text.extend_from_slice(b" sees\n")?;
    put_seen(alloc, &mut text, lattice, width, variables, leak)?;
    let left = end_cell(alloc, &leak.first.ending)?;
    let right = end_cell(alloc, &leak.second.ending)?;
    put_row(alloc, &mut text, width, &left, &right)?;
    Ok(text)
}
