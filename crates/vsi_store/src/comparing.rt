//! A class's view of two runs, side by side.

ghost use Rattle.std.specs.Prelude.{◌≡◌, ◌++◌, ℕ, List, length, slice_get, Some, None, Err, IfOk, IfErr, OnOk, MatchResult};
ghost use Rattle.vsi_image.specs.Fields.{global, globals};
ghost use Rattle.vsi_lattice.specs.{LatticeView.{class_named, names, order}, Order.{IsClass}};
ghost use Rattle.vsi_store.specs.{View.{first_unknown}, declared.views.ViewError.TheVariants.{Memory}};
ghost use Rattle.vsi_store.specs.Compare as spec;

use crate::endings::{ending_of, sees, unknown_in};
use crate::views::ViewError;
use std::alloc::{AllocError, Global};
use vsi_image::Verified;
use vsi_lattice::{Class, Lattice};
use vsi_machine::{halted_cell, word_cell};

/// Compares the image's runs from two stores, for at most `budget` instructions each, as the class
/// sees them.
///
/// # Errors
///
/// `ClassNotInLattice`, with the number of the first global whose class name is no class, before
/// any run; `Memory`.
pub fn compare(
    alloc: Global,
    lattice: &Lattice,
    verified: &Verified,
    class: Class,
    first: &[i64],
    second: &[i64],
    budget: u64,
) -> Result<Comparison, ViewError>
    requires class { IsClass (order lattice.now) class }
    requires first { length first.now ≡ length verified.now.globals.items }
    requires second { length second.now ≡ length verified.now.globals.items }
    ensures unknown { (i : ℕ) →
        first_unknown (class_named lattice.now) 0 (globals verified.now.globals.items) ≡ Some i
        → result ≡ Err (ViewError.ClassNotInLattice i) }
    ensures compared { first_unknown (class_named lattice.now) 0
        (globals verified.now.globals.items) ≡ None
        → MatchResult result
        (spec.Compares lattice.now class verified.now first.now second.now budget)
        (λ e. e ≡ Memory) }
{
    if let Some(place) = unknown_in(lattice, verified.image().globals.as_slice()) {
        return Err(ViewError::ClassNotInLattice(place));
    }
    let one = ending_of(alloc, verified, first, budget)?;
    let other = ending_of(alloc, verified, second, budget)?;
    let text = text_of(alloc, lattice, verified, class, first, second, &one, &other)?;
    let is_same = have_same_ends(lattice, verified, class, &one, &other);
    Ok(Comparison {
        first: one,
        second: other,
        is_same,
        text,
    })
}

/// Whether the class sees no difference between two words of a global.
fn are_alike(
    lattice: &Lattice,
    class: Class,
    variable: &(Vec<u8>, Vec<u8>),
    first: i64,
    second: i64,
) -> bool
    requires { IsClass (order lattice.now) class }
    ensures { result ≡ spec.alike (class_named lattice.now) (order lattice.now) class
        (global variable.now) first second }
{
    if sees(lattice, class, variable.1.as_slice()) {
        first == second
    } else {
        true
    }
}

/// Whether the class sees no difference between two stores.
fn agree(
    lattice: &Lattice,
    class: Class,
    variables: &[(Vec<u8>, Vec<u8>)],
    first: &[i64],
    second: &[i64],
) -> bool
    requires class { IsClass (order lattice.now) class }
    requires first { length first.now ≡ length variables.now }
    requires second { length second.now ≡ length variables.now }
    ensures { result ≡ spec.agree_in (class_named lattice.now) (order lattice.now) class
        (globals variables.now)
        first.now second.now }
{
    for (i, variable) in variables.iter().enumerate() {
        if !are_alike(lattice, class, variable, first[i], second[i]) {
            return false;
        }
    }
    true
}

/// Whether the class sees the same after two runs.
fn have_same_ends(
    lattice: &Lattice,
    verified: &Verified,
    class: Class,
    first: &RunEnding,
    second: &RunEnding,
) -> bool
    requires class { IsClass (order lattice.now) class }
    requires first { spec.IsOfLength (length verified.now.globals.items) first.now }
    requires second { spec.IsOfLength (length verified.now.globals.items) second.now }
    ensures { result ≡ spec.same_ends (class_named lattice.now) (order lattice.now) class
        (globals verified.now.globals.items) first.now second.now }
{
    match (first, second) {
        (RunEnding::Halted { words, .. }, RunEnding::Halted { words: others, .. }) => agree(
            lattice,
            class,
            verified.image().globals.as_slice(),
            words.as_slice(),
            others.as_slice(),
        ),
        (RunEnding::OutOfBudget, RunEnding::OutOfBudget) => true,
        (RunEnding::Halted { .. }, RunEnding::OutOfBudget) => false,
        (RunEnding::OutOfBudget, RunEnding::Halted { .. }) => false,
    }
}

/// A row of two sides.
fn put_row(text: &mut Vec<u8>, left: &[u8], right: &[u8]) -> Result<(), AllocError>
    ensures { OnOk result (text.new.items ≡ text.old.items ++ spec.row left.now right.now) }
{
    if left == right {
        text.extend_from_slice(b"  ")?;
        text.extend_from_slice(left)?;
    } else {
        text.extend_from_slice(b"* ")?;
        text.extend_from_slice(left)?;
        text.extend_from_slice(b" | ")?;
        text.extend_from_slice(right)?;
    }
    text.extend_from_slice(b"\n")
}

/// The row of a global, if the class sees it.
fn put_global(
    alloc: Global,
    text: &mut Vec<u8>,
    lattice: &Lattice,
    class: Class,
    variable: &(Vec<u8>, Vec<u8>),
    words: (i64, i64),
) -> Result<(), AllocError>
    requires { IsClass (order lattice.now) class }
    ensures { OnOk result (text.new.items ≡ text.old.items
        ++ spec.global_row (class_named lattice.now) (order lattice.now) class (global variable.now)
        words.0 words.1) }
{
    if sees(lattice, class, variable.1.as_slice()) {
        let left = word_cell(alloc, variable.0.as_slice(), words.0)?;
        let right = word_cell(alloc, variable.0.as_slice(), words.1)?;
        put_row(text, &left, &right)?;
    }
    Ok(())
}

/// A row for each global that the class sees.
fn put_rows(
    alloc: Global,
    text: &mut Vec<u8>,
    lattice: &Lattice,
    class: Class,
    variables: &[(Vec<u8>, Vec<u8>)],
    first: &[i64],
    second: &[i64],
) -> Result<(), AllocError>
    requires class { IsClass (order lattice.now) class }
    requires first { length first.now ≡ length variables.now }
    requires second { length second.now ≡ length variables.now }
    ensures { OnOk result (text.new.items ≡ text.old.items
        ++ spec.rows (class_named lattice.now) (order lattice.now) class (globals variables.now)
        first.now second.now) }
{
    for (i, variable) in variables.iter().enumerate() {
        put_global(alloc, text, lattice, class, variable, (first[i], second[i]))?;
    }
    Ok(())
}

/// The rows of the stores in which both runs halt, as the class sees them.
fn put_behind(
    alloc: Global,
    text: &mut Vec<u8>,
    lattice: &Lattice,
    class: Class,
    variables: &[(Vec<u8>, Vec<u8>)],
    first: &RunEnding,
    second: &RunEnding,
) -> Result<(), AllocError>
    requires class { IsClass (order lattice.now) class }
    requires first { spec.IsOfLength (length variables.now) first.now }
    requires second { spec.IsOfLength (length variables.now) second.now }
    ensures { OnOk result (text.new.items ≡ text.old.items
        ++ spec.rows_behind (class_named lattice.now) (order lattice.now) class
        (globals variables.now)
        first.now second.now) }
{
    match (first, second) {
        (RunEnding::Halted { words, .. }, RunEnding::Halted { words: others, .. }) => {
            put_rows(
                alloc,
                text,
                lattice,
                class,
                variables,
                words.as_slice(),
                others.as_slice(),
            )
        }
        (RunEnding::Halted { .. }, RunEnding::OutOfBudget) => Ok(()),
        (RunEnding::OutOfBudget, _) => Ok(()),
    }
}

/// The number of instructions after which a run halts, or that it is out of budget.
fn end_cell(alloc: Global, ending: &RunEnding) -> Result<Vec<u8>, AllocError>
    ensures { IfOk result (λ cell. cell.items ≡ spec.end_cell ending.now) }
{
    match ending {
        RunEnding::Halted { instructions, .. } => halted_cell(alloc, *instructions),
        RunEnding::OutOfBudget => Vec::from_slice(alloc, b"out of budget"),
    }
}

/// The row with the ends of two runs.
fn put_ends(
    alloc: Global,
    text: &mut Vec<u8>,
    first: &RunEnding,
    second: &RunEnding,
) -> Result<(), AllocError>
    ensures { OnOk result (text.new.items ≡ text.old.items
        ++ spec.row (spec.end_cell first.now) (spec.end_cell second.now)) }
{
    let left = end_cell(alloc, first)?;
    let right = end_cell(alloc, second)?;
    put_row(text, &left, &right)
}

/// The text of two runs.
fn text_of(
    alloc: Global,
    lattice: &Lattice,
    verified: &Verified,
    class: Class,
    first: &[i64],
    second: &[i64],
    one: &RunEnding,
    other: &RunEnding,
) -> Result<Vec<u8>, AllocError>
    requires class { IsClass (order lattice.now) class }
    requires first { length first.now ≡ length verified.now.globals.items }
    requires second { length second.now ≡ length verified.now.globals.items }
    requires one { spec.IsOfLength (length verified.now.globals.items) one.now }
    requires other { spec.IsOfLength (length verified.now.globals.items) other.now }
    ensures { IfOk result
        (λ text. (name : List ℕ) × (slice_get (names lattice.now) class ≡ Some name)
        × (text.items ≡ spec.comparison_text_of (class_named lattice.now) (order lattice.now) name
        class
        (globals verified.now.globals.items) first.now second.now one.now other.now)) }
{
    let name = lattice.name(class);
    let variables = verified.image().globals.as_slice();
    let mut text = Vec::from_slice(alloc, name)?;
    text.extend_from_slice(b" sees before\n")?;
    put_rows(alloc, &mut text, lattice, class, variables, first, second)?;
    text.extend_from_slice(name)?;
    text.extend_from_slice(b" sees after\n")?;
    put_behind(alloc, &mut text, lattice, class, variables, one, other)?;
    put_ends(alloc, &mut text, one, other)?;
    Ok(text)
}

/// The ending of a run within a budget.
#[derive(Debug, Drop)]
pub enum RunEnding {
    /// It halts after this many instructions, including HALT, with these words in the globals.
    Halted { instructions: u64, words: Vec<i64> },
    /// The budget is spent before a HALT.
    OutOfBudget,
}

/// Two runs of an image, and whether a class sees the same after both. The text has a row for each
/// global that the class sees, before the runs and after them, and one for how they end.
#[derive(Debug, Drop)]
pub struct Comparison {
    pub first: RunEnding,
    pub second: RunEnding,
    pub is_same: bool,
    pub text: Vec<u8>,
}
