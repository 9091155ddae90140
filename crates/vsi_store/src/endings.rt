//! What an observer at a class sees of stores and of runs.

ghost use Rattle.std.specs.Prelude.{◌≡◌, ◌≤◌, ◌-◌, length, Some, true, false, IfOk, IfErr, ◌≢◌, ◌++◌, ℕ, None, Err, OnOk, MatchResult};
ghost use Rattle.vsi_image.specs.{Meaning.{start}, Fields.{global, globals}};
ghost use Rattle.vsi_machine.specs.Runs.{HaltsWith};
ghost use Rattle.vsi_store.specs.{declared.views.ViewError.TheVariants.{Memory}, View.{Views, first_unknown, is_seen, line_seen, view_text_of}, Text.{line_of, store_text_of}};
ghost use Rattle.vsi_lattice.specs.{LatticeView.{class_named, order}, Order.{IsClass}};
ghost use Rattle.vsi_store.specs.Compare as spec;

use crate::comparing::RunEnding;
use crate::views::{View, ViewError};
use std::alloc::{AllocError, Global};
use vsi_image::{Image, Verified};
use vsi_lattice::{Class, Classes, Lattice};
use vsi_machine::{Machine, Outcome, StartError};
use vsi_syntax::put_word;

/// A machine at the start of the image, with the store's words in the globals.
fn started<'a>(
    alloc: Global,
    verified: &'a Verified,
    store: &[i64],
) -> Result<Machine<'a>, ViewError>
    ensures image { IfOk result (λ m. m.image ≡ verified.now) }
    ensures state { IfOk result (λ m. m.state ≡ start verified.now store.now) }
    ensures only { IfErr result (λ e. e ≡ Memory) }
{
    match Machine::new(alloc, verified, store) {
        Ok(machine) => Ok(machine),
        Err(_) => Err(ViewError::Memory),
    }
}

/// Whether the run halts within the budget.
fn has_halted(
    alloc: Global,
    verified: &Verified,
    store: &[i64],
    budget: u64,
) -> Result<bool, ViewError>
    ensures halted { IfOk result (λ b. spec.halted_within verified.now store.now budget ≡ Some b) }
    ensures only { IfErr result (λ e. e ≡ Memory) }
{
    let mut machine = started(alloc, verified, store)?;
    match machine.run(budget) {
        Outcome::Halted => Ok(true),
        Outcome::OutOfBudget => Ok(false),
    }
}

/// The number of instructions of a run that halts within the budget. The number is doubled until
/// the run halts, and then found by halving.
fn instructions_of(
    alloc: Global,
    verified: &Verified,
    store: &[i64],
    budget: u64,
) -> Result<u64, ViewError>
    requires { spec.halted_within verified.now store.now budget ≡ Some true }
    ensures within { IfOk result (λ n. n ≤ budget) }
    ensures halted { IfOk result (λ n. spec.halted_within verified.now store.now n ≡ Some true) }
    ensures before { IfOk result
        (λ n. spec.halted_within verified.now store.now (n - 1) ≡ Some false) }
    ensures only { IfErr result (λ e. e ≡ Memory) }
{
    let mut low: u64 = 0;
    let mut high = budget;
    while high - low > 1 {
        let half = (high - low) / 2;
        let step = if half <= low { half } else { low + 1 };
        let middle = low + step;
        if has_halted(alloc, verified, store, middle)? {
            high = middle;
        } else {
            low = middle;
        }
    }
    Ok(high)
}

/// The words with which a run halts within the budget.
fn last_words(
    alloc: Global,
    verified: &Verified,
    store: &[i64],
    budget: u64,
) -> Result<Vec<i64>, ViewError>
    requires { spec.halted_within verified.now store.now budget ≡ Some true }
    ensures halts { IfOk result (λ words. HaltsWith verified.now store.now budget words.items) }
    ensures len { IfOk result (λ words. length words.items ≡ length verified.now.globals.items) }
    ensures only { IfErr result (λ e. e ≡ Memory) }
{
    let mut machine = started(alloc, verified, store)?;
    machine.run(budget);
    let words = machine.store().to_vec(alloc)?;
    Ok(words)
}

/// The ending of the run within the budget.
pub(crate) fn ending_of(
    alloc: Global,
    verified: &Verified,
    store: &[i64],
    budget: u64,
) -> Result<RunEnding, ViewError>
    ensures ends { IfOk result (spec.EndsSo verified.now store.now budget) }
    ensures len { IfOk result (spec.IsOfLength (length verified.now.globals.items)) }
    ensures only { IfErr result (λ e. e ≡ Memory) }
{
    if !has_halted(alloc, verified, store, budget)? {
        return Ok(RunEnding::OutOfBudget);
    }
    let instructions = instructions_of(alloc, verified, store, budget)?;
    let words = last_words(alloc, verified, store, instructions)?;
    Ok(RunEnding::Halted {
        instructions,
        words,
    })
}

/// The class's view of the image's run from a store, for at most `budget` instructions. If the run
/// halts, it has the lines of `store_text` for the globals whose class is at or below it.
///
/// # Errors
///
/// `ClassNotInLattice`, and then `WrongStore`, both before the run.
pub fn view(
    alloc: Global,
    lattice: &Lattice,
    verified: &Verified,
    class: Class,
    words: &[i64],
    budget: u64,
) -> Result<View, ViewError>
    requires { IsClass (order lattice.now) class }
    ensures unknown { (i : ℕ) →
        first_unknown (class_named lattice.now) 0 (globals verified.now.globals.items) ≡ Some i
        → result ≡ Err (ViewError.ClassNotInLattice i) }
    ensures wrong { first_unknown (class_named lattice.now) 0 (globals verified.now.globals.items)
        ≡ None
        → length words.now ≢ length verified.now.globals.items
        → result ≡ Err (ViewError.WrongStore (length words.now)) }
    ensures seen { first_unknown (class_named lattice.now) 0 (globals verified.now.globals.items)
        ≡ None
        → length words.now ≡ length verified.now.globals.items
        → MatchResult result
        (Views (class_named lattice.now) (order lattice.now) class verified.now words.now budget)
        (λ e. e ≡ Memory) }
{
    let image = verified.image();
    if let Some(place) = unknown_in(lattice, image.globals.as_slice()) {
        return Err(ViewError::ClassNotInLattice(place));
    }
    let mut machine = match Machine::new(alloc, verified, words) {
        Ok(machine) => machine,
        Err(StartError::Memory) => return Err(ViewError::Memory),
        Err(StartError::WrongStore(count)) => return Err(ViewError::WrongStore(count)),
    };
    match machine.run(budget) {
        Outcome::Halted => {
            let text = seen_text(alloc, lattice, class, image, machine.store())?;
            Ok(View::Text(text))
        }
        Outcome::OutOfBudget => Ok(View::OutOfBudget),
    }
}

/// The first global whose class name is no class.
pub(crate) fn unknown_in(lattice: &Lattice, variables: &[(Vec<u8>, Vec<u8>)]) -> Option<usize>
    ensures { result ≡ first_unknown (class_named lattice.now) 0 (globals variables.now) }
{
    for (i, variable) in variables.iter().enumerate() {
        if lattice.class_named(variable.1.as_slice()).is_none() {
            return Some(i);
        }
    }
    None
}

/// Whether the class sees a global with this class name.
pub fn sees(lattice: &Lattice, class: Class, name: &[u8]) -> bool
    requires { IsClass (order lattice.now) class }
    ensures { result ≡ is_seen (class_named lattice.now) (order lattice.now) class name.now }
{
    match lattice.class_named(name) {
        Some(found) => lattice.leq(found, class),
        None => false,
    }
}

/// Adds a line if the class sees the global.
fn put_seen(
    text: &mut Vec<u8>,
    lattice: &Lattice,
    class: Class,
    variable: &(Vec<u8>, Vec<u8>),
    word: i64,
) -> Result<(), AllocError>
    requires { IsClass (order lattice.now) class }
    ensures { OnOk result (text.new.items ≡ text.old.items
        ++ line_seen (class_named lattice.now) (order lattice.now) class (global variable.now)
        word) }
{
    if sees(lattice, class, variable.1.as_slice()) {
        put_line(text, variable.0.as_slice(), word)?;
    }
    Ok(())
}

/// The lines of the globals that the class sees.
fn seen_text(
    alloc: Global,
    lattice: &Lattice,
    class: Class,
    image: &Image,
    words: &[i64],
) -> Result<Vec<u8>, AllocError>
    requires class { IsClass (order lattice.now) class }
    requires words { length words.now ≡ length image.now.globals.items }
    ensures { IfOk result (λ text. text.items
        ≡ view_text_of (class_named lattice.now) (order lattice.now) class
        (globals image.now.globals.items) words.now) }
{
    let variables = image.globals.as_slice();
    let mut text = Vec::new(alloc);
    for (i, variable) in variables.iter().enumerate() {
        put_seen(&mut text, lattice, class, variable, words[i])?;
    }
    Ok(text)
}

/// A line `name = number` for each global, in order, each ending with a line feed.
pub fn store_text(alloc: Global, image: &Image, words: &[i64]) -> Result<Vec<u8>, AllocError>
    requires { length words.now ≡ length image.now.globals.items }
    ensures { IfOk result
        (λ text. text.items ≡ store_text_of (globals image.now.globals.items) words.now) }
{
    let variables = image.globals.as_slice();
    let mut text = Vec::new(alloc);
    for (i, variable) in variables.iter().enumerate() {
        put_line(&mut text, variable.0.as_slice(), words[i])?;
    }
    Ok(text)
}

/// Adds one line.
pub(crate) fn put_line(text: &mut Vec<u8>, name: &[u8], word: i64) -> Result<(), AllocError>
    ensures { OnOk result (text.new.items ≡ text.old.items ++ line_of name.now word) }
{
    text.extend_from_slice(name)?;
    text.extend_from_slice(b" = ")?;
    put_word(text, word)?;
    text.push(b'\n')?;
    Ok(())
}
