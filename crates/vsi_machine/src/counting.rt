//! Running and counting instructions, and texts about the count.

ghost use Rattle.std.specs.Prelude.{◌≡◌, ◌≢◌, ◌+◌, ◌<◌, ◌≤◌, ◌⊎◌, ℕ, length, IsNone, IfOk, IfErr, IfSome, IfNone, Some, IsSomeAnd, true, false, ◌++◌, OnOk};
ghost use Rattle.vsi_image.specs.Meaning.{after};
ghost use Rattle.vsi_machine.specs.{Runs.{run_of, outcome_of}, declared.interpreter.Outcome.TheVariants.{Halted, OutOfBudget}, Counting.{HaltsIn, Halts, GoesOn}};
ghost use Rattle.vsi_machine.specs.CountTexts as spec;
ghost use Rattle.vsi_machine.specs.Cells as cells_spec;

use crate::interpreter::{Machine, Outcome, StartError};
use std::alloc::{AllocError, Global};
use vsi_image::Verified;
use vsi_syntax::{put_number, put_word};

/// The number of instructions executed between checks whether the machine has halted.
const SLICE: u64 = 16384;

/// A machine after a run, and the number of instructions that the run executed.
#[derive(Drop)]
pub struct Count<'a> {
    /// The machine, from which a later run continues.
    pub machine: Machine<'a>,
    /// How the run ended.
    pub outcome: Outcome,
    /// The number of instructions that the run executed, including a HALT.
    pub instructions: u64,
}

/// Runs a machine, slice by slice, to a HALT or the end of the budget. If it halts, the answer is
/// the number of instructions before the last slice, and the mark has the state at that point.
fn slices(machine: &mut Machine<'_>, mark: &mut Machine<'_>, budget: u64) -> Option<u64>
    requires going { machine.old.state.halted ≡ false }
    requires image { mark.old.image ≡ machine.old.image }
    ensures image { machine.new.image ≡ machine.old.image }
    ensures same { mark.new.image ≡ mark.old.image }
    ensures marked { IfSome result (λ n.
        after machine.old.image.code.items n machine.old.state ≡ Some mark.new.state) }
    ensures going { IfSome result (λ n.
        GoesOn (after machine.old.image.code.items n machine.old.state)) }
    ensures within { IfSome result (λ n. n ≤ budget) }
    ensures halts { IfSome result (λ _.
        Halts (after machine.old.image.code.items budget machine.old.state)) }
    ensures none { IfNone result
        (after machine.old.image.code.items budget machine.old.state ≡ Some machine.new.state) }
    ensures out { IfNone result (machine.new.state.halted ≡ false) }
{
    let mut done: u64 = 0;
    while done < budget {
        let slice = (budget - done).min(SLICE);
        mark.take_state(machine);
        match machine.run(slice) {
            Outcome::Halted => return Some(done),
            Outcome::OutOfBudget => done += slice,
        }
    }
    None
}

/// Executes one instruction at a time up to a HALT, at most this many, and returns how many it
/// executed.
fn singly(machine: &mut Machine<'_>, limit: u64) -> u64
    ensures image { machine.new.image ≡ machine.old.image }
    ensures state { after machine.old.image.code.items result machine.old.state
        ≡ Some machine.new.state }
    ensures each { (n : ℕ) → n < result
        → GoesOn (after machine.old.image.code.items n machine.old.state) }
    ensures within { result ≤ limit }
    ensures ends { (machine.new.state.halted ≡ true) ⊎ (result ≡ limit) }
{
    for done in 0..limit {
        if !machine.step() {
            return done;
        }
    }
    limit
}

/// Runs an image within a budget, and counts. Only the last slice of a run that halts, at most
/// 16,384 instructions, is executed a second time, one by one.
///
/// # Errors
///
/// `WrongStore` if there isn't one word for each global.
pub fn counted<'a>(
    alloc: Global,
    verified: &'a Verified,
    words: &[i64],
    budget: u64,
) -> Result<Count<'a>, StartError>
    ensures image { IfOk result (λ c. c.machine.image ≡ verified.now) }
    ensures state { IfOk result
        (λ c. run_of verified.now words.now budget ≡ Some c.machine.state) }
    ensures outcome { IfOk result (λ c. c.outcome ≡ outcome_of c.machine.state) }
    ensures exact { IfOk result (λ c.
        c.outcome ≡ Halted → HaltsIn verified.now words.now c.instructions) }
    ensures spent { IfOk result (λ c. c.outcome ≡ OutOfBudget → c.instructions ≡ budget) }
    ensures wrong { length words.now ≢ length verified.now.globals.items
        → result ≡ Err (StartError.WrongStore (length words.now)) }
    ensures memory { length words.now ≡ length verified.now.globals.items
        → IfErr result (λ e. e ≡ StartError.Memory) }
{
    let mut machine = Machine::new(alloc, verified, words)?;
    let mut mark = Machine::new(alloc, verified, words)?;
    let Some(done) = slices(&mut machine, &mut mark, budget) else {
        return Ok(Count {
            machine,
            outcome: Outcome::OutOfBudget,
            instructions: budget,
        });
    };
    let more = singly(&mut mark, budget - done);
    Ok(Count {
        machine: mark,
        outcome: Outcome::Halted,
        instructions: done + more,
    })
}

/// The line of a number of instructions.
pub fn count_text(alloc: Global, instructions: u64) -> Result<Vec<u8>, AllocError>
    ensures { IfOk result (λ text. text.items ≡ spec.count_line instructions) }
{
    let mut text = Vec::new(alloc);
    text.extend_from_slice(b"instructions: ")?;
    put_number(&mut text, instructions as usize)?;
    text.extend_from_slice(b"\n")?;
    Ok(text)
}

/// Appends a number of instructions with its noun.
fn put_instructions(text: &mut Vec<u8>, number: u64) -> Result<(), AllocError>
    ensures { OnOk result (text.new.items ≡ text.old.items ++ spec.number_of number) }
{
    put_number(text, number as usize)?;
    if number == 1 {
        text.extend_from_slice(b" instruction")
    } else {
        text.extend_from_slice(b" instructions")
    }
}

/// Reports where a run stopped when its budget was spent: the number of instructions executed, and
/// the trace line of the next one. The text is empty if the machine has halted.
pub fn stop_text(alloc: Global, count: &Count<'_>) -> Result<Vec<u8>, AllocError>
    ensures { IfOk result (λ text. text.items ≡
        spec.stop_lines count.now.machine.image count.now.machine.state count.now.instructions) }
{
    let mut text = Vec::new(alloc);
    let Some(line) = count.machine.trace_line(alloc)? else {
        return Ok(text);
    };
    text.extend_from_slice(b"After ")?;
    put_instructions(&mut text, count.instructions)?;
    text.extend_from_slice(b" the budget is spent. The next one is\n  ")?;
    text.extend_from_slice(&line)?;
    text.extend_from_slice(b"\n")?;
    Ok(text)
}

/// The name of a global and its word, as in `x = 5`.
pub fn word_cell(alloc: Global, name: &[u8], word: i64) -> Result<Vec<u8>, AllocError>
    ensures { IfOk result (λ cell. cell.items ≡ cells_spec.word_cell name.now word) }
{
    let mut cell = name.to_vec(alloc)?;
    cell.extend_from_slice(b" = ")?;
    put_word(&mut cell, word)?;
    Ok(cell)
}

/// The number of instructions after which a run halts, as in `after 9 instructions`.
pub fn halted_cell(alloc: Global, instructions: u64) -> Result<Vec<u8>, AllocError>
    ensures { IfOk result (λ cell. cell.items ≡ cells_spec.halted_cell instructions) }
{
    let mut cell = Vec::from_slice(alloc, b"after ")?;
    put_number(&mut cell, instructions as usize)?;
    cell.extend_from_slice(b" instructions")?;
    Ok(cell)
}
