//! The bound of an image: the cost of its loops, or why no bound was found.

ghost use Rattle.std.specs.Prelude.{◌≡◌, ◌+◌, ◌*◌, IfOk, ◌-◌, ◌^◌, ◌<◌, ◌≤◌, IfErr, OnOk, length, Some, slice_get};
ghost use Rattle.vsi_machine.specs.{declared.bound.Fault.TheVariants.{Memory}, declared.bound.Stop.TheVariants.{Other}, Loops.{Keeps}, Looping.{Finished, IsCounter}, Stopping.{IsChanged, IsUncounted, OnEndless, Unfinished}, Stretch.{Evaluates, Ends}, Transfer.{IsValue}, Bound.{Answers}, Facts.{AreSame}, Search.{StopsAt}};
ghost use Rattle.vsi_image.specs.declared.instr.Instr.TheVariants as instr;

use crate::loops::{Counter, Known, counter_of, keeps, leave};
use crate::stretches::{evaluate, is_at, stretch};
use std::alloc::{AllocError, AllocFailed, Global};
use vsi_image::{Image, Instr, Verified};
use vsi_syntax::MAX_DEPTH;

/// Why a loop has no bound.
#[derive(Clone, Copy, PartialEq, Eq, Debug)]
pub enum Reason {
    /// Its guard doesn't compare a variable with a number that is known at each turn.
    Guard,
    /// Its variable doesn't begin with a known number.
    Start,
    /// Its body doesn't add the same number to the variable on every path, or the number doesn't
    /// lead towards the limit.
    Step,
    /// The variable could wrap around before it reaches the limit.
    Wraps,
}

/// Why the cost of a part of the code can't be computed.
#[derive(Drop)]
pub(crate) enum Fault {
    Memory,
    /// The instruction with this number doesn't belong to commands.
    Unread(usize),
    /// The number of instructions is above the greatest `u64`.
    TooLarge,
}

/// Why a part of the code has no bound.
#[derive(Drop)]
pub(crate) enum Stop {
    Other(Fault),
    /// The loop whose test is the instruction with this number.
    Endless(usize, Reason),
}

impl From<AllocError> for Fault {
    ghost from_gives = { λ _ e. e ≡ Memory };

    fn from(_error: AllocError) -> Fault {
        Fault::Memory
    }
}

impl<T: Drop> From<AllocFailed<T>> for Fault {
    ghost from_gives = { λ _ e. e ≡ Memory };

    fn from(_error: AllocFailed<T>) -> Fault {
        Fault::Memory
    }
}

impl From<AllocError> for Stop {
    ghost from_gives = { λ _ e. e ≡ Other Memory };

    fn from(_error: AllocError) -> Stop {
        Stop::Other(Fault::Memory)
    }
}

impl From<Fault> for Stop {
    ghost from_gives = { λ fault e. e ≡ Other fault };

    fn from(fault: Fault) -> Stop {
        Stop::Other(fault)
    }
}

/// The least and the greatest number of instructions.
#[derive(Clone, Copy, PartialEq, Eq)]
pub(crate) struct Cost {
    pub least: u64,
    pub most: u64,
}

/// The cost of exactly this many instructions.
pub(crate) fn exactly(n: u64) -> Cost
    ensures least { result.least ≡ n }
    ensures most { result.most ≡ n }
{
    Cost { least: n, most: n }
}

/// The cost of two stretches in turn.
pub(crate) fn sum(first: Cost, second: Cost) -> Result<Cost, Fault>
    ensures least { IfOk result (λ cost. cost.least ≡ first.least + second.least) }
    ensures most { IfOk result (λ cost. cost.most ≡ first.most + second.most) }
{
    let Some(least) = first.least.checked_add(second.least) else {
        return Err(Fault::TooLarge);
    };
    let Some(most) = first.most.checked_add(second.most) else {
        return Err(Fault::TooLarge);
    };
    Ok(Cost { least, most })
}

/// A test that begins a conditional or a loop: the start of its guard, its own position, its
/// target, the position of the jump before the target, and that jump's target.
#[derive(Clone, Copy)]
pub(crate) struct Test {
    pub start: usize,
    pub place: usize,
    pub target: usize,
    pub jump: usize,
    pub end: usize,
}

/// The fact about the guard of a loop, if these facts hold at the start of a turn.
pub(crate) fn guard_at(
    alloc: Global,
    code: &[Instr],
    entry: &[Known],
    test: Test,
) -> Result<Known, Fault>
    ensures value { IfOk result (Evaluates code.now entry.now test.start test.place) }
    ensures exact { IfOk result (IsValue code.now entry.now test.start test.place) }
{
    let (end, guard) = evaluate(alloc, code, entry, test.start)?;
    if end == test.place {
        Ok(guard)
    } else {
        Err(Fault::Unread(end))
    }
}

/// The cost of this many turns, each of which tests the guard, runs its body and jumps back, and of
/// the last test.
fn whole(turns: u64, tested: u64, body: Cost) -> Result<Cost, Fault>
    requires { tested < 2 ^ 63 }
    ensures least { IfOk result
        (λ cost. cost.least ≡ turns * (body.least + (tested + 1)) + tested) }
    ensures most { IfOk result
        (λ cost. cost.most ≡ turns * (body.most + (tested + 1)) + tested) }
{
    let turn = sum(body, exactly(tested + 1))?;
    let Some(least) = turns.checked_mul(turn.least) else {
        return Err(Fault::TooLarge);
    };
    let Some(most) = turns.checked_mul(turn.most) else {
        return Err(Fault::TooLarge);
    };
    sum(Cost { least, most }, exactly(tested))
}

/// The cost of a loop. Updates the facts to those after it.
pub(crate) fn finish(
    facts: &mut [Known],
    test: Test,
    entry: &[Known],
    guard: Known,
    turned: &[Known],
    body: Cost,
) -> Result<Cost, Stop>
    requires entry { length entry.now ≡ length facts.old }
    requires turned { length turned.now ≡ length facts.old }
    requires order { test.start ≤ test.place }
    requires short { test.place < 2 ^ 32 }
    ensures finished { IfOk result (λ cost. Finished facts.old entry.now guard turned.now
        (test.place - test.start + 1) body cost facts.new) }
    ensures fails { IfErr result
        (OnEndless (Unfinished facts.old entry.now guard turned.now test.place)) }
{
    let counter = match counter_of(facts, guard, turned) {
        Ok(counter) => counter,
        Err(reason) => return Err(Stop::Endless(test.place, reason)),
    };
    if !keeps(entry, turned) {
        return Err(Stop::Endless(test.place, Reason::Step));
    }
    let tested = (test.place - test.start + 1) as u64;
    let cost = whole(counter.turns, tested, body)?;
    leave(facts, entry, turned, counter.slot, counter.last);
    Ok(cost)
}

/// The number of instructions that an image can run.
#[derive(Clone, Copy, PartialEq, Eq, Debug)]
pub enum Bound {
    /// From every store it halts, after at least `least` and at most `most` instructions. If both
    /// are equal, each of its runs takes exactly that many.
    Halts { least: u64, most: u64 },
    /// The loop whose test is the instruction with this number has no bound.
    Endless { test: usize, reason: Reason },
    /// The instruction with this number doesn't belong to commands as a compiler lays them out.
    Unstructured(usize),
    /// Each loop has a bound, but the number of instructions is above the greatest `u64`.
    TooLarge,
}

/// The facts at the start: each slot has its own word.
fn fresh(alloc: Global, slots: u16) -> Result<Vec<Known>, AllocError>
    ensures { IfOk result (λ facts. AreSame slots facts.items) }
{
    let mut facts = Vec::new(alloc);
    for slot in 0..slots {
        facts.push(Known::Same(slot))?;
    }
    Ok(facts)
}

/// The cost of an image's runs.
fn cost_of(alloc: Global, image: &Image) -> Result<Cost, Stop>
    ensures ends { IfOk result (Ends image.now.code.items image.now.slots) }
    ensures stops { IfErr result (OnEndless (StopsAt image.now)) }
{
    let code = image.code.as_slice();
    let Some(halt) = code.len().checked_sub(1) else {
        return Err(Stop::Other(Fault::Unread(0)));
    };
    if !is_at(code, halt, Instr::Halt) {
        return Err(Stop::Other(Fault::Unread(halt)));
    }
    let mut facts = fresh(alloc, image.slots)?;
    let cost = stretch(alloc, code, &mut facts, 0, halt, MAX_DEPTH as u16)?;
    let whole = sum(cost, exactly(1))?;
    Ok(whole)
}

/// The number of instructions that an image can run. The time is linear in the code, times the
/// depth of nested loops, and each loop and each conditional goes over the slots.
///
/// # Errors
///
/// `AllocError` if there was too little memory for the facts about the slots.
pub fn bound_of(alloc: Global, image: &Verified) -> Result<Bound, AllocError>
    ensures { IfOk result (Answers image.now) }
{
    match cost_of(alloc, image.image()) {
        Ok(cost) => Ok(Bound::Halts {
            least: cost.least,
            most: cost.most,
        }),
        Err(Stop::Endless(test, reason)) => Ok(Bound::Endless { test, reason }),
        Err(Stop::Other(Fault::Unread(place))) => Ok(Bound::Unstructured(place)),
        Err(Stop::Other(Fault::TooLarge)) => Ok(Bound::TooLarge),
        Err(Stop::Other(Fault::Memory)) => Err(AllocError),
    }
}
