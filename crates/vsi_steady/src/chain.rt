//! The chain of flows that brings something to an instruction, and its steps.

ghost use Rattle.std.specs.Prelude.{◌≡◌, IfOk, ◌<◌, ◌^◌, IfSome, IsSomeAnd, Some, slice_get, true};
ghost use Rattle.vsi_lattice.specs.{LatticeView.{class_named, order}, Order.{IsClass}};
ghost use Rattle.vsi_steady.specs.Telling.{IsChain, IsChainSource};
ghost use Rattle.vsi_image.specs.Fields.{globals};
ghost use Rattle.vsi_steady.specs.Telling as spec;

use std::alloc::{AllocError, Global};
use vsi_image::{Image, Instr};
use vsi_lattice::{Class, Classes, Lattice};

/// A LOAD whose word is part of an operand.
#[derive(Clone, Copy)]
struct Pending {
    slot: u16,
    place: usize,
}

/// Adds the steps to the top operand, which is taken.
fn take_top(
    steps: &mut Vec<Step>,
    pending: &mut Vec<Pending>,
    starts: &mut Vec<usize>,
    target: Option<u16>,
    written: usize,
) -> Result<(), AllocError> {
    let start = match starts.pop() {
        Some(start) => start,
        None => 0,
    };
    for i in start..pending.len() {
        steps.push(Step {
            source: pending[i].slot,
            read: pending[i].place,
            target,
            written,
        })?;
    }
    pending.truncate(start);
    Ok(())
}

/// All steps of the code, in the order of the STOREs and JZs and, for each of these, in the order
/// of the LOADs.
fn steps_of(alloc: Global, code: &[Instr]) -> Result<Vec<Step>, AllocError> {
    let mut steps = Vec::new(alloc);
    let mut pending = Vec::new(alloc);
    // For each operand, the number of pending LOADs before its own.
    let mut starts = Vec::new(alloc);
    for place in 0..code.len() {
        match code[place] {
            Instr::Push(_) => starts.push(pending.len())?,
            Instr::Load(slot) => {
                starts.push(pending.len())?;
                pending.push(Pending { slot, place })?;
            }
            Instr::Store(slot) => {
                take_top(&mut steps, &mut pending, &mut starts, Some(slot), place)?;
            }
            Instr::Jz(_) => take_top(&mut steps, &mut pending, &mut starts, None, place)?,
            Instr::Jmp(_) => {}
            Instr::Halt => {}
            _ => {
                let _right = starts.pop();
            }
        }
    }
    Ok(steps)
}

/// The steps from `first` to an instruction; `onward` has the step by which each slot leads there.
fn path(
    alloc: Global,
    steps: &[Step],
    onward: &[Option<usize>],
    first: Step,
    place: usize,
) -> Result<Vec<Step>, AllocError> {
    let mut chain = Vec::new(alloc);
    let mut step = first;
    for _ in 0..=onward.len() {
        chain.push(step)?;
        if step.written == place {
            return Ok(chain);
        }
        let Some(slot) = step.target else {
            return Ok(chain);
        };
        let Some(Some(next)) = onward.get(slot as usize) else {
            return Ok(chain);
        };
        let Some(found) = steps.get(*next) else {
            return Ok(chain);
        };
        step = *found;
    }
    Ok(chain)
}

/// A chain of steps from a global to the STORE or JZ at a place where the value of the global may
/// not flow. The chain goes through slots above the globals. It has as few steps as possible and is
/// the first such chain in dictionary order. It is empty if there is none.
pub(crate) fn chain_to(
    alloc: Global,
    lattice: &Lattice,
    image: &Image,
    place: usize,
) -> Result<Vec<Step>, AllocError>
    ensures { IfOk result (λ steps. IsChain (class_named lattice.now) (order lattice.now) image.now
        place steps.items) }
{
    // The search has no contract, so its result is checked.
    let steps = found_chain(alloc, lattice, image, place)?;
    if is_chain(lattice, image, place, &steps) {
        return Ok(steps);
    }
    Ok(Vec::new(alloc))
}

/// The global at the beginning of the chain that `steady_text` prints for a flow into the STORE or
/// JZ at a place, if it prints one.
pub fn chain_source(
    alloc: Global,
    lattice: &Lattice,
    image: &Image,
    place: usize,
) -> Result<Option<u16>, AllocError>
    ensures { IfOk result (IsChainSource (class_named lattice.now) (order lattice.now) image.now
        place) }
{
    let steps = chain_to(alloc, lattice, image, place)?;
    match steps.first() {
        Some(step) => Ok(Some(step.source)),
        None => Ok(None),
    }
}

/// The steps of that chain, found by a search backwards from the place.
fn found_chain(
    alloc: Global,
    lattice: &Lattice,
    image: &Image,
    place: usize,
) -> Result<Vec<Step>, AllocError> {
    let steps = steps_of(alloc, &image.code)?;
    let target = match image.code.get(place) {
        Some(Instr::Store(slot)) => Some(*slot),
        _ => None,
    };
    let count = image.slots as usize;
    let mut onward: Vec<Option<usize>> = Vec::new(alloc);
    onward.resize(count, None)?;
    let mut rounds: Vec<usize> = Vec::new(alloc);
    rounds.resize(count, 0)?;
    for round in 1..=count + 1 {
        for i in 0..steps.len() {
            let step = steps[i];
            if !leads_on(&step, round, &rounds, image.globals.len(), place) {
                continue;
            }
            let source = usize::from(step.source);
            if source < image.globals.len() {
                if is_bad(lattice, image, step.source, target) {
                    return path(alloc, &steps, &onward, step, place);
                }
            } else if source < rounds.len() && source < onward.len() && rounds[source] == 0 {
                // The step reaches its slot, which wasn't reached before.
                rounds[source] = round;
                onward[source] = Some(i);
            }
        }
    }
    Ok(Vec::new(alloc))
}

/// Whether a step leads to the place in a round: to the place itself in the first round, otherwise
/// to a slot that was reached in the previous round.
fn leads_on(step: &Step, round: usize, rounds: &[usize], globals: usize, place: usize) -> bool {
    match step.target {
        _ if round == 1 => step.written == place,
        Some(slot) if globals <= usize::from(slot) => rounds
            .get(usize::from(slot))
            .is_some_and(|reached| reached.saturating_add(1) == round),
        _ => false,
    }
}

/// The word that a LOAD reads flows into the operand that a STORE or a JZ takes. The target is a
/// slot, or none for a jump.
#[derive(Clone, Copy)]
pub(crate) struct Step {
    pub(crate) source: u16,
    pub(crate) read: usize,
    pub(crate) target: Option<u16>,
    pub(crate) written: usize,
}

/// The number of operands above an operand after an instruction, or `None` if the instruction takes
/// it.
fn above_after(instr: Instr, above: usize) -> Option<usize>
    requires { above < 2 ^ 63 }
    ensures { result ≡ spec.above_after instr above }
{
    match instr {
        Instr::Push(_) | Instr::Load(_) => Some(above + 1),
        Instr::Store(_) | Instr::Jz(_) => above.checked_sub(1),
        Instr::Jmp(_) | Instr::Halt => Some(above),
        _ => Some(above.saturating_sub(1)),
    }
}

/// Whether after these instructions the top operand is the top one again, or part of it.
fn is_carried(between: &[Instr]) -> bool
    ensures { result ≡ true → spec.above_all between.now 0 ≡ Some 0 }
{
    let mut above = 0;
    for instr in between {
        match above_after(*instr, above) {
            Some(next) => above = next,
            None => return false,
        }
    }
    above == 0
}

/// Whether the instruction at a place takes an operand into this target.
fn is_taken(code: &[Instr], place: usize, target: Option<u16>) -> bool
    ensures { result ≡ true → IsSomeAnd (slice_get code.now place) (spec.Takes target) }
{
    match (code.get(place), target) {
        (Some(Instr::Store(slot)), Some(target)) => *slot == target,
        (Some(Instr::Jz(_)), None) => true,
        _ => false,
    }
}

/// Whether the code has the step.
fn is_step(code: &[Instr], step: &Step) -> bool
    ensures { result ≡ true → spec.IsStep code.now step.now }
{
    let is_behind = step.read < step.written && step.written < code.len();
    if !is_behind {
        return false;
    }
    let Some(Instr::Load(slot)) = code.get(step.read) else {
        return false;
    };
    if *slot != step.source {
        return false;
    }
    let between = &code[step.read + 1..step.written];
    is_taken(code, step.written, step.target) && is_carried(between)
}

/// Whether a step ends in a slot above the globals where the next one begins.
fn is_joined(globals: usize, step: &Step, next: &Step) -> bool
    ensures { result ≡ true → spec.IsJoined globals step.now next.now }
{
    match step.target {
        Some(slot) => slot == next.source && globals <= usize::from(slot),
        None => false,
    }
}

/// Whether the steps lead to a place, through slots above the globals.
fn lead_to(code: &[Instr], globals: usize, place: usize, steps: &[Step]) -> bool
    ensures { result ≡ true → spec.LeadTo code.now globals place steps.now }
{
    for (i, step) in steps.iter().enumerate() {
        if !is_step(code, step) {
            return false;
        }
        if i + 1 == steps.len() {
            return step.written == place;
        }
        if !is_joined(globals, step, &steps[i + 1]) {
            return false;
        }
    }
    false
}

/// The class of a global, if the slot is a global and the lattice has its class.
fn class_of(lattice: &Lattice, image: &Image, slot: u16) -> Option<Class>
    ensures class { result ≡ spec.global_class (class_named lattice.now)
        (globals image.now.globals.items) slot }
    ensures within { IfSome result (IsClass (order lattice.now)) }
{
    match image.globals.get(slot as usize) {
        Some(global) => lattice.class_named(global.1.as_slice()),
        None => None,
    }
}

/// Whether the value of a global may not flow into a target.
pub(crate) fn is_bad(lattice: &Lattice, image: &Image, source: u16, target: Option<u16>) -> bool
    ensures { result ≡ true → spec.MayNotFlow (class_named lattice.now) (order lattice.now)
        (globals image.now.globals.items) source target }
{
    let low = match target {
        Some(slot) => class_of(lattice, image, slot),
        None => Some(lattice.bottom()),
    };
    let high = class_of(lattice, image, source);
    match (high, low) {
        (Some(high), Some(low)) => !lattice.leq(high, low),
        _ => false,
    }
}

/// Whether the steps are a chain to a place: they lead there, and nothing may flow from their start
/// to their end.
pub(crate) fn is_chain(lattice: &Lattice, image: &Image, place: usize, steps: &[Step]) -> bool
    ensures { result ≡ true → spec.IsChain (class_named lattice.now) (order lattice.now) image.now
        place steps.now }
{
    if steps.is_empty() {
        return true;
    }
    let end = steps[steps.len() - 1].target;
    lead_to(&image.code, image.globals.len(), place, steps)
        && is_bad(lattice, image, steps[0].source, end)
}
