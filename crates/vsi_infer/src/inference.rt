//! The least classes of a program, or the answer that there are none.

ghost use Rattle.std.specs.{Prelude.{◌≡◌, ℕ, ◌+◌, ◌*◌, ◌<◌, ◌≤◌, ◌⊎◌, Bool, List, true, length, false, Some, None, slice_get, slice_index, Contains, vec_len, OnOk, IfOk, IfErr, IfSome, IfNone, MatchOption, map, unwrap_or, ◌++◌, ◌∷◌, [], take, drop}, List.{All}};
ghost use Rattle.vsi_infer.specs.{declared.inference.InferError.TheVariants.{Memory}, Choices.{KeepsDeclared, IsJustified, IsRaised, IsProgram, Waits, IsRaiseOf, IsOrderedChoice, IsLeastOrderedChoice, HasPlacedBadWalk, IsOutOfOrder, IsInOrder}, Ranks.{distance}, Inference.{table, AreClasses, IsLeast, Refuses}};
ghost use Rattle.vsi_lattice.specs.Order.{IsClass};
ghost use Rattle.vsi_types.specs.{Security.{program as program_of}, declared.rules.Profile.TheVariants.{Base}};

use crate::flows::flow_rows;
use crate::shortest::shortest_walk;
use crate::walk::Walk;
use std::alloc::{AllocError, AllocFailed, Global, Global as Heap};
use thiserror::Error;
use vsi_lattice::{Class, Classes};
use vsi_scope::Resolved;
use vsi_types::Profile;

/// The reason why no classes were found.
#[derive(Debug, Drop, Error)]
pub enum InferError {
    /// Memory ran out.
    #[error("out of memory")]
    Memory,
    /// No choice of classes is typable; the walk is bad, and no bad walk has fewer steps.
    #[error("no choice of classes is typable")]
    Refused(Walk),
}

impl From<AllocError> for InferError {
    ghost from_gives = { λ _ e. e ≡ Memory };

    fn from(_e: AllocError) -> InferError {
        InferError::Memory
    }
}

impl<T: Drop> From<AllocFailed<T>> for InferError {
    ghost from_gives = { λ _ e. e ≡ Memory };

    fn from(_e: AllocFailed<T>) -> InferError {
        InferError::Memory
    }
}

/// Which variable flows to which.
pub trait Flow {
    ghost flows: { Self → ℕ → ℕ → Bool };

    fn has(&self, from: usize, to: usize) -> bool
        ensures { result ≡ flows self.now from to };
}

/// Raises the class of `to` if the flow to it is out of order.
pub(crate) fn raise_one<C: Classes>(
    lattice: &C,
    choice: &mut [Class],
    from: usize,
    to: usize,
) -> bool
    requires from { from < length choice.old }
    requires to { to < length choice.old }
    requires within { (v : ℕ) → v < length choice.old →
        slice_index choice.old v < (C.lattice lattice.now).count }
    ensures quiet { result ≡ false → choice.new ≡ choice.old }
    ensures quiet_order { result ≡ false → (C.lattice lattice.now).leq (slice_index choice.old from)
        (slice_index choice.old to) ≡ true }
    ensures raised { result ≡ true → IsRaiseOf (C.lattice lattice.now).count
        (C.lattice lattice.now).leq choice.old choice.new from to }
{
    if lattice.leq(choice[from], choice[to]) {
        return false;
    }
    choice[to] = lattice.join(choice[from], choice[to]);
    true
}

/// Looks at the flows from one variable, and notes which variables were raised.
pub(crate) fn spread<C: Classes, F: Flow>(
    lattice: &C,
    flow: &F,
    declared: &[Option<Class>],
    choice: &mut [Class],
    waiting: &mut Vec<usize>,
    from: usize,
) -> Result<(), AllocError>
    requires program { IsProgram (C.lattice lattice.now).count (C.lattice lattice.now).leq
        (F.flows flow.now) declared.now }
    requires choice { KeepsDeclared (C.lattice lattice.now).count (C.lattice lattice.now).leq
        (F.flows flow.now) declared.now choice.old }
    requires justified { IsJustified (C.lattice lattice.now).count (C.lattice lattice.now).leq
        (F.flows flow.now) declared.now choice.old }
    requires waits { Waits (C.lattice lattice.now).count (C.lattice lattice.now).leq
        (F.flows flow.now) declared.now choice.old waiting.old.items from 0 }
    requires from { from < length declared.now }
    ensures choice { OnOk result
        (KeepsDeclared (C.lattice lattice.now).count (C.lattice lattice.now).leq
        (F.flows flow.now) declared.now choice.new) }
    ensures justified { OnOk result
        (IsJustified (C.lattice lattice.now).count (C.lattice lattice.now).leq
        (F.flows flow.now) declared.now choice.new) }
    ensures waits { OnOk result (Waits (C.lattice lattice.now).count (C.lattice lattice.now).leq
        (F.flows flow.now) declared.now choice.new waiting.new.items from (length declared.now)) }
    ensures smaller { OnOk result (vec_len waiting.new + 2 * distance (C.lattice lattice.now).leq
        (C.lattice lattice.now).count choice.new
        ≤ vec_len waiting.old
        + 2 * distance (C.lattice lattice.now).leq (C.lattice lattice.now).count choice.old) }
{
    for to in 0..declared.len() {
        if let Some(_) = declared[to] {
            continue;
        }
        if !flow.has(from, to) {
            continue;
        }
        if !raise_one(lattice, choice, from, to) {
            continue;
        }
        waiting.push(to)?;
    }
    Ok(())
}

/// Raises classes until no variable waits.
pub(crate) fn settle<C: Classes, F: Flow>(
    lattice: &C,
    flow: &F,
    declared: &[Option<Class>],
    choice: &mut [Class],
    waiting: &mut Vec<usize>,
) -> Result<(), AllocError>
    requires program { IsProgram (C.lattice lattice.now).count (C.lattice lattice.now).leq
        (F.flows flow.now) declared.now }
    requires choice { KeepsDeclared (C.lattice lattice.now).count (C.lattice lattice.now).leq
        (F.flows flow.now) declared.now choice.old }
    requires justified { IsJustified (C.lattice lattice.now).count (C.lattice lattice.now).leq
        (F.flows flow.now) declared.now choice.old }
    requires waits { Waits (C.lattice lattice.now).count (C.lattice lattice.now).leq
        (F.flows flow.now) declared.now choice.old waiting.old.items 0 (length declared.now) }
    ensures choice { OnOk result
        (KeepsDeclared (C.lattice lattice.now).count (C.lattice lattice.now).leq
        (F.flows flow.now) declared.now choice.new) }
    ensures justified { OnOk result
        (IsJustified (C.lattice lattice.now).count (C.lattice lattice.now).leq
        (F.flows flow.now) declared.now choice.new) }
    ensures raised { OnOk result (IsRaised (C.lattice lattice.now).count (C.lattice lattice.now).leq
        (F.flows flow.now) declared.now choice.new) }
{
    while let Some(from) = waiting.pop() {
        spread(lattice, flow, declared, choice, waiting, from)?;
    }
    Ok(())
}

/// The declared classes, and the bottom class for the others.
fn start<C: Classes>(
    alloc: Global,
    lattice: &C,
    declared: &[Option<Class>],
) -> Result<Vec<Class>, AllocError>
    ensures { IfOk result
        (λ v. v.items ≡ map (λ o. unwrap_or o ((C.lattice lattice.now).bottom)) declared.now) }
{
    let bottom = lattice.bottom();
    declared
        .iter()
        .map(|class| class.unwrap_or(bottom))
        .collect(alloc)
}

/// The first flow that is out of order.
fn out_of_order<C: Classes, F: Flow>(
    lattice: &C,
    flow: &F,
    choice: &[Class],
) -> Option<(usize, usize)>
    requires { (v : ℕ) → v < length choice.now →
        slice_index choice.now v < (C.lattice lattice.now).count }
    ensures some { IfSome result (λ p. IsOutOfOrder (C.lattice lattice.now).leq
        (F.flows flow.now) choice.now p.0 p.1) }
    ensures none { IfNone result ((a b : ℕ) → a < length choice.now → b < length choice.now
        → IsInOrder (C.lattice lattice.now).leq (F.flows flow.now) choice.now a b) }
{
    for a in 0..choice.len() {
        for b in 0..choice.len() {
            if flow.has(a, b) {
                if !lattice.leq(choice[a], choice[b]) {
                    return Some((a, b));
                }
            }
        }
    }
    None
}

/// The least typable choice, if there is one.
pub(crate) fn least_choice<C: Classes, F: Flow>(
    alloc: Global,
    lattice: &C,
    flow: &F,
    declared: &[Option<Class>],
) -> Result<Option<Vec<Class>>, AllocError>
    requires program { IsProgram (C.lattice lattice.now).count (C.lattice lattice.now).leq
        (F.flows flow.now) declared.now }
    ensures { IfOk result
        (λ o. MatchOption o (HasPlacedBadWalk (C.lattice lattice.now).count
        (C.lattice lattice.now).leq (F.flows flow.now) declared.now)
        (λ v. IsLeastOrderedChoice (C.lattice lattice.now).count
        (C.lattice lattice.now).leq (F.flows flow.now) declared.now v.items)) }
{
    let mut choice = start(alloc, lattice, declared)?;
    let mut waiting = everyone(alloc, declared.len())?;
    settle(lattice, flow, declared, &mut choice, &mut waiting)?;
    match out_of_order(lattice, flow, &choice) {
        None => Ok(Some(choice)),
        Some(_) => Ok(None),
    }
}

/// The numbers below the count.
fn everyone(alloc: Global, count: usize) -> Result<Vec<usize>, AllocError>
    ensures each { IfOk result (λ w. (v : ℕ) → v < count → Contains w.items v) }
    ensures within { IfOk result (λ w. (v : ℕ) → Contains w.items v → v < count) }
{
    let mut all = Vec::with_capacity(alloc, count)?;
    for v in 0..count {
        all.push(v)?;
    }
    Ok(all)
}

/// The declared class of each variable, and the bottom class for the loops' ending.
fn declared_table<C: Classes>(
    alloc: Heap,
    lattice: &C,
    program: &Resolved<'_>,
) -> Result<Vec<Option<Class>>, AllocError>
    ensures { IfOk result (λ t. t.items ≡ table (C.lattice lattice.now) (program_of program.now)) }
{
    let mut table = Vec::new(alloc);
    for g in program.globals() {
        table.push(Some(g.class))?;
    }
    for e in program.letvars() {
        table.push(e.class)?;
    }
    table.push(Some(lattice.bottom()))?;
    Ok(table)
}

/// The least typable choice of classes under a profile, with a class for each `letvar` in text
/// order; otherwise `Refused`.
pub fn infer_in<C: Classes>(
    alloc: Heap,
    profile: Profile,
    lattice: &C,
    program: &Resolved<'_>,
) -> Result<Vec<Class>, InferError>
    requires globals { All (IsClass (C.lattice lattice.now)) (program_of program.now).globals }
    requires declared { AreClasses (C.lattice lattice.now) (program_of program.now).declared }
    ensures ok { IfOk result
        (λ s. IsLeast (C.lattice lattice.now) profile (program_of program.now) s.items) }
    ensures refused { IfErr result
        (Refuses (C.lattice lattice.now) profile (program_of program.now)) }
{
    // The contract of `body` says that the program is resolved, and the proofs need that.
    let _body = program.body();
    let first = program.globals().len();
    let count = program.letvars().len();
    let flow = flow_rows(alloc, profile, program)?;
    let declared = declared_table(alloc, lattice, program)?;
    let Some(choice) = least_choice(alloc, lattice, &flow, &declared)? else {
        let walk = shortest_walk(alloc, profile, lattice, program, &flow, &declared)?;
        return Err(InferError::Refused(walk));
    };
    Ok(choice[first..first + count].to_vec(alloc)?)
}

/// The least typable choice of classes under the base profile.
pub fn infer<C: Classes>(
    alloc: Heap,
    lattice: &C,
    program: &Resolved<'_>,
) -> Result<Vec<Class>, InferError>
    requires globals { All (IsClass (C.lattice lattice.now)) (program_of program.now).globals }
    requires declared { AreClasses (C.lattice lattice.now) (program_of program.now).declared }
    ensures ok { IfOk result
        (λ s. IsLeast (C.lattice lattice.now) Base (program_of program.now) s.items) }
    ensures refused { IfErr result (Refuses (C.lattice lattice.now) Base (program_of program.now)) }
{
    infer_in(alloc, Profile::Base, lattice, program)
}
