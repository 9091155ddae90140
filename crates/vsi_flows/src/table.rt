//! The table of flows, its pairs, and which of them are listed.

ghost use Rattle.std.specs.{Prelude.{◌≡◌, ◌++◌, [], ◌∷◌, IfOk, OnOk, ◌↔◌, ◌⊎◌, ◌+◌, ◌≤◌, ◌<◌, map, IfSome, IfNone, if◌then◌else◌}, List.{All}};
ghost use Rattle.vsi_flows.specs.{declared.table.FlowsError.TheVariants.{Memory}, Rows.{AreRows, AreRowsOf}, Table.{IsJoined, IsTold, IsTable, AreAllowed, HasChoice, HasBadWalk}, Filling.{IsFilled}, Refused.{AreRefused, refused_of}};
ghost use Rattle.vsi_lattice.specs.Order.{IsClass};
ghost use Rattle.vsi_types.specs.{Security.{program as program_of}, declared.rules.Profile.{Profile}};
ghost use Rattle.vsi_infer.specs.{Flowing.{size_of, variable_at as variable_at_of}, Inference.{AreClasses}};
ghost use Rattle.vsi_flows.specs.Further as spec;

use crate::rows::{declarations, far, program_rows, variable_at};
use std::alloc::{AllocError, AllocFailed, Global, Global as Heap};
use thiserror::Error;
use vsi_infer::{InferError, declared_class, infer_in};
use vsi_lattice::Classes;
use vsi_scope::{Resolved, Var};
use vsi_types::Profile;

/// Two different declared variables joined by a chain of flow steps.
#[derive(Clone, Copy, Debug, PartialEq, Eq)]
pub struct Pair {
    /// The beginning of the chain.
    pub source: Var,
    /// The end of the chain; `vsi_types::LOOP` for the ending of loops.
    pub target: Var,
    /// Whether the class of the source is at or below the class of the target.
    pub allowed: bool,
    /// The fewest steps of such a chain, at most 1,024.
    pub steps: u16,
}

/// The declared variables that chains of flow steps join with a variable, in the order of their
/// declarations. The ending of loops counts as declared with the bottom class, and comes last.
#[derive(Debug, Drop)]
pub struct Related {
    /// The variables from which a chain leads to it.
    pub from: Vec<Var>,
    /// The variables to which a chain leads from it.
    pub to: Vec<Var>,
}

/// Why there is no table.
#[derive(Debug, Drop, Error)]
pub enum FlowsError {
    /// There was too little memory.
    #[error("out of memory")]
    Memory,
}

impl From<AllocError> for FlowsError {
    ghost from_gives = { λ _ e. e ≡ Memory };

    fn from(_error: AllocError) -> FlowsError {
        FlowsError::Memory
    }
}

impl<T: Drop> From<AllocFailed<T>> for FlowsError {
    ghost from_gives = { λ _ e. e ≡ Memory };

    fn from(_error: AllocFailed<T>) -> FlowsError {
        FlowsError::Memory
    }
}

/// The most steps of a walk.
const MOST_STEPS: u16 = 32;

/// Whether a pair is refused, has other ends than these, and has a walk of at most 32 steps.
fn is_further(from: Var, to: Var, pair: &Pair) -> bool
    ensures { result ≡ spec.is_further from to pair.now }
{
    if pair.allowed {
        return false;
    }
    if pair.source == from && pair.target == to {
        return false;
    }
    pair.steps <= MOST_STEPS
}

/// The pairs that are listed, in their order.
pub(crate) fn further_pairs(
    alloc: Global,
    from: Var,
    to: Var,
    pairs: &[Pair],
) -> Result<Vec<Pair>, AllocError>
    ensures { IfOk result (λ kept. kept.items ≡ spec.further_of from to pairs.now) }
{
    let further = |pair: &&Pair| is_further(from, to, *pair);
    pairs.iter().filter(further).copied().collect(alloc)
}

/// The pair of a variable and the one at a position, if a walk joins them.
fn pair_at<C: Classes>(
    lattice: &C,
    program: &Resolved<'_>,
    rows: &[Vec<u16>],
    last: u16,
    source: u16,
    target: u16,
) -> Option<Pair>
    requires globals { All (IsClass (C.lattice lattice.now)) (program_of program.now).globals }
    requires declared { AreClasses (C.lattice lattice.now) (program_of program.now).declared }
    requires last { last ≡ size_of (program_of program.now) }
    requires small { last ≤ 1024 }
    requires source { source < last }
    requires target { target ≤ last }
    ensures source { IfSome result (λ r. r.source ≡ source) }
    ensures target { IfSome result (λ r. r.target ≡ variable_at_of last target) }
    ensures told { (P : Profile) → AreRows (C.lattice lattice.now) P (program_of program.now)
        (map (λ r. r.items) rows.now)
        → IfSome result (IsTold (C.lattice lattice.now) P (program_of program.now)) }
    ensures none { (P : Profile) → AreRows (C.lattice lattice.now) P (program_of program.now)
        (map (λ r. r.items) rows.now)
        → IfNone result (IsJoined (C.lattice lattice.now) P (program_of program.now)
        source (variable_at_of last target) → ⊥) }
{
    if source == target {
        return None;
    }
    let from = Var(source);
    let to = variable_at(last, target);
    let Some(low) = declared_class(lattice, program, from) else {
        return None;
    };
    let Some(high) = declared_class(lattice, program, to) else {
        return None;
    };
    let steps = far(rows, source, target);
    if steps == 65535 {
        return None;
    }
    Some(Pair {
        source: from,
        target: to,
        allowed: lattice.leq(low, high),
        steps,
    })
}

/// Adds the pairs from one variable.
fn put_pairs<C: Classes>(
    pairs: &mut Vec<Pair>,
    lattice: &C,
    program: &Resolved<'_>,
    rows: &[Vec<u16>],
    last: u16,
    source: u16,
) -> Result<(), AllocError>
    requires globals { All (IsClass (C.lattice lattice.now)) (program_of program.now).globals }
    requires declared { AreClasses (C.lattice lattice.now) (program_of program.now).declared }
    requires last { last ≡ size_of (program_of program.now) }
    requires small { last ≤ 1024 }
    requires source { source < last }
    ensures { (P : Profile) → AreRows (C.lattice lattice.now) P (program_of program.now)
        (map (λ r. r.items) rows.now)
        → IsFilled (C.lattice lattice.now) P (program_of program.now) source 0 pairs.old.items
        → OnOk result (IsFilled (C.lattice lattice.now) P (program_of program.now)
        (source + 1) 0 pairs.new.items) }
{
    for target in 0..last + 1 {
        let Some(pair) = pair_at(lattice, program, rows, last, source, target) else {
            continue;
        };
        pairs.push(pair)?;
    }
    Ok(())
}

/// The pairs in their order, from the rows of a program.
pub(crate) fn pairs_of<C: Classes>(
    alloc: Heap,
    lattice: &C,
    program: &Resolved<'_>,
    rows: &[Vec<u16>],
) -> Result<Vec<Pair>, AllocError>
    requires globals { All (IsClass (C.lattice lattice.now)) (program_of program.now).globals }
    requires declared { AreClasses (C.lattice lattice.now) (program_of program.now).declared }
    ensures { (P : Profile) → AreRowsOf (C.lattice lattice.now) P (program_of program.now)
        (map (λ r. r.items) rows.now)
        → IfOk result (λ t. IsTable (C.lattice lattice.now) P (program_of program.now) t.items) }
{
    // `body` ensures that the program is resolved, which the proofs need.
    let _body = program.body();
    let last = declarations(program);
    let mut pairs = Vec::new(alloc);
    for source in 0..last {
        put_pairs(&mut pairs, lattice, program, rows, last, source)?;
    }
    Ok(pairs)
}

/// Establishes that some choice of classes is typable or some walk is bad.
pub(crate) fn decide<C: Classes>(
    alloc: Heap,
    profile: Profile,
    lattice: &C,
    program: &Resolved<'_>,
) -> Result<(), AllocError>
    requires globals { All (IsClass (C.lattice lattice.now)) (program_of program.now).globals }
    requires declared { AreClasses (C.lattice lattice.now) (program_of program.now).declared }
    ensures { OnOk result (HasChoice (C.lattice lattice.now) profile (program_of program.now)
        ⊎ HasBadWalk (C.lattice lattice.now) profile (program_of program.now)) }
{
    match infer_in(alloc, profile, lattice, program) {
        Ok(_classes) => Ok(()),
        Err(InferError::Refused(_walk)) => Ok(()),
        Err(InferError::Memory) => Err(AllocError),
    }
}

/// The pairs of declared variables joined by a chain of flow steps, sorted by the source, then by
/// the target, in the order of declarations, with the ending of loops last. A variable forms no
/// pair with itself.
///
/// # Errors
///
/// `Memory` alone.
pub fn flows_in<C: Classes>(
    alloc: Heap,
    profile: Profile,
    lattice: &C,
    program: &Resolved<'_>,
) -> Result<Vec<Pair>, FlowsError>
    requires globals { All (IsClass (C.lattice lattice.now)) (program_of program.now).globals }
    requires declared { AreClasses (C.lattice lattice.now) (program_of program.now).declared }
    ensures table { IfOk result (λ t.
        IsTable (C.lattice lattice.now) profile (program_of program.now) t.items) }
    ensures verdict { IfOk result (λ t. AreAllowed t.items
        ↔ HasChoice (C.lattice lattice.now) profile (program_of program.now)) }
{
    // `body` ensures that the program is resolved, which the proofs need.
    let _body = program.body();
    let rows = program_rows(alloc, profile, lattice, program)?;
    let pairs = pairs_of(alloc, lattice, program, &rows)?;
    decide(alloc, profile, lattice, program)?;
    Ok(pairs)
}

/// Adds a pair that isn't allowed.
fn put_refused(kept: &mut Vec<Pair>, pair: Pair) -> Result<(), AllocError>
    ensures { OnOk result
        (kept.new.items ≡ kept.old.items ++ (if pair.allowed then [] else pair ∷ [])) }
{
    if pair.allowed {
        return Ok(());
    }
    kept.push(pair)?;
    Ok(())
}

/// The pairs that aren't allowed, in their order.
fn without_allowed(alloc: Global, pairs: &[Pair]) -> Result<Vec<Pair>, AllocError>
    ensures { IfOk result (λ kept. kept.items ≡ refused_of pairs.now) }
{
    let mut kept = Vec::new(alloc);
    for pair in pairs {
        put_refused(&mut kept, *pair)?;
    }
    Ok(kept)
}

/// The refused pairs of a program, ordered by the source and then by the target.
pub fn refused_pairs<C: Classes>(
    alloc: Global,
    profile: Profile,
    lattice: &C,
    program: &Resolved<'_>,
) -> Result<Vec<Pair>, AllocError>
    requires globals { All (IsClass (C.lattice lattice.now)) (program_of program.now).globals }
    requires declared { AreClasses (C.lattice lattice.now) (program_of program.now).declared }
    ensures { IfOk result (λ pairs.
        AreRefused (C.lattice lattice.now) profile (program_of program.now) pairs.items) }
{
    match flows_in(alloc, profile, lattice, program) {
        Ok(pairs) => without_allowed(alloc, &pairs),
        Err(FlowsError::Memory) => Err(AllocError),
    }
}
