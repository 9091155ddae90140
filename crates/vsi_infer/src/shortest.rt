//! A shortest bad walk of a program that has one.

ghost use Rattle.std.specs.{Prelude.{◌≡◌, ◌+◌, ◌<◌, ℕ, Bool, true, List, map, slice_index, slice_index_or, None, [], IsTrue, IfOk, IfSome, ◌∷◌}, List.{All, Contains}};
ghost use Rattle.vsi_lattice.specs.Order.{IsClass};
ghost use Rattle.vsi_types.specs.{Security.{program as program_of, steps_of}, declared.rules.Step.{Step}};
ghost use Rattle.vsi_infer.specs.{Choices.{HasPlacedBadWalk}, Flowing.{AreFlowsOf}, Inference.{table, AreClasses, IsShortest}, Paths.{IsPath}, Shortest.{begins as begins_of, goes_on as goes_on_of, nearer as nearer_of, row_of as row_of_variable, LeadsDown, IsArrived, FindsWalks}};

use crate::distances::{far_at, fewest, level, levels};
use crate::gathering::{Wanted, first_steps, gather};
use crate::inference::Flow;
use crate::looking::FirstSteps;
use crate::walk::Walk;
use std::alloc::{AllocError, Global as Heap};
use vsi_lattice::{Class, Classes};
use vsi_scope::{Resolved, Var};
use vsi_types::{LOOP, Profile, Step};

/// The place of a variable in a row; the ending of loops has the last place.
pub fn row_of(last: u16, variable: Var) -> u16
    ensures { result ≡ row_of_variable last variable }
{
    if variable == LOOP { last } else { variable.0 }
}

/// The steps that begin a shortest bad walk: from a declared variable at distance `now` to one at
/// distance `after`.
#[derive(Drop)]
pub(crate) struct Begins<'a> {
    declared: &'a [Option<Class>],
    rows: &'a [Vec<u16>],
    last: u16,
    now: u16,
    after: u16,
}

impl<'a> Wanted for Begins<'a> {
    ghost wants = { λ w s. begins_of w.declared.now (map (λ r. r.items) w.rows.now) w.last w.now
        w.after s };

    fn is_wanted(&self, step: &Step) -> bool {
        let Some(Some(class)) = self.declared.get(step.source.0 as usize) else {
            return false;
        };
        let here = far_at(self.rows, *class, step.source.0 as usize);
        let there = far_at(self.rows, *class, row_of(self.last, step.target) as usize);
        here == self.now && there == self.after
    }
}

/// The steps that go from a variable to one at distance `after`.
#[derive(Drop)]
pub(crate) struct GoesOn<'a> {
    at: Var,
    row: &'a [u16],
    last: u16,
    after: u16,
}

impl<'a> Wanted for GoesOn<'a> {
    ghost wants = { λ w s. goes_on_of w.at w.row.now w.last w.after s };

    fn is_wanted(&self, step: &Step) -> bool {
        step.source == self.at
            && level(self.row, row_of(self.last, step.target) as usize) == self.after
    }
}

/// Whether a step leads to a variable that is one step nearer.
fn leads_nearer(row: &[u16], last: u16, step: &Step) -> bool
    ensures { result ≡ nearer_of row.now last step.now }
{
    let here = level(row, step.source.0 as usize);
    let there = level(row, row_of(last, step.target) as usize);
    here < 65535 && here as u32 == there as u32 + 1
}

/// The steps that lead to a variable that is one step nearer.
#[derive(Drop)]
pub(crate) struct Nearer<'a> {
    row: &'a [u16],
    last: u16,
}

impl<'a> Wanted for Nearer<'a> {
    ghost wants = { λ w s. nearer_of w.row.now w.last s };

    fn is_wanted(&self, step: &Step) -> bool {
        leads_nearer(self.row, self.last, step)
    }
}

/// The steps that lead to a variable that is one step nearer by one of the rows; each row has a
/// column.
#[derive(Drop)]
pub(crate) struct NearerBy<'a> {
    rows: &'a [Vec<u16>],
    last: u16,
}

impl<'a> Wanted for NearerBy<'a> {
    ghost wants = { λ w s. true };

    fn is_wanted(&self, _step: &Step) -> bool {
        true
    }

    fn columns(&self) -> usize {
        self.rows.len()
    }

    fn is_in(&self, step: &Step, column: usize) -> bool {
        match self.rows.get(column) {
            Some(row) => leads_nearer(row, self.last, step),
            None => false,
        }
    }
}

/// A wanted step of a program that has one: the proposed step if it is wanted, otherwise one found
/// by a walk that looks at every step.
///
/// Whether a step is wanted depends only on its source and its target. The first wanted step is
/// therefore among those that one walk over the program kept, and the second walk never runs. It is
/// there because this argument isn't proved.
fn first_wanted<W: Wanted>(
    alloc: Heap,
    profile: Profile,
    program: &Resolved<'_>,
    wanted: &W,
    proposed: Option<Step>,
) -> Result<Step, AllocError>
    requires some { (s : Step) × Contains (steps_of profile (program_of program.now)) s
        × IsTrue (W.wants wanted.now s) }
    requires proposed { IfSome proposed (Contains (steps_of profile (program_of program.now))) }
    ensures there { IfOk result (λ s. Contains (steps_of profile (program_of program.now)) s) }
    ensures wanted { IfOk result (λ s. IsTrue (W.wants wanted.now s)) }
{
    if let Some(step) = proposed {
        if wanted.is_wanted(&step) {
            return Ok(step);
        }
    }
    let kept = gather(alloc, profile, program, wanted, true)?;
    let steps = kept.steps.as_slice();
    Ok(steps[0])
}

/// The first wanted step of a program that has one.
fn first_step<W: Wanted>(
    alloc: Heap,
    profile: Profile,
    program: &Resolved<'_>,
    wanted: &W,
) -> Result<Step, AllocError>
    requires { (s : Step) × Contains (steps_of profile (program_of program.now)) s
        × IsTrue (W.wants wanted.now s) }
    ensures there { IfOk result (λ s. Contains (steps_of profile (program_of program.now)) s) }
    ensures wanted { IfOk result (λ s. IsTrue (W.wants wanted.now s)) }
{
    let known = first_steps(alloc, profile, program, wanted)?;
    first_wanted(alloc, profile, program, wanted, known.earliest())
}

/// The first step from this variable to one at distance `after`; the known steps must be the
/// program's.
fn next_step(
    alloc: Heap,
    profile: Profile,
    program: &Resolved<'_>,
    known: &FirstSteps,
    column: usize,
    row: &[u16],
    last: u16,
    at: Var,
    after: u16,
) -> Result<Step, AllocError>
    requires known { All (Contains (steps_of profile (program_of program.now)))
        known.now.steps.items }
    requires some { (s : Step) × Contains (steps_of profile (program_of program.now)) s
        × IsTrue (goes_on_of at row.now last after s) }
    ensures there { IfOk result (λ s. Contains (steps_of profile (program_of program.now)) s) }
    ensures wanted { IfOk result (λ s. IsTrue (goes_on_of at row.now last after s)) }
{
    let wanted = GoesOn {
        at,
        row,
        last,
        after,
    };
    first_wanted(
        alloc,
        profile,
        program,
        &wanted,
        known.from_source(at, column),
    )
}

/// The steps that lead down a row of distances, in its only column: for each variable the program's
/// first step that leads nearer. The last place of the row belongs to the ending of loops. This takes
/// one walk over the program.
pub fn steps_down(
    alloc: Heap,
    profile: Profile,
    program: &Resolved<'_>,
    row: &[u16],
    last: u16,
) -> Result<FirstSteps, AllocError>
    ensures { IfOk result
        (λ f. All (Contains (steps_of profile (program_of program.now))) f.steps.items) }
{
    first_steps(alloc, profile, program, &Nearer { row, last })
}

/// The steps that lead down each of these rows, in the column of the row's number, by `steps_down`.
/// All rows together take one walk over the program.
pub fn steps_down_each(
    alloc: Heap,
    profile: Profile,
    program: &Resolved<'_>,
    rows: &[Vec<u16>],
    last: u16,
) -> Result<FirstSteps, AllocError>
    ensures { IfOk result
        (λ f. All (Contains (steps_of profile (program_of program.now))) f.steps.items) }
{
    first_steps(alloc, profile, program, &NearerBy { rows, last })
}

/// Finds shortest walks to the variables where a row of distances is 0. For each variable, the
/// program's first step that leads nearer is known and serves all walks that pass there.
#[derive(Drop)]
pub struct WalksTo<'a> {
    known: &'a FirstSteps,
    column: usize,
    row: &'a [u16],
    last: u16,
}

/// The walks to the variables where a row of distances is 0, from the steps that lead down the row,
/// which are in this column. Other steps of the program serve too, but then each step of a walk takes
/// a walk over the program.
pub fn walks_to<'a>(known: &'a FirstSteps, column: usize, row: &'a [u16], last: u16) -> WalksTo<'a>
    ensures { (ss : List Step) → All (Contains ss) known.now.steps.items
        → FindsWalks ss last row.now result }
{
    WalksTo {
        known,
        column,
        row,
        last,
    }
}

impl<'a> WalksTo<'a> {
    /// The walk from a variable at a known distance. It is the first of all shortest walks in the
    /// order of the program's steps, step by step.
    pub fn walk_from(
        &self,
        alloc: Heap,
        profile: Profile,
        program: &Resolved<'_>,
        from: Var,
        count: u16,
    ) -> Result<Vec<Step>, AllocError>
        requires known { All (Contains (steps_of profile (program_of program.now)))
            self.now.known.now.steps.items }
        requires down { LeadsDown (steps_of profile (program_of program.now)) self.now.last
            self.now.row.now }
        requires at { slice_index self.now.row.now (row_of_variable self.now.last from) ≡ count }
        requires small { count < 65535 }
        ensures { IfOk result (λ w. IsArrived (steps_of profile (program_of program.now))
            self.now.last self.now.row.now from count w.items) }
    {
        let mut at = from;
        let mut steps = Vec::new(alloc);
        let mut left = count;
        while left > 0 {
            left -= 1;
            let step = next_step(
                alloc,
                profile,
                program,
                self.known,
                self.column,
                self.row,
                self.last,
                at,
                left,
            )?;
            at = step.target;
            steps.push(step)?;
        }
        Ok(steps)
    }
}

/// Continues a walk, step by step, to a variable at distance 0.
fn follow(
    alloc: Heap,
    profile: Profile,
    program: &Resolved<'_>,
    row: &[u16],
    last: u16,
    first: Step,
    length: u16,
) -> Result<Vec<Step>, AllocError>
    requires down { LeadsDown (steps_of profile (program_of program.now)) last row.now }
    requires there { Contains (steps_of profile (program_of program.now)) first }
    requires at { slice_index row.now (row_of_variable last first.target) ≡ length }
    requires small { length < 65535 }
    ensures { IfOk result (λ w. (rest : List Step) × (w.items ≡ first ∷ rest)
        × IsArrived (steps_of profile (program_of program.now)) last row.now first.source
        (length + 1) (first ∷ rest)) }
{
    let known = steps_down(alloc, profile, program, row, last)?;
    let walks = walks_to(&known, 0, row, last);
    let mut steps = walks.walk_from(alloc, profile, program, first.target, length)?;
    steps.insert(0, first)?;
    Ok(steps)
}

/// The declared class of a variable.
fn class_at(declared: &[Option<Class>], variable: Var) -> Option<Class>
    ensures { result ≡ slice_index_or declared.now variable None }
{
    declared.get(variable.0 as usize).copied().flatten()
}

/// The row of a class.
fn row_at<'a>(rows: &'a [Vec<u16>], class: Class) -> &'a [u16]
    ensures { result.now ≡ slice_index_or (map (λ r. r.items) rows.now) class [] }
{
    match rows.get(class.index()) {
        Some(row) => row.as_slice(),
        None => &[],
    }
}

/// A shortest bad walk of a program that has a bad walk; it is the first one in the order of its
/// steps.
pub(crate) fn shortest_walk<C: Classes, F: Flow>(
    alloc: Heap,
    profile: Profile,
    lattice: &C,
    program: &Resolved<'_>,
    flow: &F,
    declared: &[Option<Class>],
) -> Result<Walk, AllocError>
    requires globals { All (IsClass (C.lattice lattice.now)) (program_of program.now).globals }
    requires letvars { AreClasses (C.lattice lattice.now) (program_of program.now).declared }
    requires flows { AreFlowsOf profile (program_of program.now) (F.flows flow.now) }
    requires declared { declared.now ≡ table (C.lattice lattice.now) (program_of program.now) }
    requires bad { HasPlacedBadWalk (C.lattice lattice.now).count (C.lattice lattice.now).leq
        (F.flows flow.now)
        (table (C.lattice lattice.now) (program_of program.now)) }
    ensures { IfOk result
        (λ w. IsShortest (C.lattice lattice.now) profile (program_of program.now) w.steps.items) }
{
    // The contract of `body` says that the program is resolved, and the proofs need that.
    let _body = program.body();
    let rows = levels(alloc, lattice, flow, declared)?;
    let length = fewest(&rows, declared);
    let last = (declared.len() - 1) as u16;
    let begins = Begins {
        declared,
        rows: &rows,
        last,
        now: length,
        after: length - 1,
    };
    let first = first_step(alloc, profile, program, &begins)?;
    let Some(class) = class_at(declared, first.source) else {
        unreachable!();
    };
    let row = row_at(&rows, class);
    let steps = follow(alloc, profile, program, row, last, first, length - 1)?;
    Ok(Walk { steps })
}
