//! For each declared variable, the fewest steps that lead to it.

ghost use Rattle.std.specs.{Prelude.{◌≡◌, ◌≤◌, ◌<◌, ◌+◌, ℕ, true, [], Some, map, slice_index, slice_index_or, IfOk, List, length, IfSome, IfNone}, List.{All, Contains}, Option.{MatchOption}};
ghost use Rattle.vsi_types.specs.{Security.{program as program_of, steps_of}, declared.rules.Step.{Step}};
ghost use Rattle.vsi_infer.specs.{Flowing.{size_of, variable_at as variable_at_of}, Inference.{AreClasses}, Shortest.{FindsWalks}};
ghost use Rattle.vsi_flows.specs.{Rows.{AreLeastRows, AreRowsOf}, Text.{IsWalkOf}, Walks.{IsUnreached, FindWalks, IsFound}, Reaching.{IsJoined, IsOver, AreUnder}};
ghost use Rattle.vsi_lattice.specs.Order.{IsClass};
ghost use Rattle.vsi_syntax.specs.CommandView.{declared};
ghost use Rattle.vsi_flows.specs.Lines as spec;

use crate::table::Pair;
use std::alloc::{AllocError, Global as Heap};
use vsi_infer::{
    FirstSteps, Flow, FlowRows, WalksTo, declared_class, fewest_flows, flow_rows, row_of, walks_to,
};
use vsi_lattice::{Class, Classes};
use vsi_scope::{Entry, Resolved, Var};
use vsi_syntax::Declaration;
use vsi_types::{LOOP, Profile, Step};

/// The variable at a position; the last position is the ending of loops.
pub(crate) fn variable_at(last: u16, place: u16) -> Var
    ensures { result ≡ variable_at_of last place }
{
    if place == last { LOOP } else { Var(place) }
}

/// The number of declarations of a program: its globals and its `letvar`s.
pub fn declarations(program: &Resolved<'_>) -> u16
    ensures count { result ≡ size_of (program_of program.now) }
    ensures small { result ≤ 1024 }
{
    // `body` ensures that the program is resolved, so its number of declarations is limited.
    let _body = program.body();
    program.globals().len() as u16 + program.letvars().len() as u16
}

/// For each declared variable, the fewest flows that lead to it from each position, and an empty
/// row for the others.
pub(crate) fn rows_of<C: Classes>(
    alloc: Heap,
    lattice: &C,
    program: &Resolved<'_>,
    flow: &FlowRows,
    last: u16,
) -> Result<Vec<Vec<u16>>, AllocError>
    requires small { last ≤ 1024 }
    requires within { (a b : ℕ) → ⟦<FlowRows as Flow>⟧.flows flow.now a b ≡ true
        → (a < last + 1) × (b < last + 1) }
    ensures { IfOk result (λ rows. AreLeastRows (C.lattice lattice.now) (program_of program.now)
        (⟦<FlowRows as Flow>⟧.flows flow.now) last (map (λ r. r.items) rows.items)) }
{
    let mut rows = Vec::new(alloc);
    for place in 0..last + 1 {
        let Some(_class) = declared_class(lattice, program, variable_at(last, place)) else {
            rows.push(Vec::new(alloc))?;
            continue;
        };
        let row = fewest_flows(alloc, flow, last as usize + 1, place as usize)?;
        rows.push(row)?;
    }
    Ok(rows)
}

/// The rows of a program: for each declared variable, the fewest steps that lead to it.
pub(crate) fn program_rows<C: Classes>(
    alloc: Heap,
    profile: Profile,
    lattice: &C,
    program: &Resolved<'_>,
) -> Result<Vec<Vec<u16>>, AllocError>
    requires { AreClasses (C.lattice lattice.now) (program_of program.now).declared }
    ensures { IfOk result (λ rows. AreRowsOf (C.lattice lattice.now) profile
        (program_of program.now) (map (λ r. r.items) rows.items)) }
{
    let flow = flow_rows(alloc, profile, program)?;
    let last = declarations(program);
    rows_of(alloc, lattice, program, &flow, last)
}

/// The fewest flows between two positions; 65535 if there is no walk.
pub(crate) fn far(rows: &[Vec<u16>], source: u16, target: u16) -> u16
    ensures { result ≡
        slice_index (slice_index_or (map (λ r. r.items) rows.now) target []) source }
{
    let Some(row) = rows.get(target as usize) else {
        return 0;
    };
    match row.get(source as usize) {
        Some(steps) => *steps,
        None => 0,
    }
}

/// The finder for the walks down a row, if steps lead to its position from any other, from steps
/// that lead down the row, which are in this column.
fn walks_down<'a>(
    known: &'a FirstSteps,
    column: usize,
    row: &'a [u16],
    last: u16,
) -> Option<WalksTo<'a>>
    ensures { (ss : List Step) → All (Contains ss) known.now.steps.items
        → MatchOption result (IsUnreached row.now) (FindsWalks ss last row.now) }
{
    for steps in row {
        if 0 < *steps && *steps < 65535 {
            return Some(walks_to(known, column, row, last));
        }
    }
    None
}

/// For each row, the finder for the walks down it, if there are any. The steps that lead down a row
/// are in the column of its number.
pub(crate) fn found_in<'a>(
    alloc: Heap,
    known: &'a FirstSteps,
    rows: &'a [Vec<u16>],
    last: u16,
) -> Result<Vec<Option<WalksTo<'a>>>, AllocError>
    ensures { (ss : List Step) → All (Contains ss) known.now.steps.items
        → IfOk result (λ w. FindWalks ss last (map (λ r. r.items) rows.now) w.items) }
{
    let mut found = Vec::new(alloc);
    for row in rows {
        let column = found.len();
        found.push(walks_down(known, column, row, last))?;
    }
    Ok(found)
}

/// A walk with a pair's fewest steps.
pub(crate) fn walk_of(
    alloc: Heap,
    profile: Profile,
    program: &Resolved<'_>,
    found: &[Option<WalksTo<'_>>],
    last: u16,
    pair: Pair,
) -> Result<Vec<Step>, AllocError>
    requires { IsFound (steps_of profile (program_of program.now)) last found.now pair }
    ensures { IfOk result (λ w.
        IsWalkOf (steps_of profile (program_of program.now)) pair w.items) }
{
    let Some(Some(walks)) = found.get(row_of(last, pair.target) as usize) else {
        unreachable!();
    };
    walks.walk_from(alloc, profile, program, pair.source, pair.steps)
}

/// The least class at or above the floors of all positions with a distance in the row.
pub(crate) fn joined<C: Classes>(lattice: &C, floors: &[Class], row: &[u16]) -> Class
    requires classes { All (IsClass (C.lattice lattice.now)) floors.now }
    requires room { length floors.now ≤ length row.now }
    ensures { IsJoined (C.lattice lattice.now) floors.now row.now (length floors.now) result }
{
    let mut class = lattice.bottom();
    for a in 0..floors.len() {
        if row[a] < 65535 {
            class = lattice.join(class, floors[a]);
        }
    }
    class
}

/// The position with the least distance, among those with a distance in the row whose floor isn't
/// at or below a class.
pub(crate) fn nearest_over<C: Classes>(
    lattice: &C,
    floors: &[Class],
    row: &[u16],
    class: Class,
) -> Option<usize>
    requires classes { All (IsClass (C.lattice lattice.now)) floors.now }
    requires class { IsClass (C.lattice lattice.now) class }
    requires room { length floors.now ≤ length row.now }
    ensures some { IfSome result (IsOver (C.lattice lattice.now) floors.now row.now class) }
    ensures none { IfNone result (AreUnder (C.lattice lattice.now) floors.now row.now class) }
{
    let mut nearest = None;
    let mut distance: u16 = 65535;
    for a in 0..floors.len() {
        if row[a] >= distance {
            continue;
        }
        if lattice.leq(floors[a], class) {
            continue;
        }
        nearest = Some(a);
        distance = row[a];
    }
    nearest
}

/// Where the name of a declaration begins.
pub fn name_start(globals: &[Declaration<'_>], letvars: &[Entry<'_>], variable: Var) -> usize
    ensures { result ≡ spec.name_start (map declared globals.now) letvars.now variable }
{
    let number = variable.0 as usize;
    if number < globals.len() {
        return globals[number].name.span.start;
    }
    match letvars.get(number - globals.len()) {
        Some(entry) => entry.span.start,
        None => 0,
    }
}
