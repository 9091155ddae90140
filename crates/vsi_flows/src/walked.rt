//! A shortest walk for each pair of a list.

ghost use Rattle.std.specs.{Prelude.{◌≡◌, ℕ, ◌+◌, ◌<◌, ◌≤◌, map, take, IfOk}, List.{All}};
ghost use Rattle.vsi_lattice.specs.Order.{IsClass};
ghost use Rattle.vsi_types.specs.Security.{program as program_of, steps_of};
ghost use Rattle.vsi_infer.specs.{Distances.{AreLeast}, Flowing.{size_of, AreFlowsOf}, Inference.{AreClasses}, Shortest.{row_of as row_of_variable}};
ghost use Rattle.vsi_flows.specs.{Table.{IsTold}, Refused.{AreWalked}};

use crate::rows::declarations;
use crate::table::Pair;
use std::alloc::{AllocError, Global};
use vsi_infer::{Flow, FlowRows, fewest_flows, flow_rows, row_of, steps_down_each, walks_to};
use vsi_lattice::Classes;
use vsi_scope::Resolved;
use vsi_types::{Profile, Step};

/// A pair of variables, and the steps of a walk from its source to its target.
#[derive(Drop)]
pub struct WalkedPair {
    pub pair: Pair,
    pub steps: Vec<Step>,
}

/// The fewest flows that lead to a pair's target, from each position.
fn row_to<C: Classes>(
    alloc: Global,
    profile: Profile,
    lattice: &C,
    program: &Resolved<'_>,
    flow: &FlowRows,
    pair: Pair,
) -> Result<Vec<u16>, AllocError>
    requires globals { All (IsClass (C.lattice lattice.now)) (program_of program.now).globals }
    requires declared { AreClasses (C.lattice lattice.now) (program_of program.now).declared }
    requires flows { AreFlowsOf profile (program_of program.now)
        (⟦<FlowRows as Flow>⟧.flows flow.now) }
    requires told { IsTold (C.lattice lattice.now) profile (program_of program.now) pair }
    ensures { IfOk result (λ row. AreLeast (⟦<FlowRows as Flow>⟧.flows flow.now)
        (size_of (program_of program.now) + 1)
        (row_of_variable (size_of (program_of program.now)) pair.target) row.items) }
{
    // The contract of `body` says that the program is resolved, and the proofs need that.
    let _body = program.body();
    let last = declarations(program);
    let place = row_of(last, pair.target);
    fewest_flows(alloc, flow, last as usize + 1, place as usize)
}

/// Each pair with a walk of the fewest steps: the first such walk in the order of the program's
/// steps, step by step. Two passes over the program find the walks of all pairs.
pub fn walks_of<C: Classes>(
    alloc: Global,
    profile: Profile,
    lattice: &C,
    program: &Resolved<'_>,
    pairs: &[Pair],
) -> Result<Vec<WalkedPair>, AllocError>
    requires globals { All (IsClass (C.lattice lattice.now)) (program_of program.now).globals }
    requires declared { AreClasses (C.lattice lattice.now) (program_of program.now).declared }
    requires told { All (IsTold (C.lattice lattice.now) profile (program_of program.now)) pairs.now }
    ensures { IfOk result (λ w.
        AreWalked (steps_of profile (program_of program.now)) pairs.now w.items) }
{
    // The contract of `body` says that the program is resolved, and the proofs need that.
    let _body = program.body();
    let flow = flow_rows(alloc, profile, program)?;
    let last = declarations(program);
    let mut rows = Vec::new(alloc);
    for joined in pairs {
        rows.push(row_to(alloc, profile, lattice, program, &flow, *joined)?)?;
    }
    let known = steps_down_each(alloc, profile, program, &rows, last)?;
    let mut entries = Vec::new(alloc);
    for pair in pairs {
        let column = entries.len();
        let row = row_to(alloc, profile, lattice, program, &flow, *pair)?;
        let walks = walks_to(&known, column, &row, last);
        let steps = walks.walk_from(alloc, profile, program, pair.source, pair.steps)?;
        entries.push(WalkedPair { pair: *pair, steps })?;
    }
    Ok(entries)
}
