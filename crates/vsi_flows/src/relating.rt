//! The declared variables that chains of flow steps join with a variable.

ghost use Rattle.std.specs.Prelude.{◌≡◌, ◌↔◌, ◌+◌, ◌<◌, ◌≤◌, true, false, length, slice_index, IfOk};
ghost use Rattle.vsi_lattice.specs.LatticeView.{order};
ghost use Rattle.vsi_types.specs.{Security.{program as program_of}, Steps.{sink}, declared.rules.Profile.{Profile}};
ghost use Rattle.vsi_infer.specs.{Flowing.{size_of, AreFlowsOf, variable_at as variable_at_of}, Shortest.{row_of as row_of_variable}};
ghost use Rattle.vsi_flows.specs.{Rows.{IsRowTo}, Related.{IsOther, IsSource, IsTarget, AreExactly}};

use crate::rows::{declarations, variable_at};
use crate::table::Related;
use std::alloc::{AllocError, Global as Heap};
use vsi_compiler::Source;
use vsi_infer::{Flow, FlowRows, declared_class, fewest_flows, flow_rows, row_of};
use vsi_scope::Var;
use vsi_types::{LOOP, Profile};

/// Whether a variable is another one, and has a declared class.
fn is_other(source: &Source<'_>, variable: Var, other: Var) -> bool
    ensures { result ≡ true ↔ IsOther
        (order source.now.lattice) (program_of source.now.resolved) variable other }
{
    if other == variable {
        return false;
    }
    match declared_class(source.lattice(), source.resolved(), other) {
        Some(_) => true,
        None => false,
    }
}

/// Whether a position has a distance in a row.
fn is_near(row: &[u16], place: u16) -> bool
    requires { place < length row.now }
    ensures { result ≡ true ↔ slice_index row.now place < 65535 }
{
    row[place as usize] < 65535
}

/// Whether the variable at a position is another declared one with a distance in the row of the
/// variable.
fn is_source(source: &Source<'_>, row: &[u16], last: u16, variable: Var, place: u16) -> bool
    requires last { last ≡ size_of (program_of source.now.resolved) }
    requires place { place ≤ last }
    requires room { length row.now ≡ last + 1 }
    ensures { (P : Profile) → IsRowTo P (program_of source.now.resolved) variable row.now
        → (result ≡ true ↔ IsSource (order source.now.lattice) P
        (program_of source.now.resolved) variable (variable_at_of last place)) }
{
    if !is_other(source, variable, variable_at(last, place)) {
        return false;
    }
    is_near(row, place)
}

/// The declared variables from which a chain of flow steps leads to a variable.
fn sources(
    alloc: Heap,
    profile: Profile,
    source: &Source<'_>,
    flow: &FlowRows,
    last: u16,
    variable: Var,
) -> Result<Vec<Var>, AllocError>
    requires flows { AreFlowsOf profile (program_of source.now.resolved)
        (⟦<FlowRows as Flow>⟧.flows flow.now) }
    requires last { last ≡ size_of (program_of source.now.resolved) }
    requires small { last ≤ 1024 }
    requires place { row_of_variable last variable ≤ last }
    requires there { variable_at_of last (row_of_variable last variable) ≡ variable }
    ensures { IfOk result (λ found. AreExactly (IsSource (order source.now.lattice) profile
        (program_of source.now.resolved) variable) found.items) }
{
    // `resolved` ensures that the program is one of the lattice, which the proofs need.
    let _program = source.resolved();
    let row = fewest_flows(
        alloc,
        flow,
        last as usize + 1,
        row_of(last, variable) as usize,
    )?;
    let mut found = Vec::new(alloc);
    for place in 0..last + 1 {
        if !is_source(source, &row, last, variable, place) {
            continue;
        }
        found.push(variable_at(last, place))?;
    }
    Ok(found)
}

/// Whether the variable at a position is another declared one to which a chain of flow steps leads
/// from the variable.
fn is_target(
    alloc: Heap,
    profile: Profile,
    source: &Source<'_>,
    flow: &FlowRows,
    last: u16,
    variable: Var,
    place: u16,
) -> Result<bool, AllocError>
    requires flows { AreFlowsOf profile (program_of source.now.resolved)
        (⟦<FlowRows as Flow>⟧.flows flow.now) }
    requires last { last ≡ size_of (program_of source.now.resolved) }
    requires small { last ≤ 1024 }
    requires here { row_of_variable last variable ≤ last }
    requires there { variable_at_of last (row_of_variable last variable) ≡ variable }
    requires place { place ≤ last }
    ensures { IfOk result (λ answer. answer ≡ true ↔ IsTarget (order source.now.lattice) profile
        (program_of source.now.resolved) variable (variable_at_of last place)) }
{
    // `resolved` ensures that the program is one of the lattice, which the proofs need.
    let _program = source.resolved();
    if !is_other(source, variable, variable_at(last, place)) {
        return Ok(false);
    }
    let row = fewest_flows(alloc, flow, last as usize + 1, place as usize)?;
    Ok(is_near(&row, row_of(last, variable)))
}

/// The declared variables to which a chain of flow steps leads from a variable.
fn targets(
    alloc: Heap,
    profile: Profile,
    source: &Source<'_>,
    flow: &FlowRows,
    last: u16,
    variable: Var,
) -> Result<Vec<Var>, AllocError>
    requires flows { AreFlowsOf profile (program_of source.now.resolved)
        (⟦<FlowRows as Flow>⟧.flows flow.now) }
    requires last { last ≡ size_of (program_of source.now.resolved) }
    requires small { last ≤ 1024 }
    requires here { row_of_variable last variable ≤ last }
    requires there { variable_at_of last (row_of_variable last variable) ≡ variable }
    ensures { IfOk result (λ found. AreExactly (IsTarget (order source.now.lattice) profile
        (program_of source.now.resolved) variable) found.items) }
{
    // `resolved` ensures that the program is one of the lattice, which the proofs need.
    let _program = source.resolved();
    let mut found = Vec::new(alloc);
    for place in 0..last + 1 {
        let is_listed = is_target(alloc, profile, source, flow, last, variable, place)?;
        if !is_listed {
            continue;
        }
        found.push(variable_at(last, place))?;
    }
    Ok(found)
}

/// Whether a number is that of a variable, or of the ending of loops.
fn is_known(last: u16, variable: Var) -> bool
    requires { last ≤ 1024 }
    ensures place { result ≡ true → row_of_variable last variable ≤ last }
    ensures there { result ≡ true
        → variable_at_of last (row_of_variable last variable) ≡ variable }
    ensures past { result ≡ false → last ≤ variable }
    ensures variable { result ≡ false → variable ≡ sink → ⊥ }
{
    if variable == LOOP {
        return true;
    }
    variable.0 < last
}

/// The declared variables that reach a variable of a source text under a profile, and those that it
/// reaches. A number that no variable has reaches none.
pub fn related(
    alloc: Heap,
    profile: Profile,
    source: &Source<'_>,
    variable: Var,
) -> Result<Related, AllocError>
    ensures from { IfOk result (λ found. AreExactly (IsSource (order source.now.lattice) profile
        (program_of source.now.resolved) variable) found.from.items) }
    ensures to { IfOk result (λ found. AreExactly (IsTarget (order source.now.lattice) profile
        (program_of source.now.resolved) variable) found.to.items) }
{
    let program = source.resolved();
    let flow = flow_rows(alloc, profile, program)?;
    let last = declarations(program);
    if !is_known(last, variable) {
        let from = Vec::new(alloc);
        let to = Vec::new(alloc);
        return Ok(Related { from, to });
    }
    let from = sources(alloc, profile, source, &flow, last, variable)?;
    let to = targets(alloc, profile, source, &flow, last, variable)?;
    Ok(Related { from, to })
}
