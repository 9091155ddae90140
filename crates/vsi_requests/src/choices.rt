//! The classes of the declarations of a program, accepted or not.

ghost use Rattle.std.specs.{Prelude.{IfOk, IfSome}, List.{All}};
ghost use Rattle.vsi_infer.specs.Inference.{AreClasses};
ghost use Rattle.vsi_lattice.specs.{LatticeView.{order}, Order.{IsClass}};
ghost use Rattle.vsi_types.specs.Security.{IsChoice, Keeps, program as program_of};
ghost use Rattle.vsi_subject.specs.Stepping.{IsChosen, IsTable};

use crate::findings::Made;
use std::alloc::{AllocError, Global};
use vsi_compiler::Source;
use vsi_infer::{Flow, FlowRows, InferError, flow_rows, infer_in};
use vsi_lattice::{Class, Classes, Lattice};
use vsi_scope::{Entry, Resolved};
use vsi_types::Profile;

/// A class, or the bottom class in place of one that the lattice lacks.
fn known(lattice: &Lattice, class: Class) -> Class
    ensures { IsClass (order lattice.now) result }
{
    if class.index() < lattice.count() {
        class
    } else {
        lattice.bottom()
    }
}

/// Raises classes along the flows of a program, each once, to the join with the class that flows
/// there, and returns whether one has risen.
fn raise_each(lattice: &Lattice, flow: &FlowRows, classes: &mut [Class]) -> bool {
    let count = classes.len();
    let mut has_risen = false;
    for from in 0..count {
        for to in 0..count {
            if !flow.has(from, to) {
                continue;
            }
            let (Some(low), Some(high)) = (classes.get(from), classes.get(to)) else {
                continue;
            };
            let (low, high) = (known(lattice, *low), known(lattice, *high));
            if lattice.leq(low, high) {
                continue;
            }
            let risen = lattice.join(low, high);
            if let Some(class) = classes.get_mut(to) {
                *class = risen;
            }
            has_risen = true;
        }
    }
    has_risen
}

/// The classes that the flows of a program reach: for each declaration the least at or above the
/// declared classes of all that flow to it.
fn reached(alloc: Global, lattice: &Lattice, program: &Resolved<'_>) -> Made<Vec<Class>> {
    let flow = flow_rows(alloc, Profile::Base, program)?;
    let mut classes = Vec::new(alloc);
    for global in program.globals() {
        classes.push(global.class)?;
    }
    for entry in program.letvars() {
        classes.push(entry.class.unwrap_or(lattice.bottom()))?;
    }
    for _round in 0..classes.len().saturating_mul(64) {
        if !raise_each(lattice, &flow, &mut classes) {
            break;
        }
    }
    Ok(classes)
}

/// The class of a letvar: the declared one, or else the one that is reached.
fn class_for(lattice: &Lattice, entry: &Entry<'_>, reached: Option<&Class>) -> Class
    requires { IfSome entry.now.class (IsClass (order lattice.now)) }
    ensures kept { Keeps entry.now.class result }
    ensures class { IsClass (order lattice.now) result }
{
    match (entry.class, reached) {
        (Some(class), _) => class,
        (None, Some(class)) => known(lattice, *class),
        (None, None) => lattice.bottom(),
    }
}

/// The class of each letvar of a program whose flows aren't allowed: the declared one, or that
/// which its flows reach.
fn reached_choice(alloc: Global, lattice: &Lattice, program: &Resolved<'_>) -> Made<Vec<Class>>
    requires { AreClasses (order lattice.now) (program_of program.now).declared }
    ensures kept { IfOk result (λ choice. IsChoice (program_of program.now) choice.items) }
    ensures classes { IfOk result (λ choice. All (IsClass (order lattice.now)) choice.items) }
{
    let classes = reached(alloc, lattice, program)?;
    let mut choice = Vec::new(alloc);
    let mut at = program.globals().len();
    for entry in program.letvars() {
        choice.push(class_for(lattice, entry, classes.get(at)))?;
        at = at.saturating_add(1);
    }
    Ok(choice)
}

/// A choice of classes for a program: the least one, or where the flows aren't allowed those that
/// are declared or reached.
fn choice_of(alloc: Global, source: &Source<'_>) -> Result<Vec<Class>, AllocError>
    ensures { IfOk result (λ choice.
        IsChosen (order source.now.lattice) (program_of source.now.resolved) choice.items) }
{
    let (lattice, program) = (source.lattice(), source.resolved());
    match infer_in(alloc, Profile::Base, lattice, program) {
        Ok(choice) => Ok(choice),
        Err(InferError::Refused(_)) => reached_choice(alloc, lattice, program),
        Err(InferError::Memory) => Err(AllocError),
    }
}

/// The class of each declaration of a program, globals first.
pub(crate) fn class_table(alloc: Global, source: &Source<'_>) -> Result<Vec<Class>, AllocError>
    ensures { IfOk result (λ table.
        IsTable (order source.now.lattice) (program_of source.now.resolved) table.items) }
{
    let choice = choice_of(alloc, source)?;
    let mut table = Vec::new(alloc);
    for global in source.resolved().globals() {
        table.push(global.class)?;
    }
    table.extend_from_slice(&choice)?;
    Ok(table)
}
