//! State shared by walks over a program, and the flows that expressions and guards have.

ghost use Rattle.std.specs.{Prelude.{◌≡◌, ◌++◌, length, IfOk, if◌then◌else◌, is_ok, ◌||◌, true}, List.{All}};
ghost use Rattle.vsi_scope.specs.{Language.{has_loop, HasLocations}, View.{expression, command, sequence}};
ghost use Rattle.vsi_types.specs.{Security.{count_from, class_of}, Steps.{reads, guarded, endings}, Checking.{FlowsJudged, StepsJudged}};
ghost use Rattle.vsi_lattice.specs.Order.{IsClass};

use crate::rules::{FlowFault, Guard, LOOP, Profile, Read, Rule};
use std::alloc::{AllocError, Global as Heap};
use vsi_lattice::{Class, Classes};
use vsi_scope::{Cmd, Ex, Var};

/// The position of a walk over the commands of a program in source order.
#[derive(Drop)]
pub struct Walker {
    /// The variable of each location in scope.
    pub scope: Vec<Var>,
    /// The reads of the enclosing guards, the outermost first.
    pub guards: Vec<Guard>,
    /// The number of declarations before this position.
    pub next: u16,
}

/// The scope at the start of a program: the variables of its globals, by their number.
pub fn first_variables(alloc: Heap, count: u16) -> Result<Vec<Var>, AllocError>
    ensures { IfOk result (λ s. s.items ≡ count_from 0 count) }
{
    let mut scope = Vec::new(alloc);
    for i in 0..count {
        scope.push(Var(i))?;
    }
    Ok(scope)
}

/// Appends the reads of an expression, in source order, to the guards under a rule; the scope gives
/// the variable of each location. If memory runs out, the guards are unchanged.
pub fn put_reads(
    guards: &mut Vec<Guard>,
    scope: &[Var],
    rule: Rule,
    e: &Ex,
) -> Result<(), AllocError>
    requires { HasLocations (length scope.now) (expression e.now) }
    ensures { guards.new.items ≡ (if is_ok result
        then guards.old.items
        ++ guarded rule (reads scope.now (expression e.now)) else guards.old.items) }
{
    match e {
        Ex::Num(_) => Ok(()),
        Ex::Loc(l, place) => {
            guards.push(Guard {
                rule,
                read: Read {
                    variable: scope[*l as usize],
                    place: *place,
                },
            })?;
            Ok(())
        }
        Ex::Op(_, a, b) => {
            let before = guards.len();
            put_reads(guards, scope, rule, a)?;
            let added = put_reads(guards, scope, rule, b);
            if added.is_err() {
                guards.truncate(before);
            }
            added
        }
    }
}

/// Whether the commands contain a loop, at any depth.
#[cycle(loops)]
pub fn loops(body: &[Cmd]) -> bool
    ensures { result ≡ has_loop (sequence body.now) }
{
    for c in body {
        if loops_in(c) {
            return true;
        }
    }
    false
}

/// Whether the command contains a loop, at any depth.
#[cycle(loops)]
fn loops_in(c: &Cmd) -> bool
    ensures { result ≡ has_loop (command c.now) }
{
    match c {
        Cmd::Assign { .. } => false,
        Cmd::If { yes, no, .. } => loops(yes) || loops(no),
        Cmd::While { .. } => true,
        Cmd::Letvar { body, .. } => loops(body),
    }
}

/// The class of a declaration; the ending of a loop has the bottom class.
fn class_of<C: Classes>(lattice: &C, table: &[Class], variable: Var) -> Class
    ensures { result ≡ class_of (C.lattice lattice.now) table.now variable }
{
    if variable.0 == LOOP.0 {
        lattice.bottom()
    } else {
        match table.get(variable.0 as usize) {
            Some(class) => *class,
            None => Class::at(0),
        }
    }
}

/// Whether a variable that is read may flow into the target.
fn may_flow<C: Classes>(lattice: &C, table: &[Class], source: Var, target: Var) -> bool
    requires { All (IsClass (C.lattice lattice.now)) table.now }
    ensures { let classes = class_of (C.lattice lattice.now) table.now in
        result ≡ (C.lattice lattice.now).leq (classes source) (classes target) }
{
    lattice.leq(
        class_of(lattice, table, source),
        class_of(lattice, table, target),
    )
}

/// Whether every guard may flow into the target.
pub(crate) fn check_guards<C: Classes>(
    lattice: &C,
    table: &[Class],
    target: Var,
    guards: &[Guard],
) -> Result<(), FlowFault>
    requires { All (IsClass (C.lattice lattice.now)) table.now }
    ensures { let classes = class_of (C.lattice lattice.now) table.now in
        FlowsJudged (C.lattice lattice.now) classes target guards.now result }
{
    for g in guards {
        if !may_flow(lattice, table, g.read.variable, target) {
            return Err(FlowFault {
                rule: g.rule,
                span: g.read.place,
                source: g.read.variable,
                target,
            });
        }
    }
    Ok(())
}

/// Whether every variable that an expression reads may flow into the target.
pub(crate) fn check_reads<C: Classes>(
    lattice: &C,
    table: &[Class],
    target: Var,
    scope: &[Var],
    rule: Rule,
    e: &Ex,
) -> Result<(), FlowFault>
    requires classes { All (IsClass (C.lattice lattice.now)) table.now }
    requires places { HasLocations (length scope.now) (expression e.now) }
    ensures { let classes = class_of (C.lattice lattice.now) table.now in
        FlowsJudged (C.lattice lattice.now) classes target
        (guarded rule (reads scope.now (expression e.now))) result }
{
    match e {
        Ex::Num(_) => Ok(()),
        Ex::Loc(l, place) => {
            let source = scope[*l as usize];
            if may_flow(lattice, table, source, target) {
                Ok(())
            } else {
                Err(FlowFault {
                    rule,
                    span: *place,
                    source,
                    target,
                })
            }
        }
        Ex::Op(_, a, b) => {
            check_reads(lattice, table, target, scope, rule, a)?;
            check_reads(lattice, table, target, scope, rule, b)
        }
    }
}

/// Whether the variables that the guard of a loop reads may influence how the loop ends.
pub(crate) fn check_loop<C: Classes>(
    lattice: &C,
    profile: Profile,
    table: &[Class],
    scope: &[Var],
    guard: &Ex,
) -> Result<(), FlowFault>
    requires classes { All (IsClass (C.lattice lattice.now)) table.now }
    requires places { HasLocations (length scope.now) (expression guard.now) }
    ensures { let classes = class_of (C.lattice lattice.now) table.now in
        StepsJudged (C.lattice lattice.now) classes
        (endings profile true (reads scope.now (expression guard.now))) result }
{
    match profile {
        Profile::Base => Ok(()),
        Profile::Strict => check_reads(lattice, table, LOOP, scope, Rule::Loop, guard),
    }
}

/// Whether the variables that the guard of a choice reads may influence how the loops in its
/// branches end.
pub(crate) fn check_choice<C: Classes>(
    lattice: &C,
    profile: Profile,
    table: &[Class],
    scope: &[Var],
    then_branch: &[Cmd],
    else_branch: &[Cmd],
    guard: &Ex,
) -> Result<(), FlowFault>
    requires classes { All (IsClass (C.lattice lattice.now)) table.now }
    requires places { HasLocations (length scope.now) (expression guard.now) }
    ensures { let looping = has_loop (sequence then_branch.now) || has_loop
        (sequence else_branch.now) in
        StepsJudged (C.lattice lattice.now) (class_of (C.lattice lattice.now) table.now)
        (endings profile looping (reads scope.now (expression guard.now))) result }
{
    match profile {
        Profile::Base => Ok(()),
        Profile::Strict => {
            if loops(then_branch) || loops(else_branch) {
                check_loop(lattice, profile, table, scope, guard)
            } else {
                Ok(())
            }
        }
    }
}
