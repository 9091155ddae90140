//! The check of a program under a choice of classes: a walk over its flow steps in order.

ghost use Rattle.std.specs.{Prelude.{◌+◌, ◌≤◌, length, ◌≡◌, Err, IfErr, OnOk}, List.{All}};
ghost use Rattle.vsi_lattice.specs.Order.{IsClass};
ghost use Rattle.vsi_scope.specs.{Language.{letvars, HasPlaces}, View.{command, sequence}, Limits.{max_declarations}};
ghost use Rattle.vsi_types.specs.{Security.{class_of, IsChoice, IsTypable, program as program_of}, Checking.{Judged, TellsWhy}, Walker.{walker_place}, declared.rules.CheckError.TheVariants.{Memory, WrongChoice}, declared.rules.Profile.TheVariants.{Base}};

use crate::rules::{CheckError, Profile, Rule, class_table, is_choice};
use crate::walker::{
    Walker, check_choice, check_guards, check_loop, check_reads, first_variables, put_reads,
};
use std::alloc::Global as Heap;
use vsi_lattice::{Class, Classes};
use vsi_scope::{Cmd, Resolved, Var};

/// Checks the commands of a list, one after another.
#[cycle(walk)]
pub(crate) fn check_commands<C: Classes>(
    lattice: &C,
    profile: Profile,
    table: &[Class],
    walk: &mut Walker,
    body: &[Cmd],
) -> Result<(), CheckError>
    requires classes { All (IsClass (C.lattice lattice.now)) table.now }
    requires places { HasPlaces (length walk.old.scope.items) (sequence body.now) }
    requires limit { walk.old.next + letvars (sequence body.now) ≤ max_declarations }
    ensures { Judged (C.lattice lattice.now) profile (class_of (C.lattice lattice.now) table.now)
        (walker_place walk.old)
        (sequence body.now) (walker_place walk.new) result }
{
    for c in body {
        check_command(lattice, profile, table, walk, c)?;
    }
    Ok(())
}

/// Checks one command.
#[cycle(walk)]
fn check_command<C: Classes>(
    lattice: &C,
    profile: Profile,
    table: &[Class],
    walk: &mut Walker,
    c: &Cmd,
) -> Result<(), CheckError>
    requires classes { All (IsClass (C.lattice lattice.now)) table.now }
    requires places { HasPlaces (length walk.old.scope.items) (command c.now) }
    requires limit { walk.old.next + letvars (command c.now) ≤ max_declarations }
    ensures { Judged (C.lattice lattice.now) profile (class_of (C.lattice lattice.now) table.now)
        (walker_place walk.old)
        (command c.now) (walker_place walk.new) result }
{
    match c {
        Cmd::Assign { loc, value, .. } => {
            let target = walk.scope[*loc as usize];
            check_reads(lattice, table, target, &walk.scope, Rule::Assign, value)?;
            check_guards(lattice, table, target, &walk.guards)?;
            Ok(())
        }
        Cmd::If { guard, yes, no } => {
            check_choice(lattice, profile, table, &walk.scope, yes, no, guard)?;
            let outside = walk.guards.len();
            put_reads(&mut walk.guards, &walk.scope, Rule::If, guard)?;
            check_commands(lattice, profile, table, walk, yes)?;
            check_commands(lattice, profile, table, walk, no)?;
            walk.guards.truncate(outside);
            Ok(())
        }
        Cmd::While { guard, body } => {
            check_loop(lattice, profile, table, &walk.scope, guard)?;
            let outside = walk.guards.len();
            put_reads(&mut walk.guards, &walk.scope, Rule::While, guard)?;
            check_commands(lattice, profile, table, walk, body)?;
            walk.guards.truncate(outside);
            Ok(())
        }
        Cmd::Letvar { value, body } => {
            let variable = Var(walk.next);
            check_reads(lattice, table, variable, &walk.scope, Rule::Letvar, value)?;
            let outside = walk.scope.len();
            walk.scope.push(variable)?;
            walk.next += 1;
            check_commands(lattice, profile, table, walk, body)?;
            walk.scope.truncate(outside);
            Ok(())
        }
    }
}

/// Checks a program under a profile, with the given classes for its `letvar`s in source order.
///
/// The result is `WrongChoice` if the number of classes differs from the number of `letvar`s or if
/// a declared class is changed, else `Flow` for the first flow step that isn't in order, else Ok.
pub fn check_in<C: Classes>(
    alloc: Heap,
    profile: Profile,
    lattice: &C,
    program: &Resolved<'_>,
    choice: &[Class],
) -> Result<(), CheckError>
    requires globals { All (IsClass (C.lattice lattice.now)) (program_of program.now).globals }
    requires choice { All (IsClass (C.lattice lattice.now)) choice.now }
    ensures typable { OnOk result
        (IsTypable (C.lattice lattice.now) profile (program_of program.now) choice.now) }
    ensures complete { let p = program_of program.now in
        IsTypable (C.lattice lattice.now) profile p choice.now → IfErr result (λ e. e ≡ Memory) }
    ensures wrong { (IsChoice (program_of program.now) choice.now → ⊥) → result ≡ Err WrongChoice }
    ensures refused { IfErr result
        (TellsWhy (C.lattice lattice.now) profile (program_of program.now) choice.now) }
{
    if !is_choice(program.letvars(), choice) {
        return Err(CheckError::WrongChoice);
    }
    let body = program.body();
    let globals = program.globals();
    let count = globals.len() as u16;
    let table = class_table(alloc, globals, choice)?;
    let mut walk = Walker {
        scope: first_variables(alloc, count)?,
        guards: Vec::new(alloc),
        next: count,
    };
    check_commands(lattice, profile, &table, &mut walk, body)
}

/// Checks a program under the base profile, like `check_in`.
pub fn check<C: Classes>(
    alloc: Heap,
    lattice: &C,
    program: &Resolved<'_>,
    choice: &[Class],
) -> Result<(), CheckError>
    requires globals { All (IsClass (C.lattice lattice.now)) (program_of program.now).globals }
    requires choice { All (IsClass (C.lattice lattice.now)) choice.now }
    ensures typable { OnOk result
        (IsTypable (C.lattice lattice.now) Base (program_of program.now) choice.now) }
    ensures complete { let p = program_of program.now in
        IsTypable (C.lattice lattice.now) Base p choice.now → IfErr result (λ e. e ≡ Memory) }
    ensures wrong { (IsChoice (program_of program.now) choice.now → ⊥) → result ≡ Err WrongChoice }
    ensures refused { IfErr result
        (TellsWhy (C.lattice lattice.now) Base (program_of program.now) choice.now) }
{
    check_in(alloc, Profile::Base, lattice, program, choice)
}
