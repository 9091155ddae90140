//! The wanted steps of a program, gathered in one walk over it.

ghost use Rattle.std.specs.{Prelude.{◌≡◌, Bool, length, IfOk, [], true, false}, List.{All, Contains}};
ghost use Rattle.vsi_types.specs.{declared.rules.Step.{Step}, Security.{name_place, program as program_of, steps_of}, Walker.{walker_place}, declared.rules.Profile.{Profile}};
ghost use Rattle.vsi_scope.specs.{Language.{If, While, Letvar}, View.{expression, command, sequence}};
ghost use Rattle.vsi_infer.specs.FirstSteps.{HasRoom, Gathers, IsFrom, kept_of};

use crate::looking::{
    FirstSteps, Gathering, STRIDE, enter, look_ending, look_guards, look_reads, start,
};
use std::alloc::{AllocError, Global as Heap};
use vsi_scope::{Cmd, Entry, Ex, Resolved, Var};
use vsi_types::{Profile, Rule, Step, Walker, first_variables, put_reads};

/// A test for wanted steps, which are kept in columns: in each column the first from each variable.
pub(crate) trait Wanted {
    ghost wants: { Self → Step → Bool };

    fn is_wanted(&self, step: &Step) -> bool
        ensures { result ≡ wants self.now step.now };

    /// The number of columns.
    fn columns(&self) -> usize {
        1
    }

    /// Whether a wanted step belongs in a column.
    fn is_in(&self, _step: &Step, _column: usize) -> bool {
        true
    }
}

/// Gathers from a choice, and says whether it loops.
#[cycle(walk)]
fn gather_if<W: Wanted>(
    wanted: &W,
    profile: Profile,
    entries: &[Entry<'_>],
    first: u16,
    walk: &mut Walker,
    log: &mut Gathering,
    then_branch: &[Cmd],
    else_branch: &[Cmd],
    guard: &Ex,
) -> Result<bool, AllocError>
    requires { HasRoom first (length entries.now) (walker_place walk.old)
        (If (expression guard.now) (sequence then_branch.now) (sequence else_branch.now)) }
    ensures { Gathers (W.wants wanted.now) profile (name_place entries.now first)
        (walker_place walk.old) (kept_of log.old)
        (If (expression guard.now) (sequence then_branch.now) (sequence else_branch.now))
        (walker_place walk.new)
        (kept_of log.new) result }
{
    let turn = log.turn.wrapping_add(STRIDE);
    log.turn = turn;
    let around = log.around;
    let outside = walk.guards.len();
    put_reads(&mut walk.guards, &walk.scope, Rule::If, guard)?;
    enter(log, &walk.guards, outside);
    let one = gather_commands(wanted, profile, entries, first, walk, log, then_branch)?;
    let two = gather_commands(wanted, profile, entries, first, walk, log, else_branch)?;
    walk.guards.truncate(outside);
    log.around = around;
    look_ending(wanted, profile, log, &walk.scope, turn, one | two, guard)?;
    Ok(one | two)
}

/// Gathers from a loop.
#[cycle(walk)]
fn gather_while<W: Wanted>(
    wanted: &W,
    profile: Profile,
    entries: &[Entry<'_>],
    first: u16,
    walk: &mut Walker,
    log: &mut Gathering,
    body: &[Cmd],
    guard: &Ex,
) -> Result<bool, AllocError>
    requires { HasRoom first (length entries.now) (walker_place walk.old)
        (While (expression guard.now) (sequence body.now)) }
    ensures { Gathers (W.wants wanted.now) profile (name_place entries.now first)
        (walker_place walk.old) (kept_of log.old)
        (While (expression guard.now) (sequence body.now)) (walker_place walk.new)
        (kept_of log.new) result }
{
    let turn = log.turn.wrapping_add(STRIDE);
    log.turn = turn;
    look_ending(wanted, profile, log, &walk.scope, turn, true, guard)?;
    let around = log.around;
    let outside = walk.guards.len();
    put_reads(&mut walk.guards, &walk.scope, Rule::While, guard)?;
    enter(log, &walk.guards, outside);
    gather_commands(wanted, profile, entries, first, walk, log, body)?;
    walk.guards.truncate(outside);
    log.around = around;
    Ok(true)
}

/// Gathers from a letvar, and says whether it loops.
#[cycle(walk)]
fn gather_letvar<W: Wanted>(
    wanted: &W,
    profile: Profile,
    entries: &[Entry<'_>],
    first: u16,
    walk: &mut Walker,
    log: &mut Gathering,
    body: &[Cmd],
    value: &Ex,
) -> Result<bool, AllocError>
    requires { HasRoom first (length entries.now) (walker_place walk.old)
        (Letvar (expression value.now) (sequence body.now)) }
    ensures { Gathers (W.wants wanted.now) profile (name_place entries.now first)
        (walker_place walk.old) (kept_of log.old)
        (Letvar (expression value.now) (sequence body.now)) (walker_place walk.new)
        (kept_of log.new) result }
{
    log.turn = log.turn.wrapping_add(STRIDE);
    let variable = Var(walk.next);
    let written = entries[(walk.next - first) as usize].span;
    look_reads(
        wanted,
        log,
        variable,
        written,
        &walk.scope,
        Rule::Letvar,
        value,
    )?;
    let outside = walk.scope.len();
    walk.scope.push(variable)?;
    walk.next += 1;
    let looping = gather_commands(wanted, profile, entries, first, walk, log, body)?;
    walk.scope.truncate(outside);
    Ok(looping)
}

/// Gathers from the commands of a list, and says whether one loops.
#[cycle(walk)]
fn gather_commands<W: Wanted>(
    wanted: &W,
    profile: Profile,
    entries: &[Entry<'_>],
    first: u16,
    walk: &mut Walker,
    log: &mut Gathering,
    body: &[Cmd],
) -> Result<bool, AllocError>
    requires { HasRoom first (length entries.now) (walker_place walk.old) (sequence body.now) }
    ensures { Gathers (W.wants wanted.now) profile (name_place entries.now first)
        (walker_place walk.old) (kept_of log.old)
        (sequence body.now) (walker_place walk.new) (kept_of log.new) result }
{
    let mut looping = false;
    for c in body {
        let one = gather_command(wanted, profile, entries, first, walk, log, c)?;
        looping |= one;
    }
    Ok(looping)
}

/// Gathers from one command, and says whether it loops.
#[cycle(walk)]
fn gather_command<W: Wanted>(
    wanted: &W,
    profile: Profile,
    entries: &[Entry<'_>],
    first: u16,
    walk: &mut Walker,
    log: &mut Gathering,
    c: &Cmd,
) -> Result<bool, AllocError>
    requires { HasRoom first (length entries.now) (walker_place walk.old) (command c.now) }
    ensures { Gathers (W.wants wanted.now) profile (name_place entries.now first)
        (walker_place walk.old) (kept_of log.old)
        (command c.now) (walker_place walk.new) (kept_of log.new) result }
{
    match c {
        Cmd::Assign { loc, span, value } => {
            log.turn = log.turn.wrapping_add(STRIDE);
            let target = walk.scope[*loc as usize];
            let scope = &walk.scope;
            look_reads(wanted, log, target, *span, scope, Rule::Assign, value)?;
            look_guards(wanted, log, &walk.guards, target, *span)?;
            Ok(false)
        }
        Cmd::If { guard, yes, no } => gather_if(
            wanted, profile, entries, first, walk, log, yes, no, guard,
        ),
        Cmd::While { guard, body } => gather_while(
            wanted, profile, entries, first, walk, log, body, guard,
        ),
        Cmd::Letvar { value, body } => gather_letvar(
            wanted, profile, entries, first, walk, log, body, value,
        ),
    }
}

/// Gathers from a program: the first wanted step from each variable, or one of all wanted steps.
pub(crate) fn gather<W: Wanted>(
    alloc: Heap,
    profile: Profile,
    program: &Resolved<'_>,
    wanted: &W,
    every: bool,
) -> Result<FirstSteps, AllocError>
    ensures { IfOk result (λ f. IsFrom (W.wants wanted.now)
        (steps_of profile (program_of program.now)) (record { steps = []; every = every })
        (record { steps = f.steps.items; every = every })) }
{
    let body = program.body();
    let first = program.globals().len() as u16;
    let count = first + program.letvars().len() as u16;
    let mut walk = Walker {
        scope: first_variables(alloc, first)?,
        guards: Vec::new(alloc),
        next: first,
    };
    let mut log = start(alloc, count, wanted.columns(), every)?;
    gather_commands(
        wanted,
        profile,
        program.letvars(),
        first,
        &mut walk,
        &mut log,
        body,
    )?;
    let Gathering { kept, .. } = log;
    Ok(kept)
}

/// The first wanted step from each variable of a program.
pub(crate) fn first_steps<W: Wanted>(
    alloc: Heap,
    profile: Profile,
    program: &Resolved<'_>,
    wanted: &W,
) -> Result<FirstSteps, AllocError>
    ensures { IfOk result
        (λ f. All (Contains (steps_of profile (program_of program.now))) f.steps.items) }
{
    let kept = gather(alloc, profile, program, wanted, false)?;
    Ok(kept)
}
