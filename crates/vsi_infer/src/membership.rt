//! Whether a step is one of a program's, found in one walk over its commands without allocation.

ghost use Rattle.std.specs.Prelude.{◌≡◌, ◌+◌, length};
ghost use Rattle.vsi_scope.specs.{Language.{HasLocations, If, While, Letvar}, View.{expression, command, sequence}};
ghost use Rattle.vsi_types.specs.Security.{name_place};
ghost use Rattle.vsi_infer.specs.Membership.{same_step as same_step_of, same_span as same_span_of, read_is as read_is_of, written_is as written_is_of, reads_pass as reads_pass_of, ends_pass as ends_pass_of, IsFor, IsPast, stand_of};

use crate::flows::{observes_ending, same_rule};
use arrayvec::ArrayVec;
use vsi_scope::{Cmd, Entry, Ex};
use vsi_syntax::Span;
use vsi_types::{LOOP, Profile, Rule, Step, loops};

/// The capacity for locations: more than are ever in scope at once.
pub(crate) const SCOPE: usize = 512;

/// The variable of each location, and the next declaration's number.
#[derive(Drop)]
pub(crate) struct Cursor {
    pub(crate) scope: ArrayVec<u16, SCOPE>,
    pub(crate) next: u16,
}

/// Whether two spans are equal.
fn same_span(first: Span, second: Span) -> bool
    ensures { result ≡ same_span_of first second }
{
    first.start == second.start && first.stop == second.stop
}

/// Whether the step reads this variable at this span by this rule.
fn read_is(step: &Step, rule: Rule, variable: u16, place: Span) -> bool
    ensures { result ≡ read_is_of step.now rule variable place }
{
    same_rule(rule, step.rule) && (variable == step.source.0 && same_span(place, step.read))
}

/// Whether the step writes this variable at this span.
fn written_is(step: &Step, variable: u16, place: Span) -> bool
    ensures { result ≡ written_is_of step.now variable place }
{
    variable == step.target.0 && same_span(place, step.written)
}

/// Whether two steps are equal.
pub(crate) fn same_step(step: &Step, other: &Step) -> bool
    ensures { result ≡ same_step_of step.now other.now }
{
    read_is(step, other.rule, other.source.0, other.read)
        && written_is(step, other.target.0, other.written)
}

/// Whether the step reads a variable that an expression reads.
fn reads_pass(step: &Step, rule: Rule, scope: &[u16], e: &Ex) -> bool
    requires { HasLocations (length scope.now) (expression e.now) }
    ensures { result ≡ reads_pass_of step.now rule scope.now (expression e.now) }
{
    match e {
        Ex::Num(_) => false,
        Ex::Loc(l, place) => read_is(step, rule, scope[*l as usize], *place),
        Ex::Op(_, a, b) => reads_pass(step, rule, scope, a) || reads_pass(step, rule, scope, b),
    }
}

/// Whether the step goes from a variable that an expression reads to the ending of a loop.
fn ends_pass(step: &Step, scope: &[u16], e: &Ex) -> bool
    requires { HasLocations (length scope.now) (expression e.now) }
    ensures { result ≡ ends_pass_of step.now scope.now (expression e.now) }
{
    match e {
        Ex::Num(_) => false,
        Ex::Loc(l, place) => {
            read_is(step, Rule::Loop, scope[*l as usize], *place)
                && written_is(step, LOOP.0, *place)
        }
        Ex::Op(_, a, b) => ends_pass(step, scope, a) || ends_pass(step, scope, b),
    }
}

/// Whether the step is one of the choice's.
#[cycle(walk)]
fn pass_if(
    cursor: &mut Cursor,
    step: &Step,
    profile: Profile,
    entries: &[Entry<'_>],
    first: u16,
    around: bool,
    then_branch: &[Cmd],
    else_branch: &[Cmd],
    guard: &Ex,
) -> bool
    requires { IsFor first (length entries.now) (stand_of cursor.old)
        (If (expression guard.now) (sequence then_branch.now) (sequence else_branch.now)) }
    ensures { IsPast step.now profile (name_place entries.now first) around (stand_of cursor.old)
        (If (expression guard.now) (sequence then_branch.now) (sequence else_branch.now))
        (stand_of cursor.new) result }
{
    let ends = ends_pass(step, &cursor.scope, guard)
        && observes_ending(profile, loops(then_branch) || loops(else_branch));
    let inner = around || reads_pass(step, Rule::If, &cursor.scope, guard);
    let one = pass_commands(cursor, step, profile, entries, first, inner, then_branch);
    let two = pass_commands(cursor, step, profile, entries, first, inner, else_branch);
    ends | (one | two)
}

/// Whether the step is one of the loop's.
#[cycle(walk)]
fn pass_while(
    cursor: &mut Cursor,
    step: &Step,
    profile: Profile,
    entries: &[Entry<'_>],
    first: u16,
    around: bool,
    body: &[Cmd],
    guard: &Ex,
) -> bool
    requires { IsFor first (length entries.now) (stand_of cursor.old)
        (While (expression guard.now) (sequence body.now)) }
    ensures { IsPast step.now profile (name_place entries.now first) around (stand_of cursor.old)
        (While (expression guard.now) (sequence body.now)) (stand_of cursor.new) result }
{
    let ends = ends_pass(step, &cursor.scope, guard) && observes_ending(profile, true);
    let inner = around || reads_pass(step, Rule::While, &cursor.scope, guard);
    let one = pass_commands(cursor, step, profile, entries, first, inner, body);
    ends | one
}

/// Whether the step is one of the letvar's.
#[cycle(walk)]
fn pass_letvar(
    cursor: &mut Cursor,
    step: &Step,
    profile: Profile,
    entries: &[Entry<'_>],
    first: u16,
    around: bool,
    body: &[Cmd],
    value: &Ex,
) -> bool
    requires { IsFor first (length entries.now) (stand_of cursor.old)
        (Letvar (expression value.now) (sequence body.now)) }
    ensures { IsPast step.now profile (name_place entries.now first) around (stand_of cursor.old)
        (Letvar (expression value.now) (sequence body.now)) (stand_of cursor.new) result }
{
    let variable = cursor.next;
    let written = entries[(cursor.next - first) as usize].span;
    let here = reads_pass(step, Rule::Letvar, &cursor.scope, value)
        && written_is(step, variable, written);
    let outside = cursor.scope.len();
    cursor.scope.push(variable);
    cursor.next += 1;
    let one = pass_commands(cursor, step, profile, entries, first, around, body);
    cursor.scope.truncate(outside);
    here | one
}

/// Whether the step is one of the commands'.
#[cycle(walk)]
pub(crate) fn pass_commands(
    cursor: &mut Cursor,
    step: &Step,
    profile: Profile,
    entries: &[Entry<'_>],
    first: u16,
    around: bool,
    body: &[Cmd],
) -> bool
    requires { IsFor first (length entries.now) (stand_of cursor.old) (sequence body.now) }
    ensures { IsPast step.now profile (name_place entries.now first) around (stand_of cursor.old)
        (sequence body.now) (stand_of cursor.new) result }
{
    let mut found = false;
    for c in body {
        let one = pass_command(cursor, step, profile, entries, first, around, c);
        found |= one;
    }
    found
}

/// Whether the step is one of the command's.
#[cycle(walk)]
fn pass_command(
    cursor: &mut Cursor,
    step: &Step,
    profile: Profile,
    entries: &[Entry<'_>],
    first: u16,
    around: bool,
    c: &Cmd,
) -> bool
    requires { IsFor first (length entries.now) (stand_of cursor.old) (command c.now) }
    ensures { IsPast step.now profile (name_place entries.now first) around (stand_of cursor.old)
        (command c.now)
        (stand_of cursor.new) result }
{
    match c {
        Cmd::Assign { loc, span, value } => {
            let target = cursor.scope[*loc as usize];
            (reads_pass(step, Rule::Assign, &cursor.scope, value) || around)
                && written_is(step, target, *span)
        }
        Cmd::If { guard, yes, no } => pass_if(
            cursor, step, profile, entries, first, around, yes, no, guard,
        ),
        Cmd::While { guard, body } => pass_while(
            cursor, step, profile, entries, first, around, body, guard,
        ),
        Cmd::Letvar { value, body } => pass_letvar(
            cursor, step, profile, entries, first, around, body, value,
        ),
    }
}
