//! Walks, the steps of a program that lead along one, and the test for bad ones.

ghost use Rattle.std.specs.{Prelude.{IfOk, ◌≡◌, ◌≤◌, ◌↔◌, ℕ, true, length, Some, IfSome, IfNone, IsTrue}, List.{All, Contains, list_any}};
ghost use Rattle.vsi_types.specs.{Security.{program as program_of, steps_of, count_from}, Walks.{IsBad, declared_class as declared_class_of}, declared.rules.Profile.TheVariants.{Base}, declared.rules.Step.{Step}};
ghost use Rattle.vsi_infer.specs.{FirstSteps.{goes_along}, Inference.{AreClasses}, Membership.{same_step as same_step_of}, Paths.{IsPath}};
ghost use Rattle.vsi_lattice.specs.Order.{IsClass};

use crate::gathering::{Wanted, first_steps};
use crate::membership::{Cursor, SCOPE, pass_commands, same_step};
use arrayvec::ArrayVec;
use std::alloc::{AllocError, Global as Heap};
use vsi_lattice::{Class, Classes};
use vsi_scope::{Resolved, Var};
use vsi_types::{LOOP, Profile, Step};

/// The target of a variable that the walk doesn't leave.
const NOWHERE: u16 = 65534;

/// The steps that lead to the walk's target for their source.
#[derive(Drop)]
pub(crate) struct Along {
    /// For each variable, the next variable of the walk.
    targets: Vec<u16>,
}

impl Wanted for Along {
    ghost wants = { λ w s. goes_along w.targets.items s };

    fn is_wanted(&self, step: &Step) -> bool {
        let source = step.source.0 as usize;
        source < self.targets.len() && self.targets[source] == step.target.0
    }
}

/// For each step of a walk, the program's first step from its source to the walk's next variable,
/// up to the first step of the walk that has none.
pub(crate) fn steps_along(
    alloc: Heap,
    profile: Profile,
    program: &Resolved<'_>,
    walk: &[Step],
) -> Result<Vec<Step>, AllocError>
    ensures { IfOk result
        (λ v. All (Contains (steps_of profile (program_of program.now))) v.items) }
{
    let mut targets = vec![in alloc; NOWHERE; 1024]?;
    for known in walk {
        let source = known.source.0 as usize;
        if source < targets.len() {
            targets[source] = known.target.0;
        }
    }
    let kept = first_steps(alloc, profile, program, &Along { targets })?;
    let mut known = Vec::new(alloc);
    for step in walk {
        let Some(first) = kept.from_source(step.source, 0) else {
            return Ok(known);
        };
        known.push(first)?;
    }
    Ok(known)
}

/// Flow steps in the order in which they are walked. A walk that `infer` answers is bad. A walk
/// made elsewhere may be anything; `check_walk` decides whether it is bad.
#[derive(Debug, Drop)]
pub struct Walk {
    pub steps: Vec<Step>,
}

/// The numbers of the globals.
fn first_numbers(count: u16) -> ArrayVec<u16, SCOPE>
    requires { count ≤ 256 }
    ensures { result.items ≡ count_from 0 count }
{
    let mut scope = ArrayVec::new();
    for i in 0..count {
        scope.push(i);
    }
    scope
}

/// Whether the step is one of the program's.
fn is_step(profile: Profile, program: &Resolved<'_>, step: &Step) -> bool
    ensures { result ≡ list_any (same_step_of step.now)
        (steps_of profile (program_of program.now)) }
{
    let body = program.body();
    let first = program.globals().len() as u16;
    let mut cursor = Cursor {
        scope: first_numbers(first),
        next: first,
    };
    pass_commands(
        &mut cursor,
        step,
        profile,
        program.letvars(),
        first,
        false,
        body,
    )
}

/// Whether the step is one of the program's, if the proposed one is.
fn is_step_or(profile: Profile, program: &Resolved<'_>, proposed: Option<Step>, step: &Step) -> bool
    requires { IfSome proposed (Contains (steps_of profile (program_of program.now))) }
    ensures { result ≡ list_any (same_step_of step.now)
        (steps_of profile (program_of program.now)) }
{
    if let Some(other) = proposed {
        if same_step(step, &other) {
            return true;
        }
    }
    is_step(profile, program, step)
}

/// The step at an index, if there is one.
fn step_at(steps: &[Step], place: usize) -> Option<Step>
    ensures { IfSome result (Contains steps.now) }
{
    steps.get(place).copied()
}

/// The variable to which the steps lead from this one, if each is the program's and continues the
/// one before it. A step is looked for in the program unless it is the known step at its index.
fn path_end(
    profile: Profile,
    program: &Resolved<'_>,
    known: &[Step],
    steps: &[Step],
    from: Var,
) -> Option<Var>
    requires { All (Contains (steps_of profile (program_of program.now))) known.now }
    ensures some { IfSome result
        (λ b. IsPath (steps_of profile (program_of program.now)) from steps.now b) }
    ensures none { IfNone result
        ((b : ℕ) → IsPath (steps_of profile (program_of program.now)) from steps.now b → ⊥) }
{
    let mut at = from;
    let mut place: usize = 0;
    for step in steps {
        if step.source != at {
            return None;
        }
        if !is_step_or(profile, program, step_at(known, place), step) {
            return None;
        }
        at = step.target;
        place = place.wrapping_add(1);
    }
    Some(at)
}

/// The declared class of a variable, and the bottom class for the loops' ending.
pub fn declared_class<C: Classes>(
    lattice: &C,
    program: &Resolved<'_>,
    variable: Var,
) -> Option<Class>
    ensures { result ≡ declared_class_of (C.lattice lattice.now) (program_of program.now) variable }
{
    if variable == LOOP {
        return Some(lattice.bottom());
    }
    let number = variable.0 as usize;
    let globals = program.globals();
    if number < globals.len() {
        return Some(globals[number].class);
    }
    match program.letvars().get(number - globals.len()) {
        Some(entry) => entry.class,
        None => None,
    }
}

/// Whether a walk is bad; the known steps must be the program's.
fn check_known<C: Classes>(
    profile: Profile,
    lattice: &C,
    program: &Resolved<'_>,
    known: &[Step],
    walk: &Walk,
) -> bool
    requires globals { All (IsClass (C.lattice lattice.now)) (program_of program.now).globals }
    requires declared { AreClasses (C.lattice lattice.now) (program_of program.now).declared }
    requires known { All (Contains (steps_of profile (program_of program.now))) known.now }
    ensures { IsTrue result
        ↔ IsBad (C.lattice lattice.now) profile (program_of program.now) walk.now.steps.items }
{
    let steps = walk.steps.as_slice();
    let Some(first) = steps.first() else {
        return false;
    };
    let Some(last) = path_end(profile, program, known, steps, first.source) else {
        return false;
    };
    let Some(low) = declared_class(lattice, program, first.source) else {
        return false;
    };
    let Some(high) = declared_class(lattice, program, last) else {
        return false;
    };
    !lattice.leq(low, high)
}

/// Whether a walk is bad under a profile: its steps are the program's, each begins where the one
/// before it ended, and the declared class of the first source isn't at or below that of the last
/// target. It allocates nothing.
pub fn check_walk_in<C: Classes>(
    profile: Profile,
    lattice: &C,
    program: &Resolved<'_>,
    walk: &Walk,
) -> bool
    requires globals { All (IsClass (C.lattice lattice.now)) (program_of program.now).globals }
    requires declared { AreClasses (C.lattice lattice.now) (program_of program.now).declared }
    ensures { IsTrue result
        ↔ IsBad (C.lattice lattice.now) profile (program_of program.now) walk.now.steps.items }
{
    check_known(profile, lattice, program, &[], walk)
}

/// The same test with allocation. One walk over the program is enough if each step is the program's
/// first one from its source to its target and no source occurs twice, as in the walks that
/// `infer_in` answers.
pub fn check_walk_once<C: Classes>(
    alloc: Heap,
    profile: Profile,
    lattice: &C,
    program: &Resolved<'_>,
    walk: &Walk,
) -> Result<bool, AllocError>
    requires globals { All (IsClass (C.lattice lattice.now)) (program_of program.now).globals }
    requires declared { AreClasses (C.lattice lattice.now) (program_of program.now).declared }
    ensures { IfOk result (λ b. IsTrue b ↔
        IsBad (C.lattice lattice.now) profile (program_of program.now) walk.now.steps.items) }
{
    let known = steps_along(alloc, profile, program, &walk.steps)?;
    Ok(check_known(profile, lattice, program, &known, walk))
}

/// Whether a walk is bad.
pub fn check_walk<C: Classes>(lattice: &C, program: &Resolved<'_>, walk: &Walk) -> bool
    requires globals { All (IsClass (C.lattice lattice.now)) (program_of program.now).globals }
    requires declared { AreClasses (C.lattice lattice.now) (program_of program.now).declared }
    ensures { IsTrue result
        ↔ IsBad (C.lattice lattice.now) Base (program_of program.now) walk.now.steps.items }
{
    check_walk_in(Profile::Base, lattice, program, walk)
}
