//! The steps that a walk over a program keeps: the first wanted step from each variable, for each
//! of a test's columns.
//!
//! A search for one step goes over all flow steps of a program, and there are as many as guards
//! times assignments. This walk looks at each pair of variables once. Among the guards in force
//! that read a variable, only the first can give its first step to a target, and a row of bits
//! records which variables the guards read. The contracts promise that a kept step is one of the
//! program's steps and wanted. They don't promise that it is the first from its variable. Callers
//! test what they need, and if a test fails they walk over the program once more and look at every
//! step.

ghost use Rattle.std.specs.{Prelude.{◌≡◌, ◌≤◌, ◌∷◌, [], true, false, length, OnOk, IfOk, IfSome}, List.{Contains}};
ghost use Rattle.vsi_scope.specs.{Language.{HasLocations}, View.{expression}};
ghost use Rattle.vsi_types.specs.{Steps.{reads, guarded, flow, flows, endings}, declared.rules.Profile.TheVariants.{Strict}};
ghost use Rattle.vsi_infer.specs.FirstSteps.{kept_of, IsAmong, IsFrom, MayKeep};

use crate::flows::{has_bit, note, observes_ending};
use crate::gathering::Wanted;
use std::alloc::{AllocError, Global as Heap};
use vsi_scope::{Ex, Var};
use vsi_syntax::Span;
use vsi_types::{Guard, LOOP, Profile, Rule, Step};

/// The distance between the turns of two commands; it is larger than the number of guards.
pub(crate) const STRIDE: u64 = 4_294_967_296;

/// The first wanted step from each variable, in each column of a test.
#[derive(Drop)]
pub struct FirstSteps {
    /// The steps that were kept.
    pub(crate) steps: Vec<Step>,
    /// The turns of the kept steps, which give their order in the program.
    turns: Vec<u64>,
    /// The number of variables.
    width: usize,
    /// For each column and each variable, the index of its step in `steps`, or an index past the
    /// end.
    places: Vec<usize>,
}

/// The state of a gathering walk at its current place.
#[derive(Drop)]
pub(crate) struct Gathering {
    pub(crate) kept: FirstSteps,
    /// For each target, a row of the sources that were looked at.
    seen: Vec<u64>,
    /// The variables that the guards in force read.
    pub(crate) around: [u64; 16],
    /// For each of these variables, the index of the first guard that reads it.
    guarding: Vec<usize>,
    /// The turn of the current command.
    pub(crate) turn: u64,
    /// Whether every step is looked at and one wanted step is kept.
    every: bool,
}

impl FirstSteps {
    /// The step that is kept for a source in a column.
    pub(crate) fn from_source(&self, source: Var, column: usize) -> Option<Step>
        ensures { IfSome result (Contains self.now.steps.items) }
    {
        match self.places.get(place_of(self.width, column, source)) {
            Some(place) => self.at(*place),
            None => None,
        }
    }

    /// The first of the kept steps.
    pub(crate) fn earliest(&self) -> Option<Step>
        ensures { IfSome result (Contains self.now.steps.items) }
    {
        let mut best = 0;
        let mut least = u64::MAX;
        for i in 0..self.turns.len() {
            if self.turns[i] < least {
                least = self.turns[i];
                best = i;
            }
        }
        self.at(best)
    }

    /// The step at an index.
    fn at(&self, place: usize) -> Option<Step>
        ensures { IfSome result (Contains self.now.steps.items) }
    {
        self.steps.get(place).copied()
    }
}

/// The index of a variable's place in a column, or one past the end.
fn place_of(width: usize, column: usize, source: Var) -> usize {
    let place = source.0 as usize;
    if place >= width {
        return usize::MAX;
    }
    column.saturating_mul(width).saturating_add(place)
}

/// An empty state for `count` variables and a number of columns.
pub(crate) fn start(
    alloc: Heap,
    count: u16,
    columns: usize,
    every: bool,
) -> Result<Gathering, AllocError>
    ensures kept { IfOk result (λ g. g.kept.steps.items ≡ []) }
    ensures every { IfOk result (λ g. g.every ≡ every) }
{
    let kept = FirstSteps {
        steps: Vec::new(alloc),
        turns: Vec::new(alloc),
        width: count as usize,
        places: vec![in alloc; usize::MAX; columns.saturating_mul(count as usize)]?,
    };
    Ok(Gathering {
        kept,
        seen: vec![in alloc; 0; count as usize * 16]?,
        around: [0; 16],
        guarding: vec![in alloc; 0; count as usize]?,
        turn: 0,
        every,
    })
}

/// Gives the next step its places: those of its source in its columns where no step is kept, or
/// only one of a later turn. Says whether there are any.
fn take_places<W: Wanted>(
    wanted: &W,
    places: &mut [usize],
    turns: &[u64],
    width: usize,
    step: &Step,
    turn: u64,
) -> bool {
    let mut is_first = false;
    for column in 0..wanted.columns() {
        if !wanted.is_in(step, column) {
            continue;
        }
        let place = place_of(width, column, step.source);
        let Some(taken) = places.get_mut(place) else {
            continue;
        };
        // The turn of the step that is kept there, or the last turn if none is.
        if turns.get(*taken).copied().unwrap_or(u64::MAX) > turn {
            *taken = turns.len();
            is_first = true;
        }
    }
    is_first
}

/// Keeps a step if it is the first from its source in one of its columns.
fn keep<W: Wanted>(
    wanted: &W,
    kept: &mut FirstSteps,
    step: Step,
    turn: u64,
) -> Result<(), AllocError>
    ensures { OnOk result (MayKeep step kept.old.steps.items kept.new.steps.items) }
{
    let width = kept.width;
    if !take_places(wanted, &mut kept.places, &kept.turns, width, &step, turn) {
        return Ok(());
    }
    kept.turns.push(turn)?;
    kept.steps.push(step)?;
    Ok(())
}

/// Keeps a step if none is kept.
fn keep_one(kept: &mut FirstSteps, step: Step) -> Result<(), AllocError>
    ensures kept { OnOk result (MayKeep step kept.old.steps.items kept.new.steps.items) }
    ensures one { OnOk result (1 ≤ length kept.new.steps.items) }
{
    if !kept.steps.is_empty() {
        return Ok(());
    }
    kept.steps.push(step)?;
    Ok(())
}

/// Keeps a step if it is wanted.
fn keep_wanted<W: Wanted>(
    wanted: &W,
    log: &mut Gathering,
    step: Step,
    turn: u64,
) -> Result<(), AllocError>
    ensures { OnOk result
        (IsFrom (W.wants wanted.now) (step ∷ []) (kept_of log.old) (kept_of log.new)) }
{
    if !wanted.is_wanted(&step) {
        return Ok(());
    }
    if log.every {
        keep_one(&mut log.kept, step)?;
        return Ok(());
    }
    keep(wanted, &mut log.kept, step, turn)?;
    Ok(())
}

/// Whether a flow is left out because it was looked at before; it is marked as looked at.
fn is_left_out(log: &mut Gathering, source: Var, target: Var) -> bool
    ensures kept { kept_of log.new ≡ kept_of log.old }
    ensures every { log.old.every ≡ true → result ≡ false }
{
    let row = target.0 as usize;
    let bit = source.0 as usize;
    if log.every || bit >= 1024 || row * 16 + 16 > log.seen.len() {
        return false;
    }
    if has_bit(&log.seen, row, bit) {
        return true;
    }
    note(&mut log.seen, row, bit);
    false
}

/// Looks at a step.
fn look<W: Wanted>(wanted: &W, log: &mut Gathering, step: Step, turn: u64) -> Result<(), AllocError>
    ensures { OnOk result
        (IsFrom (W.wants wanted.now) (step ∷ []) (kept_of log.old) (kept_of log.new)) }
{
    if is_left_out(log, step.source, step.target) {
        return Ok(());
    }
    keep_wanted(wanted, log, step, turn)?;
    Ok(())
}

/// The flow of a guard to a target.
fn flow_of(g: &Guard, target: Var, written: Span) -> Step
    ensures { result ≡ flow target written g.now }
{
    Step {
        rule: g.rule,
        source: g.read.variable,
        target,
        read: g.read.place,
        written,
    }
}

/// Looks at the flow of the first guard in force that reads a variable.
fn look_guard<W: Wanted>(
    wanted: &W,
    log: &mut Gathering,
    guards: &[Guard],
    target: Var,
    written: Span,
    variable: usize,
) -> Result<(), AllocError>
    ensures { OnOk result (IsAmong (W.wants wanted.now) (flows target written guards.now)
        (kept_of log.old) (kept_of log.new)) }
{
    let place = match log.guarding.get(variable) {
        Some(place) => *place,
        None => return Ok(()),
    };
    let Some(g) = guards.get(place) else {
        return Ok(());
    };
    let turn = log.turn.wrapping_add(place as u64).wrapping_add(1);
    look(wanted, log, flow_of(g, target, written), turn)?;
    Ok(())
}

/// Looks at the flows of 64 variables that the guards in force may read.
fn look_word<W: Wanted>(
    wanted: &W,
    log: &mut Gathering,
    guards: &[Guard],
    target: Var,
    written: Span,
    word: usize,
) -> Result<(), AllocError>
    ensures { OnOk result (IsAmong (W.wants wanted.now) (flows target written guards.now)
        (kept_of log.old) (kept_of log.new)) }
{
    // The variables whose flow to the target hasn't been looked at.
    let around = log.around.get(word).copied().unwrap_or(0);
    let seen = log.seen.get(target.0 as usize * 16 + word % 16);
    let bits = around & !seen.copied().unwrap_or(0);
    if bits == 0 {
        return Ok(());
    }
    for bit in 0..64 {
        if bits >> bit & 1 == 0 {
            continue;
        }
        let variable = word % 16 * 64 + bit;
        look_guard(wanted, log, guards, target, written, variable)?;
    }
    Ok(())
}

/// Looks at the flow of each guard in force.
fn look_each<W: Wanted>(
    wanted: &W,
    log: &mut Gathering,
    guards: &[Guard],
    target: Var,
    written: Span,
) -> Result<(), AllocError>
    ensures { OnOk result (IsFrom (W.wants wanted.now) (flows target written guards.now)
        (kept_of log.old) (kept_of log.new)) }
{
    let turn = log.turn;
    for g in guards {
        look(wanted, log, flow_of(g, target, written), turn)?;
    }
    Ok(())
}

/// Looks at the flows of the guards in force.
pub(crate) fn look_guards<W: Wanted>(
    wanted: &W,
    log: &mut Gathering,
    guards: &[Guard],
    target: Var,
    written: Span,
) -> Result<(), AllocError>
    ensures { OnOk result (IsFrom (W.wants wanted.now) (flows target written guards.now)
        (kept_of log.old) (kept_of log.new)) }
{
    if log.every {
        look_each(wanted, log, guards, target, written)?;
        return Ok(());
    }
    for word in 0..16 {
        look_word(wanted, log, guards, target, written, word)?;
    }
    Ok(())
}

/// Looks at the flows of the reads.
pub(crate) fn look_reads<W: Wanted>(
    wanted: &W,
    log: &mut Gathering,
    target: Var,
    written: Span,
    scope: &[Var],
    rule: Rule,
    e: &Ex,
) -> Result<(), AllocError>
    requires { HasLocations (length scope.now) (expression e.now) }
    ensures { OnOk result (IsFrom (W.wants wanted.now)
        (flows target written (guarded rule (reads scope.now (expression e.now))))
        (kept_of log.old) (kept_of log.new)) }
{
    match e {
        Ex::Num(_) => Ok(()),
        Ex::Loc(l, place) => {
            let step = Step {
                rule,
                source: scope[*l as usize],
                target,
                read: *place,
                written,
            };
            let turn = log.turn;
            look(wanted, log, step, turn)?;
            Ok(())
        }
        Ex::Op(_, a, b) => {
            look_reads(wanted, log, target, written, scope, rule, a)?;
            look_reads(wanted, log, target, written, scope, rule, b)?;
            Ok(())
        }
    }
}

/// Looks at the flows of the reads to the ending of a loop, at the given turn.
fn look_endings<W: Wanted>(
    wanted: &W,
    log: &mut Gathering,
    scope: &[Var],
    turn: u64,
    e: &Ex,
) -> Result<(), AllocError>
    requires { HasLocations (length scope.now) (expression e.now) }
    ensures { OnOk result (IsFrom (W.wants wanted.now)
        (endings Strict true (reads scope.now (expression e.now)))
        (kept_of log.old) (kept_of log.new)) }
{
    match e {
        Ex::Num(_) => Ok(()),
        Ex::Loc(l, place) => {
            let step = Step {
                rule: Rule::Loop,
                source: scope[*l as usize],
                target: LOOP,
                read: *place,
                written: *place,
            };
            keep_wanted(wanted, log, step, turn)?;
            Ok(())
        }
        Ex::Op(_, a, b) => {
            look_endings(wanted, log, scope, turn, a)?;
            look_endings(wanted, log, scope, turn, b)?;
            Ok(())
        }
    }
}

/// Looks at the flows of a guard's reads to the ending of a loop; they come before those of the
/// commands that the guard encloses.
pub(crate) fn look_ending<W: Wanted>(
    wanted: &W,
    profile: Profile,
    log: &mut Gathering,
    scope: &[Var],
    turn: u64,
    looping: bool,
    guard: &Ex,
) -> Result<(), AllocError>
    requires { HasLocations (length scope.now) (expression guard.now) }
    ensures { OnOk result (IsFrom (W.wants wanted.now)
        (endings profile looping (reads scope.now (expression guard.now)))
        (kept_of log.old) (kept_of log.new)) }
{
    if !observes_ending(profile, looping) {
        return Ok(());
    }
    look_endings(wanted, log, scope, turn, guard)?;
    Ok(())
}

/// Puts the guards in force, starting at index `from`.
pub(crate) fn enter(log: &mut Gathering, guards: &[Guard], from: usize)
    ensures { kept_of log.new ≡ kept_of log.old }
{
    for i in from..guards.len() {
        let g = guards[i];
        let variable = g.read.variable.0 as usize;
        if variable >= 1024 || variable >= log.guarding.len() {
            continue;
        }
        if has_bit(&log.around, 0, variable) {
            continue;
        }
        note(&mut log.around, 0, variable);
        log.guarding[variable] = i;
    }
}
