//! A run whose words have labels and whose program counter has a class, judged by a rule.

ghost use Rattle.std.specs.Prelude.{◌≡◌, Decides, ◌<◌, ℕ, length, min, slice_index};
ghost use Rattle.vsi_lattice.specs.Order.{IsClass, Below, IsJoin};
ghost use Rattle.vsi_steps.specs.{Labels.{labelling, HasLabel}, Monitor.{MayReplace}, Watched.{Judged, Guarded, held, IsHeld, IsReady, Goes, Watched}};
ghost use Rattle.vsi_scope.specs.{Language.{HasLocations, letvars, Assign, While, Letvar, HasPlaces}, View.{command, sequence, expression}};

use crate::value;
use crate::watch::{Stop, Unfinished};
use vsi_lattice::{Class, Classes};
use vsi_scope::{Cmd, Ex};
use vsi_syntax::Span;

/// How a run is judged at an assignment under a counter that isn't at or below the label of the
/// variable.
#[derive(Clone, Copy, Debug, PartialEq, Eq)]
pub enum Rule {
    /// The run is stopped.
    NoSensitiveUpgrade,
    /// The word is marked as partly leaked, and a guard that reads it stops the run.
    PermissiveUpgrade,
}

/// The label above all classes, which marks a word as partly leaked.
pub(crate) fn mark<C: Classes>(lattice: &C) -> Class
    ensures { result ≡ (C.lattice lattice.now).count }
{
    Class::at(lattice.count() as u8)
}

impl Rule {
    /// The least label at or above both.
    pub(crate) fn join<C: Classes>(self, lattice: &C, a: Class, b: Class) -> Class
        requires first { IsClass (labelling self (C.lattice lattice.now)) a }
        requires second { IsClass (labelling self (C.lattice lattice.now)) b }
        ensures { IsJoin (labelling self (C.lattice lattice.now)).count
            (Below (labelling self (C.lattice lattice.now))) a b result }
    {
        let mark = mark(lattice);
        if a == mark || b == mark {
            return mark;
        }
        lattice.join(a, b)
    }

    /// Whether the present word of a variable may be replaced under a counter.
    fn may_replace<C: Classes>(self, lattice: &C, counter: Class, present: Class) -> bool
        requires counter { IsClass (labelling self (C.lattice lattice.now)) counter }
        requires present { IsClass (labelling self (C.lattice lattice.now)) present }
        ensures { Decides result
            (MayReplace self (labelling self (C.lattice lattice.now)) counter present) }
    {
        let mark = mark(lattice);
        if present == mark {
            return counter == lattice.bottom();
        }
        counter != mark && lattice.leq(counter, present)
    }

    /// The label of a word that is stored under a counter, from the variable's present label, the
    /// label of the expression and the class of the variable. There is none if the run is to be
    /// stopped.
    pub(crate) fn judge<C: Classes>(
        self,
        lattice: &C,
        counter: Class,
        present: Class,
        read: Class,
        class: Class,
    ) -> Option<Class>
        requires counter { IsClass (labelling self (C.lattice lattice.now)) counter }
        requires present { IsClass (labelling self (C.lattice lattice.now)) present }
        requires read { IsClass (labelling self (C.lattice lattice.now)) read }
        requires class { IsClass (labelling self (C.lattice lattice.now)) class }
        ensures { Judged self (labelling self (C.lattice lattice.now)) counter present read class
            result }
    {
        if self.may_replace(lattice, counter, present) {
            let seen = self.join(lattice, read, counter);
            return Some(self.join(lattice, seen, class));
        }
        match self {
            Rule::NoSensitiveUpgrade => None,
            Rule::PermissiveUpgrade => Some(mark(lattice)),
        }
    }
}

/// The label of an expression: the join of the labels of the locations that it reads.
pub(crate) fn label<C: Classes>(rule: Rule, lattice: &C, e: &Ex, labels: &[Class]) -> Class
    requires places { HasLocations (length labels.now) (expression e.now) }
    requires classes { (l : ℕ) → l < length labels.now →
        IsClass (labelling rule (C.lattice lattice.now)) (slice_index labels.now l) }
    ensures class { IsClass (labelling rule (C.lattice lattice.now)) result }
    ensures label { HasLabel (labelling rule (C.lattice lattice.now)) labels.now
        (expression e.now) result }
{
    match e {
        Ex::Num(_) => lattice.bottom(),
        Ex::Loc(l, _) => labels[*l as usize],
        Ex::Op(_, a, b) => {
            let first = label(rule, lattice, a, labels);
            rule.join(lattice, first, label(rule, lattice, b, labels))
        }
    }
}

/// The label of a guard under a counter. The run is stopped if the guard reads a word that is
/// partly leaked.
pub(crate) fn guard_label<C: Classes>(
    rule: Rule,
    lattice: &C,
    guard: &Ex,
    labels: &[Class],
    counter: Class,
) -> Result<Class, Unfinished>
    requires places { HasLocations (length labels.now) (expression guard.now) }
    requires classes { (l : ℕ) → l < length labels.now →
        IsClass (labelling rule (C.lattice lattice.now)) (slice_index labels.now l) }
    ensures { Guarded rule (labelling rule (C.lattice lattice.now)) counter labels.now
        (expression guard.now) result }
{
    match guard {
        Ex::Num(_) => Ok(lattice.bottom()),
        Ex::Loc(l, place) => {
            let label = labels[*l as usize];
            if label != mark(lattice) {
                return Ok(label);
            }
            Err(Unfinished::Stopped(Stop {
                place: *place,
                counter,
                label,
            }))
        }
        Ex::Op(_, a, b) => {
            let first = guard_label(rule, lattice, a, labels, counter)?;
            let second = guard_label(rule, lattice, b, labels, counter)?;
            Ok(rule.join(lattice, first, second))
        }
    }
}

/// The number of letvars of commands, or 65,535 if it is larger.
#[cycle(letvars)]
pub(crate) fn letvars(body: &[Cmd]) -> u16
    ensures { result ≡ min (letvars (sequence body.now)) 65535 }
{
    let mut n: u16 = 0;
    for c in body {
        n = n.saturating_add(letvars_in(c));
    }
    n
}

/// The number of letvars of one command, or 65,535 if it is larger.
#[cycle(letvars)]
pub(crate) fn letvars_in(c: &Cmd) -> u16
    ensures { result ≡ min (letvars (command c.now)) 65535 }
{
    match c {
        Cmd::Assign { .. } => 0,
        Cmd::If { yes, no, .. } => letvars(yes).saturating_add(letvars(no)),
        Cmd::While { body, .. } => letvars(body),
        Cmd::Letvar { body, .. } => letvars(body).saturating_add(1),
    }
}

/// The state of a run.
#[derive(Drop)]
pub(crate) struct State {
    /// The words of the locations in scope.
    pub(crate) words: Vec<i64>,
    /// Their labels.
    pub(crate) labels: Vec<Class>,
    /// The classes of their variables.
    pub(crate) variables: Vec<Class>,
    /// The number of steps that the run may still take.
    pub(crate) left: u64,
}

/// Runs an assignment.
fn run_assign<C: Classes>(
    rule: Rule,
    lattice: &C,
    state: &mut State,
    counter: Class,
    location: u16,
    place: Span,
    e: &Ex,
) -> Result<(), Unfinished>
    requires held { IsHeld (labelling rule (C.lattice lattice.now)) (held state.old) }
    requires counter { IsClass (labelling rule (C.lattice lattice.now)) counter }
    requires places { HasPlaces (length state.old.variables.items)
        (Assign location place (expression e.now)) }
    ensures { (classes : ℕ → ℕ) (n : ℕ) → Watched rule (labelling rule (C.lattice lattice.now))
        classes counter n (Assign location place (expression e.now)) (held state.old)
        (held state.new) result }
{
    state.left = state.left.checked_sub(1).ok_or(Unfinished::Limit)?;
    let at = location as usize;
    let present = state.labels[at];
    let read = label(rule, lattice, e, &state.labels);
    let Some(risen) = rule.judge(lattice, counter, present, read, state.variables[at]) else {
        return Err(Unfinished::Stopped(Stop {
            place,
            counter,
            label: present,
        }));
    };
    state.words[at] = value(e, &state.words);
    state.labels[at] = risen;
    Ok(())
}

/// Runs a loop, turn by turn. Each turn, and all after it, run under the join of the counter and
/// the label of the guard.
#[cycle(watch)]
fn run_while<C: Classes>(
    rule: Rule,
    lattice: &C,
    classes: &[Class],
    state: &mut State,
    counter: Class,
    next: u16,
    body: &[Cmd],
    e: &Ex,
) -> Result<(), Unfinished>
    requires { IsReady (labelling rule (C.lattice lattice.now)) classes.now counter next
        (While (expression e.now) (sequence body.now)) (held state.old) }
    ensures { Goes rule (C.lattice lattice.now) classes.now counter next
        (While (expression e.now) (sequence body.now)) (held state.old) (held state.new) result }
{
    let mut inside = counter;
    loop {
        let word = value(e, &state.words);
        state.left = state.left.checked_sub(1).ok_or(Unfinished::Limit)?;
        let read = guard_label(rule, lattice, e, &state.labels, inside)?;
        if word == 0 {
            return Ok(());
        }
        inside = rule.join(lattice, inside, read);
        run_all(rule, lattice, classes, state, inside, next, body)?;
    }
}

/// Runs a letvar.
#[cycle(watch)]
fn run_letvar<C: Classes>(
    rule: Rule,
    lattice: &C,
    classes: &[Class],
    state: &mut State,
    counter: Class,
    next: u16,
    body: &[Cmd],
    e: &Ex,
) -> Result<(), Unfinished>
    requires { IsReady (labelling rule (C.lattice lattice.now)) classes.now counter next
        (Letvar (expression e.now) (sequence body.now)) (held state.old) }
    ensures { Goes rule (C.lattice lattice.now) classes.now counter next
        (Letvar (expression e.now) (sequence body.now)) (held state.old) (held state.new) result }
{
    state.left = state.left.checked_sub(1).ok_or(Unfinished::Limit)?;
    let class = classes[next as usize];
    let word = value(e, &state.words);
    let first = rule.join(lattice, label(rule, lattice, e, &state.labels), class);
    let outside = state.words.len();
    state.words.push(word)?;
    state.labels.push(first)?;
    state.variables.push(class)?;
    run_all(rule, lattice, classes, state, counter, next + 1, body)?;
    state.words.truncate(outside);
    state.labels.truncate(outside);
    state.variables.truncate(outside);
    Ok(())
}

/// Runs commands, one after another.
#[cycle(watch)]
pub(crate) fn run_all<C: Classes>(
    rule: Rule,
    lattice: &C,
    classes: &[Class],
    state: &mut State,
    counter: Class,
    first: u16,
    body: &[Cmd],
) -> Result<(), Unfinished>
    requires { IsReady (labelling rule (C.lattice lattice.now)) classes.now counter first
        (sequence body.now) (held state.old) }
    ensures { Goes rule (C.lattice lattice.now) classes.now counter first
        (sequence body.now) (held state.old) (held state.new) result }
{
    let mut next = first;
    for c in body {
        run_one(rule, lattice, classes, state, counter, next, c)?;
        next += letvars_in(c);
    }
    Ok(())
}

/// Runs one command.
#[cycle(watch)]
fn run_one<C: Classes>(
    rule: Rule,
    lattice: &C,
    classes: &[Class],
    state: &mut State,
    counter: Class,
    next: u16,
    c: &Cmd,
) -> Result<(), Unfinished>
    requires { IsReady (labelling rule (C.lattice lattice.now)) classes.now counter next
        (command c.now) (held state.old) }
    ensures { Goes rule (C.lattice lattice.now) classes.now counter next (command c.now)
        (held state.old) (held state.new) result }
{
    match c {
        Cmd::Assign { loc, span, value } => run_assign(
            rule, lattice, state, counter, *loc, *span, value,
        ),
        // The branch runs under the join of the counter and the label of the guard.
        Cmd::If { guard, yes, no } => {
            state.left = state.left.checked_sub(1).ok_or(Unfinished::Limit)?;
            let read = guard_label(rule, lattice, guard, &state.labels, counter)?;
            let inside = rule.join(lattice, counter, read);
            if value(guard, &state.words) != 0 {
                return run_all(rule, lattice, classes, state, inside, next, yes);
            }
            let second = next + letvars(yes);
            run_all(rule, lattice, classes, state, inside, second, no)
        }
        Cmd::While { guard, body } => {
            run_while(rule, lattice, classes, state, counter, next, body, guard)
        }
        Cmd::Letvar { value, body } => {
            run_letvar(rule, lattice, classes, state, counter, next, body, value)
        }
    }
}
