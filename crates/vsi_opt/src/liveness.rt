//! Live variables as sets of small numbers, and the removal of dead assignments.

ghost use Rattle.std.specs.Prelude.{◌≡◌, ◌<◌, ◌≤◌, true, false, ◌+◌, IfOk, OnOk, reverse};
ghost use Rattle.vsi_opt.specs.{Liveness.{with_bit, joined, reads, before, kept_in_loop, kept_live, taken}, Ranges.{bits, Fits}, Optimised.{globals_alone}, Folding.{append}, Loops.{AddFits, AddsTo, KeptInLoopFits}};
ghost use Rattle.vsi_scope.specs.{Limits.{max_declarations}, Language.{HasLocations, Assign, letvars}, View.{expression, command, sequence}};

use std::alloc::{AllocError, Global};
use vsi_scope::{Cmd, Ex};
use vsi_syntax::Span;

/// A set of numbers below 1,024, a bit for each.
#[derive(Clone, Copy)]
pub(crate) struct SmallSet {
    words: [u64; 16],
}

impl SmallSet {
    /// The numbers below a number.
    pub(crate) fn below(count: u16) -> SmallSet
        requires { count ≤ max_declarations }
        ensures { bits result ≡ globals_alone count }
    {
        let mut set = SmallSet { words: [0; 16] };
        for n in 0..count {
            set.insert(n);
        }
        set
    }

    /// Whether a number is in the set.
    pub(crate) fn contains(&self, n: u16) -> bool
        requires { n < max_declarations }
        ensures { result ≡ bits self.now n }
    {
        let word = self.words[(n / 64) as usize];
        (word >> (n % 64)) % 2 == 1
    }

    /// Puts a number in.
    pub(crate) fn insert(&mut self, n: u16)
        requires { n < max_declarations }
        ensures { bits self.new ≡ with_bit (bits self.old) n true }
    {
        let at = (n / 64) as usize;
        self.words[at] = self.words[at] | (1 << (n % 64));
    }

    /// Takes a number out.
    pub(crate) fn remove(&mut self, n: u16)
        requires { n < max_declarations }
        ensures { bits self.new ≡ with_bit (bits self.old) n false }
    {
        let at = (n / 64) as usize;
        self.words[at] = self.words[at] & !(1 << (n % 64));
    }

    /// Puts a number in or takes it out.
    pub(crate) fn set(&mut self, n: u16, is_in: bool)
        requires { n < max_declarations }
        ensures { bits self.new ≡ with_bit (bits self.old) n is_in }
    {
        if is_in {
            self.insert(n);
        } else {
            self.remove(n);
        }
    }

    /// Adds the numbers of another set.
    pub(crate) fn join(&mut self, other: &SmallSet)
        ensures { bits self.new ≡ joined (bits self.old) (bits other.now) }
    {
        for i in 0..16 {
            self.words[i] = self.words[i] | other.words[i];
        }
    }
}

/// An equal expression.
fn copy_expression(e: &Ex, alloc: Global) -> Result<Ex, AllocError>
    ensures { IfOk result (λ x. expression x ≡ expression e.now) }
{
    match e {
        Ex::Num(n) => Ok(Ex::Num(*n)),
        Ex::Loc(l, span) => Ok(Ex::Loc(*l, *span)),
        Ex::Op(op, a, b) => {
            let left = copy_expression(a, alloc)?;
            let right = copy_expression(b, alloc)?;
            Ok(Ex::Op(*op, Box::new(alloc, left)?, Box::new(alloc, right)?))
        }
    }
}

/// An assignment of an equal expression.
fn copy_assignment(loc: u16, span: Span, value: &Ex, alloc: Global) -> Result<Cmd, AllocError>
    ensures { IfOk result (λ c. command c ≡ Assign loc span (expression value.now)) }
{
    let value = copy_expression(value, alloc)?;
    Ok(Cmd::Assign { loc, span, value })
}

/// Adds the locations that an expression reads.
fn add_reads(e: &Ex, live: &mut SmallSet)
    requires { HasLocations max_declarations (expression e.now) }
    ensures { bits live.new ≡ joined (bits live.old) (reads (expression e.now)) }
{
    match e {
        Ex::Num(_) => {}
        Ex::Loc(l, _) => live.insert(*l),
        Ex::Op(_, a, b) => {
            add_reads(a, live);
            add_reads(b, live);
        }
    }
}

/// Takes a location out, unless it is a global.
fn take_out(live: &mut SmallSet, globals: u16, l: u16)
    requires { l < max_declarations }
    ensures { bits live.new ≡ taken globals l (bits live.old) }
{
    if globals <= l {
        live.remove(l);
    }
}

/// Adds the locations that the expressions of a loop's commands read, and notes for each letvar, by
/// its number, whether its scope reads its variable. `next` is the number of the commands' first
/// letvar.
#[cycle(adding)]
fn add_all(body: &[Cmd], scope: u16, live: &mut SmallSet, own: &mut SmallSet, next: &mut u16)
    requires { AddFits scope next.now (sequence body.now) }
    ensures { AddsTo scope (sequence body.now) live.old own.old next.old live.new own.new next.new }
{
    for c in body {
        add_one(c, scope, live, own, next);
    }
}

#[cycle(adding)]
fn add_one(c: &Cmd, scope: u16, live: &mut SmallSet, own: &mut SmallSet, next: &mut u16)
    requires { AddFits scope next.now (command c.now) }
    ensures { AddsTo scope (command c.now) live.old own.old next.old live.new own.new next.new }
{
    match c {
        Cmd::Assign { value, .. } => add_reads(value, live),
        Cmd::If { guard, yes, no } => {
            add_reads(guard, live);
            add_all(yes, scope, live, own, next);
            add_all(no, scope, live, own, next);
        }
        Cmd::While { guard, body } => {
            add_reads(guard, live);
            add_all(body, scope, live, own, next);
        }
        Cmd::Letvar { value, body } => {
            add_reads(value, live);
            let number = *next;
            *next += 1;
            let was_read = live.contains(scope);
            live.remove(scope);
            add_all(body, scope + 1, live, own, next);
            own.set(number, live.contains(scope));
            if was_read {
                live.insert(scope);
            }
        }
    }
}

/// The commands of a loop, without the assignments to locations that aren't live there. `own` says
/// for each letvar, by its number, whether its scope reads its variable, and `next` is the number
/// of the commands' first letvar.
#[cycle(kept_in_loop)]
fn kept_in_loop_all(
    body: &[Cmd],
    scope: u16,
    live: &SmallSet,
    own: &SmallSet,
    next: &mut u16,
    alloc: Global,
) -> Result<Vec<Cmd>, AllocError>
    requires { KeptInLoopFits (bits own.now) scope next.now (sequence body.now) }
    ensures { IfOk result
        (λ v.
        (sequence v.items ≡ kept_in_loop scope (sequence body.now) (bits live.now)) ×
        (next.new ≡ next.old + letvars (sequence body.now))) }
{
    let mut out = Vec::new(alloc);
    for c in body {
        kept_in_loop_one(c, scope, live, own, next, &mut out, alloc)?;
    }
    Ok(out)
}

#[cycle(kept_in_loop)]
fn kept_in_loop_one(
    c: &Cmd,
    scope: u16,
    live: &SmallSet,
    own: &SmallSet,
    next: &mut u16,
    out: &mut Vec<Cmd>,
    alloc: Global,
) -> Result<(), AllocError>
    requires { KeptInLoopFits (bits own.now) scope next.now (command c.now) }
    ensures { OnOk result
        ((sequence out.new.items ≡ append (sequence out.old.items)
        (kept_in_loop scope (command c.now) (bits live.now))) ×
        (next.new ≡ next.old + letvars (command c.now))) }
{
    match c {
        Cmd::Assign { loc, span, value } => {
            if live.contains(*loc) {
                out.push(copy_assignment(*loc, *span, value, alloc)?)?;
            }
            Ok(())
        }
        Cmd::If { guard, yes, no } => {
            let guard = copy_expression(guard, alloc)?;
            let yes = kept_in_loop_all(yes, scope, live, own, next, alloc)?;
            let no = kept_in_loop_all(no, scope, live, own, next, alloc)?;
            out.push(Cmd::If { guard, yes, no })?;
            Ok(())
        }
        Cmd::While { guard, body } => {
            let guard = copy_expression(guard, alloc)?;
            let body = kept_in_loop_all(body, scope, live, own, next, alloc)?;
            out.push(Cmd::While { guard, body })?;
            Ok(())
        }
        Cmd::Letvar { value, body } => {
            let value = copy_expression(value, alloc)?;
            let mut inner = *live;
            inner.set(scope, own.contains(*next));
            *next += 1;
            let body = kept_in_loop_all(body, scope + 1, &inner, own, next, alloc)?;
            out.push(Cmd::Letvar { value, body })?;
            Ok(())
        }
    }
}

/// Commands without their dead assignments. Turns the live locations after them into those before.
#[cycle(kept_live)]
pub(crate) fn kept_live_all(
    body: &[Cmd],
    globals: u16,
    scope: u16,
    live: &mut SmallSet,
    alloc: Global,
) -> Result<Vec<Cmd>, AllocError>
    requires { Fits scope (sequence body.now) }
    ensures { IfOk result
        (λ v.
        (sequence v.items ≡ kept_live globals scope (sequence body.now) (bits live.old)) ×
        (bits live.new ≡ before globals scope (sequence body.now) (bits live.old))) }
{
    let mut out = Vec::new(alloc);
    let count = body.len();
    for j in 0..count {
        let c = &body[count - 1 - j];
        kept_live_one(c, globals, scope, live, &mut out, alloc)?;
    }
    out.reverse();
    Ok(out)
}

#[cycle(kept_live)]
fn kept_live_one(
    c: &Cmd,
    globals: u16,
    scope: u16,
    live: &mut SmallSet,
    out: &mut Vec<Cmd>,
    alloc: Global,
) -> Result<(), AllocError>
    requires { Fits scope (command c.now) }
    ensures { OnOk result
        ((sequence (reverse out.new.items) ≡
        append (kept_live globals scope (command c.now) (bits live.old))
        (sequence (reverse out.old.items))) ×
        (bits live.new ≡ before globals scope (command c.now) (bits live.old))) }
{
    match c {
        Cmd::Assign { loc, span, value } => {
            if live.contains(*loc) {
                take_out(live, globals, *loc);
                add_reads(value, live);
                out.push(copy_assignment(*loc, *span, value, alloc)?)?;
            }
            Ok(())
        }
        Cmd::If { guard, yes, no } => {
            let mut other = *live;
            let no = kept_live_all(no, globals, scope, &mut other, alloc)?;
            let yes = kept_live_all(yes, globals, scope, live, alloc)?;
            live.join(&other);
            add_reads(guard, live);
            let guard = copy_expression(guard, alloc)?;
            out.push(Cmd::If { guard, yes, no })?;
            Ok(())
        }
        Cmd::While { guard, body } => {
            let mut own = SmallSet::below(0);
            add_reads(guard, live);
            add_all(body, scope, live, &mut own, &mut 0);
            let guard = copy_expression(guard, alloc)?;
            let body = kept_in_loop_all(body, scope, live, &own, &mut 0, alloc)?;
            out.push(Cmd::While { guard, body })?;
            Ok(())
        }
        Cmd::Letvar { value, body } => {
            live.remove(scope);
            let body = kept_live_all(body, globals, scope + 1, live, alloc)?;
            live.remove(scope);
            add_reads(value, live);
            let value = copy_expression(value, alloc)?;
            out.push(Cmd::Letvar { value, body })?;
            Ok(())
        }
    }
}
