//! The optimiser as a whole: folding from the leaves up, and the entries that remain.

ghost use Rattle.std.specs.Prelude.{◌≡◌, IfOk, OnOk, ◌+◌, ◌≤◌, length};
ghost use Rattle.vsi_scope.specs.{Language.{Operator, While, letvars, HasPlaces, size}, View.{expression, command, sequence}, Limits.{max_declarations}};
ghost use Rattle.vsi_opt.specs.{Folding.{literal_of, fold_operator, folded, truth_of, one, append, fold}, Remaining.{may_be_true, may_be_false, remaining, HasEntries, Picks, PicksIf, IsRemainder, KeepsEntries}, Folded.{IsFolded}, Optimised.{optimised, RunsAlike}};

use crate::liveness::{SmallSet, kept_live_all};
use std::alloc::{AllocError, Global};
use vsi_scope::{Cmd, Entry, Ex, Resolved};
use vsi_syntax::Op;

/// The number of a literal expression.
fn literal(e: &Ex) -> Option<i64>
    ensures { result ≡ literal_of (expression e.now) }
{
    match e {
        Ex::Num(n) => Some(*n),
        Ex::Loc(_, _) => None,
        Ex::Op(_, _, _) => None,
    }
}

/// Whether a guard is a number and, if so, whether it is true.
fn truth(e: &Ex) -> Option<bool>
    ensures { result ≡ truth_of (expression e.now) }
{
    match e {
        Ex::Num(0) => Some(false),
        Ex::Num(_) => Some(true),
        Ex::Loc(_, _) => None,
        Ex::Op(_, _, _) => None,
    }
}

/// Adds a loop, unless its guard is the number 0.
fn put_loop(out: &mut Vec<Cmd>, guard: Ex, body: Vec<Cmd>) -> Result<(), AllocError>
    ensures { OnOk result
        (sequence out.new.items ≡
        append (sequence out.old.items) (one (While (expression guard) (sequence body.items)))) }
{
    out.push(Cmd::While { guard, body })?;
    Ok(())
}

/// The operator on two expressions.
fn operate(op: Op, left: Ex, right: Ex, alloc: Global) -> Result<Ex, AllocError>
    ensures { IfOk result (λ x. expression x ≡ Operator op (expression left) (expression right)) }
{
    Ok(Ex::Op(op, Box::new(alloc, left)?, Box::new(alloc, right)?))
}

/// The operator on two expressions, or the number that it yields.
fn fold_operands(op: Op, left: Ex, right: Ex, alloc: Global) -> Result<Ex, AllocError>
    ensures { IfOk result
        (λ x. expression x ≡ fold_operator op (expression left) (expression right)) }
{
    match literal(&left) {
        Some(a) => match literal(&right) {
            Some(b) => Ok(Ex::Num(op.apply(a, b))),
            None => operate(op, left, right, alloc),
        },
        None => operate(op, left, right, alloc),
    }
}

/// The expression with no operator on two numbers.
pub(crate) fn fold_expression(e: &Ex, alloc: Global) -> Result<Ex, AllocError>
    ensures { IfOk result (λ x. expression x ≡ folded (expression e.now)) }
{
    match e {
        Ex::Num(n) => Ok(Ex::Num(*n)),
        Ex::Loc(l, span) => Ok(Ex::Loc(*l, *span)),
        Ex::Op(op, a, b) => {
            let left = fold_expression(a, alloc)?;
            let right = fold_expression(b, alloc)?;
            fold_operands(*op, left, right, alloc)
        }
    }
}

/// Adds a sequence, folded.
#[cycle(folding)]
pub(crate) fn fold_all(body: &[Cmd], out: &mut Vec<Cmd>, alloc: Global) -> Result<(), AllocError>
    ensures { OnOk result
        (sequence out.new.items ≡ append (sequence out.old.items) (fold (sequence body.now))) }
{
    for c in body {
        fold_one(c, out, alloc)?;
    }
    Ok(())
}

/// A sequence, folded.
#[cycle(folding)]
fn fold_list(body: &[Cmd], alloc: Global) -> Result<Vec<Cmd>, AllocError>
    ensures { IfOk result (λ v. sequence v.items ≡ fold (sequence body.now)) }
{
    let mut out = Vec::new(alloc);
    fold_all(body, &mut out, alloc)?;
    Ok(out)
}

/// Adds a command, folded.
#[cycle(folding)]
fn fold_one(c: &Cmd, out: &mut Vec<Cmd>, alloc: Global) -> Result<(), AllocError>
    ensures { OnOk result
        (sequence out.new.items ≡ append (sequence out.old.items) (fold (command c.now))) }
{
    match c {
        Cmd::Assign { loc, span, value } => {
            let value = fold_expression(value, alloc)?;
            out.push(Cmd::Assign {
                loc: *loc,
                span: *span,
                value,
            })?;
            Ok(())
        }
        Cmd::If { guard, yes, no } => {
            let guard = fold_expression(guard, alloc)?;
            match truth(&guard) {
                Some(false) => fold_all(no, out, alloc),
                Some(true) => fold_all(yes, out, alloc),
                None => {
                    let yes = fold_list(yes, alloc)?;
                    let no = fold_list(no, alloc)?;
                    out.push(Cmd::If { guard, yes, no })?;
                    Ok(())
                }
            }
        }
        Cmd::While { guard, body } => {
            let guard = fold_expression(guard, alloc)?;
            match truth(&guard) {
                Some(false) => Ok(()),
                Some(true) => put_loop(out, guard, fold_list(body, alloc)?),
                None => put_loop(out, guard, fold_list(body, alloc)?),
            }
        }
        Cmd::Letvar { value, body } => {
            let value = fold_expression(value, alloc)?;
            let body = fold_list(body, alloc)?;
            out.push(Cmd::Letvar { value, body })?;
            Ok(())
        }
    }
}

/// The number to which an expression folds, if it folds to one.
fn folded_number(e: &Ex) -> Option<i64>
    ensures { result ≡ literal_of (folded (expression e.now)) }
{
    match e {
        Ex::Num(n) => Some(*n),
        Ex::Loc(_, _) => None,
        Ex::Op(op, a, b) => match folded_number(a) {
            Some(left) => match folded_number(b) {
                Some(right) => Some(op.apply(left, right)),
                None => None,
            },
            None => None,
        },
    }
}

/// Whether a guard may be true after folding.
fn can_be_true(guard: &Ex) -> bool
    ensures { result ≡ may_be_true (truth_of (folded (expression guard.now))) }
{
    match folded_number(guard) {
        Some(0) => false,
        Some(_) => true,
        None => true,
    }
}

/// Whether a guard may be false after folding.
fn can_be_false(guard: &Ex) -> bool
    ensures { result ≡ may_be_false (truth_of (folded (expression guard.now))) }
{
    match folded_number(guard) {
        Some(0) => true,
        Some(_) => false,
        None => true,
    }
}

/// Passes the letvars of commands that folding removes.
#[cycle(passing)]
fn pass_all(body: &[Cmd], next: &mut usize)
    requires { next.now + letvars (sequence body.now) ≤ max_declarations }
    ensures { next.new ≡ next.old + letvars (sequence body.now) }
{
    for c in body {
        pass_one(c, next);
    }
}

#[cycle(passing)]
fn pass_one(c: &Cmd, next: &mut usize)
    requires { next.now + letvars (command c.now) ≤ max_declarations }
    ensures { next.new ≡ next.old + letvars (command c.now) }
{
    match c {
        Cmd::Assign { .. } => {}
        Cmd::If { yes, no, .. } => {
            pass_all(yes, next);
            pass_all(no, next);
        }
        Cmd::While { body, .. } => pass_all(body, next),
        Cmd::Letvar { body, .. } => {
            *next += 1;
            pass_all(body, next);
        }
    }
}

/// Adds the numbers of the letvars that remain of these commands. `next` is the number of the first
/// letvar.
#[cycle(picking)]
fn pick_all(body: &[Cmd], next: &mut usize, out: &mut Vec<usize>) -> Result<(), AllocError>
    requires { next.now + letvars (sequence body.now) ≤ max_declarations }
    ensures { OnOk result
        (Picks (sequence body.now) next.old next.new out.old.items out.new.items) }
{
    for c in body {
        pick_one(c, next, out)?;
    }
    Ok(())
}

/// Adds the numbers of the letvars that remain, or passes all of them.
#[cycle(picking)]
fn pick_if(
    remains: bool,
    body: &[Cmd],
    next: &mut usize,
    out: &mut Vec<usize>,
) -> Result<(), AllocError>
    requires { next.now + letvars (sequence body.now) ≤ max_declarations }
    ensures { OnOk result
        (PicksIf remains (sequence body.now) next.old next.new out.old.items out.new.items) }
{
    if remains {
        pick_all(body, next, out)
    } else {
        pass_all(body, next);
        Ok(())
    }
}

#[cycle(picking)]
fn pick_one(c: &Cmd, next: &mut usize, out: &mut Vec<usize>) -> Result<(), AllocError>
    requires { next.now + letvars (command c.now) ≤ max_declarations }
    ensures { OnOk result (Picks (command c.now) next.old next.new out.old.items out.new.items) }
{
    match c {
        Cmd::Assign { .. } => Ok(()),
        Cmd::If { guard, yes, no } => {
            pick_if(can_be_true(guard), yes, next, out)?;
            pick_if(can_be_false(guard), no, next, out)
        }
        Cmd::While { guard, body } => pick_if(can_be_true(guard), body, next, out),
        Cmd::Letvar { body, .. } => {
            out.push(*next)?;
            *next += 1;
            pick_all(body, next, out)
        }
    }
}

/// The entries of the letvars that remain of a body after folding.
pub(crate) fn remaining_entries<'a>(
    alloc: Global,
    body: &[Cmd],
    entries: &[Entry<'a>],
) -> Result<Vec<Entry<'a>>, AllocError>
    requires limit { length entries.now ≤ max_declarations }
    requires entries { length entries.now ≡ letvars (sequence body.now) }
    ensures { IfOk result (λ v. HasEntries v.items entries.now (remaining (sequence body.now) 0)) }
{
    let mut numbers = Vec::new(alloc);
    pick_all(body, &mut 0, &mut numbers)?;
    let mut out = Vec::new(alloc);
    for n in &numbers {
        let n = *n;
        out.extend_from_slice(&entries[n..n + 1])?;
    }
    Ok(out)
}

/// The commands of a body, folded, then without their dead assignments.
fn optimise_body(alloc: Global, body: &[Cmd], globals: u16) -> Result<Vec<Cmd>, AllocError>
    requires places { HasPlaces globals (sequence body.now) }
    requires limit { globals + letvars (sequence body.now) ≤ max_declarations }
    ensures { IfOk result (λ v. sequence v.items ≡ optimised globals (sequence body.now)) }
{
    let mut folded = Vec::new(alloc);
    fold_all(body, &mut folded, alloc)?;
    let mut live = SmallSet::below(globals);
    kept_live_all(&folded, globals, globals, &mut live, alloc)
}

/// A program that behaves like the given one, with the same globals and the entries of the letvars
/// that remain.
///
/// First it folds operators on two literals, `if`s on a literal and loops on literal 0, from the
/// leaves up. Then it removes each assignment to a letvar's variable that isn't live after it. A
/// branch, or the body of a loop or a letvar, may become empty. The only error is lack of memory.
pub fn optimise<'a>(alloc: Global, program: &Resolved<'a>) -> Result<Resolved<'a>, AllocError>
    ensures same { IfOk result
        (λ r. RunsAlike (length r.globals) (sequence r.body) (sequence program.now.body)) }
    ensures globals { IfOk result (λ r. r.globals ≡ program.now.globals) }
    ensures entries { IfOk result (λ r. KeepsEntries program.now r) }
    ensures remains { IfOk result (λ r. IsRemainder program.now r) }
    ensures not_larger { IfOk result
        (λ r. size (sequence r.body) ≤ size (sequence program.now.body)) }
    ensures folded { IfOk result (λ r. IsFolded (sequence r.body)) }
    ensures live { IfOk result
        (λ r. sequence r.body ≡ optimised (length r.globals) (sequence program.now.body)) }
{
    let source = program.body();
    let globals = program.globals().len() as u16;
    let letvars = remaining_entries(alloc, source, program.letvars())?;
    let body = optimise_body(alloc, source, globals)?;
    match program.rebuilt(alloc, letvars, body) {
        Ok(optimised) => Ok(optimised),
        Err((error, _, _)) => Err(error),
    }
}
