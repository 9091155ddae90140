//! The variables that commands read or assign, and those that nothing does.

ghost use Rattle.std.specs.Prelude.{◌≡◌, ◌++◌, ◌+◌, ◌≤◌, IfOk, OnOk, length};
ghost use Rattle.vsi_scope.specs.{Language.{letvars}, Limits.{max_declarations}, View.{command, expression, sequence}};
ghost use Rattle.vsi_opt.specs.Liveness.{reads};
ghost use Rattle.vsi_answers.specs.Warned.{is_unused, unread, used};

use std::alloc::{AllocError, Global};
use vsi_scope::{Cmd, Ex, Resolved};

/// Whether an expression reads a location.
fn reads(e: &Ex, location: u16) -> bool
    ensures { result ≡ reads (expression e.now) location }
{
    match e {
        Ex::Num(_) => false,
        Ex::Loc(read, _) => location == *read,
        Ex::Op(_, a, b) => reads(a, location) || reads(b, location),
    }
}

/// Whether one of these commands reads a location, or assigns it, where assignments count.
#[cycle(using)]
fn are_using(body: &[Cmd], location: u16, counts: bool) -> bool
    ensures { result ≡ used counts (sequence body.now) location }
{
    for c in body {
        if is_using(c, location, counts) {
            return true;
        }
    }
    false
}

/// Whether a command reads a location, or assigns it, where assignments count.
#[cycle(using)]
fn is_using(c: &Cmd, location: u16, counts: bool) -> bool
    ensures { result ≡ used counts (command c.now) location }
{
    match c {
        Cmd::Assign { loc, value, .. } => (counts & (*loc == location)) | reads(value, location),
        Cmd::If { guard, yes, no } => {
            reads(guard, location)
                | (are_using(yes, location, counts) | are_using(no, location, counts))
        }
        Cmd::While { guard, body } => reads(guard, location) | are_using(body, location, counts),
        Cmd::Letvar { value, body } => reads(value, location) | are_using(body, location, counts),
    }
}

/// Adds an answer for each letvar of these commands, where so many locations are in scope.
#[cycle(unread)]
fn put_all(body: &[Cmd], scope: u16, found: &mut Vec<bool>) -> Result<(), AllocError>
    requires { scope + letvars (sequence body.now) ≤ max_declarations }
    ensures { OnOk result
        (found.new.items ≡ found.old.items ++ unread scope (sequence body.now)) }
{
    for c in body {
        put_one(c, scope, found)?;
    }
    Ok(())
}

/// Adds an answer for each letvar of a command.
#[cycle(unread)]
fn put_one(c: &Cmd, scope: u16, found: &mut Vec<bool>) -> Result<(), AllocError>
    requires { scope + letvars (command c.now) ≤ max_declarations }
    ensures { OnOk result
        (found.new.items ≡ found.old.items ++ unread scope (command c.now)) }
{
    match c {
        Cmd::Assign { .. } => Ok(()),
        Cmd::If { yes, no, .. } => {
            put_all(yes, scope, found)?;
            put_all(no, scope, found)
        }
        Cmd::While { body, .. } => put_all(body, scope, found),
        Cmd::Letvar { body, .. } => {
            found.push(!are_using(body, scope, false))?;
            put_all(body, scope + 1, found)
        }
    }
}

/// For each letvar of a program, in the order of the text, whether no expression of its body reads
/// its variable.
pub fn unread_letvars(alloc: Global, program: &Resolved<'_>) -> Result<Vec<bool>, AllocError>
    ensures exact { IfOk result (λ v. v.items
        ≡ unread (length program.now.globals) (sequence program.now.body)) }
{
    let mut found = Vec::new(alloc);
    let body = program.body();
    put_all(body, program.globals().len() as u16, &mut found)?;
    Ok(found)
}

/// Whether a program neither reads nor assigns a global.
pub fn is_unused_global(program: &Resolved<'_>, global: u16) -> bool
    ensures exact { result ≡ is_unused (sequence program.now.body) global }
{
    !are_using(program.body(), global, true)
}
