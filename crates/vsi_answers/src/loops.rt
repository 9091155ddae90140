//! The loops whose guard nothing in their body changes.
//!
//! One walk finds them all: an assignment stamps its location with the number of loops that have
//! begun, and the guard of a loop is changed if, at the end of its body, it reads a location with
//! a stamp above the number of loops that began before it.

ghost use Rattle.std.specs.Prelude.{◌≡◌, IfOk, OnOk};
ghost use Rattle.vsi_scope.specs.View.{command, expression, sequence};
ghost use Rattle.vsi_answers.specs.{Stamps.{IsWalked, reads_above, stamped}, Warned.{unchanged}};

use std::alloc::{AllocError, Global};
use vsi_scope::{Cmd, Ex, Resolved};

/// Stamps a location.
fn put_stamp(stamps: &mut Vec<usize>, location: u16, stamp: usize) -> Result<(), AllocError>
    ensures { OnOk result (stamps.new.items ≡ stamped stamps.old.items location stamp) }
{
    let place = location as usize;
    if place < stamps.len() {
        stamps[place] = stamp;
        return Ok(());
    }
    stamps.resize(place, 0)?;
    Ok(stamps.push(stamp)?)
}

/// Whether an expression reads a location with a stamp above this one, where a location without a
/// stamp has 0.
fn reads_above(e: &Ex, stamps: &[usize], begun: usize) -> bool
    ensures { result ≡ reads_above stamps.now begun (expression e.now) }
{
    match e {
        Ex::Num(_) => false,
        Ex::Loc(read, _) => match stamps.get(*read as usize) {
            Some(stamp) => begun < *stamp,
            None => false,
        },
        Ex::Op(_, a, b) => reads_above(a, stamps, begun) || reads_above(b, stamps, begun),
    }
}

/// Adds an answer for each loop of these commands.
#[cycle(loops)]
fn put_all(body: &[Cmd], found: &mut Vec<bool>, stamps: &mut Vec<usize>) -> Result<(), AllocError>
    ensures { OnOk result (IsWalked (sequence body.now) found.old.items stamps.old.items
        found.new.items stamps.new.items) }
{
    for c in body {
        put_one(c, found, stamps)?;
    }
    Ok(())
}

/// Adds an answer for each loop of a command.
#[cycle(loops)]
fn put_one(c: &Cmd, found: &mut Vec<bool>, stamps: &mut Vec<usize>) -> Result<(), AllocError>
    ensures { OnOk result (IsWalked (command c.now) found.old.items stamps.old.items
        found.new.items stamps.new.items) }
{
    match c {
        Cmd::Assign { loc, .. } => put_stamp(stamps, *loc, found.len()),
        Cmd::If { yes, no, .. } => {
            put_all(yes, found, stamps)?;
            put_all(no, found, stamps)
        }
        Cmd::While { guard, body } => {
            let begun = found.len();
            found.push(false)?;
            put_all(body, found, stamps)?;
            found[begun] = !reads_above(guard, stamps, begun);
            Ok(())
        }
        Cmd::Letvar { body, .. } => put_all(body, found, stamps),
    }
}

/// For each loop of a program, in the order of the text, whether its body assigns no variable that
/// its guard reads.
pub fn unchanged_guards(alloc: Global, program: &Resolved<'_>) -> Result<Vec<bool>, AllocError>
    ensures exact { IfOk result (λ v. v.items ≡ unchanged (sequence program.now.body)) }
{
    let mut found = Vec::new(alloc);
    let mut stamps = Vec::new(alloc);
    put_all(program.body(), &mut found, &mut stamps)?;
    Ok(found)
}
