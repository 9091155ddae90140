//! The size of the code that a body needs.

ghost use Rattle.std.specs.Prelude.{◌≡◌, min};
ghost use Rattle.vsi_scope.specs.{Language.{size, expression_size}, View.{command, sequence, expression}};

use crate::program::{Cmd, Ex};

/// The size of an expression.
fn size_of(e: &Ex) -> u32
    ensures { result ≡ min (expression_size (expression e.now)) 4294967295 }
{
    match e {
        Ex::Num(_) => 1,
        Ex::Loc(_, _) => 1,
        Ex::Op(_, a, b) => size_of(a).saturating_add(size_of(b)).saturating_add(1),
    }
}

/// The number of instructions that the commands need, or 4,294,967,295 if it is larger.
///
/// A number or a name counts 1; an operator, its operands plus 1; an assignment, its value plus 1;
/// an `if`, its guard, both branches and 2; a `while`, its guard, its body and 2; a `letvar`, its
/// initial value, its body and 1; a sequence, the sum of its commands.
#[cycle(size)]
pub fn size(body: &[Cmd]) -> u32
    ensures { result ≡ min (size (sequence body.now)) 4294967295 }
{
    let mut n: u32 = 0;
    for c in body {
        n = n.saturating_add(size_in(c));
    }
    n
}

/// The size of one command.
#[cycle(size)]
fn size_in(c: &Cmd) -> u32
    ensures { result ≡ min (size (command c.now)) 4294967295 }
{
    match c {
        Cmd::Assign { value, .. } => size_of(value).saturating_add(1),
        Cmd::If { guard, yes, no } => size_of(guard)
            .saturating_add(size(yes))
            .saturating_add(size(no))
            .saturating_add(2),
        Cmd::While { guard, body } => size_of(guard).saturating_add(size(body)).saturating_add(2),
        Cmd::Letvar { value, body } => size_of(value).saturating_add(size(body)).saturating_add(1),
    }
}
