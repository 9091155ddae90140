//! The verified image of a resolved program. It counts operands and letvars.

ghost use Rattle.std.specs.Prelude.{◌≡◌, min, ◌+◌, IfOk, length};
ghost use Rattle.vsi_code.specs.{Needs.{expression_height, height, IsGreatestDepth, slots_of}, Behaves.{Behaves}, Layout.{whole_code}, Names.{all_named}};
ghost use Rattle.vsi_scope.specs.{Language.{nesting, size}, View.{expression, command, sequence}};
ghost use Rattle.vsi_image.specs.Fields as fields;

use crate::emission::whole_code;
use std::alloc::{AllocError, Global as Heap};
use vsi_image::{Image, Verified};
use vsi_scope::{Cmd, Ex, Global, Resolved};

/// The greatest number of operands that an expression has at a time, at most 65,535.
fn expression_height(e: &Ex) -> u16
    ensures { result ≡ min (expression_height (expression e.now)) 65535 }
{
    match e {
        Ex::Num(_) => 1,
        Ex::Loc(_, _) => 1,
        Ex::Op(_, left, right) => expression_height(left).max(expression_height(
            right,
        ).saturating_add(1)),
    }
}

/// The greatest number of operands that commands have at a time, at most 65,535.
#[cycle(heights)]
pub(crate) fn height(body: &[Cmd]) -> u16
    ensures { result ≡ min (height (sequence body.now)) 65535 }
{
    let mut most: u16 = 0;
    for c in body {
        most = most.max(height_of_one(c));
    }
    most
}

#[cycle(heights)]
fn height_of_one(c: &Cmd) -> u16
    ensures { result ≡ min (height (command c.now)) 65535 }
{
    match c {
        Cmd::Assign { value, .. } => expression_height(value),
        Cmd::If { guard, yes, no } => expression_height(guard).max(height(yes).max(height(no))),
        Cmd::While { guard, body } => expression_height(guard).max(height(body)),
        Cmd::Letvar { value, body } => expression_height(value).max(height(body)),
    }
}

/// The deepest nesting of letvars, at most 65,535.
#[cycle(nestings)]
pub(crate) fn letvar_nesting(body: &[Cmd]) -> u16
    ensures { result ≡ min (nesting (sequence body.now)) 65535 }
{
    let mut most: u16 = 0;
    for c in body {
        most = most.max(nesting_of_one(c));
    }
    most
}

#[cycle(nestings)]
fn nesting_of_one(c: &Cmd) -> u16
    ensures { result ≡ min (nesting (command c.now)) 65535 }
{
    match c {
        Cmd::Assign { .. } => 0,
        Cmd::If { yes, no, .. } => letvar_nesting(yes).max(letvar_nesting(no)),
        Cmd::While { body, .. } => letvar_nesting(body),
        Cmd::Letvar { body, .. } => letvar_nesting(body).saturating_add(1),
    }
}

/// Copies of the names and class names of globals.
fn copied(alloc: Heap, globals: &[Global]) -> Result<Vec<(Vec<u8>, Vec<u8>)>, AllocError>
    ensures { IfOk result (λ copies. fields.globals copies.items ≡ all_named globals.now) }
{
    let mut copies = Vec::new(alloc);
    for global in globals {
        let name = global.name.to_vec(alloc)?;
        let class_name = global.class_name.to_vec(alloc)?;
        copies.push((name, class_name))?;
    }
    Ok(copies)
}

/// The image of a program. It is valid by proof and is not verified again. It takes time and memory
/// linear in the size of the program's code, and the only error is lack of memory.
pub fn generate(alloc: Heap, program: &Resolved) -> Result<Verified, AllocError>
    ensures behaves { IfOk result
        (λ image. Behaves (length program.now.globals) (sequence program.now.body) image) }
    ensures globals { IfOk result
        (λ image. fields.globals image.globals.items ≡ all_named program.now.globals) }
    ensures slots { IfOk result (λ image. image.slots ≡ slots_of program.now) }
    ensures stack { IfOk result (λ image. image.stack ≡ height (sequence program.now.body)) }
    ensures code { IfOk result (λ image. image.code.items ≡
        whole_code (length program.now.globals) (sequence program.now.body)) }
    ensures deepest { IfOk result (λ image. IsGreatestDepth image.code.items image.stack) }
    ensures count { IfOk result
        (λ image. length image.code.items ≡ size (sequence program.now.body) + 1) }
{
    let body = program.body();
    let globals = copied(alloc, program.globals())?;
    let count = globals.len() as u16;
    let slots = count + letvar_nesting(body);
    let stack = height(body);
    let code = whole_code(alloc, count, body)?;
    Ok(Verified::of(Image {
        globals,
        slots,
        stack,
        code,
    }))
}
