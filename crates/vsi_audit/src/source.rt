//! The commands of an image as a text of the language.

ghost use Rattle.std.specs.Prelude.{IfOk, OnOk};
ghost use Rattle.vsi_syntax.specs.ProgramView.{whole};
ghost use Rattle.vsi_scope.specs.View.{sequence};
ghost use Rattle.vsi_audit.specs.Text.{IsWritten, IsSourceText};

use crate::builder::{Commands, commands_of};
use crate::flow::AuditError;
use crate::names::{Names, declares, put_declarations};
use crate::writing::{InScope, check_all, is_code_of};
use std::alloc::{AllocError, Global};
use vsi_image::{Image, Verified};
use vsi_scope::{Cmd, Ex};
use vsi_syntax::{LexError, Op, ParseError, Program, lex, parse, print, put_number};

/// Adds an expression, with brackets if it binds less tightly than this level: comparisons bind 0,
/// sums 1, products 2, and atoms 3.
fn put_expression(
    e: &Ex,
    out: &mut Vec<u8>,
    names: &Names<'_>,
    least: u8,
) -> Result<(), AllocError> {
    let (own, symbol): (u8, &[u8]) = match e {
        Ex::Op(Op::Mul, ..) => (2, b"*"),
        Ex::Op(Op::Add, ..) => (1, b"+"),
        Ex::Op(Op::Sub, ..) => (1, b"-"),
        Ex::Op(Op::Eq, ..) => (0, b"="),
        Ex::Op(Op::Lt, ..) => (0, b"<"),
        // A number below 0 has no token, so it is written as a difference or, for the least number,
        // as a sum.
        Ex::Num(i64::MIN) => (1, b"9223372036854775807+1"),
        Ex::Num(n) if *n < 0 => (1, b"0-"),
        Ex::Num(_) | Ex::Loc(..) => (3, b""),
    };
    if own < least {
        out.push(b'(')?;
    }
    match e {
        Ex::Num(i64::MIN) => out.extend_from_slice(symbol)?,
        Ex::Num(n) => {
            out.extend_from_slice(symbol)?;
            put_number(out, n.unsigned_abs() as usize)?;
        }
        Ex::Loc(location, _) => names.put(out, *location)?,
        Ex::Op(_, left, right) => {
            put_expression(left, out, names, own.max(1))?;
            out.extend_from_slice(symbol)?;
            put_expression(right, out, names, own.saturating_add(1))?;
        }
    }
    if own < least {
        out.push(b')')?;
    }
    Ok(())
}

/// Adds a guard with the keywords before and after it.
fn put_guard(
    words: (&[u8], &[u8]),
    guard: &Ex,
    out: &mut Vec<u8>,
    names: &Names<'_>,
) -> Result<(), AllocError> {
    out.extend_from_slice(words.0)?;
    put_expression(guard, out, names, 0)?;
    out.extend_from_slice(words.1)
}

/// Adds the commands of a sequence, with `;` between them.
#[cycle(writing)]
fn put_all(body: &[Cmd], out: &mut Vec<u8>, names: &mut Names<'_>) -> Result<(), AllocError> {
    let [first, rest @ ..] = body else {
        // A command that does nothing, and nothing flows out of it.
        out.extend_from_slice(b"letvar ")?;
        names.put_made(out, 0)?;
        out.extend_from_slice(b":=0 in ")?;
        names.put_made(out, 0)?;
        return out.extend_from_slice(b":=0");
    };
    put_one(first, out, names)?;
    for c in rest {
        out.extend_from_slice(b";")?;
        put_one(c, out, names)?;
    }
    Ok(())
}

/// Adds a sequence as one command; a sequence of more than one becomes a block.
#[cycle(writing)]
fn put_part(body: &[Cmd], out: &mut Vec<u8>, names: &mut Names<'_>) -> Result<(), AllocError> {
    if body.len() <= 1 {
        return put_all(body, out, names);
    }
    out.extend_from_slice(b"{")?;
    put_all(body, out, names)?;
    out.extend_from_slice(b"}")
}

/// Adds a command.
#[cycle(writing)]
fn put_one(c: &Cmd, out: &mut Vec<u8>, names: &mut Names<'_>) -> Result<(), AllocError> {
    match c {
        Cmd::Assign { loc, value, .. } => {
            names.put(out, *loc)?;
            out.extend_from_slice(b":=")?;
            put_expression(value, out, names, 0)
        }
        Cmd::If { guard, yes, no } => {
            put_guard((b"if ", b" then "), guard, out, names)?;
            put_part(yes, out, names)?;
            out.extend_from_slice(b" else ")?;
            put_part(no, out, names)
        }
        Cmd::While { guard, body } => {
            put_guard((b"while ", b" do "), guard, out, names)?;
            put_part(body, out, names)
        }
        Cmd::Letvar { value, body } => {
            let number = names.count.saturating_add(1);
            out.extend_from_slice(b"letvar ")?;
            names.put_made(out, number)?;
            put_guard((b":=", b" in "), value, out, names)?;
            names.count = number;
            names.scope.push(number)?;
            put_part(body, out, names)?;
            let _local = names.scope.pop();
            Ok(())
        }
    }
}

/// The text of an image's globals and of commands, without layout.
fn written(alloc: Global, image: &Image, body: &[Cmd]) -> Result<Vec<u8>, AllocError> {
    let mut out = Vec::new(alloc);
    put_declarations(&mut out, image)?;
    let mut names = Names::of(alloc, &image.globals);
    put_all(body, &mut out, &mut names)?;
    Ok(out)
}

/// The program that a text writes.
pub(crate) fn read<'a>(alloc: Global, text: &'a [u8]) -> Result<Program<'a>, AuditError> {
    let tokens = match lex(alloc, text) {
        Ok(tokens) => tokens,
        Err(LexError::Memory) => return Err(AuditError::Memory),
        Err(_) => return Err(AuditError::NoText),
    };
    match parse(alloc, &tokens) {
        Ok(program) => Ok(program),
        Err(ParseError::Memory) => Err(AuditError::Memory),
        Err(_) => Err(AuditError::NoText),
    }
}

/// Refuses a program that doesn't declare an image's globals or write commands of its code.
fn check<'a>(
    alloc: Global,
    image: &'a Image,
    body: &[Cmd],
    program: &Program<'a>,
) -> Result<(), AuditError>
    ensures { OnOk result
        (IsWritten image.now (sequence body.now) (whole program.now)) }
{
    if !declares(program.globals(), &image.globals) {
        return Err(AuditError::NoText);
    }
    if image.globals.len() > 65_535 {
        return Err(AuditError::NoText);
    }
    if !is_code_of(body, &image.code, image.globals.len() as u16) {
        return Err(AuditError::NoText);
    }
    let mut names = InScope::of(alloc, &image.globals)?;
    check_all(body, program.body(), &mut names)
}

/// The text of an image's code in its canonical layout: a text of the language over the image's
/// globals. The locals have made-up names with numbers, as in `audit_text`; the name with the
/// number 0 is used where there is no command.
///
/// # Errors
///
/// `Unstructured`; `NoText` if the text would exceed the limits on texts. `Memory` can replace any
/// answer.
pub fn source_text(alloc: Global, image: &Verified) -> Result<Vec<u8>, AuditError>
    ensures { IfOk result (λ out. IsSourceText image.now out.items) }
{
    let image = image.image();
    let Commands { body, .. } = commands_of(alloc, image)?;
    text_of(alloc, image, &body)
}

/// The canonical text of commands over an image's globals, if the text was read again and declares
/// the image's globals and writes commands of its code.
fn text_of(alloc: Global, image: &Image, body: &[Cmd]) -> Result<Vec<u8>, AuditError>
    ensures { IfOk result (λ out. IsSourceText image.now out.items) }
{
    let text = written(alloc, image, body)?;
    let program = read(alloc, &text)?;
    check(alloc, image, body, &program)?;
    Ok(print(alloc, &program)?)
}
