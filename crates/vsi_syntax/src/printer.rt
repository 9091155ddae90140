//! Prints a program in its canonical form.

ghost use Rattle.std.specs.Prelude.{◌≡◌, ◌≤◌, ◌+◌, ◌++◌, IfOk, OnOk, option_map};
ghost use Rattle.vsi_syntax.specs.{Tree.{command_depth, body_depth}, View.{tree, named}, CommandView.{command, body_of, declared}, ProgramView.{whole}, Limits.{max_depth}};
ghost use Rattle.vsi_syntax.specs.Canon as spec;

use crate::numbers::put_word;
use crate::tree::{Declaration, Expr, Name, Op, Program, Stmt};
use std::alloc::{AllocError, Global};

/// The canonical text of a program, which reads back as the same program up to spans.
///
/// Each global has a line `var NAME : CLASS;`. Each command of a sequence has its own lines,
/// indented by two more spaces in each block, and the text ends with a line feed. An operator has
/// one space on each side. The text of a long program may be longer than `MAX_TEXT_LENGTH`, and
/// then cannot be read back.
pub fn print(alloc: Global, program: &Program) -> Result<Vec<u8>, AllocError>
    // The output is the canonical text.
    ensures canonical { IfOk result (λ text. text.items ≡ spec.canon (whole program.now)) }
{
    let mut out = Vec::new(alloc);
    let globals = program.globals();
    for g in globals {
        print_global(&mut out, g)?;
    }
    print_body(&mut out, program.body(), 0)?;
    out.extend_from_slice(b"\n")?;
    Ok(out)
}

/// Prints the line of a global.
fn print_global(out: &mut Vec<u8>, g: &Declaration) -> Result<(), AllocError>
    ensures { OnOk result (out.new.items ≡ out.old.items ++ spec.canon_global (declared g.now)) }
{
    out.extend_from_slice(b"var ")?;
    out.extend_from_slice(g.name.text)?;
    out.extend_from_slice(b" : ")?;
    out.extend_from_slice(g.class.text)?;
    out.extend_from_slice(b";\n")
}

/// Prints an expression.
fn print_expression(out: &mut Vec<u8>, e: &Expr) -> Result<(), AllocError>
    ensures { OnOk result (out.new.items ≡ out.old.items ++ spec.canon_tree (tree e.now)) }
{
    match e {
        Expr::Number(n) => put_word(out, *n),
        Expr::Name(x) => out.extend_from_slice(x.text),
        Expr::Bracket(e) => {
            out.extend_from_slice(b"(")?;
            print_expression(out, e)?;
            out.extend_from_slice(b")")
        }
        Expr::Binary(op, a, b) => {
            print_expression(out, a)?;
            out.extend_from_slice(match op {
                Op::Add => b" + ",
                Op::Sub => b" - ",
                Op::Mul => b" * ",
                Op::Eq => b" = ",
                Op::Lt => b" < ",
            })?;
            print_expression(out, b)
        }
    }
}

/// Prints a class after a colon, or nothing.
fn print_class(out: &mut Vec<u8>, class: Option<Name>) -> Result<(), AllocError>
    ensures { OnOk result
        (out.new.items ≡ out.old.items ++ spec.canon_class (option_map named class.entry)) }
{
    match class {
        None => Ok(()),
        Some(class) => {
            out.extend_from_slice(b" : ")?;
            out.extend_from_slice(class.text)
        }
    }
}

/// Writes two spaces for each level of indentation.
pub(crate) fn put_spaces(out: &mut Vec<u8>, indent: u16) -> Result<(), AllocError>
    ensures { OnOk result (out.new.items ≡ out.old.items ++ spec.spaces indent) }
{
    for _ in 0..indent {
        out.extend_from_slice(b"  ")?;
    }
    Ok(())
}

/// Prints a sequence at an indentation level.
#[cycle(printing)]
fn print_body(out: &mut Vec<u8>, body: &[Stmt], indent: u16) -> Result<(), AllocError>
    requires { indent + body_depth (body_of body.now) ≤ max_depth }
    ensures { OnOk result
        (out.new.items ≡ out.old.items ++ spec.canon_body indent (body_of body.now)) }
{
    let mut first = true;
    for c in body {
        if !first {
            out.extend_from_slice(b";\n")?;
        }
        first = false;
        put_spaces(out, indent)?;
        print_command(out, c, indent)?;
    }
    Ok(())
}

/// Prints a command at an indentation level, without the spaces before it.
#[cycle(printing)]
fn print_command(out: &mut Vec<u8>, c: &Stmt, indent: u16) -> Result<(), AllocError>
    requires { indent + command_depth (command c.now) ≤ max_depth }
    ensures { OnOk result
        (out.new.items ≡ out.old.items ++ spec.canon_command indent (command c.now)) }
{
    match c {
        Stmt::Assign(x, e) => {
            out.extend_from_slice(x.text)?;
            out.extend_from_slice(b" := ")?;
            print_expression(out, e)
        }
        Stmt::If(e, yes, no) => {
            out.extend_from_slice(b"if ")?;
            print_expression(out, e)?;
            out.extend_from_slice(b" then ")?;
            print_command(out, yes, indent)?;
            out.extend_from_slice(b" else ")?;
            print_command(out, no, indent)
        }
        Stmt::While(e, body) => {
            out.extend_from_slice(b"while ")?;
            print_expression(out, e)?;
            out.extend_from_slice(b" do ")?;
            print_command(out, body, indent)
        }
        Stmt::Letvar(x, class, e, body) => {
            out.extend_from_slice(b"letvar ")?;
            out.extend_from_slice(x.text)?;
            print_class(out, *class)?;
            out.extend_from_slice(b" := ")?;
            print_expression(out, e)?;
            out.extend_from_slice(b" in ")?;
            print_command(out, body, indent)
        }
        Stmt::Block(body) => {
            out.extend_from_slice(b"{\n")?;
            print_body(out, body, indent + 1)?;
            out.extend_from_slice(b"\n")?;
            put_spaces(out, indent)?;
            out.extend_from_slice(b"}")
        }
    }
}
