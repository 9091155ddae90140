//! From commands to instructions. A forward jump is first emitted with target 0, and aimed after
//! the code that it skips is emitted. So each instruction is emitted once, and no part is measured.

ghost use Rattle.std.specs.Prelude.{◌≡◌, ◌+◌, ◌<◌, ◌≤◌, [], ◌∷◌, ◌++◌, length, slice_set, IfOk, OnOk};
ghost use Rattle.vsi_code.specs.Layout.{Fits, op_code, expression_code, guard_code, with_code, whole_code};
ghost use Rattle.vsi_image.specs.{declared.instr.Instr.{Instr}, Fields.{max_instructions}};
ghost use Rattle.vsi_image.specs.declared.instr.Instr.TheVariants as spec;
ghost use Rattle.vsi_scope.specs.{Language.{expression_size}, View.{expression, command, sequence}};

use std::alloc::{AllocError, Global};
use vsi_image::Instr;
use vsi_scope::{Cmd, Ex};
use vsi_syntax::Op;

/// Emits one more instruction.
fn put(code: &mut Vec<Instr>, instr: Instr) -> Result<(), AllocError>
    ensures { OnOk result (code.new.items ≡ code.old.items ++ instr ∷ []) }
{
    code.push(instr)?;
    Ok(())
}

/// The instruction of an operator.
fn instr_of(op: Op) -> Instr
    ensures { result ≡ op_code op }
{
    match op {
        Op::Add => Instr::Add,
        Op::Sub => Instr::Sub,
        Op::Mul => Instr::Mul,
        Op::Eq => Instr::Eq,
        Op::Lt => Instr::Lt,
    }
}

/// Emits an expression, whose code leaves its word on top of the operands.
fn emit_expression(code: &mut Vec<Instr>, e: &Ex) -> Result<(), AllocError>
    ensures { OnOk result (code.new.items ≡ code.old.items ++ expression_code (expression e.now)) }
{
    match e {
        Ex::Num(n) => put(code, Instr::Push(*n)),
        Ex::Loc(location, _) => put(code, Instr::Load(*location)),
        Ex::Op(op, left, right) => {
            emit_expression(code, left)?;
            emit_expression(code, right)?;
            put(code, instr_of(*op))
        }
    }
}

/// Emits a guard and its test, which is not aimed yet. Returns the position of the test.
fn emit_guard(code: &mut Vec<Instr>, guard: &Ex) -> Result<usize, AllocError>
    ensures code { OnOk result
        (code.new.items ≡ code.old.items ++ guard_code (expression guard.now) 0) }
    ensures place { IfOk result
        (λ place. place ≡ length code.old.items + expression_size (expression guard.now)) }
{
    emit_expression(code, guard)?;
    let place = code.len();
    put(code, Instr::Jz(0))?;
    Ok(place)
}

/// Aims the test at this position at the end of the code.
fn aim_test(code: &mut Vec<Instr>, place: usize)
    requires within { place < length code.old.items }
    requires small { length code.old.items ≤ max_instructions }
    ensures { code.new.items ≡ slice_set code.old.items place (spec.Jz (length code.old.items)) }
{
    code[place] = Instr::Jz(code.len() as u32);
}

/// Aims the jump at this position at the end of the code.
fn aim_jump(code: &mut Vec<Instr>, place: usize)
    requires within { place < length code.old.items }
    requires small { length code.old.items ≤ max_instructions }
    ensures { code.new.items ≡ slice_set code.old.items place (spec.Jmp (length code.old.items)) }
{
    code[place] = Instr::Jmp(code.len() as u32);
}

/// Emits commands in turn, with this many words in scope.
#[cycle(emission)]
fn emit_all(code: &mut Vec<Instr>, scope: u16, body: &[Cmd]) -> Result<(), AllocError>
    requires { Fits (length code.old.items) scope (sequence body.now) }
    ensures { OnOk result (code.new.items ≡ with_code code.old.items scope (sequence body.now)) }
{
    for c in body {
        emit_one(code, scope, c)?;
    }
    Ok(())
}

/// Emits one command, with this many words in scope.
#[cycle(emission)]
fn emit_one(code: &mut Vec<Instr>, scope: u16, c: &Cmd) -> Result<(), AllocError>
    requires { Fits (length code.old.items) scope (command c.now) }
    ensures { OnOk result (code.new.items ≡ with_code code.old.items scope (command c.now)) }
{
    match c {
        Cmd::Assign { loc, value, .. } => {
            emit_expression(code, value)?;
            put(code, Instr::Store(*loc))?;
        }
        Cmd::If { guard, yes, no } => {
            let test = emit_guard(code, guard)?;
            emit_all(code, scope, yes.as_slice())?;
            let jump = code.len();
            put(code, Instr::Jmp(0))?;
            aim_test(code, test);
            emit_all(code, scope, no.as_slice())?;
            aim_jump(code, jump);
        }
        Cmd::While { guard, body } => {
            let start = code.len() as u32;
            let test = emit_guard(code, guard)?;
            emit_all(code, scope, body.as_slice())?;
            put(code, Instr::Jmp(start))?;
            aim_test(code, test);
        }
        Cmd::Letvar { value, body } => {
            emit_expression(code, value)?;
            put(code, Instr::Store(scope))?;
            emit_all(code, scope + 1, body.as_slice())?;
        }
    }
    Ok(())
}

/// The whole code of a body in a program with this many globals.
pub(crate) fn whole_code(
    alloc: Global,
    globals: u16,
    body: &[Cmd],
) -> Result<Vec<Instr>, AllocError>
    requires { Fits 0 globals (sequence body.now) }
    ensures { IfOk result (λ code. code.items ≡ whole_code globals (sequence body.now)) }
{
    let mut code = Vec::new(alloc);
    emit_all(&mut code, globals, body)?;
    put(&mut code, Instr::Halt)?;
    Ok(code)
}
