//! Whether code or a tree writes commands, found by a walk through both.

ghost use Rattle.std.specs.Prelude.{◌≡◌, [], ◌∷◌, true, IfSome, None, IfOk, OnOk, map, pos};
ghost use Rattle.vsi_scope.specs.{Language.{expression_size, size, Number, Location, Skip, If, While, Letvar}, View.{expression, command, sequence}, Scopes.{Scope as Names, StandsFor}};
ghost use Rattle.vsi_code.specs.Layout.{expression_code, code_at, whole_code};
ghost use Rattle.vsi_audit.specs.{Coding.{StandsAt}, Written.{names_of}, Writing.{WritesExpression, WritesCommand, WritesPart, WritesAll}};
ghost use Rattle.vsi_syntax.specs.declared.token.Span.{Span};
ghost use Rattle.vsi_image.specs.declared.instr.Instr.TheVariants as instr;
ghost use Rattle.vsi_code.specs.Layout as layout;
ghost use Rattle.vsi_syntax.specs.Tree as tree;
ghost use Rattle.vsi_syntax.specs.View as view;
ghost use Rattle.vsi_syntax.specs.CommandView as syntax;
ghost use Rattle.vsi_image.specs.Fields as fields;

use crate::flow::AuditError;
use std::alloc::{AllocError, Global};
use vsi_image::Instr;
use vsi_scope::{Cmd, Ex};
use vsi_syntax::{Expr, Name, Op, Stmt};

/// The instruction of an operator.
fn op_code(op: Op) -> Instr
    ensures { result ≡ layout.op_code op }
{
    match op {
        Op::Add => Instr::Add,
        Op::Sub => Instr::Sub,
        Op::Mul => Instr::Mul,
        Op::Eq => Instr::Eq,
        Op::Lt => Instr::Lt,
    }
}

/// The place after an instruction, if it is at this place.
fn behind(code: &[Instr], place: usize, wanted: Instr) -> Option<usize>
    ensures { IfSome result (StandsAt code.now (wanted ∷ []) place 1) }
{
    if place >= code.len() {
        return None;
    }
    if code[place] == wanted {
        return Some(place + 1);
    }
    None
}

/// The place after a jump to this target, if it is at this place.
fn behind_jump(code: &[Instr], place: usize, target: usize) -> Option<usize>
    ensures { IfSome result (StandsAt code.now (instr.Jmp target ∷ []) place 1) }
{
    if target > 65_535 {
        return None;
    }
    behind(code, place, Instr::Jmp(target as u32))
}

/// The place after a jump on 0 to this target, if it is at this place.
fn behind_test(code: &[Instr], place: usize, target: usize) -> Option<usize>
    ensures { IfSome result (StandsAt code.now (instr.Jz target ∷ []) place 1) }
{
    if target > 65_535 {
        return None;
    }
    behind(code, place, Instr::Jz(target as u32))
}

/// The place after the code of an expression, if it is at this place.
fn behind_expression(e: &Ex, code: &[Instr], place: usize) -> Option<usize>
    ensures { IfSome result
        (StandsAt code.now (expression_code (expression e.now)) place
        (expression_size (expression e.now))) }
{
    match e {
        Ex::Num(n) => behind(code, place, Instr::Push(*n)),
        Ex::Loc(location, _) => behind(code, place, Instr::Load(*location)),
        Ex::Op(op, left, right) => {
            let middle = behind_expression(left, code, place)?;
            let last = behind_expression(right, code, middle)?;
            behind(code, last, op_code(*op))
        }
    }
}

/// The place after the code of commands with `scope` slots in scope, if it is at this place.
#[cycle(coding)]
fn behind_all(body: &[Cmd], code: &[Instr], start: usize, scope: u16) -> Option<usize>
    ensures { IfSome result
        (StandsAt code.now (code_at start scope (sequence body.now)) start
        (size (sequence body.now))) }
{
    let mut place = start;
    for c in body {
        place = behind_one(c, code, place, scope)?;
    }
    Some(place)
}

/// The place after the code of a command, if it is at this place.
#[cycle(coding)]
fn behind_one(c: &Cmd, code: &[Instr], place: usize, scope: u16) -> Option<usize>
    ensures { IfSome result
        (StandsAt code.now (code_at place scope (command c.now)) place (size (command c.now))) }
{
    match c {
        Cmd::Assign { loc, value, .. } => {
            let store = behind_expression(value, code, place)?;
            behind(code, store, Instr::Store(*loc))
        }
        Cmd::If { guard, yes, no } => {
            let test = behind_expression(guard, code, place)?;
            let first = test.checked_add(1)?;
            let jump = behind_all(yes, code, first, scope)?;
            let second = jump.checked_add(1)?;
            let end = behind_all(no, code, second, scope)?;
            let _tested = behind_test(code, test, second)?;
            let _jumped = behind_jump(code, jump, end)?;
            Some(end)
        }
        Cmd::While { guard, body } => {
            let test = behind_expression(guard, code, place)?;
            let first = test.checked_add(1)?;
            let jump = behind_all(body, code, first, scope)?;
            let end = behind_jump(code, jump, place)?;
            let _tested = behind_test(code, test, end)?;
            Some(end)
        }
        Cmd::Letvar { value, body } => {
            let store = behind_expression(value, code, place)?;
            let first = behind(code, store, Instr::Store(scope))?;
            let above = scope.checked_add(1)?;
            let end = behind_all(body, code, first, above)?;
            Some(end)
        }
    }
}

/// Whether code is the whole code of commands over this many globals.
pub(crate) fn is_code_of(body: &[Cmd], code: &[Instr], globals: u16) -> bool
    ensures { result ≡ true → code.now ≡ whole_code globals (sequence body.now) }
{
    let Some(halt) = behind_all(body, code, 0, globals) else {
        return false;
    };
    let Some(end) = behind(code, halt, Instr::Halt) else {
        return false;
    };
    end == code.len()
}

/// The names in scope, with those of globals first and the innermost last.
#[derive(Drop)]
pub(crate) struct InScope<'a> {
    names: Vec<&'a [u8]>,
}

impl<'a> InScope<'a> {
    ghost use Rattle.std.specs.Prelude.{◌-◌, ◌<◌, ◌++◌, ◌∷◌, [], length, take};

    /// The names of the globals.
    pub(crate) fn of(
        alloc: Global,
        globals: &'a [(Vec<u8>, Vec<u8>)],
    ) -> Result<InScope<'a>, AllocError>
        ensures { IfOk result
            (λ s. names_of s ≡ map (λ g. g.0) (fields.globals globals.entry.now)) }
    {
        let mut names: Vec<&'a [u8]> = Vec::new(alloc);
        for global in globals {
            names.push(&global.0)?;
        }
        Ok(InScope { names })
    }

    /// Brings a letvar's name into scope.
    fn enter(&mut self, name: &'a [u8]) -> Result<(), AllocError>
        ensures { OnOk result
            (self.new.names.items ≡ self.old.names.items ++ name.entry ∷ []) }
    {
        self.names.push(name)?;
        Ok(())
    }

    /// Removes the innermost letvar's name from scope.
    fn leave(&mut self)
        requires { 0 < length self.old.names.items }
        ensures { self.new.names.items ≡
            take (length self.old.names.items - 1) self.old.names.items }
    {
        let before = self.names.len() - 1;
        self.names.truncate(before);
    }
}

/// The last place of a name, found by comparing every name from the last one on.
fn last_place(names: &[&[u8]], name: &[u8]) -> Option<usize>
    ensures { IfSome result (StandsFor (map (λ x. x.now) names.now) name.now) }
{
    let mut at = names.len();
    while at > 0 {
        at -= 1;
        if names[at] == name {
            return Some(at);
        }
    }
    None
}

/// Whether a tree is this number.
fn is_number(written: &Expr<'_>, n: i64) -> bool
    ensures { result ≡ true → view.tree written.now ≡ tree.Number n }
{
    match written {
        Expr::Number(m) => *m == n,
        _ => false,
    }
}

/// Whether a tree writes a number.
fn writes_number(written: &Expr<'_>, number: &i64) -> bool
    ensures { (names : Names) → result ≡ true →
        WritesExpression names (Number number.now) (view.tree written.now) }
{
    let n = *number;
    if n >= 0 {
        return is_number(written, n);
    }
    let Expr::Binary(op, left, right) = written else {
        return false;
    };
    match op {
        Op::Add => {
            if n > i64::MIN {
                return false;
            }
            if !is_number(left, i64::MAX) {
                return false;
            }
            is_number(right, 1)
        }
        Op::Sub => {
            if n == i64::MIN {
                return false;
            }
            if !is_number(left, 0) {
                return false;
            }
            let opposite = -n;
            is_number(right, opposite)
        }
        _ => false,
    }
}

/// Whether a tree is a name that denotes a location.
fn writes_location(written: &Expr<'_>, location: u16, names: &InScope<'_>) -> bool
    ensures { (span : Span) → result ≡ true →
        WritesExpression (names_of names.now) (Location location span) (view.tree written.now) }
{
    let Expr::Name(name) = written else {
        return false;
    };
    stands_for(*name, location, names)
}

/// Whether a name denotes a location.
fn stands_for(name: Name<'_>, location: u16, names: &InScope<'_>) -> bool
    ensures { result ≡ true → StandsFor (names_of names.now) name.entry.text.now location }
{
    match last_place(&names.names, name.text) {
        Some(place) => place == location as usize,
        None => false,
    }
}

/// Whether a tree writes an expression.
fn writes_expression(written: &Expr<'_>, e: &Ex, names: &InScope<'_>) -> bool
    ensures { result ≡ true →
        WritesExpression (names_of names.now) (expression e.now) (view.tree written.now) }
{
    if let Expr::Bracket(inner) = written {
        return writes_expression(inner, e, names);
    }
    match e {
        Ex::Num(n) => writes_number(written, n),
        Ex::Loc(location, _) => writes_location(written, *location, names),
        Ex::Op(op, left, right) => {
            let Expr::Binary(other, first, second) = written else {
                return false;
            };
            if *op != *other {
                return false;
            }
            if !writes_expression(first, left, names) {
                return false;
            }
            writes_expression(second, right, names)
        }
    }
}

/// Refuses a tree that doesn't write an expression.
fn check_expression(written: &Expr<'_>, e: &Ex, names: &InScope<'_>) -> Result<(), AuditError>
    ensures { OnOk result
        (WritesExpression (names_of names.now) (expression e.now) (view.tree written.now)) }
{
    if writes_expression(written, e, names) {
        Ok(())
    } else {
        Err(AuditError::NoText)
    }
}

/// Refuses a name that doesn't denote a location.
fn check_name(name: Name<'_>, location: u16, names: &InScope<'_>) -> Result<(), AuditError>
    ensures { OnOk result (StandsFor (names_of names.now) name.entry.text.now location) }
{
    if stands_for(name, location, names) {
        Ok(())
    } else {
        Err(AuditError::NoText)
    }
}

/// Refuses two trees unless both are 0.
fn check_zeros(first: &Expr<'_>, second: &Expr<'_>) -> Result<(), AuditError>
    ensures first { OnOk result (view.tree first.now ≡ tree.Number (pos 0)) }
    ensures second { OnOk result (view.tree second.now ≡ tree.Number (pos 0)) }
{
    if !is_number(first, 0) {
        return Err(AuditError::NoText);
    }
    if !is_number(second, 0) {
        return Err(AuditError::NoText);
    }
    Ok(())
}

/// Refuses a command unless it is a letvar that is initialised with 0 and set to 0.
fn check_idle(written: &Stmt<'_>) -> Result<(), AuditError>
    ensures { (names : Names) → OnOk result
        (WritesAll names Skip (tree.Then (syntax.command written.now) tree.Done)) }
{
    let Stmt::Letvar(outer, class, value, body) = written else {
        return Err(AuditError::NoText);
    };
    let Stmt::Assign(inner, again) = &**body else {
        return Err(AuditError::NoText);
    };
    if class.is_some() {
        return Err(AuditError::NoText);
    }
    if outer.text == inner.text {
        check_zeros(value, again)
    } else {
        Err(AuditError::NoText)
    }
}

/// Refuses a tree that doesn't write a command.
#[cycle(writing)]
fn check_one<'a>(c: &Cmd, written: &Stmt<'a>, names: &mut InScope<'a>) -> Result<(), AuditError>
    ensures kept { OnOk result (names.new.names.items ≡ names.old.names.items) }
    ensures written { OnOk result
        (WritesCommand (names_of names.old) (command c.now) (syntax.command written.now)) }
{
    match c {
        Cmd::Assign { loc, value, .. } => {
            let Stmt::Assign(name, e) = written else {
                return Err(AuditError::NoText);
            };
            check_name(*name, *loc, names)?;
            check_expression(e, value, names)
        }
        Cmd::If { guard, yes, no } => {
            let Stmt::If(e, first, second) = written else {
                return Err(AuditError::NoText);
            };
            check_expression(e, guard, names)?;
            check_part(yes, first, names)?;
            check_part(no, second, names)
        }
        Cmd::While { guard, body } => {
            let Stmt::While(e, inner) = written else {
                return Err(AuditError::NoText);
            };
            check_expression(e, guard, names)?;
            check_part(body, inner, names)
        }
        Cmd::Letvar { value, body } => {
            let Stmt::Letvar(name, class, e, inner) = written else {
                return Err(AuditError::NoText);
            };
            if class.is_some() {
                return Err(AuditError::NoText);
            }
            check_expression(e, value, names)?;
            names.enter(name.text)?;
            check_part(body, inner, names)?;
            names.leave();
            Ok(())
        }
    }
}

/// Refuses one command that doesn't write a sequence.
#[cycle(writing)]
fn check_part<'a>(
    body: &[Cmd],
    written: &Stmt<'a>,
    names: &mut InScope<'a>,
) -> Result<(), AuditError>
    ensures kept { OnOk result (names.new.names.items ≡ names.old.names.items) }
    ensures written { OnOk result
        (WritesPart (names_of names.old) (sequence body.now) (syntax.command written.now)) }
{
    if let Stmt::Block(inner) = written {
        return check_all(body, inner, names);
    }
    match body {
        [] => check_idle(written),
        [c] => check_one(c, written, names),
        _ => Err(AuditError::NoText),
    }
}

/// Refuses a sequence that doesn't write these commands.
#[cycle(writing)]
pub(crate) fn check_all<'a>(
    body: &[Cmd],
    written: &[Stmt<'a>],
    names: &mut InScope<'a>,
) -> Result<(), AuditError>
    ensures kept { OnOk result (names.new.names.items ≡ names.old.names.items) }
    ensures written { OnOk result
        (WritesAll (names_of names.old) (sequence body.now) (syntax.body_of written.now)) }
{
    if body.is_empty() {
        let [only] = written else {
            return Err(AuditError::NoText);
        };
        return check_idle(only);
    }
    if body.len() != written.len() {
        return Err(AuditError::NoText);
    }
    let mut place = 0;
    for c in body {
        check_one(c, &written[place], names)?;
        place += 1;
    }
    Ok(())
}
