//! Resolves commands and expressions in one walk through the text.

ghost use Rattle.std.specs.Prelude.{◌≡◌, ◌+◌, ◌≤◌, length, IfOk, ◌<◌, option_map};
ghost use Rattle.vsi_syntax.specs.{View.{tree, named}, Tree.{Letvar}};
ghost use Rattle.vsi_scope.specs.{View.{expression}, Places.{expression_of}, Faults.{uses, first_fault, Judged, class_marks}, Resolver.{names_of, WalkedOne, WalkedAll, IsWithin, fault_in, fault_in_all}, Limits.{max_declarations}, Resolving.{class_of}};
ghost use Rattle.vsi_lattice.specs.{Known.{Known}, LatticeView.{class_named}};
ghost use Rattle.vsi_syntax.specs.CommandView as syntax;

use crate::program::{Cmd, Ex};
use crate::resolution::whole::Names;
use crate::resolution::{MAX_DECLARATIONS, ScopeError};
use crate::resolved::Entry;
use std::alloc::Global;
use vsi_lattice::{Class, Lattice};
use vsi_syntax::{Expr, Name, Stmt};

/// The expression with a location for each name; brackets disappear.
pub(crate) fn expression<'a>(
    alloc: Global,
    names: &Names<'a>,
    e: &Expr<'a>,
) -> Result<Ex, ScopeError>
    requires { length names.now.globals.keys + length names.now.locals.items ≤ max_declarations }
    ensures value { IfOk result
        (λ x. expression x ≡ expression_of (names_of names.now) (tree e.now)) }
    ensures fault { (classes : Known) →
        Judged result (first_fault classes (uses (names_of names.now) (tree e.now))) }
{
    match e {
        Expr::Number(n) => Ok(Ex::Num(*n)),
        Expr::Name(x) => match names.find(x.text) {
            Some(l) => Ok(Ex::Loc(l, x.span)),
            None => Err(ScopeError::Unbound(x.span)),
        },
        Expr::Bracket(inner) => expression(alloc, names, inner),
        Expr::Binary(op, a, b) => {
            let left = expression(alloc, names, a)?;
            let right = expression(alloc, names, b)?;
            Ok(Ex::Op(*op, Box::new(alloc, left)?, Box::new(alloc, right)?))
        }
    }
}

/// The state of a resolution.
#[derive(Drop)]
pub(crate) struct Resolver<'a> {
    /// The names in scope.
    pub(crate) names: Names<'a>,
    /// The entries of the letvars so far, in text order.
    pub(crate) letvars: Vec<Entry<'a>>,
}

/// The class of a declaration, if one is written.
fn class<'a>(lattice: &Lattice, class: Option<Name<'a>>) -> Result<Option<Class>, ScopeError>
    ensures value { IfOk result
        (λ x. x ≡ class_of (class_named lattice.now) (option_map named class.entry)) }
    ensures fault { Judged result
        (first_fault (class_named lattice.now) (class_marks (option_map named class.entry))) }
{
    let Some(name) = class else {
        return Ok(None);
    };
    match lattice.class_named(name.text) {
        Some(c) => Ok(Some(c)),
        None => Err(ScopeError::UnknownClass(name.span)),
    }
}

/// Resolves a letvar: its name, its class, its initial value in the outer scope, and then the body.
#[cycle(resolution)]
fn local<'a>(
    alloc: Global,
    lattice: &Lattice,
    resolver: &mut Resolver<'a>,
    out: &mut Vec<Cmd>,
    x: Name<'a>,
    written: Option<Name<'a>>,
    e: &Expr<'a>,
    c: &Stmt<'a>,
) -> Result<(), ScopeError>
    requires { IsWithin resolver.old }
    ensures value { IfOk result
        (λ _. WalkedOne (class_named lattice.now) resolver.old resolver.new out.old.items
        out.new.items
        (Letvar (named x.entry) (option_map named written.entry) (tree e.now)
        (syntax.command c.now))) }
    ensures fault { Judged result
        (fault_in (class_named lattice.now) resolver.old
        (Letvar (named x.entry) (option_map named written.entry) (tree e.now)
        (syntax.command c.now))) }
{
    if resolver.names.globals.len() + resolver.letvars.len() >= MAX_DECLARATIONS {
        return Err(ScopeError::TooManyDeclarations(x.span));
    }
    let class = class(lattice, written)?;
    let value = expression(alloc, &resolver.names, e)?;
    let entry = Entry {
        name: x.text,
        class,
        span: x.span,
    };
    let Ok(()) = resolver.letvars.push(entry) else {
        return Err(ScopeError::Memory);
    };
    resolver.names.locals.push(x.text)?;
    let mut body = Vec::new(alloc);
    statement(alloc, lattice, resolver, &mut body, c)?;
    let outside = resolver.names.locals.len() - 1;
    resolver.names.locals.truncate(outside);
    out.push(Cmd::Letvar { value, body })?;
    Ok(())
}

/// Appends the commands of a sequence to `out`.
#[cycle(resolution)]
pub(crate) fn sequence<'a>(
    alloc: Global,
    lattice: &Lattice,
    resolver: &mut Resolver<'a>,
    out: &mut Vec<Cmd>,
    body: &[Stmt<'a>],
) -> Result<(), ScopeError>
    requires { IsWithin resolver.old }
    ensures value { IfOk result
        (λ _. WalkedAll (class_named lattice.now) resolver.old resolver.new out.old.items
        out.new.items
        (syntax.body_of body.now)) }
    ensures fault { Judged result
        (fault_in_all (class_named lattice.now) resolver.old (syntax.body_of body.now)) }
{
    for c in body {
        statement(alloc, lattice, resolver, out, c)?;
    }
    Ok(())
}

/// Appends the commands of one statement to `out`.
#[cycle(resolution)]
fn statement<'a>(
    alloc: Global,
    lattice: &Lattice,
    resolver: &mut Resolver<'a>,
    out: &mut Vec<Cmd>,
    c: &Stmt<'a>,
) -> Result<(), ScopeError>
    requires { IsWithin resolver.old }
    ensures value { IfOk result
        (λ _. WalkedOne (class_named lattice.now) resolver.old resolver.new out.old.items
        out.new.items
        (syntax.command c.now)) }
    ensures fault { Judged result
        (fault_in (class_named lattice.now) resolver.old (syntax.command c.now)) }
{
    match c {
        Stmt::Assign(x, e) => {
            let Some(loc) = resolver.names.find(x.text) else {
                return Err(ScopeError::Unbound(x.span));
            };
            let value = expression(alloc, &resolver.names, e)?;
            let span = x.span;
            out.push(Cmd::Assign { loc, span, value })?;
            Ok(())
        }
        Stmt::If(e, first, second) => {
            let guard = expression(alloc, &resolver.names, e)?;
            let mut yes = Vec::new(alloc);
            statement(alloc, lattice, resolver, &mut yes, first)?;
            let mut no = Vec::new(alloc);
            statement(alloc, lattice, resolver, &mut no, second)?;
            out.push(Cmd::If { guard, yes, no })?;
            Ok(())
        }
        Stmt::While(e, c) => {
            let guard = expression(alloc, &resolver.names, e)?;
            let mut body = Vec::new(alloc);
            statement(alloc, lattice, resolver, &mut body, c)?;
            out.push(Cmd::While { guard, body })?;
            Ok(())
        }
        Stmt::Letvar(x, class, e, c) => local(alloc, lattice, resolver, out, *x, *class, e, c),
        Stmt::Block(body) => sequence(alloc, lattice, resolver, out, body),
    }
}
