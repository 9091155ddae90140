//! What the lines of a run name: the classes, the globals, and the sites with their classes.

use std::alloc::{AllocError, Global};
use vsi_lattice::{Class, Classes, Lattice};
use vsi_scope::{Cmd, Ex, Global as Declared, Resolved};
use vsi_syntax::{Kind, Token, lex, line_column};

/// A site of a text.
#[derive(Drop)]
pub struct Site<'a> {
    /// The line and the column of its first byte, counted from 1.
    pub line: usize,
    pub column: usize,
    /// The name of the variable that is written; nothing for a guard.
    pub name: &'a [u8],
    /// Its tokens up to the end of the expression, with one space for each gap between them.
    pub text: Vec<u8>,
    /// The class of the variable or of the guard.
    pub class: Class,
    /// The number of the first site after it and its parts.
    pub end: usize,
}

/// The name that the site at the first of these tokens writes, and nothing for a guard, if a site
/// begins there; `before` is the token before.
fn site_at<'a>(before: Option<Kind>, tokens: &[Token<'a>]) -> Option<&'a [u8]> {
    match tokens {
        [first, second, ..] => match (before, first.kind, second.kind) {
            (_, Kind::If | Kind::While, _) => Some(b""),
            (_, Kind::Letvar, _) => Some(second.text),
            (Some(Kind::Letvar | Kind::Colon), _, _) => None,
            (_, Kind::Name, Kind::Assign) => Some(first.text),
            _ => None,
        },
        _ => None,
    }
}

/// The text of the tokens up to the end of an expression.
fn text_of(alloc: Global, tokens: &[Token<'_>]) -> Result<Vec<u8>, AllocError> {
    let mut text = Vec::new(alloc);
    let mut stop = usize::MAX;
    for token in tokens {
        if matches!(
            token.kind,
            Kind::Then | Kind::Do | Kind::In | Kind::Semicolon | Kind::Else | Kind::CloseBrace
        ) {
            return Ok(text);
        }
        if stop < token.span.start {
            text.push(b' ')?;
        }
        text.extend_from_slice(token.text)?;
        stop = token.span.stop;
    }
    Ok(text)
}

/// The sites of a text, in order, with the bottom class.
fn sites_of<'a>(
    alloc: Global,
    lattice: &Lattice,
    source: &'a [u8],
) -> Result<Vec<Site<'a>>, AllocError> {
    let Ok(tokens) = lex(alloc, source) else {
        return Err(AllocError);
    };
    let mut sites = Vec::new(alloc);
    let mut before = None;
    let (mut at, mut line, mut column): (usize, usize, usize) = (0, 1, 1);
    for (i, token) in tokens.iter().enumerate() {
        let rest = &tokens[i..];
        if let Some(name) = site_at(before, rest) {
            let between = source.get(at..token.span.start).unwrap_or(b"");
            let (lines, columns) = line_column(between, between.len());
            line = line.saturating_add(lines - 1);
            let first = if lines == 1 { column } else { 1 };
            column = first.saturating_add(columns - 1);
            at = token.span.start;
            sites.push(Site {
                line,
                column,
                name,
                text: text_of(alloc, rest)?,
                class: lattice.bottom(),
                end: 0,
            })?;
        }
        before = Some(token.kind);
    }
    Ok(sites)
}

/// The classes, globals and sites of a program, which the lines of its runs name.
#[derive(Drop)]
pub struct Listing<'a> {
    pub lattice: &'a Lattice,
    /// The globals, in order.
    pub globals: &'a [Declared<'a>],
    /// The sites, by their numbers.
    pub sites: Vec<Site<'a>>,
}

/// A walk over a program in the order of the text.
#[derive(Drop)]
struct Walk<'a, 'b> {
    lattice: &'a Lattice,
    /// The classes of the declarations that are still to come.
    classes: &'a [Class],
    /// The class of each location in scope.
    scope: Vec<Class>,
    /// The number of sites so far.
    next: usize,
    sites: Vec<Site<'b>>,
}

/// The class of what an expression reads.
fn class_of(lattice: &Lattice, scope: &[Class], e: &Ex) -> Class {
    match e {
        Ex::Num(_) => lattice.bottom(),
        Ex::Loc(l, _) => scope.get(*l as usize).copied().unwrap_or(lattice.bottom()),
        Ex::Op(_, a, b) => {
            let (a, b) = (class_of(lattice, scope, a), class_of(lattice, scope, b));
            if a.index() < lattice.count() && b.index() < lattice.count() {
                lattice.join(a, b)
            } else {
                a
            }
        }
    }
}

/// Marks the sites of commands and of their parts.
fn mark(body: &[Cmd], walk: &mut Walk<'_, '_>) -> Result<(), AllocError> {
    for c in body {
        let at = walk.next;
        walk.next = at.saturating_add(1);
        let class = match c {
            Cmd::Assign { loc, span, .. } => {
                class_of(walk.lattice, &walk.scope, &Ex::Loc(*loc, *span))
            }
            Cmd::If { guard, yes, no } => {
                mark(yes, walk)?;
                mark(no, walk)?;
                class_of(walk.lattice, &walk.scope, guard)
            }
            Cmd::While { guard, body } => {
                mark(body, walk)?;
                class_of(walk.lattice, &walk.scope, guard)
            }
            Cmd::Letvar { body, .. } => {
                let [class, rest @ ..] = walk.classes else {
                    return Ok(());
                };
                let outside = walk.scope.len();
                walk.classes = rest;
                walk.scope.push(*class)?;
                mark(body, walk)?;
                walk.scope.truncate(outside);
                *class
            }
        };
        if let Some(site) = walk.sites.get_mut(at) {
            site.class = class;
            site.end = walk.next;
        }
    }
    Ok(())
}

/// The listing of a program. The text is that of the program, and `classes` has a class for each of
/// its declarations, globals first.
pub fn listing_of<'a>(
    alloc: Global,
    lattice: &'a Lattice,
    text: &'a [u8],
    program: &'a Resolved<'a>,
    classes: &'a [Class],
) -> Result<Listing<'a>, AllocError> {
    let globals = program.globals();
    let (scope, classes) = classes.split_at(globals.len().min(classes.len()));
    let mut walk = Walk {
        lattice,
        classes,
        scope: Vec::from_slice(alloc, scope)?,
        next: 0,
        sites: sites_of(alloc, lattice, text)?,
    };
    mark(program.body(), &mut walk)?;
    let Walk { sites, .. } = walk;
    Ok(Listing {
        lattice,
        globals,
        sites,
    })
}
