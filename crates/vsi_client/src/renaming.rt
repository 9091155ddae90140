//! The names of a program's variables, where they are in its text, and their renaming.

ghost use Rattle.std.specs.Prelude.{◌≡◌, true, [], ◌∷◌, length, map, slice_set, IfOk, IfSome};
ghost use Rattle.vsi_lattice.specs.LatticeView.{class_named};
ghost use Rattle.vsi_client.specs.{Changes.{changed_by}, Names.{after_first, with_name}, Respelled.{AreInOrder, parts_of, respelled}};
ghost use Rattle.vsi_client.specs.Renamed as spec;

use crate::changes::{Change, changed_by};
use crate::places::{Encoding, Marked, Range};
use std::alloc::{AllocError, Global};
use vsi_code::generate;
use vsi_compiler::{CompileError, Source, read_source};
use vsi_scope::{Cmd, Entry, Ex, Global as Declared, Resolved};
use vsi_syntax::{Span, is_name};

/// Nothing, unless memory runs out.
type Made = Result<(), AllocError>;

/// A name of a variable: its part of the text, the number of the variable, with the globals first,
/// and whether the variable is declared there.
#[derive(Clone, Copy, Debug)]
pub struct Mention {
    pub span: Span,
    pub variable: usize,
    pub is_declaration: bool,
}

/// A walk over a program: where each variable is declared, the names and the number of declarations
/// so far, and the variables in scope.
#[derive(Drop)]
struct Tour {
    declared: Vec<Span>,
    mentions: Vec<Mention>,
    next: usize,
    scope: Vec<usize>,
}

impl Tour {
    /// Notes a name of a variable.
    fn note(&mut self, span: Span, variable: usize, is_declaration: bool) -> Made {
        let mention = Mention {
            span,
            variable,
            is_declaration,
        };
        Ok(self.mentions.push(mention)?)
    }

    /// Notes a name of the variable at a location.
    fn note_location(&mut self, location: u16, span: Span) -> Made {
        let variable = self.scope.get(usize::from(location)).copied();
        self.note(span, variable.unwrap_or(usize::MAX), false)
    }

    /// Notes the declaration of the next variable, which is in scope from then on.
    fn declare(&mut self) -> Made {
        let variable = self.next;
        self.next = variable.saturating_add(1);
        if let Some(span) = self.declared.get(variable).copied() {
            self.note(span, variable, true)?;
        }
        Ok(self.scope.push(variable)?)
    }
}

/// Notes the names of an expression.
fn read(tour: &mut Tour, e: &Ex) -> Made {
    match e {
        Ex::Num(_) => Ok(()),
        Ex::Loc(location, span) => tour.note_location(*location, *span),
        Ex::Op(_, a, b) => {
            read(tour, a)?;
            read(tour, b)
        }
    }
}

/// Walks over a list of commands.
fn walk(tour: &mut Tour, body: &[Cmd]) -> Made {
    for c in body {
        match c {
            Cmd::Assign { loc, span, value } => {
                tour.note_location(*loc, *span)?;
                read(tour, value)?;
            }
            Cmd::If { guard, yes, no } => {
                read(tour, guard)?;
                walk(tour, yes)?;
                walk(tour, no)?;
            }
            Cmd::While { guard, body } => {
                read(tour, guard)?;
                walk(tour, body)?;
            }
            Cmd::Letvar { value, body } => {
                let outside = tour.scope.len();
                tour.declare()?;
                read(tour, value)?;
                walk(tour, body)?;
                tour.scope.truncate(outside);
            }
        }
    }
    Ok(())
}

/// The names of the variables of a program, in the order of its text.
pub fn mentions_of(alloc: Global, source: &Source<'_>) -> Result<Vec<Mention>, AllocError> {
    let program = source.resolved();
    let globals = source.globals().iter().map(|global| global.name.span);
    let mut declared: Vec<Span> = globals.collect(alloc)?;
    declared.extend(program.letvars().iter().map(|entry| entry.span))?;
    let mut tour = Tour {
        declared,
        mentions: Vec::new(alloc),
        next: 0,
        scope: Vec::new(alloc),
    };
    for _ in source.globals() {
        tour.declare()?;
    }
    walk(&mut tour, program.body())?;
    Ok(tour.mentions)
}

/// The same place in the list without its first item.
fn after_first(place: Option<usize>) -> Option<usize>
    ensures { result ≡ after_first place }
{
    place?.checked_sub(1)
}

/// Whether the first name of a list is kept, or is the new one if that is its place.
fn keeps_name(place: Option<usize>, name: &[u8], old: &[u8], new: &[u8]) -> bool
    ensures { result ≡ true → (new.now ∷ []) ≡ with_name place name.now (old.now ∷ []) }
{
    match place {
        Some(0) => new == name,
        _ => new == old,
    }
}

/// Whether each global keeps its class, and its name unless it gets the new one.
fn keep_globals(
    place: Option<usize>,
    name: &[u8],
    olds: &[Declared<'_>],
    news: &[Declared<'_>],
) -> bool
    ensures classes { result ≡ true → map (λ g. g.class) news.now ≡ map (λ g. g.class) olds.now }
    ensures named { result ≡ true → map (λ g. g.name.now) news.now
        ≡ with_name place name.now (map (λ g. g.name.now) olds.now) }
{
    let [old, more @ ..] = olds else {
        return news.is_empty();
    };
    let [new, others @ ..] = news else {
        return false;
    };
    new.class == old.class
        && keeps_name(place, name, old.name, new.name)
        && keep_globals(after_first(place), name, more, others)
}

/// Whether each letvar keeps its declared class, and its name unless it gets the new one.
fn keep_letvars(place: Option<usize>, name: &[u8], olds: &[Entry<'_>], news: &[Entry<'_>]) -> bool
    ensures classes { result ≡ true → map (λ e. e.class) news.now ≡ map (λ e. e.class) olds.now }
    ensures named { result ≡ true → map (λ e. e.name.now) news.now
        ≡ with_name place name.now (map (λ e. e.name.now) olds.now) }
{
    let [old, more @ ..] = olds else {
        return news.is_empty();
    };
    let [new, others @ ..] = news else {
        return false;
    };
    new.class == old.class
        && keeps_name(place, name, old.name, new.name)
        && keep_letvars(after_first(place), name, more, others)
}

/// Whether the variables keep their classes, and their names but for one, which gets the new one.
fn keep_variables(variable: usize, name: &[u8], old: &Resolved<'_>, new: &Resolved<'_>) -> bool
    ensures globals { result ≡ true →
        map (λ g. g.class) new.now.globals ≡ map (λ g. g.class) old.now.globals }
    ensures letvars { result ≡ true →
        map (λ e. e.class) new.now.letvars ≡ map (λ e. e.class) old.now.letvars }
    ensures named { result ≡ true →
        spec.names new.now ≡ slice_set (spec.names old.now) variable name.now }
{
    let globals = old.globals();
    let place = variable.checked_sub(globals.len());
    keep_globals(Some(variable), name, globals, new.globals())
        && keep_letvars(place, name, old.letvars(), new.letvars())
}

/// Whether a program is another one but for the name of a variable.
fn is_kept(
    alloc: Global,
    variable: usize,
    name: &[u8],
    old: &Source<'_>,
    new: &Source<'_>,
) -> Result<bool, AllocError>
    ensures { IfOk result (λ kept. kept ≡ true →
        spec.SameProgram variable name.now old.now.resolved new.now.resolved) }
{
    if !keep_variables(variable, name, old.resolved(), new.resolved()) {
        return Ok(false);
    }
    let before = generate(alloc, old.resolved())?;
    let after = generate(alloc, new.resolved())?;
    Ok(after.image().code == before.image().code)
}

/// Whether the program of a text is that of a source but for the name of a variable.
fn keeps_program(
    alloc: Global,
    variable: usize,
    name: &[u8],
    old: &Source<'_>,
    text: &[u8],
) -> Result<bool, AllocError>
    ensures kept { IfOk result (λ kept. kept ≡ true →
        spec.KeepsProgram (class_named old.now.lattice) variable name.now old.now.text text.now) }
{
    // `resolved` ensures that the program is the text's, which the proof needs.
    let _program = old.resolved();
    match read_source(alloc, old.lattice(), text) {
        Ok(new) => is_kept(alloc, variable, name, old, &new),
        Err(CompileError::Memory) => Err(AllocError),
        Err(_) => Ok(false),
    }
}

/// The parts of a text that mention a variable.
fn parts_of(alloc: Global, variable: usize, mentions: &[Mention]) -> Result<Vec<Span>, AllocError>
    ensures { IfOk result (λ parts. parts.items ≡ parts_of variable mentions.now) }
{
    mentions
        .iter()
        .filter(|mention| mention.variable == variable)
        .map(|mention| mention.span)
        .collect(alloc)
}

/// The text with a name in place of each part: nothing unless the parts follow one another in it.
fn respelled(
    alloc: Global,
    name: &[u8],
    text: &[u8],
    parts: &[Span],
) -> Result<Option<Vec<u8>>, AllocError>
    ensures respelled { IfOk result (λ answer. IfSome answer
        (λ new. new.items ≡ respelled name.now text.now 0 parts.now)) }
    ensures in_order { IfOk result (λ answer. IfSome answer
        (λ new. AreInOrder (length text.now) 0 parts.now)) }
{
    let mut out = Vec::new(alloc);
    let mut at = 0;
    for part in parts {
        if at > part.start || part.start > part.stop || part.stop > text.len() {
            return Ok(None);
        }
        out.extend_from_slice(&text[at..part.start])?;
        out.extend_from_slice(name)?;
        at = part.stop;
    }
    out.extend_from_slice(&text[at..])?;
    Ok(Some(out))
}

/// The changes that put a new name at each mention of a variable of a source, each of the text that
/// the one before it left: none if the new name is no name or the program would become another one.
pub fn rename<'a>(
    alloc: Global,
    encoding: Encoding,
    source: &Source<'_>,
    mentions: &[Mention],
    variable: usize,
    name: &'a [u8],
) -> Result<Option<Vec<Change<'a>>>, AllocError>
    ensures kept { IfOk result (λ answer. IfSome answer (λ changes.
        spec.KeepsProgram (class_named source.now.lattice) variable name.now source.now.text
        (changed_by encoding changes.items source.now.text))) }
    ensures respelled { IfOk result (λ answer. IfSome answer (λ changes.
        changed_by encoding changes.items source.now.text
        ≡ respelled name.now source.now.text 0 (parts_of variable mentions.now))) }
    ensures in_order { IfOk result (λ answer. IfSome answer (λ changes.
        AreInOrder (length source.now.text) 0 (parts_of variable mentions.now))) }
{
    if !is_name(name) {
        return Ok(None);
    }
    let parts = parts_of(alloc, variable, mentions)?;
    let Some(text) = respelled(alloc, name, source.text(), &parts)? else {
        return Ok(None);
    };
    // The parts follow one another: the last is changed first.
    let marked = Marked::of(alloc, encoding, source.text())?;
    let mut changes = Vec::new(alloc);
    for part in parts.iter().rev() {
        let Range { start, stop } = marked.range(*part);
        let range = Some((start, stop));
        changes.push(Change { range, text: name })?;
    }
    let changed = changed_by(alloc, encoding, source.text(), &changes)?;
    if changed.as_slice() == text.as_slice()
        && keeps_program(alloc, variable, name, source, &changed)?
    {
        return Ok(Some(changes));
    }
    Ok(None)
}
