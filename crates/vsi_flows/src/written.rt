//! A text with its classes raised, which is accepted.

ghost use Rattle.std.specs.Prelude.{◌≡◌, IfOk, IfErr, ◌-◌, take, drop, ◌++◌, map, option_map, OnOk};
ghost use Rattle.vsi_lattice.specs.LatticeView.{class_named, order};
ghost use Rattle.vsi_syntax.specs.{Tree.{Whole}, CommandView.{body_of, command, declared}, ProgramView.{whole}, View.{named}};
ghost use Rattle.vsi_types.specs.Security.{program as program_of};
ghost use Rattle.vsi_compiler.specs.{Acceptance.{IsAccepted}, Source.{Reads}};
ghost use Rattle.vsi_flows.specs.{Raising.{AreLeastRaises}, Answers.{HasClassesIn, IsRaisedText, RefusesRaisedText, RefusesText}};
ghost use Rattle.vsi_flows.specs.RaisedErrors as errors;
ghost use Rattle.vsi_flows.specs.Places as spec;

use crate::least::{Raise, RaisedError, Raising, raises_of};
use crate::text::judged;
use std::alloc::{AllocError, Global};
use vsi_compiler::{CompileError, Source, read_source};
use vsi_lattice::Lattice;
use vsi_scope::Var;
use vsi_syntax::{Declaration, Name, Program, Span, Stmt, lex, parse};
use vsi_types::Profile;

/// The error for a source text that is refused.
fn source_error(error: CompileError) -> RaisedError
    ensures { result ≡ errors.source_error error }
{
    match error {
        CompileError::Memory => RaisedError::Memory,
        other => RaisedError::Source(other),
    }
}

/// The error for a text with raised classes that is refused.
fn raised_error(text: Vec<u8>, error: CompileError) -> RaisedError
    ensures { result ≡ errors.raised_error text error }
{
    match error {
        CompileError::Memory => RaisedError::Memory,
        other => RaisedError::Raised(text, other),
    }
}

/// The text in which the declaration of each raise of a source writes its new class.
fn written(alloc: Global, source: &Source<'_>, raises: &[Raise]) -> Result<Vec<u8>, AllocError>
    requires { HasClassesIn (order source.now.lattice) raises.now }
    ensures { (tree : Whole) → Reads source.now.text tree → IfOk result (λ out. out.items ≡
        spec.with_raises source.now.lattice (spec.written_places tree) source.now.text 0
        raises.now) }
{
    let lattice = source.lattice();
    let text = source.text();
    let places = written_places(alloc, text)?;
    spliced(alloc, lattice, text, &places, raises)
}

/// A text that is accepted, or the reason why it is refused.
fn accepted(
    alloc: Global,
    profile: Profile,
    lattice: &Lattice,
    text: Vec<u8>,
) -> Result<Vec<u8>, RaisedError>
    ensures same { IfOk result (λ out. out.items ≡ text.items) }
    ensures accepted { IfOk result (λ out. IsAccepted
        (class_named lattice.now) (order lattice.now) profile out.items) }
    ensures refused { IfErr result (RefusesText lattice.now profile text.items) }
{
    match judged(alloc, profile, lattice, &text) {
        Ok(()) => Ok(text),
        Err(error) => Err(raised_error(text, error)),
    }
}

/// The text with the least raises of a source, which is accepted.
fn raised_by(
    alloc: Global,
    profile: Profile,
    source: &Source<'_>,
    raises: &[Raise],
) -> Result<Vec<u8>, RaisedError>
    requires { AreLeastRaises
        (order source.now.lattice) profile (program_of source.now.resolved) raises.now }
    ensures raised { IfOk result
        (λ out. IsRaisedText source.now.lattice profile source.now.text out.items) }
    ensures accepted { IfOk result (λ out. IsAccepted
        (class_named source.now.lattice) (order source.now.lattice) profile out.items) }
    ensures refused { IfErr result (RefusesRaisedText source.now.lattice profile source.now.text) }
{
    // The contract of `resolved` says that the source is one; the proofs need that.
    let _program = source.resolved();
    let lattice = source.lattice();
    let text = written(alloc, source, raises)?;
    accepted(alloc, profile, lattice, text)
}

/// A source text in which each declaration whose class has to rise writes its new class, and which
/// is accepted under the profile; comments and layout stay.
///
/// # Errors
///
/// `Source` with a walk to the ending of loops, where no raise makes the text accepted; `Raised`
/// where the text with the new classes isn't accepted, since it is too long; `Memory`.
pub fn raised_text_of(
    alloc: Global,
    profile: Profile,
    source: &Source<'_>,
) -> Result<Vec<u8>, RaisedError>
    ensures raised { IfOk result
        (λ out. IsRaisedText source.now.lattice profile source.now.text out.items) }
    ensures accepted { IfOk result (λ out. IsAccepted
        (class_named source.now.lattice) (order source.now.lattice) profile out.items) }
    ensures refused { IfErr result (RefusesRaisedText source.now.lattice profile source.now.text) }
{
    // The contract of `resolved` says that the source is one; the proofs need that.
    let _program = source.resolved();
    let raising = raises_of(alloc, profile, source)?;
    match raising {
        Raising::Raised(raises) => raised_by(alloc, profile, source, &raises),
        Raising::Refused(walk) => Err(RaisedError::Source(CompileError::Flow(walk))),
    }
}

/// A text with its classes raised, by `raised_text_of`.
///
/// # Errors
///
/// `Source` with an error of `read_source`, and those of `raised_text_of`.
pub fn raised_text_in(
    alloc: Global,
    profile: Profile,
    lattice: &Lattice,
    text: &[u8],
) -> Result<Vec<u8>, RaisedError>
    ensures raised { IfOk result (λ out. IsRaisedText lattice.now profile text.now out.items) }
    ensures accepted { IfOk result (λ out. IsAccepted
        (class_named lattice.now) (order lattice.now) profile out.items) }
    ensures refused { IfErr result (RefusesRaisedText lattice.now profile text.now) }
{
    match read_source(alloc, lattice, text) {
        Ok(source) => raised_text_of(alloc, profile, &source),
        Err(error) => Err(source_error(error)),
    }
}

/// The bytes of a text from one place up to another: none where the other comes first.
fn part(text: &[u8], from: usize, to: usize) -> &[u8]
    ensures { result.now ≡ spec.part text.now from to }
{
    let begin = from.min(text.len());
    let rest = &text[begin..];
    let count = to.saturating_sub(from).min(rest.len());
    &rest[..count]
}

/// Where a declaration writes its class.
fn place_of(places: &[Span], variable: Var) -> Span
    ensures { result ≡ spec.place_of places.now variable }
{
    let place = places.get(variable.0 as usize).copied();
    place.unwrap_or(Span { start: 0, stop: 0 })
}

/// The text in which the declaration of each raise writes its new class.
pub(crate) fn spliced(
    alloc: Global,
    lattice: &Lattice,
    text: &[u8],
    places: &[Span],
    raises: &[Raise],
) -> Result<Vec<u8>, AllocError>
    requires { HasClassesIn (order lattice.now) raises.now }
    ensures { IfOk result (λ out. out.items ≡
        spec.with_raises lattice.now places.now text.now 0 raises.now) }
{
    let mut out = Vec::new(alloc);
    let mut at = 0;
    for raise in raises {
        let place = place_of(places, raise.variable);
        out.extend_from_slice(part(text, at, place.start))?;
        out.extend_from_slice(lattice.name(raise.new))?;
        at = place.stop;
    }
    out.extend_from_slice(part(text, at, text.len()))?;
    Ok(out)
}

/// Where a letvar writes its class: nothing after its name where it writes none.
fn class_place(name: Name<'_>, class: Option<Name<'_>>) -> Span
    ensures { result ≡ spec.class_place (named name.entry) (option_map named class.entry) }
{
    match class {
        Some(class) => class.span,
        None => Span {
            start: name.span.stop,
            stop: name.span.stop,
        },
    }
}

/// Adds where the letvars of a sequence write their classes.
#[cycle(placing)]
fn put_all(places: &mut Vec<Span>, body: &[Stmt<'_>]) -> Result<(), AllocError>
    ensures { OnOk result
        (places.new.items ≡ places.old.items ++ spec.all_class_places (body_of body.now)) }
{
    for statement in body {
        put_each(places, statement)?;
    }
    Ok(())
}

/// Adds where the letvars of a command write their classes.
#[cycle(placing)]
fn put_each(places: &mut Vec<Span>, statement: &Stmt<'_>) -> Result<(), AllocError>
    ensures { OnOk result
        (places.new.items ≡ places.old.items ++ spec.class_places (command statement.now)) }
{
    match statement {
        Stmt::Assign(_, _) => Ok(()),
        Stmt::If(_, yes, no) => {
            put_each(places, yes)?;
            put_each(places, no)
        }
        Stmt::While(_, inner) => put_each(places, inner),
        Stmt::Letvar(name, class, _, inner) => {
            places.push(class_place(*name, *class))?;
            put_each(places, inner)
        }
        Stmt::Block(inner) => put_all(places, inner),
    }
}

/// Adds where the globals write their classes.
fn put_globals(places: &mut Vec<Span>, globals: &[Declaration<'_>]) -> Result<(), AllocError>
    ensures { OnOk result (places.new.items ≡
        places.old.items ++ map (λ g. g.class.span) (map declared globals.now)) }
{
    for global in globals {
        places.push(global.class.span)?;
    }
    Ok(())
}

/// The tree of a text that has one.
fn tree_in<'a>(alloc: Global, text: &'a [u8]) -> Result<Program<'a>, AllocError>
    ensures { (tree : Whole) → Reads text.now tree → IfOk result (λ p. whole p ≡ tree) }
{
    let Ok(tokens) = lex(alloc, text) else {
        return Err(AllocError);
    };
    match parse(alloc, &tokens) {
        Ok(program) => Ok(program),
        Err(_) => Err(AllocError),
    }
}

/// Where the declarations of a text that has a tree write their classes: globals, then letvars in
/// the order of the text.
///
/// # Errors
///
/// There was too little memory, or the text has no tree.
pub(crate) fn written_places(alloc: Global, text: &[u8]) -> Result<Vec<Span>, AllocError>
    ensures { (tree : Whole) → Reads text.now tree
        → IfOk result (λ places. places.items ≡ spec.written_places tree) }
{
    let program = tree_in(alloc, text)?;
    let mut places = Vec::new(alloc);
    put_globals(&mut places, program.globals())?;
    put_all(&mut places, program.body())?;
    Ok(places)
}
