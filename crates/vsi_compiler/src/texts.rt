//! The canonical text of a program, and the lines of its classes.

ghost use Rattle.std.specs.{Prelude.{◌≡◌, ◌++◌, ◌≤◌, length, map, IfOk, IfErr, OnOk}, List.{All}};
ghost use Rattle.vsi_lattice.specs.{LatticeView.{class_named, names, order}, Order.{IsClass}};
ghost use Rattle.vsi_scope.specs.Resolving.{variable};
ghost use Rattle.vsi_syntax.specs.{CommandView.{declared}, Tree.{Whole}};
ghost use Rattle.vsi_types.specs.{Security.{program as program_of}, declared.rules.Profile.TheVariants.{Base}};
ghost use Rattle.vsi_compiler.specs.{declared.source.CompileError.TheVariants.{Memory}, Acceptance.{IsAccepted}, Classes.{class_line, global_lines, letvar_lines, IsClassText}, Refusal.{Refuses, RefusesFlow, RefusesTree}, Source.{Reads, IsCanonicalText}};

use crate::source::{CompileError, Source, judge, read_program, read_source};
use std::alloc::{AllocError, Global};
use vsi_lattice::{Class, Lattice};
use vsi_scope::Entry;
use vsi_syntax::{Declaration, Span, print, put_place};
use vsi_types::Profile;

/// The canonical text of the program that a text writes; comments are dropped.
///
/// # Errors
///
/// The refusals of the tokens and the tree. Names and classes aren't checked.
pub fn format_text(alloc: Global, text: &[u8]) -> Result<Vec<u8>, CompileError>
    ensures canonical { IfOk result (λ out. IsCanonicalText text.now out.items) }
    ensures refused { IfErr result (RefusesTree text.now) }
    ensures exact { (tree : Whole) → Reads text.now tree → IfErr result (λ e. e ≡ Memory) }
{
    let program = read_program(alloc, text)?;
    Ok(print(alloc, &program)?)
}

/// Adds the line of a declaration.
fn put_line(
    out: &mut Vec<u8>,
    text: &[u8],
    span: Span,
    name: &[u8],
    class: &[u8],
) -> Result<(), AllocError>
    ensures { OnOk result
        (out.new.items ≡ out.old.items ++ class_line text.now span name.now class.now) }
{
    put_place(out, text, span.start)?;
    out.extend_from_slice(b" ")?;
    out.extend_from_slice(name)?;
    out.extend_from_slice(b" : ")?;
    out.extend_from_slice(class)?;
    out.extend_from_slice(b"\n")
}

/// Adds the lines of the globals.
fn put_globals(out: &mut Vec<u8>, text: &[u8], globals: &[Declaration]) -> Result<(), AllocError>
    ensures { OnOk result
        (out.new.items ≡ out.old.items ++ global_lines text.now (map declared globals.now)) }
{
    for global in globals {
        put_line(
            out,
            text,
            global.name.span,
            global.name.text,
            global.class.text,
        )?;
    }
    Ok(())
}

/// Adds the lines of the letvars, with the classes chosen for them.
fn put_letvars(
    out: &mut Vec<u8>,
    text: &[u8],
    lattice: &Lattice,
    letvars: &[Entry],
    classes: &[Class],
) -> Result<(), AllocError>
    requires each { length letvars.now ≡ length classes.now }
    requires within { All (IsClass (order lattice.now)) classes.now }
    ensures { OnOk result (out.new.items ≡ out.old.items
        ++ letvar_lines text.now (names lattice.now) (map variable letvars.now) classes.now) }
{
    for (i, entry) in letvars.iter().enumerate() {
        put_line(out, text, entry.span, entry.name, lattice.name(classes[i]))?;
    }
    Ok(())
}

/// A line `LINE:COLUMN NAME : CLASS` for each declaration: the globals, then the `letvar`s in the
/// order of the text, with the least classes that are typable under a profile.
///
/// # Errors
///
/// The errors of `judge`.
pub fn classes_text_of(
    alloc: Global,
    profile: Profile,
    source: &Source<'_>,
) -> Result<Vec<u8>, CompileError>
    ensures lines { IfOk result (λ out. IsClassText
        (class_named source.now.lattice) (order source.now.lattice) profile
        (names source.now.lattice) source.now.text out.items) }
    ensures refused { IfErr result (Refuses
        (class_named source.now.lattice) (order source.now.lattice) profile source.now.text) }
    ensures flow { IfErr result
        (RefusesFlow (order source.now.lattice) profile (program_of source.now.resolved)) }
    ensures exact { IsAccepted
        (class_named source.now.lattice) (order source.now.lattice) profile source.now.text
        → IfErr result (λ e. e ≡ Memory) }
{
    let classes = judge(alloc, profile, source)?;
    let text = source.text();
    let mut out = Vec::new(alloc);
    put_globals(&mut out, text, source.globals())?;
    put_letvars(
        &mut out,
        text,
        source.lattice(),
        source.resolved().letvars(),
        &classes,
    )?;
    Ok(out)
}

/// The class lines of a text, by `classes_text_of`.
///
/// # Errors
///
/// The refusals of `compile_in`.
pub fn classes_text_in(
    alloc: Global,
    profile: Profile,
    lattice: &Lattice,
    text: &[u8],
) -> Result<Vec<u8>, CompileError>
    ensures lines { IfOk result (λ out.
        IsClassText (class_named lattice.now) (order lattice.now) profile (names lattice.now)
        text.now out.items) }
    ensures refused { IfErr result
        (Refuses (class_named lattice.now) (order lattice.now) profile text.now) }
    ensures exact { IsAccepted (class_named lattice.now) (order lattice.now) profile text.now
        → IfErr result (λ e. e ≡ Memory) }
{
    let source = read_source(alloc, lattice, text)?;
    classes_text_of(alloc, profile, &source)
}

/// The class lines under the base profile.
pub fn classes_text(alloc: Global, lattice: &Lattice, text: &[u8]) -> Result<Vec<u8>, CompileError>
    ensures lines { IfOk result (λ out.
        IsClassText (class_named lattice.now) (order lattice.now) Base (names lattice.now) text.now
        out.items) }
    ensures refused { IfErr result
        (Refuses (class_named lattice.now) (order lattice.now) Base text.now) }
    ensures exact { IsAccepted (class_named lattice.now) (order lattice.now) Base text.now
        → IfErr result (λ e. e ≡ Memory) }
{
    classes_text_in(alloc, Profile::Base, lattice, text)
}
