//! Compiles a text to a steady image.

ghost use Rattle.std.specs.Prelude.{◌≡◌, IfOk, IfErr, OnOk};
ghost use Rattle.vsi_steady.specs.{declared.source.UnsteadyError.TheVariants.{Memory}, Laws.{RunsAlike, ViewsAlike}, Source.{HasSteadyFlows, IsSteadilyAccepted, RefusesSteady, ExplainsLoopedWalk}, Steady.{IsSteady}, Looped.{looped, IsLooped}};
ghost use Rattle.vsi_lattice.specs.LatticeView.{class_named, order};
ghost use Rattle.vsi_types.specs.declared.rules.Profile.TheVariants.{Strict};
ghost use Rattle.vsi_compiler.specs.Headline.{IsCompiled};
ghost use Rattle.vsi_scope.specs.View.{expression, command, sequence};
ghost use Rattle.vsi_opt.specs.Folding.{append};

use crate::check::{SteadyError, steady_in};
use std::alloc::{AllocError, Global};
use thiserror::Error;
use vsi_compiler::{CompileError, Source, image_of, read_source};
use vsi_image::Verified;
use vsi_infer::{InferError, Walk, check_walk_once, explain, infer_in};
use vsi_lattice::Lattice;
use vsi_scope::{Cmd, Ex, Resolved};
use vsi_types::Profile;

/// The reason why a text isn't compiled to a steady image. Lack of memory is always `Memory`, and
/// never the memory case of an inner error.
#[derive(Debug, Drop, Error)]
pub enum UnsteadyError {
    /// The text is refused. A walk is a walk of the text's program with a loop in place of each
    /// choice.
    #[error("the text is refused")]
    Compile(CompileError),
    /// The flows of the text are accepted, but its image is refused.
    #[error("the image of the text is refused")]
    Image(SteadyError),
    #[error("out of memory")]
    Memory,
}

impl From<AllocError> for UnsteadyError {
    ghost from_gives = { λ _ e. e ≡ Memory };

    fn from(_error: AllocError) -> UnsteadyError {
        UnsteadyError::Memory
    }
}

impl From<CompileError> for UnsteadyError {
    ghost use Rattle.vsi_steady.specs.Source.{compiling};

    ghost from_gives = { λ inner e. e ≡ compiling inner };

    fn from(error: CompileError) -> UnsteadyError {
        match error {
            CompileError::Memory => UnsteadyError::Memory,
            other => UnsteadyError::Compile(other),
        }
    }
}

impl From<InferError> for UnsteadyError {
    ghost use Rattle.vsi_steady.specs.Source.{flowing};

    ghost from_gives = { λ inner e. e ≡ flowing inner };

    fn from(error: InferError) -> UnsteadyError {
        match error {
            InferError::Memory => UnsteadyError::Memory,
            InferError::Refused(walk) => UnsteadyError::Compile(CompileError::Flow(walk)),
        }
    }
}

impl From<SteadyError> for UnsteadyError {
    ghost use Rattle.vsi_steady.specs.Source.{judging};

    ghost from_gives = { λ inner e. e ≡ judging inner };

    fn from(error: SteadyError) -> UnsteadyError {
        match error {
            SteadyError::Memory => UnsteadyError::Memory,
            other => UnsteadyError::Image(other),
        }
    }
}

/// The image of a source text that is accepted under the strict profile and in which each guard,
/// also that of a choice, has the bottom class. The image is the one that `image_of` makes. A text
/// with this property and a steady image is refused only for lack of memory.
///
/// # Errors
///
/// A flow first, then the image, which is refused if one of its slots is used for two variables
/// whose classes don't agree. `Memory` can replace any answer.
pub fn steady_image_of(alloc: Global, source: &Source<'_>) -> Result<Verified, UnsteadyError>
    ensures flows { IfOk result (λ _. HasSteadyFlows
        (class_named source.now.lattice) (order source.now.lattice) source.now.text) }
    ensures compiled { IfOk result (IsCompiled
        (class_named source.now.lattice) (order source.now.lattice) Strict source.now.text) }
    ensures steady { IfOk result
        (IsSteady (class_named source.now.lattice) (order source.now.lattice)) }
    ensures alike { IfOk result
        (RunsAlike (class_named source.now.lattice) (order source.now.lattice)) }
    ensures views { IfOk result
        (ViewsAlike (class_named source.now.lattice) (order source.now.lattice)) }
    ensures refused { IfErr result (RefusesSteady
        (class_named source.now.lattice) (order source.now.lattice) source.now.text) }
    ensures exact { IsSteadilyAccepted
        (class_named source.now.lattice) (order source.now.lattice) source.now.text
        → IfErr result (λ e. e ≡ Memory) }
{
    let lattice = source.lattice();
    let resolved = source.resolved();
    let looped = looped_program(alloc, resolved)?;
    let _classes = infer_in(alloc, Profile::Strict, lattice, &looped)?;
    let verified = image_of(alloc, source)?;
    steady_in(alloc, lattice, &verified)?;
    Ok(verified)
}

/// The explanation of a walk that `steady_image_of` answers: a line for each of its steps, and one
/// for the classes of its ends. It is empty if the walk isn't a bad walk of the source, judged in
/// the same way.
pub fn steady_explanation_of(
    alloc: Global,
    source: &Source<'_>,
    walk: &Walk,
) -> Result<Vec<u8>, AllocError>
    ensures { IfOk result (λ out. ExplainsLoopedWalk
        source.now.lattice source.now.text walk.now.steps.items out.items) }
{
    let lattice = source.lattice();
    let resolved = source.resolved();
    let looped = looped_program(alloc, resolved)?;
    let is_bad = check_walk_once(alloc, Profile::Strict, lattice, &looped, walk)?;
    if is_bad {
        explain(alloc, source.text(), lattice, &looped, walk)
    } else {
        Ok(Vec::new(alloc))
    }
}

/// The explanation of a walk of a text, by `steady_explanation_of`. It is empty if the text has no
/// program.
pub fn steady_explanation(
    alloc: Global,
    lattice: &Lattice,
    text: &[u8],
    walk: &Walk,
) -> Result<Vec<u8>, AllocError>
    ensures { IfOk result
        (λ out. ExplainsLoopedWalk lattice.now text.now walk.now.steps.items out.items) }
{
    match read_source(alloc, lattice, text) {
        Ok(source) => steady_explanation_of(alloc, &source, walk),
        Err(CompileError::Memory) => Err(AllocError),
        Err(_) => Ok(Vec::new(alloc)),
    }
}

/// An equal expression.
fn copy_expression(e: &Ex, alloc: Global) -> Result<Ex, AllocError>
    ensures { IfOk result (λ x. expression x ≡ expression e.now) }
{
    match e {
        Ex::Num(n) => Ok(Ex::Num(*n)),
        Ex::Loc(l, span) => Ok(Ex::Loc(*l, *span)),
        Ex::Op(op, a, b) => {
            let left = copy_expression(a, alloc)?;
            let right = copy_expression(b, alloc)?;
            Ok(Ex::Op(*op, Box::new(alloc, left)?, Box::new(alloc, right)?))
        }
    }
}

/// Adds commands with a loop in place of each choice.
#[cycle(watching)]
fn watch_all(body: &[Cmd], out: &mut Vec<Cmd>, alloc: Global) -> Result<(), AllocError>
    ensures { OnOk result
        (sequence out.new.items ≡ append (sequence out.old.items) (looped (sequence body.now))) }
{
    for c in body {
        out.push(watch_one(c, alloc)?)?;
    }
    Ok(())
}

/// Commands with a loop in place of each choice.
#[cycle(watching)]
fn watch_list(body: &[Cmd], alloc: Global) -> Result<Vec<Cmd>, AllocError>
    ensures { IfOk result (λ v. sequence v.items ≡ looped (sequence body.now)) }
{
    let mut out = Vec::new(alloc);
    watch_all(body, &mut out, alloc)?;
    Ok(out)
}

#[cycle(watching)]
fn watch_one(c: &Cmd, alloc: Global) -> Result<Cmd, AllocError>
    ensures { IfOk result (λ d. command d ≡ looped (command c.now)) }
{
    match c {
        Cmd::Assign { loc, span, value } => {
            let value = copy_expression(value, alloc)?;
            Ok(Cmd::Assign {
                loc: *loc,
                span: *span,
                value,
            })
        }
        Cmd::If { guard, yes, no } => {
            let guard = copy_expression(guard, alloc)?;
            let mut both = watch_list(yes, alloc)?;
            watch_all(no, &mut both, alloc)?;
            Ok(Cmd::While { guard, body: both })
        }
        Cmd::While { guard, body } => {
            let guard = copy_expression(guard, alloc)?;
            let body = watch_list(body, alloc)?;
            Ok(Cmd::While { guard, body })
        }
        Cmd::Letvar { value, body } => {
            let value = copy_expression(value, alloc)?;
            let body = watch_list(body, alloc)?;
            Ok(Cmd::Letvar { value, body })
        }
    }
}

/// The program with the same globals and letvars, and a loop over both branches in place of each
/// choice.
pub(crate) fn looped_program<'a>(
    alloc: Global,
    program: &Resolved<'a>,
) -> Result<Resolved<'a>, AllocError>
    ensures { IfOk result (IsLooped program.now) }
{
    let letvars = program.letvars().to_vec(alloc)?;
    let body = watch_list(program.body(), alloc)?;
    match program.rebuilt(alloc, letvars, body) {
        Ok(looped) => Ok(looped),
        Err((error, _, _)) => Err(error),
    }
}
