//! The answers for a source text under a lattice.

ghost use Rattle.std.specs.Prelude.{◌≡◌, ◌≢◌, IfOk};
ghost use Rattle.vsi_lattice.specs.LatticeView.{class_named, order};
ghost use Rattle.vsi_types.specs.declared.rules.Profile.{Profile};
ghost use Rattle.vsi_compiler.specs.{Refusal.{RefusesProgram}, declared.source.CompileError.TheVariants.{Memory}};
ghost use Rattle.vsi_steady.specs.Source.{RefusesSteady};
ghost use Rattle.vsi_flows.specs.Answers.{RefusesRaisedText};
ghost use Rattle.vsi_answers.specs.{Answers.{Because}, Judged.{IsImageText, IsLoopedText, IsRaisedRefusal, IsSteadyText, TellsRaised, TellsSteady}, Requests.{AppliesTo, BuildsTo, ChecksSteadyTo, ChecksTo, ClassesTo, FlowsTo, FormatsTo, MendsTo, TellsUnraised}};

use crate::unanswered::{Cause, Observer, Unanswered, refused_judged, refused_source};
use crate::{refusal_text, refusal_text_of};
use std::alloc::{AllocError, Global};
use vsi_compiler::{
    CompileError, Source, classes_text_of, format_text, image_of, judge, read_source,
};
use vsi_drive::{EngineError, image_bytes_of};
use vsi_flows::{RaisedError, flows_text_in, raise_lines_in, raised_text_in};
use vsi_infer::Walk;
use vsi_lattice::Lattice;
use vsi_steady::{
    SteadyError, UnsteadyError, steady_explanation, steady_explanation_of, steady_image_of,
    steady_text,
};
use vsi_types::Profile;

/// The answer for an accepted text.
const ACCEPTED: &[u8] = b"accepted\n";

/// `accepted` and a line feed, if the text is accepted under a profile. The observer gets the text
/// as it was read, and again if it is refused for a flow.
pub fn check<O: Observer>(
    alloc: Global,
    profile: Profile,
    lattice: &Lattice,
    source: &[u8],
    observer: &mut O,
) -> Result<Vec<u8>, Unanswered>
    ensures checks { ChecksTo lattice.now profile source.now result }
{
    match read_source(alloc, lattice, source) {
        Ok(read) => check_source(alloc, profile, &read, observer),
        Err(error) => Err(refused_source(alloc, lattice, source, error)),
    }
}

/// `check` for a source text that was read. No code is generated.
fn check_source<O: Observer>(
    alloc: Global,
    profile: Profile,
    source: &Source<'_>,
    observer: &mut O,
) -> Result<Vec<u8>, Unanswered>
    ensures { ChecksTo source.now.lattice profile source.now.text result }
{
    observer.read(source)?;
    match judge(alloc, profile, source) {
        Ok(_classes) => Ok(Vec::from_slice(alloc, ACCEPTED)?),
        Err(error) => Err(refused_judged(alloc, profile, source, error, observer)),
    }
}

/// The class of each declaration of the text. The observer gets a text that is refused for a flow.
pub fn classes<O: Observer>(
    alloc: Global,
    profile: Profile,
    lattice: &Lattice,
    source: &[u8],
    observer: &mut O,
) -> Result<Vec<u8>, Unanswered>
    ensures classes { ClassesTo lattice.now profile source.now result }
{
    match read_source(alloc, lattice, source) {
        Ok(read) => source_classes(alloc, profile, &read, observer),
        Err(error) => Err(refused_source(alloc, lattice, source, error)),
    }
}

/// `classes` for a source text that was read.
fn source_classes<O: Observer>(
    alloc: Global,
    profile: Profile,
    source: &Source<'_>,
    observer: &mut O,
) -> Result<Vec<u8>, Unanswered>
    ensures { ClassesTo source.now.lattice profile source.now.text result }
{
    match classes_text_of(alloc, profile, source) {
        Ok(lines) => Ok(lines),
        Err(error) => Err(refused_judged(alloc, profile, source, error, observer)),
    }
}

/// The flows between the declared variables of the text.
pub fn flows(
    alloc: Global,
    profile: Profile,
    lattice: &Lattice,
    source: &[u8],
) -> Result<Vec<u8>, Unanswered>
    ensures flows { FlowsTo lattice.now profile source.now result }
{
    match flows_text_in(alloc, profile, lattice, source) {
        Ok(lines) => Ok(lines),
        Err(error) => Err(refused_source(alloc, lattice, source, error)),
    }
}

/// The bytes of the image of the text. The observer gets a text that is refused for a flow.
pub fn build<O: Observer>(
    alloc: Global,
    profile: Profile,
    lattice: &Lattice,
    source: &[u8],
    observer: &mut O,
) -> Result<Vec<u8>, Unanswered>
    ensures builds { BuildsTo lattice.now profile source.now result }
{
    match read_source(alloc, lattice, source) {
        Ok(read) => build_source(alloc, profile, &read, observer),
        Err(error) => Err(refused_source(alloc, lattice, source, error)),
    }
}

/// `build` for a source text that was read.
fn build_source<O: Observer>(
    alloc: Global,
    profile: Profile,
    source: &Source<'_>,
    observer: &mut O,
) -> Result<Vec<u8>, Unanswered>
    ensures { BuildsTo source.now.lattice profile source.now.text result }
{
    match image_bytes_of(alloc, profile, source) {
        Ok(bytes) => Ok(bytes),
        Err(EngineError::Compile(error)) => Err(refused_judged(
            alloc, profile, source, error, observer,
        )),
        Err(_) => Err(Unanswered::Memory),
    }
}

/// The canonical text of a source text. The lattice is used only to report refusals, and none of
/// the possible ones needs it.
pub fn format(alloc: Global, lattice: &Lattice, source: &[u8]) -> Result<Vec<u8>, Unanswered>
    ensures formats { FormatsTo lattice.now source.now result }
{
    match format_text(alloc, source) {
        Ok(text) => Ok(text),
        Err(error) => Err(refused_source(alloc, lattice, source, error)),
    }
}

/// The line that follows the refusal of a text with raised classes.
const RAISED: &[u8] = b"in the text with the raised classes\n";

/// The text of a refusal of a text with raised classes.
fn raised_refusal(
    alloc: Global,
    lattice: &Lattice,
    raised: &[u8],
    error: &CompileError,
) -> Result<Vec<u8>, AllocError>
    ensures { IfOk result
        (λ text. IsRaisedRefusal lattice.now raised.now error.now text.items) }
{
    let mut text = refusal_text(alloc, lattice, raised, error)?;
    text.extend_from_slice(RAISED)?;
    Ok(text)
}

/// The reason that a request has no answer if the text with the raised classes is refused with this
/// error.
fn refused_raised(
    alloc: Global,
    lattice: &Lattice,
    raised: &[u8],
    error: CompileError,
) -> Unanswered
    ensures { Because (TellsRaised (λ text e. (text ≡ raised.now) × (e ≡ error)) lattice.now)
        ⊥ result }
{
    match raised_refusal(alloc, lattice, raised, &error) {
        Ok(text) => Unanswered::Refused(text, Cause::Raised(error)),
        Err(_) => Unanswered::Memory,
    }
}

/// The reason that a request has no answer, for this error of a text with raised classes.
fn unraised(alloc: Global, lattice: &Lattice, source: &[u8], error: RaisedError) -> Unanswered
    ensures { (P : Profile) → RefusesRaisedText lattice.now P source.now error
        → Because (TellsUnraised lattice.now P source.now) ⊥ result }
{
    match error {
        RaisedError::Source(error) => refused_source(alloc, lattice, source, error),
        RaisedError::Raised(text, error) => refused_raised(alloc, lattice, &text, error),
        RaisedError::Memory => Unanswered::Memory,
    }
}

/// A line for each declaration of the text whose class has to rise.
pub fn mend(
    alloc: Global,
    profile: Profile,
    lattice: &Lattice,
    source: &[u8],
) -> Result<Vec<u8>, Unanswered>
    ensures mends { MendsTo lattice.now profile source.now result }
{
    match raise_lines_in(alloc, profile, lattice, source) {
        Ok(lines) => Ok(lines),
        Err(error) => Err(refused_source(alloc, lattice, source, error)),
    }
}

/// The text in which each declaration whose class has to rise writes its new class.
pub fn apply(
    alloc: Global,
    profile: Profile,
    lattice: &Lattice,
    source: &[u8],
) -> Result<Vec<u8>, Unanswered>
    ensures applies { AppliesTo lattice.now profile source.now result }
{
    match raised_text_in(alloc, profile, lattice, source) {
        Ok(raised) => Ok(raised),
        Err(error) => Err(unraised(alloc, lattice, source, error)),
    }
}

/// The text of the refusal of a flow when a steady image is required: its walk has a loop in place
/// of each choice.
pub fn looped_text(
    alloc: Global,
    lattice: &Lattice,
    source: &[u8],
    walk: &Walk,
) -> Result<Vec<u8>, AllocError>
    ensures { IfOk result
        (λ text. IsLoopedText lattice.now source.now walk.now.steps.items text.items) }
{
    let mut text = Vec::from_slice(alloc, b"refused: 25 Refused\n")?;
    let lines = steady_explanation(alloc, lattice, source, walk)?;
    text.extend_from_slice(&lines)?;
    Ok(text)
}

/// The same for a source text that was read.
pub fn looped_text_of(
    alloc: Global,
    source: &Source<'_>,
    walk: &Walk,
) -> Result<Vec<u8>, AllocError>
    ensures { IfOk result (λ text. IsLoopedText source.now.lattice source.now.text
        walk.now.steps.items text.items) }
{
    let mut text = Vec::from_slice(alloc, b"refused: 25 Refused\n")?;
    let lines = steady_explanation_of(alloc, source, walk)?;
    text.extend_from_slice(&lines)?;
    Ok(text)
}

/// The text of the refusal of a text's image.
pub fn image_text(
    alloc: Global,
    lattice: &Lattice,
    source: &[u8],
    error: &SteadyError,
) -> Result<Vec<u8>, AllocError>
    ensures { IfOk result (λ text. IsImageText lattice.now source.now error.now text.items) }
{
    match read_source(alloc, lattice, source) {
        Ok(read) => image_text_of(alloc, &read, error),
        Err(_) => Err(AllocError),
    }
}

/// The same for a source text that was read.
pub fn image_text_of(
    alloc: Global,
    source: &Source<'_>,
    error: &SteadyError,
) -> Result<Vec<u8>, AllocError>
    ensures { IfOk result (λ text. IsImageText source.now.lattice source.now.text error.now
        text.items) }
{
    // The contract of `resolved` says that the source is one; the proofs need that.
    let _program = source.resolved();
    let verified = image_of(alloc, source)?;
    let lattice = source.lattice();
    let text = steady_text(alloc, lattice, verified.image(), error)?;
    Ok(text)
}

/// The text of a refusal when a steady image is required.
fn unsteady_text(
    alloc: Global,
    source: &Source<'_>,
    error: &UnsteadyError,
) -> Result<Vec<u8>, AllocError>
    ensures { IfOk result (λ text. IsSteadyText source.now.lattice source.now.text error.now
        text.items) }
{
    match error {
        UnsteadyError::Compile(CompileError::Flow(walk)) => looped_text_of(alloc, source, walk),
        UnsteadyError::Compile(error) => refusal_text_of(alloc, source, error),
        UnsteadyError::Image(error) => image_text_of(alloc, source, error),
        UnsteadyError::Memory => Err(AllocError),
    }
}

/// Why there is no answer for a source text that was read, when a steady image is required.
fn refused_steady(alloc: Global, source: &Source<'_>, error: UnsteadyError) -> Unanswered
    ensures { Because (TellsSteady (λ e. e ≡ error) source.now.lattice source.now.text) ⊥ result }
{
    if let UnsteadyError::Memory = &error {
        return Unanswered::Memory;
    }
    match unsteady_text(alloc, source, &error) {
        Ok(text) => Unanswered::Refused(text, Cause::Steady(error)),
        Err(_) => Unanswered::Memory,
    }
}

/// Why there is no answer for a text that has no program, when a steady image is required.
fn refused_unread(
    alloc: Global,
    lattice: &Lattice,
    source: &[u8],
    error: CompileError,
) -> Unanswered
    ensures { error ≢ Memory → RefusesProgram (class_named lattice.now) source.now error
        → Because (TellsSteady (RefusesSteady (class_named lattice.now) (order lattice.now)
        source.now) lattice.now source.now) ⊥ result }
{
    match refusal_text(alloc, lattice, source, &error) {
        Ok(text) => Unanswered::Refused(text, Cause::Steady(UnsteadyError::Compile(error))),
        Err(_) => Unanswered::Memory,
    }
}

/// `accepted` and a line feed, if the text is accepted under the strict profile and the number of
/// executed instructions of its image reveals nothing. The observer gets the text as it was read.
pub fn check_steady<O: Observer>(
    alloc: Global,
    lattice: &Lattice,
    source: &[u8],
    observer: &mut O,
) -> Result<Vec<u8>, Unanswered>
    ensures checks { ChecksSteadyTo lattice.now source.now result }
{
    match read_source(alloc, lattice, source) {
        Ok(read) => check_steady_source(alloc, &read, observer),
        Err(CompileError::Memory) => Err(Unanswered::Memory),
        Err(error) => Err(refused_unread(alloc, lattice, source, error)),
    }
}

/// `check_steady` for a source text that was read.
fn check_steady_source<O: Observer>(
    alloc: Global,
    source: &Source<'_>,
    observer: &mut O,
) -> Result<Vec<u8>, Unanswered>
    ensures { ChecksSteadyTo source.now.lattice source.now.text result }
{
    observer.read(source)?;
    match steady_image_of(alloc, source) {
        Ok(_verified) => Ok(Vec::from_slice(alloc, ACCEPTED)?),
        Err(error) => Err(refused_steady(alloc, source, error)),
    }
}
