//! Why a request has no answer, and the text of a refusal.

ghost use Rattle.std.specs.Prelude.{◌≡◌};
ghost use Rattle.vsi_answers.specs.{declared.unanswered.Unanswered.TheVariants.{Memory}, Answers.{Because}, Judged.{TellsFault, TellsSource, TellsStartFault}};

use crate::{Fault, fault_text, refusal_text, refusal_text_of};
use std::alloc::{AllocError, AllocFailed, Global};
use thiserror::Error;
use vsi_compiler::{CompileError, Source};
use vsi_drive::{StartFault, start_fault_line};
use vsi_lattice::Lattice;
use vsi_steady::UnsteadyError;
use vsi_types::Profile;

/// The reason for a refusal of the input.
#[derive(Debug, Drop, Error)]
pub enum Cause {
    /// A source text is refused.
    #[error("the text is refused")]
    Source(CompileError),
    /// Another file is refused.
    #[error("{0}")]
    File(Fault),
    /// A run doesn't start, although its store file has no fault.
    #[error("{0}")]
    Start(StartFault),
    /// A source text is refused when a steady image is required.
    #[error("the text is refused")]
    Steady(UnsteadyError),
    /// A source text is refused once its classes are raised.
    #[error("the text with the raised classes is refused")]
    Raised(CompileError),
}

/// The reason why a request has no answer. Lack of memory is always `Memory`, and never the memory
/// case of a cause.
#[derive(Debug, Drop, Error)]
pub enum Unanswered {
    /// The input is refused; the fields are the text that says so, and its cause.
    #[error("{1}")]
    Refused(Vec<u8>, Cause),
    /// A run spent its budget before it halted.
    #[error("out of budget")]
    OutOfBudget,
    /// Memory ran out.
    #[error("out of memory")]
    Memory,
}

impl From<AllocError> for Unanswered {
    ghost from_gives = { λ _ e. e ≡ Memory };

    fn from(_error: AllocError) -> Unanswered {
        Unanswered::Memory
    }
}

impl<T: Drop> From<AllocFailed<T>> for Unanswered {
    ghost from_gives = { λ _ e. e ≡ Memory };

    fn from(_error: AllocFailed<T>) -> Unanswered {
        Unanswered::Memory
    }
}

/// Why there is no answer for a source text that is refused with this error.
pub fn refused_source(
    alloc: Global,
    lattice: &Lattice,
    source: &[u8],
    error: CompileError,
) -> Unanswered
    ensures { Because (TellsSource (λ e. e ≡ error) lattice.now source.now) ⊥ result }
{
    if let CompileError::Memory = &error {
        return Unanswered::Memory;
    }
    match refusal_text(alloc, lattice, source, &error) {
        Ok(text) => Unanswered::Refused(text, Cause::Source(error)),
        Err(_) => Unanswered::Memory,
    }
}

/// Why there is no answer for a source text that was read and is refused under a profile with this
/// error. The observer gets the text if it is refused for a flow.
pub(crate) fn refused_judged<O: Observer>(
    alloc: Global,
    profile: Profile,
    source: &Source<'_>,
    error: CompileError,
    observer: &mut O,
) -> Unanswered
    ensures { Because (TellsSource (λ e. e ≡ error) source.now.lattice source.now.text) ⊥ result }
{
    if let CompileError::Memory = &error {
        return Unanswered::Memory;
    }
    if let CompileError::Flow(_) = &error {
        observer.refused(profile, source);
    }
    match refusal_text_of(alloc, source, &error) {
        Ok(text) => Unanswered::Refused(text, Cause::Source(error)),
        Err(_) => Unanswered::Memory,
    }
}

/// Why there is no answer for another file that is refused for this fault. The fault must not be
/// lack of memory.
pub fn refused_file(alloc: Global, fault: Fault) -> Unanswered
    ensures { Because (TellsFault (λ f. f ≡ fault)) ⊥ result }
{
    match fault_text(alloc, &fault) {
        Ok(text) => Unanswered::Refused(text, Cause::File(fault)),
        Err(_) => Unanswered::Memory,
    }
}

/// Why there is no answer for a run that doesn't start because of this fault.
pub fn refused_start(alloc: Global, fault: StartFault) -> Unanswered
    ensures { Because (TellsStartFault (λ f. f ≡ fault)) ⊥ result }
{
    match start_fault_line(alloc, fault) {
        Ok(text) => Unanswered::Refused(text, Cause::Start(fault)),
        Err(_) => Unanswered::Memory,
    }
}

/// Looks at a source text that was read for an answer, so that nothing reads it again.
pub trait Observer {
    /// Gets a source text before it is judged.
    ///
    /// # Errors
    ///
    /// If memory runs out, the text has no answer.
    fn read(&mut self, source: &Source<'_>) -> Result<(), AllocError>;

    /// Gets a source text that is refused for a flow under a profile.
    fn refused(&mut self, profile: Profile, source: &Source<'_>);
}

/// Looks at nothing.
#[derive(Clone, Copy)]
pub struct Unobserved;

impl Observer for Unobserved {
    fn read(&mut self, _source: &Source<'_>) -> Result<(), AllocError> {
        Ok(())
    }

    fn refused(&mut self, _profile: Profile, _source: &Source<'_>) {}
}
