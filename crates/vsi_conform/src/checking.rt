//! The answer of a check as a line of JSON.

ghost use Rattle.std.specs.Prelude.{◌≡◌, IfOk, option_map};
ghost use Rattle.vsi_answers.specs.View.{diagnostic_of};
ghost use Rattle.vsi_steady.specs.declared.source.UnsteadyError.TheVariants as unsteady;
ghost use Rattle.vsi_conform.specs.Checking as spec;

use crate::conforming::judged_of;
use crate::interface::Judgement;
use crate::texts::{is_steady, refusal_lines, refusal_lines_of};
use std::alloc::{AllocError, Global};
use vsi_answers::{
    Diagnostic, Field, Observer, Unobserved, accepted_json, refusal_diagnostic, refusal_json,
    refusal_json_of,
};
use vsi_audit::AuditError;
use vsi_compiler::{CompileError, Source, read_source};
use vsi_lattice::Lattice;
use vsi_steady::{SteadyError, UnsteadyError};
use vsi_types::Profile;

/// The answer of a check: whether the text is accepted, and the line of JSON that says so.
#[derive(Debug, Drop)]
pub struct Checked {
    /// Whether the text is accepted.
    pub is_accepted: bool,
    /// The line of JSON.
    pub line: Vec<u8>,
}

/// The refusal of an image that isn't steady; none if memory ran out.
pub fn steady_diagnostic(error: &SteadyError) -> Option<Diagnostic<'static>>
    ensures refusal { option_map diagnostic_of result ≡ spec.steady_diagnostic error.now }
{
    match error {
        SteadyError::UnknownClass(i) => {
            Some(Diagnostic::new(43, b"ClassNotInLattice", Field::Number(*i)))
        }
        SteadyError::Flow(_) => Some(Diagnostic::new(25, b"Refused", Field::Nothing)),
        SteadyError::Memory => None,
    }
}

/// The refusal of an image by an audit; none if memory ran out.
pub fn audit_diagnostic(error: &AuditError) -> Option<Diagnostic<'static>>
    ensures refusal { option_map diagnostic_of result ≡ spec.audit_diagnostic error.now }
{
    match error {
        AuditError::UnknownClass(n) => {
            Some(Diagnostic::new(43, b"ClassNotInLattice", Field::Number(*n)))
        }
        AuditError::Unstructured(n) => {
            Some(Diagnostic::new(49, b"NoCommands", Field::Number(*n)))
        }
        AuditError::WrongFields => Some(Diagnostic::new(50, b"WrongFields", Field::Nothing)),
        AuditError::NoText => Some(Diagnostic::new(51, b"NoText", Field::Nothing)),
        AuditError::Flow(_) => Some(Diagnostic::new(25, b"Refused", Field::Nothing)),
        AuditError::Memory => None,
    }
}

/// The refusal of a source text, with or without a demand for a steady image; none if memory ran
/// out.
pub fn unsteady_diagnostic<'a>(text: &[u8], error: &'a UnsteadyError) -> Option<Diagnostic<'a>>
    ensures refusal { option_map diagnostic_of result
        ≡ spec.unsteady_diagnostic text.now error.now }
{
    match error {
        UnsteadyError::Compile(error) => refusal_diagnostic(text, error),
        UnsteadyError::Image(error) => steady_diagnostic(error),
        UnsteadyError::Memory => None,
    }
}

/// The judgement by a profile.
pub fn judgement_by(profile: Profile) -> Judgement
    ensures judgement { result ≡ spec.judgement_by profile }
{
    match profile {
        Profile::Base => Judgement::Base,
        Profile::Strict => Judgement::Strict,
    }
}

/// The answer of `check_json` for a source text that was read already.
pub fn check_json_of(
    alloc: Global,
    judgement: Judgement,
    source: &Source<'_>,
) -> Result<Checked, AllocError>
    ensures answer { IfOk result (λ checked. spec.TellsAnswer source.now.lattice judgement
        source.now.text checked.is_accepted checked.line.items) }
{
    match judged_of(alloc, judgement, source)? {
        Ok(_verified) => {
            let line = accepted_json(alloc)?;
            let is_accepted = true;
            Ok(Checked { is_accepted, line })
        }
        Err(error) => {
            let Some(diagnostic) = unsteady_diagnostic(source.text(), &error) else {
                return Err(AllocError);
            };
            let lines = refusal_lines_of(alloc, source, &error, is_steady(judgement))?;
            let line = refusal_json_of(alloc, source, &diagnostic, &lines)?;
            let is_accepted = false;
            Ok(Checked { is_accepted, line })
        }
    }
}

/// The line of `check_json` for a text that `read_source` refuses with this error.
pub fn unread_json(
    alloc: Global,
    judgement: Judgement,
    lattice: &Lattice,
    text: &[u8],
    error: CompileError,
) -> Result<Vec<u8>, AllocError>
    ensures refusal { IfOk result (λ out. spec.WritesRefusal
        lattice.now judgement text.now (unsteady.Compile error) out.items) }
{
    let error = UnsteadyError::Compile(error);
    let Some(diagnostic) = unsteady_diagnostic(text, &error) else {
        return Err(AllocError);
    };
    let lines = refusal_lines(alloc, lattice, text, &error, is_steady(judgement))?;
    let line = refusal_json(alloc, lattice, text, &diagnostic, &lines)?;
    Ok(line)
}

/// The answer of `vsi check` to a text as a line of JSON: an object with `accepted` and, for a
/// refused text, the keys of `refusal_json`, in byte order. The text is read once. An error means
/// that memory ran out.
pub fn check_json(
    alloc: Global,
    judgement: Judgement,
    lattice: &Lattice,
    text: &[u8],
) -> Result<Checked, AllocError>
    ensures answer { IfOk result (λ checked. spec.TellsAnswer lattice.now judgement text.now
        checked.is_accepted checked.line.items) }
    ensures apart { spec.BeginApart }
{
    check_json_for(alloc, judgement, lattice, text, &mut Unobserved)
}

/// The answer of `check_json`. The observer gets the text as it was read, before it is judged.
pub fn check_json_for<O: Observer>(
    alloc: Global,
    judgement: Judgement,
    lattice: &Lattice,
    text: &[u8],
    observer: &mut O,
) -> Result<Checked, AllocError>
    ensures answer { IfOk result (λ checked. spec.TellsAnswer lattice.now judgement text.now
        checked.is_accepted checked.line.items) }
{
    match read_source(alloc, lattice, text) {
        Ok(source) => {
            observer.read(&source)?;
            check_json_of(alloc, judgement, &source)
        }
        Err(CompileError::Memory) => Err(AllocError),
        Err(error) => {
            let line = unread_json(alloc, judgement, lattice, text, error)?;
            let is_accepted = false;
            Ok(Checked { is_accepted, line })
        }
    }
}
