//! Refusals as values, and their lines of JSON.

ghost use Rattle.std.specs.{Prelude.{◌≡◌, ◌<◌, ◌⊎◌, IfSome, IfOk}, Io.KnownBytes.{Appends}};
ghost use Rattle.vsi_subject.specs.{Failures.{status_of}, Partly.{WritesPart}, FaultyFiles.{IsRefusalBy}};
ghost use Rattle.vsi_drive.specs.Counted.{device_of, faults_of};
ghost use Rattle.vsi_answers.specs.View.{diagnostic_of};
ghost use Rattle.vsi_subject.specs.Diagnosing as spec;
ghost use Rattle.vsi_subject.specs.FaultyFiles as faulty_spec;

use std::alloc::AllocError;
use std::io::Write;
use vsi_answers::{Cause, Diagnostic, Field, fault_diagnostic, line_text, refusal_diagnostic};
use vsi_arguments::{AnswerForm, Document, Request};
use vsi_conform::unsteady_diagnostic;
use vsi_documents::{refused_interface_json, refused_json};
use vsi_drive::{BoundaryFault, Counted, LineFault, StartFault};
use vsi_subject::{Failure, Inputs, source_of, write};

/// The refusal of a run that doesn't begin.
fn start_diagnostic(fault: StartFault) -> Diagnostic<'static>
    ensures { diagnostic_of result ≡ spec.start_diagnostic fault }
{
    match fault {
        StartFault::Setting(fault) => match fault {
            LineFault::TooLong => Diagnostic::new(44, b"LineTooLong", Field::Nothing),
            LineFault::BadSetting(n) => Diagnostic::new(45, b"BadSetting", Field::Number(n)),
            LineFault::UnknownGlobal(n) => Diagnostic::new(46, b"NoGlobal", Field::Number(n)),
            LineFault::AboveClass(n) => Diagnostic::new(47, b"AboveClass", Field::Number(n)),
            LineFault::NotAnInput(n) => Diagnostic::new(60, b"NotAnInput", Field::Number(n)),
            LineFault::NotANumber(n) => Diagnostic::new(48, b"NoNumber", Field::Number(n)),
        },
        StartFault::Boundary(fault) => match fault {
            BoundaryFault::UnknownInput(n) => {
                Diagnostic::new(61, b"UnknownInput", Field::Number(n))
            }
            BoundaryFault::InputAboveClass(n) => {
                Diagnostic::new(62, b"InputAboveClass", Field::Number(n))
            }
            BoundaryFault::UnknownOutput(n) => {
                Diagnostic::new(63, b"UnknownOutput", Field::Number(n))
            }
            BoundaryFault::OutputAboveClass(n) => {
                Diagnostic::new(64, b"OutputAboveClass", Field::Number(n))
            }
            BoundaryFault::NotAnOutput(n) => Diagnostic::new(65, b"NotAnOutput", Field::Number(n)),
        },
        StartFault::Unnamed(i) => Diagnostic::new(56, b"GlobalNotNamed", Field::Number(i)),
    }
}

/// The refusal with this cause, if the source text that was read is this one.
pub(crate) fn cause_diagnostic<'s>(source: &[u8], cause: &'s Cause) -> Option<Diagnostic<'s>>
    ensures { IfSome result (λ d. IsRefusalBy cause.now (diagnostic_of d)) }
{
    match cause {
        Cause::Source(error) => refusal_diagnostic(source, error),
        Cause::Steady(error) => unsteady_diagnostic(source, error),
        Cause::File(fault) => fault_diagnostic(fault),
        Cause::Start(fault) => Some(start_diagnostic(*fault)),
        Cause::Raised(_) => None,
    }
}

/// Whether an answer is written as a line of JSON.
fn is_json(form: AnswerForm) -> bool
    ensures { result ≡ faulty_spec.is_json form }
{
    match form {
        AnswerForm::Json => true,
        AnswerForm::Lines | AnswerForm::Sarif => false,
    }
}

/// Whether a request answers with a line of JSON.
pub(crate) fn answers_json(request: &Request<'_>) -> bool
    ensures { result ≡ faulty_spec.answers_json request.now }
{
    match request {
        Request::Check(asked) => asked.is_json,
        Request::Document(Document::Sarif(_)) => false,
        Request::Document(Document::AuditSarif(_)) => false,
        Request::Document(_) => true,
        Request::Conform(asked) => is_json(asked.form),
        Request::Survey(asked) => is_json(asked.form),
        Request::Project(asked) => is_json(asked.form),
        Request::Mend(asked) => asked.is_json,
        Request::Steps { is_json, .. }
        | Request::Monitor { is_json, .. }
        | Request::CompareSteps { is_json, .. } => *is_json,
        _ => false,
    }
}

/// Whether a file is refused, a setting, or a text that has to be compiled.
fn is_refusal(failure: &Failure<'_>) -> bool
    ensures { result ≡ faulty_spec.is_refusal failure.now }
{
    match failure {
        Failure::Refused(_, Some(_)) | Failure::Interface(_, _) => true,
        _ => false,
    }
}

/// The line of JSON of the refusal with this cause and this text. An error means that memory ran
/// out, or that the text isn't that of the cause, which it always is.
fn line_by(inputs: &Inputs, cause: &Cause, text: &[u8]) -> Result<Vec<u8>, AllocError>
    ensures { IfOk result (λ line. faulty_spec.IsLineBy cause.now text.now line.items) }
{
    let Some(diagnostic) = cause_diagnostic(source_of(inputs), cause) else {
        return Err(AllocError);
    };
    let fixed = line_text(inputs.alloc, &diagnostic)?;
    if !text.starts_with(fixed.as_slice()) {
        return Err(AllocError);
    }
    let line = refused_json(inputs.alloc, &diagnostic, text)?;
    Ok(line)
}

/// The line of JSON of a refusal.
fn refusal_line(inputs: &Inputs, failure: &Failure<'_>) -> Result<Vec<u8>, AllocError>
    ensures { IfOk result (λ line. faulty_spec.IsRefusalLine failure.now line.items) }
{
    match failure {
        Failure::Refused(text, Some(cause)) => line_by(inputs, cause, text.as_slice()),
        Failure::Interface(text, error) => {
            refused_interface_json(inputs.alloc, error, text.as_slice())
        }
        _ => Err(AllocError),
    }
}

/// The failure after its line: it stays, unless the output fails.
fn after_line<'a, W: Write>(
    line: &[u8],
    failure: Failure<'a>,
    output: &mut Counted<W>,
) -> Failure<'a>
    requires { faults_of output.old < u64.MAX }
    ensures fault { faults_of output.old < faults_of output.new → status_of result ≡ 4 }
    ensures written { ((result ≡ failure.entry)
        × Appends (W.contents (device_of output.old)) (W.contents (device_of output.new)) line.now)
        ⊎ ((status_of result ≡ 4) × WritesPart line.now
        (W.contents (device_of output.old)) (W.contents (device_of output.new))) }
{
    match write(line, output) {
        Ok(()) => failure,
        Err(fault) => fault,
    }
}

/// Writes the line of a refusal, if the request answers with JSON. The failure stays, unless the
/// output fails or memory runs out.
pub(crate) fn tell_refusal<'a, W: Write>(
    inputs: &Inputs,
    is_json: bool,
    failure: Failure<'a>,
    output: &mut Counted<W>,
) -> Failure<'a>
    requires { status_of failure < 4 → faults_of output.old < u64.MAX }
    ensures fault { faults_of output.old < faults_of output.new → status_of result ≡ 4 }
    ensures late { 3 < status_of failure.entry → result ≡ failure.entry }
    ensures early { status_of result < 4 → result ≡ failure.entry }
    ensures told { faulty_spec.TellsRefusal (faulty_spec.has_line is_json failure.entry)
        failure.entry (W.contents (device_of output.old)) (W.contents (device_of output.new))
        result }
{
    if !is_refusal(&failure) {
        return failure;
    }
    if !is_json {
        return failure;
    }
    match refusal_line(inputs, &failure) {
        Ok(line) => after_line(line.as_slice(), failure, output),
        Err(_) => Failure::Memory,
    }
}
