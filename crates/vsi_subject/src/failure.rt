//! Why a request fails, and the text that says so.

ghost use Rattle.std.specs.{Prelude.{◌≡◌, ◌<◌, ◌≤◌, ◌⊎◌, ◌==◌, true, false, IfErr, OnOk, OnErr}, Io.KnownBytes.{Appends}};
ghost use Rattle.vsi_subject.specs.{Failures.{line_of, status_of, text_of_failure, IsStreamFault, FailsFor, TellsFault}, Partly.{WritesPart}, declared.failure.Failure.TheVariants.{Differs, Memory}};
ghost use Rattle.vsi_drive.specs.Counted.{device_of, faults_of};

use std::alloc::{AllocError, AllocFailed};
use std::io::Write;
use vsi_answers::{Cause, Unanswered};
use vsi_audit::AuditError;
use vsi_conform::InterfaceError;
use vsi_drive::{Counted, EngineError, write_out};
use vsi_steady::SteadyError;

/// Standard input and output, in a file fault.
pub const STREAM: &str = "-";

/// The reason why a command line ended early.
#[derive(Debug, Drop)]
pub enum Failure<'a> {
    /// With the fault text, and its cause if that can be explained. Without a cause it is a leak,
    /// or a budget that is to be the bound of an image for which none was found.
    Refused(Vec<u8>, Option<Cause>),
    /// An interface file is refused, with the fault text.
    Interface(Vec<u8>, InterfaceError),
    /// The commands of an image are refused, with the fault text.
    Audit(Vec<u8>, AuditError),
    /// An image isn't steady, with the fault text.
    Unsteady(Vec<u8>, SteadyError),
    /// A class sees a difference, which standard output has shown.
    Differs,
    /// With the text of the parser of command lines.
    Usage(String),
    /// The lattice has no class of this name.
    NoClass(&'a str),
    /// A run spent its budget before it halted.
    OutOfBudget,
    /// The file at this path, or a standard stream, doesn't open, or fails.
    FileFault(&'a str),
    /// The file at this path, which another file names, doesn't open, or fails.
    LostFile(String),
    /// An allocation failed.
    Memory,
}

/// The result of a call, or why a command line ends early.
pub type Fallible<'a, T> = Result<T, Failure<'a>>;

impl From<AllocError> for Failure<'_> {
    ghost from_gives = { λ _ e. e ≡ Memory };

    fn from(_error: AllocError) -> Self {
        Failure::Memory
    }
}

impl<T: Drop> From<AllocFailed<T>> for Failure<'_> {
    ghost from_gives = { λ _ e. e ≡ Memory };

    fn from(_error: AllocFailed<T>) -> Self {
        Failure::Memory
    }
}

impl From<Unanswered> for Failure<'_> {
    ghost use Rattle.vsi_subject.specs.Failures.{failure_of};

    ghost from_gives = { λ inner e. e ≡ failure_of inner };

    fn from(unanswered: Unanswered) -> Self {
        match unanswered {
            Unanswered::Refused(text, cause) => Failure::Refused(text, Some(cause)),
            Unanswered::OutOfBudget => Failure::OutOfBudget,
            Unanswered::Memory => Failure::Memory,
        }
    }
}

impl Failure<'_> {
    /// The exit status of the program.
    pub fn status(&self) -> u8
        ensures status { result ≡ status_of self.now }
        ensures some { 0 < result }
        ensures bound { result ≤ 5 }
    {
        match self {
            Failure::Refused(_, _) | Failure::Differs => 1,
            Failure::Interface(_, _) | Failure::Audit(_, _) | Failure::Unsteady(_, _) => 1,
            Failure::Usage(_) | Failure::NoClass(_) => 2,
            Failure::OutOfBudget => 3,
            Failure::FileFault(_) | Failure::LostFile(_) => 4,
            Failure::Memory => 5,
        }
    }

    /// Whether the failure is lack of memory, after which nothing else is written.
    pub fn wants_memory(&self) -> bool
        ensures { result ≡ (status_of self.now == 5) }
    {
        matches!(self, Failure::Memory)
    }

    /// This failure if an explanation could be added; otherwise lack of memory is the failure,
    /// unless this is a fault of a file or a stream.
    pub fn after(self, added: Result<(), AllocError>) -> Self
        ensures fault { status_of self.entry ≡ 4 → status_of result ≡ 4 }
        ensures kept { (result ≡ self.entry) ⊎ (result ≡ Memory) }
    {
        if added.is_ok() || self.status() == 4 {
            self
        } else {
            Failure::Memory
        }
    }

    /// Writes the text for standard error, without allocating memory.
    pub fn tell<E: Write>(&self, error: &mut Counted<E>) -> Result<(), EngineError>
        requires { faults_of error.old < u64.MAX }
        ensures count { faults_of error.old ≤ faults_of error.new }
        ensures failed { OnErr result (faults_of error.old < faults_of error.new) }
        ensures whole { OnOk result (Appends (E.contents (device_of error.old))
            (E.contents (device_of error.new)) (text_of_failure self.now)) }
    {
        match self {
            Failure::Refused(text, _)
            | Failure::Interface(text, _)
            | Failure::Audit(text, _)
            | Failure::Unsteady(text, _) => write_out(text.as_slice(), error),
            Failure::Differs => Ok(()),
            Failure::Usage(text) => write_out(text.as_bytes(), error),
            Failure::NoClass(name) => tell_line(b"no class ", name, error),
            Failure::OutOfBudget => write_out(b"out of budget\n", error),
            Failure::FileFault(path) => tell_line(b"file fault: ", path, error),
            Failure::LostFile(path) => tell_line(b"file fault: ", path.as_str(), error),
            Failure::Memory => write_out(b"out of memory\n", error),
        }
    }
}

/// Writes a text to standard output.
pub fn write<'a, W: Write>(text: &[u8], output: &mut Counted<W>) -> Fallible<'a, ()>
    requires { faults_of output.old < u64.MAX }
    ensures fault { TellsFault (faults_of output.old) (faults_of output.new) result }
    ensures failure { IfErr result (λ failure. status_of failure ≡ 4) }
    ensures failed { IfErr result (FailsFor (λ reason. ⊥)
        (IsStreamFault (faults_of output.old < faults_of output.new))) }
    ensures whole { OnOk result
        (Appends (W.contents (device_of output.old)) (W.contents (device_of output.new)) text.now) }
    ensures part { WritesPart text.now
        (W.contents (device_of output.old)) (W.contents (device_of output.new)) }
{
    write_out(text, output).map_err(|_| Failure::FileFault(STREAM))
}

/// Writes an answer, and then fails if it is a difference.
pub fn write_answer<'a, W: Write>(
    text: &[u8],
    agrees: bool,
    output: &mut Counted<W>,
) -> Fallible<'a, ()>
    requires { faults_of output.old < u64.MAX }
    ensures fault { TellsFault (faults_of output.old) (faults_of output.new) result }
    ensures part { WritesPart text.now
        (W.contents (device_of output.old)) (W.contents (device_of output.new)) }
    ensures whole { OnOk result ((agrees ≡ true) × Appends (W.contents (device_of output.old))
        (W.contents (device_of output.new)) text.now) }
    ensures failed { IfErr result (λ failure. ((failure ≡ Differs) × ((agrees ≡ false)
        × Appends (W.contents (device_of output.old)) (W.contents (device_of output.new)) text.now))
        ⊎ (status_of failure ≡ 4)) }
{
    write(text, output)?;
    if agrees {
        Ok(())
    } else {
        Err(Failure::Differs)
    }
}

/// Writes the start and the name on a line.
fn tell_line<E: Write>(start: &[u8], word: &str, error: &mut Counted<E>) -> Result<(), EngineError>
    requires { faults_of error.old < u64.MAX }
    ensures count { faults_of error.old ≤ faults_of error.new }
    ensures failed { OnErr result (faults_of error.old < faults_of error.new) }
    ensures whole { OnOk result (Appends (E.contents (device_of error.old))
        (E.contents (device_of error.new)) (line_of start.now word.now)) }
{
    write_out(start, error)?;
    write_out(word.as_bytes(), error)?;
    write_out(b"\n", error)
}
