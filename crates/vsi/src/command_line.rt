//! The arguments of a command line, carried out.

ghost use Rattle.std.specs.{Prelude.{◌≡◌, ◌≢◌, ◌<◌, ◌≤◌, ◌⊎◌, ◌++◌, [], false, Ok, Err, IfOk, IfErr, OnOk, codes, IsOkAnd}, Io.KnownBytes.{Keeps}};
ghost use Rattle.vsi_subject.specs.{Done.{Done, Failed, FailsAt}, Input.{AnswersInput, RefusesRun, SpendsRun, FailsRun, TellsFailure, WritesRun, WritesRunOf}, Noted.{NotesFailure, NotesOf, TellsNote}, Partly.{BytesOf, Partly}, Saved.{KeepsStateOf}, Screen.{tamed, tamed as tamed_text}, Failures.{note_after, status_of, text_of_failure, Gets, IsStreamFault, FailsFor, TellsFault}};
ghost use Rattle.vsi_answers.specs.Requests.{RunsSourceTo};
ghost use Rattle.vsi_drive.specs.Counted.{device_of, faults_of};
ghost use Rattle.vsi_subject.specs.Screen as screen_spec;
ghost use Rattle.vsi_subject.specs.Words as spec;
ghost use Rattle.vsi_telling.specs.Safe as safe;

use crate::requests::carry_out;
use std::alloc::{AllocError, Global};
use std::io::{Read, Write};
use vsi_drive::{Counted, read_all, write_out};
use vsi_lattice::Lattice;
use vsi_subject::{Failure, Fallible, Files, STREAM, answered, device_failure, two_classes, write};

/// The budget of a run without arguments, in instructions.
const DEFAULT_BUDGET: u64 = 1_000_000;

/// The input of every subcommand except those that read the input.
const NOTHING: &[u8] = b"";

/// Carries out the arguments, and returns the exit status of the program. The arguments leave out
/// the program's name; without any, a source text is read from the input, compiled with the classes
/// `L` below `H`, run from zeros with a budget of 1,000,000, and the text of its store is written
/// to the output.
///
/// The status is 0 if everything was done, 1 for a refusal or a difference, 2 for a mistake in the
/// arguments, 3 if a run is out of budget, 4 for a fault of a file or a stream, 5 for lack of
/// memory. For every status but 0 a text that gives the cause goes to `error`, whose own faults
/// leave the status as it is.
pub fn command<F: Files, R: Read, W: Write, E: Write>(
    alloc: Global,
    words: &[String],
    files: &mut F,
    input: &mut Counted<R>,
    output: &mut Counted<W>,
    error: &mut Counted<E>,
) -> u8
    requires input { faults_of input.old < u64.MAX }
    requires output { faults_of output.old < u64.MAX }
    requires error { faults_of error.old < u64.MAX }
    ensures status { result ≤ 5 }
    ensures input_fault { faults_of input.old < faults_of input.new → result ≡ 4 }
    ensures output_fault { faults_of output.old < faults_of output.new → result ≡ 4 }
    ensures silent { words.now ≡ [] → result ≢ 0 → result ≢ 4
        → Keeps (W.contents (device_of output.old)) (W.contents (device_of output.new)) }
    ensures partly { words.now ≡ [] → result ≢ 0
        → Partly (AnswersInput (R.remaining (device_of input.old)))
        (W.contents (device_of output.old)) (W.contents (device_of output.new)) }
    ensures unread { words.now ≢ [] → spec.reads_input words.now ≡ false → input.new ≡ input.old }
    ensures kept { words.now ≡ [] → F.holds files.new ≡ F.holds files.old }
    ensures unfilled { result ≢ 0 → result < 4 → F.holds files.new ≡ F.holds files.old }
    ensures ran { words.now ≡ [] → result ≡ 0 → WritesRun (R.remaining (device_of input.old))
        (W.contents (device_of output.old)) (W.contents (device_of output.new)) }
    ensures refused { words.now ≡ [] → result ≡ 1
        → RefusesRun (R.remaining (device_of input.old)) (Gets E.contents error.old error.new) }
    ensures usage { words.now ≡ [] → result ≢ 2 }
    ensures spent { words.now ≡ [] → result ≡ 3
        → SpendsRun (R.remaining (device_of input.old)) (Gets E.contents error.old error.new) }
    ensures faulted { words.now ≡ [] → result ≡ 4 → (faults_of input.old < faults_of input.new)
        ⊎ (faults_of output.old < faults_of output.new) }
    ensures fault_told { words.now ≡ [] → result ≡ 4
        → Gets E.contents error.old error.new (codes "file fault: -\n") }
    ensures quiet { words.now ≡ [] → result ≡ 0 → Gets E.contents error.old error.new [] }
    ensures memory { result ≡ 5 → Gets E.contents error.old error.new (codes "out of memory\n") }
    ensures told { result ≢ 0 → TellsFailure (λ failure note. FailsAt (F.holds files.old)
        (spec.given_to words.now (R.remaining (device_of input.old))) words.now
        (W.contents (device_of output.old)) (W.contents (device_of output.new)) failure
        × NotesFailure (F.holds files.old) words.now failure note)
        result E.contents error.old error.new }
    ensures noted { words.now ≢ [] → result ≡ 0
        → TellsNote (F.holds files.old) words.now E.contents error.old error.new }
    ensures state { words.now ≢ [] → result ≢ 0
        → KeepsStateOf (F.holds files.old)
        (spec.given_to words.now (R.remaining (device_of input.old))) words.now (F.holds files.new)
        (W.contents (device_of output.old)) (W.contents (device_of output.new)) }
    ensures done { words.now ≢ [] → result ≡ 0
        → Done (F.holds files.old) (spec.given_to words.now (R.remaining (device_of input.old)))
        words.now (F.holds files.new)
        (W.contents (device_of output.old)) (W.contents (device_of output.new)) }
{
    if words.is_empty() {
        return without_words(alloc, input, output, error);
    }
    let mut error_text = ErrorText::new(alloc);
    let answer = carried_out(alloc, words, files, input, output, &mut error_text);
    ended(answer, &error_text, error)
}

/// Does the run without arguments, and returns the status.
fn without_words<R: Read, W: Write, E: Write>(
    alloc: Global,
    input: &mut Counted<R>,
    output: &mut Counted<W>,
    error: &mut Counted<E>,
) -> u8
    requires input { faults_of input.old < u64.MAX }
    requires output { faults_of output.old < u64.MAX }
    requires error { faults_of error.old < u64.MAX }
    ensures status { result ≤ 5 }
    ensures input_fault { faults_of input.old < faults_of input.new → result ≡ 4 }
    ensures output_fault { faults_of output.old < faults_of output.new → result ≡ 4 }
    ensures silent { result ≢ 0 → result ≢ 4
        → Keeps (W.contents (device_of output.old)) (W.contents (device_of output.new)) }
    ensures partly { result ≢ 0 → Partly (AnswersInput (R.remaining (device_of input.old)))
        (W.contents (device_of output.old)) (W.contents (device_of output.new)) }
    ensures ran { result ≡ 0 → WritesRun (R.remaining (device_of input.old))
        (W.contents (device_of output.old)) (W.contents (device_of output.new)) }
    ensures refused { result ≡ 1
        → RefusesRun (R.remaining (device_of input.old)) (Gets E.contents error.old error.new) }
    ensures usage { result ≢ 2 }
    ensures spent { result ≡ 3
        → SpendsRun (R.remaining (device_of input.old)) (Gets E.contents error.old error.new) }
    ensures faulted { result ≡ 4 → (faults_of input.old < faults_of input.new)
        ⊎ (faults_of output.old < faults_of output.new) }
    ensures fault_told { result ≡ 4
        → Gets E.contents error.old error.new (codes "file fault: -\n") }
    ensures quiet { result ≡ 0 → Gets E.contents error.old error.new [] }
    ensures memory { result ≡ 5 → Gets E.contents error.old error.new (codes "out of memory\n") }
    ensures told { result ≢ 0
        → TellsFailure (λ _ note. note ≡ []) result E.contents error.old error.new }
{
    let answer = run_input(alloc, input, output);
    ended(answer, &ErrorText::new(alloc), error)
}

/// Carries out the arguments, and gives them the input only if they name a subcommand that reads
/// it.
fn carried_out<'a, F: Files, R: Read, W: Write>(
    alloc: Global,
    words: &'a [String],
    files: &mut F,
    input: &mut Counted<R>,
    output: &mut Counted<W>,
    error_text: &mut ErrorText,
) -> Fallible<'a, ()>
    requires input { faults_of input.old < u64.MAX }
    requires output { faults_of output.old < u64.MAX }
    requires unnoted { error_text.old.lines.items ≡ [] }
    ensures noted { OnOk result
        (NotesOf (F.holds files.old) words.now (tamed error_text.new.lines.items)) }
    ensures hushed { IfErr result (λ failure. NotesFailure (F.holds files.old) words.now failure
        (tamed error_text.new.lines.items)) }
    ensures input_fault { TellsFault (faults_of input.old) (faults_of input.new) result }
    ensures output_fault { TellsFault (faults_of output.old) (faults_of output.new) result }
    ensures unread { spec.reads_input words.now ≡ false → input.new ≡ input.old }
    ensures unfilled { IfErr result (λ failure. status_of failure < 4
        → F.holds files.new ≡ F.holds files.old) }
    ensures done { OnOk result (Done (F.holds files.old)
        (spec.given_to words.now (R.remaining (device_of input.old))) words.now (F.holds files.new)
        (W.contents (device_of output.old)) (W.contents (device_of output.new))) }
    ensures state { IfErr result (λ _. KeepsStateOf (F.holds files.old)
        (spec.given_to words.now (R.remaining (device_of input.old))) words.now (F.holds files.new)
        (W.contents (device_of output.old)) (W.contents (device_of output.new))) }
    ensures failed { IfErr result (Failed (F.holds files.old)
        (spec.given_to words.now (R.remaining (device_of input.old))) words.now
        (W.contents (device_of output.old)) (W.contents (device_of output.new))) }
{
    if reads_input(words) {
        return carry_out(alloc, words, files, input, output, error_text);
    }
    let mut nothing = Counted::new(NOTHING);
    carry_out(alloc, words, files, &mut nothing, output, error_text)
}

/// Writes the message of an answer to standard error, and returns the status.
fn ended<E: Write>(answer: Fallible<'_, ()>, error_text: &ErrorText, error: &mut Counted<E>) -> u8
    ensures bound { result ≤ 5 }
    ensures done { IfOk answer.entry (λ _. result ≡ 0) }
    ensures failed { IfErr answer.entry (λ failure. result ≡ status_of failure) }
    ensures count { faults_of error.old ≤ faults_of error.new }
    ensures noted { IfOk answer.entry
        (λ _. Gets E.contents error.old error.new (tamed error_text.now.lines.items)) }
    ensures told { IfErr answer.entry (λ failure. Gets E.contents error.old error.new
        (text_of_failure failure ++ note_after failure (tamed error_text.now.lines.items))) }
    ensures memory { result ≡ 5
        → Gets E.contents error.old error.new (codes "out of memory\n") }
{
    match answer {
        Ok(()) => {
            error_text.tell(error);
            0
        }
        Err(failure) => {
            tell_failure(&failure, error);
            if !failure.wants_memory() {
                error_text.tell(error);
            }
            failure.status()
        }
    }
}

/// Whether the arguments name a subcommand that reads the input.
fn reads_input(words: &[String]) -> bool
    ensures { result ≡ spec.reads_input words.now }
{
    match words {
        [first, ..] => {
            first.as_bytes() == b"drive".as_slice() || first.as_bytes() == b"lsp".as_slice()
        }
        [] => false,
    }
}

/// The run without arguments.
fn run_input<'a, R: Read, W: Write>(
    alloc: Global,
    input: &mut Counted<R>,
    output: &mut Counted<W>,
) -> Fallible<'a, ()>
    requires input { faults_of input.old < u64.MAX }
    requires output { faults_of output.old < u64.MAX }
    ensures input_fault { TellsFault (faults_of input.old) (faults_of input.new) result }
    ensures output_fault { TellsFault (faults_of output.old) (faults_of output.new) result }
    ensures silent { IfErr result (λ failure. status_of failure ≢ 4
        → Keeps (W.contents (device_of output.old)) (W.contents (device_of output.new))) }
    ensures partly { IfErr result (λ _. Partly (AnswersInput (R.remaining (device_of input.old)))
        (W.contents (device_of output.old)) (W.contents (device_of output.new))) }
    ensures ran { OnOk result (WritesRun (R.remaining (device_of input.old))
        (W.contents (device_of output.old)) (W.contents (device_of output.new))) }
    ensures failed { IfErr result (FailsFor (FailsRun (R.remaining (device_of input.old)))
        (IsStreamFault ((faults_of input.old < faults_of input.new)
        ⊎ (faults_of output.old < faults_of output.new)))) }
{
    let lattice = two_classes(alloc)?;
    match read_all(alloc, input) {
        Ok(source) => write_run(alloc, &lattice, source.as_slice(), output),
        Err(error) => Err(device_failure(alloc, error, STREAM)),
    }
}

/// Writes the text of the final store of the run of a source text.
fn write_run<'a, W: Write>(
    alloc: Global,
    lattice: &Lattice,
    source: &[u8],
    output: &mut Counted<W>,
) -> Fallible<'a, ()>
    requires { faults_of output.old < u64.MAX }
    ensures output_fault { TellsFault (faults_of output.old) (faults_of output.new) result }
    ensures silent { IfErr result (λ failure. status_of failure ≢ 4
        → Keeps (W.contents (device_of output.old)) (W.contents (device_of output.new))) }
    ensures partly { IfErr result (λ _. Partly
        (BytesOf (λ text. RunsSourceTo lattice.now source.now 1000000 (Ok text)))
        (W.contents (device_of output.old)) (W.contents (device_of output.new))) }
    ensures ran { OnOk result (WritesRunOf lattice.now source.now
        (W.contents (device_of output.old)) (W.contents (device_of output.new))) }
    ensures failed { IfErr result
        (FailsFor (λ reason. RunsSourceTo lattice.now source.now 1000000 (Err reason))
        (IsStreamFault (faults_of output.old < faults_of output.new))) }
{
    let answer = vsi_answers::run_source(alloc, lattice, source, DEFAULT_BUDGET);
    let text = answered(answer)?;
    write(text.as_slice(), output)
}

/// The note after a failure, or after a request that was performed.
#[derive(Drop)]
pub(crate) struct ErrorText {
    /// The lines of the note.
    pub(crate) lines: Vec<u8>,
}

impl ErrorText {
    /// Nothing yet.
    pub(crate) fn new(alloc: Global) -> ErrorText
        ensures { result.lines.items ≡ [] }
    {
        ErrorText {
            lines: Vec::new(alloc),
        }
    }

    /// Appends lines to the note.
    pub(crate) fn put(&mut self, lines: Result<Vec<u8>, AllocError>) -> Result<(), AllocError>
        ensures put { (self.new.lines.items ≡ self.old.lines.items)
            ⊎ IsOkAnd lines (λ more. self.new.lines.items ≡ self.old.lines.items ++ more.items) }
    {
        self.lines.extend_from_slice(&lines?)
    }

    /// Writes the note to standard error, whose faults change nothing, if no byte of it controls a
    /// terminal except for its colours.
    pub(crate) fn tell<E: Write>(&self, error: &mut Counted<E>)
        ensures count { faults_of error.old ≤ faults_of error.new }
        ensures told { Gets E.contents error.old error.new (tamed_text self.now.lines.items) }
    {
        let text = tamed(&self.lines);
        if text.is_empty() {
            return;
        }
        if error.faults() < u64::MAX {
            let _ = write_out(text, error);
        }
    }
}

/// Writes the text of a failure to standard error, whose faults change nothing.
fn tell_failure<E: Write>(failure: &Failure<'_>, error: &mut Counted<E>)
    ensures count { faults_of error.old ≤ faults_of error.new }
    ensures told { Gets E.contents error.old error.new (text_of_failure failure.now) }
{
    if error.faults() < u64::MAX {
        let _ = failure.tell(error);
    }
}

/// Whether a byte is printable ASCII or a line feed.
fn is_plain(byte: u8) -> bool
    ensures { result ≡ safe.is_plain byte }
{
    byte == b'\n' || (byte >= 32 && byte <= 126)
}

/// The number of bytes of the sequence for colours that bytes begin with; 0 if they begin with
/// none.
fn colour_length(bytes: &[u8]) -> usize
    ensures { result ≡ screen_spec.colour_length bytes.now }
{
    if bytes.starts_with(b"\x1b[1;31m") {
        7
    } else if bytes.starts_with(b"\x1b[0m") {
        4
    } else {
        0
    }
}

/// Whether each byte is printable ASCII, a line feed, or part of a sequence that turns a colour on
/// or all colours off.
fn is_tame(bytes: &[u8]) -> bool
    ensures { result ≡ screen_spec.is_tame bytes.now }
{
    let mut left: usize = 0;
    for at in 0..bytes.len() {
        if left == 0 {
            left = colour_length(&bytes[at..]);
            if left == 0 && !is_plain(bytes[at]) {
                return false;
            }
        }
        left = left.saturating_sub(1);
    }
    true
}

/// The bytes if none of them controls a terminal except for its colours, and none otherwise.
fn tamed(bytes: &[u8]) -> &[u8]
    ensures { result.now ≡ screen_spec.tamed bytes.now }
{
    if is_tame(bytes) { bytes } else { b"" }
}
