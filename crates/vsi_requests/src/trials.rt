//! Texts tried and judged by their own lattices, and the language server.

ghost use Rattle.std.specs.Prelude.{IfErr, IfOk, IfSome, Ok, ◌<◌, OnOk};
ghost use Rattle.vsi_subject.specs.{Refusals.{NoOther, FailsBy}, Reasons.{LacksTried, RefusesRun, RefusesUnder, WhyTry}, Tried.{IsTriedUnder, RunsMade, TriesFile}, Partly.{Partly}, Undriven.{SaysLine}, Served.{Serves, unended_line}, Failures.{TellsFault, status_of}};
ghost use Rattle.vsi_lattice.specs.{LatticeView.{order}, Order.{IsClass}};
ghost use Rattle.vsi_drive.specs.Counted.{device_of, faults_of};
ghost use Rattle.vsi_client.specs.Frames.{AreFrames};

use crate::running::keep_settings;
use std::alloc::Global;
use std::io::{Read, Write};
use vsi_answers::start_words;
use vsi_arguments::{Attempt, Serving};
use vsi_documents::named_policy;
use vsi_drive::Counted;
use vsi_lattice::{Class, Lattice};
use vsi_lsp::{MOST_FILES, Server};
use vsi_subject::{
    Failure, Fallible, Files, InputCache, InputKind, STREAM, Subject, answered, declared_lattice,
    made_image, profile, two_classes, viewer_of, whole_in, write,
};

/// The lattice that a text is tried under: that of the given file, or else of the file that the
/// text names, or `L` below `H` if it names none.
fn lattice_for<'a, F: Files>(
    subject: &Subject<'_, F>,
    lattice: Option<&'a str>,
    source: &str,
    text: &[u8],
) -> Fallible<'a, Lattice>
    ensures declared { IfOk result
        (IsTriedUnder (F.holds subject.now.files.now) lattice.entry source.now text.now) }
    ensures failed { IfErr result (FailsBy
        (RefusesUnder (F.holds subject.now.files.now) lattice.entry source.now text.now) NoOther) }
{
    match (lattice, named_policy(text)) {
        (Some(path), _) => subject.lattice_in(path),
        (None, Some(path)) => {
            let bytes = subject.named_bytes(source, path)?;
            declared_lattice(subject.alloc, bytes.as_slice())
        }
        (None, None) => two_classes(subject.alloc),
    }
}

/// The output of the run of the source text.
pub fn try_source<'a, F: Files>(
    subject: &Subject<'_, F>,
    attempt: &Attempt<'a>,
) -> Fallible<'a, Vec<u8>>
    ensures told { IfOk result (TriesFile (F.holds subject.now.files.now) attempt.now) }
    ensures failed { IfErr result (FailsBy (WhyTry (F.holds subject.now.files.now) attempt.now)
        (LacksTried (F.holds subject.now.files.now) attempt.now)) }
{
    let bytes = subject.bytes_in(InputKind::Source, attempt.source)?;
    let text = bytes.as_slice();
    let lattice = lattice_for(subject, attempt.lattice, attempt.source, text)?;
    let viewer = viewer_of(&lattice, attempt.class)?;
    ran(subject.cache, attempt, &lattice, viewer, text)
}

/// The output of the run of the image made from a text: each global, or those that a class may
/// see.
fn ran<'a>(
    cache: &InputCache,
    attempt: &Attempt<'a>,
    lattice: &Lattice,
    viewer: Option<Class>,
    text: &[u8],
) -> Fallible<'a, Vec<u8>>
    requires viewer { IfSome viewer (IsClass (order lattice.now)) }
    ensures runs { IfOk result
        (λ lines. RunsMade lattice.now viewer attempt.now text.now (Ok lines)) }
    ensures failed { IfErr result
        (FailsBy (RefusesRun lattice.now viewer attempt.now text.now) NoOther) }
{
    let verified = made_image(cache, lattice, attempt.source, text)?;
    let settings = attempt.settings.as_slice();
    keep_settings(cache, settings)?;
    let words = start_words(cache.alloc, &verified, b"", settings, false)?;
    let (alloc, words, budget) = (cache.alloc, words.as_slice(), attempt.budget);
    match viewer {
        Some(class) => {
            let lines = vsi_answers::view(alloc, lattice, &verified, class, words, budget);
            answered(lines)
        }
        None => answered(vsi_answers::run(alloc, &verified, words, budget)),
    }
}

/// The size of the buffer of a read, in bytes: what a pipe has at once.
const CHUNK: usize = 65536;

/// The line about a conversation that the client has not ended.
const UNENDED: &[u8] = b"ended without shutdown and exit\n";

/// Serves an editor until it says so or the input ends. The note gets a line if a text that names
/// no lattice file was judged, and one if a header was without a length.
pub fn serve<'a, F: Files, R: Read, W: Write>(
    alloc: Global,
    asked: Serving<'a>,
    files: &F,
    input: &mut Counted<R>,
    output: &mut Counted<W>,
    note: &mut Vec<u8>,
) -> Fallible<'a, ()>
    requires input { faults_of input.old < u64.MAX }
    requires output { faults_of output.old < u64.MAX }
    ensures input_fault { TellsFault (faults_of input.old) (faults_of input.new) result }
    ensures output_fault { TellsFault (faults_of output.old) (faults_of output.new) result }
    ensures served { OnOk result
        (Serves (W.contents (device_of output.old)) (W.contents (device_of output.new))) }
    ensures failed { IfErr result (FailsBy (λ reason. ⊥) (λ failure. SaysLine unended_line failure
        × Serves (W.contents (device_of output.old)) (W.contents (device_of output.new)))) }
    ensures cut { IfErr result (λ _. Partly AreFrames
        (W.contents (device_of output.old)) (W.contents (device_of output.new))) }
{
    let lattice = match asked.lattice {
        Some(path) => Some(String::from_str(alloc, path)?),
        None => None,
    };
    let mut server = Server::new(alloc, profile(asked.is_strict), lattice);
    serve_input(alloc, &mut server, files, input, output)?;
    server.put_notes(note)?;
    if server.has_exited() && !server.has_failed() {
        return Ok(());
    }
    let text = Vec::from_slice(alloc, UNENDED)?;
    Err(Failure::Refused(text, None))
}

/// Carries out the messages of the input, until the client says `exit` or the input ends.
fn serve_input<'a, F: Files, R: Read, W: Write>(
    alloc: Global,
    server: &mut Server,
    files: &F,
    input: &mut Counted<R>,
    output: &mut Counted<W>,
) -> Fallible<'a, ()>
    requires input { faults_of input.old < u64.MAX }
    requires output { faults_of output.old < u64.MAX }
    ensures input_fault { TellsFault (faults_of input.old) (faults_of input.new) result }
    ensures output_fault { TellsFault (faults_of output.old) (faults_of output.new) result }
    ensures failure { IfErr result (λ failure. 3 < status_of failure) }
    ensures served { OnOk result
        (Serves (W.contents (device_of output.old)) (W.contents (device_of output.new))) }
    ensures cut { IfErr result (λ _. Partly AreFrames
        (W.contents (device_of output.old)) (W.contents (device_of output.new))) }
{
    let mut chunk = [0; CHUNK];
    for _call in 0..u64::MAX {
        let Ok(count) = input.read(&mut chunk) else {
            return Err(Failure::FileFault(STREAM));
        };
        if count == 0 {
            return Ok(());
        }
        serve_bytes(alloc, server, &chunk[..count], files, output)?;
        if server.has_exited() {
            return Ok(());
        }
    }
    Err(Failure::FileFault(STREAM))
}

/// Carries out the messages that end in these bytes.
fn serve_bytes<'a, F: Files, W: Write>(
    alloc: Global,
    server: &mut Server,
    bytes: &[u8],
    files: &F,
    output: &mut Counted<W>,
) -> Fallible<'a, ()>
    requires output { faults_of output.old < u64.MAX }
    ensures fault { TellsFault (faults_of output.old) (faults_of output.new) result }
    ensures failure { IfErr result (λ failure. 3 < status_of failure) }
    ensures served { OnOk result
        (Serves (W.contents (device_of output.old)) (W.contents (device_of output.new))) }
    ensures cut { IfErr result (λ _. Partly AreFrames
        (W.contents (device_of output.old)) (W.contents (device_of output.new))) }
{
    server.take(bytes)?;
    for _message in 0..server.left() {
        let Some(message) = server.next_message()? else {
            return Ok(());
        };
        serve_message(alloc, server, &message, files, output)?;
        if server.has_exited() {
            return Ok(());
        }
    }
    Ok(())
}

/// Carries out a message, and writes the messages that it causes.
fn serve_message<'a, F: Files, W: Write>(
    alloc: Global,
    server: &mut Server,
    message: &[u8],
    files: &F,
    output: &mut Counted<W>,
) -> Fallible<'a, ()>
    requires output { faults_of output.old < u64.MAX }
    ensures fault { TellsFault (faults_of output.old) (faults_of output.new) result }
    ensures failure { IfErr result (λ failure. 3 < status_of failure) }
    ensures served { OnOk result
        (Serves (W.contents (device_of output.old)) (W.contents (device_of output.new))) }
    ensures cut { IfErr result (λ _. Partly AreFrames
        (W.contents (device_of output.old)) (W.contents (device_of output.new))) }
{
    let mut next = server.obey(message)?;
    for _file in 0..MOST_FILES {
        let Some(wanted) = next else {
            break;
        };
        // A file that can't be read has no bytes.
        let bytes = match whole_in(alloc, wanted.path.as_str(), files) {
            Ok(bytes) => Some(bytes),
            Err(Failure::Memory) => return Err(Failure::Memory),
            Err(_failure) => None,
        };
        next = server.judge(wanted, bytes)?;
    }
    let bytes = server.outgoing()?;
    write(&bytes, output)
}
