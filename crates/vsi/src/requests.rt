//! Carries out arguments.

ghost use Rattle.std.specs.Prelude.{◌≡◌, ◌<◌, ◌⊎◌, ◌++◌, ℕ, List, [], false, None, IfErr, OnOk};
ghost use Rattle.vsi_subject.specs.{Done.{Done, EndsEarly, IsMistake, Failed, Unread}, Noted.{IsFailureNote, IsNote, NotesFailure, NotesOf, noting, Notes}, Objections.{MayObject}, Performed.{Performs}, Saved.{KeepsState, KeepsStateOf}, Screen.{tamed}, Failures.{TellsFault, status_of}, declared.failure.Failure.TheVariants.{Memory}, Partly.{Answers, Leaves}, Works.{cut_from}, Reasons.{Why}};
ghost use Rattle.vsi_arguments.specs.Help.{AsksHelp};
ghost use Rattle.vsi_drive.specs.Counted.{device_of, faults_of};
ghost use Rattle.vsi_subject.specs.Words as words_spec;

use crate::answers::put_answer;
use crate::command_line::ErrorText;
use crate::explanations::{Explaining, objection};
use crate::refusals::{answers_json, tell_refusal};
use std::alloc::Global;
use std::io::{Read, Write};
use vsi_arguments::{ArgumentsError, Manner, Reporting, Request, asks_help, manner_of, request_of};
use vsi_drive::Counted;
use vsi_requests::{Running, drive, lay_out, put_flows, run, serve};
use vsi_subject::{Failure, Fallible, Files, InputCache, Inputs, Subject, write};

/// The message if the arguments spell no request, or don't ask for the help that the parser has.
const MISUNDERSTOOD: &str = "error: these words are not understood\n";

/// Carries out the arguments, or says what is wrong with them.
pub(crate) fn carry_out<'a, F: Files, R: Read, W: Write>(
    alloc: Global,
    words: &'a [String],
    files: &mut F,
    input: &mut Counted<R>,
    output: &mut Counted<W>,
    error_text: &mut ErrorText,
) -> Fallible<'a, ()>
    requires input { faults_of input.old < u64.MAX }
    requires output { faults_of output.old < u64.MAX }
    requires unnoted { error_text.old.lines.items ≡ [] }
    ensures input_fault { TellsFault (faults_of input.old) (faults_of input.new) result }
    ensures output_fault { TellsFault (faults_of output.old) (faults_of output.new) result }
    ensures unfilled { IfErr result (λ failure. status_of failure < 4
        → F.holds files.new ≡ F.holds files.old) }
    ensures noted { OnOk result
        (NotesOf (F.holds files.old) words.now (tamed error_text.new.lines.items)) }
    ensures hushed { IfErr result (λ failure. NotesFailure (F.holds files.old) words.now failure
        (tamed error_text.new.lines.items)) }
    ensures done { OnOk result (Done (F.holds files.old)
        (R.remaining (device_of input.old)) words.now (F.holds files.new)
        (W.contents (device_of output.old)) (W.contents (device_of output.new))) }
    ensures state { IfErr result (λ _. KeepsStateOf (F.holds files.old)
        (R.remaining (device_of input.old)) words.now (F.holds files.new)
        (W.contents (device_of output.old)) (W.contents (device_of output.new))) }
    ensures failed { IfErr result (Failed (F.holds files.old)
        (R.remaining (device_of input.old)) words.now
        (W.contents (device_of output.old)) (W.contents (device_of output.new))) }
{
    let manner = match files.manner() {
        Some(manner) => manner,
        None => match manner_of(alloc, words) {
            Ok(manner) => manner,
            Err(error) => return answer_arguments(alloc, words, error, output),
        },
    };
    let Ok(asked) = request_of(alloc, words) else {
        return answer_arguments(alloc, words, ArgumentsError::Memory, output);
    };
    match asked {
        Some(request) => {
            let asking = Asking {
                request,
                manner,
                explains: has_explain(words),
            };
            carry_out_asked(alloc, asking, files, input, output, error_text)
        }
        None => Err(misunderstood(alloc)),
    }
}

/// Whether `--explain` is among the arguments.
fn has_explain(words: &[String]) -> bool
    ensures { result ≡ words_spec.has_explain words.now }
{
    let mut rest = words;
    while let [word, behind @ ..] = rest {
        if word.as_bytes() == b"--explain".as_slice() {
            return true;
        }
        rest = behind;
    }
    false
}

/// A request with how it is carried out, and whether `--explain` is among its arguments.
#[derive(Drop)]
struct Asking<'a> {
    request: Request<'a>,
    manner: Manner,
    explains: bool,
}

/// Performs the request with the requested explanations, if there may be any, and writes the line
/// of JSON of a refused file.
fn carry_out_asked<'a, F: Files, R: Read, W: Write>(
    alloc: Global,
    asking: Asking<'a>,
    files: &mut F,
    input: &mut Counted<R>,
    output: &mut Counted<W>,
    error_text: &mut ErrorText,
) -> Fallible<'a, ()>
    requires input { faults_of input.old < u64.MAX }
    requires output { faults_of output.old < u64.MAX }
    requires unnoted { error_text.old.lines.items ≡ [] }
    ensures input_fault { TellsFault (faults_of input.old) (faults_of input.new) result }
    ensures output_fault { TellsFault (faults_of output.old) (faults_of output.new) result }
    ensures unfilled { IfErr result (λ failure. status_of failure < 4
        → F.holds files.new ≡ F.holds files.old) }
    ensures noted { OnOk result (IsNote (F.holds files.old) (noting asking.entry.request)
        (tamed error_text.new.lines.items)) }
    ensures hushed { asking.entry.explains ≡ false
        → IfErr result (λ failure. IsFailureNote (F.holds files.old)
        asking.entry.request failure (tamed error_text.new.lines.items)) }
    ensures performed { OnOk result (Performs (F.holds files.old)
        (R.remaining (device_of input.old)) asking.entry.request (F.holds files.new)
        (W.contents (device_of output.old)) (W.contents (device_of output.new))) }
    ensures state { IfErr result (λ _. KeepsState (F.holds files.old)
        (R.remaining (device_of input.old)) asking.entry.request (F.holds files.new)
        (W.contents (device_of output.old)) (W.contents (device_of output.new))) }
    ensures failed { IfErr result (EndsEarly (F.holds files.old)
        (R.remaining (device_of input.old)) asking.entry.request
        (W.contents (device_of output.old)) (W.contents (device_of output.new))) }
{
    let explaining = explaining_of(&asking, files);
    let is_json = answers_json(&asking.request);
    let mode = match &explaining {
        Some(explaining) => Some(explaining.mode),
        None => None,
    };
    let cache = InputCache::new(alloc, mode, is_json);
    match perform(&cache, asking.request, files, input, output, error_text) {
        Ok(()) => Ok(()),
        Err(failure) => {
            let inputs = cache.into_inputs();
            let explained = explain_failure(&inputs, explaining, files, failure, error_text);
            Err(tell_refusal(&inputs, is_json, explained, output))
        }
    }
}

/// The settings for explaining a refusal, if explanations are requested.
fn explaining_of<F: Files>(asking: &Asking<'_>, files: &F) -> Option<Explaining>
    ensures { asking.now.explains ≡ false → result ≡ None }
{
    match asking.manner.reporting {
        Reporting::Explained(colour) if asking.explains => {
            Some(Explaining::new(asking.manner, colour, files))
        }
        _ => None,
    }
}

/// The failure of a request, once the lines about it have been added to the note: its explanation,
/// if one is requested, or else why its file isn't used, where each user has to know.
fn explain_failure<'a, F: Files>(
    inputs: &Inputs,
    explaining: Option<Explaining>,
    files: &F,
    failure: Failure<'a>,
    error_text: &mut ErrorText,
) -> Failure<'a>
    ensures fault { status_of failure.entry ≡ 4 → status_of result ≡ 4 }
    ensures same { (result ≡ failure.entry) ⊎ (result ≡ Memory) }
    ensures objects { explaining ≡ None → (line : List ℕ) × MayObject failure.entry line
        × (error_text.new.lines.items ≡ error_text.old.lines.items ++ line) }
{
    let Some(explaining) = explaining else {
        let lines = objection(inputs, files, &failure);
        return failure.after(error_text.put(lines));
    };
    let lines = explaining.of_failure(inputs, files, &failure);
    failure.after(error_text.put(lines))
}

/// The failure for arguments that aren't understood.
fn misunderstood<'a>(alloc: Global) -> Failure<'a>
    ensures { IsMistake result ⊎ (3 < status_of result) }
{
    match String::from_str(alloc, MISUNDERSTOOD) {
        Ok(text) => Failure::Usage(text),
        Err(_) => Failure::Memory,
    }
}

/// Writes help that the arguments request to the output; for a mistake the failure says what is
/// wrong.
fn answer_arguments<'a, W: Write>(
    alloc: Global,
    words: &[String],
    error: ArgumentsError,
    output: &mut Counted<W>,
) -> Fallible<'a, ()>
    requires { faults_of output.old < u64.MAX }
    ensures fault { TellsFault (faults_of output.old) (faults_of output.new) result }
    ensures help { OnOk result (AsksHelp words.now) }
    ensures failed { IfErr result (Unread words.now
        (W.contents (device_of output.old)) (W.contents (device_of output.new))) }
{
    match error {
        ArgumentsError::Help(text) => {
            if !asks_help(words) {
                return Err(misunderstood(alloc));
            }
            write(text.as_bytes(), output)
        }
        ArgumentsError::Mistake(text) => Err(Failure::Usage(text)),
        ArgumentsError::Memory => Err(Failure::Memory),
    }
}

/// Does one subcommand.
fn perform<'a, F: Files, R: Read, W: Write>(
    cache: &InputCache,
    request: Request<'a>,
    files: &mut F,
    input: &mut Counted<R>,
    output: &mut Counted<W>,
    error_text: &mut ErrorText,
) -> Fallible<'a, ()>
    requires input { faults_of input.old < u64.MAX }
    requires output { faults_of output.old < u64.MAX }
    requires unnoted { error_text.old.lines.items ≡ [] }
    ensures noted { Notes (F.holds files.old) (noting request.entry) result
        error_text.new.lines.items }
    ensures unfilled { IfErr result (λ failure. status_of failure < 4
        → F.holds files.new ≡ F.holds files.old) }
    ensures input_fault { TellsFault (faults_of input.old) (faults_of input.new) result }
    ensures output_fault { TellsFault (faults_of output.old) (faults_of output.new) result }
    ensures left { IfErr result (Leaves
        (Answers (F.holds files.old) (R.remaining (device_of input.old)) request.entry)
        (cut_from request.entry)
        (W.contents (device_of output.old)) (W.contents (device_of output.new))) }
    ensures performed { OnOk result (Performs (F.holds files.old)
        (R.remaining (device_of input.old)) request.entry (F.holds files.new)
        (W.contents (device_of output.old)) (W.contents (device_of output.new))) }
    ensures state { IfErr result (λ _. KeepsState (F.holds files.old)
        (R.remaining (device_of input.old)) request.entry (F.holds files.new)
        (W.contents (device_of output.old)) (W.contents (device_of output.new))) }
    ensures failed { IfErr result (Why (F.holds files.old) request.entry
        (W.contents (device_of output.old)) (W.contents (device_of output.new))) }
{
    match request {
        Request::Flows {
            compilation,
            has_walks,
        } => {
            let subject = Subject {
                alloc: cache.alloc,
                cache,
                files,
            };
            put_flows(&subject, compilation, has_walks, output)
        }
        Request::Run {
            execution,
            initial_store,
            has_trace,
            has_count,
        } => {
            let asked = Running {
                execution,
                initial_store,
                has_trace,
                has_count,
            };
            run(cache, &asked, files, output, &mut error_text.lines)
        }
        Request::Drive(driving) => drive(
            cache,
            driving,
            files,
            input,
            output,
            &mut error_text.lines,
        ),
        Request::Layout(asked) => lay_out(cache, asked, files, output),
        Request::Lsp(serving) => {
            serve(
                cache.alloc,
                serving,
                files,
                input,
                output,
                &mut error_text.lines,
            )
        }
        _ => put_answer(cache, request, files, output, &mut error_text.lines),
    }
}
