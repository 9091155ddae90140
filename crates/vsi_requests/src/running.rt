//! Runs of images.

ghost use Rattle.std.specs.Prelude.{◌≡◌, ◌⊎◌, [], IfErr, IfOk, OnOk, ◌<◌, true, length, Ok, Err};
ghost use Rattle.vsi_subject.specs.{Documents.{RunsJson}, Refusals.{NoOther, RefusesImage, FailsBy, LacksBoundAt, RefusesStart, LacksEither}, Files.{BeginsAt}, Noted.{Counts, CountsRun, NotesCompare}, Performed.{PerformsRun, TellsComparison, ToldComparison, ViewsFiles}, Partly.{AnswersRun, Leaves}, State.{StaysBeside}, Failures.{TellsFault, status_of}, declared.failure.Failure.TheVariants.{Memory}, Reasons.{WhyRun, WhyView, LacksCompare, WhyCompare}};
ghost use Rattle.vsi_lattice.specs.{LatticeView.{order}, Order.{IsClass}, NamePlaces.{texts}};
ghost use Rattle.vsi_compiler.specs.declared.source.CompileError.TheVariants.{Memory};
ghost use Rattle.vsi_answers.specs.Requests.{BeginsWith, ComparesTo};
ghost use Rattle.vsi_drive.specs.Counted.{device_of, faults_of};
ghost use Rattle.vsi_machine.specs.{Counting.{Halts}, Runs.{run_of}};

use crate::drives::{admit, budget_of, stored_words};
use crate::viewers::policy_and_image;
use std::alloc::Global;
use std::io::Write;
use vsi_answers::{Unanswered, start_words};
use vsi_arguments::{Comparison, Execution, InitialStore};
use vsi_documents::{Reply, compare_json, run_json};
use vsi_drive::{Counted, run_words};
use vsi_image::Verified;
use vsi_lattice::{Class, Lattice};
use vsi_machine::{Outcome, count_text, counted, stop_text};
use vsi_subject::{
    Failure, Fallible, Files, InputCache, InputKind, Subject, deliver, device_failure,
};

/// The line of JSON for the run of an image file, and whether it halts within its budget.
pub fn run_line<'a, F: Files>(
    subject: &Subject<'_, F>,
    execution: Execution<'a>,
    initial_store: &InitialStore<'a>,
) -> Fallible<'a, Reply>
    ensures told { IfOk result (λ reply. RunsJson (F.holds subject.now.files.now) execution.entry
        initial_store.now reply.is_good reply.text) }
    ensures failed { IfErr result (FailsBy (λ reason. RefusesImage (F.holds subject.now.files.now)
        execution.entry.image.now reason ⊎ RefusesStart (F.holds subject.now.files.now)
        execution.entry initial_store.now reason) (LacksBoundAt (F.holds subject.now.files.now)
        execution.entry.image.now execution.entry.budget)) }
{
    let (verified, words) = image_and_words(subject, execution, initial_store)?;
    let budget = budget_of(subject.alloc, execution.budget, &verified)?;
    let told = run_json(subject.alloc, &verified, &words, budget)?;
    Ok(told)
}

/// The text in place of a path in a message about a setting.
const SETTING: &str = "--set";

/// Keeps each setting for an explanation.
pub(crate) fn keep_settings<'a>(cache: &InputCache, settings: &[&[u8]]) -> Fallible<'a, ()>
    ensures { IfErr result (λ failure. failure ≡ Memory) }
{
    for setting in settings {
        cache.keep(InputKind::Setting, SETTING, setting)?;
    }
    Ok(())
}

/// The words that a run begins with, from a store file's bytes and then the settings, which are
/// kept for an explanation.
pub(crate) fn words_in<'a>(
    cache: &InputCache,
    verified: &Verified,
    file: &[u8],
    initial_store: &InitialStore<'a>,
) -> Fallible<'a, Vec<i64>>
    ensures len { IfOk result (λ words. length words.items ≡ length verified.now.globals.items) }
    ensures begins { IfOk result (λ words. BeginsWith verified.now file.now
        (texts initial_store.now.settings.items) initial_store.now.is_full (Ok words)) }
    ensures failed { IfErr result (FailsBy (λ reason. BeginsWith verified.now file.now
        (texts initial_store.now.settings.items) initial_store.now.is_full (Err reason)) NoOther) }
{
    let settings = initial_store.settings.as_slice();
    keep_settings(cache, settings)?;
    Ok(start_words(cache.alloc, verified, file, settings, initial_store.is_full)?)
}

/// The image to run and the words that it begins with. The store file is read before the image
/// and judged after it.
fn image_and_words<'a, F: Files>(
    subject: &Subject<'_, F>,
    execution: Execution<'a>,
    initial_store: &InitialStore<'a>,
) -> Fallible<'a, (Verified, Vec<i64>)>
    ensures len { IfOk result (λ pair. length pair.1.items ≡ length pair.0.globals.items) }
    ensures begins { IfOk result (λ pair. BeginsAt (F.holds subject.now.files.now) execution.entry
        initial_store.now pair.0 pair.1.items) }
    ensures failed { IfErr result (FailsBy (λ reason. RefusesImage (F.holds subject.now.files.now)
        execution.entry.image.now reason ⊎ RefusesStart (F.holds subject.now.files.now)
        execution.entry initial_store.now reason) NoOther) }
{
    let file = subject.store_in(execution.store)?;
    let verified = subject.image_in(execution.image)?;
    let words = words_in(subject.cache, &verified, &file, initial_store)?;
    Ok((verified, words))
}

/// The lines of the final store of a run of an image file that a class may see.
pub fn view<'a, F: Files>(
    subject: &Subject<'_, F>,
    lattice: &'a str,
    class: &'a str,
    execution: Execution<'a>,
    initial_store: &InitialStore<'a>,
) -> Fallible<'a, Vec<u8>>
    ensures told { IfOk result (ViewsFiles (F.holds subject.now.files.now) lattice.now class.now
        execution.entry initial_store.now) }
    ensures failed { IfErr result (FailsBy (WhyView (F.holds subject.now.files.now) lattice.now
        class.now execution.entry initial_store.now) (LacksEither (F.holds subject.now.files.now)
        lattice.now class.now execution.entry.image.now execution.entry.budget)) }
{
    let (classes, viewer, verified) = policy_and_image(
        subject,
        lattice,
        class,
        execution.image,
        false,
    )?;
    let file = subject.store_in(execution.store)?;
    let words = words_in(subject.cache, &verified, &file, initial_store)?;
    let budget = budget_of(subject.alloc, execution.budget, &verified)?;
    Ok(vsi_answers::view(subject.alloc, &classes, &verified, viewer, &words, budget)?)
}

/// The comparison that a class makes of the runs of an image file from two store files, as
/// lines or as a line of JSON. The note gets a line if the budget isn't enough and is taken all
/// the same.
pub fn compare<'a, F: Files>(
    subject: &Subject<'_, F>,
    asked: Comparison<'a>,
    is_json: bool,
    note: &mut Vec<u8>,
) -> Fallible<'a, Reply>
    ensures told { IfOk result (λ reply. TellsComparison is_json (F.holds subject.now.files.now)
        asked.entry reply.is_good reply.text) }
    ensures noted { note.old.items ≡ [] → OnOk result
        (NotesCompare (F.holds subject.now.files.now) asked.entry note.new.items) }
    ensures hushed { note.old.items ≡ [] → IfErr result (λ _. (note.new.items ≡ []) ⊎
        NotesCompare (F.holds subject.now.files.now) asked.entry note.new.items) }
    ensures failed { IfErr result (FailsBy (WhyCompare (F.holds subject.now.files.now) asked.entry)
        (LacksCompare (F.holds subject.now.files.now) asked.entry)) }
{
    let (lattice, viewer, verified) = policy_and_image(
        subject,
        asked.lattice,
        asked.class,
        asked.image,
        false,
    )?;
    let first = stored_words(subject, &verified, Some(asked.stores.0))?;
    let second = stored_words(subject, &verified, Some(asked.stores.1))?;
    let budget = budget_of(subject.alloc, asked.budget, &verified)?;
    admit(
        subject.alloc,
        asked.is_unbounded,
        &lattice,
        &verified,
        budget,
        note,
    )?;
    let runs = TwoRuns {
        lattice,
        viewer,
        verified,
        first,
        second,
        budget,
    };
    let reply = compare_runs(subject.alloc, is_json, &runs)?;
    Ok(reply)
}

/// A run of an image: its beginning, and the reports besides its final store.
#[derive(Drop)]
pub struct Running<'a> {
    pub execution: Execution<'a>,
    pub initial_store: InitialStore<'a>,
    pub has_trace: bool,
    pub has_count: bool,
}

/// Appends the number of instructions of a run that halts within the budget to the note, or its
/// position at the end of the budget, if it is requested.
fn put_count<'a>(
    alloc: Global,
    is_asked: bool,
    verified: &Verified,
    words: &[i64],
    budget: u64,
    note: &mut Vec<u8>,
) -> Fallible<'a, ()>
    ensures memory { IfErr result (λ failure. failure ≡ Memory) }
    ensures counted { note.old.items ≡ [] → Halts (run_of verified.now words.now budget)
        → OnOk result (Counts is_asked verified.now words.now note.new.items) }
{
    if !is_asked {
        return Ok(());
    }
    let Ok(count) = counted(alloc, verified, words, budget) else {
        return Err(Failure::Memory);
    };
    let lines = match count.outcome {
        Outcome::Halted => count_text(alloc, count.instructions)?,
        Outcome::OutOfBudget => stop_text(alloc, &count)?,
    };
    Ok(note.extend_from_slice(&lines)?)
}

/// Runs an image file and writes its output; the note gets the text for standard error.
pub fn run<'a, F: Files, W: Write>(
    cache: &InputCache,
    asked: &Running<'a>,
    files: &mut F,
    output: &mut Counted<W>,
    note: &mut Vec<u8>,
) -> Fallible<'a, ()>
    requires { faults_of output.old < u64.MAX }
    ensures unfilled { IfErr result (λ failure. status_of failure < 4
        → F.holds files.new ≡ F.holds files.old) }
    ensures fault { TellsFault (faults_of output.old) (faults_of output.new) result }
    ensures left { IfErr result (Leaves (AnswersRun (F.holds files.old) asked.now.execution
        asked.now.initial_store asked.now.has_trace) 3
        (W.contents (device_of output.old)) (W.contents (device_of output.new))) }
    ensures performed { OnOk result (PerformsRun (F.holds files.old) asked.now.execution
        asked.now.initial_store asked.now.has_trace (F.holds files.new)
        (W.contents (device_of output.old)) (W.contents (device_of output.new))) }
    ensures state { IfErr result
        (λ _. StaysBeside asked.now.initial_store.out (F.holds files.old) (F.holds files.new)) }
    ensures failed { IfErr result (FailsBy (WhyRun (F.holds files.old) asked.now.execution
        asked.now.initial_store asked.now.has_trace
        (W.contents (device_of output.old)) (W.contents (device_of output.new)))
        (LacksBoundAt (F.holds files.old) asked.now.execution.image.now
        asked.now.execution.budget)) }
    ensures counted { note.old.items ≡ [] → OnOk result (CountsRun (F.holds files.old)
        asked.now.execution asked.now.initial_store asked.now.has_count note.new.items) }
{
    let subject = Subject {
        alloc: cache.alloc,
        cache,
        files,
    };
    let (verified, words) = image_and_words(&subject, asked.execution, &asked.initial_store)?;
    let budget = budget_of(cache.alloc, asked.execution.budget, &verified)?;
    match run_words(
        cache.alloc,
        &verified,
        &words,
        budget,
        asked.has_trace,
        output,
    ) {
        Ok(Some(text)) => {
            put_count(
                cache.alloc,
                asked.has_count,
                &verified,
                &words,
                budget,
                note,
            )?;
            deliver(cache.alloc, &text, asked.initial_store.out, files, output)
        }
        Ok(None) => {
            put_count(
                cache.alloc,
                cache.keeps_files,
                &verified,
                &words,
                budget,
                note,
            )?;
            Err(Failure::OutOfBudget)
        }
        Err(error) => Err(device_failure(cache.alloc, error, asked.execution.image)),
    }
}

/// What a comparison is about: an image, the words of two store files, and the class that compares
/// the runs from them.
#[derive(Drop)]
struct TwoRuns {
    lattice: Lattice,
    viewer: Class,
    verified: Verified,
    first: Vec<i64>,
    second: Vec<i64>,
    budget: u64,
}

/// Compares two runs, or says why they aren't compared.
fn compare_runs(alloc: Global, is_json: bool, runs: &TwoRuns) -> Result<Reply, Unanswered>
    requires first { length runs.now.first.items ≡ length runs.now.verified.globals.items }
    requires second { length runs.now.second.items ≡ length runs.now.verified.globals.items }
    requires viewer { IsClass (order runs.now.lattice) runs.now.viewer }
    ensures told { IfOk result (λ reply. ToldComparison is_json runs.now.lattice runs.now.viewer
        runs.now.verified runs.now.first.items runs.now.second.items runs.now.budget reply.is_good
        reply.text) }
    ensures failed { IfErr result (λ reason. ComparesTo runs.now.lattice runs.now.viewer
        runs.now.verified runs.now.first.items runs.now.second.items runs.now.budget (Err reason)) }
{
    if is_json {
        let told = compare_json(
            alloc,
            &runs.lattice,
            &runs.verified,
            runs.viewer,
            &runs.first,
            &runs.second,
            runs.budget,
        )?;
        return Ok(told);
    }
    let found = vsi_answers::compare(
        alloc,
        &runs.lattice,
        &runs.verified,
        runs.viewer,
        &runs.first,
        &runs.second,
        runs.budget,
    )?;
    Ok(Reply {
        text: found.text,
        is_good: found.is_same,
    })
}
