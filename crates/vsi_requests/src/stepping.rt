//! Runs of a source text in steps, accepted or not, under a monitor or without one.

ghost use Rattle.std.specs.Prelude.{◌≡◌, true, false, length, Ok, Err, IfOk, IfErr};
ghost use Rattle.vsi_answers.specs.{Answers.{Because}, Judged.{IsProgramFault, TellsSource}};
ghost use Rattle.vsi_compiler.specs.SourceView.{IsSource};
ghost use Rattle.vsi_image.specs.Fields.{global, globals};
ghost use Rattle.vsi_lattice.specs.{LatticeView.{class_named, order}, Order.{IsClass}};
ghost use Rattle.vsi_steps.specs.declared.watch.{Stop.{Stop}, Watched.{Watched}};
ghost use Rattle.vsi_subject.specs.{Refusals.{FailsBy, LacksClassAt, NoOther, RefusesLattice}, Stepping.{AreStepFiles, AreWritten, Compared, ComparesSteps, EndsMonitored, EndsTraced, IsMonitored, IsStarted, IsStepped, OfStepFiles}, Unstepped.{RefusesWords, Spends, WhyCompareSteps, WhyMonitor, WhySteps}};
ghost use Rattle.vsi_answers.specs.declared.unanswered.Unanswered.TheVariants as unanswered;
ghost use Rattle.vsi_steps.specs.declared.watch.Unfinished.TheVariants as ends;
ghost use Rattle.vsi_store.specs.Compare as views;
ghost use Rattle.vsi_subject.specs.Stepping as spec;
ghost use Rattle.vsi_subject.specs.declared.failure.Failure.TheVariants as fails;

use crate::choices::class_table;
use crate::drives::stored_words;
use crate::running::keep_settings;
use serde_json::Value;
use std::alloc::{AllocError, Global};
use vsi_answers::start_words;
use vsi_arguments::{MonitorRule, StepComparison, Stepping};
use vsi_compiler::{Source, image_of, read_source};
use vsi_documents::Reply;
use vsi_image::{Verified, encode};
use vsi_lattice::{Class, Lattice};
use vsi_machine::word_cell;
use vsi_steps::{
    Listing, Naming, Rule, Trace, Unfinished, Watched, listing_of, monitor_json, monitor_text,
    monitored, steps_json, steps_text, together_json, together_text, trace_of,
};
use vsi_store::sees;
use vsi_subject::{Failure, Fallible, Files, InputCache, InputKind, Subject, class_in, refused};

/// The files of a run in steps: the lattice, the source text, and the bytes of the store.
#[derive(Drop)]
struct StepFiles {
    lattice: Lattice,
    text: Vec<u8>,
    file: Vec<u8>,
}

/// Reads the files of a run in steps.
fn step_files<'a, F: Files>(
    subject: &Subject<'_, F>,
    asked: &Stepping<'a>,
) -> Fallible<'a, StepFiles>
    ensures read { IfOk result (λ read. AreStepFiles (F.holds subject.now.files.now) asked.now
        read.lattice read.text.items read.file.items) }
    ensures failed { IfErr result
        (FailsBy (RefusesLattice (F.holds subject.now.files.now) asked.now.lattice.now) NoOther) }
{
    let lattice = subject.lattice_in(asked.lattice)?;
    let text = subject.bytes_in(InputKind::Source, asked.source)?;
    let file = subject.store_in(asked.store)?;
    Ok(StepFiles {
        lattice,
        text,
        file,
    })
}

/// The steps of a source text, as lines or as a line of JSON, and whether the run has ended.
pub fn steps<'a, F: Files>(
    subject: &Subject<'_, F>,
    asked: &Stepping<'a>,
    is_json: bool,
) -> Fallible<'a, Reply>
    ensures told { IfOk result (λ reply. OfStepFiles (F.holds subject.now.files.now) asked.now
        (IsStepped asked.now reply.is_good)) }
    ensures failed { IfErr result (FailsBy (WhySteps (F.holds subject.now.files.now) asked.now)
        NoOther) }
{
    let read = step_files(subject, asked)?;
    let source = source_in(subject.alloc, &read.lattice, &read.text)?;
    let words = first_words(subject.cache, asked, &source, &read.file)?;
    let reply = steps_reply(subject.alloc, &source, &words, asked.budget, is_json)?;
    Ok(reply)
}

/// A monitored run of a source text, as lines or as a line of JSON, and whether the run has
/// ended or was stopped.
pub fn monitor<'a, F: Files>(
    subject: &Subject<'_, F>,
    asked: &Stepping<'a>,
    rule: MonitorRule,
    is_json: bool,
) -> Fallible<'a, Reply>
    ensures told { IfOk result (λ reply. OfStepFiles (F.holds subject.now.files.now) asked.now
        (IsMonitored asked.now (spec.rule_of rule) reply.is_good)) }
    ensures failed { IfErr result (FailsBy (WhyMonitor (F.holds subject.now.files.now) asked.now)
        NoOther) }
{
    let read = step_files(subject, asked)?;
    let source = source_in(subject.alloc, &read.lattice, &read.text)?;
    let words = first_words(subject.cache, asked, &source, &read.file)?;
    monitor_reply(
        subject.alloc,
        &source,
        &words,
        rule_of(rule),
        asked.budget,
        is_json,
    )
}

/// The comparison that a class makes of two runs of a source text in step, from two store
/// files, as lines or as a line of JSON.
pub fn compare_steps<'a, F: Files>(
    subject: &Subject<'_, F>,
    asked: StepComparison<'a>,
    is_json: bool,
) -> Fallible<'a, Reply>
    ensures told { IfOk result (λ reply.
        ComparesSteps (F.holds subject.now.files.now) asked.entry reply.is_good) }
    ensures failed { IfErr result (FailsBy (WhyCompareSteps (F.holds subject.now.files.now)
        asked.entry) (LacksClassAt (F.holds subject.now.files.now) asked.entry.lattice.now
        asked.entry.class.now)) }
{
    let lattice = subject.lattice_in(asked.lattice)?;
    let class = class_in(&lattice, asked.class)?;
    let text = subject.bytes_in(InputKind::Source, asked.source)?;
    let source = source_in(subject.alloc, &lattice, &text)?;
    let verified = written_image(subject.cache, asked.source, &source)?;
    let first = stored_words(subject, &verified, Some(asked.stores.0))?;
    let second = stored_words(subject, &verified, Some(asked.stores.1))?;
    together(
        subject.alloc,
        &source,
        &verified,
        class,
        &first,
        &second,
        asked.budget,
        is_json,
    )
}

/// The program of a text, accepted or not.
fn source_in<'a, 's>(
    alloc: Global,
    lattice: &'s Lattice,
    text: &'s [u8],
) -> Fallible<'a, Source<'s>>
    ensures lattice { IfOk result (λ source. source.lattice ≡ lattice.now) }
    ensures text { IfOk result (λ source. source.text ≡ text.now) }
    ensures kept { IfOk result IsSource }
    ensures failed { IfErr result (FailsBy
        (Because (TellsSource (IsProgramFault lattice.now text.now) lattice.now text.now) ⊥)
        NoOther) }
{
    match read_source(alloc, lattice, text) {
        Ok(source) => Ok(source),
        Err(error) => Err(refused(alloc, lattice, text, error)),
    }
}

/// The image of a source text, whose bytes are kept for an explanation.
fn written_image<'a>(cache: &InputCache, path: &str, source: &Source<'_>) -> Fallible<'a, Verified>
    ensures made { IfOk result
        (AreWritten source.now.lattice source.now.text source.now.resolved) }
    ensures len { IfOk result
        (λ im. length im.globals.items ≡ length source.now.resolved.globals) }
    ensures memory { IfErr result (λ failure. failure ≡ fails.Memory) }
{
    // `resolved` ensures that the program is that of the text, which the proofs need.
    let _program = source.resolved();
    let verified = image_of(cache.alloc, source)?;
    // The image of a text is within the limits, so only memory can run out.
    let Ok(bytes) = encode(cache.alloc, verified.image()) else {
        return Err(Failure::Memory);
    };
    cache.keep(InputKind::Image, path, &bytes)?;
    Ok(verified)
}

/// The words that a program begins with, from the bytes of a store file and then the settings,
/// which are kept for an explanation.
fn first_words<'a>(
    cache: &InputCache,
    asked: &Stepping<'a>,
    source: &Source<'_>,
    file: &[u8],
) -> Fallible<'a, Vec<i64>>
    ensures len { IfOk result
        (λ words. length words.items ≡ length source.now.resolved.globals) }
    ensures started { IfOk result (λ words. IsStarted asked.now source.now.lattice source.now.text
        file.now source.now.resolved words.items) }
    ensures failed { IfErr result (FailsBy
        (RefusesWords asked.now source.now.lattice source.now.text file.now) NoOther) }
{
    let verified = written_image(cache, asked.source, source)?;
    let settings = asked.settings.as_slice();
    keep_settings(cache, settings)?;
    Ok(start_words(cache.alloc, &verified, file, settings, asked.is_full)?)
}

/// A value as a line of JSON.
fn line_of(alloc: Global, value: &Value) -> Result<Vec<u8>, AllocError> {
    let mut line = value.to_vec(alloc)?;
    line.extend_from_slice(b"\n")?;
    Ok(line)
}

/// The steps as lines, or as a line of JSON.
fn steps_bytes(
    alloc: Global,
    listing: &Listing<'_>,
    trace: &Trace,
    is_json: bool,
) -> Result<Vec<u8>, AllocError> {
    if is_json {
        return line_of(alloc, &steps_json(alloc, listing, trace)?);
    }
    steps_text(alloc, listing, trace)
}

/// The steps of a program from these words, and whether the run has ended.
fn steps_reply(
    alloc: Global,
    source: &Source<'_>,
    words: &[i64],
    budget: u64,
    is_json: bool,
) -> Result<Reply, AllocError>
    requires { length words.now ≡ length source.now.resolved.globals }
    ensures { IfOk result
        (λ reply. EndsTraced source.now.resolved words.now budget reply.is_good) }
{
    let trace = trace_of(alloc, source.resolved(), words, budget as usize)?;
    let classes = class_table(alloc, source)?;
    let (lattice, text, program) = (source.lattice(), source.text(), source.resolved());
    let listing = listing_of(alloc, lattice, text, program, &classes)?;
    let text = steps_bytes(alloc, &listing, &trace, is_json)?;
    Ok(Reply {
        text,
        is_good: trace.halted,
    })
}

/// A monitored run as lines, or as a line of JSON.
fn monitor_bytes(
    alloc: Global,
    naming: &Naming<'_>,
    run: &Result<Watched, Unfinished>,
    is_json: bool,
) -> Result<Vec<u8>, AllocError> {
    if is_json {
        return line_of(alloc, &monitor_json(alloc, naming, run)?);
    }
    monitor_text(alloc, naming, run)
}

/// The rule of a monitor.
fn rule_of(rule: MonitorRule) -> Rule
    ensures { result ≡ spec.rule_of rule }
{
    match rule {
        MonitorRule::NoSensitiveUpgrade => Rule::NoSensitiveUpgrade,
        MonitorRule::PermissiveUpgrade => Rule::PermissiveUpgrade,
    }
}

/// The answer of a monitored run, and whether it has ended. One that isn't stopped and comes to no
/// end has no answer.
fn ended_reply<'a>(text: Vec<u8>, run: Result<Watched, Unfinished>) -> Fallible<'a, Reply>
    ensures ended { IfOk result (λ reply. reply.is_good ≡ true
        → (last : Watched) × (run ≡ Ok last)) }
    ensures stopped { IfOk result (λ reply. reply.is_good ≡ false
        → (stop : Stop) × (run ≡ Err (ends.Stopped stop))) }
    ensures failed { IfErr result (FailsBy (λ reason. reason ≡ unanswered.OutOfBudget) NoOther) }
{
    match run {
        Ok(_last) => {
            let is_good = true;
            Ok(Reply { is_good, text })
        }
        Err(Unfinished::Stopped(_)) => {
            let is_good = false;
            Ok(Reply { is_good, text })
        }
        Err(Unfinished::Limit) => Err(Failure::OutOfBudget),
        Err(Unfinished::Memory) => Err(Failure::Memory),
    }
}

/// A monitored run of a program from these words, and whether the run has ended.
fn monitor_reply<'a>(
    alloc: Global,
    source: &Source<'_>,
    words: &[i64],
    rule: Rule,
    budget: u64,
    is_json: bool,
) -> Fallible<'a, Reply>
    requires { length words.now ≡ length source.now.resolved.globals }
    ensures told { IfOk result (λ reply. EndsMonitored rule reply.is_good
        (order source.now.lattice) source.now.resolved words.now) }
    ensures failed { IfErr result (FailsBy (λ reason. reason ≡ unanswered.OutOfBudget) NoOther) }
{
    let (lattice, program) = (source.lattice(), source.resolved());
    let classes = class_table(alloc, source)?;
    let run = monitored(alloc, rule, lattice, program, &classes, words, budget);
    let naming = Naming {
        lattice,
        text: source.text(),
        globals: program.globals(),
    };
    let text = monitor_bytes(alloc, &naming, &run, is_json)?;
    ended_reply(text, run)
}

/// Whether a class sees no difference between two words of a global.
fn are_alike(
    lattice: &Lattice,
    class: Class,
    variable: &(Vec<u8>, Vec<u8>),
    first: i64,
    second: i64,
) -> bool
    requires { IsClass (order lattice.now) class }
    ensures { result ≡ views.alike (class_named lattice.now) (order lattice.now) class
        (global variable.now) first second }
{
    !sees(lattice, class, variable.1.as_slice()) || first == second
}

/// Whether a class sees no difference between two stores.
fn agree(
    lattice: &Lattice,
    class: Class,
    variables: &[(Vec<u8>, Vec<u8>)],
    first: &[i64],
    second: &[i64],
) -> bool
    requires class { IsClass (order lattice.now) class }
    requires first { length first.now ≡ length variables.now }
    requires second { length second.now ≡ length variables.now }
    ensures { result ≡ views.agree_in (class_named lattice.now) (order lattice.now) class
        (globals variables.now) first.now second.now }
{
    for (i, variable) in variables.iter().enumerate() {
        if !are_alike(lattice, class, variable, first[i], second[i]) {
            return false;
        }
    }
    true
}

/// How a class compares the last stores of two runs: whether it sees the same in these globals.
#[derive(Drop)]
struct Seen<'s> {
    lattice: &'s Lattice,
    class: Class,
    variables: &'s [(Vec<u8>, Vec<u8>)],
    is_same: bool,
}

/// The comparison that a class makes of two runs in step: a line of JSON, or lines. After the lines
/// comes a row for each global that the class sees. The row has the last words of both runs.
fn together_bytes(
    alloc: Global,
    listing: &Listing<'_>,
    seen: &Seen<'_>,
    first: &Trace,
    second: &Trace,
    is_json: bool,
) -> Result<Vec<u8>, AllocError>
    requires { IsClass (order seen.now.lattice.now) seen.now.class }
{
    if is_json {
        let value = together_json(alloc, listing, seen.class, seen.is_same, first, second)?;
        return line_of(alloc, &value);
    }
    let mut text = together_text(alloc, listing, first, second)?;
    text.extend_from_slice(seen.lattice.name(seen.class))?;
    text.extend_from_slice(b" sees after\n")?;
    let words = first.words.iter().zip(second.words.iter());
    for ((name, class_name), (one, other)) in seen.variables.iter().zip(words) {
        if sees(seen.lattice, seen.class, class_name) {
            text.extend_from_slice(if one == other { b"  " } else { b"* " })?;
            text.extend_from_slice(&word_cell(alloc, name, *one)?)?;
            if one != other {
                text.extend_from_slice(b" | ")?;
                text.extend_from_slice(&word_cell(alloc, name, *other)?)?;
            }
            text.extend_from_slice(b"\n")?;
        }
    }
    Ok(text)
}

/// Two runs of a program in step, from these stores, as a class compares them.
fn together<'a>(
    alloc: Global,
    source: &Source<'_>,
    verified: &Verified,
    class: Class,
    first: &[i64],
    second: &[i64],
    budget: u64,
    is_json: bool,
) -> Fallible<'a, Reply>
    requires class { IsClass (order source.now.lattice) class }
    requires first { length first.now ≡ length source.now.resolved.globals }
    requires second { length second.now ≡ length source.now.resolved.globals }
    ensures told { IfOk result (λ reply. Compared source.now.lattice class source.now.resolved
        (globals verified.now.globals.items) first.now second.now budget reply.is_good) }
    ensures failed { IfErr result (FailsBy
        (Spends source.now.resolved first.now second.now budget) NoOther) }
{
    let (lattice, text, program) = (source.lattice(), source.text(), source.resolved());
    let one = trace_of(alloc, program, first, budget as usize)?;
    let other = trace_of(alloc, program, second, budget as usize)?;
    if !one.halted {
        return Err(Failure::OutOfBudget);
    }
    if !other.halted {
        return Err(Failure::OutOfBudget);
    }
    let classes = class_table(alloc, source)?;
    let listing = listing_of(alloc, lattice, text, program, &classes)?;
    let variables = verified.image().globals.as_slice();
    // Each run ends with a word for each global.
    if one.words.len() != variables.len() {
        return Err(Failure::Memory);
    }
    if other.words.len() != variables.len() {
        return Err(Failure::Memory);
    }
    let is_same = agree(lattice, class, variables, &one.words, &other.words);
    let seen = Seen {
        lattice,
        class,
        variables,
        is_same,
    };
    let text = together_bytes(alloc, &listing, &seen, &one, &other, is_json)?;
    Ok(Reply {
        text,
        is_good: is_same,
    })
}
