//! The answers of the subcommands that judge, rewrite or lay out a source text.

ghost use Rattle.std.specs.{Prelude.{◌≡◌, IfErr, IfOk, ◌<◌, OnOk, ◌≤◌, ◌+◌, ◌^◌, [], ℕ, List, length}, Io.KnownBytes.{Appends}};
ghost use Rattle.vsi_subject.specs.{Laying.{ToldCanonical, AnswersLayout, ChecksLayout, LaysOut, OtherLayout, PerformsLayout, written_by}, Files.{AreFiles, OfFile, OfFiles, Writes}, Documents.{judgement_of}, Performed.{TellsCheck, TellsMend, ToldClasses, ToldFlows, ToldImage, ToldListing}, Refusals.{AsksCanonical, AsksClasses, AsksFlows, AsksImage, NoOther, RefusesFile, RefusesFiles, RefusesLattice, FailsBy}, Reasons.{RefusesCheck, RefusesMend}, Partly.{Leaves, AnswersFlows, WritesPart}, State.{StaysBeside}, Failures.{TellsFault, status_of}, Walked.{IsTextOf}};
ghost use Rattle.vsi_answers.specs.Requests.{ListsTo};
ghost use Rattle.vsi_drive.specs.Counted.{device_of, faults_of};
ghost use Rattle.vsi_flows.specs.{Walking.{AreWalks}};

use crate::c_code::file_name;
use std::alloc::{AllocError, Global};
use std::io::Write;
use vsi_answers::Object;
use vsi_arguments::{Compilation, Judging, Layout, Mending};
use vsi_compiler::read_source;
use vsi_conform::{Judgement, check_json_for};
use vsi_documents::{Reply, mend_json, named_policy};
use vsi_drive::Counted;
use vsi_flows::{Walks, table_walks, walk_table};
use vsi_lattice::Lattice;
use vsi_subject::{
    CheckObserver, Failure, Fallible, Files, FlowObserver, InputCache, InputKind, Subject,
    answered, good, profile, refused, replace, two_classes, write, write_answer,
};
use vsi_syntax::places_text;

/// The lattice, which is judged, and the bytes of the source text, which are read after it.
pub(crate) fn policy_and_text<'a, F: Files>(
    subject: &Subject<'_, F>,
    compilation: Compilation<'a>,
) -> Fallible<'a, (Lattice, Vec<u8>)>
    ensures told { IfOk result
        (λ pair. AreFiles (F.holds subject.now.files.now) compilation.entry pair.0 pair.1.items) }
    ensures failed { IfErr result (FailsBy (RefusesLattice (F.holds subject.now.files.now)
        compilation.entry.lattice.now) NoOther) }
{
    let classes = subject.lattice_in(compilation.lattice)?;
    let text = subject.bytes_in(InputKind::Source, compilation.source)?;
    Ok((classes, text))
}

/// Adds a warning if a text names a lattice file of another name than the given one.
fn warn_of_policy(lattice: &str, text: &[u8], note: &mut Vec<u8>) -> Result<(), AllocError> {
    let Some(named) = named_policy(text) else {
        return Ok(());
    };
    if file_name(named) == file_name(lattice.as_bytes()) {
        return Ok(());
    }
    note.extend_from_slice(b"warning: the text names another lattice file, ")?;
    note.extend_from_slice(named)?;
    note.extend_from_slice(b"\n")
}

/// `accepted`, if the source text is accepted as requested, or a line of JSON that says whether
/// it is. The note gets the warnings about the text.
pub fn check<'a, F: Files>(
    subject: &Subject<'_, F>,
    asked: Judging<'a>,
    note: &mut Vec<u8>,
) -> Fallible<'a, Reply>
    ensures told { IfOk result (λ reply. TellsCheck asked.entry.is_json (F.holds
        subject.now.files.now) asked.entry reply.is_good reply.text) }
    ensures failed { IfErr result
        (FailsBy (RefusesCheck (F.holds subject.now.files.now) asked.entry) NoOther) }
{
    let (classes, text) = policy_and_text(subject, asked.compilation)?;
    let alloc = subject.alloc;
    let text = text.as_slice();
    warn_of_policy(asked.compilation.lattice, text, note)?;
    let mut observer = CheckObserver {
        cache: subject.cache,
        note,
        has_warnings: asked.has_warnings,
    };
    if asked.is_json {
        let judged = judgement(asked.is_steady, asked.compilation.is_strict);
        let checked = check_json_for(alloc, judged, &classes, text, &mut observer)?;
        return Ok(Reply {
            text: checked.line,
            is_good: checked.is_accepted,
        });
    }
    if asked.is_steady {
        return good(answered(vsi_answers::check_steady(alloc, &classes, text, &mut observer)));
    }
    let profile = profile(asked.compilation.is_strict);
    good(answered(vsi_answers::check(alloc, profile, &classes, text, &mut observer)))
}

/// The class of each declaration of the source text.
pub fn classes<'a, F: Files>(
    subject: &Subject<'_, F>,
    compilation: Compilation<'a>,
) -> Fallible<'a, Vec<u8>>
    ensures told { IfOk result (OfFiles (F.holds subject.now.files.now) compilation.entry
        (ToldClasses compilation.entry.is_strict)) }
    ensures failed { IfErr result (FailsBy (RefusesFiles (F.holds subject.now.files.now)
        compilation.entry (AsksClasses compilation.entry.is_strict)) NoOther) }
{
    let (classes, text) = policy_and_text(subject, compilation)?;
    let text = text.as_slice();
    let profile = profile(compilation.is_strict);
    let cache = subject.cache;
    let mut observer = FlowObserver { cache };
    answered(vsi_answers::classes(cache.alloc, profile, &classes, text, &mut observer))
}

/// A line for each class of the source text that has to rise, the text with these classes, or a
/// line of JSON about them, as requested.
pub fn mend<'a, F: Files>(subject: &Subject<'_, F>, asked: Mending<'a>) -> Fallible<'a, Reply>
    ensures told { IfOk result (λ reply. TellsMend asked.entry.is_json (F.holds
        subject.now.files.now) asked.entry reply.is_good reply.text) }
    ensures failed { IfErr result
        (FailsBy (RefusesMend (F.holds subject.now.files.now) asked.entry) NoOther) }
{
    let (classes, text) = policy_and_text(subject, asked.compilation)?;
    let alloc = subject.alloc;
    let text = text.as_slice();
    let profile = profile(asked.compilation.is_strict);
    if asked.is_json {
        return Ok(mend_json(alloc, profile, &classes, text)?);
    }
    if asked.is_applied {
        return good(answered(vsi_answers::apply(alloc, profile, &classes, text)));
    }
    good(answered(vsi_answers::mend(alloc, profile, &classes, text)))
}

/// The bytes of the image of the source text.
pub fn built<'a, F: Files>(
    subject: &Subject<'_, F>,
    compilation: Compilation<'a>,
) -> Fallible<'a, Vec<u8>>
    ensures told { IfOk result (OfFiles (F.holds subject.now.files.now) compilation.entry
        (ToldImage compilation.entry.is_strict)) }
    ensures failed { IfErr result (FailsBy (RefusesFiles (F.holds subject.now.files.now)
        compilation.entry (AsksImage compilation.entry.is_strict)) NoOther) }
{
    let (classes, text) = policy_and_text(subject, compilation)?;
    let text = text.as_slice();
    let profile = profile(compilation.is_strict);
    let cache = subject.cache;
    let mut observer = FlowObserver { cache };
    answered(vsi_answers::build(cache.alloc, profile, &classes, text, &mut observer))
}

/// The listing of the image.
pub fn list<'a, F: Files>(subject: &Subject<'_, F>, image: &'a str) -> Fallible<'a, Vec<u8>>
    ensures told { IfOk result (OfFile (F.holds subject.now.files.now) image.now ToldListing) }
    ensures failed { IfErr result
        (FailsBy (RefusesFile (F.holds subject.now.files.now) image.now ListsTo) NoOther) }
{
    let bytes = subject.bytes_in(InputKind::Image, image)?;
    Ok(vsi_answers::list(subject.alloc, bytes.as_slice())?)
}

/// The canonical text of the source text.
pub fn format<'a, F: Files>(subject: &Subject<'_, F>, source: &'a str) -> Fallible<'a, Vec<u8>>
    ensures told { IfOk result (OfFile (F.holds subject.now.files.now) source.now ToldCanonical) }
    ensures failed { IfErr result
        (FailsBy (RefusesFile (F.holds subject.now.files.now) source.now AsksCanonical) NoOther) }
{
    let bytes = subject.bytes_in(InputKind::Source, source)?;
    let classes = two_classes(subject.alloc)?;
    answered(vsi_answers::format(subject.alloc, &classes, bytes.as_slice()))
}

/// The judgement with `--steady`, and with `--strict`.
pub(crate) fn judgement(is_steady: bool, is_strict: bool) -> Judgement
    ensures { result ≡ judgement_of is_steady is_strict }
{
    match (is_steady, is_strict) {
        (true, _) => Judgement::Steady,
        (false, true) => Judgement::Strict,
        (false, false) => Judgement::Base,
    }
}

/// Writes the flows between the declared variables of the source text, each with a walk if
/// requested.
pub fn put_flows<'a, F: Files, W: Write>(
    subject: &Subject<'_, F>,
    compilation: Compilation<'a>,
    has_walks: bool,
    output: &mut Counted<W>,
) -> Fallible<'a, ()>
    requires { faults_of output.old < u64.MAX }
    ensures fault { TellsFault (faults_of output.old) (faults_of output.new) result }
    ensures left { IfErr result (Leaves
        (AnswersFlows has_walks (F.holds subject.now.files.now) compilation.entry) 4
        (W.contents (device_of output.old)) (W.contents (device_of output.new))) }
    ensures performed { OnOk result (Writes (OfFiles (F.holds subject.now.files.now)
        compilation.entry (ToldFlows has_walks compilation.entry.is_strict)) (W.contents
        (device_of output.old)) (W.contents (device_of output.new))) }
    ensures failed { IfErr result (FailsBy (RefusesFiles (F.holds subject.now.files.now)
        compilation.entry (AsksFlows has_walks compilation.entry.is_strict)) NoOther) }
{
    let (classes, text) = policy_and_text(subject, compilation)?;
    let alloc = subject.alloc;
    let text = text.as_slice();
    let profile = profile(compilation.is_strict);
    if !has_walks {
        let lines = answered(vsi_answers::flows(alloc, profile, &classes, text))?;
        return write(lines.as_slice(), output);
    }
    let source = match read_source(alloc, &classes, text) {
        Ok(source) => source,
        Err(error) => return Err(refused(alloc, &classes, text, error)),
    };
    let table = walk_table(alloc, profile, &source)?;
    let walks = table_walks(alloc, &table)?;
    write_walks(alloc, &walks, output)
}

/// The source text and its layout.
fn laid_out<'a, F: Files>(
    subject: &Subject<'_, F>,
    source: &'a str,
) -> Fallible<'a, (Vec<u8>, Vec<u8>)>
    ensures laid { IfOk result (λ both. LaysOut (F.holds subject.now.files.now) source.now
        both.0.items both.1.items) }
    ensures failed { IfErr result
        (FailsBy (RefusesFile (F.holds subject.now.files.now) source.now AsksCanonical) NoOther) }
{
    let text = subject.bytes_in(InputKind::Source, source)?;
    let Ok(layout) = vsi_syntax::layout(subject.alloc, text.as_slice()) else {
        let classes = two_classes(subject.alloc)?;
        let _canonical = answered(vsi_answers::format(subject.alloc, &classes, text.as_slice()))?;
        return Err(Failure::Memory);
    };
    Ok((text, layout))
}

/// The line of JSON that says whether a source text is laid out.
pub fn layout_line<'a, F: Files>(subject: &Subject<'_, F>, source: &'a str) -> Fallible<'a, Reply>
    ensures told { IfOk result (λ reply.
        ChecksLayout (F.holds subject.now.files.now) source.now reply.is_good reply.text) }
    ensures failed { IfErr result
        (FailsBy (RefusesFile (F.holds subject.now.files.now) source.now AsksCanonical) NoOther) }
{
    let (text, layout) = laid_out(subject, source)?;
    let is_good = text.as_slice() == layout.as_slice();
    let made = Object::new(subject.alloc)
        .text("file", source.as_bytes())?
        .flag("formatted", is_good)?;
    let text = made.line()?;
    Ok(Reply { is_good, text })
}

/// Lays out a source text: prints the layout, puts it into the file, or prints where the text
/// differs from it.
pub fn lay_out<'a, F: Files, W: Write>(
    cache: &InputCache,
    asked: Layout<'a>,
    files: &mut F,
    output: &mut Counted<W>,
) -> Fallible<'a, ()>
    requires { faults_of output.old < u64.MAX }
    ensures unfilled { IfErr result (λ failure. status_of failure < 4
        → F.holds files.new ≡ F.holds files.old) }
    ensures fault { TellsFault (faults_of output.old) (faults_of output.new) result }
    ensures left { IfErr result (Leaves
        (AnswersLayout asked.entry.is_checked asked.entry.is_written (F.holds files.old)
        asked.entry.source.now) 4
        (W.contents (device_of output.old)) (W.contents (device_of output.new))) }
    ensures performed { OnOk result
        (PerformsLayout asked.entry.is_checked asked.entry.is_written (F.holds files.old)
        asked.entry.source.now (F.holds files.new)
        (W.contents (device_of output.old)) (W.contents (device_of output.new))) }
    ensures state { IfErr result (λ _. StaysBeside
        (written_by asked.entry.is_checked asked.entry.is_written asked.entry.source)
        (F.holds files.old) (F.holds files.new)) }
    ensures failed { IfErr result
        (FailsBy (RefusesFile (F.holds files.old) asked.entry.source.now AsksCanonical)
        (OtherLayout asked.entry.is_checked (F.holds files.old) asked.entry.source.now
        (W.contents (device_of output.old)) (W.contents (device_of output.new)))) }
{
    let subject = Subject {
        alloc: cache.alloc,
        cache,
        files,
    };
    let (text, layout) = laid_out(&subject, asked.source)?;
    if asked.is_checked {
        if text == layout {
            return Ok(());
        }
        let Ok(places) = places_text(cache.alloc, &text, &layout) else {
            return Err(Failure::Memory);
        };
        return write_answer(&places, false, output);
    }
    if !asked.is_written {
        return write(&layout, output);
    }
    if text == layout {
        return Ok(());
    }
    replace(cache.alloc, &layout, asked.source, files)
}

/// The size of the lines that are collected before they are written, in bytes.
const ENOUGH: usize = 65_536;

/// The size of the longest text, in bytes.
const MOST: usize = 4_611_686_018_427_387_904;

/// Writes the lines of all pairs, a part of them at a time.
fn write_walks<'a, W: Write>(
    alloc: Global,
    walks: &Walks<'_, '_, '_>,
    output: &mut Counted<W>,
) -> Fallible<'a, ()>
    requires output { faults_of output.old < u64.MAX }
    requires walks { AreWalks walks.now }
    ensures fault { TellsFault (faults_of output.old) (faults_of output.new) result }
    ensures late { IfErr result (λ failure. 3 < status_of failure) }
    ensures cut { IfErr result (λ _. (bytes : List ℕ) × IsTextOf walks.now bytes
        × WritesPart bytes
        (W.contents (device_of output.old)) (W.contents (device_of output.new))) }
    ensures written { OnOk result ((bytes : List ℕ) × IsTextOf walks.now bytes
        × (length bytes < 2 ^ 63)
        × Appends (W.contents (device_of output.old)) (W.contents (device_of output.new)) bytes) }
{
    let mut lines = Vec::new(alloc);
    let mut total = 0;
    for number in 0..walks.len() {
        walks.put_lines(alloc, number, &mut lines)?;
        if lines.len() < ENOUGH {
            continue;
        }
        write_lines(&mut lines, &mut total, output)?;
    }
    write_lines(&mut lines, &mut total, output)
}

/// Writes collected lines, adds their size to the total and empties them.
fn write_lines<'a, W: Write>(
    lines: &mut Vec<u8>,
    total: &mut usize,
    output: &mut Counted<W>,
) -> Fallible<'a, ()>
    requires output { faults_of output.old < u64.MAX }
    requires total { total.old ≤ 2 ^ 62 }
    ensures fault { TellsFault (faults_of output.old) (faults_of output.new) result }
    ensures late { IfErr result (λ failure. 3 < status_of failure) }
    ensures part { IfErr result (λ _. WritesPart lines.old.items
        (W.contents (device_of output.old)) (W.contents (device_of output.new))) }
    ensures whole { OnOk result (Appends (W.contents (device_of output.old))
        (W.contents (device_of output.new)) lines.old.items) }
    ensures emptied { OnOk result (lines.new.items ≡ []) }
    ensures counted { OnOk result (total.new ≡ total.old + length lines.old.items) }
    ensures few { OnOk result (total.new ≤ 2 ^ 62) }
{
    if lines.len() > MOST - *total {
        return Err(Failure::Memory);
    }
    write(lines.as_slice(), output)?;
    *total += lines.len();
    lines.clear();
    Ok(())
}
