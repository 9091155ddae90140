//! The answers of requests that don't write while they work, and where they go.

ghost use Rattle.std.specs.{Prelude.{◌≡◌, ◌⊎◌, [], IfErr, IfOk, OnOk, ◌<◌, true, false}, Io.KnownBytes.{Appends}};
ghost use Rattle.vsi_subject.specs.{Noted.{IsNoteBefore, NotesAnswer, document_noting, Notes, noting}, Performed.{DocumentOf, PutsAnswer, Tells}, Reasons.{LacksDocument, RefusesDocument, Refuses, WhyAnswer}, Refusals.{NoOther, FailsBy}, Failures.{TellsFault, status_of}, Partly.{WritesPart, AnswersText, Leaves}, Works.{Puts, Stays, out_of, cut_of, end_of, spends}};
ghost use Rattle.vsi_drive.specs.Counted.{device_of, faults_of};
ghost use Rattle.vsi_subject.specs.Works as spec;

use std::alloc::Global;
use std::io::Write;
use vsi_arguments::{Audit, Document, Request};
use vsi_documents::Reply;
use vsi_drive::Counted;
use vsi_lattice::Lattice;
use vsi_requests::{
    audit, audit_document, bound, built, check, checked_sarif, classes, classes_line, compare,
    compare_steps, conform, draw, emit, flows_line, format, lattice, layout_line, leak, leak_line,
    list, list_line, mend, monitor, policy, project, report, run_line, source, steps, survey,
    try_source, view, view_within, visible,
};
use vsi_subject::{
    Failure, Fallible, Files, InputCache, Place, Subject, deliver, fill, good, write,
};

/// The message for a request that isn't carried out here.
const APART: &str = "error: only the program itself carries this out\n";

/// The document that answers a request. The note gets a line if the budget of a comparison isn't
/// enough and is taken all the same, and the warnings about a lattice or an interface.
fn document<'a, F: Files>(
    subject: &Subject<'_, F>,
    asked: Document<'a>,
    note: &mut Vec<u8>,
) -> Fallible<'a, Reply>
    ensures told { IfOk result (λ reply. DocumentOf (F.holds subject.now.files.now) asked.entry
        reply.is_good reply.text) }
    ensures noted { note.old.items ≡ [] → OnOk result (NotesAnswer (F.holds subject.now.files.now)
        (document_noting asked.entry) note.new.items) }
    ensures hushed { note.old.items ≡ [] → IfErr result (λ failure. IsNoteBefore
        (F.holds subject.now.files.now) (document_noting asked.entry) failure note.new.items) }
    ensures failed { IfErr result
        (FailsBy (RefusesDocument (F.holds subject.now.files.now) asked.entry)
        (LacksDocument (F.holds subject.now.files.now) asked.entry)) }
{
    match asked {
        Document::Sarif(judging) => checked_sarif(subject, judging),
        Document::Classes(compilation) => classes_line(subject, compilation),
        Document::Flows(compilation) => flows_line(subject, compilation),
        Document::Audit(audit) => audit_document(subject, audit, false),
        Document::AuditSarif(audit) => audit_document(subject, audit, true),
        Document::Bound(bounding) => bound(subject, bounding, true),
        Document::Run {
            execution,
            initial_store,
        } => run_line(subject, execution, &initial_store),
        Document::Compare(comparison) => compare(subject, comparison, true, note),
        Document::Leak(search) => leak_line(subject, search),
        Document::List(image) => good(list_line(subject, image)),
        Document::Policy(looking) => policy(subject, looking, true, note),
        Document::Visible(visibility) => visible(subject, visibility, true, note),
        Document::Layout(source) => layout_line(subject, source),
    }
}

/// Puts a good answer into its place. A bad one is written to standard output, and the program then
/// fails in this way.
fn finish<'a, F: Files, W: Write>(
    alloc: Global,
    reply: &Reply,
    place: Place<'a>,
    otherwise: Failure<'a>,
    files: &mut F,
    output: &mut Counted<W>,
) -> Fallible<'a, ()>
    requires { faults_of output.old < u64.MAX }
    ensures unfilled { IfErr result (λ failure. status_of failure < 4
        → F.holds files.new ≡ F.holds files.old) }
    ensures fault { TellsFault (faults_of output.old) (faults_of output.new) result }
    ensures part { WritesPart (out_of reply.now.is_good place.entry reply.now.text.items)
        (W.contents (device_of output.old)) (W.contents (device_of output.new)) }
    ensures put { OnOk result ((reply.now.is_good ≡ true) × Puts place.entry reply.now.text.items
        (F.holds files.old) (F.holds files.new)
        (W.contents (device_of output.old)) (W.contents (device_of output.new))) }
    ensures state { IfErr result (λ _. Stays place.entry (F.holds files.old) (F.holds files.new)) }
    ensures failed { IfErr result (λ failure. ((failure ≡ otherwise.entry)
        × (reply.now.is_good ≡ false) × Appends (W.contents (device_of output.old))
        (W.contents (device_of output.new)) reply.now.text.items) ⊎ (3 < status_of failure)) }
{
    if !reply.is_good {
        write(&reply.text, output)?;
        return Err(otherwise);
    }
    match place {
        Place::Image(path) => fill(&reply.text, path, files),
        Place::Out(out) => deliver(alloc, &reply.text, out, files, output),
    }
}

/// How the program fails after a bad answer: the budget of a run is spent, or there is a
/// difference.
fn bad_end<'a>(asked: &Request<'_>) -> Failure<'a>
    ensures { result ≡ end_of (spends asked.now) }
{
    match asked {
        Request::Document(Document::Run { .. }) => Failure::OutOfBudget,
        Request::Steps { .. } => Failure::OutOfBudget,
        _ => Failure::Differs,
    }
}

/// The place of a good answer.
fn place_of<'a>(asked: &Request<'a>) -> Place<'a>
    ensures { result ≡ spec.place_of asked.now }
{
    match asked {
        Request::Build(_, image) => Place::Image(*image),
        Request::View { initial_store, .. } => Place::Out(initial_store.out),
        Request::ViewWithin(asked) => Place::Out(asked.initial_store.out),
        Request::EmitC(asked) => Place::Out(asked.out),
        Request::Report(page) => Place::Out(page.out),
        _ => Place::Out(None),
    }
}

/// The bytes of a page.
fn copied<'a>(alloc: Global, page: &str) -> Fallible<'a, Vec<u8>>
    ensures told { IfOk result (λ text. text.items ≡ page.now) }
    ensures failed { IfErr result (FailsBy (λ reason. ⊥) NoOther) }
{
    let text = Vec::from_slice(alloc, page.as_bytes())?;
    Ok(text)
}

/// The failure of a request that isn't carried out here.
fn apart<'a>(alloc: Global) -> Failure<'a>
    ensures { FailsBy (λ reason. ⊥) NoOther result }
{
    match String::from_str(alloc, APART) {
        Ok(text) => Failure::Usage(text),
        Err(_) => Failure::Memory,
    }
}

/// The answer of a request. The note gets the lines about it.
fn answer<'a, F: Files>(
    subject: &Subject<'_, F>,
    request: Request<'a>,
    note: &mut Vec<u8>,
) -> Fallible<'a, Reply>
    ensures told { IfOk result
        (λ reply. Tells (F.holds subject.now.files.now) request.entry reply.is_good reply.text) }
    ensures noted { note.old.items ≡ [] → OnOk result
        (NotesAnswer (F.holds subject.now.files.now) (noting request.entry) note.new.items) }
    ensures hushed { note.old.items ≡ [] → IfErr result (λ failure. IsNoteBefore
        (F.holds subject.now.files.now) (noting request.entry) failure note.new.items) }
    ensures failed { IfErr result (Refuses (F.holds subject.now.files.now) request.entry) }
{
    match request {
        Request::Try(attempt) => good(try_source(subject, &attempt)),
        Request::Check(asked) => check(subject, asked, note),
        Request::Survey(asked) => survey(subject, &asked),
        Request::Document(asked) => document(subject, asked, note),
        Request::Conform(asked) => conform(subject, asked, note),
        Request::Classes(compilation) => good(classes(subject, compilation)),
        Request::Mend(asked) => mend(subject, asked),
        Request::Build(compilation, _) => good(built(subject, compilation)),
        Request::List(image) => good(list(subject, image)),
        Request::Audit(asked) => good(audit(subject, asked)),
        Request::Source(image) => good(source(subject, image)),
        Request::EmitC(asked) => good(emit(subject, asked)),
        Request::Bound(asked) => bound(subject, asked, false),
        Request::View {
            lattice,
            class,
            execution,
            initial_store,
        } => good(view(subject, lattice, class, execution, &initial_store)),
        Request::ViewWithin(asked) => good(view_within(subject, &asked, note)),
        Request::Compare(comparison) => compare(subject, comparison, false, note),
        Request::CompareSteps {
            comparison,
            is_json,
        } => compare_steps(subject, comparison, is_json),
        Request::Steps { stepping, is_json } => steps(subject, &stepping, is_json),
        Request::Monitor {
            stepping,
            rule,
            is_json,
        } => monitor(subject, &stepping, rule, is_json),
        Request::Leak(search) => good(leak(subject, search)),
        Request::Report(page) => good(report(subject, page.compilation)),
        Request::Draw(drawing) => good(draw(subject, drawing)),
        Request::Policy(looking) => policy(subject, looking, false, note),
        Request::Visible(visibility) => visible(subject, visibility, false, note),
        Request::Format(source) => good(format(subject, source)),
        Request::Lattice(arguments) => good(lattice(subject.alloc, arguments.as_slice())),
        Request::Explain(page) => good(copied(subject.alloc, page)),
        // The program makes a project before a request is carried out.
        Request::New(_) => Err(apart(subject.alloc)),
        Request::Project(asked) => project(subject, asked),
        // These write while they work.
        Request::Flows { .. } => Err(Failure::Memory),
        Request::Run { .. } => Err(Failure::Memory),
        Request::Drive(_) => Err(Failure::Memory),
        Request::Layout(_) => Err(Failure::Memory),
        Request::Lsp(_) => Err(Failure::Memory),
    }
}

/// Puts the answer of a request into its place, or writes it and fails if it is bad.
pub(crate) fn put_answer<'a, F: Files, W: Write>(
    cache: &InputCache,
    asked: Request<'a>,
    files: &mut F,
    output: &mut Counted<W>,
    note: &mut Vec<u8>,
) -> Fallible<'a, ()>
    requires { faults_of output.old < u64.MAX }
    ensures unfilled { IfErr result (λ failure. status_of failure < 4
        → F.holds files.new ≡ F.holds files.old) }
    ensures fault { TellsFault (faults_of output.old) (faults_of output.new) result }
    ensures noted { note.old.items ≡ []
        → Notes (F.holds files.old) (noting asked.entry) result note.new.items }
    ensures left { IfErr result (Leaves (AnswersText (F.holds files.old) asked.entry)
        (cut_of (spends asked.entry))
        (W.contents (device_of output.old)) (W.contents (device_of output.new))) }
    ensures performed { OnOk result (PutsAnswer (F.holds files.old) asked.entry (F.holds files.new)
        (W.contents (device_of output.old)) (W.contents (device_of output.new))) }
    ensures state { IfErr result
        (λ _. Stays (spec.place_of asked.entry) (F.holds files.old) (F.holds files.new)) }
    ensures failed { IfErr result (WhyAnswer (F.holds files.old) asked.entry
        (W.contents (device_of output.old)) (W.contents (device_of output.new))) }
{
    let place = place_of(&asked);
    let otherwise = bad_end(&asked);
    let subject = Subject {
        alloc: cache.alloc,
        cache,
        files,
    };
    let reply = answer(&subject, asked, note)?;
    finish(cache.alloc, &reply, place, otherwise, files, output)
}
