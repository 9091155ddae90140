//! Answers as lines of JSON and documents of SARIF, pages, graphs, and searches for leaks.

ghost use Rattle.std.specs.Prelude.{◌≡◌, ◌⊎◌, IfErr, IfOk, List, IfSome};
ghost use Rattle.vsi_subject.specs.{Documents.{AuditsDocument, ListsJson, ToldClassesJson, ToldFlowsJson, ToldSarif, judgement_of}, Files.{OfFiles}, Performed.{profile_of, AreSought, DrawsFiles, GraphOf, ToldPage, SearchesFiles, SearchesJson}, Reasons.{LacksSought, OtherLeak, RefusesSearch, WhyDraw}, Refusals.{NoOther, RefusesImage, RefusesLattice, FailsBy}};
ghost use Rattle.vsi_lattice.specs.{LatticeView.{class_named, order}, Order.{IsClass}};
ghost use Rattle.vsi_syntax.specs.Tree.{Whole};
ghost use Rattle.vsi_scope.specs.{Language.{Command}, Resolving.{IsResolution}};
ghost use Rattle.vsi_compiler.specs.{Source.{Reads}, declared.source.CompileError.TheVariants.{Memory}, Refusal.{RefusesProgram}};

use crate::images::version;
use crate::texts::{judgement, policy_and_text};
use std::alloc::Global;
use vsi_arguments::{Audit, Compilation, Drawing, Judging, Search};
use vsi_compiler::CompileError;
use vsi_documents::{
    Reply, audit_json, audit_sarif, check_sarif, classes_json, flows_json, leak_json, list_json,
};
use vsi_lattice::Lattice;
use vsi_leak::{Effort, Finding, Wanted, leak_of_text, leak_text};
use vsi_report::{Filing, filed_page, flows_dot, lattice_dot, policy_dot};
use vsi_subject::{Failure, Fallible, Files, InputKind, Subject, profile, refused, viewer_of};

/// Whether the source text is accepted, and the document of SARIF that says so.
pub fn checked_sarif<'a, F: Files>(
    subject: &Subject<'_, F>,
    asked: Judging<'a>,
) -> Fallible<'a, Reply>
    ensures told { IfOk result (λ reply. OfFiles (F.holds subject.now.files.now)
        asked.entry.compilation (ToldSarif (judgement_of asked.entry.is_steady
        asked.entry.compilation.is_strict) asked.entry.compilation.source.now reply.is_good)
        reply.text) }
    ensures failed { IfErr result (FailsBy (RefusesLattice (F.holds subject.now.files.now)
        asked.entry.compilation.lattice.now) NoOther) }
{
    let (classes, text) = policy_and_text(subject, asked.compilation)?;
    let path = asked.compilation.source;
    let judged = judgement(asked.is_steady, asked.compilation.is_strict);
    Ok(check_sarif(subject.alloc, judged, &classes, path, text.as_slice())?)
}

/// The line of JSON for a source text with its classes, and whether it is accepted.
pub fn classes_line<'a, F: Files>(
    subject: &Subject<'_, F>,
    compilation: Compilation<'a>,
) -> Fallible<'a, Reply>
    ensures told { IfOk result (λ reply. OfFiles (F.holds subject.now.files.now) compilation.entry
        (ToldClassesJson (profile_of compilation.entry.is_strict) reply.is_good) reply.text) }
    ensures failed { IfErr result (FailsBy
        (RefusesLattice (F.holds subject.now.files.now) compilation.entry.lattice.now) NoOther) }
{
    let (classes, text) = policy_and_text(subject, compilation)?;
    let profile = profile(compilation.is_strict);
    Ok(classes_json(subject.alloc, profile, &classes, text.as_slice())?)
}

/// The line of JSON for a source text with its flows, and whether it has a program.
pub fn flows_line<'a, F: Files>(
    subject: &Subject<'_, F>,
    compilation: Compilation<'a>,
) -> Fallible<'a, Reply>
    ensures told { IfOk result (λ reply. OfFiles (F.holds subject.now.files.now) compilation.entry
        (ToldFlowsJson (profile_of compilation.entry.is_strict) reply.is_good) reply.text) }
    ensures failed { IfErr result (FailsBy
        (RefusesLattice (F.holds subject.now.files.now) compilation.entry.lattice.now) NoOther) }
{
    let (classes, text) = policy_and_text(subject, compilation)?;
    let profile = profile(compilation.is_strict);
    Ok(flows_json(subject.alloc, profile, &classes, text.as_slice())?)
}

/// The line of JSON for an image, or the document of SARIF, and whether it is accepted.
pub fn audit_document<'a, F: Files>(
    subject: &Subject<'_, F>,
    asked: Audit<'a>,
    is_sarif: bool,
) -> Fallible<'a, Reply>
    ensures told { IfOk result (λ reply. AuditsDocument is_sarif (F.holds subject.now.files.now)
        asked.entry reply.is_good reply.text) }
    ensures failed { IfErr result (FailsBy (λ reason.
        RefusesLattice (F.holds subject.now.files.now) asked.entry.lattice.now reason
        ⊎ RefusesImage (F.holds subject.now.files.now) asked.entry.image.now reason) NoOther) }
{
    let classes = subject.lattice_in(asked.lattice)?;
    let verified = subject.image_in(asked.image)?;
    let judged = judgement(asked.is_steady, asked.is_strict);
    if is_sarif {
        return Ok(audit_sarif(subject.alloc, judged, &classes, asked.image, &verified)?);
    }
    Ok(audit_json(subject.alloc, judged, &classes, &verified)?)
}

/// The line of JSON with the parts of an image.
pub fn list_line<'a, F: Files>(subject: &Subject<'_, F>, image: &'a str) -> Fallible<'a, Vec<u8>>
    ensures told { IfOk result (ListsJson (F.holds subject.now.files.now) image.now) }
    ensures failed { IfErr result
        (FailsBy (RefusesImage (F.holds subject.now.files.now) image.now) NoOther) }
{
    let verified = subject.image_in(image)?;
    Ok(list_json(subject.alloc, &verified)?)
}

/// The page of a source text.
pub fn report<'a, F: Files>(
    subject: &Subject<'_, F>,
    compilation: Compilation<'a>,
) -> Fallible<'a, Vec<u8>>
    ensures told { IfOk result (OfFiles (F.holds subject.now.files.now) compilation.entry
        (ToldPage compilation.entry.is_strict)) }
    ensures failed { IfErr result (FailsBy (RefusesLattice (F.holds subject.now.files.now)
        compilation.entry.lattice.now) NoOther) }
{
    let (policy, classes) = subject.policy_in(compilation.lattice)?;
    let text = subject.bytes_in(InputKind::Source, compilation.source)?;
    let filing = Filing {
        source: compilation.source.as_bytes(),
        lattice: compilation.lattice.as_bytes(),
        policy: policy.as_slice(),
        version: version(),
    };
    let profile = profile(compilation.is_strict);
    Ok(filed_page(subject.alloc, profile, &filing, &classes, text.as_slice())?)
}

/// The graph that a drawing requests.
pub fn draw<'a, F: Files>(subject: &Subject<'_, F>, drawing: Drawing<'a>) -> Fallible<'a, Vec<u8>>
    ensures told { IfOk result (DrawsFiles (F.holds subject.now.files.now) drawing.entry) }
    ensures failed { IfErr result (FailsBy (WhyDraw (F.holds subject.now.files.now)
        drawing.entry.lattice.now drawing.entry.source) NoOther) }
{
    let classes = subject.lattice_in(drawing.lattice)?;
    let alloc = subject.alloc;
    let Some(source) = drawing.source else {
        return Ok(lattice_dot(alloc, &classes)?);
    };
    let text = subject.bytes_in(InputKind::Source, source)?;
    let text = text.as_slice();
    match graph_of(alloc, drawing.is_strict, drawing.is_alone, &classes, text) {
        Ok(graph) => Ok(graph),
        Err(error) => Err(refused(alloc, &classes, text, error)),
    }
}

/// Reads the files of a search.
fn sought_in<'a, F: Files>(
    subject: &Subject<'_, F>,
    search: Search<'a>,
) -> Fallible<'a, (Lattice, Vec<u8>, Wanted)>
    ensures within { IfOk result
        (λ sought. IfSome sought.2.class (IsClass (order sought.0))) }
    ensures told { IfOk result (λ sought. AreSought (F.holds subject.now.files.now) search.entry
        sought.0 sought.1.items sought.2) }
    ensures failed { IfErr result (FailsBy (RefusesSearch (F.holds subject.now.files.now)
        search.entry) (LacksSought (F.holds subject.now.files.now) search.entry)) }
{
    let lattice = subject.lattice_in(search.lattice)?;
    let class = viewer_of(&lattice, search.class)?;
    let text = subject.bytes_in(InputKind::Source, search.source)?;
    let wanted = Wanted {
        class,
        endings: search.has_endings,
        steps: search.has_steps,
        effort: Effort {
            budget: search.budget,
            tries: search.tries,
            seed: search.seed,
        },
    };
    Ok((lattice, text, wanted))
}

/// Searches a source text for a leak, which is reported as a refusal. If none is found the line
/// has the number of pairs.
pub fn leak<'a, F: Files>(subject: &Subject<'_, F>, search: Search<'a>) -> Fallible<'a, Vec<u8>>
    ensures told { IfOk result (SearchesFiles (F.holds subject.now.files.now) search.entry) }
    ensures failed { IfErr result (FailsBy (RefusesSearch (F.holds subject.now.files.now)
        search.entry) (OtherLeak (F.holds subject.now.files.now) search.entry)) }
{
    let (lattice, text, wanted) = sought_in(subject, search)?;
    let text = text.as_slice();
    let (verified, finding) = match leak_of_text(subject.alloc, &lattice, text, &wanted) {
        Ok(found) => found,
        Err(error) => return Err(refused(subject.alloc, &lattice, text, error)),
    };
    match &finding {
        Finding::Leak(leak) => {
            let shown = leak_text(subject.alloc, &lattice, verified.image(), leak)?;
            Err(Failure::Refused(shown, None))
        }
        Finding::Nothing { pairs } => {
            let line = format!(in subject.alloc; "no leak in {pairs} pairs of runs\n")?;
            Ok(line.into_bytes())
        }
    }
}

/// The line of JSON for a search of a source text, and whether it found no leak.
pub fn leak_line<'a, F: Files>(subject: &Subject<'_, F>, search: Search<'a>) -> Fallible<'a, Reply>
    ensures told { IfOk result (λ reply.
        SearchesJson (F.holds subject.now.files.now) search.entry reply.is_good reply.text) }
    ensures failed { IfErr result (FailsBy (RefusesSearch (F.holds subject.now.files.now)
        search.entry) (LacksSought (F.holds subject.now.files.now) search.entry)) }
{
    let (lattice, text, wanted) = sought_in(subject, search)?;
    let text = text.as_slice();
    match leak_json(subject.alloc, &lattice, text, &wanted) {
        Ok(told) => Ok(told),
        Err(error) => Err(refused(subject.alloc, &lattice, text, error)),
    }
}

/// The graph of a text's flows, alone or beside that of its lattice.
fn graph_of(
    alloc: Global,
    is_strict: bool,
    is_alone: bool,
    classes: &Lattice,
    text: &[u8],
) -> Result<Vec<u8>, CompileError>
    ensures graph { IfOk result (λ graph.
        GraphOf is_alone (profile_of is_strict) classes.now text.now graph.items) }
    ensures refused { IfErr result (RefusesProgram (class_named classes.now) text.now) }
    ensures exact { (tree : Whole) (commands : List Command) → Reads text.now tree
        → IsResolution (class_named classes.now) tree commands
        → IfErr result (λ e. e ≡ Memory) }
{
    let judged = profile(is_strict);
    if is_alone {
        flows_dot(alloc, judged, classes, text)
    } else {
        policy_dot(alloc, judged, classes, text)
    }
}
