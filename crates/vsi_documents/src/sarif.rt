//! Documents of SARIF: the answers of checks, and the points of an interface, as results.

ghost use Rattle.std.specs.Prelude.{◌≡◌, map, IfOk};
ghost use Rattle.serde_json.specs.View.{members_view, view};
ghost use Rattle.vsi_conform.specs.{Rows.{row}, Lines.{is_steady as is_steady_of}};
ghost use Rattle.vsi_documents.specs.Findings as spec;
ghost use Rattle.vsi_documents.specs.Document as document_spec;
ghost use Rattle.vsi_documents.specs.Auditing as auditing_spec;
ghost use Rattle.vsi_documents.specs.Checking as checking_spec;

use crate::answer::{Made, Reply};
use crate::refusal::{flow_objects, identified, location, refusal_document, result_object, uri_of};
use std::alloc::{AllocError, Global};
use vsi_answers::{Object, Objects};
use vsi_compiler::{CompileError, Source, read_source};
use vsi_conform::{
    Judgement, Kind, Row, judged_of, put_row, refusal_lines, refusal_lines_of, refused_image,
    unsteady_diagnostic,
};
use vsi_image::Verified;
use vsi_lattice::Lattice;
use vsi_steady::UnsteadyError;

/// The kinds of points, in the order of their rules.
const KINDS: [Kind; 8] = [
    Kind::Refused,
    Kind::Missing,
    Kind::Unexpected,
    Kind::Class,
    Kind::Order,
    Kind::Budget,
    Kind::Word,
    Kind::Bound,
];

/// The index of a kind's rule.
fn index_of(kind: Kind) -> usize
    ensures { result ≡ spec.index_of kind }
{
    match kind {
        Kind::Refused => 0,
        Kind::Missing => 1,
        Kind::Unexpected => 2,
        Kind::Class => 3,
        Kind::Order => 4,
        Kind::Budget => 5,
        Kind::Word => 6,
        Kind::Bound => 7,
    }
}

/// The objects of the rules of kinds.
fn rules(alloc: Global, kinds: &[Kind]) -> Result<Objects, AllocError>
    ensures { IfOk result (λ found. map view found ≡ spec.rules_of kinds.now) }
{
    let mut found = Objects::new(alloc);
    for kind in kinds {
        found.push(Object::new(alloc).text("id", (*kind).word())?)?;
    }
    Ok(found)
}

/// The object of the result of a row, in the file with this URI.
fn finding(alloc: Global, uri: &[u8], point: &Row) -> Result<Object, AllocError>
    ensures { IfOk result (λ made. members_view made ≡ spec.finding uri.now (row point.now)) }
{
    let mut lines = Vec::new(alloc);
    put_row(&mut lines, point)?;
    let at = location(alloc, uri, point.place)?;
    let (id, index) = (point.kind.word(), index_of(point.kind));
    result_object(alloc, id, index, at, None, &lines)
}

/// The objects of the results of rows, in their order.
fn results(alloc: Global, uri: &[u8], rows: &[Row]) -> Result<Objects, AllocError>
    ensures { IfOk result (λ found. map view found ≡ spec.results uri.now (map row rows.now)) }
{
    let mut found = Objects::new(alloc);
    for point in rows {
        found.push(finding(alloc, uri, point)?)?;
    }
    Ok(found)
}

/// The document of SARIF 2.1.0 about the file at a path with a result for each row, whose rules are
/// all kinds of points. An error means that memory ran out.
pub fn rows_sarif(alloc: Global, path: &str, rows: &[Row]) -> Result<Vec<u8>, AllocError>
    ensures document { IfOk result
        (λ out. out.items ≡ spec.rows_sarif path.now (map row rows.now)) }
{
    let uri = uri_of(alloc, path)?;
    let made = results(alloc, uri.as_bytes(), rows)?;
    document(alloc, rules(alloc, &KINDS)?, made)
}

/// The object of a run of the tool, with its rules.
fn run(alloc: Global, rules: Objects, results: Objects) -> Result<Object, AllocError>
    ensures { IfOk result
        (λ made. members_view made
        ≡ document_spec.run_members (map view rules) (map view results)) }
{
    let driver = Object::new(alloc)
        .text("name", b"vsi")?
        .array("rules", rules)?
        .text("version", b"0.1.0")?;
    let tool = Object::new(alloc).object("driver", driver)?;
    Object::new(alloc)
        .text("columnKind", b"unicodeCodePoints")?
        .array("results", results)?
        .object("tool", tool)
}

/// The text of the document of these rules and results, a line. An accepted text or image has no
/// result.
pub(crate) fn document(alloc: Global, rules: Objects, results: Objects) -> Made<Vec<u8>>
    ensures { IfOk result (λ line.
        line.items ≡ document_spec.document_text (map view rules) (map view results)) }
{
    let run = run(alloc, rules, results)?;
    run_line(alloc, run)
}

/// The text of the document of a run, a line.
fn run_line(alloc: Global, run: Object) -> Result<Vec<u8>, AllocError>
    ensures { IfOk result (λ line. line.items ≡ document_spec.run_text (members_view run)) }
{
    let runs = Objects::of(alloc, run)?;
    Object::new(alloc)
        .array("runs", runs)?
        .text("$schema", b"https://json.schemastore.org/sarif-2.1.0.json")?
        .text("version", b"2.1.0")?
        .line()
}

/// The text of the document of a check of files, a line, which has an identifier of its own.
pub(crate) fn check_document(alloc: Global, rules: Objects, results: Objects) -> Made<Vec<u8>>
    ensures { IfOk result (λ line.
        line.items ≡ document_spec.check_text (map view rules) (map view results)) }
{
    let id = Object::new(alloc).text("id", b"vsi/check")?;
    let run = run(alloc, rules, results)?.object("automationDetails", id)?;
    run_line(alloc, run)
}

/// The answer of `vsi audit` to the image of the file at a path as a document of SARIF 2.1.0. An
/// error means that memory ran out.
pub fn audit_sarif(
    alloc: Global,
    judgement: Judgement,
    lattice: &Lattice,
    path: &str,
    image: &Verified,
) -> Result<Reply, AllocError>
    ensures answer { IfOk result (λ told. auditing_spec.TellsJudged lattice.now judgement path.now
        image.now told.is_good told.text.items) }
{
    match refused_image(alloc, judgement, lattice, image)? {
        None => {
            let text = document(alloc, Objects::new(alloc), Objects::new(alloc))?;
            let is_good = true;
            Ok(Reply { is_good, text })
        }
        Some((diagnostic, lines)) => {
            let uri = uri_of(alloc, path)?;
            let text = refusal_document(alloc, uri.as_bytes(), &[], &diagnostic, &lines)?;
            let is_good = false;
            Ok(Reply { is_good, text })
        }
    }
}

/// Whether a judgement demands a steady image.
fn is_steady(judgement: Judgement) -> bool
    ensures { result ≡ is_steady_of judgement }
{
    matches!(judgement, Judgement::Steady)
}

/// The document of a source text that was read and is refused.
fn source_refused(
    alloc: Global,
    judgement: Judgement,
    path: &str,
    source: &Source<'_>,
    error: &UnsteadyError,
) -> Result<Vec<u8>, AllocError>
    ensures { IfOk result (λ out. checking_spec.WritesRefusal source.now.lattice judgement path.now
        source.now.text error.now out.items) }
{
    let text = source.text();
    let Some(diagnostic) = unsteady_diagnostic(text, error) else {
        return Err(AllocError);
    };
    let lines = refusal_lines_of(alloc, source, error, is_steady(judgement))?;
    let name = uri_of(alloc, path)?;
    let uri = name.as_bytes();
    let steps = flow_objects(alloc, uri, source, diagnostic.steps)?;
    let written = identified(alloc, uri, text, &diagnostic, steps, &lines)?;
    Ok(written)
}

/// The answer of `vsi check` to the text of the file at a path as a document of SARIF 2.1.0. The
/// text is read once. An error means that memory ran out.
pub fn check_sarif(
    alloc: Global,
    judgement: Judgement,
    lattice: &Lattice,
    path: &str,
    text: &[u8],
) -> Result<Reply, AllocError>
    ensures answer { IfOk result (λ told. checking_spec.TellsDocument lattice.now judgement path.now
        text.now told.is_good told.text.items) }
{
    let source = match read_source(alloc, lattice, text) {
        Ok(source) => source,
        Err(CompileError::Memory) => return Err(AllocError),
        Err(error) => {
            let error = UnsteadyError::Compile(error);
            let Some(diagnostic) = unsteady_diagnostic(text, &error) else {
                return Err(AllocError);
            };
            let lines = refusal_lines(alloc, lattice, text, &error, is_steady(judgement))?;
            let name = uri_of(alloc, path)?;
            let text = refusal_document(alloc, name.as_bytes(), text, &diagnostic, &lines)?;
            let is_good = false;
            return Ok(Reply { is_good, text });
        }
    };
    match judged_of(alloc, judgement, &source)? {
        Ok(_verified) => {
            let text = document(alloc, Objects::new(alloc), Objects::new(alloc))?;
            let is_good = true;
            Ok(Reply { is_good, text })
        }
        Err(error) => {
            let text = source_refused(alloc, judgement, path, &source, &error)?;
            let is_good = false;
            Ok(Reply { is_good, text })
        }
    }
}
