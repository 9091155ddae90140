//! Requests of `check`: of one source text, of several, or of a project file.

ghost use Rattle.std.specs.Prelude.{◌≡◌, IfOk, IfSome, codes, false};
ghost use Rattle.vsi_arguments.specs.Asked as spec;
ghost use Rattle.vsi_arguments.specs.Words.{texts, values_in};

use crate::arguments::{at_most_one, behind, has_flag, has_values, one_and_more, rest_of, value};
use crate::requests::{compilation, form};
use crate::{Document, Judging, Projecting, RUNS_BUDGET, Request, Survey};
use std::alloc::{AllocError, Global};

/// Whether each line of the answer begins with its place, as `--format` says.
fn has_places(words: &[String]) -> Option<bool>
    ensures { IfSome result (λ made.
        spec.GivesPlaces (values_in (codes "--format") false (texts words.now)) made) }
{
    match value(words, "--format")? {
        None | Some("text") => Some(false),
        Some("line") => Some(true),
        Some(_) => None,
    }
}

/// The request of `check` with one source text, whose answer has no places before its lines.
fn check<'a>(words: &'a [String]) -> Option<Request<'a>>
    ensures { IfSome result (spec.AsksFor words.now) }
{
    let rest = rest_of! { words "check"
    ["--strict" "--steady" "--json" "--sarif" "--warnings"] ["--format"] };
    let judging = Judging {
        compilation: compilation(rest)?,
        is_steady: has_flag(rest, "--steady"),
        is_json: has_flag(rest, "--json"),
        has_warnings: has_flag(rest, "--warnings"),
    };
    if has_flag(rest, "--sarif") {
        has_values(rest, "--format", &[])?;
        return Some(Request::Document(Document::Sarif(judging)));
    }
    if has_places(rest)? {
        return None;
    }
    Some(Request::Check(judging))
}

/// The request of `check` with source texts that are judged each by itself: several, or one in an
/// answer with places before its lines.
fn survey<'a>(alloc: Global, words: &'a [String]) -> Result<Option<Request<'a>>, AllocError>
    ensures { IfOk result (λ request. IfSome request (spec.AsksFor words.now)) }
{
    let (flags, options) = (
        ["--strict", "--steady", "--json", "--sarif"],
        ["--format", "--color"],
    );
    let Some(rest) = behind(words, "check", flags.as_slice(), options.as_slice()) else {
        return Ok(None);
    };
    let (Some(form), Some(has_places)) = (form(rest), has_places(rest)) else {
        return Ok(None);
    };
    let Some((lattice, sources)) = one_and_more(alloc, rest)? else {
        return Ok(None);
    };
    if !is_survey(has_places, sources.as_slice()) {
        return Ok(None);
    }
    Ok(Some(Request::Survey(Survey {
        lattice,
        sources,
        is_strict: has_flag(rest, "--strict"),
        is_steady: has_flag(rest, "--steady"),
        form,
    })))
}

/// Whether source texts are judged each by itself: several, or one in an answer with places before
/// its lines.
fn is_survey(has_places: bool, sources: &[&str]) -> bool
    ensures { result ≡ spec.is_survey has_places sources.now }
{
    match sources {
        [] => false,
        [_] => has_places,
        _ => true,
    }
}

/// The request of `check` with a project file, which says how each program is judged.
fn project<'a>(words: &'a [String]) -> Option<Request<'a>>
    ensures { IfSome result (spec.AsksFor words.now) }
{
    let (flags, options) = (["--json", "--sarif"], ["--project", "--color"]);
    let rest = behind(words, "check", flags.as_slice(), options.as_slice())?;
    Some(Request::Project(Projecting {
        project: value(rest, "--project")??,
        name: at_most_one(rest, false)?,
        budget: RUNS_BUDGET,
        form: form(rest)?,
    }))
}

/// The request of `check`.
pub(crate) fn judge<'a>(
    alloc: Global,
    words: &'a [String],
) -> Result<Option<Request<'a>>, AllocError>
    ensures { IfOk result (λ request. IfSome request (spec.AsksFor words.now)) }
{
    if let Some(request) = check(words) {
        return Ok(Some(request));
    }
    if let Some(request) = project(words) {
        return Ok(Some(request));
    }
    survey(alloc, words)
}
