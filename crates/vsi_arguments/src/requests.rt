//! The request that arguments make.

ghost use Rattle.std.specs.Prelude.{◌≡◌, ◌↔◌, ◌∷◌, [], IfOk, IfSome, IsTrue, Some, codes, false};
ghost use Rattle.vsi_arguments.specs.Asked as spec;
ghost use Rattle.vsi_arguments.specs.Help as help_spec;
ghost use Rattle.vsi_arguments.specs.Words.{has_flag as is_flag, operands_in, texts};

use crate::arguments::{
    at_most_one, behind, has_flag, has_values, is_end, is_valued, number, one, one_or_two,
    operands, rest_of, three, two, value, values_of,
};
use crate::checks::judge;
use crate::explained::named_page;
use crate::run_requests::{attempt, compare, compare_steps, drive, monitor, run, steps, view};
use crate::{
    AnswerForm, Audit, Bounding, Compilation, Conformance, Document, Drawing, Emission, Layout,
    Looking, Mending, Page, RUNS_BUDGET, Request, SEARCH, Search, Serving, Visibility,
};
use std::alloc::{AllocError, Global};

/// The compilation of the two operands.
pub(crate) fn compilation<'a>(words: &'a [String]) -> Option<Compilation<'a>>
    ensures files { IfSome result (λ made.
        operands_in false (texts words.now) ≡ spec.compiled made) }
    ensures strict { IfSome result (λ made.
        is_flag (codes "--strict") (texts words.now) ≡ made.is_strict) }
{
    let (lattice, source) = two(words)?;
    Some(Compilation {
        lattice,
        source,
        is_strict: has_flag(words, "--strict"),
    })
}

/// The form of an answer, as lines, JSON or SARIF.
pub(crate) fn form(words: &[String]) -> Option<AnswerForm>
    ensures json { IfSome result (λ made.
        is_flag (codes "--json") (texts words.now) ≡ spec.is_json made) }
    ensures sarif { IfSome result (λ made.
        is_flag (codes "--sarif") (texts words.now) ≡ spec.is_sarif made) }
{
    match (has_flag(words, "--json"), has_flag(words, "--sarif")) {
        (false, false) => Some(AnswerForm::Lines),
        (true, false) => Some(AnswerForm::Json),
        (false, true) => Some(AnswerForm::Sarif),
        (true, true) => None,
    }
}

/// The request of `new`.
fn new<'a>(words: &'a [String]) -> Option<Request<'a>>
    ensures { IfSome result (spec.AsksFor words.now) }
{
    Some(Request::New(one(behind(words, "new", &[], &[])?)?))
}

/// The request of `conform`.
fn conform<'a>(words: &'a [String]) -> Option<Request<'a>>
    ensures { IfSome result (spec.AsksFor words.now) }
{
    let rest = rest_of! { words "conform" ["--json" "--sarif" "--evidence"] ["--budget"] };
    let (interface, source) = two(rest)?;
    Some(Request::Conform(Conformance {
        interface,
        source,
        budget: number(rest, "--budget", Some(RUNS_BUDGET))?,
        form: form(rest)?,
        has_evidence: has_flag(rest, "--evidence"),
    }))
}

/// The request of `classes`.
fn classes<'a>(words: &'a [String]) -> Option<Request<'a>>
    ensures { IfSome result (spec.AsksFor words.now) }
{
    let rest = rest_of! { words "classes" ["--strict" "--json"] [] };
    let compilation = compilation(rest)?;
    if has_flag(rest, "--json") {
        return Some(Request::Document(Document::Classes(compilation)));
    }
    Some(Request::Classes(compilation))
}

/// The request of `flows`. Steps are written as lines alone.
fn flows<'a>(words: &'a [String]) -> Option<Request<'a>>
    ensures { IfSome result (spec.AsksFor words.now) }
{
    let rest = rest_of! { words "flows" ["--strict" "--walks" "--json"] [] };
    let compilation = compilation(rest)?;
    match (has_flag(rest, "--walks"), has_flag(rest, "--json")) {
        (true, true) => None,
        (false, true) => Some(Request::Document(Document::Flows(compilation))),
        (has_walks, false) => Some(Request::Flows {
            compilation,
            has_walks,
        }),
    }
}

/// The request of `mend`. A text isn't written as JSON.
fn mend<'a>(words: &'a [String]) -> Option<Request<'a>>
    ensures { IfSome result (spec.AsksFor words.now) }
{
    let rest = rest_of! { words "mend" ["--strict" "--apply" "--json"] [] };
    let compilation = compilation(rest)?;
    let is_applied = has_flag(rest, "--apply");
    let is_json = has_flag(rest, "--json");
    if is_applied && is_json {
        return None;
    }
    Some(Request::Mend(Mending {
        compilation,
        is_applied,
        is_json,
    }))
}

/// The request of `audit`.
fn audit<'a>(words: &'a [String]) -> Option<Request<'a>>
    ensures { IfSome result (spec.AsksFor words.now) }
{
    let rest =
        rest_of! { words "audit" ["--strict" "--steady" "--evidence" "--json" "--sarif"] [] };
    let (lattice, image) = two(rest)?;
    let audit = Audit {
        lattice,
        image,
        is_strict: has_flag(rest, "--strict"),
        is_steady: has_flag(rest, "--steady"),
        has_evidence: has_flag(rest, "--evidence"),
    };
    match form(rest)? {
        AnswerForm::Lines => Some(Request::Audit(audit)),
        AnswerForm::Json => Some(Request::Document(Document::Audit(audit))),
        AnswerForm::Sarif => Some(Request::Document(Document::AuditSarif(audit))),
    }
}

/// The request of `leak`.
fn leak<'a>(words: &'a [String]) -> Option<Request<'a>>
    ensures { IfSome result (spec.AsksFor words.now) }
{
    let rest = rest_of! { words "leak" ["--endings" "--steps" "--json"]
    ["--class" "--budget" "--tries" "--seed"] };
    let (lattice, source) = two(rest)?;
    let search = Search {
        lattice,
        source,
        class: value(rest, "--class")?,
        budget: number(rest, "--budget", Some(SEARCH))?,
        tries: number(rest, "--tries", Some(SEARCH))?,
        seed: number(rest, "--seed", Some(0))?,
        has_endings: has_flag(rest, "--endings"),
        has_steps: has_flag(rest, "--steps"),
    };
    if has_flag(rest, "--json") {
        return Some(Request::Document(Document::Leak(search)));
    }
    Some(Request::Leak(search))
}

/// The request of `build`.
fn build<'a>(words: &'a [String]) -> Option<Request<'a>>
    ensures { IfSome result (spec.AsksFor words.now) }
{
    let rest = rest_of! { words "build" ["--strict"] [] "--force" };
    let (lattice, (source, image)) = three(rest)?;
    let compilation = Compilation {
        lattice,
        source,
        is_strict: has_flag(rest, "--strict"),
    };
    Some(Request::Build(compilation, image))
}

/// The request of `list`.
fn list<'a>(words: &'a [String]) -> Option<Request<'a>>
    ensures { IfSome result (spec.AsksFor words.now) }
{
    let rest = rest_of! { words "list" ["--json"] [] };
    let image = one(rest)?;
    if has_flag(rest, "--json") {
        return Some(Request::Document(Document::List(image)));
    }
    Some(Request::List(image))
}

/// The request of `source`.
fn source<'a>(words: &'a [String]) -> Option<Request<'a>>
    ensures { IfSome result (spec.AsksFor words.now) }
{
    let rest = rest_of! { words "source" [] [] };
    Some(Request::Source(one(rest)?))
}

/// The request of `emit-c`.
fn emit_c<'a>(words: &'a [String]) -> Option<Request<'a>>
    ensures { IfSome result (spec.AsksFor words.now) }
{
    let rest = rest_of! { words "emit-c" ["--header" "--bounded"] ["--lattice" "--name" "--out"]
    "--force" };
    Some(Request::EmitC(Emission {
        lattice: value(rest, "--lattice")?,
        file: one(rest)?,
        name: value(rest, "--name")?,
        is_header: has_flag(rest, "--header"),
        is_bounded: has_flag(rest, "--bounded"),
        out: value(rest, "--out")?,
    }))
}

/// The request of `bound`. With a second operand the first one is a lattice file.
fn bound<'a>(words: &'a [String]) -> Option<Request<'a>>
    ensures { IfSome result (spec.AsksFor words.now) }
{
    let rest = rest_of! { words "bound" ["--json"] [] };
    let (lattice, file) = match one_or_two(rest)? {
        (file, None) => (None, file),
        (lattice, Some(file)) => (Some(lattice), file),
    };
    let bounding = Bounding { lattice, file };
    if has_flag(rest, "--json") {
        return Some(Request::Document(Document::Bound(bounding)));
    }
    Some(Request::Bound(bounding))
}

/// The request of `report`.
fn report<'a>(words: &'a [String]) -> Option<Request<'a>>
    ensures { IfSome result (spec.AsksFor words.now) }
{
    let rest = rest_of! { words "report" ["--strict"] ["--out"] "--force" };
    let compilation = compilation(rest)?;
    let out = value(rest, "--out")?;
    Some(Request::Report(Page { compilation, out }))
}

/// The request of `draw`.
fn draw<'a>(words: &'a [String]) -> Option<Request<'a>>
    ensures { IfSome result (spec.AsksFor words.now) }
{
    let rest = rest_of! { words "draw" ["--strict" "--flows"] [] };
    let (lattice, source) = one_or_two(rest)?;
    Some(Request::Draw(Drawing {
        lattice,
        source,
        is_strict: has_flag(rest, "--strict"),
        is_alone: has_flag(rest, "--flows"),
    }))
}

/// The files of a look at a lattice, the older one last: operands, or those of `--to` and `--from`.
fn looked<'a>(words: &'a [String]) -> Option<(&'a str, Option<&'a str>)>
    ensures { IfSome result
        (λ some. spec.GivesFiles (texts words.now) (some.0.now ∷ []) some.1) }
{
    let Some(lattice) = value(words, "--to")? else {
        has_values(words, "--from", &[])?;
        return one_or_two(words);
    };
    let old = value(words, "--from")?;
    match at_most_one(words, false)? {
        Some(_) => None,
        None => Some((lattice, old)),
    }
}

/// The older file of a look at an interface, if there is one: the operand, or that of `--from`.
fn older<'a>(words: &'a [String]) -> Option<Option<&'a str>>
    ensures { IfSome result (λ old. spec.GivesFiles (texts words.now) [] old) }
{
    has_values(words, "--to", &[])?;
    let operand = at_most_one(words, false)?;
    match (value(words, "--from")?, operand) {
        (None, old) => Some(old),
        (old, None) => Some(old),
        (Some(_), Some(_)) => None,
    }
}

/// The request of `policy`. With an interface, which has the lattice, the one operand is the older
/// interface.
fn policy<'a>(words: &'a [String]) -> Option<Request<'a>>
    ensures { IfSome result (spec.AsksFor words.now) }
{
    let rest = rest_of! { words "policy" ["--deny" "--json"] ["--interface" "--to" "--from"] };
    let is_denying = has_flag(rest, "--deny");
    let Some(interface) = value(rest, "--interface")? else {
        let (lattice, old) = looked(rest)?;
        let looking = Looking {
            lattice,
            old,
            is_denying,
        };
        if has_flag(rest, "--json") {
            return Some(Request::Document(Document::Policy(looking)));
        }
        return Some(Request::Policy(looking));
    };
    let visibility = Visibility {
        interface,
        old: older(rest)?,
        is_denying,
    };
    if has_flag(rest, "--json") {
        return Some(Request::Document(Document::Visible(visibility)));
    }
    Some(Request::Visible(visibility))
}

/// Whether the flags of a layout keep comments: there is one, and not both `--check` and `--write`.
fn keeps_comments(layout: &Layout<'_>) -> bool
    ensures { result ≡ spec.keeps_comments layout.now }
{
    if layout.is_checked {
        !layout.is_written
    } else {
        layout.is_written || layout.is_kept
    }
}

/// The request of `fmt`. Without a flag comments are dropped, and with any of them they are kept.
fn layout<'a>(words: &'a [String]) -> Option<Request<'a>>
    ensures { IfSome result (spec.AsksFor words.now) }
{
    let rest = rest_of! { words "fmt" ["--keep-comments" "--check" "--write"] [] };
    let layout = Layout {
        source: one(rest)?,
        is_kept: has_flag(rest, "--keep-comments"),
        is_checked: has_flag(rest, "--check"),
        is_written: has_flag(rest, "--write"),
    };
    if keeps_comments(&layout) {
        return Some(Request::Layout(layout));
    }
    let rest = rest_of! { words "fmt" [] [] };
    Some(Request::Format(one(rest)?))
}

/// The request of `fmt --check --json`.
fn layout_json<'a>(words: &'a [String]) -> Option<Request<'a>>
    ensures { IfSome result (spec.AsksFor words.now) }
{
    let rest = rest_of! { words "fmt" ["--check" "--json"] [] };
    if !has_flag(rest, "--check") || !has_flag(rest, "--json") {
        return None;
    }
    Some(Request::Document(Document::Layout(one(rest)?)))
}

/// The request of `lattice`.
fn lattice<'a>(alloc: Global, words: &'a [String]) -> Result<Option<Request<'a>>, AllocError>
    ensures { IfOk result (λ request. IfSome request (spec.AsksFor words.now)) }
{
    let Some(rest) = behind(words, "lattice", &[], &[]) else {
        return Ok(None);
    };
    Ok(Some(Request::Lattice(operands(alloc, rest)?)))
}

/// The request of `lsp`.
fn lsp<'a>(words: &'a [String]) -> Option<Request<'a>>
    ensures { IfSome result (spec.AsksFor words.now) }
{
    let (flags, options) = (["--strict", "--stdio"], ["--lattice"]);
    let rest = behind(words, "lsp", flags.as_slice(), options.as_slice())?;
    match at_most_one(rest, false)? {
        Some(_) => None,
        None => Some(Request::Lsp(Serving {
            lattice: value(rest, "--lattice")?,
            is_strict: has_flag(rest, "--strict"),
        })),
    }
}

/// The request of `explain`.
fn explain<'a>(words: &'a [String]) -> Option<Request<'a>>
    ensures { IfSome result (spec.AsksFor words.now) }
{
    let rest = behind(words, "explain", &[], &[])?;
    Some(Request::Explain(named_page(one(rest)?).ok()?))
}

/// The request of a subcommand that takes no list of arguments.
fn plain<'a>(name: &str, words: &'a [String]) -> Option<Request<'a>>
    ensures { IfSome result (spec.AsksFor words.now) }
{
    match name {
        "new" => new(words),
        "conform" => conform(words),
        "classes" => classes(words),
        "flows" => flows(words),
        "mend" => mend(words),
        "build" => build(words),
        "list" => list(words),
        "audit" => audit(words),
        "source" => source(words),
        "emit-c" => emit_c(words),
        "bound" => bound(words),
        "drive" => drive(words),
        "compare" => compare(words).or(compare_steps(words)),
        "leak" => leak(words),
        "report" => report(words),
        "draw" => draw(words),
        "policy" => policy(words),
        "fmt" => layout(words).or(layout_json(words)),
        "lsp" => lsp(words),
        "explain" => explain(words),
        _ => None,
    }
}

/// The request that the arguments make, if they make one.
///
/// # Errors
///
/// Out of memory.
pub fn request_of<'a>(alloc: Global, words: &'a [String]) -> Result<Option<Request<'a>>, AllocError>
    ensures asked { IfOk result (λ request. IfSome request (spec.AsksFor words.now)) }
{
    let [name, rest @ ..] = words else {
        return Ok(None);
    };
    match name.as_str() {
        "check" => return judge(alloc, words),
        "lattice" => return lattice(alloc, words),
        _ => {}
    }
    let settings = values_of(alloc, rest, "--set")?;
    Ok(match name.as_str() {
        "monitor" => monitor(words, settings),
        "run" => run(words, settings),
        "steps" => steps(words, settings),
        "try" => attempt(words, settings),
        "view" => view(words, settings),
        name => plain(name, words),
    })
}

/// Whether an argument asks for help or for the version.
fn is_help(word: &[u8]) -> bool
    ensures { result ≡ help_spec.is_help word.now }
{
    match word {
        [b'-', b'h' | b'V', ..] => true,
        _ => word == b"--help".as_slice() || word == b"--version".as_slice(),
    }
}

/// Whether the arguments ask for help or for the version, in the first or in one before the first
/// `--`.
pub fn asks_help(words: &[String]) -> bool
    ensures help { IsTrue result ↔ help_spec.AsksHelp words.now }
{
    if let [first, ..] = words
        && first.as_bytes() == b"help".as_slice()
    {
        return true;
    }
    let mut is_value = false;
    for word in words {
        if !is_value && is_end(word.as_bytes()) {
            return false;
        }
        if is_help(word.as_bytes()) {
            return true;
        }
        is_value = !is_value && is_valued(word.as_bytes());
    }
    false
}
