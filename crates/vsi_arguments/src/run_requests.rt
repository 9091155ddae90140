//! Requests that run a program.

ghost use Rattle.std.specs.Prelude.{◌≡◌, ◌∷◌, ◌++◌, [], IfSome, codes, false, true};
ghost use Rattle.vsi_arguments.specs.Asked as spec;
ghost use Rattle.vsi_arguments.specs.Words.{has_flag as is_flag, operands_in, shown, texts, values_in};

use crate::arguments::{
    behind, budget, has_flag, has_values, number, one, rest_of, two, two_values, value,
};
use crate::{
    Attempt, Budget, Comparison, Document, DrivePolicy, Driving, EVERY, Execution, InitialStore,
    MonitorRule, NameLists, Request, STEPS, StepComparison, Stepping, TRY_BUDGET, Viewing,
};

/// The request of `try`, whose settings are these.
pub(crate) fn attempt<'a>(words: &'a [String], settings: Vec<&'a [u8]>) -> Option<Request<'a>>
    ensures { IfSome result (spec.AsksFor words.now) }
{
    let rest = rest_of! { words "try" [] ["--lattice" "--class" "--set" "--budget"] };
    has_values(rest, "--set", settings.as_slice())?;
    Some(Request::Try(Attempt {
        source: one(rest)?,
        lattice: value(rest, "--lattice")?,
        class: value(rest, "--class")?,
        budget: number(rest, "--budget", Some(TRY_BUDGET))?,
        settings,
    }))
}

/// The run of an image.
fn execution<'a>(words: &'a [String], image: &'a str) -> Option<Execution<'a>>
    ensures image { IfSome result (λ made. made.image ≡ image.entry) }
    ensures store { IfSome result (λ made.
        values_in (codes "--store") false (texts words.now) ≡ spec.given made.store) }
    ensures budget { IfSome result (λ made.
        spec.HasNumbers (texts words.now) (spec.budgeted made.budget)) }
{
    Some(Execution {
        image,
        budget: budget(words, None)?,
        store: value(words, "--store")?,
    })
}

/// The rest of the input and output of a run, whose settings are these.
fn initial_store<'a>(words: &'a [String], settings: Vec<&'a [u8]>) -> Option<InitialStore<'a>>
    ensures full { IfSome result (λ made.
        is_flag (codes "--full-store") (texts words.now) ≡ made.is_full) }
    ensures out { IfSome result (λ made.
        values_in (codes "--out") false (texts words.now) ≡ spec.given made.out) }
    ensures set { IfSome result (λ made.
        values_in (codes "--set") false (texts words.now) ≡ shown made.settings.items) }
{
    has_values(words, "--set", settings.as_slice())?;
    Some(InitialStore {
        settings,
        is_full: has_flag(words, "--full-store"),
        out: value(words, "--out")?,
    })
}

/// The request of `run`. JSON has neither a trace nor a count, and goes to standard output.
pub(crate) fn run<'a>(words: &'a [String], settings: Vec<&'a [u8]>) -> Option<Request<'a>>
    ensures { IfSome result (spec.AsksFor words.now) }
{
    let rest = rest_of! { words "run" ["--full-store" "--trace" "--count" "--json"]
    ["--store" "--out" "--set" "--budget"] "--force" };
    let execution = execution(rest, one(rest)?)?;
    let initial_store = initial_store(rest, settings)?;
    let (has_trace, has_count) = (has_flag(rest, "--trace"), has_flag(rest, "--count"));
    if !has_flag(rest, "--json") {
        return Some(Request::Run {
            execution,
            initial_store,
            has_trace,
            has_count,
        });
    }
    match (has_trace, has_count, initial_store.out) {
        (false, false, None) => Some(Request::Document(Document::Run {
            execution,
            initial_store,
        })),
        _ => None,
    }
}

/// The policy of a drive with these inputs, or of a view, and its image. With an interface, which
/// has the lattice and the lists, the one operand is the image.
fn policy<'a>(words: &'a [String], inputs: Option<&'a str>) -> Option<(DrivePolicy<'a>, &'a str)>
    ensures operands { IfSome result (λ made. operands_in false (texts words.now)
        ≡ spec.given (spec.lattice_of made.0) ++ made.1.now ∷ []) }
    ensures inputs { IfSome result (λ made. (spec.lists_of made.0).inputs ≡ inputs.entry) }
    ensures listing { IfSome result (λ made. spec.HasOptions (texts words.now)
        (spec.listing (spec.interface_of made.0) (spec.lists_of made.0).outputs
        (spec.lists_of made.0).released)) }
{
    let interface = value(words, "--interface")?;
    let lists = NameLists {
        inputs,
        outputs: value(words, "--outputs")?,
        released: value(words, "--release")?,
    };
    let Some(interface) = interface else {
        let (lattice, image) = two(words)?;
        return Some((DrivePolicy::Lattice(lattice, lists), image));
    };
    match (inputs, lists.outputs, lists.released) {
        (None, None, None) => Some((DrivePolicy::Interface(interface), one(words)?)),
        _ => None,
    }
}

/// Whether a view is bounded by an interface or by a list.
fn is_bounding(policy: DrivePolicy<'_>) -> bool
    ensures { result ≡ spec.is_bounding policy.entry }
{
    match policy {
        DrivePolicy::Lattice(_, lists) => lists.outputs.is_some() || lists.released.is_some(),
        DrivePolicy::Interface(_) => true,
    }
}

/// The request of `view`. With an interface or one of the lists, the view is bounded by them.
pub(crate) fn view<'a>(words: &'a [String], settings: Vec<&'a [u8]>) -> Option<Request<'a>>
    ensures { IfSome result (spec.AsksFor words.now) }
{
    let rest = rest_of! { words "view" ["--full-store" "--unbounded"]
    ["--class" "--store" "--out" "--set" "--interface" "--outputs" "--release" "--budget"]
    "--force" };
    let (policy, image) = policy(rest, None)?;
    let class = value(rest, "--class")??;
    let execution = execution(rest, image)?;
    let initial_store = initial_store(rest, settings)?;
    if is_bounding(policy) {
        return Some(Request::ViewWithin(Viewing {
            policy,
            class,
            execution,
            initial_store,
            is_unbounded: has_flag(rest, "--unbounded"),
        }));
    }
    let DrivePolicy::Lattice(
        lattice,
        NameLists {
            outputs: None,
            released: None,
            ..
        },
    ) = policy
    else {
        return None;
    };
    rest_of! { words "view" ["--full-store"]
    ["--class" "--store" "--out" "--set" "--budget"] "--force" };
    Some(Request::View {
        lattice,
        class,
        execution,
        initial_store,
    })
}

/// Whether a drive that has a start store reads and saves its store at one path.
fn is_kept(start: Option<&str>, store: Option<&str>, save: Option<&str>) -> bool
    ensures { result ≡ true → spec.IsKept start.entry store.entry save.entry }
{
    match (start, store, save) {
        (None, _, _) => true,
        (Some(_), Some(read), Some(saved)) => read.as_bytes() == saved.as_bytes(),
        _ => false,
    }
}

/// The request of `drive`.
pub(crate) fn drive<'a>(words: &'a [String]) -> Option<Request<'a>>
    ensures { IfSome result (spec.AsksFor words.now) }
{
    let rest = rest_of! { words "drive" ["--full-store" "--unbounded"]
    ["--class" "--store" "--init" "--save" "--interface" "--inputs" "--outputs" "--release"
    "--budget" "--save-every"] "--force" };
    let (policy, image) = policy(rest, value(rest, "--inputs")?)?;
    let class = value(rest, "--class")??;
    let store = value(rest, "--store")?;
    let start = value(rest, "--init")?;
    let save = value(rest, "--save")?;
    if !is_kept(start, store, save) {
        return None;
    }
    Some(Request::Drive(Driving {
        policy,
        class,
        execution: Execution {
            image,
            budget: budget(rest, Some(Budget::Auto))?,
            store,
        },
        start,
        save,
        every: number(rest, "--save-every", Some(EVERY))?,
        is_full: has_flag(rest, "--full-store"),
        is_unbounded: has_flag(rest, "--unbounded"),
    }))
}

/// The request of `compare` without `--steps`.
pub(crate) fn compare<'a>(words: &'a [String]) -> Option<Request<'a>>
    ensures { IfSome result (spec.AsksFor words.now) }
{
    let rest =
        rest_of! { words "compare" ["--unbounded" "--json"] ["--class" "--store" "--budget"] };
    let (lattice, image) = two(rest)?;
    let comparison = Comparison {
        lattice,
        image,
        class: value(rest, "--class")??,
        budget: budget(rest, None)?,
        stores: two_values(rest, "--store")?,
        is_unbounded: has_flag(rest, "--unbounded"),
    };
    if has_flag(rest, "--json") {
        return Some(Request::Document(Document::Compare(comparison)));
    }
    Some(Request::Compare(comparison))
}

/// The request of `compare --steps`.
pub(crate) fn compare_steps<'a>(words: &'a [String]) -> Option<Request<'a>>
    ensures { IfSome result (spec.AsksFor words.now) }
{
    let rest = rest_of! { words "compare" ["--steps" "--json"] ["--class" "--store" "--budget"] };
    let (lattice, source) = two(rest)?;
    if !has_flag(rest, "--steps") {
        return None;
    }
    Some(Request::CompareSteps {
        comparison: StepComparison {
            lattice,
            source,
            class: value(rest, "--class")??,
            budget: number(rest, "--budget", None)?,
            stores: two_values(rest, "--store")?,
        },
        is_json: has_flag(rest, "--json"),
    })
}

/// The run of a source text in steps, whose settings are these.
fn stepping<'a>(words: &'a [String], settings: Vec<&'a [u8]>) -> Option<Stepping<'a>>
    ensures files { IfSome result (λ made.
        operands_in false (texts words.now) ≡ spec.stepped made) }
    ensures full { IfSome result (λ made.
        is_flag (codes "--full-store") (texts words.now) ≡ made.is_full) }
    ensures store { IfSome result (λ made.
        values_in (codes "--store") false (texts words.now) ≡ spec.given made.store) }
    ensures set { IfSome result (λ made.
        values_in (codes "--set") false (texts words.now) ≡ shown made.settings.items) }
    ensures budget { IfSome result (λ made.
        spec.HasNumbers (texts words.now) (spec.step_numbers made.budget)) }
{
    has_values(words, "--set", settings.as_slice())?;
    let (lattice, source) = two(words)?;
    let store = value(words, "--store")?;
    Some(Stepping {
        lattice,
        source,
        store,
        settings,
        is_full: has_flag(words, "--full-store"),
        budget: number(words, "--budget", Some(STEPS))?,
    })
}

/// The request of `steps`.
pub(crate) fn steps<'a>(words: &'a [String], settings: Vec<&'a [u8]>) -> Option<Request<'a>>
    ensures { IfSome result (spec.AsksFor words.now) }
{
    let rest = rest_of! { words "steps" ["--full-store" "--json"] ["--store" "--set" "--budget"] };
    let stepping = stepping(rest, settings)?;
    let is_json = has_flag(rest, "--json");
    Some(Request::Steps { stepping, is_json })
}

/// The rule of a monitor, which is the first one where none is given.
fn rule(words: &[String]) -> Option<MonitorRule>
    ensures { IfSome result (λ rule.
        spec.GivesRule (values_in (codes "--rule") false (texts words.now)) rule) }
{
    match value(words, "--rule")? {
        None | Some("no-sensitive-upgrade") => Some(MonitorRule::NoSensitiveUpgrade),
        Some("permissive-upgrade") => Some(MonitorRule::PermissiveUpgrade),
        Some(_) => None,
    }
}

/// The request of `monitor`.
pub(crate) fn monitor<'a>(words: &'a [String], settings: Vec<&'a [u8]>) -> Option<Request<'a>>
    ensures { IfSome result (spec.AsksFor words.now) }
{
    let rest = rest_of! { words "monitor" ["--full-store" "--json"]
    ["--rule" "--store" "--set" "--budget"] };
    Some(Request::Monitor {
        stepping: stepping(rest, settings)?,
        rule: rule(rest)?,
        is_json: has_flag(rest, "--json"),
    })
}
