//! The requests that the arguments of a command line can make. Each file is given by its path.

/// A compilation of a source text under a lattice file, by the strict or the base profile.
#[derive(Clone, Copy)]
pub struct Compilation<'a> {
    pub lattice: &'a str,
    pub source: &'a str,
    pub is_strict: bool,
}

/// The most instructions of a run: a number, or the bound of its image, within which it halts from
/// every store.
#[derive(Clone, Copy)]
pub enum Budget {
    Number(u64),
    Auto,
}

/// A run of an image, which begins with zeros if there is no store file.
#[derive(Clone, Copy)]
pub struct Execution<'a> {
    pub image: &'a str,
    pub budget: Budget,
    pub store: Option<&'a str>,
}

/// The rest of a run's input and output: settings after the store file, each `NAME=NUMBER`, whether
/// each global must be given, and the file for the store's text.
#[derive(Drop)]
pub struct InitialStore<'a> {
    pub settings: Vec<&'a [u8]>,
    pub is_full: bool,
    pub out: Option<&'a str>,
}

/// The lists of names that bound a controller, each with commas between its names.
#[derive(Clone, Copy)]
pub struct NameLists<'a> {
    pub inputs: Option<&'a str>,
    pub outputs: Option<&'a str>,
    pub released: Option<&'a str>,
}

/// The policy of a drive or of a view, who sees what and what bounds the controller: a lattice file
/// and lists of the command line, or an interface file, which the image must conform to.
#[derive(Clone, Copy)]
pub enum DrivePolicy<'a> {
    Lattice(&'a str, NameLists<'a>),
    Interface(&'a str),
}

/// The driving of a controller by a class, with a run for each cycle, and the store saved after
/// `every` lines, to the path that it is read from if there is a `start`: the path of a store to
/// begin with if there is no file at that path. If `is_unbounded`, a run may exceed the budget for
/// a reason unseen by the class.
#[derive(Clone, Copy)]
pub struct Driving<'a> {
    pub policy: DrivePolicy<'a>,
    pub class: &'a str,
    pub execution: Execution<'a>,
    pub start: Option<&'a str>,
    pub save: Option<&'a str>,
    pub every: u64,
    pub is_full: bool,
    pub is_unbounded: bool,
}

/// A view within a boundary. With a lattice file, the outputs or the released outputs are listed,
/// and the inputs aren't. `is_unbounded` is as for a drive.
#[derive(Drop)]
pub struct Viewing<'a> {
    pub policy: DrivePolicy<'a>,
    pub class: &'a str,
    pub execution: Execution<'a>,
    pub initial_store: InitialStore<'a>,
    pub is_unbounded: bool,
}

/// A comparison of runs from two store files. `is_unbounded` is as for a drive.
#[derive(Clone, Copy)]
pub struct Comparison<'a> {
    pub lattice: &'a str,
    pub image: &'a str,
    pub class: &'a str,
    pub budget: Budget,
    pub stores: (&'a str, &'a str),
    pub is_unbounded: bool,
}

/// A search for a leak to a class, or to every class, in at most `tries` pairs of runs.
#[derive(Clone, Copy)]
pub struct Search<'a> {
    pub lattice: &'a str,
    pub source: &'a str,
    pub class: Option<&'a str>,
    pub budget: u64,
    pub tries: u64,
    pub seed: u64,
    pub has_endings: bool,
    pub has_steps: bool,
}

/// A run of a source text in steps, from a store file, or from zeros without one, and settings,
/// each `NAME=NUMBER`.
#[derive(Drop)]
pub struct Stepping<'a> {
    pub lattice: &'a str,
    pub source: &'a str,
    pub store: Option<&'a str>,
    pub settings: Vec<&'a [u8]>,
    pub is_full: bool,
    pub budget: u64,
}

/// By which rule a monitor judges an assignment in a branch or a loop whose guard depends on a
/// class that isn't at or below the label of the variable.
#[derive(Clone, Copy)]
pub enum MonitorRule {
    /// The run is stopped before the assignment.
    NoSensitiveUpgrade,
    /// The run goes on, and is stopped only before a guard that reads the variable.
    PermissiveUpgrade,
}

/// A comparison of two runs of a source text in steps, from two store files.
#[derive(Clone, Copy)]
pub struct StepComparison<'a> {
    pub lattice: &'a str,
    pub source: &'a str,
    pub class: &'a str,
    pub budget: u64,
    pub stores: (&'a str, &'a str),
}

/// An audit of an image, by its commands, or by its jumps if `is_steady`.
#[derive(Clone, Copy)]
pub struct Audit<'a> {
    pub lattice: &'a str,
    pub image: &'a str,
    pub is_strict: bool,
    pub is_steady: bool,
    pub has_evidence: bool,
}

/// How an answer is written: as lines, as a line of JSON, or as a document of SARIF.
#[derive(Clone, Copy)]
pub enum AnswerForm {
    Lines,
    Json,
    Sarif,
}

/// A judgement of a source text or an image by an interface, with one budget for all its runs.
#[derive(Clone, Copy)]
pub struct Conformance<'a> {
    pub interface: &'a str,
    pub source: &'a str,
    pub budget: u64,
    pub form: AnswerForm,
    pub has_evidence: bool,
}

/// A drawing of a lattice, and of the flows of a source text if there is one, or of these alone.
#[derive(Clone, Copy)]
pub struct Drawing<'a> {
    pub lattice: &'a str,
    pub source: Option<&'a str>,
    pub is_strict: bool,
    pub is_alone: bool,
}

/// A look at a lattice file, which is compared with an older one if there is one. If it is denying,
/// the answer is bad if some class sees more than before.
#[derive(Clone, Copy)]
pub struct Looking<'a> {
    pub lattice: &'a str,
    pub old: Option<&'a str>,
    pub is_denying: bool,
}

/// A look at who sees which globals of an interface, which is compared with an older one, if any.
/// `is_denying` is as for a lattice.
#[derive(Clone, Copy)]
pub struct Visibility<'a> {
    pub interface: &'a str,
    pub old: Option<&'a str>,
    pub is_denying: bool,
}

/// C from an image or, with a lattice file, from a source text; `name` is the prefix of its names,
/// and `out` the file for it, if it isn't for standard output.
#[derive(Clone, Copy)]
pub struct Emission<'a> {
    pub lattice: Option<&'a str>,
    pub file: &'a str,
    pub name: Option<&'a str>,
    pub is_header: bool,
    pub is_bounded: bool,
    pub out: Option<&'a str>,
}

/// A search for a bound of an image or, with a lattice file, of a source text.
#[derive(Clone, Copy)]
pub struct Bounding<'a> {
    pub lattice: Option<&'a str>,
    pub file: &'a str,
}

/// A judgement of a source text, whose image must also be steady if `is_steady`.
#[derive(Clone, Copy)]
pub struct Judging<'a> {
    pub compilation: Compilation<'a>,
    pub is_steady: bool,
    pub is_json: bool,
    pub has_warnings: bool,
}

/// Source texts, each judged by itself under one lattice file.
#[derive(Drop)]
pub struct Survey<'a> {
    pub lattice: &'a str,
    pub sources: Vec<&'a str>,
    pub is_strict: bool,
    pub is_steady: bool,
    pub form: AnswerForm,
}

/// The programs of a project file that are judged: the one of this name, or all.
#[derive(Clone, Copy)]
pub struct Projecting<'a> {
    pub project: &'a str,
    pub name: Option<&'a str>,
    pub budget: u64,
    pub form: AnswerForm,
}

/// A page on a source text, and the file for it, if it isn't for standard output.
#[derive(Clone, Copy)]
pub struct Page<'a> {
    pub compilation: Compilation<'a>,
    pub out: Option<&'a str>,
}

/// An attempt to judge and run a source text, with settings, each `NAME=NUMBER`.
#[derive(Drop)]
pub struct Attempt<'a> {
    pub source: &'a str,
    pub lattice: Option<&'a str>,
    pub class: Option<&'a str>,
    pub budget: u64,
    pub settings: Vec<&'a [u8]>,
}

/// A request for raises, or for the text with the raised classes if `is_applied`.
#[derive(Clone, Copy)]
pub struct Mending<'a> {
    pub compilation: Compilation<'a>,
    pub is_applied: bool,
    pub is_json: bool,
}

/// A language server, with a lattice file for texts that name none.
#[derive(Clone, Copy)]
pub struct Serving<'a> {
    pub lattice: Option<&'a str>,
    pub is_strict: bool,
}

/// A layout that keeps comments; whether the text is only compared with it or replaced by it.
#[derive(Clone, Copy)]
pub struct Layout<'a> {
    pub source: &'a str,
    pub is_kept: bool,
    pub is_checked: bool,
    pub is_written: bool,
}

/// A request whose answer is one document, which a program reads, on standard output: SARIF of
/// `check` or `audit`, or JSON of another subcommand.
#[derive(Drop)]
pub enum Document<'a> {
    Sarif(Judging<'a>),
    Classes(Compilation<'a>),
    Flows(Compilation<'a>),
    Audit(Audit<'a>),
    AuditSarif(Audit<'a>),
    Bound(Bounding<'a>),
    Run {
        execution: Execution<'a>,
        initial_store: InitialStore<'a>,
    },
    Compare(Comparison<'a>),
    Leak(Search<'a>),
    List(&'a str),
    Policy(Looking<'a>),
    Visible(Visibility<'a>),
    /// With the source text that is compared with its layout.
    Layout(&'a str),
}

/// Whether an explanation is coloured.
#[derive(Clone, Copy)]
pub enum Colour {
    /// If standard error is a terminal and the environment doesn't forbid colour.
    Auto,
    Always,
    Never,
}

/// How a refusal is reported: by its fixed text, alone or with an explanation after it.
#[derive(Clone, Copy)]
pub enum Reporting {
    Fixed,
    Explained(Colour),
}

/// How a refusal of a request is reported, whether by all lines of an explanation and by the strict
/// profile, and whether its file replaces one of another kind.
#[derive(Clone, Copy)]
pub struct Manner {
    pub reporting: Reporting,
    pub is_whole: bool,
    pub is_strict: bool,
    pub is_forced: bool,
}

/// A subcommand with its arguments.
#[derive(Drop)]
pub enum Request<'a> {
    Try(Attempt<'a>),
    Check(Judging<'a>),
    Survey(Survey<'a>),
    Project(Projecting<'a>),
    /// With the name of the folder that is made for a new project.
    New(&'a str),
    Document(Document<'a>),
    Conform(Conformance<'a>),
    Classes(Compilation<'a>),
    Flows {
        compilation: Compilation<'a>,
        has_walks: bool,
    },
    Mend(Mending<'a>),
    Build(Compilation<'a>, &'a str),
    List(&'a str),
    Audit(Audit<'a>),
    Source(&'a str),
    EmitC(Emission<'a>),
    Bound(Bounding<'a>),
    Run {
        execution: Execution<'a>,
        initial_store: InitialStore<'a>,
        has_trace: bool,
        has_count: bool,
    },
    View {
        lattice: &'a str,
        class: &'a str,
        execution: Execution<'a>,
        initial_store: InitialStore<'a>,
    },
    ViewWithin(Viewing<'a>),
    Drive(Driving<'a>),
    Compare(Comparison<'a>),
    CompareSteps {
        comparison: StepComparison<'a>,
        is_json: bool,
    },
    Steps {
        stepping: Stepping<'a>,
        is_json: bool,
    },
    Monitor {
        stepping: Stepping<'a>,
        rule: MonitorRule,
        is_json: bool,
    },
    Leak(Search<'a>),
    Report(Page<'a>),
    Draw(Drawing<'a>),
    Policy(Looking<'a>),
    Visible(Visibility<'a>),
    Format(&'a str),
    Layout(Layout<'a>),
    /// With the shape of a lattice and the names given for its classes.
    Lattice(Vec<&'a [u8]>),
    Lsp(Serving<'a>),
    /// With the page of the refusal or subject.
    Explain(&'a str),
}

/// The default budget and the default number of pairs of a search.
pub const SEARCH: u64 = 10_000;

/// The default number of steps of a run.
pub const STEPS: u64 = 10_000;

/// The default number of lines after which a drive saves its store.
pub const EVERY: u64 = 1;

/// The default budget of all runs of an interface together.
pub const RUNS_BUDGET: u64 = 1_000_000_000;

/// The default budget of an attempt.
pub const TRY_BUDGET: u64 = 1_000_000;
