//! The arguments of a command line, and the request that they make.
//!
//! `manner_of` returns the help for them, or says what is wrong with them or how their request is
//! carried out. `request_of` reads the request from them, down to the numbers of its options and
//! the page that `explain` names, and answers none where an argument is a flag or an option that
//! its subcommand lacks. The program prints help only if `asks_help` finds that the arguments ask
//! for it. `page` and `subject_page` return the pages of `explain`, on refusals and on subjects.
//! `is_valued` says which options take the argument after them as their value.
//!
//! To be believed: all files of `specs/`.
#![tactic(auto)]

mod arguments;
mod checks;
mod explained;
pub mod laws;
mod manner;
mod pages;
mod programs;
mod request;
mod requests;
mod run_requests;
mod runs;
mod subcommand;
mod usage;

pub use arguments::is_valued;
pub use explained::{page, subject_page};
pub use manner::{ArgumentsError, manner_of};
pub use request::{
    AnswerForm, Attempt, Audit, Bounding, Budget, Colour, Comparison, Compilation, Conformance,
    Document, Drawing, DrivePolicy, Driving, EVERY, Emission, Execution, InitialStore, Judging,
    Layout, Looking, Manner, Mending, MonitorRule, NameLists, Page, Projecting, RUNS_BUDGET,
    Reporting, Request, SEARCH, STEPS, Search, Serving, StepComparison, Stepping, Survey,
    TRY_BUDGET, Viewing, Visibility,
};
pub use requests::{asks_help, request_of};
