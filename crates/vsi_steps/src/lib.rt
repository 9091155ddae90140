//! The steps of a run: each guard that is tested and each word that is stored, in order.
//!
//! `trace_of` gives the steps of a resolved program from a store, at most as many as a limit: its
//! clause says that they are all steps of the evaluation, which ends in the store of the rules, or
//! the first of them. The laws of steps are in [`laws`]: every evaluation has exactly one list of
//! steps, and a run that is cut gives the first of its steps.
//!
//! A dynamic monitor: each word has a label, and the program counter has a class. At an assignment
//! under a counter that isn't at or below the label of the variable, a run is stopped
//! (no-sensitive-upgrade after Austin and Flanagan, 2009), or the word is marked as partly leaked,
//! and the run is stopped at a guard that reads it (permissive upgrade, 2010).
//!
//! `monitored` runs a resolved program by one of these rules: its clause `ends` says that a run
//! halts or is stopped as the rule says, and `typable` that a typable program is never stopped. The
//! laws are in [`laws`]: a run that isn't stopped computes what the rules of evaluation give, two
//! such runs from stores that agree below a class end in stores that agree there, and permissive
//! upgrade stops fewer runs.
//!
//! To be believed: all files of `specs/` but `specs/Extents` and `specs/Ran`, stepping stones of
//! proofs.
#![tactic(auto)]

mod answer;
mod labels;
pub mod laws;
mod listing;
mod run;
mod text;
mod watch;

pub use answer::{Naming, monitor_json, monitor_text};
pub use labels::Rule;
pub use listing::{Listing, Site, listing_of};
pub use run::{Step, Trace, trace_of, value};
pub use text::{
    Row, Side, class_name, first_seen, put_parts, rows_of, steps_json, steps_text, string,
    together_json, together_text,
};
pub use watch::{Stop, Unfinished, Watched, monitored};
