//! The answers of subcommands for programs: as lines of JSON, and as documents of SARIF 2.1.0.
//!
//! Each answer is an object with the parts of the subcommand's lines as values, and whether the
//! answer is good. A text that `classes_json`, `flows_json` or `mend_json` refuses has the line of
//! `check_json`; `refused_json` and `refused_interface_json` write the line of another refused
//! file. Words and other numbers are integers of JSON with up to 64 bits.
//!
//! Services that check changes show a document of SARIF on the lines of a text. `check_sarif` is
//! about a source text and `audit_sarif` about an image: the document of a refused one has one
//! result, whose rule is the number and the name of the refusal, its message the lines that are
//! printed, its place that of the refusal, with a location for each step of a refused flow's walk.
//! `rows_sarif` writes the points beside an interface: a result for each, whose rule is its kind. A
//! `FaultReport` has a result for each fault of several texts. `specs/Checking`, `specs/Auditing`
//! and `specs/Findings` say which answers are written, `specs/Refusals` and `specs/Document` define
//! their text.
//!
//! `lattice_text` returns a lattice file for a shape and names, which declares exactly the classes
//! and the order of the shape (clause `shaped`). `seen_table` and `visible_table` write what each
//! class sees, sets, reads and releases, `seen_changes` and `visible_changes` the differences from
//! an older file (`specs/{Roles, Rows, Changes}`). `policy_json`, `visible_json`, their `changes`
//! and `list_json` write lines of JSON whose contents are only tested. `lattice_sees_more` and
//! `interface_sees_more` say whether some class sees more than before.
//!
//! To be believed: all files of `specs/`.
#![tactic(auto)]

mod answer;
mod faults;
mod images;
mod refusal;
mod roles;
mod sarif;
mod shape;
mod tables;
mod texts;
mod warnings;

pub use answer::{Reply, refused_interface_json, refused_json};
pub use faults::{FaultReport, FaultRule, Finding};
pub use images::{audit_json, bound_json, bound_json_in, compare_json, leak_json, run_json};
pub use roles::{seen_changes, seen_table, unused_warnings, visible_changes, visible_table};
pub use sarif::{audit_sarif, check_sarif, rows_sarif};
pub use shape::{Shape, ShapeError, lattice_text, named_policy};
pub use tables::{
    interface_sees_more, lattice_sees_more, list_json, policy_changes_json, policy_json,
    visible_changes_json, visible_json,
};
pub use texts::{classes_json, flows_json, mend_json};
pub use warnings::policy_warnings;
