//! The requests: texts and images judged, rewritten, drawn and put into C; runs, views, drives,
//! comparisons, steps and the editor.
#![tactic(auto)]

mod boundaries;
mod c_code;
mod choices;
mod conformance;
mod conformity;
mod documents;
mod drives;
mod faults;
mod findings;
mod images;
mod policies;
mod projects;
mod running;
mod saves;
mod selection;
mod steering;
mod stepping;
mod surveys;
mod texts;
mod trials;
mod viewers;

pub use c_code::emit;
pub use conformance::conform;
pub use documents::{
    audit_document, checked_sarif, classes_line, draw, flows_line, leak, leak_line, list_line,
    report,
};
pub use drives::drive;
pub use images::{audit, bound, source};
pub use policies::{lattice, policy, visible};
pub use projects::project;
pub use running::{Running, compare, run, run_line, view};
pub use steering::view_within;
pub use stepping::{compare_steps, monitor, steps};
pub use surveys::survey;
pub use texts::{built, check, classes, format, lay_out, layout_line, list, mend, put_flows};
pub use trials::{serve, try_source};
