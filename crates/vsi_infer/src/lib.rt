//! The inference of classes.
//!
//! The input is a resolved program over a lattice. The output is the least typable classes, one for
//! each `letvar` (clause `ok` of `infer_in`), or a bad walk such that no bad walk has fewer steps
//! (clause `refused`). `check_walk_in` decides whether a walk is bad and allocates nothing;
//! `explain` writes a walk as text. The laws of bad walks are in `laws`.
//!
//! To be believed: `specs/Explanation`, `specs/Inference`, `specs/Laws` and `specs/Paths` for the
//! functions that users call; `specs/FlowRows`, `specs/Flowing`, `specs/StepsBetween`,
//! `specs/Lines`, `specs/Shortest` and `AreLeast` of `specs/Distances` for those that other crates
//! call. The other definitions are only steps of proofs.
#![tactic(auto)]

mod distances;
mod explanation;
mod flows;
mod gathering;
mod inference;
pub mod laws;
mod looking;
mod membership;
mod shortest;
mod walk;

pub use distances::fewest_flows;
pub use explanation::{
    Mark, class_name, explain, marks_of, put_steps, put_variable, rule_text, variable_name,
};
pub use flows::{FlowRows, flow_rows, flow_rows_by, same_rule};
pub use inference::{Flow, InferError, infer, infer_in};
pub use looking::FirstSteps;
pub use shortest::{WalksTo, row_of, steps_down, steps_down_each, walks_to};
pub use vsi_types::Step;
pub use walk::{Walk, check_walk, check_walk_in, check_walk_once, declared_class};
