//! The type system of Volpano, Smith and Irvine over a lattice of classes, and the check of a
//! program's flows.
//!
//! `check_in` takes a resolved program, one class for each of its `letvar`s and a profile. It
//! answers Ok exactly if the body has a derivation by the typing rules (its clauses `typable` and
//! `complete`), and otherwise reports the first flow step that isn't in order. The laws of the type
//! system are in `laws`.
//!
//! Another crate can walk over the same flow steps with a [`Walker`]: its scope begins as
//! `first_variables`, `put_reads` adds the reads of a guard, and `loops` says whether the commands
//! under a guard contain a loop.
//!
//! To be believed: `specs/Security`, `specs/Steps`, `specs/Typing`, `specs/Walks`, and `TellsWhy`
//! of `specs/Checking`; its other definitions and `specs/Walker` are stepping stones of proofs.
#![tactic(auto)]

mod checker;
pub mod laws;
mod rules;
mod walker;

pub use checker::{check, check_in};
pub use rules::{CheckError, FlowFault, Guard, LOOP, Profile, Read, Rule, Step};
pub use walker::{Walker, first_variables, loops, put_reads};
