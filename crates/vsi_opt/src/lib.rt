//! The optimiser: folding, and the removal of dead assignments.
//!
//! `optimise` turns a resolved program into one that behaves the same. Its clause `same` states
//! this for every number of turns and every store with one word per global. The clauses `remains`,
//! `entries` and `globals` state which commands, letvars and globals are left, `folded` that
//! nothing is left to fold, and `not_larger` that the code needs no more instructions.
//!
//! To be believed: `specs/Folded`, `specs/Folding`, `specs/Liveness`, `specs/Optimised`,
//! `specs/Remaining`. The other files of `specs/` only support proofs.
#![tactic(auto)]

pub mod laws;
mod liveness;
mod optimiser;

pub use optimiser::optimise;
