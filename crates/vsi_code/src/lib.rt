//! Code generation: the verified image of a resolved program.
//!
//! `generate` turns a `Resolved` into a `Verified`. Its clause `behaves` says that the image's runs
//! end in exactly the stores to which the program's body evaluates. Its clauses `globals`, `slots`,
//! `stack` and `code` say which image it is.
//!
//! To be believed: all files of `specs/`.
#![tactic(auto)]

mod emission;
mod generator;

pub use generator::generate;
