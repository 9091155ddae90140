//! Resolved programs: names replaced by locations, and the effect of commands over locations on a
//! store.
//!
//! `resolve` takes the tree of a program and a lattice of classes, and returns a [`Resolved`] or
//! the first fault of the text. Its clause `resolved` relates the result to the program, `refused`
//! gives the meaning of each fault, and `exact` says that a program without a fault is refused only
//! if memory runs out. The laws of evaluation are the contracts of the functions in [`laws`].
//!
//! To be believed: `specs/Faults`, `specs/Language`, `specs/Laws`, `specs/Limits`, `specs/Meaning`,
//! `specs/Places`, `specs/Program`, `specs/Resolving`, `specs/Rules`, `specs/Scopes`, `specs/View`;
//! `specs/Resolver` is a stepping stone of proofs.
#![tactic(auto)]

pub mod laws;
mod measure;
mod program;
mod resolution;
mod resolved;

pub use measure::size;
pub use program::{Cmd, Ex};
pub use resolution::{ScopeError, resolve};
pub use resolved::{Entry, Global, Resolved, Var};
