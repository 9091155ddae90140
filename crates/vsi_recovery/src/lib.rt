//! How a faulty text or order goes on: further faults, tokens that may come next, and classes that
//! an order lacks.
//!
//! `further_faults` returns the faults of a text after its first one. A fault of a token is
//! skipped. At a fault of the tree the list of tokens is repaired, and `parse` reads it again;
//! `resolve` does the same for names. So each fault is the first one of a list that differs from
//! the text only where earlier faults were repaired, and none is reported up to the next `;`, `}`,
//! `else`, `do`, `in` or `var` after a repair. Clauses `few` and `listed` say what is proved: there
//! are at most 19, in the text and in their order. Which repair is taken is only tested.
//!
//! Given the tokens before a position, `expected_after` returns the set of the sorts of tokens that
//! may follow in some program, and whether a program may end there (clauses `sorts` and `end`). It
//! reads the tokens once and keeps a list of the parts that are still pending.
//!
//! `completion`, `links` and `placements` find classes and pairs that make a lattice of an order
//! that is none. A search proposes them, and the order is read anew with them: each answer makes a
//! lattice (clause `lattice`), and a completion puts no class below another one that it was not
//! below (clause `keeps`). Only transcripts show that there is an answer.
//!
//! To be believed: `specs/Listed`; `specs/Goes`, `specs/Sorts` and `specs/Told`; `specs/Completed`.
//! `specs/Rules` is a stepping stone of proofs.
#![tactic(auto)]

mod expected;
mod holes;
mod naming;
mod open;
mod orders;
mod rows;
mod rules;
mod search;
mod sort;
mod walk;

pub use expected::{Expected, expected_after};
pub use orders::{Addition, Placement, Rank, completion, links, nearest, placements};
pub use sort::Sort;
pub use walk::{Cause, Fault, further_faults};
