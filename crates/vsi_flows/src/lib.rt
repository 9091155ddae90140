//! All flows of a program at a glance, and the least raises of classes that permit them.
//!
//! `flows_in` takes a resolved program over a lattice. It returns a pair for every two declared
//! variables joined by a chain of flow steps, with the fewest steps of such a chain and whether the
//! order allows it. A program is accepted exactly if no pair is refused (clause `verdict`).
//! Variables that aren't joined are independent, whatever the classes are: that is a law in `laws`.
//! `refused_pairs` returns the pairs that aren't allowed, and `walks_of` a walk of the fewest steps for
//! each pair of a list. `further_flows` lists at most 19 refused pairs other than the reported one,
//! and `related` the declared variables that reach a variable and those that it reaches.
//!
//! `raises_of` returns the declared variables of a source text whose classes must rise, each with
//! its new class and a variable that forces it, or a walk to the ending of loops that no raise
//! permits. With the raises the program is accepted, and every policy at or above the declared one
//! under which it is accepted is at or above the raised one (clause `answer`). `raise_lines_of`
//! writes them as lines, and `raised_text_of` returns the text with the new classes in place of the
//! old ones, which has been judged and is accepted.
//!
//! To be believed: `specs/Independence`, `specs/Table`, `specs/Text`, `specs/Refused`,
//! `specs/Policy`, `specs/Raising`, `specs/Lines`, `specs/Places`, `specs/Answers`, `specs/Related`,
//! `specs/Further` and `specs/Messages`. The other files of `specs/` only support proofs.
#![tactic(auto)]

pub mod laws;
mod least;
mod listing;
mod relating;
mod rows;
mod table;
mod text;
mod walked;
mod written;

pub use least::{
    Raise, RaisedError, Raising, raise_lines_in, raise_lines_of, raises_in, raises_of,
};
pub use listing::further_flows;
pub use relating::related;
pub use rows::{declarations, name_start};
pub use table::{FlowsError, Pair, Related, flows_in, refused_pairs};
pub use text::{
    WalkTable, Walks, ends_text, flows_text_in, flows_text_of, step_text, table_text, table_walks,
    walk_table,
};
pub use walked::{WalkedPair, walks_of};
pub use written::{raised_text_in, raised_text_of};
