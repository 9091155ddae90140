//! Security classes, their order and the lattice file.
//!
//! `read_lattice` turns a lattice file into a [`Lattice`] with exactly the names and the order that
//! the file declares (clause `read`), or returns its first fault (`refused`). `Classes` is the
//! order with its joins and meets; `MaskLattice` and `PairLattice` build one from declared pairs.
//!
//! To be believed: all files of `specs/`.
#![tactic(auto)]

mod lattice;
mod order;
mod reader;
mod rows;
mod table;

pub use lattice::Lattice;
pub use order::{Class, Classes, MaskLattice, OrderError};
pub use reader::{LatticeError, read_lattice};
pub use table::PairLattice;
