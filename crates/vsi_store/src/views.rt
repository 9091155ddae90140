//! A class's view of a run, and the reasons for having none.

ghost use Rattle.std.specs.Prelude.{◌≡◌};
ghost use Rattle.vsi_store.specs.declared.views.ViewError.TheVariants.{Memory};

use std::alloc::{AllocError, AllocFailed};
use thiserror::Error;

/// A class's view of a run.
#[derive(Debug, Drop)]
pub enum View {
    /// The run halted, with these lines of the store.
    Text(Vec<u8>),
    /// The budget was spent before a HALT.
    OutOfBudget,
}

/// Why there is no view.
#[derive(Debug, PartialEq, Eq, Drop, Error)]
pub enum ViewError {
    /// The class name of the global with this number, from 0, is no class of the lattice; it is the
    /// first such global.
    #[error("a global has a class that the lattice lacks")]
    ClassNotInLattice(usize),
    /// The store has this many words, which isn't one for each global.
    #[error("the store has not one word per global")]
    WrongStore(usize),
    /// An allocation failed.
    #[error("out of memory")]
    Memory,
}

impl From<AllocError> for ViewError {
    ghost from_gives = { λ _ e. e ≡ Memory };

    fn from(_error: AllocError) -> ViewError {
        ViewError::Memory
    }
}

impl<T: Drop> From<AllocFailed<T>> for ViewError {
    ghost from_gives = { λ _ e. e ≡ Memory };

    fn from(_error: AllocFailed<T>) -> ViewError {
        ViewError::Memory
    }
}
