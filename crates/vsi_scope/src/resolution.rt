//! The resolution of names: every name is replaced by its location.

ghost use Rattle.std.specs.Prelude.{◌≡◌};
ghost use Rattle.vsi_scope.specs.declared.resolution.ScopeError.TheVariants.{Memory};

use std::alloc::{AllocError, AllocFailed};
use thiserror::Error;
use vsi_syntax::Span;

mod command;
mod whole;

pub use whole::resolve;

/// The most globals that a program may have.
const MAX_GLOBALS: usize = 256;

/// The most declarations that a program may have, globals and `letvar`s together.
const MAX_DECLARATIONS: usize = 1024;

/// The greatest size of a program's body.
const MAX_SIZE: u32 = 65_534;

/// Why a program isn't resolved. Each span is that of the name's token.
#[derive(Clone, Copy, Debug, PartialEq, Eq, Error)]
pub enum ScopeError {
    /// Memory ran out.
    #[error("out of memory")]
    Memory,
    /// The name of a global that is declared above.
    #[error("the global at byte {start} is declared above", start = .0.start)]
    Duplicate(Span),
    /// The name of a class that is not in the lattice.
    #[error("the class at byte {start} is not in the lattice", start = .0.start)]
    UnknownClass(Span),
    /// A name that isn't in scope where it is used.
    #[error("the name at byte {start} is not in scope", start = .0.start)]
    Unbound(Span),
    /// The name of the 257th global.
    #[error("there are more than 256 globals, at byte {start}", start = .0.start)]
    TooManyGlobals(Span),
    /// The name of the 1,025th declaration.
    #[error("there are more than 1024 declarations, at byte {start}", start = .0.start)]
    TooManyDeclarations(Span),
    /// The size of the body is above 65,534.
    #[error("the size of the body is above 65534")]
    TooLarge,
}

impl From<AllocError> for ScopeError {
    ghost from_gives = { λ _ e. e ≡ Memory };

    fn from(_e: AllocError) -> ScopeError {
        ScopeError::Memory
    }
}

impl<T: Drop> From<AllocFailed<T>> for ScopeError {
    ghost from_gives = { λ _ e. e ≡ Memory };

    fn from(_e: AllocFailed<T>) -> ScopeError {
        ScopeError::Memory
    }
}
