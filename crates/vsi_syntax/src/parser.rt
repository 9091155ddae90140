//! Finds the program that writes the tokens, or the first token at which there can be none.
//!
//! Commands and expressions are read from the left. `room` is how many more levels a tree may have
//! below the current position.

ghost use Rattle.std.specs.Prelude.{◌≡◌};
ghost use Rattle.vsi_syntax.specs.declared.parser.Fault.TheVariants as fault;
ghost use Rattle.vsi_syntax.specs.declared.parser.ParseError.TheVariants.{Memory};

use crate::token::Span;
use std::alloc::{AllocError, AllocFailed};
use thiserror::Error;

/// Why tokens are not a program.
///
/// The fault is at the first token such that no program begins with the tokens up to and including
/// it.
#[derive(Debug, Drop, Error)]
pub enum ParseError {
    /// Memory ran out.
    #[error("out of memory")]
    Memory,
    /// No program of any depth begins with the tokens up to and including this one. If the tokens
    /// end too early, this is the empty span after the last token, at 0 if there is none.
    #[error("no program goes on as the text does at byte {start}", start = .0.start)]
    Unexpected(Span),
    /// Only programs deeper than `MAX_DEPTH` begin with the tokens up to and including this one.
    #[error("the program is too deep at byte {start}", start = .0.start)]
    TooDeep(Span),
}

impl From<AllocError> for ParseError {
    ghost from_gives = { λ _ e. e ≡ Memory };

    fn from(_e: AllocError) -> ParseError {
        ParseError::Memory
    }
}

impl<T: Drop> From<AllocFailed<T>> for ParseError {
    ghost from_gives = { λ _ e. e ≡ Memory };

    fn from(_e: AllocFailed<T>) -> ParseError {
        ParseError::Memory
    }
}

/// Why reading ends without a tree, and how many tokens are left there: the one at fault and those
/// after it, or none if the tokens end too early.
#[derive(Clone, Copy, Debug)]
pub(crate) enum Fault {
    /// Memory ran out.
    Memory,
    /// No program of any depth begins with the tokens up to and including the one at fault.
    Unexpected(usize),
    /// Only programs deeper than `MAX_DEPTH` begin with them.
    TooDeep(usize),
}

impl From<AllocError> for Fault {
    ghost from_gives = { λ _ e. e ≡ fault.Memory };

    fn from(_e: AllocError) -> Fault {
        Fault::Memory
    }
}

impl<T: Drop> From<AllocFailed<T>> for Fault {
    ghost from_gives = { λ _ e. e ≡ fault.Memory };

    fn from(_e: AllocFailed<T>) -> Fault {
        Fault::Memory
    }
}

mod command;
mod globals;
mod whole;

pub use whole::parse;
