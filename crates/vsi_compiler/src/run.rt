//! A source text, compiled and run.

ghost use Rattle.std.specs.Prelude.{◌≡◌, IfOk, IfErr};
ghost use Rattle.vsi_lattice.specs.LatticeView.{class_named, order};
ghost use Rattle.vsi_compiler.specs.{Run.{Ran, RefusesRun}, declared.run.RunError.TheVariants.{Memory}};

use crate::compiler::compile;
use crate::source::CompileError;
use std::alloc::{AllocError, AllocFailed, Global};
use thiserror::Error;
use vsi_lattice::Lattice;
use vsi_machine::{Machine, Outcome, StartError};

/// Why a text wasn't run. A lack of memory is always `Memory`, never the `Memory` of an inner
/// error.
#[derive(Debug, Drop, Error)]
pub enum RunError {
    /// The text is refused.
    #[error("the text is refused")]
    Compile(CompileError),
    /// The store doesn't have one word per global.
    #[error("the machine could not be started")]
    Start(StartError),
    /// An allocation failed.
    #[error("out of memory")]
    Memory,
}

impl From<AllocError> for RunError {
    ghost from_gives = { λ _ e. e ≡ Memory };

    fn from(_error: AllocError) -> RunError {
        RunError::Memory
    }
}

impl<T: Drop> From<AllocFailed<T>> for RunError {
    ghost from_gives = { λ _ e. e ≡ Memory };

    fn from(_error: AllocFailed<T>) -> RunError {
        RunError::Memory
    }
}

impl From<CompileError> for RunError {
    ghost use Rattle.vsi_compiler.specs.Run.{compiling};

    ghost from_gives = { λ inner e. e ≡ compiling inner };

    fn from(error: CompileError) -> RunError {
        match error {
            CompileError::Memory => RunError::Memory,
            other => RunError::Compile(other),
        }
    }
}

impl From<StartError> for RunError {
    ghost use Rattle.vsi_compiler.specs.Run.{starting};

    ghost from_gives = { λ inner e. e ≡ starting inner };

    fn from(error: StartError) -> RunError {
        match error {
            StartError::Memory => RunError::Memory,
            other => RunError::Start(other),
        }
    }
}

/// Compiles a text, and runs its image from a store with one word per global, for at most `budget`
/// instructions. Returns how the run ended, and the last words of the globals.
///
/// # Errors
///
/// The refusals of `compile`, and `WrongStore` if the store doesn't have one word per global.
pub fn run_source(
    alloc: Global,
    lattice: &Lattice,
    text: &[u8],
    store: &[i64],
    budget: u64,
) -> Result<(Outcome, Vec<i64>), RunError>
    ensures ran { IfOk result (λ r.
        Ran (class_named lattice.now) (order lattice.now) text.now store.now budget r.0 r.1.items) }
    ensures refused { IfErr result
        (RefusesRun (class_named lattice.now) (order lattice.now) text.now store.now) }
{
    let verified = compile(alloc, lattice, text)?;
    let mut machine = Machine::new(alloc, &verified, store)?;
    let outcome = machine.run(budget);
    let words = machine.store().to_vec(alloc)?;
    Ok((outcome, words))
}
