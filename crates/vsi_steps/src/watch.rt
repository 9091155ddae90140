//! A monitored run of a program, and why it stops.

ghost use Rattle.std.specs.{Prelude.{◌≡◌, ◌≢◌, ◌++◌, ◌+◌, length, IfErr}, List.{All}};
ghost use Rattle.vsi_steps.specs.{declared.watch.Unfinished.TheVariants.{Memory}, Watched.{RunEnds}};
ghost use Rattle.vsi_lattice.specs.Order.{IsClass};
ghost use Rattle.vsi_scope.specs.{Language.{letvars}, View.{sequence}};
ghost use Rattle.vsi_types.specs.{declared.rules.Profile.{Profile}, Security.{IsTypable, program as program_of}, Typing.{Locations}};
ghost use Rattle.vsi_steps.specs.declared.watch.Unfinished.TheVariants as ends;

use crate::labels::{Rule, State, run_all};
use std::alloc::{AllocError, AllocFailed, Global};
use thiserror::Error;
use vsi_lattice::{Class, Classes};
use vsi_scope::Resolved;
use vsi_syntax::Span;

/// An assignment under a counter that isn't at or below the label of the variable, or a guard that
/// reads a word that is partly leaked. That is its label then.
#[derive(Clone, Copy, Debug, PartialEq, Eq)]
pub struct Stop {
    /// The span of the variable's name.
    pub place: Span,
    /// The class of the program counter.
    pub counter: Class,
    /// The variable's label.
    pub label: Class,
}

/// Why a monitored run doesn't come to its end.
#[derive(Clone, Copy, Debug, PartialEq, Eq, Error)]
pub enum Unfinished {
    /// Memory ran out.
    #[error("out of memory")]
    Memory,
    /// It has taken as many steps as the limit.
    #[error("the limit of steps is reached")]
    Limit,
    /// It was stopped at an assignment whose upgrade would leak, or at such a guard.
    #[error("the run was stopped at byte {start}", start = .0.place.start)]
    Stopped(Stop),
}

impl From<AllocError> for Unfinished {
    ghost from_gives = { λ _ e. e ≡ Memory };

    fn from(_e: AllocError) -> Unfinished {
        Unfinished::Memory
    }
}

impl<T: Drop> From<AllocFailed<T>> for Unfinished {
    ghost from_gives = { λ _ e. e ≡ Memory };

    fn from(_e: AllocFailed<T>) -> Unfinished {
        Unfinished::Memory
    }
}

/// The end of a run: the words of the globals, and their labels.
#[derive(Drop)]
pub struct Watched {
    pub words: Vec<i64>,
    pub labels: Vec<Class>,
}

/// Runs a program under the monitor by a rule, for at most `limit` steps, from a store whose words
/// have the classes of their globals as labels. `classes` has a class for each declaration, globals
/// first.
///
/// # Errors
///
/// `Stopped` at an assignment whose upgrade would leak, or at a guard that reads a word that is
/// partly leaked; `Limit`; or `Memory`.
pub fn monitored<C: Classes>(
    alloc: Global,
    rule: Rule,
    lattice: &C,
    program: &Resolved<'_>,
    classes: &[Class],
    words: &[i64],
    limit: u64,
) -> Result<Watched, Unfinished>
    requires words { length words.now ≡ length program.now.globals }
    requires classes { All (IsClass (C.lattice lattice.now)) classes.now }
    requires each { length classes.now
        ≡ length program.now.globals + letvars (sequence program.now.body) }
    ensures ends { RunEnds rule (C.lattice lattice.now) classes.now program.now words.now result }
    ensures typable { (P : Profile) (s : Locations) →
        classes.now ≡ (program_of program.now).globals ++ s →
        IsTypable (C.lattice lattice.now) P (program_of program.now) s →
        IfErr result (λ e. (x : Stop) → e ≢ ends.Stopped x) }
{
    let body = program.body();
    let globals = program.globals().len();
    let firsts = &classes[..globals];
    let mut state = State {
        words: words.to_vec(alloc)?,
        labels: Vec::from_slice(alloc, firsts)?,
        variables: Vec::from_slice(alloc, firsts)?,
        left: limit,
    };
    let bottom = lattice.bottom();
    let first = globals as u16;
    run_all(rule, lattice, classes, &mut state, bottom, first, body)?;
    let State { words, labels, .. } = state;
    Ok(Watched { words, labels })
}
