//! The requirements on a text, why they are refused, and how a text differs from them.

ghost use Rattle.std.specs.{Prelude.{◌≡◌, ◌<◌, ◌≤◌, false, true, IfOk, ◌++◌, OnOk}, Option.{option_copied}};
ghost use Rattle.vsi_conform.specs.{declared.interface.InterfaceError.TheVariants.{Memory}, Points.{told, is_conforming}, Totals.{total_of}};
ghost use Rattle.vsi_conform.specs.Bounded as spec;
ghost use Rattle.vsi_conform.specs.Faulty as faulty_spec;

use crate::texts::put_parts;
use std::alloc::{AllocError, AllocFailed, Global};
use thiserror::Error;
use vsi_steady::UnsteadyError;
use vsi_syntax::put_number;

/// How a text must be accepted.
#[derive(Clone, Copy, PartialEq, Eq, Debug)]
pub enum Judgement {
    /// Under the base profile.
    Base,
    /// Under the strict profile.
    Strict,
    /// With a steady image, under the strict profile.
    Steady,
}

/// The bound that an image must have: a number of instructions within which it halts.
#[derive(Clone, Copy, PartialEq, Eq, Debug)]
pub enum Bounded {
    /// None.
    No,
    /// Any.
    Yes,
    /// One of at most this number.
    AtMost(u64),
}

/// A required run: it halts within its budget with these words.
#[derive(Debug, Drop)]
pub struct Trial {
    /// Names of globals with their words at the start of the run; every other global starts with 0.
    pub store: Vec<(Vec<u8>, i64)>,
    /// The largest number of instructions.
    pub budget: u64,
    /// Names of globals with their words at the end.
    pub expect: Vec<(Vec<u8>, i64)>,
}

/// The requirements on a text.
#[derive(Debug, Drop)]
pub struct Interface {
    /// How it must be accepted.
    pub judgement: Judgement,
    /// Whether its globals must be in this order.
    pub is_ordered: bool,
    /// The bound that its image must have.
    pub bounded: Bounded,
    /// The names of its globals and of their classes.
    pub globals: Vec<(Vec<u8>, Vec<u8>)>,
    /// The required runs of its image.
    pub trials: Vec<Trial>,
}

impl Interface {
    /// Whether an image must have a bound.
    pub fn demands_bound(&self) -> bool
        ensures demands { result ≡ spec.demands_bound self.now.bounded }
    {
        match self.bounded {
            Bounded::No => false,
            Bounded::Yes | Bounded::AtMost(_) => true,
        }
    }
}

/// Why an interface file is refused. Runs and boundaries are numbered from 1.
#[derive(Debug, Drop, Error)]
pub enum InterfaceError {
    /// The text isn't a TOML document.
    #[error("the interface is no TOML")]
    NotToml,
    /// An interface has no such key.
    #[error("the interface has a key that is none")]
    UnknownKey(Vec<u8>),
    /// The interface has neither a text at `lattice` nor the keys of a lattice file, or it has
    /// both; or the path leads out of the folder of the interface.
    #[error("the interface has no lattice, or two")]
    BadLattice,
    /// The value at `profile` is none of `base`, `strict` and `steady`.
    #[error("the interface has no profile")]
    BadProfile,
    /// The value at `order` is neither `exact` nor `set`.
    #[error("the order of the globals is none")]
    BadOrder,
    /// The value at `bounded` is none of `true`, `false` and a number of at least 1.
    #[error("the required bound is neither true nor false nor a maximum")]
    BadBounded,
    /// The value at `globals` isn't an array of at most 256 pairs of texts.
    #[error("the interface has no array of globals")]
    BadGlobals,
    /// This name of a global isn't a name of the language.
    #[error("the name of a global is none")]
    BadName(Vec<u8>),
    /// Two globals have this name.
    #[error("two globals have one name")]
    RepeatedGlobal(Vec<u8>),
    /// The class of the global with this name isn't a class of the lattice.
    #[error("the class of a global is none")]
    UnknownClass(Vec<u8>),
    /// The value at `runs` isn't an array.
    #[error("the runs are no array")]
    BadRuns,
    /// The run isn't a table, or has a key that runs don't have.
    #[error("run {0} is no run")]
    BadRun(usize),
    /// The store of the run isn't a table of numbers.
    #[error("the store of run {0} is none")]
    BadStore(usize),
    /// The run has no budget of at least 0.
    #[error("run {0} has no budget")]
    NoBudget(usize),
    /// The run has neither a table of numbers at `expect` nor `halts = true`, or it has both.
    #[error("run {0} expects nothing")]
    NothingExpected(usize),
    /// The run names this global, which the interface doesn't have.
    #[error("run {0} names an unknown global")]
    UnknownGlobal(usize, Vec<u8>),
    /// The boundary isn't a table with a class and with arrays of names, has a key that boundaries
    /// don't have, or has the class of a later one; or the value at `cycle` isn't an array.
    #[error("cycle {0} is no boundary of a class")]
    BadCycle(usize),
    /// The boundary names this global, which the interface doesn't have, or it is that of this
    /// class, which the lattice doesn't have.
    #[error("cycle {0} names an unknown global or class")]
    UnknownInCycle(usize, Vec<u8>),
    /// The value at `reference` isn't a text, or the path leads out of the folder of the interface.
    #[error("the reference is no path in the folder of the interface")]
    BadReference,
    /// The reference isn't accepted: its path, and the lines of its refusal without the last byte.
    #[error("the reference isn't accepted")]
    RefusedReference(Vec<u8>),
    /// The runs may take more instructions together than this number.
    #[error("the runs may take more than {0} instructions")]
    AboveBudget(u64),
    /// Memory ran out.
    #[error("out of memory")]
    Memory,
}

impl From<AllocError> for InterfaceError {
    ghost from_gives = { λ _ e. e ≡ Memory };

    fn from(_error: AllocError) -> InterfaceError {
        InterfaceError::Memory
    }
}

impl<T: Drop> From<AllocFailed<T>> for InterfaceError {
    ghost from_gives = { λ _ e. e ≡ Memory };

    fn from(_error: AllocFailed<T>) -> InterfaceError {
        InterfaceError::Memory
    }
}

impl InterfaceError {
    /// A fault: its name, the number of a run or of a boundary, or a budget, and a name or a key,
    /// or what is said of the reference.
    fn parts(&self) -> (&'static [u8], Option<usize>, Option<&[u8]>)
        ensures name { result.0.now ≡ faulty_spec.name_of self.now }
        ensures run { result.1 ≡ faulty_spec.run_of self.now }
        ensures word { option_copied result.2 ≡ faulty_spec.word_of self.now }
    {
        match self {
            Self::NotToml => (b"NotToml", None, None),
            Self::UnknownKey(word) => (b"UnknownKey", None, Some(word.as_slice())),
            Self::BadLattice => (b"BadLattice", None, None),
            Self::BadProfile => (b"BadProfile", None, None),
            Self::BadOrder => (b"BadOrder", None, None),
            Self::BadBounded => (b"BadBounded", None, None),
            Self::BadGlobals => (b"BadGlobals", None, None),
            Self::BadName(word) => (b"BadName", None, Some(word.as_slice())),
            Self::RepeatedGlobal(word) => (b"RepeatedGlobal", None, Some(word.as_slice())),
            Self::UnknownClass(word) => (b"UnknownClass", None, Some(word.as_slice())),
            Self::BadRuns => (b"BadRuns", None, None),
            Self::BadRun(number) => (b"BadRun", Some(*number), None),
            Self::BadStore(number) => (b"BadStore", Some(*number), None),
            Self::NoBudget(number) => (b"NoBudget", Some(*number), None),
            Self::NothingExpected(number) => (b"NothingExpected", Some(*number), None),
            Self::UnknownGlobal(number, word) => {
                (b"UnknownGlobal", Some(*number), Some(word.as_slice()))
            }
            Self::BadCycle(number) => (b"BadCycle", Some(*number), None),
            Self::UnknownInCycle(number, word) => {
                (b"UnknownInCycle", Some(*number), Some(word.as_slice()))
            }
            Self::BadReference => (b"BadReference", None, None),
            Self::RefusedReference(word) => (b"RefusedReference", None, Some(word.as_slice())),
            Self::AboveBudget(budget) => (b"AboveBudget", Some(*budget as usize), None),
            Self::Memory => (b"Memory", None, None),
        }
    }
}

/// The name of a fault.
pub fn fault_name(error: &InterfaceError) -> &'static [u8]
    ensures { result.now ≡ faulty_spec.name_of error.now }
{
    error.parts().0
}

/// The line of a refused interface: the name of the fault and, if there is one, the faulty run or
/// boundary and the faulty name or key.
pub fn interface_text(alloc: Global, error: &InterfaceError) -> Result<Vec<u8>, AllocError>
    ensures line { IfOk result (λ text. text.items ≡ faulty_spec.interface_line error.now) }
{
    let mut text = Vec::new(alloc);
    let (name, number, word) = error.parts();
    put_parts(&mut text, &[b"refused interface: ", name])?;
    if let Some(number) = number {
        text.extend_from_slice(b" ")?;
        put_number(&mut text, number)?;
    }
    if let Some(word) = word {
        put_parts(&mut text, &[b" ", word])?;
    }
    text.extend_from_slice(b"\n")?;
    Ok(text)
}

/// A difference between the globals or runs of a text and the required ones. All numbers count from
/// 0, in the order of the interface or, for a `place`, in the order of the text.
#[derive(Clone, Copy, PartialEq, Eq, Debug)]
pub enum Point {
    /// The text has no global with the name of this required one.
    Missing(usize),
    /// The global at this place has a name that isn't required.
    Unexpected(usize),
    /// A global has a class other than the required one.
    WrongClass {
        place: usize,
        wanted: usize,
    },
    /// The globals are the required ones, but in another order from this place on.
    WrongOrder(usize),
    /// This run doesn't halt within its budget.
    OutOfBudget(usize),
    /// A global ends a run with a word other than the expected one.
    WrongWord {
        trial: usize,
        wanted: usize,
        word: i64,
    },
    /// The text has no global with the name for which a run expects a word.
    NoWord {
        trial: usize,
        wanted: usize,
    },
}

/// The answer for a text and an interface.
#[derive(Debug, Drop)]
pub struct Answer {
    /// Why the text isn't accepted.
    pub refusal: Option<UnsteadyError>,
    /// The differences between its globals or runs and the required ones.
    pub points: Vec<Point>,
    /// The line about the bound of its image, if it isn't as required.
    pub unbounded: Option<Vec<u8>>,
}

impl Answer {
    /// Whether nothing differs.
    pub fn conforms(&self) -> bool
        ensures { result ≡ is_conforming self.now }
    {
        self.refusal.is_none() && self.points.is_empty() && self.unbounded.is_none()
    }
}

/// Adds a point, if there is one.
pub(crate) fn put_told(points: &mut Vec<Point>, point: Option<Point>) -> Result<(), AllocError>
    ensures { OnOk result (points.new.items ≡ points.old.items ++ told point) }
{
    if let Some(point) = point {
        points.push(point)?;
    }
    Ok(())
}

/// Whether the runs of an interface take together at most this number of instructions.
pub fn is_within(interface: &Interface, budget: u64) -> bool
    ensures within { result ≡ true → total_of interface.now ≤ budget }
    ensures above { result ≡ false → budget < total_of interface.now }
{
    let mut left = budget;
    let mut rest = interface.trials.as_slice();
    while let [trial, behind @ ..] = rest {
        if trial.budget > left {
            return false;
        }
        left -= trial.budget;
        rest = behind;
    }
    true
}
