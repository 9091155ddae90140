//! Whether two stores show a leak: both are run, and their endings are compared.

ghost use Rattle.std.specs.Prelude.{◌≡◌, ◌↔◌, IfOk, IfNone, IfSome, IsTrue, ◌≢◌, true, false, pos, slice_index_or, ◌≤◌};
ghost use Rattle.vsi_lattice.specs.{LatticeView.{class_named, order}, Order.{IsClass}};
ghost use Rattle.vsi_leak.specs.{Leaks.{EndsSo, IsLeak, IsOf, ShowNone, TellsApart, GoesOn, HasHalted, TakesSome}, Agreement.{AgreeIn}};
ghost use Rattle.vsi_image.specs.{Fields.{globals}, Meaning.{start}};
ghost use Rattle.vsi_compiler.specs.Observation.{AgreeAt};
ghost use Rattle.vsi_store.specs.View.{is_seen};

use crate::propose::word_at;
use std::alloc::{AllocError, Global};
use vsi_image::{Image, Verified};
use vsi_lattice::{Class, Lattice};
use vsi_machine::{Machine, Outcome};
use vsi_store::{RunEnding, sees};

/// The sign by which an observer tells two runs apart.
#[derive(Clone, Copy, PartialEq, Eq)]
pub enum Sign {
    /// Both runs halt, and a word that the class sees differs at their ends.
    Words,
    /// The first run halts within the budget, and the second doesn't.
    Endings,
    /// Both runs halt, after different numbers of instructions.
    Steps,
}

/// A run: the words of the globals at its start, and its ending.
#[derive(Drop)]
pub struct Run {
    pub store: Vec<i64>,
    pub ending: RunEnding,
}

/// Two runs from stores that agree at and below a class, and that an observer at the class can
/// distinguish.
#[derive(Drop)]
pub struct Leak {
    pub class: Class,
    pub sign: Sign,
    pub first: Run,
    pub second: Run,
}

/// The extent of a search: the budget of a run, the largest number of pairs of runs for a class and
/// a sign, and the seed of the random stores.
#[derive(Clone, Copy)]
pub struct Effort {
    pub budget: u64,
    pub tries: u64,
    pub seed: u64,
}

/// The result of a search.
#[derive(Drop)]
pub enum Finding {
    /// A leak.
    Leak(Leak),
    /// No leak was found in this many pairs of runs, which says nothing about other pairs.
    Nothing { pairs: u64 },
}

/// Whether the sign tells two ends apart at the class.
fn tells_apart(
    lattice: &Lattice,
    class: Class,
    image: &Image,
    sign: Sign,
    first: &RunEnding,
    second: &RunEnding,
) -> bool
    requires { IsClass (order lattice.now) class }
    ensures { IsTrue result ↔ TellsApart (class_named lattice.now) (order lattice.now) image.now
        class sign first.now second.now }
{
    match (first, second) {
        (
            RunEnding::Halted {
                instructions: n,
                words,
            },
            RunEnding::Halted {
                instructions: m,
                words: others,
            },
        ) => match sign {
            Sign::Words => !agree(lattice, class, image, words.as_slice(), others.as_slice()),
            Sign::Endings => false,
            Sign::Steps => n != m,
        },
        (RunEnding::Halted { .. }, RunEnding::OutOfBudget) => match sign {
            Sign::Words => false,
            Sign::Endings => true,
            Sign::Steps => false,
        },
        (RunEnding::OutOfBudget, _) => false,
    }
}

/// The run from a store for at most `budget` instructions.
fn run_from(
    alloc: Global,
    verified: &Verified,
    store: &[i64],
    budget: u64,
) -> Result<Run, AllocError>
    ensures store { IfOk result (λ run. run.store.items ≡ store.now) }
    ensures ending { IfOk result (λ run. EndsSo verified.now store.now budget run.ending) }
{
    let ending = ending(alloc, verified, store, budget)?;
    let store = store.to_vec(alloc)?;
    Ok(Run { store, ending })
}

/// The leak that two stores show at the class by this sign, and `None` exactly if they show none.
/// Both are run for at most `budget` instructions. With the sign `Endings`, the first run must
/// halt.
pub fn check_leak(
    alloc: Global,
    lattice: &Lattice,
    verified: &Verified,
    sign: Sign,
    class: Class,
    stores: (&[i64], &[i64]),
    budget: u64,
) -> Result<Option<Leak>, AllocError>
    requires { IsClass (order lattice.now) class }
    ensures leak { IfOk result (λ o. IfSome o
        (IsLeak (class_named lattice.now) (order lattice.now) verified.now budget)) }
    ensures asked { IfOk result (λ o. IfSome o
        (λ leak. IsOf sign class stores.entry.0.now stores.entry.1.now leak)) }
    ensures none { IfOk result (λ o. IfNone o
        (ShowNone (class_named lattice.now) (order lattice.now) verified.now budget
        sign class stores.entry.0.now stores.entry.1.now)) }
{
    let image = verified.image();
    let (first, second) = stores;
    let count = image.globals.len();
    if first.len() != count || second.len() != count {
        return Ok(None);
    }
    if !agree(lattice, class, image, first, second) {
        return Ok(None);
    }
    let one = run_from(alloc, verified, first, budget)?;
    let other = run_from(alloc, verified, second, budget)?;
    if !tells_apart(lattice, class, image, sign, &one.ending, &other.ending) {
        return Ok(None);
    }
    Ok(Some(Leak {
        class,
        sign,
        first: one,
        second: other,
    }))
}

/// Whether the class sees a global of this class name, and its words differ at this position.
fn differs(
    lattice: &Lattice,
    class: Class,
    name: &[u8],
    place: usize,
    first: &[i64],
    second: &[i64],
) -> bool
    requires { IsClass (order lattice.now) class }
    ensures seen { IsTrue result →
        is_seen (class_named lattice.now) (order lattice.now) class name.now ≡ true }
    ensures apart { IsTrue result →
        slice_index_or first.now place (pos 0) ≢ slice_index_or second.now place (pos 0) }
    ensures equal { result ≡ false →
        is_seen (class_named lattice.now) (order lattice.now) class name.now ≡ true →
        slice_index_or first.now place (pos 0) ≡ slice_index_or second.now place (pos 0) }
{
    if word_at(first, place) == word_at(second, place) {
        false
    } else {
        sees(lattice, class, name)
    }
}

/// Whether the words agree in all globals that the class sees.
fn agree_words(
    lattice: &Lattice,
    class: Class,
    variables: &[(Vec<u8>, Vec<u8>)],
    first: &[i64],
    second: &[i64],
) -> bool
    requires { IsClass (order lattice.now) class }
    ensures { IsTrue result ↔ AgreeIn (class_named lattice.now) (order lattice.now)
        (globals variables.now) class first.now second.now }
{
    for (i, variable) in variables.iter().enumerate() {
        let name = variable.1.as_slice();
        if differs(lattice, class, name, i, first, second) {
            return false;
        }
    }
    true
}

/// Whether two stores of the image agree at and below the class.
pub(crate) fn agree(
    lattice: &Lattice,
    class: Class,
    image: &Image,
    first: &[i64],
    second: &[i64],
) -> bool
    requires { IsClass (order lattice.now) class }
    ensures { IsTrue result ↔ AgreeAt (class_named lattice.now) (order lattice.now)
        image.now class first.now second.now }
{
    agree_words(lattice, class, image.globals.as_slice(), first, second)
}

/// A machine at the start of the image, with the store's words in the globals.
pub(crate) fn started<'a>(
    alloc: Global,
    verified: &'a Verified,
    store: &[i64],
) -> Result<Machine<'a>, AllocError>
    ensures image { IfOk result (λ m. m.image ≡ verified.now) }
    ensures state { IfOk result (λ m. m.state ≡ start verified.now store.now) }
{
    match Machine::new(alloc, verified, store) {
        Ok(machine) => Ok(machine),
        Err(_) => Err(AllocError),
    }
}

/// Whether the run has not halted within the budget.
fn goes_on(
    alloc: Global,
    verified: &Verified,
    store: &[i64],
    budget: u64,
) -> Result<bool, AllocError>
    ensures going { IfOk result (λ b. IsTrue b → GoesOn verified.now store.now budget) }
    ensures halted { IfOk result (λ b. b ≡ false → HasHalted verified.now store.now budget) }
{
    let mut machine = started(alloc, verified, store)?;
    match machine.run(budget) {
        Outcome::Halted => Ok(false),
        Outcome::OutOfBudget => Ok(true),
    }
}

/// The number of instructions of a run that halts within the budget. It doubles a lower bound as
/// long as the run goes on within the double, and then halves the distance to the upper bound.
fn instructions_of(
    alloc: Global,
    verified: &Verified,
    store: &[i64],
    budget: u64,
) -> Result<u64, AllocError>
    requires { HasHalted verified.now store.now budget }
    ensures within { IfOk result (λ n. n ≤ budget) }
    ensures taken { IfOk result (TakesSome verified.now store.now) }
{
    let mut few: u64 = 0;
    let mut enough = budget;
    while enough - few > 1 {
        let middle = few + (few + 1).min((enough - few) / 2);
        if goes_on(alloc, verified, store, middle)? {
            few = middle;
        } else {
            enough = middle;
        }
    }
    Ok(enough)
}

/// The ending of the run within the budget.
pub(crate) fn ending(
    alloc: Global,
    verified: &Verified,
    store: &[i64],
    budget: u64,
) -> Result<RunEnding, AllocError>
    ensures { IfOk result (EndsSo verified.now store.now budget) }
{
    let mut machine = started(alloc, verified, store)?;
    match machine.run(budget) {
        Outcome::Halted => {
            let instructions = instructions_of(alloc, verified, store, budget)?;
            let words = machine.store().to_vec(alloc)?;
            Ok(RunEnding::Halted {
                instructions,
                words,
            })
        }
        Outcome::OutOfBudget => Ok(RunEnding::OutOfBudget),
    }
}
