//! An image beside a reference: both run from the same random stores with the same random inputs,
//! and the words of their released outputs are compared. This is a test: it finds some differences,
//! and proves nothing about the words that it doesn't draw.

ghost use Rattle.std.specs.Prelude.{◌≡◌, IfOk, IfSome};
ghost use Rattle.vsi_conform.specs.Reference as spec;

use crate::conforming::are_same;
use crate::interface::Interface;
use crate::keys::Cycle;
use crate::reaching::is_among;
use rand_core::{Rng, SeedableRng};
use rand_xoshiro::SplitMix64;
use std::alloc::{AllocError, Global};
use vsi_image::{Instr, Verified};
use vsi_lattice::Lattice;
use vsi_machine::{Machine, Outcome};
use vsi_store::sees;

/// The runs of a boundary.
const RUNS: usize = 64;

/// The cycles of a run.
const CYCLES: usize = 32;

/// The most instructions of a cycle.
const MOST_INSTRUCTIONS: u64 = 100_000;

/// The seed of all trials.
const SEED: u64 = 1;

/// How an image differs from the reference in a cycle.
#[derive(Clone, Copy, PartialEq, Eq, Debug)]
pub enum Contrast {
    /// A released output, by its number in the interface, has another word.
    Word {
        global: usize,
        word: i64,
        expected: i64,
    },
    /// Only the reference halts within this number of instructions.
    Endless(u64),
    /// Only the image halts within this number of instructions.
    Halts(u64),
}

/// The first difference from the reference.
#[derive(Clone, Copy, PartialEq, Eq, Debug)]
pub struct Difference {
    /// The number of the boundary, from 0.
    pub boundary: usize,
    /// The number of the run, from 0.
    pub run: usize,
    /// The number of the cycle, from 0.
    pub cycle: usize,
    pub contrast: Contrast,
}

/// The result of a trial of an image beside a reference.
#[derive(Clone, Copy, PartialEq, Eq, Debug)]
pub enum Comparison {
    /// No difference in so many runs and cycles.
    Alike { runs: usize, cycles: usize },
    /// The first difference.
    Apart(Difference),
    /// The reference has no global with the name and the class of this one of the interface.
    Lacking(usize),
    /// The reference has this global, by its place, and the interface doesn't.
    Extra(usize),
    /// There is no program to compare, or its globals aren't those of the interface.
    Untried,
}

impl Comparison {
    /// Whether no difference was found.
    pub fn agrees(&self) -> bool
        ensures agrees { result ≡ spec.is_alike self.now }
    {
        matches!(self, Comparison::Alike { .. })
    }
}

/// An interface with its boundaries, and the image of its reference.
#[derive(Clone, Copy)]
pub struct Reference<'a> {
    pub interface: &'a Interface,
    pub cycles: &'a [Cycle],
    pub verified: &'a Verified,
}

/// The inputs and the released outputs of a boundary, as numbers of globals of the interface.
#[derive(Drop)]
struct Boundary {
    inputs: Vec<usize>,
    outputs: Vec<usize>,
}

/// An image with its store, and the place of each global of the interface in it.
#[derive(Drop)]
struct Side<'a> {
    verified: &'a Verified,
    places: Vec<usize>,
    store: Vec<i64>,
}

/// The place of a global among others, by its name and its class.
fn place_of(globals: &[(Vec<u8>, Vec<u8>)], global: &(Vec<u8>, Vec<u8>)) -> Option<usize> {
    globals.iter().position(|found| are_same(found, global))
}

impl<'a> Side<'a> {
    /// An image with a store of zeros, beside an interface with these globals.
    fn of(
        alloc: Global,
        verified: &'a Verified,
        globals: &[(Vec<u8>, Vec<u8>)],
    ) -> Result<Side<'a>, AllocError> {
        let mut places = Vec::new(alloc);
        for global in globals {
            let Some(place) = place_of(&verified.image().globals, global) else {
                break;
            };
            places.push(place)?;
        }
        let mut store = Vec::new(alloc);
        store.resize(verified.image().globals.len(), 0)?;
        Ok(Side {
            verified,
            places,
            store,
        })
    }

    /// The word of a global, by its number in the interface.
    fn word(&self, number: usize) -> i64 {
        let place = self.places.get(number).copied();
        let word = place.and_then(|place| self.store.get(place));
        word.copied().unwrap_or(0)
    }

    /// Sets a global, by its number in the interface.
    fn set(&mut self, number: usize, word: i64) {
        if let Some(place) = self.places.get(number)
            && let Some(found) = self.store.get_mut(*place)
        {
            *found = word;
        }
    }

    /// Runs a cycle, and returns whether it halts within the budget. Only then the store changes.
    fn run(&mut self, alloc: Global, budget: u64) -> Result<bool, AllocError> {
        let Ok(mut machine) = Machine::new(alloc, self.verified, &self.store) else {
            return Err(AllocError);
        };
        match machine.run(budget) {
            Outcome::Halted => {
                let store = machine.store().to_vec(alloc)?;
                self.store = store;
                Ok(true)
            }
            Outcome::OutOfBudget => Ok(false),
        }
    }
}

/// Both images, with their generator and the words to draw around.
#[derive(Drop)]
struct Trial<'a> {
    alloc: Global,
    image: Side<'a>,
    reference: Side<'a>,
    constants: Vec<i64>,
    random: SplitMix64,
    budget: u64,
}

/// The boundary of a class by numbers: the globals that a line of the class may set, and those that
/// it releases.
fn boundary_of(
    alloc: Global,
    lattice: &Lattice,
    interface: &Interface,
    cycle: &Cycle,
) -> Result<Boundary, AllocError> {
    let class = lattice.class_named(&cycle.class);
    let mut inputs = Vec::new(alloc);
    let mut outputs = Vec::new(alloc);
    for (number, global) in interface.globals.iter().enumerate() {
        let is_input = match (&cycle.inputs, class) {
            (Some(names), _) => is_among(names, &global.0),
            (None, Some(class)) => sees(lattice, class, &global.1),
            (None, None) => false,
        };
        if is_input {
            inputs.push(number)?;
        }
        if is_among(&cycle.released, &global.0) {
            outputs.push(number)?;
        }
    }
    Ok(Boundary { inputs, outputs })
}

/// The first of these outputs in which two stores differ.
fn contrast_of(image: &Side, reference: &Side, outputs: &[usize]) -> Option<Contrast>
    ensures { IfSome result spec.IsContrast }
{
    for global in outputs {
        let word = image.word(*global);
        let expected = reference.word(*global);
        if word != expected {
            return Some(Contrast::Word {
                global: *global,
                word,
                expected,
            });
        }
    }
    None
}

impl<'a> Trial<'a> {
    /// Draws a word for a global of the interface, in both stores.
    fn draw(&mut self, number: usize) {
        let random = &mut self.random;
        let constants = &self.constants;
        let store = &self.reference.store;
        let word = match below(random, 16) {
            0 | 1 => 0,
            2 | 3 => 1,
            4 | 5 | 6 => (below(random, 11) as u64).cast_signed(),
            7 | 8 => one_of(random, constants),
            9 | 10 => {
                let mut bound: usize = 10;
                for _ in 0..below(random, MOST_DIGITS) {
                    bound = bound.saturating_mul(10);
                }
                (below(random, bound) as u64).cast_signed()
            }
            11 | 12 => near(random, store),
            13 | 14 => near(random, store).wrapping_add(one_of(random, constants)),
            _ => random.next_u64().cast_signed(),
        };
        self.image.set(number, word);
        self.reference.set(number, word);
    }

    /// A run of both images from equal stores: how many cycles are alike, and how the next one
    /// differs. Each cycle draws most of the inputs. If neither halts within the budget, the run is
    /// over.
    fn run(&mut self, boundary: &Boundary) -> Result<(usize, Option<Contrast>), AllocError>
        ensures { IfOk result (λ pair. IfSome pair.1 spec.IsContrast) }
    {
        for number in 0..self.reference.places.len() {
            self.draw(number);
        }
        for cycle in 0..CYCLES {
            for number in &boundary.inputs {
                if below(&mut self.random, 4) != 0 {
                    self.draw(*number);
                }
            }
            let is_halted = self.image.run(self.alloc, self.budget)?;
            let contrast = match (is_halted, self.reference.run(self.alloc, self.budget)?) {
                (true, true) => contrast_of(&self.image, &self.reference, &boundary.outputs),
                (true, false) => Some(Contrast::Halts(self.budget)),
                (false, true) => Some(Contrast::Endless(self.budget)),
                (false, false) => return Ok((cycle, None)),
            };
            if contrast.is_some() {
                return Ok((cycle, contrast));
            }
        }
        Ok((CYCLES, None))
    }
}

/// The trials of all boundaries that release outputs.
fn tried(
    trial: &mut Trial,
    lattice: &Lattice,
    reference: Reference<'_>,
) -> Result<Comparison, AllocError>
    ensures { IfOk result spec.IsFound }
{
    let mut runs: usize = 0;
    let mut cycles: usize = 0;
    for (number, cycle) in reference.cycles.iter().enumerate() {
        let boundary = boundary_of(trial.alloc, lattice, reference.interface, cycle)?;
        if boundary.outputs.is_empty() {
            continue;
        }
        for run in 0..RUNS {
            let (cycle, contrast) = trial.run(&boundary)?;
            if let Some(contrast) = contrast {
                return Ok(Comparison::Apart(Difference {
                    boundary: number,
                    run,
                    cycle,
                    contrast,
                }));
            }
            runs = runs.saturating_add(1);
            cycles = cycles.saturating_add(cycle);
        }
    }
    Ok(Comparison::Alike { runs, cycles })
}

/// The numbers in the code of two images, each with its neighbours and none twice, up to so many.
fn constants_of(
    alloc: Global,
    reference: &Verified,
    verified: &Verified,
) -> Result<Vec<i64>, AllocError> {
    let mut constants = Vec::new(alloc);
    for image in [reference.image(), verified.image()] {
        for instr in image.code.iter() {
            if let Instr::Push(word) = instr {
                for near in [*word, word.wrapping_add(1), word.wrapping_sub(1)] {
                    if constants.len() < MOST_CONSTANTS && !constants.contains(&near) {
                        constants.push(near)?;
                    }
                }
            }
        }
    }
    Ok(constants)
}

/// The first global of an image that an interface doesn't have.
fn extra_of(verified: &Verified, interface: &Interface) -> Option<usize> {
    let mut globals = verified.image().globals.iter();
    globals.position(|global| place_of(&interface.globals, global).is_none())
}

/// Runs an image beside a reference, for each boundary that releases outputs: 64 runs of 32 cycles
/// from random stores with random inputs, each cycle within the budget and 100,000 instructions.
/// Equal arguments give equal answers. Without an image only the globals of the reference are
/// compared with those of the interface.
pub fn compare_reference(
    alloc: Global,
    lattice: &Lattice,
    verified: Option<&Verified>,
    reference: Reference<'_>,
    budget: u64,
) -> Result<Comparison, AllocError>
    ensures found { IfOk result spec.IsFound }
{
    let interface = reference.interface;
    let expected = Side::of(alloc, reference.verified, &interface.globals)?;
    if expected.places.len() < interface.globals.len() {
        return Ok(Comparison::Lacking(expected.places.len()));
    }
    if let Some(place) = extra_of(reference.verified, interface) {
        return Ok(Comparison::Extra(place));
    }
    let Some(verified) = verified else {
        return Ok(Comparison::Untried);
    };
    let image = Side::of(alloc, verified, &interface.globals)?;
    if image.places.len() < interface.globals.len() || extra_of(verified, interface).is_some() {
        return Ok(Comparison::Untried);
    }
    let mut trial = Trial {
        alloc,
        image,
        reference: expected,
        constants: constants_of(alloc, reference.verified, verified)?,
        random: SplitMix64::seed_from_u64(SEED),
        budget: budget.min(MOST_INSTRUCTIONS),
    };
    tried(&mut trial, lattice, reference)
}

/// The most constants that are kept.
const MOST_CONSTANTS: usize = 512;

/// The most digits of a number that is drawn by its digits.
const MOST_DIGITS: usize = 6;

/// A random number below a bound, or 0 if the bound is 0.
fn below(random: &mut SplitMix64, bound: usize) -> usize {
    random.next_u64().checked_rem(bound as u64).unwrap_or(0) as usize
}

/// One of the words, or 0 if there is none.
fn one_of(random: &mut SplitMix64, words: &[i64]) -> i64 {
    let place = below(random, words.len());
    words.get(place).copied().unwrap_or(0)
}

/// One of the words, or a neighbour of it.
fn near(random: &mut SplitMix64, words: &[i64]) -> i64 {
    let word = one_of(random, words);
    match below(random, 4) {
        0 => word.wrapping_add(1),
        1 => word.wrapping_sub(1),
        _ => word,
    }
}
