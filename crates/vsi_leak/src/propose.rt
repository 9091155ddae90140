//! Stores that seem to show a leak. `check_leak` checks what is proposed here.

ghost use Rattle.std.specs.Prelude.{◌≡◌, pos, slice_index_or};

use crate::check::{Sign, ending, started};
use rand_core::Rng;
use rand_xoshiro::SplitMix64;
use std::alloc::{AllocError, Global};
use vsi_image::{Image, Instr, Verified};
use vsi_machine::Outcome;
use vsi_store::RunEnding;

/// The conditions of a search for a pair of runs: an image, the globals that the class sees, a sign
/// and a budget.
#[derive(Drop)]
pub(crate) struct Probe<'a> {
    pub(crate) alloc: Global,
    pub(crate) verified: &'a Verified,
    pub(crate) seen: Vec<bool>,
    pub(crate) sign: Sign,
    pub(crate) budget: u64,
}

/// Whether the code reads a slot.
pub(crate) fn reads(image: &Image, place: usize) -> bool {
    for instr in image.code.iter() {
        if let Instr::Load(slot) = instr {
            if usize::from(*slot) == place {
                return true;
            }
        }
    }
    false
}

impl<'a> Probe<'a> {
    /// Whether the runs from two stores seem to be distinguishable. With `Endings` either may halt.
    pub(crate) fn distinguishes(&self, first: &[i64], second: &[i64]) -> Result<bool, AllocError> {
        let mut one = started(self.alloc, self.verified, first)?;
        let mut other = started(self.alloc, self.verified, second)?;
        let outcomes = (one.run(self.budget), other.run(self.budget));
        match (self.sign, outcomes) {
            (Sign::Words, (Outcome::Halted, Outcome::Halted)) => {
                let words = self.seen.iter().zip(one.store().iter());
                for ((is_seen, word), other_word) in words.zip(other.store().iter()) {
                    if *is_seen && *word != *other_word {
                        return Ok(true);
                    }
                }
                Ok(false)
            }
            (Sign::Endings, (first_outcome, second_outcome)) => {
                Ok(first_outcome != second_outcome)
            }
            (Sign::Steps, (Outcome::Halted, Outcome::Halted)) => {
                let count = self.instructions(first)?;
                Ok(self.instructions(second)? != count)
            }
            _ => Ok(false),
        }
    }

    /// The number of instructions that a halting run takes, or 0 for any other run.
    fn instructions(&self, store: &[i64]) -> Result<u64, AllocError> {
        match ending(self.alloc, self.verified, store, self.budget)? {
            RunEnding::Halted { instructions, .. } => Ok(instructions),
            RunEnding::OutOfBudget => Ok(0),
        }
    }
}

/// The most rounds over all globals.
const ROUNDS: u32 = 200;

/// Two stores, made smaller and more alike.
#[derive(Drop)]
pub(crate) struct Pair {
    pub(crate) first: Vec<i64>,
    pub(crate) second: Vec<i64>,
}

impl Pair {
    /// Tries other words at a position, and keeps them if the runs still seem to be
    /// distinguishable. Returns whether it kept them.
    fn attempt(
        &mut self,
        probe: &Probe<'_>,
        place: usize,
        words: (i64, i64),
    ) -> Result<bool, AllocError> {
        let before = (word_at(&self.first, place), word_at(&self.second, place));
        if before == words {
            return Ok(false);
        }
        put(&mut self.first, place, words.0);
        put(&mut self.second, place, words.1);
        if probe.distinguishes(&self.first, &self.second)? {
            return Ok(true);
        }
        put(&mut self.first, place, before.0);
        put(&mut self.second, place, before.1);
        Ok(false)
    }

    /// Tries smaller words at a position: 0 first, then the word less a part of it. With
    /// `is_first`, these are words of the first store, and of the second too if the two are equal.
    /// Otherwise they are words of the second store, if its word differs from the first store's.
    fn lessen(
        &mut self,
        probe: &Probe<'_>,
        place: usize,
        is_first: bool,
    ) -> Result<bool, AllocError> {
        let (one, other) = (word_at(&self.first, place), word_at(&self.second, place));
        let mut part = if is_first { one } else { other };
        for _ in 0..64 {
            if part == 0 || (one == other && !is_first) {
                break;
            }
            let words = if !is_first {
                (one, other.wrapping_sub(part))
            } else if one == other {
                (one.wrapping_sub(part), one.wrapping_sub(part))
            } else {
                (one.wrapping_sub(part), other)
            };
            if self.attempt(probe, place, words)? {
                return Ok(true);
            }
            part = part / 2;
        }
        Ok(false)
    }

    /// Repeats rounds over all globals until nothing becomes smaller.
    pub(crate) fn shrink(&mut self, probe: &Probe<'_>) -> Result<(), AllocError> {
        for _ in 0..ROUNDS {
            let mut changed = false;
            for place in 0..self.first.len() {
                // Equal words where they differ.
                let (one, other) = (word_at(&self.first, place), word_at(&self.second, place));
                if self.attempt(probe, place, (one, one))?
                    || self.attempt(probe, place, (other, other))?
                {
                    changed = true;
                }
                if self.lessen(probe, place, true)? || self.lessen(probe, place, false)? {
                    changed = true;
                }
                // The absolute values of words below 0.
                let (one, other) = (word_at(&self.first, place), word_at(&self.second, place));
                let words = (one.saturating_abs(), other.saturating_abs());
                if self.attempt(probe, place, words)? {
                    changed = true;
                }
            }
            if !changed {
                break;
            }
        }
        Ok(())
    }
}

/// The largest number of words taken from a program.
const MOST_VALUES: usize = 256;

/// Adds a word, unless it is there or the list is full.
fn add(values: &mut Vec<i64>, word: i64) -> Result<(), AllocError> {
    if values.len() < MOST_VALUES && !values.contains(&word) {
        values.push(word)?;
    }
    Ok(())
}

/// 1, -1 and 0, the numbers in the code with their neighbours, and the extremes.
pub(crate) fn values_of(alloc: Global, image: &Image) -> Result<Vec<i64>, AllocError> {
    let mut values = Vec::new(alloc);
    for word in [1, 0, -1, i64::MAX, i64::MIN].iter() {
        add(&mut values, *word)?;
    }
    for instr in image.code.iter() {
        if let Instr::Push(word) = instr {
            add(&mut values, *word)?;
            add(&mut values, word.wrapping_add(1))?;
            add(&mut values, word.wrapping_sub(1))?;
        }
    }
    Ok(values)
}

/// A random number below a bound, or 0 if the bound is 0.
pub(crate) fn random_below(random: &mut SplitMix64, bound: usize) -> usize {
    match random.next_u64().checked_rem(bound as u64) {
        Some(number) => number as usize,
        None => 0,
    }
}

/// A random word: usually one of the values, rarely any.
pub(crate) fn random_word(random: &mut SplitMix64, values: &[i64]) -> i64 {
    if random_below(random, 8) == 0 {
        return random.next_u64().cast_signed();
    }
    let place = random_below(random, values.len());
    word_at(values, place)
}

/// The word at a position, or 0 if there is none.
pub(crate) fn word_at(words: &[i64], place: usize) -> i64
    ensures { result ≡ slice_index_or words.now place (pos 0) }
{
    if place < words.len() { words[place] } else { 0 }
}

/// Puts a word at a position, if it exists.
pub(crate) fn put(words: &mut [i64], place: usize, word: i64) {
    if place < words.len() {
        words[place] = word;
    }
}
