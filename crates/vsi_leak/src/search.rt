//! The search for a leak of an image at a class.

ghost use Rattle.std.specs.Prelude.{◌≡◌, ◌≤◌, length, IfOk, IfNone, IfSome};
ghost use Rattle.vsi_lattice.specs.{LatticeView.{class_named, order}, Order.{IsClass}};
ghost use Rattle.vsi_leak.specs.Leaks.{IsFinding, IsAsked, IsLeakBy, LeavesNoOne, NoOneShows, ShowNoneEither, TellsAtMost};
ghost use Rattle.vsi_leak.specs.Leaks as spec;

use crate::check::{Effort, Finding, Leak, Sign, check_leak};
use crate::propose::{Pair, Probe, put, random_below, random_word, reads, values_of};
use rand_core::SeedableRng;
use rand_xoshiro::SplitMix64;
use std::alloc::{AllocError, Global};
use vsi_image::{Image, Verified};
use vsi_lattice::{Class, Lattice};
use vsi_store::sees;

/// The globals to change, and the words to try.
#[derive(Drop)]
struct Plan {
    sources: Vec<usize>,
    read: Vec<usize>,
    values: Vec<i64>,
}

/// A store of zeros.
fn zeros(alloc: Global, image: &Image) -> Result<Vec<i64>, AllocError>
    ensures { IfOk result (λ words. words.items ≡ spec.zeros image.now) }
{
    let mut words = Vec::new(alloc);
    words.resize(image.globals.len(), 0)?;
    Ok(words)
}

/// Changes one hidden global at a time, from a store of zeros, to each of the words. Returns
/// whether the last pair seems to show a leak, and how many pairs were tried.
fn sweep(
    probe: &Probe<'_>,
    plan: &Plan,
    pair: &mut Pair,
    tries: u64,
) -> Result<(bool, u64), AllocError>
    ensures { IfOk result (λ r. r.1 ≤ tries) }
{
    let mut pairs: u64 = 0;
    for value in plan.values.iter() {
        for place in plan.sources.iter() {
            if pairs >= tries {
                return Ok((false, pairs));
            }
            pairs = pairs.saturating_add(1);
            put(&mut pair.second, *place, *value);
            if probe.distinguishes(&pair.first, &pair.second)? {
                return Ok((true, pairs));
            }
            put(&mut pair.second, *place, 0);
        }
    }
    Ok((false, pairs))
}

/// Tries pairs until one seems to show a leak. Returns whether one does, and how many were tried.
fn propose(
    probe: &Probe<'_>,
    plan: &Plan,
    pair: &mut Pair,
    effort: Effort,
) -> Result<(bool, u64), AllocError>
    ensures { IfOk result (λ r. r.1 ≤ effort.tries) }
{
    if plan.sources.is_empty() {
        return Ok((false, 0));
    }
    let (found, swept) = sweep(probe, plan, pair, effort.tries)?;
    if found {
        return Ok((true, swept));
    }
    let mut random = SplitMix64::seed_from_u64(effort.seed);
    for pairs in swept..effort.tries {
        // Random words for the globals that are read, and other words for one or several hidden
        // globals.
        for place in plan.read.iter() {
            let word = if random_below(&mut random, 2) == 0 {
                0
            } else {
                random_word(&mut random, &plan.values)
            };
            put(&mut pair.first, *place, word);
            put(&mut pair.second, *place, word);
        }
        let chosen = random_below(&mut random, plan.sources.len());
        let several = random_below(&mut random, 4) == 0;
        for (number, place) in plan.sources.iter().enumerate() {
            if number == chosen || (several && random_below(&mut random, 2) == 0) {
                put(
                    &mut pair.second,
                    *place,
                    random_word(&mut random, &plan.values),
                );
            }
        }
        if probe.distinguishes(&pair.first, &pair.second)? {
            return Ok((true, pairs + 1));
        }
    }
    Ok((false, effort.tries))
}

/// The leak that two stores show, in either order.
fn leak_of(
    alloc: Global,
    lattice: &Lattice,
    verified: &Verified,
    sign: Sign,
    class: Class,
    stores: (&[i64], &[i64]),
    budget: u64,
) -> Result<Option<Leak>, AllocError>
    requires { IsClass (order lattice.now) class }
    ensures leak { IfOk result (λ o. IfSome o
        (IsLeakBy (class_named lattice.now) (order lattice.now) verified.now budget sign class)) }
    ensures none { IfOk result (λ o. IfNone o
        (ShowNoneEither (class_named lattice.now) (order lattice.now) verified.now budget
        sign class stores.entry.0.now stores.entry.1.now)) }
{
    let (one, other) = stores;
    match check_leak(alloc, lattice, verified, sign, class, (one, other), budget)? {
        Some(leak) => Ok(Some(leak)),
        None => check_leak(alloc, lattice, verified, sign, class, (other, one), budget),
    }
}

/// The leak that a 1 in a single global shows next to a store of zeros. The search has already
/// tried these smallest pairs; the check here proves that none of them shows a leak.
fn leak_of_ones(
    alloc: Global,
    lattice: &Lattice,
    verified: &Verified,
    sign: Sign,
    class: Class,
    budget: u64,
) -> Result<Option<Leak>, AllocError>
    requires { IsClass (order lattice.now) class }
    ensures leak { IfOk result (λ o. IfSome o
        (IsLeakBy (class_named lattice.now) (order lattice.now) verified.now budget sign class)) }
    ensures none { IfOk result (λ o. IfNone o
        (NoOneShows (class_named lattice.now) (order lattice.now) verified.now budget
        sign class (length verified.now.globals.items))) }
{
    let image = verified.image();
    let first = zeros(alloc, image)?;
    for place in 0..image.globals.len() {
        let mut second = zeros(alloc, image)?;
        second[place] = 1;
        let stores = (first.as_slice(), second.as_slice());
        match leak_of(alloc, lattice, verified, sign, class, stores, budget)? {
            Some(leak) => return Ok(Some(leak)),
            None => {}
        }
    }
    Ok(None)
}

/// The plan of a probe: the globals to change, which the code reads and the class doesn't see, the
/// preferred ones first; all globals that the code reads; and the words to try.
fn plan_of(probe: &Probe<'_>, image: &Image, preferred: &[usize]) -> Result<Plan, AllocError> {
    let seen = &probe.seen;
    let mut sources = Vec::new(probe.alloc);
    for place in preferred.iter().copied().chain(0..seen.len()) {
        let is_hidden = place < seen.len() && !seen[place];
        if is_hidden && reads(image, place) && !sources.contains(&place) {
            sources.push(place)?;
        }
    }
    let mut read = Vec::new(probe.alloc);
    for place in 0..image.globals.len() {
        if reads(image, place) {
            read.push(place)?;
        }
    }
    let values = values_of(probe.alloc, image)?;
    Ok(Plan {
        sources,
        read,
        values,
    })
}

/// Two stores of an image that seem to show a leak at a class by a sign, made small, and the number
/// of pairs tried; `None` if no pair was found. For words, no pair is tried if the class sees
/// nothing.
fn proposed(
    alloc: Global,
    lattice: &Lattice,
    verified: &Verified,
    sign: Sign,
    class: Class,
    preferred: &[usize],
    effort: Effort,
) -> Result<(Option<Pair>, u64), AllocError>
    requires { IsClass (order lattice.now) class }
    ensures { IfOk result (λ r. r.1 ≤ effort.tries) }
{
    let image = verified.image();
    let mut seen = Vec::new(alloc);
    for variable in image.globals.iter() {
        seen.push(sees(lattice, class, variable.1.as_slice()))?;
    }
    if matches!(sign, Sign::Words) && !seen.contains(&true) {
        return Ok((None, 0));
    }
    let probe = Probe {
        alloc,
        verified,
        seen,
        sign,
        budget: effort.budget,
    };
    let plan = plan_of(&probe, image, preferred)?;
    let first = zeros(alloc, image)?;
    let second = zeros(alloc, image)?;
    let mut pair = Pair { first, second };
    let (found, pairs) = propose(&probe, &plan, &mut pair, effort)?;
    if !found {
        return Ok((None, pairs));
    }
    pair.shrink(&probe)?;
    Ok((Some(pair), pairs))
}

/// Like `find_leak`, but changes the hidden globals at these positions first.
pub(crate) fn find_leak_from(
    alloc: Global,
    lattice: &Lattice,
    verified: &Verified,
    sign: Sign,
    class: Class,
    preferred: &[usize],
    effort: Effort,
) -> Result<Finding, AllocError>
    requires { IsClass (order lattice.now) class }
    ensures leak { IfOk result
        (IsFinding (class_named lattice.now) (order lattice.now) verified.now effort.budget) }
    ensures asked { IfOk result (IsAsked sign class) }
    ensures tried { IfOk result (TellsAtMost effort.tries) }
    ensures ones { IfOk result (LeavesNoOne (class_named lattice.now) (order lattice.now)
        verified.now effort.budget sign class effort.tries) }
{
    let (proposal, pairs) = proposed(alloc, lattice, verified, sign, class, preferred, effort)?;
    if let Some(pair) = proposal {
        let stores = (pair.first.as_slice(), pair.second.as_slice());
        let checked = leak_of(alloc, lattice, verified, sign, class, stores, effort.budget)?;
        if let Some(leak) = checked {
            return Ok(Finding::Leak(leak));
        }
    }
    if effort.tries < verified.image().globals.len() as u64 {
        return Ok(Finding::Nothing { pairs });
    }
    match leak_of_ones(alloc, lattice, verified, sign, class, effort.budget)? {
        Some(leak) => Ok(Finding::Leak(leak)),
        None => Ok(Finding::Nothing { pairs }),
    }
}

/// Searches an image for a leak at the class by this sign. First it changes each hidden global
/// alone in a store of zeros, to words of the program and their neighbours. Then it draws stores
/// from the seed. It makes a leak small before it returns it: few globals that differ, and small
/// numbers. Equal arguments give equal answers.
pub fn find_leak(
    alloc: Global,
    lattice: &Lattice,
    verified: &Verified,
    sign: Sign,
    class: Class,
    effort: Effort,
) -> Result<Finding, AllocError>
    requires { IsClass (order lattice.now) class }
    ensures leak { IfOk result
        (IsFinding (class_named lattice.now) (order lattice.now) verified.now effort.budget) }
    ensures asked { IfOk result (IsAsked sign class) }
    ensures tried { IfOk result (TellsAtMost effort.tries) }
    ensures ones { IfOk result (LeavesNoOne (class_named lattice.now) (order lattice.now)
        verified.now effort.budget sign class effort.tries) }
{
    find_leak_from(alloc, lattice, verified, sign, class, &[], effort)
}
