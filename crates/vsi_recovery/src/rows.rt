//! An order as rows of bits, and whether it is a lattice once it has more classes and pairs.

ghost use Rattle.std.specs.Prelude.{◌≡◌, ℕ, ◌<◌, ◌≤◌, length, vec_len, IfOk, IsTrue, true, ◌+◌, ◌++◌, IfSome};
ghost use Rattle.vsi_lattice.specs.{Pairs.{Leq, ArePairsBelow, IsDeclared}, Rows.{row_has, widened, AddsPair}, Order.{Below}};
ghost use Rattle.vsi_recovery.specs.Completed.{IsLatticeWith};

use std::alloc::{AllocError, Global};
use vsi_lattice::{Class, Classes, MaskLattice, OrderError};

/// The row, with all of `reached` too where it has bit `low`.
#[tactic(auto, unfolding(vsi_lattice::specs::Rows::widened), using(std::proofs::lemmas::Nat::Bits::shr_and_one))]
fn widen(row: u64, low: u8, reached: u64) -> u64
    requires { low < 64 }
    ensures { result ≡ widened low reached row }
{
    if row >> low & 1 != 0 {
        row | reached
    } else {
        row
    }
}

/// Puts each class that is below `low` below all that `high` is below.
fn add_pair(rows: &mut [u64], low: u8, high: u8)
    requires low { low < 64 }
    requires high { high < length rows.old }
    ensures { AddsPair (row_has rows.old) (row_has rows.new) low high }
{
    let reached = rows[high as usize];
    for row in rows.iter_mut() {
        *row = widen(*row, low, reached);
    }
}

/// The order that the pairs of the classes declare.
pub(crate) fn rows_of(
    alloc: Global,
    count: usize,
    pairs: &[(u8, u8)],
) -> Result<Vec<u64>, AllocError>
    requires { count ≤ 64 }
    ensures len { IfOk result (λ rows. vec_len rows ≡ count) }
    ensures sound { IfOk result
        (λ rows. (a b : ℕ) → row_has rows.items a b ≡ true → Leq pairs.now a b) }
{
    // At first each class is below itself alone.
    let mut rows = Vec::with_capacity(alloc, count)?;
    for a in 0..count {
        rows.push(1u64 << a)?;
    }
    for i in 0..pairs.len() {
        let (low, high) = pairs[i];
        if usize::from(low) >= rows.len() {
            continue;
        }
        if usize::from(high) >= rows.len() {
            continue;
        }
        add_pair(&mut rows, low, high);
    }
    Ok(rows)
}

/// Whether the second class is in the row of the first one.
#[tactic(auto, unfolding(vsi_lattice::specs::Rows::row_has), using(std::proofs::lemmas::Nat::Bits::shr_and_one))]
pub(crate) fn is_in(rows: &[u64], low: usize, high: usize) -> bool
    requires low { low < length rows.now }
    requires high { high < 64 }
    ensures { result ≡ row_has rows.now low high }
{
    rows[low] >> high & 1 != 0
}

/// Whether the second class is in the row of the first one, if both are classes.
pub(crate) fn reaches(rows: &[u64], low: u8, high: u8) -> bool
    ensures { IsTrue result → row_has rows.now low high ≡ true }
{
    let (low, high) = (usize::from(low), usize::from(high));
    if low >= rows.len() || high >= 64 {
        return false;
    }
    is_in(rows, low, high)
}

/// The order from the other side: row `a` has bit `b` where class `b` is at or below class `a`.
pub(crate) fn turned(alloc: Global, rows: &[u64]) -> Result<Vec<u64>, AllocError> {
    let mut turned = Vec::new(alloc);
    for class in 0..rows.len() {
        let low = rows.iter().enumerate().filter(|(_, row)| has(**row, class));
        turned.push(low.fold(0, |all, (other, _)| all | bit(other)))?;
    }
    Ok(turned)
}

/// The bit of a class.
pub(crate) fn bit(class: usize) -> u64 {
    1u64 << (class % 64)
}

/// Whether a row has the bit of a class.
pub(crate) fn has(row: u64, class: usize) -> bool {
    row & bit(class) != 0
}

/// The bits of all classes.
pub(crate) fn all_bits(count: usize) -> u64 {
    (0..count).fold(0, |all, class| all | bit(class))
}

/// The classes of a set that no other class of it reaches, by rows.
pub(crate) fn ends(alloc: Global, rows: &[u64], set: u64) -> Result<Vec<u8>, AllocError> {
    let mut found = Vec::new(alloc);
    for class in 0..rows.len().min(64) {
        if has(set, class) && rows[class] & set == bit(class) {
            found.push(class as u8)?;
        }
    }
    Ok(found)
}

/// The classes that each class of a set reaches, by rows; all where the set is empty.
pub(crate) fn common(rows: &[u64], set: u64) -> u64 {
    let reached = rows
        .iter()
        .enumerate()
        .filter(|(class, _)| has(set, *class));
    reached.fold(all_bits(rows.len()), |found, (_, row)| found & *row)
}

/// The largest number of classes.
pub(crate) const MOST_CLASSES: usize = 64;

/// The pairs of one list and those of another after them.
pub(crate) fn joined(
    alloc: Global,
    pairs: &[(u8, u8)],
    added: &[(u8, u8)],
) -> Result<Vec<(u8, u8)>, AllocError>
    ensures { IfOk result (λ all. all.items ≡ pairs.now ++ added.now) }
{
    let mut all = Vec::from_slice(alloc, pairs)?;
    all.extend_from_slice(added)?;
    Ok(all)
}

/// Whether each pair is of classes below a number.
fn are_below(count: usize, pairs: &[(u8, u8)]) -> bool
    ensures { IsTrue result → ArePairsBelow count pairs.now }
{
    for i in 0..pairs.len() {
        let (low, high) = pairs[i];
        if usize::from(low) >= count {
            return false;
        }
        if usize::from(high) >= count {
            return false;
        }
    }
    true
}

/// The lattice of an order with so many classes more and more pairs, if it is one.
pub(crate) fn lattice_with(
    alloc: Global,
    count: usize,
    pairs: &[(u8, u8)],
    more: usize,
    added: &[(u8, u8)],
) -> Result<Option<MaskLattice>, AllocError>
    ensures lattice { IfOk result (λ found. IfSome found
        (λ _. IsLatticeWith count pairs.now more added.now)) }
    ensures order { IfOk result (λ found. IfSome found (λ l. IsDeclared (count + more)
        (pairs.now ++ added.now) (⟦<MaskLattice as Classes>⟧.lattice l))) }
{
    let Some(total) = count.checked_add(more) else {
        return Ok(None);
    };
    if total == 0 || total > MOST_CLASSES {
        return Ok(None);
    }
    let all = joined(alloc, pairs, added)?;
    if !are_below(total, &all) {
        return Ok(None);
    }
    match MaskLattice::new(alloc, total, &all) {
        Ok(lattice) => Ok(Some(lattice)),
        Err(OrderError::Memory) => Err(AllocError),
        Err(_) => Ok(None),
    }
}

/// Whether an order with so many classes more and more pairs is a lattice.
pub(crate) fn is_lattice_with(
    alloc: Global,
    count: usize,
    pairs: &[(u8, u8)],
    more: usize,
    added: &[(u8, u8)],
) -> Result<bool, AllocError>
    ensures { IfOk result (λ is. IsTrue is → IsLatticeWith count pairs.now more added.now) }
{
    Ok(lattice_with(alloc, count, pairs, more, added)?.is_some())
}

/// Whether the first classes of a lattice are in the order of rows, or in a smaller one.
pub(crate) fn keeps_rows(lattice: &MaskLattice, rows: &[u64]) -> bool
    requires few { length rows.now ≤ 64 }
    requires count { length rows.now ≤ (⟦<MaskLattice as Classes>⟧.lattice lattice.now).count }
    ensures { IsTrue result → (low high : ℕ) → low < length rows.now → high < length rows.now →
        Below (⟦<MaskLattice as Classes>⟧.lattice lattice.now) low high →
        row_has rows.now low high ≡ true }
{
    for low in 0..rows.len() {
        for high in 0..rows.len() {
            if !lattice.leq(Class::at(low as u8), Class::at(high as u8)) {
                continue;
            }
            if !is_in(rows, low, high) {
                return false;
            }
        }
    }
    true
}
