//! The order as rows of bits: row `a` has bit `b` if class `a` is below class `b`.

ghost use Rattle.std.specs.Prelude.{◌≡◌, ℕ, ◌<◌, ◌≤◌, ◌&&◌, ◌||◌, ◌==◌, nat_lt, length, vec_len, IfOk, IfSome, IfNone, true};
ghost use Rattle.vsi_lattice.specs.{Pairs.{ArePairsBelow, IsFirstPair}, Rows.{row_has, widened, IsClosureOf, IsTransposed, AddsPair, IsCommon, AllHaveCommon, LacksCommon, BothHaveOther, AreTied, IsPreorder}};

use std::alloc::{AllocError, Global};

/// The order in both directions.
#[derive(Drop)]
pub(crate) struct Rows {
    pub(crate) above: Vec<u64>,
    pub(crate) below: Vec<u64>,
}

/// The row, including all of `reached` if it has bit `low`.
#[tactic(auto, unfolding(crate::specs::Rows::widened), using(std::proofs::lemmas::Nat::Bits::shr_and_one))]
#[inline(always)]
fn widen(row: u64, low: u8, reached: u64) -> u64
    requires { low < 64 }
    ensures { result ≡ widened low reached row }
{
    if row >> low & 1 != 0 {
        row | reached
    } else {
        row
    }
}

/// Puts every class that is below `low` below all classes that `high` is below.
pub(crate) fn add_pair(rows: &mut [u64], low: u8, high: u8)
    requires low { low < 64 }
    requires high { high < length rows.old }
    ensures { AddsPair (row_has rows.old) (row_has rows.new) low high }
{
    let reached = rows[high as usize];
    for row in rows.iter_mut() {
        *row = widen(*row, low, reached);
    }
}

/// The order in which each class is below itself alone.
fn own_bits(alloc: Global, count: usize) -> Result<Vec<u64>, AllocError>
    requires { count ≤ 64 }
    ensures len { IfOk result (λ rows. vec_len rows ≡ count) }
    ensures bits { IfOk result
        (λ rows. (a b : ℕ) → row_has rows.items a b ≡ (nat_lt a count && (a == b))) }
{
    let mut rows = Vec::with_capacity(alloc, count)?;
    for a in 0..count {
        rows.push(1u64 << a)?;
    }
    Ok(rows)
}

impl Rows {
    /// Puts `low` below `high`, with all consequences.
    fn add(&mut self, low: u8, high: u8)
        requires above_len { vec_len self.old.above ≤ 64 }
        requires below_len { vec_len self.old.below ≡ vec_len self.old.above }
        requires low { low < vec_len self.old.above }
        requires high { high < vec_len self.old.above }
        ensures above_len { vec_len self.new.above ≡ vec_len self.old.above }
        ensures below_len { vec_len self.new.below ≡ vec_len self.old.below }
        ensures above { AddsPair (row_has self.old.above.items) (row_has self.new.above.items) low
            high }
        ensures below { AddsPair (row_has self.old.below.items) (row_has self.new.below.items) high
            low }
    {
        add_pair(&mut self.above, low, high);
        add_pair(&mut self.below, high, low);
    }

    /// The first two classes that are in each other's row.
    pub(crate) fn first_tied(&self) -> Option<(u8, u8)>
        requires count { length self.now.above.items ≤ 64 }
        requires len { length self.now.below.items ≡ length self.now.above.items }
        requires within { (a b : ℕ) → row_has self.now.above.items a b ≡ true →
            b < length self.now.above.items }
        ensures some { IfSome result (λ p. IsFirstPair (length self.now.above.items)
            (AreTied self.now.above.items self.now.below.items) p.0 p.1) }
        ensures none { IfNone result
            ((a b : ℕ) → a < length self.now.above.items → b < length self.now.above.items
            → ¬ (AreTied self.now.above.items self.now.below.items a b)) }
    {
        first_tied(&self.above, &self.below)
    }

    /// The first two classes without a common row upwards.
    pub(crate) fn first_apart_above(&self) -> Option<(u8, u8)>
        requires { length self.now.above.items ≤ 64 }
        ensures some { IfSome result (λ p. IsFirstPair (length self.now.above.items)
            (LacksCommon self.now.above.items) p.0 p.1) }
        ensures none { IfNone result (AllHaveCommon self.now.above.items) }
    {
        first_apart(&self.above)
    }

    /// The first two classes without a common row downwards.
    pub(crate) fn first_apart_below(&self) -> Option<(u8, u8)>
        requires { length self.now.below.items ≤ 64 }
        ensures some { IfSome result (λ p. IsFirstPair (length self.now.below.items)
            (LacksCommon self.now.below.items) p.0 p.1) }
        ensures none { IfNone result (AllHaveCommon self.now.below.items) }
    {
        first_apart(&self.below)
    }

    /// The class above all others.
    pub(crate) fn top(&self) -> u8
        requires some { 0 < length self.now.above.items }
        requires count { length self.now.above.items ≤ 64 }
        requires order { IsPreorder (length self.now.above.items) (row_has self.now.above.items) }
        requires common { AllHaveCommon self.now.above.items }
        ensures within { result < length self.now.above.items }
        ensures greatest { (a : ℕ) → a < length self.now.above.items →
            row_has self.now.above.items a result ≡ true }
    {
        last_class(&self.above)
    }

    /// The class below all others.
    pub(crate) fn bottom(&self) -> u8
        requires some { 0 < length self.now.below.items }
        requires count { length self.now.below.items ≤ 64 }
        requires order { IsPreorder (length self.now.below.items) (row_has self.now.below.items) }
        requires common { AllHaveCommon self.now.below.items }
        ensures within { result < length self.now.below.items }
        ensures least { (a : ℕ) → a < length self.now.below.items →
            row_has self.now.below.items a result ≡ true }
    {
        last_class(&self.below)
    }
}

/// The class whose row is the intersection of two rows, if there is one.
pub(crate) fn common_class(rows: &[u64], a: usize, b: usize) -> Option<u8>
    requires count { length rows.now ≤ 64 }
    requires a { a < length rows.now }
    requires b { b < length rows.now }
    ensures some { IfSome result (λ c. (c < length rows.now) × IsCommon rows.now a b c) }
    ensures none { IfNone result (LacksCommon rows.now a b) }
{
    let common = rows[a] & rows[b];
    for c in 0..rows.len() {
        if rows[c] == common {
            return Some(c as u8);
        }
    }
    None
}

/// The first two classes for which no row is the intersection of theirs.
pub(crate) fn first_apart(rows: &[u64]) -> Option<(u8, u8)>
    requires { length rows.now ≤ 64 }
    ensures some { IfSome result
        (λ p. IsFirstPair (length rows.now) (LacksCommon rows.now) p.0 p.1) }
    ensures none { IfNone result (AllHaveCommon rows.now) }
{
    for a in 0..rows.len() {
        for b in 0..rows.len() {
            let Some(_) = common_class(rows, a, b) else {
                return Some((a as u8, b as u8));
            };
        }
    }
    None
}

/// The lowest bit, other than `own`, that both words have.
fn other_common_bit(x: u64, y: u64, own: u8) -> Option<u8>
    requires { own < 64 }
    ensures some { IfSome result (λ b. (b < 64) × BothHaveOther x y own b ×
        ((i : ℕ) → i < b → ¬ (BothHaveOther x y own i))) }
    ensures none { IfNone result ((i : ℕ) → i < 64 → ¬ (BothHaveOther x y own i)) }
{
    let both = x & y & !(1u64 << own);
    if both == 0 {
        None
    } else {
        Some(both.trailing_zeros() as u8)
    }
}

/// The first two classes that are in each other's row.
pub(crate) fn first_tied(above: &[u64], below: &[u64]) -> Option<(u8, u8)>
    requires count { length above.now ≤ 64 }
    requires len { length below.now ≡ length above.now }
    requires within { (a b : ℕ) → row_has above.now a b ≡ true → b < length above.now }
    ensures some { IfSome result
        (λ p. IsFirstPair (length above.now) (AreTied above.now below.now) p.0 p.1) }
    ensures none { IfNone result ((a b : ℕ) → a < length above.now → b < length above.now →
        ¬ (AreTied above.now below.now a b)) }
{
    for a in 0..above.len() {
        if let Some(b) = other_common_bit(above[a], below[a], a as u8) {
            return Some((a as u8, b));
        }
    }
    None
}

/// The class that is in every row.
pub(crate) fn last_class(rows: &[u64]) -> u8
    requires some { 0 < length rows.now }
    requires count { length rows.now ≤ 64 }
    requires order { IsPreorder (length rows.now) (row_has rows.now) }
    requires common { AllHaveCommon rows.now }
    ensures within { result < length rows.now }
    ensures greatest { (a : ℕ) → a < length rows.now → row_has rows.now a result ≡ true }
{
    let mut last = 0;
    for a in 0..rows.len() {
        last = match common_class(rows, last as usize, a) {
            Some(c) => c,
            None => unreachable!(),
        };
    }
    last
}

/// The order that the pairs declare.
pub(crate) fn closed(alloc: Global, count: usize, pairs: &[(u8, u8)]) -> Result<Rows, AllocError>
    requires count { count ≤ 64 }
    requires pairs { ArePairsBelow count pairs.now }
    ensures above_len { IfOk result (λ rows. vec_len rows.above ≡ count) }
    ensures below_len { IfOk result (λ rows. vec_len rows.below ≡ count) }
    ensures above { IfOk result (λ rows. IsClosureOf count pairs.now (row_has rows.above.items)) }
    ensures below { IfOk result
        (λ rows. IsTransposed (row_has rows.above.items) (row_has rows.below.items)) }
{
    let mut rows = Rows {
        above: own_bits(alloc, count)?,
        below: own_bits(alloc, count)?,
    };
    for pair in pairs {
        rows.add(pair.0, pair.1);
    }
    Ok(rows)
}
