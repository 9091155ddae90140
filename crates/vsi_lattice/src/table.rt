//! The order as a table: for every pair of classes, whether the first is at or below.

ghost use Rattle.std.specs.Prelude.{◌≡◌, ℕ, ◌<◌, ◌≤◌, ◌&&◌, ◌||◌, ◌==◌, nat_lt, length, vec_len, IfOk, IfSome, IfNone, true, false, IfErr};
ghost use Rattle.vsi_lattice.specs.{Order.{IsJoin, HasJoin}, Pairs.{Says, IsCycle, IsFirstPair, ArePairsBelow, MakesLattice, IsDeclared, Leq}, Rows.{AddsPair, IsPreorder, IsClosureOf, IsTransposed}, Tables.{table_has, AreTables, table_lattice}, OrderFaults.{NamesFault}, Laws.{IsLawful}};
ghost use Rattle.vsi_lattice.specs.declared.order.OrderError.TheVariants as errors;

use crate::order::{Class, Classes, OrderError};
use std::alloc::{AllocError, Global};

/// The number of cells of one class.
const SIDE: usize = 64;

/// The number of cells of a table.
const CELLS: usize = 4096;

/// The order in both directions.
#[derive(Drop)]
pub(crate) struct Tables {
    pub(crate) above: Vec<bool>,
    pub(crate) below: Vec<bool>,
}

/// Whether the first class is at or below the second.
#[tactic(auto, unfolding(crate::specs::Tables::table_has))]
pub(crate) fn has(table: &[bool], a: usize, b: usize) -> bool
    requires len { length table.now ≡ 4096 }
    requires a { a < 64 }
    requires b { b < 64 }
    ensures { result ≡ table_has table.now a b }
{
    table[a * SIDE + b]
}

/// The order in which each class is below itself alone.
fn own_table(alloc: Global, count: usize) -> Result<Vec<bool>, AllocError>
    requires { count ≤ 64 }
    ensures len { IfOk result (λ table. length table.items ≡ 4096) }
    ensures cells { IfOk result
        (λ table. (a b : ℕ) → table_has table.items a b ≡ (nat_lt a count && (a == b))) }
{
    let mut table = Vec::new(alloc);
    for i in 0..CELLS {
        let a = i / SIDE;
        table.push(a < count && a == i % SIDE)?;
    }
    Ok(table)
}

/// The order in which every class below `low` is also below all classes that `high` is below.
fn with_pair(alloc: Global, table: &[bool], low: u8, high: u8) -> Result<Vec<bool>, AllocError>
    requires len { length table.now ≡ 4096 }
    requires low { low < 64 }
    requires high { high < 64 }
    ensures len { IfOk result (λ next. length next.items ≡ 4096) }
    ensures adds { IfOk result
        (λ next. AddsPair (table_has table.now) (table_has next.items) low high) }
{
    let mut next = Vec::new(alloc);
    for i in 0..CELLS {
        let a = i / SIDE;
        let b = i % SIDE;
        let is_below_low = has(table, a, usize::from(low));
        let is_above_high = has(table, usize::from(high), b);
        next.push(has(table, a, b) || (is_below_low && is_above_high))?;
    }
    Ok(next)
}

/// The order that the pairs declare, in both directions.
pub(crate) fn closed_tables(
    alloc: Global,
    count: usize,
    pairs: &[(u8, u8)],
) -> Result<Tables, AllocError>
    requires count { count ≤ 64 }
    requires pairs { ArePairsBelow count pairs.now }
    ensures above_len { IfOk result (λ tables. length tables.above.items ≡ 4096) }
    ensures below_len { IfOk result (λ tables. length tables.below.items ≡ 4096) }
    ensures above { IfOk result
        (λ tables. IsClosureOf count pairs.now (table_has tables.above.items)) }
    ensures below { IfOk result (λ tables. IsTransposed (table_has tables.above.items)
        (table_has tables.below.items)) }
{
    let mut above = own_table(alloc, count)?;
    let mut below = own_table(alloc, count)?;
    for i in 0..pairs.len() {
        let (low, high) = pairs[i];
        above = with_pair(alloc, &above, low, high)?;
        below = with_pair(alloc, &below, high, low)?;
    }
    Ok(Tables { above, below })
}

/// Whether the third class is a least one above the first two.
fn is_least_above(table: &[bool], count: usize, a: usize, b: usize, c: usize) -> bool
    requires len { length table.now ≡ 4096 }
    requires count { count ≤ 64 }
    requires a { a < count }
    requires b { b < count }
    requires c { c < count }
    ensures join { result ≡ true → IsJoin count (Says (table_has table.now)) a b c }
    ensures none { result ≡ false → ¬ (IsJoin count (Says (table_has table.now)) a b c) }
{
    if !has(table, a, c) {
        return false;
    }
    if !has(table, b, c) {
        return false;
    }
    for d in 0..count {
        if !has(table, a, d) {
            continue;
        }
        if !has(table, b, d) {
            continue;
        }
        if !has(table, c, d) {
            return false;
        }
    }
    true
}

/// The least class above two classes, if there is one.
pub(crate) fn least_above(table: &[bool], count: usize, a: usize, b: usize) -> Option<u8>
    requires len { length table.now ≡ 4096 }
    requires count { count ≤ 64 }
    requires a { a < count }
    requires b { b < count }
    ensures some { IfSome result (IsJoin count (Says (table_has table.now)) a b) }
    ensures none { IfNone result (¬ (HasJoin count (Says (table_has table.now)) a b)) }
{
    for c in 0..count {
        if is_least_above(table, count, a, b, c) {
            return Some(c as u8);
        }
    }
    None
}

/// The first two classes without a least class above both.
pub(crate) fn first_unjoined(table: &[bool], count: usize) -> Option<(u8, u8)>
    requires len { length table.now ≡ 4096 }
    requires count { count ≤ 64 }
    ensures some { IfSome result
        (λ p. IsFirstPair count (λ x y. ¬ (HasJoin count (Says (table_has table.now)) x y))
        p.0 p.1) }
    ensures none { IfNone result ((x y : ℕ) → x < count → y < count →
        HasJoin count (Says (table_has table.now)) x y) }
{
    for a in 0..count {
        for b in 0..count {
            let Some(_) = least_above(table, count, a, b) else {
                return Some((a as u8, b as u8));
            };
        }
    }
    None
}

/// The first two distinct classes that are below each other.
pub(crate) fn first_cycle(table: &[bool], count: usize) -> Option<(u8, u8)>
    requires len { length table.now ≡ 4096 }
    requires count { count ≤ 64 }
    ensures some { IfSome result
        (λ p. IsFirstPair count (IsCycle count (Says (table_has table.now))) p.0 p.1) }
    ensures none { IfNone result ((x y : ℕ) → x < count → y < count →
        ¬ (IsCycle count (Says (table_has table.now)) x y)) }
{
    for a in 0..count {
        for b in 0..count {
            if a == b {
                continue;
            }
            if !has(table, a, b) {
                continue;
            }
            if has(table, b, a) {
                return Some((a as u8, b as u8));
            }
        }
    }
    None
}

/// The class above all others.
pub(crate) fn greatest(table: &[bool], count: usize) -> u8
    requires len { length table.now ≡ 4096 }
    requires some { 0 < count }
    requires count { count ≤ 64 }
    requires order { IsPreorder count (table_has table.now) }
    requires joins { (x y : ℕ) → x < count → y < count →
        HasJoin count (Says (table_has table.now)) x y }
    ensures within { result < count }
    ensures greatest { (a : ℕ) → a < count → table_has table.now a result ≡ true }
{
    let mut last = 0;
    for a in 0..count {
        last = match least_above(table, count, usize::from(last), a) {
            Some(c) => c,
            None => unreachable!(),
        };
    }
    last
}

/// For every pair of classes, whether the first is at or below the second; joins and meets are
/// found by searching.
#[derive(Drop)]
pub struct PairLattice {
    count: usize,
    above: Vec<bool>,
    below: Vec<bool>,
    bottom: u8,
    top: u8,
    ghost tables: { AreTables count above.items below.items },
    ghost lawful: { IsLawful (table_lattice count above.items bottom top) },
}

impl PairLattice {
    /// The lattice of `count` classes, 1 to 64, that the pairs declare; each pair gives the lower
    /// class and the higher one. The order is the reflexive and transitive closure of the pairs.
    pub fn new(alloc: Global, count: usize, pairs: &[(u8, u8)]) -> Result<PairLattice, OrderError>
        requires some { 0 < count }
        requires small { count ≤ 64 }
        requires pairs { ArePairsBelow count pairs.now }
        ensures lattice { IfOk result (λ _. MakesLattice count (Leq pairs.now)) }
        ensures order { IfOk result
            (λ l. IsDeclared count pairs.now (⟦<PairLattice as Classes>⟧.lattice l)) }
        ensures refused { IfErr result (NamesFault count pairs.now) }
        ensures accepted { MakesLattice count (Leq pairs.now) →
            IfErr result (λ e. e ≡ errors.Memory) }
    {
        let Ok(tables) = closed_tables(alloc, count, pairs) else {
            return Err(OrderError::Memory);
        };
        if let Some((a, b)) = first_cycle(&tables.above, count) {
            return Err(OrderError::Cycle(Class::at(a), Class::at(b)));
        }
        if let Some((a, b)) = first_unjoined(&tables.above, count) {
            return Err(OrderError::NoJoin(Class::at(a), Class::at(b)));
        }
        if let Some((a, b)) = first_unjoined(&tables.below, count) {
            return Err(OrderError::NoMeet(Class::at(a), Class::at(b)));
        }
        let bottom = greatest(&tables.below, count);
        let top = greatest(&tables.above, count);
        let Tables { above, below } = tables;
        Ok(PairLattice {
            count,
            above,
            below,
            bottom,
            top,
        })
    }
}

impl Classes for PairLattice {
    ghost lattice = { λ s. table_lattice s.count s.above.items s.bottom s.top };

    ghost use Rattle.vsi_lattice.specs.Laws.{lawful_is_lattice};

    ghost laws = { λ s. lawful_is_lattice (table_lattice s.count s.above.items s.bottom s.top)
        s.lawful };

    ghost few = { λ s. s.tables.small };

    fn count(&self) -> usize {
        self.count
    }

    fn leq(&self, a: Class, b: Class) -> bool {
        has(&self.above, a.index(), b.index())
    }

    fn join(&self, a: Class, b: Class) -> Class {
        match least_above(&self.above, self.count, a.index(), b.index()) {
            Some(c) => Class::at(c),
            None => unreachable!(),
        }
    }

    fn meet(&self, a: Class, b: Class) -> Class {
        match least_above(&self.below, self.count, a.index(), b.index()) {
            Some(c) => Class::at(c),
            None => unreachable!(),
        }
    }

    fn bottom(&self) -> Class {
        Class::at(self.bottom)
    }

    fn top(&self) -> Class {
        Class::at(self.top)
    }
}
