//! Classes, the operations of a lattice of classes, and a lattice as rows of bits.

ghost use Rattle.std.specs.Prelude.{◌≡◌, ◌≤◌, ℕ, ◌<◌, IfOk, IfErr};
ghost use Rattle.vsi_lattice.specs.{Order.{Lattice, IsLattice, IsClass, Below, IsJoin, IsMeet}, Pairs.{ArePairsBelow, MakesLattice, IsDeclared, Leq}, OrderFaults.{NamesFault}, Laws.{IsLawful}, Rows.{IsMaskOrder, row_lattice}};
ghost use Rattle.vsi_lattice.specs.declared.order.OrderError.TheVariants as errors;

use crate::rows::{Rows, closed, common_class};
use std::alloc::Global;
use std::marker::Model;
use thiserror::Error;

/// The position of a class in the list of a lattice.
#[derive(Clone, Copy, Debug, PartialEq, Eq)]
pub struct Class {
    number: u8,
}

impl Model for Class {
    ghost use Rattle.std.specs.Prelude.{ℕ};

    ghost Value = { ℕ };

    ghost view = { λ c. c.number };

    ghost inverse = { λ n. record { number = n } };
}

impl Class {
    /// The class at this position, independent of any lattice.
    pub fn at(number: u8) -> Class
        ensures { result ≡ number }
    {
        Class { number }
    }

    /// The position, counted from 0.
    pub fn index(&self) -> usize
        ensures { result ≡ self.now }
    {
        usize::from(self.number)
    }
}

/// Why pairs of classes do not declare a lattice.
#[derive(Clone, Copy, Debug, PartialEq, Eq, Error)]
pub enum OrderError {
    /// Memory ran out.
    #[error("out of memory")]
    Memory,
    /// Two classes that are below each other.
    #[error("classes {low} and {high} are below each other", low = .0.index(), high = .1.index())]
    Cycle(Class, Class),
    /// Two classes without a least class above both.
    #[error("no class is the least above {low} and {high}", low = .0.index(), high = .1.index())]
    NoJoin(Class, Class),
    /// Two classes without a greatest class below both.
    #[error("no class is the greatest below {low} and {high}", low = .0.index(), high = .1.index())]
    NoMeet(Class, Class),
}

/// A finite lattice of classes.
pub trait Classes {
    ghost lattice: { Self → Lattice };

    /// The number of classes, from 1 to 64.
    fn count(&self) -> usize
        ensures { result ≡ (lattice self.now).count };

    /// Whether the first class is at or below the second.
    fn leq(&self, a: Class, b: Class) -> bool
        requires first { IsClass (lattice self.now) a }
        requires second { IsClass (lattice self.now) b }
        ensures { result ≡ (lattice self.now).leq a b };

    /// The least class at or above both.
    fn join(&self, a: Class, b: Class) -> Class
        requires first { IsClass (lattice self.now) a }
        requires second { IsClass (lattice self.now) b }
        ensures { IsJoin (lattice self.now).count (Below (lattice self.now)) a b result };

    /// The greatest class at or below both.
    fn meet(&self, a: Class, b: Class) -> Class
        requires first { IsClass (lattice self.now) a }
        requires second { IsClass (lattice self.now) b }
        ensures { IsMeet (lattice self.now).count (Below (lattice self.now)) a b result };

    /// The class below all.
    fn bottom(&self) -> Class
        ensures { result ≡ (lattice self.now).bottom };

    /// The class above all.
    fn top(&self) -> Class
        ensures { result ≡ (lattice self.now).top };

    ghost laws: { (s : Self) → IsLattice (lattice s) };

    ghost few: { (s : Self) → (lattice s).count ≤ 64 };
}

/// The classes above each class, and those below it, as the bits of a word.
#[derive(Drop)]
pub struct MaskLattice {
    above: Vec<u64>,
    below: Vec<u64>,
    bottom: u8,
    top: u8,
    ghost rows: { IsMaskOrder above.items below.items },
    ghost lawful: { IsLawful (row_lattice above.items bottom top) },
}

impl MaskLattice {
    /// The lattice of `count` classes, 1 to 64, that the pairs declare; each pair gives the lower
    /// class and the higher one. The order is the reflexive and transitive closure of the pairs.
    pub fn new(alloc: Global, count: usize, pairs: &[(u8, u8)]) -> Result<MaskLattice, OrderError>
        requires some { 0 < count }
        requires small { count ≤ 64 }
        requires pairs { ArePairsBelow count pairs.now }
        ensures lattice { IfOk result (λ _. MakesLattice count (Leq pairs.now)) }
        ensures order { IfOk result
            (λ l. IsDeclared count pairs.now (⟦<MaskLattice as Classes>⟧.lattice l)) }
        ensures refused { IfErr result (NamesFault count pairs.now) }
        ensures accepted { MakesLattice count (Leq pairs.now) →
            IfErr result (λ e. e ≡ errors.Memory) }
    {
        let Ok(rows) = closed(alloc, count, pairs) else {
            return Err(OrderError::Memory);
        };
        if let Some((a, b)) = rows.first_tied() {
            return Err(OrderError::Cycle(Class::at(a), Class::at(b)));
        }
        if let Some((a, b)) = rows.first_apart_above() {
            return Err(OrderError::NoJoin(Class::at(a), Class::at(b)));
        }
        if let Some((a, b)) = rows.first_apart_below() {
            return Err(OrderError::NoMeet(Class::at(a), Class::at(b)));
        }
        let bottom = rows.bottom();
        let top = rows.top();
        let Rows { above, below } = rows;
        Ok(MaskLattice {
            above,
            below,
            bottom,
            top,
        })
    }
}

impl Classes for MaskLattice {
    ghost lattice = { λ s. row_lattice s.above.items s.bottom s.top };

    ghost use Rattle.vsi_lattice.specs.Laws.{lawful_is_lattice};

    ghost laws = { λ s. lawful_is_lattice (row_lattice s.above.items s.bottom s.top) s.lawful };

    ghost few = { λ s. s.rows.small };

    fn count(&self) -> usize {
        self.above.len()
    }

    fn leq(&self, a: Class, b: Class) -> bool {
        self.above[a.index()] >> b.index() & 1 != 0
    }

    fn join(&self, a: Class, b: Class) -> Class {
        match common_class(&self.above, a.index(), b.index()) {
            Some(c) => Class::at(c),
            None => unreachable!(),
        }
    }

    fn meet(&self, a: Class, b: Class) -> Class {
        match common_class(&self.below, a.index(), b.index()) {
            Some(c) => Class::at(c),
            None => unreachable!(),
        }
    }

    fn bottom(&self) -> Class {
        Class::at(self.bottom)
    }

    fn top(&self) -> Class {
        Class::at(self.top)
    }
}
