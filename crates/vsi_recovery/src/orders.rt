//! Classes and pairs that make an order a lattice. A search proposes them, and the order is read anew
//! with them.

ghost use Rattle.std.specs.Prelude.{◌∷◌, [], All, IfOk, IfSome};
ghost use Rattle.vsi_recovery.specs.Completed.{IsAboveBoth, IsLatticeWith, KeepsOrder};

use crate::rows::{
    MOST_CLASSES, all_bits, bit, common, ends, is_lattice_with, joined, keeps_rows, lattice_with,
    reaches, rows_of, turned,
};
use std::alloc::{AllocError, Global};

/// The largest number of classes that are added.
const MOST: usize = 4;

/// Classes and pairs to add to an order.
#[derive(Debug, Drop)]
pub struct Addition {
    /// How many classes: they have the numbers after those of the order.
    pub count: usize,
    /// The pairs, the lower class first.
    pub pairs: Vec<(u8, u8)>,
}

/// Where a class is placed.
#[derive(Clone, Copy, Debug, PartialEq, Eq)]
pub enum Rank {
    /// Above all others.
    Above,
    /// Below all others.
    Below,
    /// Above the lowest and below the highest of the others.
    Between,
    /// Each class below the next one.
    Levels,
}

/// The ranks in the order in which they are tried.
const RANKS: [Rank; 4] = [Rank::Levels, Rank::Above, Rank::Below, Rank::Between];

/// Pairs that place a class.
#[derive(Debug, Drop)]
pub struct Placement {
    pub rank: Rank,
    /// The pairs, the lower class first.
    pub pairs: Vec<(u8, u8)>,
}

/// The classes that each class is below, and those that it is above, as rows.
fn sides(
    alloc: Global,
    count: usize,
    pairs: &[(u8, u8)],
) -> Result<(Vec<u64>, Vec<u64>), AllocError> {
    let above = rows_of(alloc, count.min(MOST_CLASSES), pairs)?;
    let below = turned(alloc, &above)?;
    Ok((above, below))
}

/// Adds the pairs that put a class above some classes and below others.
fn put_class(
    pairs: &mut Vec<(u8, u8)>,
    lows: &[u8],
    class: u8,
    highs: &[u8],
) -> Result<(), AllocError> {
    for low in lows {
        pairs.push((*low, class))?;
    }
    for high in highs {
        pairs.push((class, *high))?;
    }
    Ok(())
}

/// The class that the first two classes without one lack above both: all classes that it is above,
/// and all that it is below.
fn first_gap(above: &[u64], below: &[u64]) -> Option<(u64, u64)> {
    for a in 0..above.len() {
        for b in 0..above.len() {
            let highs = above[a] & above[b];
            if !above.contains(&highs) {
                return Some((common(below, highs), highs));
            }
        }
    }
    None
}

/// Classes and pairs that may complete an order, if few do.
fn proposed(
    alloc: Global,
    count: usize,
    pairs: &[(u8, u8)],
) -> Result<Option<Addition>, AllocError> {
    let mut added = Vec::new(alloc);
    for more in 0..MOST + 1 {
        let class = count.saturating_add(more);
        if class > MOST_CLASSES {
            return Ok(None);
        }
        let (above, below) = sides(alloc, class, &joined(alloc, pairs, &added)?)?;
        // The order lacks a class above two classes, or else below two classes.
        let (lows, highs) = match (first_gap(&above, &below), first_gap(&below, &above)) {
            (Some(gap), _) => gap,
            (None, Some((highs, lows))) => (lows, highs),
            (None, None) => {
                return Ok(Some(Addition {
                    count: more,
                    pairs: added,
                }));
            }
        };
        let lows = ends(alloc, &above, lows)?;
        let highs = ends(alloc, &below, highs)?;
        put_class(&mut added, &lows, class as u8, &highs)?;
    }
    Ok(None)
}

/// The fewest classes that make an order a lattice and put none of its classes below another one
/// that it was not below, with their pairs, if they are at most four and 64 with the others.
pub fn completion(
    alloc: Global,
    count: usize,
    pairs: &[(u8, u8)],
) -> Result<Option<Addition>, AllocError>
    ensures lattice { IfOk result (λ found. IfSome found
        (λ added. IsLatticeWith count pairs.now added.count added.pairs.items)) }
    ensures keeps { IfOk result (λ found. IfSome found
        (λ added. KeepsOrder count pairs.now added.pairs.items)) }
{
    if count > MOST_CLASSES {
        return Ok(None);
    }
    let Some(addition) = proposed(alloc, count, pairs)? else {
        return Ok(None);
    };
    let Some(lattice) = lattice_with(alloc, count, pairs, addition.count, &addition.pairs)? else {
        return Ok(None);
    };
    let rows = rows_of(alloc, count, pairs)?;
    Ok(keeps_rows(&lattice, &rows).then_some(addition))
}

/// The lowest classes of those above two others, by rows.
fn lowest_above(alloc: Global, above: &[u64], a: u8, b: u8) -> Result<Vec<u8>, AllocError> {
    let (Some(one), Some(other)) = (above.get(usize::from(a)), above.get(usize::from(b))) else {
        return Ok(Vec::new(alloc));
    };
    ends(alloc, &turned(alloc, above)?, *one & *other)
}

/// The lowest classes of those above two others.
pub fn nearest(
    alloc: Global,
    count: usize,
    pairs: &[(u8, u8)],
    a: u8,
    b: u8,
) -> Result<Vec<u8>, AllocError>
    ensures { IfOk result (λ found. All (IsAboveBoth pairs.now a b) found.items) }
{
    let above = rows_of(alloc, count.min(MOST_CLASSES), pairs)?;
    let mut found = Vec::new(alloc);
    for class in &lowest_above(alloc, &above, a, b)? {
        if reaches(&above, a, *class) && reaches(&above, b, *class) {
            found.push(*class)?;
        }
    }
    Ok(found)
}

/// The pairs, each of which makes a lattice of an order where two classes lack one above both or,
/// unless `is_up`, below both. They join the two lowest classes above both, or else the two highest
/// or lowest classes of all.
pub fn links(
    alloc: Global,
    count: usize,
    pairs: &[(u8, u8)],
    a: u8,
    b: u8,
    is_up: bool,
) -> Result<Vec<(u8, u8)>, AllocError>
    ensures { IfOk result (λ found. All
        (λ pair. IsLatticeWith count pairs.now 0 (pair ∷ [])) found.items) }
{
    let mut both = Vec::new(alloc);
    if is_up {
        both = nearest(alloc, count, pairs, a, b)?;
    }
    if both.is_empty() {
        let (above, below) = sides(alloc, count, pairs)?;
        let rows = if is_up { &above } else { &below };
        both = ends(alloc, rows, all_bits(rows.len()))?;
    }
    let [one, other] = both.as_slice() else {
        return Ok(Vec::new(alloc));
    };
    let mut found = Vec::new(alloc);
    for link in [(*one, *other), (*other, *one)] {
        if is_lattice_with(alloc, count, pairs, 0, &[link])? {
            found.push(link)?;
        }
    }
    Ok(found)
}

/// The pairs that may place a class.
fn placing(
    alloc: Global,
    count: usize,
    pairs: &[(u8, u8)],
    class: u8,
    rank: Rank,
) -> Result<Vec<(u8, u8)>, AllocError> {
    let mut found = Vec::new(alloc);
    if rank == Rank::Levels {
        let is_plain = pairs.is_empty() && count > 2;
        let count = if is_plain { count } else { 0 };
        for high in 1..count.min(MOST_CLASSES) {
            found.push(((high - 1) as u8, high as u8))?;
        }
        return Ok(found);
    }
    let (above, below) = sides(alloc, count, pairs)?;
    let others = all_bits(above.len()) & !bit(usize::from(class));
    let highest = ends(alloc, &above, others)?;
    let lowest = ends(alloc, &below, others)?;
    match rank {
        Rank::Above => put_class(&mut found, &highest, class, &[])?,
        Rank::Below => put_class(&mut found, &[], class, &lowest)?,
        _ => put_class(&mut found, &lowest, class, &highest)?,
    }
    Ok(found)
}

/// The pairs that place a class so that the order is a lattice.
pub fn placements(
    alloc: Global,
    count: usize,
    pairs: &[(u8, u8)],
    class: u8,
) -> Result<Vec<Placement>, AllocError>
    ensures { IfOk result (λ found. All
        (λ placed. IsLatticeWith count pairs.now 0 placed.pairs.items) found.items) }
{
    let mut found = Vec::new(alloc);
    for rank in RANKS {
        let added = placing(alloc, count, pairs, class, rank)?;
        if is_lattice_with(alloc, count, pairs, 0, &added)? {
            found.push(Placement { rank, pairs: added })?;
        }
    }
    Ok(found)
}
