//! Calls about classes and their order.

ghost use Rattle.std.specs.Prelude.{IfOk};
ghost use Rattle.vsi_lattice.specs.Pairs.{ArePairsBelow};

use crate::row::{Row, Wrong};
use vsi_answers::Fault;
use vsi_lattice::{Class, Classes, Lattice, MaskLattice, OrderError, PairLattice, read_lattice};

/// Adds the line of a class, if there is one of this number: for each class, whether the first is
/// at or below that one, their join and their meet.
fn put_class<C: Classes>(row: &mut Row<'_>, lattice: &C, number: u8) -> Result<(), Wrong> {
    if usize::from(number) >= lattice.count() {
        return Ok(());
    }
    write!(row.answer, "{number}:")?;
    for other in 0..64u8 {
        let (low, high) = (Class::at(number), Class::at(other));
        if low.index() >= lattice.count() || high.index() >= lattice.count() {
            continue;
        }
        let sign = if lattice.leq(low, high) { '<' } else { '.' };
        let join = lattice.join(low, high).index();
        let meet = lattice.meet(low, high).index();
        write!(row.answer, " {sign}{join}/{meet}")?;
    }
    row.put("\n")
}

/// Adds a line for each class.
fn put_order<C: Classes>(row: &mut Row<'_>, lattice: &C) -> Result<(), Wrong> {
    let (bottom, top) = (lattice.bottom().index(), lattice.top().index());
    writeln!(row.answer, "bottom {bottom} top {top}")?;
    for number in 0..64u8 {
        put_class(row, lattice, number)?;
    }
    Ok(())
}

/// `lattice TEXT`: the classes of a lattice file and their order, or the line of the refusal.
pub(crate) fn read(row: &mut Row<'_>) -> Result<(), Wrong> {
    let text = row.text()?;
    match read_lattice(row.alloc, &text) {
        Ok(lattice) => {
            row.put("classes")?;
            for number in 0..64u8 {
                let class = Class::at(number);
                if class.index() < lattice.count() {
                    row.put(" ")?;
                    row.put_bytes(lattice.name(class))?;
                }
            }
            row.put("\n")?;
            put_order(row, &lattice)
        }
        Err(error) => row.put_fault(&Fault::Lattice(error)),
    }
}

/// Adds the lines of an order or its fault.
fn put_made<C: Classes + Drop>(
    row: &mut Row<'_>,
    made: Result<C, OrderError>,
) -> Result<(), Wrong> {
    match made {
        Ok(lattice) => put_order(row, &lattice),
        Err(error) => row.put_line(&error),
    }
}

/// The pairs `LOW<HIGH` of a field, separated by commas, if they are of numbers below a count.
fn pairs_below(row: &mut Row<'_>, count: u8) -> Result<Vec<(u8, u8)>, Wrong>
    ensures below { IfOk result (λ pairs. ArePairsBelow count pairs.items) }
{
    let mut pairs = Vec::new(row.alloc);
    for pair in row.field().split(',') {
        let (low, high) = pair.split_once('<').unwrap_or(("", ""));
        let (low, high) = (low.parse::<u8>()?, high.parse::<u8>()?);
        if low >= count || high >= count {
            return Err(Wrong::Row);
        }
        pairs.push((low, high))?;
    }
    Ok(pairs)
}

/// `mask COUNT PAIRS` and `pair COUNT PAIRS`: the order of this many classes that pairs `LOW<HIGH`
/// of their numbers declare, or its fault, by either form.
pub(crate) fn order(row: &mut Row<'_>, is_mask: bool) -> Result<(), Wrong> {
    let count = u8::try_from(row.small()?).unwrap_or(0);
    if count == 0 || count > 64 {
        return Err(Wrong::Row);
    }
    let pairs = pairs_below(row, count)?;
    if is_mask {
        put_made(row, MaskLattice::new(row.alloc, usize::from(count), &pairs))
    } else {
        put_made(row, PairLattice::new(row.alloc, usize::from(count), &pairs))
    }
}
