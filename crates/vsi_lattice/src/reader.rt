//! Reads a lattice file: its names, its pairs and the reasons why it is refused.

ghost use Rattle.std.specs.Prelude.{◌≡◌, ℕ, ◌<◌, ◌≤◌, List, [], ◌∷◌, ◌++◌, true, false, length, map, IfOk, IfErr, OnOk, IfSome, IfNone, Some, None, string_bytes, option_map, option_and_then, codes};
ghost use Rattle.vsi_lattice.specs.{NamePlaces.{texts, text_pairs, owned, place_in, IsLeast, Never, IsBadName, StandsIn, StandsEarlier, IsUnknown, IsUnknownAt, number_of}, FileFaults.{TellsDuplicate, TellsUnknown, IsFault, IsAccepted, IsOf, IsRead, ExplainsLattice}, Pairs.{ArePairsBelow}, Shape.{IsToml, all_of, pair_of, array_at, file_of, shown, File, IsFile}};
ghost use Rattle.toml.specs.{Data.{Members, as_str, as_array, get_member}, View.{table_view, items_view, view}};
ghost use Rattle.vsi_lattice.specs.declared.reader.LatticeError.TheVariants as errors;
ghost use Rattle.vsi_lattice.specs.LatticeView as spec;

use crate::lattice::Lattice;
use crate::order::{Class, MaskLattice, OrderError};
use std::alloc::{AllocError, AllocFailed, Global};
use thiserror::Error;
use toml::{Table, Value};
use vsi_syntax::is_name;

/// Why a lattice file is refused. Faults are checked in the order in which they are listed here.
#[derive(Clone, Copy, Debug, PartialEq, Eq, Error)]
pub enum LatticeError {
    /// Memory ran out while reading the file.
    #[error("out of memory")]
    Memory,
    /// The text is not a TOML document.
    #[error("the lattice file is no TOML")]
    NotToml,
    /// The document has keys other than `classes` and `below`, or values of other types there.
    #[error("the lattice file has other keys than `classes` and `below`, or other types there")]
    BadShape,
    /// There is no class.
    #[error("there is no class")]
    NoClass,
    /// There are more than 64 classes.
    #[error("there are more than 64 classes")]
    TooManyClasses,
    /// The class at this position in `classes` has no name.
    #[error("the class at place {0} has no name")]
    BadName(usize),
    /// The class at this position in `classes` has the name of an earlier one.
    #[error("the class at place {0} has the name of an earlier one")]
    DuplicateName(usize),
    /// The pair at this position in `below` has a name that is not a class.
    #[error("the pair at place {0} names no class")]
    UnknownName(usize),
    /// Two classes that are below each other.
    #[error("classes {low} and {high} are below each other", low = .0.index(), high = .1.index())]
    Cycle(Class, Class),
    /// Two classes without a least class above both.
    #[error("no class is the least above {low} and {high}", low = .0.index(), high = .1.index())]
    NoJoin(Class, Class),
    /// Two classes without a greatest class below both.
    #[error("no class is the greatest below {low} and {high}", low = .0.index(), high = .1.index())]
    NoMeet(Class, Class),
}

impl From<AllocError> for LatticeError {
    ghost use Rattle.vsi_lattice.specs.declared.reader.LatticeError.TheVariants.{Memory};

    ghost from_gives = { λ _ e. e ≡ Memory };

    fn from(_e: AllocError) -> LatticeError {
        LatticeError::Memory
    }
}

impl<T: Drop> From<AllocFailed<T>> for LatticeError {
    ghost use Rattle.vsi_lattice.specs.declared.reader.LatticeError.TheVariants.{Memory};

    ghost from_gives = { λ _ e. e ≡ Memory };

    fn from(_e: AllocFailed<T>) -> LatticeError {
        LatticeError::Memory
    }
}

impl From<OrderError> for LatticeError {
    ghost use Rattle.vsi_lattice.specs.FileFaults.{of_order};

    ghost from_gives = { λ o e. e ≡ of_order o };

    fn from(e: OrderError) -> LatticeError {
        match e {
            OrderError::Memory => LatticeError::Memory,
            OrderError::Cycle(a, b) => LatticeError::Cycle(a, b),
            OrderError::NoJoin(a, b) => LatticeError::NoJoin(a, b),
            OrderError::NoMeet(a, b) => LatticeError::NoMeet(a, b),
        }
    }
}

/// The first position of a name.
pub(crate) fn place_of(names: &[String], name: &[u8]) -> Option<usize>
    ensures place { result ≡ place_in (owned names.now) name.now }
    ensures within { IfSome result (λ k. k < length names.now) }
{
    for i in 0..names.len() {
        if names[i].as_bytes() == name {
            return Some(i);
        }
    }
    None
}

/// The position of the first text that is not a valid name.
pub(crate) fn first_bad(names: &[&str]) -> Option<usize>
    ensures some { IfSome result (IsLeast (IsBadName (texts names.now))) }
    ensures none { IfNone result (Never (IsBadName (texts names.now))) }
{
    for i in 0..names.len() {
        if !is_name(names[i].as_bytes()) {
            return Some(i);
        }
    }
    None
}

/// The positions of two names.
pub(crate) fn number(names: &[String], low: &str, high: &str) -> Option<(u8, u8)>
    requires few { length names.now ≤ 64 }
    ensures some { IfSome result (λ p. p ≡ number_of (owned names.now) (low.now, high.now)) }
    ensures known { IfSome result (λ p. ¬ (IsUnknown (owned names.now) (low.now, high.now))) }
    ensures below { IfSome result (λ p. (p.0 < length names.now) × (p.1 < length names.now)) }
    ensures none { IfNone result (IsUnknown (owned names.now) (low.now, high.now)) }
{
    let Some(a) = place_of(names, low.as_bytes()) else {
        return None;
    };
    let Some(b) = place_of(names, high.as_bytes()) else {
        return None;
    };
    Some((a as u8, b as u8))
}

/// The names as owned texts, in order, if they are distinct. There are at most 64, so that each is
/// compared with those before it.
pub(crate) fn collect_names(alloc: Global, names: &[&str]) -> Result<Vec<String>, LatticeError>
    ensures names { IfOk result (λ list. owned list.items ≡ texts names.now) }
    ensures distinct { OnOk result (Never (StandsEarlier (texts names.now))) }
    ensures duplicate { IfErr result (TellsDuplicate (texts names.now)) }
{
    let mut list = Vec::new(alloc);
    for i in 0..names.len() {
        if let Some(_) = place_of(&list, names[i].as_bytes()) {
            return Err(LatticeError::DuplicateName(i));
        }
        let name = String::from_str(alloc, names[i])?;
        let Ok(()) = list.push(name) else {
            return Err(LatticeError::Memory);
        };
    }
    Ok(list)
}

/// The pairs of positions of their names.
pub(crate) fn number_pairs(
    alloc: Global,
    names: &[String],
    pairs: &[(&str, &str)],
) -> Result<Vec<(u8, u8)>, LatticeError>
    requires few { length names.now ≤ 64 }
    ensures numbers { IfOk result
        (λ v. v.items ≡ map (number_of (owned names.now)) (text_pairs pairs.now)) }
    ensures below { IfOk result (λ v. ArePairsBelow (length names.now) v.items) }
    ensures known { OnOk result (Never (IsUnknownAt (owned names.now) (text_pairs pairs.now))) }
    ensures unknown { IfErr result (TellsUnknown (owned names.now) (text_pairs pairs.now)) }
{
    let mut numbers = Vec::new(alloc);
    for i in 0..pairs.len() {
        let (low, high) = pairs[i];
        let Some(both) = number(names, low, high) else {
            return Err(LatticeError::UnknownName(i));
        };
        let Ok(()) = numbers.push(both) else {
            return Err(LatticeError::Memory);
        };
    }
    Ok(numbers)
}

/// Why a text is not a table.
#[derive(Clone, Copy, Debug, PartialEq, Eq)]
pub(crate) enum TextError {
    /// Memory ran out while reading the text.
    Memory,
    /// The text is not a TOML document.
    NotToml,
}

/// The table that the text denotes.
pub(crate) fn read_table(alloc: Global, text: &[u8]) -> Result<Table, TextError>
    ensures ok { IfOk result (λ t. IsToml text.now (table_view t)) }
    ensures not_toml { IfErr result
        (λ e. e ≡ TextError.NotToml → (ms : Members) → ¬ (IsToml text.now ms)) }
{
    match toml::table_from_slice(alloc, text) {
        Ok(table) => Ok(table),
        Err(e) => {
            if e.is_memory() {
                Err(TextError::Memory)
            } else {
                Err(TextError::NotToml)
            }
        }
    }
}

/// The texts of an array, or nothing if an item is not a string.
fn texts<'t>(alloc: Global, array: &'t [Value]) -> Result<Option<Vec<&'t str>>, AllocError>
    ensures { IfOk result
        (λ found. option_map (λ v. texts v.items) found ≡ all_of as_str (items_view array.now)) }
{
    let mut found = Vec::new(alloc);
    for value in array {
        let Some(text) = value.as_str() else {
            return Ok(None);
        };
        found.push(text)?;
    }
    Ok(Some(found))
}

/// The two texts of the value, if it is an array of exactly two texts.
fn pair<'t>(value: &'t Value) -> Option<(&'t str, &'t str)>
    ensures { option_map (λ p. (p.0.now, p.1.now)) result ≡ pair_of (view value.now) }
{
    let array = value.as_array()?;
    if array.len() != 2 {
        return None;
    }
    let low = array[0].as_str()?;
    let high = array[1].as_str()?;
    Some((low, high))
}

/// The pairs of an array, or nothing if an item is not a pair.
fn pairs<'t>(
    alloc: Global,
    array: &'t [Value],
) -> Result<Option<Vec<(&'t str, &'t str)>>, AllocError>
    ensures { IfOk result (λ found. option_map (λ v. text_pairs v.items) found ≡ all_of pair_of
        (items_view array.now)) }
{
    let mut found = Vec::new(alloc);
    for value in array {
        let Some(both) = pair(value) else {
            return Ok(None);
        };
        found.push(both)?;
    }
    Ok(Some(found))
}

/// The value at a key of a table.
fn value_at<'t>(table: &'t Table, key: &str) -> Option<&'t Value>
    ensures { option_map (λ v. view v.now) result ≡ get_member key.now (table_view table.now) }
{
    table.get(key)
}

/// The array at a key of a table.
fn array_in<'t>(table: &'t Table, key: &str) -> Option<&'t [Value]>
    ensures { option_map (λ a. items_view a.now) result ≡ option_and_then as_array
        (get_member key.now (table_view table.now)) }
{
    let Some(value) = value_at(table, key) else {
        return None;
    };
    let Some(array) = value.as_array() else {
        return None;
    };
    Some(array.as_slice())
}

/// The strings at `classes`.
fn names_in<'t>(alloc: Global, table: &'t Table) -> Result<Option<Vec<&'t str>>, AllocError>
    ensures { IfOk result (λ found. option_map (λ v. texts v.items) found ≡ array_at as_str (codes "classes")
        (table_view table.now)) }
{
    let Some(array) = array_in(table, "classes") else {
        return Ok(None);
    };
    texts(alloc, array)
}

/// The pairs of strings at `below`.
fn pairs_in<'t>(
    alloc: Global,
    table: &'t Table,
) -> Result<Option<Vec<(&'t str, &'t str)>>, AllocError>
    ensures { IfOk result (λ found. option_map (λ v. text_pairs v.items) found ≡ array_at pair_of (codes "below")
        (table_view table.now)) }
{
    let Some(array) = array_in(table, "below") else {
        return Ok(None);
    };
    pairs(alloc, array)
}

/// The contents of a lattice file: the names of its classes, and the pairs.
#[derive(Drop)]
pub(crate) struct FileParts<'t> {
    pub(crate) names: Vec<&'t str>,
    pub(crate) pairs: Vec<(&'t str, &'t str)>,
}

/// The names and pairs of a table, or nothing if it has another shape.
pub(crate) fn read_parts<'t>(
    alloc: Global,
    table: &'t Table,
) -> Result<Option<FileParts<'t>>, AllocError>
    ensures { IfOk result
        (λ found. option_map (λ parts. shown parts.names.items parts.pairs.items) found
        ≡ file_of (table_view table.now)) }
{
    if table.len() != 2 {
        return Ok(None);
    }
    let Some(names) = names_in(alloc, table)? else {
        return Ok(None);
    };
    let Some(pairs) = pairs_in(alloc, table)? else {
        return Ok(None);
    };
    Ok(Some(FileParts { names, pairs }))
}

/// The greatest number of classes.
const MAX_CLASSES: usize = 64;

/// The lattice with these names and pairs of names.
fn lattice_of(
    alloc: Global,
    names: &[&str],
    pairs: &[(&str, &str)],
) -> Result<Lattice, LatticeError>
    ensures ok { IfOk result (λ l. IsOf (shown names.now pairs.now) (spec.names l) (spec.order l)) }
    ensures refused { IfErr result (IsFault (shown names.now pairs.now)) }
{
    if names.is_empty() {
        return Err(LatticeError::NoClass);
    }
    if names.len() > MAX_CLASSES {
        return Err(LatticeError::TooManyClasses);
    }
    if let Some(i) = first_bad(names) {
        return Err(LatticeError::BadName(i));
    }
    let list = collect_names(alloc, names)?;
    let numbers = number_pairs(alloc, &list, pairs)?;
    match MaskLattice::new(alloc, names.len(), &numbers) {
        Ok(order) => Ok(Lattice::new(list, order)),
        Err(e) => Err(LatticeError::from(e)),
    }
}

/// The lattice that a TOML text declares: `classes`, an array of 1 to 64 distinct names, and
/// `below`, an array of pairs of them with the lower class first. The order is the reflexive and
/// transitive closure of the pairs. The error is the first fault, in the order in which
/// `LatticeError` lists them.
pub fn read_lattice(alloc: Global, text: &[u8]) -> Result<Lattice, LatticeError>
    ensures read { IfOk result (λ l. IsRead text.now (spec.names l) (spec.order l)) }
    ensures refused { IfErr result (ExplainsLattice text.now) }
    ensures accepted { (f : File) → IsFile text.now f → IsAccepted f →
        IfErr result (λ e. e ≡ errors.Memory) }
{
    let table = match read_table(alloc, text) {
        Ok(table) => table,
        Err(TextError::Memory) => return Err(LatticeError::Memory),
        Err(TextError::NotToml) => return Err(LatticeError::NotToml),
    };
    let Some(parts) = read_parts(alloc, &table)? else {
        return Err(LatticeError::BadShape);
    };
    lattice_of(alloc, &parts.names, &parts.pairs)
}
