//! Reads an interface file.

ghost use Rattle.std.specs.{Prelude.{◌≡◌, ◌≤◌, length, take, codes, Some, None, false, IfOk, OnOk, option_map, string_bytes}, Str.{IsUtf8}, Str.Lossy.{utf8_lossy}};
ghost use Rattle.toml.specs.{Data.{get_member}, View.{table_view, view}};
ghost use Rattle.vsi_image.specs.Fields.{globals};
ghost use Rattle.vsi_conform.specs.{Beside.{IsInside, beside, folder}, Tables.{with_copy}};
ghost use Rattle.vsi_lattice.specs.LatticeView.{class_named};
ghost use Rattle.vsi_store.specs.View.{first_unknown};
ghost use Rattle.vsi_lattice.specs.Shape as shape;
ghost use Rattle.vsi_conform.specs.Reading as spec;

use crate::conforming::is_named;
use crate::interface::{Bounded, Interface, InterfaceError, Judgement};
use crate::keys::{
    Cycle, cycles_in, natural, other_key, path_at, table_in, text_at, trials_in, value_at,
};
use std::alloc::{AllocError, Global};
use toml::{Table, Value};
use vsi_lattice::Lattice;
use vsi_syntax::is_name;

/// The keys of an interface.
const KEYS: [&str; 10] = [
    "lattice",
    "classes",
    "below",
    "profile",
    "order",
    "bounded",
    "globals",
    "runs",
    "cycle",
    "reference",
];

/// The most globals of a program.
const MOST_GLOBALS: usize = 256;

/// The place of an interface's lattice.
#[derive(Debug, Drop)]
pub enum Policy {
    /// The lattice file at this path, which is relative to the folder of the interface and doesn't
    /// lead out of it.
    File(Vec<u8>),
    /// The interface itself: the text of a lattice file with its tables.
    Tables(Vec<u8>),
}

/// The contents of an interface file.
#[derive(Debug, Drop)]
pub struct InterfaceFile {
    /// The lattice.
    pub policy: Policy,
    /// The requirements on a text.
    pub interface: Interface,
    /// The boundaries of controllers, at most one for each class.
    pub cycles: Vec<Cycle>,
    /// The path of the reference, which is relative to the folder of the interface and doesn't lead
    /// out of it.
    pub reference: Option<Vec<u8>>,
}

/// The path of a file that an interface names, taken relative to the folder of the interface.
pub fn path_beside(alloc: Global, interface: &str, path: &[u8]) -> Result<String, AllocError>
    ensures path { IfOk result (λ found. IsUtf8 (beside interface.now path.now)
        → string_bytes found ≡ beside interface.now path.now) }
    ensures lossy { IfOk result
        (λ found. string_bytes found ≡ utf8_lossy (beside interface.now path.now)) }
{
    let folder = if path.starts_with(b"/") {
        0
    } else {
        folder_length(interface.as_bytes())
    };
    let mut bytes = Vec::from_slice(alloc, &interface.as_bytes()[..folder])?;
    bytes.extend_from_slice(path)?;
    String::from_utf8_lossy(alloc, &bytes)
}

/// The number of bytes of a path that name its folder, including the slash at its end.
fn folder_length(path: &[u8]) -> usize
    ensures folder { take result path.now ≡ folder path.now }
    ensures within { result ≤ length path.now }
{
    for i in (0..path.len()).rev() {
        if path[i] == b'/' {
            return i + 1;
        }
    }
    0
}

/// Copies the value at a key from one table to another.
fn put_copy(alloc: Global, tables: &mut Table, table: &Table, key: &str) -> Result<(), AllocError>
    ensures { OnOk result (table_view tables.new
        ≡ with_copy key.now (table_view table.now) (table_view tables.old)) }
{
    let Some(value) = value_at(table, key) else {
        return Ok(());
    };
    let copy = value.clone()?;
    let name = String::from_str(alloc, key)?;
    drop(tables.insert(name, copy)?);
    Ok(())
}

/// The place of the lattice.
fn policy_in(alloc: Global, table: &Table) -> Result<Policy, InterfaceError>
    ensures policy { IfOk result (spec.IsPolicy (table_view table.now)) }
    ensures inside { IfOk result IsInside }
{
    let lattice = value_at(table, "lattice");
    match (
        lattice,
        value_at(table, "classes"),
        value_at(table, "below"),
    ) {
        (Some(_), None, None) => {
            let path = path_at(table, "lattice").ok_or(InterfaceError::BadLattice)?;
            Ok(Policy::File(Vec::from_slice(alloc, path)?))
        }
        (Some(_), _, _) | (None, None, None) => Err(InterfaceError::BadLattice),
        (None, _, _) => {
            let mut tables = Table::new(alloc);
            put_copy(alloc, &mut tables, table, "classes")?;
            put_copy(alloc, &mut tables, table, "below")?;
            match toml::table_to_string(alloc, &tables) {
                Ok(text) => Ok(Policy::Tables(text.into_bytes())),
                Err(_) => Err(InterfaceError::Memory),
            }
        }
    }
}

/// How a text must be accepted.
fn judgement_in(table: &Table) -> Option<Judgement>
    ensures { result ≡ spec.judgement_at (table_view table.now) }
{
    match text_at(table, "profile")? {
        "base" => Some(Judgement::Base),
        "strict" => Some(Judgement::Strict),
        "steady" => Some(Judgement::Steady),
        _ => None,
    }
}

/// Whether the order of the globals is required.
fn order_in(table: &Table) -> Option<bool>
    ensures { result ≡ spec.order_from (get_member (codes "order") (table_view table.now)) }
{
    let Some(value) = value_at(table, "order") else {
        return Some(true);
    };
    match value.as_str()? {
        "exact" => Some(true),
        "set" => Some(false),
        _ => None,
    }
}

/// The required bound: a value `true` or `false`, or a maximum, which is at least 1.
fn bounded_in(table: &Table) -> Option<Bounded>
    ensures { result ≡ spec.bounded_from (get_member (codes "bounded") (table_view table.now)) }
{
    let Some(value) = value_at(table, "bounded") else {
        return Some(Bounded::No);
    };
    match value.as_bool() {
        Some(true) => Some(Bounded::Yes),
        Some(false) => Some(Bounded::No),
        None => match natural(value.as_integer()?)? {
            0 => None,
            maximum => Some(Bounded::AtMost(maximum)),
        },
    }
}

/// The two texts of an array with exactly two elements.
fn pair_of(value: &Value) -> Option<(&str, &str)>
    ensures { option_map (λ p. (p.0.now, p.1.now)) result ≡ shape.pair_of (view value.now) }
{
    let array = value.as_array()?;
    if array.len() != 2 {
        return None;
    }
    let name = array[0].as_str()?;
    let class = array[1].as_str()?;
    Some((name, class))
}

/// The required globals, each with a name that no earlier one has.
fn globals_in(alloc: Global, table: &Table) -> Result<Vec<(Vec<u8>, Vec<u8>)>, InterfaceError>
    ensures { IfOk result
        (λ found. spec.globals_at (table_view table.now) ≡ Some (globals found.items)) }
{
    let value = value_at(table, "globals").ok_or(InterfaceError::BadGlobals)?;
    let values = value.as_array().ok_or(InterfaceError::BadGlobals)?;
    let array = values.as_slice();
    if array.len() > MOST_GLOBALS {
        return Err(InterfaceError::BadGlobals);
    }
    let mut found = Vec::new(alloc);
    for value in array {
        let pair = pair_of(value).ok_or(InterfaceError::BadGlobals)?;
        let name = Vec::from_slice(alloc, pair.0.as_bytes())?;
        if !is_name(&name) {
            return Err(InterfaceError::BadName(name));
        }
        if is_named(&found, &name) {
            return Err(InterfaceError::RepeatedGlobal(name));
        }
        let class = Vec::from_slice(alloc, pair.1.as_bytes())?;
        found.push((name, class))?;
    }
    Ok(found)
}

/// The contents of an interface file. Whether its classes are classes of the lattice isn't checked.
///
/// # Errors
///
/// `NotToml` if the text is no document, isn't UTF-8, or has an integer beyond 64 bits; otherwise
/// the first fault in the order keys, lattice, profile, order, bound, globals, runs, cycles,
/// reference.
pub fn read_interface(alloc: Global, text: &[u8]) -> Result<InterfaceFile, InterfaceError>
    ensures read { IfOk result (spec.IsReadAs text.now) }
    ensures inside { IfOk result (λ asked. IsInside asked.policy) }
{
    let table = table_in(alloc, text)?;
    if let Some(key) = other_key(&table, &KEYS) {
        let name = Vec::from_slice(alloc, key.as_bytes())?;
        return Err(InterfaceError::UnknownKey(name));
    }
    let policy = policy_in(alloc, &table)?;
    let judgement = judgement_in(&table).ok_or(InterfaceError::BadProfile)?;
    let is_ordered = order_in(&table).ok_or(InterfaceError::BadOrder)?;
    let bounded = bounded_in(&table).ok_or(InterfaceError::BadBounded)?;
    let globals = globals_in(alloc, &table)?;
    let trials = trials_in(alloc, &table, &globals)?;
    let cycles = cycles_in(alloc, &table, &globals)?;
    let reference = match value_at(&table, "reference") {
        Some(_value) => {
            let path = path_at(&table, "reference").ok_or(InterfaceError::BadReference)?;
            Some(Vec::from_slice(alloc, path)?)
        }
        None => None,
    };
    let interface = Interface {
        judgement,
        is_ordered,
        bounded,
        globals,
        trials,
    };
    Ok(InterfaceFile {
        policy,
        interface,
        cycles,
        reference,
    })
}

/// The number, from 0, of the first required global whose class isn't in the lattice.
pub fn unknown_class(lattice: &Lattice, interface: &Interface) -> Option<usize>
    ensures { result
        ≡ first_unknown (class_named lattice.now) 0 (globals interface.now.globals.items) }
{
    for (i, entry) in interface.globals.as_slice().iter().enumerate() {
        if lattice.class_named(entry.1.as_slice()).is_none() {
            return Some(i);
        }
    }
    None
}
