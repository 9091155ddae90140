//! Reads the tables of an interface file: the runs, and the boundary of each cycle.

ghost use Rattle.std.specs.{Prelude.{◌≡◌, false, true, IfOk, MatchResult, option_map, map, codes, Some, IfSome}, Option.{MatchOption, option_copied}, List.{All}};
ghost use Rattle.toml.specs.{Data.{get_member, as_bool, as_table, as_str}, View.{table_view, view, items_view}};
ghost use Rattle.vsi_conform.specs.{declared.interface.InterfaceError.TheVariants.{Memory, NotToml}, Points.{entries}};
ghost use Rattle.vsi_lattice.specs.LatticeView.{class_named};
ghost use Rattle.vsi_conform.specs.Reading as spec;
ghost use Rattle.vsi_image.specs.Fields as image;
ghost use Rattle.vsi_conform.specs.Beside as beside_spec;
ghost use Rattle.vsi_lattice.specs.Shape as shape;

use crate::conforming::is_named;
use crate::interface::{InterfaceError, Trial};
use std::alloc::{AllocError, Global};
use toml::{Table, Value};
use vsi_lattice::Lattice;

/// The table of a document.
pub(crate) fn table_in(alloc: Global, text: &[u8]) -> Result<Table, InterfaceError>
    ensures { MatchResult result
        (λ t. spec.IsDocument text.now (table_view t)) (spec.IsNoTable text.now) }
{
    match toml::table_from_slice(alloc, text) {
        Ok(table) => Ok(table),
        Err(error) if error.is_memory() => Err(InterfaceError::Memory),
        Err(_) => Err(InterfaceError::NotToml),
    }
}

/// The value at a key of a table.
pub(crate) fn value_at<'t>(table: &'t Table, key: &str) -> Option<&'t Value>
    ensures { option_map (λ v. view v.now) result ≡ get_member key.now (table_view table.now) }
{
    table.get(key)
}

/// Whether the key is one of these.
fn is_among(keys: &[&str], key: &str) -> bool
    ensures { result ≡ spec.is_among (spec.shown keys.now) key.now }
{
    for allowed in keys {
        if allowed.as_bytes() == key.as_bytes() {
            return true;
        }
    }
    false
}

/// The first key in byte order that isn't one of these.
pub(crate) fn other_key<'t>(table: &'t Table, keys: &[&str]) -> Option<&'t str>
    ensures { MatchOption result
        (spec.has_keys (spec.shown keys.now) (table_view table.now) ≡ true)
        (λ key. spec.is_among (spec.shown keys.now) key.now ≡ false) }
{
    for (key, _value) in table {
        if !is_among(keys, key.as_str()) {
            return Some(key.as_str());
        }
    }
    None
}

/// The text at a key.
pub(crate) fn text_at<'t>(table: &'t Table, key: &str) -> Option<&'t str>
    ensures { option_copied result ≡ spec.text_at key.now (table_view table.now) }
{
    value_at(table, key)?.as_str()
}

/// The table of a value, if it has no keys but these.
pub(crate) fn table_of<'t>(value: &'t Value, keys: &[&str]) -> Option<&'t Table>
    ensures table { IfSome result (λ t. as_table (view value.now) ≡ Some (table_view t.now)) }
    ensures keys { IfSome result
        (λ t. spec.has_keys (spec.shown keys.now) (table_view t.now) ≡ true) }
{
    let table = value.as_table()?;
    match other_key(table, keys) {
        Some(_) => None,
        None => Some(table),
    }
}

/// The elements of the array at a key; without the key there are none.
pub(crate) fn elements_at<'t>(table: &'t Table, key: &str) -> Option<&'t [Value]>
    ensures { option_map (λ e. items_view e.now) result
        ≡ spec.elements_from (get_member key.now (table_view table.now)) }
{
    let Some(value) = value_at(table, key) else {
        return Some(&[]);
    };
    let array = value.as_array()?;
    Some(array.as_slice())
}

/// A number of at least 0.
pub(crate) fn natural(number: i64) -> Option<u64>
    ensures { result ≡ spec.natural number }
{
    if number < 0 {
        None
    } else {
        Some(number as u64)
    }
}

/// The names and the words of a table; nothing if a value isn't a number.
fn numbers_of(alloc: Global, table: &Table) -> Result<Option<Vec<(Vec<u8>, i64)>>, AllocError>
    ensures { IfOk result (λ found. option_map (λ es. entries es.items) found
        ≡ spec.numbers_of (table_view table.now)) }
{
    let mut found = Vec::new(alloc);
    for (key, value) in table {
        let Some(word) = value.as_integer() else {
            return Ok(None);
        };
        let name = Vec::from_slice(alloc, key.as_bytes())?;
        found.push((name, word))?;
    }
    Ok(Some(found))
}

/// The keys of a run.
const RUN_KEYS: [&str; 4] = ["store", "budget", "expect", "halts"];

/// The budget of a run.
fn budget_in(table: &Table) -> Option<u64>
    ensures { result ≡ spec.budget_from (get_member (codes "budget") (table_view table.now)) }
{
    let budget = value_at(table, "budget")?.as_integer()?;
    natural(budget)
}

/// A run or a boundary that is read.
#[derive(Clone, Copy)]
pub(crate) struct Section<'a> {
    pub(crate) alloc: Global,
    /// Its number, from 1.
    pub(crate) number: usize,
    /// The globals that it may name.
    pub(crate) globals: &'a [(Vec<u8>, Vec<u8>)],
}

impl Section<'_> {
    /// The entries of a table of numbers, whose names must be globals; nothing for another value.
    fn entries(&self, value: &Value) -> Result<Option<Vec<(Vec<u8>, i64)>>, InterfaceError>
        ensures entries { IfOk result (λ found. option_map (λ es. entries es.items) found
            ≡ spec.entries_of (view value.now)) }
        ensures named { IfOk result (λ found. IfSome found (λ es.
            spec.are_named (image.globals self.now.globals.now) (entries es.items) ≡ true)) }
    {
        let Some(table) = value.as_table() else {
            return Ok(None);
        };
        let Some(found) = numbers_of(self.alloc, table)? else {
            return Ok(None);
        };
        for entry in &found {
            if !is_named(self.globals, &entry.0) {
                let name = Vec::from_slice(self.alloc, &entry.0)?;
                return Err(InterfaceError::UnknownGlobal(self.number, name));
            }
        }
        Ok(Some(found))
    }

    /// The store of a run; without one it is empty.
    fn store(&self, table: &Table) -> Result<Vec<(Vec<u8>, i64)>, InterfaceError>
        ensures store { IfOk result (λ store. spec.store_from
            (get_member (codes "store") (table_view table.now)) ≡ Some (entries store.items)) }
        ensures named { IfOk result (λ store.
            spec.are_named (image.globals self.now.globals.now) (entries store.items) ≡ true) }
    {
        let Some(value) = value_at(table, "store") else {
            return Ok(Vec::new(self.alloc));
        };
        self.entries(value)?
            .ok_or(InterfaceError::BadStore(self.number))
    }

    /// The required final values of a run; none if it only has to halt.
    fn expect(&self, table: &Table) -> Result<Vec<(Vec<u8>, i64)>, InterfaceError>
        ensures expect { IfOk result (λ expect. spec.expect_from
            (get_member (codes "expect") (table_view table.now))
            (get_member (codes "halts") (table_view table.now)) ≡ Some (entries expect.items)) }
        ensures named { IfOk result (λ expect.
            spec.are_named (image.globals self.now.globals.now) (entries expect.items) ≡ true) }
    {
        match (value_at(table, "expect"), value_at(table, "halts")) {
            (Some(value), None) => self
                .entries(value)?
                .ok_or(InterfaceError::NothingExpected(self.number)),
            (None, Some(halts)) if matches!(halts.as_bool(), Some(true)) => {
                Ok(Vec::new(self.alloc))
            }
            _ => Err(InterfaceError::NothingExpected(self.number)),
        }
    }

    /// A run.
    fn trial(&self, value: &Value) -> Result<Trial, InterfaceError>
        ensures run { IfOk result (λ trial. spec.run_of (view value.now) ≡ Some (spec.run trial)) }
        ensures named { IfOk result
            (λ trial. spec.NamesGlobals (image.globals self.now.globals.now) (spec.run trial)) }
    {
        let table = table_of(value, &RUN_KEYS).ok_or(InterfaceError::BadRun(self.number))?;
        let store = self.store(table)?;
        let budget = budget_in(table).ok_or(InterfaceError::NoBudget(self.number))?;
        let expect = self.expect(table)?;
        Ok(Trial {
            store,
            budget,
            expect,
        })
    }
}

/// The required runs.
pub(crate) fn trials_in(
    alloc: Global,
    table: &Table,
    globals: &[(Vec<u8>, Vec<u8>)],
) -> Result<Vec<Trial>, InterfaceError>
    ensures runs { IfOk result (λ trials. spec.runs_from
        (get_member (codes "runs") (table_view table.now)) ≡ Some (map spec.run trials.items)) }
    ensures named { IfOk result (λ trials. All (spec.NamesGlobals (image.globals globals.now))
        (map spec.run trials.items)) }
{
    let array = elements_at(table, "runs").ok_or(InterfaceError::BadRuns)?;
    let mut trials = Vec::new(alloc);
    for (i, item) in array.iter().enumerate() {
        let section = Section {
            alloc,
            number: i.saturating_add(1),
            globals,
        };
        let trial = section.trial(item)?;
        trials.push(trial)?;
    }
    Ok(trials)
}

/// Whether the first part of a path is `..`.
fn is_parent(path: &[u8]) -> bool
    ensures { result ≡ beside_spec.is_parent path.now }
{
    matches!(path, [b'.', b'.'] | [b'.', b'.', b'/', ..])
}

/// The path at a key, if it doesn't lead out of the folder that it is taken in.
pub(crate) fn path_at<'t>(table: &'t Table, key: &str) -> Option<&'t [u8]>
    ensures path { IfSome result (λ p. spec.text_at key.now (table_view table.now) ≡ Some p.now) }
    ensures inside { IfSome result (λ p. beside_spec.leads_out p.now ≡ false) }
{
    let path = text_at(table, key)?.as_bytes();
    if path.starts_with(b"/") || is_parent(path) {
        return None;
    }
    let mut rest = path;
    while let [byte, behind @ ..] = rest {
        if *byte == b'/' && is_parent(behind) {
            return None;
        }
        rest = behind;
    }
    Some(path)
}

/// The keys of a boundary.
const CYCLE_KEYS: [&str; 5] = ["class", "inputs", "outputs", "released", "from"];

/// The boundary of the controllers that a class drives: names of globals of the interface.
#[derive(Debug, Drop)]
pub struct Cycle {
    /// The name of the class.
    pub class: Vec<u8>,
    /// The globals that a line may set; without a list, all that the class sees.
    pub inputs: Option<Vec<Vec<u8>>>,
    /// The globals that a cycle writes; without a list, those that the class sees or are released.
    pub outputs: Option<Vec<Vec<u8>>>,
    /// The outputs that are written whatever their class is.
    pub released: Vec<Vec<u8>>,
    /// The globals that may reach the released outputs; without a list, all.
    pub from: Option<Vec<Vec<u8>>>,
}

impl Section<'_> {
    /// The names of an array of texts, if they are those of globals.
    fn names(&self, array: &[Value]) -> Result<Vec<Vec<u8>>, InterfaceError>
        ensures names { IfOk result (λ names. shape.all_of as_str (items_view array.now)
            ≡ Some (spec.bytes_of names.items)) }
        ensures known { IfOk result (λ names.
            All (spec.IsKnown (image.globals self.now.globals.now)) (spec.bytes_of names.items)) }
    {
        let mut names = Vec::new(self.alloc);
        for value in array {
            let text = value.as_str().ok_or(InterfaceError::BadCycle(self.number))?;
            let name = Vec::from_slice(self.alloc, text.as_bytes())?;
            if !is_named(self.globals, &name) {
                return Err(InterfaceError::UnknownInCycle(self.number, name));
            }
            names.push(name)?;
        }
        Ok(names)
    }

    /// The names at a key, if it is there.
    fn names_at(&self, table: &Table, key: &str) -> Result<Option<Vec<Vec<u8>>>, InterfaceError>
        ensures names { IfOk result (λ list.
            spec.list_from (get_member key.now (table_view table.now))
            ≡ Some (option_map (λ names. spec.bytes_of names.items) list)) }
        ensures known { IfOk result (λ list. IfSome list (λ names.
            All (spec.IsKnown (image.globals self.now.globals.now)) (spec.bytes_of names.items))) }
    {
        let Some(value) = value_at(table, key) else {
            return Ok(None);
        };
        let array = value
            .as_array()
            .ok_or(InterfaceError::BadCycle(self.number))?;
        let names = self.names(array.as_slice())?;
        Ok(Some(names))
    }

    /// A boundary.
    fn cycle(&self, value: &Value) -> Result<Cycle, InterfaceError>
        ensures cycle { IfOk result
            (λ cycle. spec.cycle_of (view value.now) ≡ Some (spec.cycle cycle)) }
        ensures named { IfOk result (λ cycle.
            spec.BoundsGlobals (image.globals self.now.globals.now) (spec.cycle cycle)) }
    {
        let fault = InterfaceError::BadCycle(self.number);
        let table = table_of(value, &CYCLE_KEYS).ok_or(fault)?;
        let class = text_at(table, "class").ok_or(InterfaceError::BadCycle(self.number))?;
        let class = Vec::from_slice(self.alloc, class.as_bytes())?;
        let inputs = self.names_at(table, "inputs")?;
        let outputs = self.names_at(table, "outputs")?;
        let released = self.names_at(table, "released")?;
        let from = self.names_at(table, "from")?;
        Ok(Cycle {
            class,
            inputs,
            outputs,
            released: released.unwrap_or(Vec::new(self.alloc)),
            from,
        })
    }
}

/// Whether one of these boundaries is that of a class.
fn has_class(cycles: &[Cycle], class: &[u8]) -> bool
    ensures { result ≡ spec.has_class (map spec.cycle cycles.now) class.now }
{
    let mut rest = cycles;
    while let [first, others @ ..] = rest {
        if first.class.as_slice() == class {
            return true;
        }
        rest = others;
    }
    false
}

/// The number, from 1, of the first boundary whose class a later one has too.
fn repeated(cycles: &[Cycle]) -> Option<usize>
    ensures { MatchOption result (spec.are_apart (map spec.cycle cycles.now) ≡ true)
        (λ _. spec.are_apart (map spec.cycle cycles.now) ≡ false) }
{
    let mut rest = cycles;
    let mut number: usize = 1;
    while let [first, others @ ..] = rest {
        if has_class(others, &first.class) {
            return Some(number);
        }
        number = number.saturating_add(1);
        rest = others;
    }
    None
}

/// The boundaries of an interface, at most one for each class.
pub(crate) fn cycles_in(
    alloc: Global,
    table: &Table,
    globals: &[(Vec<u8>, Vec<u8>)],
) -> Result<Vec<Cycle>, InterfaceError>
    ensures { IfOk result (λ cycles. spec.Bounds (table_view table.now)
        (image.globals globals.now) cycles.items) }
{
    let array = elements_at(table, "cycle").ok_or(InterfaceError::BadCycle(1))?;
    let mut cycles = Vec::new(alloc);
    for (i, item) in array.iter().enumerate() {
        let section = Section {
            alloc,
            number: i.saturating_add(1),
            globals,
        };
        let cycle = section.cycle(item)?;
        cycles.push(cycle)?;
    }
    match repeated(&cycles) {
        Some(number) => Err(InterfaceError::BadCycle(number)),
        None => Ok(cycles),
    }
}

/// The number, from 0, of the first boundary whose class isn't in the lattice.
pub fn unknown_cycle(lattice: &Lattice, cycles: &[Cycle]) -> Option<usize>
    ensures { result
        ≡ spec.first_unbound (class_named lattice.now) 0 (map spec.cycle cycles.now) }
{
    for (i, cycle) in cycles.iter().enumerate() {
        if lattice.class_named(cycle.class.as_slice()).is_none() {
            return Some(i);
        }
    }
    None
}
