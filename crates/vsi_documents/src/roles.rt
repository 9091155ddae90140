//! The globals that a class sees, sets, reads and releases, as tables and as differences.

ghost use Rattle.std.specs.Prelude.{◌≡◌, is_some, map, option_map, ◌++◌, IfOk, OnOk};
ghost use Rattle.vsi_image.specs.Fields.{globals as globals_of, global, globals};
ghost use Rattle.vsi_lattice.specs.{LatticeView.{order}, Order.{IsClass}};
ghost use Rattle.vsi_documents.specs.Roles.{view};
ghost use Rattle.vsi_conform.specs.Asked as asked;
ghost use Rattle.vsi_conform.specs.Reading as reading;
ghost use Rattle.vsi_documents.specs.Roles as spec;
ghost use Rattle.vsi_documents.specs.Rows as rows_spec;
ghost use Rattle.vsi_documents.specs.Changes as changes_spec;

use std::alloc::{AllocError, Global};
use vsi_conform::{Cycle, Interface, InterfaceFile, is_among, put_parts};
use vsi_lattice::{Class, Classes, Lattice};

/// An action of a class on a global.
#[derive(Clone, Copy)]
pub(crate) enum Role {
    /// Its class is at or below that class.
    Sees,
    /// A line of the class sets it: it is an input.
    Sets,
    /// An answer to the class shows it: it is an output.
    Reads,
    /// An answer shows it whatever its class is.
    Releases,
}

/// A lattice, globals with their classes, and the tables `[[cycle]]` of an interface.
#[derive(Clone, Copy)]
pub(crate) struct Side<'a> {
    pub(crate) lattice: &'a Lattice,
    pub(crate) globals: &'a [(Vec<u8>, Vec<u8>)],
    pub(crate) cycles: &'a [Cycle],
}

/// An interface with its lattice.
pub(crate) fn side_of<'a>(lattice: &'a Lattice, asked: &'a InterfaceFile) -> Side<'a>
    ensures { spec.view result ≡ spec.boundaries lattice.now asked.now }
{
    Side {
        lattice,
        globals: asked.interface.globals.as_slice(),
        cycles: asked.cycles.as_slice(),
    }
}

/// A lattice alone, with its classes as globals and without tables.
pub(crate) fn alone<'a>(lattice: &'a Lattice, globals: &'a [(Vec<u8>, Vec<u8>)]) -> Side<'a>
    ensures { spec.view result ≡ spec.alone lattice.now (globals_of globals.now) }
{
    Side {
        lattice,
        globals,
        cycles: &[],
    }
}

/// Whether a class sees a global, both by their names.
fn sees(side: &Side, class: &[u8], name: &[u8]) -> bool
    ensures { result ≡ spec.sees (spec.view side.now) class.now name.now }
{
    for variable in side.globals {
        if variable.0.as_slice() == name {
            let seen = side.lattice.class_named(variable.1.as_slice());
            return match (side.lattice.class_named(class), seen) {
                (Some(viewer), Some(seen)) => side.lattice.leq(seen, viewer),
                _ => false,
            };
        }
    }
    false
}

/// Whether a name is in a list; without a list, whether it is one of those that are meant.
fn is_listed(list: &Option<Vec<Vec<u8>>>, is_meant: bool, name: &[u8]) -> bool
    ensures { result ≡ spec.is_listed
        (option_map (λ names. reading.bytes_of names.items) list.now) is_meant name.now }
{
    match list {
        Some(names) => is_among(names.as_slice(), name),
        None => is_meant,
    }
}

/// The table of a class.
fn table_of<'a>(cycles: &'a [Cycle], class: &[u8]) -> Option<&'a Cycle>
    ensures { option_map (λ found. reading.cycle found.now) result
        ≡ spec.table_of (map reading.cycle cycles.now) class.now }
{
    for cycle in cycles {
        if cycle.class.as_slice() == class {
            return Some(cycle);
        }
    }
    None
}

/// Whether an interface has a table of a class.
pub(crate) fn has_table(side: &Side, class: &[u8]) -> bool
    ensures { result ≡ is_some (spec.table_of (spec.view side.now).tables class.now) }
{
    table_of(side.cycles, class).is_some()
}

/// Whether an interface has tables.
pub(crate) fn has_tables(side: &Side) -> bool
    ensures { result ≡ spec.has_tables (spec.view side.now).tables }
{
    !side.cycles.is_empty()
}

/// Whether a class may drive.
pub(crate) fn may_drive(side: &Side, class: &[u8]) -> bool
    ensures { result ≡ spec.may_drive (spec.view side.now) class.now }
{
    if has_tables(side) {
        return has_table(side, class);
    }
    side.lattice.class_named(class).is_some()
}

/// Whether a class may do this with a global, by the tables or their absence. No table changes what
/// a class sees.
pub(crate) fn may(role: Role, side: &Side, class: &[u8], name: &[u8]) -> bool
    ensures { result ≡ spec.may role (spec.view side.now) class.now name.now }
{
    let is_seen = sees(side, class, name);
    if matches!(role, Role::Sees) {
        return is_seen;
    }
    if !has_tables(side) {
        return is_seen && !matches!(role, Role::Releases);
    }
    let Some(cycle) = table_of(side.cycles, class) else {
        return false;
    };
    let is_released = is_among(cycle.released.as_slice(), name);
    match role {
        Role::Sees => is_seen,
        Role::Sets => is_listed(&cycle.inputs, is_seen, name),
        Role::Reads => is_listed(&cycle.outputs, is_seen || is_released, name),
        Role::Releases => is_released,
    }
}

/// The verb of a role.
pub(crate) fn verb(role: Role) -> &'static [u8]
    ensures { result.now ≡ spec.verb role }
{
    match role {
        Role::Sees => b"sees",
        Role::Sets => b"sets",
        Role::Reads => b"reads",
        Role::Releases => b"releases",
    }
}

/// The name of a class.
pub(crate) fn name_of(lattice: &Lattice, class: usize) -> &[u8]
    requires { IsClass (order lattice.now) class }
    ensures { result.now ≡ rows_spec.name_at lattice.now class }
{
    lattice.name(Class::at(class as u8))
}

/// The classes of a lattice as globals, each of the class that it is.
pub(crate) fn own_globals(
    alloc: Global,
    lattice: &Lattice,
) -> Result<Vec<(Vec<u8>, Vec<u8>)>, AllocError>
    ensures { IfOk result (λ found. globals found.items
        ≡ rows_spec.globals_below lattice.now (order lattice.now).count) }
{
    let mut found = Vec::new(alloc);
    for class in 0..lattice.count() {
        let seen = name_of(lattice, class);
        let name = Vec::from_slice(alloc, seen)?;
        let own = Vec::from_slice(alloc, seen)?;
        found.push((name, own))?;
    }
    Ok(found)
}

/// Adds the row of a class and a role: the names of the globals with which the class may do this.
fn put_row(text: &mut Vec<u8>, role: Role, side: &Side, class: &[u8]) -> Result<(), AllocError>
    ensures { OnOk result
        (text.new.items ≡ text.old.items ++ rows_spec.role_row role (view side.now) class.now) }
{
    put_parts(text, &[class, b" "])?;
    text.extend_from_slice(verb(role))?;
    for variable in side.globals {
        if may(role, side, class, variable.0.as_slice()) {
            put_parts(text, &[b" ", variable.0.as_slice()])?;
        }
    }
    text.extend_from_slice(b"\n")
}

/// Adds the rows of what each class sees.
fn put_seen(text: &mut Vec<u8>, side: &Side) -> Result<(), AllocError>
    ensures { OnOk result (text.new.items ≡ text.old.items ++ rows_spec.seen_rows (view side.now)) }
{
    for class in 0..side.lattice.count() {
        put_row(text, Role::Sees, side, name_of(side.lattice, class))?;
    }
    Ok(())
}

/// The table of an interface and its lattice: a row for each class, with the names of the globals
/// whose class is at or below it, and then the rows of the tables `[[cycle]]`. An error means that
/// memory ran out.
pub fn visible_table(
    alloc: Global,
    lattice: &Lattice,
    asked: &InterfaceFile,
) -> Result<Vec<u8>, AllocError>
    ensures table { IfOk result
        (λ text. text.items ≡ rows_spec.visible_table lattice.now asked.now) }
{
    let mut text = Vec::new(alloc);
    let side = side_of(lattice, asked);
    put_seen(&mut text, &side)?;
    for class in 0..lattice.count() {
        let name = name_of(lattice, class);
        if !has_table(&side, name) {
            continue;
        }
        put_row(&mut text, Role::Sets, &side, name)?;
        put_row(&mut text, Role::Reads, &side, name)?;
        put_row(&mut text, Role::Releases, &side, name)?;
    }
    Ok(text)
}

/// The table of a lattice: a row for each class, with the names of the classes that it sees.
/// An error means that memory ran out.
pub fn seen_table(alloc: Global, lattice: &Lattice) -> Result<Vec<u8>, AllocError>
    ensures table { IfOk result (λ text. text.items ≡ rows_spec.seen_table lattice.now) }
{
    let mut text = Vec::new(alloc);
    let globals = own_globals(alloc, lattice)?;
    put_seen(&mut text, &alone(lattice, &globals))?;
    Ok(text)
}

/// Whether a global has the class of this name.
fn is_used(variables: &[(Vec<u8>, Vec<u8>)], class: &[u8]) -> bool
    ensures { result ≡ rows_spec.is_used (globals variables.now) class.now }
{
    for variable in variables {
        if variable.1.as_slice() == class {
            return true;
        }
    }
    false
}

/// The warnings about the classes of an interface's lattice that no global of it has. Such a class
/// is often a mistake. An error means that memory ran out.
pub fn unused_warnings(
    alloc: Global,
    lattice: &Lattice,
    interface: &Interface,
) -> Result<Vec<u8>, AllocError>
    ensures warnings { IfOk result
        (λ text. text.items ≡ rows_spec.unused_warnings lattice.now interface.now) }
{
    let mut text = Vec::new(alloc);
    for class in 0..lattice.count() {
        let name = name_of(lattice, class);
        if is_used(&interface.globals, name) {
            continue;
        }
        put_parts(
            &mut text,
            &[b"warning: no global has the class ", name, b"\n"],
        )?;
    }
    Ok(text)
}

/// The actions that one side allows and the other doesn't, with the adverb of their lines.
#[derive(Clone, Copy)]
struct Change<'a> {
    adverb: &'a [u8],
    side: &'a Side<'a>,
    other: &'a Side<'a>,
}

impl Change<'_> {
    /// Adds the lines of a class and a role.
    fn put_role(&self, text: &mut Vec<u8>, role: Role, class: &[u8]) -> Result<(), AllocError>
        ensures { OnOk result (text.new.items ≡ text.old.items ++ changes_spec.role_lines role
            self.now.adverb.now (view self.now.side.now) (view self.now.other.now) class.now) }
    {
        for variable in self.side.globals {
            let name = variable.0.as_slice();
            if may(role, self.side, class, name) && !may(role, self.other, class, name) {
                put_parts(text, &[class, self.adverb])?;
                text.extend_from_slice(verb(role))?;
                put_parts(text, &[b" ", name, b"\n"])?;
            }
        }
        Ok(())
    }

    /// Adds the lines of what each class sees.
    fn put_seen(&self, text: &mut Vec<u8>) -> Result<(), AllocError>
        ensures { OnOk result (text.new.items ≡ text.old.items ++ changes_spec.seen_lines
            self.now.adverb.now (view self.now.side.now) (view self.now.other.now)) }
    {
        for class in 0..self.side.lattice.count() {
            self.put_role(text, Role::Sees, name_of(self.side.lattice, class))?;
        }
        Ok(())
    }

    /// Adds the lines of a class: whether it may drive, and what it may do.
    fn put_class(&self, text: &mut Vec<u8>, class: &[u8]) -> Result<(), AllocError>
        ensures { OnOk result (text.new.items ≡ text.old.items ++ changes_spec.class_lines
            self.now.adverb.now (view self.now.side.now) (view self.now.other.now) class.now) }
    {
        if may_drive(self.side, class) && !may_drive(self.other, class) {
            put_parts(text, &[class, b" may", self.adverb, b"drive\n"])?;
        }
        self.put_role(text, Role::Sets, class)?;
        self.put_role(text, Role::Reads, class)?;
        self.put_role(text, Role::Releases, class)
    }

    /// Adds the lines of all classes.
    fn put_classes(&self, text: &mut Vec<u8>) -> Result<(), AllocError>
        ensures { OnOk result (text.new.items ≡ text.old.items ++ changes_spec.all_lines
            self.now.adverb.now (view self.now.side.now) (view self.now.other.now)) }
    {
        for class in 0..self.side.lattice.count() {
            self.put_class(text, name_of(self.side.lattice, class))?;
        }
        Ok(())
    }
}

/// The line that says who may drive at all, if only one interface has tables.
fn who_drives(side: &Side, old: &Side) -> &'static [u8]
    ensures { result.now ≡ changes_spec.who_drives (view side.now) (view old.now) }
{
    match (has_tables(side), has_tables(old)) {
        (false, _) => b"every class may now drive\n",
        (true, true) => b"",
        (true, false) => b"only classes with a table may now drive\n",
    }
}

/// The differences of one side from an older one.
fn changed<'a>(alloc: Global, side: &'a Side<'a>, old: &'a Side<'a>) -> Result<Vec<u8>, AllocError>
    ensures { IfOk result (λ text. text.items ≡ changes_spec.changes (view side.now) (view
        old.now)) }
{
    let mut lines = Vec::new(alloc);
    let added = Change {
        adverb: b" now ",
        side,
        other: old,
    };
    let removed = Change {
        adverb: b" no longer ",
        side: old,
        other: side,
    };
    added.put_seen(&mut lines)?;
    removed.put_seen(&mut lines)?;
    if has_tables(side) || has_tables(old) {
        lines.extend_from_slice(who_drives(side, old))?;
        added.put_classes(&mut lines)?;
        removed.put_classes(&mut lines)?;
    }
    if lines.is_empty() {
        return Vec::from_slice(alloc, b"no class sees more or less than before\n");
    }
    Ok(lines)
}

/// The differences of an interface from an older one, each with its lattice, by their names: a line
/// for each class and each global that only one of them lets it see, and then, if one of them has
/// tables `[[cycle]]`, for each that only one of them lets it set, read or release. An error means
/// that memory ran out.
pub fn visible_changes(
    alloc: Global,
    lattice: &Lattice,
    asked: &InterfaceFile,
    old_lattice: &Lattice,
    old_asked: &InterfaceFile,
) -> Result<Vec<u8>, AllocError>
    ensures changes { IfOk result (λ text. text.items ≡ changes_spec.visible_changes lattice.now
        asked.now old_lattice.now old_asked.now) }
{
    let old = side_of(old_lattice, old_asked);
    changed(alloc, &side_of(lattice, asked), &old)
}

/// The differences of a lattice from an older one: a line for each viewer and each class that only
/// one of them lets it see, by their names. An error means that memory ran out.
pub fn seen_changes(alloc: Global, lattice: &Lattice, old: &Lattice) -> Result<Vec<u8>, AllocError>
    ensures changes { IfOk result
        (λ text. text.items ≡ changes_spec.seen_changes lattice.now old.now) }
{
    let globals = own_globals(alloc, lattice)?;
    let olds = own_globals(alloc, old)?;
    changed(alloc, &alone(lattice, &globals), &alone(old, &olds))
}
