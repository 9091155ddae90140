//! The classes of a lattice, what an interface lets each of them see and do, and the parts of an
//! image as lines of JSON; and whether some class sees more.

ghost use Rattle.std.specs.Prelude.{◌≡◌, IfOk};
ghost use Rattle.vsi_documents.specs.Roles.{view};
ghost use Rattle.vsi_documents.specs.Changes as spec;

use crate::roles::{
    Role, Side, alone, has_table, has_tables, may, may_drive, name_of, own_globals, side_of, verb,
};
use std::alloc::{AllocError, Global};
use vsi_answers::{Object, Objects};
use vsi_conform::InterfaceFile;
use vsi_image::{Instr, Verified};
use vsi_lattice::{Classes, Lattice};

/// All actions, in the order in which changes list them.
const ROLES: [Role; 4] = [Role::Sees, Role::Sets, Role::Reads, Role::Releases];

/// The names of the globals with which a class may do this.
fn named(alloc: Global, role: Role, side: &Side, class: &[u8]) -> Result<Objects, AllocError> {
    let mut found = Objects::new(alloc);
    for variable in side.globals {
        if may(role, side, class, variable.0.as_slice()) {
            found.push_text(variable.0.as_slice())?;
        }
    }
    Ok(found)
}

/// The object of a class: its name, what it sees and, if it has a table, what it sets, reads and
/// releases.
fn class_object(alloc: Global, side: &Side, class: &[u8]) -> Result<Object, AllocError> {
    let made = Object::new(alloc)
        .text("name", class)?
        .array("sees", named(alloc, Role::Sees, side, class)?)?;
    if !has_table(side, class) {
        return Ok(made);
    }
    made.array("sets", named(alloc, Role::Sets, side, class)?)?
        .array("reads", named(alloc, Role::Reads, side, class)?)?
        .array("releases", named(alloc, Role::Releases, side, class)?)
}

/// The line with an object for each class.
fn table_line(alloc: Global, side: &Side) -> Result<Vec<u8>, AllocError> {
    let mut classes = Objects::new(alloc);
    for class in 0..side.lattice.count() {
        classes.push(class_object(alloc, side, name_of(side.lattice, class))?)?;
    }
    Object::new(alloc).array("classes", classes)?.line()
}

/// Whether a class sees or reads a global.
fn is_shown(side: &Side, class: &[u8], name: &[u8]) -> bool
    ensures { result ≡ spec.is_shown (view side.now) class.now name.now }
{
    may(Role::Sees, side, class, name) || may(Role::Reads, side, class, name)
}

/// Whether a class sees or reads a global that it neither saw nor read on an older side.
fn class_sees_more(side: &Side, old: &Side, class: &[u8]) -> bool
    ensures { result
        ≡ spec.gains (view side.now) (view old.now) class.now (view side.now).globals }
{
    for variable in side.globals {
        let name = variable.0.as_slice();
        if is_shown(side, class, name) && !is_shown(old, class, name) {
            return true;
        }
    }
    false
}

/// Whether some class sees or reads more than on an older side.
fn sees_more(side: &Side, old: &Side) -> bool
    ensures { result ≡ spec.sees_more (view side.now) (view old.now) }
{
    let mut is_more = false;
    for class in 0..side.lattice.count() {
        is_more = is_more || class_sees_more(side, old, name_of(side.lattice, class));
    }
    is_more
}

/// Adds an object for each action that a class has on one side and not on the other.
fn add_changes(
    found: &mut Objects,
    alloc: Global,
    side: &Side,
    other: &Side,
    class: &[u8],
) -> Result<(), AllocError> {
    let has_cycles = has_tables(side) || has_tables(other);
    if has_cycles && may_drive(side, class) && !may_drive(other, class) {
        let made = Object::new(alloc).text("class", class)?;
        found.push(made.text("does", b"drives")?)?;
    }
    for role in &ROLES {
        if !has_cycles && !matches!(*role, Role::Sees) {
            continue;
        }
        for variable in side.globals {
            let name = variable.0.as_slice();
            if may(*role, side, class, name) && !may(*role, other, class, name) {
                let made = Object::new(alloc)
                    .text("class", class)?
                    .text("does", verb(*role))?;
                found.push(made.text("name", name)?)?;
            }
        }
    }
    Ok(())
}

/// The objects of the actions of classes on one side that they don't have on the other.
fn change_objects(alloc: Global, side: &Side, other: &Side) -> Result<Objects, AllocError> {
    let mut found = Objects::new(alloc);
    for class in 0..side.lattice.count() {
        let name = name_of(side.lattice, class);
        add_changes(&mut found, alloc, side, other, name)?;
    }
    Ok(found)
}

/// The line with the actions that are new and those that are gone, and whether some class sees or
/// reads more.
fn changes_line(alloc: Global, side: &Side, old: &Side) -> Result<Vec<u8>, AllocError> {
    Object::new(alloc)
        .array("added", change_objects(alloc, side, old)?)?
        .array("removed", change_objects(alloc, old, side)?)?
        .flag("sees_more", sees_more(side, old))?
        .line()
}

/// A lattice as a line of JSON: an object with `classes`, an array with an object for each class,
/// with its `name` and the names of the classes that it `sees`. An error means that memory ran out.
pub fn policy_json(alloc: Global, lattice: &Lattice) -> Result<Vec<u8>, AllocError> {
    let globals = own_globals(alloc, lattice)?;
    table_line(alloc, &alone(lattice, &globals))
}

/// The differences of a lattice from an older one as a line of JSON: an object with the pairs that
/// are `added` and `removed`, each of a `class`, what it `does` and the `name` of the other class,
/// and with `sees_more`, whether some class sees more than before.
pub fn policy_changes_json(
    alloc: Global,
    lattice: &Lattice,
    old: &Lattice,
) -> Result<Vec<u8>, AllocError> {
    let globals = own_globals(alloc, lattice)?;
    let olds = own_globals(alloc, old)?;
    changes_line(alloc, &alone(lattice, &globals), &alone(old, &olds))
}

/// An interface with its lattice as a line of JSON, as `policy_json` writes a lattice: what each
/// class sees are globals, and a class with a table has those that it `sets`, `reads` and
/// `releases`. An error means that memory ran out.
pub fn visible_json(
    alloc: Global,
    lattice: &Lattice,
    asked: &InterfaceFile,
) -> Result<Vec<u8>, AllocError> {
    table_line(alloc, &side_of(lattice, asked))
}

/// The differences of an interface from an older one, as `policy_changes_json` writes those of a
/// lattice. Here `sees_more` says whether some class sees or reads a global that it neither saw nor
/// read.
pub fn visible_changes_json(
    alloc: Global,
    lattice: &Lattice,
    asked: &InterfaceFile,
    old_lattice: &Lattice,
    old_asked: &InterfaceFile,
) -> Result<Vec<u8>, AllocError> {
    let old = side_of(old_lattice, old_asked);
    changes_line(alloc, &side_of(lattice, asked), &old)
}

/// Whether some class sees more under a lattice than under an older one: what `sees_more` says in
/// the line of `policy_changes_json`. An error means that memory ran out.
pub fn lattice_sees_more(
    alloc: Global,
    lattice: &Lattice,
    old: &Lattice,
) -> Result<bool, AllocError>
    ensures more { IfOk result (λ more. more ≡ spec.lattice_sees_more lattice.now old.now) }
{
    let globals = own_globals(alloc, lattice)?;
    let olds = own_globals(alloc, old)?;
    Ok(sees_more(&alone(lattice, &globals), &alone(old, &olds)))
}

/// Whether some class sees or reads a global under an interface that it neither saw nor read under
/// an older one, each with its lattice: what `sees_more` says in the line of
/// `visible_changes_json`.
pub fn interface_sees_more(
    lattice: &Lattice,
    asked: &InterfaceFile,
    old_lattice: &Lattice,
    old_asked: &InterfaceFile,
) -> bool
    ensures more { result ≡ spec.interface_sees_more lattice.now asked.now old_lattice.now
        old_asked.now }
{
    sees_more(&side_of(lattice, asked), &side_of(old_lattice, old_asked))
}

/// The objects of globals, each with its `name` and its `class`.
fn global_objects(alloc: Global, variables: &[(Vec<u8>, Vec<u8>)]) -> Result<Objects, AllocError> {
    let mut found = Objects::new(alloc);
    for variable in variables {
        let made = Object::new(alloc).text("name", variable.0.as_slice())?;
        found.push(made.text("class", variable.1.as_slice())?)?;
    }
    Ok(found)
}

/// The texts of instructions.
fn instruction_texts(alloc: Global, code: &[Instr]) -> Result<Objects, AllocError> {
    let mut found = Objects::new(alloc);
    for instruction in code {
        let mut text = Vec::new(alloc);
        (*instruction).write_to(&mut text)?;
        found.push_text(&text)?;
    }
    Ok(found)
}

/// The parts of an image as a line of JSON: an object with `globals`, an array with an object for
/// each, its `name` and its `class`; the numbers of its `slots` and of its places for operands,
/// `stack`; and `instructions`, an array of their texts. An error means that memory ran out.
pub fn list_json(alloc: Global, verified: &Verified) -> Result<Vec<u8>, AllocError> {
    let image = verified.image();
    Object::new(alloc)
        .array("globals", global_objects(alloc, &image.globals)?)?
        .array("instructions", instruction_texts(alloc, &image.code)?)?
        .natural("slots", image.slots as usize)?
        .natural("stack", image.stack as usize)?
        .line()
}
