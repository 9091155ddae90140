//! The shapes of lattices, and the lattice files that are made by them.

ghost use Rattle.std.specs.Prelude.{◌≡◌, IfSome, IfOk, option_map, IsTrue};
ghost use Rattle.vsi_lattice.specs.{NamePlaces.{texts}, LatticeView.{class_named, order}};
ghost use Rattle.vsi_documents.specs.{Shapes.{IsShapedText}, declared.shape.ShapeError.TheVariants.{Memory}};
ghost use Rattle.vsi_documents.specs.Shapes as spec;
ghost use Rattle.vsi_documents.specs.Named as named_spec;

use crate::answer::Made;
use std::alloc::{AllocError, AllocFailed, Global};
use thiserror::Error;
use vsi_conform::put_parts;
use vsi_lattice::{Class, Classes, Lattice, LatticeError, read_lattice};
use vsi_syntax::is_name;

/// A usual shape of a lattice.
#[derive(Clone, Copy, Debug, PartialEq, Eq)]
pub enum Shape {
    /// `L` below `H`.
    Two,
    /// Each name below the next.
    Levels,
    /// The first of four names below the others, which are below the last.
    Diamond,
    /// A class for each set of names.
    Powerset,
}

/// The names of two classes.
const LEVELS: [&[u8]; 2] = [b"L", b"H"];

impl Shape {
    /// The shape of this name.
    pub fn named(name: &[u8]) -> Option<Shape>
        ensures { IfSome result (λ shape. spec.shape_name shape ≡ name.now) }
    {
        match name {
            b"two" => Some(Shape::Two),
            b"levels" => Some(Shape::Levels),
            b"diamond" => Some(Shape::Diamond),
            b"powerset" => Some(Shape::Powerset),
            _ => None,
        }
    }

    /// The number of classes of the shape with this many names, if the shape allows that many.
    pub(crate) fn count(self, names: usize) -> Option<usize>
        ensures { result ≡ spec.count_of self names }
    {
        match self {
            Shape::Two => (names == 0).then_some(2),
            Shape::Levels => (names >= 1 && names <= 64).then_some(names),
            Shape::Diamond => (names == 4).then_some(4),
            Shape::Powerset if names >= 1 && names <= 6 => Some(1 << names),
            Shape::Powerset => None,
        }
    }

    /// The name of a class of the shape with these names.
    pub(crate) fn class_name(self, alloc: Global, given: &[&[u8]], class: usize) -> Made<Vec<u8>>
        ensures { IfOk result
            (λ name. name.items ≡ spec.class_name self (texts given.now) class) }
    {
        match self {
            Shape::Two => Vec::from_slice(alloc, given_name(&LEVELS, class)),
            Shape::Levels | Shape::Diamond => Vec::from_slice(alloc, given_name(given, class)),
            Shape::Powerset => {
                // The names that belong to the set, joined.
                let mut front = Vec::new(alloc);
                let mut rest = given;
                let mut digits = class;
                while let [name, behind @ ..] = rest {
                    if digits % 2 == 1 {
                        if !front.is_empty() {
                            front.push(b'_')?;
                        }
                        front.extend_from_slice(name)?;
                    }
                    rest = behind;
                    digits /= 2;
                }
                if front.is_empty() {
                    return Vec::from_slice(alloc, b"none");
                }
                Ok(front)
            }
        }
    }
}

/// The name at a position.
fn given_name<'a>(given: &[&'a [u8]], class: usize) -> &'a [u8]
    ensures { result.now ≡ spec.given_name (texts given.now) class }
{
    match given.get(class) {
        Some(name) => name,
        None => b"",
    }
}

/// The beginning of a comment that names a lattice file.
const START: &[u8] = b" policy: ";

/// The path of the lattice file that a text names in its first comment, `# policy: FILE`.
pub fn named_policy(text: &[u8]) -> Option<&[u8]>
    ensures { option_map (λ path. path.now) result ≡ named_spec.named_policy text.now }
{
    let comment = first_comment(text)?;
    let path = comment.strip_prefix(START)?;
    let mut count = 0;
    let mut rest = path;
    while let [byte, behind @ ..] = rest {
        if *byte == b'\n' || *byte == b'\r' {
            break;
        }
        count += 1;
        rest = behind;
    }
    Some(&path[..count])
}

/// The text after the first `#`.
fn first_comment(text: &[u8]) -> Option<&[u8]>
    ensures { option_map (λ rest. rest.now) result ≡ named_spec.first_comment text.now }
{
    let mut rest = text;
    while let [byte, behind @ ..] = rest {
        if *byte == b'#' {
            return Some(behind);
        }
        rest = behind;
    }
    None
}

/// Whether a class of a shape with this many names is at or below another.
pub(crate) fn is_below(shape: Shape, names: usize, low: usize, high: usize) -> bool
    ensures { result ≡ spec.is_below shape names low high }
{
    match shape {
        Shape::Two | Shape::Levels => low <= high,
        Shape::Diamond => low == high || low == 0 || high == 3,
        Shape::Powerset => {
            // Each binary digit that is 1 in the first number is 1 in the second too.
            let mut left = names;
            let mut inner = low;
            let mut outer = high;
            while left > 0 {
                if inner % 2 > outer % 2 {
                    return false;
                }
                left -= 1;
                inner /= 2;
                outer /= 2;
            }
            true
        }
    }
}

/// Whether a lattice has the order of the shape with this many names.
pub(crate) fn has_order(shape: Shape, names: usize, lattice: &Lattice) -> bool
    ensures { IsTrue result → spec.HasOrder shape names (order lattice.now) }
{
    for low in 0..lattice.count() {
        for high in 0..lattice.count() {
            let is = lattice.leq(Class::at(low as u8), Class::at(high as u8));
            if is != is_below(shape, names, low, high) {
                return false;
            }
        }
    }
    true
}

/// Whether a lattice has the classes of the shape with these names, in their order.
pub(crate) fn has_classes(
    alloc: Global,
    shape: Shape,
    given: &[&[u8]],
    lattice: &Lattice,
) -> Result<bool, AllocError>
    ensures { IfOk result (λ has. IsTrue has
        → spec.HasClasses shape (texts given.now) lattice.now) }
{
    for class in 0..lattice.count() {
        let name = shape.class_name(alloc, given, class)?;
        match lattice.class_named(&name) {
            Some(found) if found.index() == class => {}
            _ => return Ok(false),
        }
    }
    Ok(true)
}

/// The text of the lattice file of the shape that the first argument names, with the other
/// arguments as names.
///
/// # Errors
///
/// `NoShape` and `WrongCount` if the arguments don't fit a shape, `NoName` and `Twice` if they
/// aren't names of different classes, `Memory`.
pub fn lattice_text(alloc: Global, arguments: &[&[u8]]) -> Result<Vec<u8>, ShapeError>
    ensures shaped { IfOk result (λ text. IsShapedText (texts arguments.now) text.items) }
{
    let [first, given @ ..] = arguments else {
        return Err(ShapeError::NoShape);
    };
    let Some(shape) = Shape::named(first) else {
        return Err(ShapeError::NoShape);
    };
    let Some(count) = shape.count(given.len()) else {
        return Err(ShapeError::WrongCount(shape));
    };
    let classes = class_names(alloc, shape, given, count)?;
    let text = proposed(alloc, shape, given.len(), &classes)?;
    let lattice = match read_lattice(alloc, &text) {
        Ok(lattice) => lattice,
        Err(LatticeError::DuplicateName(place)) => {
            return match classes.into_iter().nth(place) {
                Some(name) => Err(ShapeError::Twice(name)),
                None => Err(ShapeError::Memory),
            };
        }
        Err(_) => return Err(ShapeError::Memory),
    };
    if lattice.count() != count || !has_order(shape, given.len(), &lattice) {
        return Err(ShapeError::Memory);
    }
    if has_classes(alloc, shape, given, &lattice)? {
        Ok(text)
    } else {
        Err(ShapeError::Memory)
    }
}

/// The names of the classes, if they are valid names.
fn class_names(
    alloc: Global,
    shape: Shape,
    given: &[&[u8]],
    count: usize,
) -> Result<Vec<Vec<u8>>, ShapeError> {
    let mut classes = Vec::new(alloc);
    for class in 0..count {
        let name = shape.class_name(alloc, given, class)?;
        if !is_name(&name) {
            return Err(ShapeError::NoName(name));
        }
        classes.push(name)?;
    }
    Ok(classes)
}

/// A proposed text for the lattice file of a shape with classes of these names.
fn proposed(alloc: Global, shape: Shape, names: usize, classes: &[Vec<u8>]) -> Made<Vec<u8>> {
    let mut text = Vec::from_slice(alloc, b"classes = [")?;
    let mut between: &[u8] = b"\"";
    for name in classes {
        text.extend_from_slice(between)?;
        put_parts(&mut text, &[name, b"\""])?;
        between = b", \"";
    }
    text.extend_from_slice(b"]\nbelow = [\n")?;
    // A class is directly below another if none is between them.
    let is_below = |low: usize, high: usize| low != high && is_below(shape, names, low, high);
    for (low, name) in classes.iter().enumerate() {
        for (high, other) in classes.iter().enumerate() {
            let mut others = 0..classes.len();
            if is_below(low, high)
                && !others.any(|middle| is_below(low, middle) && is_below(middle, high))
            {
                put_parts(&mut text, &[b"  [\"", name, b"\", \"", other, b"\"],\n"])?;
            }
        }
    }
    text.extend_from_slice(b"]\n")?;
    Ok(text)
}

/// Why arguments make no lattice.
#[derive(Debug, Drop, Error)]
pub enum ShapeError {
    /// No shape has this name.
    #[error("no shape has this name")]
    NoShape,
    /// The shape doesn't take this number of names.
    #[error("the shape takes another number of names")]
    WrongCount(Shape),
    /// A class would have this name, which isn't a valid name.
    #[error("a class would have a name that isn't one")]
    NoName(Vec<u8>),
    /// Two classes would have this name.
    #[error("two classes would have one name")]
    Twice(Vec<u8>),
    /// There was too little memory.
    #[error("out of memory")]
    Memory,
}

impl From<AllocError> for ShapeError {
    ghost from_gives = { λ _ e. e ≡ Memory };

    fn from(_error: AllocError) -> Self {
        ShapeError::Memory
    }
}

impl<T: Drop> From<AllocFailed<T>> for ShapeError {
    ghost from_gives = { λ _ e. e ≡ Memory };

    fn from(_error: AllocFailed<T>) -> Self {
        ShapeError::Memory
    }
}
