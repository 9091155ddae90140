//! The explanation of a refused lattice file.

use crate::orders::{Lack, Order};
use crate::parts::{
    array_in, bare_place, has_text, key_place, quoted_place, table_classes, table_in,
};
use crate::telling::{Part, Telling, Told};
use std::alloc::{AllocError, Global};
use toml::{Table, Value};
use vsi_lattice::{Class, LatticeError};

/// An example of a lattice file.
const SHAPE: Part<'static> = Part::Text(
    b"A lattice file names the classes, and pairs of them, the lower one first:\n  \
    classes = [\"L\", \"H\"]\n  below = [[\"L\", \"H\"]]\n",
);

/// The name of the class with this place.
fn class_in(table: &Table, place: usize) -> Option<&[u8]> {
    let text = array_in(table, "classes").get(place)?.as_str()?;
    Some(text.as_bytes())
}

/// The name in the pair with this place that is no class.
fn unknown_in(table: &Table, place: usize) -> Option<&[u8]> {
    let classes = array_in(table, "classes");
    let pair = array_in(table, "below").get(place)?.as_array()?.as_slice();
    let mut names = pair.iter().filter_map(|item| item.as_str());
    let name = names.find(|name| !has_text(classes, name.as_bytes()))?;
    Some(name.as_bytes())
}

/// The number of the class with this name, or that of none.
fn number_in(names: &[&[u8]], value: Option<&Value>) -> u8 {
    let text = value.and_then(|value| value.as_str()).unwrap_or("");
    let found = names.iter().position(|name| *name == text.as_bytes());
    found.unwrap_or(255).min(255) as u8
}

/// The classes and the pairs of a table.
fn order_in<'t>(alloc: Global, table: &'t Table) -> Result<Order<'t>, AllocError> {
    let names = table_classes(alloc, table)?;
    let mut pairs = Vec::new(alloc);
    for item in array_in(table, "below") {
        if let Some(pair) = item.as_array() {
            let pair = pair.as_slice();
            let (low, high) = (pair.get(0), pair.get(1));
            pairs.push((number_in(&names, low), number_in(&names, high)))?;
        }
    }
    Ok(Order { names, pairs })
}

/// The number of a class.
fn number_of(class: Class) -> u8 {
    class.index().min(255) as u8
}

/// The hint for another sort of file in the place of a lattice file.
fn file_hint(bytes: &[u8]) -> Option<&'static str> {
    match bytes.trim_ascii_start() {
        [b'V', b'S', b'I', ..] => Some(
            "Hint: this is an image. The lattice file has another place on the command line.\n",
        ),
        [b'v', b'a', b'r', ..] | [b'l', b'e', b't', b'v', b'a', b'r', ..] => Some(
            "Hint: this looks like a source text. The lattice file comes first, and the source \
            text after it: `vsi check LATTICE %`.\n",
        ),
        _ => None,
    }
}

impl Telling<'_> {
    /// Adds which keys or values of a table are wrong, and answers where. A lattice file has no
    /// other key than its two; an interface with classes of its own has others.
    fn put_bad_keys(&mut self, table: &Table) -> Told {
        let is_interface = table.get("profile").is_some() && table.get("globals").is_some();
        for (key, _) in table {
            if !is_interface && key.as_str() != "classes" && key.as_str() != "below" {
                let place = key_place(self.bytes, key.as_bytes());
                let sentence = "A lattice file has no key %, only `classes` and `below`.\n%";
                return self.tell(place, sentence, &[Part::Quoted(key.as_bytes()), SHAPE]);
            }
        }
        let sentence = if table.get("classes").is_none() {
            "The key `classes` is missing.\n%"
        } else if table.get("below").is_none() {
            "The key `below` is missing. Hint: write `below = []` if no class is below another \
            one.\n%"
        } else {
            "The value of `classes` must be an array of names between quotes, and that of `below` \
            an array of pairs of them.\n%"
        };
        self.tell(None, sentence, &[SHAPE])
    }

    /// Adds the explanation of a fault at a name, and returns its place after so many others.
    fn put_name(&mut self, name: Option<&[u8]>, others: usize, sentence: &str) -> Told {
        let Some(name) = name else {
            return self.tell(None, sentence, &[Part::Text(b"A name")]);
        };
        let place = quoted_place(self.bytes, name, others);
        self.tell(place, sentence, &[Part::Quoted(name)])
    }

    /// Adds the explanation of a fault in the table that a file is, and answers where it is.
    fn put_table_fault(&mut self, table: &Table, error: LatticeError) -> Told {
        let below = key_place(self.bytes, b"below");
        match error {
            LatticeError::BadShape => self.put_bad_keys(table),
            LatticeError::BadName(place) => self.put_name(
                class_in(table, place),
                0,
                "% isn't a valid name. Hint: a name begins with a letter, continues with letters, \
                digits and `_`, has at most 32 of them, and isn't a keyword.\n",
            ),
            LatticeError::DuplicateName(place) => {
                let sentence = "% is in `classes` twice. Hint: leave one out.\n";
                self.put_name(class_in(table, place), 1, sentence)
            }
            LatticeError::UnknownName(place) => self.put_name(
                unknown_in(table, place),
                0,
                "% is in `below` but isn't a class. Hint: add it to `classes`, or fix its \
                spelling.\n",
            ),
            LatticeError::Cycle(a, _) => {
                let place = self.put_ring(&order_in(self.alloc, table)?, number_of(a))?;
                Ok(place.or(below))
            }
            LatticeError::NoJoin(a, b) | LatticeError::NoMeet(a, b) => {
                let is_up = matches!(error, LatticeError::NoJoin(_, _));
                let (a, b) = (number_of(a), number_of(b));
                self.put_missing(&order_in(self.alloc, table)?, Lack { a, b, is_up })?;
                Ok(below)
            }
            _ => Ok(None),
        }
    }

    /// Adds the explanation of a refused lattice file, and answers where it is wrong.
    pub(crate) fn put_lattice(&mut self, error: LatticeError) -> Told {
        let classes = key_place(self.bytes, b"classes");
        match error {
            LatticeError::Memory => Err(AllocError),
            LatticeError::NotToml => {
                self.add("The file isn't a TOML document.\n")?;
                let (place, hint) = match (file_hint(self.bytes), bare_place(self.bytes)) {
                    (Some(hint), _) => (None, hint),
                    (None, None) => (None, ""),
                    (None, place) => (place, "Hint: the names of classes go between quotes.\n"),
                };
                self.say(hint, &[Part::Text(self.path)])?;
                self.tell(place, "%", &[SHAPE])
            }
            LatticeError::NoClass => {
                let sentence = "The list of classes is empty. Hint: name at least one.\n%";
                self.tell(classes, sentence, &[SHAPE])
            }
            LatticeError::TooManyClasses => {
                let sentence = "There are more than 64 classes. Hint: leave some out.\n";
                self.tell(classes, sentence, &[])
            }
            other => match table_in(self.alloc, self.bytes)? {
                Some(table) => self.put_table_fault(&table, other),
                None => Ok(None),
            },
        }
    }
}
