//! The explanation of a refused interface file.

use crate::advice::interface_tables::RUN_KEYS;
use std::alloc::{AllocError, Global};
use toml::{Table, Value};
use vsi_conform::InterfaceError;
use vsi_lattice::Lattice;
use vsi_syntax::Span;
use vsi_telling::Part::{Names, Nearest, Number, Quoted, Text};
use vsi_telling::{
    Part, Telling, Told, array_in, class_names, key_place, part_of, quoted_place, table_classes,
};

/// An example of the head of an interface.
const SHAPE: Part<'static> = Text(
    b"An interface begins like this:\n  lattice = \"two.toml\"\n  profile = \"base\"\n  \
    globals = [[\"key\", \"H\"], [\"out\", \"L\"]]\n",
);

/// The keys of an interface.
const KEYS: [&[u8]; 10] = [
    b"lattice",
    b"classes",
    b"below",
    b"profile",
    b"order",
    b"bounded",
    b"globals",
    b"runs",
    b"cycle",
    b"reference",
];

/// The profiles.
const PROFILES: [&[u8]; 3] = [b"base", b"strict", b"steady"];

/// The orders.
const ORDERS: [&[u8]; 2] = [b"exact", b"set"];

/// The sentences about a bound that isn't valid.
const BOUNDED: &str = "The value of `bounded` must be `true`, `false` or a number of at least 1, \
    without quotes. Hint: write `bounded = true` if `vsi bound` must find a number of instructions \
    within which every run halts, `bounded = 200` if the number must be at most 200, or leave out \
    the key.\n";

/// The sentences about a reference that isn't accepted.
const REFUSED: &str = "The reference of the interface isn't accepted under its lattice and its \
    profile. Hint: `vsi check --explain` says more about it.\n";

/// The most globals of a program.
const MOST_GLOBALS: usize = 256;

/// A refused interface file that is a table, and the lattice of the file that it names.
#[derive(Clone, Copy)]
pub(crate) struct Interface<'t> {
    pub(crate) bytes: &'t [u8],
    pub(crate) table: &'t Table,
    lattice: Option<&'t Lattice>,
}

/// A part of a file, found after this many bytes.
pub(crate) fn behind(from: usize, span: Span) -> Span {
    Span {
        start: from.saturating_add(span.start),
        stop: from.saturating_add(span.stop),
    }
}

/// The text at one side of a pair of `globals`.
fn side_of(pair: &Value, side: usize) -> Option<&[u8]> {
    let text = pair.as_array()?.as_slice().get(side)?.as_str()?;
    Some(text.as_bytes())
}

/// The sentence about a file that isn't TOML, before an example.
fn toml_hint(bytes: &[u8]) -> &'static str {
    let start = bytes.trim_ascii_start();
    if start.starts_with(b"VSI") {
        "Hint: this is an image. The interface comes first.\n%"
    } else if start.starts_with(b"var") || start.starts_with(b"letvar") {
        "Hint: this looks like a source text. The interface comes first, and the source text after \
        it: `vsi conform INTERFACE SOURCE`.\n%"
    } else {
        "%"
    }
}

impl<'t> Interface<'t> {
    /// The text at a key.
    fn text(self, key: &str) -> Option<&'t [u8]> {
        let text = self.table.get(key)?.as_str()?;
        Some(text.as_bytes())
    }

    /// The classes of the lattice that the interface names, or those that it has of its own.
    pub(crate) fn classes(self, alloc: Global) -> Result<Vec<&'t [u8]>, AllocError> {
        match self.lattice {
            Some(lattice) => class_names(alloc, lattice),
            None => table_classes(alloc, self.table),
        }
    }

    /// The names of the globals.
    pub(crate) fn names(self, alloc: Global) -> Result<Vec<&'t [u8]>, AllocError> {
        let mut names = Vec::new(alloc);
        for pair in array_in(self.table, "globals") {
            if let Some(name) = side_of(pair, 0) {
                names.push(name)?;
            }
        }
        Ok(names)
    }

    /// The pair with a name, after this many others.
    pub(crate) fn pair_named(self, name: &[u8], others: usize) -> Option<usize> {
        let pairs = array_in(self.table, "globals").iter().enumerate();
        let mut named = pairs.filter(|pair| side_of(pair.1, 0) == Some(name));
        Some(named.nth(others)?.0)
    }

    /// The position of the text at one side of a pair of `globals`.
    fn pair_place(self, number: usize, side: usize) -> Option<Span> {
        let start = key_place(self.bytes, b"globals")?.stop;
        let pairs = array_in(self.table, "globals");
        let text = side_of(pairs.get(number)?, side)?;
        // The text may be there before.
        let mut times: usize = 0;
        for (at, pair) in pairs.iter().enumerate() {
            for place in 0..2 {
                let is_before = at < number || at == number && place < side;
                if is_before && side_of(pair, place) == Some(text) {
                    times = times.saturating_add(1);
                }
            }
        }
        let stop = self.bytes.len();
        let rest = part_of(self.bytes, Span { start, stop });
        let found = quoted_place(rest, text, times)?;
        Some(behind(start, found))
    }

    /// Explains the value of a key that isn't a text, or leads to a file outside the folder.
    fn bad_path(self, telling: &mut Telling<'_>, key: &str, file: &str, hint: &str) -> Told {
        let place = key_place(self.bytes, key.as_bytes());
        if self.text(key).is_none() {
            let parts = [Text(key.as_bytes()), Text(hint.as_bytes())];
            let sentence = "The value of `%` isn't a text. Hint: write the path of a %.\n";
            return telling.tell(place, sentence, &parts);
        }
        let file = Text(file.as_bytes());
        let sentence = "The path of the % leads out of the folder of the interface. Hint: put the \
            % into that folder, or into one in it, and write its path without `..` and without `/` \
            at the beginning.\n";
        telling.tell(place, sentence, &[file, file])
    }

    /// Explains a lattice that is missing, named twice, not a text or outside the folder.
    fn bad_lattice(self, telling: &mut Telling<'_>) -> Told {
        if self.table.get("lattice").is_none() {
            let sentence = "The interface has no lattice. Hint: name a lattice file in the same \
                folder, as in `lattice = \"two.toml\"`, or write `classes` and `below` as in such \
                a file.\n%";
            return telling.tell(None, sentence, &[SHAPE]);
        }
        if self.table.get("classes").is_some() || self.table.get("below").is_some() {
            let sentence = "The interface names a lattice file and also has classes of its own. \
                Hint: leave out `lattice`, or leave out `classes` and `below`.\n";
            return telling.tell(key_place(self.bytes, b"lattice"), sentence, &[]);
        }
        let hint = "lattice file between quotes, as in `lattice = \"two.toml\"`";
        self.bad_path(telling, "lattice", "lattice file", hint)
    }

    /// Explains a key whose value isn't one of the choices, of which this text names the sort.
    fn bad_choice(self, telling: &mut Telling<'_>, key: &'t str, choices: &'t [&'t [u8]]) -> Told {
        let (sort, names) = (Text(key.as_bytes()), Names(choices));
        if let Some(text) = self.text(key) {
            let article = Text(if key == "order" { b"an" } else { b"a" });
            let nearest = Nearest(text, choices, "");
            let place = quoted_place(self.bytes, text, 0);
            let parts = [Quoted(text), article, sort, sort, names, nearest];
            return telling.tell(place, "% isn't % %: the %s are %.\n%", &parts);
        }
        let sentence = match self.table.get(key) {
            Some(_) => "The key `%` must be one of %, between quotes.\n%",
            None => "The key `%` is missing. It must be one of %, between quotes.\n%",
        };
        let place = key_place(self.bytes, key.as_bytes());
        telling.tell(place, sentence, &[sort, names, SHAPE])
    }

    /// Explains `globals` that aren't an array of at most 256 pairs of texts.
    fn bad_globals(self, telling: &mut Telling<'_>) -> Told {
        let place = key_place(self.bytes, b"globals");
        let Some(value) = self.table.get("globals") else {
            let sentence = "The key `globals` is missing. Hint: name each global with its class, \
                in the order in which a text must declare them.\n%";
            return telling.tell(None, sentence, &[SHAPE]);
        };
        if value.as_array().is_none() {
            let sentence = "The value of `globals` isn't an array. Hint: write `[\"x\", \"L\"]` \
                for each global `var x : L`.\n%";
            return telling.tell(place, sentence, &[SHAPE]);
        }
        let pairs = array_in(self.table, "globals");
        if pairs.len() > MOST_GLOBALS {
            let sentence = "`globals` has more than 256 entries. Hint: no program has more \
                globals.\n";
            return telling.tell(place, sentence, &[]);
        }
        let is_faulty = |pair: &Value| {
            let has_two = pair.as_array().is_some_and(|array| array.len() == 2);
            !has_two || side_of(pair, 0).is_none() || side_of(pair, 1).is_none()
        };
        let faulty = pairs.iter().position(is_faulty).unwrap_or(0);
        let sentence = "Entry % of `globals` isn't a pair of a name and a class. Hint: write \
            `[\"x\", \"L\"]` for each global `var x : L`.\n%";
        let parts = [Number(faulty.saturating_add(1)), SHAPE];
        telling.tell(place, sentence, &parts)
    }

    /// Explains a name of a global, after this many others of the same name.
    fn bad_name(self, telling: &mut Telling<'_>, name: &[u8], others: usize) -> Told {
        let sentence = if others > 0 {
            "% is in `globals` twice. Hint: leave one out.\n"
        } else {
            "% isn't a valid name. Hint: a name begins with a letter, continues with letters, \
            digits and `_`, has at most 32 of them, and isn't a keyword.\n"
        };
        let number = self.pair_named(name, others);
        let place = number.and_then(|number| self.pair_place(number, 0));
        telling.tell(place, sentence, &[Quoted(name)])
    }

    /// Explains the class of a global that isn't a class of the lattice.
    fn unknown_class(self, telling: &mut Telling<'_>, name: &'t [u8]) -> Told {
        let number = self.pair_named(name, 0).unwrap_or(usize::MAX);
        let pair = array_in(self.table, "globals").get(number);
        let Some(class) = pair.and_then(|pair| side_of(pair, 1)) else {
            return Ok(None);
        };
        let classes = self.classes(telling.alloc)?;
        let otherwise =
            "Hint: give the global one of these, or declare the class in the lattice.\n";
        let nearest = Nearest(class, &classes, otherwise);
        let parts = [Quoted(class), Quoted(name), Names(&classes), nearest];
        let sentence = "The class % of the global % isn't in the lattice. Its classes are %.\n%";
        telling.tell(self.pair_place(number, 1), sentence, &parts)
    }

    /// Adds the explanation of a fault, and returns its position.
    fn explain(self, telling: &mut Telling<'_>, error: &'t InterfaceError) -> Told {
        match error {
            InterfaceError::BadGlobals => self.bad_globals(telling),
            InterfaceError::BadName(name) => self.bad_name(telling, name, 0),
            InterfaceError::RepeatedGlobal(name) => self.bad_name(telling, name, 1),
            InterfaceError::UnknownClass(name) => self.unknown_class(telling, name),
            InterfaceError::UnknownKey(key) => {
                let place = key_place(self.bytes, key);
                let quoted = Quoted(key);
                if RUN_KEYS.contains(&key.as_slice()) {
                    let sentence = "An interface has no key % of its own. Hint: it is a key of a \
                        run, and goes after a line `[[runs]]`.\n";
                    return telling.tell(place, sentence, &[quoted]);
                }
                let (some, others) = (Names(&KEYS[..5]), Names(&KEYS[5..]));
                let nearest = Nearest(key, &KEYS, "Hint: remove the line.\n");
                let sentence = "An interface has no key %: its keys are %, %.\n%";
                telling.tell(place, sentence, &[quoted, some, others, nearest])
            }
            InterfaceError::BadLattice => self.bad_lattice(telling),
            InterfaceError::BadProfile => self.bad_choice(telling, "profile", &PROFILES),
            InterfaceError::BadOrder => self.bad_choice(telling, "order", &ORDERS),
            InterfaceError::BadBounded => {
                telling.tell(key_place(self.bytes, b"bounded"), BOUNDED, &[])
            }
            InterfaceError::BadReference => {
                let hint = "source text between quotes, as in `reference = \"lock.vsi\"`";
                self.bad_path(telling, "reference", "reference", hint)
            }
            InterfaceError::RefusedReference(_) => {
                telling.tell(key_place(self.bytes, b"reference"), REFUSED, &[])
            }
            other => self.of_table(telling, other),
        }
    }
}

/// Adds the explanation of a refused interface file, and returns the position of the fault. The
/// lattice is that of the file that it names.
pub(crate) fn of_interface(
    telling: &mut Telling<'_>,
    lattice: Option<&Lattice>,
    error: &InterfaceError,
) -> Told {
    if let InterfaceError::Memory = error {
        return Err(AllocError);
    }
    let bytes = telling.bytes;
    let table = match toml::table_from_slice(telling.alloc, bytes) {
        Ok(table) => table,
        Err(fault) => {
            // An error of memory has no position.
            let Some(range) = fault.span() else {
                return Err(AllocError);
            };
            let why = Text(fault.message().as_bytes());
            telling.say("The file isn't a TOML document: %.\n", &[why])?;
            let (start, stop) = (range.start, range.end);
            return telling.tell(Some(Span { start, stop }), toml_hint(bytes), &[SHAPE]);
        }
    };
    let interface = Interface {
        bytes,
        table: &table,
        lattice,
    };
    interface.explain(telling, error)
}
