//! The explanation of a faulty run or boundary of an interface file, of which each is a numbered
//! table.

use crate::advice::interfaces::{Interface, behind};
use toml::{Table, Value};
use vsi_conform::InterfaceError;
use vsi_syntax::Span;
use vsi_telling::Part::{Names, Nearest, Number, Quoted, Text};
use vsi_telling::{Telling, Told, array_in, has_text, key_place, line_place, part_of, span_at};

/// A sort of tables that are numbered from 1.
#[derive(Clone, Copy)]
struct Tables {
    /// The key of all of them.
    key: &'static str,
    /// The line above each.
    header: &'static [u8],
    /// The name of one, where it begins a sentence.
    name: &'static [u8],
    /// The same within a sentence.
    noun: &'static [u8],
    keys: &'static [&'static [u8]],
    /// The hint for another key.
    otherwise: &'static str,
    /// An example.
    shape: &'static [u8],
}

/// The keys of a run.
pub(crate) const RUN_KEYS: [&[u8]; 4] = [b"store", b"budget", b"expect", b"halts"];

/// The runs.
const RUNS: Tables = Tables {
    key: "runs",
    header: b"[[runs]]",
    name: b"Run",
    noun: b"run",
    keys: &RUN_KEYS,
    otherwise: "Hint: leave it out; a key of the whole interface comes before the first run.\n",
    shape: b"A run is written like this:\n  [[runs]]\n  store = { key = 7 }\n  budget = 1000\n  \
        expect = { out = 3 }\n",
};

/// The keys of a boundary.
const CYCLE_KEYS: [&[u8]; 5] = [b"class", b"inputs", b"outputs", b"released", b"from"];

/// The keys of a boundary whose values are lists.
const LIST_KEYS: [&str; 4] = ["inputs", "outputs", "released", "from"];

/// The boundaries.
const CYCLES: Tables = Tables {
    key: "cycle",
    header: b"[[cycle]]",
    name: b"Boundary",
    noun: b"boundary",
    keys: &CYCLE_KEYS,
    otherwise: "Hint: leave it out.\n",
    shape: b"A boundary is written like this:\n  [[cycle]]\n  class = \"user\"\n  \
        inputs = [\"typed\"]\n  outputs = [\"open\"]\n  released = [\"open\"]\n",
};

/// The position of a name, with a quote after it or not, and `=`.
fn entry_place(text: &[u8], name: &[u8]) -> Option<Span> {
    let mut is_within = false;
    for at in 0..text.len() {
        let rest = match text[at..].strip_prefix(name) {
            Some([b'"' | b'\'', rest @ ..]) => Some(rest),
            rest => rest,
        };
        let is_entry = rest.is_some_and(|rest| rest.trim_ascii_start().first() == Some(&b'='));
        if is_entry && !is_within {
            return Some(span_at(at, name.len()));
        }
        is_within = text[at].is_ascii_alphanumeric() || text[at] == b'_';
    }
    None
}

/// The table with a number, from 1, among those of a sort in an interface.
#[derive(Clone, Copy)]
struct Numbered<'t> {
    interface: Interface<'t>,
    tables: &'t Tables,
    number: usize,
}

impl<'t> Numbered<'t> {
    /// The table, if the value with the number is one.
    fn table(self) -> Option<&'t Table> {
        let all = array_in(self.interface.table, self.tables.key);
        all.get(self.number.saturating_sub(1))?.as_table()
    }

    /// The value of a key.
    fn value(self, key: &str) -> Option<&'t Value> {
        self.table()?.get(key)
    }

    /// The position of the header after this many others.
    fn header_place(self, others: usize) -> Option<Span> {
        line_place(self.interface.bytes, self.tables.header, b" \t", others)
    }

    /// The position of a key, or of a name with a value, or else that of the header.
    fn place_of(self, name: &[u8], is_key: bool) -> Option<Span> {
        let header = self.header_place(self.number.saturating_sub(1))?;
        let next = self.header_place(self.number);
        let bytes = self.interface.bytes;
        let (start, stop) = (header.stop, next.map_or(bytes.len(), |next| next.start));
        let text = part_of(bytes, Span { start, stop });
        let found = if is_key {
            key_place(text, name)
        } else {
            entry_place(text, name)
        };
        found.map_or(Some(header), |found| Some(behind(start, found)))
    }

    /// The position of a key, or else that of the header.
    fn key_place(self, key: &str) -> Option<Span> {
        self.place_of(key.as_bytes(), true)
    }

    /// Explains that the value isn't a table, or has another key. Otherwise adds and returns
    /// nothing.
    fn explain(self, telling: &mut Telling<'_>) -> Option<Told> {
        let tables = self.tables;
        let (name, counted) = (Text(tables.name), Number(self.number));
        if self.table().is_none() {
            let place = self.header_place(self.number.saturating_sub(1));
            let parts = [name, counted, Text(tables.shape)];
            return Some(telling.tell(place, "% % isn't a table.\n%", &parts));
        }
        let mut keys = self.table()?.keys().map(|key| key.as_bytes());
        let key = keys.find(|key| !self.tables.keys.contains(key))?;
        let (noun, names) = (Text(tables.noun), Names(tables.keys));
        let nearest = Nearest(key, tables.keys, tables.otherwise);
        let sentence = "% % has a key %, which isn't a key of a %: the keys are %.\n%";
        let parts = [name, counted, Quoted(key), noun, names, nearest];
        Some(telling.tell(self.place_of(key, true), sentence, &parts))
    }

    /// Explains the faulty table at a key of a run, whose values should be whole numbers.
    fn bad_words(self, telling: &mut Telling<'_>, key: &'t str) -> Told {
        let (within, counted) = (Quoted(key.as_bytes()), Number(self.number));
        let words = self.value(key).and_then(|value| value.as_table());
        let faulty = words.and_then(|words| words
            .iter()
            .find(|word| word.1.as_integer().is_none()));
        if let Some((name, _)) = faulty {
            let name = name.as_bytes();
            let sentence = "The value of % in % of run % isn't a whole number. Hint: write digits, \
                after a `-` if it is below 0, without quotes and without a decimal point.\n";
            let parts = [Quoted(name), within, counted];
            return telling.tell(self.place_of(name, false), sentence, &parts);
        }
        let sentence = "The value of % in run % isn't a table of whole numbers.\n%";
        let parts = [within, counted, Text(RUNS.shape)];
        telling.tell(self.key_place(key), sentence, &parts)
    }

    /// Explains a run without a budget, or with one that isn't valid.
    fn bad_budget(self, telling: &mut Telling<'_>) -> Told {
        let sentence = if self.value("budget").is_some() {
            "The budget of run % isn't a whole number of at least 0. Hint: write only digits, as \
            in `budget = 1000`.\n"
        } else {
            "Run % has no budget. Hint: write how many instructions it may execute, as in \
            `budget = 1000`.\n"
        };
        telling.tell(self.key_place("budget"), sentence, &[Number(self.number)])
    }

    /// Explains a run that expects nothing, or two things.
    fn bad_expectation(self, telling: &mut Telling<'_>) -> Told {
        let sentence = if self.value("expect").is_none() {
            "Run % has neither `expect` nor `halts = true`. Hint: write the values that globals \
            end with, as in `expect = { out = 3 }`, or `halts = true` if it only has to halt.\n"
        } else if self.value("halts").is_some() {
            "Run % has both `expect` and `halts`. Hint: leave out `halts`: a run that ends with \
            these values halts.\n"
        } else {
            return self.bad_words(telling, "expect");
        };
        telling.tell(self.key_place("halts"), sentence, &[Number(self.number)])
    }

    /// Explains a name in a run or in a list of a boundary that isn't a global.
    fn unknown_global(
        self,
        telling: &mut Telling<'_>,
        name: &'t [u8],
        place: Option<Span>,
        hint: &'static str,
    ) -> Told {
        let names = self.interface.names(telling.alloc)?;
        let (kind, counted) = (Text(self.tables.name), Number(self.number));
        if names.is_empty() && self.tables.key == RUNS.key {
            let sentence = "% % names %, but the interface has no global.\n%";
            let parts = [kind, counted, Quoted(name), Text(hint.as_bytes())];
            return telling.tell(place, sentence, &parts);
        }
        let nearest = Nearest(name, &names, hint);
        let sentence = "% % names %, which isn't a global of the interface: its globals are %.\n%";
        let parts = [kind, counted, Quoted(name), Names(&names), nearest];
        telling.tell(place, sentence, &parts)
    }

    /// Explains a boundary that isn't valid.
    fn bad_cycle(self, telling: &mut Telling<'_>) -> Told {
        let cycles = self.interface.table.get("cycle");
        if cycles.is_none_or(|cycles| cycles.as_array().is_none()) {
            let sentence = "The value of `cycle` isn't an array of tables. Hint: write a line \
                `[[cycle]]`, with two brackets on each side, before the keys of each boundary.\n%";
            let bytes = self.interface.bytes;
            let place = key_place(bytes, b"cycle").or(key_place(bytes, b"[cycle"));
            return telling.tell(place, sentence, &[Text(CYCLES.shape)]);
        }
        if let Some(told) = self.explain(telling) {
            return told;
        }
        let counted = Number(self.number);
        let place = self.key_place("class");
        let Some(class) = self.value("class").and_then(|class| class.as_str()) else {
            let sentence = "Boundary % has no text at `class`. Hint: write the name of a class \
                there, as in `class = \"user\"`.\n";
            return telling.tell(place, sentence, &[counted]);
        };
        let is_list = |value: &Value| {
            let array = value.as_array();
            array.is_some_and(|array| array.as_slice().iter().all(|item| item.as_str().is_some()))
        };
        let is_faulty = |key: &str| self.value(key).is_some_and(|value| !is_list(value));
        if let Some(key) = LIST_KEYS.into_iter().find(|key| is_faulty(*key)) {
            let sentence = "The value of % in boundary % isn't an array of names between quotes.\n\
                %";
            let parts = [Quoted(key.as_bytes()), counted, Text(CYCLES.shape)];
            return telling.tell(self.key_place(key), sentence, &parts);
        }
        let sentence = "Boundary % and a later one have the same class, %. Hint: leave one of them \
            out. A class has only one boundary.\n";
        telling.tell(place, sentence, &[counted, Quoted(class.as_bytes())])
    }

    /// Explains an unknown name in a boundary: a name of a list, or else the class.
    fn unknown_in_cycle(self, telling: &mut Telling<'_>, name: &'t [u8]) -> Told {
        let (counted, quoted) = (Number(self.number), Quoted(name));
        let is_global = self.interface.pair_named(name, 0).is_some();
        for key in LIST_KEYS {
            if let Some(table) = self.table()
                && !is_global
                && has_text(array_in(table, key), name)
            {
                let hint = "Hint: leave it out of the boundary.\n";
                return self.unknown_global(telling, name, self.key_place(key), hint);
            }
        }
        let classes = self.interface.classes(telling.alloc)?;
        let otherwise = "Hint: write one of these, or declare the class in the lattice.\n";
        let nearest = Nearest(name, &classes, otherwise);
        let sentence = "The class % of boundary % isn't in the lattice. The lattice has the \
            classes %.\n%";
        telling.tell(
            self.key_place("class"),
            sentence,
            &[quoted, counted, Names(&classes), nearest],
        )
    }
}

impl<'t> Interface<'t> {
    /// The run or the boundary with this number.
    fn nth(self, tables: &'static Tables, number: usize) -> Numbered<'t> {
        Numbered {
            interface: self,
            tables,
            number,
        }
    }

    /// Adds the explanation of a faulty run or boundary, and returns the position of the fault.
    pub(crate) fn of_table(self, telling: &mut Telling<'_>, error: &'t InterfaceError) -> Told {
        match error {
            InterfaceError::BadRuns => {
                let sentence = "The value of `runs` isn't an array of tables. Hint: write a line \
                    `[[runs]]` before the keys of each run.\n%";
                let place = key_place(self.bytes, b"runs").or(key_place(self.bytes, b"[runs"));
                telling.tell(place, sentence, &[Text(RUNS.shape)])
            }
            InterfaceError::BadRun(run) => self
                .nth(&RUNS, *run)
                .explain(telling)
                .unwrap_or(Ok(None)),
            InterfaceError::BadStore(run) => self.nth(&RUNS, *run).bad_words(telling, "store"),
            InterfaceError::NoBudget(run) => self.nth(&RUNS, *run).bad_budget(telling),
            InterfaceError::NothingExpected(run) => self.nth(&RUNS, *run).bad_expectation(telling),
            InterfaceError::UnknownGlobal(run, name) => {
                let hint =
                    "Hint: add it to `globals` with its class, or leave it out of the run.\n";
                let place = self.nth(&RUNS, *run).place_of(name, false);
                self.nth(&RUNS, *run)
                    .unknown_global(telling, name, place, hint)
            }
            InterfaceError::AboveBudget(most) => {
                let sentence = "The budgets of the runs add up to more than % instructions. Hint: \
                    give more with `--budget`, if you want to wait for that many, or give each run \
                    a smaller budget.\n";
                let place = self.nth(&RUNS, 1).key_place("budget");
                telling.tell(place, sentence, &[Number(*most as usize)])
            }
            InterfaceError::BadCycle(cycle) => self.nth(&CYCLES, *cycle).bad_cycle(telling),
            InterfaceError::UnknownInCycle(cycle, name) => {
                self.nth(&CYCLES, *cycle).unknown_in_cycle(telling, name)
            }
            _ => Ok(None),
        }
    }
}
