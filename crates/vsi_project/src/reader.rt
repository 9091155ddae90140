//! Reads a project file.

ghost use Rattle.std.specs.{Prelude.{◌≡◌, ◌≢◌, ◌≤◌, length, None, Some, IfSome, IfOk, OnOk, false, true, string_bytes}, List.{All}};
ghost use Rattle.vsi_project.specs.Names as names;
ghost use Rattle.vsi_project.specs.Paths as paths;
ghost use Rattle.vsi_project.specs.Programs.{IsBelow, IsNamed, IsOf};

use crate::faults::ProjectError;
use crate::places::{key_place, program_place};
use std::alloc::Global;
use toml::{Table, Value};
use vsi_conform::path_beside;
use vsi_syntax::line_column;
use vsi_telling::Part;

/// The most programs of a project.
const MOST_PROGRAMS: usize = 1000;

/// The fault that no program is there.
const NO_PROGRAMS: &str = "there is no program: each is a table [programs.NAME] with a `source`";

/// A program of a project. Its paths are joined to the folder of the project file.
#[derive(Debug, Drop)]
pub struct Program {
    /// Its name, which can be a file name.
    pub name: String,
    /// The path of its lattice file.
    pub lattice: String,
    /// The path of its source text.
    pub source: String,
    /// The path of the interface that it must conform to.
    pub interface: Option<String>,
    /// The path of the store that it starts with.
    pub store: Option<String>,
    /// Whether it must be accepted under the strict profile.
    pub is_strict: bool,
    /// Whether its image must also be steady; then `is_strict` holds too.
    pub is_steady: bool,
    /// Whether its image must have a bound.
    pub is_bounded: bool,
}

/// The programs of a project.
#[derive(Debug, Drop)]
pub struct Project {
    /// At least one program and at most 1,000, in the order of their tables.
    pub programs: Vec<Program>,
}

/// Whether a program can have this name: a letter, then letters, digits, `_` and `-`, at most 64 in
/// all, but not `index`, which is the page that links to the reports.
pub fn is_program_name(name: &str) -> bool
    ensures { result ≡ names.is_program_name name.now }
{
    let [first, rest @ ..] = name.as_bytes() else {
        return false;
    };
    for byte in rest {
        if !(byte.is_ascii_alphanumeric() || *byte == b'_' || *byte == b'-') {
            return false;
        }
    }
    first.is_ascii_alphabetic() && rest.len() <= 63 && name.as_bytes() != b"index".as_slice()
}

/// How far below a folder a part of a path leads from a place that is so far below it, unless it
/// leads out.
fn moved(depth: usize, part: &[u8]) -> Option<usize>
    ensures { IfSome result (λ next. paths.moved depth part.now ≡ Some next) }
{
    match part {
        b"" | b"." => Some(depth),
        b".." => depth.checked_sub(1),
        _ => depth.checked_add(1),
    }
}

/// Whether a path stays in the folder that it is taken in.
fn stays(path: &[u8]) -> bool
    ensures { result ≡ true → paths.stays path.now ≡ true }
{
    let mut depth: usize = 0;
    let mut start: usize = 0;
    for (i, byte) in path.iter().enumerate() {
        if *byte == b'/' {
            let Some(next) = moved(depth, &path[start..i]) else {
                return false;
            };
            depth = next;
            start = i + 1;
        }
    }
    moved(depth, &path[start..]).is_some()
}

/// Whether a path is relative, stays in the folder that it is taken in, and can't be mistaken for
/// an option.
fn is_inside(path: &[u8]) -> bool
    ensures { result ≡ true → paths.is_inside path.now ≡ true }
{
    !matches!(path, [] | [b'/' | b'-', ..]) && stays(path)
}

/// A byte of the name of a program as it is in C.
pub(crate) fn byte_in_c(byte: u8) -> u8
    ensures { result ≡ names.byte_in_c byte }
{
    if byte == b'-' { b'_' } else { byte }
}

/// Whether two names are one in C.
fn are_one_in_c(left: &[u8], right: &[u8]) -> bool
    ensures { result ≡ false → names.in_c left.now ≢ names.in_c right.now }
{
    if left.len() != right.len() {
        return false;
    }
    for (i, byte) in left.iter().enumerate() {
        if byte_in_c(*byte) != byte_in_c(right[i]) {
            return false;
        }
    }
    true
}

/// The first of these programs whose name in C is that of this name.
fn same_in_c<'p>(programs: &'p [Program], name: &str) -> Option<&'p Program>
    ensures { result ≡ None → names.AreOthers (names.in_c name.now) programs.now }
{
    for program in programs {
        if are_one_in_c(program.name.as_bytes(), name.as_bytes()) {
            return Some(program);
        }
    }
    None
}

/// Two of these programs whose names are one in C, if there are any.
fn same_names(programs: &[Program]) -> Option<(&Program, &Program)>
    ensures { result ≡ None → names.AreApart programs.now }
{
    for (i, program) in programs.iter().enumerate() {
        if let Some(other) = same_in_c(&programs[..i], program.name.as_str()) {
            return Some((other, program));
        }
    }
    None
}

/// The value at a key of a table.
fn value_at<'t>(table: &'t Table, key: &str) -> Option<&'t Value> {
    table.get(key)
}

/// The table at a key of a table.
fn table_at<'t>(table: &'t Table, key: &str) -> Option<&'t Table> {
    value_at(table, key)?.as_table()
}

/// A table of a project file.
#[derive(Clone, Copy)]
struct Section<'r> {
    alloc: Global,
    /// The path of the project file.
    path: &'r str,
    /// The project file.
    bytes: &'r [u8],
    /// The position of the table.
    start: usize,
    table: &'r Table,
}

impl<'r> Section<'r> {
    /// A fault at a key.
    fn fault(&self, key: &str, words: &str, parts: &[Part<'_>]) -> ProjectError {
        let place = key_place(self.bytes, self.start, key.as_bytes());
        ProjectError::at(self.alloc, place, words, parts)
    }

    /// The fault that the value of a key isn't of the type that it must have.
    fn wrong_type(&self, key: &str, wanted: &str) -> ProjectError {
        let parts = [Part::Quoted(key.as_bytes()), Part::Text(wanted.as_bytes())];
        self.fault(key, "the value of % must be %", &parts)
    }

    /// Refuses a key that isn't one of these.
    fn check_keys(&self, keys: &'r [&'r [u8]]) -> Result<(), ProjectError> {
        for (key, _value) in self.table {
            let name = key.as_bytes();
            if !keys.contains(&name) {
                let nearest = Part::Nearest(name, keys, "");
                let parts = [Part::Quoted(name), Part::Names(keys), nearest];
                return Err(self.fault(key, "there is no key %, only %. %", &parts));
            }
        }
        Ok(())
    }

    /// The path at a key, joined to the folder of the project file.
    fn path_at(&self, key: &str) -> Result<Option<String>, ProjectError>
        ensures { IfOk result (λ found. IfSome found
            (λ path. paths.IsWithin self.now.path.now (string_bytes path))) }
    {
        let Some(value) = value_at(self.table, key) else {
            return Ok(None);
        };
        let Some(path) = value.as_str() else {
            return Err(self.wrong_type(key, "a path in quotes"));
        };
        if !is_inside(path.as_bytes()) {
            let words = "the path % must be relative, must stay in the folder of this file, and \
                         mustn't begin with a dash";
            return Err(self.fault(key, words, &[Part::Quoted(path.as_bytes())]));
        }
        let joined = path_beside(self.alloc, self.path, path.as_bytes())?;
        Ok(Some(joined))
    }

    /// The path at a key that must be there.
    fn required_path(&self, key: &str) -> Result<String, ProjectError>
        ensures { IfOk result (λ path. paths.IsWithin self.now.path.now (string_bytes path)) }
    {
        match self.path_at(key)? {
            Some(path) => Ok(path),
            None => {
                let parts = [Part::Quoted(key.as_bytes())];
                Err(self.fault(key, "the key % is missing", &parts))
            }
        }
    }

    /// Whether the profile is strict, and whether it is steady.
    fn profile(&self) -> Result<(bool, bool), ProjectError> {
        let Some(value) = value_at(self.table, "profile") else {
            return Ok((false, false));
        };
        match value.as_str() {
            Some("base") => Ok((false, false)),
            Some("strict") => Ok((true, false)),
            Some("steady") => Ok((true, true)),
            Some(other) => {
                let words = "there is no profile %, only `base`, `strict` and `steady`";
                Err(self.fault("profile", words, &[Part::Quoted(other.as_bytes())]))
            }
            None => Err(self.wrong_type("profile", "the name of a profile in quotes")),
        }
    }

    /// Whether a bound is required.
    fn is_bounded(&self) -> Result<bool, ProjectError> {
        let Some(value) = value_at(self.table, "bounded") else {
            return Ok(false);
        };
        match value.as_bool() {
            Some(is) => Ok(is),
            None => Err(self.wrong_type("bounded", "true or false")),
        }
    }

    /// The program at a key of this table of programs, with this lattice.
    fn entry(&self, name: &str, lattice: &str) -> Result<Program, ProjectError>
        ensures { paths.IsWithin self.now.path.now lattice.now
            → IfOk result (IsOf self.now.path.now) }
    {
        if !is_program_name(name) {
            let words = "% can't be the name of a program: use a letter, then at most 63 letters, \
                         digits, `_` and `-`, but not `index`";
            return Err(self.fault("", words, &[Part::Quoted(name.as_bytes())]));
        }
        let Some(table) = table_at(self.table, name) else {
            return Err(self.wrong_type(name, "a table"));
        };
        let section = Section { table, ..*self };
        section.check_keys(&[b"source", b"interface", b"profile", b"bounded", b"store"])?;
        let source = section.required_path("source")?;
        let interface = section.path_at("interface")?;
        let store = section.path_at("store")?;
        let (is_strict, is_steady) = section.profile()?;
        Ok(Program {
            name: String::from_str(self.alloc, name)?,
            lattice: String::from_str(self.alloc, lattice)?,
            source,
            interface,
            store,
            is_strict,
            is_steady,
            is_bounded: section.is_bounded()?,
        })
    }

    /// The programs of this table of programs, in the order of their places, with this lattice.
    fn entries(&self, lattice: &str) -> Result<Vec<Program>, ProjectError>
        ensures { paths.IsWithin self.now.path.now lattice.now
            → IfOk result (λ programs. All (IsOf self.now.path.now) programs.items) }
    {
        let mut places = Vec::new(self.alloc);
        for (name, _value) in self.table {
            places.push((program_place(self.bytes, name.as_bytes()), name.as_str()))?;
        }
        places.sort_by_key(|place: &(usize, &str)| place.0)?;
        let mut programs = Vec::new(self.alloc);
        for (start, name) in &places {
            let start = *start;
            let program = Section { start, ..*self }.entry(name, lattice)?;
            programs.push(program)?;
        }
        Ok(programs)
    }

    /// The programs of this table of programs, all of them, with this lattice.
    fn programs(&self, lattice: &str) -> Result<Vec<Program>, ProjectError>
        ensures some { IfOk result (λ programs. 1 ≤ length programs.items) }
        ensures few { IfOk result (λ programs. length programs.items ≤ MOST_PROGRAMS) }
        ensures apart { IfOk result (λ programs. names.AreApart programs.items) }
        ensures all { paths.IsWithin self.now.path.now lattice.now
            → IfOk result (λ programs. All (IsOf self.now.path.now) programs.items) }
    {
        let programs = self.entries(lattice)?;
        if programs.is_empty() {
            return Err(self.fault("programs", NO_PROGRAMS, &[]));
        }
        if programs.len() > MOST_PROGRAMS {
            return Err(self.fault("programs", "there are more than 1000 programs", &[]));
        }
        if let Some((first, second)) = same_names(&programs) {
            let start = program_place(self.bytes, second.name.as_bytes());
            let names = [first.name.as_bytes(), second.name.as_bytes()];
            let parts = [Part::Quoted(names[0]), Part::Quoted(names[1])];
            let words = "the programs % and % have one name in C, where `-` becomes `_`";
            return Err(Section { start, ..*self }.fault("", words, &parts));
        }
        Ok(programs)
    }
}

/// The document of a project file.
fn table_in(alloc: Global, bytes: &[u8]) -> Result<Table, ProjectError> {
    match toml::table_from_slice(alloc, bytes) {
        Ok(table) => Ok(table),
        Err(error) if error.is_memory() => Err(ProjectError::Memory),
        Err(error) => {
            let start = error.span().map_or(0, |span| span.start);
            let words = "this isn't TOML: %. A name that two programs share is this fault too";
            let parts = [Part::Text(error.message().as_bytes())];
            Err(ProjectError::at(alloc, line_column(bytes, start), words, &parts))
        }
    }
}

/// The project of the project file with this path and these bytes.
///
/// # Errors
///
/// The first fault of the file, in the order document, keys, lattice, programs; or `Memory`.
pub fn read_project(alloc: Global, path: &str, bytes: &[u8]) -> Result<Project, ProjectError>
    ensures some { IfOk result (λ project. 1 ≤ length project.programs.items) }
    ensures few { IfOk result (λ project. length project.programs.items ≤ MOST_PROGRAMS) }
    ensures named { IfOk result (λ project. All IsNamed project.programs.items) }
    ensures apart { IfOk result (λ project. names.AreApart project.programs.items) }
    ensures below { IfOk result (λ project. All (IsBelow path.now) project.programs.items) }
{
    let document = table_in(alloc, bytes)?;
    let section = Section {
        alloc,
        path,
        bytes,
        start: 0,
        table: &document,
    };
    section.check_keys(&[b"lattice".as_slice(), b"programs"])?;
    let lattice = section.required_path("lattice")?;
    let Some(table) = table_at(&document, "programs") else {
        return Err(section.fault("programs", NO_PROGRAMS, &[]));
    };
    let section = Section { table, ..section };
    let programs = section.programs(lattice.as_str())?;
    Ok(Project { programs })
}
