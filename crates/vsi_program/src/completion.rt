//! Arguments that ask for several requests: for folders, for files, for the programs of a project.

use crate::folders::{FolderError, is_file, is_folder, sources_below};
use crate::projects::{answer_project, make_project};
use crate::session::{DONE, Ending, Session, USAGE};
use crate::troubles::reason_of_listing;
use std::alloc::AllocError;
use vsi_arguments::is_valued;
use vsi_project::is_program_name;

/// The flags that ask for help.
const HELP: [&str; 2] = ["--help", "-h"];

/// The options of `check` that give its answer a form, or that go with one source text.
const FORMS: [&str; 5] = ["--format", "--json", "--sarif", "--explain", "--warnings"];

/// The flags of `fmt` with which it prints no text.
const TEXTLESS: [&str; 2] = ["--check", "--write"];

/// The options with which a subcommand writes one file.
const OF_FILE: [&str; 4] = ["--header", "--lattice", "--name", "--out"];

/// Arguments taken apart.
#[derive(Drop)]
pub(crate) struct Arguments<'a> {
    pub(crate) subcommand: &'a str,
    /// The flags, and the options with their values.
    pub(crate) options: Vec<&'a str>,
    pub(crate) operands: Vec<&'a str>,
}

impl<'a> Arguments<'a> {
    /// Takes apart the arguments after a subcommand.
    fn of(
        session: &Session<'_>,
        subcommand: &'a str,
        words: &'a [String],
    ) -> Result<Arguments<'a>, AllocError> {
        let mut options = Vec::new(session.rt.alloc());
        let mut operands = Vec::new(session.rt.alloc());
        let mut is_value = false;
        let mut is_over = false;
        for word in words {
            let word = word.as_str();
            if is_value {
                options.push(word)?;
                is_value = false;
            } else if is_over || !word.starts_with('-') || word == "-" {
                operands.push(word)?;
            } else if word == "--" {
                is_over = true;
            } else {
                options.push(word)?;
                is_value = is_valued(word.as_bytes());
            }
        }
        Ok(Arguments {
            subcommand,
            options,
            operands,
        })
    }

    /// Whether one of these options is given.
    fn has_any(&self, names: &[&str]) -> bool {
        for option in &self.options {
            let name = option.split_once('=').map_or(*option, |parts| parts.0);
            if names.iter().any(|other| *other == name) {
                return true;
            }
        }
        false
    }

    /// The arguments with these options before their own, and with these operands.
    pub(crate) fn with(
        &self,
        session: &Session<'_>,
        options: &[&str],
        operands: &[&str],
    ) -> Result<Vec<String>, AllocError> {
        let alloc = session.rt.alloc();
        let mut words = Vec::new(alloc);
        words.push(String::from_str(alloc, self.subcommand)?)?;
        for option in options {
            words.push(String::from_str(alloc, option)?)?;
        }
        for option in &self.options {
            words.push(String::from_str(alloc, option)?)?;
        }
        words.push(String::from_str(alloc, "--")?)?;
        for operand in operands {
            words.push(String::from_str(alloc, operand)?)?;
        }
        Ok(words)
    }

    /// Whether they ask for the programs of a project, or for the one that the operand names.
    fn asks_for_programs(&self, session: &Session<'_>) -> bool {
        let is_named = match self.operands.as_slice() {
            [] => true,
            [name] => is_program_name(name) && !is_file(session.rt, name),
            _ => false,
        };
        match self.subcommand {
            "check" => is_named && !self.has_any(&["--project"]),
            "build" | "emit-c" | "report" => is_named && !self.has_any(&OF_FILE),
            _ => false,
        }
    }
}

/// Carries out the arguments of a call, and returns the status.
pub(crate) fn answer(session: &Session<'_>, words: &[String]) -> u8 {
    let status = match answered(session, words) {
        Ok(status) | Err(Ending::Told(status)) => status,
        Err(Ending::Memory) => session.lack_memory(),
    };
    session.advise(words);
    status
}

/// Carries out the arguments of a call, by one request or by several.
fn answered(session: &Session<'_>, words: &[String]) -> Result<u8, Ending> {
    let [first, rest @ ..] = words else {
        return Ok(session.carry_out(words));
    };
    let subcommand = first.as_str();
    if !matches!(
        subcommand,
        "check" | "fmt" | "build" | "emit-c" | "report" | "new"
    ) {
        return Ok(session.carry_out(words));
    }
    let arguments = Arguments::of(session, subcommand, rest)?;
    if arguments.has_any(&HELP) {
        return Ok(session.carry_out(words));
    }
    if arguments.asks_for_programs(session) {
        return answer_project(session, &arguments, words);
    }
    match (subcommand, arguments.operands.as_slice()) {
        ("check", [lattice, sources @ ..]) => {
            check_sources(session, &arguments, words, lattice, sources)
        }
        ("fmt", sources) => lay_out_sources(session, &arguments, words, sources),
        ("new", [name]) if arguments.options.is_empty() => make_project(session, name),
        _ => Ok(session.carry_out(words)),
    }
}

/// The paths of source texts, with those below each folder in place of its path, and whether one of
/// them is a folder.
fn sources_in(session: &Session<'_>, paths: &[&str]) -> Result<(Vec<String>, bool), Ending> {
    let alloc = session.rt.alloc();
    let mut sources = Vec::new(alloc);
    let mut has_folder = false;
    for path in paths {
        if !is_folder(session.rt, path) {
            sources.push(String::from_str(alloc, path)?)?;
            continue;
        }
        has_folder = true;
        match sources_below(session.rt, path) {
            Ok(below) => {
                for source in below {
                    sources.push(source)?;
                }
            }
            Err(error) => return Err(told(session, path, &error)),
        }
    }
    Ok((sources, has_folder))
}

/// Says why the source texts below the folder at this path aren't listed.
fn told(session: &Session<'_>, path: &str, error: &FolderError) -> Ending {
    Ending::Told(match error {
        FolderError::NoSource => session.complain(
            format_args!("error: there is no source text (.vsi) below {path}"),
            USAGE,
        ),
        FolderError::TooMany => session.complain(
            format_args!("error: there are more than 10000 source texts (.vsi) below {path}"),
            USAGE,
        ),
        FolderError::TooDeep => session.complain(
            format_args!("error: more than 64 folders are within one another below {path}"),
            USAGE,
        ),
        FolderError::Unlisted(folder, kind) => {
            session.file_fault(folder.as_str(), Some(reason_of_listing(*kind)))
        }
        FolderError::Memory => return Ending::Memory,
    })
}

/// The options with which the answer on one text begins each fault with its place.
const LINES: [&str; 2] = ["--format", "line"];

/// The options of the answer on the texts of a folder, of which there may be only one.
fn form_of(is_one: bool) -> &'static [&'static str] {
    if is_one { &LINES } else { &[] }
}

/// Judges source texts, some of which may be folders, under a lattice file.
fn check_sources(
    session: &Session<'_>,
    arguments: &Arguments<'_>,
    words: &[String],
    lattice: &str,
    paths: &[&str],
) -> Result<u8, Ending> {
    let (sources, has_folder) = sources_in(session, paths)?;
    if !has_folder {
        return Ok(session.carry_out(words));
    }
    let is_one = sources.len() == 1 && !arguments.has_any(&FORMS);
    let mut words = arguments.with(session, form_of(is_one), &[lattice])?;
    for source in sources {
        words.push(source)?;
    }
    Ok(session.carry_out(words.as_slice()))
}

/// Lays out source texts, some of which may be folders, one after another.
fn lay_out_sources(
    session: &Session<'_>,
    arguments: &Arguments<'_>,
    words: &[String],
    paths: &[&str],
) -> Result<u8, Ending> {
    let (sources, has_folder) = sources_in(session, paths)?;
    if !has_folder && paths.len() < 2 {
        return Ok(session.carry_out(words));
    }
    let is_textless = arguments.has_any(&TEXTLESS);
    let is_json = arguments.has_any(&["--json"]);
    if sources.len() > 1 && !is_textless {
        let mistake = "error: `fmt` of several source texts needs `--check` or `--write`";
        return Ok(session.complain(mistake, USAGE));
    }
    let mut status = DONE;
    for source in &sources {
        let words = arguments.with(session, &[], &[source.as_str()])?;
        let done = if is_textless {
            session.carry_out_for(source.as_str(), words.as_slice(), is_json)
        } else {
            session.carry_out(words.as_slice())
        };
        status = status.max(done);
        if session.ends_after(done) {
            break;
        }
    }
    Ok(status)
}
