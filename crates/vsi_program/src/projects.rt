//! The programs of a project file, and new projects.

use crate::completion::Arguments;
use crate::disk::Disk;
use crate::folders::{is_file, is_folder};
use crate::session::{DONE, Ending, OUT_OF_MEMORY, REFUSED, Session, USAGE};
use crate::troubles::reason_of;
use std::alloc::AllocError;
use std::fs;
use std::io::ErrorKind;
use vsi::{Counted, EngineError, Files, read_all};
use vsi_project::{
    Program, Project, ProjectError, Row, commands, index_page, new_project, read_project,
};

/// The name of a project file.
const PROJECT: &str = "vsi.toml";

/// How many folders above this one are searched for a project file.
const MOST_LEVELS: u32 = 32;

/// The greatest length of a project file, in bytes.
const LONGEST: usize = 1_048_576;

/// Why there is no folder for the files that are made.
const NO_FOLDER: &str = "there is something with this name, and it is no folder.";

/// Why a new project isn't made.
const IS_TAKEN: &str = "there is a file or a folder with this name.";

/// Which names a project can have.
const NAME_RULE: &str =
    "use a letter, then at most 63 letters, digits, `_` and `-`, but not `index`";

/// The line after the mistake of arguments without operands if there is no project file.
const NO_PROJECT: &str = "There is no vsi.toml in this folder or above it.";

/// The path of the project file in the working folder or the nearest one above it.
fn project_path(session: &Session<'_>) -> Result<Option<String>, AllocError> {
    let alloc = session.rt.alloc();
    let mut path = String::from_str(alloc, PROJECT)?;
    for _level in 0..=MOST_LEVELS {
        if is_file(session.rt, path.as_str()) {
            return Ok(Some(path));
        }
        path = format!(in alloc; "../{path}")?;
    }
    Ok(None)
}

/// Carries out arguments without operands, or with the name of a program, for the project that the
/// working folder is in.
pub(crate) fn answer_project(
    session: &Session<'_>,
    arguments: &Arguments<'_>,
    words: &[String],
) -> Result<u8, Ending> {
    let Some(path) = project_path(session)? else {
        let status = session.carry_out(words);
        if status == USAGE {
            return Ok(session.complain(NO_PROJECT, USAGE));
        }
        return Ok(status);
    };
    if arguments.subcommand == "check" {
        let options = ["--project", path.as_str()];
        let words = arguments.with(session, &options, arguments.operands.as_slice())?;
        return Ok(session.carry_out(words.as_slice()));
    }
    build_programs(session, arguments, path.as_str())
}

/// The bytes of the project file at the path.
fn bytes_of(session: &Session<'_>, path: &str) -> Result<Vec<u8>, Ending> {
    let disk = Disk::new(session.rt, false);
    if let Some(file) = disk.open_file(path) {
        let mut reader = Counted::new(file);
        match read_all(session.rt.alloc(), &mut reader) {
            Ok(bytes) if bytes.len() <= LONGEST => return Ok(bytes),
            Ok(_bytes) => {}
            Err(EngineError::Memory) => return Err(Ending::Memory),
            Err(_error) => {}
        }
    }
    Err(Ending::Told(session.file_fault(path, disk.trouble(path))))
}

/// The project that the file at the path describes.
fn read(session: &Session<'_>, path: &str) -> Result<Project, Ending> {
    let alloc = session.rt.alloc();
    let bytes = bytes_of(session, path)?;
    match read_project(alloc, path, bytes.as_slice()) {
        Ok(project) => Ok(project),
        Err(ProjectError::Memory) => Err(Ending::Memory),
        Err(error) => {
            let line = String::from_utf8_lossy(alloc, &error.line(alloc, path)?)?;
            Err(Ending::Told(session.complain(line.as_str(), REFUSED)))
        }
    }
}

/// Builds, prints or reports the programs of the project file at the path, or the one that the
/// operand names, and returns the greatest status.
fn build_programs(
    session: &Session<'_>,
    arguments: &Arguments<'_>,
    path: &str,
) -> Result<u8, Ending> {
    let alloc = session.rt.alloc();
    let project = read(session, path)?;
    let name = arguments.operands.first().copied();
    let folder = path.strip_suffix(PROJECT).unwrap_or("");
    let mut options = Vec::new(alloc);
    for option in &arguments.options {
        options.push(String::from_str(alloc, option)?)?;
    }
    let subcommand = arguments.subcommand;
    let lines = commands(
        alloc,
        &project,
        folder,
        subcommand,
        name,
        options.as_slice(),
    )?;
    if let Some(name) = name
        && lines.is_empty()
    {
        let mistake = format_args!("error: {path} has no program `{name}`");
        return Ok(session.complain(mistake, USAGE));
    }
    let mut out = format!(in alloc; "{folder}out")?;
    make_folder(session, out.as_str())?;
    out.push('/')?;
    let mut status = build_all(session, lines.as_slice(), out.as_str());
    if subcommand == "report" && name.is_none() && !session.ends_after(status) {
        status = status.max(put_index(session, &project, out.as_str())?);
    }
    Ok(status)
}

/// Makes a folder, unless it is there.
fn make_folder(session: &Session<'_>, path: &str) -> Result<(), Ending> {
    if is_folder(session.rt, path) {
        return Ok(());
    }
    match fs::create_dir(session.rt, path) {
        Ok(()) => Ok(()),
        Err(error) => {
            let reason = match error.kind() {
                ErrorKind::AlreadyExists => Some(NO_FOLDER),
                kind => reason_of(kind),
            };
            Err(Ending::Told(session.file_fault(path, reason)))
        }
    }
}

/// Carries out commands that write files into the folder `out`, up to one after which nothing is
/// carried out, and returns the greatest status. A program whose C isn't written gets no header.
fn build_all(session: &Session<'_>, lines: &[Vec<String>], out: &str) -> u8 {
    let mut status = DONE;
    let mut failed = "";
    for line in lines {
        let (name, path) = target(line.as_slice(), out);
        if name == failed {
            continue;
        }
        let done = build_program(session, name, path, line.as_slice());
        status = status.max(done);
        if session.ends_after(done) {
            return status;
        }
        if done != DONE {
            failed = name;
        }
    }
    status
}

/// The program of which a command writes a file into the folder `out`, and the path of that file,
/// which is its last word.
fn target<'l>(line: &'l [String], out: &str) -> (&'l str, &'l str) {
    let path = line.last().map_or("", |word| word.as_str());
    let file = path.strip_prefix(out).unwrap_or(path);
    (file.rsplit_once('.').map_or(file, |(name, _)| name), path)
}

/// Carries out a command that writes a file of a program, and prints its name and the path.
fn build_program(session: &Session<'_>, name: &str, path: &str, line: &[String]) -> u8 {
    match session.carry_out_for(name, line, false) {
        DONE => session.say(format_args!("{name}: {path}")),
        status => status,
    }
}

/// Writes the page that links to the reports in the folder `out`.
fn put_index(session: &Session<'_>, project: &Project, out: &str) -> Result<u8, Ending> {
    let alloc = session.rt.alloc();
    let mut rows = Vec::new(alloc);
    for program in &project.programs {
        let name = program.name.as_str();
        let page = format!(in alloc; "{out}{name}.html")?;
        if is_file(session.rt, page.as_str()) {
            rows.push(Row {
                name,
                source: program.source.as_str(),
                is_accepted: is_accepted(session, program)?,
            })?;
        }
    }
    let path = format!(in alloc; "{out}index.html")?;
    let page = index_page(alloc, rows.as_slice())?;
    match session.write_file(path.as_str(), page.as_slice()) {
        DONE => Ok(session.say(path.as_str())),
        status => Ok(status),
    }
}

/// Whether the source text of a program is accepted under its profile.
fn is_accepted(session: &Session<'_>, program: &Program) -> Result<bool, Ending> {
    let alloc = session.rt.alloc();
    let profile = match (program.is_steady, program.is_strict) {
        (true, _) => "--steady",
        (false, true) => "--strict",
        (false, false) => "--",
    };
    let mut words = Vec::new(alloc);
    for word in [
        "check",
        profile,
        program.lattice.as_str(),
        program.source.as_str(),
    ] {
        words.push(String::from_str(alloc, word)?)?;
    }
    match session.judge(words.as_slice()) {
        OUT_OF_MEMORY => Err(Ending::Memory),
        status => Ok(status == DONE),
    }
}

/// Makes a folder with this name and the files of a new project in it, and prints their paths.
pub(crate) fn make_project(session: &Session<'_>, name: &str) -> Result<u8, Ending> {
    let Some(files) = new_project(session.rt.alloc(), name)? else {
        let mistake = format_args!("error: a project can't have the name `{name}`: {NAME_RULE}");
        return Ok(session.complain(mistake, USAGE));
    };
    if let Err(error) = fs::create_dir(session.rt, name) {
        let reason = match error.kind() {
            ErrorKind::AlreadyExists => Some(IS_TAKEN),
            kind => reason_of(kind),
        };
        return Ok(session.file_fault(name, reason));
    }
    for (path, bytes) in &files {
        let mut status = session.write_file(path.as_str(), bytes);
        if status == DONE {
            status = session.say(path.as_str());
        }
        if status != DONE {
            return Ok(status);
        }
    }
    Ok(session.say(format_args!("\nNext:\n  cd {name}\n  vsi check\n  vsi build")))
}
