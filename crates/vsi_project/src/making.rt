//! The commands that build, print or report the programs of a project.

use crate::reader::{Program, Project, byte_in_c};
use std::alloc::{AllocError, Global};
use vsi_conform::path_beside;

/// The words of a command.
type Words = Vec<String>;

/// Adds a word.
fn put(line: &mut Words, word: &str) -> Result<(), AllocError> {
    let word = String::from_str(*line.allocator(), word)?;
    line.push(word)?;
    Ok(())
}

/// The name of a program in C.
fn c_name(alloc: Global, name: &str) -> Result<String, AllocError> {
    let mut bytes = Vec::from_slice(alloc, name.as_bytes())?;
    for byte in &mut bytes {
        *byte = byte_in_c(*byte);
    }
    String::from_utf8_lossy(alloc, &bytes)
}

/// The commands of a subcommand.
#[derive(Clone, Copy)]
struct Making<'m> {
    alloc: Global,
    /// The path of the folder of the project file, with a slash at its end, or nothing.
    folder: &'m str,
    subcommand: &'m str,
    /// The name of the requested program, or none for all.
    name: Option<&'m str>,
    /// The options that were given.
    options: &'m [String],
}

impl Making<'_> {
    /// Adds an option if it is wanted and wasn't given.
    fn put_option(
        &self,
        line: &mut Words,
        option: &str,
        is_wanted: bool,
    ) -> Result<(), AllocError> {
        if !is_wanted || self.options.iter().any(|given| given.as_str() == option) {
            return Ok(());
        }
        put(line, option)
    }

    /// The options of a command: those that were given, and those that the program requires.
    fn options(&self, program: &Program, ending: &str) -> Result<Words, AllocError> {
        let mut line = Vec::new(self.alloc);
        for option in self.options {
            put(&mut line, option.as_str())?;
        }
        let is_c = self.subcommand == "emit-c";
        self.put_option(&mut line, "--force", true)?;
        self.put_option(&mut line, "--strict", !is_c && program.is_strict)?;
        self.put_option(&mut line, "--bounded", is_c && program.is_bounded)?;
        self.put_option(&mut line, "--header", ending == ".h")?;
        if is_c {
            let name = c_name(self.alloc, program.name.as_str())?;
            put(&mut line, "--name")?;
            put(&mut line, name.as_str())?;
            put(&mut line, "--lattice")?;
        }
        Ok(line)
    }

    /// Adds the path of the file that a command writes.
    fn put_output(&self, line: &mut Words, path: &str) -> Result<(), AllocError> {
        if self.subcommand == "build" {
            return put(line, path);
        }
        put(line, "--out")?;
        put(line, path)
    }

    /// The command that writes the file with this ending for a program.
    fn command(&self, program: &Program, ending: &str) -> Result<Words, AllocError> {
        let mut path = String::from_str(self.alloc, "out/")?;
        path.push_str(program.name.as_str())?;
        path.push_str(ending)?;
        let output = path_beside(self.alloc, self.folder, path.as_bytes())?;
        let mut options = self.options(program, ending)?;
        let mut line = Vec::new(self.alloc);
        put(&mut line, self.subcommand)?;
        line.append(&mut options)?;
        put(&mut line, program.lattice.as_str())?;
        put(&mut line, program.source.as_str())?;
        self.put_output(&mut line, output.as_str())?;
        Ok(line)
    }

    /// Adds the command that writes the file with this ending for a program.
    fn put_command(
        &self,
        lines: &mut Vec<Words>,
        program: &Program,
        ending: &str,
    ) -> Result<(), AllocError> {
        let line = self.command(program, ending)?;
        lines.push(line)?;
        Ok(())
    }

    /// Whether a program is requested.
    fn is_asked(&self, program: &Program) -> bool {
        match self.name {
            Some(name) => program.name.as_str() == name,
            None => true,
        }
    }

    /// Adds the commands for a program, if it is requested.
    fn put_program(&self, lines: &mut Vec<Words>, program: &Program) -> Result<(), AllocError> {
        if !self.is_asked(program) {
            return Ok(());
        }
        match self.subcommand {
            "build" => self.put_command(lines, program, ".image"),
            "report" => self.put_command(lines, program, ".html"),
            "emit-c" => {
                self.put_command(lines, program, ".c")?;
                self.put_command(lines, program, ".h")
            }
            _ => Ok(()),
        }
    }
}

/// The commands of `build`, `emit-c` or `report` for the program of this name or for all, with
/// these options: one for each program in the order of the project, and for `emit-c` a second one
/// for the header. They write into the folder `out` beside the project file, whose folder has this
/// path, with a slash at its end, or nothing.
pub fn commands(
    alloc: Global,
    project: &Project,
    folder: &str,
    subcommand: &str,
    name: Option<&str>,
    options: &[String],
) -> Result<Vec<Vec<String>>, AllocError> {
    let making = Making {
        alloc,
        folder,
        subcommand,
        name,
        options,
    };
    let mut lines = Vec::new(alloc);
    for program in &project.programs {
        making.put_program(&mut lines, program)?;
    }
    Ok(lines)
}
