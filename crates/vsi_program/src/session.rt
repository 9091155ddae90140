//! The requests of one call of the program, which share its standard streams.

use crate::disk::Disk;
use crate::screen::{Coloured, Headed, Screen};
use std::alloc::{AllocError, AllocFailed};
use std::cell::Cell;
use std::fmt::Display;
use std::io::{IsTerminal, Stderr, Stdout, Write, sink};
use vsi::{Counted, Files, OutputKind, Writing, command, load};
use vsi_arguments::{Colour, Reporting};

/// The status of a request that was carried out.
pub(crate) const DONE: u8 = 0;

/// The status of a refusal.
pub(crate) const REFUSED: u8 = 1;

/// The status of mistaken arguments.
pub(crate) const USAGE: u8 = 2;

/// The status of a fault of a file or a stream.
pub(crate) const FILE_FAULT: u8 = 4;

/// The status of lack of memory.
pub(crate) const OUT_OF_MEMORY: u8 = 5;

/// The message for lack of memory.
const MEMORY: &str = "out of memory";

/// The option that explains a refusal.
const EXPLAIN: &str = "--explain";

/// The subcommands without it.
const UNEXPLAINED: [&str; 4] = ["new", "lattice", "lsp", "explain"];

/// How to get an explanation.
const MORE: &str = "More: the same with --explain";

/// The mistake of two operands in the wrong order.
const SWAPPED: &str = "The lattice file comes first, and the source text after it.";

/// Why a call ends before all is done.
#[derive(Clone, Copy)]
pub(crate) enum Ending {
    /// The message is written; this is the status.
    Told(u8),
    /// An allocation failed.
    Memory,
}

impl From<AllocError> for Ending {
    /// Lack of memory.
    fn from(_: AllocError) -> Ending {
        Ending::Memory
    }
}

impl<T: Drop> From<AllocFailed<T>> for Ending {
    /// Lack of memory.
    fn from(_: AllocFailed<T>) -> Ending {
        Ending::Memory
    }
}

/// A call of the program.
#[derive(Drop)]
pub(crate) struct Session<'a> {
    pub(crate) rt: &'a HostRuntime,
    /// Whether standard output is a pipe that nobody reads.
    is_unread: Cell<bool>,
    /// Whether a refusal or a file fault was written to standard error.
    is_refused: Cell<bool>,
}

impl<'a> Session<'a> {
    /// A call that has written nothing.
    pub(crate) fn new(rt: &'a HostRuntime) -> Session<'a> {
        Session {
            rt,
            is_unread: Cell::new(false),
            is_refused: Cell::new(false),
        }
    }

    /// Standard output.
    fn output(&self) -> Screen<'_, Stdout> {
        Screen::new(self.rt.stdout(), false, &self.is_unread, &self.is_refused)
    }

    /// Standard error.
    fn error(&self) -> Screen<'_, Stderr> {
        Screen::new(self.rt.stderr(), true, &self.is_unread, &self.is_refused)
    }

    /// Carries out one request, and returns the status.
    pub(crate) fn carry_out(&self, words: &[String]) -> u8 {
        self.carry_out_on(words, self.output(), self.error())
    }

    /// Carries out one request of several: each line of its output, unless it is JSON, and its
    /// message if that names no file, begin with this name.
    pub(crate) fn carry_out_for(&self, name: &str, words: &[String], is_json: bool) -> u8 {
        let error = Headed::new(self.error(), name, true);
        if is_json {
            return self.carry_out_on(words, self.output(), error);
        }
        let output = Headed::new(self.output(), name, false);
        self.carry_out_on(words, output, error)
    }

    /// Carries out one request of which only the status is wanted.
    pub(crate) fn judge(&self, words: &[String]) -> u8 {
        self.carry_out_on(words, sink(), sink())
    }

    /// Carries out one request with these streams.
    fn carry_out_on<W: Write + Drop, E: Write + Drop>(
        &self,
        words: &[String],
        output: W,
        error: E,
    ) -> u8 {
        let is_server = words.first().is_some_and(|word| word.as_str() == "lsp");
        let disk = Disk::new(self.rt, is_server);
        let mut error = error;
        let Ok(mut files) = load(self.rt.alloc(), words, disk) else {
            let _ = writeln!(error, "{MEMORY}");
            return OUT_OF_MEMORY;
        };
        let is_coloured = match files.manner().map(|manner| manner.reporting) {
            Some(Reporting::Explained(Colour::Always)) => true,
            Some(Reporting::Explained(Colour::Auto)) => files.wants_colour(),
            _ => false,
        };
        let mut input = Counted::new(self.rt.stdin());
        let mut output = Counted::new(output);
        let mut error = Counted::new(Coloured {
            inner: error,
            is_coloured,
        });
        command(
            self.rt.alloc(),
            words,
            &mut files,
            &mut input,
            &mut output,
            &mut error,
        )
    }

    /// Says at a terminal how to get an explanation of a refusal or a file fault that has none, or
    /// that two operands are in the wrong order.
    pub(crate) fn advise(&self, words: &[String]) {
        let is_explained = words.iter().any(|word| word.as_str() == EXPLAIN);
        if is_explained || !self.is_refused.get() || !self.rt.stderr().is_terminal() {
            return;
        }
        let operands = words.iter().filter(|word| !word.starts_with('-')).count();
        let hint = match words {
            [_, first, second, ..] if first.ends_with(".vsi") && second.ends_with(".toml") =>
                SWAPPED,
            [name, ..] if UNEXPLAINED.contains(&name.as_str()) => return,
            // Several texts, and the programs of a project, have no explanation.
            [name, ..] if name.as_str() == "check" && operands != 3 => return,
            _ => MORE,
        };
        let _ = self.complain(hint, REFUSED);
    }

    /// Whether nothing is carried out after a request with this status: the same mistake or lack of
    /// memory would come again, or nobody reads the output.
    pub(crate) fn ends_after(&self, status: u8) -> bool {
        status == USAGE || status == OUT_OF_MEMORY || self.is_unread.get()
    }

    /// Fills the file at the path as a whole, and returns the status.
    pub(crate) fn write_file(&self, path: &str, bytes: &[u8]) -> u8 {
        let mut disk = Disk::new(self.rt, false);
        disk.expect(Writing {
            kind: OutputKind::Source,
            replaced: None,
            reads_input: false,
            is_forced: true,
        });
        match disk.fill_file(path, bytes) {
            Some(()) => DONE,
            None => self.file_fault(path, disk.trouble(path)),
        }
    }

    /// Writes a line to standard output, and returns the status.
    pub(crate) fn say<M: Display + Drop>(&self, message: M) -> u8 {
        match writeln!(self.output(), "{message}") {
            Ok(()) => DONE,
            Err(_) => self.complain("file fault: -", FILE_FAULT),
        }
    }

    /// Writes a message to standard error, and returns the status.
    pub(crate) fn complain<M: Display + Drop>(&self, message: M, status: u8) -> u8 {
        let _ = writeln!(self.error(), "{message}");
        status
    }

    /// Writes the message for a fault of a file, and why if that is known, and returns the status.
    pub(crate) fn file_fault(&self, path: &str, reason: Option<&str>) -> u8 {
        match reason {
            Some(reason) => self.complain(
                format_args!("file fault: {path}\n{path}: {reason}"),
                FILE_FAULT,
            ),
            None => self.complain(format_args!("file fault: {path}"), FILE_FAULT),
        }
    }

    /// Writes the message for lack of memory, and returns the status.
    pub(crate) fn lack_memory(&self) -> u8 {
        self.complain(MEMORY, OUT_OF_MEMORY)
    }
}
