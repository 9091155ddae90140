//! The files of the system and their kinds: what is read is opened, what is replaced is beside.

use crate::replacing::{
    Claim, Filling, Making, create_beside, fill_whole, replace, sweep, sync_folder,
};
use crate::troubles::{NO_FILE, Objection, Trouble, reason_of};
use std::cell::Cell;
use std::fs::{File, Metadata};
use std::io::{ErrorKind, Read, Stdin};
use std::os::unix::fs::{FileTypeExt, MetadataExt};
use std::{env, fs, io};
use vsi::{Files, OutputKind, Writing};

/// The bytes that every image begins with; the version follows, which is below `FIRST_PRINTABLE`.
const IMAGE: &[u8] = b"VSI";

/// The first byte that a text begins with, besides blanks: no version of an image is as high.
const FIRST_PRINTABLE: u8 = 0x20;

/// How many bytes are read at a time.
const CHUNK: usize = 4096;

/// From how many chunks on a file is too long for a store.
const MOST_CHUNKS: usize = 257;

/// A part of a line of a store.
#[derive(Clone, Copy, PartialEq, Eq)]
enum Part {
    /// Nothing yet, or blanks.
    Start,
    Comment,
    Key,
    /// The blanks after `=`.
    Equals,
    Number,
    /// The blanks after a number.
    End,
}

/// Whether a byte may be in a key.
fn is_key(byte: u8) -> bool {
    byte.is_ascii_alphanumeric() || matches!(byte, b'_' | b'-' | b'.' | b'"' | b'\'')
}

/// Whether a byte is blank within a line.
fn is_blank(byte: u8) -> bool {
    matches!(byte, b' ' | b'\t' | b'\r')
}

/// The part after one byte more, or nothing if no store goes on so. A number may have any base of
/// TOML.
fn after(part: Part, byte: u8) -> Option<Part> {
    match (part, byte) {
        (Part::Start | Part::Comment | Part::Number | Part::End, b'\n') => Some(Part::Start),
        (Part::Start | Part::Number | Part::End, b'#') | (Part::Comment, _) => Some(Part::Comment),
        (Part::Start, _) if is_blank(byte) => Some(Part::Start),
        (Part::Start, _) if is_key(byte) => Some(Part::Key),
        (Part::Key, b'=') => Some(Part::Equals),
        (Part::Key, _) if is_key(byte) || is_blank(byte) => Some(Part::Key),
        (Part::Equals, _) if is_blank(byte) => Some(Part::Equals),
        (Part::Equals, b'0'..=b'9' | b'+' | b'-') => Some(Part::Number),
        (Part::Number, _) if byte.is_ascii_alphanumeric() || byte == b'_' => Some(Part::Number),
        (Part::Number | Part::End, _) if is_blank(byte) => Some(Part::End),
        _ => None,
    }
}

/// Whether each line of a file is blank, a comment, or a key with a number.
fn is_store(mut file: File) -> bool {
    let mut part = Part::Start;
    let mut chunk = [0; CHUNK];
    for _read in 0..MOST_CHUNKS {
        let Ok(count) = file.read(&mut chunk) else {
            return false;
        };
        if count == 0 {
            return !matches!(part, Part::Key | Part::Equals);
        }
        for byte in &chunk[..count] {
            match after(part, *byte) {
                Some(reached) => part = reached,
                None => return false,
            }
        }
    }
    false
}

/// Whether a file is of the kind that is written; for a source text any file is.
fn is_of_kind(mut file: File, kind: OutputKind) -> bool {
    match kind {
        OutputKind::Image => {
            let mut bytes = [0; 4];
            file.read_exact(&mut bytes).is_ok()
                && bytes.starts_with(IMAGE)
                && bytes[3] < FIRST_PRINTABLE
        }
        OutputKind::Store | OutputKind::State => is_store(file),
        OutputKind::Source => true,
        OutputKind::Text => false,
    }
}

/// From how many bytes on a lattice file, a store file or an interface is too long.
const LIMIT: u64 = 1_048_577;

/// The path of the file that is standard input, if it is one.
const INPUT: &str = "/proc/self/fd/0";

/// The path that means standard input where a file is read.
const DASH: &str = "-";

/// Why a file that the request reads isn't replaced.
const IS_READ: &str = "this request reads the file, so it doesn't write over it.";

/// The mode of a store file where there was none: a store may hold secrets, so its owner alone may
/// read it.
const OWNER_ALONE: u32 = 0o600;

/// The mode of any other file where there was none, from which the system takes what its user
/// doesn't give to others.
const OPEN_TO_ALL: u32 = 0o666;

/// How many of the files that a request reads are known by their identities: more than it names.
const MOST_READ: usize = 8;

/// A file's device and its number there, by which it is known under each of its names.
#[derive(Clone, Copy, PartialEq, Eq, Drop)]
struct Identity {
    device: u64,
    number: u64,
}

/// A file of the system, or standard input.
#[derive(Drop)]
pub(crate) enum DiskFile {
    File(File),
    Input(Stdin),
}

impl Read for DiskFile {
    fn read(&mut self, buf: &mut [u8]) -> io::Result<usize> {
        match self {
            DiskFile::File(file) => file.read(buf),
            DiskFile::Input(input) => input.read(buf),
        }
    }
}

/// The files of the system.
#[derive(Drop)]
pub(crate) struct Disk<'a> {
    rt: &'a HostRuntime,
    /// The files that this request has opened to read, the first ones if there are more.
    read: Cell<[Option<Identity>; MOST_READ]>,
    /// The kind of the file that this request writes.
    kind: OutputKind,
    /// The file that this request reads and may replace, if it is there.
    replaced: Option<Identity>,
    /// The file whose store this request keeps, if it keeps one.
    claim: Claim,
    /// Whether the request replaces a file of another kind.
    is_forced: bool,
    /// Whether the request has filled its file, which is its own from then on.
    has_filled: bool,
    /// Whether a file wasn't written because this request has read it.
    is_spared: bool,
    /// Why a file wasn't written that is of another kind, or that others may read.
    objection: Option<Objection>,
    /// Why the last file that wasn't read or written wasn't, if the system said it.
    fault: Cell<Option<&'static str>>,
    /// Whether the request serves an editor, which waits for no file.
    is_server: bool,
    /// Whether the request itself reads standard input, so that `-` is the name of a file.
    reads_input: bool,
    /// Whether the request has read standard input as a file.
    has_read_input: Cell<bool>,
}

impl<'a> Disk<'a> {
    /// The files of the system, of which none has been read.
    pub(crate) fn new(rt: &'a HostRuntime, is_server: bool) -> Disk<'a> {
        Disk {
            rt,
            read: Cell::new([None; MOST_READ]),
            kind: OutputKind::Image,
            replaced: None,
            claim: Claim::Free,
            is_forced: false,
            has_filled: false,
            is_spared: false,
            objection: None,
            fault: Cell::new(None),
            is_server,
            reads_input: is_server,
            has_read_input: Cell::new(false),
        }
    }

    /// Whether the path means standard input.
    fn is_input(&self, path: &str) -> bool {
        path == DASH && !self.reads_input
    }

    /// The path at which the system has the file.
    fn place<'p>(&self, path: &'p str) -> &'p str {
        if self.is_input(path) { INPUT } else { path }
    }

    /// Standard input as a file.
    fn open_input(&self) -> DiskFile {
        if let Some(identity) = self.identity_at(INPUT) {
            self.note(identity);
        }
        self.has_read_input.set(true);
        DiskFile::Input(self.rt.stdin())
    }

    /// Notes a file that was opened to read.
    fn note(&self, identity: Identity) {
        let mut read = self.read.get();
        for place in &mut read {
            if place.is_none() {
                *place = Some(identity);
                break;
            }
        }
        self.read.set(read);
    }

    /// The identity of the file at the path, whatever its name, if there is one.
    fn identity_at(&self, path: &str) -> Option<Identity> {
        let found = fs::metadata(self.rt, path).ok()?;
        Some(identity_of(&found))
    }

    /// Whether the file at the path is left as it is: because another drive keeps it, because this
    /// request has read it, under whatever name, and may not replace it, or because it is of
    /// another kind. A file that the request has filled itself is only the first.
    fn spares(&mut self, path: &str) -> bool {
        if matches!(self.claim, Claim::Taken) {
            self.objection = Some(Objection::Kept);
            return true;
        }
        if self.is_input(path) && self.has_read_input.get() {
            self.is_spared = true;
            return true;
        }
        let found = self.identity_at(path);
        if self.has_filled || found.is_none() || found == self.replaced {
            return false;
        }
        if self.read.get().contains(&found) {
            self.is_spared = true;
            return true;
        }
        !self.is_forced && self.keeps(path)
    }

    /// Whether the file at the path has bytes and isn't known to be of the kind that is written, or
    /// is another store than the one with which a drive began. If it is known to be so, there is an
    /// objection.
    fn keeps(&mut self, path: &str) -> bool {
        // A link to a file is one only for an image: no other file is written through a link.
        let found = match self.kind {
            OutputKind::Image => fs::metadata(self.rt, path),
            _ => fs::symlink_metadata(self.rt, path),
        };
        if !found.is_ok_and(|found| found.is_file() && found.len() > 0) {
            return false;
        }
        let Ok(file) = File::open(self.rt, path) else {
            return true;
        };
        let is_alike = is_of_kind(file, self.kind);
        if is_alike && self.kind != OutputKind::State {
            return false;
        }
        self.objection = Some(match self.kind {
            OutputKind::Image => Objection::NoImage,
            OutputKind::Text => Objection::NotEmpty,
            OutputKind::State if is_alike => Objection::OtherStore,
            _ => Objection::NoStore,
        });
        true
    }

    /// The mode of a file where there was none.
    fn mode(&self) -> u32 {
        match self.kind {
            OutputKind::Text => OPEN_TO_ALL,
            _ => OWNER_ALONE,
        }
    }

    /// Whether the stream of this number, by its link under /proc, is a terminal.
    fn is_terminal(&self, link: &str) -> bool {
        match fs::read_link(self.rt, link) {
            Ok(device) => device.starts_with("/dev/pts") || device.starts_with("/dev/tty"),
            Err(_) => false,
        }
    }

    /// Notes why a file wasn't written, and returns whether it was.
    fn noted(&mut self, done: Result<(), Trouble>) -> Option<()> {
        match done {
            Ok(()) => return Some(()),
            Err(Trouble::Objection(objection)) => self.objection = Some(objection),
            Err(Trouble::Fault(reason)) => self.fault.set(reason),
        }
        None
    }

    /// Puts a new file with these bytes in the place of the one at the path, and keeps it. Before
    /// the first time it is known that the folder can be synced, and leftovers are removed.
    fn replace_whole(&mut self, path: &str, fresh: &str, bytes: &[u8]) -> Result<(), Trouble> {
        let is_store = matches!(self.kind, OutputKind::Store | OutputKind::State);
        let making = Making {
            fresh,
            mode: self.mode(),
            bytes: if is_store { None } else { Some(bytes) },
        };
        let filling = Filling {
            bytes,
            is_private: is_store && !self.is_forced,
            claim: &self.claim,
        };
        if !self.has_filled {
            sync_folder(self.rt, path)?;
            if is_store {
                sweep(self.rt, making);
            }
        }
        let made = create_beside(self.rt, making)?;
        let file = replace(self.rt, path, fresh, made, filling)?;
        self.claim.hold(&file);
        self.has_filled = true;
        Ok(())
    }
}

/// Whether this is a pipe or a socket.
fn is_pipe(found: &Metadata) -> bool {
    let kind = found.file_type();
    kind.is_fifo() || kind.is_socket()
}

/// Whether the path is that of a file right in this folder.
fn is_within(path: &str, folder: &str) -> bool {
    path.strip_prefix(folder)
        .is_some_and(|name| !name.contains('/'))
}

/// Whether the path is that of a stream which the system gives to the program.
fn is_stream(path: &str) -> bool {
    path == "/dev/stdin" || is_within(path, "/dev/fd/") || is_within(path, "/proc/self/fd/")
}

/// The identity of the file that was found.
fn identity_of(found: &Metadata) -> Identity {
    let (device, number) = (found.dev(), found.ino());
    Identity { device, number }
}

impl Files for Disk<'_> {
    type Input = DiskFile;

    fn open_file(&self, path: &str) -> Option<DiskFile> {
        if self.is_input(path) {
            return Some(self.open_input());
        }
        // Pipes and devices are barred, except the streams that the system gives to the program and
        // devices that the path names. The server has only files.
        let is_barred = match fs::metadata(self.rt, path) {
            Ok(found) if found.is_file() || found.is_dir() => false,
            Ok(_) if self.is_server => true,
            Ok(found) if is_pipe(&found) => !is_stream(path),
            Ok(_) => !is_stream(path) && !is_within(path, "/dev/"),
            Err(_) => false,
        };
        if is_barred {
            self.fault.set(Some(NO_FILE));
            return None;
        }
        let file = File::open(self.rt, path).ok()?;
        let found = file.metadata().ok()?;
        self.note(identity_of(&found));
        Some(DiskFile::File(file))
    }

    fn fill_file(&mut self, path: &str, bytes: &[u8]) -> Option<()> {
        if self.spares(path) {
            return None;
        }
        let claim = Claim::Free;
        let filling = Filling {
            bytes,
            is_private: false,
            claim: &claim,
        };
        let done = fill_whole(self.rt, path, OPEN_TO_ALL, filling);
        self.noted(done)
    }

    fn replace_file(&mut self, path: &str, fresh: &str, bytes: &[u8]) -> Option<()> {
        if self.spares(path) {
            return None;
        }
        let done = self.replace_whole(path, fresh, bytes);
        self.noted(done)
    }

    fn claim(&mut self, path: &str) {
        self.claim = Claim::of(self.rt, path);
    }

    fn expect(&mut self, writing: Writing<'_>) {
        self.kind = writing.kind;
        self.is_forced = writing.is_forced;
        self.replaced = match writing.replaced {
            Some(path) => self.identity_at(path),
            None => None,
        };
        self.reads_input = self.is_server || writing.reads_input;
        if writing.reads_input
            && let Some(identity) = self.identity_at(INPUT)
        {
            self.note(identity);
        }
    }

    fn objection(&self) -> Option<&'static str> {
        Some(self.objection?.sentence())
    }

    fn may_wait(&self, path: &str) -> bool {
        fs::metadata(self.rt, self.place(path)).is_ok_and(|found| !found.is_file())
    }

    fn lacks(&self, path: &str) -> bool {
        !self.is_input(path)
            && fs::symlink_metadata(self.rt, path).is_err_and(|error| error.kind()
                == ErrorKind::NotFound)
    }

    fn trouble(&self, path: &str) -> Option<&'static str> {
        if let Some(objection) = self.objection {
            return Some(objection.sentence());
        }
        match fs::metadata(self.rt, self.place(path)) {
            Ok(found) if found.is_dir() => Some("this is a folder."),
            Ok(_) if self.is_spared => Some(IS_READ),
            _ if self.fault.get().is_some() => self.fault.get(),
            Ok(found) if is_pipe(&found) => Some(NO_FILE),
            Ok(found) if found.len() >= LIMIT => {
                Some("the file has more than 1048576 bytes, or may not be read or written.")
            }
            Ok(_) => Some("the file may not be read or written."),
            Err(error) => match error.kind() {
                ErrorKind::NotFound => Some("there is no file at this path."),
                ErrorKind::PermissionDenied => Some("a folder on this path may not be entered."),
                kind => reason_of(kind).or(Some("this path doesn't lead to a file.")),
            },
        }
    }

    fn wants_colour(&self) -> bool {
        let is_refused = env::var(self.rt, "NO_COLOR").is_ok_and(|value| !value.is_empty());
        !is_refused && self.is_terminal("/proc/self/fd/2")
    }
}
