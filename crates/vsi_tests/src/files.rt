//! Files in memory, and runs of `command` over them and over devices that fail.

ghost use Rattle.std.specs.Prelude.{◌≡◌, [], Some};

use std::alloc::{AllocError, Global};
use std::io;
use std::io::{ErrorKind, Read, Write};
use vsi::{Counted, Files, command};

/// A text of 21 bytes.
pub(crate) const SUM: &[u8] = b"var x : L; x := 1 + 2";

/// `L` below `H`.
pub(crate) const TWO: &[u8] = b"classes = [\"L\", \"H\"]\nbelow = [[\"L\", \"H\"]]\n";

/// The image of the sum, in 31 bytes.
pub(crate) const IMAGE: &[u8] = b"VSI\x02\x00\x01\x00\x01\x00\x01\x00\x00\x00\x03\x01x\x01L\
    \x01\x00\x00\x00\x00\x00\x00\x00\x03\x03\x00\x00\x0a";

/// Reads one byte per call, and fails at one call, counted from 1. With 0 it never fails.
#[derive(Drop)]
pub(crate) struct Drip<'a> {
    bytes: &'a [u8],
    pub(crate) calls: u64,
    fails_at: u64,
}

impl<'a> Drip<'a> {
    pub(crate) fn new(bytes: &'a [u8], fails_at: u64) -> Drip<'a>
        ensures { result.bytes.now ≡ bytes.now }
    {
        Drip {
            bytes,
            calls: 0,
            fails_at,
        }
    }
}

impl Read for Drip<'_> {
    ghost remaining = { λ d. Some d.bytes.now };

    fn read(&mut self, buf: &mut [u8]) -> io::Result<usize> {
        self.calls = self.calls.saturating_add(1);
        if self.calls == self.fails_at {
            return Err(io::Error::from(ErrorKind::Other));
        }
        let most = buf.len().min(1);
        self.bytes.read(&mut buf[..most])
    }
}

/// The behaviour of a writer at a call that fails.
#[derive(Clone, Copy)]
pub(crate) enum Failure {
    Refuses,
    TakesNothing,
}

/// Accepts one byte per call, and none any more once it has as many as its room.
#[derive(Drop)]
pub(crate) struct Scant {
    pub(crate) bytes: Vec<u8>,
    pub(crate) calls: u64,
    pub(crate) flushes: u64,
    room: usize,
    failure: Failure,
}

impl Scant {
    pub(crate) fn new(alloc: Global, room: usize, failure: Failure) -> Scant
        ensures { result.bytes.items ≡ [] }
    {
        Scant {
            bytes: Vec::new(alloc),
            calls: 0,
            flushes: 0,
            room,
            failure,
        }
    }
}

impl Write for Scant {
    ghost contents = { λ s. Some s.bytes.items };

    fn write(&mut self, buf: &[u8]) -> io::Result<usize> {
        self.calls = self.calls.saturating_add(1);
        if self.bytes.len() >= self.room {
            return match self.failure {
                Failure::Refuses => Err(io::Error::from(ErrorKind::StorageFull)),
                Failure::TakesNothing => Ok(0),
            };
        }
        match buf.first() {
            None => Ok(0),
            Some(byte) => {
                self.bytes.push(*byte)?;
                Ok(1)
            }
        }
    }

    fn flush(&mut self) -> io::Result<()> {
        self.flushes = self.flushes.saturating_add(1);
        Ok(())
    }
}

/// A text whose flow is refused.
pub(crate) const LEAK: &[u8] = b"var h : H; var l : L; l := h";

/// A text of 25 variables, each of which gets its word from the one before it.
const CHAIN: &[u8] =
    b"var a : L; var b : L; var c : L; var d : L; var e : L; var f : L; var g : L; \
    var h : L; var i : L; var j : L; var k : L; var l : L; var m : L; var n : L; \
    var o : L; var p : L; var q : L; var r : L; var s : L; var t : L; var u : L; \
    var v : L; var w : L; var x : L; var y : L; b := a; c := b; d := c; e := d; \
    f := e; g := f; h := g; i := h; j := i; k := j; l := k; m := l; n := m; o := n; \
    p := o; q := p; r := q; s := r; t := s; u := t; v := u; w := v; x := w; y := x";

/// The one file that can be written: nothing yet, or its path and the bytes that it took.
#[derive(Drop)]
pub(crate) enum WrittenFile {
    Blank,
    Filled(Vec<u8>, Vec<u8>),
}

/// The files that can be read, of which `torn` fails at its ninth byte, and the one that can be
/// written.
#[derive(Drop)]
pub(crate) struct Shelf {
    alloc: Global,
    room: usize,
    written: WrittenFile,
}

impl Shelf {
    ghost use Rattle.vsi_tests.specs.Shelf.{is_written};

    /// The files, with room for this many bytes in the one that can be written.
    pub(crate) fn new(alloc: Global, room: usize) -> Shelf {
        Shelf {
            alloc,
            room,
            written: WrittenFile::Blank,
        }
    }

    /// Whether the file at the path has been written.
    fn has_written(&self, path: &[u8]) -> bool
        ensures { result ≡ is_written self.now.written path.now }
    {
        match &self.written {
            WrittenFile::Filled(at, _) => at.as_slice() == path,
            _ => false,
        }
    }
}

impl Files for Shelf {
    ghost use Rattle.vsi_tests.specs.Shelf.{held};

    type Input = Drip<'static>;

    ghost holds = { λ shelf. held shelf.written };

    fn open_file(&self, path: &str) -> Option<Drip<'static>> {
        if self.has_written(path.as_bytes()) {
            return None;
        }
        match path {
            "two" => Some(Drip::new(TWO, 0)),
            "torn" => Some(Drip::new(TWO, 9)),
            "sum" => Some(Drip::new(SUM, 0)),
            "leak" => Some(Drip::new(LEAK, 0)),
            "image" => Some(Drip::new(IMAGE, 0)),
            "chain" => Some(Drip::new(CHAIN, 0)),
            _ => None,
        }
    }

    fn fill_file(&mut self, path: &str, bytes: &[u8]) -> Option<()> {
        let WrittenFile::Blank = self.written else {
            return None;
        };
        let at = Vec::from_slice(self.alloc, path.as_bytes()).ok()?;
        if self.room < bytes.len() {
            let taken = Vec::from_slice(self.alloc, &bytes[..self.room]).ok()?;
            self.written = WrittenFile::Filled(at, taken);
            return None;
        }
        let taken = Vec::from_slice(self.alloc, bytes).ok()?;
        self.written = WrittenFile::Filled(at, taken);
        Some(())
    }
}

/// The devices that receive output, the last one of which is a file.
#[derive(Clone, Copy, PartialEq, Eq)]
pub(crate) enum Device {
    Output,
    Error,
    Image,
}

/// More room than these tests write.
pub(crate) const AMPLE: usize = 1 << 20;

/// How a command line ended, and the bytes that each device took.
#[derive(Drop)]
pub(crate) struct Shown {
    pub(crate) status: u8,
    pub(crate) output: Vec<u8>,
    pub(crate) error: Vec<u8>,
    pub(crate) image: Vec<u8>,
}

impl Shown {
    /// The bytes that a device took.
    pub(crate) fn taken(&self, device: Device) -> &[u8] {
        match device {
            Device::Output => self.output.as_slice(),
            Device::Error => self.error.as_slice(),
            Device::Image => self.image.as_slice(),
        }
    }
}

/// The words of a line, each after a space.
pub(crate) fn words_of(alloc: Global, line: &str) -> Result<Vec<String>, AllocError> {
    let mut words = Vec::new(alloc);
    if !line.is_empty() {
        for word in line.split(' ') {
            words.push(word.to_string(alloc)?)?;
        }
    }
    Ok(words)
}

/// Calls `command` with these words, files and input, and this room for each output.
pub(crate) fn call<F: Files>(
    alloc: Global,
    words: &[String],
    files: &mut F,
    input: Drip<'_>,
    room: (usize, usize),
) -> Shown {
    let mut input = Counted::new(input);
    let mut output = Counted::new(Scant::new(alloc, room.0, Failure::Refuses));
    let mut error = Counted::new(Scant::new(alloc, room.1, Failure::Refuses));
    let status = command(alloc, words, files, &mut input, &mut output, &mut error);
    Shown {
        status,
        output: output.into_inner().bytes,
        error: error.into_inner().bytes,
        image: Vec::new(alloc),
    }
}

/// The room of a device if the one with this room fails.
fn room_of(device: Device, failing: Device, room: usize) -> usize {
    if device == failing { room } else { AMPLE }
}

/// The output for the words in a line if the input fails at this call, counted from 1, and one
/// device has this room.
pub(crate) fn show_over(
    alloc: Global,
    line: &str,
    fails_at: u64,
    device: Device,
    room: usize,
) -> Result<Shown, AllocError> {
    let words = words_of(alloc, line)?;
    let mut files = Shelf::new(alloc, room_of(Device::Image, device, room));
    let rooms = (
        room_of(Device::Output, device, room),
        room_of(Device::Error, device, room),
    );
    let input = Drip::new(SUM, fails_at);
    let mut shown = call(alloc, &words, &mut files, input, rooms);
    if let WrittenFile::Filled(_path, bytes) = files.written {
        shown.image = bytes;
    }
    Ok(shown)
}
