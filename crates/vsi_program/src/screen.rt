//! Standard output and standard error, which don't control a terminal.

ghost use Rattle.std.specs.Io.{WritesAtMost};

use std::cell::Cell;
use std::io;
use std::io::{ErrorKind, IsTerminal, Write};

/// The room for the bytes of one call.
const ROOM: usize = 1024;

/// The most bytes that are written for one step.
const STEP: usize = 8;

/// The first byte of the control characters beyond ASCII.
const LEAD: u8 = 0xC2;

/// The digits of a hexadecimal number.
const DIGITS: &[u8; 16] = b"0123456789ABCDEF";

/// The beginnings of a refusal and of a file fault.
const REFUSED: [&[u8]; 2] = [b"refused", b"file fault"];

/// The bytes that one call writes.
#[derive(Drop)]
struct Piece {
    bytes: [u8; ROOM],
    length: usize,
}

impl Piece {
    /// Adds a byte, if there is room.
    fn put(&mut self, byte: u8) {
        if self.length < ROOM {
            self.bytes[self.length] = byte;
            self.length += 1;
        }
    }

    /// Adds bytes, as far as there is room.
    fn put_all(&mut self, bytes: &[u8]) {
        for byte in bytes {
            self.put(*byte);
        }
    }

    /// Adds `\x` and the two digits of a byte.
    fn put_code(&mut self, byte: u8) {
        self.put_all(b"\\x");
        self.put(DIGITS[byte as usize / 16 % 16]);
        self.put(DIGITS[byte as usize % 16]);
    }
}

/// A stream. If it is a terminal, it gets printable ASCII, tabs, line feeds, characters beyond
/// ASCII that are no control characters, and the sequences that turn a colour on or all off; of any
/// other byte it gets `\x` and two digits. Otherwise it gets the bytes as they are. Once standard
/// output is a pipe that nobody reads, nothing is written to standard error.
#[derive(Drop)]
pub(crate) struct Screen<'a, W> {
    inner: W,
    is_terminal: bool,
    /// Whether this is standard error.
    is_error: bool,
    /// Whether standard output is a pipe that nobody reads.
    is_unread: &'a Cell<bool>,
    /// Whether a refusal or a file fault was written to standard error.
    is_refused: &'a Cell<bool>,
    /// How many bytes of the last character are still to come.
    left: u8,
    /// Whether the last byte begins a character that may be a control character.
    is_doubtful: bool,
}

impl<'a, W: IsTerminal> Screen<'a, W> {
    /// The stream, which is standard error or else standard output.
    pub(crate) fn new(
        inner: W,
        is_error: bool,
        is_unread: &'a Cell<bool>,
        is_refused: &'a Cell<bool>,
    ) -> Screen<'a, W> {
        let is_terminal = inner.is_terminal();
        Screen {
            inner,
            is_terminal,
            is_error,
            is_unread,
            is_refused,
            left: 0,
            is_doubtful: false,
        }
    }
}

impl<W> Screen<'_, W> {
    /// Whether the next byte is shown as it is.
    fn shows(&mut self, byte: u8) -> bool {
        let was_doubtful = self.is_doubtful;
        self.is_doubtful = byte == LEAD;
        if byte >= 0x80 && byte < 0xC0 && self.left > 0 {
            self.left -= 1;
            return !(was_doubtful && byte < 0xA0);
        }
        // How many bytes of a character beyond ASCII follow its first one.
        self.left = match byte {
            0xC2..=0xDF => 1,
            0xE0..=0xEF => 2,
            0xF0..=0xF4 => 3,
            _ => 0,
        };
        self.left > 0 || byte == b'\n' || byte == b'\t' || (byte >= b' ' && byte <= b'~')
    }

    /// Adds what is written for the first character or sequence, and returns the bytes after it.
    fn step<'b>(&mut self, bytes: &'b [u8], piece: &mut Piece) -> &'b [u8] {
        match bytes {
            [27, b'[', b'1', b';', b'3', b'1', b'm', after @ ..] => {
                piece.put_all(b"\x1b[1;31m");
                after
            }
            [27, b'[', style @ b'0'..=b'2', b'm', after @ ..] => {
                piece.put_all(&[27, b'[', *style, b'm']);
                after
            }
            // A control character beyond ASCII.
            [LEAD, second, after @ ..] if *second >= 0x80 && *second < 0xA0 => {
                piece.put_code(LEAD);
                piece.put_code(*second);
                after
            }
            [byte, after @ ..] => {
                if self.shows(*byte) {
                    piece.put(*byte);
                } else {
                    piece.put_code(*byte);
                }
                after
            }
            [] => bytes,
        }
    }
}

impl<W: Write> Screen<'_, W> {
    /// Writes bytes, or in place of those that control a terminal their codes.
    fn put(&mut self, buf: &[u8]) -> io::Result<usize>
        ensures { WritesAtMost result buf.now }
    {
        if !self.is_terminal {
            return self.inner.write(buf);
        }
        let bytes = [0; ROOM];
        let mut piece = Piece { bytes, length: 0 };
        let mut rest = buf;
        for _step in 0..buf.len() {
            // There may be no room for another step.
            if piece.length >= ROOM - STEP {
                break;
            }
            rest = self.step(rest, &mut piece);
        }
        self.inner
            .write_all(&piece.bytes[..piece.length.min(ROOM)])?;
        Ok(buf.len().saturating_sub(rest.len()))
    }
}

impl<W: Write> Write for Screen<'_, W> {
    fn write(&mut self, buf: &[u8]) -> io::Result<usize> {
        if self.is_error && self.is_unread.get() {
            return Ok(buf.len());
        }
        if self.is_error && REFUSED.iter().any(|begin| buf.starts_with(begin)) {
            self.is_refused.set(true);
        }
        match self.put(buf) {
            Ok(count) => Ok(count),
            Err(error) => {
                if !self.is_error && error.kind() == ErrorKind::BrokenPipe {
                    self.is_unread.set(true);
                }
                Err(error)
            }
        }
    }

    fn flush(&mut self) -> io::Result<()> {
        self.inner.flush()
    }
}

/// The beginnings of messages that begin with no name: they name their file, or are about none.
const NAMED: [&[u8]; 3] = [b"file fault: ", b"error: ", b"out of memory"];

/// A stream whose lines begin with a name, or only the first one.
#[derive(Drop)]
pub(crate) struct Headed<'a, W> {
    inner: W,
    name: &'a str,
    is_first_only: bool,
    /// Whether the next byte begins a line with the name.
    is_due: bool,
}

impl<'a, W> Headed<'a, W> {
    /// The stream, to which nothing has been written.
    pub(crate) fn new(inner: W, name: &'a str, is_first_only: bool) -> Headed<'a, W> {
        Headed {
            inner,
            name,
            is_first_only,
            is_due: true,
        }
    }
}

/// The length of the first line of bytes, with its line feed if it has one.
fn line_length(bytes: &[u8]) -> usize {
    let is_end = |byte: &u8| *byte == b'\n';
    bytes
        .iter()
        .position(is_end)
        .map_or(bytes.len(), |at| at + 1)
}

impl<W: Write> Write for Headed<'_, W> {
    fn write(&mut self, buf: &[u8]) -> io::Result<usize> {
        let is_named = self.is_first_only && NAMED.iter().any(|named| buf.starts_with(named));
        if self.is_due && !buf.is_empty() && !is_named {
            let gap = if self.is_first_only { ": " } else { ":" };
            self.inner.write_all(self.name.as_bytes())?;
            self.inner.write_all(gap.as_bytes())?;
        }
        let wanted = if self.is_first_only {
            buf.len()
        } else {
            line_length(buf)
        };
        let line = wanted.min(buf.len());
        self.is_due = false;
        self.inner.write_all(&buf[..line])?;
        self.is_due = !self.is_first_only && buf[..line].ends_with(b"\n");
        Ok(line)
    }

    fn flush(&mut self) -> io::Result<()> {
        self.inner.flush()
    }
}

/// A stream of messages, whose lines are coloured if that is requested.
#[derive(Drop)]
pub(crate) struct Coloured<W> {
    pub(crate) inner: W,
    pub(crate) is_coloured: bool,
}

/// Whether a line is a place, as `PATH:LINE:COLUMN`.
fn is_place(line: &str) -> bool {
    let mut parts = line.rsplitn(3, ':');
    let mut is_number = || parts.next().is_some_and(|part| part.parse::<u64>().is_ok());
    is_number() && is_number()
}

/// Writes a line with colours: of a verdict, of a refused flow, of a place, or else of quoted
/// names. An indented line, which may show a source text, and one with a single quote have none.
fn put_coloured<W: Write>(line: &str, inner: &mut W) -> io::Result<()> {
    if let Some(rest) = line.strip_prefix("refused:") {
        return write!(inner, "\x1b[1;31mrefused\x1b[0m:{rest}");
    }
    if line.contains(" may not flow to ") {
        return write!(inner, "\x1b[1m{line}\x1b[0m");
    }
    if is_place(line) {
        return write!(inner, "\x1b[2m{line}\x1b[0m");
    }
    if line.starts_with(' ') || line.matches('`').count() % 2 == 1 {
        return inner.write_all(line.as_bytes());
    }
    for (at, part) in line.split('`').enumerate() {
        match at % 2 {
            0 => inner.write_all(part.as_bytes())?,
            _ => write!(inner, "`\x1b[1m{part}\x1b[0m`")?,
        }
    }
    Ok(())
}

impl<W: Write> Write for Coloured<W> {
    fn write(&mut self, buf: &[u8]) -> io::Result<usize> {
        let end = buf.iter().position(|byte| *byte == b'\n');
        let line = &buf[..end.map_or(buf.len(), |at| at.max(1))];
        match str::from_utf8(line) {
            Ok(text) if self.is_coloured => put_coloured(text, &mut self.inner)?,
            _ => self.inner.write_all(line)?,
        }
        Ok(line.len())
    }

    fn flush(&mut self) -> io::Result<()> {
        self.inner.flush()
    }
}
