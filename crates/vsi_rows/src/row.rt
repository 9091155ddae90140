//! A row: the input of a call, and its answer, in a notation for texts.

use std::alloc::{AllocError, AllocFailed, Global};
use std::fmt::Debug;
use std::num::ParseIntError;
use std::str::from_utf8;
use vsi_answers::{Fault, fault_text};
use vsi_compiler::CompileError;
use vsi_image::{Image, VerifyError};
use vsi_lattice::{Class, Lattice, read_lattice};
use vsi_syntax::put_number;
use vsi_types::Profile;

/// The byte with two hexadecimal digits.
pub(crate) fn byte_of(digits: &[u8]) -> Result<u8, Wrong> {
    match from_utf8(digits) {
        Ok(digits) => Ok(u8::from_str_radix(digits, 16)?),
        Err(_) => Err(Wrong::Row),
    }
}

/// Adds a first byte and then others.
fn put(out: &mut Vec<u8>, first: u8, rest: &[u8]) -> Result<(), Wrong> {
    out.push(first)?;
    out.extend_from_slice(rest)?;
    Ok(())
}

/// Adds a part for a number.
fn put_turn(out: &mut Vec<u8>, part: &str, number: u32) -> Result<(), Wrong> {
    for byte in part.as_bytes() {
        match byte {
            b'%' => put_number(out, number as usize)?,
            b'~' => put_number(out, number.wrapping_sub(1) as usize)?,
            b'@' => {
                let (first, second) = ((number / 26 % 26) as u8, (number % 26) as u8);
                out.extend_from_slice(&[b'A' + first, b'A' + second])?;
            }
            _ => out.push(*byte)?,
        }
    }
    Ok(())
}

/// Adds the meaning of the text after a backslash, up to the next one.
fn put_piece(out: &mut Vec<u8>, piece: &str) -> Result<(), Wrong> {
    if let Some(repetition) = piece.strip_prefix('[') {
        let (from, repetition) = repetition.split_once(' ').unwrap_or((repetition, ""));
        let (to, part) = repetition.split_once(' ').unwrap_or((repetition, ""));
        let (from, to) = (from.parse::<u32>()?, to.parse::<u32>()?);
        if from <= to {
            for number in from..=to {
                put_turn(out, part, number)?;
            }
        } else {
            for passed in 0..=from - to {
                put_turn(out, part, from.wrapping_sub(passed))?;
            }
        }
        return Ok(());
    }
    match piece.as_bytes() {
        [b'n', rest @ ..] => put(out, b'\n', rest),
        [b't', rest @ ..] => put(out, b'\t', rest),
        [b'x', high, low, rest @ ..] => put(out, byte_of(&[*high, *low])?, rest),
        [b']', rest @ ..] => {
            out.extend_from_slice(rest)?;
            Ok(())
        }
        _ => Err(Wrong::Row),
    }
}

/// The bytes that a text of a row denotes.
pub(crate) fn bytes_of(alloc: Global, text: &str) -> Result<Vec<u8>, Wrong> {
    let mut out = Vec::new(alloc);
    let mut is_first = true;
    for piece in text.split('\\') {
        if is_first {
            out.extend_from_slice(piece.as_bytes())?;
            is_first = false;
        } else {
            put_piece(&mut out, piece)?;
        }
    }
    Ok(out)
}

/// Why a call has no other answer.
#[derive(Debug, Drop)]
pub(crate) enum Wrong {
    /// There was too little memory.
    Memory,
    /// The row doesn't have the form of its call.
    Row,
    /// The text is refused.
    Refused(CompileError),
    /// The image isn't valid.
    Invalid(VerifyError),
}

impl From<AllocError> for Wrong {
    fn from(_e: AllocError) -> Wrong {
        Wrong::Memory
    }
}

impl<T: Drop> From<AllocFailed<T>> for Wrong {
    fn from(_e: AllocFailed<T>) -> Wrong {
        Wrong::Memory
    }
}

impl From<ParseIntError> for Wrong {
    fn from(_e: ParseIntError) -> Wrong {
        Wrong::Row
    }
}

impl From<CompileError> for Wrong {
    fn from(e: CompileError) -> Wrong {
        Wrong::Refused(e)
    }
}

impl From<(Image, VerifyError)> for Wrong {
    fn from(e: (Image, VerifyError)) -> Wrong {
        Wrong::Invalid(e.1)
    }
}

/// A row whose first fields are being read and whose answer is being written.
#[derive(Drop)]
pub(crate) struct Row<'a> {
    /// The allocator of its input and its answer.
    pub alloc: Global,
    /// The fields that aren't read yet, and the text.
    pub rest: &'a str,
    /// The profile of a row over a lattice.
    pub profile: Profile,
    pub answer: String,
    /// Why the answer isn't complete.
    pub wrong: Option<Wrong>,
}

/// The file of the lattice with a name. In `four`, `L` is below `A` and `B`, and these are below
/// `H`; in `house`, everyone is below the operators, and these are below the owner of secrets.
fn file_named(name: &str) -> &'static str {
    match name {
        "one" => "classes = [\"L\"]\nbelow = []\n",
        "two" => "classes = [\"L\", \"H\"]\nbelow = [[\"L\", \"H\"]]\n",
        "four" => {
            "classes = [\"L\", \"A\", \"B\", \"H\"]
below = [[\"L\", \"A\"], [\"L\", \"B\"], [\"A\", \"H\"], [\"B\", \"H\"]]
"
        }
        "house" => {
            "classes = [\"Public\", \"Operator\", \"Secret\"]
below = [[\"Public\", \"Operator\"], [\"Operator\", \"Secret\"]]
"
        }
        _ => "classes = [\"M\"]\nbelow = []\n",
    }
}

/// Reading.
impl<'a> Row<'a> {
    /// A row without an answer yet.
    pub(crate) fn new(alloc: Global, line: &'a str) -> Row<'a> {
        Row {
            alloc,
            rest: line,
            profile: Profile::Base,
            answer: String::new(alloc),
            wrong: None,
        }
    }

    /// The next field.
    pub(crate) fn field(&mut self) -> &'a str {
        let (field, rest) = self.rest.split_once(' ').unwrap_or((self.rest, ""));
        self.rest = rest;
        field
    }

    /// The next field as a number; 0 if no field is left.
    pub(crate) fn number(&mut self) -> Result<u64, Wrong> {
        match self.field() {
            "" => Ok(0),
            field => Ok(field.parse::<u64>()?),
        }
    }

    /// The next field as a number below 65,536; a larger one is 65,535.
    pub(crate) fn small(&mut self) -> Result<u16, Wrong> {
        Ok(u16::try_from(self.number()?).unwrap_or(u16::MAX))
    }

    /// The next field as the name of a lattice, after the name of a profile unless that is left out
    /// for the base profile.
    pub(crate) fn lattice(&mut self) -> Result<Lattice, Wrong> {
        let mut name = self.field();
        if name == "strict" {
            self.profile = Profile::Strict;
        }
        if name == "base" || name == "strict" {
            name = self.field();
        }
        match read_lattice(self.alloc, file_named(name).as_bytes()) {
            Ok(lattice) => Ok(lattice),
            Err(_) => Err(Wrong::Memory),
        }
    }

    /// The next field as numbers separated by commas, or `-` for none.
    pub(crate) fn numbers(&mut self) -> Result<Vec<i64>, Wrong> {
        let mut numbers = Vec::new(self.alloc);
        let field = self.field();
        if field != "-" {
            for part in field.split(',') {
                numbers.push(part.parse::<i64>()?)?;
            }
        }
        Ok(numbers)
    }

    /// The next field as the numbers of classes.
    pub(crate) fn classes(&mut self) -> Result<Vec<Class>, Wrong> {
        let mut classes = Vec::new(self.alloc);
        for number in &self.numbers()? {
            classes.push(Class::at(u8::try_from(*number).unwrap_or(u8::MAX)))?;
        }
        Ok(classes)
    }

    /// The rest, as the bytes that it denotes.
    pub(crate) fn text(&mut self) -> Result<Vec<u8>, Wrong> {
        bytes_of(self.alloc, self.rest)
    }
}

/// Writing.
impl<'a> Row<'a> {
    /// Adds a text.
    pub(crate) fn put(&mut self, text: &str) -> Result<(), Wrong> {
        Ok(self.answer.push_str(text)?)
    }

    /// Adds bytes that are text.
    pub(crate) fn put_bytes(&mut self, bytes: &[u8]) -> Result<(), Wrong> {
        match from_utf8(bytes) {
            Ok(text) => self.put(text),
            Err(_) => Err(Wrong::Row),
        }
    }

    /// Adds a space and a word, for each of some words.
    pub(crate) fn put_words(&mut self, words: &[i64]) -> Result<(), Wrong> {
        for word in words {
            write!(self.answer, " {word}")?;
        }
        self.put("\n")
    }

    /// Adds a line with a value by its name in the code.
    pub(crate) fn put_line(&mut self, value: &impl Debug) -> Result<(), Wrong> {
        Ok(writeln!(self.answer, "{value:?}")?)
    }

    /// Adds a line with a verdict.
    pub(crate) fn put_verdict(&mut self, is_so: bool) -> Result<(), Wrong> {
        self.put(if is_so { "yes\n" } else { "no\n" })
    }

    /// Adds a line with the number and the name of a fault.
    pub(crate) fn put_fault(&mut self, fault: &Fault) -> Result<(), Wrong> {
        let line = fault_text(self.alloc, fault)?;
        self.put_bytes(&line)
    }

    /// Adds the line of a refusal, by its name in the code but for a flow, or of an image's fault.
    pub(crate) fn put_refusal(&mut self, wrong: &Wrong) -> Result<(), Wrong> {
        match wrong {
            Wrong::Memory => Err(Wrong::Memory),
            Wrong::Row => Err(Wrong::Row),
            Wrong::Refused(CompileError::Flow(_)) => self.put("Flow\n"),
            Wrong::Refused(error) => self.put_line(error),
            Wrong::Invalid(error) => self.put_fault(&Fault::Verify(*error)),
        }
    }
}
