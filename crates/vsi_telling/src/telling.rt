//! Sentences about a refused file, as they are gathered, and the lines that they make.

use std::alloc::{AllocError, Global};
use std::str::from_utf8;
use strsim::osa_distance;
use vsi_hints::{hint_at, put_hint};
use vsi_syntax::{Span, put_number, put_place};

/// The largest number of bytes of a name that are shown.
const LONGEST: usize = 40;

/// The largest number of names that are shown.
const MOST: usize = 8;

/// A part of a sentence that isn't fixed.
#[derive(Clone, Copy)]
pub enum Part<'a> {
    Text(&'a [u8]),
    /// A word between back quotes, or its beginning where it is long.
    Quoted(&'a [u8]),
    /// Names between back quotes, the first of them where they are many.
    Names(&'a [&'a [u8]]),
    /// A number in decimal.
    Number(usize),
    /// The line and the column of a place in a text.
    Place(&'a [u8], usize),
    /// A pair of names as a lattice file writes it, the lower one first.
    Pair(&'a [u8], &'a [u8]),
    /// Which of the names was perhaps meant in place of the first one, or else a hint.
    Nearest(&'a [u8], &'a [&'a [u8]], &'static str),
}

/// Adds a word between back quotes, or its beginning where it is long.
fn put_quoted(words: &mut Vec<u8>, word: &[u8]) -> Result<(), AllocError> {
    words.extend_from_slice(b"`")?;
    words.extend_from_slice(&word[..word.len().min(LONGEST)])?;
    words.extend_from_slice(if word.len() > LONGEST { b"..`" } else { b"`" })
}

/// How far a word is from a near one: 0 where only capital and small letters differ, and `LONGEST`
/// if it isn't near.
fn distance(alloc: Global, written: &[u8], meant: &[u8]) -> Result<usize, AllocError> {
    let length = written.len().min(meant.len());
    if written == meant || written.len().max(meant.len()) > LONGEST {
        return Ok(LONGEST);
    }
    if written.eq_ignore_ascii_case(meant) {
        return Ok(0);
    }
    let (Ok(written), Ok(meant)) = (from_utf8(written), from_utf8(meant)) else {
        return Ok(LONGEST);
    };
    let most = match length {
        0..=1 => 0,
        2..=4 => 1,
        _ => 2,
    };
    let far = osa_distance(alloc, written, meant)?;
    Ok(if far <= most { far } else { LONGEST })
}

/// Adds which word was perhaps meant, of equally near ones the first, and returns whether one was.
pub fn put_nearest(
    words: &mut Vec<u8>,
    written: &[u8],
    choices: &[&[u8]],
) -> Result<bool, AllocError> {
    let mut best = None;
    let mut least: usize = LONGEST;
    for word in choices {
        let far = distance(*words.allocator(), written, word)?;
        if far < least {
            least = far;
            best = Some(*word);
        }
    }
    let Some(meant) = best else {
        return Ok(false);
    };
    words.extend_from_slice(b"Hint: perhaps ")?;
    put_quoted(words, meant)?;
    words.extend_from_slice(b" was meant in place of ")?;
    put_quoted(words, written)?;
    words.extend_from_slice(b".\n")?;
    Ok(true)
}

/// Adds a part of a sentence.
fn put_part(words: &mut Vec<u8>, part: Part<'_>) -> Result<(), AllocError> {
    match part {
        Part::Text(text) => words.extend_from_slice(text),
        Part::Quoted(word) => put_quoted(words, word),
        Part::Names(names) => {
            for (place, name) in names.iter().enumerate() {
                if place >= MOST {
                    return words.extend_from_slice(b" and others");
                }
                if place > 0 {
                    words.extend_from_slice(b", ")?;
                }
                put_quoted(words, name)?;
            }
            Ok(())
        }
        Part::Number(number) => put_number(words, number),
        Part::Place(source, at) => put_place(words, source, at),
        Part::Pair(low, high) => {
            for piece in [b"[\"".as_slice(), low, b"\", \"", high, b"\"]"] {
                words.extend_from_slice(piece)?;
            }
            Ok(())
        }
        Part::Nearest(written, choices, otherwise) => {
            if !put_nearest(words, written, choices)? {
                words.extend_from_slice(otherwise.as_bytes())?;
            }
            Ok(())
        }
    }
}

/// Adds a sentence, with a part in place of each `%`.
pub fn say(words: &mut Vec<u8>, sentence: &str, parts: &[Part<'_>]) -> Result<(), AllocError> {
    let mut rest = parts;
    for byte in sentence.as_bytes() {
        if *byte != b'%' {
            words.push(*byte)?;
        } else if let [part, others @ ..] = rest {
            put_part(words, *part)?;
            rest = others;
        }
    }
    Ok(())
}

/// How many columns a line has.
const COLUMNS: usize = 80;

/// The part of a file that is wrong, if it is known, once the words about it have been added.
pub type Told = Result<Option<Span>, AllocError>;

/// A refused file, and the words about it so far.
#[derive(Drop)]
pub struct Telling<'s> {
    pub alloc: Global,
    pub path: &'s [u8],
    pub bytes: &'s [u8],
    pub words: Vec<u8>,
}

impl<'s> Telling<'s> {
    /// A file that nothing is said about yet.
    pub fn new(alloc: Global, path: &'s [u8], bytes: &'s [u8]) -> Self {
        Telling {
            alloc,
            path,
            bytes,
            words: Vec::new(alloc),
        }
    }

    /// Adds sentences as they are.
    pub fn add(&mut self, text: &str) -> Result<(), AllocError> {
        self.words.extend_from_slice(text.as_bytes())
    }

    /// Adds a sentence, with a part in place of each `%`.
    pub fn say(&mut self, sentence: &str, parts: &[Part<'_>]) -> Result<(), AllocError> {
        say(&mut self.words, sentence, parts)
    }

    /// Adds a sentence, with a part in place of each `%`, and returns the place.
    pub fn tell(&mut self, place: Option<Span>, sentence: &str, parts: &[Part<'_>]) -> Told {
        self.say(sentence, parts)?;
        Ok(place)
    }

    /// Adds the text, if there is one, and returns whether there is.
    pub(crate) fn add_any(&mut self, text: Option<&str>) -> Result<bool, AllocError> {
        self.add(text.unwrap_or(""))?;
        Ok(text.is_some())
    }

    /// Adds the hint for what another language has at a place, and returns whether there is one.
    pub(crate) fn hint_at(&mut self, at: usize) -> Result<bool, AllocError> {
        let hint = hint_at(self.alloc, self.bytes, at)?;
        put_hint(&mut self.words, &hint)
    }
}

/// How many columns a byte takes where it is shown.
fn columns_of(byte: u8) -> usize {
    match byte {
        b'\t' => 2,
        32..=126 => 1,
        _ => 4,
    }
}

/// How many columns the word at the beginning takes.
fn word_columns(words: &[u8]) -> usize {
    let ends = |byte: &u8| *byte == b' ' || *byte == b'\n';
    let word = words.split(ends).next().unwrap_or(words);
    word.iter().fold(0, |columns, byte| columns.saturating_add(columns_of(*byte)))
}

/// The words with a line feed for a blank where a line would get too long.
pub(crate) fn wrapped(alloc: Global, words: &[u8]) -> Result<Vec<u8>, AllocError> {
    let mut lines = Vec::new(alloc);
    let mut column: usize = 0;
    for at in 0..words.len() {
        let byte = words[at];
        let is_end = byte == b'\n'
            || byte == b' ' && column.saturating_add(word_columns(&words[at + 1..])) >= COLUMNS;
        if is_end {
            lines.push(b'\n')?;
            column = 0;
        } else {
            lines.push(byte)?;
            column = column.saturating_add(columns_of(byte));
        }
    }
    Ok(lines)
}
