//! A document as requests about its names read it, and the words with which it can go on.

use crate::document::{
    DocumentText, Fault, Made, PARAMETERS, RENAME, folds, joined, laid_out, text_at, text_value,
    tokens_of,
};
use crate::repairs::fixes;
use serde_json::{Value, json};
use std::alloc::{AllocError, Global};
use vsi_client::{Marked, Mention, mentions_of, rename};
use vsi_compiler::{CompileError, Source, judge};
use vsi_flows::related;
use vsi_infer::put_variable;
use vsi_lattice::{Class, Classes, Lattice, LatticeError, read_lattice};
use vsi_recovery::{Sort, expected_after};
use vsi_scope::Var;
use vsi_syntax::{Kind, MAX_DEPTH, Span, Token};

/// The numbers of the protocol for kinds of items.
const VARIABLE: usize = 6;

const KEYWORD: usize = 14;

const CLASS: usize = 20;

const OPERATOR: usize = 24;

/// How the tokens of each sort are written, in the order of `Sort`: nothing for names and numbers.
const WRITTEN: [&[u8]; 22] = [
    b"var", b"letvar", b"in", b"if", b"then", b"else", b"while", b"do", b":=", b":", b";", b"+",
    b"-", b"*", b"=", b"<", b"(", b")", b"{", b"}", b"", b"",
];

/// Whether a byte is part of a word: a letter, a digit or an underscore.
fn is_of_word(byte: u8) -> bool {
    byte.is_ascii_alphanumeric() || byte == b'_'
}

/// The items that are offered.
#[derive(Drop)]
struct Items {
    alloc: Global,
    list: Vec<Value>,
}

impl Items {
    /// Adds an item.
    fn put(&mut self, word: &[u8], kind: usize) -> Made<()> {
        let item = json!(in self.alloc; {"label": text_value(self.alloc, word)?, "kind": kind})?;
        Ok(self.list.push(item)?)
    }

    /// Adds what may come after these tokens.
    fn put_expected(&mut self, lattice: &Lattice, tokens: &[Token<'_>]) -> Made<()> {
        let expected = expected_after(self.alloc, tokens)?;
        if expected.has(Sort::Name) {
            match tokens.last().map(|token| token.kind) {
                Some(Kind::Var | Kind::Letvar) => {}
                Some(Kind::Colon) => {
                    for number in 0..lattice.count() {
                        self.put(lattice.name(Class::at(number as u8)), CLASS)?;
                    }
                }
                _ => {
                    for name in &names_after(self.alloc, tokens)? {
                        self.put(name, VARIABLE)?;
                    }
                }
            }
        }
        for sort in &expected.sorts {
            let word = WRITTEN.get(*sort as usize).copied().unwrap_or(b"");
            if let Some(byte) = word.first() {
                self.put(word, if is_of_word(*byte) { KEYWORD } else { OPERATOR })?;
            }
        }
        Ok(())
    }
}

/// The items of a text at a byte, at the beginning of the word before it: the variables in scope
/// or the classes where a name may come, and the words and symbols with which some program goes on.
/// There are none in a comment, or after what begins no program.
pub(crate) fn completion(document: DocumentText<'_>, lattice: &Lattice, at: usize) -> Made<Value> {
    let alloc = document.alloc;
    let before = document.text.get(..at).unwrap_or(b"");
    let word = before.iter().rev().take_while(|byte| is_of_word(**byte));
    let before = before.get(..at.saturating_sub(word.count()));
    let before = before.unwrap_or(b"");
    let mut line = before.iter().rev().take_while(|byte| **byte != b'\n');
    let is_comment = line.any(|byte| *byte == b'#');
    let list = Vec::new(alloc);
    let mut items = Items { alloc, list };
    if !is_comment && let Some(tokens) = tokens_of(alloc, before)? {
        items.put_expected(lattice, &tokens)?;
    }
    Ok(Value::Array(items.list))
}

/// A part of a program that has begun and hasn't ended.
#[derive(Clone, Copy, Debug)]
enum Open<'a> {
    /// A block, up to its `}`.
    Block,
    /// The first command of an `if`, up to its `else`.
    Branch,
    /// The command in which a letvar has this name.
    Letvar(&'a [u8]),
}

/// The number of parts that a token leaves: a `;` ends the letvars in its block, a `}` the block
/// too, and an `else` the first command of its `if`.
fn left(open: &[Open<'_>], kind: Kind) -> usize {
    let mut count = open.len();
    for part in open.iter().rev() {
        let inner = count.saturating_sub(1);
        match part {
            Open::Block if kind == Kind::CloseBrace => return inner,
            Open::Block => return count,
            Open::Branch if kind == Kind::Else => return inner,
            _ => count = inner,
        }
    }
    count
}

/// The names in scope after these tokens: the letvars, the innermost first, and the globals.
pub(crate) fn names_after<'a>(alloc: Global, tokens: &[Token<'a>]) -> Made<Vec<&'a [u8]>> {
    let mut globals = Vec::new(alloc);
    // The parts that haven't ended, the name of the last letvar, and the kind of the last token.
    let mut open = Vec::new(alloc);
    let mut letvar: &'a [u8] = b"";
    let mut last = Kind::Semicolon;
    for token in tokens {
        match token.kind {
            Kind::Name if last == Kind::Var => globals.push(token.text)?,
            Kind::Name if last == Kind::Letvar => letvar = token.text,
            Kind::In => open.push(Open::Letvar(letvar))?,
            Kind::Then => open.push(Open::Branch)?,
            Kind::OpenBrace => open.push(Open::Block)?,
            Kind::Semicolon | Kind::CloseBrace | Kind::Else => {
                let stays = left(&open, token.kind);
                open.truncate(stays);
            }
            _ => {}
        }
        last = token.kind;
    }
    // No more letvars are in scope than a program can nest.
    let mut names = Vec::new(alloc);
    for part in open.iter().rev() {
        if let Open::Letvar(name) = part
            && names.len() < usize::from(MAX_DEPTH)
            && !names.contains(name)
        {
            names.push(*name)?;
        }
    }
    let letvars = Vec::from_slice(alloc, &names)?;
    let globals = globals.iter().copied();
    names.extend(globals.filter(|name| !letvars.contains(name)))?;
    Ok(names)
}

/// Whether a request about a document has this topic.
pub(crate) fn is_topic(topic: &str) -> bool {
    match topic {
        "formatting" | "foldingRange" | "completion" | "codeAction" => true,
        "inlayHint" | "documentSymbol" | "rename" | "prepareRename" | "hover" => true,
        "definition" | "references" | "documentHighlight" => true,
        _ => false,
    }
}

/// The answer to a request about a text, with the bytes of its lattice file if there are any.
pub(crate) fn answer(
    document: DocumentText<'_>,
    policy: Option<&[u8]>,
    topic: &str,
    value: &Value,
) -> Result<Value, Fault> {
    match (topic, policy) {
        ("formatting", _) => match laid_out(document.alloc, document.text)? {
            Some(out) => {
                let stop = document.text.len();
                Ok(document.edits(Span { start: 0, stop }, &out)?)
            }
            None => Ok(Value::Null),
        },
        ("foldingRange", _) => Ok(folds(document.alloc, document.text)?),
        (_, None) => Ok(Value::Null),
        (_, Some(bytes)) => match read_lattice(document.alloc, bytes) {
            Ok(lattice) => match topic {
                "completion" => {
                    let at = document.byte_at(value, "/params/position");
                    Ok(completion(document, &lattice, at.ok_or(PARAMETERS)?)?)
                }
                "codeAction" => fixes(document, &lattice, value),
                _ => match document.source(&lattice)? {
                    Some(source) => Reading::of(document, source)?.answer(topic, value),
                    None if topic == "hover" => earlier(document, &lattice, value),
                    None => Ok(Value::Null),
                },
            },
            Err(LatticeError::Memory) => Err(Fault::Memory),
            Err(_) => Ok(Value::Null),
        },
    }
}

/// What is shown over a name of a text that has no program: what the last text that had one says of
/// the variable, if the name was of one variable there.
fn earlier(document: DocumentText<'_>, lattice: &Lattice, value: &Value) -> Result<Value, Fault> {
    let (alloc, encoding) = (document.alloc, document.encoding);
    let at = document.byte_at(value, "/params/position");
    let at = at.ok_or(PARAMETERS)?;
    let (before, after) = document.text.split_at(at.min(document.text.len()));
    let is_of_name = |byte: &&u8| is_of_word(**byte);
    let span = Span {
        start: at.saturating_sub(before.iter().rev().take_while(is_of_name).count()),
        stop: at.saturating_add(after.iter().take_while(is_of_name).count()),
    };
    let word = document.text.get(span.start..span.stop);
    let marked = Marked::of(alloc, encoding, document.last)?;
    let text = DocumentText {
        text: document.last,
        marked: &marked,
        ..document
    };
    let Some(source) = text.source(lattice)? else {
        return Ok(Value::Null);
    };
    let reading = Reading::of(text, source)?;
    let mut names = reading.mentions.iter().filter(|name| {
        name.is_declaration && text.text.get(name.span.start..name.span.stop) == word
    });
    match (names.next().copied(), names.next()) {
        (Some(name), None) => {
            let about = reading.about(name)?;
            let note = b"\n(before the error)";
            Ok(shown(document, span, &joined(alloc, &[&about, note])?)?)
        }
        _ => Ok(Value::Null),
    }
}

/// The object of what is shown over a part of a document.
fn shown(document: DocumentText<'_>, span: Span, text: &[u8]) -> Made<Value> {
    let text = text_value(document.alloc, text)?;
    json!(in document.alloc; {"contents": text, "range": document.range(span)?})
}

/// A document whose text has a program: the names in it, and its letvars' classes if known.
#[derive(Drop)]
struct Reading<'a> {
    document: DocumentText<'a>,
    source: Source<'a>,
    mentions: Vec<Mention>,
    classes: Vec<&'a [u8]>,
}

impl<'a> Reading<'a> {
    /// A document as requests read it.
    fn of(document: DocumentText<'a>, source: Source<'a>) -> Made<Self> {
        let mentions = mentions_of(document.alloc, &source)?;
        let lattice = source.lattice();
        let mut classes = Vec::new(document.alloc);
        match judge(document.alloc, document.profile, &source) {
            Ok(least) => {
                for class in &least {
                    classes.push(lattice.name(*class))?;
                }
            }
            Err(CompileError::Memory) => return Err(AllocError),
            Err(_error) => {}
        }
        Ok(Reading {
            document,
            source,
            mentions,
            classes,
        })
    }

    /// The answer to a request about the names of a program, or about the one to which it points.
    fn answer(&self, topic: &str, value: &Value) -> Result<Value, Fault> {
        let at = self.document.byte_at(value, "/params/position");
        let mut names = self.mentions.iter();
        let pointed = names.find(|name| at.is_some_and(|at| name.span.start <= at
            && at <= name.span.stop));
        match (topic, pointed.copied()) {
            ("inlayHint", _) => Ok(self.hints()?),
            ("documentSymbol", _) => Ok(self.symbols()?),
            ("rename", Some(name)) => self.renaming(name.variable, value),
            ("rename", None) => Err(RENAME),
            ("prepareRename", Some(name)) => Ok(self.document.range(name.span)?),
            ("hover", Some(name)) => Ok(shown(self.document, name.span, &self.about(name)?)?),
            ("definition", Some(name)) => {
                let mut names = self.mentions.iter();
                match names.find(|one| one.is_declaration && one.variable == name.variable) {
                    Some(name) => Ok(self.document.location(name.span)?),
                    None => Ok(Value::Null),
                }
            }
            ("references", Some(name)) => {
                let path = "/params/context/includeDeclaration";
                let is_whole = value.pointer(path).and_then(Value::as_bool) != Some(false);
                Ok(self.parts(name.variable, true, is_whole)?)
            }
            (_, Some(name)) => Ok(self.parts(name.variable, false, true)?),
            (_, None) => Ok(Value::Null),
        }
    }

    /// The class of a variable, if it is known, and whether it isn't declared.
    fn class_of(&self, variable: usize) -> (Option<&[u8]>, bool) {
        let globals = self.source.globals();
        if let Some(global) = globals.get(variable) {
            return (Some(global.class.text), false);
        }
        let number = variable.saturating_sub(globals.len());
        let entry = self.source.resolved().letvars().get(number);
        let is_inferred = entry.is_some_and(|entry| entry.class.is_none());
        (self.classes.get(number).copied(), is_inferred)
    }

    /// The text about a name: its variable's class, and the declared variables joined with it.
    fn about(&self, name: Mention) -> Made<Vec<u8>> {
        let alloc = self.document.alloc;
        let part = self.document.text.get(name.span.start..name.span.stop);
        let mut shown = Vec::from_slice(alloc, part.unwrap_or(b""))?;
        let (class, is_inferred) = self.class_of(name.variable);
        if let Some(class) = class {
            shown.extend_from_slice(b" : ")?;
            shown.extend_from_slice(class)?;
        }
        if is_inferred {
            shown.extend_from_slice(b" (inferred)")?;
        }
        if name.variable < 65535 {
            let variable = Var(name.variable as u16);
            let found = related(alloc, self.document.profile, &self.source, variable)?;
            put_line(&mut shown, &self.source, b"\nfrom ", &found.from)?;
            put_line(&mut shown, &self.source, b"\nto ", &found.to)?;
        }
        Ok(shown)
    }

    /// The parts that name a variable, with the document's name or without, or not the declaration.
    fn parts(&self, variable: usize, is_named: bool, is_whole: bool) -> Made<Value> {
        let mut list = Vec::new(self.document.alloc);
        let names = self.mentions.iter();
        let is_part = |name: &&Mention| {
            name.variable == variable && (is_whole || !name.is_declaration)
        };
        for name in names.filter(is_part) {
            list.push(if is_named {
                self.document.location(name.span)?
            } else {
                json!(in self.document.alloc; {"range": self.document.range(name.span)?})?
            })?;
        }
        Ok(Value::Array(list))
    }

    /// The classes that aren't declared, after the names of their variables.
    fn hints(&self) -> Made<Value> {
        let alloc = self.document.alloc;
        let mut list = Vec::new(alloc);
        for mention in &self.mentions {
            if mention.is_declaration
                && let (Some(class), true) = self.class_of(mention.variable)
            {
                let label = text_value(alloc, &joined(alloc, &[b" : ", class])?)?;
                let place = self.document.marked.range(mention.span).stop;
                list.push(json!(in alloc; {
                    "position": {"line": place.line, "character": place.character},
                    "label": label, "kind": 1
                })?)?;
            }
        }
        Ok(Value::Array(list))
    }

    /// The declarations.
    fn symbols(&self) -> Made<Value> {
        let (alloc, text) = (self.document.alloc, self.document.text);
        let mut list = Vec::new(alloc);
        let names = self.mentions.iter();
        for mention in names.filter(|name| name.is_declaration) {
            let part = text.get(mention.span.start..mention.span.stop);
            let name = text_value(alloc, part.unwrap_or(b""))?;
            let class = self.class_of(mention.variable).0.unwrap_or(b"");
            let class = text_value(alloc, class)?;
            let range = self.document.range(mention.span)?;
            list.push(json!(in alloc; {
                "name": name, "detail": class, "kind": 13, "range": &range, "selectionRange": range
            })?)?;
        }
        Ok(Value::Array(list))
    }

    /// The changes that rename a variable, unless they would change the program.
    fn renaming(&self, variable: usize, value: &Value) -> Result<Value, Fault> {
        let name = text_at(value, "/params/newName").ok_or(PARAMETERS)?;
        let (alloc, encoding) = (self.document.alloc, self.document.encoding);
        let (source, mentions) = (&self.source, &self.mentions);
        match rename(alloc, encoding, source, mentions, variable, name.as_bytes())? {
            Some(changes) => Ok(self.document.changes(self.document.change_list(&changes)?)?),
            None => Err(RENAME),
        }
    }
}

/// The most variables of a line.
const MOST_VARIABLES: usize = 8;

/// Adds a line of variables with their declared classes, if there are any.
fn put_line(text: &mut Vec<u8>, source: &Source<'_>, word: &[u8], variables: &[Var]) -> Made<()> {
    let mut before = word;
    for (i, variable) in variables.iter().enumerate() {
        text.extend_from_slice(before)?;
        if i == MOST_VARIABLES {
            return text.extend_from_slice(b"..");
        }
        put_variable(text, source.lattice(), source.resolved(), *variable)?;
        before = b", ";
    }
    Ok(())
}
