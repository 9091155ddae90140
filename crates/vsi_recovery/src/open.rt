//! Lists of tokens, as repairs make and read them, and the constructs that haven't ended in one.

use crate::search::{COMMAND, Choice};
use std::alloc::{AllocError, Global};
use vsi_syntax::{Kind, LexError, ParseError, Span, Token, lex, parse};

/// The result of reading a list of tokens.
#[derive(Clone, Copy)]
pub(crate) enum Reading {
    /// The list is a program.
    Whole,
    /// The number of the first token with which no program goes on.
    Unexpected(usize),
    /// The program is too deep.
    Stopped,
}

/// Whether reading can go on at a kind of token.
pub(crate) fn is_landmark(kind: Kind) -> bool {
    matches!(
        kind,
        Kind::Semicolon | Kind::CloseBrace | Kind::Else | Kind::Do | Kind::In | Kind::Var
    )
}

/// The number of the first token from this one on at which reading can go on, or of tokens.
pub(crate) fn landmark_from(list: &[Token<'_>], place: usize) -> usize {
    let rest = list.get(place..).unwrap_or(&[]);
    let found = rest.iter().position(|token| is_landmark(token.kind));
    place.saturating_add(found.unwrap_or(rest.len()))
}

/// The span between two bytes or numbers.
pub(crate) fn span(start: usize, stop: usize) -> Span {
    Span { start, stop }
}

/// The tokens of a text, or none if it has a fault.
pub(crate) fn tokens_of<'a>(alloc: Global, text: &'a [u8]) -> Result<Vec<Token<'a>>, AllocError> {
    match lex(alloc, text) {
        Ok(tokens) => Ok(tokens),
        Err(LexError::Memory) => Err(AllocError),
        Err(_) => Ok(Vec::new(alloc)),
    }
}

/// A token with another span.
pub(crate) fn spanned<'a>(token: &Token<'a>, span: Span) -> Token<'a> {
    let mut moved = *token;
    moved.span = span;
    moved
}

/// Adds the tokens of a text, all with this span.
pub(crate) fn put_text<'a>(
    list: &mut Vec<Token<'a>>,
    text: &'a [u8],
    span: Span,
) -> Result<(), AllocError> {
    for token in &tokens_of(*list.allocator(), text)? {
        list.push(spanned(token, span))?;
    }
    Ok(())
}

/// Adds tokens whose spans are their numbers: `number_of` finds a token by its span.
pub(crate) fn put_numbered<'a>(
    list: &mut Vec<Token<'a>>,
    tokens: &[Token<'a>],
) -> Result<(), AllocError> {
    for token in tokens {
        let start = list.len().saturating_mul(2);
        list.push(spanned(token, span(start, start.saturating_add(1))))?;
    }
    Ok(())
}

/// The number of the token with a span, in a list whose spans are numbers, or the number of tokens
/// for the span after the last one.
pub(crate) fn number_of(span: Span) -> usize {
    span.start.saturating_add(1) / 2
}

/// Reads a list whose spans are numbers.
pub(crate) fn read<'a>(alloc: Global, list: &[Token<'a>]) -> Result<Reading, AllocError> {
    match parse(alloc, list) {
        Ok(_) => Ok(Reading::Whole),
        Err(ParseError::Memory) => Err(AllocError),
        Err(ParseError::Unexpected(span)) => Ok(Reading::Unexpected(number_of(span))),
        Err(ParseError::TooDeep(_)) => Ok(Reading::Stopped),
    }
}

/// A beginning in a list: the number of a token, and the number of those of `kept` before it.
#[derive(Clone, Copy)]
pub(crate) struct Start {
    pub(crate) place: usize,
    pub(crate) kept: usize,
}

impl Start {
    /// The beginning at these numbers.
    pub(crate) fn new(place: usize, kept: usize) -> Start {
        Start { place, kept }
    }
}

/// A sequence that hasn't ended: where it begins in `kept`, where its last command begins, and
/// where the innermost command within that one begins.
#[derive(Clone, Copy)]
pub(crate) struct Level {
    mark: usize,
    pub(crate) item: Start,
    pub(crate) command: Start,
}

/// What was read of a list: a short list after which the same tokens may come, in which each token
/// has its number in the list that was read as its span, and the sequences that haven't ended.
#[derive(Drop)]
pub(crate) struct Open<'a> {
    alloc: Global,
    pub(crate) kept: Vec<Token<'a>>,
    /// The sequences around the innermost one, which are none in the sequence of the program.
    pub(crate) outer: Vec<Level>,
    /// The innermost sequence.
    pub(crate) now: Level,
}

impl<'a> Open<'a> {
    /// The beginning of a list whose first token has this number.
    pub(crate) fn new(alloc: Global, number: usize) -> Open<'a> {
        let start = Start::new(number, 0);
        Open {
            alloc,
            kept: Vec::new(alloc),
            outer: Vec::new(alloc),
            now: Level {
                mark: 0,
                item: start,
                command: start,
            },
        }
    }

    /// Whether the last command is a declaration at the head.
    pub(crate) fn is_declaration(&self) -> bool {
        let first = self.kept.first();
        self.outer.is_empty() && first.is_some_and(|token| token.kind == Kind::Var)
    }

    /// Begins a command after the token with this number, in a sequence or within a command.
    fn begin(&mut self, number: usize, is_item: bool) {
        self.now.command = Start::new(number.saturating_add(1), self.kept.len());
        if is_item {
            self.now.item = self.now.command;
        }
    }

    /// Ends a sequence, of which one command is kept at a place, by the token with this number.
    fn shorten(&mut self, place: usize, number: usize, token: Token<'a>) -> Result<(), AllocError> {
        let is_declaration = token.kind == Kind::Semicolon && self.is_declaration();
        self.kept.truncate(self.now.mark);
        if is_declaration {
            return Ok(());
        }
        put_text(&mut self.kept, COMMAND.as_bytes(), span(place, place))?;
        Ok(self.kept.push(spanned(&token, span(number, number)))?)
    }

    /// Reads the token with this number.
    pub(crate) fn note(&mut self, number: usize, token: Token<'a>) -> Result<(), AllocError> {
        match token.kind {
            Kind::Semicolon => self.shorten(self.now.item.place, number, token)?,
            Kind::CloseBrace => self.shorten(number, number, token)?,
            _ => self.kept.push(spanned(&token, span(number, number)))?,
        }
        match token.kind {
            Kind::CloseBrace => self.now = self.outer.pop().unwrap_or(self.now),
            Kind::OpenBrace => {
                self.outer.push(self.now)?;
                self.now.mark = self.kept.len();
                self.begin(number, true);
            }
            Kind::Semicolon => self.begin(number, true),
            Kind::Do | Kind::Then | Kind::Else | Kind::In => self.begin(number, false),
            _ => {}
        }
        Ok(())
    }

    /// The constructs that haven't ended after a repair.
    pub(crate) fn with(&self, choice: Choice) -> Result<Open<'a>, AllocError> {
        let start = choice.start;
        let first = self.kept.first();
        let first = first.map_or(start.place, |token| token.span.start);
        let parts = tokens_of(self.alloc, choice.put.as_bytes())?;
        let mut open = Open::new(self.alloc, first);
        for token in self.kept.get(..start.kept).unwrap_or(&[]) {
            open.note(token.span.start, *token)?;
        }
        for (number, token) in parts.iter().enumerate() {
            open.note(start.place.saturating_add(number), *token)?;
        }
        if choice.is_before {
            for token in self.kept.get(start.kept..).unwrap_or(&[]) {
                open.note(token.span.start.saturating_add(parts.len()), *token)?;
            }
        }
        Ok(open)
    }
}
