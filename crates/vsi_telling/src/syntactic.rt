//! The explanation of tokens that are no program, with hints for the commands.

use crate::parts::part_of;
use crate::telling::{Part, Telling, put_nearest};
use std::alloc::{AllocError, Global};
use vsi_recovery::expected_after;
use vsi_syntax::{Kind, ParseError, Span, Token, lex};

/// The tokens of a text that has some.
pub(crate) fn tokens_in<'a>(alloc: Global, source: &'a [u8]) -> Result<Vec<Token<'a>>, AllocError> {
    lex(alloc, source).or(Err(AllocError))
}

/// The names after `var`, or those after `letvar`, in their order.
pub(crate) fn declared<'a>(
    alloc: Global,
    tokens: &[Token<'a>],
    kind: Kind,
) -> Result<Vec<&'a [u8]>, AllocError> {
    let pairs = tokens.iter().zip(tokens.iter().skip(1));
    let declared = pairs.filter(|(word, _)| word.kind == kind);
    declared.map(|(_, token)| token.text).collect(alloc)
}

/// The first token after `var`, or after `letvar`, that is this name.
pub(crate) fn declaration<'a>(tokens: &[Token<'a>], kind: Kind, name: &[u8]) -> Option<Token<'a>> {
    let mut pairs = tokens.iter().zip(tokens.iter().skip(1));
    let (_, token) = pairs.find(|(word, token)| word.kind == kind && token.text == name)?;
    Some(*token)
}

/// A place of tokens, and those in front of it.
#[derive(Clone, Copy)]
pub(crate) struct TokenPlace<'a, 't> {
    pub(crate) tokens: &'t [Token<'a>],
    pub(crate) before: &'t [Token<'a>],
}

impl<'a, 't> TokenPlace<'a, 't> {
    /// The place where a span begins.
    pub(crate) fn new(tokens: &'t [Token<'a>], span: Span) -> TokenPlace<'a, 't> {
        let is_at = |token: &Token<'_>| token.span.start >= span.start;
        let at = tokens.iter().position(is_at).unwrap_or(tokens.len());
        let before = tokens.get(..at).unwrap_or(tokens);
        TokenPlace { tokens, before }
    }

    /// The token so many after the place, or before it.
    pub(crate) fn token(&self, offset: isize) -> Option<Token<'a>> {
        let at = self.before.len().checked_add_signed(offset)?;
        self.tokens.get(at).copied()
    }

    /// The kind of the token so many after the place, or before it.
    pub(crate) fn kind(&self, offset: isize) -> Option<Kind> {
        Some(self.token(offset)?.kind)
    }

    /// Where the token at the place begins in the text, or where the last one ends.
    pub(crate) fn start(&self) -> usize {
        match (self.token(0), self.token(-1)) {
            (Some(token), _) => token.span.start,
            (None, Some(token)) => token.span.stop,
            (None, None) => 0,
        }
    }

    /// Whether a command begins with the token in front, which is a name.
    pub(crate) fn is_behind_target(&self) -> bool {
        let begins = matches!(
            self.kind(-2).unwrap_or(Kind::Semicolon),
            Kind::Semicolon | Kind::Then | Kind::Else | Kind::Do | Kind::In | Kind::OpenBrace
        );
        begins && self.kind(-1) == Some(Kind::Name)
    }

    /// Whether a bracket in front of the place isn't closed before it.
    fn has_open(&self, opening: Kind, closing: Kind) -> bool {
        has_open(self.before, opening, closing)
    }
}

/// Whether a bracket of this kind among the tokens isn't closed by one of the other kind.
fn has_open(tokens: &[Token], opening: Kind, closing: Kind) -> bool {
    let mut open: usize = 0;
    for token in tokens {
        if token.kind == opening {
            open = open.saturating_add(1);
        } else if token.kind == closing {
            open = open.saturating_sub(1);
        }
    }
    open > 0
}

/// The keywords.
const KEYWORDS: [&[u8]; 8] = [
    b"var", b"letvar", b"in", b"if", b"then", b"else", b"while", b"do",
];

/// Whether a text begins with a word, and then, after blanks, with an `=`.
fn begins_with(text: &[u8], word: &[u8]) -> bool {
    let rest = text.trim_ascii_start().strip_prefix(word);
    rest.is_some_and(|rest| rest.trim_ascii_start().starts_with(b"="))
}

/// The hint if another sort of file is in the place of a source text.
pub(crate) fn file_hint(text: &[u8]) -> Option<&'static str> {
    match text {
        [b'V', b'S', b'I', 0..=31, ..] => Some(
            "Hint: this is an image, not a source text: run it with `vsi run IMAGE`, or give the \
            text that it was built from here.\n",
        ),
        _ if begins_with(text, b"classes") || begins_with(text, b"below") => Some(
            "Hint: this looks like a lattice file. The lattice file comes first, and the source \
            text after it: `vsi check LATTICE SOURCE`.\n",
        ),
        _ => None,
    }
}

/// Whether an `if` among the tokens, in the block that they end in, still wants its `else`.
fn lacks_else(alloc: Global, tokens: &[Token]) -> Result<bool, AllocError> {
    let mut outer = Vec::new(alloc);
    let mut wanted: usize = 0;
    for token in tokens {
        match token.kind {
            Kind::Then => wanted = wanted.saturating_add(1),
            Kind::Else => wanted = wanted.saturating_sub(1),
            Kind::OpenBrace => {
                outer.push(wanted)?;
                wanted = 0;
            }
            Kind::CloseBrace => wanted = outer.pop().unwrap_or(0),
            _ => {}
        }
    }
    Ok(wanted > 0)
}

/// The hint for a `;`, for a command that lacks one, and for a declaration.
fn separator_hint(place: &TokenPlace) -> Option<&'static str> {
    let is_declared = place.kind(-2) == Some(Kind::Colon);
    let hint = match (place.kind(-1), place.kind(0)) {
        (None, None) => "Hint: a program has at least one command, as in `var x : L; x := 1`.\n",
        (Some(Kind::Semicolon), None) if place.kind(-5) == Some(Kind::Var) => {
            "Hint: at least one command follows the declarations, as in `x := 1`.\n"
        }
        (Some(Kind::Semicolon), Some(Kind::Semicolon)) => {
            "Hint: only one `;` goes between two commands: remove this one.\n"
        }
        (_, Some(Kind::Semicolon)) if place.kind(1) == Some(Kind::Else) => {
            "Hint: remove this `;`: there is none before `else`.\n"
        }
        (Some(Kind::Name), _) if place.kind(-2) == Some(Kind::Var) => {
            "Hint: a declaration gives the variable a class and no value: write `var x : L;`, and \
            assign to it in the body.\n"
        }
        _ if is_declared && place.kind(-4) == Some(Kind::Var) => {
            "Hint: a `;` comes after each declaration.\n"
        }
        (_, Some(Kind::Close)) if !place.has_open(Kind::Open, Kind::Close) => {
            "Hint: this `)` closes no `(`: remove it, or put the `(` where it belongs.\n"
        }
        (_, Some(Kind::CloseBrace)) if !place.has_open(Kind::OpenBrace, Kind::CloseBrace) => {
            "Hint: this `}` closes no `{`: remove it, or put the `{` where it belongs.\n"
        }
        (_, Some(Kind::Var)) => "Hint: all declarations come before the first command.\n",
        (Some(Kind::Less), Some(Kind::Equal)) => {
            "Hint: there is no `<=`: `P <= Q` is written `1 - (Q < P)`.\n"
        }
        (Some(Kind::Equal), Some(Kind::Equal)) => {
            "Hint: there is no `==`: `P == Q` is written `P = Q`.\n"
        }
        _ if place.is_behind_target() => {
            "Hint: a command that begins with a name assigns to it, as in `x := 1`.\n"
        }
        _ => return None,
    };
    Some(hint)
}

/// The hint for a command after another one without a `;`.
fn command_hint(place: &TokenPlace) -> &'static str {
    let (opening, closing) = (Kind::OpenBrace, Kind::CloseBrace);
    if place.has_open(opening, closing) && has_open(place.tokens, opening, closing) {
        "Hint: a `;` goes between two commands, or a `}` is missing here: a `{` before this place \
        has none.\n"
    } else {
        "Hint: a `;` goes between two commands.\n"
    }
}

/// The hint for a place after an operand. `lacks_else` says whether an `if` before it still wants
/// its `else`, which is explained elsewhere.
fn operand_hint(place: &TokenPlace, lacks_else: bool) -> Option<&'static str> {
    // The last of the words that begin or end a guard, an initial value or a command.
    let kinds = place.before.iter().rev().map(|token| token.kind);
    let mut words = kinds.filter(|kind| match kind {
        Kind::If | Kind::While | Kind::Letvar | Kind::Then | Kind::Else | Kind::Do => true,
        Kind::In | Kind::Semicolon | Kind::OpenBrace | Kind::CloseBrace => true,
        _ => false,
    });
    let hint = match (words.next(), place.kind(0)) {
        (_, Some(Kind::Assign)) => {
            "Hint: an expression can't assign. Two numbers are compared with `=`, and a command \
            assigns to one variable, as in `y := 1; x := y`.\n"
        }
        _ if place.has_open(Kind::Open, Kind::Close) => {
            "Hint: a `(` before this place has no `)` yet.\n"
        }
        (Some(Kind::If), _) => "Hint: `then` comes after the guard of an `if`.\n",
        (Some(Kind::While), _) => "Hint: `do` comes after the guard of a `while`.\n",
        (Some(Kind::Letvar), _) => {
            "Hint: `in` comes after the initial value of a `letvar`, and then the command that \
            can use the variable.\n"
        }
        _ if lacks_else => return None,
        (_, None | Some(Kind::Else)) if place.has_open(Kind::OpenBrace, Kind::CloseBrace) => {
            "Hint: a `{` before this place has no `}` yet.\n"
        }
        (_, Some(Kind::Name | Kind::If | Kind::While | Kind::Letvar | Kind::OpenBrace)) => {
            return Some(command_hint(place));
        }
        (_, Some(Kind::Number(_) | Kind::Open)) => {
            "Hint: an operator goes between two operands: `2 * x`, not `2 x`.\n"
        }
        _ => return None,
    };
    Some(hint)
}

impl Telling<'_> {
    /// Adds a sentence about a missing command, with holes for a variable that it could assign: the
    /// global that is assigned last in front of the place, or the first global.
    fn put_idle(&mut self, place: &TokenPlace, sentence: &str) -> Result<(), AllocError> {
        let mut found: Option<&[u8]> = None;
        let pairs = place.tokens.iter().zip(place.tokens.iter().skip(1));
        for (token, next) in pairs.take(place.before.len()) {
            match (token.kind, next.kind) {
                (Kind::Var, Kind::Name) if found.is_none() => found = Some(next.text),
                (Kind::Name, Kind::Assign) => {
                    let global = declaration(place.tokens, Kind::Var, token.text);
                    found = global.map(|name| name.text).or(found);
                }
                _ => {}
            }
        }
        let name = Part::Text(found.unwrap_or(b"x"));
        self.say(sentence, &[name, name])
    }

    /// Adds a hint where a branch or a block is empty, and returns whether it is.
    fn put_empty(&mut self, place: &TokenPlace) -> Result<bool, AllocError> {
        let sentence = match (place.kind(-1), place.kind(0)) {
            (Some(Kind::Else), _) => {
                "Hint: a command comes after `else`. To do nothing there, write `% := %`.\n"
            }
            (Some(Kind::OpenBrace), Some(Kind::CloseBrace)) => {
                "Hint: a block has at least one command. To do nothing there, write `% := %`.\n"
            }
            _ => return Ok(false),
        };
        self.put_idle(place, sentence)?;
        Ok(true)
    }

    /// Adds a hint by the place alone, where one is known.
    fn put_place_hint(&mut self, place: &TokenPlace) -> Result<(), AllocError> {
        if self.put_empty(place)? || self.add_any(separator_hint(place))? {
            return Ok(());
        }
        let wants_else = lacks_else(self.alloc, place.before)?;
        // Whether an operand, or a command, may end with the token in front.
        let is_behind_operand = matches!(
            place.kind(-1),
            Some(Kind::Name | Kind::Number(_) | Kind::Close | Kind::CloseBrace)
        );
        if !is_behind_operand {
            let has_open = place.has_open(Kind::OpenBrace, Kind::CloseBrace);
            return match (place.token(-1), place.kind(0)) {
                (Some(last), None) if last.kind == Kind::Semicolon && has_open => self.add(
                    "Hint: a `{` before this place has no `}` yet, and no `;` goes before a `}`.\n",
                ),
                (Some(last), Some(Kind::CloseBrace | Kind::Else) | None)
                    if last.kind == Kind::Semicolon => {
                    self.say(
                        "Hint: the `;` before it, at %, is one too many: a `;` goes between two \
                        commands, not after the last one.\n",
                        &[Part::Place(self.bytes, last.span.start)],
                    )
                }
                _ => Ok(()),
            };
        }
        if self.add_any(operand_hint(place, wants_else))? || !wants_else {
            return Ok(());
        }
        let sentence = if place.kind(0) == Some(Kind::Semicolon) {
            "Hint: every `if` has an `else`. Put { } around several commands of a branch. To do \
            nothing there, write `else % := %`.\n"
        } else {
            "Hint: every `if` has an `else`. To do nothing there, write `else % := %`.\n"
        };
        self.put_idle(place, sentence)
    }

    /// Adds which keyword was perhaps meant by an undeclared name, and returns whether one was.
    fn put_keyword(&mut self, place: &TokenPlace, offset: isize) -> Result<bool, AllocError> {
        let Some(name) = place.token(offset) else {
            return Ok(false);
        };
        let is_declared = declaration(place.tokens, Kind::Var, name.text).is_some()
            || declaration(place.tokens, Kind::Letvar, name.text).is_some();
        if is_declared || name.kind != Kind::Name {
            return Ok(false);
        }
        put_nearest(&mut self.words, name.text, &KEYWORDS)
    }

    /// Adds the explanation of tokens that are no program.
    pub(crate) fn put_tree(&mut self, error: &ParseError) -> Result<(), AllocError> {
        match error {
            ParseError::Memory => Err(AllocError),
            ParseError::Unexpected(span) => {
                let tokens = tokens_in(self.alloc, self.bytes)?;
                let place = &TokenPlace::new(&tokens, *span);
                match place.token(0) {
                    Some(token) => self.say("% can't be here.\n", &[Part::Quoted(token.text)])?,
                    None => self.add("The text ends here, before the program is complete.\n")?,
                }
                if self.add_any(file_hint(self.bytes))? || self.hint_at(place.start())? {
                    return Ok(());
                }
                if place.is_behind_target() && self.put_keyword(place, -1)? {
                    return Ok(());
                }
                let list = expected_after(self.alloc, place.before)?.words(self.alloc)?;
                if !list.is_empty() {
                    self.say("Expected here: %.\n", &[Part::Text(&list)])?;
                }
                if self.put_keyword(place, 0)? {
                    return Ok(());
                }
                self.put_place_hint(place)
            }
            ParseError::TooDeep(span) => self.say(
                "% is nested more than 200 levels deep here: in brackets, blocks, `if`, `while` \
                and `letvar`, and in chains of operators.\nHint: compute a part of it first, into \
                a variable of its own.\n",
                &[Part::Quoted(part_of(self.bytes, *span))],
            ),
        }
    }
}
