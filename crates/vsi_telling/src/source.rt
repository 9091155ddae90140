//! The explanation of a refused source text: bytes and words that are none of the language, names
//! that are declared twice or not at all, and the faults after the first one.

use crate::parts::{class_names, part_of, span_at};
use crate::syntactic::{declaration, declared, file_hint, tokens_in};
use crate::telling::{Part, Telling, put_nearest};
use std::alloc::AllocError;
use vsi_answers::refusal_diagnostic;
use vsi_compiler::CompileError;
use vsi_hints::{listed_places, put_further};
use vsi_lattice::{Classes, Lattice};
use vsi_recovery::{Cause, Fault, further_faults};
use vsi_scope::ScopeError;
use vsi_syntax::{Kind, LexError, ParseError, Span, Token, put_place};

/// The largest number of bytes of a name.
const LONGEST_NAME: usize = 32;

/// The most tokens that are read again to find faults.
const MAX_READ: usize = 1_000_000;

/// The usual names of the lowest class.
const LOWEST: &[u8] = b"low lo public open bottom untrusted anyone everyone";

/// The names of types of other languages.
const TYPES: &[u8] =
    b"int integer long short byte char string bool boolean num number float double";

/// The usual names of the highest class.
const HIGHEST: &[u8] = b"high hi secret private confidential top restricted sensitive";

/// Whether a name is one of these, in capital or small letters.
fn is_among(names: &[u8], name: &[u8]) -> bool {
    let mut names = names.split(|byte| *byte == b' ');
    names.any(|other| other.eq_ignore_ascii_case(name))
}

/// Where a source text is refused.
pub(crate) fn place_of(error: &CompileError) -> Option<Span> {
    match error {
        CompileError::Lex(LexError::BadByte(at)) => Some(span_at(*at, 1)),
        CompileError::Lex(LexError::BadWord(span) | LexError::BadNumber(span))
        | CompileError::Parse(ParseError::Unexpected(span) | ParseError::TooDeep(span))
        | CompileError::Scope(
            ScopeError::Duplicate(span)
            | ScopeError::UnknownClass(span)
            | ScopeError::Unbound(span)
            | ScopeError::TooManyGlobals(span)
            | ScopeError::TooManyDeclarations(span),
        ) => Some(*span),
        _ => None,
    }
}

/// Whether the explanation of a fault lists constructs of other languages and unknown names.
fn lists_names(error: &CompileError) -> bool {
    matches!(
        error,
        CompileError::Lex(_) | CompileError::Parse(_) | CompileError::Scope(ScopeError::Unbound(_))
    )
}

/// The class that a usual name of another policy means, and which one of the lattice that is.
fn usual<'l>(lattice: &'l Lattice, name: &[u8]) -> Option<(&'l [u8], &'static [u8])> {
    if is_among(LOWEST, name) {
        return Some((lattice.name(lattice.bottom()), b"lowest"));
    }
    if is_among(HIGHEST, name) {
        return Some((lattice.name(lattice.top()), b"highest"));
    }
    None
}

/// Whether two bytes are on the same line.
fn are_on_line(source: &[u8], first: usize, second: usize) -> bool {
    let between = source.get(first.min(second)..first.max(second));
    between.is_some_and(|between| !between.contains(&b'\n'))
}

impl Telling<'_> {
    /// Adds the explanation of a byte.
    fn put_byte(&mut self, at: usize) -> Result<(), AllocError> {
        let source = self.bytes;
        let Some(byte) = source.get(at).copied() else {
            return Ok(());
        };
        let next = source.get(at.saturating_add(1)).copied();
        let sentence = "% isn't a symbol of this language.\n";
        self.say(sentence, &[Part::Quoted(&[byte])])?;
        if self.add_any(file_hint(source))? || self.hint_at(at)? {
            return Ok(());
        }
        // The byte is in no construct of another language.
        self.add(match (byte, next) {
            (0xEF, Some(0xBB)) => {
                "Hint: there is a byte order mark here: save the text without one, as plain UTF-8 \
                or ASCII.\n"
            }
            (128..=255, _) => {
                "Hint: outside comments only ASCII is allowed: no letters with accents, and no \
                symbols that aren't on every keyboard.\n"
            }
            (b',', _) => "Hint: each variable is declared on its own: `var a : L; var b : L;`.\n",
            (b'!', _) => "Hint: there is no `!`: `!P` is written `P = 0`.\n",
            (b'.', _) => "Hint: numbers are whole: write 150 cents in place of 1.50.\n",
            _ => {
                "Hint: the symbols of the language are `:=` `:` `;` `+` `-` `*` `=` `<` `(` `)` \
                `{` `}` and no others.\n"
            }
        })
    }

    /// Adds the explanation of a text without tokens.
    fn put_lexical(&mut self, error: LexError) -> Result<(), AllocError> {
        match error {
            LexError::Memory => Err(AllocError),
            LexError::TooLong => self.add(
                "The text has more than 1048576 bytes. Hint: check that this is the file that you \
                meant.\n",
            ),
            LexError::BadByte(at) => self.put_byte(at),
            LexError::BadWord(span) => {
                let word = part_of(self.bytes, span);
                let sentence = "% isn't a name, a keyword or a number.\n";
                self.say(sentence, &[Part::Quoted(word)])?;
                if self.hint_at(span.start)? {
                    return Ok(());
                }
                match word.first() {
                    Some(b'0'..=b'9') => self.add(
                        "Hint: a number has only digits, no `_` and no letters, and a name begins \
                        with a letter.\n",
                    ),
                    Some(b'_') => self.add("Hint: a name begins with a letter.\n"),
                    _ => self.say(
                        "Hint: this name has % letters, digits and `_`. A name has at most % of \
                        them: shorten it.\n",
                        &[Part::Number(word.len()), Part::Number(LONGEST_NAME)],
                    ),
                }
            }
            LexError::BadNumber(_) => self.add(
                "The largest number is 9223372036854775807. Hint: use a smaller one.\n",
            ),
        }
    }

    /// Adds the explanation of a class that the lattice lacks.
    fn put_class<'x>(&mut self, lattice: &'x Lattice, name: &'x [u8]) -> Result<(), AllocError> {
        let quoted = Part::Quoted(name);
        if let Some((class, rank)) = usual(lattice, name) {
            return self.say(
                "The lattice has no class %.\nHint: write % in place of %: it is the % class of \
                the lattice file.\n",
                &[quoted, Part::Quoted(class), quoted, Part::Text(rank)],
            );
        }
        let classes = class_names(self.alloc, lattice)?;
        let otherwise = if is_among(TYPES, name) {
            "Hint: a class and no type comes after the `:`, since every variable holds a whole \
            number.\n"
        } else {
            "Hint: use one of them, or add this one to the lattice file.\n"
        };
        let nearest = Part::Nearest(name, &classes, otherwise);
        let sentence = "The lattice has no class %. Its classes are %.\n%";
        self.say(sentence, &[quoted, Part::Names(&classes), nearest])
    }

    /// Adds the explanation of a name that isn't declared.
    fn put_unbound(&mut self, lattice: &Lattice, span: Span) -> Result<(), AllocError> {
        let tokens = tokens_in(self.alloc, self.bytes)?;
        let name = part_of(self.bytes, span);
        self.say("% isn't declared here.\n", &[Part::Quoted(name)])?;
        if let Some(local) = declaration(&tokens, Kind::Letvar, name) {
            return self.say(
                "Hint: the `letvar` at % declares it only for the one command after its `in`: put \
                { } around all the commands that use it.\n",
                &[Part::Place(self.bytes, local.span.start)],
            );
        }
        if self.hint_at(span.start)? {
            return Ok(());
        }
        let globals = declared(self.alloc, &tokens, Kind::Var)?;
        if !globals.is_empty() {
            self.say("The globals of the text are %.\n", &[Part::Names(&globals)])?;
        }
        let locals = declared(self.alloc, &tokens, Kind::Letvar)?;
        if put_nearest(&mut self.words, name, &globals)?
            || put_nearest(&mut self.words, name, &locals)?
        {
            return Ok(());
        }
        self.say(
            "Hint: declare it at the beginning of the text, with `var % : %;` or with another \
            class of the lattice file.\n",
            &[Part::Text(name), Part::Text(lattice.name(lattice.bottom()))],
        )
    }

    /// Adds the explanation of a program whose names, number of declarations or size is refused.
    fn put_scopes(&mut self, lattice: &Lattice, error: ScopeError) -> Result<(), AllocError> {
        match error {
            ScopeError::Memory => Err(AllocError),
            ScopeError::Duplicate(span) => {
                let name = part_of(self.bytes, span);
                let tokens = tokens_in(self.alloc, self.bytes)?;
                self.say("% is declared a second time here", &[Part::Quoted(name)])?;
                if let Some(first) = declaration(&tokens, Kind::Var, name) {
                    let at = Part::Place(self.bytes, first.span.start);
                    self.say("; it is already declared at %", &[at])?;
                }
                self.add(".\nHint: leave one out, or give it another name.\n")
            }
            ScopeError::UnknownClass(span) => self.put_class(lattice, part_of(self.bytes, span)),
            ScopeError::Unbound(span) => self.put_unbound(lattice, span),
            ScopeError::TooManyGlobals(_) => self.add(
                "This is the 257th global, and a program has at most 256.\nHint: use `letvar` for \
                values that aren't needed at the end of the run.\n",
            ),
            ScopeError::TooManyDeclarations(_) => self.add(
                "This is the 1025th declaration, and a program has at most 1024, globals and \
                `letvar`s together.\nHint: reuse a local variable whose value isn't needed any \
                more.\n",
            ),
            ScopeError::TooLarge => self.add(
                "The size of the program is above 65534: a number, a name that is read, an \
                operator, an assignment and a `letvar` count 1 each, an `if` or a `while` 2.\n\
                Hint: put repeated commands into a loop, or split the program in two.\n",
            ),
        }
    }

    /// Adds the line of a further fault: its place, its number and its name.
    fn put_fault(&mut self, fault: Fault) -> Result<(), AllocError> {
        let error = match fault.cause {
            Cause::Lex(error) => CompileError::Lex(error),
            Cause::Tree => CompileError::Parse(ParseError::Unexpected(fault.span)),
            Cause::Scope(error) => CompileError::Scope(error),
        };
        let Some(diagnostic) = refusal_diagnostic(self.bytes, &error) else {
            return Ok(());
        };
        self.add("Also at ")?;
        put_place(&mut self.words, self.bytes, fault.span.start)?;
        self.say(
            ": % %.\n",
            &[Part::Number(diagnostic.code), Part::Text(diagnostic.name)],
        )
    }

    /// Adds the faults of a refused text after its first one, but none on a line for which a hint
    /// is listed, or next after such a place, no names that are listed, and no bytes, words or
    /// tokens on the line of the first fault.
    fn put_faults(
        &mut self,
        lattice: &Lattice,
        error: &CompileError,
        at: usize,
    ) -> Result<(), AllocError> {
        let source = self.bytes;
        let places = listed_places(self.alloc, source, at)?;
        for fault in &further_faults(self.alloc, lattice, source, MAX_READ)? {
            let start = fault.span.start;
            let is_told = match fault.cause {
                Cause::Scope(ScopeError::Unbound(_) | ScopeError::UnknownClass(_)) => {
                    lists_names(error)
                }
                Cause::Lex(_) | Cause::Tree => are_on_line(source, at, start),
                _ => false,
            };
            // A fault is near a place on its line, or where only blanks are between them.
            let is_near = |place: &usize| {
                let between = source.get(place.saturating_add(1)..start);
                are_on_line(source, *place, start)
                    || between.is_some_and(|between| between.trim_ascii().is_empty())
            };
            if !is_told && !places.iter().any(is_near) {
                self.put_fault(*fault)?;
            }
        }
        Ok(())
    }

    /// Adds the explanation of one fault of a source text: the text has tokens, unless the fault is
    /// that it has none.
    pub fn put_refusal(
        &mut self,
        lattice: &Lattice,
        error: &CompileError,
    ) -> Result<(), AllocError> {
        match error {
            CompileError::Lex(inner) => self.put_lexical(*inner),
            CompileError::Parse(inner) => self.put_tree(inner),
            CompileError::Scope(inner) => self.put_scopes(lattice, *inner),
            CompileError::Flow(_) => self.add("A flow breaks the policy.\n"),
            CompileError::Memory => Err(AllocError),
        }
    }

    /// Adds the explanation of a refused source text.
    pub(crate) fn put_source(
        &mut self,
        lattice: &Lattice,
        error: &CompileError,
    ) -> Result<(), AllocError> {
        self.put_refusal(lattice, error)?;
        if file_hint(self.bytes).is_some() {
            return Ok(());
        }
        let Some(Span { start, .. }) = place_of(error) else {
            return Ok(());
        };
        if lists_names(error) {
            let classes = class_names(self.alloc, lattice)?;
            put_further(self.alloc, &mut self.words, self.bytes, start, &classes)?;
        }
        self.put_faults(lattice, error, start)
    }
}
