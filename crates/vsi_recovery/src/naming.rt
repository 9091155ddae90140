//! The names of a program that can't be resolved.

use crate::open::{number_of, put_numbered, put_text, span};
use crate::search::{DECLARATION, NAME};
use crate::walk::{Cause, Fault, MAX_FAULTS, Walk};
use indexmap::IndexSet;
use std::alloc::AllocError;
use vsi_lattice::Classes;
use vsi_scope::{ScopeError, resolve};
use vsi_syntax::{Kind, ParseError, Span, Token, parse};

/// The most names that are found at once.
const MAX_NAMES: usize = 20;

/// Whether a name after a token of this kind is that of a declaration.
fn is_declaring(kind: Kind) -> bool {
    kind == Kind::Var || kind == Kind::Letvar
}

impl<'a> Walk<'_, 'a> {
    /// The name of a class of the lattice.
    fn class(&self) -> &'a [u8] {
        self.lattice.name(self.lattice.bottom())
    }

    /// Puts tokens in place of those from a place up to another one.
    fn splice(&mut self, start: usize, stop: usize, put: &[Token<'a>]) -> Result<(), AllocError> {
        let mut made = Vec::from_slice(self.alloc, self.list.get(..start).unwrap_or(&[]))?;
        made.extend_from_slice(put)?;
        made.extend_from_slice(self.list.get(stop..).unwrap_or(&[]))?;
        self.list = made;
        Ok(())
    }

    /// Puts the declarations of names in front.
    fn declare(&mut self, names: &[Token<'a>]) -> Result<(), AllocError> {
        let start = span(0, 0);
        let mut made = Vec::new(self.alloc);
        for name in names {
            for text in [b"var".as_slice(), name.text, b":", self.class(), b";"] {
                put_text(&mut made, text, start)?;
            }
        }
        self.splice(0, 0, &made)
    }

    /// The first fault of the names, with its name and the number of that.
    fn name_fault(&mut self) -> Result<Option<(usize, Token<'a>, ScopeError)>, AllocError> {
        if self.left == 0 {
            return Ok(None);
        }
        self.left = self.left.saturating_sub(self.list.len());
        let mut numbered = Vec::new(self.alloc);
        put_numbered(&mut numbered, &self.list)?;
        let program = match parse(self.alloc, &numbered) {
            Ok(program) => program,
            Err(ParseError::Memory) => return Err(AllocError),
            Err(_) => return Ok(None),
        };
        let Err(error) = resolve(self.alloc, &program, self.lattice) else {
            return Ok(None);
        };
        match error {
            ScopeError::Memory => Err(AllocError),
            ScopeError::Duplicate(span)
            | ScopeError::UnknownClass(span)
            | ScopeError::Unbound(span) => {
                let place = number_of(span);
                Ok(self.list.get(place).map(|token| (place, *token, error)))
            }
            _ => Ok(None),
        }
    }

    /// Whether a part with a repair has a name, or some declaration has lost a part.
    fn is_in_doubt(&self, name: &[u8]) -> bool {
        let is_cut = |token: &Token<'_>| {
            let at = token.span.start;
            is_declaring(token.kind) && self.is_within(at, true)
                || token.text == name && self.is_within(at, false)
        };
        let is_lost = |(before, token): (&Token<'_>, &Token<'_>)| {
            // Declarations that were put in front end at 0.
            let is_put = token.text == NAME.as_bytes() && token.span.stop != 0;
            is_declaring(before.kind) && (is_put || self.is_mended && token.text == name)
        };
        let mut pairs = self.list.iter().zip(self.list.iter().skip(1));
        self.source.iter().any(is_cut) || pairs.any(is_lost)
    }

    /// Adds a fault of a name, unless it may come from a repair.
    fn put_name_fault(&mut self, token: Token<'a>, error: ScopeError) -> Result<(), AllocError> {
        // Nothing of the text is in a token that a repair has put in.
        let is_put = token.span.start == token.span.stop;
        if is_put
            || self.is_within(token.span.start, false)
            || matches!(error, ScopeError::Unbound(_)) && self.is_in_doubt(token.text)
        {
            return Ok(());
        }
        let span = token.span;
        let cause = Cause::Scope(match error {
            ScopeError::Duplicate(_) => ScopeError::Duplicate(span),
            ScopeError::UnknownClass(_) => ScopeError::UnknownClass(span),
            _ => ScopeError::Unbound(span),
        });
        Ok(self.faults.push(Fault { cause, span })?)
    }

    /// Adds the fault of a name that isn't in scope, and then those of the first 20 names that no
    /// declaration has, which are out of scope wherever they are used, and declares them. So the
    /// text is read once for all of these.
    fn put_unbound(&mut self, first: Token<'a>) -> Result<(), AllocError> {
        let mut known = IndexSet::new(self.alloc);
        let mut before = Kind::Semicolon;
        for token in &self.list {
            if is_declaring(before) {
                known.insert(token.text)?;
            }
            before = token.kind;
        }
        let most = known.len().saturating_add(MAX_NAMES);
        let mut names = Vec::new(self.alloc);
        names.push(first)?;
        before = Kind::Semicolon;
        for token in &self.list {
            let is_class = before == Kind::Colon;
            let is_used = token.kind == Kind::Name && !is_class && !is_declaring(before);
            before = token.kind;
            if is_used && known.len() < most && !known.contains(token.text) {
                known.insert(token.text)?;
                if token.text != first.text {
                    names.push(*token)?;
                }
            }
        }
        for token in &names {
            self.put_name_fault(*token, ScopeError::Unbound(token.span))?;
        }
        self.declare(&names)
    }

    /// Adds the first fault of the names, and repairs it, if there is one that can be repaired.
    fn put_name(&mut self) -> Result<bool, AllocError> {
        let Some((place, token, error)) = self.name_fault()? else {
            return Ok(false);
        };
        match error {
            ScopeError::Unbound(_) => self.put_unbound(token)?,
            ScopeError::Duplicate(_) => {
                self.put_name_fault(token, error)?;
                // The class of a global whose name is declared above may be another fault.
                if let Some(class) = self.list.get(place.saturating_add(2)).copied()
                    && self.lattice.class_named(class.text).is_none()
                {
                    self.put_name_fault(class, ScopeError::UnknownClass(class.span))?;
                }
                let start = place.saturating_sub(1);
                self.splice(start, start.saturating_add(DECLARATION), &[])?;
            }
            _ => {
                self.put_name_fault(token, error)?;
                let mut class = Vec::new(self.alloc);
                put_text(&mut class, self.class(), token.span)?;
                self.splice(place, place.saturating_add(1), &class)?;
            }
        }
        Ok(true)
    }

    /// Adds the faults of the names of a list that is a program.
    pub(crate) fn put_names(&mut self) -> Result<(), AllocError> {
        for _fault in 0..MAX_FAULTS * 3 {
            if MAX_FAULTS <= self.faults.len() || !self.put_name()? {
                return Ok(());
            }
        }
        Ok(())
    }
}
