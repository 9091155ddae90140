//! The sorts of tokens that may follow the beginning of a program: its tokens are read with a list of
//! the parts that are pending after them.

ghost use Rattle.std.specs.Prelude.{◌≡◌, ◌↔◌, ◌∷◌, [], IfOk, is_some, map, option_map, reverse, true};
ghost use Rattle.vsi_syntax.specs.View.{lexemes};
ghost use Rattle.vsi_recovery.specs.{declared.sort.Sort.{Sort}, Goes.{CanFollow, IsWritten}, Sorts.{lexeme_sort}, Told.{told}};
ghost use Rattle.vsi_recovery.specs.Rules as spec;

use crate::rules::{Wanted, put_rule};
use crate::sort::Sort::*;
use crate::sort::{SORTS, Sort};
use std::alloc::{AllocError, Global};
use vsi_syntax::Token;

/// The tokens that may come next: tokens of these sorts, and the end of the text if `end` is set.
#[derive(Debug, Drop)]
pub struct Expected {
    pub sorts: Vec<Sort>,
    pub end: bool,
}

impl Expected {
    /// Whether a token of this sort may come next.
    pub fn has(&self, sort: Sort) -> bool
        ensures { result ≡ told self.now.sorts.items sort }
    {
        for told in &self.sorts {
            if *told == sort {
                return true;
            }
        }
        false
    }
}

/// Reads a token of this sort, and returns whether one may come next.
fn step(ahead: &mut Vec<Wanted>, sort: Sort) -> Result<bool, AllocError>
    ensures { IfOk result (λ stands. spec.step (reverse ahead.old.items) sort
        ≡ spec.reached stands (reverse ahead.new.items)) }
{
    while let Some(wanted) = ahead.pop() {
        if put_rule(ahead, wanted, sort)? {
            return Ok(true);
        }
        if !wanted.may_be_empty() {
            return Ok(false);
        }
    }
    Ok(false)
}

/// Whether all pending parts may be omitted.
fn can_end(ahead: Vec<Wanted>) -> bool
    ensures { result ≡ spec.can_end (reverse ahead.items) }
{
    let mut ahead = ahead;
    while let Some(wanted) = ahead.pop() {
        if !wanted.may_be_empty() {
            return false;
        }
    }
    true
}

/// The parts that are pending after these tokens, or nothing if no program begins with them.
fn read<'a>(alloc: Global, tokens: &[Token<'a>]) -> Result<Option<Vec<Wanted>>, AllocError>
    ensures { IfOk result (λ found. option_map (λ ahead. reverse ahead.items) found
        ≡ spec.run spec.start (map lexeme_sort (lexemes tokens.now))) }
{
    let mut ahead = Vec::new(alloc);
    ahead.push(Wanted::Rest)?;
    ahead.push(Wanted::Command)?;
    ahead.push(Wanted::Globals)?;
    for token in tokens {
        if !step(&mut ahead, Sort::of(token.kind))? {
            return Ok(None);
        }
    }
    Ok(Some(ahead))
}

/// The sorts of tokens that may come next before these pending parts.
fn sorts_of(alloc: Global, ahead: &[Wanted]) -> Result<Vec<Sort>, AllocError>
    ensures { IfOk result (λ sorts. (s : Sort) → told sorts.items s
        ≡ is_some (spec.step (reverse ahead.now) s)) }
{
    let mut sorts = Vec::new(alloc);
    for sort in SORTS {
        let mut rest = Vec::from_slice(alloc, ahead)?;
        if step(&mut rest, sort)? {
            sorts.push(sort)?;
        }
    }
    Ok(sorts)
}

/// The tokens that may follow these tokens: the sorts of the next token in some program that begins
/// with them, and whether some program ends there. If no program begins with these tokens, the
/// answer is empty.
pub fn expected_after<'a>(alloc: Global, tokens: &[Token<'a>]) -> Result<Expected, AllocError>
    // A sort is listed exactly if some program begins with the tokens and then one of this sort.
    ensures sorts { IfOk result (λ e. (s : Sort) → (told e.sorts.items s ≡ true)
        ↔ CanFollow (lexemes tokens.now) s) }
    // `end` is set exactly if some program writes the tokens and no more.
    ensures end { IfOk result (λ e. (e.end ≡ true) ↔ IsWritten (lexemes tokens.now)) }
{
    match read(alloc, tokens)? {
        Some(ahead) => {
            let sorts = sorts_of(alloc, &ahead)?;
            Ok(Expected {
                sorts,
                end: can_end(ahead),
            })
        }
        None => Ok(Expected {
            sorts: Vec::new(alloc),
            end: false,
        }),
    }
}

/// The sorts of operands, in the order of a sentence.
const VALUES: [Sort; 2] = [Name, Number];

/// The operators, in the order of a sentence.
const OPERATORS: [Sort; 5] = [Plus, Minus, Star, Equal, Less];

/// All other sorts, in the order of a sentence.
const SIGNS: [Sort; 15] = [
    Open, Var, If, While, Letvar, OpenBrace, Assign, Colon, Semicolon, Then, Else, Do, In, Close,
    CloseBrace,
];

/// How a sentence names each sort, in the order of `Sort`: a token as it is written, in back
/// quotes, or a description.
const WORDS: [&str; 22] = [
    "`var`", "`letvar`", "`in`", "`if`", "`then`", "`else`", "`while`", "`do`", "`:=`", "`:`",
    "`;`", "`+`", "`-`", "`*`", "`=`", "`<`", "`(`", "`)`", "`{`", "`}`", "a name", "a number",
];

/// Adds items as a sentence lists them: with commas between them, and "or" before the last.
fn put_listed(text: &mut Vec<u8>, words: &[&[u8]]) -> Result<(), AllocError> {
    let mut joint: &[u8] = b"";
    for (number, word) in words.iter().enumerate() {
        text.extend_from_slice(joint)?;
        text.extend_from_slice(word)?;
        let is_next_last = number.saturating_add(2) == words.len();
        joint = if is_next_last { b" or " } else { b", " };
    }
    Ok(())
}

impl Expected {
    /// Adds the items for those of these sorts that may come next.
    fn put_words(&self, words: &mut Vec<&[u8]>, sorts: &[Sort]) -> Result<(), AllocError> {
        for sort in sorts {
            if self.has(*sort) {
                words.push(WORDS[*sort as usize].as_bytes())?;
            }
        }
        Ok(())
    }

    /// The tokens that may come next, as a sentence lists them: names and numbers, the operators
    /// together, the other tokens as they are written, in back quotes, and the end of the text.
    pub fn words(&self, alloc: Global) -> Result<Vec<u8>, AllocError> {
        let mut operators = Vec::new(alloc);
        self.put_words(&mut operators, &OPERATORS)?;
        let mut together = Vec::from_slice(alloc, b"an operator (")?;
        put_listed(&mut together, &operators)?;
        together.push(b')')?;
        let mut words = Vec::new(alloc);
        self.put_words(&mut words, &VALUES)?;
        if !operators.is_empty() {
            words.push(together.as_slice())?;
        }
        self.put_words(&mut words, &SIGNS)?;
        if self.end {
            words.push(b"the end of the text")?;
        }
        let mut text = Vec::new(alloc);
        put_listed(&mut text, &words)?;
        Ok(text)
    }
}
