//! A refusal as a value, of whichever layer, and its line.

ghost use Rattle.std.specs.Prelude.{◌≡◌, IfOk, option_map};
ghost use Rattle.vsi_answers.specs.{View.{diagnostic_of, field_of}, Diagnostic.{pair}};
ghost use Rattle.vsi_answers.specs.Diagnostic as spec;
ghost use Rattle.vsi_answers.specs.Source as source_spec;
ghost use Rattle.vsi_answers.specs.Lattice as lattice_spec;
ghost use Rattle.vsi_answers.specs.Files as files_spec;

use std::alloc::{AllocError, Global};
use thiserror::Error;
use vsi_compiler::CompileError;
use vsi_image::{DecodeError, Limit, VerifyError};
use vsi_lattice::{Class, LatticeError};
use vsi_scope::ScopeError;
use vsi_store::{StoreError, ViewError};
use vsi_syntax::{LexError, ParseError, line_column, put_number};
use vsi_types::Step;

/// The field of a refusal.
#[derive(Clone, Copy, Debug)]
pub enum Field<'a> {
    /// The refusal has no field.
    Nothing,
    /// A number, such as that of a global, of an instruction or of a byte.
    Number(usize),
    /// Two numbers, such as those of classes.
    Pair(usize, usize),
    /// A line and a column of the source text, both from 1.
    Place(usize, usize),
    /// Bytes, such as the key of a store file.
    Word(&'a [u8]),
    /// Bytes and a number.
    Numbered(&'a [u8], usize),
}

/// A refusal, from whichever layer: its number, its name, its field and, for a flow of a source
/// text, the steps of its walk.
#[derive(Clone, Copy, Debug)]
pub struct Diagnostic<'a> {
    /// The number of the refusal.
    pub code: usize,
    /// The name of the refusal.
    pub name: &'a [u8],
    /// The field of the refusal.
    pub field: Field<'a>,
    /// The steps of the walk of a refused flow.
    pub steps: Option<&'a [Step]>,
}

impl<'a> Diagnostic<'a> {
    /// A refusal that has no walk.
    pub fn new(code: usize, name: &'a [u8], field: Field<'a>) -> Diagnostic<'a>
        ensures { diagnostic_of result
            ≡ spec.refusal code name.now (field_of field.entry) }
    {
        Diagnostic {
            code,
            name,
            field,
            steps: None,
        }
    }
}

/// The line of a refusal: `refused: `, its number, its name and its field.
pub fn line_text(alloc: Global, diagnostic: &Diagnostic) -> Result<Vec<u8>, AllocError>
    ensures line { IfOk result
        (λ text. text.items ≡ spec.line_text (diagnostic_of diagnostic.now)) }
{
    let mut text = Vec::from_slice(alloc, b"refused: ")?;
    put_number(&mut text, diagnostic.code)?;
    text.extend_from_slice(b" ")?;
    text.extend_from_slice(diagnostic.name)?;
    if !matches!(diagnostic.field, Field::Nothing) {
        text.extend_from_slice(b" ")?;
    }
    match diagnostic.field {
        Field::Nothing => {}
        Field::Number(n) => put_number(&mut text, n)?,
        Field::Pair(a, b) => {
            put_number(&mut text, a)?;
            text.extend_from_slice(b" ")?;
            put_number(&mut text, b)?;
        }
        Field::Place(line, column) => {
            put_number(&mut text, line)?;
            text.extend_from_slice(b":")?;
            put_number(&mut text, column)?;
        }
        Field::Word(word) => text.extend_from_slice(word)?,
        Field::Numbered(word, n) => {
            text.extend_from_slice(word)?;
            text.extend_from_slice(b" ")?;
            put_number(&mut text, n)?;
        }
    }
    text.extend_from_slice(b"\n")?;
    Ok(text)
}

/// Why a file other than a source text is refused.
#[derive(Debug, Drop, Error)]
pub enum Fault {
    /// The lattice file doesn't declare a lattice.
    #[error("the lattice file is refused: {0}")]
    Lattice(LatticeError),
    /// The bytes of the file aren't an image.
    #[error("the bytes are no image: {0}")]
    Decode(DecodeError),
    /// The image isn't valid.
    #[error("the image is not valid: {0}")]
    Verify(VerifyError),
    /// The store file doesn't give a store.
    #[error("the store file is refused: {0}")]
    Store(StoreError),
    /// The class has no view of a run.
    #[error("the class sees nothing of the run: {0}")]
    View(ViewError),
}

/// The refusal with this number, name and field.
fn refused<'a>(code: usize, name: &'static [u8], field: Field<'a>) -> Option<Diagnostic<'a>>
    ensures { option_map diagnostic_of result ≡ source_spec.refused code name.now (field_of
        field.entry) }
{
    Some(Diagnostic::new(code, name, field))
}

/// The refusal at a position in the text.
fn located(code: usize, name: &'static [u8], text: &[u8], at: usize) -> Option<Diagnostic<'static>>
    ensures { option_map diagnostic_of result
        ≡ source_spec.refused code name.now (source_spec.place_in text.now at) }
{
    let (line, column) = line_column(text, at);
    refused(code, name, Field::Place(line, column))
}

/// The refusal of a source text, or none if memory ran out. Positions are computed from the source
/// passed in, which should be the refused one.
pub fn refusal_diagnostic<'a>(source: &[u8], error: &'a CompileError) -> Option<Diagnostic<'a>>
    ensures refusal { option_map diagnostic_of result
        ≡ source_spec.refusal_diagnostic source.now error.now }
{
    match error {
        CompileError::Lex(LexError::Memory) => None,
        CompileError::Lex(LexError::TooLong) => refused(11, b"TooLong", Field::Nothing),
        CompileError::Lex(LexError::BadByte(at)) => located(12, b"BadByte", source, *at),
        CompileError::Lex(LexError::BadWord(at)) => located(13, b"BadWord", source, at.start),
        CompileError::Lex(LexError::BadNumber(at)) => located(14, b"BadNumber", source, at.start),
        CompileError::Parse(ParseError::Memory) => None,
        CompileError::Parse(ParseError::Unexpected(at)) => {
            located(15, b"Unexpected", source, at.start)
        }
        CompileError::Parse(ParseError::TooDeep(at)) => located(16, b"TooDeep", source, at.start),
        CompileError::Scope(inner) => match inner {
            ScopeError::Memory => None,
            ScopeError::Duplicate(at) => located(17, b"Duplicate", source, at.start),
            ScopeError::UnknownClass(at) => located(18, b"UnknownClass", source, at.start),
            ScopeError::Unbound(at) => located(19, b"Unbound", source, at.start),
            ScopeError::TooManyGlobals(at) => located(20, b"TooManyGlobals", source, at.start),
            ScopeError::TooManyDeclarations(at) => {
                located(21, b"TooManyDeclarations", source, at.start)
            }
            ScopeError::TooLarge => refused(22, b"TooLarge", Field::Nothing),
        },
        CompileError::Flow(walk) => Some(Diagnostic {
            code: 25,
            name: b"Refused",
            field: Field::Nothing,
            steps: Some(walk.steps.as_slice()),
        }),
        CompileError::Memory => None,
    }
}

/// The numbers of two classes.
fn classes(a: Class, b: Class) -> Field<'static>
    ensures { field_of result ≡ pair a b }
{
    Field::Pair(a.index(), b.index())
}

/// The refusal of a lattice file, or none if memory ran out.
fn lattice_diagnostic(error: LatticeError) -> Option<Diagnostic<'static>>
    ensures { option_map diagnostic_of result ≡ lattice_spec.lattice_diagnostic error }
{
    match error {
        LatticeError::Memory => None,
        LatticeError::NotToml => refused(1, b"NotToml", Field::Nothing),
        LatticeError::BadShape => refused(2, b"BadShape", Field::Nothing),
        LatticeError::NoClass => refused(3, b"NoClass", Field::Nothing),
        LatticeError::TooManyClasses => refused(4, b"TooManyClasses", Field::Nothing),
        LatticeError::BadName(i) => refused(5, b"BadName", Field::Number(i)),
        LatticeError::DuplicateName(i) => refused(6, b"DuplicateName", Field::Number(i)),
        LatticeError::UnknownName(i) => refused(7, b"UnknownName", Field::Number(i)),
        LatticeError::Cycle(a, b) => refused(8, b"Cycle", classes(a, b)),
        LatticeError::NoJoin(a, b) => refused(9, b"NoJoin", classes(a, b)),
        LatticeError::NoMeet(a, b) => refused(10, b"NoMeet", classes(a, b)),
    }
}

/// The refusal of an image that isn't valid.
fn verify_diagnostic(error: VerifyError) -> Option<Diagnostic<'static>>
    ensures { option_map diagnostic_of result ≡ files_spec.verify_diagnostic error }
{
    match error {
        VerifyError::Unencodable(limit) => {
            // The part of an image that has no bytes.
            let part = match limit {
                Limit::Globals => Field::Word(b"Globals"),
                Limit::Slots => Field::Word(b"Slots"),
                Limit::Stack => Field::Word(b"Stack"),
                Limit::Count => Field::Word(b"Count"),
                Limit::Name(i) => Field::Numbered(b"Name", i),
                Limit::Class(i) => Field::Numbered(b"Class", i),
            };
            refused(26, b"Unencodable", part)
        }
        VerifyError::BadSlot(pc) => refused(33, b"BadSlot", Field::Number(pc)),
        VerifyError::BadTarget(pc) => refused(34, b"BadTarget", Field::Number(pc)),
        VerifyError::Underflow(pc) => refused(35, b"Underflow", Field::Number(pc)),
        VerifyError::Overflow(pc) => refused(36, b"Overflow", Field::Number(pc)),
        VerifyError::NotEmpty(pc) => refused(37, b"NotEmpty", Field::Number(pc)),
        VerifyError::RunsOff => refused(38, b"RunsOff", Field::Nothing),
    }
}

/// The refusal of a lattice file, an image, a store file or a view, or none if memory ran out.
pub fn fault_diagnostic(fault: &Fault) -> Option<Diagnostic>
    ensures refusal { option_map diagnostic_of result ≡ files_spec.fault_diagnostic fault.now }
{
    match fault {
        Fault::Lattice(error) => lattice_diagnostic(*error),
        Fault::Decode(error) => match error {
            DecodeError::Memory => None,
            DecodeError::BadMagic => refused(27, b"BadMagic", Field::Nothing),
            DecodeError::BadVersion => refused(28, b"BadVersion", Field::Nothing),
            DecodeError::BadField(at) => refused(29, b"BadField", Field::Number(*at)),
            DecodeError::BadOpcode(at) => refused(30, b"BadOpcode", Field::Number(*at)),
            DecodeError::Truncated(at) => refused(31, b"Truncated", Field::Number(*at)),
            DecodeError::Trailing(at) => refused(32, b"Trailing", Field::Number(*at)),
        },
        Fault::Verify(error) => verify_diagnostic(*error),
        Fault::Store(StoreError::Memory) => None,
        Fault::Store(StoreError::NotToml) => refused(40, b"NotToml", Field::Nothing),
        Fault::Store(StoreError::NotANumber(key)) => refused(41, b"NotANumber", Field::Word(key)),
        Fault::Store(StoreError::UnknownGlobal(key)) => {
            refused(42, b"UnknownGlobal", Field::Word(key))
        }
        Fault::View(ViewError::Memory) => None,
        Fault::View(ViewError::WrongStore(n)) => refused(39, b"WrongStore", Field::Number(*n)),
        Fault::View(ViewError::ClassNotInLattice(i)) => {
            refused(43, b"ClassNotInLattice", Field::Number(*i))
        }
    }
}
