//! Decodes bytes to an image: one reader for each field, which returns the value and the bytes
//! after it.
//!
//! `whole` is the number of all bytes, from which a reader computes the position of its field.

ghost use Rattle.std.specs.{Prelude.{◌≡◌, ℕ, length, true, false, [], IfOk, Ok, Some, slice_get, bytes_eq}, Int.{w16, w32, w64}};
ghost use Rattle.vsi_image.specs.{declared.decoder.DecodeError.TheVariants.{Memory}, Fields.{Fields, IsOneSpelling, Spells, fields, global, globals, is_taken}, Reading.{Gives}};
ghost use Rattle.vsi_image.specs.Reading as spec;

use crate::encoder::{MAX_GLOBALS, MAX_INSTRUCTIONS, MAX_NAME_LENGTH, MAX_OPERANDS, MAX_SLOTS};
use crate::instr::{Image, Instr};
use crate::opcodes::{self, MAGIC, VERSION};
use std::alloc::{AllocError, AllocFailed, Global};
use thiserror::Error;
use vsi_syntax::is_name;

/// Why bytes are not those of an image; a number is the position of the field's first byte, from 0.
#[derive(Clone, Copy, PartialEq, Eq, Debug, Error)]
pub enum DecodeError {
    /// Memory ran out for the image.
    #[error("out of memory")]
    Memory,
    /// The bytes don't begin with `VSI`.
    #[error("the bytes do not begin with `VSI`")]
    BadMagic,
    /// The version is neither 1 nor 2.
    #[error("the version is neither 1 nor 2")]
    BadVersion,
    /// A number in the head, the length of a name or a name isn't allowed.
    #[error("the field at byte {0} is not allowed")]
    BadField(usize),
    /// The byte is not an opcode of the version.
    #[error("the byte at {0} is no opcode of the version")]
    BadOpcode(usize),
    /// Fewer bytes are left than the width of the field.
    #[error("the field at byte {0} is cut short")]
    Truncated(usize),
    /// Bytes are left after the last field, from this one on.
    #[error("bytes are left behind the last field, from byte {0} on")]
    Trailing(usize),
}

impl From<AllocError> for DecodeError {
    ghost from_gives = { λ _ e. e ≡ Memory };

    fn from(_e: AllocError) -> DecodeError {
        DecodeError::Memory
    }
}

impl<T: Drop> From<AllocFailed<T>> for DecodeError {
    ghost from_gives = { λ _ e. e ≡ Memory };

    fn from(_e: AllocFailed<T>) -> DecodeError {
        DecodeError::Memory
    }
}

/// The position at which the rest of the bytes begins.
fn place(whole: usize, rest: &[u8]) -> usize
    ensures { result ≡ spec.place whole rest.now }
{
    whole.saturating_sub(rest.len())
}

/// Reads one byte.
fn byte_at(whole: usize, bytes: &[u8]) -> Result<(u8, &[u8]), DecodeError>
    ensures { Gives (λ x. (x.0, x.1.now)) result (spec.byte_at whole bytes.now) }
{
    match bytes {
        [first, rest @ ..] => Ok((*first, rest)),
        [] => Err(DecodeError::Truncated(place(whole, bytes))),
    }
}

/// Reads this many bytes.
fn text_at(n: usize, whole: usize, bytes: &[u8]) -> Result<(&[u8], &[u8]), DecodeError>
    ensures { Gives (λ x. (x.0.now, x.1.now)) result (spec.text_at n whole bytes.now) }
{
    if bytes.len() < n {
        return Err(DecodeError::Truncated(place(whole, bytes)));
    }
    Ok(bytes.split_at(n))
}

/// Reads a number of two bytes.
fn u16_at(whole: usize, bytes: &[u8]) -> Result<(u16, &[u8]), DecodeError>
    ensures { Gives (λ x. (x.0, x.1.now)) result (spec.number_at w16 whole bytes.now) }
{
    if bytes.len() < 2 {
        return Err(DecodeError::Truncated(place(whole, bytes)));
    }
    let (front, rest) = bytes.split_at(2);
    Ok((u16::from_be_bytes([front[0], front[1]]), rest))
}

/// Reads a number of four bytes.
fn u32_at(whole: usize, bytes: &[u8]) -> Result<(u32, &[u8]), DecodeError>
    ensures { Gives (λ x. (x.0, x.1.now)) result (spec.number_at w32 whole bytes.now) }
{
    if bytes.len() < 4 {
        return Err(DecodeError::Truncated(place(whole, bytes)));
    }
    let (front, rest) = bytes.split_at(4);
    Ok((
        u32::from_be_bytes([front[0], front[1], front[2], front[3]]),
        rest,
    ))
}

/// Reads a number of eight bytes.
fn u64_at(whole: usize, bytes: &[u8]) -> Result<(u64, &[u8]), DecodeError>
    ensures { Gives (λ x. (x.0, x.1.now)) result (spec.number_at w64 whole bytes.now) }
{
    if bytes.len() < 8 {
        return Err(DecodeError::Truncated(place(whole, bytes)));
    }
    let (front, rest) = bytes.split_at(8);
    let number = u64::from_be_bytes([
        front[0], front[1], front[2], front[3], front[4], front[5], front[6], front[7],
    ]);
    Ok((number, rest))
}

/// Reads a number of two bytes, from `low` to `high`.
#[tactic(auto, unfolding(crate::specs::Reading::field_at))]
fn u16_field(low: u16, high: u16, whole: usize, bytes: &[u8]) -> Result<(u16, &[u8]), DecodeError>
    ensures { Gives (λ x. (x.0, x.1.now)) result (spec.field_at w16 low high whole bytes.now) }
{
    let (n, rest) = u16_at(whole, bytes)?;
    if low <= n && n <= high {
        Ok((n, rest))
    } else {
        Err(DecodeError::BadField(place(whole, bytes)))
    }
}

/// Reads a number of four bytes, from `low` to `high`.
#[tactic(auto, unfolding(crate::specs::Reading::field_at))]
fn u32_field(low: u32, high: u32, whole: usize, bytes: &[u8]) -> Result<(u32, &[u8]), DecodeError>
    ensures { Gives (λ x. (x.0, x.1.now)) result (spec.field_at w32 low high whole bytes.now) }
{
    let (n, rest) = u32_at(whole, bytes)?;
    if low <= n && n <= high {
        Ok((n, rest))
    } else {
        Err(DecodeError::BadField(place(whole, bytes)))
    }
}

/// Reads the magic bytes.
#[tactic(auto, unfolding(crate::specs::Reading::magic_at))]
fn magic_at(whole: usize, bytes: &[u8]) -> Result<(&[u8], &[u8]), DecodeError>
    ensures { Gives (λ x. (x.0.now, x.1.now)) result (spec.magic_at whole bytes.now) }
{
    let (magic, rest) = text_at(MAGIC.len(), whole, bytes)?;
    if same(magic, &MAGIC) {
        Ok((magic, rest))
    } else {
        Err(DecodeError::BadMagic)
    }
}

/// Reads the version, 1 or 2.
#[tactic(auto, unfolding(crate::specs::Reading::version_at))]
fn version_at(whole: usize, bytes: &[u8]) -> Result<(u8, &[u8]), DecodeError>
    ensures { Gives (λ x. (x.0, x.1.now)) result (spec.version_at whole bytes.now) }
{
    let (version, rest) = byte_at(whole, bytes)?;
    if 1 <= version && version <= VERSION {
        Ok((version, rest))
    } else {
        Err(DecodeError::BadVersion)
    }
}

/// Whether one of the globals has this name.
pub(crate) fn is_taken(before: &[(Vec<u8>, Vec<u8>)], name: &[u8]) -> bool
    ensures { result ≡ is_taken (globals before.now) name.now }
{
    let mut rest = before;
    while let [g, behind @ ..] = rest {
        if same(&g.0, name) {
            return true;
        }
        rest = behind;
    }
    false
}

/// Reads a length and a name that none of these globals has.
#[tactic(auto, unfolding(crate::specs::Reading::name_at))]
fn name_at<'a>(
    before: &[(Vec<u8>, Vec<u8>)],
    whole: usize,
    bytes: &'a [u8],
) -> Result<(&'a [u8], &'a [u8]), DecodeError>
    ensures { Gives (λ x. (x.0.now, x.1.now)) result
        (spec.name_at (globals before.now) whole bytes.now) }
{
    let (len, rest) = byte_at(whole, bytes)?;
    if !(1 <= len && len <= MAX_NAME_LENGTH) {
        return Err(DecodeError::BadField(place(whole, bytes)));
    }
    let (name, after) = text_at(len as usize, whole, rest)?;
    if is_name(name) && !is_taken(before, name) {
        Ok((name, after))
    } else {
        Err(DecodeError::BadField(place(whole, rest)))
    }
}

/// Reads a global after these.
#[tactic(auto, unfolding(crate::specs::Reading::global_at))]
fn global_at<'a>(
    alloc: Global,
    before: &[(Vec<u8>, Vec<u8>)],
    whole: usize,
    bytes: &'a [u8],
) -> Result<((Vec<u8>, Vec<u8>), &'a [u8]), DecodeError>
    ensures { Gives (λ x. (global x.0, x.1.now)) result
        (spec.global_at (globals before.now) whole bytes.now) }
{
    let (name, rest) = name_at(before, whole, bytes)?;
    let (class, rest) = name_at(&[], whole, rest)?;
    Ok((
        (
            Vec::from_slice(alloc, name)?,
            Vec::from_slice(alloc, class)?,
        ),
        rest,
    ))
}

/// Reads this many globals.
fn globals_at(
    alloc: Global,
    count: u16,
    whole: usize,
    bytes: &[u8],
) -> Result<(Vec<(Vec<u8>, Vec<u8>)>, &[u8]), DecodeError>
    ensures { Gives (λ x. (globals x.0.items, x.1.now)) result
        (spec.globals_at count [] whole bytes.now) }
{
    let mut globals = Vec::new(alloc);
    let mut rest = bytes;
    for _ in 0..count {
        let (global, after) = global_at(alloc, &globals, whole, rest)?;
        globals.push(global)?;
        rest = after;
    }
    Ok((globals, rest))
}

/// Reads the operand of an opcode at a position, and returns the instruction.
#[tactic(auto, unfolding(crate::specs::Reading::operand_at))]
fn operand_at(
    version: u8,
    op: u8,
    at: usize,
    whole: usize,
    bytes: &[u8],
) -> Result<(Instr, &[u8]), DecodeError>
    ensures { Gives (λ x. (x.0, x.1.now)) result (spec.operand_at version op at whole bytes.now) }
{
    match op {
        opcodes::PUSH => {
            let (n, rest) = u64_at(whole, bytes)?;
            Ok((Instr::Push(n.cast_signed()), rest))
        }
        opcodes::LOAD => {
            let (s, rest) = u16_at(whole, bytes)?;
            Ok((Instr::Load(s), rest))
        }
        opcodes::STORE => {
            let (s, rest) = u16_at(whole, bytes)?;
            Ok((Instr::Store(s), rest))
        }
        opcodes::ADD => Ok((Instr::Add, bytes)),
        opcodes::SUB => Ok((Instr::Sub, bytes)),
        opcodes::EQ => Ok((Instr::Eq, bytes)),
        opcodes::LT => Ok((Instr::Lt, bytes)),
        opcodes::JZ => {
            let (t, rest) = u32_at(whole, bytes)?;
            Ok((Instr::Jz(t), rest))
        }
        opcodes::JMP => {
            let (t, rest) = u32_at(whole, bytes)?;
            Ok((Instr::Jmp(t), rest))
        }
        opcodes::HALT => Ok((Instr::Halt, bytes)),
        opcodes::MUL if version == VERSION => Ok((Instr::Mul, bytes)),
        _ => Err(DecodeError::BadOpcode(at)),
    }
}

/// Reads an instruction.
#[tactic(auto, unfolding(crate::specs::Reading::instr_at))]
fn instr_at(version: u8, whole: usize, bytes: &[u8]) -> Result<(Instr, &[u8]), DecodeError>
    ensures { Gives (λ x. (x.0, x.1.now)) result (spec.instr_at version whole bytes.now) }
{
    let (op, rest) = byte_at(whole, bytes)?;
    operand_at(version, op, place(whole, bytes), whole, rest)
}

/// Reads this many instructions.
fn code_at(
    alloc: Global,
    count: u32,
    version: u8,
    whole: usize,
    bytes: &[u8],
) -> Result<(Vec<Instr>, &[u8]), DecodeError>
    ensures { Gives (λ x. (x.0.items, x.1.now)) result
        (spec.code_at count version whole bytes.now) }
{
    let mut code = Vec::new(alloc);
    let mut rest = bytes;
    for _ in 0..count {
        let (instr, after) = instr_at(version, whole, rest)?;
        code.push(instr)?;
        rest = after;
    }
    Ok((code, rest))
}

/// The fields before the globals.
#[derive(Clone, Copy)]
struct Head {
    version: u8,
    globals: u16,
    slots: u16,
    stack: u16,
    count: u32,
}

/// Reads the head, field by field.
#[tactic(auto, unfolding(crate::specs::Reading::head_at))]
fn head_at(whole: usize, bytes: &[u8]) -> Result<(Head, &[u8]), DecodeError>
    ensures { Gives (λ x. (spec.head x.0, x.1.now)) result (spec.head_at whole bytes.now) }
{
    let (_, rest) = magic_at(whole, bytes)?;
    let (version, rest) = version_at(whole, rest)?;
    let (globals, rest) = u16_field(0, MAX_GLOBALS, whole, rest)?;
    let (slots, rest) = u16_field(globals, MAX_SLOTS, whole, rest)?;
    let (stack, rest) = u16_field(0, MAX_OPERANDS, whole, rest)?;
    let (count, rest) = u32_field(0, MAX_INSTRUCTIONS, whole, rest)?;
    Ok((
        Head {
            version,
            globals,
            slots,
            stack,
            count,
        },
        rest,
    ))
}

/// Reads an image that nothing follows.
#[tactic(auto, unfolding(crate::specs::Reading::image_at))]
fn image_at(alloc: Global, whole: usize, bytes: &[u8]) -> Result<Image, DecodeError>
    ensures { Gives fields result (spec.image_at whole bytes.now) }
{
    let (head, rest) = head_at(whole, bytes)?;
    let (globals, rest) = globals_at(alloc, head.globals, whole, rest)?;
    let (code, rest) = code_at(alloc, head.count, head.version, whole, rest)?;
    if !rest.is_empty() {
        return Err(DecodeError::Trailing(place(whole, rest)));
    }
    Ok(Image {
        globals,
        slots: head.slots,
        stack: head.stack,
        code,
    })
}

/// The image that these bytes encode, in version 1 or 2, with nothing after it.
///
/// The error is the first field that is missing or not allowed, or `Trailing` if bytes are left
/// over.
pub fn decode(alloc: Global, bytes: &[u8]) -> Result<Image, DecodeError>
    // The bytes spell the image.
    ensures found { IfOk result (λ i. Spells bytes.now (fields i)) }
    // If the bytes spell an image, it is read, unless memory runs out.
    ensures only { (f : Fields) → Spells bytes.now f → Gives fields result (Ok f) }
    // The bytes are the image's only spelling in its version, which is in byte 3.
    ensures back { IfOk result (λ i. IsOneSpelling bytes.now (fields i)) }
    // The error is the first fault, with its position, unless memory runs out.
    ensures exact { Gives fields result (spec.image_of bytes.now) }
{
    image_at(alloc, bytes.len(), bytes)
}

/// Whether two texts are the same.
fn same(a: &[u8], b: &[u8]) -> bool
    ensures { result ≡ bytes_eq a.now b.now }
{
    a == b
}
