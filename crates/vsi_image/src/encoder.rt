//! Encodes an image to its bytes, in version 2, if it is within the limits of an image.

ghost use Rattle.std.specs.{Prelude.{◌≡◌, [], ◌≢◌, ◌<◌, ◌++◌, ◌∷◌, length, OnOk, IfOk, IfErr, All, Some, Ok}, List.{flat_map}, Option.{option_map}};
ghost use Rattle.vsi_image.specs.{Fields.{fields, globals, global, global_bytes, instr_bytes, head_bytes, string, IsAllowed, HasOpcode, HasBytes, Spells, newest_version}, declared.encoder.EncodeError.TheVariants.{Memory, Unencodable}, Limits.{first_limit}, Reading.{image_of}};
ghost use Rattle.vsi_image.specs.Limits as spec;
ghost use Rattle.vsi_image.specs.Fields as fields_spec;

use crate::decoder::is_taken;
use crate::instr::{Image, Instr};
use crate::opcodes::{self, MAGIC, VERSION};
use std::alloc::{AllocError, Global};
use thiserror::Error;
use vsi_syntax::is_name;

/// The most globals of an image.
pub(crate) const MAX_GLOBALS: u16 = 256;

/// The most slots of an image, globals included.
pub(crate) const MAX_SLOTS: u16 = 512;

/// The most operands for which an image may reserve room.
pub(crate) const MAX_OPERANDS: u16 = 256;

/// The most instructions of an image, including `Halt`.
pub(crate) const MAX_INSTRUCTIONS: u32 = 65535;

/// The most bytes of a name.
pub(crate) const MAX_NAME_LENGTH: u8 = 32;

/// A limit that an image exceeds; a number is a global's, from 0.
#[derive(Clone, Copy, PartialEq, Eq, Debug, Error)]
pub enum Limit {
    /// There are more than 256 globals.
    #[error("there are more than {limit} globals", limit = MAX_GLOBALS)]
    Globals,
    /// There are more than 512 slots, or fewer than globals.
    #[error("there are more than {limit} slots, or fewer than globals", limit = MAX_SLOTS)]
    Slots,
    /// The operand stack has room for more than 256.
    #[error("the operand stack has room for more than {limit}", limit = MAX_OPERANDS)]
    Stack,
    /// There are more than 65,535 instructions.
    #[error("there are more than {limit} instructions", limit = MAX_INSTRUCTIONS)]
    Count,
    /// The global's name is invalid, or is that of a global before it.
    #[error("the name of global {0} is none, or that of a global before it")]
    Name(usize),
    /// The name of the global's class is invalid.
    #[error("the class name of global {0} is none")]
    Class(usize),
}

/// The first global whose name or class name isn't allowed.
fn globals_limit(all: &[(Vec<u8>, Vec<u8>)]) -> Option<Limit>
    ensures { result ≡ spec.globals_limit 0 [] (globals all.now) }
{
    for i in 0..all.len() {
        let (before, rest) = all.split_at(i);
        if let [g, ..] = rest {
            if !(is_name(&g.0) && !is_taken(before, &g.0)) {
                return Some(Limit::Name(i));
            }
            if !is_name(&g.1) {
                return Some(Limit::Class(i));
            }
        }
    }
    None
}

/// The first limit that the image exceeds.
pub(crate) fn limit_of(image: &Image) -> Option<Limit>
    ensures { result ≡ spec.first_limit (fields image.now) }
{
    if image.globals.len() > MAX_GLOBALS as usize {
        Some(Limit::Globals)
    } else if image.globals.len() > image.slots as usize {
        Some(Limit::Slots)
    } else if image.slots > MAX_SLOTS {
        Some(Limit::Slots)
    } else if image.stack > MAX_OPERANDS {
        Some(Limit::Stack)
    } else if image.code.len() > MAX_INSTRUCTIONS as usize {
        Some(Limit::Count)
    } else {
        globals_limit(&image.globals)
    }
}

/// Appends a byte and the bytes after it.
fn put_behind(out: &mut Vec<u8>, byte: u8, bytes: &[u8]) -> Result<(), AllocError>
    ensures { OnOk result (out.new.items ≡ out.old.items ++ (byte ∷ bytes.now)) }
{
    out.push(byte)?;
    out.extend_from_slice(bytes)
}

/// Appends a name: its length as a byte, and its bytes.
fn put_string(out: &mut Vec<u8>, text: &[u8]) -> Result<(), AllocError>
    requires { length text.now < 256 }
    ensures { OnOk result (out.new.items ≡ out.old.items ++ string text.now) }
{
    put_behind(out, text.len() as u8, text)
}

/// Appends a global's name and the name of its class.
fn put_global(out: &mut Vec<u8>, g: &(Vec<u8>, Vec<u8>)) -> Result<(), AllocError>
    requires name { length g.now.0.items < 256 }
    requires class { length g.now.1.items < 256 }
    ensures { OnOk result (out.new.items ≡ out.old.items ++ global_bytes (global g.now)) }
{
    put_string(out, &g.0)?;
    put_string(out, &g.1)
}

/// Appends an instruction's opcode and its operand, big endian.
fn put_instr(out: &mut Vec<u8>, instr: Instr) -> Result<(), AllocError>
    ensures { OnOk result (out.new.items ≡ out.old.items ++ instr_bytes instr) }
{
    match instr {
        Instr::Push(n) => put_behind(out, opcodes::PUSH, &n.to_be_bytes()),
        Instr::Load(s) => put_behind(out, opcodes::LOAD, &s.to_be_bytes()),
        Instr::Store(s) => put_behind(out, opcodes::STORE, &s.to_be_bytes()),
        Instr::Add => put_behind(out, opcodes::ADD, &[]),
        Instr::Sub => put_behind(out, opcodes::SUB, &[]),
        Instr::Eq => put_behind(out, opcodes::EQ, &[]),
        Instr::Lt => put_behind(out, opcodes::LT, &[]),
        Instr::Jz(t) => put_behind(out, opcodes::JZ, &t.to_be_bytes()),
        Instr::Jmp(t) => put_behind(out, opcodes::JMP, &t.to_be_bytes()),
        Instr::Halt => put_behind(out, opcodes::HALT, &[]),
        Instr::Mul => put_behind(out, opcodes::MUL, &[]),
    }
}

/// Appends the globals.
fn put_globals(out: &mut Vec<u8>, all: &[(Vec<u8>, Vec<u8>)]) -> Result<(), AllocError>
    requires { All (λ g. (length g.0.items < 256) × (length g.1.items < 256)) all.now }
    ensures { OnOk result
        (out.new.items ≡ out.old.items ++ flat_map global_bytes (globals all.now)) }
{
    for g in all {
        put_global(out, g)?;
    }
    Ok(())
}

/// The type bounds an instruction's operand.
fn known(instr: Instr)
    ensures { HasOpcode newest_version instr }
{
    match instr {
        Instr::Push(_n) => {}
        Instr::Load(_s) => {}
        Instr::Store(_s) => {}
        Instr::Add => {}
        Instr::Sub => {}
        Instr::Mul => {}
        Instr::Eq => {}
        Instr::Lt => {}
        Instr::Jz(_t) => {}
        Instr::Jmp(_t) => {}
        Instr::Halt => {}
    }
}

/// The type bounds the operands of all instructions of a code.
fn known_all(code: &[Instr])
    ensures { All (HasOpcode newest_version) code.now }
{
    for instr in code {
        known(*instr);
    }
}

/// Appends the instructions.
fn put_code(out: &mut Vec<u8>, code: &[Instr]) -> Result<(), AllocError>
    ensures { OnOk result (out.new.items ≡ out.old.items ++ flat_map instr_bytes code.now) }
{
    for instr in code {
        put_instr(out, *instr)?;
    }
    Ok(())
}

/// Appends the fields before the globals.
fn put_head(
    out: &mut Vec<u8>,
    globals: u16,
    slots: u16,
    stack: u16,
    count: u32,
) -> Result<(), AllocError>
    ensures { OnOk result
        (out.new.items ≡ out.old.items ++ head_bytes 2 globals slots stack count) }
{
    out.extend_from_slice(&MAGIC)?;
    out.push(VERSION)?;
    out.extend_from_slice(&globals.to_be_bytes())?;
    out.extend_from_slice(&slots.to_be_bytes())?;
    out.extend_from_slice(&stack.to_be_bytes())?;
    out.extend_from_slice(&count.to_be_bytes())?;
    Ok(())
}

/// The bytes of an image that is within its limits.
fn bytes_of(alloc: Global, image: &Image) -> Result<Vec<u8>, AllocError>
    requires { IsAllowed (fields image.now) }
    ensures bytes { IfOk result (λ b. b.items ≡ fields_spec.bytes_of newest_version (fields
        image.now)) }
    ensures fits { OnOk result (HasBytes newest_version (fields image.now)) }
{
    known_all(&image.code);
    let mut out = Vec::new(alloc);
    put_head(
        &mut out,
        image.globals.len() as u16,
        image.slots,
        image.stack,
        image.code.len() as u32,
    )?;
    put_globals(&mut out, &image.globals)?;
    put_code(&mut out, &image.code)?;
    Ok(out)
}

/// Why an image was not encoded.
#[derive(Clone, Copy, PartialEq, Eq, Debug, Error)]
pub enum EncodeError {
    /// Memory ran out for the bytes.
    #[error("out of memory")]
    Memory,
    /// The image exceeds this limit, the first one that it exceeds.
    #[error("the image is past a limit: {0}")]
    Unencodable(Limit),
}

impl From<AllocError> for EncodeError {
    ghost from_gives = { λ _ e. e ≡ Memory };

    fn from(_e: AllocError) -> EncodeError {
        EncodeError::Memory
    }
}

/// The bytes of the image, in version 2, or the first limit that it exceeds.
pub fn encode(alloc: Global, image: &Image) -> Result<Vec<u8>, EncodeError>
    // The bytes are the image's in version 2.
    ensures bytes { IfOk result (λ b. b.items ≡ fields_spec.bytes_of newest_version (fields
        image.now)) }
    // An image that is encoded is within its limits.
    ensures allowed { OnOk result (IsAllowed (fields image.now)) }
    // The error is the first limit, unless memory ran out.
    ensures first { IfErr result
        (λ e. e ≢ Memory → option_map Unencodable (first_limit (fields image.now)) ≡ Some e) }
    // The bytes spell the image, and reading them gives the same image.
    ensures spelled { IfOk result (λ b. Spells b.items (fields image.now)) }
    ensures read { IfOk result (λ b. image_of b.items ≡ Ok (fields image.now)) }
{
    if let Some(limit) = limit_of(image) {
        return Err(EncodeError::Unencodable(limit));
    }
    Ok(bytes_of(alloc, image)?)
}
