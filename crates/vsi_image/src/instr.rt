//! Instructions and images, their effects on operands, and their texts.

ghost use Rattle.std.specs.{Prelude.{◌≡◌, ◌≤◌, ◌++◌, OnOk, IfOk, codes, decimal, if◌then◌else◌, is_ok}, Fmt.{signed_decimal}, List.{flat_map}};
ghost use Rattle.vsi_image.specs.Fields.{fields, global, globals};
ghost use Rattle.vsi_image.specs.Effects as spec;
ghost use Rattle.vsi_image.specs.Listing as listing_spec;

use itoa::Buffer;
use std::alloc::{AllocError, Global};
use vsi_syntax::put_number;

/// One instruction of the stack machine.
///
/// An instruction that takes two operands has the top of the stack on its right and the word below
/// it on its left. All instructions continue to the next one, except a `Jz` that jumps, a `Jmp` and
/// a `Halt`.
#[derive(Clone, Copy, PartialEq, Eq, Debug)]
pub enum Instr {
    /// Pushes this number.
    Push(i64),
    /// Pushes the word of this slot.
    Load(u16),
    /// Pops a word into this slot.
    Store(u16),
    /// Pops two words and pushes their wrapping sum.
    Add,
    /// Pops two words and pushes their wrapping difference.
    Sub,
    /// Pops two words and pushes their wrapping product.
    Mul,
    /// Pops two words and pushes 1 if they are equal, else 0.
    Eq,
    /// Pops two words and pushes 1 if the left one is less as a signed number, else 0.
    Lt,
    /// Pops a word and goes to the instruction with this number if the word is 0.
    Jz(u32),
    /// Goes to the instruction with this number.
    Jmp(u32),
    /// Ends the run.
    Halt,
}

/// A program of the stack machine. Its numbers may exceed their limits: `encode` and `verify` check
/// them.
#[derive(PartialEq, Eq, Debug, Drop)]
pub struct Image {
    /// The name of each global and the name of its class, at most 256 globals.
    pub globals: Vec<(Vec<u8>, Vec<u8>)>,
    /// The number of slots, the globals first: at least one per global, at most 512.
    pub slots: u16,
    /// The number of operands for which the stack has room, at most 256.
    pub stack: u16,
    /// The instructions, numbered from 0, at most 65,535.
    pub code: Vec<Instr>,
}

/// The number of operands that the instruction takes.
pub(crate) fn takes(instr: Instr) -> usize
    ensures { result ≡ spec.takes instr }
{
    match instr {
        Instr::Push(_) | Instr::Load(_) | Instr::Jmp(_) | Instr::Halt => 0,
        Instr::Store(_) | Instr::Jz(_) => 1,
        Instr::Add | Instr::Sub | Instr::Mul | Instr::Eq | Instr::Lt => 2,
    }
}

/// The number of operands that the instruction gives.
pub(crate) fn gives(instr: Instr) -> usize
    ensures { result ≡ spec.gives instr }
{
    match instr {
        Instr::Store(_) | Instr::Jz(_) | Instr::Jmp(_) | Instr::Halt => 0,
        Instr::Push(_)
        | Instr::Load(_)
        | Instr::Add
        | Instr::Sub
        | Instr::Mul
        | Instr::Eq
        | Instr::Lt => 1,
    }
}

/// The slot that the instruction names.
pub(crate) fn slot_of(instr: Instr) -> Option<u16>
    ensures { result ≡ spec.slot_of instr }
{
    match instr {
        Instr::Load(slot) | Instr::Store(slot) => Some(slot),
        _ => None,
    }
}

/// The target to which the instruction may jump.
pub(crate) fn target_of(instr: Instr) -> Option<u32>
    ensures { result ≡ spec.target_of instr }
{
    match instr {
        Instr::Jz(target) | Instr::Jmp(target) => Some(target),
        _ => None,
    }
}

/// Whether the instruction must leave no operands: a jump or a halt.
pub(crate) fn leaves_none(instr: Instr) -> bool
    ensures { result ≡ spec.leaves_none instr }
{
    matches!(instr, Instr::Jz(_) | Instr::Jmp(_) | Instr::Halt)
}

/// Whether the instruction never continues to the next one.
pub(crate) fn goes_off(instr: Instr) -> bool
    ensures { result ≡ spec.goes_off instr }
{
    matches!(instr, Instr::Jmp(_) | Instr::Halt)
}

/// The depth at the next instruction.
pub(crate) fn depth_after(depth: usize, instr: Instr) -> usize
    requires operands { spec.takes instr ≤ depth }
    requires small { depth ≤ 65535 }
    ensures { result ≡ spec.depth_after depth instr }
{
    if goes_off(instr) {
        0
    } else {
        depth - takes(instr) + gives(instr)
    }
}

/// Appends a mnemonic and its operand, or neither.
fn put_both(out: &mut Vec<u8>, word: &[u8], operand: &[u8]) -> Result<(), AllocError>
    ensures { out.new.items
        ≡ (if is_ok result then out.old.items ++ word.now ++ operand.now else out.old.items) }
{
    let before = out.len();
    out.extend_from_slice(word)?;
    let added = out.extend_from_slice(operand);
    if added.is_err() {
        out.truncate(before);
    }
    added
}

/// Appends a mnemonic and a number in decimal, or neither.
fn put_natural(out: &mut Vec<u8>, word: &[u8], n: u32) -> Result<(), AllocError>
    ensures { out.new.items
        ≡ (if is_ok result then out.old.items ++ word.now ++ decimal n else out.old.items) }
{
    let mut buffer = Buffer::new();
    put_both(out, word, buffer.format(n).as_bytes())
}

/// Appends the text of a push of this machine word, or nothing.
fn put_push(out: &mut Vec<u8>, n: i64) -> Result<(), AllocError>
    ensures { out.new.items ≡ (if is_ok result
        then out.old.items ++ codes "PUSH " ++ signed_decimal n else out.old.items) }
{
    let mut buffer = Buffer::new();
    put_both(out, b"PUSH ", buffer.format(n).as_bytes())
}

impl Instr {
    /// Appends the text of the instruction: its mnemonic, and its operand in decimal, as in `LOAD
    /// 0` or `PUSH -5`. If memory runs out, the text is unchanged.
    pub fn write_to(self, out: &mut Vec<u8>) -> Result<(), AllocError>
        ensures { out.new.items
            ≡ (if is_ok result then out.old.items ++ listing_spec.instr_text self else
            out.old.items) }
    {
        match self {
            Instr::Push(n) => put_push(out, n),
            Instr::Load(s) => put_natural(out, b"LOAD ", s as u32),
            Instr::Store(s) => put_natural(out, b"STORE ", s as u32),
            Instr::Add => out.extend_from_slice(b"ADD"),
            Instr::Sub => out.extend_from_slice(b"SUB"),
            Instr::Mul => out.extend_from_slice(b"MUL"),
            Instr::Eq => out.extend_from_slice(b"EQ"),
            Instr::Lt => out.extend_from_slice(b"LT"),
            Instr::Jz(t) => put_natural(out, b"JZ ", t),
            Instr::Jmp(t) => put_natural(out, b"JMP ", t),
            Instr::Halt => out.extend_from_slice(b"HALT"),
        }
    }
}

/// Appends the line of an instruction.
fn put_line(out: &mut Vec<u8>, pc: usize, instr: Instr) -> Result<(), AllocError>
    ensures { OnOk result (out.new.items ≡ out.old.items ++ listing_spec.instr_line pc instr) }
{
    put_number(out, pc)?;
    out.extend_from_slice(b": ")?;
    instr.write_to(out)?;
    out.extend_from_slice(b"\n")?;
    Ok(())
}

/// Appends the lines of the instructions.
fn put_code(out: &mut Vec<u8>, code: &[Instr]) -> Result<(), AllocError>
    ensures { OnOk result (out.new.items ≡ out.old.items ++ listing_spec.code_lines 0 code.now) }
{
    for (pc, instr) in code.iter().enumerate() {
        put_line(out, pc, *instr)?;
    }
    Ok(())
}

/// Appends the line of a global.
fn put_global(out: &mut Vec<u8>, g: &(Vec<u8>, Vec<u8>)) -> Result<(), AllocError>
    ensures { OnOk result (out.new.items ≡ out.old.items ++ listing_spec.global_line (global
        g.now)) }
{
    out.extend_from_slice(&g.0)?;
    out.extend_from_slice(b" : ")?;
    out.extend_from_slice(&g.1)?;
    out.extend_from_slice(b"\n")?;
    Ok(())
}

/// Appends the lines of the globals.
fn put_globals(out: &mut Vec<u8>, all: &[(Vec<u8>, Vec<u8>)]) -> Result<(), AllocError>
    ensures { OnOk result
        (out.new.items ≡ out.old.items ++ flat_map listing_spec.global_line (globals all.now)) }
{
    for g in all {
        put_global(out, g)?;
    }
    Ok(())
}

/// Appends a line with a label and a number.
fn put_number_line(out: &mut Vec<u8>, word: &[u8], n: usize) -> Result<(), AllocError>
    ensures { OnOk result (out.new.items ≡ out.old.items ++ listing_spec.number_line word.now n) }
{
    out.extend_from_slice(word)?;
    put_number(out, n)?;
    out.extend_from_slice(b"\n")?;
    Ok(())
}

/// The image as text: one line each for the number of globals, of slots and of operands, then one
/// line per global and one line per instruction.
pub fn listing(alloc: Global, image: &Image) -> Result<Vec<u8>, AllocError>
    ensures { IfOk result (λ text. text.items ≡ listing_spec.listing (fields image.now)) }
{
    let mut out = Vec::new(alloc);
    put_number_line(&mut out, b"globals ", image.globals.len())?;
    put_number_line(&mut out, b"slots ", image.slots as usize)?;
    put_number_line(&mut out, b"stack ", image.stack as usize)?;
    put_globals(&mut out, &image.globals)?;
    put_code(&mut out, &image.code)?;
    Ok(out)
}
