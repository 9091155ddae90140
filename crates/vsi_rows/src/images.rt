//! Calls about images, their bytes and their runs. An image is written in a row as
//! `GLOBALS SLOTS STACK CODE`. A global is `NAME:CLASS`; globals are separated by commas, and `-`
//! means none. An instruction is written as in a listing, and each but the last ends with `;`.

use crate::row::{Row, Wrong, byte_of};
use std::str::from_utf8;
use vsi_answers::Fault;
use vsi_image::{Image, Instr, decode, encode, listing, verify};
use vsi_machine::{Machine, bound_of};

/// The next field as globals, each by its name and its class.
fn globals(row: &mut Row<'_>) -> Result<Vec<(Vec<u8>, Vec<u8>)>, Wrong> {
    let mut globals = Vec::new(row.alloc);
    let field = row.field();
    if field != "-" {
        for part in field.split(',') {
            let (name, class) = part.split_once(':').unwrap_or((part, ""));
            let name = Vec::from_slice(row.alloc, name.as_bytes())?;
            let class = Vec::from_slice(row.alloc, class.as_bytes())?;
            globals.push((name, class))?;
        }
    }
    Ok(globals)
}

/// The instruction with this text.
fn instruction(text: &str) -> Result<Instr, Wrong> {
    let (name, operand) = text.split_once(' ').unwrap_or((text, ""));
    Ok(match name {
        "PUSH" => Instr::Push(operand.parse::<i64>()?),
        "LOAD" => Instr::Load(operand.parse::<u16>()?),
        "STORE" => Instr::Store(operand.parse::<u16>()?),
        "JZ" => Instr::Jz(u32::from(operand.parse::<u16>()?)),
        "JMP" => Instr::Jmp(u32::from(operand.parse::<u16>()?)),
        "ADD" => Instr::Add,
        "SUB" => Instr::Sub,
        "MUL" => Instr::Mul,
        "EQ" => Instr::Eq,
        "LT" => Instr::Lt,
        "HALT" => Instr::Halt,
        _ => return Err(Wrong::Row),
    })
}

/// The rest of a row as instructions; an empty text has none.
fn code(row: &mut Row<'_>) -> Result<Vec<Instr>, Wrong> {
    let text = row.text()?;
    let mut code = Vec::new(row.alloc);
    let text = from_utf8(&text).unwrap_or("");
    if !text.is_empty() {
        for part in text.split(';') {
            code.push(instruction(part.strip_prefix(' ').unwrap_or(part))?)?;
        }
    }
    Ok(code)
}

/// The rest of a row as an image.
fn image(row: &mut Row<'_>) -> Result<Image, Wrong> {
    Ok(Image {
        globals: globals(row)?,
        slots: row.small()?,
        stack: row.small()?,
        code: code(row)?,
    })
}

/// The rest of a row as bytes: pairs of hexadecimal digits, with a blank between them.
fn bytes(row: &mut Row<'_>) -> Result<Vec<u8>, Wrong> {
    let mut bytes = Vec::new(row.alloc);
    for pair in row.rest.split(' ') {
        bytes.push(byte_of(pair.as_bytes())?)?;
    }
    Ok(bytes)
}

/// `encode IMAGE`: the bytes in hexadecimal digits, 16 on a line, with a blank between every two,
/// or the limit that the image exceeds.
pub(crate) fn encoded(row: &mut Row<'_>) -> Result<(), Wrong> {
    let image = image(row)?;
    let bytes = match encode(row.alloc, &image) {
        Ok(bytes) => bytes,
        Err(error) => return row.put_line(&error),
    };
    for (place, byte) in bytes.iter().enumerate() {
        if place % 16 != 0 {
            row.put(" ")?;
        } else if place != 0 {
            row.put("\n")?;
        }
        write!(row.answer, "{byte:02x}")?;
    }
    row.put("\n")
}

/// `decode BYTES`: the listing of the image with these bytes, and then the report of its first
/// fault if it isn't valid; or the report of the fault of the bytes.
pub(crate) fn decoded(row: &mut Row<'_>) -> Result<(), Wrong> {
    let bytes = bytes(row)?;
    let image = match decode(row.alloc, &bytes) {
        Ok(image) => image,
        Err(error) => return row.put_fault(&Fault::Decode(error)),
    };
    let listed = listing(row.alloc, &image)?;
    row.put_bytes(&listed)?;
    let _verified = verify(image)?;
    Ok(())
}

/// `verify IMAGE`: whether the image is valid, or the report of its first fault.
pub(crate) fn verified(row: &mut Row<'_>) -> Result<(), Wrong> {
    let _verified = verify(image(row)?)?;
    row.put("valid\n")
}

/// `machine STORE PARTS IMAGE`: the output of each part of one run, in turn, and then the store
/// that it leaves. Commas separate the parts: a number is a run with this budget, and `t` is one
/// step with its trace line, or without one if there was none.
pub(crate) fn machine(row: &mut Row<'_>) -> Result<(), Wrong> {
    let store = row.numbers()?;
    let parts = row.field();
    let verified = verify(image(row)?)?;
    let mut machine = match Machine::new(row.alloc, &verified, &store) {
        Ok(machine) => machine,
        Err(error) => return row.put_line(&error),
    };
    for part in parts.split(',') {
        if let Ok(budget) = part.parse::<u64>() {
            let outcome = machine.run(budget);
            writeln!(row.answer, "{part}: {outcome:?}")?;
            continue;
        }
        match machine.trace_line(row.alloc)? {
            Some(line) => row.put_bytes(&line)?,
            None => row.put("no line")?,
        }
        row.put(if machine.step() {
            "\n"
        } else {
            " and no step\n"
        })?;
    }
    row.put("store")?;
    row.put_words(machine.store())
}

/// `bound IMAGE`: the number of instructions that the image can run.
pub(crate) fn bound(row: &mut Row<'_>) -> Result<(), Wrong> {
    let verified = verify(image(row)?)?;
    let bound = bound_of(row.alloc, &verified)?;
    row.put_line(&bound)
}
