//! The calls, by their names.

use crate::row::{Row, Wrong};
use crate::{compiling, images, lattices, requests, texts};
use std::alloc::Global;

/// A row with the answer to its line.
pub(crate) fn answered(alloc: Global, line: &str) -> Row<'_> {
    let mut row = Row::new(alloc, line);
    let call = row.field();
    if let Err(wrong) = answer(call, &mut row) {
        row.wrong = row.put_refusal(&wrong).err();
    }
    row
}

/// Adds the answer to a row.
fn answer(call: &str, row: &mut Row<'_>) -> Result<(), Wrong> {
    match call {
        "lex" => texts::tokens(row),
        "parse" => texts::parsed(row),
        "format" => texts::formatted(row),
        "name" => texts::name(row),
        "place" => texts::place(row),
        "place_of" => texts::position(row),
        "asked" => requests::asked(row),
        "help" => requests::help_asked(row),
        "lattice" => lattices::read(row),
        "mask" => lattices::order(row, true),
        "pair" => lattices::order(row, false),
        "encode" => images::encoded(row),
        "decode" => images::decoded(row),
        "verify" => images::verified(row),
        "machine" => images::machine(row),
        "bound" => images::bound(row),
        _ => {
            let lattice = row.lattice()?;
            match call {
                "size" => compiling::size_of(row, &lattice),
                "judge" | "sizes" | "compile" => compiling::image(row, &lattice, call),
                "classes" => compiling::classes(row, &lattice),
                "refusal" => compiling::refusal(row, &lattice),
                "run" => compiling::ran(row, &lattice),
                "drive" => compiling::driven(row, &lattice),
                "check" => compiling::typed(row, &lattice),
                "infer" => compiling::least_classes(row, &lattice),
                "walk" => compiling::walked(row, &lattice),
                _ => Err(Wrong::Row),
            }
        }
    }
}
