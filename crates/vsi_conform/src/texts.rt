//! The lines of a refusal and of the rows of an answer.

ghost use Rattle.std.specs.{Prelude.{◌≡◌, ◌++◌, codes, decimal, map, option_map, IfOk, OnOk}, Fmt.{signed_decimal}, List.{flat_map}};
ghost use Rattle.vsi_conform.specs.Rows.{row};
ghost use Rattle.vsi_conform.specs.Rows as rows_spec;
ghost use Rattle.vsi_conform.specs.Lines as spec;

use crate::conforming::declarations;
use crate::interface::{Answer, Interface, Judgement};
use crate::rows::{Detail, Judged, Kind, Row, rows_of};
use std::alloc::{AllocError, Global};
use vsi_answers::{
    image_text, image_text_of, looped_text, looped_text_of, refusal_text, refusal_text_of,
};
use vsi_compiler::{CompileError, Source};
use vsi_lattice::Lattice;
use vsi_steady::UnsteadyError;
use vsi_syntax::{put_line_column, put_number, put_word};

/// Adds some texts.
pub fn put_parts(text: &mut Vec<u8>, parts: &[&[u8]]) -> Result<(), AllocError>
    ensures { OnOk result (text.new.items ≡ text.old.items ++ flat_map (λ p. p.now) parts.now) }
{
    for part in parts {
        text.extend_from_slice(part)?;
    }
    Ok(())
}

/// The lines of the refusal of a text. If a steady image is required, a flow is reported as it is
/// judged there.
pub fn refusal_lines(
    alloc: Global,
    lattice: &Lattice,
    text: &[u8],
    error: &UnsteadyError,
    is_steady: bool,
) -> Result<Vec<u8>, AllocError>
    ensures lines { IfOk result (λ lines. spec.IsRefusalLines lattice.now text.now is_steady
        error.now lines.items) }
{
    match error {
        UnsteadyError::Compile(error) => match error {
            CompileError::Flow(walk) if is_steady => looped_text(alloc, lattice, text, walk),
            _ => refusal_text(alloc, lattice, text, error),
        },
        UnsteadyError::Image(error) => image_text(alloc, lattice, text, error),
        UnsteadyError::Memory => Err(AllocError),
    }
}

/// The lines of `refusal_lines` for a source text that was read already.
pub fn refusal_lines_of(
    alloc: Global,
    source: &Source<'_>,
    error: &UnsteadyError,
    is_steady: bool,
) -> Result<Vec<u8>, AllocError>
    ensures lines { IfOk result (λ lines. spec.IsRefusalLines source.now.lattice source.now.text
        is_steady error.now lines.items) }
{
    match error {
        UnsteadyError::Compile(error) => match error {
            CompileError::Flow(walk) if is_steady => looped_text_of(alloc, source, walk),
            _ => refusal_text_of(alloc, source, error),
        },
        UnsteadyError::Image(error) => image_text_of(alloc, source, error),
        UnsteadyError::Memory => Err(AllocError),
    }
}

/// Whether the image must be steady.
pub(crate) fn is_steady(judgement: Judgement) -> bool
    ensures { result ≡ spec.is_steady judgement }
{
    matches!(judgement, Judgement::Steady)
}

/// The rows of an answer about a text. Names, lines and columns come from the given lattice, text
/// and interface, which must be those of the answer.
pub fn text_rows(
    alloc: Global,
    lattice: &Lattice,
    text: &[u8],
    interface: &Interface,
    answer: &Answer,
) -> Result<Vec<Row>, AllocError>
    ensures rows { IfOk result (λ found. spec.AreTextRows lattice.now text.now interface.now
        answer.now (map row found.items)) }
{
    let declared = declarations(alloc, text)?;
    let steady = is_steady(interface.judgement);
    let lines = match &answer.refusal {
        Some(error) => Some(refusal_lines(alloc, lattice, text, error, steady)?),
        None => None,
    };
    let judged = Judged::Text(text, &declared);
    let found = rows_of(
        alloc,
        &judged,
        interface,
        &lines,
        &answer.points,
        &answer.unbounded,
    )?;
    Ok(found)
}

/// Adds a text and then a number.
pub(crate) fn put_counted(text: &mut Vec<u8>, words: &[u8], number: usize) -> Result<(), AllocError>
    ensures { OnOk result (text.new.items ≡ text.old.items ++ words.now ++ decimal number) }
{
    text.extend_from_slice(words)?;
    put_number(text, number)
}

/// Adds the class of a global. A point about the order names none.
fn put_class(text: &mut Vec<u8>, kind: Kind, class: &[u8]) -> Result<(), AllocError>
    ensures { OnOk result (text.new.items ≡ text.old.items ++ spec.class_text kind class.now) }
{
    match kind {
        Kind::Order => Ok(()),
        _ => put_parts(text, &[b" : ", class]),
    }
}

/// Adds a global with its class, and what is expected in its place.
fn put_global(
    text: &mut Vec<u8>,
    kind: Kind,
    name: &[u8],
    class: &[u8],
    expected: &Option<Vec<u8>>,
) -> Result<(), AllocError>
    ensures { OnOk result (text.new.items ≡ text.old.items ++ spec.global_text kind name.now
        class.now (option_map (λ e. e.items) expected.now)) }
{
    text.extend_from_slice(kind.word())?;
    put_parts(text, &[b" ", name])?;
    put_class(text, kind, class)?;
    if let Some(expected) = expected {
        put_parts(text, &[b", expected ", expected])?;
    }
    text.extend_from_slice(b"\n")
}

/// Adds the number of a run.
fn put_run(text: &mut Vec<u8>, run: usize) -> Result<(), AllocError>
    ensures { OnOk result (text.new.items ≡ text.old.items ++ spec.run_text run) }
{
    put_counted(text, b"run ", run)
}

/// Adds the word of a global after a run, or that there is no such global.
fn put_found(text: &mut Vec<u8>, name: &[u8], found: Option<i64>) -> Result<(), AllocError>
    ensures { OnOk result (text.new.items ≡ text.old.items ++ spec.found_text name.now found) }
{
    match found {
        Some(word) => {
            put_parts(text, &[b" ", name, b" = "])?;
            put_word(text, word)
        }
        None => put_parts(text, &[b" no ", name]),
    }
}

/// Adds a run that doesn't halt, and its budget.
fn put_spent(text: &mut Vec<u8>, run: usize, budget: Option<u64>) -> Result<(), AllocError>
    ensures { OnOk result (text.new.items ≡ text.old.items ++ spec.run_text run
        ++ codes " out of budget " ++ spec.budget_text budget ++ codes "\n") }
{
    put_run(text, run)?;
    text.extend_from_slice(b" out of budget ")?;
    if let Some(budget) = budget {
        put_number(text, budget as usize)?;
    }
    text.extend_from_slice(b"\n")
}

/// Adds a run, a name with the word that is found for it, and the word that is expected.
fn put_ended(
    text: &mut Vec<u8>,
    run: usize,
    name: &[u8],
    expected: i64,
    found: Option<i64>,
) -> Result<(), AllocError>
    ensures { OnOk result (text.new.items ≡ text.old.items ++ spec.run_text run
        ++ spec.found_text name.now found ++ codes ", expected " ++ signed_decimal expected
        ++ codes "\n") }
{
    put_run(text, run)?;
    put_found(text, name, found)?;
    text.extend_from_slice(b", expected ")?;
    put_word(text, expected)?;
    text.extend_from_slice(b"\n")
}

/// Adds what a point of this kind says.
fn put_detail(text: &mut Vec<u8>, kind: Kind, detail: &Detail) -> Result<(), AllocError>
    ensures { OnOk result (text.new.items
        ≡ text.old.items ++ spec.detail_text kind (rows_spec.detail detail.now)) }
{
    match detail {
        Detail::Lines(lines) => text.extend_from_slice(lines),
        Detail::Global {
            name,
            class,
            expected,
        } => put_global(text, kind, name, class, expected),
        Detail::Budget { run, budget } => put_spent(text, *run, *budget),
        Detail::Word {
            run,
            name,
            expected,
            found,
        } => put_ended(text, *run, name, *expected, *found),
    }
}

/// Adds the line, or the lines, of a row.
pub fn put_row(text: &mut Vec<u8>, point: &Row) -> Result<(), AllocError>
    ensures line { OnOk result (text.new.items ≡ text.old.items ++ spec.line (row point.now)) }
{
    if let Some((line, column)) = point.place {
        put_line_column(text, line, column)?;
        text.extend_from_slice(b" ")?;
    }
    put_detail(text, point.kind, &point.detail)
}
