//! The explanation that follows the refusal of a file: where it is wrong, what is there, what could
//! be there, and what to do.
//!
//! A sentence is a text with holes and the parts for them (`say`). Given a path, a text and a part
//! of it, `put_place_in` writes `PATH:LINE:COLUMN`, the line of the text, and carets below that
//! part. Every byte of a path or a text is written by `put_safe`, whose clause `printable` says
//! that it can't control a terminal; the clauses `plain` say the same of whole answers.
//!
//! To be believed: all files of `specs/`.
#![tactic(auto)]

ghost use Rattle.std.specs.Prelude.{◌≡◌, IfOk, true};
ghost use Rattle.vsi_telling.specs.{declared.place.ColourMode.TheVariants.{Plain}, Safe.{all_plain}};

mod flows;
mod images;
mod lattices;
mod orders;
mod parts;
mod place;
mod source;
mod subject;
mod syntactic;
mod telling;

pub use flows::flows_explanation;
pub use parts::{
    array_in, class_names, has_text, key_place, line_place, part_of, quoted_place, span_at,
    table_classes, table_in, texts_in,
};
pub use place::{ColourMode, put_place_in, put_safe, put_text};
use source::place_of;
use std::alloc::{AllocError, Global};
use telling::wrapped;
pub use telling::{Part, Telling, Told, say};
use vsi_answers::Fault;
use vsi_compiler::CompileError;
use vsi_image::Image;
use vsi_lattice::Lattice;
use vsi_store::StoreError;
use vsi_syntax::Span;

/// Why a file is refused.
#[derive(Clone, Copy)]
pub enum Reason<'a> {
    /// A source text over a lattice.
    Source(&'a Lattice, &'a CompileError),
    /// A store file for an image.
    Store(&'a Image, &'a StoreError),
    /// A lattice file, an image, or another file.
    File(&'a Fault),
}

/// A place of a file and words as text: a line is at most 80 columns long. Without a place only the
/// path is shown.
pub fn shown(
    alloc: Global,
    mode: ColourMode,
    path: &[u8],
    bytes: &[u8],
    place: Option<Span>,
    words: &[u8],
) -> Result<Vec<u8>, AllocError>
    ensures plain { mode ≡ Plain → IfOk result (λ text. all_plain text.items ≡ true) }
{
    let lines = wrapped(alloc, words)?;
    let mut text = Vec::new(alloc);
    match place {
        Some(span) => put_place_in(&mut text, mode, path, bytes, span.start, span.stop)?,
        None => {
            put_safe(&mut text, path)?;
            put_text(&mut text, b":\n")?;
        }
    }
    put_text(&mut text, &lines)?;
    Ok(text)
}

/// The explanation of a refused source text, as `explanation` writes it.
pub fn source_explanation(
    alloc: Global,
    mode: ColourMode,
    path: &[u8],
    lattice: &Lattice,
    source: &[u8],
    error: &CompileError,
) -> Result<Vec<u8>, AllocError>
    ensures plain { mode ≡ Plain → IfOk result (λ text. all_plain text.items ≡ true) }
{
    let reason = Reason::Source(lattice, error);
    explanation(alloc, mode, path, source, reason)
}

/// The explanation that follows the refusal of the file with this path and these bytes: the place
/// in the file, its line and carets where a place is known, then in whole sentences of at most 80
/// columns what is there, what could be there, and what to do. For `CompileError::Flow` it says
/// only that a flow breaks the policy.
pub fn explanation(
    alloc: Global,
    mode: ColourMode,
    path: &[u8],
    bytes: &[u8],
    reason: Reason<'_>,
) -> Result<Vec<u8>, AllocError>
    ensures plain { mode ≡ Plain → IfOk result (λ text. all_plain text.items ≡ true) }
{
    let mut telling = Telling::new(alloc, path, bytes);
    let place = match reason {
        Reason::Source(lattice, error) => {
            telling.put_source(lattice, error)?;
            place_of(error)
        }
        Reason::Store(image, error) => telling.put_store(&image.globals, error)?,
        Reason::File(fault) => telling.put_file(fault)?,
    };
    shown(alloc, mode, path, bytes, place, &telling.words)
}

/// The classes of a lattice in a sentence, for who named one that it lacks.
pub fn class_list(alloc: Global, lattice: &Lattice) -> Result<Vec<u8>, AllocError>
    ensures plain { IfOk result (λ text. all_plain text.items ≡ true) }
{
    let classes = class_names(alloc, lattice)?;
    let mut words = Vec::new(alloc);
    let parts = [Part::Names(&classes)];
    say(&mut words, "The classes of the lattice file: %.\n", &parts)?;
    let sentence = wrapped(alloc, &words)?;
    let mut text = Vec::new(alloc);
    put_text(&mut text, &sentence)?;
    Ok(text)
}
