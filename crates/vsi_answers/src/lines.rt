//! The texts of refusals, each a line that ends with a line feed.

ghost use Rattle.std.specs.Prelude.{◌≡◌, IfOk, option_map};
ghost use Rattle.vsi_answers.specs.{Files.{fault_diagnostic}, View.{diagnostic_of}};
ghost use Rattle.vsi_answers.specs.Texts as spec;

use crate::diagnostic::{Diagnostic, Fault, fault_diagnostic, line_text, refusal_diagnostic};
use std::alloc::{AllocError, Global};
use vsi_compiler::{CompileError, Source, explanation_text, walk_explanation};
use vsi_lattice::Lattice;

/// The text that is printed if memory ran out.
const OUT_OF_MEMORY: &[u8] = b"out of memory\n";

/// The line of a refusal. No refusal means that memory ran out.
fn text_of(alloc: Global, diagnostic: Option<Diagnostic>) -> Result<Vec<u8>, AllocError>
    ensures { IfOk result
        (λ text. text.items ≡ spec.text_of (option_map diagnostic_of diagnostic.entry)) }
{
    match diagnostic {
        Some(diagnostic) => line_text(alloc, &diagnostic),
        None => Vec::from_slice(alloc, OUT_OF_MEMORY),
    }
}

/// The text after the line of a refused source text.
fn following(
    alloc: Global,
    lattice: &Lattice,
    source: &[u8],
    error: &CompileError,
) -> Result<Vec<u8>, AllocError>
    ensures { IfOk result (λ more. spec.Follows lattice.now source.now error.now more.items) }
{
    match error {
        CompileError::Flow(walk) => explanation_text(alloc, lattice, source, walk),
        CompileError::Lex(_) => Ok(Vec::new(alloc)),
        CompileError::Parse(_) => Ok(Vec::new(alloc)),
        CompileError::Scope(_) => Ok(Vec::new(alloc)),
        CompileError::Memory => Ok(Vec::new(alloc)),
    }
}

/// The text of the refusal of a source text: the number and the name of the refusal, the line and
/// the column, both from 1, if it has a position, and for a refused flow the explanation of its
/// walk. Positions are computed from the source passed in, which should be the refused one. A walk
/// that isn't bad in that source isn't explained.
pub fn refusal_text(
    alloc: Global,
    lattice: &Lattice,
    source: &[u8],
    error: &CompileError,
) -> Result<Vec<u8>, AllocError>
    ensures text { IfOk result
        (λ text. spec.IsRefusalText lattice.now source.now error.now text.items) }
{
    let mut text = text_of(alloc, refusal_diagnostic(source, error))?;
    let more = following(alloc, lattice, source, error)?;
    text.extend_from_slice(&more)?;
    Ok(text)
}

/// The text after the line of a source text that was read and is refused.
fn following_in(
    alloc: Global,
    source: &Source<'_>,
    error: &CompileError,
) -> Result<Vec<u8>, AllocError>
    ensures { IfOk result (λ more. spec.Follows source.now.lattice source.now.text error.now
        more.items) }
{
    match error {
        CompileError::Flow(walk) => walk_explanation(alloc, source, walk),
        CompileError::Lex(_) => Ok(Vec::new(alloc)),
        CompileError::Parse(_) => Ok(Vec::new(alloc)),
        CompileError::Scope(_) => Ok(Vec::new(alloc)),
        CompileError::Memory => Ok(Vec::new(alloc)),
    }
}

/// The text of `refusal_text` for a source text that was read already.
pub fn refusal_text_of(
    alloc: Global,
    source: &Source<'_>,
    error: &CompileError,
) -> Result<Vec<u8>, AllocError>
    ensures text { IfOk result (λ text. spec.IsRefusalText source.now.lattice source.now.text
        error.now text.items) }
{
    let mut text = text_of(alloc, refusal_diagnostic(source.text(), error))?;
    let more = following_in(alloc, source, error)?;
    text.extend_from_slice(&more)?;
    Ok(text)
}

/// The text of the refusal of a lattice file, an image, a store file or a view: the number and the
/// name of the refusal, and its field, in decimal or, for a key of a store file, unchanged.
pub fn fault_text(alloc: Global, fault: &Fault) -> Result<Vec<u8>, AllocError>
    ensures text { IfOk result (λ text. text.items ≡ spec.text_of (fault_diagnostic fault.now)) }
{
    text_of(alloc, fault_diagnostic(fault))
}
