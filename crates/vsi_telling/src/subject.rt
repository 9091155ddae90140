//! The source text that is explained: its variables in sentences, and its explanation as it is
//! gathered.

ghost use Rattle.std.specs.{Prelude.{◌≡◌, IfOk, IfSome, true}, List.{All}};
ghost use Rattle.vsi_lattice.specs.{Order.{IsClass}, LatticeView.{order}};
ghost use Rattle.vsi_types.specs.Security.{program as program_of};
ghost use Rattle.vsi_infer.specs.Inference.{AreClasses};
ghost use Rattle.vsi_telling.specs.{declared.place.ColourMode.TheVariants.{Plain}, Safe.{all_plain}};

use crate::place::{ColourMode, put_place_in, put_text};
use crate::telling::{Part, say};
use std::alloc::{AllocError, Global};
use vsi_compiler::Source;
use vsi_infer::{declared_class, variable_name};
use vsi_lattice::{Class, Classes, Lattice};
use vsi_scope::{Resolved, Var};
use vsi_syntax::Span;
use vsi_types::LOOP;

/// A piece of an explanation: sentences, or a part of the text.
#[derive(Drop)]
enum Piece {
    Words(Vec<u8>),
    Place(Span),
}

/// A source text, its path, and its explanation so far.
#[derive(Drop)]
pub(crate) struct Subject<'p, 's> {
    pub(crate) alloc: Global,
    pub(crate) path: &'p [u8],
    pub(crate) source: &'p Source<'s>,
    pieces: Vec<Piece>,
}

/// The name of the class with which a variable is declared; the ending of loops has the lowest one.
fn class_in<'l>(lattice: &'l Lattice, program: &Resolved<'_>, variable: Var) -> Option<&'l [u8]>
    requires globals { All (IsClass (order lattice.now)) (program_of program.now).globals }
    requires declared { AreClasses (order lattice.now) (program_of program.now).declared }
{
    let class = declared_class(lattice, program, variable)?;
    Some(lattice.name(class))
}

/// The least class at or above that of the target to which the source may flow. The ending of loops
/// has its class from the lattice.
fn raised_in(lattice: &Lattice, program: &Resolved<'_>, source: Var, target: Var) -> Option<Class>
    requires globals { All (IsClass (order lattice.now)) (program_of program.now).globals }
    requires declared { AreClasses (order lattice.now) (program_of program.now).declared }
    ensures within { IfSome result (IsClass (order lattice.now)) }
{
    if target == LOOP {
        return None;
    }
    let low = declared_class(lattice, program, source)?;
    let high = declared_class(lattice, program, target)?;
    Some(lattice.join(low, high))
}

impl<'p, 's> Subject<'p, 's> {
    /// A source text about which nothing is said yet.
    pub(crate) fn new(alloc: Global, path: &'p [u8], source: &'p Source<'s>) -> Self {
        Subject {
            alloc,
            path,
            source,
            pieces: Vec::new(alloc),
        }
    }

    /// Adds a sentence, with a part in place of each `%`.
    pub(crate) fn say(&mut self, sentence: &str, parts: &[Part<'_>]) -> Result<(), AllocError> {
        let mut words = Vec::new(self.alloc);
        say(&mut words, sentence, parts)?;
        Ok(self.pieces.push(Piece::Words(words))?)
    }

    /// Adds a place of the text, with its line and carets.
    pub(crate) fn show(&mut self, span: Span) -> Result<(), AllocError> {
        Ok(self.pieces.push(Piece::Place(span))?)
    }

    /// The explanation as text.
    pub(crate) fn shown(&self, mode: ColourMode) -> Result<Vec<u8>, AllocError>
        ensures { mode ≡ Plain → IfOk result (λ text. all_plain text.items ≡ true) }
    {
        let (path, bytes) = (self.path, self.source.text());
        let mut text = Vec::new(self.alloc);
        for piece in &self.pieces {
            match piece {
                Piece::Words(words) => put_text(&mut text, words)?,
                Piece::Place(span) => {
                    put_place_in(&mut text, mode, path, bytes, span.start, span.stop)?;
                }
            }
        }
        Ok(text)
    }

    /// A variable as a sentence names it.
    pub(crate) fn name(&self, variable: Var) -> Part<'p> {
        if variable == LOOP {
            return Part::Text(b"the ending of loops");
        }
        Part::Quoted(variable_name(self.source.resolved(), variable))
    }

    /// The name of the class with which a variable is declared.
    pub(crate) fn declared(&self, variable: Var) -> Option<&'p [u8]> {
        let lattice = self.source.lattice();
        let resolved = self.source.resolved();
        class_in(lattice, resolved, variable)
    }

    /// The name of the least class at or above that of the target to which the source may flow.
    pub(crate) fn raised(&self, source: Var, target: Var) -> Option<&'p [u8]> {
        let lattice = self.source.lattice();
        let resolved = self.source.resolved();
        let class = raised_in(lattice, resolved, source, target)?;
        Some(lattice.name(class))
    }
}
