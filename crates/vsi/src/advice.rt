//! The explanation that follows the refusal of an interface, of a setting, of a judged image, or of
//! a text whose image isn't steady: where it is wrong, what belongs there, and what to do.
//!
//! Its sentences are free text. `advice` passes them to `vsi_telling::shown`, whose clause says
//! that no byte of a file controls a terminal.
ghost use Rattle.std.specs.Prelude.{◌≡◌, IfOk, true};
ghost use Rattle.vsi_telling.specs.{declared.place.ColourMode.TheVariants.{Plain}, Safe.{all_plain}};

mod images;
mod interface_tables;
mod interfaces;
mod starts;

use crate::advice::images::{Judged, of_shared};
use crate::advice::interfaces::of_interface;
use crate::advice::starts::of_start;
use std::alloc::{AllocError, Global};
use vsi_audit::AuditError;
use vsi_conform::InterfaceError;
use vsi_drive::StartFault;
use vsi_image::Image;
use vsi_lattice::Lattice;
use vsi_steady::SteadyError;
use vsi_telling::{ColourMode, Telling, shown};

/// Why a file or an image is refused.
#[derive(Clone, Copy)]
pub(crate) enum Refusal<'a> {
    /// An interface file, with the lattice of the file that it names, if that was read.
    Interface(Option<&'a Lattice>, &'a InterfaceError),
    /// A run of an image that doesn't begin: for a setting or a list of names, or for a global that
    /// has no word.
    Start(&'a Image, StartFault),
    /// An image whose commands are judged.
    Audit(&'a Lattice, &'a Image, &'a AuditError),
    /// An image that should be steady.
    Steady(&'a Lattice, &'a Image, &'a SteadyError),
    /// A source text whose flows are allowed, but whose image isn't steady.
    Text(&'a Lattice, &'a SteadyError),
}

/// The explanation that follows a refusal: the position in the file with this path, its line and
/// carets if the position is known, and then, in whole sentences of at most 80 columns, what is
/// wrong, what is expected, and what to do. Positions refer to these bytes; an image has none.
pub(crate) fn advice(
    alloc: Global,
    mode: ColourMode,
    path: &[u8],
    bytes: &[u8],
    reason: Refusal<'_>,
) -> Result<Vec<u8>, AllocError>
    // Without colours no byte controls a terminal.
    ensures plain { mode ≡ Plain → IfOk result (λ text. all_plain text.items ≡ true) }
{
    let mut telling = Telling::new(alloc, path, bytes);
    let place = match reason {
        Refusal::Interface(lattice, error) => of_interface(&mut telling, lattice, error)?,
        Refusal::Start(image, fault) => of_start(&mut telling, image, fault)?,
        Refusal::Text(lattice, error) => of_shared(&mut telling, lattice, error)?,
        Refusal::Audit(lattice, image, error) => {
            Judged { lattice, image }.of_audit(&mut telling, error)?
        }
        Refusal::Steady(lattice, image, error) => {
            Judged { lattice, image }.of_steady(&mut telling, error)?
        }
    };
    shown(alloc, mode, path, bytes, place, &telling.words)
}
