//! The report about an image that isn't steady.

ghost use Rattle.std.specs.{Prelude.{◌≡◌, ◌++◌, IfOk, OnOk}, List.{flat_map}};
ghost use Rattle.vsi_image.specs.Fields.{globals};
ghost use Rattle.vsi_steady.specs.Telling as spec;

use crate::chain::{Step, chain_to};
use crate::check::SteadyError;
use std::alloc::{AllocError, Global};
use vsi_image::Image;
use vsi_lattice::{Classes, Lattice};
use vsi_syntax::put_number;

/// Adds the name of a global, `slot` and the number of any other slot, or `(jump)`.
fn put_name(out: &mut Vec<u8>, image: &Image, end: Option<u16>) -> Result<(), AllocError>
    ensures { OnOk result (out.new.items
        ≡ out.old.items ++ spec.end_name (globals image.now.globals.items) end) }
{
    let Some(slot) = end else {
        return out.extend_from_slice(b"(jump)");
    };
    match image.globals.get(slot as usize) {
        Some(global) => out.extend_from_slice(&global.0),
        None => {
            out.extend_from_slice(b"slot ")?;
            put_number(out, slot as usize)
        }
    }
}

/// Adds the class name of a global, or the name of the bottom class for the jump.
fn put_class(
    out: &mut Vec<u8>,
    bottom: &[u8],
    image: &Image,
    end: Option<u16>,
) -> Result<(), AllocError>
    ensures { OnOk result (out.new.items
        ≡ out.old.items ++ spec.end_class bottom.now (globals image.now.globals.items) end) }
{
    let Some(slot) = end else {
        return out.extend_from_slice(bottom);
    };
    match image.globals.get(slot as usize) {
        Some(global) => out.extend_from_slice(&global.1),
        None => Ok(()),
    }
}

/// Adds the name of an end of a chain and the name of its class.
fn put_end(
    out: &mut Vec<u8>,
    bottom: &[u8],
    image: &Image,
    end: Option<u16>,
) -> Result<(), AllocError>
    ensures { OnOk result (out.new.items
        ≡ out.old.items ++ spec.end_text bottom.now (globals image.now.globals.items) end) }
{
    put_name(out, image, end)?;
    out.extend_from_slice(b" : ")?;
    put_class(out, bottom, image, end)
}

/// Adds the instruction that takes the operand of a step.
fn put_taker(out: &mut Vec<u8>, target: Option<u16>) -> Result<(), AllocError>
    ensures { OnOk result (out.new.items ≡ out.old.items ++ spec.taker target) }
{
    match target {
        Some(_) => out.extend_from_slice(b" by STORE at "),
        None => out.extend_from_slice(b" by JZ at "),
    }
}

/// Adds the line of a step.
fn put_step(out: &mut Vec<u8>, image: &Image, step: &Step) -> Result<(), AllocError>
    ensures { OnOk result (out.new.items
        ≡ out.old.items ++ spec.step_line (globals image.now.globals.items) step.now) }
{
    put_number(out, step.read)?;
    out.extend_from_slice(b" ")?;
    put_name(out, image, Some(step.source))?;
    out.extend_from_slice(b" flows to ")?;
    put_name(out, image, step.target)?;
    put_taker(out, step.target)?;
    put_number(out, step.written)?;
    out.extend_from_slice(b"\n")?;
    Ok(())
}

/// Adds a line for each step.
fn put_steps(out: &mut Vec<u8>, image: &Image, steps: &[Step]) -> Result<(), AllocError>
    ensures { OnOk result (out.new.items ≡ out.old.items
        ++ flat_map (spec.step_line (globals image.now.globals.items)) steps.now) }
{
    for step in steps {
        put_step(out, image, step)?;
    }
    Ok(())
}

/// Adds the lines of a chain: one for each step, and a last one with the classes of its ends.
fn put_chain(
    out: &mut Vec<u8>,
    bottom: &[u8],
    image: &Image,
    steps: &[Step],
) -> Result<(), AllocError>
    ensures { OnOk result (out.new.items ≡ out.old.items
        ++ spec.chain_lines bottom.now (globals image.now.globals.items) steps.now) }
{
    if steps.is_empty() {
        return Ok(());
    }
    put_steps(out, image, steps)?;
    let source = steps[0].source;
    let target = steps[steps.len() - 1].target;
    put_end(out, bottom, image, Some(source))?;
    out.extend_from_slice(b" may not flow to ")?;
    put_end(out, bottom, image, target)?;
    out.extend_from_slice(b"\n")?;
    Ok(())
}

/// The text for a flow into the instruction at a place.
fn flow_text(
    alloc: Global,
    lattice: &Lattice,
    image: &Image,
    place: usize,
) -> Result<Vec<u8>, AllocError>
    ensures { IfOk result (λ text. spec.IsFlowText lattice.now image.now place text.items) }
{
    let steps = chain_to(alloc, lattice, image, place)?;
    let bottom = lattice.name(lattice.bottom());
    let mut text = Vec::from_slice(alloc, b"refused: 25 Refused\n")?;
    put_chain(&mut text, bottom, image, &steps)?;
    Ok(text)
}

/// The text of a refusal of an image: its number, its name, and the details. For a class name, this
/// is the number of the global. For a flow, these are each step of a chain that ends at the refused
/// instruction, and the classes of its two ends. Places are numbers of instructions: of the LOAD
/// that reads, and of the STORE or JZ that takes. The image and the lattice must be those of the
/// refusal.
pub fn steady_text(
    alloc: Global,
    lattice: &Lattice,
    image: &Image,
    error: &SteadyError,
) -> Result<Vec<u8>, AllocError>
    ensures { IfOk result
        (λ text. spec.IsUnsteadyText lattice.now image.now error.now text.items) }
{
    match error {
        SteadyError::UnknownClass(n) => {
            let mut text = Vec::from_slice(alloc, b"refused: 43 ClassNotInLattice ")?;
            put_number(&mut text, *n)?;
            text.extend_from_slice(b"\n")?;
            Ok(text)
        }
        SteadyError::Flow(place) => flow_text(alloc, lattice, image, *place),
        SteadyError::Memory => Vec::from_slice(alloc, b"out of memory\n"),
    }
}
