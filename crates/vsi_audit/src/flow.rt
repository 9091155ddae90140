//! The flows of an image between its variables, and the report about one that breaks the policy.

ghost use Rattle.std.specs.{Prelude.{◌≡◌, ◌++◌, OnOk, IfOk, codes, decimal, IfErr}, List.{flat_map}};
ghost use Rattle.vsi_audit.specs.{declared.flow.AuditError.TheVariants.{Memory}, Telling.{IsAuditText}, Flows.{IsTableOfImage}, Refusal.{Refuses}};
ghost use Rattle.vsi_lattice.specs.LatticeView.{class_named, order};
ghost use Rattle.vsi_audit.specs.declared.flow.Unread.TheVariants as unread;
ghost use Rattle.vsi_image.specs.Fields as fields;
ghost use Rattle.vsi_audit.specs.Telling as spec;

use crate::audit::program_of;
use crate::names::{Names, declarations, unknown_class};
use std::alloc::{AllocError, AllocFailed, Global};
use thiserror::Error;
use vsi_flows::{FlowsError, Pair, flows_in};
use vsi_image::{Image, Verified};
use vsi_infer::{Step, Walk, rule_text};
use vsi_lattice::{Classes, Lattice};
use vsi_scope::Var;
use vsi_syntax::put_number;
use vsi_types::{LOOP, Profile};

/// The reason why an image isn't accepted.
#[derive(Debug, Drop, Error)]
pub enum AuditError {
    /// The lattice has no class of this global's class name; globals are numbered from 0.
    #[error("the class of global {0} is not in the lattice")]
    UnknownClass(usize),
    /// The code isn't the code of commands; the number is that of the first instruction that
    /// doesn't fit, or the number of instructions.
    #[error("the code has no commands that can be judged, at instruction {0}")]
    Unstructured(usize),
    /// The number of slots or the stack field differs from what the code needs.
    #[error("the slots or the stack is not what the code needs")]
    WrongFields,
    /// The commands of the code have no text within the limits on texts.
    #[error("the commands have no text within the limits")]
    NoText,
    /// A flow breaks the policy. The places of the steps are numbers of instructions: of the LOAD
    /// that reads and of the STORE that writes. The variables after the globals are the locals, in
    /// the order of the code.
    #[error("a flow breaks the policy")]
    Flow(Walk),
    #[error("out of memory")]
    Memory,
}

/// The reason why code wasn't read back.
#[derive(Debug, Drop)]
pub(crate) enum Unread {
    /// The instruction with this number doesn't fit.
    At(usize),
    /// A field other than the code differs from that of the commands.
    Fields,
    Memory,
}

impl From<AllocError> for AuditError {
    ghost from_gives = { λ _ e. e ≡ Memory };

    fn from(_error: AllocError) -> AuditError {
        AuditError::Memory
    }
}

impl From<Unread> for AuditError {
    ghost use Rattle.vsi_audit.specs.Refusal.{unread_as};

    ghost from_gives = { λ inner e. e ≡ unread_as inner };

    fn from(error: Unread) -> AuditError {
        match error {
            Unread::At(place) => AuditError::Unstructured(place),
            Unread::Fields => AuditError::WrongFields,
            Unread::Memory => AuditError::Memory,
        }
    }
}

impl From<AllocError> for Unread {
    ghost from_gives = { λ _ e. e ≡ unread.Memory };

    fn from(_error: AllocError) -> Unread {
        Unread::Memory
    }
}

impl<T: Drop> From<AllocFailed<T>> for Unread {
    ghost from_gives = { λ _ e. e ≡ unread.Memory };

    fn from(_error: AllocFailed<T>) -> Unread {
        Unread::Memory
    }
}

/// Adds the name of a variable.
fn put_name(out: &mut Vec<u8>, names: &Names<'_>, variable: Var) -> Result<(), AllocError>
    ensures { OnOk result (out.new.items ≡ out.old.items ++
        spec.name_of (fields.globals names.now.globals.now) names.now.form variable) }
{
    if variable == LOOP {
        return out.extend_from_slice(b"(loop)");
    }
    names.put_variable(out, variable.0)
}

/// Adds the name of a variable and the name of its class.
fn put_variable(
    out: &mut Vec<u8>,
    lattice: &Lattice,
    names: &Names<'_>,
    variable: Var,
) -> Result<(), AllocError>
    ensures { OnOk result (out.new.items ≡ out.old.items ++
        spec.variable_text lattice.now (fields.globals names.now.globals.now) names.now.form
        variable) }
{
    put_name(out, names, variable)?;
    out.extend_from_slice(b" : ")?;
    if variable == LOOP {
        return out.extend_from_slice(lattice.name(lattice.bottom()));
    }
    names.put_class(out, variable.0)
}

/// Adds the line of a step.
fn put_step(out: &mut Vec<u8>, names: &Names<'_>, step: &Step) -> Result<(), AllocError>
    ensures { OnOk result (out.new.items ≡ out.old.items ++
        spec.step_line (fields.globals names.now.globals.now) names.now.form step.now) }
{
    put_number(out, step.read.start)?;
    out.extend_from_slice(b" ")?;
    put_name(out, names, step.source)?;
    out.extend_from_slice(b" flows to ")?;
    put_name(out, names, step.target)?;
    out.extend_from_slice(b" by ")?;
    out.extend_from_slice(rule_text(step.rule))?;
    out.extend_from_slice(b" at ")?;
    put_number(out, step.written.start)?;
    out.extend_from_slice(b"\n")
}

/// Adds the lines of steps.
fn put_steps(out: &mut Vec<u8>, names: &Names<'_>, steps: &[Step]) -> Result<(), AllocError>
    ensures { OnOk result (out.new.items ≡ out.old.items ++ flat_map
        (spec.step_line (fields.globals names.now.globals.now) names.now.form) steps.now) }
{
    for step in steps {
        put_step(out, names, step)?;
    }
    Ok(())
}

/// Adds the last line, which names the first and the last variable of a walk.
fn put_last(
    out: &mut Vec<u8>,
    lattice: &Lattice,
    names: &Names<'_>,
    first: Var,
    last: Var,
) -> Result<(), AllocError>
    ensures { OnOk result (out.new.items ≡ out.old.items ++
        spec.last_text lattice.now (fields.globals names.now.globals.now) names.now.form first
        last) }
{
    put_variable(out, lattice, names, first)?;
    out.extend_from_slice(b" may not flow to ")?;
    put_variable(out, lattice, names, last)?;
    out.extend_from_slice(b"\n")
}

/// Adds the lines of a walk: one for each step, and a last one with the classes of its ends.
fn put_walk(
    out: &mut Vec<u8>,
    lattice: &Lattice,
    names: &Names<'_>,
    steps: &[Step],
) -> Result<(), AllocError>
    ensures { OnOk result (out.new.items ≡ out.old.items ++
        spec.walk_text lattice.now (fields.globals names.now.globals.now) names.now.form
        steps.now) }
{
    if steps.is_empty() {
        return Ok(());
    }
    let first = steps[0];
    let last = steps[steps.len() - 1];
    put_steps(out, names, steps)?;
    put_last(out, lattice, names, first.source, last.target)
}

/// Adds a line of a refusal that ends with a number.
fn put_numbered(out: &mut Vec<u8>, start: &[u8], number: usize) -> Result<(), AllocError>
    ensures { OnOk result
        (out.new.items ≡ out.old.items ++ start.now ++ decimal number ++ codes "\n") }
{
    out.extend_from_slice(start)?;
    put_number(out, number)?;
    out.extend_from_slice(b"\n")
}

/// The text of a refusal of an image: its number, its name, and the details. For a flow, these are
/// each step and the classes of the two ends. Numbers of instructions are given in place of lines
/// and columns, and the locals have the names of `source_text`. The image and the lattice must be
/// those of the refusal.
pub fn audit_text(
    alloc: Global,
    lattice: &Lattice,
    image: &Image,
    error: &AuditError,
) -> Result<Vec<u8>, AllocError>
    ensures { IfOk result (λ out. IsAuditText lattice.now image.now error.now out.items) }
{
    let mut out = Vec::new(alloc);
    match error {
        AuditError::UnknownClass(n) => {
            put_numbered(&mut out, b"refused: 43 ClassNotInLattice ", *n)?;
        }
        AuditError::Unstructured(n) => put_numbered(&mut out, b"refused: 49 NoCommands ", *n)?,
        AuditError::WrongFields => out.extend_from_slice(b"refused: 50 WrongFields\n")?,
        AuditError::NoText => out.extend_from_slice(b"refused: 51 NoText\n")?,
        AuditError::Flow(walk) => {
            out.extend_from_slice(b"refused: 25 Refused\n")?;
            let names = Names::of(alloc, &image.globals);
            put_walk(&mut out, lattice, &names, &walk.steps)?;
        }
        AuditError::Memory => out.extend_from_slice(b"out of memory\n")?,
    }
    Ok(out)
}

/// The table of flows of the program that the audit reads back from an image. Its first variables
/// are the globals of the image.
///
/// # Errors
///
/// Those of `audit_in`, except `Flow`: a flow that the audit refuses is in the table.
pub fn image_flows(
    alloc: Global,
    profile: Profile,
    lattice: &Lattice,
    image: &Verified,
) -> Result<Vec<Pair>, AuditError>
    ensures table { IfOk result (λ pairs. IsTableOfImage (class_named lattice.now)
        (order lattice.now) profile image.now pairs.items) }
    ensures refused { IfErr result
        (Refuses (class_named lattice.now) (order lattice.now) profile image.now) }
{
    let image = image.image();
    if let Some(global) = unknown_class(lattice, &image.globals) {
        return Err(AuditError::UnknownClass(global));
    }
    let text = declarations(alloc, image)?;
    let program = program_of(alloc, lattice, &text, image)?;
    match flows_in(alloc, profile, lattice, &program) {
        Ok(pairs) => Ok(pairs),
        Err(FlowsError::Memory) => Err(AuditError::Memory),
    }
}
