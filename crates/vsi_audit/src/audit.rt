//! The judgement of an image, whose commands are within the limits of a resolved program.

ghost use Rattle.std.specs.Prelude.{◌≡◌, true, IfSome, ℕ, ◌+◌, ◌≤◌, None, All, IfOk, IfErr, OnOk, length};
ghost use Rattle.vsi_scope.specs.{View.{expression, command, sequence}, Language.{size}, Program.{IsResolved}, Resolving.{AreBelow, HasClassesBelow}};
ghost use Rattle.vsi_audit.specs.{Fitting.{Fits, FitsExpression}, Refusal.{Refuses}, Standing.{HasKnownClasses, HaveClasses, StandsFor}, Unread.{IsUnread}};
ghost use Rattle.vsi_image.specs.{Fields.{fields, Spells}, Valid.{IsValid}};
ghost use Rattle.vsi_lattice.specs.LatticeView.{class_named, order};
ghost use Rattle.vsi_types.specs.declared.rules.Profile.TheVariants.{Strict};
ghost use Rattle.vsi_code.specs.Behaves.{Behaves};
ghost use Rattle.vsi_compiler.specs.Observation.{IsNoninterfering, EndsAlike};

use crate::builder::{Commands, MAX_DECLARATIONS, commands_of};
use crate::flow::{AuditError, Unread};
use crate::lasting::lasting_commands;
use crate::names::{declarations, declared_program, unknown_class};
use crate::reading::span_at;
use std::alloc::{AllocError, Global};
use vsi_code::generate;
use vsi_image::{EncodeError, Image, Verified, encode};
use vsi_infer::{InferError, infer_in};
use vsi_lattice::Lattice;
use vsi_scope::{Cmd, Entry, Ex, Resolved, size};
use vsi_syntax::MAX_DEPTH;
use vsi_types::Profile;

/// Whether an expression reads only the first slots and is no deeper than the room.
fn fits_expression(e: &Ex, scope: u16, room: u16) -> bool
    ensures { result ≡ true → FitsExpression scope room (expression e.now) }
{
    match e {
        Ex::Num(_) => true,
        Ex::Loc(location, _) => *location < scope,
        Ex::Op(_, left, right) => {
            if room == 0 {
                return false;
            }
            if !fits_expression(left, scope, room - 1) {
                return false;
            }
            fits_expression(right, scope, room - 1)
        }
    }
}

/// The number of letvars of commands, if their locations exist with `scope` slots in scope and they
/// are no deeper than the room; none otherwise.
#[cycle(fitting)]
pub(crate) fn fit_all(body: &[Cmd], scope: u16, room: u16) -> Option<u32>
    ensures { IfSome result (λ n. Fits scope room n (sequence body.now)) }
{
    let mut letvars: u32 = 0;
    for c in body {
        let more = fit_one(c, scope, room)?;
        letvars = letvars.checked_add(more)?;
    }
    Some(letvars)
}

#[cycle(fitting)]
fn fit_one(c: &Cmd, scope: u16, room: u16) -> Option<u32>
    ensures { IfSome result (λ n. Fits scope room n (command c.now)) }
{
    match c {
        Cmd::Assign { loc, value, .. } => {
            if *loc >= scope {
                return None;
            }
            if !fits_expression(value, scope, room) {
                return None;
            }
            Some(0)
        }
        Cmd::If { guard, yes, no } => {
            let inner = room.checked_sub(1)?;
            if !fits_expression(guard, scope, inner) {
                return None;
            }
            let first = fit_all(yes, scope, inner)?;
            let second = fit_all(no, scope, inner)?;
            let letvars = first.checked_add(second)?;
            Some(letvars)
        }
        Cmd::While { guard, body } => {
            let inner = room.checked_sub(1)?;
            if !fits_expression(guard, scope, inner) {
                return None;
            }
            let letvars = fit_all(body, scope, inner)?;
            Some(letvars)
        }
        Cmd::Letvar { value, body } => {
            let inner = room.checked_sub(1)?;
            if !fits_expression(value, scope, inner) {
                return None;
            }
            let above = scope.checked_add(1)?;
            let inside = fit_all(body, above, inner)?;
            let letvars = inside.checked_add(1)?;
            Some(letvars)
        }
    }
}

/// The largest size of a program's body.
const MAX_SIZE: u32 = 65_534;

/// The entries of letvars without declared classes.
fn entries<'a>(
    alloc: Global,
    name: &'a [u8],
    places: &[usize],
) -> Result<Vec<Entry<'a>>, AllocError>
    ensures classes { IfOk result (λ es. All (λ e. e.class ≡ None) es.items) }
    ensures count { IfOk result (λ es. length es.items ≡ length places.now) }
{
    let mut entries = Vec::new(alloc);
    for place in places {
        entries.extend_from_slice(&[Entry {
            name,
            class: None,
            span: span_at(*place),
        }])?;
    }
    Ok(entries)
}

/// Whether commands with this many letvars, over this many globals, are within the limits of a
/// program.
fn is_within(globals: usize, letvars: usize, body: &[Cmd]) -> bool
    requires { globals ≤ 1024 }
    ensures fits { result ≡ true → Fits globals 200 letvars (sequence body.now) }
    ensures few { result ≡ true → globals + letvars ≤ 1024 }
    ensures small { result ≡ true → size (sequence body.now) ≤ 65534 }
{
    let Some(found) = fit_all(body, globals as u16, MAX_DEPTH as u16) else {
        return false;
    };
    if found as usize != letvars {
        return false;
    }
    if letvars > MAX_DECLARATIONS - globals {
        return false;
    }
    if size(body) > MAX_SIZE {
        return false;
    }
    true
}

/// The program with these commands in place of its own, if they are within the limits.
fn with_commands<'a>(
    alloc: Global,
    base: &Resolved<'a>,
    name: &'a [u8],
    commands: Commands,
) -> Result<Resolved<'a>, Unread>
    ensures kept { IfOk result IsResolved }
    ensures globals { IfOk result (λ r. r.globals ≡ base.now.globals) }
    ensures letvars { IfOk result (λ r. All (λ e. e.class ≡ None) r.letvars) }
{
    // The result isn't used; the contract of `body` bounds the globals of `base`.
    let _body = base.body();
    let Commands { letvars, body } = commands;
    let entries = entries(alloc, name, &letvars)?;
    let count = base.globals().len();
    if !is_within(count, entries.len(), &body) {
        return Err(Unread::At(0));
    }
    match base.rebuilt(alloc, entries, body) {
        Ok(program) => Ok(program),
        Err(_) => Err(Unread::Memory),
    }
}

/// The bytes of an image.
fn bytes_of(alloc: Global, image: &Image) -> Result<Vec<u8>, Unread>
    ensures { IfOk result (λ bytes. Spells bytes.items (fields image.now)) }
{
    match encode(alloc, image) {
        Ok(bytes) => Ok(bytes),
        Err(EncodeError::Memory) => Err(Unread::Memory),
        Err(EncodeError::Unencodable(_)) => Err(Unread::Fields),
    }
}

/// Compares the image of a program with an image, by the bytes of their fields. An error names an
/// instruction that differs, or says that other fields do.
fn compare(alloc: Global, program: &Resolved<'_>, image: &Image) -> Result<(), Unread>
    ensures stands { OnOk result (StandsFor program.now image.now) }
    ensures behaves { OnOk result
        (Behaves (length program.now.globals) (sequence program.now.body) image.now) }
{
    let verified = generate(alloc, program)?;
    let made = verified.image();
    let first = bytes_of(alloc, made)?;
    let second = bytes_of(alloc, image)?;
    let is_alike = first.as_slice() == second.as_slice();
    if is_alike {
        return Ok(());
    }
    for place in 0..made.code.len() {
        if made.code.get(place) != image.code.get(place) {
            return Err(Unread::At(place));
        }
    }
    if made.code.len() < image.code.len() {
        return Err(Unread::At(made.code.len()));
    }
    Err(Unread::Fields)
}

/// The program with the commands that the search reads back from an image's code.
fn searched_program<'a>(
    alloc: Global,
    base: &Resolved<'a>,
    name: &'a [u8],
    image: &Image,
) -> Result<Resolved<'a>, Unread>
    ensures kept { IfOk result IsResolved }
    ensures globals { IfOk result (λ r. r.globals ≡ base.now.globals) }
    ensures letvars { IfOk result (λ r. All (λ e. e.class ≡ None) r.letvars) }
    ensures stands { IfOk result (λ r. StandsFor r image.now) }
    ensures behaves { IfOk result (λ r. Behaves (length r.globals) (sequence r.body) image.now) }
{
    let commands = commands_of(alloc, image)?;
    let program = with_commands(alloc, base, name, commands)?;
    compare(alloc, &program, image)?;
    Ok(program)
}

/// The program of an image's code; the text declares its globals. If the search reads no program
/// back, each letvar is taken to last to the end of its branch or body.
pub(crate) fn program_of<'a>(
    alloc: Global,
    lattice: &Lattice,
    text: &'a [u8],
    image: &Image,
) -> Result<Resolved<'a>, Unread>
    requires { IsValid image.now }
    ensures kept { IfOk result IsResolved }
    ensures classes { (n : ℕ) → AreBelow n (class_named lattice.now) →
        IfOk result (HasClassesBelow n) }
    ensures named { IfOk result (λ r. HaveClasses (class_named lattice.now) r.globals) }
    ensures stands { IfOk result (λ r. StandsFor r image.now) }
    ensures behaves { IfOk result (λ r. Behaves (length r.globals) (sequence r.body) image.now) }
    ensures unread { IfErr result (IsUnread image.now) }
{
    let base = declared_program(alloc, lattice, text)?;
    let program = read_program(alloc, &base, text, image)?;
    Ok(program)
}

/// The program with the commands of an image's code in which each letvar lasts to the end of its
/// branch or body.
fn lasting_program<'a>(
    alloc: Global,
    base: &Resolved<'a>,
    name: &'a [u8],
    image: &Image,
) -> Result<Resolved<'a>, Unread>
    requires { IsValid image.now }
    ensures kept { IfOk result IsResolved }
    ensures globals { IfOk result (λ r. r.globals ≡ base.now.globals) }
    ensures letvars { IfOk result (λ r. All (λ e. e.class ≡ None) r.letvars) }
    ensures stands { IfOk result (λ r. StandsFor r image.now) }
    ensures behaves { IfOk result (λ r. Behaves (length r.globals) (sequence r.body) image.now) }
    ensures unread { IfErr result (IsUnread image.now) }
{
    // The result isn't used; the contract of `body` bounds the globals of `base`.
    let _body = base.body();
    let Commands { letvars, body } = lasting_commands(alloc, image)?;
    if base.globals().len() != image.globals.len() {
        return Err(Unread::Fields);
    }
    let entries = entries(alloc, name, &letvars)?;
    let Ok(program) = base.rebuilt(alloc, entries, body) else {
        return Err(Unread::Memory);
    };
    match compare(alloc, &program, image) {
        Ok(()) => Ok(program),
        Err(Unread::Memory) => Err(Unread::Memory),
        Err(_) => Err(Unread::Fields),
    }
}

/// The program of an image's code, over the globals of a program.
fn read_program<'a>(
    alloc: Global,
    base: &Resolved<'a>,
    name: &'a [u8],
    image: &Image,
) -> Result<Resolved<'a>, Unread>
    requires { IsValid image.now }
    ensures kept { IfOk result IsResolved }
    ensures globals { IfOk result (λ r. r.globals ≡ base.now.globals) }
    ensures letvars { IfOk result (λ r. All (λ e. e.class ≡ None) r.letvars) }
    ensures stands { IfOk result (λ r. StandsFor r image.now) }
    ensures behaves { IfOk result (λ r. Behaves (length r.globals) (sequence r.body) image.now) }
    ensures unread { IfErr result (IsUnread image.now) }
{
    let searched = match searched_program(alloc, base, name, image) {
        Ok(program) => return Ok(program),
        Err(Unread::Memory) => return Err(Unread::Memory),
        Err(unread) => unread,
    };
    match lasting_program(alloc, base, name, image) {
        Ok(program) => Ok(program),
        Err(Unread::At(_)) => Err(searched),
        Err(unread) => Err(unread),
    }
}

/// Judges an image under a profile, by the policy that its class names give. An accepted image is
/// noninterfering, whoever made it.
///
/// # Errors
///
/// `UnknownClass` first, then `Unstructured` or `WrongFields`, then `Flow`. `Memory` can replace
/// any answer.
pub fn audit_in(
    alloc: Global,
    profile: Profile,
    lattice: &Lattice,
    image: &Verified,
) -> Result<(), AuditError>
    ensures valid { OnOk result (IsValid image.now) }
    ensures classes { OnOk result (HasKnownClasses (class_named lattice.now) image.now) }
    // Two stores that agree at and below a class still agree there at the end, whenever both runs
    // halt.
    ensures noninterference { OnOk result
        (IsNoninterfering (class_named lattice.now) (order lattice.now) image.now) }
    // Under the strict profile, of two runs that agree at the bottom class either both halt or
    // neither does.
    ensures endings { profile ≡ Strict → OnOk result
        (EndsAlike (class_named lattice.now) (order lattice.now) image.now) }
    // A refused image names a class that is missing, or its program has a bad walk.
    ensures refused { IfErr result
        (Refuses (class_named lattice.now) (order lattice.now) profile image.now) }
{
    let image = image.image();
    if let Some(global) = unknown_class(lattice, &image.globals) {
        return Err(AuditError::UnknownClass(global));
    }
    let text = declarations(alloc, image)?;
    let program = program_of(alloc, lattice, &text, image)?;
    match infer_in(alloc, profile, lattice, &program) {
        Ok(_) => Ok(()),
        Err(InferError::Memory) => Err(AuditError::Memory),
        Err(InferError::Refused(walk)) => Err(AuditError::Flow(walk)),
    }
}
