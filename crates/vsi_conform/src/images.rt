//! Images from a vendor beside an interface: whether they conform, the answer as rows, and the line
//! of a reference.

ghost use Rattle.std.specs.Prelude.{◌≡◌, IfOk, None, true, map, option_map};
ghost use Rattle.vsi_lattice.specs.LatticeView.{class_named, order};
ghost use Rattle.vsi_steady.specs.Steady.{IsSteady};
ghost use Rattle.vsi_answers.specs.View.{diagnostic_of};
ghost use Rattle.vsi_conform.specs.{Bounded.{ReportsBound}, Conforms.{Fits}, Reaching.{released}, Reading.{cycle as cycle_of}, Rows.{row}, declared.interface.Judgement.TheVariants.{Steady}, ImageConforms.{is_conforming}};
ghost use Rattle.vsi_conform.specs.ImageConforms as spec;
ghost use Rattle.vsi_conform.specs.ImageLines as lines_spec;
ghost use Rattle.vsi_conform.specs.ImageReaching as reaching_spec;

use crate::checking::{audit_diagnostic, steady_diagnostic};
use crate::conforming::{bound_report, image_points};
use crate::interface::{Interface, Judgement, Point};
use crate::keys::Cycle;
use crate::reaching::{GlobalFlows, Reach, flows_profile, have_released, reaches_of};
use crate::reference::{Comparison, Contrast, Reference};
use crate::rows::{Judged, Row, asked, numbered, rows_of};
use crate::texts::{put_counted, put_parts};
use std::alloc::{AllocError, Global};
use vsi_answers::{Diagnostic, bound};
use vsi_audit::{AuditError, audit_in, audit_text, image_flows};
use vsi_image::{Image, Verified};
use vsi_lattice::Lattice;
use vsi_steady::{SteadyError, steady_in, steady_text};
use vsi_syntax::put_word;
use vsi_types::Profile;

/// The refusal of an image under a profile, if it is refused.
fn audited_in(
    alloc: Global,
    profile: Profile,
    lattice: &Lattice,
    verified: &Verified,
) -> Result<Option<Refusal>, AllocError>
    ensures { IfOk result (spec.IsAuditedAs (class_named lattice.now) (order lattice.now) profile
        verified.now) }
{
    match audit_in(alloc, profile, lattice, verified) {
        Ok(()) => Ok(None),
        Err(AuditError::Memory) => Err(AllocError),
        Err(error) => Ok(Some(Refusal::Audit(error))),
    }
}

/// The refusal of an image that isn't as the profile of an interface requires.
fn refusal_of(
    alloc: Global,
    judgement: Judgement,
    lattice: &Lattice,
    verified: &Verified,
) -> Result<Option<Refusal>, AllocError>
    ensures judged { IfOk result (spec.IsJudged (class_named lattice.now) (order lattice.now)
        judgement verified.now) }
    ensures steady { judgement ≡ Steady
        → IsSteady (class_named lattice.now) (order lattice.now) verified.now
        → IfOk result (λ refusal. refusal ≡ None) }
{
    match judgement {
        Judgement::Base => audited_in(alloc, Profile::Base, lattice, verified),
        Judgement::Strict => audited_in(alloc, Profile::Strict, lattice, verified),
        Judgement::Steady => match steady_in(alloc, lattice, verified) {
            Ok(()) => Ok(None),
            Err(SteadyError::Memory) => Err(AllocError),
            Err(error) => Ok(Some(Refusal::Steady(error))),
        },
    }
}

/// The line about the bound of an image, if it isn't as required.
fn bound_line(
    alloc: Global,
    verified: &Verified,
    interface: &Interface,
) -> Result<Option<Vec<u8>>, AllocError>
    ensures { IfOk result (λ line. ReportsBound interface.now.bounded verified.now line) }
{
    if !interface.demands_bound() {
        return Ok(None);
    }
    let answer = bound(alloc, verified)?;
    bound_report(alloc, verified, interface.bounded, answer)
}

/// The differences between an image and an interface: why the audit under the lattice and the
/// profile of the interface refuses it, each global and each run that isn't as required, and the
/// bound if it isn't as required. An error means that memory ran out.
pub fn conform_image(
    alloc: Global,
    lattice: &Lattice,
    verified: &Verified,
    interface: &Interface,
) -> Result<Answer, AllocError>
    // Nothing is reported only of an image that conforms.
    ensures conforms { IfOk result (λ answer. is_conforming answer ≡ true
        → spec.Conforms lattice.now verified.now interface.now) }
    // An image that has the globals, runs and bound has no point.
    ensures exact { Fits interface.now verified.now
        → IfOk result (λ answer. answer.refusal ≡ None → answer.unbounded ≡ None
        → is_conforming answer ≡ true) }
    // Under the steady profile, the refusal is exact, too.
    ensures steady { interface.now.judgement ≡ Steady
        → IsSteady (class_named lattice.now) (order lattice.now) verified.now
        → IfOk result (λ answer. answer.refusal ≡ None) }
    ensures told { IfOk result (spec.Tells lattice.now verified.now interface.now) }
{
    let refusal = refusal_of(alloc, interface.judgement, lattice, verified)?;
    let points = image_points(alloc, verified, interface)?;
    let unbounded = bound_line(alloc, verified, interface)?;
    Ok(Answer {
        refusal,
        points,
        unbounded,
    })
}

/// Why an image isn't accepted.
#[derive(Debug, Drop)]
pub enum Refusal {
    /// Under the base or the strict profile.
    Audit(AuditError),
    /// As a steady image.
    Steady(SteadyError),
}

/// The answer for an image and an interface. The places of points are numbers of the image's
/// globals.
#[derive(Debug, Drop)]
pub struct Answer {
    /// Why the image isn't accepted.
    pub refusal: Option<Refusal>,
    /// The differences between its globals or runs and the required ones.
    pub points: Vec<Point>,
    /// The line about its bound, if it isn't as required.
    pub unbounded: Option<Vec<u8>>,
}

impl Answer {
    /// Whether nothing differs.
    pub fn conforms(&self) -> bool
        ensures { result ≡ is_conforming self.now }
    {
        self.refusal.is_none() && self.points.is_empty() && self.unbounded.is_none()
    }
}

/// The released outputs of boundaries, in their order, each with the globals of an image that reach
/// it. If the audit reads no program back from the image, each global counts as reaching every
/// other one. An error means that memory ran out.
pub fn image_reaches(
    alloc: Global,
    lattice: &Lattice,
    verified: &Verified,
    judgement: Judgement,
    cycles: &[Cycle],
) -> Result<Vec<Reach>, AllocError>
    ensures reaches { IfOk result (λ reaches. reaching_spec.AreImageReleased lattice.now judgement
        verified.now (map cycle_of cycles.now) (map released reaches.items)) }
{
    if !have_released(cycles) {
        return Ok(Vec::new(alloc));
    }
    let globals = verified.image().globals.as_slice();
    let mut names = Vec::new(alloc);
    for global in globals {
        names.push(Vec::from_slice(alloc, &global.0)?)?;
    }
    let table = match image_flows(alloc, flows_profile(judgement), lattice, verified) {
        Ok(pairs) => Some(pairs),
        Err(AuditError::Memory) => return Err(AllocError),
        Err(_error) => None,
    };
    reaches_of(alloc, &GlobalFlows { names, table }, cycles)
}

/// The lines of a refusal.
fn refusal_lines(
    alloc: Global,
    lattice: &Lattice,
    image: &Image,
    refusal: &Refusal,
) -> Result<Vec<u8>, AllocError>
    ensures { IfOk result
        (λ lines. lines_spec.IsRefusalLines lattice.now image.now refusal.now lines.items) }
{
    match refusal {
        Refusal::Audit(error) => audit_text(alloc, lattice, image, error),
        Refusal::Steady(error) => steady_text(alloc, lattice, image, error),
    }
}

/// The refusal of an image that isn't as a profile requires, as a value and as lines.
pub fn refused_image(
    alloc: Global,
    judgement: Judgement,
    lattice: &Lattice,
    verified: &Verified,
) -> Result<Option<(Diagnostic<'static>, Vec<u8>)>, AllocError>
    ensures refused { IfOk result (λ told. lines_spec.TellsRefusal lattice.now judgement
        verified.now (option_map (λ pair. (diagnostic_of pair.0, pair.1.items)) told)) }
{
    let Some(refusal) = refusal_of(alloc, judgement, lattice, verified)? else {
        return Ok(None);
    };
    let diagnostic = match &refusal {
        Refusal::Audit(error) => audit_diagnostic(error),
        Refusal::Steady(error) => steady_diagnostic(error),
    };
    let Some(diagnostic) = diagnostic else {
        return Err(AllocError);
    };
    let lines = refusal_lines(alloc, lattice, verified.image(), &refusal)?;
    Ok(Some((diagnostic, lines)))
}

/// The rows of an answer about an image. The lattice, the image and the interface must be those of
/// the answer.
pub fn image_rows(
    alloc: Global,
    lattice: &Lattice,
    image: &Image,
    interface: &Interface,
    answer: &Answer,
) -> Result<Vec<Row>, AllocError>
    ensures rows { IfOk result (λ found. lines_spec.AreImageRows lattice.now image.now interface.now
        answer.now (map row found.items)) }
{
    let lines = match &answer.refusal {
        Some(refusal) => Some(refusal_lines(alloc, lattice, image, refusal)?),
        None => None,
    };
    let judged = Judged::Image(image);
    let found = rows_of(
        alloc,
        &judged,
        interface,
        &lines,
        &answer.points,
        &answer.unbounded,
    )?;
    Ok(found)
}

/// Adds how an image differs from the reference in a cycle.
fn put_contrast(
    text: &mut Vec<u8>,
    interface: &Interface,
    contrast: Contrast,
) -> Result<(), AllocError> {
    match contrast {
        Contrast::Word {
            global,
            word,
            expected,
        } => {
            put_parts(text, &[b": ", asked(interface, global).0, b" = "])?;
            put_word(text, word)?;
            text.extend_from_slice(b", expected ")?;
            put_word(text, expected)
        }
        Contrast::Endless(budget) => {
            put_counted(text, b": out of budget ", budget as usize)?;
            text.extend_from_slice(b", the reference halts")
        }
        Contrast::Halts(budget) => {
            let words = b": halts, the reference is out of budget ";
            put_counted(text, words, budget as usize)
        }
    }
}

/// The line of a trial beside the reference at a path.
pub fn reference_line(
    alloc: Global,
    path: &[u8],
    reference: Reference<'_>,
    comparison: Comparison,
) -> Result<Vec<u8>, AllocError> {
    let mut text = Vec::new(alloc);
    put_parts(&mut text, &[b"reference ", path, b": "])?;
    match comparison {
        Comparison::Alike { runs, cycles } => {
            put_counted(&mut text, b"no difference in ", runs)?;
            put_counted(&mut text, b" runs with ", cycles)?;
            text.extend_from_slice(b" cycles (a test, no proof)")?;
        }
        Comparison::Apart(difference) => {
            if let Some(cycle) = reference.cycles.get(difference.boundary) {
                put_parts(&mut text, &[b"class ", &cycle.class])?;
            }
            let run = difference.run.saturating_add(1);
            let cycle = difference.cycle.saturating_add(1);
            put_counted(&mut text, b" run ", run)?;
            put_counted(&mut text, b" cycle ", cycle)?;
            put_contrast(&mut text, reference.interface, difference.contrast)?;
        }
        Comparison::Lacking(number) => {
            let (name, class) = asked(reference.interface, number);
            put_parts(&mut text, &[b"missing ", name, b" : ", class])?;
        }
        Comparison::Extra(place) => {
            let held = numbered(reference.verified.image(), place);
            put_parts(&mut text, &[b"unexpected ", held.name, b" : ", held.class])?;
        }
        Comparison::Untried => {
            let words = b"not compared, no program with the globals of the interface";
            text.extend_from_slice(words)?;
        }
    }
    text.extend_from_slice(b"\n")?;
    Ok(text)
}
