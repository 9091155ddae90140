//! The evidence of a judgement by an interface, and the reference beside which a file is run.

ghost use Rattle.std.specs.Prelude.{◌≡◌, IfErr, IfOk, map, option_map};
ghost use Rattle.vsi_subject.specs.{Filed.{Follows, HasBound, IsFiledBound, IsJudged}, Performed.{IsConformity, judged_files, program_version}, Refusals.{FailsBy}, Undriven.{IsUnusable}};
ghost use Rattle.vsi_store.specs.Evidence.{conformity_text};
ghost use Rattle.vsi_conform.specs.{Conformity.{trial}, Reaching.{released}};
ghost use Rattle.vsi_subject.specs.Filed as spec;
ghost use Rattle.vsi_subject.specs.Reached as reached;

use crate::conformance::begins_image;
use crate::findings::Made;
use crate::images::version;
use std::alloc::{AllocError, Global};
use vsi_answers::{enough_budget, judged_image, without_end};
use vsi_arguments::Conformance;
use vsi_compiler::{CompileError, unjudged_image};
use vsi_conform::{
    Bounded, InterfaceError, InterfaceFile, Judgement, Policy, Reach, Reference, Tried,
    compare_reference, image_reaches, judged, path_beside, reference_line, refusal_lines,
    text_reaches,
};
use vsi_image::Verified;
use vsi_lattice::Lattice;
use vsi_store::{AuditProfile, Filed, conformity};
use vsi_subject::{AskedFiles, Failure, Fallible, Files, InputKind, Subject, unusable};

/// How an interface judges, as evidence names it.
pub(crate) fn filed_profile(judgement: Judgement) -> AuditProfile
    ensures { result ≡ spec.filed_profile judgement }
{
    match judgement {
        Judgement::Base => AuditProfile::Base,
        Judgement::Strict => AuditProfile::Strict,
        Judgement::Steady => AuditProfile::Steady,
    }
}

/// The image that was judged: that of these bytes, or that of a source text. A file that conforms
/// has one.
fn image_judged(alloc: Global, is_image: bool, lattice: &Lattice, bytes: &[u8]) -> Made<Verified>
    ensures { IfOk result (IsJudged is_image lattice.now bytes.now) }
{
    if is_image {
        return judged_image(alloc, bytes).map_err(|_| AllocError);
    }
    unjudged_image(alloc, lattice, bytes).map_err(|_| AllocError)
}

/// A bound of the image that was judged. A file that conforms has one if the interface requires it.
fn bound_judged(alloc: Global, is_image: bool, lattice: &Lattice, bytes: &[u8]) -> Made<u64>
    ensures { IfOk result (HasBound (IsJudged is_image lattice.now bytes.now)) }
{
    let verified = image_judged(alloc, is_image, lattice, bytes)?;
    match enough_budget(alloc, &verified)? {
        Ok(most) => Ok(most),
        Err(_) => Err(AllocError),
    }
}

/// The bound that evidence names.
fn filed_bound(
    alloc: Global,
    bounded: Bounded,
    is_image: bool,
    lattice: &Lattice,
    bytes: &[u8],
) -> Result<Option<u64>, AllocError>
    ensures { IfOk result (IsFiledBound bounded (IsJudged is_image lattice.now bytes.now)) }
{
    match bounded {
        Bounded::No => Ok(None),
        Bounded::Yes => Ok(Some(bound_judged(alloc, is_image, lattice, bytes)?)),
        Bounded::AtMost(maximum) => {
            let most = bound_judged(alloc, is_image, lattice, bytes)?;
            if most > maximum {
                return Err(AllocError);
            }
            Ok(Some(most))
        }
    }
}

/// The evidence with this bound, of the files with these bytes.
fn evidence_text<'x>(
    alloc: Global,
    asked: Conformance<'x>,
    read: &'x AskedFiles,
    most: Option<u64>,
    source: &'x [u8],
) -> Result<Vec<u8>, AllocError>
    ensures { IfOk result (λ text. text.items ≡ conformity_text program_version (spec.filed_profile
        read.now.found.interface.judgement) most (judged_files asked.entry read.now.found
        read.now.bytes.items read.now.policy.items source.now)) }
{
    let profile = filed_profile(read.found.interface.judgement);
    let interface = Filed {
        path: asked.interface.as_bytes(),
        bytes: read.bytes.as_slice(),
    };
    let judged = Filed {
        path: asked.source.as_bytes(),
        bytes: source,
    };
    match &read.found.policy {
        Policy::File(path) => {
            let path = path_beside(alloc, asked.interface, path)?;
            let lattice = Filed {
                path: path.as_bytes(),
                bytes: read.policy.as_slice(),
            };
            let files = [interface, lattice, judged];
            conformity(alloc, version(), profile, most, &files)
        }
        Policy::Tables(_) => {
            let files = [interface, judged];
            conformity(alloc, version(), profile, most, &files)
        }
    }
}

/// The lines that follow an answer: the evidence, if it is requested and the file conforms.
pub(crate) fn lines_after<'x>(
    alloc: Global,
    asked: Conformance<'x>,
    conforms: bool,
    read: &'x AskedFiles,
    source: &'x [u8],
) -> Result<Vec<u8>, AllocError>
    ensures { IfOk result (λ lines. Follows asked.entry.has_evidence conforms
        (IsConformity read.now.found read.now.lattice source.now (judged_files asked.entry
        read.now.found read.now.bytes.items read.now.policy.items source.now)) lines.items) }
{
    if !asked.has_evidence {
        return Ok(Vec::new(alloc));
    }
    if !conforms {
        return Ok(Vec::new(alloc));
    }
    let bounded = read.found.interface.bounded;
    let is_image = begins_image(source);
    let most = filed_bound(alloc, bounded, is_image, &read.lattice, source)?;
    evidence_text(alloc, asked, read, most, source)
}

/// The image of the reference at a path, which is accepted as the interface requires of a text.
/// If it isn't, the failure has its path and the lines of `check`.
fn reference_image<'a, F: Files>(
    subject: &Subject<'_, F>,
    interface: &str,
    path: &[u8],
    read: &AskedFiles,
) -> Fallible<'a, Verified>
    ensures { IfErr result (FailsBy (λ reason. ⊥) IsUnusable) }
{
    let alloc = subject.alloc;
    let judgement = read.found.interface.judgement;
    let text = subject.named_file(InputKind::Reference, interface, path)?;
    let error = match judged(alloc, judgement, &read.lattice, &text)? {
        Ok(verified) => return Ok(verified),
        Err(error) => error,
    };
    let is_steady = matches!(judgement, Judgement::Steady);
    let lines = refusal_lines(alloc, &read.lattice, &text, &error, is_steady)?;
    let mut told = Vec::from_slice(alloc, path)?;
    told.extend_from_slice(b"\n")?;
    told.extend_from_slice(without_end(&lines))?;
    Err(unusable(alloc, InterfaceError::RefusedReference(told)))
}

/// The trial of a file beside the reference that the interface names, if it names one. A source
/// text may have no image, and the bytes of an image were judged before.
pub(crate) fn tried_beside<'a, F: Files>(
    subject: &Subject<'_, F>,
    asked: Conformance<'a>,
    read: &AskedFiles,
    bytes: &[u8],
) -> Fallible<'a, Option<Tried>>
    ensures tried { IfOk result
        (λ tried. reached.IsTried read.now.found.reference (option_map trial tried)) }
    ensures failed { IfErr result (FailsBy (λ reason. ⊥) IsUnusable) }
{
    let Some(path) = &read.found.reference else {
        return Ok(None);
    };
    let alloc = subject.alloc;
    let verified = reference_image(subject, asked.interface, path, read)?;
    let unjudged = if begins_image(bytes) {
        judged_image(alloc, bytes).map_err(|_| CompileError::Memory)
    } else {
        unjudged_image(alloc, &read.lattice, bytes)
    };
    let image = match unjudged {
        Ok(image) => Some(image),
        Err(CompileError::Memory) => return Err(Failure::Memory),
        Err(_refusal) => None,
    };
    let beside = Reference {
        interface: &read.found.interface,
        cycles: &read.found.cycles,
        verified: &verified,
    };
    let budget = asked.budget;
    let found = compare_reference(alloc, &read.lattice, image.as_ref(), beside, budget)?;
    let line = reference_line(alloc, path, beside, found)?;
    let agrees = found.agrees();
    Ok(Some(Tried { agrees, line }))
}

/// The released outputs of an interface, by the flows of the image with these bytes or of a source
/// text. The bytes of an image were judged before.
pub(crate) fn reaches_in(
    alloc: Global,
    is_image: bool,
    lattice: &Lattice,
    bytes: &[u8],
    asked: &InterfaceFile,
) -> Result<Vec<Reach>, AllocError>
    ensures reaches { IfOk result (λ reaches. reached.AreReleasedIn is_image lattice.now bytes.now
        asked.now (map released reaches.items)) }
{
    let judgement = asked.interface.judgement;
    if !is_image {
        return text_reaches(alloc, lattice, bytes, judgement, &asked.cycles);
    }
    let Ok(verified) = judged_image(alloc, bytes) else {
        return Err(AllocError);
    };
    Ok(image_reaches(alloc, lattice, &verified, judgement, &asked.cycles)?)
}
