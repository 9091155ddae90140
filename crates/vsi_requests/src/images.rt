//! Judgements of images and their bounds.

ghost use Rattle.std.specs.{Prelude.{◌≡◌, ◌⊎◌, ◌++◌, ℕ, IfErr, IfOk, OnOk, codes}, Global.{Vec}};
ghost use Rattle.vsi_audit.specs.Telling.{IsAuditText};
ghost use Rattle.vsi_subject.specs.{Holding.{IsReadAt}, Performed.{AuditsTo, Passes, SourceOfFile, TellsBounding, program_version}, Refusals.{NoOther, RefusesImage, RefusesLattice, FailsBy}, Reasons.{HasNoText, IsRefusedImage, RefusesAudit, WhyEmit}};
ghost use Rattle.vsi_answers.specs.Judged.{AreImage};
ghost use Rattle.vsi_subject.specs.Performed as spec;
ghost use Rattle.vsi_subject.specs.declared.failure.Failure.TheVariants as fails;

use crate::conformity::filed_profile;
use crate::findings::Made;
use crate::texts::{judgement, policy_and_text};
use std::alloc::Global;
use vsi_answers::judged_image;
use vsi_arguments::{Audit, Bounding, Compilation};
use vsi_audit::{AuditError, audit_in, audit_text, source_text};
use vsi_documents::{Reply, bound_json, bound_json_in};
use vsi_image::{Image, Verified};
use vsi_lattice::Lattice;
use vsi_steady::{SteadyError, steady_in, steady_text};
use vsi_store::{Filed, evidence};
use vsi_subject::{Failure, Fallible, Files, InputKind, Subject, made_image, profile, two_classes};

/// The failure for a refused image.
fn refused_image<'a>(
    alloc: Global,
    lattice: &Lattice,
    image: &Image,
    error: AuditError,
) -> Failure<'a>
    ensures { FailsBy (λ reason. ⊥)
        (λ failure. (text : Vec ℕ) × (failure ≡ fails.Audit text error)
        × IsAuditText lattice.now image.now error text.items) result }
{
    if let AuditError::Memory = &error {
        return Failure::Memory;
    }
    match audit_text(alloc, lattice, image, &error) {
        Ok(text) => Failure::Audit(text, error),
        Err(_) => Failure::Memory,
    }
}

/// Judges an image as requested.
fn judge<'a>(
    alloc: Global,
    asked: Audit<'a>,
    classes: &Lattice,
    verified: &Verified,
) -> Fallible<'a, ()>
    ensures told { OnOk result
        (Passes asked.entry.is_steady asked.entry.is_strict classes.now verified.now) }
    ensures failed { IfErr result (FailsBy (λ reason. ⊥)
        (IsRefusedImage asked.entry.is_strict classes.now verified.now)) }
{
    if asked.is_steady {
        let Err(error) = steady_in(alloc, classes, verified) else {
            return Ok(());
        };
        if let SteadyError::Memory = &error {
            return Err(Failure::Memory);
        }
        let text = steady_text(alloc, classes, verified.image(), &error)?;
        return Err(Failure::Unsteady(text, error));
    }
    match audit_in(alloc, profile(asked.is_strict), classes, verified) {
        Ok(()) => Ok(()),
        Err(error) => Err(refused_image(alloc, classes, verified.image(), error)),
    }
}

/// The version of the program.
pub(crate) fn version() -> &'static [u8]
    ensures { result.now ≡ program_version }
{
    b"0.1.0"
}

/// The output of an audit that accepts an image, of the bytes that were read.
fn accepted_text(alloc: Global, asked: Audit<'_>, lattice: &[u8], image: &[u8]) -> Made<Vec<u8>>
    ensures { IfOk result (λ text. text.items ≡ codes "accepted\n"
        ++ spec.filed_text asked.entry lattice.now image.now) }
{
    let mut text = Vec::from_slice(alloc, b"accepted\n")?;
    if !asked.has_evidence {
        return Ok(text);
    }
    let files = [
        Filed {
            path: asked.lattice.as_bytes(),
            bytes: lattice,
        },
        Filed {
            path: asked.image.as_bytes(),
            bytes: image,
        },
    ];
    let profile = filed_profile(judgement(asked.is_steady, asked.is_strict));
    let filed = evidence(alloc, version(), profile, &files)?;
    text.extend_from_slice(&filed)?;
    Ok(text)
}

/// The bytes of an image, and the verified image.
pub(crate) fn verified_in<'a, F: Files>(
    subject: &Subject<'_, F>,
    path: &'a str,
) -> Fallible<'a, (Vec<u8>, Verified)>
    ensures read { IfOk result
        (λ pair. IsReadAt (F.holds subject.now.files.now) path.now pair.0.items) }
    ensures are { IfOk result (λ pair. AreImage pair.0.items pair.1) }
    ensures failed { IfErr result
        (FailsBy (RefusesImage (F.holds subject.now.files.now) path.now) NoOther) }
{
    let bytes = subject.bytes_in(InputKind::Image, path)?;
    let verified = judged_image(subject.alloc, bytes.as_slice())?;
    Ok((bytes, verified))
}

/// The output for an image that is accepted.
pub fn audit<'a, F: Files>(subject: &Subject<'_, F>, asked: Audit<'a>) -> Fallible<'a, Vec<u8>>
    ensures told { IfOk result (AuditsTo (F.holds subject.now.files.now) asked.entry) }
    ensures failed { IfErr result (FailsBy (λ reason.
        RefusesLattice (F.holds subject.now.files.now) asked.entry.lattice.now reason
        ⊎ RefusesImage (F.holds subject.now.files.now) asked.entry.image.now reason)
        (RefusesAudit (F.holds subject.now.files.now) asked.entry)) }
{
    let (policy, classes) = subject.policy_in(asked.lattice)?;
    let (bytes, verified) = verified_in(subject, asked.image)?;
    judge(subject.alloc, asked, &classes, &verified)?;
    Ok(accepted_text(subject.alloc, asked, &policy, &bytes)?)
}

/// The source text that is equivalent to the image.
pub fn source<'a, F: Files>(subject: &Subject<'_, F>, image: &'a str) -> Fallible<'a, Vec<u8>>
    ensures told { IfOk result (SourceOfFile (F.holds subject.now.files.now) image.now) }
    ensures failed { IfErr result
        (FailsBy (RefusesImage (F.holds subject.now.files.now) image.now)
        (HasNoText (F.holds subject.now.files.now) image.now)) }
{
    let verified = subject.image_in(image)?;
    match source_text(subject.alloc, &verified) {
        Ok(text) => Ok(text),
        Err(error) => {
            let classes = two_classes(subject.alloc)?;
            Err(refused_image(subject.alloc, &classes, verified.image(), error))
        }
    }
}

/// The line about the bound of the requested image, or the same as a line of JSON.
pub fn bound<'a, F: Files>(
    subject: &Subject<'_, F>,
    asked: Bounding<'a>,
    is_json: bool,
) -> Fallible<'a, Reply>
    ensures told { IfOk result (λ reply. TellsBounding is_json (F.holds subject.now.files.now)
        asked.entry reply.is_good reply.text) }
    ensures failed { IfErr result (FailsBy
        (WhyEmit (F.holds subject.now.files.now) asked.entry.lattice asked.entry.file) NoOther) }
{
    let alloc = subject.alloc;
    let Some(lattice) = asked.lattice else {
        let image = subject.image_in(asked.file)?;
        if is_json {
            return Ok(bound_json(alloc, &image)?);
        }
        let found = vsi_answers::bound(alloc, &image)?;
        return Ok(Reply {
            text: found.text,
            is_good: found.is_bounded,
        });
    };
    let compilation = Compilation {
        lattice,
        source: asked.file,
        is_strict: false,
    };
    let (classes, text) = policy_and_text(subject, compilation)?;
    let text = text.as_slice();
    let verified = made_image(subject.cache, &classes, asked.file, text)?;
    if is_json {
        return Ok(bound_json_in(alloc, &classes, text, &verified)?);
    }
    let found = vsi_answers::bound_in(alloc, &classes, text, &verified)?;
    Ok(Reply {
        text: found.text,
        is_good: found.is_bounded,
    })
}
