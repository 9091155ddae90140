//! A source text, or an image, beside an interface that is fixed from outside.

ghost use Rattle.std.specs.Prelude.{◌≡◌, [], IfErr, IfOk, map};
ghost use Rattle.vsi_subject.specs.{Noted.{MayWarn}, Performed.{ConformsFiles, JudgesBytes}, Reached.{written_as}, Refusals.{NoOther, FailsBy}, Reasons.{RefusesBytes, RefusesConform}, Undriven.{IsUnusable}};
ghost use Rattle.vsi_conform.specs.{Conformity.{said as said_of}, Rows.{row}};
ghost use Rattle.vsi_subject.specs.Supplied as supplied;

use crate::conformity::{lines_after, reaches_in, tried_beside};
use crate::findings::Made;
use std::alloc::{AllocError, Global};
use vsi_answers::judged_image;
use vsi_arguments::{AnswerForm, Conformance};
use vsi_audit::{AuditError, audit_in};
use vsi_compiler::{CompileError, unjudged_image};
use vsi_conform::{
    Answer, Conformity, Interface, Judgement, Row, conform_image, image_rows, text_rows,
};
use vsi_documents::{Reply, rows_sarif};
use vsi_lattice::Lattice;
use vsi_subject::{Fallible, Files, InputKind, Subject, whole_in};
use vsi_types::Profile;

/// The warning about a text that conforms, and whose image doesn't.
const IMAGE_WARNING: &[u8] =
    b"warning: `conform` refuses an image of this text, in which variables share slots\n";

/// Whether the source text or the image conforms to the interface, and where it differs. The
/// note gets the warning about the image of a text.
pub fn conform<'a, F: Files>(
    subject: &Subject<'_, F>,
    asked: Conformance<'a>,
    note: &mut Vec<u8>,
) -> Fallible<'a, Reply>
    ensures warned { note.old.items ≡ [] → MayWarn note.new.items }
    ensures told { IfOk result (λ reply. ConformsFiles (F.holds subject.now.files.now) asked.entry
        reply.is_good reply.text) }
    ensures failed { IfErr result
        (FailsBy (RefusesConform (F.holds subject.now.files.now) asked.entry) IsUnusable) }
{
    let alloc = subject.alloc;
    let read = subject.asked_files(asked.interface, Some(asked.budget))?;
    let bytes = whole_in(alloc, asked.source, subject.files)?;
    let bytes = bytes.as_slice();
    let is_image = begins_image(bytes);
    let kind = if is_image {
        InputKind::Image
    } else {
        InputKind::Source
    };
    subject.cache.keep(kind, asked.source, bytes)?;
    let interface = &read.found.interface;
    let (fits, rows) = judged_rows(alloc, is_image, &read.lattice, bytes, interface, note)?;
    let reaches = reaches_in(alloc, is_image, &read.lattice, bytes, &read.found)?;
    let tried = tried_beside(subject, asked, &read, bytes)?;
    let said = Conformity {
        fits,
        rows,
        reaches,
        tried,
    };
    let is_good = said.conforms();
    let mut text = written(alloc, asked.form, asked.source, &said)?;
    let lines = lines_after(alloc, asked, is_good, &read, bytes)?;
    text.extend_from_slice(&lines)?;
    Ok(Reply { text, is_good })
}

/// The text of what is said of the file at a path.
fn written(alloc: Global, form: AnswerForm, path: &str, said: &Conformity) -> Made<Vec<u8>>
    ensures { IfOk result
        (λ text. text.items ≡ written_as form path.now (said_of said.now)) }
{
    match form {
        AnswerForm::Lines => said.lines(alloc),
        AnswerForm::Json => said.json(alloc),
        AnswerForm::Sarif => rows_sarif(alloc, path, &said.rows),
    }
}

/// Adds a warning if a text conforms, but an image built from it doesn't: variables that share a
/// slot may be taken for one there. A text that is accepted as steady has a steady image.
fn warn_of_image(
    alloc: Global,
    lattice: &Lattice,
    text: &[u8],
    interface: &Interface,
    answer: &Answer,
    note: &mut Vec<u8>,
) -> Result<(), AllocError>
    ensures warned { note.old.items ≡ [] → MayWarn note.new.items }
{
    if !answer.conforms() {
        return Ok(());
    }
    let profile = match interface.judgement {
        Judgement::Base => Profile::Base,
        Judgement::Strict => Profile::Strict,
        Judgement::Steady => return Ok(()),
    };
    let verified = match unjudged_image(alloc, lattice, text) {
        Ok(verified) => verified,
        Err(CompileError::Memory) => return Err(AllocError),
        Err(_) => return Ok(()),
    };
    match audit_in(alloc, profile, lattice, &verified) {
        Ok(()) => Ok(()),
        Err(AuditError::Memory) => Err(AllocError),
        Err(_) => note.extend_from_slice(IMAGE_WARNING),
    }
}

/// Whether bytes begin as those of an image do, with its magic bytes and a version. No source text
/// does, since a version is a control byte that texts don't have.
pub(crate) fn begins_image(bytes: &[u8]) -> bool
    ensures { result ≡ supplied.begins_image bytes.now }
{
    matches!(bytes, [b'V', b'S', b'I', version, ..] if *version < 9)
}

/// The points of the bytes of a file, and whether there are none: those of an image, if they begin
/// as one, and otherwise of a source text. The note gets the warning about the image of a text.
fn judged_rows<'a>(
    alloc: Global,
    is_image: bool,
    lattice: &Lattice,
    bytes: &[u8],
    interface: &Interface,
    note: &mut Vec<u8>,
) -> Fallible<'a, (bool, Vec<Row>)>
    requires { is_image ≡ supplied.begins_image bytes.now }
    ensures warned { note.old.items ≡ [] → MayWarn note.new.items }
    ensures told { IfOk result (λ pair. JudgesBytes is_image lattice.now bytes.now interface.now
        pair.0 (map row pair.1.items)) }
    ensures failed { IfErr result (FailsBy (RefusesBytes bytes.now) NoOther) }
{
    if is_image {
        let verified = judged_image(alloc, bytes)?;
        let answer = conform_image(alloc, lattice, &verified, interface)?;
        let rows = image_rows(alloc, lattice, verified.image(), interface, &answer)?;
        let conforms = answer.conforms();
        return Ok((conforms, rows));
    }
    let answer = vsi_conform::conform(alloc, lattice, bytes, interface)?;
    let rows = text_rows(alloc, lattice, bytes, interface, &answer)?;
    warn_of_image(alloc, lattice, bytes, interface, &answer, note)?;
    Ok((answer.conforms(), rows))
}
