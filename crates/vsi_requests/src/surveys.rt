//! Source texts, each judged by itself under one lattice.

ghost use Rattle.std.specs.Prelude.{◌≡◌, ◌==◌, ◌++◌, ◌<◌, IfErr, IfOk, OnOk};
ghost use Rattle.vsi_subject.specs.{Failures.{status_of}, Refusals.{FailsBy, NoOther, RefusesLattice}, Surveys.{Concludes, HasVerdict, IsVerdict, SurveysFiles, Tally}};
ghost use Rattle.vsi_subject.specs.Surveys as spec;

use crate::faults::Judged;
use crate::findings::{Made, Written};
use crate::texts::judgement;
use std::alloc::AllocError;
use vsi_answers::Object;
use vsi_arguments::{AnswerForm, Survey};
use vsi_conform::Judgement;
use vsi_documents::Reply;
use vsi_lattice::Lattice;
use vsi_subject::{Fallible, Files, InputKind, Subject};
use vsi_syntax::put_number;

/// How many things are good, and how many are bad.
#[derive(Clone, Copy)]
pub(crate) struct Counts {
    pub(crate) good: usize,
    pub(crate) bad: usize,
}

impl Counts {
    ghost use Rattle.std.specs.Prelude.{◌≡◌, ◌<◌, ◌+◌, true, false};

    /// The counts with one thing more, which is good or bad.
    pub(crate) fn plus(self, is_good: bool) -> Counts
        requires { self.good + self.bad < u64.MAX }
        ensures good { is_good ≡ true → (result.good ≡ self.good + 1) × (result.bad ≡ self.bad) }
        ensures bad { is_good ≡ false → (result.good ≡ self.good) × (result.bad ≡ self.bad + 1) }
    {
        let Counts { good, bad } = self;
        if is_good {
            let good = good + 1;
            Counts { good, bad }
        } else {
            let bad = bad + 1;
            Counts { good, bad }
        }
    }
}

/// The words of a line that counts things: the noun, and what it says of a good and of a bad one.
#[derive(Clone, Copy)]
pub(crate) struct Words<'w> {
    pub(crate) noun: &'w [u8],
    pub(crate) good: &'w [u8],
    pub(crate) bad: &'w [u8],
}

/// The words of a survey.
const TEXTS: Words<'static> = Words {
    noun: b"text",
    good: b"accepted",
    bad: b"refused",
};

/// The ending of a noun after a number.
fn ending(number: usize) -> &'static [u8]
    ensures { result.now ≡ spec.ending number }
{
    if number == 1 { b"" } else { b"s" }
}

/// Adds the line that counts things.
pub(crate) fn put_summary(text: &mut Vec<u8>, words: Words<'_>, counts: Counts) -> Made<()>
    ensures { OnOk result (text.new.items ≡ text.old.items
        ++ spec.summary words.entry.noun.now words.entry.good.now words.entry.bad.now
        counts.good counts.bad) }
{
    let Some(total) = counts.good.checked_add(counts.bad) else {
        return Err(AllocError);
    };
    put_number(text, total)?;
    text.extend_from_slice(b" ")?;
    text.extend_from_slice(words.noun)?;
    text.extend_from_slice(ending(total))?;
    text.extend_from_slice(b": ")?;
    put_number(text, counts.good)?;
    text.extend_from_slice(b" ")?;
    text.extend_from_slice(words.good)?;
    text.extend_from_slice(b", ")?;
    put_number(text, counts.bad)?;
    text.extend_from_slice(b" ")?;
    text.extend_from_slice(words.bad)?;
    text.extend_from_slice(b"\n")
}

/// Adds the verdict on a text, and returns whether it is accepted.
fn put_text(judged: &Judged<'_>, written: &mut Written) -> Made<bool>
    ensures { IfOk result
        (IsVerdict judged.now.judgement judged.now.lattice.now judged.now.text.now) }
{
    let (is_accepted, made) = judged.verdict(written)?;
    let good = is_accepted.then_some(TEXTS.good);
    written.put_said(judged.path.as_bytes(), good, made)?;
    Ok(is_accepted)
}

/// Adds the verdict on the text of the file at a path, and returns whether it is accepted.
fn put_file<'a, F: Files>(
    subject: &Subject<'_, F>,
    judgement: Judgement,
    lattice: &Lattice,
    path: &&'a str,
    written: &mut Written,
) -> Fallible<'a, bool>
    ensures told { IfOk result (HasVerdict (F.holds subject.now.files.now) judgement lattice.now
        path.now.now) }
    ensures failed { IfErr result (λ failure. 3 < status_of failure) }
{
    let bytes = subject.bytes_in(InputKind::Source, *path)?;
    let text = bytes.as_slice();
    let judged = Judged {
        alloc: subject.alloc,
        judgement,
        lattice,
        path: *path,
        text,
    };
    let is_accepted = put_text(&judged, written)?;
    Ok(is_accepted)
}

/// Adds the verdicts on the texts of these files, in their order, and counts them.
fn put_verdicts<'a, F: Files>(
    subject: &Subject<'_, F>,
    judgement: Judgement,
    lattice: &Lattice,
    paths: &[&'a str],
    written: &mut Written,
) -> Fallible<'a, Counts>
    ensures tally { IfOk result (λ counts. Tally (F.holds subject.now.files.now) judgement
        lattice.now paths.now counts.good counts.bad) }
    ensures failed { IfErr result (λ failure. 3 < status_of failure) }
{
    let mut counts = Counts { good: 0, bad: 0 };
    for path in paths {
        let is_accepted = put_file(subject, judgement, lattice, path, written)?;
        let more = counts.plus(is_accepted);
        counts = more;
    }
    Ok(counts)
}

/// The lines of verdicts and the one that counts them, the line of JSON with their objects at a
/// key, or the document of their faults.
pub(crate) fn concluded(
    form: AnswerForm,
    key: &str,
    words: Words<'_>,
    written: Written,
    counts: Counts,
) -> Made<Vec<u8>>
    ensures { IfOk result (λ text. Concludes form words.entry.noun.now words.entry.good.now
        words.entry.bad.now counts.good counts.bad text.items) }
{
    match form {
        AnswerForm::Lines => {
            let mut text = written.lines;
            put_summary(&mut text, words, counts)?;
            Ok(text)
        }
        AnswerForm::Json => {
            let made = Object::new(written.alloc).array(key, written.objects)?;
            let made = made.natural("version", 1)?;
            made.flag("accepted", counts.bad == 0)?.line()
        }
        AnswerForm::Sarif => written.report.document(),
    }
}

/// The verdict on each source text, and whether all are accepted.
pub fn survey<'a, F: Files>(subject: &Subject<'_, F>, asked: &Survey<'a>) -> Fallible<'a, Reply>
    ensures told { IfOk result (λ reply. SurveysFiles (F.holds subject.now.files.now) asked.now
        reply.is_good reply.text) }
    ensures failed { IfErr result (FailsBy (RefusesLattice (F.holds subject.now.files.now)
        asked.now.lattice.now) NoOther) }
{
    let lattice = subject.lattice_in(asked.lattice)?;
    let judged = judgement(asked.is_steady, asked.is_strict);
    let mut written = Written::new(subject.alloc, asked.form);
    let paths = asked.sources.as_slice();
    let counts = put_verdicts(subject, judged, &lattice, paths, &mut written)?;
    let text = concluded(asked.form, "texts", TEXTS, written, counts)?;
    let is_good = counts.bad == 0;
    Ok(Reply { is_good, text })
}
