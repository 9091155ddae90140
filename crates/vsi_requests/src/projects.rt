//! The programs of a project file, each judged as the file requires.

ghost use Rattle.std.specs.Prelude.{◌≡◌, ◌<◌, ℕ, true, IfErr, IfOk, IfSome, Ok, string_bytes};
ghost use Rattle.vsi_answers.specs.Bounds.{IsBound};
ghost use Rattle.vsi_conform.specs.Conformity.{said as said_of};
ghost use Rattle.vsi_image.specs.declared.instr.Image.{Image};
ghost use Rattle.vsi_store.specs.Seal.{is_whole};
ghost use Rattle.vsi_subject.specs.{Failures.{status_of}, Holding.{IsLatticeAt, IsReadAt}, Projects.{ConformsIn, IsAnswerTo, IsFaulty, IsRequired, IsRight, IsStoreIn, Judges, MeetsAll, ProjectsFiles}, Reasons.{RefusesSome}, Refusals.{FailsBy, NoOther, RefusesLattice}};

use crate::conformity::{reaches_in, tried_beside};
use crate::faults::{Judged, START};
use crate::findings::{Made, Written, point_rule, refusal_rule};
use crate::selection::{chosen, project_in};
use crate::surveys::{Counts, Words, concluded};
use crate::texts::judgement;
use std::alloc::Global;
use std::mem;
use vsi_answers::{Fault, Objects, enough_budget, fault_diagnostic, fault_text, without_end};
use vsi_arguments::{AnswerForm, Conformance, Projecting};
use vsi_conform::{Conformity, Kind, Reach, Row, conform, put_parts, put_row, text_rows};
use vsi_documents::{FaultRule, Reply};
use vsi_drive::READ_LIMIT;
use vsi_image::Verified;
use vsi_lattice::Lattice;
use vsi_project::Program;
use vsi_steady::UnsteadyError;
use vsi_store::{StoreError, read_store};
use vsi_subject::{
    AskedFiles, Failure, Fallible, Files, InputKind, Subject, declared_lattice, whole_in,
};

/// The words of the line that counts programs.
const PROGRAMS: Words<'static> = Words {
    noun: b"program",
    good: b"right",
    bad: b"wrong",
};

/// The bytes of a file that a project names.
fn bytes_at<'a, F: Files>(
    subject: &Subject<'_, F>,
    kind: InputKind,
    path: &str,
) -> Fallible<'a, Vec<u8>>
    ensures read { IfOk result
        (λ bytes. IsReadAt (F.holds subject.now.files.now) path.now bytes.items) }
    ensures failed { IfErr result (λ failure. 3 < status_of failure) }
{
    match subject.bytes_in(kind, path) {
        Ok(bytes) => return Ok(bytes),
        Err(Failure::FileFault(_)) => {}
        Err(_) => return Err(Failure::Memory),
    }
    Err(Failure::LostFile(String::from_str(subject.alloc, path)?))
}

/// The bytes of a store file that a project names, which is whole.
fn store_at<'a, F: Files>(subject: &Subject<'_, F>, path: &str) -> Fallible<'a, Vec<u8>>
    ensures read { IfOk result
        (λ bytes. IsReadAt (F.holds subject.now.files.now) path.now bytes.items) }
    ensures whole { IfOk result (λ bytes. is_whole bytes.items ≡ true) }
    ensures failed { IfErr result (λ failure. 3 < status_of failure) }
{
    match subject.store_in(Some(path)) {
        Ok(bytes) => return Ok(bytes),
        Err(Failure::FileFault(_)) => {}
        Err(_) => return Err(Failure::Memory),
    }
    Err(Failure::LostFile(String::from_str(subject.alloc, path)?))
}

/// The text of a refusal, or else the failure with the path of its file.
fn lasting<'a>(alloc: Global, failure: Failure<'_>) -> Fallible<'a, Vec<u8>>
    ensures { IfErr result (λ failure. 3 < status_of failure) }
{
    match failure {
        Failure::Interface(text, _error) => Ok(text),
        Failure::Refused(text, _cause) => Ok(text),
        Failure::LostFile(lost) => Err(Failure::LostFile(lost)),
        Failure::FileFault(lost) => Err(Failure::LostFile(String::from_str(alloc, lost)?)),
        _other => Err(Failure::Memory),
    }
}

/// The lattice of a file that a project names.
fn lattice_at<'a, F: Files>(subject: &Subject<'_, F>, path: &str) -> Fallible<'a, Lattice>
    ensures read { IfOk result (IsLatticeAt (F.holds subject.now.files.now) path.now) }
    ensures failed { IfErr result
        (FailsBy (RefusesLattice (F.holds subject.now.files.now) path.now) NoOther) }
{
    let bytes = bytes_at(subject, InputKind::Lattice, path)?;
    declared_lattice(subject.alloc, bytes.as_slice())
}

/// A program of a project with the bytes of its source text, and the budget of the runs of its
/// interface.
#[derive(Clone, Copy)]
struct Judging<'p> {
    alloc: Global,
    budget: u64,
    program: &'p Program,
    text: &'p [u8],
}

impl Judging<'_> {
    /// Whether the image has a bound, or needs none.
    fn has_bound(&self, verified: &Verified, written: &mut Written) -> Made<bool>
        ensures { IfOk result (λ has. has ≡ true → self.now.program.now.is_bounded ≡ true
            → (most : ℕ) × IsBound verified.now most) }
    {
        if !self.program.is_bounded {
            return Ok(true);
        }
        let found = enough_budget(self.alloc, verified)?;
        match found {
            Ok(_most) => Ok(true),
            Err(line) => {
                let rule = point_rule(Kind::Bound);
                written.put_wrong(self.program.source.as_str(), START, rule, &line)?;
                Ok(false)
            }
        }
    }

    /// Whether the store with which the program starts is one of its image, if it has one.
    fn has_store<'a, F: Files>(
        &self,
        subject: &Subject<'_, F>,
        verified: &Verified,
        written: &mut Written,
    ) -> Fallible<'a, bool>
        ensures told { IfOk result (λ has. has ≡ true → IfSome self.now.program.now.store (λ path.
            IsStoreIn (F.holds subject.now.files.now) (string_bytes path) verified.now)) }
        ensures failed { IfErr result (λ failure. 3 < status_of failure) }
    {
        let Some(path) = &self.program.store else {
            return Ok(true);
        };
        let path = path.as_str();
        let bytes = store_at(subject, path)?;
        match read_store(self.alloc, verified.image(), &bytes) {
            Ok(_words) => Ok(true),
            Err(StoreError::Memory) => Err(Failure::Memory),
            Err(error) => {
                let fault = Fault::Store(error);
                let line = fault_text(self.alloc, &fault)?;
                let Some(diagnostic) = fault_diagnostic(&fault) else {
                    return Err(Failure::Memory);
                };
                written.put_wrong(path, START, refusal_rule(diagnostic.code), &line)?;
                Ok(false)
            }
        }
    }

    /// The interface of the program at a path, if it isn't refused.
    fn asked<'a, F: Files>(
        &self,
        subject: &Subject<'_, F>,
        path: &str,
        written: &mut Written,
    ) -> Fallible<'a, Option<AskedFiles>>
        ensures told { IfOk result (λ asked. IfSome asked (λ read. IsRequired
            (F.holds subject.now.files.now) self.now.budget path.now read.found read.lattice)) }
        ensures failed { IfErr result (λ failure. 3 < status_of failure) }
    {
        match subject.asked_files(path, Some(self.budget)) {
            Ok(read) => Ok(Some(read)),
            Err(failure) => {
                let refused = lasting(self.alloc, failure)?;
                let rule = FaultRule(
                    None,
                    b"interface",
                    "The interface or its lattice is refused.",
                );
                written.put_wrong(path, START, rule, &refused)?;
                Ok(None)
            }
        }
    }

    /// Whether the text conforms to the interface of the program, if it has one.
    fn conforms<'a, F: Files>(
        &self,
        subject: &Subject<'_, F>,
        written: &mut Written,
    ) -> Fallible<'a, bool>
        ensures told { IfOk result (λ well. well ≡ true
            → IfSome self.now.program.now.interface (λ path. ConformsIn
            (F.holds subject.now.files.now) self.now.budget (string_bytes path)
            self.now.text.now)) }
        ensures failed { IfErr result (λ failure. 3 < status_of failure) }
    {
        let Some(path) = &self.program.interface else {
            return Ok(true);
        };
        let path = path.as_str();
        let Some(read) = self.asked(subject, path, written)? else {
            return Ok(false);
        };
        let Some(said) = self.said(subject, path, &read, written)? else {
            return Ok(false);
        };
        let is_well = said.conforms();
        if !is_well {
            self.put_said(said, &read, written)?;
        }
        Ok(is_well)
    }

    /// The judgement of the text by an interface, unless its reference is refused.
    fn said<'a, F: Files>(
        &self,
        subject: &Subject<'_, F>,
        path: &str,
        read: &AskedFiles,
        written: &mut Written,
    ) -> Fallible<'a, Option<Conformity>>
        ensures told { IfOk result (λ answer. IfSome answer (λ said. IsAnswerTo read.now.lattice
            self.now.text.now read.now.found (said_of said))) }
        ensures failed { IfErr result (λ failure. 3 < status_of failure) }
    {
        let (alloc, interface) = (self.alloc, &read.found.interface);
        let answer = conform(alloc, &read.lattice, self.text, interface)?;
        let rows = text_rows(alloc, &read.lattice, self.text, interface, &answer)?;
        let reaches = reaches_in(alloc, false, &read.lattice, self.text, &read.found)?;
        let asked = Conformance {
            interface: path,
            source: self.program.source.as_str(),
            budget: self.budget,
            form: AnswerForm::Lines,
            has_evidence: false,
        };
        let fits = answer.conforms();
        match tried_beside(subject, asked, read, self.text) {
            Ok(tried) => Ok(Some(Conformity {
                fits,
                rows,
                reaches,
                tried,
            })),
            Err(failure) => {
                let refused = lasting(alloc, failure)?;
                let rule = FaultRule(
                    None,
                    b"reference",
                    "The reference of the interface is refused.",
                );
                written.put_wrong(path, START, rule, &refused)?;
                Ok(None)
            }
        }
    }

    /// Adds the points, the released outputs and the trial of a text that doesn't conform.
    fn put_said(&self, said: Conformity, read: &AskedFiles, written: &mut Written) -> Made<()> {
        let path = self.program.source.as_str();
        for row in said.rows {
            self.put_point(row, read, written)?;
        }
        for reach in &said.reaches {
            self.put_reach(reach, written)?;
        }
        match &said.tried {
            Some(tried) if !tried.agrees => {
                let rule = FaultRule(
                    None,
                    b"reference",
                    "The program differs from its reference.",
                );
                written.put_wrong(path, START, rule, &tried.line)
            }
            _ => Ok(()),
        }
    }

    /// Adds a point: what differs, at its place, or each fault of a refused text.
    fn put_point(&self, row: Row, read: &AskedFiles, written: &mut Written) -> Made<()> {
        let path = self.program.source.as_str();
        let Row {
            kind,
            place,
            detail,
        } = row;
        let mut line = Vec::new(self.alloc);
        let row = Row {
            kind,
            place: None,
            detail,
        };
        put_row(&mut line, &row)?;
        let Kind::Refused = kind else {
            return written.put_wrong(path, place.unwrap_or(START), point_rule(kind), &line);
        };
        let judged = Judged {
            alloc: self.alloc,
            judgement: read.found.interface.judgement,
            lattice: &read.lattice,
            path,
            text: self.text,
        };
        let _object = judged.verdict(written)?;
        written.texts.push_text(without_end(&line))
    }

    /// Adds a released output, if a global reaches it that the interface doesn't allow.
    fn put_reach(&self, reach: &Reach, written: &mut Written) -> Made<()> {
        if reach.beyond.is_empty() {
            return Ok(());
        }
        let mut line = Vec::new(self.alloc);
        let names: [&[u8]; 4] = [&reach.class, b" releases ", &reach.output, b", unexpected"];
        put_parts(&mut line, &names)?;
        for name in &reach.beyond {
            put_parts(&mut line, &[b" ", name])?;
        }
        line.extend_from_slice(b"\n")?;
        let page = "A global reaches a released output, and the interface doesn't allow it.";
        let path = self.program.source.as_str();
        written.put_wrong(path, START, FaultRule(None, b"releases", page), &line)
    }

    /// Whether the image of the accepted text is as the project requires.
    fn meets<'a, F: Files>(
        &self,
        subject: &Subject<'_, F>,
        verified: &Verified,
        written: &mut Written,
    ) -> Fallible<'a, bool>
        ensures told { IfOk result (λ all. all ≡ true → MeetsAll (F.holds subject.now.files.now)
            self.now.budget self.now.program.now self.now.text.now verified.now) }
        ensures failed { IfErr result (λ failure. 3 < status_of failure) }
    {
        let has_bound = self.has_bound(verified, written)?;
        let has_store = self.has_store(subject, verified, written)?;
        let conforms = self.conforms(subject, written)?;
        if !has_bound {
            return Ok(false);
        }
        if !has_store {
            return Ok(false);
        }
        Ok(conforms)
    }

    /// Whether the text has an image that is as the project requires.
    fn is_right<'a, F: Files>(
        &self,
        subject: &Subject<'_, F>,
        found: Result<Verified, UnsteadyError>,
        written: &mut Written,
    ) -> Fallible<'a, bool>
        ensures told { IfOk result (λ right. right ≡ true → (image : Image) × (found ≡ Ok image)
            × MeetsAll (F.holds subject.now.files.now) self.now.budget self.now.program.now
            self.now.text.now image) }
        ensures failed { IfErr result (λ failure. 3 < status_of failure) }
    {
        match found {
            Ok(verified) => {
                let all = self.meets(subject, &verified, written)?;
                Ok(all)
            }
            Err(_error) => Ok(false),
        }
    }
}

/// Adds the object of a program, or the line of a right one, after the faults of its text.
fn put_verdict(
    judged: Judged<'_>,
    program: &Program,
    is_right: bool,
    written: &mut Written,
) -> Made<()> {
    let (_is_accepted, made) = judged.verdict(written)?;
    let name = program.name.as_bytes();
    let texts = mem::replace(&mut written.texts, Objects::new(written.alloc));
    let made = made.array("faults", texts)?.text("program", name)?;
    let made = made.flag("right", is_right)?;
    let good = is_right.then_some(PROGRAMS.good);
    written.put_said(name, good, made)
}

/// Adds the verdict on a program, and returns whether it is right.
fn put_program<'a, F: Files>(
    subject: &Subject<'_, F>,
    budget: u64,
    program: &Program,
    written: &mut Written,
) -> Fallible<'a, bool>
    ensures told { IfOk result (λ right. right ≡ true
        → IsRight (F.holds subject.now.files.now) budget program.now) }
    ensures failed { IfErr result
        (FailsBy (RefusesSome (F.holds subject.now.files.now)) NoOther) }
{
    let alloc = subject.alloc;
    let policy = program.lattice.as_str();
    let lattice = lattice_at(subject, policy)?;
    let path = program.source.as_str();
    let bytes = bytes_at(subject, InputKind::Source, path)?;
    let text = bytes.as_slice();
    let judgement = judgement(program.is_steady, program.is_strict);
    let judged = Judged {
        alloc,
        judgement,
        lattice: &lattice,
        path,
        text,
    };
    let judging = Judging {
        alloc,
        budget,
        program,
        text,
    };
    let found = vsi_conform::judged(alloc, judgement, &lattice, text)?;
    let is_right = judging.is_right(subject, found, written)?;
    put_verdict(judged, program, is_right, written)?;
    Ok(is_right)
}

/// Adds the verdicts on programs, in their order, and counts them.
fn put_programs<'a, F: Files>(
    subject: &Subject<'_, F>,
    budget: u64,
    programs: &[Program],
    written: &mut Written,
) -> Fallible<'a, Counts>
    ensures judges { IfOk result (λ counts. Judges (F.holds subject.now.files.now) budget
        programs.now counts.good counts.bad) }
    ensures failed { IfErr result
        (FailsBy (RefusesSome (F.holds subject.now.files.now)) NoOther) }
{
    let mut counts = Counts { good: 0, bad: 0 };
    for program in programs {
        let is_right = put_program(subject, budget, program, written)?;
        let more = counts.plus(is_right);
        counts = more;
    }
    Ok(counts)
}

/// The verdict on each program of a project file, and whether all are right.
pub fn project<'a, F: Files>(subject: &Subject<'_, F>, asked: Projecting<'a>) -> Fallible<'a, Reply>
    ensures told { IfOk result (λ reply. ProjectsFiles (F.holds subject.now.files.now)
        asked.entry reply.is_good reply.text) }
    ensures failed { IfErr result
        (FailsBy (RefusesSome (F.holds subject.now.files.now)) IsFaulty) }
{
    let alloc = subject.alloc;
    let bytes = whole_in(alloc, asked.project, subject.files)?;
    if bytes.len() >= READ_LIMIT {
        return Err(Failure::FileFault(asked.project));
    }
    let project = project_in(alloc, asked.project, &bytes)?;
    let all = project.programs.as_slice();
    let programs = chosen(alloc, all, asked)?;
    let mut written = Written::new(alloc, asked.form);
    let counts = put_programs(subject, asked.budget, programs, &mut written)?;
    let text = concluded(asked.form, "programs", PROGRAMS, written, counts)?;
    let is_good = counts.bad == 0;
    Ok(Reply { is_good, text })
}
