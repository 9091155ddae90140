//! Drives an image, a cycle for each line of the input.

ghost use Rattle.std.specs.{Prelude.{◌≡◌, ◌<◌, ◌≤◌, ◌∷◌, [], ℕ, List, length, IfOk, IfErr, OnOk, false, MatchResult}, Io.KnownBytes.{Appends}};
ghost use Rattle.vsi_subject.specs.{Driven.{Drives, DrivesInput, begun, last_line, whole_lines}, Files.{IsStoredAt, IsBudgetOf}, Performed.{PerformsDrive}, Noted.{NotesDrive, NotesStop, TellsBudget}, Partly.{AnswersDrive, Leaves}, Saved.{Advances, CutsInput, CutsLines, LeavesState}, State.{Touches}, Failures.{TellsFault, status_of}, Holding.{IsStoreAt}, Refusals.{NoOther, FailsBy, LacksBound}, Undriven.{LacksDrive, WhyDrive, SaysShort}, Admitted.{IsAdmitted, IsEnough, IsShort, short_line}};
ghost use Rattle.vsi_drive.specs.{Counted.{device_of, faults_of}, Control.{control}, Cycles.{cycle}};
ghost use Rattle.vsi_answers.specs.{Answers.{Because}, Judged.{IsStoreFault}};
ghost use Rattle.vsi_answers.specs.Judged as judged;

use crate::boundaries::{controller_of, names_in};
use crate::saves::{Drive, first_path, first_store, save, save_line};
use crate::steering::steered;
use std::alloc::{AllocError, Global};
use std::io::{Read, Write};
use vsi_answers::{Fault, enough_budget};
use vsi_arguments::{Budget, Driving};
use vsi_drive::{Counted, LINE_LIMIT};
use vsi_image::Verified;
use vsi_lattice::Lattice;
use vsi_steady::{SteadyError, steady_in};
use vsi_store::read_store;
use vsi_subject::{Failure, Fallible, Files, InputCache, STREAM, Subject, faulty, most_of, write};
use vsi_syntax::put_number;

/// The size of the buffer of a read, in bytes.
const CHUNK: usize = 4096;

/// Drives an image file: each line of the input sets globals, and the part of the store that a
/// class sees after its run is written. The store goes to the requested file before the first line,
/// after lines before their answers are written, and at the end. The note gets a line if the budget
/// isn't enough and is taken all the same. Whether this is a first start is decided before any file
/// is read.
pub fn drive<'a, F: Files, R: Read, W: Write>(
    cache: &InputCache,
    driving: Driving<'a>,
    files: &mut F,
    input: &mut Counted<R>,
    output: &mut Counted<W>,
    note: &mut Vec<u8>,
) -> Fallible<'a, ()>
    requires input { faults_of input.old < u64.MAX }
    requires output { faults_of output.old < u64.MAX }
    ensures unfilled { IfErr result (λ failure. status_of failure < 4
        → F.holds files.new ≡ F.holds files.old) }
    ensures input_fault { TellsFault (faults_of input.old) (faults_of input.new) result }
    ensures output_fault { TellsFault (faults_of output.old) (faults_of output.new) result }
    ensures left { IfErr result (Leaves (AnswersDrive (F.holds files.old) driving.entry
        (R.remaining (device_of input.old))) 4
        (W.contents (device_of output.old)) (W.contents (device_of output.new))) }
    ensures performed { OnOk result (PerformsDrive (F.holds files.old) driving.entry
        (R.remaining (device_of input.old)) (F.holds files.new)
        (W.contents (device_of output.old)) (W.contents (device_of output.new))) }
    ensures state { IfErr result (λ _. LeavesState (F.holds files.old) driving.entry
        (R.remaining (device_of input.old)) (F.holds files.new)
        (W.contents (device_of output.old)) (W.contents (device_of output.new))) }
    ensures failed { IfErr result (FailsBy (WhyDrive (F.holds files.old) driving.entry)
        (LacksDrive (F.holds files.old) driving.entry)) }
    ensures noted { note.old.items ≡ []
        → OnOk result (NotesDrive (F.holds files.old) driving.entry note.new.items) }
    ensures hushed { note.old.items ≡ [] → IfErr result (λ failure.
        NotesStop (F.holds files.old) driving.entry failure note.new.items) }
{
    let policy = driving.policy;
    let class = driving.class;
    let image = driving.execution.image;
    let path = first_path(driving, files);
    let is_unbounded = driving.is_unbounded;
    let subject = Subject {
        alloc: cache.alloc,
        cache,
        files,
    };
    let steering = steered(&subject, policy, class, image, true, is_unbounded)?;
    let mut words = first_store(&subject, &steering.verified, path, driving.is_full)?;
    let budget = budget_of(cache.alloc, driving.execution.budget, &steering.verified)?;
    let names = names_in(cache.alloc, driving.policy, &steering.cycle)?;
    let controller = controller_of(cache, driving.policy, &names, &steering, budget)?;
    admit(
        cache.alloc,
        is_unbounded,
        &steering.lattice,
        &steering.verified,
        budget,
        note,
    )?;
    save(
        cache.alloc,
        &steering.verified,
        words.as_slice(),
        driving.save,
        files,
    )?;
    let drive = Drive {
        alloc: cache.alloc,
        controller: &controller,
        verified: &steering.verified,
        save: driving.save,
        most: driving.every.saturating_sub(1),
    };
    drive_input(&drive, &mut words, files, input, output)?;
    save(cache.alloc, &steering.verified, &words, driving.save, files)
}

/// The words that a store file gives to the globals of an image, or zeros without one.
pub(crate) fn stored_words<'a, F: Files>(
    subject: &Subject<'_, F>,
    verified: &Verified,
    path: Option<&'a str>,
) -> Fallible<'a, Vec<i64>>
    ensures len { IfOk result
        (λ words. length words.items ≡ length verified.now.globals.items) }
    ensures stored { IfOk result (λ words.
        IsStoredAt (F.holds subject.now.files.now) path.entry verified.now words.items) }
    ensures failed { IfErr result (FailsBy (λ reason.
        (file : List ℕ) × IsStoreAt (F.holds subject.now.files.now) path.entry file
        × Because (judged.TellsFault (IsStoreFault verified.now file)) ⊥ reason) NoOther) }
{
    let bytes = subject.store_in(path)?;
    match read_store(subject.alloc, verified.image(), bytes.as_slice()) {
        Ok(words) => Ok(words),
        Err(error) => Err(faulty(subject.alloc, Fault::Store(error))),
    }
}

/// Does a cycle for each line of the input, to its end.
fn drive_input<'a, F: Files, R: Read, W: Write>(
    drive: &Drive<'a, '_>,
    store: &mut [i64],
    files: &mut F,
    input: &mut Counted<R>,
    output: &mut Counted<W>,
) -> Fallible<'a, ()>
    requires words { length store.old ≡ length (control
        drive.now.controller.now).image.globals.items }
    requires input { faults_of input.old < u64.MAX }
    requires output { faults_of output.old < u64.MAX }
    requires same { drive.now.verified.now ≡ (control drive.now.controller.now).image }
    ensures input_fault { TellsFault (faults_of input.old) (faults_of input.new) result }
    ensures output_fault { TellsFault (faults_of output.old) (faults_of output.new) result }
    ensures failure { IfErr result (λ failure. 3 < status_of failure) }
    ensures driven { OnOk result (DrivesInput (control drive.now.controller.now) store.old store.new
        (R.remaining (device_of input.old)) (W.contents (device_of output.old))
        (W.contents (device_of output.new))) }
    ensures touched { Touches drive.now.save (F.holds files.old) (F.holds files.new) }
    ensures cut { CutsInput drive.now.save drive.now.verified.now (control drive.now.controller.now)
        store.old drive.now.most (R.remaining (device_of input.old)) (W.contents (device_of
        output.old)) (W.contents (device_of output.new)) (F.holds files.old) (F.holds files.new) }
{
    let mut line = Vec::new(drive.alloc);
    let mut chunk = [0; CHUNK];
    let mut unsaved = 0;
    for _call in 0..u64::MAX {
        let Ok(count) = input.read(&mut chunk) else {
            return Err(Failure::FileFault(STREAM));
        };
        if count == 0 {
            return drive_rest(drive, &line, store, &mut unsaved, files, output);
        }
        let bytes = &chunk[..count];
        drive_bytes(drive, bytes, &mut line, store, &mut unsaved, files, output)?;
    }
    Err(Failure::FileFault(STREAM))
}

/// Does a cycle for the bytes after the last line feed, if there are any.
fn drive_rest<'a, F: Files, W: Write>(
    drive: &Drive<'a, '_>,
    line: &[u8],
    store: &mut [i64],
    unsaved: &mut u64,
    files: &mut F,
    output: &mut Counted<W>,
) -> Fallible<'a, ()>
    requires words { length store.old ≡ length (control
        drive.now.controller.now).image.globals.items }
    requires output { faults_of output.old < u64.MAX }
    requires same { drive.now.verified.now ≡ (control drive.now.controller.now).image }
    requires few { unsaved.old ≤ drive.now.most }
    ensures fault { TellsFault (faults_of output.old) (faults_of output.new) result }
    ensures failure { IfErr result (λ failure. 3 < status_of failure) }
    ensures driven { OnOk result (Drives (control drive.now.controller.now) store.old store.new
        (last_line line.now) (W.contents (device_of output.old))
        (W.contents (device_of output.new))) }
    ensures touched { Touches drive.now.save (F.holds files.old) (F.holds files.new) }
    ensures cut { CutsLines drive.now.save drive.now.verified.now (control drive.now.controller.now)
        store.old drive.now.most (last_line line.now) unsaved.old (W.contents (device_of
        output.old)) (W.contents (device_of output.new)) (F.holds files.old) (F.holds files.new) }
{
    if line.is_empty() {
        return Ok(());
    }
    drive_line(drive, line, store, unsaved, files, output)
}

/// Does a cycle for each line that ends in these bytes. `line` holds the part of a line that has
/// been read, and one byte more than the limit for a line that is too long.
fn drive_bytes<'a, F: Files, W: Write>(
    drive: &Drive<'a, '_>,
    bytes: &[u8],
    line: &mut Vec<u8>,
    store: &mut [i64],
    unsaved: &mut u64,
    files: &mut F,
    output: &mut Counted<W>,
) -> Fallible<'a, ()>
    requires words { length store.old ≡ length (control
        drive.now.controller.now).image.globals.items }
    requires output { faults_of output.old < u64.MAX }
    requires same { drive.now.verified.now ≡ (control drive.now.controller.now).image }
    requires few { unsaved.old ≤ drive.now.most }
    ensures fault { TellsFault (faults_of output.old) (faults_of output.new) result }
    ensures failure { IfErr result (λ failure. 3 < status_of failure) }
    ensures line { OnOk result (line.new.items ≡ begun line.old.items bytes.now) }
    ensures driven { OnOk result (Drives (control drive.now.controller.now) store.old store.new
        (whole_lines line.old.items bytes.now) (W.contents (device_of output.old))
        (W.contents (device_of output.new))) }
    ensures few { unsaved.new ≤ drive.now.most }
    ensures touched { Touches drive.now.save (F.holds files.old) (F.holds files.new) }
    ensures saved { OnOk result (Advances drive.now.save drive.now.verified.now
        (control drive.now.controller.now) store.old (whole_lines line.old.items bytes.now)
        unsaved.old unsaved.new (F.holds files.old) (F.holds files.new)) }
    ensures cut { IfErr result (λ _. CutsLines drive.now.save drive.now.verified.now (control
        drive.now.controller.now) store.old drive.now.most (whole_lines line.old.items bytes.now)
        unsaved.old (W.contents (device_of output.old)) (W.contents (device_of output.new)) (F.holds
        files.old) (F.holds files.new)) }
{
    for byte in bytes {
        if *byte == b'\n' {
            drive_line(drive, line, store, unsaved, files, output)?;
            line.clear();
        } else if line.len() <= LINE_LIMIT {
            line.push(*byte)?;
        }
    }
    Ok(())
}

/// Does a cycle, saves its store and then writes its line.
fn drive_line<'a, F: Files, W: Write>(
    drive: &Drive<'a, '_>,
    line: &[u8],
    store: &mut [i64],
    unsaved: &mut u64,
    files: &mut F,
    output: &mut Counted<W>,
) -> Fallible<'a, ()>
    requires words { length store.old ≡ length (control
        drive.now.controller.now).image.globals.items }
    requires output { faults_of output.old < u64.MAX }
    requires same { drive.now.verified.now ≡ (control drive.now.controller.now).image }
    requires few { unsaved.old ≤ drive.now.most }
    ensures fault { TellsFault (faults_of output.old) (faults_of output.new) result }
    ensures failure { IfErr result (λ failure. 3 < status_of failure) }
    ensures few { unsaved.new ≤ drive.now.most }
    ensures touched { Touches drive.now.save (F.holds files.old) (F.holds files.new) }
    ensures saved { OnOk result (Advances drive.now.save drive.now.verified.now
        (control drive.now.controller.now) store.old (line.now ∷ []) unsaved.old unsaved.new
        (F.holds files.old) (F.holds files.new)) }
    ensures cut { CutsLines drive.now.save drive.now.verified.now (control drive.now.controller.now)
        store.old drive.now.most (line.now ∷ []) unsaved.old (W.contents (device_of output.old))
        (W.contents (device_of output.new)) (F.holds files.old) (F.holds files.new) }
    ensures written { OnOk result (Appends (W.contents (device_of output.old))
        (W.contents (device_of output.new))
        (cycle (control drive.now.controller.now) store.old line.now).line) }
    ensures store { OnOk result
        (store.new ≡ (cycle (control drive.now.controller.now) store.old line.now).store) }
{
    match drive.controller.cycle(drive.alloc, line, store) {
        Ok((_ending, text)) => {
            save_line(drive, store, unsaved, files)?;
            write(text.as_slice(), output)
        }
        Err(_) => Err(Failure::Memory),
    }
}

/// The line of a budget below the bound.
fn short_line(alloc: Global, budget: u64, most: u64) -> Result<Vec<u8>, AllocError>
    ensures { IfOk result (λ text. text.items ≡ short_line budget most) }
{
    let mut text = Vec::new(alloc);
    text.extend_from_slice(b"budget below the bound: ")?;
    put_number(&mut text, budget as usize)?;
    text.extend_from_slice(b" of ")?;
    put_number(&mut text, most as usize)?;
    text.extend_from_slice(b" instructions\n")?;
    Ok(text)
}

/// Whether a budget is enough for an image: it isn't below the bound, or the image is steady. If it
/// isn't enough, or no bound is found, the line that says so.
fn judged(
    alloc: Global,
    classes: &Lattice,
    verified: &Verified,
    budget: u64,
) -> Result<Result<(), Vec<u8>>, AllocError>
    ensures { IfOk result (λ answer. MatchResult answer
        (λ _. IsEnough classes.now verified.now budget)
        (λ line. IsShort classes.now verified.now budget line.items)) }
{
    let most = match enough_budget(alloc, verified)? {
        Ok(most) => most,
        Err(line) => return Ok(Err(line)),
    };
    if most <= budget {
        return Ok(Ok(()));
    }
    match steady_in(alloc, classes, verified) {
        Ok(()) => Ok(Ok(())),
        Err(error) => match error {
            SteadyError::Memory => Err(AllocError),
            _ => {
                let line = short_line(alloc, budget, most)?;
                Ok(Err(line))
            }
        },
    }
}

/// Lets a request go on with a budget that is enough, or with any budget if that is requested. The
/// note then gets the line that says that it isn't enough.
pub(crate) fn admit<'a>(
    alloc: Global,
    is_unbounded: bool,
    classes: &Lattice,
    verified: &Verified,
    budget: u64,
    note: &mut Vec<u8>,
) -> Fallible<'a, ()>
    ensures admitted { OnOk result
        (IsAdmitted is_unbounded classes.now verified.now budget) }
    ensures told { note.old.items ≡ []
        → OnOk result (TellsBudget is_unbounded classes.now verified.now budget note.new.items) }
    ensures quiet { IfErr result (λ _. note.new.items ≡ note.old.items) }
    ensures failed { IfErr result (FailsBy (λ reason. ⊥) (λ failure.
        (is_unbounded ≡ false) × SaysShort classes.now verified.now budget failure)) }
{
    match judged(alloc, classes, verified, budget)? {
        Ok(()) => Ok(()),
        Err(line) => {
            if !is_unbounded {
                return Err(Failure::Refused(line, None));
            }
            note.extend_from_slice(&line)?;
            Ok(())
        }
    }
}

/// The number of instructions of a budget for the runs of an image.
pub(crate) fn budget_of<'a>(alloc: Global, budget: Budget, verified: &Verified) -> Fallible<'a, u64>
    ensures budget { IfOk result (IsBudgetOf budget verified.now) }
    ensures failed { IfErr result (FailsBy (λ reason. ⊥) (LacksBound budget verified.now)) }
{
    match budget {
        Budget::Number(number) => Ok(number),
        Budget::Auto => most_of(alloc, verified),
    }
}
