//! The stores of drives: the first one, and those that are saved.

ghost use Rattle.std.specs.Prelude.{◌≡◌, ℕ, List, ◌<◌, IfErr, OnOk, ◌≤◌, [], length, IfOk, Err};
ghost use Rattle.vsi_subject.specs.{Holding.{Delivers, IsStoreAt}, Files.{IsFullAt, IsStoredAt}, State.{StaysAt, Touches, state_text}, Failures.{status_of}, Beginning.{IsBegunFrom}, Refusals.{NoOther, FailsBy}, Saved.{SavesLine}};
ghost use Rattle.vsi_answers.specs.Requests.{BeginsWith};

use std::alloc::Global;
use vsi_answers::start_words;
use vsi_arguments::Driving;
use vsi_drive::Controller;
use vsi_image::Verified;
use vsi_store::{sealed, store_text};
use vsi_subject::{Fallible, Files, Subject, replace};

/// A controller that is driven, and the file that receives its store.
#[derive(Drop)]
pub(crate) struct Drive<'a, 'c> {
    pub(crate) alloc: Global,
    pub(crate) controller: &'c Controller<'c>,
    pub(crate) verified: &'c Verified,
    /// The path of the file.
    pub(crate) save: Option<&'a str>,
    /// The most lines after which the store isn't saved yet.
    pub(crate) most: u64,
}

/// The path of the store with which a drive begins: that of its start store, if it has one and no
/// file is at the path of its store.
pub(crate) fn first_path<'a, F: Files>(driving: Driving<'a>, files: &F) -> Option<&'a str>
    ensures { IsBegunFrom (F.holds files.now) driving.entry result }
{
    match (driving.start, driving.execution.store) {
        (Some(start), Some(store)) if files.lacks(store) => Some(start),
        _ => driving.execution.store,
    }
}

/// The words that a store file gives to the globals of an image, or zeros without one. With
/// `is_full` each global must have a key in the file.
pub(crate) fn first_store<'a, F: Files>(
    subject: &Subject<'_, F>,
    verified: &Verified,
    path: Option<&'a str>,
    is_full: bool,
) -> Fallible<'a, Vec<i64>>
    ensures len { IfOk result
        (λ words. length words.items ≡ length verified.now.globals.items) }
    ensures stored { IfOk result (λ words.
        IsStoredAt (F.holds subject.now.files.now) path.entry verified.now words.items) }
    ensures full { IfOk result (λ words.
        IsFullAt (F.holds subject.now.files.now) path.entry verified.now is_full) }
    ensures failed { IfErr result (FailsBy (λ reason.
        (file : List ℕ) × IsStoreAt (F.holds subject.now.files.now) path.entry file
        × BeginsWith verified.now file [] is_full (Err reason)) NoOther) }
{
    let bytes = subject.store_in(path)?;
    Ok(start_words(subject.alloc, verified, &bytes, &[], is_full)?)
}

/// Writes a store to the requested file, if there is one, after the line with its checksum.
pub(crate) fn save<'a, F: Files>(
    alloc: Global,
    verified: &Verified,
    words: &[i64],
    path: Option<&'a str>,
    files: &mut F,
) -> Fallible<'a, ()>
    requires { length words.now ≡ length verified.now.globals.items }
    ensures failure { IfErr result (λ failure. 3 < status_of failure) }
    ensures saved { OnOk result (Delivers path.entry (state_text verified.now words.now)
        (F.holds files.old) (F.holds files.new)) }
    ensures touched { Touches path.entry (F.holds files.old) (F.holds files.new) }
    ensures stays { IfErr result (λ _. StaysAt path.entry (F.holds files.old) (F.holds files.new)) }
{
    match path {
        Some(path) => {
            let text = store_text(alloc, verified.image(), words)?;
            let whole = sealed(alloc, &text)?;
            replace(alloc, &whole, path, files)
        }
        None => Ok(()),
    }
}

/// Saves the store after a line, unless it is one of the lines after which it isn't saved.
pub(crate) fn save_line<'a, F: Files>(
    drive: &Drive<'a, '_>,
    words: &[i64],
    unsaved: &mut u64,
    files: &mut F,
) -> Fallible<'a, ()>
    requires len { length words.now ≡ length drive.now.verified.now.globals.items }
    requires few { unsaved.old ≤ drive.now.most }
    ensures few { unsaved.new ≤ drive.now.most }
    ensures failure { IfErr result (λ failure. 3 < status_of failure) }
    ensures saved { OnOk result (SavesLine drive.now.save
        (state_text drive.now.verified.now words.now) unsaved.old unsaved.new
        (F.holds files.old) (F.holds files.new)) }
    ensures touched { Touches drive.now.save (F.holds files.old) (F.holds files.new) }
    ensures stays { IfErr result (λ _. (unsaved.new ≡ unsaved.old)
        × StaysAt drive.now.save (F.holds files.old) (F.holds files.new)) }
{
    if *unsaved < drive.most {
        *unsaved += 1;
        return Ok(());
    }
    save(drive.alloc, drive.verified, words, drive.save, files)?;
    *unsaved = 0;
    Ok(())
}
