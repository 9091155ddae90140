//! Why a file isn't read or written, in a sentence.

ghost use Rattle.std.specs.Prelude.{Contains};
ghost use Rattle.vsi_subject.specs.Objections.{OBJECTIONS};

use std::io;
use std::io::ErrorKind;

/// Why a pipe or a device isn't read.
pub(crate) const NO_FILE: &str = "this is a pipe or a device, and a file is needed.";

/// Why a pipe, a device or a link isn't replaced.
pub(crate) const NOT_REGULAR: &str = "only a regular file is replaced, and this is none.";

/// Why nothing is made at the target of a link.
pub(crate) const LEADS_NOWHERE: &str = "this link leads to no file, and none is made there.";

/// Why a file whose folder can't be synced isn't written.
pub(crate) const UNSYNCED: &str =
    "its folder can't be opened and synced, so a cut of power might undo what is written.";

/// Why a file that another user owns isn't replaced.
pub(crate) const NOT_GIVEN: &str = "the owner and the group of this file can't be kept.";

/// Why there is no new file.
const ALL_TAKEN: &str = "all names for a new file beside this one, with .new added, are taken.";

/// Why a file is left as it is on purpose, which each user has to know.
#[derive(Clone, Copy)]
pub(crate) enum Objection {
    /// It is no image.
    NoImage,
    /// It is no store.
    NoStore,
    /// It has bytes, and nothing says of what kind.
    NotEmpty,
    /// It is a store, but not the one with which the drive began.
    OtherStore,
    /// Another user owns it.
    NotOwn,
    /// Other users may read or write it.
    NotPrivate,
    /// Another drive keeps its store in it.
    Kept,
    /// This drive hasn't put it there.
    Changed,
}

impl Objection {
    /// The sentence that says so.
    pub(crate) fn sentence(self) -> &'static str
        ensures { Contains OBJECTIONS result.now }
    {
        match self {
            Objection::NoImage => "this file is no image; only --force replaces it.",
            Objection::NoStore => "this file is no store; only --force replaces it.",
            Objection::NotEmpty => "this file isn't empty; only --force replaces it.",
            Objection::OtherStore => {
                "the drive didn't begin with this store; only --force replaces it."
            }
            Objection::NotOwn => "another user owns this file; only --force replaces it.",
            Objection::NotPrivate => {
                "other users may read or write this file, and a store may hold secrets: take these \
rights away (chmod 600), or give --force."
            }
            Objection::Kept => "another drive keeps its store in this file.",
            Objection::Changed => {
                "this file was put there since the drive began, perhaps by another drive."
            }
        }
    }
}

/// Why a file wasn't written.
#[derive(Clone, Copy)]
pub(crate) enum Trouble {
    Objection(Objection),
    /// The system doesn't allow it; the reason is there if it is known.
    Fault(Option<&'static str>),
}

impl Trouble {
    /// A fault with this reason.
    pub(crate) fn of(reason: &'static str) -> Trouble {
        Trouble::Fault(Some(reason))
    }
}

impl From<io::Error> for Trouble {
    /// The fault that the system answers.
    fn from(error: io::Error) -> Trouble {
        Trouble::Fault(reason_of(error.kind()))
    }
}

/// The reason for an error of this kind, if it says more than that the file can't be used.
pub(crate) fn reason_of(kind: ErrorKind) -> Option<&'static str> {
    match kind {
        ErrorKind::StorageFull | ErrorKind::QuotaExceeded | ErrorKind::WriteZero => {
            Some("the disk has no room for it.")
        }
        ErrorKind::FileTooLarge => Some("the system doesn't allow a file of this size."),
        ErrorKind::PermissionDenied => Some("this user may not write it, or not into its folder."),
        ErrorKind::ReadOnlyFilesystem => Some("the file system is read-only."),
        ErrorKind::AlreadyExists => Some(ALL_TAKEN),
        ErrorKind::FilesystemLoop | ErrorKind::TooManyLinks => {
            Some("there are too many links on this path.")
        }
        ErrorKind::NotADirectory => Some("a part of this path is no folder."),
        ErrorKind::InvalidFilename => Some(
            "a name on this path is too long, or is with .new added.",
        ),
        _ => None,
    }
}

/// Why a folder with an error of this kind isn't listed.
pub(crate) fn reason_of_listing(kind: ErrorKind) -> &'static str {
    match kind {
        ErrorKind::PermissionDenied => "this folder may not be listed, or not be entered.",
        ErrorKind::InvalidFilename => "a name in this folder isn't text.",
        _ => "this folder can't be listed.",
    }
}
