//! Files that are written so that they are on the disk afterwards, beside those that they replace.

use crate::troubles::{LEADS_NOWHERE, NOT_GIVEN, NOT_REGULAR, Objection, Trouble, UNSYNCED};
use std::fs::{File, Metadata, OpenOptions, Permissions, TryLockError};
use std::io::{ErrorKind, Read, Write};
use std::os::unix::fs::{MetadataExt, OpenOptionsExt, PermissionsExt, fchown};
use std::{fs, io};

/// How often a file is looked for that is replaced meanwhile.
const MOST_LOOKS: u8 = 16;

/// The file that a request replaces, as far as it is known.
#[derive(Drop)]
pub(crate) enum Claim {
    /// The request keeps no store in it, or it can't be locked.
    Free,
    /// There was none.
    Absent,
    /// This file was at the path, and this drive has locked it.
    Locked(File),
    /// Another drive keeps it.
    Taken,
}

impl Claim {
    /// Locks the file at the path.
    pub(crate) fn of(rt: &HostRuntime, path: &str) -> Claim {
        for _look in 0..MOST_LOOKS {
            let opened = match fs::symlink_metadata(rt, path) {
                Ok(found) if found.is_file() => open_found(rt, path, &found),
                Ok(_) => None,
                Err(error) if error.kind() == ErrorKind::NotFound => return Claim::Absent,
                Err(_) => None,
            };
            let Some(file) = opened else {
                return Claim::Free;
            };
            match file.try_lock() {
                Ok(()) if is_at(rt, &file, path) => return Claim::held(&file),
                Ok(()) => {}
                Err(TryLockError::WouldBlock) => return Claim::Taken,
                Err(TryLockError::Error(_)) => return Claim::Free,
            }
        }
        Claim::Taken
    }

    /// Gives a new file the name of the one at the path, unless that isn't the one that this drive
    /// has locked.
    pub(crate) fn put(&self, rt: &HostRuntime, name: &str, path: &str) -> Result<(), Trouble> {
        match self {
            Claim::Free => Ok(fs::rename(rt, name, path)?),
            Claim::Absent => put_first(rt, name, path),
            Claim::Locked(file) if is_at(rt, file, path) => Ok(fs::rename(rt, name, path)?),
            Claim::Locked(_) | Claim::Taken => put_first(rt, name, path),
        }
    }

    /// Takes note that this new file, which is locked, is at the path.
    pub(crate) fn hold(&mut self, file: &File) {
        if !matches!(self, Claim::Free) {
            *self = Claim::held(file);
        }
    }

    /// The claim of a locked file. It is held by another handle, whose number is none of a standard
    /// stream, so that nothing is written into it where such a stream is closed. Without one the
    /// next file finds its name taken.
    fn held(file: &File) -> Claim {
        match file.try_clone() {
            Ok(other) => Claim::Locked(other),
            Err(_) => Claim::Absent,
        }
    }
}

/// Gives a new file a name that nothing has: as its second name, which the system allows only to
/// the quickest drive, and then the first one goes. Where files have no second names, it is moved.
fn put_first(rt: &HostRuntime, name: &str, path: &str) -> Result<(), Trouble> {
    match fs::hard_link(rt, name, path) {
        Ok(()) => {
            let _ = fs::remove_file(rt, name);
            Ok(())
        }
        Err(error) if error.kind() == ErrorKind::AlreadyExists => Err(Trouble::Objection(
            Objection::Changed,
        )),
        Err(_) => Ok(fs::rename(rt, name, path)?),
    }
}

/// How many names are tried beside the first one.
const MOST_NAMES: u8 = 16;

/// The bit of a file's mode that says whether its owner may write it.
const OWNER_WRITES: u32 = 0o200;

/// How many bytes are compared at a time.
const CHUNK: usize = 4096;

/// The folder that shows the program's own process, whose owner is the user.
const PROCESS: &str = "/proc/self";

/// The making of a new file beside another one.
#[derive(Clone, Copy)]
pub(crate) struct Making<'a> {
    /// The first name.
    pub(crate) fresh: &'a str,
    pub(crate) mode: u32,
    /// The bytes of which a leftover has the first ones, if other files with such a name stay.
    pub(crate) bytes: Option<&'a [u8]>,
}

/// A new file, and its name if that isn't the first one.
pub(crate) type Made = (File, Option<String>);

/// Makes a file with the first name, or with that and a number: never one that is there already,
/// nor one that a link leads to. A leftover of this user at the name is removed before.
pub(crate) fn create_beside(rt: &HostRuntime, making: Making<'_>) -> io::Result<Made> {
    if let Some(file) = take(rt, making, making.fresh)? {
        return Ok((file, None));
    }
    for number in 1..=MOST_NAMES {
        let fresh = making.fresh;
        let name = format!(in rt.alloc(); "{fresh}{number}")?;
        if let Some(file) = take(rt, making, name.as_str())? {
            return Ok((file, Some(name)));
        }
    }
    Err(io::Error::from(ErrorKind::AlreadyExists))
}

/// Removes the leftovers at the numbered names, as far as there is memory for the names.
pub(crate) fn sweep(rt: &HostRuntime, making: Making<'_>) {
    for number in 1..=MOST_NAMES {
        let fresh = making.fresh;
        if let Ok(name) = format!(in rt.alloc(); "{fresh}{number}") {
            let _ = clear(rt, making, name.as_str());
        }
    }
}

/// Makes and locks a file with the name, in place of a leftover if there is one; nothing if the
/// name is taken.
fn take(rt: &HostRuntime, making: Making<'_>, name: &str) -> io::Result<Option<File>> {
    let made = create_locked(rt, name, making.mode)?;
    if made.is_some() || !clear(rt, making, name) {
        return Ok(made);
    }
    create_locked(rt, name, making.mode)
}

/// Makes and locks a file with the name; nothing if the name is taken, or if another instance held
/// the new file to be a leftover before it was locked. Where the system locks no files, no instance
/// removes leftovers.
fn create_locked(rt: &HostRuntime, name: &str, mode: u32) -> io::Result<Option<File>> {
    let mut options = OpenOptions::new();
    options.write(true).create_new(true).mode(mode);
    let file = match options.open(rt, name) {
        Ok(file) => file,
        Err(error) if error.kind() == ErrorKind::AlreadyExists => return Ok(None),
        Err(error) => return Err(error),
    };
    let is_kept = match file.try_lock() {
        Ok(()) => is_at(rt, &file, name),
        Err(error) => io::Error::from(error).kind() != ErrorKind::WouldBlock,
    };
    Ok(if is_kept { Some(file) } else { None })
}

/// Whether this is the file with the name, which is no link.
pub(crate) fn is_at(rt: &HostRuntime, file: &File, name: &str) -> bool {
    match (file.metadata(), fs::symlink_metadata(rt, name)) {
        (Ok(own), Ok(found)) => own.dev() == found.dev() && own.ino() == found.ino(),
        _ => false,
    }
}

/// Removes the file with the name if it is a leftover, and returns whether it was.
fn clear(rt: &HostRuntime, making: Making<'_>, name: &str) -> bool {
    let Some(file) = open_own(rt, name) else {
        return false;
    };
    if file.try_lock().is_err() || !is_at(rt, &file, name) {
        return false;
    }
    if let Some(bytes) = making.bytes
        && !is_beginning(&file, bytes)
    {
        return false;
    }
    fs::remove_file(rt, name).is_ok()
}

/// Opens the file with the name if it is a regular file of this user without another name.
fn open_own(rt: &HostRuntime, name: &str) -> Option<File> {
    let found = fs::symlink_metadata(rt, name).ok()?;
    let user = fs::metadata(rt, PROCESS).ok()?.uid();
    if !found.is_file() || found.uid() != user || found.nlink() != 1 {
        return None;
    }
    open_found(rt, name, &found)
}

/// Opens a regular file that was found. Where it may be written, it is opened to be written as
/// well: so is no pipe that takes its place meanwhile waited for.
pub(crate) fn open_found(rt: &HostRuntime, name: &str, found: &Metadata) -> Option<File> {
    let is_writable = found.mode() & OWNER_WRITES != 0;
    let mut options = OpenOptions::new();
    options.read(true).write(is_writable);
    options.open(rt, name).ok()
}

/// Whether a file has the first ones of these bytes, or all, and nothing else.
fn is_beginning(mut file: &File, bytes: &[u8]) -> bool {
    let mut rest = bytes;
    let mut chunk = [0; CHUNK];
    for _read in 0..=bytes.len() {
        let Ok(count) = file.read(&mut chunk) else {
            return false;
        };
        if count == 0 {
            return true;
        }
        match rest.strip_prefix(&chunk[..count]) {
            Some(after) => rest = after,
            None => return false,
        }
    }
    false
}

/// The bits of a file's mode that say who may read, write and run it.
const RIGHTS: u32 = 0o777;

/// The bits of a file's mode that let users besides its owner read or write it.
const OPEN_TO_OTHERS: u32 = 0o066;

/// The bytes of a file, whether other users may neither own, read nor write it, and the claim to
/// the file that it replaces.
#[derive(Clone, Copy)]
pub(crate) struct Filling<'a> {
    pub(crate) bytes: &'a [u8],
    pub(crate) is_private: bool,
    pub(crate) claim: &'a Claim,
}

/// Has the names in the folder of the path on the disk.
pub(crate) fn sync_folder(rt: &HostRuntime, path: &str) -> Result<(), Trouble> {
    let folder = match path.rsplit_once('/') {
        Some(("", _)) => "/",
        Some((folder, _)) => folder,
        None => ".",
    };
    let synced = match File::open(rt, folder) {
        Ok(folder) => folder.sync_all(),
        Err(error) => Err(error),
    };
    match synced {
        Ok(()) => Ok(()),
        Err(error) if error.kind() == ErrorKind::NotFound => Err(Trouble::Fault(None)),
        Err(_) => Err(Trouble::of(UNSYNCED)),
    }
}

/// Fills a new file, whose name is `fresh` unless it has another one, and puts it in the place of
/// the one at the path.
pub(crate) fn replace(
    rt: &HostRuntime,
    path: &str,
    fresh: &str,
    made: Made,
    filling: Filling<'_>,
) -> Result<File, Trouble> {
    let (file, numbered) = made;
    match &numbered {
        Some(name) => put_in_place(rt, path, &file, name.as_str(), filling)?,
        None => put_in_place(rt, path, &file, fresh, filling)?,
    }
    Ok(file)
}

/// Fills a new file, and gives it the name of the one at the path once it is on the disk; the file
/// stays open, so that it is locked until then.
fn put_in_place(
    rt: &HostRuntime,
    path: &str,
    file: &File,
    name: &str,
    filling: Filling<'_>,
) -> Result<(), Trouble> {
    let mut done = fill(rt, file, path, filling);
    if done.is_ok() {
        done = filling.claim.put(rt, name, path);
    }
    if done.is_err() {
        let _ = fs::remove_file(rt, name);
        return done;
    }
    sync_folder(rt, path)
}

/// Gives the file the bytes, and the owner and the rights of the one at the path, if there is one;
/// all of that is on the disk afterwards.
fn fill(rt: &HostRuntime, file: &File, path: &str, filling: Filling<'_>) -> Result<(), Trouble> {
    let old = match fs::symlink_metadata(rt, path) {
        Ok(old) if old.is_file() => Some(old),
        Ok(_) => return Err(Trouble::of(NOT_REGULAR)),
        Err(error) if error.kind() == ErrorKind::NotFound => None,
        Err(error) => return Err(Trouble::from(error)),
    };
    if let Some(old) = &old
        && filling.is_private
    {
        keep_private(file, old)?;
    }
    let mut writer = file;
    writer.write_all(filling.bytes)?;
    if let Some(old) = &old {
        let made = file.metadata()?;
        let is_given = made.uid() == old.uid() && made.gid() == old.gid();
        if !is_given && fchown(file, Some(old.uid()), Some(old.gid())).is_err() {
            return Err(Trouble::of(NOT_GIVEN));
        }
        file.set_permissions(Permissions::from_mode(old.mode() & RIGHTS))?;
    }
    Ok(file.sync_all()?)
}

/// Objects to a file that isn't owned by the owner of the new one, or that others may read or
/// write.
fn keep_private(file: &File, old: &Metadata) -> Result<(), Trouble> {
    match file.metadata() {
        Ok(made) if made.uid() != old.uid() => Err(Trouble::Objection(Objection::NotOwn)),
        Ok(_) if old.mode() & OPEN_TO_OTHERS != 0 => Err(Trouble::Objection(Objection::NotPrivate)),
        Ok(_) => Ok(()),
        Err(error) => Err(Trouble::from(error)),
    }
}

/// Fills the file at the path as a whole, by a new one beside it with this mode. A device, a pipe,
/// the target of a link and a file in a folder that can't be written to are filled where they are,
/// and so is any file if there is no memory for a name.
pub(crate) fn fill_whole(
    rt: &HostRuntime,
    path: &str,
    mode: u32,
    filling: Filling<'_>,
) -> Result<(), Trouble> {
    // A new file may take the place of nothing, or of a file of its own that this user may write.
    let may_replace = match fs::symlink_metadata(rt, path) {
        Ok(found) => found.is_file() && OpenOptions::new().write(true).open(rt, path).is_ok(),
        Err(error) => error.kind() == ErrorKind::NotFound,
    };
    if !may_replace {
        return fill_there(rt, path, filling.bytes);
    }
    sync_folder(rt, path)?;
    let Ok(fresh) = format!(in rt.alloc(); "{path}.new") else {
        return fill_there(rt, path, filling.bytes);
    };
    let making = Making {
        fresh: fresh.as_str(),
        mode,
        bytes: Some(filling.bytes),
    };
    match create_beside(rt, making) {
        Ok(made) => {
            replace(rt, path, making.fresh, made, filling)?;
            Ok(())
        }
        Err(_) => fill_there(rt, path, filling.bytes),
    }
}

/// Empties and fills the file at the path, which is on the disk afterwards unless it is a device or
/// a pipe.
fn fill_there(rt: &HostRuntime, path: &str, bytes: &[u8]) -> Result<(), Trouble> {
    // A link to nothing would be made where somebody else wants it.
    let is_link = fs::symlink_metadata(rt, path).is_ok_and(|found| found.is_symlink());
    if is_link && fs::metadata(rt, path).is_err() {
        return Err(Trouble::of(LEADS_NOWHERE));
    }
    let mut file = File::create(rt, path)?;
    file.write_all(bytes)?;
    if !file.metadata()?.is_file() {
        return Ok(());
    }
    file.sync_all()?;
    sync_target(rt, path)
}

/// Has the name of the file at the path on the disk, in the folder of its target if it is a link. A
/// file without a name has none to keep. Where there is no memory for the target's path, its name
/// isn't synced: the file was there before, and its bytes are on the disk.
fn sync_target(rt: &HostRuntime, path: &str) -> Result<(), Trouble> {
    match fs::symlink_metadata(rt, path) {
        Ok(found) if found.is_symlink() => {}
        _ => return sync_folder(rt, path),
    }
    match fs::canonicalize(rt, path) {
        Ok(target) => sync_folder(rt, target.as_str()),
        Err(error) => match error.kind() {
            // It has no path, or there is no memory for one.
            ErrorKind::NotFound | ErrorKind::OutOfMemory => Ok(()),
            _ => Err(Trouble::from(error)),
        },
    }
}
