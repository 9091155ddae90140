//! The source texts below a folder.

use std::alloc::{AllocError, AllocFailed};
use std::fs::DirEntry;
use std::io::ErrorKind;
use std::{fs, io};

/// The most source texts below a folder.
const MOST_SOURCES: usize = 10_000;

/// How many folders may be within one another below the first one.
const MOST_LEVELS: u32 = 64;

/// The most folders that are listed.
const MOST_FOLDERS: u32 = 1_000_000;

/// The end of the name of a source text.
const ENDING: &str = ".vsi";

/// Why the source texts below a folder aren't listed.
#[derive(Drop)]
pub(crate) enum FolderError {
    /// There is none.
    NoSource,
    /// There are too many of them, or too many folders.
    TooMany,
    /// Too many folders are within one another.
    TooDeep,
    /// The folder at this path, or a name there, can't be read.
    Unlisted(String, ErrorKind),
    /// An allocation failed.
    Memory,
}

impl From<AllocError> for FolderError {
    /// Lack of memory.
    fn from(_: AllocError) -> FolderError {
        FolderError::Memory
    }
}

impl<T: Drop> From<AllocFailed<T>> for FolderError {
    /// Lack of memory.
    fn from(_: AllocFailed<T>) -> FolderError {
        FolderError::Memory
    }
}

/// A folder that is still to be listed, and how many folders it is below the first one.
#[derive(Drop)]
struct Folder {
    path: String,
    level: u32,
}

impl Folder {
    /// The error for this folder.
    fn error(&self, rt: &HostRuntime, error: &io::Error) -> FolderError {
        let kind = error.kind();
        match String::from_str(rt.alloc(), self.path.as_str()) {
            Ok(path) if kind != ErrorKind::OutOfMemory => FolderError::Unlisted(path, kind),
            _ => FolderError::Memory,
        }
    }

    /// The path of what has this name in the folder.
    fn path_of(&self, rt: &HostRuntime, name: &str) -> Result<String, AllocError> {
        let folder = self.path.as_str();
        let gap = if folder.ends_with('/') { "" } else { "/" };
        format!(in rt.alloc(); "{folder}{gap}{name}")
    }
}

/// A walk over folders, which follows no link to a folder.
#[derive(Drop)]
struct FolderWalk<'a> {
    rt: &'a HostRuntime,
    sources: Vec<String>,
    folders: Vec<Folder>,
}

impl FolderWalk<'_> {
    /// Adds an entry of a folder, if it is a source text or a folder.
    fn add(&mut self, folder: &Folder, entry: &DirEntry) -> Result<(), FolderError> {
        let name = entry.file_name();
        if name.starts_with('.') {
            return Ok(());
        }
        let found = match entry.metadata() {
            Ok(found) => found,
            Err(error) => return Err(folder.error(self.rt, &error)),
        };
        if found.is_dir() {
            if folder.level >= MOST_LEVELS {
                return Err(FolderError::TooDeep);
            }
            let path = folder.path_of(self.rt, name)?;
            let level = folder.level + 1;
            self.folders.push(Folder { path, level })?;
        } else if name.ends_with(ENDING) {
            let path = folder.path_of(self.rt, name)?;
            if is_file(self.rt, path.as_str()) {
                if self.sources.len() >= MOST_SOURCES {
                    return Err(FolderError::TooMany);
                }
                self.sources.push(path)?;
            }
        }
        Ok(())
    }

    /// Adds all entries of a folder.
    fn list(&mut self, folder: &Folder) -> Result<(), FolderError> {
        let entries = match fs::read_dir(self.rt, folder.path.as_str()) {
            Ok(entries) => entries,
            Err(error) => return Err(folder.error(self.rt, &error)),
        };
        for entry in entries {
            match entry {
                Ok(entry) => self.add(folder, &entry)?,
                Err(error) => return Err(folder.error(self.rt, &error)),
            }
        }
        Ok(())
    }
}

/// Whether there is a regular file at the path, or a link to one.
pub(crate) fn is_file(rt: &HostRuntime, path: &str) -> bool {
    fs::metadata(rt, path).is_ok_and(|found| found.is_file())
}

/// Whether there is a folder at the path, or a link to one.
pub(crate) fn is_folder(rt: &HostRuntime, path: &str) -> bool {
    fs::metadata(rt, path).is_ok_and(|found| found.is_dir())
}

/// The paths of the source texts below a folder, in the order of their bytes: the files whose names
/// end with `.vsi`, without anything whose name begins with a dot.
pub(crate) fn sources_below(rt: &HostRuntime, path: &str) -> Result<Vec<String>, FolderError> {
    let alloc = rt.alloc();
    let mut walk = FolderWalk {
        rt,
        sources: Vec::new(alloc),
        folders: Vec::new(alloc),
    };
    let path = String::from_str(alloc, path)?;
    walk.folders.push(Folder { path, level: 0 })?;
    for _turn in 0..MOST_FOLDERS {
        let Some(folder) = walk.folders.pop() else {
            if walk.sources.is_empty() {
                return Err(FolderError::NoSource);
            }
            walk.sources.sort()?;
            return Ok(walk.sources);
        };
        walk.list(&folder)?;
    }
    Err(FolderError::TooMany)
}
