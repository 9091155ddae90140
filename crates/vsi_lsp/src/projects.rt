//! Project files: which one is wanted next for a document, and what it requires.

ghost use Rattle.std.specs.Prelude.{◌≡◌, Decides, IfOk, map};
ghost use Rattle.vsi_lsp.specs.Ways.{RequiresStrict, way};

use crate::document::Made;
use std::alloc::Global;
use vsi_conform::path_beside;
use vsi_project::Program;

/// A project file or a lattice file that is to be read, and the document for which it is.
#[derive(Drop)]
pub struct Wanted {
    /// The path of the file.
    pub path: String,
    pub(crate) uri: Vec<u8>,
    /// The most files that are wanted after it: none after a lattice file.
    pub(crate) left: usize,
}

impl Wanted {
    /// The project file one folder further up.
    pub(crate) fn above(&self, alloc: Global) -> Made<Option<Wanted>> {
        let (uri, left) = (self.uri.clone()?, self.left.saturating_sub(1));
        let folder = self.path.as_str().strip_suffix("/vsi.toml").unwrap_or("");
        if left == 0 || folder.is_empty() {
            return Ok(None);
        }
        let path = path_beside(alloc, folder, b"vsi.toml")?;
        Ok(Some(Wanted { path, uri, left }))
    }
}

/// The most files that are wanted for a document: the project files of its folder and of 32 folders
/// above it, and a lattice file.
pub const MOST_FILES: usize = 34;

/// The names on the way to the file at a path, without those that `..` leaves again.
fn way_to(alloc: Global, path: &[u8]) -> Made<Vec<&[u8]>>
    ensures { IfOk result (λ names. map (λ name. name.now) names.items ≡ way path.now) }
{
    let parts: Vec<&[u8]> = path.split(|byte| *byte == b'/').collect(alloc)?;
    let mut names = Vec::new(alloc);
    for part in &parts {
        match *part {
            b"" | b"." => {}
            b".." => drop(names.pop()),
            part => names.push(part)?,
        }
    }
    Ok(names)
}

/// Whether one of these programs is strict, and its source is at this path.
pub(crate) fn is_strict_at(alloc: Global, programs: &[Program], path: &[u8]) -> Made<bool>
    ensures { IfOk result (λ is. Decides is (RequiresStrict programs.now path.now)) }
{
    let names = way_to(alloc, path)?;
    for program in programs {
        if program.is_strict && way_to(alloc, program.source.as_bytes())? == names {
            return Ok(true);
        }
    }
    Ok(false)
}
