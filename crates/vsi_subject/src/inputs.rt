//! The files that a request has read, kept for what is said of its refusal.

use std::alloc::{AllocError, Global};
use std::cell::RefCell;
use vsi_answers::{Observer, warning_lines};
use vsi_compiler::Source;
use vsi_image::Image;
use vsi_lattice::Lattice;
use vsi_telling::{ColourMode, flows_explanation};
use vsi_types::Profile;

/// The source text that was read, or an empty one if none was.
pub fn source_of(inputs: &Inputs) -> &[u8] {
    match inputs.last(InputKind::Source) {
        Some(kept) => kept.bytes.as_slice(),
        None => b"",
    }
}

/// The kind of a file that was read.
#[derive(Clone, Copy, Debug, PartialEq, Eq)]
pub enum InputKind {
    Lattice,
    Source,
    Image,
    Store,
    Interface,
    /// The source text of the reference of an interface.
    Reference,
    /// A setting of the command line, which isn't a file.
    Setting,
    /// A list of names on the command line, which isn't one either.
    Names,
}

/// A file that was read.
#[derive(Drop)]
pub struct Kept {
    pub kind: InputKind,
    pub path: Vec<u8>,
    pub bytes: Vec<u8>,
}

/// The files that a request has read, for the explanation or the line of JSON of its refusal.
#[derive(Drop)]
pub struct Inputs {
    pub alloc: Global,
    /// Whether a store file was read whose checksum isn't that of the rest.
    pub is_broken: bool,
    /// The explanation of a refused flow, made while its source text was at hand.
    flow_lines: Option<Result<Vec<u8>, AllocError>>,
    kept: Vec<Kept>,
}

impl Inputs {
    /// The explanation of a refused flow, if one was kept.
    pub fn flow_lines(&self) -> Option<Result<Vec<u8>, AllocError>> {
        match &self.flow_lines {
            Some(Ok(lines)) => Some(Vec::from_slice(self.alloc, lines)),
            Some(Err(_)) => Some(Err(AllocError)),
            None => None,
        }
    }

    /// The last file of this kind that was read. A lattice file that was read before an interface
    /// is that of an older interface, and doesn't count.
    pub fn last(&self, kind: InputKind) -> Option<&Kept> {
        let mut found = None;
        for kept in &self.kept {
            if kept.kind == kind {
                found = Some(kept);
            } else if kind == InputKind::Lattice && kept.kind == InputKind::Interface {
                found = None;
            }
        }
        found
    }

    /// The file of this kind that was read after this many others of the kind.
    pub fn behind(&self, kind: InputKind, others: usize) -> Option<&Kept> {
        let mut left = others;
        for kept in &self.kept {
            if kept.kind != kind {
                continue;
            }
            if left == 0 {
                return Some(kept);
            }
            left -= 1;
        }
        None
    }
}

/// Where a request keeps the files that it reads.
#[derive(Drop)]
pub struct InputCache {
    pub alloc: Global,
    /// Whether files are kept: refusals are explained or answered with JSON.
    pub keeps_files: bool,
    /// How explanations of refusals are shown, if they are requested.
    mode: Option<ColourMode>,
    inputs: RefCell<Inputs>,
}

impl InputCache {
    /// An empty cache, which keeps files for explanations or for positions in lines of JSON.
    pub fn new(alloc: Global, mode: Option<ColourMode>, answers_json: bool) -> InputCache {
        let inputs = Inputs {
            alloc,
            is_broken: false,
            flow_lines: None,
            kept: Vec::new(alloc),
        };
        InputCache {
            alloc,
            keeps_files: mode.is_some() || answers_json,
            mode,
            inputs: RefCell::new(inputs),
        }
    }

    /// Keeps the bytes of a file, before they are judged.
    pub fn keep(&self, kind: InputKind, path: &str, bytes: &[u8]) -> Result<(), AllocError> {
        if !self.keeps_files {
            return Ok(());
        }
        let Ok(mut inputs) = self.inputs.try_borrow_mut() else {
            return Err(AllocError);
        };
        let kept = Kept {
            kind,
            path: Vec::from_slice(self.alloc, path.as_bytes())?,
            bytes: Vec::from_slice(self.alloc, bytes)?,
        };
        inputs.kept.push(kept)?;
        Ok(())
    }

    /// Notes that the checksum of a store file isn't that of the rest.
    pub(crate) fn note_broken(&self) {
        if let Ok(mut inputs) = self.inputs.try_borrow_mut() {
            inputs.is_broken = true;
        }
    }

    /// Keeps the explanation of a source text that is refused for a flow under a profile, if
    /// refusals are explained.
    fn explain_flow(&self, profile: Profile, source: &Source<'_>) {
        if let (Some(mode), Ok(mut inputs)) = (self.mode, self.inputs.try_borrow_mut()) {
            if let Some(kept) = inputs.last(InputKind::Source) {
                let lines = flows_explanation(self.alloc, mode, profile, &kept.path, source);
                inputs.flow_lines = Some(lines);
            }
        }
    }

    /// The files that were kept.
    pub fn into_inputs(self) -> Inputs {
        self.inputs.into_inner()
    }
}

/// Observes a source text that is checked.
#[derive(Drop)]
pub struct CheckObserver<'o> {
    pub cache: &'o InputCache,
    /// Gets the warnings about the text, if they are requested.
    pub note: &'o mut Vec<u8>,
    pub has_warnings: bool,
}

impl<'o> Observer for CheckObserver<'o> {
    fn read(&mut self, source: &Source<'_>) -> Result<(), AllocError> {
        if !self.has_warnings {
            return Ok(());
        }
        let lines = warning_lines(self.cache.alloc, source)?;
        self.note.extend_from_slice(&lines)
    }

    fn refused(&mut self, profile: Profile, source: &Source<'_>) {
        self.cache.explain_flow(profile, source);
    }
}

/// Observes a source text that is compiled.
#[derive(Drop)]
pub struct FlowObserver<'o> {
    pub cache: &'o InputCache,
}

impl<'o> Observer for FlowObserver<'o> {
    fn read(&mut self, _source: &Source<'_>) -> Result<(), AllocError> {
        Ok(())
    }

    fn refused(&mut self, profile: Profile, source: &Source<'_>) {
        self.cache.explain_flow(profile, source);
    }
}
