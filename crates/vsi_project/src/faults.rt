//! Why a project file is refused.

use std::alloc::{AllocError, AllocFailed, Global};
use thiserror::Error;
use vsi_syntax::put_line_column;
use vsi_telling::{Part, put_safe, say};

/// Why a project file is refused.
#[derive(Debug, Drop, Error)]
pub enum ProjectError {
    /// The file has a fault at this line and column, which this sentence explains.
    #[error("the project file has a fault at line {0}, column {1}")]
    Fault(usize, usize, Vec<u8>),
    /// Memory ran out.
    #[error("out of memory")]
    Memory,
}

impl From<AllocError> for ProjectError {
    fn from(_error: AllocError) -> ProjectError {
        ProjectError::Memory
    }
}

impl<T: Drop> From<AllocFailed<T>> for ProjectError {
    fn from(_error: AllocFailed<T>) -> ProjectError {
        ProjectError::Memory
    }
}

impl ProjectError {
    /// A fault at a line and a column, with a part in place of each `%` of its sentence.
    pub(crate) fn at(
        alloc: Global,
        place: (usize, usize),
        words: &str,
        parts: &[Part<'_>],
    ) -> ProjectError {
        let mut sentence = Vec::new(alloc);
        match say(&mut sentence, words, parts) {
            Ok(()) => ProjectError::Fault(place.0, place.1, sentence),
            Err(_error) => ProjectError::Memory,
        }
    }

    /// The fault in a line, without a line feed: `PATH:LINE:COLUMN: project fault: SENTENCE`. Every
    /// byte is printable ASCII.
    pub fn line(&self, alloc: Global, path: &str) -> Result<Vec<u8>, AllocError> {
        let mut line = Vec::new(alloc);
        put_safe(&mut line, path.as_bytes())?;
        line.extend_from_slice(b":")?;
        match self {
            ProjectError::Fault(row, column, sentence) => {
                put_line_column(&mut line, *row, *column)?;
                line.extend_from_slice(b": project fault: ")?;
                put_safe(&mut line, sentence.trim_ascii_end())?;
            }
            ProjectError::Memory => line.extend_from_slice(b" out of memory")?,
        }
        Ok(line)
    }
}
