//! Store files, store texts, views of a run, and evidence of files.
//!
//! `read_store` returns the words of a store file, or its first fault, and `named_globals` the
//! globals that it names. `store_text` prints words as the lines of a store. `view` runs an image
//! and prints the lines that a class sees, and `compare` runs it from two stores and prints them
//! side by side. `sealed` puts a comment with the SHA-256 of a text before it, and `is_whole` says of
//! bytes that have such a line whether it is theirs. `evidence` and `conformity` write a judgement
//! and the SHA-256 of each file that was read, as lines that `sha256sum -c` takes.
//!
//! To be believed: all files of `specs/`.
#![tactic(auto)]

mod comparing;
mod endings;
mod reader;
mod views;

pub use comparing::{Comparison, RunEnding, compare};
pub use endings::{sees, store_text, view};
pub use reader::{
    AuditProfile, Filed, StoreError, conformity, evidence, is_whole, named_globals, read_store,
    sealed,
};
pub use views::{View, ViewError};
