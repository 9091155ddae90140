//! From a source text to a verified image, with the promises about it.
//!
//! To be believed: all files of `specs/`.
#![tactic(auto)]

mod compiler;
pub mod laws;
mod run;
mod source;
mod texts;

pub use compiler::{compile, compile_in, compile_source, image_of, unjudged_image};
pub use run::{RunError, run_source};
pub use source::{
    CompileError, Source, explanation_text, judge, read_source, resolved_program, walk_explanation,
};
pub use texts::{classes_text, classes_text_in, classes_text_of, format_text};
