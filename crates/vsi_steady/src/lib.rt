//! Images, and texts, whose jumps depend on nothing above the bottom class.
//!
//! The input is a verified image, with or without structure, whoever made it. `steady_in` gives
//! each slot the least class for the whole code and checks that the code passes with these classes.
//! Any two runs of an accepted image from stores that agree at the bottom class execute the same
//! instructions, and a class sees nothing from above it. If an image is refused for a flow, there
//! are no classes of its slots with which its code passes. `laws` states the properties of accepted
//! images for the definition of steady images. `steady_text` writes why an image is refused: for a
//! flow, a chain of steps of its code, whose first global `chain_source` returns.
//!
//! `steady_image_of` makes such an image of a source text, or answers a shortest walk from a secret
//! to a guard; `steady_explanation_of` writes the lines of the walk. `steady_explanation` reads the
//! text first.
//!
//! To be believed: all files of `specs/`.
#![tactic(auto)]

mod chain;
mod check;
pub mod laws;
mod source;
mod text;

pub use chain::chain_source;
pub use check::{SteadyError, steady_in};
pub use source::{UnsteadyError, steady_explanation, steady_explanation_of, steady_image_of};
pub use text::steady_text;
