//! Controllers: a program that runs once a cycle, whose store stays in memory.
//!
//! A `Controller` does one cycle for a line (`cycle`), or one for each of several lines (`drive`).
//! A line sets globals, the image runs within a budget, and the globals that the class sees are
//! written as a line of the same form. The clauses cite `specs/Settings` for the settings of a
//! line, and `specs/Cycles` for the output of a cycle and the store after it. `view` runs the image
//! once and returns these globals a line each: see `specs/Views`. `laws` shows that the output
//! reveals nothing from above the class, but for what is released, and that no premise that runs
//! halt is needed of an image with a bound, if budgets are no smaller than it.
//!
//! `first_words` returns the words with which a run begins, from a store file and from globals that
//! are set after it: see `specs/Starts`.
//!
//! The calls that use devices count their faults. `read_all` and `write_out` move whole texts.
//! `build` reads a source text and writes the bytes of its image. `run_image` reads an image and
//! writes the output of its run, and `run_words` runs a verified image and returns the text of its
//! store. `image_bytes`, `image_bytes_of` and `verified_image` do their work without a device. The
//! clauses say which device failed and what had been written by then, and that any other output is
//! the promised one: `specs/Building` and `specs/Running` define the output, `specs/Refusing` the
//! meaning of a refusal.
//!
//! To be believed: all files of `specs/`.
#![tactic(auto)]

mod boundary;
mod controller;
mod engine;
pub mod laws;
mod running;
mod settings;
mod texts;

pub use boundary::{Boundary, BoundaryFault, StartFault, first_words, names_of};
pub use controller::{Controller, CycleEnding};
pub use engine::{
    Counted, EngineError, READ_LIMIT, build, build_in, image_bytes, image_bytes_of, read_all,
    write_out,
};
pub use running::{run_image, run_words, verified_image};
pub use settings::{LINE_LIMIT, LineFault};
pub use texts::start_fault_line;
