//! Leaks: two stores that agree at and below a class, with runs that an observer at that class can
//! tell apart.
//!
//! `find_leak` searches an image for leaks; `leak_of` and `leak_of_text` search the image of a
//! source text, accepted or not. Every leak that they return has been run on the machine by
//! `check_leak`. Its clauses `leak` and `none` say that it returns a leak exactly if the two stores
//! show one (`specs/Leaks`). The code that proposes stores needs no proof. `leak_text` prints a
//! leak. The laws of leaks are in `laws`.
//!
//! To be believed: all files of `specs/`.
#![tactic(auto)]

mod check;
pub mod laws;
mod propose;
mod search;
mod text;
mod whole;

pub use check::{Effort, Finding, Leak, Run, Sign, check_leak};
pub use search::find_leak;
pub use text::{is_shown, leak_text};
pub use whole::{Wanted, classes_upwards, leak_of, leak_of_text};
