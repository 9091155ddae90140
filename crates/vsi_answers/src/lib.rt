//! The answer of the program to each request, from the bytes of its files.
//!
//! There is a function for each subcommand: it answers the text for standard output, or the reason
//! why there is none. Its contract is one definition of `specs/Requests`; `specs/Judged` defines
//! when a file is valid and the report about one that isn't. Nothing here reads or writes a device.
//!
//! A refusal is one value, from whichever layer. `refusal_diagnostic` makes the value of a refused
//! source text, and `fault_diagnostic` that of any other file; `specs/Source`, `specs/Lattice` and
//! `specs/Files` define it for each error. `refusal_text` and `fault_text` write its fixed text, as
//! `specs/Texts` defines it: the line `refused: NUMBER NAME FIELDS` of `specs/Diagnostic`, and for
//! a flow the explanation of its walk. `refusal_json` writes the value as a line of JSON, as
//! `specs/Json` defines it. `refusal_text_of` and `refusal_json_of` do the same for a source text
//! that was read already.
//!
//! `warnings_of` lists the warnings about a text that may mean something else than its author does,
//! in the order of the text; `warning_lines` writes a line for each. A text with a warning is as
//! good as any other. `unchanged_guards`, `unread_letvars` and `is_unused_global` decide which
//! loops, letvars and globals are warned of (clauses `exact`). Their places, and the other
//! warnings, are only tested.
//!
//! To be believed: all files of `specs/` but `specs/Stamps`, which only supports proofs.
#![tactic(auto)]

mod bounds;
mod diagnostic;
mod indented;
mod json;
pub mod laws;
mod lines;
mod loops;
mod object;
mod texts;
mod unanswered;
mod uses;
mod warning;

pub use bounds::{
    BoundAnswer, Place, bound, bound_in, compare, declared_lattice, enough_budget, judged_image,
    list, run, run_source, start_words, view,
};
pub use diagnostic::{Diagnostic, Fault, Field, fault_diagnostic, line_text, refusal_diagnostic};
pub use json::{
    accepted_json, refusal_json, refusal_json_of, refusal_object, source_objects, without_end,
};
pub use lines::{fault_text, refusal_text, refusal_text_of};
pub use loops::unchanged_guards;
pub use object::{Object, Objects};
pub use texts::{
    apply, build, check, check_steady, classes, flows, format, image_text, image_text_of,
    looped_text, looped_text_of, mend,
};
pub use unanswered::{
    Cause, Observer, Unanswered, Unobserved, refused_file, refused_source, refused_start,
};
pub use uses::{is_unused_global, unread_letvars};
pub use warning::{Warning, put_message, warning_lines, warnings_of};
