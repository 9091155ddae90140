//! Interfaces that are fixed outside a program, and whether a text or an image conforms to one.
//!
//! `check_json` judges a source text as `vsi check` does, and writes the answer as a line of JSON
//! (`specs/Checking`); `check_json_of` does the same for a text that was read already, and
//! `unread_json` for one that can't be read. `read_interface` reads an interface file: the lattice,
//! the judgement, the globals with their classes, the required runs, and the boundaries of
//! controllers. `interface_text` writes why it is refused (`specs/Faulty`).
//!
//! `conform` reports each point in which a text differs from an interface; if there is none, the
//! text conforms to it (`specs/Conforms`). `conform_image` does the same for a verified image,
//! whoever made it (`specs/ImageConforms`), and `refused_image` says why an image isn't as a
//! profile requires. `text_rows` and `image_rows` make the points into rows (`specs/Rows`,
//! `specs/Lines`, `specs/ImageLines`), and `Conformity` writes the whole answer as lines and as
//! JSON (`specs/Conformity`). `is_within` compares the budgets of all runs with one budget
//! (`specs/Totals`). `text_reaches` and `image_reaches` list the globals that reach each released
//! output, and `are_within` says whether the interface allows them (`specs/Reaching`,
//! `specs/ReachedLines`, `specs/ImageReaching`). `compare_reference` runs an image beside that of
//! a reference from random stores, and `reference_line` reports what it finds. This is a test:
//! nothing is proved of the differences that it misses (`specs/Reference`).
//!
//! To be believed: all files of `specs/`.
#![tactic(auto)]

mod checking;
mod conforming;
mod conformity;
pub mod images;
mod interface;
mod keys;
mod reaching;
mod reader;
mod reference;
mod rows;
mod texts;

pub use checking::{
    Checked, audit_diagnostic, check_json, check_json_for, check_json_of, judgement_by,
    steady_diagnostic, unread_json, unsteady_diagnostic,
};
pub use conforming::{conform, judged, judged_of};
pub use conformity::{Conformity, Tried};
pub use images::{
    Refusal, conform_image, image_reaches, image_rows, reference_line, refused_image,
};
pub use interface::{
    Answer, Bounded, Interface, InterfaceError, Judgement, Point, Trial, fault_name,
    interface_text, is_within,
};
pub use keys::{Cycle, unknown_cycle};
pub use reaching::{Reach, are_within, flows_profile, is_among, text_reaches};
pub use reader::{InterfaceFile, Policy, path_beside, read_interface, unknown_class};
pub use reference::{Comparison, Contrast, Difference, Reference, compare_reference};
pub use rows::{Detail, Kind, Row};
pub use texts::{put_parts, put_row, refusal_lines, refusal_lines_of, text_rows};
