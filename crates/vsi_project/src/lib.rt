//! Projects: the programs that a project file `vsi.toml` names, and how each is judged.
//!
//! `read_project` reads a project file, whose paths can't lead out of its folder. `commands` lists
//! the commands that build, print or report its programs, `index_page` links their reports, and
//! `new_project` has the files of a new project. To be believed: all files of `specs/`.
#![tactic(auto)]

mod faults;
mod making;
mod pages;
mod places;
mod reader;
mod template;

pub use faults::ProjectError;
pub use making::commands;
pub use pages::{Row, index_page};
pub use reader::{Program, Project, is_program_name, read_project};
pub use template::new_project;
