//! A language server over messages: texts are opened, changed and judged while they are typed.
//!
//! `Server` takes the bytes of a client as they come. `next_message` cuts them into messages,
//! `obey` does what one of them asks, `judge` takes the bytes of each file that is wanted for it,
//! and `outgoing` gives the bytes for the client: messages, each after its length, and nothing else
//! (clause `framed`). No call reads or writes a device.
//!
//! `objects_in` lists errors, and then warnings or further errors: there is an error exactly if the
//! text is refused, and only warnings come after the errors of a text that has a program (clause
//! `exact`). `raised_text` is the text with the least raises, which is accepted (clause
//! `accepted`), under the title that names these raises (clause `title` of `raising_title`).
//! `changes_to` makes another text by changes of single tokens (clause `made`).
//! `laid_out` keeps the program and the comments (clause `laid`). Only tests show which messages
//! there are, where an error points, and what it says.
//!
//! To be believed: all files of `specs/`, and the definitions of the crates below that the clauses
//! cite.
#![tactic(auto)]

mod diagnostics;
mod document;
mod documents;
mod projects;
mod reading;
mod repairs;
mod server;

pub use document::framed;
pub use projects::{MOST_FILES, Wanted};
pub use server::Server;
