//! The compiler, its machine and their texts as one library, with the command line that uses them.
//!
//! `compile` and `compile_in` give the image of a source text and promise what it keeps of the
//! text; `run_source` runs it. `read_lattice` gives the lattice that they need. `read_all`,
//! `write_out` and `Counted` move texts through devices. `refusal_text` and `fault_text` say why a
//! text or a file is refused. `command` carries out the arguments of a command line. The types
//! inside errors, such as `LexError` or a `Walk` of `Step`s, are exported here too. Whoever judges
//! images, interfaces or flows uses the crate that does: `vsi_audit`, `vsi_conform`, `vsi_flows`.
//!
//! To be believed: `specs/Laws`, and these files of `vsi_subject/specs`: `Words`, `Holding`,
//! `Loading`, `Driven`, `State`, `Tried`, `Shaping`, `Seeing`, `Laying`, `Raises`, `Documents`,
//! `Admitted`, `Served`, `Files`, `Interfaces`, `Surveys`, `Projects`, `Filed`, `Visible`,
//! `Boundaries`, `Steering`, `Feeding`, `Viewing`, `Performed`, `Refusals`, `Undriven`, `Reasons`,
//! `Partly`, `FaultyFiles`, `Diagnosing`, `Done`, `Screen`, `Objections`, `Works`, `Input`,
//! `Failures` but `FailsFor`, `Noted` but `Notes` and `NotesAnswer`, and the second part of
//! `Saved`. Its first part and `Walked` are lemmas of the proofs.
#![tactic(auto)]

mod advice;
mod answers;
mod command_line;
mod explanations;
pub mod laws;
mod refusals;
mod requests;
mod shortening;

pub use command_line::command;
pub use vsi_answers::{Fault, Field, fault_text, refusal_text};
pub use vsi_compiler::{
    CompileError, RunError, classes_text, classes_text_in, compile, compile_in, format_text,
    run_source,
};
pub use vsi_drive::{
    Boundary, Counted, EngineError, build, build_in, read_all, run_image, write_out,
};
pub use vsi_image::{
    DecodeError, EncodeError, Image, Instr, Limit, Verified, VerifyError, decode, encode, listing,
    verify,
};
pub use vsi_infer::Walk;
pub use vsi_lattice::{Class, Classes, Lattice, LatticeError, read_lattice};
pub use vsi_leak::Run;
pub use vsi_machine::{Machine, Outcome, StartError};
pub use vsi_scope::{ScopeError, Var};
pub use vsi_store::{StoreError, View, ViewError, read_store, store_text, view};
pub use vsi_subject::{Files, Loaded, Opened, OutputKind, Shared, Writing, load};
pub use vsi_syntax::{LexError, ParseError, Span};
pub use vsi_types::{LOOP, Profile, Rule, Step};
