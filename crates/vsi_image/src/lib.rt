//! Images of the stack machine: instructions, the bytes of an image, its text, and the validity of
//! images.
//!
//! `encode` writes an image as bytes and `decode` reads it back; their contracts refer to one
//! definition of the bytes, `specs/Fields`, and to the first field that isn't allowed,
//! `specs/Reading`. `verify` returns the same image as a `Verified` exactly if it is valid
//! (`specs/Valid`), else its first fault (`specs/Faults`). `listing` is the text of an image
//! (`specs/Listing`). `laws` states consequences of the definitions.
//!
//! To be believed: all files of `specs/` except `specs/Marks`, a stepping stone of proofs.
#![tactic(auto)]

mod decoder;
mod encoder;
mod instr;
pub mod laws;
mod opcodes;
mod verifier;

pub use decoder::{DecodeError, decode};
pub use encoder::{EncodeError, Limit, encode};
pub use instr::{Image, Instr, listing};
pub use verifier::{Verified, VerifyError, verify};
