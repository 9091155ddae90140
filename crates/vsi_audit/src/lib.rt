//! Images from elsewhere, judged without their source.
//!
//! The input is a verified image, whoever made it. `audit_in` reads the commands back from its
//! code, compiles them again, compares the result with the image's code, and judges their flows. An
//! accepted image is noninterfering, however the commands were read back; code that is that of
//! commands within the limits of texts is always read back. `source_text` writes the commands as a
//! text, reads the text again, and compares both with the code and the commands. `audit_text`
//! writes why an image is refused. `image_flows` hands out the table of flows of the commands.
//!
//! `laws` says that no compiled image is refused as code without commands.
//!
//! To be believed: `specs/Flows`, `specs/Laws`, `specs/MadeNames`, `specs/Refusal`, `specs/Standing`, `specs/Structure`,
//! `specs/Telling`, `specs/Text` and `specs/Writing`; the other files of `specs/` are only steps of
//! proofs.
#![tactic(auto)]

mod audit;
mod builder;
mod flow;
mod lasting;
pub mod laws;
mod names;
mod reading;
mod source;
mod writing;

pub use audit::audit_in;
pub use flow::{AuditError, audit_text, image_flows};
pub use source::source_text;
