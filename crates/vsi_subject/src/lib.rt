//! What a request works on: the files that it reads, each once, and why it fails.
#![tactic(auto)]

mod failure;
mod files;
mod inputs;
mod interfaces;
mod loaded;
mod subject;

pub use failure::{Failure, Fallible, STREAM, write, write_answer};
pub use files::{Files, OutputKind, Writing, deliver, fill, replace};
pub use inputs::{CheckObserver, FlowObserver, InputCache, InputKind, Inputs, Kept, source_of};
pub use interfaces::{AskedFiles, unusable};
pub use loaded::{Loaded, Opened, Shared, load};
pub use subject::{
    Place, Subject, TWO_CLASSES, answered, class_in, declared_lattice, device_failure, faulty,
    good, made_image, most_of, profile, refused, two_classes, viewer_of, whole_in,
};
