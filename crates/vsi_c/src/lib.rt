//! The machine for programs in C: an image's instructions and a run's words are in arrays of the
//! caller. `include/vsi.h` documents for C programmers what each function needs and returns.
//!
//! Only `vsi_load` allocates, and it frees its memory before it returns. No function has a
//! `requires`: each position, slot and depth is tested when it is used, so records that `vsi_load`
//! didn't write lead to a status. `vsi_run` promises that no run of a loaded image gets this
//! status.
//!
//! To be believed: `specs/Calls`, `specs/Cells`. The other files of `specs/` only support proofs.
#![tactic(auto)]

mod calls;
