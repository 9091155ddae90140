//! Hints for constructs of other languages in a text: what to write instead.
//!
//! `hint_at` finds the hint for a refused place, and `put_further` writes those for the rest of the
//! text. A text that a hint offers has been read by the reader of the language (`OffersRead`), and
//! `put_hint` writes exactly the line of a hint (`hint_line`). Which hint is chosen is only tested.
//!
//! `scan` cuts a text, `names`, `signs` and `structure` find the constructs, `drafts` and
//! `expression` write them in this language, and `offers` lets through only texts that the reader
//! of the language has read.
//!
//! To be believed: `specs/Hints` and `specs/Offered`.
#![tactic(auto)]

mod advice;
mod drafts;
mod expression;
mod names;
mod offers;
mod scan;
mod structure;

pub use advice::{hint_at, listed_places, put_further};
pub use drafts::{Hint, Reason, put_hint};
