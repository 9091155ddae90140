//! What an editor sends and names: messages in a stream, positions of a source, changes at them, and
//! renamings.
//!
//! `next_piece` finds the next message of a stream. A position is a line and the code units before a
//! place in that line, in UTF-16 or UTF-8. `offset_of` is the byte at a position, `place_of` the
//! position of a byte: every byte that begins a character, outside of a line's end, has one (clause
//! `found`), and it denotes that byte (clause `denoted`). `Marked` has the positions of many parts of
//! one text. `changed_by` is a text after changes, each of the text that the one before it left.
//! `path_beside` is the path of a file beside a document.
//!
//! `mentions_of` lists the names of a program's variables with the variables that they name. `rename`
//! proposes the changes that give a variable a new name, makes them, and answers the changes only if
//! the new text is the old one with the name at each mention of the variable (clauses `respelled` and
//! `in_order`), and its program is the old one but for the name of that variable (clause `kept`): so
//! a change that would let a name mean another variable is refused.
//!
//! To be believed: all files of `specs/`, except for `Names`.
#![tactic(auto)]

mod changes;
mod pieces;
mod places;
mod renaming;

pub use changes::{Change, changed_by};
pub use pieces::{Piece, next_piece, path_beside};
pub use places::{Encoding, Marked, Place, Range, offset_of, place_of};
pub use renaming::{Mention, mentions_of, rename};
