//! The stack machine, and a bound on the instructions that an image can run.
//!
//! A `Machine` runs a verified image from one word for each global, either one instruction at a
//! time or up to a budget of instructions. It gives the number of each global, and the trace line
//! of its next instruction. `counted` runs an image and counts its instructions.
//!
//! The clauses of `run` and `step` say that the machine's state is the one given by the meaning of
//! the instructions. They include that there is such a state: the meaning gives none if an operand,
//! a slot or the instruction is missing. The law `never_stuck` says that every run of a valid image
//! has a state, and that its operands fit on the image's stack. The loop therefore checks none of
//! these. `act` executes one instruction, for code that runs an image over its own arrays. Clause
//! `exact` of `counted` says that if a run halts, the image halts within the counted number of
//! instructions, and within no smaller one. `word_cell` and `halted_cell` write the cells of texts
//! that show two runs side by side.
//!
//! `bound_of` reads commands and loops back from a verified image's code, and adds up the
//! instructions of every path through it. Code without loops takes its shortest and its longest
//! path. A loop that counts in equal steps from a known number to a known limit takes its turns,
//! each as long as its body. The clause says that the image halts from every store, after no fewer
//! and no more instructions than returned, or that the result names a loop that the search doesn't
//! get past, for the reason that is named. `laws` states the consequences for budgets.
//!
//! To be believed: `specs/Cells`, `specs/Counting`, `specs/CountTexts`, `specs/Laws`, `specs/Runs`,
//! `specs/Sound`, `specs/Trace`, `specs/Bound` and `specs/BoundLaws`; for a loop without a bound
//! also `specs/Search` and the files that it uses. `specs/Held`, `specs/Values` and
//! `specs/Stopping` only support proofs.
#![tactic(auto)]

mod bound;
mod counting;
mod interpreter;
pub mod laws;
mod loops;
mod stretches;
mod turns;

pub use bound::{Bound, Reason, bound_of};
pub use counting::{Count, count_text, counted, halted_cell, stop_text, word_cell};
pub use interpreter::{CAPACITY, INSTRUCTIONS, Machine, Outcome, Position, StartError, Words, act};
