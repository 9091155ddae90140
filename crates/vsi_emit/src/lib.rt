//! C for any controller: a verified image as one C99 function, which needs no library and only its
//! variables as memory.
//!
//! `emit_c` promises that its text is the writing of a function of a small C, `specs/SmallC`. Each
//! call of this function gives the answer of the image's run: 0 and the final globals if the run
//! halts within the budget, otherwise 1 and unchanged globals. The budget is exact, and is paid a
//! block at a time; a block also pays in advance for blocks that surely follow it, and these have
//! no test. `specs/Writing` defines how the small C is written. A test of equality or of
//! order is arithmetic on bits, and the compiler can't see its value. The exception is a test that
//! a guard takes at once: it is the test of the branch. So the only jumps of the text are those of
//! the code and those of the budget. Whenever two runs of the image are at the same positions, the
//! calls take the same jumps (`specs/Jumps`). `laws` states the consequences for compiled images
//! and for steady ones. `is_function_name` says which names the function may have.
//!
//! To be believed: `specs/Apart`, `specs/Bounded`, `specs/BoundedWriting`, `specs/Closed`,
//! `specs/Emitted`, `specs/Emulation`, `specs/Jumps`, `specs/Laws`, `specs/Names`, `specs/Origins`,
//! `specs/SmallC`, `specs/Translation`, `specs/Whole` and `specs/Writing`, and the list of keywords
//! in `src/names.rt`. The other files of `specs/` only support proofs.
#![tactic(auto)]

mod blocks;
mod emit;
mod frame;
pub mod laws;
mod marks;
mod names;
mod statements;

pub use emit::{Build, EmitError, Origin, emit_bounded, emit_bounded_header, emit_c, emit_header};
pub use names::is_function_name;
