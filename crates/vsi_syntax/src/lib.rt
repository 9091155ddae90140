//! Tokens and trees of the language: `lex` turns a text into tokens, `parse` turns tokens into the
//! program that writes them, and `print` produces the canonical text of a program.
//!
//! `lex` promises the cut of the text or its first fault, `parse` the one program that writes the
//! tokens, and `print` exactly the canonical text. `laws` states the consequences of the
//! definitions alone: a text has one cut and one program, and printed text reads back as the same
//! program. `Op::apply` is the meaning of the operators for all layers above, and `put_number`,
//! `put_word`, `put_line_column` and `put_place` write numbers and positions for all of them.
//!
//! `layout` writes the tokens of a text as its canonical text has them, and each comment between
//! the same two tokens. The written text is a proposal: `layout` lexes it, and answers with it only
//! if it has the tokens and the comments of the text and is laid out as itself; otherwise the
//! answer is the text. So clause `laid` promises the same tokens and the same comments in their
//! order, and the law `laid_again` that a layout is laid out as itself, and `canonical_kept` that
//! it has the canonical text of the text.
//!
//! To be believed: `specs/Apart`, `specs/Canon`, `specs/CommandView`, `specs/Comments`,
//! `specs/Cut`, `specs/FaultPlaces`, `specs/Given`, `specs/Layout`, `specs/Limits`, `specs/Lines`,
//! `specs/Operators`, `specs/Places`, `specs/ProgramView`, `specs/Spelling`, `specs/Tree`,
//! `specs/View` and `specs/Words`. The other files in `specs/` are stepping stones of proofs, or
//! say how a text is laid out, on which no promise depends.
#![tactic(auto)]

pub mod laws;
mod layouts;
mod lexer;
mod numbers;
mod parser;
mod printer;
mod token;
mod tree;
mod writing;

pub use layouts::{LayoutError, layout, places_text};
pub use lexer::{LexError, MAX_TEXT_LENGTH, is_name, lex};
pub use numbers::{line_column, put_line_column, put_number, put_place, put_word};
pub use parser::{ParseError, parse};
pub use printer::print;
pub use token::{Kind, Span, Token};
pub use tree::{Declaration, Expr, MAX_DEPTH, Name, Op, Program, Stmt};
