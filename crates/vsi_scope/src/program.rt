//! Commands and expressions over locations.

use vsi_syntax::{Op, Span};

/// An expression over locations. Location `k` below the number of globals is global `k`, and a
/// `letvar` has the next location above those in scope.
#[derive(Drop)]
pub enum Ex {
    /// A word.
    Num(i64),
    /// The contents of a location; the span is that of the name.
    Loc(u16, Span),
    /// An operator on two operands.
    Op(Op, Box<Ex>, Box<Ex>),
}

/// A command over locations. Brackets and blocks disappear; a block in a sequence becomes part of
/// it.
#[derive(Drop)]
pub enum Cmd {
    /// Stores the value at the location; the span is that of the name.
    Assign {
        loc: u16,
        span: Span,
        value: Ex,
    },
    /// Runs the first branch if the guard isn't 0, else the second.
    If {
        guard: Ex,
        yes: Vec<Cmd>,
        no: Vec<Cmd>,
    },
    /// Runs the body again and again, as long as the guard isn't 0.
    While {
        guard: Ex,
        body: Vec<Cmd>,
    },
    /// Stores the value, which is read in the outer scope, at a new location for the body alone.
    Letvar {
        value: Ex,
        body: Vec<Cmd>,
    },
}
