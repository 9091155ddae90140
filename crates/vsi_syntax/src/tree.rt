//! The tree of a program, and its operators. Brackets and blocks are nodes of their own.

ghost use Rattle.std.specs.Prelude.{◌≡◌};
ghost use Rattle.vsi_syntax.specs.{Operators.{apply}, Tree.{IsProgram, program_prop}, CommandView.{body_of, whole_of}, Spelling.{IsProgramSpelled, program_spelled_prop}};

use crate::token::Span;

/// An operator of an expression on two words of 64 bits.
#[derive(Clone, Copy, Debug, PartialEq, Eq)]
pub enum Op {
    /// `+`, which wraps.
    Add,
    /// `-`, which wraps.
    Sub,
    /// `*`, which wraps.
    Mul,
    /// `=`: 1 if both words are equal, else 0.
    Eq,
    /// `<`: 1 if the left word is less as a signed number, else 0.
    Lt,
}

impl Op {
    /// The result of the operator: sums, differences and products wrap; `Eq` and the signed `Lt`
    /// give 1 or 0.
    #[inline]
    pub fn apply(self, left: i64, right: i64) -> i64
        ensures { result ≡ apply self left right }
    {
        match self {
            Op::Add => left.wrapping_add(right),
            Op::Sub => left.wrapping_sub(right),
            Op::Mul => left.wrapping_mul(right),
            Op::Eq => i64::from(left == right),
            Op::Lt => i64::from(left < right),
        }
    }
}

/// A name with its span in the text.
#[derive(Clone, Copy, Debug)]
pub struct Name<'a> {
    pub text: &'a [u8],
    pub span: Span,
}

/// An expression.
#[derive(Debug, Drop)]
pub enum Expr<'a> {
    /// A number, which is not negative in a `Program`.
    Number(i64),
    /// A variable that is read.
    Name(Name<'a>),
    /// An expression in round brackets.
    Bracket(Box<Expr<'a>>),
    /// An operator with its left and right operands.
    Binary(Op, Box<Expr<'a>>, Box<Expr<'a>>),
}

/// A command.
#[derive(Debug, Drop)]
pub enum Stmt<'a> {
    /// `name := value`
    Assign(Name<'a>, Expr<'a>),
    /// `if guard then yes else no`
    If(Expr<'a>, Box<Stmt<'a>>, Box<Stmt<'a>>),
    /// `while guard do body`
    While(Expr<'a>, Box<Stmt<'a>>),
    /// `letvar name : class := value in body`; the class may be omitted.
    Letvar(Name<'a>, Option<Name<'a>>, Expr<'a>, Box<Stmt<'a>>),
    /// Commands in braces, at least one in a `Program`.
    Block(Vec<Stmt<'a>>),
}

/// A global with the name of its class: `var name : class;`.
#[derive(Clone, Copy, Debug)]
pub struct Declaration<'a> {
    pub name: Name<'a>,
    pub class: Name<'a>,
}

/// The greatest depth of a body. Each bracket, operator, block, `if`, `while` and `letvar` lies one
/// level above the deepest of its parts; numbers, names and assignments add none.
pub const MAX_DEPTH: u8 = 200;

/// The globals and the body of a program.
///
/// Sums, products, comparisons and atoms appear only where the grammar allows them, no sequence is
/// empty, the body's depth is at most `MAX_DEPTH`, names are valid, and numbers are not negative.
#[derive(Debug, Drop)]
pub struct Program<'a> {
    globals: Vec<Declaration<'a>>,
    body: Vec<Stmt<'a>>,
    pub ghost keeps: { IsProgram (body_of body.items) } by { program_prop (body_of body.items) },
    pub ghost spelled: { IsProgramSpelled (whole_of globals.items body.items) } by { program_spelled_prop
        (whole_of globals.items body.items) },
}

impl<'a> Program<'a> {
    ghost use Rattle.std.specs.Prelude.{◌≡◌, map};
    ghost use Rattle.vsi_syntax.specs.{CommandView.{declared}, Spelling.{IsGlobalsSpelled}, ProgramView.{whole}};

    /// The program with these globals and this body.
    pub(crate) fn new(globals: Vec<Declaration<'a>>, body: Vec<Stmt<'a>>) -> Program<'a>
        requires keeps { IsProgram (body_of body.items) }
        requires spelled { IsProgramSpelled (whole_of globals.items body.items) }
        ensures { whole result ≡ whole_of globals.entry.items body.entry.items }
    {
        Program { globals, body }
    }

    /// The globals in source order; a name may appear twice.
    pub fn globals(&self) -> &[Declaration<'a>]
        ensures globals { map declared result.now ≡ (whole self.now).globals }
        ensures spelled { IsGlobalsSpelled (map declared result.now) }
    {
        &self.globals
    }

    /// The commands of the body in source order, at least one.
    pub fn body(&self) -> &[Stmt<'a>]
        ensures body { body_of result.now ≡ (whole self.now).body }
        ensures keeps { IsProgram (body_of result.now) }
    {
        &self.body
    }
}
