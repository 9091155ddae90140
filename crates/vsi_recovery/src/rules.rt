//! The rules: how each part of a program may begin, and which parts are pending then.
//!
//! The pending parts are in a list whose last element comes first in the text. If there is a rule,
//! its parts are appended; the answer says whether there is one.

ghost use Rattle.std.specs.Prelude.{◌≡◌, ◌++◌, ◌∷◌, [], IfOk, OnOk, IsTrue, reverse};
ghost use Rattle.vsi_recovery.specs.Rules.{Puts, arithmetic, may_be_empty, operand, parts_of, rules};
ghost use Rattle.vsi_recovery.specs.declared.rules.Wanted.TheVariants as w;

use self::Wanted::*;
use crate::sort::Sort;
use crate::sort::Sort::*;
use std::alloc::AllocError;

/// A pending part of a program.
#[derive(Clone, Copy, Debug)]
pub(crate) enum Wanted {
    /// Globals, any number of them.
    Globals,
    /// A command.
    Command,
    /// The commands after a command, each after its semicolon.
    Rest,
    /// The class of a local variable, which may be omitted.
    Class,
    /// An expression.
    Expression,
    /// An expression that is not a comparison.
    Sum,
    /// The continuation of an expression after an operand.
    Operators,
    /// The continuation of an expression after an operand if a comparison was read.
    SumOperators,
    /// A token of this sort.
    Token(Sort),
}

impl Wanted {
    /// Whether the part may be omitted.
    pub(crate) fn may_be_empty(self) -> bool
        ensures { result ≡ may_be_empty self }
    {
        matches!(self, Globals | Rest | Class | Operators | SumOperators)
    }
}

/// Makes these parts the first pending ones, in this order.
fn put(ahead: &mut Vec<Wanted>, parts: &[Wanted]) -> Result<bool, AllocError>
    ensures truth { IfOk result (λ put. IsTrue put) }
    ensures items { OnOk result (ahead.new.items ≡ ahead.old.items ++ reverse parts.now) }
{
    for i in 0..parts.len() {
        ahead.push(parts[parts.len() - 1 - i])?;
    }
    Ok(true)
}

/// The parts of a command after its first token.
fn put_command(ahead: &mut Vec<Wanted>, sort: Sort) -> Result<bool, AllocError>
    ensures { IfOk result (λ put. Puts (parts_of sort (rules w.Command)) put
        (reverse ahead.old.items) (reverse ahead.new.items)) }
{
    match sort {
        Name => put(ahead, &[Token(Assign), Expression]),
        If => put(
            ahead,
            &[Expression, Token(Then), Command, Token(Else), Command],
        ),
        While => put(ahead, &[Expression, Token(Do), Command]),
        Letvar => put(
            ahead,
            &[
                Token(Name),
                Class,
                Token(Assign),
                Expression,
                Token(In),
                Command,
            ],
        ),
        OpenBrace => put(ahead, &[Command, Rest, Token(CloseBrace)]),
        _ => Ok(false),
    }
}

/// The parts of an operand, which is a number, a name or a bracket, followed by this part.
fn put_operand(ahead: &mut Vec<Wanted>, sort: Sort, behind: Wanted) -> Result<bool, AllocError>
    ensures { IfOk result (λ put. Puts (parts_of sort (operand behind)) put
        (reverse ahead.old.items) (reverse ahead.new.items)) }
{
    match sort {
        Name | Number => put(ahead, &[behind]),
        Open => put(ahead, &[Expression, Token(Close), behind]),
        _ => Ok(false),
    }
}

/// Makes the parts of the rule pending after a token of this sort that begins the given part.
pub(crate) fn put_rule(
    ahead: &mut Vec<Wanted>,
    wanted: Wanted,
    sort: Sort,
) -> Result<bool, AllocError>
    ensures { IfOk result (λ put. Puts (parts_of sort (rules wanted)) put
        (reverse ahead.old.items) (reverse ahead.new.items)) }
{
    match (wanted, sort) {
        (Globals, Var) => put(
            ahead,
            &[
                Token(Name),
                Token(Colon),
                Token(Name),
                Token(Semicolon),
                Globals,
            ],
        ),
        (Command, _) => put_command(ahead, sort),
        (Rest, Semicolon) => put(ahead, &[Command, Rest]),
        (Class, Colon) => put(ahead, &[Token(Name)]),
        (Expression, _) => put_operand(ahead, sort, Operators),
        (Sum, _) => put_operand(ahead, sort, SumOperators),
        (Operators, Plus | Minus | Star) => put(ahead, &[Expression]),
        (Operators, Equal | Less) => put(ahead, &[Sum]),
        (SumOperators, Plus | Minus | Star) => put(ahead, &[Sum]),
        (Token(this), _) => Ok(this == sort),
        _ => Ok(false),
    }
}
