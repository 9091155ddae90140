//! Sorts of tokens.

ghost use Rattle.std.specs.Prelude.{◌≡◌};
ghost use Rattle.vsi_recovery.specs.Sorts.{sort_of};

use self::Sort::*;
use vsi_syntax::Kind;

/// A sort of tokens: a keyword, a symbol, any name or any number.
#[derive(Clone, Copy, Debug, PartialEq, Eq)]
pub enum Sort {
    /// `var`
    Var,
    /// `letvar`
    Letvar,
    /// `in`
    In,
    /// `if`
    If,
    /// `then`
    Then,
    /// `else`
    Else,
    /// `while`
    While,
    /// `do`
    Do,
    /// `:=`
    Assign,
    /// `:`
    Colon,
    /// `;`
    Semicolon,
    /// `+`
    Plus,
    /// `-`
    Minus,
    /// `*`
    Star,
    /// `=`
    Equal,
    /// `<`
    Less,
    /// `(`
    Open,
    /// `)`
    Close,
    /// `{`
    OpenBrace,
    /// `}`
    CloseBrace,
    /// Any name.
    Name,
    /// Any number.
    Number,
}

/// All sorts of tokens.
pub(crate) static SORTS: [Sort; 22] = [
    Var, Letvar, In, If, Then, Else, While, Do, Assign, Colon, Semicolon, Plus, Minus, Star, Equal,
    Less, Open, Close, OpenBrace, CloseBrace, Name, Number,
];

impl Sort {
    /// The sort of the tokens of a kind.
    pub fn of(kind: Kind) -> Sort
        ensures { result ≡ sort_of kind }
    {
        match kind {
            Kind::Var => Sort::Var,
            Kind::Letvar => Sort::Letvar,
            Kind::In => Sort::In,
            Kind::If => Sort::If,
            Kind::Then => Sort::Then,
            Kind::Else => Sort::Else,
            Kind::While => Sort::While,
            Kind::Do => Sort::Do,
            Kind::Assign => Sort::Assign,
            Kind::Colon => Sort::Colon,
            Kind::Semicolon => Sort::Semicolon,
            Kind::Plus => Sort::Plus,
            Kind::Minus => Sort::Minus,
            Kind::Star => Sort::Star,
            Kind::Equal => Sort::Equal,
            Kind::Less => Sort::Less,
            Kind::Open => Sort::Open,
            Kind::Close => Sort::Close,
            Kind::OpenBrace => Sort::OpenBrace,
            Kind::CloseBrace => Sort::CloseBrace,
            Kind::Name => Sort::Name,
            Kind::Number(_) => Sort::Number,
        }
    }
}
