//! Tokens: words, numbers, keywords and marks, each with its place in the text.
use crate::Name;

/// A keyword. `foreach` is a second spelling of `forall`; `&&`, `||` and `!` are second spellings
/// of `and`, `or` and
/// `not`.
#[derive(Clone, Copy, Debug, PartialEq, Eq)]
pub enum Key {
    Enum,
    Abstract,
    Class,
    Extends,
    Var,
    As,
    Int,
    Bool,
    Ref,
    Where,
    Forall,
    Exists,
    Sum,
    Count,
    AllDifferent,
    Pack,
    In,
    Maximize,
    Minimize,
    True,
    False,
    This,
    And,
    Or,
    Not,
}

/// A mark. `==` is a second spelling of `=`.
#[derive(Clone, Copy, Debug, PartialEq, Eq)]
pub enum Mark {
    OpenBrace,
    CloseBrace,
    OpenBracket,
    CloseBracket,
    OpenParen,
    CloseParen,
    Semicolon,
    Comma,
    Dot,
    DotDot,
    Arrow,
    Equal,
    NotEqual,
    Less,
    AtMost,
    Greater,
    AtLeast,
    Plus,
    Minus,
    Star,
}

/// A token.
#[derive(Debug, Drop)]
pub enum Token {
    Word(Name),
    /// A number of at most `MOST_LITERAL`.
    Number(u32),
    Key(Key),
    Mark(Mark),
}

/// A token with the place of its first byte.
#[derive(Debug, Drop)]
pub struct Placed {
    pub token: Token,
    pub at: u32,
}

/// A word with the place of its first byte.
#[derive(Debug, Drop)]
pub struct Ident {
    pub name: Name,
    pub at: u32,
}
