//! The tokens that stand in straight rows of declarations.

/// A token that is wanted, whatever name or number it holds.
#[derive(Clone, Copy, Debug, PartialEq, Eq)]
pub enum Piece {
    Word,
    Number,
    OpenBrace,
    CloseBracket,
    Semicolon,
    DotDot,
    As,
    Class,
}
