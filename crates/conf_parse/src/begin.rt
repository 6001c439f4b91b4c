//! How a token begins an operand.
ghost use Rattle.std.specs.Prelude.{◌≡◌, IfOk, IfErr};
ghost use Rattle.conf_parse.specs.Readers.{IsBegin};

use crate::stop::Stop;
use conf_grammar::{PATH, Sign};
use conf_syntax::{Key, Mark, Name, Node, QuantKind, Token};
use std::alloc::Global;

/// How a token begins an operand: as a leaf with its level, a sign, a parenthesis or a quantifier.
#[derive(Drop)]
pub enum Begin {
    Leaf(Node, u32),
    Sign(Sign),
    Paren,
    Quant(QuantKind),
    Nothing,
}

/// How a keyword begins an operand.
fn begin_key(key: Key) -> Begin
    ensures { IsBegin (Token.Key key) result }
{
    match key {
        Key::True => Begin::Leaf(Node::Truth(true), 10),
        Key::False => Begin::Leaf(Node::Truth(false), 10),
        Key::This => Begin::Leaf(Node::This, PATH),
        Key::Not => Begin::Sign(Sign::Not),
        Key::Forall => Begin::Quant(QuantKind::Forall),
        Key::Exists => Begin::Quant(QuantKind::Exists),
        Key::Sum => Begin::Quant(QuantKind::Sum),
        Key::Count => Begin::Quant(QuantKind::Count),
        Key::AllDifferent => Begin::Quant(QuantKind::AllDifferent),
        Key::Pack => Begin::Quant(QuantKind::Pack),
        _ => Begin::Nothing,
    }
}

/// How a mark begins an operand.
fn begin_mark(mark: Mark) -> Begin
    ensures { IsBegin (Token.Mark mark) result }
{
    match mark {
        Mark::Minus => Begin::Sign(Sign::Minus),
        Mark::OpenParen => Begin::Paren,
        _ => Begin::Nothing,
    }
}

/// How a token begins an operand.
pub fn beginning(alloc: Global, token: &Token) -> Result<Begin, Stop>
    ensures begin { IfOk result (λ b. IsBegin token.now b) }
    ensures memory { IfErr result (λ e. e ≡ Stop.Memory) }
{
    match token {
        Token::Number(n) => Ok(Begin::Leaf(Node::Number(*n), 10)),
        Token::Word(name) => Ok(Begin::Leaf(Node::Named(Name::of(alloc, name.as_bytes())?), PATH)),
        Token::Key(key) => Ok(begin_key(*key)),
        Token::Mark(mark) => Ok(begin_mark(*mark)),
    }
}
