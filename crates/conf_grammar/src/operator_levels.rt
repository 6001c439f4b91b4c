//! How tightly operators bind: every expression has a level, every place for one a least level.
//!
//! `->` is 1, `or` 2, `and` 3, `not` 4, a comparison 5, a sum 6, a product 7, unary minus 8,
//! `.name` 9, all else 10; a path, which may stand behind `in`, is 11.
ghost use Rattle.std.specs.Prelude.{◌≡◌, ◌≤◌};
ghost use Rattle.conf_syntax.specs.Plain.{right_level, sign_level, dotted};
ghost use Rattle.conf_syntax.specs.Trees.{op_level, left_level};
ghost use Rattle.conf_grammar.specs.Machine.{goes_by, going};
ghost use Rattle.conf_grammar.specs.Operators.{sign_of, going_of};

use conf_syntax::{Key, Mark, Op, Token};

/// The level of a path.
pub const PATH: u32 = 11;

/// An operator before its operand.
#[derive(Clone, Copy, Debug, PartialEq, Eq)]
pub enum Sign {
    Minus,
    Not,
}

/// How a token goes on with an operand.
#[derive(Clone, Copy, Debug, PartialEq, Eq)]
pub enum Going {
    Pair(Op),
    Dot,
    Nothing,
}

/// How a keyword goes on with an operand.
fn going_key(key: Key) -> Going
    ensures { going (Token.Key key) ≡ going_of result }
{
    match key {
        Key::Or => Going::Pair(Op::Or),
        Key::And => Going::Pair(Op::And),
        Key::In => Going::Pair(Op::In),
        _ => Going::Nothing,
    }
}

/// How a mark goes on with an operand.
fn going_mark(mark: Mark) -> Going
    ensures { going (Token.Mark mark) ≡ going_of result }
{
    match mark {
        Mark::Arrow => Going::Pair(Op::Implies),
        Mark::Equal => Going::Pair(Op::Eq),
        Mark::NotEqual => Going::Pair(Op::Ne),
        Mark::Less => Going::Pair(Op::Lt),
        Mark::AtMost => Going::Pair(Op::Le),
        Mark::Greater => Going::Pair(Op::Gt),
        Mark::AtLeast => Going::Pair(Op::Ge),
        Mark::Plus => Going::Pair(Op::Add),
        Mark::Minus => Going::Pair(Op::Sub),
        Mark::Star => Going::Pair(Op::Mul),
        Mark::Dot => Going::Dot,
        _ => Going::Nothing,
    }
}

/// How a token goes on with an operand.
pub fn way_on(token: &Token) -> Going
    ensures { going token.now ≡ going_of result }
{
    match token {
        Token::Key(key) => going_key(*key),
        Token::Mark(mark) => going_mark(*mark),
        Token::Word(_) | Token::Number(_) => Going::Nothing,
    }
}

/// The level of a pair with an operator.
pub fn op_level(op: Op) -> u32
    ensures { result ≡ op_level op }
{
    match op {
        Op::Implies => 1,
        Op::Or => 2,
        Op::And => 3,
        Op::Eq | Op::Ne | Op::Lt | Op::Le | Op::Gt | Op::Ge | Op::In => 5,
        Op::Add | Op::Sub => 6,
        Op::Mul => 7,
    }
}

/// The least level of an operator's left operand.
fn left_level(op: Op) -> u32
    ensures { result ≡ left_level op }
{
    match op {
        Op::Implies | Op::Or => 2,
        Op::And => 3,
        Op::Eq | Op::Ne | Op::Lt | Op::Le | Op::Gt | Op::Ge | Op::In => 6,
        Op::Add | Op::Sub => 6,
        Op::Mul => 7,
    }
}

/// The least level of an operator's right operand.
pub fn right_level(op: Op) -> u32
    ensures { result ≡ right_level op }
{
    match op {
        Op::Implies => 1,
        Op::Or => 3,
        Op::And => 4,
        Op::Eq | Op::Ne | Op::Lt | Op::Le | Op::Gt | Op::Ge => 6,
        Op::In => PATH,
        Op::Add | Op::Sub => 7,
        Op::Mul => 8,
    }
}

/// The level of a name behind an expression: a path goes on as a path.
pub fn dotted(level: u32) -> u32
    requires { level ≤ 11 }
    ensures { result ≡ dotted level }
{
    9 + 2 * level.saturating_sub(10)
}

/// Whether a token goes on with an expression of a level, where one of at least `least` is wanted.
pub fn goes(way: Going, least: u32, level: u32) -> bool
    requires { level ≤ 11 }
    ensures { result ≡ goes_by least level (going_of way) }
{
    match way {
        Going::Pair(op) => least <= op_level(op) && left_level(op) <= level,
        Going::Dot => least <= dotted(level) && 9 <= level,
        Going::Nothing => false,
    }
}

/// The level of what a sign makes, and the least of its operand.
pub fn sign_level(sign: Sign) -> u32
    ensures { result ≡ sign_level (sign_of sign) }
{
    match sign {
        Sign::Minus => 8,
        Sign::Not => 4,
    }
}
