//! Takes tokens one by one. Each function answers what is behind, as a suffix of the tokens that it
//! was given.
ghost use Rattle.std.specs.Prelude.{◌≡◌, ◌∷◌, [], MatchOption};
ghost use Rattle.conf_syntax.specs.Places.{bare, first_at};
ghost use Rattle.conf_grammar.specs.Leads.{IsNot, IsNotWord};
ghost use Rattle.conf_parse.specs.Cursor.{Splits, Takes, Names};

use conf_syntax::{Key, Mark, Name, Placed, Token};

/// Tokens that are read next: all of them, the first, and what is behind it.
#[derive(Clone, Copy)]
pub(crate) struct Next<'a> {
    pub tokens: &'a [Placed],
    pub token: &'a Placed,
    pub after: &'a [Placed],
}

/// The first token and what is behind it.
pub fn split(tokens: &[Placed]) -> Option<(&Placed, &[Placed])>
    ensures { MatchOption result (bare tokens.now ≡ []) (λ x. Splits tokens.now x.0.now x.1.now) }
{
    match tokens {
        [token, rest @ ..] => Some((token, rest)),
        [] => None,
    }
}

/// What is behind a mark.
pub fn after_mark(tokens: &[Placed], mark: Mark) -> Option<&[Placed]>
    ensures { MatchOption result (IsNot (Token.Mark mark) (bare tokens.now))
        (λ rest. Takes tokens.now (Token.Mark mark) rest.now) }
{
    let (token, rest) = split(tokens)?;
    match token.token {
        Token::Mark(other) => { if other == mark { Some(rest) } else { None } }
        Token::Word(_) | Token::Number(_) | Token::Key(_) => None,
    }
}

/// What is behind a keyword.
pub fn after_key(tokens: &[Placed], key: Key) -> Option<&[Placed]>
    ensures { MatchOption result (IsNot (Token.Key key) (bare tokens.now))
        (λ rest. Takes tokens.now (Token.Key key) rest.now) }
{
    let (token, rest) = split(tokens)?;
    match token.token {
        Token::Key(other) => { if other == key { Some(rest) } else { None } }
        Token::Word(_) | Token::Number(_) | Token::Mark(_) => None,
    }
}

/// A word with its place, and what is behind it.
pub fn word_at(tokens: &[Placed]) -> Option<(&Name, u32, &[Placed])>
    ensures { MatchOption result (IsNotWord (bare tokens.now)) (λ x. Names tokens.now x.0.now x.1
        x.2.now) }
{
    let (token, rest) = split(tokens)?;
    match &token.token {
        Token::Word(name) => Some((name, token.at, rest)),
        Token::Number(_) | Token::Key(_) | Token::Mark(_) => None,
    }
}

/// The place of the first token; 0 where there is none.
pub fn first_at(tokens: &[Placed]) -> u32
    ensures { result ≡ first_at tokens.now }
{
    match tokens {
        [token, ..] => token.at,
        [] => 0,
    }
}
