//! Takes straight rows of tokens.
ghost use Rattle.std.specs.Prelude.{◌≡◌, [], ◌∷◌, MatchOption, MatchResult, Some, true};
ghost use Rattle.std.specs.List.{list_all};
ghost use Rattle.conf_syntax.specs.Places.{bare};
ghost use Rattle.conf_grammar.specs.Machine.{takes, leasts};
ghost use Rattle.conf_grammar.specs.Leads.{missed};
ghost use Rattle.conf_parse.specs.Cursor.{Follows, NamesThen, NumbersThen, Numbers, IsNotNumber, is_fixed};

use crate::cursor::{split, word_at};
use conf_grammar::Piece;
use conf_syntax::{Key, Mark, Name, Placed, Token};

/// A number with its place, and what is behind it.
pub fn number_at(tokens: &[Placed]) -> Option<(u32, u32, &[Placed])>
    ensures { MatchOption result (IsNotNumber (bare tokens.now)) (λ x. Numbers tokens.now x.0 x.1
        x.2.now) }
{
    let (token, rest) = split(tokens)?;
    match token.token {
        Token::Number(n) => Some((n, token.at, rest)),
        Token::Word(_) | Token::Key(_) | Token::Mark(_) => None,
    }
}

/// Whether a token is the wanted one.
fn takes(piece: Piece, token: &Token) -> bool
    ensures { result ≡ takes piece token.now }
{
    match token {
        Token::Word(_) => piece == Piece::Word,
        Token::Number(_) => piece == Piece::Number,
        Token::Key(Key::As) => piece == Piece::As,
        Token::Key(Key::Class) => piece == Piece::Class,
        Token::Key(_) => false,
        Token::Mark(Mark::OpenBrace) => piece == Piece::OpenBrace,
        Token::Mark(Mark::CloseBracket) => piece == Piece::CloseBracket,
        Token::Mark(Mark::Semicolon) => piece == Piece::Semicolon,
        Token::Mark(Mark::DotDot) => piece == Piece::DotDot,
        Token::Mark(_) => false,
    }
}

/// The first wanted piece and the pieces behind it.
fn split_pieces(wanted: &[Piece]) -> Option<(Piece, &[Piece])>
    ensures { MatchOption result (wanted.now ≡ []) (λ x. wanted.now ≡ x.0 ∷ x.1.now) }
{
    match wanted {
        [first, more @ ..] => Some((*first, more)),
        [] => None,
    }
}

/// What is behind a row of keywords and marks, or how many tokens are left where it is missed.
#[tactic(auto, using(crate::proofs::Rowed::fixed_nil, crate::proofs::Rowed::fixed_none, crate::proofs::Rowed::fixed_other, crate::proofs::Rowed::fixed_on, crate::proofs::Rowed::fixed_miss, crate::proofs::Rowed::fixed_rest))]
pub fn fixed<'a>(tokens: &'a [Placed], wanted: &[Piece]) -> Result<&'a [Placed], usize>
    requires fixed { list_all is_fixed wanted.now ≡ true }
    ensures { MatchResult result (λ rest. Follows tokens.now (leasts wanted.now) rest.now)
        (λ left. missed wanted.now (bare tokens.now) ≡ Some left) }
{
    let Some((first, more)) = split_pieces(wanted) else {
        return Ok(tokens);
    };
    let Some((token, after)) = split(tokens) else {
        return Err(tokens.len());
    };
    if !takes(first, &token.token) {
        return Err(tokens.len());
    }
    fixed(after, more)
}

/// A word before a row of keywords and marks.
#[tactic(auto, using(crate::proofs::Rowed::named_none, crate::proofs::Rowed::named_miss, crate::proofs::Rowed::named_then))]
pub fn named<'a>(
    tokens: &'a [Placed],
    wanted: &[Piece],
) -> Result<(&'a Name, u32, &'a [Placed]), usize>
    requires fixed { list_all is_fixed wanted.now ≡ true }
    ensures { MatchResult result (λ x. NamesThen tokens.now x.0.now x.1 (leasts wanted.now) x.2.now)
        (λ left. missed (Piece.Word ∷ wanted.now) (bare tokens.now) ≡ Some left) }
{
    let Some((name, at, after)) = word_at(tokens) else {
        return Err(tokens.len());
    };
    match fixed(after, wanted) {
        Ok(rest) => Ok((name, at, rest)),
        Err(left) => Err(left),
    }
}

/// A number before a row of keywords and marks.
#[tactic(auto, using(crate::proofs::Rowed::numbered_none, crate::proofs::Rowed::numbered_miss, crate::proofs::Rowed::numbered_then))]
pub fn numbered<'a>(
    tokens: &'a [Placed],
    wanted: &[Piece],
) -> Result<(u32, u32, &'a [Placed]), usize>
    requires fixed { list_all is_fixed wanted.now ≡ true }
    ensures { MatchResult result (λ x. NumbersThen tokens.now x.0 x.1 (leasts wanted.now) x.2.now)
        (λ left. missed (Piece.Number ∷ wanted.now) (bare tokens.now) ≡ Some left) }
{
    let Some((value, at, after)) = number_at(tokens) else {
        return Err(tokens.len());
    };
    match fixed(after, wanted) {
        Ok(rest) => Ok((value, at, rest)),
        Err(left) => Err(left),
    }
}
