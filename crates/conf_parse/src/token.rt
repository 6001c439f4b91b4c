//! The token at the front of a text: the longest word, row of digits or mark that begins there.
ghost use Rattle.std.specs.Prelude.{◌≡◌, ◌<◌, true, false, length, slice_index, IfOk, MatchOption};
ghost use Rattle.std.specs.Char.{is_ascii_digit};
ghost use Rattle.model_limits.specs.Limits.{most_literal};
ghost use Rattle.conf_syntax.specs.Spelling.{is_letter, is_word, is_digits, number_of, IsSpelling, Stops, BeginsNothing, BeginsTooLarge};
ghost use Rattle.conf_parse.specs.Marks.{is_pair};
ghost use Rattle.conf_parse.specs.Tokens.{IsPairAt, IsTokenAt, has_gap};

use crate::keyword::keyword;
use crate::literal::literal;
use crate::mark::{pair, single};
use crate::run::{Run, run_length, split};
use conf_syntax::{Name, Token};
use std::alloc::{AllocError, Global};

// The token of a word: a keyword, or else its name.
fn word_token(alloc: Global, word: &[u8]) -> Result<Token, AllocError>
    requires { is_word word.now ≡ true }
    ensures { IfOk result (λ token. IsSpelling token word.now) }
{
    match keyword(word) {
        Some(key) => Ok(Token::Key(key)),
        None => Ok(Token::Word(Name::of(alloc, word)?)),
    }
}

/// The keyword or other word at the front, and how many bytes it has.
#[tactic(auto, using(crate::proofs::Front::word_front, crate::proofs::Front::word_is))]
pub(crate) fn word_at(alloc: Global, text: &[u8]) -> Result<(Token, usize), AllocError>
    requires some { 0 < length text.now }
    requires letter { is_letter (slice_index text.now 0) ≡ true }
    ensures { IfOk result (IsTokenAt text.now) }
{
    let length = run_length(text, Run::Word);
    let token = word_token(alloc, &text[..length])?;
    Ok((token, length))
}

// The token of a row of digits, if its value is not too large.
fn number_token(digits: &[u8]) -> Option<Token>
    requires { is_digits digits.now ≡ true }
    ensures { MatchOption result (most_literal < number_of digits.now)
        (λ token. IsSpelling token digits.now) }
{
    let value = literal(digits)?;
    Some(Token::Number(value))
}

/// The number at the front, and how many bytes it has, if its value is not too large.
#[tactic(auto, using(crate::proofs::Front::digits_front, crate::proofs::Front::number_is, crate::proofs::Front::too_large_is))]
pub(crate) fn number_at(text: &[u8]) -> Option<(Token, usize)>
    requires some { 0 < length text.now }
    requires digit { is_ascii_digit (slice_index text.now 0) ≡ true }
    ensures { MatchOption result (BeginsTooLarge text.now) (IsTokenAt text.now) }
{
    let length = run_length(text, Run::Digits);
    let token = number_token(&text[..length])?;
    Some((token, length))
}

// The token of the mark of two bytes that begins with `first`.
fn pair_at(first: u8, behind: &[u8]) -> Option<Token>
    ensures { MatchOption result (Stops (is_pair first) behind.now) (IsPairAt first behind.now) }
{
    let (second, _) = split(behind)?;
    pair(first, second)
}

/// The mark at the front of a text where no gap, word or number begins, and how many bytes it has.
#[tactic(auto, using(crate::proofs::Front::pair_is, crate::proofs::Front::single_is, crate::proofs::Front::nothing_is))]
pub(crate) fn mark_at(text: &[u8]) -> Option<(Token, usize)>
    requires some { 0 < length text.now }
    requires gap { has_gap text.now ≡ false }
    requires letter { is_letter (slice_index text.now 0) ≡ false }
    requires digit { is_ascii_digit (slice_index text.now 0) ≡ false }
    ensures { MatchOption result (BeginsNothing text.now) (IsTokenAt text.now) }
{
    let (first, behind) = split(text)?;
    match pair_at(first, behind) {
        Some(token) => Some((token, 2)),
        None => {
            let token = single(first)?;
            Some((token, 1))
        }
    }
}
