//! Takes a text apart into tokens. `lex` goes through the text once, from piece to piece: a blank
//! byte, a comment, or the longest token that begins where it stands.
ghost use Rattle.std.specs.Prelude.{◌≡◌, ◌<◌, ◌≤◌, ℕ, List, false, length, IfOk, IfErr, MatchOption, MatchResult};
ghost use Rattle.model_limits.specs.Limits.{model_bytes};
ghost use Rattle.conf_syntax.specs.declared.token.Placed.{Placed};
ghost use Rattle.conf_syntax.specs.Places.{bare};
ghost use Rattle.conf_syntax.specs.Spelling.{Spells, IsStuckAtByte, IsStuckAtNumber, IsReadOneWay, is_blank};
ghost use Rattle.conf_syntax.specs.Words.{AreWords};
ghost use Rattle.conf_parse.specs.declared.lexer.LexError.TheVariants.{Memory};
ghost use Rattle.conf_parse.specs.Refusals.{IsRefusedAs, IsRefusedHere, Refuses};
ghost use Rattle.conf_parse.specs.Tokens.{IsTokenAt, IsGapAt, has_gap};

use crate::run::{Run, is_letter, run_length, split};
use crate::token::{mark_at, number_at, word_at};
use conf_syntax::{Placed, Token};
use std::alloc::{AllocError, AllocFailed, Global};

/// Why a text has no tokens.
#[derive(Clone, Copy, Debug, PartialEq, Eq)]
pub enum LexError {
    /// At this place no blank, comment, word, number or mark begins.
    BadByte(u32),
    /// At this place a number above `MOST_LITERAL` begins.
    LiteralTooLarge(u32),
    /// There was no memory for the tokens.
    Memory,
}

impl From<AllocError> for LexError {
    ghost from_gives = { λ _ e. e ≡ Memory };

    fn from(_: AllocError) -> Self {
        LexError::Memory
    }
}

impl<T: Drop> From<AllocFailed<T>> for LexError {
    ghost from_gives = { λ _ e. e ≡ Memory };

    fn from(_: AllocFailed<T>) -> Self {
        LexError::Memory
    }
}

// Whether a byte is a space, a tab, LF or CR.
fn is_blank(byte: u8) -> bool
    ensures { result ≡ is_blank byte }
{
    matches!(byte, b' ' | b'\t' | b'\n' | b'\r')
}

// How many bytes the blank or comment at the front has.
#[tactic(auto, using(crate::proofs::Front::no_gap_at_end, crate::proofs::Front::no_gap_in_one, crate::proofs::Front::no_gap_in_two))]
fn gap_at(text: &[u8]) -> Option<usize>
    ensures { MatchOption result (has_gap text.now ≡ false) (IsGapAt text.now) }
{
    let (first, behind) = split(text)?;
    if is_blank(first) {
        return Some(1);
    }
    let (second, comment) = split(behind)?;
    if first == b'/' && second == b'/' {
        Some(2 + run_length(comment, Run::Line))
    } else {
        None
    }
}

// The token at the front, and how many bytes it has. `at` is its place in the whole text.
fn token_at(alloc: Global, text: &[u8], at: u32) -> Result<(Token, usize), LexError>
    requires some { 0 < length text.now }
    requires gap { has_gap text.now ≡ false }
    ensures { MatchResult result (IsTokenAt text.now) (IsRefusedHere text.now at) }
{
    let first = text[0];
    if is_letter(first) {
        return Ok(word_at(alloc, text)?);
    }
    if first.is_ascii_digit() {
        return number_at(text).ok_or(LexError::LiteralTooLarge(at));
    }
    mark_at(text).ok_or(LexError::BadByte(at))
}

/// The tokens of a text of at most `MODEL_BYTES` bytes, each with the place of its first byte. At
/// each place the longest token is taken.
///
/// A text that spells no tokens is refused at the first place that cannot be passed: `BadByte`
/// where nothing begins, `LiteralTooLarge` where a number above `MOST_LITERAL` begins. `Memory`
/// says only that there was none.
pub fn lex(alloc: Global, text: &[u8]) -> Result<Vec<Placed>, LexError>
    requires size { length text.now ≤ model_bytes }
    ensures tokens { IfOk result (λ tokens. Spells text.now tokens.items) }
    ensures few { IfOk result (λ tokens. length tokens.items ≤ length text.now) }
    ensures words { IfOk result (λ tokens. AreWords (bare tokens.items)) }
    ensures refusal { IfErr result (IsRefusedAs text.now) }
    // a text that spells tokens is not refused for another reason than memory
    ensures only { (tokens : List Placed) → Spells text.now tokens
        → MatchResult result (λ found. found.items ≡ tokens) (λ e. e ≡ LexError.Memory) }
    ensures bad_byte { (at : ℕ) → IsStuckAtByte text.now at → Refuses result (LexError.BadByte at) }
    ensures too_large { (at : ℕ) → IsStuckAtNumber text.now at
        → Refuses result (LexError.LiteralTooLarge at) }
    // of these three at most one holds, and of one list or place
    ensures one_way { IsReadOneWay text.now }
{
    let mut tokens = Vec::new(alloc);
    let mut at = 0;
    while at < text.len() {
        let rest = &text[at..];
        if let Some(length) = gap_at(rest) {
            at += length;
        } else {
            let place = at as u32;
            let (token, length) = token_at(alloc, rest, place)?;
            tokens.push(Placed { token, at: place })?;
            at += length;
        }
    }
    Ok(tokens)
}
