//! From tokens to the tree of a model.
//!
//! `parse` answers the one model that has these tokens, or the first place that no model has there.
ghost use Rattle.std.specs.Prelude.{◌≡◌, ◌-◌, ◌*◌, ◌^◌, ◌<◌, ◌≤◌, ℕ, length, drop, IfOk, IfErr, MatchResult};
ghost use Rattle.model_limits.specs.Limits.{most_nesting};
ghost use Rattle.conf_syntax.specs.AllPlaces.{program_places};
ghost use Rattle.conf_syntax.specs.Begun.{IsProgramIn};
ghost use Rattle.conf_syntax.specs.Models.{IsTreeOf, IsProgramOf};
ghost use Rattle.conf_syntax.specs.Places.{bare, place_of};
ghost use Rattle.conf_syntax.specs.Plain as plain;
ghost use Rattle.conf_syntax.specs.Views.{program_of};
ghost use Rattle.conf_parse.specs.Means.{Means, IsSyntax, IsDeep, IsSameOrMemory};

use crate::cursor::split;
use crate::item::items;
use crate::stop::Stop;
use conf_syntax::{Items, Placed, Program};
use std::alloc::Global;

/// Why tokens are no model, with the place in the text.
#[derive(Debug, Drop)]
pub enum ParseError {
    /// The tokens before the place begin a model; with the token at the place they begin none.
    /// Where the place is the end of the text, they are no model.
    Syntax(u32),
    /// The tokens before the place begin a model whose expressions are at most `MOST_NESTING` deep;
    /// with the token at the place only deeper ones.
    TooDeep(u32),
    /// Memory ran out.
    Memory,
}

/// What is behind so many tokens.
#[tactic(auto, using(crate::proofs::Ends::rest_from))]
fn behind(tokens: &[Placed], count: usize) -> &[Placed]
    requires { count ≤ length tokens.now }
    ensures { result.now ≡ drop count tokens.now }
{
    &tokens[count..]
}

/// The place of the token before which all but so many tokens stand.
#[tactic(auto, using(crate::proofs::Ends::place_end, crate::proofs::Ends::place_token))]
fn place(tokens: &[Placed], end: u32, left: usize) -> u32
    requires { left ≤ length tokens.now }
    ensures value { result ≡ place_of (drop (length tokens.now - left) tokens.now) end }
    // a slice has fewer tokens than memory has bytes
    ensures few { length tokens.now * 16 < 2 ^ 63 }
{
    match split(behind(tokens, tokens.len() - left)) {
        Some((token, _)) => token.at,
        None => end,
    }
}

/// The model of these tokens, or the first place that no model has there.
#[tactic(auto, using(crate::proofs::Ends::program_right, crate::proofs::Ends::program_only, crate::proofs::Ends::syntax_means, crate::proofs::Ends::deep_means, crate::proofs::Ends::syntax_never, crate::proofs::Ends::deep_never, crate::proofs::Ends::program_again, crate::proofs::Ends::syntax_again, crate::proofs::Ends::deep_again))]
fn read(alloc: Global, tokens: &[Placed], end: u32) -> Result<Program, ParseError>
    ensures ok { IfOk result (λ p. IsProgramOf tokens.now p) }
    ensures refusal { IfErr result (λ e. Means tokens.now end e) }
    ensures only { (p : plain.Program) → IsProgramIn most_nesting (bare tokens.now) p
        → MatchResult result (λ q. program_of q.items ≡ p) (λ e. e ≡ ParseError.Memory) }
    ensures again { (p : Program) → IsTreeOf tokens.now p
        → MatchResult result (λ q. program_of q.items ≡ program_of p.items) (λ e. e
        ≡ ParseError.Memory) }
{
    match items(alloc, tokens) {
        Ok(list) => Ok(Program {
            items: Items::of(list),
        }),
        Err(Stop::Syntax(left)) => Err(ParseError::Syntax(place(tokens, end, left))),
        Err(Stop::TooDeep(left)) => Err(ParseError::TooDeep(place(tokens, end, left))),
        Err(Stop::Memory) => Err(ParseError::Memory),
    }
}

/// The model of these tokens; `end` is the length of the text in bytes.
///
/// The places of the tree and of the errors are counted in bytes from the beginning of the text.
pub fn parse(alloc: Global, tokens: &[Placed], end: u32) -> Result<Program, ParseError>
    // The model has these tokens, is one that the grammar has, its expressions are at most
    // `MOST_NESTING` deep, and each of its places is that of its token.
    ensures ok { IfOk result (λ p. IsProgramOf tokens.now p) }
    // A refusal stands at the first token that no model has there.
    ensures refusal { IfErr result (λ e. Means tokens.now end e) }
    // The tokens of a model are read as that model, its places and pointers aside, unless memory
    // runs out. Hence tokens are those of at most one model.
    ensures only { (p : plain.Program) → IsProgramIn most_nesting (bare tokens.now) p
        → MatchResult result (λ q. program_of q.items ≡ p) (λ e. e ≡ ParseError.Memory) }
    ensures again { (p : Program) → IsTreeOf tokens.now p
        → MatchResult result (λ q. program_of q.items ≡ program_of p.items) (λ e. e
        ≡ ParseError.Memory) }
    // Where the places are those of the tokens too, the model that is read has the same ones. Hence
    // tokens are those of at most one model with its places.
    ensures places { (p : Program) → IsProgramOf tokens.now p
        → MatchResult result (λ q. program_places q ≡ program_places p) (λ e. e
        ≡ ParseError.Memory) }
    // Tokens are those of at most one model with its places, whatever is answered.
    ensures one_model { (p q : Program) → IsProgramOf tokens.now p → IsProgramOf tokens.now q
        → (program_of p.items ≡ program_of q.items) × (program_places p ≡ program_places q) }
    // Where a refusal would stand at a place, it is answered, unless memory runs out.
    ensures syntax { (at : ℕ) → IsSyntax tokens.now end at → MatchResult result (λ p. ⊥)
        (IsSameOrMemory (ParseError.Syntax at)) }
    ensures too_deep { (at : ℕ) → IsDeep tokens.now end at → MatchResult result (λ p. ⊥)
        (IsSameOrMemory (ParseError.TooDeep at)) }
{
    read(alloc, tokens, end)
}
