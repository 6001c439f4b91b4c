//! The model that a text is.
ghost use Rattle.std.specs.Prelude.{◌≡◌, ◌≤◌, List, length, IfOk, IfErr, MatchResult, ℕ};
ghost use Rattle.model_limits.specs.Limits.{model_bytes, most_nesting};
ghost use Rattle.conf_parse.specs.Means.{IsSyntax, IsDeep};
ghost use Rattle.conf_syntax.specs.Models.{IsProgramOf};
ghost use Rattle.conf_syntax.specs.Places.{bare};
ghost use Rattle.conf_syntax.specs.Spelling.{Spells, IsStuckAtByte, IsStuckAtNumber};
ghost use Rattle.conf_syntax.specs.declared.token.Placed.{Placed};
ghost use Rattle.conf_syntax.specs.Trees.{program_tokens, nesting};
ghost use Rattle.conf_syntax.specs.Words.{AreWords};
ghost use Rattle.model_reader.specs.ModelRefusal.{IsSyntaxAt, IsNestingAt};
ghost use Rattle.model_reader.specs.TextModel.{IsModelOf};
ghost use Rattle.model_reader.specs.TextErrors.{IsTextError, IsTreeError, IsSameOrMemory};

use conf_parse::{LexError, ParseError, lex, parse};
use conf_syntax::{Placed, Program};
use std::alloc::Global;

/// Why a text gave no model.
#[derive(Clone, Copy, Debug, PartialEq, Eq)]
pub(crate) enum TextError {
    /// It is none; at a place.
    Syntax(u32),
    /// A number in it is too large; at a place.
    Literal(u32),
    /// Its expressions nest too deeply; at a place.
    Nesting(u32),
    /// There was no memory.
    Memory,
}

/// The tokens of a text.
fn tokens_of(alloc: Global, text: &[u8]) -> Result<Vec<Placed>, TextError>
    requires { length text.now ≤ model_bytes }
    ensures tokens { IfOk result (λ tokens. Spells text.now tokens.items) }
    ensures few { IfOk result (λ tokens. length tokens.items ≤ length text.now) }
    ensures words { IfOk result (λ tokens. AreWords (bare tokens.items)) }
    ensures refusal { IfErr result (IsTextError text.now) }
    ensures only { (tokens : List Placed) → Spells text.now tokens
        → MatchResult result (λ found. found.items ≡ tokens) (λ e. e ≡ TextError.Memory) }
    ensures bad_byte { (at : ℕ) → IsStuckAtByte text.now at → MatchResult result (λ _. ⊥)
        (IsSameOrMemory (TextError.Syntax at)) }
    ensures too_large { (at : ℕ) → IsStuckAtNumber text.now at → MatchResult result (λ _. ⊥)
        (IsSameOrMemory (TextError.Literal at)) }
{
    match lex(alloc, text) {
        Ok(tokens) => Ok(tokens),
        Err(LexError::BadByte(at)) => Err(TextError::Syntax(at)),
        Err(LexError::LiteralTooLarge(at)) => Err(TextError::Literal(at)),
        Err(LexError::Memory) => Err(TextError::Memory),
    }
}

/// The tree of tokens whose text has this length.
fn tree_of(alloc: Global, tokens: &[Placed], end: u32) -> Result<Program, TextError>
    ensures tree { IfOk result (λ p. IsProgramOf tokens.now p) }
    ensures refusal { IfErr result (IsTreeError tokens.now end) }
    ensures syntax { (at : ℕ) → IsSyntax tokens.now end at → MatchResult result (λ _. ⊥)
        (IsSameOrMemory (TextError.Syntax at)) }
    ensures nesting { (at : ℕ) → IsDeep tokens.now end at → MatchResult result (λ _. ⊥)
        (IsSameOrMemory (TextError.Nesting at)) }
{
    match parse(alloc, tokens, end) {
        Ok(program) => Ok(program),
        Err(ParseError::Syntax(at)) => Err(TextError::Syntax(at)),
        Err(ParseError::TooDeep(at)) => Err(TextError::Nesting(at)),
        Err(ParseError::Memory) => Err(TextError::Memory),
    }
}

/// The model of a text of at most `MODEL_BYTES` bytes.
pub(crate) fn model_of(alloc: Global, text: &[u8]) -> Result<Program, TextError>
    requires { length text.now ≤ model_bytes }
    ensures model { IfOk result (λ p. IsModelOf text.now p) }
    ensures nested { IfOk result (λ p. nesting p ≤ most_nesting) }
    ensures few { IfOk result (λ p. length (program_tokens p) ≤ model_bytes) }
    ensures words { IfOk result (λ p. AreWords (program_tokens p)) }
    ensures refusal { IfErr result (IsTextError text.now) }
    ensures syntax { (at : ℕ) → IsSyntaxAt text.now at → MatchResult result (λ _. ⊥)
        (IsSameOrMemory (TextError.Syntax at)) }
    ensures literal { (at : ℕ) → IsStuckAtNumber text.now at → MatchResult result (λ _. ⊥)
        (IsSameOrMemory (TextError.Literal at)) }
    ensures nesting { (at : ℕ) → IsNestingAt text.now at → MatchResult result (λ _. ⊥)
        (IsSameOrMemory (TextError.Nesting at)) }
{
    let tokens = match tokens_of(alloc, text) {
        Ok(tokens) => tokens,
        Err(e) => return Err(e),
    };
    tree_of(alloc, &tokens, text.len() as u32)
}
