//! Lines from their bytes.
//!
//! A line's word says what stands behind it; `read_line` cuts it off and hands the rest to the
//! reader of that kind of line. Each byte is looked at a fixed number of times, whatever the length
//! of the line.
ghost use Rattle.std.specs.Prelude.{◌≡◌, ℕ, ℤ, ◌<◌, ◌^◌, ◌++◌, [], ◌∷◌, List, map, codes, decimal, true, IfSome, IfNone, IfOk, IsErrOf, IsTrue, ◌↔◌};
ghost use Rattle.std.specs.List.{AllByRecursion};
ghost use Rattle.signed_clause.specs.Clauses.{Literals};
ghost use Rattle.proof_log.specs.Parts.{heads};
ghost use Rattle.proof_log.specs.Words.{IsBehind, IsNumberFirst};
ghost use Rattle.proof_log.specs.Spelling.{lacks, behind, literal_text, step_text, IsStep, AreLiterals, Spells};
ghost use Rattle.log_form.specs.declared.line.Line.{Line};
ghost use Rattle.proof_log.specs.declared.words.Word.{Word};
ghost use Rattle.proof_log.specs.declared.words.Word.TheVariants as words;
ghost use Rattle.proof_log.specs.declared.fault.LineError.TheVariants.{BadLine};

use crate::fault::LineError;
use crate::numbers::small_number_of;
use crate::parts::{next_part, split_before};
use crate::pieces::{literals_of, set_of, step_of, values_of};
use crate::words::{Word, word_of};
use decimal_text::number_of;
use log_form::{Line, Values};
use numbered_clauses::{Chain, ChainSteps};
use signed_clause::{Clause, ClauseHandle};
use std::alloc::Global;

/// The line that the bytes spell, without the LF that ends it.
///
/// # Errors
/// `BadLine` exactly where the bytes spell no line.
pub fn read_line(alloc: Global, bytes: &[u8]) -> Result<Line, LineError>
    ensures ok { IfOk result (λ l. Spells bytes.now l) }
    ensures only { IfOk result (λ l. (m : Line) → Spells bytes.now m → l ≡ m) }
    ensures bad { IsErrOf result BadLine → (l : Line) → Spells bytes.now l → ⊥ }
{
    let l = spelled_line(alloc, bytes)?;
    Ok(l)
}

/// The line, by its word.
fn spelled_line(alloc: Global, bytes: &[u8]) -> Result<Line, LineError>
    ensures ok { IfOk result (λ l. Spells bytes.now l) }
    ensures bad { IsErrOf result BadLine → (l : Line) → Spells bytes.now l → ⊥ }
{
    let (word, texts) = split_before(bytes, b' ');
    let Some(word) = word_of(word) else {
        return Err(LineError::BadLine);
    };
    match word {
        Word::Axiom => axiom_of(alloc, texts),
        Word::Chain => chain_of(alloc, texts),
        Word::Bound => Ok(Line::Bound(Values::of(values_of(alloc, texts)?))),
        Word::Use => use_of(texts),
        Word::Found => Ok(Line::Found(Values::of(values_of(alloc, texts)?))),
        Word::Decide => decide_of(alloc, texts),
        Word::Empty => empty_of(texts),
    }
}

/// The Axiom line of these texts.
fn axiom_of(alloc: Global, texts: &[u8]) -> Result<Line, LineError>
    ensures ok { IfOk result (λ l. IsBehind words.Axiom texts.now l) }
    ensures bad { IsErrOf result BadLine → (l : Line) → IsBehind words.Axiom texts.now l → ⊥ }
{
    let Some((k, rest)) = small_first(texts) else {
        return Err(LineError::BadLine);
    };
    Ok(Line::Axiom(k, clause_of(alloc, rest)?))
}

/// The Chain line of these texts.
fn chain_of(alloc: Global, texts: &[u8]) -> Result<Line, LineError>
    ensures ok { IfOk result (λ l. IsBehind words.Chain texts.now l) }
    ensures bad { IsErrOf result BadLine → (l : Line) → IsBehind words.Chain texts.now l → ⊥ }
{
    let Some((first, rest)) = number_first(texts) else {
        return Err(LineError::BadLine);
    };
    let (steps, rest) = steps_of(alloc, rest)?;
    let clause = clause_of(alloc, rest)?;
    let steps = ChainSteps::of(steps);
    Ok(Line::Chain(Chain { first, steps }, clause))
}

/// The Use line of these texts.
fn use_of(texts: &[u8]) -> Result<Line, LineError>
    ensures ok { IfOk result (λ l. IsBehind words.Use texts.now l) }
    ensures bad { IsErrOf result BadLine → (l : Line) → IsBehind words.Use texts.now l → ⊥ }
{
    let Some((i, rest)) = number_first(texts) else {
        return Err(LineError::BadLine);
    };
    if !rest.is_empty() {
        return Err(LineError::BadLine);
    }
    Ok(Line::Use(i))
}

/// The Empty line of these texts.
fn empty_of(texts: &[u8]) -> Result<Line, LineError>
    ensures ok { IfOk result (λ l. IsBehind words.Empty texts.now l) }
    ensures bad { IsErrOf result BadLine → (l : Line) → IsBehind words.Empty texts.now l → ⊥ }
{
    let Some((x, rest)) = small_first(texts) else {
        return Err(LineError::BadLine);
    };
    if !rest.is_empty() {
        return Err(LineError::BadLine);
    }
    Ok(Line::Empty(x))
}

/// The Decide line of these texts.
fn decide_of(alloc: Global, texts: &[u8]) -> Result<Line, LineError>
    ensures ok { IfOk result (λ l. IsBehind words.Decide texts.now l) }
    ensures bad { IsErrOf result BadLine → (l : Line) → IsBehind words.Decide texts.now l → ⊥ }
{
    let Some((x, rest)) = small_first(texts) else {
        return Err(LineError::BadLine);
    };
    let Some((text, after)) = next_part(rest, b' ') else {
        return Err(LineError::BadLine);
    };
    if !after.is_empty() {
        return Err(LineError::BadLine);
    }
    Ok(Line::Decide(x, set_of(alloc, text)?))
}

/// The number that the first text is, and the texts behind it.
fn number_first(texts: &[u8]) -> Option<(u64, &[u8])>
    ensures some { IfSome result (λ f. IsNumberFirst (2 ^ 64) texts.now f.0 f.1.now) }
    ensures none { IfNone result ((n : ℕ) (ps : List (List ℕ)) → n < 2 ^ 64 → texts.now
        ≡ behind 32 (decimal n ∷ ps) → ⊥) }
{
    let (text, rest) = next_part(texts, b' ')?;
    Some((number_of(text)?, rest))
}

/// The same of a number of 32 bits.
fn small_first(texts: &[u8]) -> Option<(u32, &[u8])>
    ensures some { IfSome result (λ f. IsNumberFirst (2 ^ 32) texts.now f.0 f.1.now) }
    ensures none { IfNone result ((n : ℕ) (ps : List (List ℕ)) → n < 2 ^ 32 → texts.now
        ≡ behind 32 (decimal n ∷ ps) → ⊥) }
{
    let (text, rest) = next_part(texts, b' ')?;
    Some((small_number_of(text)?, rest))
}

/// The clause of texts that are its literals, with one owner.
fn clause_of(alloc: Global, texts: &[u8]) -> Result<ClauseHandle, LineError>
    requires heads { heads 32 texts.now ≡ true }
    ensures right { IfOk result (λ c. AreLiterals c) }
    ensures ok { IfOk result (λ c. texts.now ≡ behind 32 (map literal_text c)) }
    ensures bad { IsErrOf result BadLine → (c : Literals) → AreLiterals c → texts.now
        ≡ behind 32 (map literal_text c) → ⊥ }
{
    let literals = literals_of(alloc, texts)?;
    match Clause::of(literals) {
        Ok(clause) => handle_of(alloc, clause),
        Err(_) => Err(LineError::BadLine),
    }
}

/// The first owner of a clause.
fn handle_of(alloc: Global, clause: Clause) -> Result<ClauseHandle, LineError>
    ensures ok { IfOk result (λ h. h ≡ clause) }
    ensures bad { IsErrOf result BadLine → ⊥ }
{
    match ClauseHandle::of(alloc, clause) {
        Ok(handle) => Ok(handle),
        Err(_) => Err(LineError::Memory),
    }
}

/// The steps that texts are up to an equals sign, and the texts behind it.
fn steps_of(alloc: Global, texts: &[u8]) -> Result<(Vec<(u32, u64)>, &[u8]), LineError>
    requires heads { heads 32 texts.now ≡ true }
    ensures right { IfOk result (λ f. AllByRecursion IsStep f.0.items × (heads 32 f.1.now ≡ true)) }
    ensures ok { IfOk result (λ f. texts.now ≡ behind 32 (map step_text f.0.items)
        ++ (32 ∷ 61 ∷ f.1.now)) }
    ensures bad { IsErrOf result BadLine → (ss : List (ℕ × ℕ)) (ps : List (List ℕ)) → AllByRecursion IsStep ss → AllByRecursion (λ p. lacks 32 p ≡ true) ps
        → texts.now ≡ behind 32 (map step_text ss ++ codes "=" ∷ ps) → ⊥ }
{
    let mut out = Vec::new(alloc);
    let mut left = texts;
    while let Some((text, rest)) = next_part(left, b' ') {
        if is_equals_sign(text) {
            return Ok((out, rest));
        }
        let Some(s) = step_of(text) else {
            return Err(LineError::BadLine);
        };
        out.push(s)?;
        left = rest;
    }
    Err(LineError::BadLine)
}

/// Whether the text is an equals sign.
fn is_equals_sign(text: &[u8]) -> bool
    ensures { IsTrue result ↔ (text.now ≡ 61 ∷ []) }
{
    text.len() == 1 && text[0] == b'='
}
