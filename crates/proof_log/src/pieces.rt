//! The pieces of a line: ranges, sets, literals, steps, values.
//!
//! Each function reads one text, or texts that each have a separator before them, and says exactly
//! of which value they are the text, or that they are that of none. Every text is walked once.
ghost use Rattle.std.specs.Prelude.{◌≡◌, ℕ, ℤ, ◌++◌, [], ◌∷◌, List, ◌<ℤ◌, map, IfSome, IfNone, IfOk, OnOk, IsErrOf, true};
ghost use Rattle.std.specs.List.{AllByRecursion};
ghost use Rattle.std.specs.Fmt.{signed_decimal};
ghost use Rattle.signed_clause.specs.Ranges.{IsValid};
ghost use Rattle.proof_log.specs.Parts.{heads};
ghost use Rattle.proof_log.specs.Spelling.{behind, range_text, set_text, literal_text, step_text, IsSigned, IsRange, IsStep, IsLiteral, IsTextOf, IsTextOfNone};
ghost use Rattle.proof_log.specs.declared.fault.LineError.TheVariants.{BadLine};

use crate::fault::LineError;
use crate::numbers::{small_number_of, value_of};
use crate::parts::{behind_separator, next_part, split_before};
use decimal_text::number_of;
use signed_clause::IntSet;
use std::alloc::Global;

/// The range of this text.
fn range_of(text: &[u8]) -> Option<(i64, i64)>
    ensures some { IfSome result (λ r. IsTextOf range_text IsRange text.now r) }
    ensures none { IfNone result (IsTextOfNone range_text IsRange text.now) }
{
    let (first, rest) = split_before(text, b'.');
    let low = value_of(first)?;
    if rest.is_empty() {
        return Some((low, low));
    }
    range_to(low, rest)
}

/// The range from `low` to the value of a text behind two points, where that is above.
fn range_to(low: i64, text: &[u8]) -> Option<(i64, i64)>
    ensures some { IfSome result (λ r. (r.0 ≡ low) × (low <ℤ r.1)
        × IsTextOf (λ v. 46 ∷ 46 ∷ signed_decimal v) IsSigned text.now r.1) }
    ensures none { IfNone result ((v : ℤ) → low <ℤ v → IsSigned v → text.now
        ≡ 46 ∷ 46 ∷ signed_decimal v → ⊥) }
{
    let rest = behind_separator(text, b'.')?;
    let rest = behind_separator(rest, b'.')?;
    let high = value_of(rest)?;
    if low < high { Some((low, high)) } else { None }
}

/// Adds the ranges of texts that each have a comma before them.
fn push_ranges(out: &mut Vec<(i64, i64)>, texts: &[u8]) -> Result<(), LineError>
    requires right { AllByRecursion IsRange out.old.items }
    requires heads { heads 44 texts.now ≡ true }
    ensures right { OnOk result (AllByRecursion IsRange out.new.items) }
    ensures ok { OnOk result (behind 44 (map range_text out.old.items) ++ texts.now
        ≡ behind 44 (map range_text out.new.items)) }
    ensures bad { IsErrOf result BadLine → (rs : List (ℤ × ℤ)) → AllByRecursion IsRange rs
        → behind 44 (map range_text out.old.items) ++ texts.now ≡ behind 44 (map range_text rs) → ⊥ }
{
    let mut left = texts;
    while let Some((text, rest)) = next_part(left, b',') {
        let Some(r) = range_of(text) else {
            return Err(LineError::BadLine);
        };
        out.push(r)?;
        left = rest;
    }
    Ok(())
}

/// The ranges of a text with commas between them.
fn ranges_of(alloc: Global, text: &[u8]) -> Result<Vec<(i64, i64)>, LineError>
    ensures right { IfOk result (λ rs. AllByRecursion IsRange rs.items) }
    ensures ok { IfOk result (λ rs. text.now ≡ set_text rs.items) }
    ensures bad { IsErrOf result BadLine → IsTextOfNone set_text (λ rs. AllByRecursion IsRange rs)
        text.now }
{
    let mut out = Vec::new(alloc);
    if text.is_empty() {
        return Ok(out);
    }
    let (first, rest) = split_before(text, b',');
    let Some(r) = range_of(first) else {
        return Err(LineError::BadLine);
    };
    out.push(r)?;
    push_ranges(&mut out, rest)?;
    Ok(out)
}

/// The set of this text.
pub fn set_of(alloc: Global, text: &[u8]) -> Result<IntSet, LineError>
    ensures ok { IfOk result (λ s. IsTextOf set_text IsValid text.now s) }
    ensures bad { IsErrOf result BadLine → IsTextOfNone set_text IsValid text.now }
{
    let ranges = ranges_of(alloc, text)?;
    match IntSet::of(alloc, ranges.as_slice())? {
        Some(set) => Ok(set),
        None => Err(LineError::BadLine),
    }
}

/// The literal of this text.
fn literal_of(alloc: Global, text: &[u8]) -> Result<(u32, IntSet), LineError>
    ensures ok { IfOk result (λ l. IsTextOf literal_text IsLiteral text.now l) }
    ensures bad { IsErrOf result BadLine → IsTextOfNone literal_text IsLiteral text.now }
{
    let (variable, rest) = split_before(text, b':');
    let Some(x) = small_number_of(variable) else {
        return Err(LineError::BadLine);
    };
    let Some(ranges) = behind_separator(rest, b':') else {
        return Err(LineError::BadLine);
    };
    let set = set_of(alloc, ranges)?;
    if set.is_empty() {
        return Err(LineError::BadLine);
    }
    Ok((x, set))
}

/// The literals of texts that each have a space before them.
pub fn literals_of(alloc: Global, texts: &[u8]) -> Result<Vec<(u32, IntSet)>, LineError>
    requires heads { heads 32 texts.now ≡ true }
    ensures right { IfOk result (λ ls. AllByRecursion IsLiteral ls.items) }
    ensures ok { IfOk result (λ ls. texts.now ≡ behind 32 (map literal_text ls.items)) }
    ensures bad { IsErrOf result BadLine → (ls : List (ℕ × List (ℤ × ℤ))) → AllByRecursion IsLiteral ls
        → texts.now ≡ behind 32 (map literal_text ls) → ⊥ }
{
    let mut out = Vec::new(alloc);
    let mut left = texts;
    while let Some((text, rest)) = next_part(left, b' ') {
        out.push(literal_of(alloc, text)?)?;
        left = rest;
    }
    Ok(out)
}

/// The step of this text.
pub fn step_of(text: &[u8]) -> Option<(u32, u64)>
    ensures some { IfSome result (λ s. IsTextOf step_text IsStep text.now s) }
    ensures none { IfNone result (IsTextOfNone step_text IsStep text.now) }
{
    let (variable, rest) = split_before(text, b':');
    let x = small_number_of(variable)?;
    let number = behind_separator(rest, b':')?;
    Some((x, number_of(number)?))
}

/// The values of texts that each have a space before them.
pub fn values_of(alloc: Global, texts: &[u8]) -> Result<Vec<i64>, LineError>
    requires heads { heads 32 texts.now ≡ true }
    ensures right { IfOk result (λ vs. AllByRecursion IsSigned vs.items) }
    ensures ok { IfOk result (λ vs. texts.now ≡ behind 32 (map signed_decimal vs.items)) }
    ensures bad { IsErrOf result BadLine → (vs : List ℤ) → AllByRecursion IsSigned vs
        → texts.now ≡ behind 32 (map signed_decimal vs) → ⊥ }
{
    let mut out = Vec::new(alloc);
    let mut left = texts;
    while let Some((text, rest)) = next_part(left, b' ') {
        let Some(v) = value_of(text) else {
            return Err(LineError::BadLine);
        };
        out.push(v)?;
        left = rest;
    }
    Ok(out)
}
