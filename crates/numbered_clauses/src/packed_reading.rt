//! The clause of bytes.
ghost use Rattle.std.specs.Prelude.{◌≡◌, IfOk};
ghost use Rattle.std.specs.List.{AllByRecursion};
ghost use Rattle.signed_clause.specs.Ranges.{IsValid};
ghost use Rattle.signed_clause.specs.Clauses.{IsClause};
ghost use Rattle.numbered_clauses.specs.Coded.{range_at, behind_range, ranges_at, behind_ranges, set_at, behind_set, literal_at, behind_literal, literals_at, clause_in};

use crate::packed_number::{read_number, signed_of};
use signed_clause::{Clause, IntSet};
use std::alloc::{AllocError, Global};

/// The clause that the bytes begin with.
pub fn read_clause(alloc: Global, text: &[u8]) -> Result<Clause, AllocError>
    requires { IsClause (clause_in text.now) }
    ensures { IfOk result (λ c. c ≡ clause_in text.now) }
{
    let (count, left) = read_number(text);
    let literals = read_literals(alloc, left, count)?;
    match Clause::of(literals) {
        Ok(clause) => Ok(clause),
        Err(_) => unreachable!(),
    }
}

/// So many literals.
#[tactic(auto, using(crate::proofs::ReadSteps::literals_more, crate::proofs::ReadSteps::first_valid, crate::proofs::ReadSteps::rest_valid))]
fn read_literals(alloc: Global, text: &[u8], count: u64) -> Result<Vec<(u32, IntSet)>, AllocError>
    requires { AllByRecursion (λ l. IsValid l.1) (literals_at count text.now) }
    ensures { IfOk result (λ ls. ls.items ≡ literals_at count text.now) }
{
    let mut out = Vec::new(alloc);
    let mut left = text;
    let mut more = count;
    while more > 0 {
        let (literal, behind) = read_literal(alloc, left)?;
        out.push(literal)?;
        left = behind;
        more -= 1;
    }
    Ok(out)
}

/// The literal that the bytes begin with, and what stands behind it.
fn read_literal(alloc: Global, text: &[u8]) -> Result<((u32, IntSet), &[u8]), AllocError>
    requires { IsValid (literal_at text.now).1 }
    ensures literal { IfOk result (λ r. r.0 ≡ literal_at text.now) }
    ensures behind { IfOk result (λ r. r.1.now ≡ behind_literal text.now) }
{
    let (number, left) = read_number(text);
    let (set, behind) = read_set(alloc, left)?;
    Ok((((number % (1 << 32)) as u32, set), behind))
}

/// The set that the bytes begin with, and what stands behind it.
fn read_set(alloc: Global, text: &[u8]) -> Result<(IntSet, &[u8]), AllocError>
    requires { IsValid (set_at text.now) }
    ensures set { IfOk result (λ r. r.0 ≡ set_at text.now) }
    ensures behind { IfOk result (λ r. r.1.now ≡ behind_set text.now) }
{
    let (count, left) = read_number(text);
    if count == 1 {
        let (r, behind) = read_range(left);
        let set = set_of(alloc, &[r])?;
        return Ok((set, behind));
    }
    let (ranges, behind) = read_ranges(alloc, left, count)?;
    let set = set_of(alloc, ranges.as_slice())?;
    Ok((set, behind))
}

/// The set of ranges that are those of one.
fn set_of(alloc: Global, ranges: &[(i64, i64)]) -> Result<IntSet, AllocError>
    requires { IsValid ranges.now }
    ensures { IfOk result (λ s. s ≡ ranges.now) }
{
    match IntSet::of(alloc, ranges)? {
        Some(set) => Ok(set),
        None => unreachable!(),
    }
}

/// So many ranges, and what stands behind them.
#[tactic(auto, using(crate::proofs::ReadSteps::ranges_more, crate::proofs::ReadSteps::behind_more))]
fn read_ranges(
    alloc: Global,
    text: &[u8],
    count: u64,
) -> Result<(Vec<(i64, i64)>, &[u8]), AllocError>
    ensures ranges { IfOk result (λ r. r.0.items ≡ ranges_at count text.now) }
    ensures behind { IfOk result (λ r. r.1.now ≡ behind_ranges count text.now) }
{
    let mut out = Vec::new(alloc);
    let mut left = text;
    let mut more = count;
    while more > 0 {
        let (range, behind) = read_range(left);
        out.push(range)?;
        left = behind;
        more -= 1;
    }
    Ok((out, left))
}

/// The range that the bytes begin with, and what stands behind it.
fn read_range(text: &[u8]) -> ((i64, i64), &[u8])
    ensures range { result.0 ≡ range_at text.now }
    ensures behind { result.1.now ≡ behind_range text.now }
{
    let (low, left) = read_number(text);
    let (high, behind) = read_number(left);
    ((signed_of(low), signed_of(high)), behind)
}
