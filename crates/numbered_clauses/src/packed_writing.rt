//! A clause's bytes.
ghost use Rattle.std.specs.Prelude.{◌≡◌, ◌++◌, IfOk, OnOk};
ghost use Rattle.std.specs.List.{AllByRecursion};
ghost use Rattle.signed_clause.specs.Clauses.{IsClause};
ghost use Rattle.numbered_clauses.specs.Coded.{range_bytes, ranges_bytes, set_bytes, literal_bytes, literals_bytes, clause_bytes, FitsRange, FitsSet, FitsLiteral, FitsClause};

use crate::packed_number::{push_number, unsigned_of};
use signed_clause::{Clause, IntSet};
use std::alloc::{AllocError, Global};

/// The bytes for which room is made first: a clause of few literals has no more.
const ROOM: usize = 32;

/// The bytes of a clause.
pub fn clause_text(alloc: Global, c: &Clause) -> Result<Vec<u8>, AllocError>
    ensures bytes { IfOk result (λ text. text.items ≡ clause_bytes c.now) }
    ensures fits { IfOk result (λ _. FitsClause c.now) }
    ensures form { IsClause c.now }
{
    let literals = c.literals();
    let mut out = Vec::with_capacity(alloc, ROOM)?;
    push_number(&mut out, literals.len() as u64)?;
    push_literals(&mut out, literals)?;
    Ok(out)
}

/// Adds literals.
fn push_literals(out: &mut Vec<u8>, literals: &[(u32, IntSet)]) -> Result<(), AllocError>
    ensures bytes { OnOk result (out.new.items ≡ out.old.items ++ literals_bytes literals.now) }
    ensures fits { OnOk result (AllByRecursion FitsLiteral literals.now) }
{
    for l in literals {
        push_literal(out, l)?;
    }
    Ok(())
}

/// Adds a literal.
fn push_literal(out: &mut Vec<u8>, l: &(u32, IntSet)) -> Result<(), AllocError>
    ensures bytes { OnOk result (out.new.items ≡ out.old.items ++ literal_bytes l.now) }
    ensures fits { OnOk result (FitsLiteral l.now) }
{
    push_number(out, l.0 as u64)?;
    push_set(out, &l.1)
}

/// Adds a set.
fn push_set(out: &mut Vec<u8>, set: &IntSet) -> Result<(), AllocError>
    ensures bytes { OnOk result (out.new.items ≡ out.old.items ++ set_bytes set.now) }
    ensures fits { OnOk result (FitsSet set.now) }
{
    let ranges = set.ranges();
    push_number(out, ranges.len() as u64)?;
    push_ranges(out, ranges)
}

/// Adds ranges.
fn push_ranges(out: &mut Vec<u8>, ranges: &[(i64, i64)]) -> Result<(), AllocError>
    ensures bytes { OnOk result (out.new.items ≡ out.old.items ++ ranges_bytes ranges.now) }
    ensures fits { OnOk result (AllByRecursion FitsRange ranges.now) }
{
    for r in ranges {
        push_range(out, *r)?;
    }
    Ok(())
}

/// Adds a range.
fn push_range(out: &mut Vec<u8>, r: (i64, i64)) -> Result<(), AllocError>
    ensures bytes { OnOk result (out.new.items ≡ out.old.items ++ range_bytes r) }
    ensures fits { OnOk result (FitsRange r) }
{
    let low = unsigned_of(r.0);
    let high = unsigned_of(r.1);
    push_number(out, low)?;
    push_number(out, high)
}
