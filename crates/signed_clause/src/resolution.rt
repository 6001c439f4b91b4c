//! Signed resolution.
//!
//! Where clauses `a` and `b` both speak of `x`, each value of `x` makes at most one of the two
//! literals do the work unless it lies in both sets. So the clause that keeps of `x` only the
//! common values, and of every other variable what either clause says, follows from the two.
//! `resolve` makes it in one walk over both lists.
ghost use Rattle.std.specs.Prelude.{◌≡◌, ◌++◌, [], ◌∷◌, drop, length, IsTrue, IfOk, OnOk};
ghost use Rattle.std.specs.Vec.{vec_capacity};
ghost use Rattle.signed_clause.specs.Clauses.{resolvent, both_literals, has_var, IsClause, IsResolvent};

use crate::clause::Clause;
use crate::int_set::IntSet;
use std::alloc::{AllocError, Global};

/// The resolvent of two clauses that both have a literal of `x`: of `x` the meet of the two sets,
/// where that isn't empty, and of every other variable the join.
pub fn resolve(alloc: Global, a: &Clause, b: &Clause, x: u32) -> Result<Clause, AllocError>
    requires first { IsTrue (has_var a.now x) }
    requires second { IsTrue (has_var b.now x) }
    ensures list { IfOk result (λ c. c ≡ resolvent x a.now b.now) }
    ensures form { IfOk result (λ c. IsClause c) }
    ensures law { IfOk result (λ c. IsResolvent x a.now b.now c) }
{
    let lits = resolve_literals(alloc, a.literals(), b.literals(), x)?;
    Ok(Clause::made_of(lits))
}

/// The literals of the resolvent on `x`.
fn resolve_literals(
    alloc: Global,
    a: &[(u32, IntSet)],
    b: &[(u32, IntSet)],
    x: u32,
) -> Result<Vec<(u32, IntSet)>, AllocError>
    ensures { IfOk result (λ c. c.items ≡ resolvent x a.now b.now) }
{
    let mut out = Vec::with_capacity(alloc, a.len().saturating_add(b.len()))?;
    let mut i = 0;
    let mut j = 0;
    while i < a.len() && j < b.len() {
        let l = &a[i];
        let m = &b[j];
        if l.0 < m.0 {
            push_copy(&mut out, l)?;
            i += 1;
        } else if m.0 < l.0 {
            push_copy(&mut out, m)?;
            j += 1;
        } else {
            push_both(&mut out, l, m, x)?;
            i += 1;
            j += 1;
        }
    }
    push_rest(&mut out, a, i)?;
    push_rest(&mut out, b, j)?;
    Ok(out)
}

/// Adds the literals from `from` on.
pub fn push_rest(
    out: &mut Vec<(u32, IntSet)>,
    lits: &[(u32, IntSet)],
    from: usize,
) -> Result<(), AllocError>
    ensures { OnOk result (out.new.items ≡ out.old.items ++ drop from lits.now) }
{
    let mut k = from;
    while k < lits.len() {
        push_copy(out, &lits[k])?;
        k += 1;
    }
    Ok(())
}

/// The same literals again, in a block that has room for them and no more.
pub fn copy_literals(
    alloc: Global,
    lits: &[(u32, IntSet)],
) -> Result<Vec<(u32, IntSet)>, AllocError>
    ensures list { IfOk result (λ c. c.items ≡ lits.now) }
    ensures room { IfOk result (λ c. vec_capacity c ≡ length lits.now) }
{
    let mut out = Vec::with_capacity(alloc, lits.len())?;
    for l in lits {
        let set = l.1.copy()?;
        out.push_reserved((l.0, set));
    }
    Ok(out)
}

/// Adds a copy of a literal.
pub fn push_copy(out: &mut Vec<(u32, IntSet)>, l: &(u32, IntSet)) -> Result<(), AllocError>
    ensures { OnOk result (out.new.items ≡ out.old.items ++ l.now ∷ []) }
{
    let set = l.1.copy()?;
    out.push((l.0, set))?;
    Ok(())
}

/// Adds what two literals of one variable leave.
fn push_both(
    out: &mut Vec<(u32, IntSet)>,
    l: &(u32, IntSet),
    m: &(u32, IntSet),
    x: u32,
) -> Result<(), AllocError>
    ensures { OnOk result (out.new.items ≡ out.old.items ++ both_literals x l.now m.now.1 []) }
{
    if l.0 == x {
        let set = l.1.meet(&m.1)?;
        if set.is_empty() {
            return Ok(());
        }
        out.push((l.0, set))?;
    } else {
        let set = l.1.join(&m.1)?;
        out.push((l.0, set))?;
    }
    Ok(())
}
