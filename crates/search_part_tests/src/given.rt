//! Sets, clauses and boxes of bits.
use ground_form::{Cons, Domains, Goals, Ground};
use signed_clause::{Clause, IntSet};
use std::alloc::{AllocError, Global};

/// The set of the values whose bits are 1, where bit 0 is the value 0.
pub(crate) fn set_of_bits(alloc: Global, bits: u32) -> Result<IntSet, AllocError> {
    let mut set = IntSet::empty(alloc);
    for k in 0..16u32 {
        if (bits >> k) & 1 == 1 {
            set = set.join(&IntSet::range(alloc, k as i64, k as i64))?;
        }
    }
    Ok(set)
}

/// The sets of these bits.
pub(crate) fn sets_of_bits(alloc: Global, list: &[u32]) -> Result<Vec<IntSet>, AllocError> {
    let mut sets = Vec::new(alloc);
    for bits in list {
        sets.push(set_of_bits(alloc, *bits)?)?;
    }
    Ok(sets)
}

/// So many boxes of the values from 0 to `last`.
pub(crate) fn equal_boxes(alloc: Global, count: u32, last: i64) -> Result<Vec<IntSet>, AllocError> {
    let mut boxes = Vec::new(alloc);
    for _ in 0..count {
        if 0 <= last {
            boxes.push(IntSet::range(alloc, 0, last))?;
        }
    }
    Ok(boxes)
}

/// A problem of these domains alone, all of them searched.
pub(crate) fn problem_of(alloc: Global, domains: Vec<IntSet>) -> Ground {
    Ground {
        search: domains.len().min(1_000_000) as u32,
        domains: Domains::of(domains),
        cons: Cons::of(Vec::new(alloc)),
        goals: Goals::of(Vec::new(alloc)),
    }
}

/// The clause of these variables and bits of sets; a literal without a bit is left out.
pub(crate) fn clause_of(alloc: Global, literals: &[(u32, u32)]) -> Result<Clause, AllocError> {
    let mut list = Vec::new(alloc);
    for l in literals {
        let set = set_of_bits(alloc, l.1)?;
        if !set.is_empty() {
            list.push((l.0, set))?;
        }
    }
    match Clause::of(list) {
        Ok(clause) => Ok(clause),
        Err(_) => Err(AllocError),
    }
}

/// Whether the two lists have the same sets.
pub(crate) fn are_same(a: &[IntSet], b: &[IntSet]) -> bool {
    if a.len() != b.len() {
        return false;
    }
    for i in 0..a.len() {
        if !a[i].same(&b[i]) {
            return false;
        }
    }
    true
}
