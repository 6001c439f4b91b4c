//! `Repeated`, the clauses that constraints made, found again by what they say.
//!
//! In a long search constraints say the same again and again: of the clauses of 10,000 decisions
//! one in ten to forty says something new. So the number of each stands in a table, under a key
//! that is mixed from its literals, and what is said again is named by that number. What stands in
//! the table is no more than a hint: each clause is compared. A look costs a walk over the clause's
//! ranges, and another where it was found.
ghost use Rattle.std.specs.Prelude.{◌≡◌, true, IfSome};
ghost use Rattle.bound_search.specs.Standing.{IsNumbered};

use indexmap::IndexMap;
use numbered_clauses::Clauses;
use signed_clause::{Clause, IntSet};
use std::alloc::{AllocError, Global};

/// The numbers of clauses, by keys.
#[derive(Drop)]
pub struct Repeated {
    numbers: IndexMap<u64, u64>,
}

impl Repeated {
    /// No clauses. It takes no memory until one is noted.
    pub fn new(alloc: Global) -> Repeated {
        Repeated {
            numbers: IndexMap::new(alloc),
        }
    }

    /// The number of a clause that was noted and that is the same as this one.
    pub fn find(&self, clauses: &Clauses, c: &Clause) -> Option<u64>
        ensures { IfSome result (λ n. IsNumbered clauses.now (n, c.now)) }
    {
        let n = self.numbers.get(&key_of(c)).copied()?;
        if is_same(clauses, n, c) {
            Some(n)
        } else {
            None
        }
    }

    /// Notes a clause of this number, in place of one of the same key.
    ///
    /// # Errors
    /// Want of memory.
    pub fn note(&mut self, c: &Clause, number: u64) -> Result<(), AllocError> {
        self.numbers.insert(key_of(c), number)?;
        Ok(())
    }
}

/// The key with one part more.
fn mixed(key: u64, part: u64) -> u64 {
    (key ^ part)
        .wrapping_mul(0x9e37_79b9_7f4a_7c15)
        .rotate_left(29)
}

/// The key with a number more.
fn with_number(key: u64, value: i64) -> u64 {
    mixed(mixed(key, value.unsigned_abs()), (value < 0) as u64)
}

/// The key with a set more.
fn with_set(key: u64, set: &IntSet) -> u64 {
    let ranges = set.ranges();
    let mut made = mixed(key, ranges.len() as u64);
    for r in ranges {
        made = with_number(with_number(made, r.0), r.1);
    }
    made
}

/// The key of a clause: equal clauses have equal keys.
fn key_of(c: &Clause) -> u64 {
    let mut made = 0;
    for l in c.literals() {
        made = with_set(mixed(made, l.0 as u64), &l.1);
    }
    made
}

/// Whether the clause of a number is the same as this one.
fn is_same(clauses: &Clauses, n: u64, c: &Clause) -> bool
    ensures { result ≡ true → IsNumbered clauses.now (n, c.now) }
{
    match clauses.get(n) {
        Some(d) => d.same(c),
        None => false,
    }
}
