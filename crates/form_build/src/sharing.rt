//! Where definitions may stand, by keys.
//!
//! A key is one number for what a definition says: equal ones have equal keys. Nobody trusts a
//! place that is found by a key: it is compared with what stands there.
use indexmap::IndexMap;
use signed_clause::IntSet;
use std::alloc::{AllocError, Global};

/// The places of definitions, by keys.
#[derive(Drop)]
pub(crate) struct Sharing {
    places: IndexMap<u64, usize>,
}

impl Sharing {
    /// No places.
    pub(crate) fn new(alloc: Global) -> Sharing {
        Sharing {
            places: IndexMap::new(alloc),
        }
    }

    /// Where a definition of the key may stand. Where none is noted, it is noted to come next.
    pub(crate) fn place_of(&mut self, key: u64, next: usize) -> Result<usize, AllocError> {
        if let Some(place) = self.places.get(&key).copied() {
            return Ok(place);
        }
        self.places.insert(key, next)?;
        Ok(next)
    }
}

/// The key with one part more.
pub(crate) fn mixed(key: u64, part: u64) -> u64 {
    (key ^ part)
        .wrapping_mul(0x9e37_79b9_7f4a_7c15)
        .rotate_left(29)
}

/// The key with a number more.
pub(crate) fn with_number(key: u64, value: i64) -> u64 {
    mixed(mixed(key, value.unsigned_abs()), (value < 0) as u64)
}

/// The key with terms more.
pub(crate) fn with_terms(key: u64, terms: &[(i64, u32)]) -> u64 {
    let mut made = mixed(key, terms.len() as u64);
    for t in terms {
        made = mixed(with_number(made, t.0), t.1 as u64);
    }
    made
}

/// The key with parts more.
pub(crate) fn with_parts(key: u64, parts: &[(u32, bool)]) -> u64 {
    let mut made = mixed(key, parts.len() as u64);
    for p in parts {
        made = mixed(mixed(made, p.0 as u64), p.1 as u64);
    }
    made
}

/// The key with a set more.
pub(crate) fn with_set(key: u64, set: &IntSet) -> u64 {
    let ranges = set.ranges();
    let mut made = mixed(key, ranges.len() as u64);
    for r in ranges {
        made = with_number(with_number(made, r.0), r.1);
    }
    made
}
