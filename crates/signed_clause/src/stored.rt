//! `RangeList`, where the ranges of a set stand.
//!
//! One range stands in the value itself. More are counted: the copies of a list share its memory,
//! so that many sets over the same values take the memory of one. Nearly all sets that a search
//! keeps are one range, and so a set takes 24 bytes.
ghost use Rattle.std.specs.Prelude.{◌≡◌, ◌∷◌, [], IfOk};

use std::alloc::{AllocError, Global};
use std::marker::Model;
use std::rc::RcSlice;

/// The memory of a list.
#[derive(Drop)]
enum Place {
    /// There is no range.
    Nowhere,
    /// The value itself has the range.
    Here([(i64, i64); 1]),
    /// Memory that the list's copies share.
    Shared(RcSlice<(i64, i64)>),
}

/// A list of ranges that doesn't change.
#[derive(Drop)]
pub struct RangeList {
    /// What gives the list its memory.
    pub alloc: Global,
    place: Place,
}

impl Model for RangeList {
    ghost use Rattle.std.specs.Prelude.{ℤ, List};
    ghost use Rattle.signed_clause.specs.Stored.{stored};

    ghost Value = { List (ℤ × ℤ) };

    ghost view = { λ l. stored l.place };
}

impl RangeList {
    /// No range. It takes no memory.
    pub fn none(alloc: Global) -> RangeList
        ensures { result ≡ [] }
    {
        RangeList {
            alloc,
            place: Place::Nowhere,
        }
    }

    /// One range. It takes no memory.
    pub fn one(alloc: Global, r: (i64, i64)) -> RangeList
        ensures { result ≡ r ∷ [] }
    {
        RangeList {
            alloc,
            place: Place::Here([r]),
        }
    }

    /// These ranges. One takes no memory.
    pub fn of(alloc: Global, ranges: &[(i64, i64)]) -> Result<RangeList, AllocError>
        ensures { IfOk result (λ l. l ≡ ranges.now) }
    {
        let place = match ranges {
            [] => Place::Nowhere,
            [r] => Place::Here([*r]),
            more => Place::Shared(RcSlice::from_slice(alloc, more)?),
        };
        Ok(RangeList { alloc, place })
    }

    /// The ranges, in order.
    pub fn as_slice(&self) -> &[(i64, i64)]
        ensures { result.now ≡ self.now }
    {
        match &self.place {
            Place::Nowhere => &[],
            Place::Here(range) => range,
            Place::Shared(ranges) => ranges.as_slice(),
        }
    }

    /// The same list again. It takes no memory.
    ///
    /// # Errors
    /// Only where the count of copies is at the greatest `usize`, which no machine's memory holds.
    pub fn copy(&self) -> Result<RangeList, AllocError>
        ensures { IfOk result (λ l. l ≡ self.now) }
    {
        let alloc = self.alloc;
        match &self.place {
            Place::Nowhere => Ok(RangeList::none(alloc)),
            Place::Here(range) => Ok(RangeList {
                alloc,
                place: Place::Here(*range),
            }),
            Place::Shared(ranges) => {
                let place = Place::Shared(ranges.clone()?);
                Ok(RangeList { alloc, place })
            }
        }
    }
}
