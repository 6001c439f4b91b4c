//! How a witness of a literal's set is chosen.
ghost use Rattle.std.specs.Prelude.{◌≡◌, true, IfSome};
ghost use Rattle.signed_clause.specs.Ranges.{has};
ghost use Rattle.clause_watches.specs.Rows.{IsTrueOf};

use crate::mask::mask_of;
use crate::watch::Witness;
use signed_clause::IntSet;

/// A witness of the set that the box meets now: its values as bits where one of them is in the box,
/// else one value that both have. Only for a box that the set doesn't meet it is one of no use.
pub(crate) fn witness_of(set: &IntSet, at: &IntSet, least: i64) -> Witness
    ensures { IsTrueOf least set.now result }
{
    let bits = mask_of(set, least);
    if bits & mask_of(at, least) != 0 {
        return Witness::Mask(bits);
    }
    match common(set, at) {
        Some(v) => Witness::Value(v),
        None => Witness::Mask(bits),
    }
}

/// A value of both sets: where they meet, a range of one begins within the other.
fn common(set: &IntSet, at: &IntSet) -> Option<i64>
    ensures { IfSome result (λ v. has set.now v ≡ true) }
{
    match first_start(at.ranges(), set, at) {
        Some(v) => Some(v),
        None => first_start(set.ranges(), set, at),
    }
}

/// The first start of a range that both sets have.
fn first_start(ranges: &[(i64, i64)], set: &IntSet, at: &IntSet) -> Option<i64>
    ensures { IfSome result (λ v. has set.now v ≡ true) }
{
    for r in ranges {
        if set.contains(r.0) && at.contains(r.0) {
            return Some(r.0);
        }
    }
    None
}
