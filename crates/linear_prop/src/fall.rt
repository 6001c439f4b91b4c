//! How far an explanation lets a term fall.
//!
//! An explanation has slack: it may let its terms fall below what they are in the boxes, as long as
//! their sum stays above the bound. A term that its domain keeps high enough needs no literal;
//! another gets one whose set is as small as the slack permits.
ghost use Rattle.std.specs.Prelude.{◌≡◌, ◌<◌, ◌≤◌, ◌^◌, ◌*◌, ◌*ℤ◌, ◌+ℤ◌, ◌-ℤ◌, ◌≤ℤ◌, ◌<ℤ◌, ℤ, pos, negsuc, ◌&&◌, false, int_lt, IfOk, unsigned_abs};
ghost use Rattle.signed_clause.specs.Ranges.{has, in_range, is_nil, IsValid};
ghost use Rattle.ground_form.specs.Bounds.{low_of, high_of, reach_of};
ghost use Rattle.linear_prop.specs.Explaining.{span_of};
ghost use Rattle.linear_prop.specs.Falls.{least_at, greatest_at, IsBelow, IsFall};

use crate::number::{Factor, WideNumber};
use ground_form::ends_of;
use signed_clause::IntSet;
use std::alloc::{AllocError, Global};

/// What an explanation asks of a term.
#[derive(Drop)]
pub struct Fall {
    /// The set of its literal, where it needs one.
    pub literal: Option<IntSet>,
    /// The slack that is left.
    pub left: u64,
}

/// The value of a set at which the term is least.
#[tactic(auto, using(crate::proofs::Products::least_end, crate::proofs::Products::least_end_negative))]
pub fn lowest(c: Factor, set: &IntSet) -> WideNumber
    requires order { low_of set.now ≤ℤ high_of set.now }
    ensures value { c.value *ℤ result.value ≡ least_at c.value set.now }
    ensures up { pos 0 ≤ℤ c.value → result.value ≡ low_of set.now }
    ensures down { c.value <ℤ pos 0 → result.value ≡ high_of set.now }
    ensures low { low_of set.now ≤ℤ result.value }
    ensures high { result.value ≤ℤ high_of set.now }
{
    let ends = ends_of(set);
    if c.value < 0 {
        WideNumber::of(ends.1)
    } else {
        WideNumber::of(ends.0)
    }
}

/// The value of a set at which the term is greatest.
#[tactic(auto, using(crate::proofs::Products::greatest_end, crate::proofs::Products::greatest_end_negative))]
pub fn highest(c: Factor, set: &IntSet) -> WideNumber
    requires order { low_of set.now ≤ℤ high_of set.now }
    ensures value { c.value *ℤ result.value ≡ greatest_at c.value set.now }
    ensures low { low_of set.now ≤ℤ result.value }
    ensures high { result.value ≤ℤ high_of set.now }
{
    let ends = ends_of(set);
    if c.value < 0 {
        WideNumber::of(ends.0)
    } else {
        WideNumber::of(ends.1)
    }
}

/// The value that lies so many steps from `at`, in the direction in which the term falls, and not
/// beyond `end`.
#[tactic(auto, using(crate::proofs::Products::falls_down, crate::proofs::Products::falls_up))]
fn step_back(c: Factor, at: WideNumber, end: WideNumber, steps: u64) -> WideNumber
    requires above { pos 0 ≤ℤ c.value → end.value ≤ℤ at.value }
    requires below { c.value <ℤ pos 0 → at.value ≤ℤ end.value }
    requires steps { steps ≤ unsigned_abs (at.value -ℤ end.value) }
    ensures paid { c.value *ℤ result.value ≡ (c.value *ℤ at.value) -ℤ pos
        (unsigned_abs c.value * steps) }
    ensures up { pos 0 ≤ℤ c.value → result.value ≤ℤ at.value }
    ensures down { c.value <ℤ pos 0 → at.value ≤ℤ result.value }
{
    if c.value < 0 {
        at.raised(steps)
    } else {
        at.lowered(steps)
    }
}

/// How far the variable may go from `at`, in the direction in which the term falls, where the term
/// may fall by the slack, with which it doesn't reach `end`; and the slack that is left.
pub fn back_off(c: Factor, at: WideNumber, end: WideNumber, slack: u64) -> (WideNumber, u64)
    requires factor { 0 < unsigned_abs c.value }
    requires small { unsigned_abs c.value ≤ 2 ^ 63 }
    requires above { pos 0 ≤ℤ c.value → end.value ≤ℤ at.value }
    requires below { c.value <ℤ pos 0 → at.value ≤ℤ end.value }
    requires slack { slack < unsigned_abs c.value * unsigned_abs (at.value -ℤ end.value) }
    ensures paid { c.value *ℤ result.0.value ≡ ((c.value *ℤ at.value) -ℤ pos slack) +ℤ pos
        result.1 }
    ensures left { result.1 ≤ slack }
    ensures up { pos 0 ≤ℤ c.value → result.0.value ≤ℤ at.value }
    ensures down { c.value <ℤ pos 0 → at.value ≤ℤ result.0.value }
{
    let size = c.size();
    (step_back(c, at, end, slack / size), slack % size)
}

/// The values from `low` to `high`.
fn from_to(alloc: Global, low: WideNumber, high: WideNumber) -> IntSet
    requires { low.value ≤ℤ high.value }
    ensures values { (v : ℤ) → has result v ≡ in_range (low.value, high.value) v }
    ensures valid { IsValid result }
{
    IntSet::range(alloc, low.value, high.value)
}

/// The least value of the set, 0 of the empty one.
pub fn low_end(set: &IntSet) -> WideNumber
    ensures value { result.value ≡ low_of set.now }
    ensures from { negsuc 9223372036854775807 ≤ℤ result.value }
    ensures upto { result.value ≤ℤ pos 9223372036854775807 }
{
    WideNumber::of(ends_of(set).0)
}

/// The greatest value of the set, 0 of the empty one.
pub fn high_end(set: &IntSet) -> WideNumber
    ensures value { result.value ≡ high_of set.now }
    ensures from { negsuc 9223372036854775807 ≤ℤ result.value }
    ensures upto { result.value ≤ℤ pos 9223372036854775807 }
{
    WideNumber::of(ends_of(set).1)
}

/// The values of the set below `to`, which is above its least.
fn values_below(alloc: Global, set: &IntSet, to: WideNumber) -> Result<IntSet, AllocError>
    requires low { low_of set.now <ℤ to.value }
    requires high { to.value ≤ℤ high_of set.now }
    ensures values { IfOk result (λ s. (v : ℤ) → has s v ≡ (has set.now v && int_lt v to.value)) }
    ensures valid { IfOk result (λ s. IsValid s) }
{
    set.ranges();
    let _high = high_end(set);
    let low = low_end(set);
    let part = from_to(alloc, low, to.previous());
    let s = set.meet(&part)?;
    Ok(s)
}

/// The values of the set above `to`, which is below its greatest.
fn values_above(alloc: Global, set: &IntSet, to: WideNumber) -> Result<IntSet, AllocError>
    requires low { low_of set.now ≤ℤ to.value }
    requires high { to.value <ℤ high_of set.now }
    ensures values { IfOk result (λ s. (v : ℤ) → has s v ≡ (has set.now v && int_lt to.value v)) }
    ensures valid { IfOk result (λ s. IsValid s) }
{
    set.ranges();
    let _low = low_end(set);
    let high = high_end(set);
    let part = from_to(alloc, to.next(), high);
    let s = set.meet(&part)?;
    Ok(s)
}

/// The values of the set at which the term is less than where its variable is `to`.
fn values_under(
    alloc: Global,
    c: Factor,
    set: &IntSet,
    to: WideNumber,
) -> Result<IntSet, AllocError>
    requires some { is_nil set.now ≡ false }
    requires least { least_at c.value set.now <ℤ (c.value *ℤ to.value) }
    requires up { pos 0 ≤ℤ c.value → to.value ≤ℤ high_of set.now }
    requires down { c.value <ℤ pos 0 → low_of set.now ≤ℤ to.value }
    ensures { IfOk result (λ s. IsBelow c.value (c.value *ℤ to.value) set.now s) }
{
    set.ranges();
    if c.value < 0 {
        let s = values_above(alloc, set, to)?;
        Ok(s)
    } else {
        let s = values_below(alloc, set, to)?;
        Ok(s)
    }
}

/// How far the term may fall from where its variable is `at`, a value between the ends of its
/// domain, and what that asks of the explanation.
pub fn fall_of(
    alloc: Global,
    c: Factor,
    at: WideNumber,
    slack: u64,
    domain: &IntSet,
) -> Result<Fall, AllocError>
    requires some { is_nil domain.now ≡ false }
    requires low { low_of domain.now ≤ℤ at.value }
    requires high { at.value ≤ℤ high_of domain.now }
    requires fits { unsigned_abs c.value * span_of domain.now < 2 ^ 64 }
    requires small { unsigned_abs c.value ≤ 2 ^ 63 }
    ensures { IfOk result (λ f. IsFall c.value (c.value *ℤ at.value) slack domain.now f.literal
        f.left) }
{
    domain.ranges();
    let end = lowest(c, domain);
    let gap = c.moves(at.apart(end));
    if gap <= slack {
        return Ok(Fall {
            literal: None,
            left: slack - gap,
        });
    }
    let (to, left) = back_off(c, at, end, slack);
    let set = values_under(alloc, c, domain, to)?;
    Ok(Fall {
        literal: Some(set),
        left,
    })
}
