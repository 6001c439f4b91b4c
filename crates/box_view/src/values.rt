//! Numbers that pass several tests at once, found without building the set of them.
//!
//! `Values` answers the next value from a number on, and the one before. A set has that by halving
//! its list of ranges (`Inside`), and so has what it lacks (`Outside`). Of two such (`Both`) the
//! next common value is found by leaps: each leads to the other's next value until they agree. So
//! questions of a difference of sets, or of two, are one question each.
ghost use Rattle.std.specs.Prelude.{◌≡◌, ◌↔◌, IsTrue, ◌≤◌, ◌<◌, ◌≤ℤ◌, ◌&&◌, Bool, false, ℤ, pos, not, IfSome, IfNone, length, drop, take, slice_index_or};
ghost use Rattle.std.specs.Prelude.{◌-◌, ◌+ℤ◌, ◌-ℤ◌, negsuc, int_lt, int_le};
ghost use Rattle.signed_clause.specs.Ranges.{has, IsValid};
ghost use Rattle.box_view.specs.Firsts.{IsFirst, HasNoneFrom, IsLast, HasNoneTo, IsReaching, IsBegun};

use crate::numbers::{end_of, greater, smaller, start_of};
use ground_form::Number;
use signed_clause::IntSet;

/// Numbers that pass a test.
pub trait NumberSet {
    // the test
    ghost holds: { Self → ℤ → Bool };

    /// The first from `from` on.
    fn next(&self, from: Number) -> Option<Number>
        ensures some { IfSome result (λ w. IsFirst (holds self.now) from.value w.value) }
        ensures none { IfNone result (HasNoneFrom (holds self.now) from.value) };

    /// The last up to `from`.
    fn previous(&self, from: Number) -> Option<Number>
        ensures some { IfSome result (λ w. IsLast (holds self.now) from.value w.value) }
        ensures none { IfNone result (HasNoneTo (holds self.now) from.value) };
}

/// The values of a set.
#[derive(Drop)]
pub struct InSet<'a> {
    /// The set.
    pub set: &'a IntSet,
}

/// The numbers that a set lacks.
#[derive(Drop)]
pub struct OutOfSet<'a> {
    /// The set.
    pub set: &'a IntSet,
}

/// What two have in common.
#[derive(Drop)]
pub struct InBoth<A: Drop, B: Drop> {
    /// The one.
    pub a: A,
    /// The other.
    pub b: B,
}

/// Whether the range ends before the number.
fn ends_before(r: (i64, i64), at: Number) -> bool
    ensures { result ≡ int_lt r.1 at.value }
{
    r.1 < at.value
}

/// Whether the range begins at the number or before.
fn begins_by(r: (i64, i64), at: Number) -> bool
    ensures { result ≡ int_le r.0 at.value }
{
    r.0 <= at.value
}

/// How many ranges end before the number.
fn ended(ranges: &[(i64, i64)], at: Number) -> usize
    requires { IsValid ranges.now }
    ensures within { result ≤ length ranges.now }
    ensures left { (u : ℤ) → at.value ≤ℤ u → has (drop result ranges.now) u ≡ has ranges.now u }
    ensures reached { result < length ranges.now
        → at.value ≤ℤ (slice_index_or ranges.now result (pos 0, pos 0)).1 }
{
    let mut low = 0;
    let mut high = ranges.len();
    while low < high {
        let middle = low + (high - low) / 2;
        if ends_before(ranges[middle], at) {
            low = middle + 1;
        } else {
            high = middle;
        }
    }
    low
}

/// How many ranges begin at the number or before.
fn begun(ranges: &[(i64, i64)], at: Number) -> usize
    requires { IsValid ranges.now }
    ensures within { result ≤ length ranges.now }
    ensures left { (u : ℤ) → u ≤ℤ at.value → has (take result ranges.now) u ≡ has ranges.now u }
    ensures reached { 0 < result → (slice_index_or ranges.now (result - 1) (pos 0, pos 0)).0
        ≤ℤ at.value }
{
    let mut low = 0;
    let mut high = ranges.len();
    while low < high {
        let middle = low + (high - low) / 2;
        if begins_by(ranges[middle], at) {
            low = middle + 1;
        } else {
            high = middle;
        }
    }
    low
}

/// The first range that reaches the number.
#[tactic(auto, using(crate::proofs::Halving::reaching_law))]
fn reaching(ranges: &[(i64, i64)], at: Number) -> Option<(i64, i64)>
    requires { IsValid ranges.now }
    ensures some { IfSome result (λ r. IsReaching ranges.now at.value r) }
    ensures none { IfNone result ((u : ℤ) → at.value ≤ℤ u → has ranges.now u ≡ false) }
{
    let k = ended(ranges, at);
    if k < ranges.len() {
        Some(ranges[k])
    } else {
        None
    }
}

/// The last range that begins by the number.
#[tactic(auto, using(crate::proofs::Halving::begun_law))]
fn begun_by(ranges: &[(i64, i64)], at: Number) -> Option<(i64, i64)>
    requires { IsValid ranges.now }
    ensures some { IfSome result (λ r. IsBegun ranges.now at.value r) }
    ensures none { IfNone result ((u : ℤ) → u ≤ℤ at.value → has ranges.now u ≡ false) }
{
    let k = begun(ranges, at);
    if 0 < k { Some(ranges[k - 1]) } else { None }
}

/// The first value of the ranges from the number on.
#[tactic(auto, using(crate::proofs::Halving::first_value))]
fn first_of(ranges: &[(i64, i64)], from: Number) -> Option<Number>
    requires { IsValid ranges.now }
    ensures some { IfSome result (λ w. IsFirst (λ u. has ranges.now u) from.value w.value) }
    ensures none { IfNone result (HasNoneFrom (λ u. has ranges.now u) from.value) }
{
    match reaching(ranges, from) {
        Some(r) => Some(greater(from, start_of(r))),
        None => None,
    }
}

/// The last value of the ranges up to the number.
#[tactic(auto, using(crate::proofs::Halving::last_value))]
fn last_of(ranges: &[(i64, i64)], from: Number) -> Option<Number>
    requires { IsValid ranges.now }
    ensures some { IfSome result (λ w. IsLast (λ u. has ranges.now u) from.value w.value) }
    ensures none { IfNone result (HasNoneTo (λ u. has ranges.now u) from.value) }
{
    match begun_by(ranges, from) {
        Some(r) => Some(smaller(from, end_of(r))),
        None => None,
    }
}

/// The number behind the range, where there is one.
fn behind(r: (i64, i64)) -> Option<Number>
    ensures some { IfSome result (λ w. w.value ≡ r.1 +ℤ pos 1) }
    ensures none { IfNone result (r.1 ≡ pos 9223372036854775807) }
{
    if r.1 < i64::MAX {
        Some(Number { value: r.1 + 1 })
    } else {
        None
    }
}

/// The number before the range, where there is one.
fn ahead(r: (i64, i64)) -> Option<Number>
    ensures some { IfSome result (λ w. w.value ≡ r.0 -ℤ pos 1) }
    ensures none { IfNone result (r.0 ≡ negsuc 9223372036854775807) }
{
    if r.0 > i64::MIN {
        Some(Number { value: r.0 - 1 })
    } else {
        None
    }
}

/// The first number from `from` on that isn't in the ranges, of which `r` is the first that reaches
/// `from`.
#[tactic(auto, using(crate::proofs::Halving::first_lack, crate::proofs::Halving::first_lack_at, crate::proofs::Halving::no_lack_from, crate::proofs::Halving::lack_before))]
fn lacking_from(ranges: &[(i64, i64)], r: (i64, i64), from: Number) -> Option<Number>
    requires { IsReaching ranges.now from.value r }
    ensures some { IfSome result (λ w. IsFirst (λ u. not (has ranges.now u)) from.value w.value) }
    ensures none { IfNone result (HasNoneFrom (λ u. not (has ranges.now u)) from.value) }
{
    if begins_by(r, from) {
        behind(r)
    } else {
        Some(from)
    }
}

/// The last number up to `from` that isn't in the ranges, of which `r` is the last that begins by
/// `from`.
#[tactic(auto, using(crate::proofs::Halving::last_lack, crate::proofs::Halving::last_lack_at, crate::proofs::Halving::no_lack_to, crate::proofs::Halving::lack_after))]
fn lacking_to(ranges: &[(i64, i64)], r: (i64, i64), from: Number) -> Option<Number>
    requires { IsBegun ranges.now from.value r }
    ensures some { IfSome result (λ w. IsLast (λ u. not (has ranges.now u)) from.value w.value) }
    ensures none { IfNone result (HasNoneTo (λ u. not (has ranges.now u)) from.value) }
{
    if ends_before(r, from) {
        Some(from)
    } else {
        ahead(r)
    }
}

/// The first number from `from` on that the ranges lack.
#[tactic(auto, using(crate::proofs::Halving::first_lack_at))]
fn first_lacking(ranges: &[(i64, i64)], from: Number) -> Option<Number>
    requires { IsValid ranges.now }
    ensures some { IfSome result (λ w. IsFirst (λ u. not (has ranges.now u)) from.value w.value) }
    ensures none { IfNone result (HasNoneFrom (λ u. not (has ranges.now u)) from.value) }
{
    match reaching(ranges, from) {
        Some(r) => lacking_from(ranges, r, from),
        None => Some(from),
    }
}

/// The last number up to `from` that the ranges lack.
#[tactic(auto, using(crate::proofs::Halving::last_lack_at))]
fn last_lacking(ranges: &[(i64, i64)], from: Number) -> Option<Number>
    requires { IsValid ranges.now }
    ensures some { IfSome result (λ w. IsLast (λ u. not (has ranges.now u)) from.value w.value) }
    ensures none { IfNone result (HasNoneTo (λ u. not (has ranges.now u)) from.value) }
{
    match begun_by(ranges, from) {
        Some(r) => lacking_to(ranges, r, from),
        None => Some(from),
    }
}

/// The first value of the set from the number on.
pub fn first_in(set: &IntSet, from: Number) -> Option<Number>
    ensures some { IfSome result (λ w. IsFirst (λ u. has set.now u) from.value w.value) }
    ensures none { IfNone result (HasNoneFrom (λ u. has set.now u) from.value) }
{
    first_of(set.ranges(), from)
}

impl<'a> NumberSet for InSet<'a> {
    ghost holds = { λ s u. has s.set.now u };

    fn next(&self, from: Number) -> Option<Number> {
        first_in(self.set, from)
    }

    fn previous(&self, from: Number) -> Option<Number> {
        last_of(self.set.ranges(), from)
    }
}

impl<'a> NumberSet for OutOfSet<'a> {
    ghost holds = { λ s u. not (has s.set.now u) };

    fn next(&self, from: Number) -> Option<Number> {
        first_lacking(self.set.ranges(), from)
    }

    fn previous(&self, from: Number) -> Option<Number> {
        last_lacking(self.set.ranges(), from)
    }
}

/// The first value of `a` from the number on, and the first of `b` from there on.
#[tactic(auto, using(crate::proofs::Leaps::none_of_first, crate::proofs::Leaps::none_of_second))]
fn leap<A: NumberSet, B: NumberSet>(a: &A, b: &B, at: Number) -> Option<(Number, Number)>
    ensures one { IfSome result (λ p. IsFirst (A.holds a.now) at.value p.0.value) }
    ensures other { IfSome result (λ p. IsFirst (B.holds b.now) p.0.value p.1.value) }
    ensures none { IfNone result (HasNoneFrom (λ u. A.holds a.now u && B.holds b.now u) at.value) }
{
    let one = a.next(at)?;
    let other = b.next(one)?;
    Some((one, other))
}

/// The last value of `a` up to the number, and the last of `b` up to there.
#[tactic(auto, using(crate::proofs::Leaps::none_of_last, crate::proofs::Leaps::none_of_second_last))]
fn leap_back<A: NumberSet, B: NumberSet>(a: &A, b: &B, at: Number) -> Option<(Number, Number)>
    ensures one { IfSome result (λ p. IsLast (A.holds a.now) at.value p.0.value) }
    ensures other { IfSome result (λ p. IsLast (B.holds b.now) p.0.value p.1.value) }
    ensures none { IfNone result (HasNoneTo (λ u. A.holds a.now u && B.holds b.now u) at.value) }
{
    let one = a.previous(at)?;
    let other = b.previous(one)?;
    Some((one, other))
}

/// Whether both numbers are one.
fn are_same(a: Number, b: Number) -> bool
    ensures { IsTrue result ↔ (a.value ≡ b.value) }
{
    a.value == b.value
}

impl<A: NumberSet + Drop, B: NumberSet + Drop> NumberSet for InBoth<A, B> {
    ghost holds = { λ s u. A.holds s.a u && B.holds s.b u };

    fn next(&self, from: Number) -> Option<Number> {
        let mut at = from;
        while let Some((one, other)) = leap(&self.a, &self.b, at) {
            if are_same(one, other) {
                return Some(one);
            }
            at = other;
        }
        None
    }

    fn previous(&self, from: Number) -> Option<Number> {
        let mut at = from;
        while let Some((one, other)) = leap_back(&self.a, &self.b, at) {
            if are_same(one, other) {
                return Some(one);
            }
            at = other;
        }
        None
    }
}
