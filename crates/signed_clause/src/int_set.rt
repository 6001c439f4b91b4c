//! `IntSet`, a finite set of integers of 64 bits.
//!
//! A set is the list of its ranges in order; no two of them overlap or touch, so equal sets are
//! equal lists. One range stands in the value itself and takes no memory; the copies of a set of
//! more ranges share its memory. Whatever looks at two sets walks both lists once, `contains`
//! halves the list, and the other questions look at its ends. Contracts see a set as its list,
//! `has` says which values that holds, and every set is valid (`IsValid`), which `ranges` promises
//! to whoever asks.
ghost use Rattle.std.specs.Prelude.{◌≡◌, ◌↔◌, ◌≤ℤ◌, ◌<◌, ◌≤◌, ◌+◌, ◌^◌, ◌-ℤ◌, ◌+ℤ◌, pos, ◌⊎◌, ◌&&◌, ◌||◌, not, ℤ, List, drop, [], ◌∷◌, ◌++◌, IsTrue, IfOk, OnOk, IfSome, IsSome, IfNone, false, int_lt, int_le, length};
ghost use Rattle.std.specs.Int.{int_min};
ghost use Rattle.signed_clause.specs.Ranges.{has, in_range, IsValid, HasNoValue, IsSubset, HaveNoCommonValue, HaveSameValues, least_of, greatest_of, IsLeast, IsGreatest, count_of, is_nil};
ghost use Rattle.signed_clause.specs.SetAlgebra.{meet, less, join, is_disjoint, piece, less_from, is_within};
ghost use Rattle.signed_clause.specs.Union.{fuse};
ghost use Rattle.signed_clause.specs.Merging.{fuse_pending, merge};

use crate::range::{
    after, before, begins_by, begins_first, begins_no_later, common, covering, ends_before,
    ends_first, has_gap_before, is_range, overlap, steps,
};
use crate::stored::RangeList;
use smallvec::SmallVec;
use std::alloc::{AllocError, Global};
use std::marker::Model;

/// The most ranges of a set that isn't long. Of a long one it is looked first whether another one
/// is the same, since long ones often are.
const LONG: usize = 16;

/// A finite set of integers of 64 bits.
pub struct IntSet {
    ranges: RangeList,
}

impl Drop for IntSet {
    fn drop(self) {
        let IntSet { ranges: _ } = self;
    }
}

impl Model for IntSet {
    ghost use Rattle.std.specs.Prelude.{ℤ, List};
    ghost use Rattle.signed_clause.specs.Ranges.{IsValid};

    ghost Value = { List (ℤ × ℤ) };

    ghost view = { λ s. s.ranges };

    ghost invariant = { λ s. IsValid s.ranges };
}

impl IntSet {
    /// The empty set. It takes no memory.
    pub fn empty(alloc: Global) -> IntSet
        ensures list { result ≡ [] }
        ensures valid { IsValid result }
    {
        IntSet {
            ranges: RangeList::none(alloc),
        }
    }

    /// The values from `lo` to `hi`. It takes no memory.
    pub fn range(alloc: Global, lo: i64, hi: i64) -> IntSet
        requires { lo ≤ℤ hi }
        ensures list { result ≡ (lo, hi) ∷ [] }
        ensures values { (v : ℤ) → has result v ≡ in_range (lo, hi) v }
        ensures valid { IsValid result }
    {
        IntSet {
            ranges: RangeList::one(alloc, (lo, hi)),
        }
    }

    /// The set of these ranges, in one walk. None exactly where they aren't those of a set in
    /// order, as where one is empty, or begins less than two above the end of the one before.
    pub fn of(alloc: Global, ranges: &[(i64, i64)]) -> Result<Option<IntSet>, AllocError>
        ensures variant { IfOk result (λ o. IsSome o ↔ IsValid ranges.now) }
        ensures list { IfOk result (λ o. IfSome o (λ s. s ≡ ranges.now)) }
        ensures valid { IfOk result (λ o. IfSome o (λ s. IsValid s)) }
    {
        if !are_canonical(ranges) {
            return Ok(None);
        }
        let ranges = RangeList::of(alloc, ranges)?;
        Ok(Some(IntSet { ranges }))
    }

    /// The ranges, each with its least and its greatest value, in order.
    pub fn ranges(&self) -> &[(i64, i64)]
        ensures items { result.now ≡ self.now }
        ensures valid { IsValid self.now }
    {
        self.ranges.as_slice()
    }

    /// The same set again.
    pub fn copy(&self) -> Result<IntSet, AllocError>
        ensures list { IfOk result (λ s. s ≡ self.now) }
        ensures valid { IfOk result (λ s. IsValid s) }
    {
        let ranges = self.ranges.copy()?;
        Ok(IntSet { ranges })
    }

    /// Whether there are no values.
    pub fn is_empty(&self) -> bool
        ensures list { result ≡ is_nil self.now }
        ensures values { IsTrue result ↔ HasNoValue self.now }
    {
        self.ranges().is_empty()
    }

    /// Whether `v` is a value.
    pub fn contains(&self, v: i64) -> bool
        ensures { result ≡ has self.now v }
    {
        let ranges = self.ranges();
        let mut low = 0;
        let mut high = ranges.len();
        while low < high {
            let middle = low + (high - low) / 2;
            if ends_before(ranges[middle], v) {
                low = middle + 1;
            } else {
                high = middle;
            }
        }
        low < ranges.len() && begins_by(ranges[low], v)
    }

    /// Whether there is exactly one value.
    pub fn is_single(&self) -> bool
        ensures { IsTrue result ↔ ((v : ℤ) × (self.now ≡ (v, v) ∷ [])) }
    {
        let ranges = self.ranges();
        ranges.len() == 1 && ranges[0].0 == ranges[0].1
    }

    /// The least value, where there is one.
    pub fn least(&self) -> Option<i64>
        ensures list { result ≡ least_of self.now }
        ensures none { IfNone result (HasNoValue self.now) }
        ensures least { IfSome result (λ v. IsLeast self.now v) }
    {
        let ranges = self.ranges();
        if ranges.is_empty() {
            None
        } else {
            Some(ranges[0].0)
        }
    }

    /// The greatest value, where there is one.
    #[tactic(auto, using(crate::proofs::RangeSteps::greatest_at))]
    pub fn greatest(&self) -> Option<i64>
        ensures list { result ≡ greatest_of self.now }
        ensures none { IfNone result (HasNoValue self.now) }
        ensures greatest { IfSome result (λ v. IsGreatest self.now v) }
    {
        let ranges = self.ranges();
        if ranges.is_empty() {
            None
        } else {
            Some(ranges[ranges.len() - 1].1)
        }
    }

    /// Whether there are at most `n` values.
    pub fn at_most(&self, n: u64) -> bool
        ensures { IsTrue result ↔ (count_of self.now ≤ n) }
    {
        let ranges = self.ranges();
        let mut left = n;
        for r in ranges {
            let more = steps(*r);
            if left <= more {
                return false;
            }
            left = left - more - 1;
        }
        true
    }

    /// How many values there are, where that is below 2^64. It takes no memory.
    pub fn count(&self) -> Option<u64>
        ensures variant { IsSome result ↔ (count_of self.now < 2 ^ 64) }
        ensures count { IfSome result (λ n. n ≡ count_of self.now) }
    {
        let mut sum = 0u64;
        for r in self.ranges() {
            sum = sum.checked_add(steps(*r))?.checked_add(1)?;
        }
        Some(sum)
    }

    /// Whether both sets have the same values.
    pub fn same(&self, o: &IntSet) -> bool
        ensures list { IsTrue result ↔ (self.now ≡ o.now) }
        ensures values { IsTrue result ↔ HaveSameValues self.now o.now }
    {
        self.ranges() == o.ranges()
    }

    /// Whether no value is in both sets.
    pub fn disjoint(&self, o: &IntSet) -> bool
        ensures list { result ≡ is_disjoint self.now o.now }
        ensures values { IsTrue result ↔ HaveNoCommonValue self.now o.now }
    {
        all_ranges_disjoint(self.ranges(), o.ranges())
    }

    /// Whether `o` has every value of this set.
    pub fn within(&self, o: &IntSet) -> bool
        ensures list { result ≡ is_within self.now o.now }
        ensures values { IsTrue result ↔ IsSubset self.now o.now }
    {
        let (a, b) = (self.ranges(), o.ranges());
        if self.is_long_as(o) {
            return true;
        }
        all_covered(a, b)
    }

    /// The values of both sets.
    pub fn meet(&self, o: &IntSet) -> Result<IntSet, AllocError>
        ensures list { IfOk result (λ s. s ≡ meet self.now o.now) }
        ensures values { IfOk result (λ s. (v : ℤ) → has s v ≡ (has self.now v && has o.now v)) }
        ensures valid { IfOk result (λ s. IsValid s) }
    {
        let (a, b) = (self.ranges(), o.ranges());
        if self.is_long_within(o) {
            return self.copy();
        }
        if o.is_long_within(self) {
            return o.copy();
        }
        let common = common_ranges(self.ranges.alloc, a, b)?;
        let ranges = RangeList::of(self.ranges.alloc, &common)?;
        Ok(IntSet { ranges })
    }

    /// The values of this set that `o` lacks.
    pub fn less(&self, o: &IntSet) -> Result<IntSet, AllocError>
        ensures list { IfOk result (λ s. s ≡ less self.now o.now) }
        ensures values { IfOk result (λ s. (v : ℤ) → has s v
            ≡ (has self.now v && not (has o.now v))) }
        ensures valid { IfOk result (λ s. IsValid s) }
    {
        let (a, b) = (self.ranges(), o.ranges());
        let rest = rest_ranges(self.ranges.alloc, a, b)?;
        let ranges = RangeList::of(self.ranges.alloc, &rest)?;
        Ok(IntSet { ranges })
    }

    /// The values of either set.
    pub fn join(&self, o: &IntSet) -> Result<IntSet, AllocError>
        ensures list { IfOk result (λ s. s ≡ join self.now o.now) }
        ensures values { IfOk result (λ s. (v : ℤ) → has s v ≡ (has self.now v || has o.now v)) }
        ensures valid { IfOk result (λ s. IsValid s) }
    {
        let (a, b) = (self.ranges(), o.ranges());
        if o.is_long_within(self) {
            return self.copy();
        }
        if self.is_long_within(o) {
            return o.copy();
        }
        let all = joined_ranges(self.ranges.alloc, a, b)?;
        let ranges = RangeList::of(self.ranges.alloc, &all)?;
        Ok(IntSet { ranges })
    }

    /// Whether the set is long and the same as `o`, which is faster to see than anything else.
    fn is_long_as(&self, o: &IntSet) -> bool
        ensures { IsTrue result → (self.now ≡ o.now) }
    {
        self.ranges().len() > LONG && self.same(o)
    }

    /// Whether the set is long and `o` has every value of it. Then what the two have in common, or
    /// have together, is one of them, whose copy takes no memory.
    fn is_long_within(&self, o: &IntSet) -> bool
        ensures { IsTrue result → IsSubset self.now o.now }
    {
        self.ranges().len() > LONG && self.within(o)
    }
}

/// The ranges that two lists have in common.
fn common_ranges(
    alloc: Global,
    a: &[(i64, i64)],
    b: &[(i64, i64)],
) -> Result<SmallVec<(i64, i64), 2>, AllocError>
    ensures { IfOk result (λ out. out.items ≡ meet a.now b.now) }
{
    let mut out = SmallVec::new(alloc);
    let mut i = 0;
    let mut j = 0;
    while i < a.len() && j < b.len() {
        push_piece(&mut out, common(a[i], b[j]))?;
        if ends_first(b[j], a[i]) {
            j += 1;
        } else {
            i += 1;
        }
    }
    Ok(out)
}

/// The ranges of values that the second list lacks.
fn rest_ranges(
    alloc: Global,
    a: &[(i64, i64)],
    b: &[(i64, i64)],
) -> Result<SmallVec<(i64, i64), 2>, AllocError>
    ensures { IfOk result (λ out. out.items ≡ less a.now b.now) }
{
    let mut out = SmallVec::new(alloc);
    let mut j = 0;
    for r in a {
        j = push_less(&mut out, *r, b, j)?;
    }
    Ok(out)
}

/// The ranges of the values of either list, whose ranges are those of sets.
fn joined_ranges(
    alloc: Global,
    a: &[(i64, i64)],
    b: &[(i64, i64)],
) -> Result<SmallVec<(i64, i64), 2>, AllocError>
    requires valid { IsValid a.now }
    requires other { IsValid b.now }
    ensures { IfOk result (λ out. out.items ≡ join a.now b.now) }
{
    let mut out = SmallVec::new(alloc);
    let mut pending = None;
    let mut i = 0;
    let mut j = 0;
    while i < a.len() || j < b.len() {
        let (r, next_i, next_j) = next(a, i, b, j);
        pending = Some(absorb(&mut out, pending, r)?);
        i = next_i;
        j = next_j;
    }
    push_pending(&mut out, pending)?;
    Ok(out)
}

/// A number in a computation.
#[derive(Clone, Copy)]
struct Least {
    value: i128,
}

/// Whether the ranges are those of a set in order.
fn are_canonical(ranges: &[(i64, i64)]) -> bool
    ensures { IsTrue result ↔ IsValid ranges.now }
{
    let mut least = Least {
        value: i64::MIN as i128,
    };
    for r in ranges {
        if !may_follow(least, *r) {
            return false;
        }
        least = least_behind(*r);
    }
    true
}

/// Whether a range of values from `least` on may stand there.
fn may_follow(least: Least, r: (i64, i64)) -> bool
    ensures { result ≡ (int_le least.value r.0 && int_le r.0 r.1) }
{
    least.value <= r.0 as i128 && r.0 <= r.1
}

/// Where the range behind `r` may begin.
fn least_behind(r: (i64, i64)) -> Least
    ensures value { result.value ≡ r.1 +ℤ pos 2 }
    ensures bound { result.value ≤ℤ (pos 9223372036854775807 +ℤ pos 2) }
{
    Least {
        value: r.1 as i128 + 2,
    }
}

/// Whether no value is in both lists of ranges.
fn all_ranges_disjoint(a: &[(i64, i64)], b: &[(i64, i64)]) -> bool
    ensures { result ≡ is_disjoint a.now b.now }
{
    let mut i = 0;
    let mut j = 0;
    while i < a.len() && j < b.len() {
        if overlap(a[i], b[j]) {
            return false;
        }
        if ends_first(b[j], a[i]) {
            j += 1;
        } else {
            i += 1;
        }
    }
    true
}

/// Whether the ranges of `b` have all values of those of `a`.
fn all_covered(a: &[(i64, i64)], b: &[(i64, i64)]) -> bool
    ensures { result ≡ is_within a.now b.now }
{
    let mut j = 0;
    for r in a {
        match covered(*r, b, j) {
            Some(next) => j = next,
            None => return false,
        }
    }
    true
}

/// Adds the pending range, if there is one.
fn push_pending(
    out: &mut SmallVec<(i64, i64), 2>,
    pending: Option<(i64, i64)>,
) -> Result<(), AllocError>
    ensures { OnOk result (out.new.items ≡ out.old.items ++ fuse_pending pending []) }
{
    if let Some(r) = pending {
        out.push(r)?;
    }
    Ok(())
}

/// The next range by its start, and the places behind it.
fn next(a: &[(i64, i64)], i: usize, b: &[(i64, i64)], j: usize) -> ((i64, i64), usize, usize)
    requires some { (i < length a.now) ⊎ (j < length b.now) }
    requires i_within { i ≤ length a.now }
    requires j_within { j ≤ length b.now }
    ensures i_within { result.1 ≤ length a.now }
    ensures j_within { result.2 ≤ length b.now }
    ensures merged { merge (drop i a.now) (drop j b.now)
        ≡ result.0 ∷ merge (drop result.1 a.now) (drop result.2 b.now) }
    ensures steps { result.1 + result.2 ≡ i + j + 1 }
{
    if i < a.len() && (j >= b.len() || begins_no_later(a[i], b[j])) {
        (a[i], i + 1, j)
    } else {
        (b[j], i, j + 1)
    }
}

/// Takes in a range that begins no earlier than the pending one: where there is a gap, the pending
/// one is done.
fn absorb(
    out: &mut SmallVec<(i64, i64), 2>,
    pending: Option<(i64, i64)>,
    r: (i64, i64),
) -> Result<(i64, i64), AllocError>
    ensures { IfOk result (λ p. (rs : List (ℤ × ℤ))
        → out.old.items ++ fuse_pending pending (r ∷ rs) ≡ out.new.items ++ fuse p.0 p.1 rs) }
{
    match pending {
        None => Ok(r),
        Some(p) => {
            if has_gap_before(p, r) {
                out.push(p)?;
                Ok(r)
            } else {
                Ok(covering(p, r))
            }
        }
    }
}

/// How many ranges end before `r` does, if those from `from` on have all values of `r`.
fn covered(r: (i64, i64), b: &[(i64, i64)], from: usize) -> Option<usize>
    ensures none { IfNone result ((rest : List (ℤ × ℤ) → List (ℤ × ℤ))
        → is_nil (less_from rest r.0 r.1 (drop from b.now)) ≡ false) }
    ensures some { IfSome result (λ j. (rest : List (ℤ × ℤ) → List (ℤ × ℤ))
        → less_from rest r.0 r.1 (drop from b.now) ≡ rest (drop j b.now)) }
{
    let mut part = r;
    let mut j = from;
    while j < b.len() {
        if begins_first(part, b[j]) {
            return None;
        }
        if !ends_first(b[j], part) {
            return Some(j);
        }
        part = after(part, b[j]);
        j += 1;
    }
    if is_range(part) { None } else { Some(j) }
}

/// Adds the values of `r` that the ranges from `from` on lack, and answers how many ranges end
/// before `r` does.
fn push_less(
    out: &mut SmallVec<(i64, i64), 2>,
    r: (i64, i64),
    b: &[(i64, i64)],
    from: usize,
) -> Result<usize, AllocError>
    ensures { IfOk result (λ j. (rest : List (ℤ × ℤ) → List (ℤ × ℤ))
        → out.old.items ++ less_from rest r.0 r.1 (drop from b.now) ≡ out.new.items ++ rest (drop j b.now)) }
{
    let mut part = r;
    let mut j = from;
    while j < b.len() {
        push_before(out, part, b[j])?;
        if !ends_first(b[j], part) {
            return Ok(j);
        }
        part = after(part, b[j]);
        j += 1;
    }
    push_piece(out, part)?;
    Ok(j)
}

/// Adds the values of `r` that are below `s`.
fn push_before(
    out: &mut SmallVec<(i64, i64), 2>,
    r: (i64, i64),
    s: (i64, i64),
) -> Result<(), AllocError>
    ensures { OnOk result (out.new.items ≡ out.old.items ++ piece r.0 (int_min r.1 (s.0 -ℤ pos 1))
        []) }
{
    if r.0 < s.0 {
        push_piece(out, before(r, s))?;
    }
    Ok(())
}

/// Adds the values from `r.0` to `r.1`.
fn push_piece(out: &mut SmallVec<(i64, i64), 2>, r: (i64, i64)) -> Result<(), AllocError>
    ensures { OnOk result (out.new.items ≡ out.old.items ++ piece r.0 r.1 []) }
{
    if r.0 <= r.1 {
        out.push(r)?;
    }
    Ok(())
}
