//! Which values of out are offered.
//!
//! A value is offered by an item whose box has it and whose own value the index can have. Where one
//! item offers all of out's values, one walk over the items tells so. Else a walk finds, from a
//! value on, how far the range of the first item that offers it reaches, so that the walks are as
//! many as ranges are needed: of a box of at most 64 values all are asked about, of a larger one
//! the least and the greatest.
ghost use Rattle.std.specs.Prelude.{◌≡◌, ◌<◌, ◌<ℤ◌, ◌≤ℤ◌, ◌+ℤ◌, ◌&&◌, ℤ, pos, true, false, IfSome, IfNone, length};
ghost use Rattle.std.specs.List.{All};
ghost use Rattle.signed_clause.specs.Ranges.{has, in_range, is_nil, IsValid};
ghost use Rattle.signed_clause.specs.SetAlgebra.{is_within};
ghost use Rattle.signed_clause.specs.Clauses.{box_of};
ghost use Rattle.ground_form.specs.Bounds.{low_of, high_of};
ghost use Rattle.box_rules.specs.Quiet.{probed};
ghost use Rattle.element_prop.specs.Elements.{some_covers, some_offers, all_offered};
ghost use Rattle.element_prop.specs.Near.{IsNear};

use crate::near::Near;
use ground_form::{Number, ends_of};
use signed_clause::IntSet;

/// Whether the index can be the item's value, and the item can be whatever out can.
fn does_cover(t: (i64, u32), out: &IntSet, index: &IntSet, boxes: &[IntSet]) -> bool
    requires { t.1 < length boxes.now }
    ensures { result ≡ (has index.now t.0 && is_within out.now (box_of boxes.now t.1)) }
{
    index.contains(t.0) && out.within(&boxes[t.1 as usize])
}

/// Whether one of the items can be whatever out can.
#[tactic(auto, using(crate::proofs::NearLaws::covers_from, crate::proofs::NearLaws::covers_to))]
fn is_covered(
    items: &[(i64, u32)],
    near: Near,
    out: &IntSet,
    index: &IntSet,
    boxes: &[IntSet],
) -> bool
    requires items { All (λ t. t.1 < length boxes.now) items.now }
    requires near { IsNear items.now index.now near }
    ensures { result ≡ some_covers items.now out.now index.now boxes.now }
{
    let mut i = near.from;
    while i < near.to {
        if does_cover(items[i], out, index, boxes) {
            return true;
        }
        i += 1;
    }
    false
}

/// Whether the range has the number.
fn is_in(r: (i64, i64), at: Number) -> bool
    ensures { result ≡ in_range r at.value }
{
    r.0 <= at.value && at.value <= r.1
}

/// Where the range begins.
fn start_of(r: (i64, i64)) -> Number
    ensures { result.value ≡ r.0 }
{
    Number { value: r.0 }
}

/// Where the range ends.
fn end_of(r: (i64, i64)) -> Number
    ensures { result.value ≡ r.1 }
{
    Number { value: r.1 }
}

/// The least and the greatest value of a set that isn't empty.
#[tactic(auto, using(box_view::proofs::EndLaws::has_low, box_view::proofs::EndLaws::has_high))]
fn set_ends(set: &IntSet) -> (Number, Number)
    requires { is_nil set.now ≡ false }
    ensures low { result.0.value ≡ low_of set.now }
    ensures high { result.1.value ≡ high_of set.now }
    ensures low_in { has set.now result.0.value ≡ true }
    ensures high_in { has set.now result.1.value ≡ true }
{
    set.ranges();
    let ends = ends_of(set);
    (start_of(ends), end_of(ends))
}

/// The end of the set's range that has the number.
fn reach_in(set: &IntSet, at: Number) -> Option<Number>
    ensures none { IfNone result (has set.now at.value ≡ false) }
    ensures order { IfSome result (λ end. at.value ≤ℤ end.value) }
    ensures some { IfSome result (λ end. (v : ℤ) → at.value ≤ℤ v → v ≤ℤ end.value → has set.now v
        ≡ true) }
{
    for r in set.ranges() {
        if is_in(*r, at) {
            return Some(end_of(*r));
        }
    }
    None
}

/// How far, from the value on, the item offers each value.
fn reach_of(t: (i64, u32), at: Number, index: &IntSet, boxes: &[IntSet]) -> Option<Number>
    requires { t.1 < length boxes.now }
    ensures none { IfNone result ((has index.now t.0 && has (box_of boxes.now t.1) at.value)
        ≡ false) }
    ensures order { IfSome result (λ end. at.value ≤ℤ end.value) }
    ensures some { IfSome result (λ end. (v : ℤ) → at.value ≤ℤ v → v ≤ℤ end.value
        → (has index.now t.0 && has (box_of boxes.now t.1) v) ≡ true) }
{
    let set = &boxes[t.1 as usize];
    if index.contains(t.0) && set.contains(at.value) {
        reach_in(set, at)
    } else {
        None
    }
}

/// How far, from the value on, the first item that offers it does so of each value.
#[tactic(auto, using(crate::proofs::NearLaws::offers_from, crate::proofs::NearLaws::offers_to))]
fn reach(
    items: &[(i64, u32)],
    near: Near,
    at: Number,
    index: &IntSet,
    boxes: &[IntSet],
) -> Option<Number>
    requires items { All (λ t. t.1 < length boxes.now) items.now }
    requires near { IsNear items.now index.now near }
    ensures none { IfNone result (some_offers items.now at.value index.now boxes.now ≡ false) }
    ensures order { IfSome result (λ end. at.value ≤ℤ end.value) }
    ensures some { IfSome result (λ end. (v : ℤ) → at.value ≤ℤ v → v ≤ℤ end.value
        → some_offers items.now v index.now boxes.now ≡ true) }
{
    let mut i = near.from;
    while i < near.to {
        let end = reach_of(items[i], at, index, boxes);
        if end.is_some() {
            return end;
        }
        i += 1;
    }
    None
}

/// The next number, below `last`.
fn next(n: Number, last: Number) -> Number
    requires { n.value <ℤ last.value }
    ensures { result.value ≡ n.value +ℤ pos 1 }
{
    Number { value: n.value + 1 }
}

/// The first of the values from `first` to `last` that no item offers.
fn unoffered_between(
    items: &[(i64, u32)],
    near: Near,
    first: Number,
    last: Number,
    index: &IntSet,
    boxes: &[IntSet],
) -> Option<Number>
    requires items { All (λ t. t.1 < length boxes.now) items.now }
    requires near { IsNear items.now index.now near }
    requires order { first.value ≤ℤ last.value }
    ensures none { IfNone result ((v : ℤ) → first.value ≤ℤ v → v ≤ℤ last.value
        → some_offers items.now v index.now boxes.now ≡ true) }
    ensures some { IfSome result (λ v. some_offers items.now v.value index.now boxes.now ≡ false) }
    ensures begun { IfSome result (λ v. first.value ≤ℤ v.value) }
    ensures ended { IfSome result (λ v. v.value ≤ℤ last.value) }
{
    let mut at = first;
    loop {
        let Some(end) = reach(items, near, at, index, boxes) else {
            return Some(at);
        };
        if last.value <= end.value {
            return None;
        }
        at = next(end, last);
    }
}

/// The first value of the range that no item offers.
fn unoffered_in(
    items: &[(i64, u32)],
    near: Near,
    range: (i64, i64),
    index: &IntSet,
    boxes: &[IntSet],
) -> Option<Number>
    requires items { All (λ t. t.1 < length boxes.now) items.now }
    requires near { IsNear items.now index.now near }
    requires order { range.0 ≤ℤ range.1 }
    ensures none { IfNone result ((v : ℤ) → in_range range v ≡ true → some_offers items.now v
        index.now boxes.now ≡ true) }
    ensures some { IfSome result (λ v. some_offers items.now v.value index.now boxes.now ≡ false) }
    ensures within { IfSome result (λ v. in_range range v.value ≡ true) }
{
    unoffered_between(items, near, start_of(range), end_of(range), index, boxes)
}

/// The first value of the set that no item offers.
fn unoffered_of(
    items: &[(i64, u32)],
    near: Near,
    set: &IntSet,
    index: &IntSet,
    boxes: &[IntSet],
) -> Option<Number>
    requires items { All (λ t. t.1 < length boxes.now) items.now }
    requires near { IsNear items.now index.now near }
    ensures none { IfNone result ((v : ℤ) → has set.now v ≡ true → some_offers items.now v index.now
        boxes.now ≡ true) }
    ensures some { IfSome result (λ v. some_offers items.now v.value index.now boxes.now ≡ false) }
    ensures within { IfSome result (λ v. has set.now v.value ≡ true) }
{
    for r in set.ranges() {
        let found = unoffered_in(items, near, *r, index, boxes);
        if found.is_some() {
            return found;
        }
    }
    None
}

/// The least or the greatest value of the set, which isn't empty, where no item offers it.
fn unoffered_end(
    items: &[(i64, u32)],
    near: Near,
    set: &IntSet,
    index: &IntSet,
    boxes: &[IntSet],
) -> Option<Number>
    requires items { All (λ t. t.1 < length boxes.now) items.now }
    requires near { IsNear items.now index.now near }
    requires some { is_nil set.now ≡ false }
    ensures low { IfNone result (some_offers items.now (low_of set.now) index.now boxes.now
        ≡ true) }
    ensures high { IfNone result (some_offers items.now (high_of set.now) index.now boxes.now
        ≡ true) }
    ensures some { IfSome result (λ v. some_offers items.now v.value index.now boxes.now ≡ false) }
    ensures within { IfSome result (λ v. has set.now v.value ≡ true) }
{
    let (low, high) = set_ends(set);
    if reach(items, near, low, index, boxes).is_none() {
        return Some(low);
    }
    if reach(items, near, high, index, boxes).is_none() {
        return Some(high);
    }
    None
}

/// The first value of out, of those that are probed, that no item offers.
pub fn unoffered(
    items: &[(i64, u32)],
    near: Near,
    out: &IntSet,
    index: &IntSet,
    boxes: &[IntSet],
) -> Option<Number>
    requires items { All (λ t. t.1 < length boxes.now) items.now }
    requires near { IsNear items.now index.now near }
    requires some { is_nil out.now ≡ false }
    requires sets { All (λ s. IsValid s) boxes.now }
    ensures none { IfNone result (all_offered (probed out.now) items.now index.now boxes.now
        ≡ true) }
    ensures some { IfSome result (λ v. some_offers items.now v.value index.now boxes.now ≡ false) }
    ensures within { IfSome result (λ v. has out.now v.value ≡ true) }
{
    out.ranges();
    if is_covered(items, near, out, index, boxes) {
        return None;
    }
    if out.at_most(64) {
        unoffered_of(items, near, out, index, boxes)
    } else {
        unoffered_end(items, near, out, index, boxes)
    }
}
