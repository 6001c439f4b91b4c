//! The sweep for crowded and full intervals, known as Hall intervals: from where each narrow box
//! begins, interval by interval, but for boxes of one number (`single_values`).
//!
//! Two rows of counters tell for all intervals from one beginning how many boxes begin and end in
//! them.
ghost use Rattle.std.specs.Prelude.{◌≡◌, ◌<◌, ◌≤◌, ◌≤ℤ◌, ◌+ℤ◌, ℕ, suc, pos, true, false, ◌⊎◌, ◌==◌, ◌&&◌, nat_lt, IfOk, IfSome, IfNone, length};
ghost use Rattle.std.specs.List.{All};
ghost use Rattle.signed_clause.specs.Ranges.{IsValid, is_nil};
ghost use Rattle.signed_clause.specs.Clauses.{box_of};
ghost use Rattle.ground_form.specs.Bounds.{low_of};
ghost use Rattle.box_rules.specs.Refuted.{count_in};
ghost use Rattle.rule_law.specs.Reasons.{no_repeat};
ghost use Rattle.all_different_pruner.specs.Intervals.{AreOutside, IsFinding, IsFixpointFrom, AreSwept, AreAtFixpoint, begins_sweep};
ghost use Rattle.all_different_pruner.specs.Counters.{total, count_begun, reaches};
ghost use Rattle.all_different_pruner.specs.Sweeps.{ReachesEnd, IsFixpointBehind, newest, IsKept};

use crate::counters::{count_ends, count_starts, with_slot};
use crate::interval::{Finding, begins_sweep, intruder};
use crate::single_values::find_single;
use box_view::ends_in_order;
use ground_form::Number;
use signed_clause::IntSet;
use std::alloc::{AllocError, Global};

/// How many intervals from `a` on are looked at: as many as there are variables, and none past the
/// greatest number of 64 bits.
fn lengths_from(a: Number, n: usize) -> usize
    ensures few { result ≤ n }
    ensures some { 0 < n → 0 < result }
    ensures all { ReachesEnd a.value result n }
    ensures within { (d : ℕ) → d < result → (a.value +ℤ pos d) ≤ℤ pos 9223372036854775807 }
{
    let left = i64::MAX.abs_diff(a.value);
    if left < n as u64 {
        left as usize + 1
    } else {
        n
    }
}

/// The number `d` behind `a`.
fn behind(a: Number, d: usize) -> Number
    requires { (a.value +ℤ pos d) ≤ℤ pos 9223372036854775807 }
    ensures { result.value ≡ a.value +ℤ pos d }
{
    Number {
        value: a.value.saturating_add_unsigned(d as u64),
    }
}

/// Whether the interval of `d + 1` numbers is full, and not all boxes that begin in it lie within.
fn may_intrude(d: usize, ended: usize, begun: usize) -> bool
    requires { d < 18446744073709551615 }
    ensures { result ≡ (ended == suc d && nat_lt ended begun) }
{
    ended == d + 1 && ended < begun
}

/// An interval by how far its end is behind its beginning, with the number of boxes that lie within
/// it and the number of those that begin in it.
#[derive(Clone, Copy)]
struct Tally {
    d: usize,
    ended: usize,
    begun: usize,
}

/// What is found at the interval from `a` of this tally: nothing where it isn't crowded and, where
/// it is full, keeps out each other box that begins at `a` or later.
fn judge(alloc: Global, vars: &[u32], boxes: &[IntSet], a: Number, tally: Tally) -> Option<Finding>
    requires named { All (λ x. x < length boxes.now) vars.now }
    requires sets { All (λ s. IsValid s) boxes.now }
    requires within { (a.value +ℤ pos tally.d) ≤ℤ pos 9223372036854775807 }
    requires size { tally.d < length vars.now }
    requires ended { tally.ended ≡ count_in a.value (a.value +ℤ pos tally.d) vars.now boxes.now }
    requires begun { tally.begun ≡ count_begun a.value (a.value +ℤ pos tally.d) vars.now boxes.now }
    ensures some { IfSome result (λ f. IsFinding f vars.now boxes.now) }
    ensures none { IfNone result (IsFixpointBehind a.value tally.d vars.now boxes.now) }
{
    let b = behind(a, tally.d);
    if tally.d + 1 < tally.ended {
        return Some(Finding::Crowded(a, b));
    }
    if may_intrude(tally.d, tally.ended, tally.begun) {
        return intruder(alloc, vars, boxes, a, b).map(|x| Finding::Full(a, b, x));
    }
    None
}

/// The greatest full interval so far, with the one from `a` to `d` behind it, within which `ended`
/// boxes lie.
fn with_full(full: Option<usize>, d: usize, ended: usize) -> Option<usize>
    requires { d < 18446744073709551615 }
    ensures { result ≡ newest full d ended }
{
    if ended == d + 1 { Some(d) } else { full }
}

/// What is found at the greatest full interval from `a` on.
fn judge_last(
    alloc: Global,
    vars: &[u32],
    boxes: &[IntSet],
    a: Number,
    full: Option<usize>,
) -> Option<Finding>
    requires named { All (λ x. x < length boxes.now) vars.now }
    requires within { IfSome full (λ d. (a.value +ℤ pos d) ≤ℤ pos 9223372036854775807) }
    requires full { IfSome full (λ d. suc d ≤ count_in a.value (a.value +ℤ pos d) vars.now
        boxes.now) }
    ensures some { IfSome result (λ f. IsFinding f vars.now boxes.now) }
    ensures none { IfNone result (IsKept a.value full vars.now boxes.now) }
{
    match full {
        Some(d) => {
            let b = behind(a, d);
            intruder(alloc, vars, boxes, a, b).map(|x| Finding::Full(a, b, x))
        }
        None => None,
    }
}

/// What is found from `a` on, of which the slots tell how many boxes begin and end where.
fn pass(
    alloc: Global,
    vars: &[u32],
    boxes: &[IntSet],
    a: Number,
    starts: &[usize],
    ends: &[usize],
) -> Option<Finding>
    requires named { All (λ x. x < length boxes.now) vars.now }
    requires sets { All (λ s. IsValid s) boxes.now }
    requires same { length starts.now ≡ length ends.now }
    requires few { length ends.now ≤ length vars.now }
    requires some { 0 < length vars.now → 0 < length ends.now }
    requires all { ReachesEnd a.value (length ends.now) (length vars.now) }
    requires within { (d : ℕ) → d < length ends.now → (a.value +ℤ pos d) ≤ℤ pos
        9223372036854775807 }
    requires starts { (e : ℕ) → e < length ends.now → total (suc e) starts.now
        ≡ count_begun a.value (a.value +ℤ pos e) vars.now boxes.now }
    requires ends { (e : ℕ) → e < length ends.now → total (suc e) ends.now
        ≡ count_in a.value (a.value +ℤ pos e) vars.now boxes.now }
    ensures some { IfSome result (λ f. IsFinding f vars.now boxes.now) }
    ensures none { IfNone result (IsFixpointFrom a.value vars.now boxes.now) }
{
    let mut begun = 0;
    let mut ended = 0;
    let mut full = None;
    let mut d = 0;
    while d < ends.len() {
        begun = with_slot(begun, starts, d);
        ended = with_slot(ended, ends, d);
        let found = judge(alloc, vars, boxes, a, Tally { d, ended, begun });
        if found.is_some() {
            return found;
        }
        full = with_full(full, d, ended);
        d += 1;
    }
    judge_last(alloc, vars, boxes, a, full)
}

/// Memory for one call, in which nothing is kept from one call to the next.
#[derive(Drop)]
pub struct Counters {
    /// How many boxes begin in each slot.
    pub starts: Vec<usize>,
    /// How many boxes end in each.
    pub ends: Vec<usize>,
}

/// What is found from `a` on.
fn look(
    alloc: Global,
    counters: &mut Counters,
    vars: &[u32],
    boxes: &[IntSet],
    a: Number,
) -> Result<Option<Finding>, AllocError>
    requires named { All (λ x. x < length boxes.now) vars.now }
    requires sets { All (λ s. IsValid s) boxes.now }
    ensures some { IfOk result (λ r. IfSome r (λ f. IsFinding f vars.now boxes.now)) }
    ensures none { IfOk result (λ r. IfNone r (IsFixpointFrom a.value vars.now boxes.now)) }
{
    let n = lengths_from(a, vars.len());
    count_starts(&mut counters.starts, n, vars, boxes, a)?;
    count_ends(&mut counters.ends, n, vars, boxes, a)?;
    let found = pass(
        alloc,
        vars,
        boxes,
        a,
        counters.starts.as_slice(),
        counters.ends.as_slice(),
    );
    Ok(found)
}

/// The least value of the box of `x`, where a sweep begins there for `n` variables.
fn sweep_start(boxes: &[IntSet], x: u32, n: usize) -> Option<Number>
    requires { x < length boxes.now }
    ensures some { IfSome result (λ a. a.value ≡ low_of (box_of boxes.now x)) }
    ensures none { IfNone result (begins_sweep n (box_of boxes.now x) ≡ false) }
{
    let set = &boxes[x as usize];
    if begins_sweep(set, n) {
        Some(Number {
            value: ends_in_order(set).0,
        })
    } else {
        None
    }
}

/// What is found from where the box of `x` begins, where a sweep begins there.
fn look_at(
    alloc: Global,
    counters: &mut Counters,
    vars: &[u32],
    boxes: &[IntSet],
    x: u32,
) -> Result<Option<Finding>, AllocError>
    requires named { All (λ x. x < length boxes.now) vars.now }
    requires sets { All (λ s. IsValid s) boxes.now }
    requires var { x < length boxes.now }
    ensures some { IfOk result (λ r. IfSome r (λ f. IsFinding f vars.now boxes.now)) }
    ensures none { IfOk result (λ r. IfNone r (begins_sweep (length vars.now) (box_of boxes.now x)
        ≡ true → IsFixpointFrom (low_of (box_of boxes.now x)) vars.now boxes.now)) }
{
    match sweep_start(boxes, x, vars.len()) {
        Some(a) => look(alloc, counters, vars, boxes, a),
        None => Ok(None),
    }
}

/// What is found by sweeps. It takes no memory where none begins.
fn sweep(
    alloc: Global,
    counters: &mut Counters,
    vars: &[u32],
    boxes: &[IntSet],
) -> Result<Option<Finding>, AllocError>
    requires named { All (λ x. x < length boxes.now) vars.now }
    requires sets { All (λ s. IsValid s) boxes.now }
    ensures some { IfOk result (λ r. IfSome r (λ f. IsFinding f vars.now boxes.now)) }
    ensures none { IfOk result (λ r. IfNone r (AreSwept vars.now vars.now boxes.now)) }
{
    for x in vars {
        let found = look_at(alloc, counters, vars, boxes, *x)?;
        if found.is_some() {
            return Ok(found);
        }
    }
    Ok(None)
}

/// What is found of the variables: nothing where they are at a fixpoint.
#[tactic(auto, using(crate::proofs::SweepLaws::at_fixpoint))]
pub fn find(
    alloc: Global,
    counters: &mut Counters,
    vars: &[u32],
    boxes: &[IntSet],
) -> Result<Option<Finding>, AllocError>
    requires named { All (λ x. x < length boxes.now) vars.now }
    requires sets { All (λ s. IsValid s) boxes.now }
    requires some { (x : ℕ) → x < length boxes.now → is_nil (box_of boxes.now x) ≡ false }
    requires once { no_repeat vars.now ≡ true }
    ensures some { IfOk result (λ r. IfSome r (λ f. IsFinding f vars.now boxes.now)) }
    ensures none { IfOk result (λ r. IfNone r (AreAtFixpoint vars.now vars.now boxes.now)) }
{
    let single = find_single(vars, boxes);
    if single.is_some() {
        return Ok(single);
    }
    sweep(alloc, counters, vars, boxes)
}
