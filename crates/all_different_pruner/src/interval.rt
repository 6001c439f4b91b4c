//! Boxes and intervals: how a box lies to an interval, and what is found of variables that differ.
ghost use Rattle.std.specs.Prelude.{◌≡◌, ◌<◌, ◌≤◌, ◌≤ℤ◌, ◌+ℤ◌, ℕ, [], ◌∷◌, false, pos, IfSome, IfNone, length};
ghost use Rattle.std.specs.List.{All};
ghost use Rattle.signed_clause.specs.Ranges.{IsValid};
ghost use Rattle.signed_clause.specs.Clauses.{box_of};
ghost use Rattle.ground_form.specs.Bounds.{low_of, high_of};
ghost use Rattle.box_rules.specs.Refuted.{lies_in, width, count_in};
ghost use Rattle.all_different_pruner.specs.Intervals.{is_narrow, begins_sweep, is_outside, AreOutside, IsIntruder};
ghost use Rattle.all_different_pruner.specs.Counters.{is_upto, begins_in};

use box_view::ends_in_order;
use ground_form::{Number, ends_of};
use signed_clause::IntSet;
use std::alloc::Global;

/// What is found of variables that differ.
#[derive(Clone, Copy)]
pub enum Finding {
    /// More boxes lie within the interval than it has numbers.
    Crowded(Number, Number),
    /// As many boxes lie within the interval as it has numbers, and that of the variable, which
    /// doesn't, has some of them.
    Full(Number, Number, u32),
}

/// Whether the box has fewer than `n` numbers between its ends.
fn is_narrow(set: &IntSet, n: usize) -> bool
    ensures { result ≡ is_narrow n set.now }
{
    let ends = ends_in_order(set);
    1 < n && ends.1.abs_diff(ends.0) < n as u64 - 1
}

/// Whether the box has more than one number, and fewer than `n` between its ends.
pub fn begins_sweep(set: &IntSet, n: usize) -> bool
    ensures { result ≡ begins_sweep n set.now }
{
    let ends = ends_in_order(set);
    ends.0 < ends.1 && is_narrow(set, n)
}

/// How far the box ends from `a`, where it begins no earlier and that is below `n`.
pub fn end_from(set: &IntSet, a: Number, n: usize) -> Option<usize>
    ensures below { IfSome result (λ d. d < n) }
    ensures slot { (e : ℕ) → e < n → lies_in a.value (a.value +ℤ pos e) set.now ≡ is_upto result e }
{
    let ends = ends_in_order(set);
    if ends.0 < a.value {
        return None;
    }
    let d = ends.1.abs_diff(a.value);
    if d < n as u64 { Some(d as usize) } else { None }
}

/// How far the box begins from `a`, where it begins no earlier and that is below `n`.
pub fn start_from(set: &IntSet, a: Number, n: usize) -> Option<usize>
    ensures below { IfSome result (λ d. d < n) }
    ensures slot { (e : ℕ) → e < n → begins_in a.value (a.value +ℤ pos e) set.now
        ≡ is_upto result e }
{
    let ends = ends_in_order(set);
    if ends.0 < a.value {
        return None;
    }
    let d = ends.0.abs_diff(a.value);
    if d < n as u64 { Some(d as usize) } else { None }
}

/// Whether the box lies within `a..b`.
pub fn does_lie_in(set: &IntSet, a: Number, b: Number) -> bool
    ensures { result ≡ lies_in a.value b.value set.now }
{
    let ends = ends_of(set);
    a.value <= ends.0 && ends.1 <= b.value
}

/// Whether the box of `x` lies within `a..b` or has no number of it.
fn is_outside(boxes: &[IntSet], x: u32, a: Number, b: Number, span: &IntSet) -> bool
    requires named { x < length boxes.now }
    requires span { span.now ≡ (a.value, b.value) ∷ [] }
    ensures { result ≡ is_outside a.value b.value (box_of boxes.now x) }
{
    does_lie_in(&boxes[x as usize], a, b) || boxes[x as usize].disjoint(span)
}

/// The numbers of `a..b`. It takes no memory.
pub fn span_of(alloc: Global, a: Number, b: Number) -> IntSet
    requires { a.value ≤ℤ b.value }
    ensures list { result ≡ (a.value, b.value) ∷ [] }
    ensures valid { IsValid ((a.value, b.value) ∷ []) }
{
    IntSet::range(alloc, a.value, b.value)
}

/// A variable whose box has numbers of `a..b` and others, where there is one.
pub fn intruder(alloc: Global, vars: &[u32], boxes: &[IntSet], a: Number, b: Number) -> Option<u32>
    requires named { All (λ x. x < length boxes.now) vars.now }
    requires order { a.value ≤ℤ b.value }
    requires full { width a.value b.value ≤ count_in a.value b.value vars.now boxes.now }
    ensures some { IfSome result (λ x. IsIntruder a.value b.value x vars.now boxes.now) }
    ensures none { IfNone result (AreOutside a.value b.value vars.now boxes.now) }
{
    let span = span_of(alloc, a, b);
    for x in vars {
        if !is_outside(boxes, *x, a, b, &span) {
            return Some(*x);
        }
    }
    None
}
