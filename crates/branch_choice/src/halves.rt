//! What orders ask of one box: whether it is a single value, how many values it has, and the split
//! at a value.
ghost use Rattle.std.specs.Prelude.{◌≡◌, ◌<◌, ◌∷◌, [], Some, None, false, true, length, IfSome, IfNone};
ghost use Rattle.signed_clause.specs.Ranges.{has, is_nil, count_of, IsValid, IsLeast};
ghost use Rattle.signed_clause.specs.Clauses.{box_of};
ghost use Rattle.signed_clause.specs.SetAlgebra.{is_disjoint, is_within};
ghost use Rattle.branch_choice.specs.Picks.{half_of, hint_of, hint_in, is_single};
ghost use Rattle.branch_choice.specs.Walks.{IsSplitOf, IsLeastSplitOf, IsHintSplitOf};

use crate::split::Split;
use signed_clause::IntSet;

/// The box of `x`.
fn box_at(boxes: &[IntSet], x: u32) -> &IntSet
    requires { x < length boxes.now }
    ensures { result.now ≡ box_of boxes.now x }
{
    &boxes[x as usize]
}

/// Whether the set is a single value.
fn is_single(set: &IntSet) -> bool
    ensures { result ≡ is_single set.now }
{
    set.is_single()
}

/// How many values the set has.
#[tactic(auto, using(crate::proofs::SetSplits::count_most))]
fn count(set: &IntSet) -> u128
    ensures { result ≡ count_of set.now }
{
    set.ranges();
    match set.count() {
        Some(n) => n as u128,
        None => 1 << 64,
    }
}

/// Whether the box of `x` is a single value.
pub fn is_decided(boxes: &[IntSet], x: u32) -> bool
    requires { x < length boxes.now }
    ensures { result ≡ is_single (box_of boxes.now x) }
{
    is_single(box_at(boxes, x))
}

/// How many values the box of `x` has.
pub fn count_at(boxes: &[IntSet], x: u32) -> u128
    requires { x < length boxes.now }
    ensures { result ≡ count_of (box_of boxes.now x) }
{
    count(box_at(boxes, x))
}

/// The split of `var` at one of several values of its box.
#[tactic(auto, using(crate::proofs::SetSplits::value_taken, crate::proofs::SetSplits::value_left))]
fn split_at(set: &IntSet, var: u32, value: i64) -> Split
    requires member { has set.now value ≡ true }
    requires several { is_single set.now ≡ false }
    ensures var { result.var ≡ var }
    ensures value { result.value ≡ value }
    ensures alone { result.upto ≡ false }
    ensures taken { is_disjoint (half_of result) set.now ≡ false }
    ensures left { is_within set.now (half_of result) ≡ false }
{
    set.ranges();
    Split {
        var,
        value,
        upto: false,
    }
}

/// The split of `x` at the least value of its box.
pub fn least_split(boxes: &[IntSet], x: u32) -> Split
    requires there { x < length boxes.now }
    requires some { is_nil (box_of boxes.now x) ≡ false }
    requires several { is_single (box_of boxes.now x) ≡ false }
    ensures { IsLeastSplitOf boxes.now x result }
{
    let set = box_at(boxes, x);
    match set.least() {
        Some(value) => split_at(set, x, value),
        None => unreachable!(),
    }
}

/// The hint of `x`.
fn hint_at(hints: &[Option<i64>], x: u32) -> Option<i64>
    requires { x < length hints.now }
    ensures { result ≡ hint_of hints.now x }
{
    hints[x as usize]
}

/// The split of `x` at its hint, where that is in its box.
pub fn hint_split(boxes: &[IntSet], hints: &[Option<i64>], x: u32) -> Option<Split>
    requires boxed { x < length boxes.now }
    requires hinted { x < length hints.now }
    requires several { is_single (box_of boxes.now x) ≡ false }
    ensures some { IfSome result (λ s. IsHintSplitOf boxes.now hints.now x s) }
    ensures none { IfNone result (hint_in (hint_of hints.now x) (box_of boxes.now x) ≡ false) }
{
    let set = box_at(boxes, x);
    match hint_at(hints, x) {
        Some(value) if set.contains(value) => Some(split_at(set, x, value)),
        _ => None,
    }
}
