//! Values that a variable has alone, which every other one loses.
//!
//! Most of what is found is that, so it is looked for before any sweep: one walk over the variables
//! for each that has one value, the last ones first, which were most often the last to get it. An
//! interval that begins with such a value tells no more than the one behind it, so no sweep begins
//! there.
ghost use Rattle.std.specs.Prelude.{◌≡◌, ◌<◌, ◌==◌, ◌&&◌, ℕ, not, true, false, int_lt, IfSome, IfNone, length};
ghost use Rattle.std.specs.List.{All};
ghost use Rattle.signed_clause.specs.Clauses.{box_of};
ghost use Rattle.signed_clause.specs.Ranges.{IsValid, has, is_nil};
ghost use Rattle.ground_form.specs.Bounds.{low_of, high_of};
ghost use Rattle.box_rules.specs.Refuted.{lies_in};
ghost use Rattle.rule_law.specs.Reasons.{has_number, no_repeat};
ghost use Rattle.all_different_pruner.specs.Intervals.{IsFinding, IsAlone, AreAlone, IsRival, HaveNoRival};

use crate::interval::{Finding, does_lie_in};
use box_view::ends_in_order;
use ground_form::Number;
use signed_clause::IntSet;

/// The value that `x` has alone, where it has one.
fn value_of(boxes: &[IntSet], x: u32) -> Option<Number>
    requires { x < length boxes.now }
    ensures lies { IfSome result (λ a. lies_in a.value a.value (box_of boxes.now x) ≡ true) }
    ensures low { IfSome result (λ a. a.value ≡ low_of (box_of boxes.now x)) }
    ensures none { IfNone result (int_lt (low_of (box_of boxes.now x)) (high_of (box_of boxes.now x))
        ≡ true) }
{
    let ends = ends_in_order(&boxes[x as usize]);
    if ends.0 < ends.1 {
        None
    } else {
        Some(Number { value: ends.0 })
    }
}

/// Whether `y` is another variable than `x`, and can have the value.
fn is_rival(boxes: &[IntSet], x: u32, y: u32, a: Number) -> bool
    requires { y < length boxes.now }
    ensures { result ≡ (not (y == x) && has (box_of boxes.now y) a.value) }
{
    y != x && boxes[y as usize].contains(a.value)
}

/// Another variable than `x` that can have the value, where there is one.
fn rival_of(vars: &[u32], boxes: &[IntSet], x: u32, a: Number) -> Option<u32>
    requires named { All (λ x. x < length boxes.now) vars.now }
    ensures some { IfSome result (λ y. IsRival x a.value y vars.now boxes.now) }
    ensures named { IfSome result (λ y. y < length boxes.now) }
    ensures none { IfNone result (HaveNoRival x a.value vars.now boxes.now) }
{
    for y in vars {
        if is_rival(boxes, x, *y, a) {
            return Some(*y);
        }
    }
    None
}

/// What is found of two variables that can have the value, one of which can have no other.
fn clash_at(vars: &[u32], boxes: &[IntSet], x: u32, y: u32, a: Number) -> Finding
    requires sets { All (λ s. IsValid s) boxes.now }
    requires there { has_number x vars.now ≡ true }
    requires lies { lies_in a.value a.value (box_of boxes.now x) ≡ true }
    requires rival { IsRival x a.value y vars.now boxes.now }
    requires var { y < length boxes.now }
    ensures { IsFinding result vars.now boxes.now }
{
    if does_lie_in(&boxes[y as usize], a, a) {
        Finding::Crowded(a, a)
    } else {
        Finding::Full(a, a, y)
    }
}

/// What is found of the value that `x` has alone.
#[tactic(auto, using(crate::proofs::SingleLaws::alone_of))]
fn clash_of(vars: &[u32], boxes: &[IntSet], x: u32, a: Number) -> Option<Finding>
    requires named { All (λ x. x < length boxes.now) vars.now }
    requires sets { All (λ s. IsValid s) boxes.now }
    requires some { (x : ℕ) → x < length boxes.now → is_nil (box_of boxes.now x) ≡ false }
    requires once { no_repeat vars.now ≡ true }
    requires there { has_number x vars.now ≡ true }
    requires var { x < length boxes.now }
    requires lies { lies_in a.value a.value (box_of boxes.now x) ≡ true }
    ensures some { IfSome result (λ f. IsFinding f vars.now boxes.now) }
    ensures none { IfNone result (IsAlone a.value vars.now boxes.now) }
{
    match rival_of(vars, boxes, x, a) {
        Some(y) => Some(clash_at(vars, boxes, x, y, a)),
        None => None,
    }
}

/// What is found of `x`, where it has one value.
fn found_at(vars: &[u32], boxes: &[IntSet], x: u32) -> Option<Finding>
    requires named { All (λ x. x < length boxes.now) vars.now }
    requires sets { All (λ s. IsValid s) boxes.now }
    requires some { (x : ℕ) → x < length boxes.now → is_nil (box_of boxes.now x) ≡ false }
    requires once { no_repeat vars.now ≡ true }
    requires there { has_number x vars.now ≡ true }
    requires var { x < length boxes.now }
    ensures some { IfSome result (λ f. IsFinding f vars.now boxes.now) }
    ensures none { IfNone result (int_lt (low_of (box_of boxes.now x)) (high_of (box_of boxes.now x))
        ≡ false → IsAlone (low_of (box_of boxes.now x)) vars.now boxes.now) }
{
    match value_of(boxes, x) {
        Some(a) => clash_of(vars, boxes, x, a),
        None => None,
    }
}

/// What is found of values that a variable has alone.
pub fn find_single(vars: &[u32], boxes: &[IntSet]) -> Option<Finding>
    requires named { All (λ x. x < length boxes.now) vars.now }
    requires sets { All (λ s. IsValid s) boxes.now }
    requires some { (x : ℕ) → x < length boxes.now → is_nil (box_of boxes.now x) ≡ false }
    requires once { no_repeat vars.now ≡ true }
    ensures some { IfSome result (λ f. IsFinding f vars.now boxes.now) }
    ensures none { IfNone result (AreAlone vars.now vars.now boxes.now) }
{
    let mut k = vars.len();
    while 0 < k {
        k -= 1;
        let found = found_at(vars, boxes, vars[k]);
        if found.is_some() {
            return found;
        }
    }
    None
}
