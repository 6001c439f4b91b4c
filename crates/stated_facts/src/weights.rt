//! Whether a sum's numbers are small.
ghost use Rattle.std.specs.Prelude.{◌≡◌, ◌<◌, ◌≤◌, ◌+◌, ◌^◌, ◌*◌, true, length, pos, ℕ, IfSome};
ghost use Rattle.std.specs.List.{All};
ghost use Rattle.signed_clause.specs.Clauses.{box_of};
ghost use Rattle.ground_form.specs.Bounds.{low_of, high_of, reach_of, term_weight, weight_of, most_sum};
ghost use Rattle.form_build.specs.Sums.{linear_weight, AreTerms, IsLinear};

use crate::equals::are_terms;
use form_build::{Linear, Maker};
use ground_form::ends_of;
use signed_clause::IntSet;

/// The greatest absolute value in a variable's box.
fn reach(boxes: &[IntSet], x: u32) -> u64
    requires { x < length boxes.now }
    ensures { result ≡ reach_of (box_of boxes.now x) }
{
    let ends = ends_of(&boxes[x as usize]);
    ends.0.unsigned_abs().max(ends.1.unsigned_abs())
}

/// Whether a variable's box has no greater absolute value than this.
pub fn is_near(boxes: &[IntSet], x: u32, most: u64) -> bool
    requires { x < length boxes.now }
    ensures { result ≡ true → reach_of (box_of boxes.now x) ≤ most }
{
    reach(boxes, x) <= most
}

/// The greatest absolute value of a term over the boxes.
#[tactic(auto, unfolding(ground_form::specs::Bounds::term_weight))]
fn term_weight(boxes: &[IntSet], t: (i64, u32)) -> u64
    requires exists { t.1 < length boxes.now }
    requires fits { term_weight t boxes.now ≤ most_sum }
    ensures { result ≡ term_weight t boxes.now }
{
    t.0.unsigned_abs() * reach(boxes, t.1)
}

/// Those of the terms, added up.
pub fn weight(boxes: &[IntSet], terms: &[(i64, u32)]) -> u64
    requires exist { All (λ t. t.1 < length boxes.now) terms.now }
    requires fits { weight_of terms.now boxes.now ≤ most_sum }
    ensures { result ≡ weight_of terms.now boxes.now }
{
    let mut sum = 0;
    for t in terms {
        sum += term_weight(boxes, *t);
    }
    sum
}

/// Whether a sum's numbers add up to at most so much.
pub fn weighs_within(boxes: &[IntSet], f: &Linear, most: u64) -> bool
    requires { IsLinear most_sum boxes.now f.now }
    ensures { result ≡ true → IsLinear most boxes.now f.now }
{
    weight(boxes, f.terms.items()) + f.offset.unsigned_abs() <= most
}

/// Whether the numbers of a sum are small enough for a row.
pub fn is_light(maker: &Maker, f: &Linear) -> bool
    requires { IsLinear most_sum maker.now.domains f.now }
    ensures { result ≡ true → IsLinear (2 ^ 39) maker.now.domains f.now }
{
    weighs_within(maker.domains(), f, 1 << 39)
}

/// Whether the numbers of a sum are small enough for what is 0.
pub fn is_small(maker: &Maker, f: &Linear) -> bool
    requires { IsLinear most_sum maker.now.domains f.now }
    ensures { result ≡ true → IsLinear (2 ^ 20) maker.now.domains f.now }
{
    weighs_within(maker.domains(), f, 1 << 20)
}

// ---- any terms

/// The greatest absolute value of a term over the boxes, where that fits.
#[tactic(auto, unfolding(ground_form::specs::Bounds::term_weight))]
fn term_weight_of(boxes: &[IntSet], t: (i64, u32)) -> Option<u64>
    requires exists { t.1 < length boxes.now }
    ensures { IfSome result (λ n. n ≡ term_weight t boxes.now) }
{
    t.0.unsigned_abs().checked_mul(reach(boxes, t.1))
}

/// Those of the terms, added up, where that fits.
fn weight_of(boxes: &[IntSet], terms: &[(i64, u32)]) -> Option<u64>
    requires exist { All (λ t. t.1 < length boxes.now) terms.now }
    ensures { IfSome result (λ n. n ≡ weight_of terms.now boxes.now) }
{
    let mut sum = 0u64;
    for t in terms {
        sum = sum.checked_add(term_weight_of(boxes, *t)?)?;
    }
    Some(sum)
}

/// Whether the terms are in good order, and their numbers small.
fn are_small(boxes: &[IntSet], terms: &[(i64, u32)]) -> bool
    ensures terms { result ≡ true → AreTerms boxes.now 0 terms.now }
    ensures light { result ≡ true → weight_of terms.now boxes.now ≤ 2 ^ 19 }
{
    if !are_terms(boxes, terms) {
        return false;
    }
    match weight_of(boxes, terms) {
        Some(n) => n <= 1 << 19,
        None => false,
    }
}

/// The sum of these terms, where they are in good order, and their numbers small.
pub fn light_sum(maker: &Maker, terms: Vec<(i64, u32)>) -> Option<Linear>
    ensures { IfSome result (λ f. IsLinear (2 ^ 19) maker.now.domains f) }
{
    if are_small(maker.domains(), terms.as_slice()) {
        Some(Linear::of(terms, 0))
    } else {
        None
    }
}
