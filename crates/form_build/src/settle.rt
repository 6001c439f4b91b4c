//! Sums over a problem in the making: a variable as a sum, a sum as a variable, and sums whose
//! numbers fit.
//!
//! Numbers that get too great are cut short by a new variable, which stands for the whole sum.
ghost use Rattle.std.specs.Prelude.{◌≡◌, ◌<◌, ◌≤◌, ◌+◌, ◌^◌, ◌*◌, ◌+ℤ◌, ◌*ℤ◌, ◌≤ℤ◌, ◌<ℤ◌, nat_le, ℕ, ℤ, pos, neg_ℤ, List, length, unsigned_abs, IfOk, IfSome};
ghost use Rattle.std.specs.List.{All};
ghost use Rattle.model_limits.specs.Limits.{most_width};
ghost use Rattle.signed_clause.specs.Clauses.{Boxes, box_of};
ghost use Rattle.ground_form.specs.Meaning.{value_of};
ghost use Rattle.ground_form.specs.Bounds.{low_of, high_of, reach_of, term_weight, weight_of, LiesWithin, most_sum};
ghost use Rattle.ground_build.specs.Growing.{HasRoom};
ghost use Rattle.form_build.specs.Forms.{linear_at};
ghost use Rattle.form_build.specs.Worlds.{IsInBoxes, IsWorld, Defines, IsFew};
ghost use Rattle.form_build.specs.Sums.{linear_weight, least_linear, greatest_linear, IsLinear, LiesFrom, IsSum, IsVariable};

use crate::form::Linear;
use crate::maker::Maker;
use ground_form::ends_of;
use signed_clause::IntSet;
use std::alloc::{AllocError, Global};

/// The ends of a variable's box.
pub(crate) fn ends_at(boxes: &[IntSet], x: u32) -> (i64, i64)
    requires { x < length boxes.now }
    ensures { result ≡ (low_of (box_of boxes.now x), high_of (box_of boxes.now x)) }
{
    ends_of(&boxes[x as usize])
}

/// A variable on its own.
fn alone(alloc: Global, x: u32) -> Result<Linear, AllocError>
    ensures { IfOk result (λ r. IsVariable x r) }
{
    let mut terms = Vec::new(alloc);
    terms.push((1, x))?;
    Ok(Linear::of(terms, 0))
}

/// A variable as a sum: a number where its box has one value.
pub fn variable(b: &Maker, x: u32) -> Result<Linear, AllocError>
    requires exists { x < length b.now.domains }
    ensures value { IfOk result (λ r. (a : List ℤ)
        → IsInBoxes b.now.domains a → linear_at r a ≡ value_of a x) }
    ensures linear { IfOk result (λ r.
        IsLinear (reach_of (box_of b.now.domains x)) b.now.domains r) }
    ensures lies { IfOk result (λ r. LiesFrom (low_of (box_of b.now.domains x))
        (high_of (box_of b.now.domains x)) b.now.domains r) }
{
    let ends = ends_at(b.domains(), x);
    if ends.0 < ends.1 {
        let r = alone(b.alloc(), x)?;
        Ok(r)
    } else {
        Ok(Linear::number(b.alloc(), ends.0))
    }
}

/// The greatest absolute value of a term over the boxes.
#[tactic(auto, unfolding(ground_form::specs::Bounds::term_weight))]
fn term_weight(boxes: &[IntSet], t: (i64, u32)) -> u64
    requires exists { t.1 < length boxes.now }
    requires fits { term_weight t boxes.now ≤ most_sum }
    ensures { result ≡ term_weight t boxes.now }
{
    let ends = ends_at(boxes, t.1);
    t.0.unsigned_abs() * ends.0.unsigned_abs().max(ends.1.unsigned_abs())
}

/// Those of the terms, added up.
fn weight(boxes: &[IntSet], terms: &[(i64, u32)]) -> u64
    requires exist { All (λ t. t.1 < length boxes.now) terms.now }
    requires fits { weight_of terms.now boxes.now ≤ most_sum }
    ensures { result ≡ weight_of terms.now boxes.now }
{
    let mut sum = 0;
    for t in terms {
        sum += term_weight(boxes, *t);
    }
    sum
}

/// Whether the sum's numbers are small enough to take part in others.
fn is_light(boxes: &[IntSet], f: &Linear) -> bool
    requires { IsLinear most_sum boxes.now f.now }
    ensures { result ≡ nat_le (linear_weight f.now boxes.now) (2 ^ 58) }
{
    weight(boxes, f.terms.items()) + f.offset.unsigned_abs() <= 1 << 58
}

/// The same sum with numbers that fit: itself, or a new variable that it is.
pub fn fit(b: &mut Maker, f: Linear) -> Result<Linear, AllocError>
    requires room { HasRoom b.old }
    requires linear { IsLinear most_sum b.old.domains f }
    requires narrow { LiesFrom (neg_ℤ (pos most_width)) (pos most_width) b.old.domains f }
    ensures value { IfOk result (λ r. (a : List ℤ)
        → IsWorld b.new a → linear_at r a ≡ linear_at f a) }
    ensures sum { IfOk result (λ r. IsSum b.new.domains (least_linear f b.old.domains)
        (greatest_linear f b.old.domains) r) }
    ensures adds { IfOk result (λ r. Defines b.old b.new) }
    ensures few { IfOk result (λ r. IsFew 1 b.old b.new) }
{
    if is_light(b.domains(), &f) {
        return Ok(f);
    }
    let x = b.linear(&f)?;
    let r = alone(b.alloc(), x)?;
    Ok(r)
}

/// The variable that a sum is, where it is one and nothing else.
fn only_variable(f: &Linear) -> Option<u32>
    ensures { IfSome result (λ x. IsVariable x f.now) }
{
    match f.terms.items() {
        [t] => {
            if t.0 == 1 && f.offset == 0 {
                Some(t.1)
            } else {
                None
            }
        }
        _ => None,
    }
}

/// A variable that is the sum: its own, where it is one, or a new one.
pub fn settled(b: &mut Maker, f: &Linear) -> Result<u32, AllocError>
    requires room { HasRoom b.old }
    requires linear { IsLinear most_sum b.old.domains f.now }
    ensures exists { IfOk result (λ x. x < length b.new.domains) }
    ensures value { IfOk result (λ x. (a : List ℤ)
        → IsWorld b.new a → value_of a x ≡ linear_at f.now a) }
    ensures lies { IfOk result (λ x. LiesWithin (least_linear f.now b.old.domains)
        (greatest_linear f.now b.old.domains) (box_of b.new.domains x)) }
    ensures adds { IfOk result (λ x. Defines b.old b.new) }
    ensures few { IfOk result (λ x. IsFew 1 b.old b.new) }
{
    let _domains = b.domains();
    if let Some(x) = only_variable(f) {
        return Ok(x);
    }
    let x = b.linear(f)?;
    Ok(x)
}
