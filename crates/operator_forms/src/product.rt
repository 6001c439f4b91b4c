//! A number times a sum.
//!
//! Where the number would make the sum's numbers too great, one variable stands for the sum first.
ghost use Rattle.std.specs.Prelude.{◌≡◌, ◌<◌, ◌≤◌, ◌+◌, ◌^◌, ◌*◌, ◌*ℤ◌, ◌≤ℤ◌, ℤ, true, List, length, unsigned_abs, IfOk};
ghost use Rattle.std.specs.List.{All};
ghost use Rattle.std.specs.Int.{int_max, int_min};
ghost use Rattle.signed_clause.specs.Clauses.{box_of};
ghost use Rattle.ground_form.specs.Bounds.{low_of, high_of, term_weight, weight_of, most_sum};
ghost use Rattle.ground_build.specs.Growing.{HasRoom};
ghost use Rattle.form_build.specs.Forms.{linear_at};
ghost use Rattle.form_build.specs.Worlds.{IsWorld, Defines, IsFew};
ghost use Rattle.form_build.specs.Sums.{linear_weight, least_linear, greatest_linear, IsLinear};
ghost use Rattle.operator_forms.specs.Products.{AreNearProducts};

use form_build::{Linear, Maker, settled, variable};
use ground_form::ends_of;
use signed_clause::IntSet;
use std::alloc::AllocError;

/// The ends of a variable's box.
fn ends_at(boxes: &[IntSet], x: u32) -> (i64, i64)
    requires { x < length boxes.now }
    ensures { result ≡ (low_of (box_of boxes.now x), high_of (box_of boxes.now x)) }
{
    ends_of(&boxes[x as usize])
}

/// The greatest absolute value of a term over the boxes.
#[tactic(auto, unfolding(ground_form::specs::Bounds::term_weight))]
fn term_weight(boxes: &[IntSet], t: (i64, u32)) -> u64
    requires exists { t.1 < length boxes.now }
    requires fits { term_weight t boxes.now ≤ most_sum }
    ensures { result ≡ term_weight t boxes.now }
{
    let ends = ends_at(boxes, t.1);
    t.0.unsigned_abs() * ends.0.unsigned_abs().max(ends.1.unsigned_abs())
}

/// Those of the terms, added up.
fn weight(boxes: &[IntSet], terms: &[(i64, u32)]) -> u64
    requires exist { All (λ t. t.1 < length boxes.now) terms.now }
    requires fits { weight_of terms.now boxes.now ≤ most_sum }
    ensures { result ≡ weight_of terms.now boxes.now }
{
    let mut sum = 0;
    for t in terms {
        sum += term_weight(boxes, *t);
    }
    sum
}

/// The greatest absolute value of a sum over the boxes.
fn linear_weight(boxes: &[IntSet], f: &Linear) -> u64
    requires { IsLinear most_sum boxes.now f.now }
    ensures { result ≡ linear_weight f.now boxes.now }
{
    weight(boxes, f.terms.items()) + f.offset.unsigned_abs()
}

/// Whether the number times the sum has numbers that are small enough to take part in others.
fn is_light(boxes: &[IntSet], c: i64, f: &Linear) -> bool
    requires { IsLinear most_sum boxes.now f.now }
    ensures { result ≡ true → unsigned_abs c * linear_weight f.now boxes.now ≤ 2 ^ 58 }
{
    match c.unsigned_abs().checked_mul(linear_weight(boxes, f)) {
        Some(n) => n <= 1 << 58,
        None => false,
    }
}

/// A number times a sum that stays light.
fn times_light(maker: &Maker, c: i64, f: &Linear) -> Result<Linear, AllocError>
    requires linear { IsLinear (2 ^ 58) maker.now.domains f.now }
    requires light { unsigned_abs c * linear_weight f.now maker.now.domains ≤ 2 ^ 58 }
    ensures value { IfOk result (λ r. (a : List ℤ) → linear_at r a ≡ c *ℤ linear_at f.now a) }
    ensures linear { IfOk result (λ r. IsLinear (2 ^ 58) maker.now.domains r) }
    ensures low { IfOk result (λ r. int_min (c *ℤ least_linear f.now maker.now.domains)
        (c *ℤ greatest_linear f.now maker.now.domains) ≤ℤ least_linear r maker.now.domains) }
    ensures high { IfOk result (λ r. greatest_linear r maker.now.domains
        ≤ℤ int_max (c *ℤ least_linear f.now maker.now.domains)
        (c *ℤ greatest_linear f.now maker.now.domains)) }
{
    let _search = maker.search();
    let r = f.times(maker.alloc(), c)?;
    Ok(r)
}

/// A number times a variable that is a sum.
fn times_settled(maker: &mut Maker, c: i64, f: &Linear) -> Result<Linear, AllocError>
    requires room { HasRoom maker.old }
    requires linear { IsLinear (2 ^ 58) maker.old.domains f.now }
    requires near { AreNearProducts c maker.old.domains f.now }
    ensures value { IfOk result (λ r. (a : List ℤ) → IsWorld maker.new a
        → linear_at r a ≡ c *ℤ linear_at f.now a) }
    ensures linear { IfOk result (λ r. IsLinear (2 ^ 58) maker.new.domains r) }
    ensures low { IfOk result (λ r. int_min (c *ℤ least_linear f.now maker.old.domains)
        (c *ℤ greatest_linear f.now maker.old.domains) ≤ℤ least_linear r maker.new.domains) }
    ensures high { IfOk result (λ r. greatest_linear r maker.new.domains
        ≤ℤ int_max (c *ℤ least_linear f.now maker.old.domains)
        (c *ℤ greatest_linear f.now maker.old.domains)) }
    ensures adds { IfOk result (λ r. Defines maker.old maker.new) }
    ensures few { IfOk result (λ r. IsFew 1 maker.old maker.new) }
{
    let x = settled(maker, f)?;
    let _domains = maker.domains();
    let one = variable(maker, x)?;
    let r = one.times(maker.alloc(), c)?;
    Ok(r)
}

/// A number times a sum.
pub(crate) fn times(maker: &mut Maker, c: i64, f: &Linear) -> Result<Linear, AllocError>
    requires room { HasRoom maker.old }
    requires linear { IsLinear (2 ^ 58) maker.old.domains f.now }
    requires near { AreNearProducts c maker.old.domains f.now }
    ensures value { IfOk result (λ r. (a : List ℤ) → IsWorld maker.new a
        → linear_at r a ≡ c *ℤ linear_at f.now a) }
    ensures linear { IfOk result (λ r. IsLinear (2 ^ 58) maker.new.domains r) }
    ensures low { IfOk result (λ r. int_min (c *ℤ least_linear f.now maker.old.domains)
        (c *ℤ greatest_linear f.now maker.old.domains) ≤ℤ least_linear r maker.new.domains) }
    ensures high { IfOk result (λ r. greatest_linear r maker.new.domains
        ≤ℤ int_max (c *ℤ least_linear f.now maker.old.domains)
        (c *ℤ greatest_linear f.now maker.old.domains)) }
    ensures adds { IfOk result (λ r. Defines maker.old maker.new) }
    ensures few { IfOk result (λ r. IsFew 1 maker.old maker.new) }
{
    if is_light(maker.domains(), c, f) {
        let r = times_light(maker, c, f)?;
        return Ok(r);
    }
    let r = times_settled(maker, c, f)?;
    Ok(r)
}
