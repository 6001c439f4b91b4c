//! Plus and minus over a problem in the making.
//!
//! Each answers a sum in good order, whose numbers fit and whose values lie within what the
//! operands' values give. Where numbers get too great one new variable stands for the sum.
ghost use Rattle.std.specs.Prelude.{◌≡◌, ◌≤◌, ◌^◌, ◌+ℤ◌, ◌-ℤ◌, ◌≤ℤ◌, ℤ, pos, neg_ℤ, List, IfOk};
ghost use Rattle.model_limits.specs.Limits.{most_width};
ghost use Rattle.ground_build.specs.Growing.{HasRoom};
ghost use Rattle.form_build.specs.Forms.{linear_at};
ghost use Rattle.form_build.specs.Worlds.{IsWorld, Defines, IsFew};
ghost use Rattle.form_build.specs.Sums.{least_linear, greatest_linear, IsLinear, IsSum};

use crate::form::Linear;
use crate::maker::Maker;
use crate::settle::fit;
use std::alloc::AllocError;

/// Two sums together.
pub fn plus(b: &mut Maker, f: &Linear, g: &Linear) -> Result<Linear, AllocError>
    requires room { HasRoom b.old }
    requires left { IsLinear (2 ^ 58) b.old.domains f.now }
    requires right { IsLinear (2 ^ 58) b.old.domains g.now }
    requires low { neg_ℤ (pos most_width)
        ≤ℤ (least_linear f.now b.old.domains +ℤ least_linear g.now b.old.domains) }
    requires high { (greatest_linear f.now b.old.domains +ℤ greatest_linear g.now b.old.domains)
        ≤ℤ pos most_width }
    ensures value { IfOk result (λ r. (a : List ℤ) → IsWorld b.new a
        → linear_at r a ≡ linear_at f.now a +ℤ linear_at g.now a) }
    ensures sum { IfOk result (λ r. IsSum b.new.domains
        (least_linear f.now b.old.domains +ℤ least_linear g.now b.old.domains)
        (greatest_linear f.now b.old.domains +ℤ greatest_linear g.now b.old.domains) r) }
    ensures adds { IfOk result (λ r. Defines b.old b.new) }
    ensures few { IfOk result (λ r. IsFew 1 b.old b.new) }
{
    let both = f.plus(b.alloc(), g)?;
    let r = fit(b, both)?;
    Ok(r)
}

/// A sum less another.
pub fn minus(b: &mut Maker, f: &Linear, g: &Linear) -> Result<Linear, AllocError>
    requires room { HasRoom b.old }
    requires left { IsLinear (2 ^ 58) b.old.domains f.now }
    requires right { IsLinear (2 ^ 58) b.old.domains g.now }
    requires low { neg_ℤ (pos most_width)
        ≤ℤ (least_linear f.now b.old.domains -ℤ greatest_linear g.now b.old.domains) }
    requires high { (greatest_linear f.now b.old.domains -ℤ least_linear g.now b.old.domains)
        ≤ℤ pos most_width }
    ensures value { IfOk result (λ r. (a : List ℤ) → IsWorld b.new a
        → linear_at r a ≡ linear_at f.now a -ℤ linear_at g.now a) }
    ensures sum { IfOk result (λ r. IsSum b.new.domains
        (least_linear f.now b.old.domains -ℤ greatest_linear g.now b.old.domains)
        (greatest_linear f.now b.old.domains -ℤ least_linear g.now b.old.domains) r) }
    ensures adds { IfOk result (λ r. Defines b.old b.new) }
    ensures few { IfOk result (λ r. IsFew 1 b.old b.new) }
{
    let less = g.times(b.alloc(), -1)?;
    let r = plus(b, f, &less)?;
    Ok(r)
}
