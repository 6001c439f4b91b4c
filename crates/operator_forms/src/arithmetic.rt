//! Plus, minus and times of two numbers, of which one is fixed where they are multiplied.
ghost use Rattle.std.specs.Prelude.{◌≡◌, ◌≢◌, [], ◌*ℤ◌, true, false, ℤ, List, IfOk};
ghost use Rattle.conf_syntax.specs.declared.tree.Op.TheVariants as op;
ghost use Rattle.ground_build.specs.Growing.{HasRoom};
ghost use Rattle.form_build.specs.Forms.{linear_at};
ghost use Rattle.form_build.specs.Worlds.{IsWorld, Defines, IsFew};
ghost use Rattle.operator_forms.specs.Operating.{is_arithmetic, number_between, AreNumbers, LiesBetween};

use crate::product::times;
use conf_syntax::Op;
use form_build::{Linear, Maker, minus, plus};
use std::alloc::AllocError;

/// Whether the sum names no variable.
fn is_fixed(f: &Linear) -> bool
    ensures fixed { result ≡ true → f.now.terms ≡ [] }
    ensures open_sum { result ≡ false → f.now.terms ≢ [] }
{
    f.terms.items().is_empty()
}

/// The sum's offset: all of it, where it names no variable.
fn offset_of(f: &Linear) -> i64
    ensures { result ≡ f.now.offset }
{
    f.offset
}

/// Two sums multiplied, of which one names no variable.
fn product(maker: &mut Maker, f: &Linear, g: &Linear) -> Result<Linear, AllocError>
    requires room { HasRoom maker.old }
    requires numbers { AreNumbers maker.old.domains op.Mul f.now g.now }
    ensures value { IfOk result (λ r. (a : List ℤ) → IsWorld maker.new a
        → linear_at r a ≡ linear_at f.now a *ℤ linear_at g.now a) }
    ensures sum { IfOk result (λ r.
        LiesBetween maker.old.domains maker.new.domains op.Mul f.now g.now r) }
    ensures adds { IfOk result (λ r. Defines maker.old maker.new) }
    ensures few { IfOk result (λ r. IsFew 1 maker.old maker.new) }
{
    if is_fixed(f) {
        let r = times(maker, offset_of(f), g)?;
        return Ok(r);
    }
    let r = times(maker, offset_of(g), f)?;
    Ok(r)
}

/// What an operator makes of two numbers.
pub(crate) fn computed(
    maker: &mut Maker,
    op: Op,
    f: &Linear,
    g: &Linear,
) -> Result<Linear, AllocError>
    requires room { HasRoom maker.old }
    requires arithmetic { is_arithmetic op ≡ true }
    requires numbers { AreNumbers maker.old.domains op f.now g.now }
    ensures value { IfOk result (λ r. (a : List ℤ) → IsWorld maker.new a
        → linear_at r a ≡ number_between op (linear_at f.now a) (linear_at g.now a)) }
    ensures sum { IfOk result (λ r.
        LiesBetween maker.old.domains maker.new.domains op f.now g.now r) }
    ensures adds { IfOk result (λ r. Defines maker.old maker.new) }
    ensures few { IfOk result (λ r. IsFew 1 maker.old maker.new) }
{
    match op {
        Op::Add => {
            let r = plus(maker, f, g)?;
            Ok(r)
        }
        Op::Sub => {
            let r = minus(maker, f, g)?;
            Ok(r)
        }
        Op::Mul => {
            let r = product(maker, f, g)?;
            Ok(r)
        }
        _ => unreachable!(),
    }
}
