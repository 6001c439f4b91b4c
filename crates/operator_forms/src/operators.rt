//! The form of an operator from the forms of its two sides.
ghost use Rattle.std.specs.Prelude.{◌≡◌, true, false, ℤ, List, length, IfOk};
ghost use Rattle.class_table.specs.Outline.{Outline};
ghost use Rattle.conf_limits.specs.declared.interval.Interval.{Interval};
ghost use Rattle.conf_eval.specs.Meaning.{operate as operated, truth_of};
ghost use Rattle.ground_build.specs.Growing.{HasRoom};
ghost use Rattle.form_build.specs.Forms.{linear_at, truth_at, HasVariable};
ghost use Rattle.form_build.specs.Worlds.{IsWorld, Defines, HasRoomFor};
ghost use Rattle.expr_forms.specs.FormValues.{form_value, number_part, truth_part};
ghost use Rattle.operator_forms.specs.Operating.{is_arithmetic, joins_truths, is_plain, number_between, LiesBetween, IsSide, AreOperands, IsOperated};

use crate::arithmetic::computed;
use crate::compare::compared;
use crate::kinds::{is_arithmetic, joins_truths, no_number, number_in, truth_in};
use crate::truths::joined;
use conf_syntax::Op;
use expr_forms::Form;
use form_build::{Linear, Maker, Truth};
use std::alloc::AllocError;

/// What an operator makes of two numbers.
fn of_numbers(maker: &mut Maker, op: Op, l: &Form, r: &Form) -> Result<Linear, AllocError>
    requires room { HasRoom maker.old }
    requires arithmetic { is_arithmetic op ≡ true }
    requires operands { AreOperands maker.old.domains op l.now r.now }
    ensures value { IfOk result (λ n. (a : List ℤ) → IsWorld maker.new a → linear_at n a
        ≡ number_between op (linear_at (number_part l.now) a) (linear_at (number_part r.now) a)) }
    ensures sum { IfOk result (λ n. LiesBetween maker.old.domains maker.new.domains op
        (number_part l.now) (number_part r.now) n) }
    ensures adds { IfOk result (λ n. Defines maker.old maker.new) }
{
    let none = no_number(maker.alloc());
    let n = computed(maker, op, number_in(l, &none), number_in(r, &none))?;
    Ok(n)
}

/// What an operator makes of two truths.
fn of_truths(maker: &mut Maker, op: Op, l: &Form, r: &Form) -> Result<Truth, AllocError>
    requires room { HasRoomFor 3 maker.old }
    requires joins { joins_truths op l.now r.now ≡ true }
    requires left { HasVariable (length maker.old.domains) (truth_part l.now) }
    requires right { HasVariable (length maker.old.domains) (truth_part r.now) }
    ensures variable { IfOk result (λ t. HasVariable (length maker.new.domains) t) }
    ensures value { IfOk result (λ t. (a : List ℤ) → IsWorld maker.new a → truth_at t a
        ≡ truth_of (operated op (form_value l.now a) (form_value r.now a))) }
    ensures adds { IfOk result (λ t. Defines maker.old maker.new) }
{
    let none = Truth::Fixed(false);
    let t = joined(maker, op, truth_in(l, &none), truth_in(r, &none))?;
    Ok(t)
}

/// The truth that an operator makes of its two sides.
fn truth_made(maker: &mut Maker, op: Op, l: &Form, r: &Form) -> Result<Truth, AllocError>
    requires room { HasRoomFor 3 maker.old }
    requires plain { is_plain op l.now r.now ≡ true }
    requires truth { is_arithmetic op ≡ false }
    requires operands { AreOperands maker.old.domains op l.now r.now }
    ensures variable { IfOk result (λ t. HasVariable (length maker.new.domains) t) }
    ensures value { IfOk result (λ t. (a : List ℤ) → IsWorld maker.new a → truth_at t a
        ≡ truth_of (operated op (form_value l.now a) (form_value r.now a))) }
    ensures adds { IfOk result (λ t. Defines maker.old maker.new) }
{
    if joins_truths(op, l, r) {
        let t = of_truths(maker, op, l, r)?;
        return Ok(t);
    }
    let t = compared(maker, op, l, r)?;
    Ok(t)
}

/// The form that an operator makes of the forms of its two sides. Only definitions are made, at
/// most three.
pub fn operate(maker: &mut Maker, op: Op, l: &Form, r: &Form) -> Result<Form, AllocError>
    requires plain { is_plain op l.now r.now ≡ true }
    requires operands { AreOperands maker.old.domains op l.now r.now }
    ensures operated { IfOk result (λ f. (o : Outline) (i j : Interval)
        → IsSide maker.old.domains i l.now → IsSide maker.old.domains j r.now
        → IsOperated o maker.new op i j l.now r.now f) }
    ensures adds { IfOk result (λ f. Defines maker.old maker.new) }
{
    maker.ask(3)?;
    if is_arithmetic(op) {
        let n = of_numbers(maker, op, l, r)?;
        return Ok(Form::Number(n));
    }
    let t = truth_made(maker, op, l, r)?;
    Ok(Form::Truth(t))
}
