//! Comparisons of numbers, as tests of the difference of two sums. Nothing is made for them.
ghost use Rattle.std.specs.Prelude.{◌≡◌, ◌^◌, ◌+ℤ◌, ◌-ℤ◌, true, ℤ, pos, List, int_le, int_lt, length, IfOk};
ghost use Rattle.ground_form.specs.Bounds.{most_sum};
ghost use Rattle.conf_eval.specs.Meaning.{int_same, operate, truth_of};
ghost use Rattle.form_build.specs.Forms.{linear_at, truth_at, HasVariable};
ghost use Rattle.form_build.specs.Sums.{IsLinear};
ghost use Rattle.form_build.specs.Worlds.{IsWorld, Defines, IsFew};
ghost use Rattle.ground_build.specs.Growing.{HasRoom};
ghost use Rattle.form_truths.specs.Tests.{wanted, test_at, IsTest};
ghost use Rattle.expr_forms.specs.FormValues.{form_value, number_part};
ghost use Rattle.operator_forms.specs.Operating.{is_comparison, compares_numbers, compared_numbers};

use crate::kinds::{no_number, number_in};
use conf_syntax::Op;
use expr_forms::Form;
use form_build::{Linear, Maker, Truth};
use form_truths::{Test, truth_of_test};
use std::alloc::AllocError;

/// A sum less another.
fn difference(maker: &Maker, f: &Linear, g: &Linear) -> Result<Linear, AllocError>
    requires left { IsLinear (2 ^ 58) maker.now.domains f.now }
    requires right { IsLinear (2 ^ 58) maker.now.domains g.now }
    ensures value { IfOk result (λ r. (a : List ℤ)
        → linear_at r a ≡ linear_at f.now a -ℤ linear_at g.now a) }
    ensures linear { IfOk result (λ r. IsLinear (2 ^ 59) maker.now.domains r) }
{
    let _search = maker.search();
    let less = g.times(maker.alloc(), -1)?;
    let r = f.plus(maker.alloc(), &less)?;
    Ok(r)
}

/// A sum and 1.
fn and_one(maker: &Maker, f: &Linear) -> Result<Linear, AllocError>
    requires { IsLinear (2 ^ 59) maker.now.domains f.now }
    ensures value { IfOk result (λ r. (a : List ℤ) → linear_at r a ≡ linear_at f.now a +ℤ pos 1) }
    ensures linear { IfOk result (λ r. IsLinear most_sum maker.now.domains r) }
{
    let _search = maker.search();
    let one = Linear::number(maker.alloc(), 1);
    let r = f.plus(maker.alloc(), &one)?;
    Ok(r)
}

/// Whether the first sum is at most the second.
fn is_at_most(maker: &Maker, f: &Linear, g: &Linear) -> Result<Test, AllocError>
    requires left { IsLinear (2 ^ 58) maker.now.domains f.now }
    requires right { IsLinear (2 ^ 58) maker.now.domains g.now }
    ensures test { IfOk result (λ t. IsTest maker.now.domains t) }
    ensures value { IfOk result (λ t. (a : List ℤ)
        → test_at t a ≡ int_le (linear_at f.now a) (linear_at g.now a)) }
{
    let less = difference(maker, f, g)?;
    Ok(Test::AtMost(less))
}

/// Whether the first sum is less than the second.
fn is_less(maker: &Maker, f: &Linear, g: &Linear) -> Result<Test, AllocError>
    requires left { IsLinear (2 ^ 58) maker.now.domains f.now }
    requires right { IsLinear (2 ^ 58) maker.now.domains g.now }
    ensures test { IfOk result (λ t. IsTest maker.now.domains t) }
    ensures value { IfOk result (λ t. (a : List ℤ)
        → test_at t a ≡ int_lt (linear_at f.now a) (linear_at g.now a)) }
{
    let less = difference(maker, f, g)?;
    let more = and_one(maker, &less)?;
    Ok(Test::AtMost(more))
}

/// Whether it is so that the sums are the same number, or that they aren't.
fn are_same(maker: &Maker, f: &Linear, g: &Linear, want: bool) -> Result<Test, AllocError>
    requires left { IsLinear (2 ^ 58) maker.now.domains f.now }
    requires right { IsLinear (2 ^ 58) maker.now.domains g.now }
    ensures test { IfOk result (λ t. IsTest maker.now.domains t) }
    ensures value { IfOk result (λ t. (a : List ℤ)
        → test_at t a ≡ wanted want (int_same (linear_at f.now a) (linear_at g.now a))) }
{
    let less = difference(maker, f, g)?;
    Ok(Test::Zero(less, want))
}

/// The comparison of two sums.
fn test_numbers(maker: &Maker, op: Op, f: &Linear, g: &Linear) -> Result<Test, AllocError>
    requires comparison { is_comparison op ≡ true }
    requires left { IsLinear (2 ^ 58) maker.now.domains f.now }
    requires right { IsLinear (2 ^ 58) maker.now.domains g.now }
    ensures test { IfOk result (λ t. IsTest maker.now.domains t) }
    ensures value { IfOk result (λ t. (a : List ℤ) → test_at t a
        ≡ compared_numbers op (linear_at f.now a) (linear_at g.now a)) }
{
    match op {
        Op::Lt => is_less(maker, f, g),
        Op::Le => is_at_most(maker, f, g),
        Op::Gt => is_less(maker, g, f),
        Op::Ge => is_at_most(maker, g, f),
        Op::Eq => are_same(maker, f, g, true),
        Op::Ne => are_same(maker, f, g, false),
        _ => unreachable!(),
    }
}

/// The comparison of two numbers, before it is stated, pushed into a disjunction, or made a truth.
pub fn test_of(maker: &Maker, op: Op, l: &Form, r: &Form) -> Result<Test, AllocError>
    requires compares { compares_numbers op l.now r.now ≡ true }
    requires left { IsLinear (2 ^ 58) maker.now.domains (number_part l.now) }
    requires right { IsLinear (2 ^ 58) maker.now.domains (number_part r.now) }
    ensures test { IfOk result (λ t. IsTest maker.now.domains t) }
    ensures value { IfOk result (λ t. (a : List ℤ) → test_at t a
        ≡ truth_of (operate op (form_value l.now a) (form_value r.now a))) }
{
    let none = no_number(maker.alloc());
    let test = test_numbers(maker, op, number_in(l, &none), number_in(r, &none))?;
    Ok(test)
}

/// The comparison of two numbers as a truth.
pub(crate) fn compared(maker: &mut Maker, op: Op, l: &Form, r: &Form) -> Result<Truth, AllocError>
    requires room { HasRoom maker.old }
    requires compares { compares_numbers op l.now r.now ≡ true }
    requires left { IsLinear (2 ^ 58) maker.old.domains (number_part l.now) }
    requires right { IsLinear (2 ^ 58) maker.old.domains (number_part r.now) }
    ensures variable { IfOk result (λ t. HasVariable (length maker.new.domains) t) }
    ensures value { IfOk result (λ t. (a : List ℤ) → IsWorld maker.new a → truth_at t a
        ≡ truth_of (operate op (form_value l.now a) (form_value r.now a))) }
    ensures adds { IfOk result (λ t. Defines maker.old maker.new) }
    ensures few { IfOk result (λ t. IsFew 1 maker.old maker.new) }
{
    let test = test_of(maker, op, l, r)?;
    let t = truth_of_test(maker, &test)?;
    Ok(t)
}
