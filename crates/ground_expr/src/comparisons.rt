//! Comparisons of numbers that are stated. Nothing is made for them but a row.
ghost use Rattle.std.specs.Prelude.{◌≡◌, ◌^◌, true, [], ℤ, List, OnOk};
ghost use Rattle.conf_eval.specs.declared.value.Value.{Value as AValue};
ghost use Rattle.conf_eval.specs.Meaning.{operate, truth_of as truth_in};
ghost use Rattle.form_build.specs.Sums.{IsLinear};
ghost use Rattle.form_build.specs.Worlds.{Adds};
ghost use Rattle.form_truths.specs.Tests.{wanted};
ghost use Rattle.expr_forms.specs.declared.form.Form.{Form as AForm};
ghost use Rattle.expr_forms.specs.FormValues.{form_value, number_part};
ghost use Rattle.operator_forms.specs.Operating.{are_numbers, compares_numbers, is_comparison};
ghost use Rattle.ground_expr.specs.Stated.{AreOpposite};

use crate::long_sums::state_short;
use conf_syntax::Op;
use conf_types::{OpClass, class_of};
use expr_forms::Form;
use form_build::Maker;
use operator_forms::test_of;
use std::alloc::AllocError;

/// Whether both are numbers.
fn are_numbers(l: &Form, r: &Form) -> bool
    ensures { result ≡ are_numbers l.now r.now }
{
    match (l, r) {
        (Form::Number(_), Form::Number(_)) => true,
        _ => false,
    }
}

/// Whether the operator compares two numbers here.
pub(crate) fn compares_numbers(op: Op, l: &Form, r: &Form) -> bool
    ensures { result ≡ compares_numbers op l.now r.now }
{
    match class_of(op) {
        OpClass::Equality => are_numbers(l, r),
        OpClass::Order => true,
        OpClass::Logic | OpClass::Member | OpClass::Sum | OpClass::Product => false,
    }
}

/// The comparison that holds where this one doesn't.
fn opposite(op: Op) -> Op
    requires comparison { is_comparison op ≡ true }
    ensures opposite { AreOpposite op result }
    ensures compares { (l r : AForm) → compares_numbers result l r ≡ compares_numbers op l r }
{
    match op {
        Op::Eq => Op::Ne,
        Op::Ne => Op::Eq,
        Op::Lt => Op::Ge,
        Op::Le => Op::Gt,
        Op::Gt => Op::Le,
        Op::Ge => Op::Lt,
        _ => unreachable!(),
    }
}

/// The comparison that holds where this one is as wanted.
fn wanted_comparison(op: Op, want: bool) -> Op
    requires comparison { is_comparison op ≡ true }
    ensures holds { (v w : AValue) → truth_in (operate result v w)
        ≡ wanted want (truth_in (operate op v w)) }
    ensures compares { (l r : AForm) → compares_numbers result l r ≡ compares_numbers op l r }
{
    if want { op } else { opposite(op) }
}

/// States that a comparison of two numbers holds, or that it doesn't.
pub(crate) fn state_comparison(
    maker: &mut Maker,
    op: Op,
    l: &Form,
    r: &Form,
    want: bool,
) -> Result<(), AllocError>
    requires compares { compares_numbers op l.now r.now ≡ true }
    requires left { IsLinear (2 ^ 58) maker.old.domains (number_part l.now) }
    requires right { IsLinear (2 ^ 58) maker.old.domains (number_part r.now) }
    ensures says { OnOk result (Adds [] maker.old maker.new (λ a.
        wanted want (truth_in (operate op (form_value l.now a) (form_value r.now a))))) }
{
    let test = test_of(maker, wanted_comparison(op, want), l, r)?;
    state_short(maker, &test)?;
    Ok(())
}
