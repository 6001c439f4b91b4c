//! Kinds of operators and of forms, and the parts of forms.
ghost use Rattle.std.specs.Prelude.{◌≡◌, false};
ghost use Rattle.form_build.specs.declared.form.Truth.TheVariants as truth;
ghost use Rattle.expr_forms.specs.FormValues.{nought, number_part, truth_part};
ghost use Rattle.operator_forms.specs.Operating.{are_truths, is_arithmetic, joins_truths};

use conf_syntax::Op;
use conf_types::{OpClass, class_of};
use expr_forms::Form;
use form_build::{Linear, Truth};
use std::alloc::Global;

/// Whether the operator makes a number of two numbers.
pub(crate) fn is_arithmetic(op: Op) -> bool
    ensures { result ≡ is_arithmetic op }
{
    match class_of(op) {
        OpClass::Sum | OpClass::Product => true,
        OpClass::Logic | OpClass::Equality | OpClass::Order | OpClass::Member => false,
    }
}

/// Whether both forms are truths.
fn are_truths(l: &Form, r: &Form) -> bool
    ensures { result ≡ are_truths l.now r.now }
{
    match (l, r) {
        (Form::Truth(_), Form::Truth(_)) => true,
        _ => false,
    }
}

/// Whether the operator joins two truths here, or asks whether they are the same.
pub(crate) fn joins_truths(op: Op, l: &Form, r: &Form) -> bool
    ensures { result ≡ joins_truths op l.now r.now }
{
    match class_of(op) {
        OpClass::Logic => true,
        OpClass::Equality => are_truths(l, r),
        OpClass::Order | OpClass::Member | OpClass::Sum | OpClass::Product => false,
    }
}

/// The sum of nothing. It takes no memory.
pub(crate) fn no_number(alloc: Global) -> Linear
    ensures { result ≡ nought }
{
    Linear::of(Vec::new(alloc), 0)
}

/// The number that a form is, and the other one where it is none.
pub(crate) fn number_in<'a>(f: &'a Form, none: &'a Linear) -> &'a Linear
    requires { none.now ≡ nought }
    ensures { result.now ≡ number_part f.now }
{
    match f {
        Form::Number(number) => number,
        Form::Truth(_) | Form::Choice(_, _) | Form::Object(_, _) | Form::List(_) => none,
    }
}

/// The truth that a form is, and the other one where it is none.
pub(crate) fn truth_in<'a>(f: &'a Form, none: &'a Truth) -> &'a Truth
    requires { none.now ≡ truth.Fixed false }
    ensures { result.now ≡ truth_part f.now }
{
    match f {
        Form::Truth(truth) => truth,
        Form::Number(_) | Form::Choice(_, _) | Form::Object(_, _) | Form::List(_) => none,
    }
}
