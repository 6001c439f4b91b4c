//! The part of a form that is of a kind, and nothing where the form is of another one.
ghost use Rattle.std.specs.Prelude.{◌≡◌};
ghost use Rattle.expr_forms.specs.FormValues.{number_part, truth_part};

use crate::form::Form;
use form_build::{Linear, Truth};
use std::alloc::Global;

/// The number that a form is; 0 of what is none.
pub fn number_of(alloc: Global, f: Form) -> Linear
    ensures number { result ≡ number_part f }
{
    match f {
        Form::Number(number) => number,
        Form::Truth(_) | Form::Choice(_, _) | Form::Object(_, _) | Form::List(_) => {
            Linear::of(Vec::new(alloc), 0)
        }
    }
}

/// The truth that a form is; false of what is none.
pub fn truth_of(f: Form) -> Truth
    ensures truth { result ≡ truth_part f }
{
    match f {
        Form::Truth(truth) => truth,
        Form::Number(_) | Form::Choice(_, _) | Form::Object(_, _) | Form::List(_) => {
            Truth::Fixed(false)
        }
    }
}
