//! The bodies of a possible member, and what each of them is.
ghost use Rattle.std.specs.Prelude.{◌≡◌, IfOk};
ghost use Rattle.form_build.specs.Worlds.{Defines};
ghost use Rattle.expr_forms.specs.FormValues.{nought, number_part};
ghost use Rattle.pairwise_forms.specs.AlikeParts.{first_form, second_number, third_number};
ghost use Rattle.pairwise_forms.specs.KeyValues.{HasKey, IsKeyOf};

use crate::keys::key_of;
use expr_forms::Form;
use form_build::{Linear, Maker, Truth};
use std::alloc::{AllocError, Global};

/// A variable that tells the first body's value from others'.
pub(crate) fn first_key(maker: &mut Maker, bodies: &[Form]) -> Result<u32, AllocError>
    requires form { HasKey maker.old.domains (first_form bodies.now) }
    ensures key { IfOk result (λ x. IsKeyOf maker.new (first_form bodies.now) x) }
    ensures adds { IfOk result (λ x. Defines maker.old maker.new) }
{
    match bodies {
        [] => {
            let x = key_of(maker, &Form::Truth(Truth::Fixed(false)))?;
            Ok(x)
        }
        [first, ..] => {
            let x = key_of(maker, first)?;
            Ok(x)
        }
    }
}

/// The number 0.
fn no_number(alloc: Global) -> Linear
    ensures { result ≡ nought }
{
    Linear::of(Vec::new(alloc), 0)
}

/// The number that the form is; 0 of what is none.
fn number_in(alloc: Global, f: &Form) -> Result<Linear, AllocError>
    ensures { IfOk result (λ r. r ≡ number_part f.now) }
{
    match f {
        Form::Number(number) => Ok(Linear {
            terms: number.terms.copy()?,
            offset: number.offset,
        }),
        Form::Truth(_) | Form::Choice(_, _) | Form::Object(_, _) | Form::List(_) => {
            Ok(no_number(alloc))
        }
    }
}

/// The number that the second body is.
pub(crate) fn second_of(alloc: Global, bodies: &[Form]) -> Result<Linear, AllocError>
    ensures { IfOk result (λ r. r ≡ second_number bodies.now) }
{
    match bodies {
        [] => Ok(no_number(alloc)),
        [_] => Ok(no_number(alloc)),
        [_, second, ..] => {
            let r = number_in(alloc, second)?;
            Ok(r)
        }
    }
}

/// The number that the third body is.
pub(crate) fn third_of(alloc: Global, bodies: &[Form]) -> Result<Linear, AllocError>
    ensures { IfOk result (λ r. r ≡ third_number bodies.now) }
{
    match bodies {
        [] => Ok(no_number(alloc)),
        [_] => Ok(no_number(alloc)),
        [_, _] => Ok(no_number(alloc)),
        [_, _, third, ..] => {
            let r = number_in(alloc, third)?;
            Ok(r)
        }
    }
}
