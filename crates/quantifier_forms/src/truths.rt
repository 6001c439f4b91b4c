//! Disjunctions of truths that are lent, as truths.
ghost use Rattle.std.specs.Prelude.{◌≡◌, ◌||◌, not, List, ℤ, length, IfOk, OnOk};
ghost use Rattle.form_build.specs.Forms.{truth_at, HasVariable};
ghost use Rattle.form_build.specs.Worlds.{IsWorld, Defines};
ghost use Rattle.form_truths.specs.Disjunctions.{disjunction_at, IsWithin};
ghost use Rattle.expr_forms.specs.FormValues.{truth_part};

use expr_forms::Form;
use form_build::{Maker, Truth, turned};
use form_truths::{Disjunction, copy_truth, truth_in_blocks};
use std::alloc::AllocError;

/// The truth that a form is; false of what is none.
pub(crate) fn truth_in(f: &Form) -> Result<Truth, AllocError>
    ensures { IfOk result (λ t. t ≡ truth_part f.now) }
{
    match f {
        Form::Truth(truth) => {
            let t = copy_truth(truth)?;
            Ok(t)
        }
        Form::Number(_) | Form::Choice(_, _) | Form::Object(_, _) | Form::List(_) => {
            Ok(Truth::Fixed(false))
        }
    }
}

/// Adds the truth that holds where this one doesn't.
pub fn push_turned(maker: &Maker, d: &mut Disjunction, t: &Truth) -> Result<(), AllocError>
    requires variable { HasVariable (length maker.now.domains) t.now }
    requires exist { IsWithin (length maker.now.domains) d.old.1 }
    ensures value { OnOk result ((a : List ℤ) → IsWorld maker.now a
        → disjunction_at d.new a ≡ (not (truth_at t.now a) || disjunction_at d.old a)) }
    ensures exist { OnOk result (IsWithin (length maker.now.domains) d.new.1) }
{
    let u = turned(maker.alloc(), maker.domains(), t)?;
    d.push(u)?;
    Ok(())
}

/// The truth that holds where the disjunction doesn't.
pub fn none_from(maker: &mut Maker, d: &Disjunction) -> Result<Truth, AllocError>
    requires exist { IsWithin (length maker.old.domains) d.now.1 }
    ensures variable { IfOk result (λ t. HasVariable (length maker.new.domains) t) }
    ensures value { IfOk result (λ t. (a : List ℤ) → IsWorld maker.new a
        → truth_at t a ≡ not (disjunction_at d.now a)) }
    ensures adds { IfOk result (λ t. Defines maker.old maker.new) }
{
    let t = truth_in_blocks(maker, d)?;
    let u = turned(maker.alloc(), maker.domains(), &t)?;
    Ok(u)
}
