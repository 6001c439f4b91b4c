//! The form of a quantifier that looks at each member on its own.
ghost use Rattle.std.specs.Prelude.{◌≡◌, ◌≤◌, ℕ, ℤ, List, true, false, not, length, IfOk};
ghost use Rattle.std.specs.List.{All, list_any};
ghost use Rattle.conf_eval.specs.declared.value.Value.TheVariants.{Int};
ghost use Rattle.conf_limits.specs.declared.interval.Interval.{Interval};
ghost use Rattle.conf_limits.specs.Measures.{quantifier_interval};
ghost use Rattle.form_build.specs.Forms.{linear_at, truth_at, HasVariable};
ghost use Rattle.form_build.specs.Sums.{IsSum};
ghost use Rattle.form_build.specs.Worlds.{IsWorld, Defines};
ghost use Rattle.quantifier_forms.specs.PartValues.{kept_values, over_values, is_case};
ghost use Rattle.quantifier_forms.specs.Quantified.{HasTruths, IsPart, AreParts, IsQuantified, adds_up, compares_members};

use crate::cases::some_case;
use crate::part::Part;
use crate::shares::shares;
use crate::totals::total;
use conf_syntax::QuantKind;
use expr_forms::Form;
use form_build::{Linear, Maker, Truth, turned};
use std::alloc::AllocError;

/// Whether no part is kept of whose bodies one doesn't hold.
fn no_fault(maker: &mut Maker, parts: &[Part]) -> Result<Truth, AllocError>
    requires truths { All (HasTruths (length maker.old.domains)) parts.now }
    ensures variable { IfOk result (λ t. HasVariable (length maker.new.domains) t) }
    ensures value { IfOk result (λ t. (a : List ℤ) → IsWorld maker.new a
        → truth_at t a ≡ not (list_any (λ p. is_case false p a) parts.now)) }
    ensures adds { IfOk result (λ t. Defines maker.old maker.new) }
{
    let fault = some_case(maker, false, parts)?;
    let t = turned(maker.alloc(), maker.domains(), &fault)?;
    Ok(t)
}

/// What a sum or a count comes to over what these parts give.
fn sum_of(maker: &mut Maker, kind: QuantKind, parts: &[Part]) -> Result<Linear, AllocError>
    requires kind { adds_up kind ≡ true }
    requires parts { AreParts maker.old.domains kind parts.now }
    ensures value { IfOk result (λ r. (a : List ℤ) → IsWorld maker.new a
        → over_values kind (kept_values parts.now a) ≡ Int (linear_at r a)) }
    ensures sum { IfOk result (λ r. (first second : Interval) (n : ℕ)
        → All (IsPart maker.old.domains first) parts.now → length parts.now ≤ n
        → IsSum maker.new.domains (quantifier_interval kind n first second).low
        (quantifier_interval kind n first second).high r) }
    ensures adds { IfOk result (λ r. Defines maker.old maker.new) }
{
    let sums = shares(maker, kind, parts)?;
    let r = total(maker, sums.as_slice())?;
    Ok(r)
}

/// The form of a quantifier over what these parts give, each of which counts on its own. One that
/// compares its members with one another has none here.
pub fn quantified_form(
    maker: &mut Maker,
    kind: QuantKind,
    parts: &[Part],
) -> Result<Form, AllocError>
    requires kind { compares_members kind ≡ false }
    requires parts { AreParts maker.old.domains kind parts.now }
    ensures form { IfOk result (λ f. IsQuantified maker.old maker.new kind parts.now f) }
    ensures adds { IfOk result (λ f. Defines maker.old maker.new) }
{
    match kind {
        QuantKind::Forall => {
            let t = no_fault(maker, parts)?;
            Ok(Form::Truth(t))
        }
        QuantKind::Exists => {
            let t = some_case(maker, true, parts)?;
            Ok(Form::Truth(t))
        }
        QuantKind::Sum | QuantKind::Count => {
            let sum = sum_of(maker, kind, parts)?;
            Ok(Form::Number(sum))
        }
        QuantKind::AllDifferent | QuantKind::Pack => unreachable!(),
    }
}
