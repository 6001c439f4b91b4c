//! The form of a quantifier that compares its members with one another.
ghost use Rattle.std.specs.Prelude.{◌≡◌, List, ℤ, true, length, IfOk};
ghost use Rattle.std.specs.List.{All};
ghost use Rattle.conf_eval.specs.declared.value.Value.TheVariants.{Truth as TruthValue};
ghost use Rattle.form_build.specs.Forms.{truth_at, HasVariable};
ghost use Rattle.form_build.specs.Worlds.{IsWorld, Defines};
ghost use Rattle.quantifier_forms.specs.PartValues.{kept_values, over_values};
ghost use Rattle.quantifier_forms.specs.Quantified.{AreParts, IsQuantified, compares_members};
ghost use Rattle.pairwise_forms.specs.AlikeParts.{AreAlike, AreSizes};
ghost use Rattle.pairwise_forms.specs.Clashing.{HasKeyPart};
ghost use Rattle.pairwise_forms.specs.Packing.{HasItemPart};

use crate::clashes::{keyed, no_clash};
use crate::loads::{none_overfull, packed};
use conf_syntax::QuantKind;
use expr_forms::Form;
use form_build::{Maker, Truth};
use quantifier_forms::Part;
use std::alloc::AllocError;

/// Whether the values of all members that are kept differ.
fn all_differ(maker: &mut Maker, parts: &[Part]) -> Result<Truth, AllocError>
    requires parts { All (HasKeyPart maker.old.domains) parts.now }
    requires alike { AreAlike maker.old.domains parts.now }
    ensures variable { IfOk result (λ t. HasVariable (length maker.new.domains) t) }
    ensures value { IfOk result (λ t. (a : List ℤ) → IsWorld maker.new a → TruthValue (truth_at t a)
        ≡ over_values QuantKind.AllDifferent (kept_values parts.now a)) }
    ensures adds { IfOk result (λ t. Defines maker.old maker.new) }
{
    let members = keyed(maker, parts)?;
    let t = no_clash(maker, &members)?;
    Ok(t)
}

/// Whether all items that are kept fit.
fn all_fit(maker: &mut Maker, parts: &[Part]) -> Result<Truth, AllocError>
    requires parts { All (HasItemPart maker.old.domains) parts.now }
    requires alike { AreAlike maker.old.domains parts.now }
    requires sizes { AreSizes maker.old.domains parts.now }
    ensures variable { IfOk result (λ t. HasVariable (length maker.new.domains) t) }
    ensures value { IfOk result (λ t. (a : List ℤ) → IsWorld maker.new a → TruthValue (truth_at t a)
        ≡ over_values QuantKind.Pack (kept_values parts.now a)) }
    ensures adds { IfOk result (λ t. Defines maker.old maker.new) }
{
    let items = packed(maker, parts)?;
    let t = none_overfull(maker, &items)?;
    Ok(t)
}

/// The form of a quantifier over what these parts give, which compares its members with one
/// another: whether their values differ, or whether they fit.
pub fn pairwise_form(maker: &mut Maker, kind: QuantKind, parts: &[Part]) -> Result<Form, AllocError>
    requires kind { compares_members kind ≡ true }
    requires parts { AreParts maker.old.domains kind parts.now }
    requires alike { AreAlike maker.old.domains parts.now }
    requires sizes { kind ≡ QuantKind.Pack → AreSizes maker.old.domains parts.now }
    ensures form { IfOk result (λ f. IsQuantified maker.old maker.new kind parts.now f) }
    ensures adds { IfOk result (λ f. Defines maker.old maker.new) }
{
    match kind {
        QuantKind::AllDifferent => {
            let t = all_differ(maker, parts)?;
            Ok(Form::Truth(t))
        }
        QuantKind::Pack => {
            let t = all_fit(maker, parts)?;
            Ok(Form::Truth(t))
        }
        QuantKind::Forall | QuantKind::Exists | QuantKind::Sum | QuantKind::Count => unreachable!(),
    }
}
