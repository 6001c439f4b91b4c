//! Quantifiers of any kind, of their parts.
ghost use Rattle.std.specs.Prelude.{◌≡◌, true, IfOk};
ghost use Rattle.conf_syntax.specs.declared.tree.QuantKind.TheVariants as kinds;
ghost use Rattle.form_build.specs.Worlds.{Defines};
ghost use Rattle.quantifier_forms.specs.Quantified.{AreParts, IsQuantified, compares_members};
ghost use Rattle.pairwise_forms.specs.AlikeParts.{AreAlike, AreSizes};

use conf_syntax::QuantKind;
use expr_forms::Form;
use form_build::Maker;
use pairwise_forms::pairwise_form;
use quantifier_forms::{Part, quantified_form};
use std::alloc::AllocError;

/// The form of a quantifier.
pub(crate) fn quantified(
    maker: &mut Maker,
    kind: QuantKind,
    parts: &[Part],
) -> Result<Form, AllocError>
    requires parts { AreParts maker.old.domains kind parts.now }
    requires alike { compares_members kind ≡ true → AreAlike maker.old.domains parts.now }
    requires sizes { kind ≡ kinds.Pack → AreSizes maker.old.domains parts.now }
    ensures form { IfOk result (λ f. IsQuantified maker.old maker.new kind parts.now f) }
    ensures adds { IfOk result (λ f. Defines maker.old maker.new) }
{
    match kind {
        QuantKind::AllDifferent | QuantKind::Pack => {
            let f = pairwise_form(maker, kind, parts)?;
            Ok(f)
        }
        QuantKind::Forall | QuantKind::Exists | QuantKind::Sum | QuantKind::Count => {
            let f = quantified_form(maker, kind, parts)?;
            Ok(f)
        }
    }
}
