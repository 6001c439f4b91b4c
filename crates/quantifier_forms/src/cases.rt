//! Whether some part is kept whose bodies all hold, or of whose bodies one doesn't.
ghost use Rattle.std.specs.Prelude.{◌≡◌, ◌&&◌, ◌||◌, true, not, List, ℤ, length, IfOk, IfSome, OnOk};
ghost use Rattle.std.specs.List.{All, list_any};
ghost use Rattle.form_build.specs.Forms.{truth_at, HasVariable};
ghost use Rattle.form_build.specs.Worlds.{IsWorld, Defines};
ghost use Rattle.form_truths.specs.Disjunctions.{disjunction_at, IsWithin};
ghost use Rattle.conf_eval.specs.Meaning.{truth_of};
ghost use Rattle.expr_forms.specs.FormValues.{form_value, truth_part};
ghost use Rattle.quantifier_forms.specs.PartValues.{are_true, is_case};
ghost use Rattle.quantifier_forms.specs.Quantified.{HasTruths, IsOnlyBody};

use crate::part::Part;
use crate::truths::{none_from, push_turned, truth_in};
use expr_forms::Form;
use form_build::{Maker, Truth};
use form_truths::{Disjunction, truth_in_blocks};
use std::alloc::AllocError;

/// The one body of a part that is kept in any case, where it is such a part.
fn only_body(p: &Part) -> Option<&Form>
    ensures { IfSome result (λ f. IsOnlyBody f.now p.now) }
{
    match (&p.kept, p.bodies.as_slice()) {
        (Truth::Fixed(true), [body]) => Some(body),
        _ => None,
    }
}

/// Whether the part is kept, and all of its bodies hold.
pub(crate) fn holds_at(maker: &mut Maker, p: &Part) -> Result<Truth, AllocError>
    requires truths { HasTruths (length maker.old.domains) p.now }
    ensures variable { IfOk result (λ t. HasVariable (length maker.new.domains) t) }
    ensures value { IfOk result (λ t. (a : List ℤ) → IsWorld maker.new a
        → truth_at t a ≡ is_case true p.now a) }
    ensures adds { IfOk result (λ t. Defines maker.old maker.new) }
{
    if let Some(body) = only_body(p) {
        let t = truth_in(body)?;
        return Ok(t);
    }
    let mut faults = Disjunction::new(maker.alloc());
    push_turned(maker, &mut faults, &p.kept)?;
    push_failing(maker, &mut faults, &p.bodies)?;
    let t = none_from(maker, &faults)?;
    Ok(t)
}

/// Adds that some body doesn't hold.
fn push_failing(maker: &Maker, d: &mut Disjunction, bodies: &[Form]) -> Result<(), AllocError>
    requires bodies { All (λ f. HasVariable (length maker.now.domains) (truth_part f)) bodies.now }
    requires exist { IsWithin (length maker.now.domains) d.old.1 }
    ensures value { OnOk result ((a : List ℤ) → IsWorld maker.now a → disjunction_at d.new a
        ≡ (disjunction_at d.old a || not (are_true bodies.now a))) }
    ensures exist { OnOk result (IsWithin (length maker.now.domains) d.new.1) }
{
    for body in bodies {
        let t = truth_in(body)?;
        push_turned(maker, d, &t)?;
    }
    Ok(())
}

/// Whether the part is kept and the body doesn't hold.
fn fault_of(maker: &mut Maker, kept: &Truth, body: &Form) -> Result<Truth, AllocError>
    requires kept { HasVariable (length maker.old.domains) kept.now }
    requires body { HasVariable (length maker.old.domains) (truth_part body.now) }
    ensures variable { IfOk result (λ t. HasVariable (length maker.new.domains) t) }
    ensures value { IfOk result (λ t. (a : List ℤ) → IsWorld maker.new a → truth_at t a
        ≡ (truth_at kept.now a && not (truth_of (form_value body.now a)))) }
    ensures adds { IfOk result (λ t. Defines maker.old maker.new) }
{
    let mut spared = Disjunction::new(maker.alloc());
    push_turned(maker, &mut spared, kept)?;
    let t = truth_in(body)?;
    spared.push(t)?;
    let fault = none_from(maker, &spared)?;
    Ok(fault)
}

/// Adds that the part is kept and the body doesn't hold.
fn push_fault(
    maker: &mut Maker,
    d: &mut Disjunction,
    kept: &Truth,
    body: &Form,
) -> Result<(), AllocError>
    requires kept { HasVariable (length maker.old.domains) kept.now }
    requires body { HasVariable (length maker.old.domains) (truth_part body.now) }
    requires exist { IsWithin (length maker.old.domains) d.old.1 }
    ensures value { OnOk result ((a : List ℤ) → IsWorld maker.new a → disjunction_at d.new a
        ≡ ((truth_at kept.now a && not (truth_of (form_value body.now a)))
        || disjunction_at d.old a)) }
    ensures exist { OnOk result (IsWithin (length maker.new.domains) d.new.1) }
    ensures adds { OnOk result (Defines maker.old maker.new) }
{
    let fault = fault_of(maker, kept, body)?;
    d.push(fault)?;
    Ok(())
}

/// Adds that the part is kept and some body doesn't hold.
fn push_faults(
    maker: &mut Maker,
    d: &mut Disjunction,
    kept: &Truth,
    bodies: &[Form],
) -> Result<(), AllocError>
    requires kept { HasVariable (length maker.old.domains) kept.now }
    requires bodies { All (λ f. HasVariable (length maker.old.domains) (truth_part f)) bodies.now }
    requires exist { IsWithin (length maker.old.domains) d.old.1 }
    ensures value { OnOk result ((a : List ℤ) → IsWorld maker.new a → disjunction_at d.new a
        ≡ (disjunction_at d.old a || (truth_at kept.now a && not (are_true bodies.now a)))) }
    ensures exist { OnOk result (IsWithin (length maker.new.domains) d.new.1) }
    ensures adds { OnOk result (Defines maker.old maker.new) }
{
    for body in bodies {
        push_fault(maker, d, kept, body)?;
    }
    Ok(())
}

/// Adds whether the part is a case. Where the disjunction holds in any case nothing is made.
fn push_case(maker: &mut Maker, d: &mut Disjunction, want: bool, p: &Part) -> Result<(), AllocError>
    requires truths { HasTruths (length maker.old.domains) p.now }
    requires exist { IsWithin (length maker.old.domains) d.old.1 }
    ensures value { OnOk result ((a : List ℤ) → IsWorld maker.new a → disjunction_at d.new a
        ≡ (disjunction_at d.old a || is_case want p.now a)) }
    ensures exist { OnOk result (IsWithin (length maker.new.domains) d.new.1) }
    ensures adds { OnOk result (Defines maker.old maker.new) }
{
    if d.holds() {
        return Ok(());
    }
    if want {
        let t = holds_at(maker, p)?;
        d.push(t)?;
        return Ok(());
    }
    push_faults(maker, d, &p.kept, &p.bodies)?;
    Ok(())
}

/// Whether some part is a case.
pub(crate) fn some_case(maker: &mut Maker, want: bool, parts: &[Part]) -> Result<Truth, AllocError>
    requires truths { All (HasTruths (length maker.old.domains)) parts.now }
    ensures variable { IfOk result (λ t. HasVariable (length maker.new.domains) t) }
    ensures value { IfOk result (λ t. (a : List ℤ) → IsWorld maker.new a
        → truth_at t a ≡ list_any (λ p. is_case want p a) parts.now) }
    ensures adds { IfOk result (λ t. Defines maker.old maker.new) }
{
    let mut cases = Disjunction::new(maker.alloc());
    for p in parts {
        push_case(maker, &mut cases, want, p)?;
    }
    let t = truth_in_blocks(maker, &cases)?;
    Ok(t)
}
