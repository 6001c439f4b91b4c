//! What each part adds to a sum or a count.
ghost use Rattle.std.specs.Prelude.{◌≡◌, ℤ, pos, true, cond, List, map, length, IfOk, MatchOption};
ghost use Rattle.std.specs.Int.{int_max, int_min};
ghost use Rattle.std.specs.List.{All};
ghost use Rattle.conf_limits.specs.declared.interval.Interval.{Interval};
ghost use Rattle.form_build.specs.Forms.{linear_at, truth_at, HasVariable};
ghost use Rattle.form_build.specs.Worlds.{IsWorld, Defines};
ghost use Rattle.form_build.specs.Sums.{IsSum, least_linear, greatest_linear};
ghost use Rattle.expr_forms.specs.FormValues.{nought};
ghost use Rattle.quantifier_forms.specs.PartValues.{share, first_number};
ghost use Rattle.quantifier_forms.specs.Quantified.{HasTruths, IsPart, IsNarrow, AreParts, adds_up, share_interval};

use crate::cases::holds_at;
use crate::part::Part;
use crate::totals::copied;
use conf_syntax::QuantKind;
use expr_forms::Form;
use form_build::{Linear, Maker, Truth};
use form_truths::times_truth;
use std::alloc::AllocError;

/// The number that the first body is, where it is one.
fn first_sum(bodies: &[Form]) -> Option<&Linear>
    ensures { MatchOption result (first_number bodies.now ≡ nought)
        (λ f. f.now ≡ first_number bodies.now) }
{
    match bodies {
        [Form::Number(f), ..] => Some(f),
        _ => None,
    }
}

/// A sum where the truth holds, and 0 where it doesn't. Where the truth is fixed nothing is made.
pub fn sum_where(maker: &mut Maker, f: &Linear, t: &Truth) -> Result<Linear, AllocError>
    requires variable { HasVariable (length maker.old.domains) t.now }
    requires number { IsNarrow maker.old.domains f.now }
    ensures value { IfOk result (λ r. (a : List ℤ) → IsWorld maker.new a
        → linear_at r a ≡ cond (truth_at t.now a) (linear_at f.now a) (pos 0)) }
    ensures sum { IfOk result (λ r. IsSum maker.new.domains
        (int_min (least_linear f.now maker.old.domains) (pos 0))
        (int_max (greatest_linear f.now maker.old.domains) (pos 0)) r) }
    ensures adds { IfOk result (λ r. Defines maker.old maker.new) }
{
    match t {
        Truth::Fixed(true) => {
            let r = copied(f)?;
            Ok(r)
        }
        Truth::Fixed(false) => Ok(Linear::number(maker.alloc(), 0)),
        Truth::In(_, _) => {
            maker.ask(3)?;
            let r = times_truth(maker, f, t)?;
            Ok(r)
        }
    }
}

/// What the part adds to a sum: its first body where it is kept.
fn summed_at(maker: &mut Maker, p: &Part) -> Result<Linear, AllocError>
    requires truths { HasTruths (length maker.old.domains) p.now }
    requires number { IsNarrow maker.old.domains (first_number p.now.bodies.items) }
    ensures value { IfOk result (λ r. (a : List ℤ) → IsWorld maker.new a
        → linear_at r a ≡ share QuantKind.Sum p.now a) }
    ensures sum { IfOk result (λ r. (first : Interval) → IsPart maker.old.domains first p.now
        → IsSum maker.new.domains (share_interval QuantKind.Sum first).low
        (share_interval QuantKind.Sum first).high r) }
    ensures adds { IfOk result (λ r. Defines maker.old maker.new) }
{
    match first_sum(&p.bodies) {
        Some(f) => {
            let r = sum_where(maker, f, &p.kept)?;
            Ok(r)
        }
        None => Ok(Linear::number(maker.alloc(), 0)),
    }
}

/// What the part adds to a count: 1 where it is kept and all of its bodies hold.
fn counted_at(maker: &mut Maker, p: &Part) -> Result<Linear, AllocError>
    requires truths { HasTruths (length maker.old.domains) p.now }
    ensures value { IfOk result (λ r. (a : List ℤ) → IsWorld maker.new a
        → linear_at r a ≡ share QuantKind.Count p.now a) }
    ensures sum { IfOk result (λ r. IsSum maker.new.domains (pos 0) (pos 1) r) }
    ensures adds { IfOk result (λ r. Defines maker.old maker.new) }
{
    let t = holds_at(maker, p)?;
    let one = Linear::number(maker.alloc(), 1);
    let r = sum_where(maker, &one, &t)?;
    Ok(r)
}

/// What the part adds.
fn share_of(maker: &mut Maker, kind: QuantKind, p: &Part) -> Result<Linear, AllocError>
    requires kind { adds_up kind ≡ true }
    requires truths { HasTruths (length maker.old.domains) p.now }
    requires number { kind ≡ QuantKind.Sum
        → IsNarrow maker.old.domains (first_number p.now.bodies.items) }
    ensures value { IfOk result (λ r. (a : List ℤ) → IsWorld maker.new a
        → linear_at r a ≡ share kind p.now a) }
    ensures sum { IfOk result (λ r. (first : Interval) → IsPart maker.old.domains first p.now
        → IsSum maker.new.domains (share_interval kind first).low
        (share_interval kind first).high r) }
    ensures adds { IfOk result (λ r. Defines maker.old maker.new) }
{
    match kind {
        QuantKind::Sum => {
            let r = summed_at(maker, p)?;
            Ok(r)
        }
        QuantKind::Count => {
            let r = counted_at(maker, p)?;
            Ok(r)
        }
        QuantKind::Forall | QuantKind::Exists | QuantKind::AllDifferent | QuantKind::Pack => {
            unreachable!()
        }
    }
}

/// What each part adds, in order.
pub(crate) fn shares(
    maker: &mut Maker,
    kind: QuantKind,
    parts: &[Part],
) -> Result<Vec<Linear>, AllocError>
    requires kind { adds_up kind ≡ true }
    requires parts { AreParts maker.old.domains kind parts.now }
    ensures values { IfOk result (λ sums. (a : List ℤ) → IsWorld maker.new a
        → map (λ f. linear_at f a) sums.items ≡ map (λ p. share kind p a) parts.now) }
    ensures count { IfOk result (λ sums. length sums.items ≡ length parts.now) }
    ensures sums { IfOk result (λ sums. (first : Interval)
        → All (IsPart maker.old.domains first) parts.now
        → All (IsSum maker.new.domains (share_interval kind first).low
        (share_interval kind first).high) sums.items) }
    ensures adds { IfOk result (λ sums. Defines maker.old maker.new) }
{
    let mut sums = Vec::new(maker.alloc());
    for p in parts {
        let r = share_of(maker, kind, p)?;
        sums.push(r)?;
    }
    Ok(sums)
}
