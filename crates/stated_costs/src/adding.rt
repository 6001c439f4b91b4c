//! Steps put in place of terms.
ghost use Rattle.std.specs.Prelude.{◌≡◌, ◌≤◌, ◌^◌, ◌*ℤ◌, ℤ, List, true, pos, neg_ℤ, unsigned_abs, IfOk, IfSome, OnOk};
ghost use Rattle.ground_form.specs.declared.ground.Ground.{Ground};
ghost use Rattle.form_build.specs.Forms.{linear_at};
ghost use Rattle.form_build.specs.Sums.{IsLinear};
ghost use Rattle.form_build.specs.Worlds.{Defines};
ghost use Rattle.stated_facts.specs.Rows.{Follows, IsAbove, IsNought};

use crate::groups::{Group, groups_of, is_wanted};
use crate::places::{Places, places_of};
use crate::steps::{Steps, steps_of};
use crate::sums::is_below;
use form_build::{Linear, Maker};
use ground_form::Number;
use stated_facts::{Nought, combined, light_sum};
use std::alloc::AllocError;

/// A sum of more terms isn't made longer.
const MOST_TERMS: usize = 1 << 13;

/// A number as a sum, where it is small.
fn small_number(maker: &Maker, v: Number) -> Option<Linear>
    ensures { IfSome result (λ f. IsLinear (2 ^ 19) maker.now.domains f) }
{
    if v.value.unsigned_abs() > 1 << 19 {
        None
    } else {
        Some(Linear::number(maker.alloc(), v.value))
    }
}

/// The sum of terms less their steps, where its numbers are small.
fn sum_of(maker: &Maker, s: &Steps) -> Result<Option<Linear>, AllocError>
    ensures { IfOk result (λ o. IfSome o (λ f. IsLinear (2 ^ 20) maker.now.domains f)) }
{
    let terms = Vec::from_slice(maker.alloc(), s.terms.as_slice())?;
    let Some(own) = light_sum(maker, terms) else {
        return Ok(None);
    };
    let Some(number) = small_number(maker, s.offset) else {
        return Ok(None);
    };
    let f = own.plus(maker.alloc(), &number)?;
    Ok(Some(f))
}

/// Whether a sum is at least 0 wherever all constraints hold.
fn is_above(maker: &Maker, places: &Places, s: &Steps, f: &Linear) -> Result<bool, AllocError>
    requires { IsLinear (2 ^ 20) maker.now.domains f.now }
    ensures { IfOk result (λ b. b ≡ true → IsAbove maker.now f.now) }
{
    let turned = f.times(maker.alloc(), -1)?;
    let b = is_below(maker, places, s.index, s.parts.as_slice(), &turned)?;
    Ok(b)
}

/// Terms less their steps, which are 0, or on one side of 0.
fn nought_of(maker: &Maker, places: &Places, s: &Steps) -> Result<Option<Nought>, AllocError>
    ensures { IfOk result (λ o. IfSome o (λ z. IsNought maker.now z)) }
{
    let Some(sum) = sum_of(maker, s)? else {
        return Ok(None);
    };
    let adds = is_below(maker, places, s.index, s.parts.as_slice(), &sum)?;
    let takes = is_above(maker, places, s, &sum)?;
    Ok(Some(Nought { sum, adds, takes }))
}

/// What is 0 with the steps of terms in place of them, where these are known to be theirs.
fn with_one(
    maker: &Maker,
    places: &Places,
    zero: &Nought,
    s: &Steps,
) -> Result<Option<Nought>, AllocError>
    requires { IsNought maker.now zero.now }
    ensures { IfOk result (λ o. IfSome o (λ z. IsNought maker.now z)) }
{
    if zero.sum.terms.items().len() > MOST_TERMS {
        return Ok(None);
    }
    let Some(own) = nought_of(maker, places, s)? else {
        return Ok(None);
    };
    match combined(maker, zero, &own, -1)? {
        Some(z) => {
            if z.adds || z.takes {
                Ok(Some(z))
            } else {
                Ok(None)
            }
        }
        None => Ok(None),
    }
}

/// The last that was found, or, where none was, the first.
fn current<'a>(last: &'a Option<Nought>, zero: &'a Nought) -> &'a Nought
    ensures { (g : Ground) → IfSome last.now (λ z. IsNought g z) → IsNought g zero.now
        → IsNought g result.now }
{
    match last {
        Some(z) => z,
        None => zero,
    }
}

/// The same of all steps. None where nothing was replaced.
fn with_all(maker: &Maker, zero: &Nought, all: &[Steps]) -> Result<Option<Nought>, AllocError>
    requires { IsNought maker.now zero.now }
    ensures { IfOk result (λ o. IfSome o (λ z. IsNought maker.now z)) }
{
    let mut last = None;
    let places = places_of(maker)?;
    for s in all {
        let so_far = current(&last, zero);
        if let Some(z) = with_one(maker, &places, so_far, s)? {
            last = Some(z);
        }
    }
    Ok(last)
}

/// Adds the steps of a group, where it has some, and is more than a flag.
fn push_steps(
    maker: &mut Maker,
    places: &Places,
    all: &mut Vec<Steps>,
    g: &Group,
) -> Result<(), AllocError>
    ensures { OnOk result (Defines maker.old maker.new) }
{
    if !is_wanted(maker, places, g) {
        return Ok(());
    }
    if let Some(s) = steps_of(maker, places, g)? {
        all.push(s)?;
    }
    Ok(())
}

/// The steps of these groups.
fn all_steps(maker: &mut Maker, places: &Places, groups: &[Group]) -> Result<Vec<Steps>, AllocError>
    ensures { IfOk result (λ all. Defines maker.old maker.new) }
{
    let mut all = Vec::new(maker.alloc());
    for g in groups {
        push_steps(maker, places, &mut all, g)?;
    }
    Ok(all)
}

/// What is 0, with steps by flags of bins in place of the terms that follow from where an item is.
/// None where there is no such term. Nothing new is said.
pub fn with_steps(maker: &mut Maker, zero: &Nought) -> Result<Option<Nought>, AllocError>
    requires nought { IsNought maker.old zero.now }
    ensures nought { IfOk result (λ o. IfSome o (λ z. IsNought maker.new z)) }
    ensures adds { IfOk result (λ o. Defines maker.old maker.new) }
{
    let places = places_of(maker)?;
    let groups = groups_of(maker, &places, &zero.sum)?;
    let all = all_steps(maker, &places, groups.as_slice())?;
    let z = with_all(maker, zero, all.as_slice())?;
    Ok(z)
}
