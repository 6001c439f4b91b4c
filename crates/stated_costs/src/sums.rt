//! How great a sum is at most where the index is in a set.
ghost use Rattle.std.specs.Prelude.{◌≡◌, ◌≤ℤ◌, ◌*ℤ◌, ◌+ℤ◌, ℤ, List, pos, true, IfOk, IfSome};
ghost use Rattle.std.specs.Int.{int_max};
ghost use Rattle.signed_clause.specs.Ranges.{has};
ghost use Rattle.ground_form.specs.Meaning.{value_of, sum_at};
ghost use Rattle.form_build.specs.Forms.{linear_at};
ghost use Rattle.form_build.specs.Worlds.{IsWorld, AllHold};
ghost use Rattle.stated_facts.specs.Rows.{Follows};
ghost use Rattle.stated_costs.specs.Sums.{IsMostWhere, IsBelowWhere};

use crate::places::Places;
use crate::values::{own_values, values_where};
use form_build::{Linear, Maker};
use ground_form::Number;
use signed_clause::IntSet;
use std::alloc::AllocError;

/// A product, where it fits.
fn product(c: i64, v: i64) -> Option<Number>
    ensures { IfSome result (λ n. n.value ≡ c *ℤ v) }
{
    Some(Number {
        value: c.checked_mul(v)?,
    })
}

/// The greater one of two numbers.
fn greater(m: Number, n: Number) -> Number
    ensures { result.value ≡ int_max m.value n.value }
{
    Number {
        value: m.value.max(n.value),
    }
}

/// The greatest product of a number and a value from the least to the greatest one, where it fits.
fn most_product(c: i64, least: i64, greatest: i64) -> Option<Number>
    ensures { IfSome result (λ n. (v : ℤ) → least ≤ℤ v → v ≤ℤ greatest → (c *ℤ v) ≤ℤ n.value) }
{
    let low = product(c, least)?;
    let high = product(c, greatest)?;
    let most = greater(low, high);
    Some(most)
}

/// The greatest product of a number and one of the values, where it fits.
fn most_of(c: i64, values: &IntSet) -> Option<Number>
    ensures { IfSome result (λ n. (v : ℤ) → has values.now v ≡ true → (c *ℤ v) ≤ℤ n.value) }
{
    let least = values.least()?;
    let greatest = values.greatest()?;
    let n = most_product(c, least, greatest)?;
    Some(n)
}

/// How great a term is at most where the index is in the set.
fn most_term(
    maker: &Maker,
    places: &Places,
    x: u32,
    at: &IntSet,
    t: (i64, u32),
) -> Result<Option<Number>, AllocError>
    ensures { IfOk result (λ o. IfSome o (λ n. (a : List ℤ) → IsWorld maker.now a
        → AllHold maker.now a → has at.now (value_of a x) ≡ true
        → (t.0 *ℤ value_of a t.1) ≤ℤ n.value)) }
{
    match values_where(maker, places, x, at, t.1)? {
        Some(values) => Ok(most_of(t.0, &values)),
        None => Ok(None),
    }
}

/// Both together, where that fits.
fn added(m: Number, n: Number) -> Option<Number>
    ensures { IfSome result (λ r. r.value ≡ m.value +ℤ n.value) }
{
    Some(Number {
        value: m.value.checked_add(n.value)?,
    })
}

/// How great a number and a term are together at most where the index is in the set.
fn with_term(
    maker: &Maker,
    places: &Places,
    x: u32,
    at: &IntSet,
    t: (i64, u32),
    sum: Number,
) -> Result<Option<Number>, AllocError>
    ensures { IfOk result (λ o. IfSome o (λ n. (a : List ℤ) → IsWorld maker.now a
        → AllHold maker.now a → has at.now (value_of a x) ≡ true
        → (sum.value +ℤ (t.0 *ℤ value_of a t.1)) ≤ℤ n.value)) }
{
    match most_term(maker, places, x, at, t)? {
        Some(n) => Ok(added(sum, n)),
        None => Ok(None),
    }
}

/// How great terms are together at most where the index is in the set.
pub(crate) fn most_sum(
    maker: &Maker,
    places: &Places,
    x: u32,
    at: &IntSet,
    terms: &[(i64, u32)],
) -> Result<Option<Number>, AllocError>
    ensures { IfOk result (λ o. IfSome o (λ n. IsMostWhere maker.now x at.now terms.now n.value)) }
{
    let mut sum = Number { value: 0 };
    for t in terms {
        let more = with_term(maker, places, x, at, *t, sum)?;
        let Some(next) = more else {
            return Ok(None);
        };
        sum = next;
    }
    Ok(Some(sum))
}

/// Whether a sum is at most 0 where the index is in the set.
fn is_below_where(
    maker: &Maker,
    places: &Places,
    x: u32,
    at: &IntSet,
    f: &Linear,
) -> Result<bool, AllocError>
    ensures { IfOk result (λ b. b ≡ true → IsBelowWhere maker.now x at.now f.now) }
{
    match most_sum(maker, places, x, at, f.terms.items())? {
        Some(n) => match added(n, Number { value: f.offset }) {
            Some(sum) => Ok(sum.value <= 0),
            None => Ok(false),
        },
        None => Ok(false),
    }
}

/// Whether a sum is at most 0 wherever all constraints hold, since it is where the index is in one
/// of these sets, and there is nothing else.
pub(crate) fn is_below(
    maker: &Maker,
    places: &Places,
    x: u32,
    parts: &[IntSet],
    f: &Linear,
) -> Result<bool, AllocError>
    ensures { IfOk result (λ b. b ≡ true → Follows maker.now f.now) }
{
    let Some(own) = own_values(maker, places, x)? else {
        return Ok(false);
    };
    let mut left = own;
    for at in parts {
        if !is_below_where(maker, places, x, at, f)? {
            return Ok(false);
        }
        left = left.less(at)?;
    }
    Ok(left.is_empty())
}
