//! The least and the greatest sum of terms over a view of boxes.
//!
//! Both are one walk over the terms. They stay within 64 bits where the greatest absolute values of
//! the terms over the outer boxes add up to at most `MOST_SUM`.
ghost use Rattle.std.specs.Prelude.{◌≡◌, ◌<◌, ◌≤◌, ◌^◌, ◌+◌, ◌*◌, ◌*ℤ◌, length, unsigned_abs};
ghost use Rattle.std.specs.Int.{int_min, int_max};
ghost use Rattle.std.specs.List.{All};
ghost use Rattle.ground_form.specs.Bounds.{term_weight, weight_of, least_term, greatest_term, least_sum, greatest_sum, most_sum};

use box_view::View;
use ground_form::Number;

/// A product that fits.
fn times(c: i64, v: i64) -> i64
    requires { unsigned_abs c * unsigned_abs v < 2 ^ 63 }
    ensures { result ≡ c *ℤ v }
{
    c * v
}

/// The least product of a term's coefficient with one of two ends.
fn least_of(t: (i64, u32), at: (i64, i64)) -> Number
    requires low { unsigned_abs t.0 * unsigned_abs at.0 < 2 ^ 63 }
    requires high { unsigned_abs t.0 * unsigned_abs at.1 < 2 ^ 63 }
    ensures { result.value ≡ int_min (t.0 *ℤ at.0) (t.0 *ℤ at.1) }
{
    Number {
        value: times(t.0, at.0).min(times(t.0, at.1)),
    }
}

/// The greatest product of a term's coefficient with one of two ends.
fn greatest_of(t: (i64, u32), at: (i64, i64)) -> Number
    requires low { unsigned_abs t.0 * unsigned_abs at.0 < 2 ^ 63 }
    requires high { unsigned_abs t.0 * unsigned_abs at.1 < 2 ^ 63 }
    ensures { result.value ≡ int_max (t.0 *ℤ at.0) (t.0 *ℤ at.1) }
{
    Number {
        value: times(t.0, at.0).max(times(t.0, at.1)),
    }
}

/// The least that a term is.
#[tactic(auto, using(crate::proofs::SumSteps::least_term_is, crate::proofs::SumSteps::end_fits))]
fn least_term<V: View>(t: (i64, u32), view: &V) -> Number
    requires var { t.1 < length (V.boxes view.now) }
    requires fits { term_weight t (V.outer view.now) ≤ most_sum }
    ensures value { result.value ≡ least_term t (V.boxes view.now) }
    ensures fits { unsigned_abs result.value ≤ term_weight t (V.outer view.now) }
{
    least_of(t, view.ends(t.1))
}

/// The greatest that a term is.
#[tactic(auto, using(crate::proofs::SumSteps::greatest_term_is, crate::proofs::SumSteps::end_fits))]
fn greatest_term<V: View>(t: (i64, u32), view: &V) -> Number
    requires var { t.1 < length (V.boxes view.now) }
    requires fits { term_weight t (V.outer view.now) ≤ most_sum }
    ensures value { result.value ≡ greatest_term t (V.boxes view.now) }
    ensures fits { unsigned_abs result.value ≤ term_weight t (V.outer view.now) }
{
    greatest_of(t, view.ends(t.1))
}

/// The least sum of the terms.
pub fn least_sum<V: View>(terms: &[(i64, u32)], view: &V) -> Number
    requires vars { All (λ t. t.1 < length (V.boxes view.now)) terms.now }
    requires fits { weight_of terms.now (V.outer view.now) ≤ most_sum }
    ensures value { result.value ≡ least_sum terms.now (V.boxes view.now) }
    ensures fits { unsigned_abs result.value ≤ weight_of terms.now (V.outer view.now) }
{
    let mut sum = Number { value: 0 };
    for t in terms {
        sum = sum.plus(least_term(*t, view));
    }
    sum
}

/// The greatest sum of the terms.
pub fn greatest_sum<V: View>(terms: &[(i64, u32)], view: &V) -> Number
    requires vars { All (λ t. t.1 < length (V.boxes view.now)) terms.now }
    requires fits { weight_of terms.now (V.outer view.now) ≤ most_sum }
    ensures value { result.value ≡ greatest_sum terms.now (V.boxes view.now) }
    ensures fits { unsigned_abs result.value ≤ weight_of terms.now (V.outer view.now) }
{
    let mut sum = Number { value: 0 };
    for t in terms {
        sum = sum.plus(greatest_term(*t, view));
    }
    sum
}
