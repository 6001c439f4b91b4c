//! The least and the greatest sum of terms over boxes.
//!
//! A term's least and greatest value stand at the ends of its variable's box. Both sums are walks
//! over the terms, without memory, and stay within 64 bits where the greatest absolute values of
//! the terms add up to at most `MOST_SUM`.
ghost use Rattle.std.specs.Prelude.{◌≡◌, ◌<◌, ◌≤◌, ◌^◌, ◌+◌, ◌*◌, ◌+ℤ◌, ◌*ℤ◌, ◌≤ℤ◌, length, unsigned_abs};
ghost use Rattle.std.specs.List.{All};
ghost use Rattle.signed_clause.specs.Clauses.{box_of};
ghost use Rattle.ground_form.specs.Bounds.{low_of, high_of, term_weight, weight_of, least_term, greatest_term, least_sum, greatest_sum, most_sum};

use signed_clause::IntSet;

/// A number in a computation.
#[derive(Clone, Copy)]
pub struct Number {
    /// The number.
    pub value: i64,
}

impl Number {
    /// What two numbers are together.
    pub fn plus(self, o: Number) -> Number
        requires { unsigned_abs self.value + unsigned_abs o.value ≤ 2 ^ 61 }
        ensures { result.value ≡ self.value +ℤ o.value }
    {
        Number {
            value: self.value + o.value,
        }
    }
}

/// The least and the greatest value of a set, 0 of the empty one.
pub fn ends_of(set: &IntSet) -> (i64, i64)
    ensures { result ≡ (low_of set.now, high_of set.now) }
{
    (set.least().unwrap_or(0), set.greatest().unwrap_or(0))
}

/// The ends of a variable's box.
fn box_ends(boxes: &[IntSet], x: u32) -> (i64, i64)
    requires { x < length boxes.now }
    ensures { result ≡ (low_of (box_of boxes.now x), high_of (box_of boxes.now x)) }
{
    ends_of(&boxes[x as usize])
}

/// A product that fits.
fn times(c: i64, v: i64) -> i64
    requires { unsigned_abs c * unsigned_abs v < 2 ^ 63 }
    ensures { result ≡ c *ℤ v }
{
    c * v
}

/// The least that a term is over the boxes.
#[tactic(auto, unfolding(crate::specs::Bounds::least_term, crate::specs::Bounds::term_weight))]
fn least_term(t: (i64, u32), boxes: &[IntSet]) -> Number
    requires var { t.1 < length boxes.now }
    requires fits { term_weight t boxes.now ≤ most_sum }
    ensures { result.value ≡ least_term t boxes.now }
{
    let at = box_ends(boxes, t.1);
    Number {
        value: times(t.0, at.0).min(times(t.0, at.1)),
    }
}

/// The greatest that a term is over the boxes.
#[tactic(auto, unfolding(crate::specs::Bounds::greatest_term, crate::specs::Bounds::term_weight))]
fn greatest_term(t: (i64, u32), boxes: &[IntSet]) -> Number
    requires var { t.1 < length boxes.now }
    requires fits { term_weight t boxes.now ≤ most_sum }
    ensures { result.value ≡ greatest_term t boxes.now }
{
    let at = box_ends(boxes, t.1);
    Number {
        value: times(t.0, at.0).max(times(t.0, at.1)),
    }
}

/// The least sum of the terms over the boxes.
#[tactic(auto, using(crate::proofs::Weights::least_step))]
pub fn least_sum(terms: &[(i64, u32)], boxes: &[IntSet]) -> Number
    requires vars { All (λ t. t.1 < length boxes.now) terms.now }
    requires fits { weight_of terms.now boxes.now ≤ most_sum }
    ensures value { result.value ≡ least_sum terms.now boxes.now }
    ensures fits { unsigned_abs result.value ≤ weight_of terms.now boxes.now }
{
    let mut sum = Number { value: 0 };
    for t in terms {
        sum = sum.plus(least_term(*t, boxes));
    }
    sum
}

/// The greatest sum of the terms over the boxes.
#[tactic(auto, using(crate::proofs::Weights::greatest_step))]
pub fn greatest_sum(terms: &[(i64, u32)], boxes: &[IntSet]) -> Number
    requires vars { All (λ t. t.1 < length boxes.now) terms.now }
    requires fits { weight_of terms.now boxes.now ≤ most_sum }
    ensures value { result.value ≡ greatest_sum terms.now boxes.now }
    ensures fits { unsigned_abs result.value ≤ weight_of terms.now boxes.now }
{
    let mut sum = Number { value: 0 };
    for t in terms {
        sum = sum.plus(greatest_term(*t, boxes));
    }
    sum
}
