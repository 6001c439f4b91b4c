//! The walk over a row's terms: the least sum, and the term that can rise the most.
ghost use Rattle.std.specs.Prelude.{◌≡◌, ◌<◌, ◌≤◌, ◌^◌, ◌*◌, ◌*ℤ◌, ◌+ℤ◌, ◌-ℤ◌, cond, int_lt, length, unsigned_abs};
ghost use Rattle.std.specs.Int.{int_min, int_max};
ghost use Rattle.signed_clause.specs.Clauses.{box_of};
ghost use Rattle.ground_form.specs.Bounds.{low_of, high_of, reach_of, term_weight, weight_of, least_term, greatest_term, least_sum};
ghost use Rattle.box_rules.specs.Named.{AreTermsNamed};
ghost use Rattle.linear_prop.specs.Rows.{terms_of, spread_of, greatest_spread};
ghost use Rattle.linear_prop.specs.Surveys.{IsWidest};
ghost use Rattle.linear_prop.specs.Falls.{least_at, greatest_at};

use crate::number::{Factor, WideNumber};
use crate::row::{Row, factor_of};
use ground_form::ends_of;
use signed_clause::IntSet;

/// What a walk over a row's terms finds.
#[derive(Clone, Copy)]
pub struct Survey {
    /// The least sum.
    pub least: WideNumber,
    /// How far the term that can rise the most rises above its least, 0 where none rises.
    pub spread: WideNumber,
    /// Its index, where some term rises.
    pub index: usize,
}

/// The products of a coefficient with the ends of a set: the smaller and the greater.
#[tactic(auto, using(crate::proofs::Spreads::end_fits))]
pub fn products(c: Factor, set: &IntSet) -> (WideNumber, WideNumber)
    requires { unsigned_abs c.value * reach_of set.now ≤ 2 ^ 61 }
    ensures least { result.0.value ≡ least_at c.value set.now }
    ensures greatest { result.1.value ≡ greatest_at c.value set.now }
{
    let ends = ends_of(set);
    let first = c.times(WideNumber::of(ends.0));
    let last = c.times(WideNumber::of(ends.1));
    (first.smaller(last), first.greater(last))
}

/// The least and the greatest that a term is.
#[tactic(auto, using(crate::proofs::Spreads::least_is, crate::proofs::Spreads::greatest_is, crate::proofs::Spreads::weight_is))]
pub fn term_ends(t: (i128, u32), boxes: &[IntSet]) -> (WideNumber, WideNumber)
    requires var { t.1 < length boxes.now }
    requires fits { term_weight t boxes.now ≤ 2 ^ 61 }
    ensures least { result.0.value ≡ least_term t boxes.now }
    ensures greatest { result.1.value ≡ greatest_term t boxes.now }
{
    products(factor_of(t), &boxes[t.1 as usize])
}

impl Survey {
    /// What is found with one term more, which stands at the index `i`.
    fn with(self, i: usize, ends: (WideNumber, WideNumber)) -> Survey
        requires fits { unsigned_abs self.least.value ≤ 2 ^ 61 }
        requires low { unsigned_abs ends.0.value ≤ 2 ^ 61 }
        requires high { unsigned_abs ends.1.value ≤ 2 ^ 61 }
        ensures least { result.least.value ≡ self.least.value +ℤ ends.0.value }
        ensures spread { result.spread.value ≡ int_max self.spread.value
            (ends.1.value -ℤ ends.0.value) }
        ensures index { result.index ≡ cond
            (int_lt self.spread.value (ends.1.value -ℤ ends.0.value)) i self.index }
    {
        let least = self.least.plus(ends.0);
        let spread = ends.1.minus(ends.0);
        if self.spread.is_below(spread) {
            Survey {
                least,
                spread,
                index: i,
            }
        } else {
            Survey {
                least,
                spread: self.spread,
                index: self.index,
            }
        }
    }
}

/// The walk over a row's terms.
pub fn walk(row: &Row, boxes: &[IntSet]) -> Survey
    requires terms { AreTermsNamed (terms_of row.now) boxes.now }
    requires fits { weight_of (terms_of row.now) boxes.now ≤ 2 ^ 61 }
    ensures least { result.least.value ≡ least_sum (terms_of row.now) boxes.now }
    ensures fits { unsigned_abs result.least.value ≤ 2 ^ 61 }
    ensures spread { result.spread.value ≡ greatest_spread (terms_of row.now) boxes.now }
    ensures index { IsWidest (terms_of row.now) boxes.now result.index result.spread.value }
{
    let mut found = Survey {
        least: WideNumber::of(0),
        spread: WideNumber::of(0),
        index: 0,
    };
    for i in 0..row.len() {
        found = found.with(i, term_ends(row.term(i), boxes));
    }
    found
}
