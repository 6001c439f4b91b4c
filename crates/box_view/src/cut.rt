//! Domains less the sets of a clause, as a view.
//!
//! What is left of a domain is not built: its questions are those of numbers that the domain has
//! and the clause's set for the variable lacks (`values`). The set is looked up by halving the
//! clause; a variable that the clause doesn't name keeps its domain, and the questions are then the
//! domain's own.
ghost use Rattle.std.specs.Prelude.{◌≡◌, ◌≤◌, ◌<◌, ◌≤ℤ◌, ℤ, true, false, IfSome, IfNone, pos, [], length, negsuc};
ghost use Rattle.signed_clause.specs.Ranges.{has, is_nil};
ghost use Rattle.signed_clause.specs.SetAlgebra.{is_disjoint, is_within, less};
ghost use Rattle.ground_form.specs.Bounds.{low_of, high_of, reach_of};
ghost use Rattle.signed_clause.specs.Clauses.{box_of};
ghost use Rattle.box_view.specs.Views.{cut};
ghost use Rattle.box_view.specs.Left.{left_of};
ghost use Rattle.box_view.specs.Firsts.{IsFirst, HasNoneFrom};

use crate::values::{InBoth, InSet, NumberSet, OutOfSet, first_in};
use crate::view::{View, are_sets_disjoint, ends_in_order};
use ground_form::Number;
use signed_clause::{Clause, IntSet};

/// What is left of a domain: all of it, or what a set doesn't have.
#[derive(Clone, Copy)]
enum Left<'a> {
    /// The domain.
    Whole(&'a IntSet),
    /// The domain less the set.
    Rest(&'a IntSet, &'a IntSet),
}

/// Domains less the sets of a clause.
#[derive(Drop)]
pub struct Cut<'a> {
    /// The domains.
    pub domains: &'a [IntSet],
    /// The clause.
    pub clause: &'a Clause,
}

impl<'a> Cut<'a> {
    /// What is left of the domain of `x`.
    #[tactic(auto, using(crate::proofs::CutLaws::cut_box, crate::proofs::CutLaws::cut_within, crate::proofs::CutLaws::kept_box, crate::proofs::CutLaws::rest_reach))]
    fn left(&self, x: u32) -> Left<'a>
        requires { x < length (cut self.now.domains.now self.now.clause.now) }
        ensures box_of { left_of result ≡ box_of (cut self.now.domains.now self.now.clause.now) x }
        ensures reach { reach_of (left_of result) ≤ reach_of (box_of self.now.domains.now x) }
    {
        let domain = &self.domains[x as usize];
        domain.ranges();
        match self.clause.set_of(x) {
            Some(out) => {
                out.ranges();
                Left::Rest(domain, out)
            }
            None => Left::Whole(domain),
        }
    }
}

impl<'a> View for Cut<'a> {
    ghost boxes = { λ v. cut v.domains.now v.clause.now };

    ghost outer = { λ v. v.domains.now };

    fn is_empty(&self, x: u32) -> bool {
        match self.left(x) {
            Left::Whole(domain) => domain.is_empty(),
            Left::Rest(domain, out) => domain.within(out),
        }
    }

    fn ends(&self, x: u32) -> (i64, i64) {
        match self.left(x) {
            Left::Whole(domain) => ends_in_order(domain),
            Left::Rest(domain, out) => rest_ends(domain, out),
        }
    }

    fn has(&self, x: u32, v: i64) -> bool {
        match self.left(x) {
            Left::Whole(domain) => domain.contains(v),
            Left::Rest(domain, out) => is_left(domain, out, v),
        }
    }

    fn first_from(&self, x: u32, from: Number) -> Option<Number> {
        match self.left(x) {
            Left::Whole(domain) => first_in(domain, from),
            Left::Rest(domain, out) => rest_first(domain, out, from),
        }
    }

    fn is_disjoint(&self, x: u32, set: &IntSet) -> bool {
        match self.left(x) {
            Left::Whole(domain) => are_sets_disjoint(domain, set),
            Left::Rest(domain, out) => rest_disjoint(domain, out, set),
        }
    }

    fn is_within(&self, x: u32, set: &IntSet) -> bool {
        match self.left(x) {
            Left::Whole(domain) => domain.within(set),
            Left::Rest(domain, out) => is_rest_within(domain, out, set),
        }
    }

    fn are_disjoint(&self, x: u32, y: u32) -> bool {
        match (self.left(x), self.left(y)) {
            (Left::Whole(one), Left::Whole(other)) => one.disjoint(other),
            (Left::Rest(one, out), Left::Whole(other)) => rest_disjoint(one, out, other),
            (Left::Whole(one), Left::Rest(other, out)) => rest_disjoint(other, out, one),
            (Left::Rest(one, out), Left::Rest(other, other_out)) => {
                are_rests_apart(one, out, other, other_out)
            }
        }
    }
}

/// Whether no number passes.
fn has_none<A: NumberSet>(a: &A) -> bool
    ensures none { result ≡ true → HasNoneFrom (A.holds a.now) (negsuc 9223372036854775807) }
    ensures some { result ≡ false → (w : ℤ) × (A.holds a.now w ≡ true) }
{
    a.next(Number { value: i64::MIN }).is_none()
}

/// Whether a set has at least as many ranges as another one.
fn has_as_many(set: &IntSet, other: &IntSet) -> bool {
    other.ranges().len() <= set.ranges().len()
}

/// Whether no value of the domain that `out` lacks is in the set. Where `out` has the whole set,
/// one walk tells, which a long set is spared leaps by.
#[tactic(auto, using(crate::proofs::CutLaws::within_apart, crate::proofs::CutLaws::within_apart_turned))]
fn rest_disjoint(domain: &IntSet, out: &IntSet, set: &IntSet) -> bool
    ensures disjoint { result ≡ is_disjoint (less domain.now out.now) set.now }
    ensures set_disjoint { result ≡ is_disjoint set.now (less domain.now out.now) }
{
    domain.ranges();
    out.ranges();
    set.ranges();
    if has_as_many(set, out) && set.within(out) {
        return true;
    }
    is_rest_apart(domain, out, set)
}

/// The same by leaps.
fn is_rest_apart(domain: &IntSet, out: &IntSet, set: &IntSet) -> bool
    ensures disjoint { result ≡ is_disjoint (less domain.now out.now) set.now }
    ensures set_disjoint { result ≡ is_disjoint set.now (less domain.now out.now) }
{
    domain.ranges();
    out.ranges();
    set.ranges();
    has_none(&InBoth {
        a: InBoth {
            a: InSet { set: domain },
            b: OutOfSet { set: out },
        },
        b: InSet { set },
    })
}

/// Whether every value of the domain that `out` lacks is in the set.
pub fn is_rest_within(domain: &IntSet, out: &IntSet, set: &IntSet) -> bool
    ensures { result ≡ is_within (less domain.now out.now) set.now }
{
    domain.ranges();
    out.ranges();
    set.ranges();
    has_none(&InBoth {
        a: InBoth {
            a: InSet { set: domain },
            b: OutOfSet { set: out },
        },
        b: OutOfSet { set },
    })
}

/// Whether what two domains keep has no common value.
fn are_rests_apart(one: &IntSet, out: &IntSet, other: &IntSet, other_out: &IntSet) -> bool
    ensures { result ≡ is_disjoint (less one.now out.now) (less other.now other_out.now) }
{
    one.ranges();
    out.ranges();
    other.ranges();
    other_out.ranges();
    has_none(&InBoth {
        a: InBoth {
            a: InSet { set: one },
            b: OutOfSet { set: out },
        },
        b: InBoth {
            a: InSet { set: other },
            b: OutOfSet { set: other_out },
        },
    })
}

/// Whether the domain has the value and `out` lacks it.
fn is_left(domain: &IntSet, out: &IntSet, v: i64) -> bool
    ensures { result ≡ has (less domain.now out.now) v }
{
    domain.ranges();
    out.ranges();
    domain.contains(v) && !out.contains(v)
}

/// The first value of the domain from the number on that `out` lacks.
#[tactic(auto, using(crate::proofs::CutLaws::rest_first, crate::proofs::CutLaws::rest_none_from))]
fn rest_first(domain: &IntSet, out: &IntSet, from: Number) -> Option<Number>
    ensures some { IfSome result (λ w.
        IsFirst (λ u. has (less domain.now out.now) u) from.value w.value) }
    ensures none { IfNone result (HasNoneFrom (λ u. has (less domain.now out.now) u) from.value) }
{
    domain.ranges();
    out.ranges();
    let left = InBoth {
        a: InSet { set: domain },
        b: OutOfSet { set: out },
    };
    left.next(from)
}

/// The least value of the domain that `out` lacks, 0 where there is none.
fn rest_least(domain: &IntSet, out: &IntSet) -> Number
    ensures { result.value ≡ low_of (less domain.now out.now) }
{
    domain.ranges();
    out.ranges();
    let left = InBoth {
        a: InSet { set: domain },
        b: OutOfSet { set: out },
    };
    match left.next(Number { value: i64::MIN }) {
        Some(n) => n,
        None => Number { value: 0 },
    }
}

/// The greatest value of the domain that `out` lacks, 0 where there is none.
fn rest_greatest(domain: &IntSet, out: &IntSet) -> Number
    ensures { result.value ≡ high_of (less domain.now out.now) }
{
    domain.ranges();
    out.ranges();
    let left = InBoth {
        a: InSet { set: domain },
        b: OutOfSet { set: out },
    };
    match left.previous(Number { value: i64::MAX }) {
        Some(n) => n,
        None => Number { value: 0 },
    }
}

/// The least and the greatest value of the domain that `out` lacks, 0 where there is none.
#[tactic(auto, using(crate::proofs::CutLaws::rest_order, crate::proofs::CutLaws::rest_reach))]
fn rest_ends(domain: &IntSet, out: &IntSet) -> (i64, i64)
    ensures ends { result ≡ (low_of (less domain.now out.now), high_of (less domain.now out.now)) }
    ensures order { low_of (less domain.now out.now) ≤ℤ high_of (less domain.now out.now) }
    ensures reach { reach_of (less domain.now out.now) ≤ reach_of domain.now }
{
    domain.ranges();
    out.ranges();
    (
        rest_least(domain, out).value,
        rest_greatest(domain, out).value,
    )
}
