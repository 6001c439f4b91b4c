//! Whether the weights of terms are small.
//!
//! A term weighs what its coefficient times the greatest number of its variable's domain comes to,
//! both without their signs.
ghost use Rattle.std.specs.Prelude.{◌≡◌, ◌<◌, ◌≤◌, ◌^◌, true, length, unsigned_abs, IfSome};
ghost use Rattle.signed_clause.specs.Clauses.{box_of};
ghost use Rattle.ground_form.specs.Bounds.{reach_of, term_weight, weight_of};

use ground_form::ends_of;
use signed_clause::IntSet;

/// The coefficient without its sign.
fn size_of(t: (i64, u32)) -> u128
    ensures { result ≡ unsigned_abs t.0 }
{
    t.0.unsigned_abs() as u128
}

/// The greatest number of a variable's domain, without signs.
fn reach_at(domains: &[IntSet], x: u32) -> u128
    requires { x < length domains.now }
    ensures { result ≡ reach_of (box_of domains.now x) }
{
    let ends = ends_of(&domains[x as usize]);
    ends.0.unsigned_abs().max(ends.1.unsigned_abs()) as u128
}

/// The weight of a term, where its variable has a domain and it is at most `most`.
#[tactic(auto, using(crate::proofs::Making::weight_made))]
fn weight_upto(t: (i64, u32), domains: &[IntSet], most: u128) -> Option<u128>
    ensures weight { IfSome result (λ w. w ≡ term_weight t domains.now) }
    ensures most { IfSome result (λ w. w ≤ most) }
{
    if (t.1 as usize) >= domains.len() {
        return None;
    }
    let w = size_of(t).checked_mul(reach_at(domains, t.1))?;
    if w <= most { Some(w) } else { None }
}

/// Whether the weights of the terms come to at most 2^59.
pub(crate) fn are_light(terms: &[(i64, u32)], domains: &[IntSet]) -> bool
    ensures { result ≡ true → weight_of terms.now domains.now ≤ 2 ^ 59 }
{
    let mut left = 576460752303423488u128;
    for t in terms {
        let Some(w) = weight_upto(*t, domains, left) else {
            return false;
        };
        left -= w;
    }
    true
}
