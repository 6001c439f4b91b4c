//! Whether clauses speak of variables that have boxes, and of values of the domains alone.
ghost use Rattle.std.specs.Prelude.{◌≡◌, ◌<◌, true, length};
ghost use Rattle.std.specs.List.{All};
ghost use Rattle.signed_clause.specs.Clauses.{IsWithinBoxes, box_of};
ghost use Rattle.signed_clause.specs.Ranges.{IsSubset};
ghost use Rattle.learn_clauses.specs.Walk.{clause_at};
ghost use Rattle.learn_clauses.specs.Learnt.{IsWithinDomains};

use numbered_clauses::Clauses;
use signed_clause::{Clause, IntSet};

/// Whether each variable of the clause has a box.
pub fn has_boxes(clause: &Clause, boxes: &[IntSet]) -> bool
    ensures { result ≡ true → IsWithinBoxes clause.now boxes.now }
{
    let literals = clause.literals();
    for l in literals {
        if l.0 as usize >= boxes.len() {
            return false;
        }
    }
    true
}

/// Whether the set lies within the domain of `x`.
fn is_within_domain(domains: &[IntSet], x: u32, set: &IntSet) -> bool
    ensures { result ≡ true → IsSubset set.now (box_of domains.now x) }
{
    (x as usize) < domains.len() && set.within(&domains[x as usize])
}

/// Whether each literal's set lies within its variable's domain.
fn are_literals_within(literals: &[(u32, IntSet)], domains: &[IntSet]) -> bool
    ensures { result ≡ true → All (λ l. IsSubset l.1 (box_of domains.now l.0)) literals.now }
{
    for l in literals {
        if !is_within_domain(domains, l.0, &l.1) {
            return false;
        }
    }
    true
}

/// Whether each set of the clause lies within its variable's domain.
#[tactic(auto, using(crate::proofs::WithinDomains::clause_within))]
fn is_clause_within(clause: &Clause, domains: &[IntSet]) -> bool
    ensures { result ≡ true → IsWithinDomains domains.now clause.now }
{
    are_literals_within(clause.literals(), domains)
}

/// Whether each set of the clause of the number lies within its variable's domain.
fn is_number_within(clauses: &Clauses, k: u64, domains: &[IntSet]) -> bool
    ensures { result ≡ true → IsWithinDomains domains.now (clause_at clauses.now k) }
{
    match clauses.get(k) {
        Some(clause) => is_clause_within(clause, domains),
        None => false,
    }
}

/// Whether each set of each clause lies within its variable's domain.
#[tactic(auto, using(crate::proofs::WithinDomains::all_within))]
pub(crate) fn are_clauses_within(clauses: &Clauses, domains: &[IntSet]) -> bool
    ensures { result ≡ true → All (λ c. IsWithinDomains domains.now c) clauses.now }
{
    for k in 0..clauses.count() {
        if !is_number_within(clauses, k, domains) {
            return false;
        }
    }
    true
}
