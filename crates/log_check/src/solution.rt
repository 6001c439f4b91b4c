//! Found lines: whether values solve the problem, and whether they are better than others.
ghost use Rattle.std.specs.Prelude.{◌≡◌, ◌<◌, true, length, int_lt, if◌then◌else◌};
ghost use Rattle.std.specs.List.{All};
ghost use Rattle.ground_form.specs.Solutions.{better};
ghost use Rattle.signed_clause.specs.Ranges.{IsValid};
ghost use Rattle.ground_form.specs.Meaning.{con_true};
ghost use Rattle.ground_form.specs.WellMade.{IsWellMadeCon};
ghost use Rattle.log_form.specs.Acceptance.{point_of, all_true, states};

use ground_form::{Con, GroundGoal, holds_at};
use signed_clause::IntSet;

/// Whether there is one value for each domain, and it lies in it.
#[tactic(auto, using(crate::proofs::Points::point_size))]
pub fn is_point(domains: &[IntSet], values: &[i64]) -> bool
    ensures { result ≡ point_of domains.now values.now }
{
    if domains.len() != values.len() {
        return false;
    }
    for (x, domain) in domains.iter().enumerate() {
        if !domain.contains(values[x]) {
            return false;
        }
    }
    true
}

/// Whether every constraint is true at the values.
pub fn are_all_true(domains: &[IntSet], cons: &[Con], values: &[i64]) -> bool
    requires sets { All (λ s. IsValid s) domains.now }
    requires point { point_of domains.now values.now ≡ true }
    requires made { All (λ con. IsWellMadeCon domains.now con) cons.now }
    ensures { result ≡ all_true cons.now values.now }
{
    for con in cons {
        if !is_true(domains, con, values) {
            return false;
        }
    }
    true
}

/// Whether a constraint is true at the values.
#[tactic(auto, using(crate::proofs::Points::named_at, crate::proofs::Points::bounded_at))]
fn is_true(domains: &[IntSet], con: &Con, values: &[i64]) -> bool
    requires sets { All (λ s. IsValid s) domains.now }
    requires point { point_of domains.now values.now ≡ true }
    requires made { IsWellMadeCon domains.now con.now }
    ensures { result ≡ con_true con.now values.now }
{
    holds_at(con, values)
}

/// Whether the first values are better by the goals.
pub fn is_better(goals: &[GroundGoal], values: &[i64], others: &[i64]) -> bool
    requires values { All (λ goal. goal.var < length values.now) goals.now }
    requires others { All (λ goal. goal.var < length others.now) goals.now }
    ensures { result ≡ better goals.now values.now others.now }
{
    for goal in goals {
        let x = goal.var as usize;
        if values[x] != others[x] {
            return is_beyond(goal.max, (values[x], others[x]));
        }
    }
    false
}

/// Whether the first of two values is better in the direction.
fn is_beyond(max: bool, pair: (i64, i64)) -> bool
    ensures { result ≡ (if max then int_lt pair.1 pair.0 else int_lt pair.0 pair.1) }
{
    if max {
        pair.1 < pair.0
    } else {
        pair.0 < pair.1
    }
}

/// Whether the stated values are those of the goals.
#[tactic(auto, using(crate::proofs::Points::states_differ))]
pub fn are_goal_values(goals: &[GroundGoal], values: &[i64], stated: &[i64]) -> bool
    requires { All (λ goal. goal.var < length values.now) goals.now }
    ensures { result ≡ states goals.now values.now stated.now }
{
    if goals.len() != stated.len() {
        return false;
    }
    for (k, goal) in goals.iter().enumerate() {
        if stated[k] != values[goal.var as usize] {
            return false;
        }
    }
    true
}
