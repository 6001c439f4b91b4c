//! Chains of resolution.
//!
//! A chain is replayed in a table of sets by variable, which is made once for all chains: its first
//! clause is loaded, each step takes in a clause that was made before, and what is left must be the
//! stated clause. A clause is looked up by its number in constant time, or made anew where it is
//! packed, and a step costs the literals of that clause alone. A chain without steps is a
//! comparison of two clauses.
ghost use Rattle.std.specs.Prelude.{◌≡◌, ◌&&◌, true, IfOk, length, nat_lt};
ghost use Rattle.signed_clause.specs.Clauses.{has_var, resolvent, IsWithinBoxes};
ghost use Rattle.running_clause.specs.Running.{listed};
ghost use Rattle.log_form.specs.Acceptance.{clause_at, chain_holds, chain_end, same_clause};
ghost use Rattle.log_check.specs.Chains.{step_holds, AreBelow};

use crate::store::ClauseStore;
use numbered_clauses::Chain;
use running_clause::RunningClause;
use signed_clause::Clause;
use std::alloc::{AllocError, Global};

/// Whether the chain is one of clauses that were made before, and ends with `stated`.
#[tactic(auto, using(crate::proofs::Within::within_boxes))]
pub fn derives(
    alloc: Global,
    running: &mut RunningClause,
    clauses: &ClauseStore,
    chain: &Chain,
    stated: &Clause,
) -> Result<bool, AllocError>
    requires { AreBelow (length running.old) clauses.now }
    ensures exact { IfOk result (λ b. b ≡ (nat_lt chain.now.first (length clauses.now)
        && (chain_holds clauses.now (clause_at clauses.now chain.now.first) chain.now.steps
        && same_clause
        (chain_end clauses.now (clause_at clauses.now chain.now.first) chain.now.steps)
        stated.now))) }
    ensures len { length running.new ≡ length running.old }
{
    let steps = chain.steps.items();
    if let Some(first) = clauses.kept(chain.first) {
        return leads_from(alloc, running, clauses, first, steps, stated);
    }
    let Some(first) = clauses.make(alloc, chain.first)? else {
        return Ok(false);
    };
    let b = leads_from(alloc, running, clauses, &first, steps, stated)?;
    Ok(b)
}

/// Whether the steps hold from the clause on and end with `stated`.
#[tactic(auto, using(crate::proofs::Within::within_boxes))]
fn leads_from(
    alloc: Global,
    running: &mut RunningClause,
    clauses: &ClauseStore,
    first: &Clause,
    steps: &[(u32, u64)],
    stated: &Clause,
) -> Result<bool, AllocError>
    requires below { AreBelow (length running.old) clauses.now }
    requires within { IsWithinBoxes first.now running.old }
    ensures exact { IfOk result (λ b. b ≡ (chain_holds clauses.now first.now steps.now
        && same_clause (chain_end clauses.now first.now steps.now) stated.now)) }
    ensures len { length running.new ≡ length running.old }
{
    if steps.is_empty() {
        return Ok(is_same(first, stated));
    }
    running.load(first)?;
    if !replays(alloc, running, clauses, steps)? {
        return Ok(false);
    }
    let last = running.take(alloc)?;
    Ok(is_same(&last, stated))
}

/// Whether the steps hold from the running clause on. Where they do, it is what they end with.
fn replays(
    alloc: Global,
    running: &mut RunningClause,
    clauses: &ClauseStore,
    steps: &[(u32, u64)],
) -> Result<bool, AllocError>
    requires { AreBelow (length running.old) clauses.now }
    ensures holds { IfOk result (λ b. b
        ≡ chain_holds clauses.now (listed 0 running.old) steps.now) }
    ensures end { IfOk result (λ b. b ≡ true
        → listed 0 running.new ≡ chain_end clauses.now (listed 0 running.old) steps.now) }
    ensures len { length running.new ≡ length running.old }
{
    for step in steps {
        if !takes_step(alloc, running, clauses, *step)? {
            return Ok(false);
        }
    }
    Ok(true)
}

/// Whether the step's clause was made before, and both clauses have its variable. Where that is so,
/// the running clause becomes their resolvent.
#[tactic(auto, using(crate::proofs::Within::within_boxes))]
fn takes_step(
    alloc: Global,
    running: &mut RunningClause,
    clauses: &ClauseStore,
    step: (u32, u64),
) -> Result<bool, AllocError>
    requires { AreBelow (length running.old) clauses.now }
    ensures holds { IfOk result (λ b. b ≡ step_holds clauses.now (listed 0 running.old) step) }
    ensures list { IfOk result (λ b. b ≡ true
        → listed 0 running.new
        ≡ resolvent step.0 (listed 0 running.old) (clause_at clauses.now step.1)) }
    ensures len { length running.new ≡ length running.old }
{
    if let Some(other) = clauses.kept(step.1) {
        return resolves(running, other, step.0);
    }
    let Some(other) = clauses.make(alloc, step.1)? else {
        return Ok(false);
    };
    let b = resolves(running, &other, step.0)?;
    Ok(b)
}

/// Whether both clauses have the variable. Where that is so, the running clause becomes their
/// resolvent.
fn resolves(running: &mut RunningClause, other: &Clause, x: u32) -> Result<bool, AllocError>
    requires { IsWithinBoxes other.now running.old }
    ensures holds { IfOk result (λ b. b
        ≡ (has_var (listed 0 running.old) x && has_var other.now x)) }
    ensures list { IfOk result (λ b. b ≡ true
        → listed 0 running.new ≡ resolvent x (listed 0 running.old) other.now) }
    ensures len { length running.new ≡ length running.old }
{
    if !running.has(x) || other.set_of(x).is_none() {
        return Ok(false);
    }
    running.resolve(other, x)?;
    Ok(true)
}

/// Whether the two clauses are the same.
#[tactic(auto, using(crate::proofs::ChainSteps::same_is))]
fn is_same(c: &Clause, d: &Clause) -> bool
    ensures { result ≡ same_clause c.now d.now }
{
    c.same(d)
}
