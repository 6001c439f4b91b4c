//! `analyse`, the walk back from a conflict.
//!
//! A clause is false in the present boxes. The walk looks at the trail's entries from the last to
//! the first. An entry before which the clause was false already is passed over: it had no part in
//! the conflict. At another pruning the clause is resolved with the one that pruned, so that it is
//! false before the entry too. At a decision the walk ends, and what it has come to is the learnt
//! clause: once the decision's level is dropped it is no longer false. Where no decision stops the
//! walk the clause comes to be the empty one.
//!
//! The clause runs in a table by variable (`RunningClause`), so a step costs the literals of the
//! other clause alone, and an entry that is passed over one look-up and one test of two sets.
ghost use Rattle.std.specs.Prelude.{◌≡◌, ◌<◌, ◌≤◌, ◌↔◌, [], ℕ, true, false, length, IfOk, OnOk, Some};
ghost use Rattle.std.specs.List.{All};
ghost use Rattle.signed_clause.specs.Clauses.{has_var, false_in, resolvent, IsClause, IsWithinBoxes};
ghost use Rattle.running_clause.specs.Running.{listed};
ghost use Rattle.learn_clauses.specs.Walk.{clause_at, walk_from};
ghost use Rattle.learn_clauses.specs.Learnt.{domains_of, CameFrom, IsWithinDomains, IsDroppedBy, IsLearnt};
ghost use Rattle.learn_clauses.specs.Turns.{is_passed, ends_at, next_clause, next_steps, IsReadable, IsResolvable, IsStart};

use fd_store::{Moved, Store};
use numbered_clauses::{Chain, ChainSteps, Clauses};
use running_clause::RunningClause;
use signed_clause::Clause;
use std::alloc::{AllocError, Global};

/// What a conflict shows.
#[derive(Drop)]
pub struct Learnt {
    /// The learnt clause.
    pub clause: Clause,
    /// How it is made of the clauses.
    pub chain: Chain,
    /// The level that it drops, 0 where it is the empty clause.
    pub level: u32,
}

/// The clause that a conflict shows: the walk back along the trail, from the clause of the number
/// `conflict`, which is false in the present boxes.
///
/// `running` is a table over at least the store's variables, made once and used again and again.
/// The call costs one look-up for each entry that it passes, the literals of each clause that it
/// resolves with, and the learnt clause, whose sets are moved.
///
/// # Errors
/// Want of memory; `running` may be used again.
pub fn analyse(
    alloc: Global,
    running: &mut RunningClause,
    store: &Store,
    clauses: &Clauses,
    conflict: u64,
) -> Result<Learnt, AllocError>
    requires room { length store.now.top.now ≤ length running.old }
    requires exists { conflict < length clauses.now }
    requires is_false { false_in store.now.top.now (clause_at clauses.now conflict) ≡ true }
    requires within { All (λ c. IsWithinDomains (domains_of store.now) c) clauses.now }
    requires came { CameFrom clauses.now store.now }
    ensures first { IfOk result (λ l. l.chain.first ≡ conflict) }
    ensures walk { IfOk result (λ l. walk_from store.now clauses.now conflict
        ≡ Some (record { steps = l.chain.steps; clause = l.clause })) }
    ensures form { IfOk result (λ l. IsClause l.clause) }
    ensures within { IfOk result (λ l. IsWithinDomains (domains_of store.now) l.clause) }
    ensures closes { IfOk result (λ l. (l.level ≡ 0) ↔ (l.clause ≡ [])) }
    ensures drops { IfOk result (λ l. 0 < l.level → IsDroppedBy l.clause store.now l.level) }
    ensures len { length running.new ≡ length running.old }
{
    let mut steps = Vec::new(alloc);
    let level = walk_back(running, store, clauses, conflict, &mut steps)?;
    let clause = running.take(alloc)?;
    let chain = Chain {
        first: conflict,
        steps: ChainSteps::of(steps),
    };
    Ok(Learnt {
        clause,
        chain,
        level,
    })
}

/// Walks back over the entries from the clause of the number `conflict`, which then runs in the
/// table. It answers the level of the decision where the walk ends, 0 where none ends it.
fn walk_back(
    running: &mut RunningClause,
    store: &Store,
    clauses: &Clauses,
    conflict: u64,
    steps: &mut Vec<(u32, u64)>,
) -> Result<u32, AllocError>
    requires start { IsStart clauses.now store.now (length running.old) conflict }
    requires none { steps.old.items ≡ [] }
    ensures learnt { IfOk result (λ level.
        IsLearnt clauses.now store.now conflict (listed 0 running.new) steps.new.items level) }
    ensures len { length running.new ≡ length running.old }
{
    let trail = store.trail();
    load(running, clauses, conflict)?;
    let mut left = trail.len();
    while left > 0 {
        left -= 1;
        let entry = &trail[left];
        if resolve_entry(running, entry, clauses, steps)? {
            return Ok(entry.level);
        }
    }
    Ok(0)
}

/// What an entry does to the walk: whether it ends there, and else the clause before the entry.
fn resolve_entry(
    running: &mut RunningClause,
    entry: &Moved,
    clauses: &Clauses,
    steps: &mut Vec<(u32, u64)>,
) -> Result<bool, AllocError>
    requires var { entry.now.var < length running.old }
    requires step { (j : ℕ) → entry.now.from ≡ Some j
        → is_passed entry.now (listed 0 running.old) ≡ false
        → IsResolvable clauses.now (listed 0 running.old) entry.now.var j running.old }
    ensures ends { IfOk result (λ b. b ≡ ends_at entry.now (listed 0 running.old)) }
    ensures clause { OnOk result (listed 0 running.new
        ≡ next_clause clauses.now entry.now (listed 0 running.old)) }
    ensures steps { OnOk result (steps.new.items
        ≡ next_steps entry.now (listed 0 running.old) steps.old.items) }
    ensures form { OnOk result ((j : ℕ) → entry.now.from ≡ Some j
        → is_passed entry.now (listed 0 running.old) ≡ false → IsClause (clause_at clauses.now j)) }
    ensures len { length running.new ≡ length running.old }
{
    if is_passed(running, entry) {
        return Ok(false);
    }
    match entry.from {
        None => Ok(true),
        Some(j) => {
            resolve(running, clauses, entry.var, j)?;
            steps.push((entry.var, j))?;
            Ok(false)
        }
    }
}

/// Whether the clause is false before an entry too: one look-up, and one test of two sets.
fn is_passed(running: &RunningClause, entry: &Moved) -> bool
    requires { entry.now.var < length running.now }
    ensures { result ≡ is_passed entry.now (listed 0 running.now) }
{
    running.set_of(entry.var).disjoint(&entry.before)
}

/// Makes the running clause the one of a number.
fn load(running: &mut RunningClause, clauses: &Clauses, number: u64) -> Result<(), AllocError>
    requires { IsReadable clauses.now number running.old }
    ensures clause { OnOk result (listed 0 running.new ≡ clause_at clauses.now number) }
    ensures form { OnOk result (IsClause (clause_at clauses.now number)) }
    ensures len { length running.new ≡ length running.old }
{
    let Some(clause) = clauses.get(number) else {
        unreachable!()
    };
    running.load(clause)
}

/// Resolves the running clause with the one of a number.
fn resolve(
    running: &mut RunningClause,
    clauses: &Clauses,
    x: u32,
    number: u64,
) -> Result<(), AllocError>
    requires { IsResolvable clauses.now (listed 0 running.old) x number running.old }
    ensures clause { OnOk result (listed 0 running.new
        ≡ resolvent x (listed 0 running.old) (clause_at clauses.now number)) }
    ensures form { OnOk result (IsClause (clause_at clauses.now number)) }
    ensures len { length running.new ≡ length running.old }
{
    let Some(clause) = clauses.get(number) else {
        unreachable!()
    };
    running.resolve(clause, x)
}
