//! What the walk back from a conflict costs, where it touches the newest entries alone.
ghost use Rattle.std.specs.Prelude.{◌≡◌, ◌<◌, ◌≤◌, true, length};
ghost use Rattle.std.specs.List.{All};
ghost use Rattle.signed_clause.specs.Clauses.{false_in};
ghost use Rattle.learn_clauses.specs.Walk.{clause_at};
ghost use Rattle.learn_clauses.specs.Learnt.{domains_of, CameFrom, IsWithinDomains};

use fd_store::{Applied, Store};
use ground_form::{Cons, Domains, Goals, Ground};
use learn_clauses::{Clauses, analyse};
use running_clause::RunningClause;
use signed_clause::{Clause, ClauseHandle, IntSet};
use std::alloc::{AllocError, Global};
use std::rt::Runtime;
use test_clock::Clock;
use test_search_checks::{has_boxes, may_analyse};

/// How many prunings a conflict goes back over.
pub(crate) const TOUCHED: u32 = 200;

/// The set of the one number.
fn single(alloc: Global, v: i64) -> IntSet {
    IntSet::range(alloc, v, v)
}

/// A problem of so many variables of the values 0 and 1.
fn problem(alloc: Global, count: u32) -> Result<Ground, AllocError> {
    let mut domains = Vec::new(alloc);
    for _ in 0..count {
        domains.push(IntSet::range(alloc, 0, 1))?;
    }
    Ok(Ground {
        domains: Domains::of(domains),
        search: count,
        cons: Cons::of(Vec::new(alloc)),
        goals: Goals::of(Vec::new(alloc)),
    })
}

/// Adds the clause of these literals; its number.
fn push(
    alloc: Global,
    clauses: &mut Clauses,
    literals: Vec<(u32, IntSet)>,
) -> Result<u64, AllocError> {
    let Ok(clause) = Clause::of(literals) else {
        return Err(AllocError);
    };
    match ClauseHandle::of(alloc, clause) {
        Ok(handle) => clauses.push(handle),
        Err(_) => Err(AllocError),
    }
}

/// For each variable but the first the clause that it is 1, if the one before it is; and last the
/// one that the last is 0, if the one before it is 1.
fn clauses(alloc: Global, count: u32) -> Result<Clauses, AllocError> {
    let mut clauses = Clauses::new(alloc);
    for x in 1..count {
        let literals = vec![in alloc; (x - 1, single(alloc, 0)), (x, single(alloc, 1))]?;
        push(alloc, &mut clauses, literals)?;
    }
    if count >= 2 {
        let literals = vec![in alloc;
            (count - 2, single(alloc, 0)),
            (count - 1, single(alloc, 0)),
        ]?;
        push(alloc, &mut clauses, literals)?;
    }
    Ok(clauses)
}

/// Decides that the variable is 1, where it may be both.
fn decide(alloc: Global, store: &mut Store, x: u32) -> Result<(), AllocError> {
    let boxes = store.boxes();
    let one = single(alloc, 1);
    if x as usize >= boxes.len() || one.is_empty() || store.level() >= 1000 {
        return Ok(());
    }
    if one.within(&boxes[x as usize]) && !boxes[x as usize].within(&one) {
        store.decide(x, &one)?;
    }
    Ok(())
}

/// Whether the clause of the number is false.
fn is_conflict(store: &mut Store, clauses: &Clauses, number: u64) -> Result<bool, AllocError> {
    match clauses.get(number) {
        Some(clause) if has_boxes(clause, store.boxes()) => {
            Ok(matches!(store.apply(number, clause)?, Applied::Conflict))
        }
        _ => Ok(false),
    }
}

/// A trail that ends in the conflict of a clause.
#[derive(Drop)]
pub(crate) struct Bench {
    store: Store,
    clauses: Clauses,
    conflict: u64,
}

/// A trail of so many entries, of which the last `TOUCHED` and their decision have a part in the
/// conflict.
pub(crate) fn long_trail(alloc: Global, entries: u32) -> Result<Bench, AllocError> {
    let count = entries.max(TOUCHED.saturating_add(2));
    let g = problem(alloc, count)?;
    let clauses = clauses(alloc, count)?;
    let mut store = Store::new(alloc, &g)?;
    decide(alloc, &mut store, 0)?;
    let second = count.saturating_sub(TOUCHED).saturating_sub(1);
    for x in 1..second {
        is_conflict(&mut store, &clauses, u64::from(x.saturating_sub(1)))?;
    }
    decide(alloc, &mut store, second)?;
    for x in second..count {
        is_conflict(&mut store, &clauses, u64::from(x))?;
    }
    Ok(Bench {
        store,
        clauses,
        conflict: u64::from(count.saturating_sub(1)),
    })
}

/// Walks back so many times; how many steps the last walk has.
fn walks(
    alloc: Global,
    running: &mut RunningClause,
    store: &Store,
    clauses: &Clauses,
    conflict: u64,
    times: u32,
) -> Result<usize, AllocError>
    requires room { length store.now.top.now ≤ length running.old }
    requires exists { conflict < length clauses.now }
    requires is_false { false_in store.now.top.now (clause_at clauses.now conflict) ≡ true }
    requires within { All (λ c. IsWithinDomains (domains_of store.now) c) clauses.now }
    requires came { CameFrom clauses.now store.now }
{
    let mut steps = 0;
    for k in 0..times {
        let learnt = analyse(alloc, running, store, clauses, conflict)?;
        steps = learnt.chain.steps.items().len();
    }
    Ok(steps)
}

/// What walks cost.
#[derive(Clone, Copy)]
pub(crate) struct WalkCost {
    /// How many entries the trail has.
    pub(crate) entries: usize,
    /// How many steps a walk has.
    pub(crate) steps: usize,
    /// How many nanoseconds all walks took.
    pub(crate) spent: u128,
}

/// Walks back so many times; None where the trail ends in no conflict.
pub(crate) fn walked<R: Runtime>(
    rt: &R,
    alloc: Global,
    bench: &Bench,
    times: u32,
) -> Result<Option<WalkCost>, AllocError> {
    let count = bench.store.boxes().len();
    if count >= 1_000_000 || !may_analyse(alloc, &bench.store, &bench.clauses, bench.conflict)? {
        return Ok(None);
    }
    let mut running = RunningClause::new(alloc, count as u32)?;
    let clock = Clock::start(rt);
    let steps = walks(
        alloc,
        &mut running,
        &bench.store,
        &bench.clauses,
        bench.conflict,
        times,
    )?;
    Ok(Some(WalkCost {
        entries: bench.store.trail().len(),
        steps,
        spent: clock.passed(rt),
    }))
}
