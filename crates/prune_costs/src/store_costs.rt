//! What prunings and undos of boxes of one range cost.
use fd_store::{Applied, Moved, Store};
use ground_form::{Cons, Domains, Goals, Ground};
use signed_clause::{Clause, IntSet};
use std::alloc::{AllocError, Global};
use std::mem;
use test_search_checks::has_boxes;

/// How many variables there are.
const VARIABLES: u32 = 100;

/// A problem of so many variables of the values 0 to 999, with no constraint.
fn problem(alloc: Global) -> Result<Ground, AllocError> {
    let mut domains = Vec::new(alloc);
    for _ in 0..VARIABLES {
        domains.push(IntSet::range(alloc, 0, 999))?;
    }
    Ok(Ground {
        domains: Domains::of(domains),
        search: VARIABLES,
        cons: Cons::of(Vec::new(alloc)),
        goals: Goals::of(Vec::new(alloc)),
    })
}

/// For each variable but the first the clause that it is at most 499.
fn clauses(alloc: Global) -> Result<Vec<Clause>, AllocError> {
    let mut clauses = Vec::new(alloc);
    for x in 1..VARIABLES {
        let literal = (x, IntSet::range(alloc, 0, 499));
        if let Ok(clause) = Clause::of(vec![in alloc; literal]?) {
            clauses.push(clause)?;
        }
    }
    Ok(clauses)
}

/// Opens a level, where the half is some of the first box and not all of it.
fn open(store: &mut Store, half: &IntSet) -> Result<(), AllocError> {
    let boxes = store.boxes();
    if boxes.is_empty() || half.is_empty() || store.level() >= 1000 {
        return Ok(());
    }
    if half.within(&boxes[0]) && !boxes[0].within(half) {
        store.decide(0, half)?;
    }
    Ok(())
}

/// Whether the clause prunes.
fn prunes(store: &mut Store, number: u64, clause: &Clause) -> Result<bool, AllocError> {
    if !has_boxes(clause, store.boxes()) {
        return Ok(false);
    }
    Ok(matches!(store.apply(number, clause)?, Applied::Pruned(_)))
}

/// Opens a level, prunes each of the other boxes and goes back; how many changes that were.
fn round(store: &mut Store, clauses: &[Clause], half: &IntSet) -> Result<u64, AllocError> {
    open(store, half)?;
    let mut changes = 1u64;
    for clause in clauses {
        if prunes(store, 7, clause)? {
            changes = changes.saturating_add(1);
        }
    }
    store.undo_to(0);
    Ok(changes)
}

/// How many changes so many rounds make.
pub(crate) fn changes(alloc: Global, rounds: u32) -> Result<u64, AllocError> {
    let mut store = Store::new(alloc, &problem(alloc)?)?;
    let clauses = clauses(alloc)?;
    let half = IntSet::range(alloc, 0, 499);
    let mut changes = 0u64;
    for _ in 0..rounds {
        changes = changes.saturating_add(round(&mut store, &clauses, &half)?);
    }
    Ok(changes)
}

/// How many bytes an entry of the trail takes.
pub(crate) fn entry_size() -> usize {
    mem::size_of::<Moved>()
}
