//! What is done to a store and its clauses, where it may be done.
use fd_store::{Applied, Store};
use learn_clauses::{Clauses, Learnt, analyse};
use running_clause::RunningClause;
use signed_clause::{Clause, ClauseHandle, IntSet};
use std::alloc::{AllocError, Global};
use test_search_checks::{has_boxes, may_analyse};

/// Adds the clause; its number.
pub(crate) fn push(
    alloc: Global,
    clauses: &mut Clauses,
    clause: Clause,
) -> Result<u64, AllocError> {
    match ClauseHandle::of(alloc, clause) {
        Ok(handle) => clauses.push(handle),
        Err(_) => Err(AllocError),
    }
}

/// Whether the clause of the number is false or unit.
pub(crate) fn acts(clauses: &Clauses, number: u64, boxes: &[IntSet]) -> bool {
    match clauses.get(number) {
        Some(clause) => has_boxes(clause, boxes) && clause.acts(boxes),
        None => false,
    }
}

/// The number of the first clause that is false or unit, where there is one.
pub(crate) fn first_acting(clauses: &Clauses, boxes: &[IntSet]) -> Option<u64> {
    for k in 0..clauses.count() {
        if acts(clauses, k, boxes) {
            return Some(k);
        }
    }
    None
}

/// Decides, where the half is some of the box and not all of it; whether that could be done.
pub(crate) fn decide(store: &mut Store, x: u32, half: &IntSet) -> Result<bool, AllocError> {
    let boxes = store.boxes();
    if x as usize >= boxes.len() || half.is_empty() || store.level() >= 1000 {
        return Ok(false);
    }
    if !half.within(&boxes[x as usize]) || boxes[x as usize].within(half) {
        return Ok(false);
    }
    store.decide(x, half)?;
    Ok(true)
}

/// What the clause of the number does, where there is one over the boxes.
pub(crate) fn apply(
    store: &mut Store,
    clauses: &Clauses,
    number: u64,
) -> Result<Option<Applied>, AllocError> {
    match clauses.get(number) {
        Some(clause) if has_boxes(clause, store.boxes()) => Ok(Some(store.apply(number, clause)?)),
        _ => Ok(None),
    }
}

/// What the conflict shows, where it is one that may be analysed.
pub(crate) fn learn(
    alloc: Global,
    store: &Store,
    clauses: &Clauses,
    conflict: u64,
) -> Result<Option<Learnt>, AllocError> {
    let count = store.boxes().len();
    if count >= 1_000_000 || !may_analyse(alloc, store, clauses, conflict)? {
        return Ok(None);
    }
    let mut running = RunningClause::new(alloc, count as u32)?;
    Ok(Some(analyse(alloc, &mut running, store, clauses, conflict)?))
}
