//! The walk back from a conflict, written out: boxes are whole, and clauses are lists.
use fd_store::{Moved, Store};
use ground_form::copy_sets;
use numbered_clauses::Clauses;
use signed_clause::{Clause, IntSet, resolve};
use std::alloc::{AllocError, Global};
use test_search_checks::has_boxes;

/// What a walk ends with.
#[derive(Drop)]
pub(crate) struct Walked {
    /// The clause.
    pub(crate) clause: Clause,
    /// The variables and clauses that were resolved on.
    pub(crate) steps: Vec<(u32, u64)>,
}

/// Whether the clause is false in the boxes.
fn is_false(clause: &Clause, boxes: &[IntSet]) -> bool {
    has_boxes(clause, boxes) && clause.is_false(boxes)
}

/// Puts the entry's box back.
fn put_back(boxes: &mut Vec<IntSet>, entry: &Moved) -> Result<(), AllocError> {
    let x = entry.var as usize;
    if x < boxes.len() {
        boxes[x] = entry.before.copy()?;
    }
    Ok(())
}

/// The resolvent of the clause and the one of the number, where both have a literal of `x`.
fn resolved(
    alloc: Global,
    clause: &Clause,
    clauses: &Clauses,
    number: u64,
    x: u32,
) -> Result<Option<Clause>, AllocError> {
    match clauses.get(number) {
        Some(other) if clause.set_of(x).is_some() && other.set_of(x).is_some() => {
            Ok(Some(resolve(alloc, clause, other, x)?))
        }
        _ => Ok(None),
    }
}

/// Does at an entry what the walk does: whether it goes on. The boxes are those before the entry.
fn turn(
    alloc: Global,
    walked: &mut Walked,
    entry: &Moved,
    clauses: &Clauses,
    before: &[IntSet],
) -> Result<bool, AllocError> {
    if is_false(&walked.clause, before) {
        return Ok(true);
    }
    let Some(number) = entry.from else {
        return Ok(false);
    };
    match resolved(alloc, &walked.clause, clauses, number, entry.var)? {
        Some(clause) => {
            walked.clause = clause;
            walked.steps.push((entry.var, number))?;
            Ok(true)
        }
        None => Ok(false),
    }
}

/// The walk from the clause of the number.
pub(crate) fn walk(
    alloc: Global,
    store: &Store,
    clauses: &Clauses,
    conflict: u64,
) -> Result<Option<Walked>, AllocError> {
    let Some(first) = clauses.get(conflict) else {
        return Ok(None);
    };
    let mut walked = Walked {
        clause: first.copy()?,
        steps: Vec::new(alloc),
    };
    let mut boxes = copy_sets(alloc, store.boxes())?;
    for entry in store.trail().iter().rev() {
        put_back(&mut boxes, entry)?;
        if !turn(alloc, &mut walked, entry, clauses, boxes.as_slice())? {
            break;
        }
    }
    Ok(Some(walked))
}

/// The highest level whose first boxes make the clause false while those before them don't; 0 where
/// there is none.
pub(crate) fn dropped_level(
    alloc: Global,
    store: &Store,
    clause: &Clause,
) -> Result<u32, AllocError> {
    let mut boxes = copy_sets(alloc, store.boxes())?;
    let mut level = store.level();
    for entry in store.trail().iter().rev() {
        let behind = is_false(clause, boxes.as_slice());
        put_back(&mut boxes, entry)?;
        if entry.from.is_none() {
            if behind && !is_false(clause, boxes.as_slice()) {
                return Ok(level);
            }
            level = level.saturating_sub(1);
        }
    }
    Ok(0)
}
