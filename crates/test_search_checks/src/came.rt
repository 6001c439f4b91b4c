//! Whether the prunings of a trail came from clauses.
ghost use Rattle.std.specs.Prelude.{◌≡◌, ◌<◌, true, length, Some, IfOk, IfSome};
ghost use Rattle.signed_clause.specs.Clauses.{unit_of};
ghost use Rattle.learn_clauses.specs.Learnt.{domains_of, CameFrom, IsFrom};
ghost use Rattle.test_search_checks.specs.Backwards.{IsStepBack};

use crate::within::has_boxes;
use fd_store::{Moved, Store};
use ground_form::copy_sets;
use numbered_clauses::Clauses;
use signed_clause::{Clause, IntSet};
use std::alloc::{AllocError, Global};
use std::mem;

/// Whether the variable of a unit clause is `x`, and `now` what it leaves.
fn is_from_clause(
    clause: &Clause,
    before: &[IntSet],
    x: u32,
    now: &IntSet,
) -> Result<bool, AllocError>
    ensures { IfOk result (λ from. from ≡ true
        → unit_of before.now clause.now ≡ Some (x, now.now)) }
{
    if !has_boxes(clause, before) {
        return Ok(false);
    }
    match clause.unit(before)? {
        Some((y, set)) => Ok(x == y && set.same(now)),
        None => Ok(false),
    }
}

/// Whether a change of the box of `x` to `now` came from a clause, or was a decision.
fn is_from(
    from: Option<u64>,
    clauses: &Clauses,
    before: &[IntSet],
    x: u32,
    now: &IntSet,
) -> Result<bool, AllocError>
    ensures { IfOk result (λ b. b ≡ true → IsFrom from clauses.now before.now x now.now) }
{
    match from {
        None => Ok(true),
        Some(j) => match clauses.get(j) {
            Some(clause) => is_from_clause(clause, before, x, now),
            None => Ok(false),
        },
    }
}

/// Takes an entry back, and whether it came from a clause.
fn step_back(boxes: &mut Vec<IntSet>, entry: &Moved, clauses: &Clauses) -> Result<bool, AllocError>
    ensures { IfOk result (λ b. b ≡ true
        → IsStepBack clauses.now entry.now boxes.old.items boxes.new.items) }
{
    let x = entry.var;
    if x as usize >= boxes.len() {
        return Ok(false);
    }
    let before = entry.before.copy()?;
    let now = mem::replace(&mut boxes[x as usize], before);
    is_from(entry.from, clauses, boxes.as_slice(), x, &now)
}

/// The boxes with which level 0 began, where each pruning came from the clauses, and else None.
///
/// # Errors
/// Want of memory.
#[tactic(auto, using(crate::proofs::WalkBack::back_ends, crate::proofs::WalkBack::back_domains))]
pub(crate) fn domains_behind(
    alloc: Global,
    store: &Store,
    clauses: &Clauses,
) -> Result<Option<Vec<IntSet>>, AllocError>
    ensures came { IfOk result (λ o. IfSome o (λ _. CameFrom clauses.now store.now)) }
    ensures domains { IfOk result (λ o. IfSome o (λ d. d.items ≡ domains_of store.now)) }
{
    let trail = store.trail();
    let mut boxes = copy_sets(alloc, store.boxes())?;
    let mut left = trail.len();
    while left > 0 {
        left -= 1;
        if !step_back(&mut boxes, &trail[left], clauses)? {
            return Ok(None);
        }
    }
    Ok(Some(boxes))
}
