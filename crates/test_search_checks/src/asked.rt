//! Whether a conflict may be analysed.
ghost use Rattle.std.specs.Prelude.{◌≡◌, ◌<◌, true, length, IfOk};
ghost use Rattle.std.specs.List.{All};
ghost use Rattle.signed_clause.specs.Clauses.{false_in};
ghost use Rattle.learn_clauses.specs.Walk.{clause_at};
ghost use Rattle.learn_clauses.specs.Learnt.{domains_of, CameFrom, IsWithinDomains};

use crate::came::domains_behind;
use crate::within::{are_clauses_within, has_boxes};
use fd_store::Store;
use numbered_clauses::Clauses;
use signed_clause::IntSet;
use std::alloc::{AllocError, Global};

/// Whether the clause of the number is false in the boxes.
fn is_false(clauses: &Clauses, number: u64, boxes: &[IntSet]) -> bool
    ensures exists { result ≡ true → number < length clauses.now }
    ensures is_false { result ≡ true → false_in boxes.now (clause_at clauses.now number) ≡ true }
{
    match clauses.get(number) {
        Some(clause) => has_boxes(clause, boxes) && clause.is_false(boxes),
        None => false,
    }
}

/// Whether the conflict of the clause of a number may be analysed: it is false in the present
/// boxes, the prunings came from the clauses, and these lie within the domains. It costs a walk
/// over all entries and all literals.
///
/// # Errors
/// Want of memory.
pub fn may_analyse(
    alloc: Global,
    store: &Store,
    clauses: &Clauses,
    conflict: u64,
) -> Result<bool, AllocError>
    ensures exists { IfOk result (λ b. b ≡ true → conflict < length clauses.now) }
    ensures is_false { IfOk result (λ b. b ≡ true
        → false_in store.now.top.now (clause_at clauses.now conflict) ≡ true) }
    ensures within { IfOk result (λ b. b ≡ true
        → All (λ c. IsWithinDomains (domains_of store.now) c) clauses.now) }
    ensures came { IfOk result (λ b. b ≡ true → CameFrom clauses.now store.now) }
{
    let Some(domains) = domains_behind(alloc, store, clauses)? else {
        return Ok(false);
    };
    Ok(
        is_false(clauses, conflict, store.boxes())
            && are_clauses_within(clauses, domains.as_slice()),
    )
}
