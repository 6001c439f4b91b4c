//! Clauses that a run has to wait for, and that aren't watched: those of the last Bound line, which
//! are few, and learnt clauses that are true at level 0, which have nothing more to say.
ghost use Rattle.std.specs.Prelude.{◌≡◌, ◌<◌, ◌++◌, ◌∷◌, [], ℕ, true, false, cond, length, OnOk, IfSome, IfNone};
ghost use Rattle.std.specs.List.{All};
ghost use Rattle.signed_clause.specs.SetAlgebra.{is_within};
ghost use Rattle.signed_clause.specs.Clauses.{box_of, IsWithinBoxes};
ghost use Rattle.ground_form.specs.declared.ground.Ground.{Ground};
ghost use Rattle.fd_store.specs.Levels.{Stack};
ghost use Rattle.prop_queue.specs.Work.{Work};
ghost use Rattle.clause_watches.specs.Watching.{acts, clause_of};
ghost use Rattle.bound_search.specs.Awaited.{holds_in, is_sure};
ghost use Rattle.bound_search.specs.Boards.{IsBoard};

use clause_watches::Watches;
use fd_store::Store;
use signed_clause::{Clause, ClauseHandle, IntSet};
use std::alloc::AllocError;

/// Which of the clauses is the first that is false or unit.
pub fn first_acting(asked: &[(u64, ClauseHandle)], boxes: &[IntSet]) -> Option<usize>
    requires { All (λ p. IsWithinBoxes p.1 boxes.now) asked.now }
    ensures there { IfSome result (λ k. k < length asked.now) }
    ensures acting { IfSome result (λ k. acts boxes.now (clause_of asked.now k) ≡ true) }
    ensures none { IfNone result ((i : ℕ) → i < length asked.now
        → acts boxes.now (clause_of asked.now i) ≡ false) }
{
    for k in 0..asked.len() {
        if asked[k].1.clause().acts(boxes) {
            return Some(k);
        }
    }
    None
}

/// Whether a literal's set has all values of its box.
fn has_whole_box(l: &(u32, IntSet), boxes: &[IntSet]) -> bool
    requires { l.now.0 < length boxes.now }
    ensures { result ≡ is_within (box_of boxes.now l.now.0) l.now.1 }
{
    boxes[l.0 as usize].within(&l.1)
}

/// Whether the clause is true whatever values of their boxes its variables take.
fn holds(c: &Clause, boxes: &[IntSet]) -> bool
    requires vars { IsWithinBoxes c.now boxes.now }
    ensures { result ≡ holds_in boxes.now c.now }
{
    for l in c.literals() {
        if has_whole_box(l, boxes) {
            return true;
        }
    }
    false
}

/// Keeps a learnt clause: among those that are true at level 0, where it is one, else watched.
pub fn keep(
    watches: &mut Watches,
    sure: &mut Vec<ClauseHandle>,
    store: &Store,
    number: u64,
    handle: ClauseHandle,
) -> Result<(), AllocError>
    requires vars { IsWithinBoxes handle store.now.top.now }
    requires variables { watches.old.variables ≡ length store.now.top.now }
    ensures watched { OnOk result (watches.new.added ≡ cond (is_sure store.now handle)
        watches.old.added (watches.old.added ++ (number, handle) ∷ [])) }
    ensures sure { OnOk result (sure.new.items ≡ cond (is_sure store.now handle)
        (sure.old.items ++ handle ∷ []) sure.old.items) }
    ensures board { OnOk result ((g : Ground) (s : Stack) (work : Work)
        → IsBoard g s work watches.old → IsBoard g s work watches.new) }
{
    if store.level() == 0 && holds(handle.clause(), store.boxes()) {
        sure.push(handle)?;
    } else {
        watches.add(number, handle)?;
    }
    Ok(())
}
