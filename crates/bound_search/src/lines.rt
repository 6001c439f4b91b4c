//! Lines up to the next fixpoint of a search.
//!
//! Constraints are asked before clauses, and those that are watched before those of the last Bound
//! line. A constraint that says what was said before uses that clause; else its clause is written.
ghost use Rattle.std.specs.Prelude.{◌≡◌, length, IfOk, OnOk, IfSome};
ghost use Rattle.run_law.specs.Replay.{Going};
ghost use Rattle.bound_search.specs.Standing.{IsReason};
ghost use Rattle.bound_search.specs.Engines.{Shows, Reached, IsKept, IsTurn, DecideAlike, TurnOf, FixedIf};

use crate::after::After;
use crate::awaited::first_acting;
use crate::engine::{Engine, add_axiom, use_clause};
use ground_form::Ground;
use proof_log::Journal;
use rule_law::Kit;
use signed_clause::Clause;
use std::alloc::AllocError;

/// Uses the clause that constraint `k` has to say, where it was said before; else writes it.
fn explain(
    g: &Ground,
    e: &mut Engine,
    journal: &mut Journal,
    k: u32,
    c: Clause,
) -> Result<After, AllocError>
    requires at { Shows g.now journal.old.lines e.old Going }
    requires reason { IsReason g.now e.old.board.store.top.now k c }
    ensures kept { IsKept g.now journal.old journal.new }
    ensures at { IfOk result (λ a. Reached g.now journal.new.lines e.new a) }
    ensures turn { IfOk result (λ a. IsTurn e.old e.new a) }
    ensures alike { OnOk result (DecideAlike journal.old.lines journal.new.lines) }
{
    match e.repeated.find(&e.clauses, &c) {
        Some(n) => use_clause(g, e, journal, n),
        None => add_axiom(g, e, journal, k, c),
    }
}

/// One line, where a constraint or a clause has something to say; else it is a fixpoint.
pub fn propagate_once(
    g: &Ground,
    kit: &mut Kit,
    e: &mut Engine,
    journal: &mut Journal,
) -> Result<Option<After>, AllocError>
    requires at { Shows g.now journal.old.lines e.old Going }
    ensures kept { IsKept g.now journal.old journal.new }
    ensures at { IfOk result (λ o. TurnOf g.now journal.new.lines e.new o) }
    ensures turn { IfOk result (λ o. IfSome o (λ a. IsTurn e.old e.new a)) }
    ensures below { OnOk result (length e.new.board.store.below
        ≡ length e.old.board.store.below) }
    ensures alike { OnOk result (DecideAlike journal.old.lines journal.new.lines) }
{
    if let Some((k, c)) = e.board.next_cause(e.alloc, g, kit)? {
        let after = explain(g, e, journal, k, c)?;
        return Ok(Some(after));
    }
    if let Some(n) = e.board.next_clause(g)? {
        let after = use_clause(g, e, journal, n)?;
        return Ok(Some(after));
    }
    match first_acting(e.asked.as_slice(), e.board.store.boxes()) {
        None => Ok(None),
        Some(k) => {
            let n = e.asked[k].0;
            let after = use_clause(g, e, journal, n)?;
            Ok(Some(after))
        }
    }
}

/// Lines up to a fixpoint, a conflict, or the end.
pub fn propagate(
    g: &Ground,
    kit: &mut Kit,
    e: &mut Engine,
    journal: &mut Journal,
) -> Result<After, AllocError>
    requires at { Shows g.now journal.old.lines e.old Going }
    ensures kept { IsKept g.now journal.old journal.new }
    ensures at { IfOk result (λ a. Reached g.now journal.new.lines e.new a) }
    ensures fixed { IfOk result (λ a. FixedIf g.now e.new a) }
    ensures below { OnOk result (length e.new.board.store.below
        ≡ length e.old.board.store.below) }
    ensures alike { OnOk result (DecideAlike journal.old.lines journal.new.lines) }
{
    'lines: loop {
        match propagate_once(g, kit, e, journal)? {
            None => return Ok(After::Going),
            Some(After::Going) => {}
            Some(After::Conflict(n)) => return Ok(After::Conflict(n)),
            Some(After::Closed) => return Ok(After::Closed),
        }
    }
}
