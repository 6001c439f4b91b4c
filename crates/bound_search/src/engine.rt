//! `Engine`, what a search keeps beside its journal, and one function for each kind of line.
//!
//! Each function writes its line as soon as nothing but memory can be wanting, so that the lines
//! are a run at every time.
ghost use Rattle.std.specs.Prelude.{◌≡◌, ◌<◌, ◌+◌, ◌-◌, ◌*◌, ◌++◌, [], ◌∷◌, true, cond, length, IfOk, OnOk};
ghost use Rattle.ground_form.specs.WellMade.{IsWellMade};
ghost use Rattle.log_form.specs.Acceptance.{clause_at};
ghost use Rattle.branch_choice.specs.declared.split.Order.{Order};
ghost use Rattle.branch_choice.specs.Picks.{Hints};
ghost use Rattle.run_law.specs.Decisions.{decisions};
ghost use Rattle.run_law.specs.Ordered.{IsDecidedBy};
ghost use Rattle.run_law.specs.Replay.{Going, Conflict, acts, is_run, mode_by};
ghost use Rattle.fd_store.specs.Levels.{reacted};
ghost use Rattle.fd_store.specs.Undo.{dropped};
ghost use Rattle.bound_search.specs.Modes.{mode_of};
ghost use Rattle.bound_search.specs.Awaited.{is_sure};
ghost use Rattle.bound_search.specs.Boards.{IsBoard, AreLower};
ghost use Rattle.bound_search.specs.Standing.{IsReason, IsFixed, IsDecision};
ghost use Rattle.bound_search.specs.Engines.{added_of, Shows, Reached, IsKeptBy, IsKept, MayBackjump, IsTurn, IsFall, DecideAlike};

use crate::after::After;
use crate::awaited::keep;
use crate::board::Board;
use crate::repeated::Repeated;
use ground_form::Ground;
use learn_clauses::analyse;
use log_form::Line;
use numbered_clauses::Clauses;
use proof_log::Journal;
use running_clause::RunningClause;
use signed_clause::{Clause, ClauseHandle, IntSet};
use std::alloc::{AllocError, Global};

/// What goes with the lines of a search.
#[derive(Drop)]
pub struct Engine {
    /// Where memory comes from.
    pub alloc: Global,
    /// The boxes, and what is still to be looked at.
    pub board: Board,
    /// The clauses that the lines made, by number.
    pub clauses: Clauses,
    /// Those of the last Bound line, with their numbers.
    pub asked: Vec<(u64, ClauseHandle)>,
    /// Those that were learnt and are true at level 0. No step looks at them.
    pub sure: Vec<ClauseHandle>,
    /// Those that constraints made, found again by what they say.
    pub repeated: Repeated,
    /// The table in which conflicts are analysed.
    pub running: RunningClause,
}

/// Uses the clause of a number, which is false or unit.
pub fn use_clause(
    g: &Ground,
    e: &mut Engine,
    journal: &mut Journal,
    n: u64,
) -> Result<After, AllocError>
    requires at { Shows g.now journal.old.lines e.old Going }
    requires exists { n < length e.old.clauses }
    requires acting { acts e.old.board.store.top.now (clause_at e.old.clauses n) ≡ true }
    ensures kept { IsKept g.now journal.old journal.new }
    ensures at { IfOk result (λ a. Reached g.now journal.new.lines e.new a) }
    ensures turn { IfOk result (λ a. IsTurn e.old e.new a) }
    ensures alike { OnOk result (DecideAlike journal.old.lines journal.new.lines) }
{
    let Some(clause) = e.clauses.get(n) else {
        unreachable!()
    };
    journal.push(Line::Use(n))?;
    let after = e.board.apply(g, n, clause)?;
    Ok(after)
}

/// Writes the clause that a constraint justifies, and that is false or unit.
pub fn add_axiom(
    g: &Ground,
    e: &mut Engine,
    journal: &mut Journal,
    k: u32,
    c: Clause,
) -> Result<After, AllocError>
    requires at { Shows g.now journal.old.lines e.old Going }
    requires reason { IsReason g.now e.old.board.store.top.now k c }
    ensures kept { IsKept g.now journal.old journal.new }
    ensures at { IfOk result (λ a. Reached g.now journal.new.lines e.new a) }
    ensures turn { IfOk result (λ a. IsTurn e.old e.new a) }
    ensures alike { OnOk result (DecideAlike journal.old.lines journal.new.lines) }
{
    let handle = handle_of(e.alloc, c)?;
    journal.push(Line::Axiom(k, handle.copy()?))?;
    let n = e.clauses.count();
    let after = e.board.apply(g, n, handle.clause())?;
    e.repeated.note(handle.clause(), n)?;
    e.clauses.push(handle)?;
    Ok(after)
}

/// Opens a level by a decision, where nothing has anything to say.
pub fn decide(
    g: &Ground,
    e: &mut Engine,
    journal: &mut Journal,
    x: u32,
    half: &IntSet,
) -> Result<(), AllocError>
    requires at { Shows g.now journal.old.lines e.old Going }
    requires fixed { IsFixed g.now e.old.board.store.top.now (added_of e.old) }
    requires decision { IsDecision g.now e.old.board.store.top.now x half.now }
    requires level { length e.old.board.store.below < 4294967295 }
    ensures kept { (order : Order) (hints : Hints)
        → IsDecidedBy order e.old.board.store.top.now hints g.now.search x half.now
        → IsKeptBy g.now order hints journal.old journal.new }
    ensures at { OnOk result (Shows g.now journal.new.lines e.new Going) }
    ensures below { OnOk result (length e.new.board.store.below
        ≡ length e.old.board.store.below + 1) }
    ensures more { OnOk result (decisions journal.new.lines ≡ decisions journal.old.lines + 1) }
{
    journal.push(Line::Decide(x, half.copy()?))?;
    e.board.decide(g, x, half)?;
    Ok(())
}

/// Explains a conflict: levels are dropped, and the learnt clause is used and watched from now on.
pub fn learn(g: &Ground, e: &mut Engine, journal: &mut Journal, n: u64) -> Result<After, AllocError>
    requires at { Shows g.now journal.old.lines e.old (Conflict n) }
    ensures kept { IsKept g.now journal.old journal.new }
    ensures at { IfOk result (λ a. Reached g.now journal.new.lines e.new a) }
    ensures fall { IfOk result (λ a. IsFall e.old e.new a) }
    ensures alike { OnOk result (DecideAlike journal.old.lines journal.new.lines) }
{
    let learnt = analyse(e.alloc, &mut e.running, &e.board.store, &e.clauses, n)?;
    let handle = handle_of(e.alloc, learnt.clause)?;
    journal.push(Line::Chain(learnt.chain, handle.copy()?))?;
    if learnt.level == 0 {
        return Ok(After::Closed);
    }
    let after = backjump(g, e, handle, learnt.level)?;
    Ok(after)
}

/// Backjumps for a learnt clause: its level is dropped, it is applied in the boxes below, and it
/// gets a number and is kept.
fn backjump(
    g: &Ground,
    e: &mut Engine,
    handle: ClauseHandle,
    level: u32,
) -> Result<After, AllocError>
    requires well_made { IsWellMade g.now }
    requires board { IsBoard g.now e.old.board.store e.old.board.queue e.old.board.watches }
    requires lower { AreLower g.now e.old.board.store.top.now e.old.board.store.below }
    requires level { MayBackjump g.now e.old.board.store handle level }
    ensures mode { IfOk result (λ a. mode_of a ≡ mode_by
        (dropped (level - 1) e.old.board.store).top.now (length e.old.clauses) handle) }
    ensures store { OnOk result (e.new.board.store ≡ reacted (length e.old.clauses) handle
        (dropped (level - 1) e.old.board.store)) }
    ensures board { OnOk result
        (IsBoard g.now e.new.board.store e.new.board.queue e.new.board.watches) }
    ensures numbered { OnOk result (e.new.clauses ≡ e.old.clauses ++ handle ∷ []) }
    ensures watched { OnOk result (e.new.board.watches.added
        ≡ cond (is_sure e.new.board.store handle) e.old.board.watches.added
        (e.old.board.watches.added ++ (length e.old.clauses, handle) ∷ [])) }
    ensures sure { OnOk result (e.new.sure.items ≡ cond (is_sure e.new.board.store handle)
        (e.old.sure.items ++ handle ∷ []) e.old.sure.items) }
    ensures asked { OnOk result (e.new.asked.items ≡ e.old.asked.items) }
    ensures table { OnOk result (length e.new.running ≡ length e.old.running) }
{
    e.board.undo_to(g, level - 1);
    let after = e.board.apply(g, e.clauses.count(), handle.clause())?;
    let number = e.clauses.push(handle.copy()?)?;
    keep(
        &mut e.board.watches,
        &mut e.sure,
        &e.board.store,
        number,
        handle,
    )?;
    Ok(after)
}

/// The first owner of the clause, whose literals stand in a block that has room for them and no
/// more.
fn handle_of(alloc: Global, c: Clause) -> Result<ClauseHandle, AllocError>
    ensures { IfOk result (λ h. h ≡ c) }
{
    let exact = c.copy()?;
    match ClauseHandle::of(alloc, exact) {
        Ok(handle) => Ok(handle),
        Err(_) => Err(AllocError),
    }
}
