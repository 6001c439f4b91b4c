//! On to the next decision of a search, or to its end.
ghost use Rattle.std.specs.Prelude.{◌≡◌, ◌≤◌, length, IfOk, OnOk};
ghost use Rattle.run_law.specs.Replay.{Going};
ghost use Rattle.bound_search.specs.Standing.{IsFixed};
ghost use Rattle.bound_search.specs.Engines.{added_of, Shows, IsKept, DecideAlike, StepOf, SettledOf};

use crate::after::After;
use crate::bounding::record_solution;
use crate::engine::{Engine, learn};
use crate::lines::propagate;
use branch_choice::{Chooser, Split};
use ground_form::Ground;
use proof_log::Journal;
use rule_law::Kit;
use std::alloc::AllocError;

/// What comes behind a fixpoint or a conflict.
#[derive(Clone, Copy, Debug)]
pub enum Step {
    /// A decision is due.
    Split(Split),
    /// Something else has come.
    Then(After),
}

/// At a fixpoint: a split, or what stands behind the solution that was found.
fn branch(
    g: &Ground,
    chooser: &Chooser,
    hints: &[Option<i64>],
    e: &mut Engine,
    journal: &mut Journal,
) -> Result<Step, AllocError>
    requires at { Shows g.now journal.old.lines e.old Going }
    requires fixed { IsFixed g.now e.old.board.store.top.now (added_of e.old) }
    requires hints { g.now.search ≤ length hints.now }
    ensures kept { IsKept g.now journal.old journal.new }
    ensures step { IfOk result (λ s. StepOf g.now journal.new.lines chooser.now.order hints.now
        e.new s) }
    ensures below { OnOk result (length e.new.board.store.below
        ≡ length e.old.board.store.below) }
    ensures alike { OnOk result (DecideAlike journal.old.lines journal.new.lines) }
{
    match chooser.choose(e.board.store.boxes(), hints, g.search) {
        Some(split) => Ok(Step::Split(split)),
        None => {
            let after = record_solution(g, e, journal)?;
            Ok(Step::Then(after))
        }
    }
}

/// To a fixpoint and then to a split or a solution; or to a conflict or the end.
fn advance(
    g: &Ground,
    kit: &mut Kit,
    chooser: &Chooser,
    hints: &[Option<i64>],
    e: &mut Engine,
    journal: &mut Journal,
) -> Result<Step, AllocError>
    requires at { Shows g.now journal.old.lines e.old Going }
    requires hints { g.now.search ≤ length hints.now }
    ensures kept { IsKept g.now journal.old journal.new }
    ensures step { IfOk result (λ s. StepOf g.now journal.new.lines chooser.now.order hints.now
        e.new s) }
    ensures below { OnOk result (length e.new.board.store.below
        ≡ length e.old.board.store.below) }
    ensures alike { OnOk result (DecideAlike journal.old.lines journal.new.lines) }
{
    match propagate(g, kit, e, journal)? {
        After::Going => {
            let step = branch(g, chooser, hints, e, journal)?;
            Ok(step)
        }
        After::Conflict(n) => Ok(Step::Then(After::Conflict(n))),
        After::Closed => Ok(Step::Then(After::Closed)),
    }
}

/// On until a decision is due, which it answers, or the search is closed.
pub fn until_decision(
    g: &Ground,
    kit: &mut Kit,
    chooser: &Chooser,
    hints: &[Option<i64>],
    e: &mut Engine,
    journal: &mut Journal,
) -> Result<Option<Split>, AllocError>
    requires at { Shows g.now journal.old.lines e.old Going }
    requires hints { g.now.search ≤ length hints.now }
    ensures kept { IsKept g.now journal.old journal.new }
    ensures settled { IfOk result (λ o. SettledOf g.now journal.new.lines chooser.now.order
        hints.now e.new o) }
    ensures below { OnOk result (length e.new.board.store.below
        ≤ length e.old.board.store.below) }
    ensures alike { OnOk result (DecideAlike journal.old.lines journal.new.lines) }
{
    let mut now = After::Going;
    'turns: loop {
        match now {
            After::Closed => return Ok(None),
            After::Conflict(n) => now = learn(g, e, journal, n)?,
            After::Going => match advance(g, kit, chooser, hints, e, journal)? {
                Step::Split(split) => return Ok(Some(split)),
                Step::Then(after) => now = after,
            },
        }
    }
}
