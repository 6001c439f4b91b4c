//! The lines behind a solution: what was found, and what is asked of a better one.
ghost use Rattle.std.specs.Prelude.{◌≡◌, ◌≤◌, ◌<◌, ◌++◌, ◌∷◌, [], ℕ, true, length, cond, IfOk, OnOk};
ghost use Rattle.std.specs.List.{All};
ghost use Rattle.signed_clause.specs.Clauses.{IsWithinBoxes, false_in};
ghost use Rattle.ground_form.specs.Bounds.{singles, low_of};
ghost use Rattle.ground_form.specs.Meaning.{value_of};
ghost use Rattle.ground_form.specs.Solutions.{IsSolution};
ghost use Rattle.ground_form.specs.WellMade.{IsWellMade};
ghost use Rattle.rule_law.specs.Singles.{least_values};
ghost use Rattle.rule_law.specs.Answers.{AreBoxesWithin};
ghost use Rattle.prop_queue.specs.Work.{AreAllQuiet};
ghost use Rattle.branch_choice.specs.Picks.{AreAllSingle};
ghost use Rattle.log_form.specs.Acceptance.{has_empty};
ghost use Rattle.run_law.specs.Replay.{Mode, Going, Conflict, first_false};
ghost use Rattle.bound_search.specs.BoundLists.{numbered_from, first_or, values_of};
ghost use Rattle.bound_search.specs.Modes.{rank};
ghost use Rattle.bound_search.specs.Standing.{IsFixed};
ghost use Rattle.bound_search.specs.Engines.{added_of, Shows, Reached, IsKept, DecideAlike, IsBounded};

use crate::after::After;
use crate::engine::Engine;
use ground_form::{Ground, GroundGoal, Number};
use log_form::{Line, Values, bounds_of};
use numbered_clauses::Clauses;
use proof_log::Journal;
use rule_law::fixpoint_is_solution;
use signed_clause::{ClauseHandle, IntSet};
use std::alloc::{AllocError, Global};

/// The least value of the set, 0 of the empty one.
fn least_value(set: &IntSet) -> Number
    ensures { result.value ≡ low_of set.now }
{
    let value = set.least().unwrap_or(0);
    Number { value }
}

/// Adds the least value.
fn push_least(out: &mut Vec<i64>, set: &IntSet) -> Result<(), AllocError>
    ensures { OnOk result (out.new.items ≡ out.old.items ++ low_of set.now ∷ []) }
{
    let low = least_value(set);
    out.push(low.value)?;
    Ok(())
}

/// The least value of each box.
fn lows(alloc: Global, boxes: &[IntSet]) -> Result<Vec<i64>, AllocError>
    ensures { IfOk result (λ v. v.items ≡ least_values boxes.now) }
{
    let mut out = Vec::new(alloc);
    for set in boxes {
        push_least(&mut out, set)?;
    }
    Ok(out)
}

/// The solution that boxes at a fixpoint are, where the searched ones are single values.
fn solution(alloc: Global, g: &Ground, boxes: &[IntSet]) -> Result<Vec<i64>, AllocError>
    requires well_made { IsWellMade g.now }
    requires boxes { AreBoxesWithin g.now.domains boxes.now }
    requires fixed { AreAllQuiet g.now boxes.now }
    requires single { AreAllSingle boxes.now g.now.search }
    ensures values { IfOk result (λ v. boxes.now ≡ singles v.items) }
    ensures solves { IfOk result (λ v. IsSolution g.now v.items) }
{
    fixpoint_is_solution(g, boxes);
    let values = lows(alloc, boxes)?;
    Ok(values)
}

/// Adds a goal's value.
fn push_value(out: &mut Vec<i64>, values: &[i64], x: u32) -> Result<(), AllocError>
    requires { x < length values.now }
    ensures { OnOk result (out.new.items ≡ out.old.items ++ value_of values.now x ∷ []) }
{
    let value = Number {
        value: values[x as usize],
    };
    out.push(value.value)?;
    Ok(())
}

/// The goals' values.
fn goal_values(alloc: Global, goals: &[GroundGoal], values: &[i64]) -> Result<Vec<i64>, AllocError>
    requires { All (λ goal. goal.var < length values.now) goals.now }
    ensures { IfOk result (λ v. v.items ≡ values_of values.now goals.now) }
{
    let mut out = Vec::new(alloc);
    for goal in goals {
        push_value(&mut out, values, goal.var)?;
    }
    Ok(out)
}

/// Whether one of the clauses is empty.
fn has_empty(list: &[ClauseHandle]) -> bool
    ensures { result ≡ has_empty list.now }
{
    for c in list {
        if c.clause().is_empty() {
            return true;
        }
    }
    false
}

/// Gives the clause a number, and asks for it from now on. It answers the conflict that was found
/// before, or else this clause's number where it is false.
fn take_bound(
    clauses: &mut Clauses,
    asked: &mut Vec<(u64, ClauseHandle)>,
    boxes: &[IntSet],
    c: &ClauseHandle,
    first: Option<u64>,
) -> Result<Option<u64>, AllocError>
    requires vars { IsWithinBoxes c.now boxes.now }
    ensures clauses { OnOk result (clauses.new ≡ clauses.old ++ c.now ∷ []) }
    ensures asked { OnOk result (asked.new.items
        ≡ asked.old.items ++ (length clauses.old, c.now) ∷ []) }
    ensures first { IfOk result (λ o. (rest : Mode) → first_or o rest
        ≡ first_or first (cond (false_in boxes.now c.now) (Conflict (length clauses.old)) rest)) }
{
    let number = clauses.push(c.copy()?)?;
    asked.push((number, c.copy()?))?;
    if first.is_none() && c.clause().is_false(boxes) {
        return Ok(Some(number));
    }
    Ok(first)
}

/// Gives the clauses numbers, and asks for them alone from now on. It answers the number of the
/// first that is false.
fn take_bounds(
    clauses: &mut Clauses,
    asked: &mut Vec<(u64, ClauseHandle)>,
    boxes: &[IntSet],
    list: &[ClauseHandle],
) -> Result<Option<u64>, AllocError>
    requires vars { All (λ c. IsWithinBoxes c boxes.now) list.now }
    ensures clauses { OnOk result (clauses.new ≡ clauses.old ++ list.now) }
    ensures asked { OnOk result (asked.new.items ≡ numbered_from (length clauses.old) list.now) }
    ensures first { IfOk result (λ o. first_or o Going
        ≡ first_false boxes.now (length clauses.old) list.now) }
{
    asked.clear();
    let mut first = None;
    for c in list {
        first = take_bound(clauses, asked, boxes, c, first)?;
    }
    Ok(first)
}

/// Takes in the clauses of a Bound line: an empty one closes the search, else the first that is
/// false is the conflict.
fn take_all(e: &mut Engine, list: &[ClauseHandle]) -> Result<After, AllocError>
    requires vars { All (λ c. IsWithinBoxes c e.old.board.store.top.now) list.now }
    ensures bound { IfOk result (λ a. IsBounded e.old e.new list.now a) }
{
    let first = take_bounds(&mut e.clauses, &mut e.asked, e.board.store.boxes(), list)?;
    if has_empty(list) {
        return Ok(After::Closed);
    }
    match first {
        Some(n) => Ok(After::Conflict(n)),
        None => Ok(After::Going),
    }
}

/// Writes the solution that the boxes are, and asks for a better one.
pub fn record_solution(
    g: &Ground,
    e: &mut Engine,
    journal: &mut Journal,
) -> Result<After, AllocError>
    requires at { Shows g.now journal.old.lines e.old Going }
    requires fixed { IsFixed g.now e.old.board.store.top.now (added_of e.old) }
    requires single { AreAllSingle e.old.board.store.top.now g.now.search }
    ensures kept { IsKept g.now journal.old journal.new }
    ensures at { IfOk result (λ a. Reached g.now journal.new.lines e.new a) }
    ensures stops { IfOk result (λ a. rank a ≤ 1) }
    ensures below { OnOk result (length e.new.board.store.below
        ≡ length e.old.board.store.below) }
    ensures alike { OnOk result (DecideAlike journal.old.lines journal.new.lines) }
{
    let values = solution(e.alloc, g, e.board.store.boxes())?;
    let goals = g.goals.items();
    let bounds = bounds_of(e.alloc, g.domains.items(), goals, values.as_slice())?;
    let stated = goal_values(e.alloc, goals, values.as_slice())?;
    journal.push(Line::Found(Values::of(values)))?;
    journal.push(Line::Bound(Values::of(stated)))?;
    let after = take_all(e, bounds.as_slice())?;
    Ok(after)
}
