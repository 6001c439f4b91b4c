//! The search from its beginning to its end.
ghost use Rattle.std.specs.Prelude.{◌≡◌, ◌≤◌, ◌<◌, ◌+◌, [], ℕ, true, false, length, IfOk, OnOk, IfSome, IfNone};
ghost use Rattle.std.specs.List.{All};
ghost use Rattle.signed_clause.specs.Ranges.{is_nil, IsValid};
ghost use Rattle.signed_clause.specs.SetAlgebra.{meet};
ghost use Rattle.signed_clause.specs.Clauses.{box_of};
ghost use Rattle.ground_form.specs.WellMade.{IsWellMade};
ghost use Rattle.branch_choice.specs.declared.split.Order.{Order};
ghost use Rattle.branch_choice.specs.Picks.{Hints, half_of};
ghost use Rattle.log_form.specs.Acceptance.{has_empty, made};
ghost use Rattle.run_law.specs.Replay.{Going, is_run};
ghost use Rattle.run_law.specs.Ordered.{IsOrdered};
ghost use Rattle.run_law.specs.Decisions.{decisions, MayDecide};
ghost use Rattle.bound_search.specs.Engines.{Shows, IsKeptBy, IsDue};
ghost use Rattle.bound_search.specs.Ends.{EndsOf};

use crate::board::Board;
use crate::engine::{Engine, decide};
use crate::repeated::Repeated;
use crate::settling::until_decision;
use branch_choice::{Chooser, Split};
use ground_form::Ground;
use log_form::Line;
use numbered_clauses::Clauses;
use proof_log::Journal;
use rule_law::Kit;
use running_clause::RunningClause;
use signed_clause::IntSet;
use std::alloc::{AllocError, Global};

/// How a search ends.
#[derive(Clone, Copy, Debug)]
pub enum Ended {
    /// The empty clause was made: what was found last is best, or there is no solution.
    Closed,
    /// As many decisions were taken as were allowed, and a further one would be due.
    Spent,
}

/// What a search may use.
#[derive(Clone, Copy)]
pub struct Limits {
    /// Where memory comes from.
    pub alloc: Global,
    /// How many decisions it may take.
    pub budget: u32,
}

/// The part of a box that the split is about.
fn half_of(alloc: Global, split: Split) -> IntSet
    ensures list { result ≡ half_of split }
    ensures valid { IsValid (half_of split) }
{
    let low = if split.upto { i64::MIN } else { split.value };
    IntSet::range(alloc, low, split.value)
}

/// What the part's type keeps. It takes no memory.
fn know_half(alloc: Global, split: Split)
    ensures { IsValid (half_of split) }
{
    half_of(alloc, split);
}

/// The engine before the first line.
fn start(alloc: Global, g: &Ground) -> Result<Engine, AllocError>
    requires well_made { IsWellMade g.now }
    requires some { All (λ s. is_nil s ≡ false) g.now.domains }
    ensures at { IfOk result (λ e. Shows g.now [] e Going) }
    ensures below { IfOk result (λ e. length e.board.store.below ≡ 0) }
{
    let board = Board::new(alloc, g)?;
    let repeated = Repeated::new(alloc);
    let running = RunningClause::new(alloc, g.domains.items().len() as u32)?;
    Ok(Engine {
        alloc,
        board,
        clauses: Clauses::new(alloc),
        asked: Vec::new(alloc),
        sure: Vec::new(alloc),
        repeated,
        running,
    })
}

/// Decides by the split that is due, which the chooser picked with these hints.
fn decide_split(
    g: &Ground,
    chooser: &Chooser,
    hints: &[Option<i64>],
    e: &mut Engine,
    journal: &mut Journal,
    split: Split,
) -> Result<(), AllocError>
    requires due { IsDue g.now journal.old.lines chooser.now.order hints.now e.old split }
    requires level { length e.old.board.store.below < 4294967295 }
    ensures kept { IsKeptBy g.now chooser.now.order hints.now journal.old journal.new }
    ensures at { OnOk result (Shows g.now journal.new.lines e.new Going) }
    ensures below { OnOk result (length e.new.board.store.below
        ≡ length e.old.board.store.below + 1) }
    ensures more { OnOk result (decisions journal.new.lines ≡ decisions journal.old.lines + 1) }
{
    let half = taken_half(e.alloc, split, e.board.store.boxes())?;
    decide(g, e, journal, split.var, &half)
}

/// What the split takes of its variable's box.
fn taken_half(alloc: Global, split: Split, boxes: &[IntSet]) -> Result<IntSet, AllocError>
    requires { split.var < length boxes.now }
    ensures half { IfOk result (λ s. s ≡ meet (half_of split) (box_of boxes.now split.var)) }
    ensures valid { IsValid (half_of split) }
{
    let half = half_of(alloc, split).meet(&boxes[split.var as usize])?;
    Ok(half)
}

/// The first empty domain.
fn first_empty(domains: &[IntSet]) -> Option<u32>
    requires { length domains.now < 4294967296 }
    ensures some { IfSome result (λ x. x < length domains.now) }
    ensures empty { IfSome result (λ x. is_nil (box_of domains.now x) ≡ true) }
    ensures none { IfNone result (All (λ s. is_nil s ≡ false) domains.now) }
{
    let count = domains.len() as u32;
    for x in 0..count {
        if domains[x as usize].is_empty() {
            return Some(x);
        }
    }
    None
}

/// Writes that a domain is empty, so that there is no solution.
fn no_point(g: &Ground, journal: &mut Journal, x: u32) -> Result<Ended, AllocError>
    requires lines { journal.old.lines ≡ [] }
    requires var { x < length g.now.domains }
    requires none { is_nil (box_of g.now.domains x) ≡ true }
    ensures kept { (order : Order) (hints : Hints)
        → IsKeptBy g.now order hints journal.old journal.new }
    ensures ends { IfOk result (λ r. (budget : ℕ) → EndsOf g.now budget journal.new.lines r) }
{
    journal.push(Line::Empty(x))?;
    Ok(Ended::Closed)
}

/// The search where no domain is empty.
fn run(
    limits: Limits,
    g: &Ground,
    kit: &mut Kit,
    chooser: &Chooser,
    hints: &[Option<i64>],
    journal: &mut Journal,
) -> Result<Ended, AllocError>
    requires well_made { IsWellMade g.now }
    requires some { All (λ s. is_nil s ≡ false) g.now.domains }
    requires lines { journal.old.lines ≡ [] }
    requires hints { g.now.search ≤ length hints.now }
    ensures kept { IsKeptBy g.now chooser.now.order hints.now journal.old journal.new }
    ensures ends { IfOk result (λ r. EndsOf g.now limits.budget journal.new.lines r) }
{
    let mut e = start(limits.alloc, g)?;
    let mut left = limits.budget;
    'decisions: loop {
        match until_decision(g, kit, chooser, hints, &mut e, journal)? {
            None => return Ok(Ended::Closed),
            Some(split) => {
                know_half(limits.alloc, split);
                if left == 0 {
                    return Ok(Ended::Spent);
                }
                decide_split(g, chooser, hints, &mut e, journal, split)?;
                left -= 1;
            }
        }
    }
}

/// Searches for a best solution by branch and bound. The journal's lines are a run: at each of them
/// the search was forced to what it wrote, or decided at a fixpoint by the chooser's order, and
/// whoever has the problem and the lines can check what they show.
///
/// It writes into the present round of the journal, which has no lines yet, and takes at most
/// `limits.budget` decisions. `hints` has a value, or none, for each searched variable.
///
/// # Errors
/// Want of memory; the lines so far are a run.
pub fn search(
    limits: Limits,
    g: &Ground,
    kit: &mut Kit,
    chooser: &Chooser,
    hints: &[Option<i64>],
    journal: &mut Journal,
) -> Result<Ended, AllocError>
    requires well_made { IsWellMade g.now }
    requires lines { journal.old.lines ≡ [] }
    requires hints { g.now.search ≤ length hints.now }
    ensures run { is_run g.now journal.new.lines ≡ true }
    ensures ordered { IsOrdered g.now chooser.now.order hints.now journal.new.lines }
    ensures closed { IfOk result (λ r. r ≡ Ended.Closed
        → has_empty (made g.now journal.new.lines).clauses ≡ true) }
    ensures spent { IfOk result (λ r. r ≡ Ended.Spent
        → (decisions journal.new.lines ≡ limits.budget) × MayDecide g.now journal.new.lines) }
    ensures within { OnOk result (decisions journal.new.lines ≤ limits.budget) }
    ensures problem { journal.new.ground ≡ journal.old.ground }
    ensures rounds { journal.new.rounds ≡ journal.old.rounds }
{
    match first_empty(g.domains.items()) {
        Some(x) => {
            let ended = no_point(g, journal, x)?;
            Ok(ended)
        }
        None => {
            let ended = run(limits, g, kit, chooser, hints, journal)?;
            Ok(ended)
        }
    }
}
