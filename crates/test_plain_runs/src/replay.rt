//! A run, line by line, with boxes that are copied whole: at each level, and before each change.
//!
//! Whether constraints have something to say is asked of plain probing.
ghost use Rattle.std.specs.Prelude.{◌≡◌, true};
ghost use Rattle.ground_form.specs.WellMade.{IsWellMade};

use crate::splits::{Way, split_of};
use crate::walking::{Entry, is_walk};
use ground_form::{Ground, GroundGoal};
use log_form::Line;
use numbered_clauses::Chain;
use rule_law::{Kit, are_boxes_within};
use signed_clause::{Clause, IntSet};
use std::alloc::{AllocError, Global};
use test_small_problems::{
    Row, bit_of, is_better, is_single, is_solution, mask_of, point_of, row_of, sets_of,
};

/// What the lines so far ask of the next one.
#[derive(Clone, Copy, Debug, PartialEq, Eq)]
pub enum Mode {
    /// To prune, to decide or to tell a solution.
    Going,
    /// To explain that the clause of this number is false.
    Conflict(u64),
    /// To ask for something better than what was just told.
    Found,
    /// Nothing.
    Closed,
}

/// A level: its first boxes, its present ones, and how many changes there were before it.
#[derive(Clone, Copy)]
struct Level {
    first: Row,
    now: Row,
    before: usize,
}

/// What the lines so far leave.
#[derive(Drop)]
pub struct Run {
    alloc: Global,
    domains: Row,
    levels: Vec<Level>,
    trail: Vec<Entry>,
    clauses: Vec<Row>,
    learnt: Vec<Row>,
    bounds: Vec<Row>,
    /// What is asked of the next line.
    pub mode: Mode,
    /// The solution that was told last.
    pub found: Option<Row>,
    /// How many decisions there were.
    pub decisions: u64,
    /// How many clauses of constraints there were.
    pub axioms: u64,
}

/// How a run is to decide.
#[derive(Clone, Copy)]
pub struct Deciding<'a> {
    /// By which order.
    pub way: Way,
    /// The hints of the searched variables.
    pub hints: &'a [Option<i64>],
}

impl Run {
    /// Before the first line.
    pub fn new(alloc: Global, domains: Row) -> Result<Run, AllocError> {
        let level = Level {
            first: domains,
            now: domains,
            before: 0,
        };
        Ok(Run {
            alloc,
            domains,
            levels: vec![in alloc; level]?,
            trail: Vec::new(alloc),
            clauses: Vec::new(alloc),
            learnt: Vec::new(alloc),
            bounds: Vec::new(alloc),
            mode: Mode::Going,
            found: None,
            decisions: 0,
            axioms: 0,
        })
    }

    /// How many clauses were learnt.
    pub fn learnt_count(&self) -> u64 {
        self.learnt.len() as u64
    }

    /// The present boxes.
    fn top(&self) -> Row {
        match self.levels.last() {
            Some(level) => level.now,
            None => Row::empty(),
        }
    }

    /// Gives a variable another box, by the clause of a number or by a decision.
    fn change(&mut self, from: Option<u64>, var: usize, mask: u64) -> Result<(), AllocError> {
        let before = self.top();
        self.trail.push(Entry { from, var, before })?;
        if let Some(level) = self.levels.last_mut() {
            level.now.put(var, mask);
        }
        Ok(())
    }

    /// What the clause of a number does in the present boxes.
    fn react(&mut self, number: u64, clause: &Row) -> Result<(), AllocError> {
        let top = self.top();
        self.mode = Mode::Going;
        if clause.is_empty() {
            self.mode = Mode::Closed;
        } else if clause.is_false(&top) {
            self.mode = Mode::Conflict(number);
        } else if let Some(x) = clause.unit(&top) {
            self.change(Some(number), x, clause.get(x) & top.get(x))?;
        }
        Ok(())
    }

    /// Whether no learnt clause and no bound is false or unit.
    fn is_settled(&self) -> bool {
        let top = self.top();
        self.learnt.iter().all(|c| !c.acts(&top)) && self.bounds.iter().all(|c| !c.acts(&top))
    }

    /// Whether nothing has anything to say.
    fn is_fixed(&self, g: &Ground, plain: &mut Kit) -> Result<bool, AllocError>
        requires { IsWellMade g.now }
    {
        if !self.is_settled() {
            return Ok(false);
        }
        let boxes = sets_of(self.alloc, &self.top(), g.domains.items().len())?;
        let quiet = are_quiet(g, plain, boxes.as_slice())?;
        Ok(quiet)
    }

    /// An axiom, the clause of which lies within the domains and acts.
    fn take_axiom(&mut self, clause: &Clause) -> Result<bool, AllocError> {
        let Some(row) = row_of(clause) else {
            return Ok(false);
        };
        let top = self.top();
        if self.mode != Mode::Going || !row.lies_within(&self.domains) || !row.acts(&top) {
            return Ok(false);
        }
        let number = self.clauses.len() as u64;
        self.react(number, &row)?;
        self.clauses.push(row)?;
        self.axioms = self.axioms.saturating_add(1);
        Ok(true)
    }

    /// The use of a clause that acts.
    fn take_use(&mut self, number: u64) -> Result<bool, AllocError> {
        if self.mode != Mode::Going || number >= self.clauses.len() as u64 {
            return Ok(false);
        }
        let row = self.clauses[number as usize];
        if !row.acts(&self.top()) {
            return Ok(false);
        }
        self.react(number, &row)?;
        Ok(true)
    }

    /// A decision by the order, where nothing has anything to say.
    fn take_decision(
        &mut self,
        g: &Ground,
        plain: &mut Kit,
        by: Deciding<'_>,
        x: u32,
        half: &IntSet,
    ) -> Result<bool, AllocError>
        requires { IsWellMade g.now }
    {
        let top = self.top();
        if self.mode != Mode::Going || x >= g.search || !self.is_fixed(g, plain)? {
            return Ok(false);
        }
        let Some(split) = split_of(by.way, &top, by.hints, g.search as usize) else {
            return Ok(false);
        };
        if split.var != x as usize || mask_of(half) != Some(split.mask) {
            return Ok(false);
        }
        self.open(split.var, split.mask)?;
        Ok(true)
    }

    /// Opens a level.
    fn open(&mut self, var: usize, mask: u64) -> Result<(), AllocError> {
        let before = self.trail.len();
        let top = self.top();
        let mut first = top;
        first.put(var, mask);
        self.trail.push(Entry {
            from: None,
            var,
            before: top,
        })?;
        self.levels.push(Level {
            first,
            now: first,
            before,
        })?;
        self.decisions = self.decisions.saturating_add(1);
        Ok(())
    }

    /// A solution, which the boxes are and which is better than the last.
    fn take_found(
        &mut self,
        g: &Ground,
        plain: &mut Kit,
        values: &[i64],
    ) -> Result<bool, AllocError>
        requires { IsWellMade g.now }
    {
        if self.mode != Mode::Going || !self.is_fixed(g, plain)? {
            return Ok(false);
        }
        let point = point_of(values);
        if values.len() != g.domains.items().len() || !point.same(&self.top()) {
            return Ok(false);
        }
        let beats = match &self.found {
            Some(last) => is_better(g.goals.items(), &point, last),
            None => true,
        };
        self.mode = Mode::Found;
        self.found = Some(point);
        Ok(beats && is_solution(g, &point))
    }

    /// What is asked of a better solution.
    fn take_bound(&mut self, g: &Ground, values: &[i64]) -> Result<bool, AllocError> {
        let goals = g.goals.items();
        let Some(point) = self.found else {
            return Ok(false);
        };
        if self.mode != Mode::Found || !are_goal_values(goals, &point, values) {
            return Ok(false);
        }
        let rows = bounds_of(self.alloc, goals, &self.domains, &point)?;
        let top = self.top();
        let number = self.clauses.len() as u64;
        self.mode = mode_by(&rows, &top, number);
        for row in &rows {
            self.clauses.push(*row)?;
        }
        self.bounds = rows;
        Ok(true)
    }

    /// A learnt clause: the walk back from the conflict.
    fn take_chain(&mut self, chain: &Chain, clause: &Clause) -> Result<bool, AllocError> {
        let Some(row) = row_of(clause) else {
            return Ok(false);
        };
        if self.mode != Mode::Conflict(chain.first)
            || !is_walk(self.trail.as_slice(), self.clauses.as_slice(), chain, &row)
            || !self.leads_back(&row)
        {
            return Ok(false);
        }
        let number = self.clauses.len() as u64;
        self.react(number, &row)?;
        self.clauses.push(row)?;
        self.learnt.push(row)?;
        Ok(true)
    }

    /// Drops the highest level in whose first boxes the clause is false, while it isn't in the
    /// present boxes of the level below, and those above it; false where there is none. The empty
    /// clause drops none.
    fn leads_back(&mut self, clause: &Row) -> bool {
        if clause.is_empty() {
            return true;
        }
        match dropped_level(&self.levels, clause) {
            Some(back) => {
                self.levels.truncate(back.level);
                self.trail.truncate(back.before);
                true
            }
            None => false,
        }
    }

    /// Whether the next line may stand; it is taken in.
    pub fn follow(
        &mut self,
        g: &Ground,
        plain: &mut Kit,
        by: Deciding<'_>,
        line: &Line,
    ) -> Result<bool, AllocError>
        requires { IsWellMade g.now }
    {
        match line {
            Line::Axiom(_, clause) => self.take_axiom(clause.clause()),
            Line::Use(number) => self.take_use(*number),
            Line::Decide(x, half) => self.take_decision(g, plain, by, *x, half),
            Line::Found(values) => self.take_found(g, plain, values.items()),
            Line::Bound(values) => self.take_bound(g, values.items()),
            Line::Chain(chain, clause) => self.take_chain(chain, clause.clause()),
            Line::Empty(x) => Ok(self.take_empty(g, *x as usize)),
        }
    }

    /// That a domain is empty, as the first line.
    fn take_empty(&mut self, g: &Ground, x: usize) -> bool {
        let is_first = self.clauses.is_empty() && self.trail.is_empty() && self.found.is_none();
        let stands = self.mode == Mode::Going && is_first;
        self.mode = Mode::Closed;
        stands && x < g.domains.items().len() && self.domains.get(x) == 0
    }

    /// Whether a decision could stand next.
    pub fn may_decide(&self, g: &Ground, plain: &mut Kit) -> Result<bool, AllocError>
        requires { IsWellMade g.now }
    {
        let top = self.top();
        let open = (0..g.search as usize).any(|x| !is_single(top.get(x)));
        let fixed = self.is_fixed(g, plain)?;
        Ok(open && fixed && self.mode == Mode::Going)
    }
}

/// Which level is dropped, and how many changes there were before it.
#[derive(Clone, Copy)]
struct Back {
    level: usize,
    before: usize,
}

/// The highest level in whose first boxes the clause is false, while it isn't in the present boxes
/// of the level below.
fn dropped_level(levels: &[Level], clause: &Row) -> Option<Back> {
    let mut back = None;
    for k in 1..levels.len() {
        if clause.is_false(&levels[k].first) && !clause.is_false(&levels[k - 1].now) {
            back = Some(Back {
                level: k,
                before: levels[k].before,
            });
        }
    }
    back
}

/// What the clauses of a Bound line ask for, the first of which has the number: an empty one
/// closes, else the first that is false is the conflict.
fn mode_by(rows: &[Row], top: &Row, first: u64) -> Mode {
    if rows.iter().any(|row| row.is_empty()) {
        return Mode::Closed;
    }
    let mut number = first;
    for row in rows {
        if row.is_false(top) {
            return Mode::Conflict(number);
        }
        number = number.saturating_add(1);
    }
    Mode::Going
}

/// Whether all boxes have values, and no constraint has anything to say.
fn are_quiet(g: &Ground, plain: &mut Kit, boxes: &[IntSet]) -> Result<bool, AllocError>
    requires { IsWellMade g.now }
{
    if !are_boxes_within(g.domains.items(), boxes) {
        return Ok(false);
    }
    let count = g.cons.items().len() as u32;
    for k in 0..count {
        if plain.prune(g, k, boxes)?.is_some() {
            return Ok(false);
        }
    }
    Ok(true)
}

/// Whether the values are those of the goals at the point.
fn are_goal_values(goals: &[GroundGoal], point: &Row, values: &[i64]) -> bool {
    goals.len() == values.len()
        && goals
            .iter()
            .zip(values)
            .all(|(goal, v)| point.get(goal.var as usize) == bit_of(*v))
}

/// The values that are better than the one.
fn better_than(bit: u64, max: bool) -> u64 {
    let below = bit.wrapping_sub(1);
    if max { !(bit | below) } else { below }
}

/// The clauses of a Bound line: of each goal but the last, that an earlier one is better or it is
/// as good; of the last, that an earlier one is better or it is.
fn bounds_of(
    alloc: Global,
    goals: &[GroundGoal],
    domains: &Row,
    point: &Row,
) -> Result<Vec<Row>, AllocError> {
    let mut rows = Vec::new(alloc);
    let mut earlier = Row::empty();
    for (k, goal) in goals.iter().enumerate() {
        let x = goal.var as usize;
        let better = better_than(point.get(x), goal.max) & domains.get(x);
        let wanted = if k.saturating_add(1) == goals.len() {
            better
        } else {
            better | point.get(x)
        };
        let mut row = earlier;
        row.put(x, row.get(x) | wanted);
        rows.push(row)?;
        earlier.put(x, earlier.get(x) | better);
    }
    if goals.is_empty() {
        rows.push(earlier)?;
    }
    Ok(rows)
}
