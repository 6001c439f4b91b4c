//! What the lines so far leave, and one more line.
//!
//! `step` asks whether a line may come next and, where it may, takes it in. Each line costs in
//! proportion to its own length, to the constraint that it names, and to the clauses that its chain
//! names. A clause of a line is not copied, but gets one more owner.
ghost use Rattle.std.specs.Prelude.{◌≡◌, ◌<◌, ◌&&◌, ◌++◌, true, false, IfOk, OnOk, length, nat_lt, Option, List, ℤ};
ghost use Rattle.std.specs.List.{All};
ghost use Rattle.signed_clause.specs.Ranges.{is_nil};
ghost use Rattle.signed_clause.specs.Clauses.{box_of};
ghost use Rattle.ground_form.specs.Meaning.{clause_vars};
ghost use Rattle.ground_form.specs.WellMade.{IsWellMade};
ghost use Rattle.box_rules.specs.Justified as rules;
ghost use Rattle.log_form.specs.Acceptance as acceptance;
ghost use Rattle.log_form.specs.Acceptance.{start, accepts, after, vars_below, con_at, point_of, all_true, beats, states_found, has_empty, bounds};
ghost use Rattle.log_check.specs.Soundness.{HasClause, FoundSolves};
ghost use Rattle.log_check.specs.Progress.{made_of, IsRight};
ghost use Rattle.log_check.specs.Verdicts.{Ending};

use crate::bound_line::push_bounds;
use crate::chains::derives;
use crate::derived::Derived;
use crate::solution::{are_all_true, are_goal_values, is_better, is_point};
use crate::verdict::Verdict;
use box_rules::justified;
use ground_form::Ground;
use log_form::{Line, Values, empty_clause};
use running_clause::RunningClause;
use signed_clause::Clause;
use std::alloc::{AllocError, Global};

/// What the lines so far leave.
#[derive(Drop)]
pub struct Progress {
    /// The clauses that they made.
    pub derived: Derived,
    /// The values that they found last.
    pub found: Option<Values>,
    /// The table in which chains are replayed.
    pub running: RunningClause,
}

impl Progress {
    /// Before the first line. It takes memory for each variable of the problem.
    #[tactic(auto, using(crate::proofs::Within::right_start))]
    pub fn new(alloc: Global, g: &Ground) -> Result<Self, AllocError>
        requires { IsWellMade g.now }
        ensures made { IfOk result (λ p. made_of p ≡ start) }
        ensures right { IfOk result (λ p. IsRight g.now p) }
    {
        let running = RunningClause::new(alloc, g.domains.items().len() as u32)?;
        Ok(Progress {
            derived: Derived::new(alloc),
            found: None,
            running,
        })
    }

    /// Whether the line may come next; where it may, it is taken in.
    pub fn step(&mut self, alloc: Global, g: &Ground, line: &Line) -> Result<bool, AllocError>
        requires made { IsWellMade g.now }
        requires right { IsRight g.now self.old }
        ensures asked { IfOk result (λ b. b
            ≡ acceptance.may_come g.now (made_of self.old) line.now) }
        ensures made { IfOk result (λ b. b ≡ true
            → made_of self.new ≡ after g.now (made_of self.old) line.now) }
        ensures right { IfOk result (λ b. b ≡ true → IsRight g.now self.new) }
    {
        if !self.may_come(alloc, g, line)? {
            return Ok(false);
        }
        know_clause(line);
        self.advance(alloc, g, line)?;
        Ok(true)
    }

    /// The same of a line that is handed over: what it holds is moved, not copied.
    pub fn step_with(&mut self, alloc: Global, g: &Ground, line: Line) -> Result<bool, AllocError>
        requires made { IsWellMade g.now }
        requires right { IsRight g.now self.old }
        ensures asked { IfOk result (λ b. b ≡ acceptance.may_come g.now (made_of self.old) line) }
        ensures made { IfOk result (λ b. b ≡ true
            → made_of self.new ≡ after g.now (made_of self.old) line) }
        ensures right { IfOk result (λ b. b ≡ true → IsRight g.now self.new) }
    {
        if !self.may_come(alloc, g, &line)? {
            return Ok(false);
        }
        know_clause(&line);
        self.advance_with(alloc, g, line)?;
        Ok(true)
    }

    /// Whether the line may come next. Nothing changes but what the table of chains holds.
    fn may_come(&mut self, alloc: Global, g: &Ground, line: &Line) -> Result<bool, AllocError>
        requires made { IsWellMade g.now }
        requires right { IsRight g.now self.old }
        ensures asked { IfOk result (λ b. b
            ≡ acceptance.may_come g.now (made_of self.old) line.now) }
        ensures kept { made_of self.new ≡ made_of self.old }
        ensures right { IsRight g.now self.new }
    {
        if self.derived.closed {
            Ok(false)
        } else {
            self.accepts(alloc, g, line)
        }
    }

    /// Whether the line meets what it has to, but for one thing: that no line before made the empty
    /// clause. Nothing changes but what the table of chains holds.
    #[tactic(auto, unfolding(log_form::specs::Acceptance::accepts), using(crate::proofs::Within::right_with))]
    fn accepts(&mut self, alloc: Global, g: &Ground, line: &Line) -> Result<bool, AllocError>
        requires made { IsWellMade g.now }
        requires right { IsRight g.now self.old }
        ensures asked { IfOk result (λ b. b
            ≡ acceptance.accepts g.now (made_of self.old) line.now) }
        ensures kept { made_of self.new ≡ made_of self.old }
        ensures right { IsRight g.now self.new }
    {
        match line {
            Line::Axiom(k, clause) => Ok(is_axiom(g, *k, clause.clause())),
            Line::Chain(chain, clause) => derives(
                alloc,
                &mut self.running,
                &self.derived.clauses,
                chain,
                clause.clause(),
            ),
            Line::Bound(values) => Ok(states_bound(g, &self.found, values.items())),
            Line::Use(i) => Ok(self.derived.clauses.has(*i)),
            Line::Found(values) => Ok(is_improvement(g, &self.found, values.items())),
            Line::Decide(x, _) => Ok((*x as usize) < g.domains.items().len()),
            Line::Empty(x) => Ok(has_empty_domain(g, *x)),
        }
    }

    /// Takes in a line that may come next.
    #[tactic(auto, unfolding(log_form::specs::Acceptance::after))]
    fn advance(&mut self, alloc: Global, g: &Ground, line: &Line) -> Result<(), AllocError>
        requires well_made { IsWellMade g.now }
        requires right { IsRight g.now self.old }
        requires accepted { accepts g.now (made_of self.old) line.now ≡ true }
        ensures made { OnOk result (made_of self.new ≡ after g.now (made_of self.old) line.now) }
        ensures closed { OnOk result (self.new.derived.closed
            ≡ has_empty self.new.derived.clauses) }
        ensures table { self.new.running ≡ self.old.running }
    {
        match line {
            Line::Axiom(_, clause) | Line::Chain(_, clause) => {
                self.derived.push_shared(alloc, clause.copy()?)
            }
            Line::Bound(_) => self.push_bound(alloc, g),
            Line::Found(values) => {
                self.found = Some(values.copy()?);
                Ok(())
            }
            Line::Empty(_) => self.derived.push_own(alloc, empty_clause(alloc)),
            Line::Use(_) | Line::Decide(..) => Ok(()),
        }
    }

    /// Takes in a line that may come next and is handed over. Each part that isn't kept has a name,
    /// so that it is let go in its arm.
    #[tactic(auto, unfolding(log_form::specs::Acceptance::after))]
    fn advance_with(&mut self, alloc: Global, g: &Ground, line: Line) -> Result<(), AllocError>
        requires well_made { IsWellMade g.now }
        requires right { IsRight g.now self.old }
        requires accepted { accepts g.now (made_of self.old) line ≡ true }
        ensures made { OnOk result (made_of self.new ≡ after g.now (made_of self.old) line) }
        ensures closed { OnOk result (self.new.derived.closed
            ≡ has_empty self.new.derived.clauses) }
        ensures table { self.new.running ≡ self.old.running }
    {
        match line {
            Line::Axiom(_, clause) => self.derived.push(alloc, clause, None),
            Line::Chain(_chain, clause) => self.derived.push(alloc, clause, None),
            Line::Bound(_values) => self.push_bound(alloc, g),
            Line::Found(values) => {
                self.found = Some(values);
                Ok(())
            }
            Line::Empty(_) => self.derived.push_own(alloc, empty_clause(alloc)),
            Line::Use(_) => Ok(()),
            Line::Decide(_, _set) => Ok(()),
        }
    }

    /// Adds the clauses of a Bound line.
    fn push_bound(&mut self, alloc: Global, g: &Ground) -> Result<(), AllocError>
        requires well_made { IsWellMade g.now }
        requires right { IsRight g.now self.old }
        ensures clauses { OnOk result (self.new.derived.clauses ≡ self.old.derived.clauses
            ++ bounds g.now self.old.found) }
        ensures found { OnOk result (self.new.found ≡ self.old.found) }
        ensures closed { OnOk result (self.new.derived.closed
            ≡ has_empty self.new.derived.clauses) }
        ensures table { self.new.running ≡ self.old.running }
    {
        match &self.found {
            Some(values) => push_bounds(
                alloc,
                &mut self.derived,
                g.domains.items(),
                g.goals.items(),
                values.items(),
            ),
            None => Ok(()),
        }
    }

    /// The verdict of the lines.
    pub fn into_verdict(self) -> Verdict
        ensures { result ≡ record { closed = self.derived.closed; found = self.found } }
    {
        Verdict::of(self.derived.closed, self.found)
    }
}

/// A clause in a line is a clause, which its type keeps.
fn know_clause(line: &Line)
    ensures { HasClause line.now }
{
    match line {
        Line::Axiom(_, clause) | Line::Chain(_, clause) => {
            clause.clause().literals();
        }
        _ => {}
    }
}

/// Whether the constraint exists and justifies the clause, whose variables exist.
fn is_axiom(g: &Ground, k: u32, clause: &Clause) -> bool
    requires { IsWellMade g.now }
    ensures { result ≡ (nat_lt k (length g.now.cons)
        && (vars_below (length g.now.domains) (clause_vars clause.now)
        && rules.justified (con_at g.now.cons k) g.now.domains clause.now)) }
{
    let cons = g.cons.items();
    let domains = g.domains.items();
    (k as usize) < cons.len()
        && are_below(clause, domains.len())
        && justified(&cons[k as usize], domains, clause)
}

/// Whether the variables of the clause are among the first `count`.
fn are_below(clause: &Clause, count: usize) -> bool
    ensures { result ≡ vars_below count (clause_vars clause.now) }
{
    let literals = clause.literals();
    for l in literals {
        if l.0 as usize >= count {
            return false;
        }
    }
    true
}

/// Whether the values are those of the goals at what was found last.
fn states_bound(g: &Ground, found: &Option<Values>, stated: &[i64]) -> bool
    requires made { IsWellMade g.now }
    requires solved { FoundSolves g.now found.now }
    ensures { result ≡ states_found g.now.goals found.now stated.now }
{
    match found {
        Some(values) => are_goal_values(g.goals.items(), values.items(), stated),
        None => false,
    }
}

/// Whether the values are a solution, and better than what was found last.
fn is_improvement(g: &Ground, found: &Option<Values>, values: &[i64]) -> bool
    requires made { IsWellMade g.now }
    requires solved { FoundSolves g.now found.now }
    ensures { result ≡ (point_of g.now.domains values.now && (all_true g.now.cons values.now
        && beats g.now.goals found.now values.now)) }
{
    let domains = g.domains.items();
    is_point(domains, values)
        && are_all_true(domains, g.cons.items(), values)
        && is_beating(g, found, values)
}

/// Whether values of a point are better than what was found last.
fn is_beating(g: &Ground, found: &Option<Values>, values: &[i64]) -> bool
    requires made { IsWellMade g.now }
    requires solved { FoundSolves g.now found.now }
    requires point { point_of g.now.domains values.now ≡ true }
    ensures { result ≡ beats g.now.goals found.now values.now }
{
    match found {
        Some(others) => is_better(g.goals.items(), values, others.items()),
        None => true,
    }
}

/// Whether the variable exists and has an empty domain.
fn has_empty_domain(g: &Ground, x: u32) -> bool
    ensures { result ≡ (nat_lt x (length g.now.domains) && is_nil (box_of g.now.domains x)) }
{
    let domains = g.domains.items();
    (x as usize) < domains.len() && domains[x as usize].is_empty()
}
