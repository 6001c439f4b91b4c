//! One search, and what it comes to.
ghost use Rattle.std.specs.Prelude.{◌≡◌, ◌<◌, length, IfOk, IfSome};
ghost use Rattle.std.specs.List.{All};
ghost use Rattle.ground_form.specs.WellMade.{IsWellMade};

use crate::problems::Problem;
use bound_search::{Ended, Limits, search};
use branch_choice::Chooser;
use ground_build::Builder;
use ground_form::{Goals, Ground, GroundGoal};
use log_check::{CheckError, Verdict, VerdictKind, check};
use log_form::Line;
use proof_log::Journal;
use rule_law::Kit;
use std::alloc::{AllocError, Global};
use std::rt::Runtime;
use test_clock::Clock;
use test_well_made::is_search_well_made;

/// How many lines of each kind there are.
#[derive(Clone, Copy)]
pub(crate) struct Counts {
    /// Axiom lines.
    pub(crate) axioms: usize,
    /// Use lines.
    pub(crate) uses: usize,
    /// Chain lines.
    pub(crate) chains: usize,
    /// Decide lines.
    pub(crate) decisions: usize,
    /// Found lines.
    pub(crate) solutions: usize,
    /// All lines.
    pub(crate) lines: usize,
}

impl Counts {
    /// One line more.
    fn note(&mut self, line: &Line) {
        match line {
            Line::Axiom(..) => self.axioms = self.axioms.saturating_add(1),
            Line::Use(_) => self.uses = self.uses.saturating_add(1),
            Line::Chain(..) => self.chains = self.chains.saturating_add(1),
            Line::Decide(..) => self.decisions = self.decisions.saturating_add(1),
            Line::Found(_) => self.solutions = self.solutions.saturating_add(1),
            Line::Bound(_) | Line::Empty(_) => {}
        }
    }
}

/// What a search came to.
#[derive(Clone, Copy)]
pub(crate) struct Outcome {
    /// How it ended, and what the checker says of its lines.
    pub(crate) said: &'static str,
    /// The least value of the goal that was found.
    pub(crate) value: Option<i64>,
    /// Its lines.
    pub(crate) counts: Counts,
    /// The bytes of its text.
    pub(crate) bytes: usize,
    /// Nanoseconds of the search.
    pub(crate) search_time: u128,
    /// Nanoseconds of the check.
    pub(crate) check_time: u128,
}

/// Counts the lines.
fn count(lines: &[Line]) -> Counts {
    let mut counts = Counts {
        axioms: 0,
        uses: 0,
        chains: 0,
        decisions: 0,
        solutions: 0,
        lines: lines.len(),
    };
    for line in lines {
        counts.note(line);
    }
    counts
}

/// The goal that a variable is least, where there is one; None where it has no such number.
fn goals_of(
    alloc: Global,
    least: Option<u32>,
    variables: usize,
) -> Result<Option<Goals>, AllocError>
    ensures { IfOk result (λ o. IfSome o (λ goals. All (λ goal. goal.var < variables) goals)) }
{
    match least {
        None => Ok(Some(Goals::of(Vec::new(alloc)))),
        Some(var) if (var as usize) < variables => Ok(Some(Goals::of(vec![in alloc;
            GroundGoal { var, max: false },
        ]?))),
        Some(_) => Ok(None),
    }
}

/// The problem with goals.
fn with_goals(g: Ground, goals: Goals) -> Ground
    requires well_made { IsWellMade g }
    requires goals { All (λ goal. goal.var < length g.domains) goals }
    ensures { IsWellMade result }
{
    let builder = Builder::over_owned(g);
    builder.finish(goals)
}

/// The problem with its goal; None where that isn't known to be well made.
fn whole(alloc: Global, problem: Problem) -> Result<Option<Ground>, AllocError>
    ensures { IfOk result (λ o. IfSome o (λ g. IsWellMade g)) }
{
    if !is_search_well_made(&problem.ground, alloc)? {
        return Ok(None);
    }
    let variables = problem.ground.domains.items().len();
    match goals_of(alloc, problem.least, variables)? {
        Some(goals) => Ok(Some(with_goals(problem.ground, goals))),
        None => Ok(None),
    }
}

/// How a search ended, and what the checker says of its lines.
fn words(ended: Ended, verdict: &Result<Verdict, CheckError>) -> &'static str {
    match (ended, verdict) {
        (_, Err(_)) => "refused",
        (Ended::Spent, Ok(_)) => "open",
        (Ended::Closed, Ok(verdict)) => match verdict.kind() {
            VerdictKind::Best => "best",
            VerdictKind::NoSolution => "none",
            VerdictKind::Open => "open, though closed",
        },
    }
}

/// The value of the first goal in the verdict's solution.
fn value_of(g: &Ground, verdict: &Result<Verdict, CheckError>) -> Option<i64> {
    let goal = g.goals.items().first()?;
    match verdict {
        Ok(verdict) => verdict.values()?.get(goal.var as usize).copied(),
        Err(_) => None,
    }
}

/// So many hints, none of which is a value.
fn no_hints(alloc: Global, count: u32) -> Result<Vec<Option<i64>>, AllocError>
    ensures { IfOk result (λ hints. length hints.items ≡ count) }
{
    let mut hints = Vec::new(alloc);
    for _ in 0..count {
        hints.push(None)?;
    }
    Ok(hints)
}

/// Searches with so many decisions, and checks the lines; None where the problem isn't known to be
/// well made.
pub(crate) fn searched<R: Runtime>(
    rt: &R,
    limits: Limits,
    problem: Problem,
    kit: &mut Kit,
    chooser: &Chooser,
) -> Result<Option<Outcome>, AllocError> {
    let alloc = limits.alloc;
    let Some(g) = whole(alloc, problem)? else {
        return Ok(None);
    };
    let hints = no_hints(alloc, g.search)?;
    let mut journal = Journal::new(alloc);
    let clock = Clock::start(rt);
    let ended = search(limits, &g, kit, chooser, hints.as_slice(), &mut journal)?;
    let search_time = clock.passed(rt);
    let clock = Clock::start(rt);
    let verdict = check(alloc, &g, journal.lines());
    let check_time = clock.passed(rt);
    Ok(Some(Outcome {
        said: words(ended, &verdict),
        value: value_of(&g, &verdict),
        counts: count(journal.lines()),
        bytes: journal.text()?.len(),
        search_time,
        check_time,
    }))
}
