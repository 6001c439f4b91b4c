//! One search, and what is compared.
ghost use Rattle.std.specs.Prelude.{◌≡◌, ◌≤◌, true, length};
ghost use Rattle.ground_form.specs.WellMade.{IsWellMade};
ghost use Rattle.log_form.specs.Acceptance.{accepted};

use bound_search::{Ended, Limits, search};
use branch_choice::Chooser;
use ground_form::Ground;
use log_check::{Verdict, VerdictKind, check, trim};
use log_form::Line;
use proof_log::Journal;
use rule_law::Kit;
use std::alloc::{AllocError, Global};
use test_plain_runs::{Deciding, Mode, Run, Way};
use test_small_problems::{Row, is_better, is_solution, point_of};

/// What was seen of a search.
#[derive(Clone, Copy, Debug, PartialEq, Eq)]
pub(crate) enum Seen {
    /// It closed, and everything was right.
    Closed,
    /// It spent its budget, and everything was right.
    Spent,
    /// The problem isn't well made.
    NotMade,
    /// The checker refuses the lines.
    Refused,
    /// This line may not stand in a run.
    NoRun(u64),
    /// It ended as it may not end there.
    WrongEnd,
    /// The answer isn't that of enumeration.
    WrongAnswer,
    /// The trimmed lines have another verdict.
    WrongTrim,
}

/// What a search came to.
#[derive(Clone, Copy, Debug)]
pub(crate) struct Report {
    pub(crate) seen: Seen,
    /// The solution found last.
    pub(crate) found: Option<Row>,
    /// How many decisions there were.
    pub(crate) decisions: u64,
    /// How many clauses were learnt.
    pub(crate) learnt: u64,
    /// How many clauses of constraints were written.
    pub(crate) axioms: u64,
    /// How many lines there were, where lines were left out.
    pub(crate) lines: u64,
    /// How many of them can't be left out.
    pub(crate) needed: u64,
}

/// A problem, and what is known of it by a look at every point.
#[derive(Drop)]
pub(crate) struct Case {
    pub(crate) ground: Ground,
    pub(crate) hints: Vec<Option<i64>>,
    /// The domains as bits.
    pub(crate) domains: Row,
    /// A best solution.
    pub(crate) best: Option<Row>,
    /// How many points the searched variables have.
    pub(crate) size: u64,
}

/// What a search is made with, and plain probing beside it.
#[derive(Drop)]
pub(crate) struct Tools {
    pub(crate) alloc: Global,
    pub(crate) kit: Kit,
    pub(crate) plain: Kit,
    pub(crate) chooser: Chooser,
    pub(crate) way: Way,
    /// Whether each line is left out once.
    pub(crate) leaves_out: bool,
}

/// How many decisions were allowed, and how the search ended.
#[derive(Clone, Copy)]
struct Asked {
    budget: u32,
    ended: Ended,
}

/// Whether the values are a solution, and as good as the best.
fn is_best(case: &Case, values: &[i64]) -> bool {
    let point = point_of(values);
    let count = case.ground.domains.items().len();
    let goals = case.ground.goals.items();
    match &case.best {
        Some(best) => {
            values.len() == count
                && point.are_some(count)
                && point.lies_within(&case.domains)
                && is_solution(&case.ground, &point)
                && !is_better(goals, best, &point)
        }
        None => false,
    }
}

/// Whether the verdict is what enumeration says.
fn is_answer(case: &Case, verdict: &Verdict) -> bool {
    match (verdict.kind(), verdict.values()) {
        (VerdictKind::Best, Some(values)) => is_best(case, values),
        (VerdictKind::NoSolution, None) => case.best.is_none(),
        _ => false,
    }
}

/// Whether two verdicts are the same.
fn are_same(one: &Verdict, other: &Verdict) -> bool {
    one.kind() == other.kind() && one.values() == other.values()
}

/// Whether the lines are accepted, with the right verdict where they are closed, and the same one
/// behind trimming.
fn look_at_log(alloc: Global, case: &Case, lines: &[Line], closed: bool) -> Result<Seen, AllocError>
    requires { IsWellMade case.now.ground }
{
    let g = &case.ground;
    let Ok(verdict) = check(alloc, g, lines) else {
        return Ok(Seen::Refused);
    };
    let kept = trim(alloc, g, lines)?;
    let Ok(trimmed) = check(alloc, g, kept.items()) else {
        return Ok(Seen::WrongTrim);
    };
    if !are_same(&verdict, &trimmed) {
        return Ok(Seen::WrongTrim);
    }
    if closed {
        return Ok(if is_answer(case, &verdict) {
            Seen::Closed
        } else {
            Seen::WrongAnswer
        });
    }
    Ok(if verdict.kind() == VerdictKind::Open {
        Seen::Spent
    } else {
        Seen::WrongAnswer
    })
}

/// The number, counted from 1, of the first line that no run has there; none where the lines are
/// those of a run.
fn first_wrong(
    tools: &mut Tools,
    case: &Case,
    lines: &[Line],
    run: &mut Run,
) -> Result<Option<u64>, AllocError>
    requires { IsWellMade case.now.ground }
{
    let by = Deciding {
        way: tools.way,
        hints: case.hints.as_slice(),
    };
    for (k, line) in lines.iter().enumerate() {
        if !run.follow(&case.ground, &mut tools.plain, by, line)? {
            return Ok(Some((k as u64).saturating_add(1)));
        }
    }
    Ok(None)
}

/// Whether the lines without the one of this place are seen to be no run to the end.
fn is_needed(
    tools: &mut Tools,
    case: &Case,
    lines: &[Line],
    place: usize,
) -> Result<bool, AllocError>
    requires { IsWellMade case.now.ground }
{
    let by = Deciding {
        way: tools.way,
        hints: case.hints.as_slice(),
    };
    let mut run = Run::new(tools.alloc, case.domains)?;
    for (k, line) in lines.iter().enumerate() {
        if k != place && !run.follow(&case.ground, &mut tools.plain, by, line)? {
            return Ok(true);
        }
    }
    Ok(run.mode != Mode::Closed)
}

/// How many of the lines can't be left out.
fn count_needed(tools: &mut Tools, case: &Case, lines: &[Line]) -> Result<u64, AllocError>
    requires { IsWellMade case.now.ground }
{
    let mut needed = 0u64;
    for place in 0..lines.len() {
        needed = needed.saturating_add(u64::from(is_needed(tools, case, lines, place)?));
    }
    Ok(needed)
}

/// Whether the search may end so with this budget.
fn may_end(tools: &mut Tools, case: &Case, run: &Run, asked: Asked) -> Result<bool, AllocError>
    requires { IsWellMade case.now.ground }
{
    match asked.ended {
        Ended::Closed => Ok(run.mode == Mode::Closed && run.decisions < case.size.max(1)),
        Ended::Spent => {
            let further = run.may_decide(&case.ground, &mut tools.plain)?;
            let enough = case.size.saturating_sub(1) <= u64::from(asked.budget);
            Ok(further && !enough && run.decisions == u64::from(asked.budget))
        }
    }
}

/// Looks at the lines of a search, and at how it ended.
fn look(
    tools: &mut Tools,
    case: &Case,
    lines: &[Line],
    run: &mut Run,
    asked: Asked,
) -> Result<Seen, AllocError>
    requires { IsWellMade case.now.ground }
{
    if let Some(n) = first_wrong(tools, case, lines, run)? {
        return Ok(Seen::NoRun(n));
    }
    if !may_end(tools, case, run, asked)? {
        return Ok(Seen::WrongEnd);
    }
    look_at_log(
        tools.alloc,
        case,
        lines,
        matches!(asked.ended, Ended::Closed),
    )
}

/// Searches once, and looks at everything.
pub(crate) fn try_once(tools: &mut Tools, case: &Case, budget: u32) -> Result<Report, AllocError>
    requires well_made { IsWellMade case.now.ground }
    requires hints { case.now.ground.search ≤ length case.now.hints.items }
{
    let alloc = tools.alloc;
    let mut record = Journal::new(alloc);
    tools.kit.begin();
    let limits = Limits { alloc, budget };
    let hints = case.hints.as_slice();
    let ended = search(
        limits,
        &case.ground,
        &mut tools.kit,
        &tools.chooser,
        hints,
        &mut record,
    )?;
    let mut run = Run::new(alloc, case.domains)?;
    let seen = look(
        tools,
        case,
        record.lines(),
        &mut run,
        Asked { budget, ended },
    )?;
    let mut report = Report {
        seen,
        found: run.found,
        decisions: run.decisions,
        learnt: run.learnt_count(),
        axioms: run.axioms,
        lines: 0,
        needed: 0,
    };
    if tools.leaves_out {
        report.lines = record.lines().len() as u64;
        report.needed = count_needed(tools, case, record.lines())?;
    }
    Ok(report)
}
