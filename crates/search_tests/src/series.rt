//! Series of searches, over the problems of many seeds.
ghost use Rattle.std.specs.Prelude.{◌≡◌, ◌≤◌, true, length, IfOk};
ghost use Rattle.ground_form.specs.WellMade.{IsWellMade};
ghost use Rattle.branch_choice.specs.declared.split.Order.TheVariants as orders;
ghost use Rattle.branch_choice.specs.Picks.{IsAsked, IsPick};

use crate::choosing::greatest;
use crate::given::given;
use crate::trial::{Case, Report, Seen, Tools, try_once};
use bool_prop::BoolProp;
use branch_choice::{Chooser, Order, Pick, Split, first, former, small};
use element_prop::ElementProp;
use ground_form::Ground;
use linear_prop::LinearProp;
use pack_prop::PackProp;
use rule_law::{Kit, Propagator};
use signed_clause::IntSet;
use std::alloc::{AllocError, Global};
use test_plain_runs::Way;
use test_problems::Prober;
use test_small_problems::{Row, best_point, boxes_of, hints, problem, size};
use test_well_made::is_problem_well_made;

/// Where problems come from.
#[derive(Clone, Copy, Debug)]
pub(crate) enum Source {
    /// Random ones, by their seeds.
    Random,
    /// Given ones, by their numbers.
    Given,
}

/// How many decisions are allowed.
#[derive(Clone, Copy, Debug)]
pub(crate) enum Budgets {
    /// More than are ever needed.
    Ample,
    /// 0, 1, 2, and the two numbers below that of the searched variables' points.
    Tight,
    /// So many.
    Only(u32),
}

/// Which problems are searched, and how.
#[derive(Clone, Copy, Debug)]
pub(crate) struct Series {
    /// Where they come from.
    pub(crate) source: Source,
    /// The first seed or number.
    pub(crate) first: u64,
    /// How many there are.
    pub(crate) count: u64,
    /// How searches decide.
    pub(crate) way: Way,
    /// How many decisions are allowed.
    pub(crate) budgets: Budgets,
    /// Whether each line is left out once.
    pub(crate) leaves_out: bool,
}

/// What came of a series.
#[derive(Clone, Copy, Debug)]
pub(crate) struct Tally {
    /// How many searches closed.
    pub(crate) closed: u64,
    /// How many of them with a solution.
    pub(crate) solved: u64,
    /// How many spent their budget.
    pub(crate) spent: u64,
    /// How many decisions there were in all.
    pub(crate) decisions: u64,
    /// How many clauses were learnt in all.
    pub(crate) learnt: u64,
    /// How many clauses of constraints were written in all.
    pub(crate) axioms: u64,
    /// How many lines there were in all, where lines were left out.
    pub(crate) lines: u64,
    /// How many of them can't be left out.
    pub(crate) needed: u64,
    /// What the last search found last.
    pub(crate) found: Option<Row>,
    /// The first seed with something wrong, and what.
    pub(crate) wrong: Option<(u64, Seen)>,
}

/// The problem of a seed or number, with what is known of it.
fn case_of(alloc: Global, source: Source, seed: u64) -> Result<Case, AllocError> {
    let ground = match source {
        Source::Random => problem(alloc, seed)?,
        Source::Given => given(alloc, seed)?,
    };
    let hints = hints(alloc, seed, ground.search)?;
    let domains = boxes_of(ground.domains.items()).unwrap_or(Row::empty());
    let best = best_point(&ground, &domains);
    let size = size(&domains, ground.search as usize);
    Ok(Case {
        ground,
        hints,
        domains,
        best,
        size,
    })
}

/// Whether the problem may be searched.
fn is_ready(case: &Case, alloc: Global) -> Result<bool, AllocError>
    ensures well_made { IfOk result (λ yes. yes ≡ true → IsWellMade case.now.ground) }
    ensures hints { IfOk result (λ yes. yes ≡ true
        → case.now.ground.search ≤ length case.now.hints.items) }
{
    if case.hints.len() < case.ground.search as usize {
        return Ok(false);
    }
    is_problem_well_made(&case.ground, alloc)
}

/// One more search in the tally.
fn count(tally: &mut Tally, seed: u64, report: Report) {
    tally.decisions = tally.decisions.saturating_add(report.decisions);
    tally.learnt = tally.learnt.saturating_add(report.learnt);
    tally.axioms = tally.axioms.saturating_add(report.axioms);
    tally.lines = tally.lines.saturating_add(report.lines);
    tally.needed = tally.needed.saturating_add(report.needed);
    tally.found = report.found;
    match report.seen {
        Seen::Closed => {
            tally.closed = tally.closed.saturating_add(1);
            tally.solved = tally
                .solved
                .saturating_add(u64::from(report.found.is_some()));
        }
        Seen::Spent => tally.spent = tally.spent.saturating_add(1),
        seen => tally.wrong = Some(tally.wrong.unwrap_or((seed, seen))),
    }
}

/// The budgets that are tried, where the searched variables have so many points.
fn budgets_of(budgets: Budgets, size: u64) -> [u32; 5] {
    let size = size.min(1_000_000) as u32;
    match budgets {
        Budgets::Ample => [1_000_000; 5],
        Budgets::Tight => [0, 1, 2, size.saturating_sub(2), size.saturating_sub(1)],
        Budgets::Only(budget) => [budget; 5],
    }
}

/// A report on a problem that isn't well made.
fn not_made() -> Report {
    Report {
        seen: Seen::NotMade,
        found: None,
        decisions: 0,
        learnt: 0,
        axioms: 0,
        lines: 0,
        needed: 0,
    }
}

/// Searches one problem by each budget.
fn try_case(
    tools: &mut Tools,
    series: Series,
    seed: u64,
    tally: &mut Tally,
) -> Result<(), AllocError> {
    let case = case_of(tools.alloc, series.source, seed)?;
    if !is_ready(&case, tools.alloc)? {
        count(tally, seed, not_made());
        return Ok(());
    }
    let mut last = None;
    for budget in budgets_of(series.budgets, case.size) {
        if last != Some(budget) {
            let report = try_once(tools, &case, budget)?;
            count(tally, seed, report);
        }
        last = Some(budget);
    }
    Ok(())
}

/// Searches the problems with these kits and this chooser.
fn try_cases(
    alloc: Global,
    series: Series,
    kits: Kits,
    chooser: Chooser,
) -> Result<Tally, AllocError> {
    let mut tools = Tools {
        alloc,
        kit: kits.kit,
        plain: kits.plain,
        chooser,
        way: series.way,
        leaves_out: series.leaves_out,
    };
    let mut tally = Tally {
        closed: 0,
        solved: 0,
        spent: 0,
        decisions: 0,
        learnt: 0,
        axioms: 0,
        lines: 0,
        needed: 0,
        found: None,
        wrong: None,
    };
    for k in 0..series.count {
        try_case(&mut tools, series, series.first.wrapping_add(k), &mut tally)?;
    }
    Ok(tally)
}

/// The kit that is searched with, and plain probing beside it.
#[derive(Drop)]
struct Kits {
    kit: Kit,
    plain: Kit,
}

/// The searches that decide by the first order.
fn by_first(alloc: Global, series: Series, kits: Kits) -> Result<Tally, AllocError> {
    let pick: Pick = Box::new(
        alloc,
        move |boxes: &[IntSet], hints: &[Option<i64>], search: u32| -> Option<Split>
            requires { IsAsked boxes.now hints.now search }
            ensures { IsPick orders.First boxes.now hints.now search result }
        { first(boxes, hints, search) },
    )?;
    try_cases(alloc, series, kits, Chooser::new(Order::First, pick))
}

/// The searches that decide by the smallest box.
fn by_small(alloc: Global, series: Series, kits: Kits) -> Result<Tally, AllocError> {
    let pick: Pick = Box::new(
        alloc,
        move |boxes: &[IntSet], hints: &[Option<i64>], search: u32| -> Option<Split>
            requires { IsAsked boxes.now hints.now search }
            ensures { IsPick orders.Small boxes.now hints.now search result }
        { small(boxes, hints, search) },
    )?;
    try_cases(alloc, series, kits, Chooser::new(Order::Small, pick))
}

/// The searches that decide by hints.
fn by_former(alloc: Global, series: Series, kits: Kits) -> Result<Tally, AllocError> {
    let pick: Pick = Box::new(
        alloc,
        move |boxes: &[IntSet], hints: &[Option<i64>], search: u32| -> Option<Split>
            requires { IsAsked boxes.now hints.now search }
            ensures { IsPick orders.Former boxes.now hints.now search result }
        { former(boxes, hints, search) },
    )?;
    try_cases(alloc, series, kits, Chooser::new(Order::Former, pick))
}

/// The searches that decide by greatest values.
fn by_greatest(alloc: Global, series: Series, kits: Kits) -> Result<Tally, AllocError> {
    let pick: Pick = Box::new(
        alloc,
        move |boxes: &[IntSet], hints: &[Option<i64>], search: u32| -> Option<Split>
            requires { IsAsked boxes.now hints.now search }
            ensures { IsPick orders.Own boxes.now hints.now search result }
        { greatest(boxes, hints, search) },
    )?;
    try_cases(alloc, series, kits, Chooser::new(Order::Own, pick))
}

/// The searches with these kits.
fn with_kits(alloc: Global, series: Series, kits: Kits) -> Result<Tally, AllocError> {
    match series.way {
        Way::First => by_first(alloc, series, kits),
        Way::Small => by_small(alloc, series, kits),
        Way::Former => by_former(alloc, series, kits),
        Way::Greatest => by_greatest(alloc, series, kits),
    }
}

/// What comes of a series with the propagators that look closer.
pub(crate) fn run(alloc: Global, series: Series) -> Result<Tally, AllocError> {
    let linear: Box<dyn Propagator> = Box::new(alloc, LinearProp::new(alloc))?;
    let flags: Box<dyn Propagator> = Box::new(alloc, BoolProp::new(alloc))?;
    let choices: Box<dyn Propagator> = Box::new(alloc, ElementProp::new(alloc))?;
    let places: Box<dyn Propagator> = Box::new(alloc, PackProp::new(alloc))?;
    let probing: Box<dyn Propagator> = Box::new(alloc, Prober { alloc })?;
    let Ok(kit) = Kit::new(vec![in alloc; linear, flags, choices, places]?) else {
        return Err(AllocError);
    };
    match Kit::new(vec![in alloc; probing]?) {
        Ok(plain) => with_kits(alloc, series, Kits { kit, plain }),
        Err(_) => Err(AllocError),
    }
}

/// What comes of it with plain probing alone.
pub(crate) fn run_plainly(alloc: Global, series: Series) -> Result<Tally, AllocError> {
    let all: Box<dyn Propagator> = Box::new(alloc, Prober { alloc })?;
    let probing: Box<dyn Propagator> = Box::new(alloc, Prober { alloc })?;
    let Ok(kit) = Kit::new(vec![in alloc; all]?) else {
        return Err(AllocError);
    };
    match Kit::new(vec![in alloc; probing]?) {
        Ok(plain) => with_kits(alloc, series, Kits { kit, plain }),
        Err(_) => Err(AllocError),
    }
}
