//! Problems that are built call by call: that each call succeeds, and what it leaves. `sums`,
//! `definitions`, `again` and `statements` each ask for one problem: the numbers that calls gave,
//! the domains, the kinds of the constraints with the lengths of their lists, how many variables
//! are searched, and the goals.
ghost use Rattle.std.specs.Prelude.{IfOk};
ghost use Rattle.ground_form.specs.WellMade.{IsWellMade};

use ground_build::Builder;
use ground_form::{Con, Goals, Ground, GroundGoal, kind_of};
use signed_clause::{Clause, IntSet};
use std::alloc::{AllocError, Global};
use test_case_files::{Case, Subject, push_word};
use test_problems::sets_text;

/// What is asked of problems that are built.
#[derive(Drop)]
pub(crate) struct Building;

/// Two cells of 0..3, a sum of them with an offset, a flag for a bound on it, and a bound.
fn sums_and_bounds(alloc: Global) -> Result<(u32, u32, Ground), AllocError> {
    let cells = [IntSet::range(alloc, 0, 3), IntSet::range(alloc, 0, 3)];
    let mut b = Builder::new(alloc, &cells)?;
    let sum = b.linear(&[(1, 0), (2, 1)], 5)?;
    let flag = b.at_most(&[(1, 2)], 10)?;
    b.require_at_most(&[(1, 0)], 2)?;
    Ok((sum, flag, b.finish(Goals::of(Vec::new(alloc)))))
}

/// Three flags as cells, and one variable for each call that defines one over them.
fn definitions(alloc: Global) -> Result<Ground, AllocError>
    ensures { IfOk result (λ g. IsWellMade g) }
{
    let cells = [
        IntSet::range(alloc, 0, 1),
        IntSet::range(alloc, 0, 1),
        IntSet::range(alloc, 4, 7),
    ];
    let mut b = Builder::new(alloc, &cells)?;
    b.all_of(&[(0, true), (1, false)])?;
    b.all_of(&[])?;
    b.member(2, IntSet::range(alloc, 5, 6))?;
    b.same(0, 1)?;
    b.pick(0, &[(0, 1), (1, 2)])?;
    b.when(1, 2)?;
    Ok(b.finish(Goals::of(vec![in alloc; GroundGoal { var: 8, max: true }]?)))
}

/// The same problem again, without its goal.
fn again(alloc: Global) -> Result<Ground, AllocError> {
    let g = definitions(alloc)?;
    let b = Builder::over(&g)?;
    Ok(b.finish(Goals::of(Vec::new(alloc))))
}

/// Statements over three cells: a clause, and of no, one and three places or items.
fn statements(alloc: Global) -> Result<Ground, AllocError> {
    let cells = [
        IntSet::range(alloc, 0, 9999),
        IntSet::range(alloc, 0, 5),
        IntSet::range(alloc, -5, 5),
    ];
    let mut b = Builder::new(alloc, &cells)?;
    b.require_different(&[])?;
    b.require_different(&[1])?;
    b.require_different(&[0, 1, 2])?;
    b.require_pack(&[])?;
    b.require_pack(&[(0, 1, 2)])?;
    b.require_pack(&[(0, 1, 2), (0, 1, 2), (1, 1, 2)])?;
    if let Ok(clause) = Clause::of(vec![in alloc; (2u32, IntSet::range(alloc, 0, 0))]?) {
        b.require(clause)?;
    }
    Ok(b.finish(Goals::of(Vec::new(alloc))))
}

/// The kind of a constraint, and the length of its list where it is one of variables or items.
fn constraint_text(alloc: Global, con: &Con) -> Result<String, AllocError> {
    let kind = kind_of(con);
    let length = match con {
        Con::AllDiff { vars } => vars.items().len(),
        Con::Pack { items } => items.items().len(),
        _ => return format!(in alloc; "{kind:?}"),
    };
    format!(in alloc; "{kind:?}-{length}")
}

/// The constraints of a problem, as a text.
fn constraints_text(alloc: Global, cons: &[Con]) -> Result<String, AllocError> {
    let mut text = String::new(alloc);
    for con in cons {
        push_word(&mut text, &constraint_text(alloc, con)?)?;
    }
    Ok(text)
}

/// The goals of a problem, as a text.
fn goals_text(alloc: Global, goals: &[GroundGoal]) -> Result<String, AllocError> {
    if goals.is_empty() {
        return String::from_str(alloc, "no goals");
    }
    let mut text = String::new(alloc);
    for goal in goals {
        let word = if goal.max { "max" } else { "min" };
        let x = goal.var;
        push_word(&mut text, &format!(in alloc; "{word}-{x}")?)?;
    }
    Ok(text)
}

/// A problem, as a text.
fn problem_text(alloc: Global, g: &Ground) -> Result<String, AllocError> {
    let domains = sets_text(alloc, g.domains.items())?;
    let constraints = constraints_text(alloc, g.cons.items())?;
    let goals = goals_text(alloc, g.goals.items())?;
    let search = g.search;
    format!(in alloc; "{domains} | {constraints} | {search} | {goals}")
}

/// The sum and the bound, with the numbers that calls gave.
fn sums_text(alloc: Global) -> Result<String, AllocError> {
    let (sum, flag, g) = sums_and_bounds(alloc)?;
    let problem = problem_text(alloc, &g)?;
    format!(in alloc; "{sum} {flag} | {problem}")
}

impl Subject for Building {
    fn answer(&mut self, alloc: Global, case: &Case<'_>) -> Result<String, AllocError> {
        match case.ask {
            "sums" => sums_text(alloc),
            "definitions" => problem_text(alloc, &definitions(alloc)?),
            "again" => problem_text(alloc, &again(alloc)?),
            _ => problem_text(alloc, &statements(alloc)?),
        }
    }
}
