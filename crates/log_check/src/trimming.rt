//! Logs without the lines that nobody needs.
//!
//! Where the empty clause was made, most clauses of a search are named by no chain that leads to
//! it. Such lines are left out, and the chains that stay get the numbers that clauses have then.
//! One pass back over the lines finds which are needed, and one pass forwards copies them.
ghost use Rattle.std.specs.Prelude.{◌≡◌, ◌+◌, ◌<◌, ◌≤◌, ◌^◌, ◌++◌, [], ◌∷◌, true, cond, IfOk, OnOk, length};
ghost use Rattle.ground_form.specs.WellMade.{IsWellMade};
ghost use Rattle.log_form.specs.Acceptance.{accepted, verdict};
ghost use Rattle.log_check.specs.Trimmed as definition;
ghost use Rattle.log_check.specs.Trimmed.{trimmed, trimmed_from, renumbered, steps_renumbered, numbers_from, next_number};
ghost use Rattle.log_check.specs.Marks.{needs};

use crate::closing::is_closed;
use crate::needed::{count_clauses, needed_lines};
use ground_form::Ground;
use log_form::{Line, Lines};
use numbered_clauses::{Chain, ChainSteps};
use std::alloc::{AllocError, Global};

/// The lines that are needed of accepted ones, in their order; all of them where the empty clause
/// wasn't made.
///
/// Needed are the last line, each line whose clause a needed Chain names, and every Found and every
/// Bound line. The result is accepted too, with the same verdict.
///
/// # Errors
/// `AllocError` where there is no memory for the lines.
#[tactic(auto, using(crate::proofs::TrimLaws::trimmed_accepted, crate::proofs::TrimLaws::trimmed_verdict))]
pub fn trim(alloc: Global, g: &Ground, lines: &[Line]) -> Result<Lines, AllocError>
    requires well_made { IsWellMade g.now }
    requires accepted { accepted g.now lines.now ≡ true }
    ensures lines { IfOk result (λ kept. kept ≡ trimmed g.now lines.now) }
    ensures accepted { IfOk result (λ kept. accepted g.now kept ≡ true) }
    ensures verdict { IfOk result (λ kept. verdict g.now kept ≡ verdict g.now lines.now) }
{
    let kept = if is_closed(alloc, g, lines)? {
        needed_alone(alloc, g, lines)?
    } else {
        same_lines(alloc, lines)?
    };
    Ok(kept)
}

/// The same lines again.
fn same_lines(alloc: Global, lines: &[Line]) -> Result<Lines, AllocError>
    ensures { IfOk result (λ kept. kept ≡ lines.now) }
{
    let mut kept = Vec::new(alloc);
    for line in lines {
        kept.push(line.copy()?)?;
    }
    Ok(Lines::of(kept))
}

/// The needed lines, with the numbers that clauses have then.
fn needed_alone(alloc: Global, g: &Ground, lines: &[Line]) -> Result<Lines, AllocError>
    ensures { IfOk result (λ kept. kept ≡ trimmed_from g.now [] 0 lines.now) }
{
    let needed = needed_lines(alloc, g, lines)?;
    kept_lines(alloc, g, lines, needed.as_slice())
}

/// The lines that are told to be needed, with the numbers that clauses have then.
fn kept_lines(
    alloc: Global,
    g: &Ground,
    lines: &[Line],
    needed: &[bool],
) -> Result<Lines, AllocError>
    requires { needed.now ≡ needs g.now 0 lines.now }
    ensures { IfOk result (λ kept. kept ≡ trimmed_from g.now [] 0 lines.now) }
{
    let mut kept = Vec::new(alloc);
    let mut numbers = Vec::new(alloc);
    let mut next = 0;
    for (k, line) in lines.iter().enumerate() {
        push_kept(alloc, &mut kept, needed[k], &numbers, line)?;
        next = push_numbers(&mut numbers, needed[k], count_clauses(g, line), next)?;
    }
    Ok(Lines::of(kept))
}

/// Adds the line with these numbers, where it stays.
fn push_kept(
    alloc: Global,
    kept: &mut Vec<Line>,
    stays: bool,
    numbers: &[u64],
    line: &Line,
) -> Result<(), AllocError>
    ensures { OnOk result (kept.new.items ≡ kept.old.items
        ++ cond stays (renumbered numbers.now line.now ∷ []) []) }
{
    if stays {
        kept.push(with_numbers(alloc, numbers, line)?)?;
    }
    Ok(())
}

/// Adds the numbers of clauses that stay or go, and answers the next number.
#[tactic(auto, using(crate::proofs::Renumbering::numbers_more, crate::proofs::Renumbering::next_more))]
fn push_numbers(
    numbers: &mut Vec<u64>,
    stays: bool,
    count: usize,
    next: u64,
) -> Result<u64, AllocError>
    requires { next ≤ length numbers.old.items }
    ensures numbers { OnOk result (numbers.new.items ≡ numbers.old.items ++ numbers_from stays count
        next) }
    ensures next { IfOk result (λ after. after ≡ next_number stays count next) }
    ensures bound { IfOk result (λ after. after ≤ length numbers.new.items) }
{
    let mut at = next;
    for _ in 0..count {
        numbers.push(at)?;
        at = number_behind(stays, at, numbers.len());
    }
    Ok(at)
}

/// The number behind that of a clause that stays or goes.
fn number_behind(stays: bool, at: u64, count: usize) -> u64
    requires { at < count }
    ensures value { result ≡ next_number stays 1 at }
    ensures bound { result ≤ count }
{
    if stays { at + 1 } else { at }
}

/// The line with these numbers in place of those of clauses.
fn with_numbers(alloc: Global, numbers: &[u64], line: &Line) -> Result<Line, AllocError>
    ensures { IfOk result (λ l. l ≡ renumbered numbers.now line.now) }
{
    match line {
        Line::Chain(chain, clause) => {
            let steps = steps_with_numbers(alloc, numbers, chain.steps.items())?;
            let first = number_of(numbers, chain.first);
            Ok(Line::Chain(Chain { first, steps }, clause.copy()?))
        }
        _ => line.copy(),
    }
}

/// The steps with these numbers.
fn steps_with_numbers(
    alloc: Global,
    numbers: &[u64],
    steps: &[(u32, u64)],
) -> Result<ChainSteps, AllocError>
    ensures { IfOk result (λ l. l ≡ steps_renumbered numbers.now steps.now) }
{
    let mut items = Vec::new(alloc);
    for step in steps {
        items.push((step.0, number_of(numbers, step.1)))?;
    }
    Ok(ChainSteps::of(items))
}

/// The number of a clause, out of the list of them.
fn number_of(numbers: &[u64], j: u64) -> u64
    ensures { result ≡ definition.number_of numbers.now j }
{
    if j < numbers.len() as u64 {
        numbers[j as usize]
    } else {
        0
    }
}
