//! What whole searches come to and cost: pigeons with one hole too few, and packings of items with
//! two sizes into bins, each by sums and by packing constraints.
//!
//! Counts of lines are printed, with small budgets for the packings, or how long searches and
//! checks take, with large ones.
use crate::rows::{ROWS, Row, nth_row, problem_of};
use crate::running::{Outcome, searched};
use bound_search::Limits;
use branch_choice::Chooser;
use rule_law::Kit;
use std::io;
use test_clock::{is_picked, per_second};

/// Prints what a search came to.
fn show(rt: &HostRuntime, row: Row, seen: &Outcome, timed: bool) -> io::Result<()> {
    let counts = seen.counts;
    match seen.value {
        Some(value) => println!(rt; "{}: {}, least {}", row.name, seen.said, value)?,
        None => println!(rt; "{}: {}", row.name, seen.said)?,
    }
    println!(rt;
        "  {} decisions, {} axioms, {} uses, {} chains, {} solutions, {} lines, {} bytes",
        counts.decisions,
        counts.axioms,
        counts.uses,
        counts.chains,
        counts.solutions,
        counts.lines,
        seen.bytes
    )?;
    if timed {
        let prunings = counts.axioms.saturating_add(counts.uses);
        println!(rt;
            "  search {} us, {} prunings a second, check {} us",
            seen.search_time / 1_000,
            per_second(prunings, seen.search_time),
            seen.check_time / 1_000
        )?;
    }
    Ok(())
}

/// Searches the row's problem, and prints what that came to.
fn show_row(
    rt: &HostRuntime,
    row: Row,
    kit: &mut Kit,
    chooser: &Chooser,
    timed: bool,
) -> io::Result<()> {
    let limits = Limits {
        alloc: rt.alloc(),
        budget: if timed { row.large } else { row.small },
    };
    let problem = problem_of(rt.alloc(), row)?;
    match searched(rt, limits, problem, kit, chooser)? {
        Some(seen) => show(rt, row, &seen, timed),
        None => {
            println!(rt; "{}: no problem", row.name)?;
            Ok(())
        }
    }
}

/// Prints the rows that the words pick.
pub(crate) fn show_searches(
    rt: &HostRuntime,
    kit: &mut Kit,
    chooser: &Chooser,
    timed: bool,
) -> io::Result<()> {
    let all = is_picked(rt, "searches")?;
    if all {
        println!(rt; "searches:")?;
    }
    for number in 0..ROWS {
        let row = nth_row(number);
        if all || is_picked(rt, row.name)? {
            show_row(rt, row, kit, chooser, timed)?;
        }
    }
    Ok(())
}
