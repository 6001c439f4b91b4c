//! What it costs to tell whether a constraint of many parts justifies a clause. The checker of logs
//! asks that at each `axiom` line.
//!
//! For each row there are two clauses: one that leaves the first half of the parts different values
//! and is not justified, and one that leaves them all the same value and is.
use crate::rule_cases::{Case, ROWS, fixing, nth_case};
use crate::rule_timing::{count_justified, nanoseconds};
use signed_clause::Clause;
use std::alloc::AllocError;
use std::io;
use test_well_made::is_constraint_well_made;

/// What is printed of a clause of the case.
fn told(rt: &HostRuntime, case: &Case, clause: &Clause, timed: bool) -> Result<String, AllocError> {
    let domains = case.domains.as_slice();
    if !is_constraint_well_made(&case.con, domains, rt.alloc())? {
        return format!(in rt.alloc(); "no problem");
    }
    if timed {
        let time = nanoseconds(rt, &case.con, domains, clause);
        return format!(in rt.alloc(); "{time} ns");
    }
    if count_justified(&case.con, domains, clause, 1) == 1 {
        format!(in rt.alloc(); "justified")
    } else {
        format!(in rt.alloc(); "not justified")
    }
}

/// Prints a line of the table.
fn show(rt: &HostRuntime, case: &Case, timed: bool) -> io::Result<()> {
    let half = case.parts / 2;
    let apart = fixing(rt.alloc(), case.domains.as_slice(), half, true)?;
    let alike = fixing(rt.alloc(), case.domains.as_slice(), half, false)?;
    let (Some(apart), Some(alike)) = (apart, alike) else {
        println!(rt; "{} {}: no clause", case.name, case.parts)?;
        return Ok(());
    };
    let one = told(rt, case, &apart, timed)?;
    let other = told(rt, case, &alike, timed)?;
    println!(rt;
        "{} {}: apart {}, alike {}",
        case.name, case.parts, one, other
    )?;
    Ok(())
}

/// Prints the table.
pub(crate) fn show_rules(rt: &HostRuntime, timed: bool) -> io::Result<()> {
    println!(rt; "rules:")?;
    for row in 0..ROWS {
        let case = nth_case(rt.alloc(), row)?;
        show(rt, &case, timed)?;
    }
    Ok(())
}
