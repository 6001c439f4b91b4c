//! What ground problems of models come to and cost.
//!
//! With no word the program prints how many variables, constraints and terms the ground problem of
//! each model has, but for the models that take longest. With the word `times` it prints how long
//! that takes; the first part of a row's name as a further word picks rows, also of those.
#![tactic(auto)]

mod counts;
mod grounding;
mod limits;
mod models;

use counts::{Counts, counts_of, nth_kind, of_kind};
use ground_form::Ground;
use grounding::{Grounded, made_ground};
use models::{QUICK_ROWS, ROWS, Row, nth_row, text_of};
use std::io;
use test_clock::{has_picks, is_picked, is_timed};

/// Prints how many constraints of each kind a problem has.
fn show_kinds(rt: &HostRuntime, g: &Ground) -> io::Result<()> {
    for number in 0..11 {
        let kind = nth_kind(number);
        let (count, terms) = of_kind(g, kind);
        if count > 0 {
            println!(rt; "  {:?}: {}, {} terms", kind, count, terms)?;
        }
    }
    Ok(())
}

/// Prints how large a problem is.
fn show(rt: &HostRuntime, row: Row, seen: &Grounded, timed: bool) -> io::Result<()> {
    let counts: Counts = counts_of(&seen.ground);
    println!(rt;
        "{}: weight {}, {} cells, {} variables, {} constraints, {} terms",
        row.name, seen.weight, counts.cells, counts.variables, counts.constraints, counts.terms
    )?;
    if timed {
        println!(rt;
            "  read and typed {} us, ground {} us",
            seen.typing_time / 1_000,
            seen.time / 1_000
        )?;
        return Ok(());
    }
    show_kinds(rt, &seen.ground)
}

/// Makes the row's model ground, and prints what that came to.
fn show_row(rt: &HostRuntime, row: Row, timed: bool) -> io::Result<()> {
    let text = text_of(rt.alloc(), row)?;
    match made_ground(rt, rt.alloc(), text.as_bytes())? {
        Some(seen) => show(rt, row, &seen, timed),
        None => {
            println!(rt; "{}: refused", row.name)?;
            Ok(())
        }
    }
}

fn main(rt: HostRuntime) -> io::Result<()> {
    let timed = is_timed(&rt)?;
    let shown = if has_picks(&rt)? { ROWS } else { QUICK_ROWS };
    for number in 0..shown {
        let row = nth_row(number);
        if is_picked(&rt, row.name)? {
            show_row(&rt, row, timed)?;
        }
    }
    Ok(())
}
