//! How fast logs are checked: axioms, and chains of steps over long clauses.
//!
//! Of short logs it is printed what `check` and `feed` say, of long ones how many lines a second
//! each takes.
use crate::log_timing::{answers, speeds};
use crate::logs::{KINDS, Log, nth_log, problem};
use ground_form::Ground;
use std::io;
use test_well_made::is_search_well_made;

/// Prints a line of the table.
fn show(rt: &HostRuntime, g: &Ground, log: &Log, timed: bool) -> io::Result<()> {
    let alloc = rt.alloc();
    if !is_search_well_made(g, alloc)? {
        println!(rt; "{}: no problem", log.name)?;
        return Ok(());
    }
    if timed {
        let (check, feed) = speeds(rt, alloc, g, log)?;
        println!(rt;
            "{}: {} bytes, check {} lines/s, feed {} lines/s",
            log.name,
            log.text.len(),
            check,
            feed
        )?;
        return Ok(());
    }
    let (check, feed) = answers(alloc, g, log)?;
    println!(rt;
        "{}: {} bytes, check {}, feed {}",
        log.name,
        log.text.len(),
        check,
        feed
    )?;
    Ok(())
}

/// Prints the table.
pub(crate) fn show_logs(rt: &HostRuntime, timed: bool) -> io::Result<()> {
    println!(rt; "logs:")?;
    let alloc = rt.alloc();
    let g = problem(alloc)?;
    for kind in 0..KINDS {
        let log = nth_log(alloc, kind, if timed { 1000 } else { 1 })?;
        show(rt, &g, &log, timed)?;
    }
    Ok(())
}
