//! Cases of whole runs of the command, of repairs, of desks, and of limits. The program runs it on
//! the cases of files, and prints of each file how many came out as they say.
//!
//! The files lie in `data`; `cases` says how they are written, and `desks` what those ask that are
//! about desks, limits, words and logs. `repairs.series` is what `tools/repair-cases` wrote,
//! `sessions.series` what `tools/session-cases` did, and `cores.series` what `tools/core-cases`
//! did, which try every configuration. A case that came out otherwise is printed with its line and
//! what the run printed and how it ended.
#![tactic(auto)]

mod cases;
mod desks;
mod runs;

ghost use Rattle.branch_choice.specs.Picks.{IsAsked, IsPick};
ghost use Rattle.branch_choice.specs.declared.split.Order.TheVariants as orders;

use crate::cases::{Case, cases_of};
use crate::runs::{Parts, behind_first_line, run_case};
use bool_prop::BoolProp;
use branch_choice::{Chooser, Order, Pick, Split, first, former, small};
use desk_io::{RealDesk, read_all};
use desks::Desks;
use element_prop::ElementProp;
use linear_prop::LinearProp;
use pack_prop::PackProp;
use rule_law::{Kit, Propagator};
use signed_clause::IntSet;
use std::alloc::AllocError;
use std::fs;
use std::process::ExitCode;
use test_case_files::run_file as run_desks;

/// The files of cases.
const FILES: [&str; 6] = [
    "answered.cases",
    "refused-texts.cases",
    "refused-meanings.cases",
    "verified.cases",
    "repairs.cases",
    "repairs.series",
];

/// The files of what is asked of desks, and of runs over them.
const DESK_FILES: [&str; 9] = [
    "desks.cases",
    "limits.cases",
    "words.cases",
    "searches.cases",
    "repair-desks.cases",
    "sessions.cases",
    "sessions.series",
    "cores.cases",
    "cores.series",
];

/// Whether this is what the case says is printed.
fn is_printed(case: &Case<'_>, printed: &[u8]) -> bool {
    if case.shown.is_empty() {
        printed == case.printed.as_slice()
    } else {
        behind_first_line(printed) == case.shown.as_slice()
    }
}

/// Runs the case, and whether it came out as it says. Where it didn't, what came is printed.
fn is_as_said(
    rt: &HostRuntime,
    parts: &mut Parts,
    file: &str,
    case: &Case<'_>,
) -> Result<bool, AllocError> {
    let alloc = rt.alloc();
    let came = run_case(alloc, parts, case)?;
    if is_printed(case, came.printed.as_slice()) && came.status.as_bytes() == case.status {
        return Ok(true);
    }
    let line = case.line;
    let printed = String::from_utf8_lossy(alloc, &came.printed)?;
    let status = came.status;
    let _ = println!(rt; "{file}:{line}: printed\n{printed}and ended with '{status}'");
    Ok(false)
}

/// Runs the cases of a file, and prints how many there are and how many came out as they say.
fn run_file(
    rt: &HostRuntime,
    desk: &mut RealDesk<HostRuntime>,
    parts: &mut Parts,
    file: &str,
) -> Result<(), AllocError> {
    let alloc = rt.alloc();
    let Ok(text) = read_all(alloc, desk, file, 1_000_000) else {
        let _ = println!(rt; "{file}: can't be read");
        return Ok(());
    };
    let cases = cases_of(alloc, &text)?;
    let mut right = 0_u64;
    for case in &cases {
        if is_as_said(rt, parts, file, case)? {
            right = right.saturating_add(1);
        }
    }
    let count = cases.len();
    let _ = println!(rt; "{file}: {right} of {count} as they say");
    Ok(())
}

/// Runs all files.
fn run_files(rt: &HostRuntime, desks: &mut Desks) -> Result<(), AllocError> {
    let mut desk = RealDesk::new(rt.clone()?);
    for file in FILES {
        run_file(rt, &mut desk, &mut desks.parts, file)?;
    }
    for file in DESK_FILES {
        run_desks(rt, file, desks)?;
    }
    let _ = fs::remove_file(rt, "desk_io.txt");
    Ok(())
}

/// Runs all files with this kit, and a chooser for each of the orders first, small and former.
fn run_with(rt: &HostRuntime, kit: Kit) -> Result<(), AllocError> {
    let alloc = rt.alloc();
    let by_first: Pick = Box::new(
        alloc,
        move |boxes: &[IntSet], hints: &[Option<i64>], search: u32| -> Option<Split>
            requires { IsAsked boxes.now hints.now search }
            ensures { IsPick orders.First boxes.now hints.now search result }
        { first(boxes, hints, search) },
    )?;
    let by_small: Pick = Box::new(
        alloc,
        move |boxes: &[IntSet], hints: &[Option<i64>], search: u32| -> Option<Split>
            requires { IsAsked boxes.now hints.now search }
            ensures { IsPick orders.Small boxes.now hints.now search result }
        { small(boxes, hints, search) },
    )?;
    let by_former: Pick = Box::new(
        alloc,
        move |boxes: &[IntSet], hints: &[Option<i64>], search: u32| -> Option<Split>
            requires { IsAsked boxes.now hints.now search }
            ensures { IsPick orders.Former boxes.now hints.now search result }
        { former(boxes, hints, search) },
    )?;
    let choosers = [
        Chooser::new(Order::First, by_first),
        Chooser::new(Order::Small, by_small),
        Chooser::new(Order::Former, by_former),
    ];
    run_files(rt, &mut Desks::new(rt.clone()?, Parts { kit, choosers }))
}

/// Runs all files with the propagators of all kinds of constraints.
fn run_all(rt: &HostRuntime) -> Result<(), AllocError> {
    let alloc = rt.alloc();
    let sums: Box<dyn Propagator> = Box::new(alloc, LinearProp::new(alloc))?;
    let truths: Box<dyn Propagator> = Box::new(alloc, BoolProp::new(alloc))?;
    let choices: Box<dyn Propagator> = Box::new(alloc, ElementProp::new(alloc))?;
    let packings: Box<dyn Propagator> = Box::new(alloc, PackProp::new(alloc))?;
    match Kit::new(vec![in alloc; sums, truths, choices, packings]?) {
        Ok(kit) => run_with(rt, kit),
        Err(_) => Err(AllocError),
    }
}

fn main(rt: HostRuntime) -> ExitCode {
    match run_all(&rt) {
        Ok(()) => ExitCode::from(0),
        Err(_) => ExitCode::from(12),
    }
}
