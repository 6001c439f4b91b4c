//! The program `confsolve`: words, real files, standard output, exit status. It collects the words
//! behind its name, runs the command that they are over real files and standard output, writes the
//! line of a status that has one on standard error, and ends with the status's number.
#![tactic(auto)]

ghost use Rattle.branch_choice.specs.Picks.{IsAsked, IsPick};
ghost use Rattle.branch_choice.specs.declared.split.Order.TheVariants as orders;

use bool_prop::BoolProp;
use branch_choice::{Chooser, Order, Pick, Split, first, former, small};
use confsolve_run::{Status, line_of, run};
use desk_io::RealDesk;
use element_prop::ElementProp;
use linear_prop::LinearProp;
use pack_prop::PackProp;
use proof_log::Journal;
use rule_law::{Kit, Propagator};
use signed_clause::IntSet;
use std::alloc::AllocError;
use std::io::ErrorKind;
use std::process::ExitCode;
use std::{env, io};

/// The words behind the program's name. A word that isn't UTF-8 is an error.
fn collected(rt: &HostRuntime) -> io::Result<Vec<String>> {
    Ok(env::args(rt)?.skip(1).collect(rt.alloc())?)
}

/// The words behind the program's name, or the status where they can't be had.
fn words_of(rt: &HostRuntime) -> Result<Vec<String>, Status> {
    match collected(rt) {
        Ok(words) => Ok(words),
        Err(e) if e.kind() == ErrorKind::OutOfMemory => Err(Status::Memory),
        Err(_) => Err(Status::Usage),
    }
}

/// Runs the command over real files.
fn run_words(
    rt: &HostRuntime,
    words: &[String],
    kit: &mut Kit,
    choosers: &[Chooser; 3],
) -> Result<Status, AllocError> {
    let mut desk = RealDesk::new(rt.clone()?);
    let mut journal = Journal::new(rt.alloc());
    Ok(run(rt.alloc(), words, &mut desk, kit, choosers, &mut journal))
}

/// Runs the command with a chooser for each of the orders first, small and former.
fn run_with(rt: &HostRuntime, words: &[String], kit: &mut Kit) -> Result<Status, AllocError> {
    let alloc = rt.alloc();
    let by_first: Pick = Box::new(
        alloc,
        move |boxes: &[IntSet], hints: &[Option<i64>], search: u32| -> Option<Split>
            requires { IsAsked boxes.now hints.now search }
            ensures { IsPick orders.First boxes.now hints.now search result }
        { first(boxes, hints, search) },
    )?;
    let by_small: Pick = Box::new(
        alloc,
        move |boxes: &[IntSet], hints: &[Option<i64>], search: u32| -> Option<Split>
            requires { IsAsked boxes.now hints.now search }
            ensures { IsPick orders.Small boxes.now hints.now search result }
        { small(boxes, hints, search) },
    )?;
    let by_former: Pick = Box::new(
        alloc,
        move |boxes: &[IntSet], hints: &[Option<i64>], search: u32| -> Option<Split>
            requires { IsAsked boxes.now hints.now search }
            ensures { IsPick orders.Former boxes.now hints.now search result }
        { former(boxes, hints, search) },
    )?;
    let choosers = [
        Chooser::new(Order::First, by_first),
        Chooser::new(Order::Small, by_small),
        Chooser::new(Order::Former, by_former),
    ];
    run_words(rt, words, kit, &choosers)
}

/// Runs the command with the propagators of all kinds of constraints.
fn run_all(rt: &HostRuntime, words: &[String]) -> Result<Status, AllocError> {
    let alloc = rt.alloc();
    let sums: Box<dyn Propagator> = Box::new(alloc, LinearProp::new(alloc))?;
    let truths: Box<dyn Propagator> = Box::new(alloc, BoolProp::new(alloc))?;
    let choices: Box<dyn Propagator> = Box::new(alloc, ElementProp::new(alloc))?;
    let packings: Box<dyn Propagator> = Box::new(alloc, PackProp::new(alloc))?;
    match Kit::new(vec![in alloc; sums, truths, choices, packings]?) {
        Ok(mut kit) => run_with(rt, words, &mut kit),
        Err(_) => Err(AllocError),
    }
}

/// The status of the command that the words behind the program's name are.
fn status_of(rt: &HostRuntime) -> Result<Status, Status> {
    let words = words_of(rt)?;
    Ok(run_all(rt, &words)?)
}

/// Writes the line of the status on standard error, where it has one.
fn tell(rt: &HostRuntime, status: &Status) -> Result<(), AllocError> {
    let line = line_of(rt.alloc(), status)?;
    if !line.is_empty() {
        let text = String::from_utf8_lossy(rt.alloc(), &line)?;
        let _ = eprintln!(rt; "{text}");
    }
    Ok(())
}

fn main(rt: HostRuntime) -> ExitCode {
    let status = match status_of(&rt) {
        Ok(status) | Err(status) => status,
    };
    let _ = tell(&rt, &status);
    ExitCode::from(status.number())
}
