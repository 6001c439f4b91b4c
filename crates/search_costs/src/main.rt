//! What whole searches come to and cost, and how fast logs are checked.
//!
//! With no word the program prints counts of lines and what is said of short logs; with the word
//! `times` how long that takes, with larger problems. The words `searches` and `logs` pick what is
//! printed, and the first part of a row's name picks searches.
#![tactic(auto)]

ghost use Rattle.branch_choice.specs.declared.split.Order.TheVariants as orders;
ghost use Rattle.branch_choice.specs.Picks.{IsAsked, IsPick};

mod log_table;
mod log_timing;
mod logs;
mod packings;
mod pigeons;
mod problems;
mod rows;
mod running;
mod search_table;

use bool_prop::BoolProp;
use branch_choice::{Chooser, Order, Pick, Split, first};
use element_prop::ElementProp;
use linear_prop::LinearProp;
use log_table::show_logs;
use pack_prop::PackProp;
use rule_law::{Kit, Propagator};
use search_table::show_searches;
use signed_clause::IntSet;
use std::io;
use test_clock::{is_picked, is_timed};

/// Prints what the words pick.
fn show_all(rt: &HostRuntime, kit: &mut Kit, chooser: &Chooser) -> io::Result<()> {
    let timed = is_timed(rt)?;
    show_searches(rt, kit, chooser, timed)?;
    if is_picked(rt, "logs")? {
        show_logs(rt, timed)?;
    }
    Ok(())
}

fn main(rt: HostRuntime) -> io::Result<()> {
    let alloc = rt.alloc();
    let pick: Pick = Box::new(
        alloc,
        move |boxes: &[IntSet], hints: &[Option<i64>], search: u32| -> Option<Split>
            requires { IsAsked boxes.now hints.now search }
            ensures { IsPick orders.First boxes.now hints.now search result }
        { first(boxes, hints, search) },
    )?;
    let chooser = Chooser::new(Order::First, pick);
    let sums: Box<dyn Propagator> = Box::new(alloc, LinearProp::new(alloc))?;
    let truths: Box<dyn Propagator> = Box::new(alloc, BoolProp::new(alloc))?;
    let choices: Box<dyn Propagator> = Box::new(alloc, ElementProp::new(alloc))?;
    let places: Box<dyn Propagator> = Box::new(alloc, PackProp::new(alloc))?;
    match Kit::new(vec![in alloc; sums, truths, choices, places]?) {
        Ok(mut kit) => show_all(&rt, &mut kit, &chooser),
        Err(_) => Ok(()),
    }
}
