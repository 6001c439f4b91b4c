//! What one call of `prune` answers and costs, kind by kind, at 10, 100 and 1,000 parts.
//!
//! For each row there are boxes in which the constraint has nothing to say (None) and boxes in
//! which it has (Some).
use crate::prune_cases::{Case, ROWS, nth_case};
use crate::prune_timing::{does_say, nanoseconds};
use bool_prop::BoolProp;
use element_prop::ElementProp;
use ground_form::{Cons, Domains, Goals, Ground};
use linear_prop::LinearProp;
use pack_prop::PackProp;
use rule_law::{Kit, Propagator, are_boxes_within};
use signed_clause::IntSet;
use std::alloc::{AllocError, Global};
use std::io;
use test_well_made::is_search_well_made;

/// Of each variable what it may be in either row of boxes.
fn domains_of(alloc: Global, idle: &[IntSet], acting: &[IntSet]) -> Result<Domains, AllocError> {
    let mut domains = Vec::new(alloc);
    for (one, other) in idle.iter().zip(acting) {
        domains.push(one.join(other)?)?;
    }
    Ok(Domains::of(domains))
}

/// The problem of one constraint.
fn problem_of(alloc: Global, case: &Case) -> Result<Ground, AllocError> {
    let domains = domains_of(alloc, &case.idle, &case.acting)?;
    let search = domains.items().len().min(1000000) as u32;
    Ok(Ground {
        domains,
        search,
        cons: Cons::of(vec![in alloc; case.con.copy()?]?),
        goals: Goals::of(Vec::new(alloc)),
    })
}

/// Prints a line of the table.
fn show(rt: &HostRuntime, kit: &mut Kit, case: &Case, n: u32, timed: bool) -> io::Result<()> {
    let g = problem_of(rt.alloc(), case)?;
    if !is_search_well_made(&g, rt.alloc())?
        || g.cons.items().is_empty()
        || !are_boxes_within(g.domains.items(), &case.idle)
        || !are_boxes_within(g.domains.items(), &case.acting)
    {
        println!(rt; "{} {}: no problem", case.name, n)?;
        return Ok(());
    }
    if timed {
        let none = nanoseconds(rt, kit, &g, &case.idle)?;
        let some = nanoseconds(rt, kit, &g, &case.acting)?;
        println!(rt; "{} {}: None {} ns, Some {} ns", case.name, n, none, some)?;
        return Ok(());
    }
    let idle = if does_say(kit, &g, &case.idle)? {
        "Some"
    } else {
        "None"
    };
    let acting = if does_say(kit, &g, &case.acting)? {
        "Some"
    } else {
        "None"
    };
    println!(rt; "{} {}: {} {}", case.name, n, idle, acting)?;
    Ok(())
}

/// Prints each row at each number of parts.
fn show_all(rt: &HostRuntime, kit: &mut Kit, timed: bool) -> io::Result<()> {
    for row in 0..ROWS {
        for n in [10u32, 100, 1000] {
            let case = nth_case(rt.alloc(), row, n)?;
            show(rt, kit, &case, n, timed)?;
        }
    }
    Ok(())
}

/// Prints the table.
pub(crate) fn show_pruning(rt: &HostRuntime, timed: bool) -> io::Result<()> {
    println!(rt; "pruning:")?;
    let alloc = rt.alloc();
    let sums: Box<dyn Propagator> = Box::new(alloc, LinearProp::new(alloc))?;
    let truths: Box<dyn Propagator> = Box::new(alloc, BoolProp::new(alloc))?;
    let choices: Box<dyn Propagator> = Box::new(alloc, ElementProp::new(alloc))?;
    let places: Box<dyn Propagator> = Box::new(alloc, PackProp::new(alloc))?;
    match Kit::new(vec![in alloc; sums, truths, choices, places]?) {
        Ok(mut kit) => show_all(rt, &mut kit, timed),
        Err(_) => Ok(()),
    }
}
