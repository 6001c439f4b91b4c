//! What pruning, rules and the other parts of a search answer and cost.
//!
//! - `pruning`: what a call of `prune` answers, kind by kind.
//! - `rules`: whether a constraint of many parts justifies a clause.
//! - `parts`: boxes in levels, the walk back from a conflict, watches, the queue of constraints.
//!
//! With no word the program prints what small cases answer; with the word `times` it prints how
//! many nanoseconds calls take, of the parts over large cases. The words above pick what is
//! printed.
#![tactic(auto)]

mod conflict_costs;
mod packs;
mod part_table;
mod prune_cases;
mod prune_table;
mod prune_timing;
mod queue_costs;
mod rule_cases;
mod rule_table;
mod rule_timing;
mod store_costs;
mod watch_costs;

use part_table::show_parts;
use prune_table::show_pruning;
use rule_table::show_rules;
use std::io;
use test_clock::{is_picked, is_timed};

fn main(rt: HostRuntime) -> io::Result<()> {
    let timed = is_timed(&rt)?;
    if is_picked(&rt, "pruning")? {
        show_pruning(&rt, timed)?;
    }
    if is_picked(&rt, "rules")? {
        show_rules(&rt, timed)?;
    }
    if is_picked(&rt, "parts")? {
        show_parts(&rt, timed)?;
    }
    Ok(())
}
