//! Tests of the parts that a search is made of, of what no clause says. There is no code here.
//!
//! - `given`: sets, clauses and boxes of bits. `problems`: generated problems over all kinds of
//!   constraints, for tests with the propagators that come with the product.
//! - `moves`: what is done to a store and its clauses. `choosing`: whether a chooser may be asked.
//! - `store_tests`: boxes in levels, against boxes that are copied whole at each level.
//! - `given_conflict_tests`: given decisions and clauses, and what their conflict shows.
//! - `watch_tests`: watched clauses, against a scan of all of them.
//! - `choice_tests`: splits that choosers pick of given boxes and hints.
//! - `excess_tests`: what of a packing takes too much room.
//! - `queue_tests`: the queue of constraints, against a scan of all of them.
//! - `walks`: the walk back from a conflict, written out with whole boxes.
//! - `conflict_tests`: conflicts that propagators make, and what they show, against those walks.
#![tactic(auto)]

#[cfg(test)]
mod choice_tests;
#[cfg(test)]
mod choosing;
#[cfg(test)]
mod conflict_tests;
#[cfg(test)]
mod excess_tests;
#[cfg(test)]
mod given;
#[cfg(test)]
mod given_conflict_tests;
#[cfg(test)]
mod moves;
#[cfg(test)]
mod problems;
#[cfg(test)]
mod queue_tests;
#[cfg(test)]
mod store_tests;
#[cfg(test)]
mod walks;
#[cfg(test)]
mod watch_tests;
