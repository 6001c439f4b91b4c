//! Truths over a problem in the making: comparisons, disjunctions, clauses, flags. A comparison of
//! sums becomes a set of one variable.
//!
//! - `blocks`: long disjunctions as disjunctions of blocks.
//! - `compare`: sums compared with 0, as truths.
//! - `disjunction`: disjunctions in the making, and clauses.
//! - `flags`: truths as flags, and disjunctions and conjunctions of truths.
//! - `lines`: where a line, a factor times a value and an offset, is at most 0, or 0.
//! - `products`: truths as numbers, and sums that count where a truth holds.
//! - `tests`: comparisons before they are stated, pushed into a disjunction, or made a truth.
#![tactic(auto)]

mod blocks;
mod compare;
mod disjunction;
mod flags;
mod lines;
mod products;
mod tests;

pub use blocks::truth_in_blocks;
pub use compare::{is_below, is_nought, is_one, is_zero, literal};
pub use disjunction::Disjunction;
pub use flags::{require, truth_of};
pub use products::{counted, flag_of, times_truth};
pub use tests::{
    Test, copy_truth, push_test, same_truth, state, state_below, state_truth, truth_of_test,
};
