//! How boxes are looked at: whole, with one variable fixed, or cut by a clause. No box is built for
//! that.
//!
//! The same rule of a constraint is asked in three ways: whether the boxes refute it, whether they
//! would if one variable had one value (to prune, and to know that nothing is left to prune), and
//! whether a clause follows from it, which is whether it is refuted where the clause's literals are
//! all false. What a rule asks of a box is little: its ends, whether it has a value, how it lies to
//! a set. That is one trait, and each way to look at boxes answers it; so a rule is written, and
//! proved, once. The price is a walk more here and there: nothing is built and nothing is kept.
//!
//! Propagators over views of variables: Schulte and Tack (2013).
//!
//! - `numbers`: small questions about numbers.
//! - `view`: the trait; boxes as they are, and boxes of which one is a single value.
//! - `values`: numbers that pass several tests at once, found by leaps.
//! - `cut`: domains less the sets of a clause.
#![tactic(auto)]

mod cut;
mod numbers;
mod values;
mod view;

pub use cut::{Cut, is_rest_within};
pub use numbers::{end_of, greater, is_at_most, is_below, next, smaller, start_of};
pub use view::{Fixing, Plain, View, ends_in_order};
