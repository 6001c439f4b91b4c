//! The forms of quantifiers that compare their members: `alldifferent`, `pack`.
//!
//! What is compared becomes a variable first, once for each member, so that a pair of members costs
//! one flag, however many objects they may be.
//!
//! - `apart`: that members have different values, stated pair by pair.
//! - `blocks`: that the values of many variables differ, by blocks of them.
//! - `bodies`: the bodies of a possible member, and what each of them is.
//! - `clashes`: whether some two members have one value.
//! - `counted`: that the values of many variables differ, as a packing.
//! - `keys`: forms as variables that tell their values apart.
//! - `loads`: how much counts at an item's place, and whether that is more than its room.
//! - `members`: what is kept of a possible member to compare it with others.
//! - `pairwise`: the form of such a quantifier.
//! - `same_keys`: whether two variables have the same value.
//! - `whole`: such quantifiers as constraints of their own.
#![tactic(auto)]

mod apart;
mod blocks;
mod bodies;
mod clashes;
mod counted;
mod keys;
mod loads;
mod members;
mod pairwise;
mod same_keys;
mod whole;

pub use pairwise::pairwise_form;
pub use whole::{MOST_PACKED, state_different, state_pack};
