//! Whether two choices are one object, and whether an object is in a list.
//!
//! - `groups`: the values of a map, by the objects that they give.
//! - `literals`: a question about one choice as a literal.
//! - `members`: lists as members with a truth each.
//! - `membership`: whether an object is a member.
//! - `pairs`: two truths as one, and disjunctions of such pairs.
//! - `same`: whether two choices are the same object.
//! - `sets`: lists of values as sets.
//! - `slots`: the truth that an object is in the set of a chosen owner.
#![tactic(auto)]

mod groups;
mod literals;
mod members;
mod membership;
mod pairs;
mod same;
mod sets;
mod slots;

pub use members::members_of;
pub use membership::is_member;
pub use pairs::{both, is_never};
pub use same::same_choice;
