//! Boxes that hold all solutions of a problem, by propagation at the root.
//!
//! A problem in the making learns from it which of its cells have one value, so that what is stated
//! afterwards can name the value in place of the variable. The propagators are those of the search,
//! so nothing is found here that a search wouldn't find before its first decision. Constraints are
//! asked in rounds, up to eight, each constraint up to 64 times a round: mostly two rounds do, and
//! whether the fixpoint was reached isn't promised.
//!
//! - `propagators`: which are asked.
//! - `root`: the boxes, and which constraints narrowed some.
#![tactic(auto)]

mod propagators;
mod root;

pub use root::{Root, root_of};
