//! Sets that are stated of one variable, joined.
//!
//! That `x != c` for a thousand values is a thousand sets of which each takes one value from a box,
//! and a search keeps each box before with all its ranges. So of each sixty-four sets that are
//! stated of one variable what they have in common is stated as well, behind everything else: the
//! clauses that were stated last are looked at first, so that one box does for sixty-four. Nothing
//! new is said, and no promise rests on which sets are joined. It costs a walk over all
//! constraints, and a meet for each set.
//!
//! - `joined`: what sets have in common, stated.
#![tactic(auto)]

mod joined;

pub use joined::join_stated;
