//! Conflict analysis: which clause a conflict shows, and how it is made.
//!
//! From a false clause one walks back along the trail and resolves with the clause of each entry
//! that had a part in it, down to the last decision that did. What it has come to then is no longer
//! false once that decision's level is dropped, and prunes there at once. The steps are kept as a
//! chain, so a log can be replayed without a search. The walk ends at a decision and not at a first
//! unique implication point: one case in each law, at the price of a longer clause. A step costs
//! the literals of the other clause, an entry that is passed over one test.
//!
//! GRASP (Marques-Silva and Sakallah, 1996); where a walk may end: Zhang et al. (2001); with sets
//! for literals: Katsirelos and Bacchus (2005).
//!
//! - `conflict`: the walk back along the trail, from a clause that is false.
//!
//! Chains and numbered clauses are those of `numbered_clauses`, which are public here too.
#![tactic(auto)]

mod conflict;

pub use conflict::{Learnt, analyse};
pub use numbered_clauses::{Chain, ChainSteps, Clauses};
