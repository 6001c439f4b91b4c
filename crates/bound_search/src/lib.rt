//! Branch and bound over the parts of a search; the lines that it writes are a run.
//!
//! Propagate to a fixpoint; split a box; learn from a conflict and go back; at a solution ask for a
//! better one by clauses, and go on: until the empty clause is made, or the budget of decisions is
//! spent. Each step writes its line first, so at every moment, also when memory runs out, the
//! journal holds a run, and nothing has to be made up afterwards. An engine is tied to its lines by
//! one record of equations (`Shows`), and each kind of line is one lemma on it. Choosers, kit and
//! budget are the caller's. A decision costs a fixpoint, by far the most of which is propagators
//! and opened clauses; and some 150 bytes of memory a line by sums, 280 by packings.
//!
//! MiniSat's loop (Een and Sorensson, 2003) over lazy clauses (Ohrimenko et al., 2009), with
//! objectives one after the other as bounds.
//!
//! - `engine`: what goes with the lines, and one function for each kind of line.
//! - `solving`: from the beginning to the end.
//! - `settling`: on to the next decision.
//! - `lines`: lines up to the next fixpoint.
//! - `bounding`: the lines behind a solution.
//! - `awaited`: clauses that a run waits for and that aren't watched.
//! - `board`: the boxes of a search, and what is still to be looked at in them.
//! - `repeated`: the clauses that constraints made, found again by what they say.
//! - `after`: what a search has come to behind a line.
#![tactic(auto)]

mod after;
mod awaited;
mod board;
mod bounding;
mod engine;
mod lines;
mod repeated;
mod settling;
mod solving;

pub use solving::{Ended, Limits, search};
