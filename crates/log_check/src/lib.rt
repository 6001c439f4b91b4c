//! The checker of logs, of lines or of a text: why an answer can be believed.
//!
//! Whoever has a ground problem, a log and this crate needs nobody else. Nothing is asked of who
//! made the log. Accepted lines make only clauses that are true at every solution better than the
//! one found last; so where they make the empty clause, that one is best, or there is none.
//!
//! - `lines`: the checker of lines in memory.
//! - `checker`, `intake`: the checker of a text that comes in pieces, and what it keeps of it.
//! - `verdict`: what accepted lines show.
//! - `progress`, `derived`: what the lines so far leave, and one more line.
//! - `store`: the clauses that lines made, by number.
//! - `chains`, `solution`, `bound_line`: what Chain, Found and Bound lines have to meet, and what
//!   they make.
//! - `trimming`, `needed`, `closing`: the lines that are needed of accepted ones, which they are,
//!   and whether there is anything to leave out.
//! - `laws`: problems with one goal or none.
#![tactic(auto)]

mod bound_line;
mod chains;
mod checker;
mod closing;
mod derived;
mod intake;
mod laws;
mod lines;
mod needed;
mod progress;
mod solution;
mod store;
mod trimming;
mod verdict;

pub use checker::Checker;
pub use laws::one_goal_or_none;
pub use lines::{CheckError, check};
pub use trimming::trim;
pub use verdict::{Verdict, VerdictKind};
