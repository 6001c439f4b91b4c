//! Learnt clauses that outlive the problem that they were learnt of.
//!
//! A log's clauses are derived from constraints. Those that rest on the first constraints of a
//! problem alone are true wherever these are, so they hold of every other problem that begins with
//! the same constraints. `specs/Kept` says which they are.
//!
//! - `kept`: which lines of a log make such clauses.
//! - `forms`: that the clauses of lines have a clause's form.
#![tactic(auto)]

mod forms;
mod kept;

pub use forms::know_lines;
pub use kept::kept_lines;
