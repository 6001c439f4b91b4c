//! The clause that a chain of resolution steps runs through.
//!
//! A chain of steps runs through a table by variable, so that a step costs the literals of the
//! other clause, however long the running one is (MiniSat's `seen`).
//!
//! - `running`: `RunningClause`, the table.
#![tactic(auto)]

mod running;

pub use running::RunningClause;
