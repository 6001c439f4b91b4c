//! Logs as data: what their lines are, and which logs are accepted.
//!
//! A log is what a search leaves for those who don't trust it. Seven kinds of line: a clause that a
//! constraint justifies (axiom), one made by resolution (chain), a clause asked for again (use), a
//! decision, a solution better than the last (found), the clauses that ask for a better one still
//! (bound), and that a box is empty. Acceptance is a test on lines, the ground problem and the
//! clauses made before, and on nothing of the search; a chain says its steps, so no checker has to
//! search for them, and a log is checked in the time that it took to write.
//!
//! Resolution with hints is LRAT's idea (Cruz-Filipe et al., 2017); constraints in place of an
//! encoding are as in Veksler and Strichman (2010), and, with cutting planes, Gocht, McCreesh and
//! Nordstrom (2022).
//!
//! - `line`: the lines.
//! - `lists`: lists of lines, values and indexes.
//! - `bounds`: the clauses of a Bound line: what goals ask of a solution better than one that was
//!   found.
#![tactic(auto)]

mod bounds;
mod line;
mod lists;

pub use bounds::{bounds_of, empty_clause};
pub use line::Line;
pub use lists::{Indexes, Lines, Values};
