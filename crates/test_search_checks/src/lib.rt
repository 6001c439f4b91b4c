//! Conflicts to analyse, and watches and a queue that fit their boxes. They are for tests and
//! measures that make trail, clauses and boxes themselves: what a call requires of them is asked at
//! run time. A search knows it, and asks nothing.
//!
//! - `asked`: whether a conflict may be analysed. `came`: whether the prunings of a trail came from
//!   clauses. `within`: whether clauses speak of variables that have boxes, and of values of the
//!   domains alone.
//! - `watched`: watches and boxes in one. `wider`: whether boxes are wider than others, and one box
//!   changed.
//! - `queued`: a problem, boxes and their queue in one. `quiet`: whether constraints are quiet,
//!   each of them looked at.
#![tactic(auto)]

mod asked;
mod came;
mod queued;
mod quiet;
mod watched;
mod wider;
mod within;

pub use asked::may_analyse;
pub use queued::Queued;
pub use watched::Watched;
pub use wider::are_wider;
pub use within::has_boxes;
