//! Whether a ground problem is well made, found out as a program runs. Propagators may be asked
//! about one that is.
//!
//! They may say no of a problem that is well made, and never yes of one that isn't.
//!
//! - `terms`: whether the weights of terms are small.
//! - `constraint`: whether one constraint is well made.
//! - `defined`: whether the variables that aren't searched are defined.
//! - `problem`: whether a problem is.
#![tactic(auto)]

mod constraint;
mod defined;
mod problem;
mod terms;

pub use constraint::is_constraint_well_made;
pub use problem::{is_problem_well_made, is_search_well_made};
