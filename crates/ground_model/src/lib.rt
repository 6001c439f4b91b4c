//! The ground problem of a whole model, which `ground` makes. Its solutions are the configurations
//! that satisfy the model, and its goals are the model's objectives.
//!
//! That is `StandsFor`: each configuration has exactly one extension to all variables, and under it
//! all constraints are true exactly where the model's are. So a search of the problem is one of the
//! model, and a log of it speaks of the model, whoever wrote it. What plain constraints alone fix
//! is found first, by propagation at the root of a problem of their own, since a known cell is a
//! number wherever it is read; then constraints of classes are tried as packings, and else stated
//! object by object, and rows that are stated in other words are packed behind. For each constraint
//! of the problem it is kept for which of the model it was stated, which tells `core` whom to
//! blame. The size is bounded by the model's weight; more is refused as want of memory.
//!
//! ConfSolve was ground to MiniZinc by Hewson, Anderson and Gordon (2012).
//!
//! - `allowance`: how many variables and constraints a model may have.
//! - `comparing`: which constraints compare the members of a list.
//! - `constraints`: a constraint, for each object of its class.
//! - `fixing`: which constraints may give cells their values.
//! - `goals`: the objectives as variables.
//! - `known`: cells whose values follow from those constraints.
//! - `origins`: for which constraint of the model each of the problem's was stated.
//! - `problem`: the problem of a model.
//! - `required`: one expression as a form, and required.
//! - `rows`: a constraint of a class as one packing. `row_form`: the row that a constraint is, as
//!   `sum v in C where v.host = this { size } <= room` with fixed sizes and a fixed room. `loads`:
//!   what a quantifier's parts add to a row.
//! - `sets`: the sizes of reference sets.
#![tactic(auto)]

mod allowance;
mod comparing;
mod constraints;
mod fixing;
mod goals;
mod known;
mod loads;
mod origins;
mod problem;
mod required;
mod row_form;
mod rows;
mod sets;

pub use origins::Origins;
pub use problem::{ground, ground_with_origins};
