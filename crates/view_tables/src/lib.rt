//! Which lines of a plan are listed, what they weigh; plans and pictures as CSV.
#![tactic(auto)]

mod cells;
mod choice;
mod pictures;
mod plans;
mod weights;

pub use choice::chosen;
pub use pictures::picture_table;
pub use plans::plan_table;
pub use weights::{push_weight, weight};
