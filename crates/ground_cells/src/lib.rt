//! The cells of a model as boxes, whose points are the model's configurations.
//!
//! - `cells`: one box for each cell.
//! - `numbers`: lists of ascending numbers as sets.
#![tactic(auto)]

mod cells;
mod numbers;

pub use cells::{cell_boxes, configurations_are_points};
