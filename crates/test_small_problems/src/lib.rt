//! Small random ground problems for tests, and what they mean, by bits. It stands on no part
//! of the search.
//!
//! - `rows`: sets of small values for eight variables, as bits.
//! - `making`: random problems.
//! - `points`: what constraints mean at points, and a best point of all.
#![tactic(auto)]

mod making;
mod points;
mod rows;

pub use making::{hints, problem};
pub use points::{best_point, is_better, is_solution, size};
pub use rows::{
    Row, bit_of, boxes_of, greatest_bit, is_single, least_bit, least_value, mask_of, point_of,
    row_of, set_of, sets_of,
};
