//! Rows of cells as the text of a table, in CSV.
#![tactic(auto)]

mod rows;

pub use rows::{push_cell, rows_text};
