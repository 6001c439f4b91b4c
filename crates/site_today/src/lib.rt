//! What runs where today, from its table.
//!
//! - `header`: which column is which, and what is wrong with the header.
//! - `rows`: what is wrong with the rows.
//! - `today`: what is wrong with the table, `today_fault`.
//! - `standing`: where each service stands, `hosts_today`.
//!
//! Which fault it is stands in `specs/Faults`, where a service stands in `specs/Standing`.
#![tactic(auto)]

mod header;
mod rows;
mod standing;
mod today;

pub use header::{TodayColumns, today_columns};
pub use standing::hosts_today;
pub use today::today_fault;
