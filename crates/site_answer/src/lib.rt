//! An answer of the solver as CSV: each service with its host, by their own names.
//!
//! - `hosts`: `host_names`, the names of hosts by their words.
//! - `answers`: which host an answer has for a service.
//! - `rows`: the rows of the table.
//! - `table`: `table_text`, the text.
//!
//! What stands in a row is in `specs/Rows`, what the text is in `specs/Table`.
#![tactic(auto)]

mod answers;
mod hosts;
mod rows;
mod table;

pub use table::{TableError, table_text};
