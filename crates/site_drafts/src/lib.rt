//! What `confsolve-site` makes of texts of files: a model, a former text, a table.
//!
//! - `refusal`: why nothing is made.
//! - `rows`: the rows of tables.
//! - `models`, `todays`, `tables`: what is made of two tables and of the other files.
//! - `measuring`: whether a text is a typed model within the limits.
//! - `drafting`, `making`: from the texts of files to what is printed, `made`.
//!
//! What is made stands in `specs/Answers`, of two tables in `specs/Drafts`.
#![tactic(auto)]

mod drafting;
mod making;
mod measuring;
mod models;
mod refusal;
mod rows;
mod tables;
mod todays;

pub use making::{Texts, made};
pub use refusal::{FileName, Refusal};
