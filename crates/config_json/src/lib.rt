//! Configurations as JSON: what is written for one, and what a former text gives.
//!
//! A public call takes the table, of which its clauses speak, beside the objects that hold it. It
//! hands on the objects alone, and leaves the parameter unread.
#![tactic(auto)]

mod config;
mod former;
mod law;
mod leaves;
mod positions;
mod size;
mod values;

pub use config::{config_text, to_json};
pub use former::{ConfigText, FormerError, read_config};
pub use law::own_json_gives_values;
pub use leaves::{hints_of, missing};
