//! What `confsolve-site` does: it reads the words, and then the files that they name.
//!
//! - `status`: how a run ends, its number and its line.
//! - `command`: a run, `run`.
#![tactic(auto)]

mod command;
mod status;

pub use command::run;
pub use status::{Status, Unread};
