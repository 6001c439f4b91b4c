//! The former text of a site: where each service stands today, as JSON.
//!
//! - `former`: `former_text`, of the rows of today.
//!
//! What stands in it is in `specs/Former`.
#![tactic(auto)]

mod former;

pub use former::former_text;
