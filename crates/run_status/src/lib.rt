//! How a run ends: its status, the status's number, and the line that tells it.
//!
//! `status` has the types and the number, `line` the text. What they are for a status stands in
//! `specs/Status`.
#![tactic(auto)]

mod line;
mod status;

pub use line::line_of;
pub use status::{Fault, FormerKind, LimitKind, Status};
