//! What `confsolve-view breaks` and `page` do: from two files to one text.
//!
//! - `command`: `run`, from words to what is printed.
//! - `request`: what the words ask for.
//! - `source`: the bytes of both files.
//! - `making`: from these bytes to the text.
//! - `status`: how a run ends.
//!
//! What the words ask for stands in `specs/Words`, and what each status says in `specs/Ending`.
#![tactic(auto)]

mod command;
mod making;
mod request;
mod source;
mod status;

pub use command::run;
pub use request::{BreaksRequest, PageRequest, Request, is_report, request_of};
pub use status::{Source, Status};
