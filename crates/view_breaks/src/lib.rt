//! All that a configuration breaks of a model, with the model's lines. `confsolve verify` names the
//! first.
//!
//! - `answer`: `broken`, from the texts of a model and of a configuration to what is printed.
//! - `reading`: the configuration that a text is, or why it is none of the model.
//! - `breaks`: each constraint that doesn't hold, with each object for which it doesn't.
//! - `text`: a line for each, and how many there are.
//! - `lines`: the line of a model's text on which a place stands.
//! - `laws`: the first that is listed is the one that `verify` names.
//!
//! What is broken stands in `specs/Breaks`, what is printed in `specs/Text`, and what is refused in
//! `specs/Answer`.
#![tactic(auto)]

mod answer;
mod breaks;
mod laws;
mod lines;
mod reading;
mod text;

pub use answer::{Told, broken};
pub use breaks::{Break, breaks_of};
pub use laws::first_break_is_named;
pub use text::breaks_text;
