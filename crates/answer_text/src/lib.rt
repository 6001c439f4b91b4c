//! The text of each answer to what is asked of a model.
//!
//! - `texts`: the answers to `solve`, `reconfigure`, `check` and `verify`.
//! - `generated`: the answer to `gen`.
//! - `configurations`: the lines of a configuration, of its changes and of its objectives.
//! - `lines`: single lines.
//!
//! What each text is stands in `specs/Texts`.
#![tactic(auto)]

mod configurations;
mod generated;
mod lines;
mod texts;

pub use generated::gen_text;
pub use lines::{push_number, push_undecided};
pub use texts::{check_text, satisfied_text, solve_text};
