//! The commands that search: `solve`, `reconfigure`, `gen`, `session` and `core`.
//!
//! They go one way. Each makes a finder of the kit and a chooser, asks it for a best solution of
//! a ground problem, once or for each round, and tells what the checker's verdict says of the
//! model. They differ in which problem they ask for, and in a text and a status.
//!
//! - `finder`: who searches, and by what.
//! - `answer`: an answer, and what is asked of a model.
//! - `solving`: `solve`, `reconfigure` and `gen`: a best configuration.
//! - `session`: the answers to a text of events, each printed as it is found; `holding`: the loop
//!   over the events; `event`: the answer to one.
//! - `blaming`: what to blame where a model has no configuration; `core_text`: its text.
//! - `former`: the text of a configuration as it was or is to be: its file, what it is read as, and
//!   the repair that one asks for.
//!
//! What they promise stands in `run_promise`. Here `specs/Ending` says how a run ends, by stages,
//! `specs/Unreadable` why a file gave nothing, and the others what steps hand on.
#![tactic(auto)]

mod answer;
mod blaming;
mod core_text;
mod event;
mod finder;
mod former;
mod holding;
mod session;
mod solving;

pub use answer::{Answer, question_of};
pub use blaming::blame_model;
pub use finder::Resources;
pub use former::{config_bytes, former_of, repair_in, repair_of};
pub use session::{SessionWish, hold_model};
pub use solving::{SearchWish, generated, solve};
