//! The top call `run`: from words to what is printed and how the run ends.
//!
//! It is the whole program but for `main`, over any desk: files and output are four calls of a
//! trait, so tests and proofs run it in memory, and one text serves all. Its clauses go by stages:
//! no request, unread, refused, answered, unwritten, lost. Everything is made before anything is
//! written, then the log is written whole, then the answer printed: so a refusal prints nothing,
//! and where writing fails a front of what was due is there and nothing else. What it says of a
//! model it says of the tree that is the text's, of which there is one (`laws`).
//!
//! - `command`: `run`, which reads the words.
//! - `source`: the text of the model, from its file or made for `gen`.
//! - `answering`: from the text to what is asked of its model, and to the answer.
//! - `checking`, `verifying`: what a log shows of a model; whether a configuration satisfies it.
//! - `delivering`: the log is written, and the answer printed.
//! - `laws`: a text has one model.
//!
//! What `run` promises stands in `run_promise`, the commands that search in `round_commands`.
#![tactic(auto)]

mod answering;
mod checking;
mod command;
mod delivering;
mod laws;
mod source;
mod verifying;

pub use command::run;
pub use conf_request::{FileName, Paths, Request, request_of};
pub use laws::text_has_one_model;
pub use log_file::{FileCheck, check_file};
pub use model_generator::generate;
pub use run_status::{Fault, FormerKind, LimitKind, Status, line_of};
