//! The text of a log, read and written, and the journal of a search.
//!
//! Each line has one spelling, and each text is read as at most one line; so a log is the same
//! thing as its lines, and what is said of a file can be said of lines. It is plain text, of words
//! and decimal numbers, that a person can read and any tool can write. Lines are read where they
//! stand in a piece of a file, some 120 nanoseconds a short one. A journal is rounds, each a ground
//! problem with its lines: `solve` has one, a session one for each event, a core one for each part;
//! what is promised of answers is said of rounds. After want of memory it is as it was.
//!
//! Text formats of proofs: TraceCheck (Biere, 2006), DRAT (Wetzler, Heule and Hunt, 2014).
//!
//! - `writing`: the lines' text.
//! - `reading`, `words`, `pieces`, `numbers`, `parts`: lines from their bytes, from whole lines
//!   down to single texts.
//! - `fault`: why bytes are not read as a line.
//! - `journal`: ground problems with their lines, round by round.
#![tactic(auto)]

mod fault;
mod journal;
mod numbers;
mod parts;
mod pieces;
mod reading;
mod words;
mod writing;

pub use fault::LineError;
pub use journal::{Journal, Round};
pub use log_form::{Indexes, Line, Lines, Values};
pub use parts::ended_line;
pub use reading::read_line;
pub use writing::{line_text, lines_text};
