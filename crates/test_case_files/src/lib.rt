//! Cases in files: what is asked, and what must come of it. A program that runs them proves no
//! case, so a case costs its run alone.
//!
//! - `cases`: how cases are written, and the cases of a text.
//! - `numbers`: the words and numbers of a text.
//! - `running`: runs the cases of a file, and prints which came out otherwise.
#![tactic(auto)]

mod cases;
mod numbers;
mod running;

pub use cases::{Case, cases_of};
pub use numbers::{number_at, numbers_of, push_word, words_of};
pub use running::{Subject, run_file};
