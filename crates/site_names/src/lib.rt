//! Names of operators as words of the language, and which of them would meet.
//!
//! - `word`: `word_of`, the word of a name.
//! - `names`: `Names`, words in order, each once, found by what they are.
//! - `pairs`: `meeting`, the first of many names whose word an earlier one has.
//!
//! What a name's word is stands in `specs/Words`, what it means that two meet in `specs/Meeting`.
#![tactic(auto)]

mod names;
mod pairs;
mod word;

pub use names::Names;
pub use pairs::{Pair, meeting};
pub use word::{word_of, word_with};
