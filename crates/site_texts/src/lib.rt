//! Texts that are found by names, and words as text.
//!
//! - `texts`: `Texts`, a text for each of many names.
//! - `spelled`: `word_text`, the word of a name as a string.
//!
//! What stands under a name in a list of pairs is in `specs/Pairs`.
#![tactic(auto)]

mod spelled;
mod texts;

pub use spelled::word_text;
pub use texts::Texts;
