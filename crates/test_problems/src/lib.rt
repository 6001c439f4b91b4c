//! Ground problems that are given as texts, and what tests of propagators share.
//!
//! - `words`: why a text is unread, and the numbers of its words.
//! - `sets`: sets of integers and clauses as texts, and back.
//! - `constraints`: constraints of all kinds.
//! - `prober`: plain probing as a propagator of every kind.
//! - `random`: numbers that look random.
#![tactic(auto)]

mod constraints;
mod prober;
mod random;
mod sets;
mod words;

pub use constraints::constraint_of;
pub use prober::Prober;
pub use random::Random;
pub use sets::{clause_of, clause_text, literals_of, set_of, set_text, sets_of, sets_text};
pub use words::{Unread, number, variable};
