//! Clauses by number, packed or not, and the steps that derive one from others.
//!
//! A packed clause is a row of bytes: how many literals it has, and of each its variable, how many
//! ranges its set has, and their ends. Each of these is a number of a byte or more. So a clause
//! takes about as many bytes as its text in a log, a third more at most, and eight for its place;
//! it is made anew when somebody asks for it.
//!
//! - `chain`: a derivation by resolution, a first clause and steps.
//! - `clauses`: the list of clauses in the order in which they were made.
//! - `packed`: the list of packed clauses in the order in which they were added.
//! - `packed_number`: numbers as bytes. `packed_writing`, `packed_reading`: a clause's bytes, and
//!   the clause of bytes.
#![tactic(auto)]

mod chain;
mod clauses;
mod packed;
mod packed_number;
mod packed_reading;
mod packed_writing;

pub use chain::{Chain, ChainSteps};
pub use clauses::Clauses;
pub use packed::PackedClauses;
