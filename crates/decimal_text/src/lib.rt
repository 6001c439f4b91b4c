//! Numbers from their decimal text, in paths and in logs.
#![tactic(auto)]

mod numbers;

pub use numbers::number_of;
