//! A clock, what times come to, and the words of programs that measure.
//!
//! - `clock`: how long something takes.
//! - `figures`: what times come to, a mean or how many a second.
//! - `words`: whether the command line asks for times, and what it picks.
#![tactic(auto)]

mod clock;
mod figures;
mod words;

pub use clock::Clock;
pub use figures::{is_long_enough, mean, per_second};
pub use words::{has_picks, is_picked, is_timed};
