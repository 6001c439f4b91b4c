//! Which lines a search may leave, replayed plainly for tests, with whole boxes. Boxes are copied
//! at each level and before each change. It stands on no part of the search.
//!
//! - `replay`: a run, line by line.
//! - `walking`: the walk back from a conflict.
//! - `splits`: how an order decides.
#![tactic(auto)]

mod replay;
mod splits;
mod walking;

pub use replay::{Deciding, Mode, Run};
pub use splits::Way;
