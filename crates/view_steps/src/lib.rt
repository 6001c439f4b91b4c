//! In what order to move: a plan's moves, so that no holder is filled in between.
//!
//! - `steps`: the moves in order, or those that are stuck. `moves`: what goes where, and how much.
//! - `rooms`: what each holder has room for, and what a move changes of it.
//! - `run`: the next step that fits, until none does. `agenda`: which moves may fit now. `halts`:
//!   which may go to the stop. `lines`: which wait for a holder's room.
//! - `text`: what is printed.
#![tactic(auto)]

mod agenda;
mod halts;
mod lines;
mod moves;
mod rooms;
mod run;
mod steps;
mod text;

pub use moves::Measure;
pub use steps::{Steps, StepsError, steps_of};
