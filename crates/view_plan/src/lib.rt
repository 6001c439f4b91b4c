//! The plan of a repair: the leaves in which two configurations differ, a line each.
#![tactic(auto)]

mod change;
mod merge;
mod sets;
mod text;

pub use change::{Change, change_between};
pub use merge::{Line, plan};
pub use text::{plan_text, push_line};
