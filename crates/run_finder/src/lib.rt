//! Who finds best solutions of ground problems, as callers see it: a trait.
//!
//! Every command that searches goes by it, so none of them knows the search: a finder leaves a
//! problem and a run in the journal, and hands back the verdict of a checker that has read the run.
//! What is told of a model, by whatever command, is told by that verdict alone.
//!
//! - `finder`: `Finder`.
#![tactic(auto)]

mod finder;

pub use finder::Finder;
