//! The ground problem of a repair, made of a model's; how many values are changed. Nothing refers
//! to what failed, as few former values as can be are changed, and among such configurations the
//! model's objectives decide.
//!
//! Of any problem that stands for a test and for functions of configurations `with_changes` makes
//! one that stands for the same with two things more: a clause for each reference keeps it out of
//! what failed, and for each leaf a truth says that it has another value than before. These are
//! counted in one variable, which becomes the first goal. Domains stay whole, so the points are
//! the model's configurations still, and a log of a repair is a log as any. It costs a few
//! variables and constraints a leaf, and a look at each object.
//!
//! Minimal perturbation: Sakkout and Wallace (2000), Bartak, Muller and Rudova (2004).
//!
//! - `repair`: what a repair goes by.
//! - `former_values`: how many former values a configuration changes.
//! - `allowed`: clauses that keep failed objects out.
//! - `changed`: the leaves that have other values than before, each as one truth.
//! - `count`: how many of these hold, as a sum.
//! - `failed`: the failed objects, by the words that name them.
//! - `marks`: which objects are in failed ones.
//! - `problem`: the problem of a repair.
#![tactic(auto)]

mod allowed;
mod changed;
mod count;
mod failed;
mod former_values;
mod marks;
mod problem;
mod repair;

pub use failed::{FailedError, unknown_word};
pub use former_values::change_count;
pub use problem::with_changes;
pub use repair::Repair;
