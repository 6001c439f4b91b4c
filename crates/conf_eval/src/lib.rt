//! The meaning of a model: values, which configurations satisfy it, its objectives.
//!
//! `eval` gives the value of an expression, `satisfied` what is broken first, `objectives` the
//! values of the objectives. `laws` has what holds of all values. What refuses models whose
//! expressions may cost too much, or may have numbers that are too large, is `conf_limits`, and
//! passed on.
#![tactic(auto)]

mod attributes;
mod broken;
mod calls;
mod evaluate;
mod laws;
mod members;
mod operators;
mod packing;
mod scene;
mod value;

pub use broken::{BrokenAt, satisfied};
pub use calls::{Numbers, eval, objectives};
pub use conf_limits::{LimitFault, limits, model_weight, part_is_within_limits};
pub use laws::{full_sets_are_hints, full_sets_have_their_sizes, values_keep_to_measures};
pub use value::{Env, Value};
