//! What the expressions of a model may cost, and how large their numbers may be.
//!
//! `limits` is the entry: it walks each expression once (`measuring`), adds up what it weighs, and
//! tells whether each interval is narrow. What weight, reach and interval are stands in
//! `specs/Measures`; no value of an expression is looked at.
#![tactic(auto)]

mod capped;
mod interval;
mod limit;
mod measure;
mod measuring;
mod parts;

pub use interval::Interval;
pub use limit::{LimitFault, limits, model_weight};
pub use parts::part_is_within_limits;
