//! The forms of quantifiers, made of what each possible member gives.
//!
//! - `cases`: whether some part is kept whose bodies hold, or fail.
//! - `part`: what a possible member gives.
//! - `quantified`: the form of a quantifier.
//! - `shares`: what each part adds to a sum or a count.
//! - `totals`: sums added up by halves.
//! - `truths`: disjunctions of truths that are lent.
#![tactic(auto)]

mod cases;
mod part;
mod quantified;
mod shares;
mod totals;
mod truths;

pub use part::Part;
pub use quantified::quantified_form;
pub use shares::sum_where;
pub use totals::total;
pub use truths::{none_from, push_turned};
