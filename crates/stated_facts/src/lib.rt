//! What is known of a problem's variables by the constraints that stand.
//!
//! A variable that something is said of is more than its box: a flag tells of others, a cell is
//! what a row says, and a sum less what it is said to be is 0. Such facts hold wherever all
//! constraints do, which is all that a row that follows needs. Nothing is made here but sums.
//!
//! - `claims`: what follows from the value of a variable, by definitions.
//! - `constants`: variables that have one value.
//! - `definitions`: what flags are, by the constraints that define them.
//! - `equals`: cells that are what rows say.
//! - `factors`: the coefficients of a sum by variable.
//! - `noughts`: sums that are 0, or lie on one side of 0.
//! - `weights`: whether a sum's numbers are small.
#![tactic(auto)]

mod claims;
mod constants;
mod definitions;
mod equals;
mod factors;
mod noughts;
mod weights;

pub use claims::{Claims, bit_of, claims_of};
pub use constants::{constant, only_value};
pub use definitions::{definition, definition_indexes, question};
pub use equals::{balance_at, with_rows};
pub use factors::{factor_at, factors_of};
pub use noughts::{MOST_TIMES, Nought, combined, is_allowed, multiple_of, signed};
pub use weights::{is_light, is_near, is_small, light_sum, weighs_within};
