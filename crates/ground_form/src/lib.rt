//! Ground problems, which the engine solves: eleven kinds of constraint, and goals.
//!
//! A ground problem knows no name, class or place of a model. It has variables with a domain each,
//! constraints of eleven kinds over them, and goals in the order of their weight. A solution is one
//! value of each variable's domain under which every constraint is true.
//!
//! - `lists`: the small lists that constraints and problems hold, seen by contracts as lists.
//! - `con`: the constraint, one variant for each kind. `variables`: its variables, one by one.
//!   `same`: whether two constraints are the same.
//! - `kind`: the kinds by name.
//! - `ground`: the problem.
//! - `bounds`: how large the numbers of a constraint may be.
//! - `sums`: the least and the greatest sum of terms over boxes.
//! - `truth`: whether a constraint is true at values, kind by kind.
#![tactic(auto)]

mod bounds;
mod con;
mod ground;
mod kind;
mod lists;
mod same;
mod sums;
mod truth;
mod variables;

pub use bounds::{LAST_BIN, MOST_SUM};
pub use con::Con;
pub use ground::{Cons, Goals, Ground, GroundGoal};
pub use kind::{Kind, kind_of};
pub use lists::{Domains, PackItems, Parts, Terms, VarList, copy_sets};
pub use sums::{Number, ends_of, greatest_sum, least_sum};
pub use truth::holds_at;
