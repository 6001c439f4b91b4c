//! The propagator of the linear kinds: `LinLe`, `LinDef` and `ReifLe`. These are sums with a bound,
//! sums that define a variable, and flags that say whether a sum keeps a bound.
//!
//! All three come down to rows: an inequality over terms. A walk over the terms adds up the least
//! sum and finds the term that can rise the most above its least; these two numbers tell whether
//! the row has something to say.
//!
//! - `number`: numbers in which no sum or product of such a walk wraps.
//! - `row`: an inequality, read from a constraint's terms without a copy.
//! - `survey`: the walk.
//! - `fall`: how far an explanation lets a term fall.
//! - `explain`: the walk that makes an explanation.
//! - `cause`: whether a row has something to say.
//! - `row_clauses`: the clause that it gives.
//! - `far`: a variable that a sum defines, where it may be what no sum is.
//! - `kinds`: the rows of each kind.
//! - `propagator`: `LinearProp` itself.
#![tactic(auto)]

mod cause;
mod explain;
mod fall;
mod far;
mod kinds;
mod number;
mod propagator;
mod row;
mod row_clauses;
mod survey;

pub use propagator::LinearProp;
