//! Constraints and objectives, typed and resolved, or a fault that stands in one.
//!
//! `check` is the entry. `specs` says what a word means where it stands (`Scopes`), and then, one
//! row for each kind of expression, its type, the faults that stand in it and what it is resolved
//! to (`Readings`).
#![tactic(auto)]

mod checker;
mod copies;
mod expressions;
mod fault;
mod law;
mod list;
mod operators;
mod rules;
mod scope;
mod tree;
mod types;

pub use checker::{TypedModel, check};
pub use fault::TypeFault;
pub use law::one_model_states_the_same;
pub use list::{Constraints, Goals};
pub use operators::{OpClass, class_of};
pub use scope::Found;
pub use tree::{Constraint, Goal, RExpr, RNode, RQuant};
pub use types::{ExprType, Need};
