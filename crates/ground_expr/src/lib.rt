//! Typed expressions as forms, and what is required: the recursions over trees.
//!
//! An expression is ground inwards, by its resolved tree: numbers fold, a known object's attribute
//! is its cell, a chosen one's is an element over what it may be. What is required outright goes
//! another way: `and` and `forall` part by part, `or` as one clause, a comparison as a row, so that
//! no flag is made for what has to hold anyhow. What operators, quantifiers and references make of
//! forms is proved in crates of their own, which know no tree; here are the recursions that join
//! them, each arm of which says what evaluation says there (`conf_eval`). An expression costs its
//! weight, which the limits of the language bound by 2,000,000.
//!
//! Flattening, as of MiniZinc (Nethercote et al., 2007); required and reified contexts as its
//! root and mixed contexts (Stuckey and Tack, 2013).
//!
//! - `comparisons`: comparisons of numbers that are stated.
//! - `constraints`: what is required of a whole constraint.
//! - `forms`: the form of an expression; the recursion is on the resolved tree.
//! - `known`: attributes of an owner that is known, where values of cells are known.
//! - `known_members`: the members of a list, where values of cells are known.
//! - `long_sums`: comparisons of long sums of cells, each stated of a variable that is the sum.
//! - `names`: what names stand for.
//! - `operators`: operators over forms of any kind.
//! - `pushes`: expressions that are pushed into a disjunction.
//! - `quantifiers`: quantifiers of any kind, of their parts.
//! - `scene`: where an expression stands.
//! - `statements`: what is required of an expression.
#![tactic(auto)]

mod comparisons;
mod constraints;
mod forms;
mod known;
mod known_members;
mod long_sums;
mod names;
mod operators;
mod pushes;
mod quantifiers;
mod scene;
mod statements;

pub use constraints::require_constraint;
pub use forms::{form_at, own_parts_at};
pub use scene::Scene;
pub use statements::require_at;
