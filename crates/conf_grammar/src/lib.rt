//! How models are read from left to right: a machine over tokens, and its laws.
//!
//! The machine is a definition, in `specs/Machine.antt`; `proofs` shows that it stops at exactly
//! the first token that no model has there. `piece` names the tokens that stand in straight rows,
//! `operator_levels` says how tightly operators bind, `quantifier_bodies` what a quantifier has.
#![tactic(auto)]

mod operator_levels;
mod piece;
mod quantifier_bodies;

pub use operator_levels::{
    Going, PATH, Sign, dotted, goes, op_level, right_level, sign_level, way_on,
};
pub use piece::Piece;
pub use quantifier_bodies::{may_end, may_filter, may_more, semicolons};
