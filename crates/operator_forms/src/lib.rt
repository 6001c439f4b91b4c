//! Operators over forms: the form of one from the forms of its two sides.
//!
//! - `arithmetic`: plus, minus and times.
//! - `compare`: comparisons of numbers, as tests that make nothing.
//! - `kinds`: kinds of operators and of forms, and the parts of forms.
//! - `operators`: all operators, each by its kind.
//! - `product`: a number times a sum.
//! - `splits`: which truths of the two sides make a truth of the whole.
//! - `truths`: truths joined, and truths that are the same.
#![tactic(auto)]

mod arithmetic;
mod compare;
mod kinds;
mod operators;
mod product;
mod splits;
mod truths;

pub use compare::test_of;
pub use operators::operate;
pub use splits::{both_sides, either_side};
