//! A maker of forms, which are sums and truths over a problem in the making. They are what
//! expressions are once they are ground.
//!
//! A form is worked on before it becomes variables: sums are added, scaled and folded as lists of
//! terms, a truth is a set of one variable's values, and only what can't be said so gets a
//! definition. What a call says is said of every *world*, values in the boxes that make the
//! definitions true, and that it says no more (`Adds`); so the steps of grounding compose to what a
//! problem stands for. Equal definitions are found by a key that nobody trusts: what stands at it
//! is compared, so no invariant ties the table to the problem.
//!
//! Sharing of equal terms: hash consing (Ershov, 1958; Filliatre and Conchon, 2006).
//!
//! - `arithmetic`: plus and minus over a problem.
//! - `form`: the forms.
//! - `linear`: sums without a problem: numbers, variables, plus and times.
//! - `maker`: a problem in the making, in which equal definitions are made once.
//! - `settle`: sums over a problem: variables, and numbers that fit.
//! - `shared`: flags that are defined once.
//! - `sharing`: where definitions may stand.
//! - `stated`: what is stated of every world.
//! - `terms`: lists of terms, scaled and merged.
//! - `truth`: truths turned.
//! - `values`: values that are defined once.
#![tactic(auto)]

mod arithmetic;
mod form;
mod linear;
mod maker;
mod settle;
mod shared;
mod sharing;
mod stated;
mod terms;
mod truth;
mod values;

pub use arithmetic::{minus, plus};
pub use form::{Linear, Truth};
pub use maker::Maker;
pub use settle::{fit, settled, variable};
pub use truth::turned;
