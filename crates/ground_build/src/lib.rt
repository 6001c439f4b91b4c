//! A builder of well made ground problems; each auxiliary variable is defined once.
//!
//! What is made of a model has many variables that no cell is. Each has one definition that gives
//! it exactly one value, wherever the definitions are true, also where a stated constraint is
//! broken. So a configuration has exactly one extension, values of the searched variables leave no
//! choice, goals have values everywhere, and to count configurations is to count points. Each call
//! adds one constraint, and at most one variable; what it promises is said of the problem before
//! and after, so promises compose. A call costs what it adds; where memory lacks it adds nothing.
//!
//! Definitions for subformulas: Tseitin (1968); as `defines_var` of FlatZinc (Nethercote et al.,
//! 2007). Implications one way alone (Plaisted and Greenbaum, 1986) would leave choices.
//!
//! - `builder`: the builder, call by call.
//! - `constraints`: what it adds.
//! - `domains`: the domains of the variables that it defines.
#![tactic(auto)]

mod builder;
mod constraints;
mod domains;

pub use builder::Builder;
