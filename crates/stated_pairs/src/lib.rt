//! Variables of which each two are stated to differ, stated to differ as one.
//!
//! That two values differ is a constraint of its own wherever a model says it of two objects, and
//! pair by pair it counts nothing: that ten values don't fit into nine is seen only once nearly all
//! are chosen. Where each two of some variables differ, all of them do, which is a constraint with
//! a counting rule. Nothing new is said, so no promise rests on which variables are found.
//!
//! Pairs are read off the constraints and put in order. A clique of them is begun with a pair that
//! is in none so far, and takes in greedily whatever differs from all of it; whether each two do is
//! looked at once more before it is stated. How many pairs are looked up is bounded by a multiple
//! of how many there are.
//!
//! - `cliques`: variables of which each two are a pair.
//! - `differing`: what follows from pairs, stated.
//! - `reading`: the pairs that constraints say.
#![tactic(auto)]

mod cliques;
mod differing;
mod reading;

pub use differing::differ_stated;
