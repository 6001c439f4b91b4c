//! Finite sets of integers, signed clauses over them, and resolution.
//!
//! A literal says that a variable's value is in a set, so one clause says of large domains what
//! took a Boolean variable for each value. Two clauses that both speak of a variable give a third:
//! the sets of that variable meet, all others are joined. A set is its ranges in order, so equal
//! sets are equal lists, and a proof speaks of lists alone; one range stands in the value itself,
//! and copies of longer sets share their memory, as a domain stands in a problem, in each box and
//! in each round.
//!
//! Signed clauses: Beckert, Haehnle and Manya (2000); as nogoods of searches Katsirelos and Bacchus
//! (2005); as proofs of a solver over finite domains Veksler and Strichman (2010).
//!
//! - `int_set`: a set of values of 64 bits, kept as ranges.
//! - `range`: what two single ranges say of one another.
//! - `clause`: disjunctions of literals, each a variable and a set.
//! - `handle`: a clause that several owners have.
//! - `resolution`: the resolvent of two clauses.
//! - `stored`: where the ranges of a set stand, and when copies share them.
#![tactic(auto)]

mod clause;
mod handle;
mod int_set;
mod range;
mod resolution;
mod stored;

pub use clause::{Clause, NotAClause};
pub use handle::ClauseHandle;
pub use int_set::IntSet;
pub use resolution::{push_copy, push_rest, resolve};
