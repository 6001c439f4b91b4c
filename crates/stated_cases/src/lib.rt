//! Tables that are stated case by case, told as bounds too.
//!
//! Where a model says of each value of a variable what a number is then, as `kind = a -> cost = 3`,
//! a search knows nothing of the number until the variable is fixed. Of cases together more
//! follows: those with the smallest values say that the variable is another one or the number at
//! least so great, and all of them in which set it is. Such clauses are made from the cases by
//! resolution on the variable, so nothing new is said, and no promise rests on which are made.
//!
//! Resolution (Robinson, 1965); that a table is propagated by clauses over bounds is the order
//! encoding (Tamura, Taga, Kitagawa and Banbara, 2009).
//!
//! Clauses of two literals are put in order by their variables; the cost is that of an order, and
//! for each table of at most 128 entries one set of values for each entry.
//!
//! - `chains`: what the first entries say together.
//! - `entries`: entries, and what two say together.
//! - `reading`: the entries that constraints say.
//! - `tables`: what follows from tables, stated.
#![tactic(auto)]

mod chains;
mod entries;
mod reading;
mod tables;

pub use tables::tabulate_stated;
