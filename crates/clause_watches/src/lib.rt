//! Clauses that are looked at only where they may have become unit or false.
//!
//! A clause has something to say only if at most one of its literals meets its box. So it rests by
//! two literals that do, and is looked at only when one of these boxes changes (Moskewicz et al.,
//! 2001); with sets in place of Booleans a box may become narrower and the literal still meet it,
//! which a few values carried by the watch tell without opening the clause (blockers: Sorensson and
//! Een, 2008). And it rests by one literal whose set has the whole box, until that box becomes
//! wider again. So a change costs the watches of its variable and the clauses that lose one,
//! however many clauses there are, and a way back costs those that were held alone. What is proved
//! is why each clause rests; which literals these are is free.
//!
//! - `watches`: the clauses, and what callers do with them.
//! - `table`: all that is kept of them; `build`: how it begins and grows.
//! - `next`: the search for a clause, in two halves: `visiting` walks the rows of changed
//!   variables, `search` opens listed clauses.
//! - `look`, `link`, `held`: what is found in a clause, and what is written down then.
//! - `packed`: the literals of each clause once more, as looks read them.
//! - `rest`, `steps`: why a clause needs no look, and what becomes of that.
//! - `rests`: what is known of each added clause, with lists of those that need a look.
//! - `watch`, `row`: the clauses that a variable watches, and a walk along them.
//! - `mask`, `witness`: sets as bits, and the values that a watch carries.
//! - `work_list`: numbers that wait, each once, with room for all of them.
//! - `counts`: how much has been done.
#![tactic(auto)]

mod build;
mod counts;
mod held;
mod link;
mod look;
mod mask;
mod next;
mod packed;
mod rest;
mod rests;
mod row;
mod search;
mod steps;
mod table;
mod visiting;
mod watch;
mod watches;
mod witness;
mod work_list;

pub use counts::Counts;
pub use rest::Rest;
pub use watches::Watches;
