//! Boxes with a trail: what a search has now, and how it goes back.
//!
//! There is one box for each variable. A change moves the old box into an entry of the trail, with
//! the clause that made it, and going back moves it into its place again: so no set is copied, a
//! change costs one entry of 48 bytes, and a way back what it takes away, whatever the number of
//! variables. Levels are where decisions stand in the trail. Contracts don't see the trail but
//! what it stands for: the boxes of each level, as a list of stores; taking back the last entry is
//! then a law on these, and not on pointers.
//!
//! Trailing as in Prolog's machines and MiniSat (Een and Sorensson, 2003); the other way is to
//! copy and to compute again (Schulte, 1999), which needs no entry for who made a change, and such
//! entries are what conflicts are explained by.
//!
//! - `store`: the boxes of a ground problem's variables, in levels that decisions open.
//! - `trail`: the entries that changed boxes leave, and how they are taken back.
#![tactic(auto)]

mod store;
mod trail;

pub use store::{Applied, Store};
pub use trail::Moved;
