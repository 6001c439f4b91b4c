//! Prunes by variables that differ (`AllDiff`) and by items to be packed (`Pack`).
//!
//! A packing says that in each bin sizes add up to at most the room, which each item may have of
//! its own. Three things refute it: a fixed item in an overfull bin, an item that no bin has room
//! for, and too little room in all, where each open bin counts with the best room of its items.
//! What takes too much is searched for with rows of rooms and then explained by the rule itself, so
//! the search isn't trusted: what it finds wrongly is probed, and only 'nothing was found' is
//! proved. An explanation says of rooms that they are at most so much, of sizes that they are at
//! least, of bins which they are not, and spends what is to spare on leaving literals out. A call
//! is a walk over items and bins; a tight packing takes their product.
//!
//! Shaw (2004) for the bounds; explanations as of cumulatives by Schutt et al. (2011).
//!
//! - `propagator`: `PackProp`, and what a constraint answers. Variables that differ are pruned by
//!   `all_different_pruner`.
//! - `packing`: items to be packed. `pack_fit` shows that they have slack, or finds an item that
//!   doesn't fit; `unplaceable` and `overfull` say what such an item takes away, and why.
//! - `tight` finds, where all fit, with the rooms of `best_rooms` what takes too much of all room,
//!   and `total` says why, with rows of rooms (`room_row`). What is found wrongly is probed, so
//!   that no answer of `prune` tells; tests ask `find_excess` and `part_of` themselves.
//! - `literals` and `collected` make the literals, `with_part` reads boxes with a part of one in
//!   its place, `spans` tells which entries of a row a range covers.
#![tactic(auto)]

mod best_rooms;
mod collected;
mod literals;
mod overfull;
mod packing;
mod propagator;
mod room_row;
mod spans;
mod tight;
mod total;
mod unplaceable;
mod with_part;

pub use best_rooms::BestRooms;
pub use propagator::PackProp;
pub use tight::find_excess;
pub use unplaceable::{Trial, part_of};
