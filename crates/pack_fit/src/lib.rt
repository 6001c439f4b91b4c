//! Whether all items of a packing fit, with slack or without.
//!
//! Most calls of a packing have nothing to say, and have to show it: for each item that every bin
//! which it may still have has room for it, and that there is room enough in all whichever box is
//! narrowed. One survey counts, bin by bin, what stands fixed there and how many boxes begin and
//! end there; from these few numbers nearly every bin is decided without a look at its items. For
//! room in all a lower bound of each bin's second greatest room does: if that suffices, no single
//! box decides. So an idle call costs items, ranges and bins, once each; only where rooms are very
//! unlike it fills a row of items times bins.
//!
//! Packing as a constraint, and its total bound: Shaw (2004).
//!
//! - `loads`: the least sizes at a bin and the rooms that are there, over the boxes of items.
//! - `survey`: what a look at all items needs to know of each bin, counted in one pass.
//! - `room`: shows with the numbers of a survey that all items fit and that there is room enough,
//!   or finds an item that doesn't fit.
#![tactic(auto)]

mod loads;
mod room;
mod survey;

pub use loads::{
    Load, greater, greatest, is_fixed, is_single, least, load_at, may_be, ranges_at, sizes_of,
    smaller, tight_at,
};
pub use room::{Look, bins_of, ends_at, first_bin, last_bin, look_at_items};
pub use survey::Survey;
