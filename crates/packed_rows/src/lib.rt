//! Rows of loads that are together a packing, stated as one constraint. A row says that what is in
//! a bin adds up to at most its room.
//!
//! `sum v in VM where v.host = this { v.cpu } <= this.cpu`, for each host, is one row a host: said
//! as flags that is a variable for each machine and host. If in every row just those items count
//! that may be in its bin, and their sizes and rooms are fixed, all rows together are one packing
//! with a variable an item. What the items are is proposed by joining the rows, and then looked at,
//! so only the look is proved. Where rooms differ an item is fixed in each bin that fills it up to
//! the greatest, since the rule of a packing counts the best room of a bin. The look is a walk over
//! the rows' entries, items times bins at most.
//!
//! To find global constraints in what was written by hand: Leo et al. (2013).
//!
//! - `bounds`: whether the numbers of items to be packed are bounded.
//! - `packing`: rows stated as one packing.
//! - `plan`: whether rows are a packing, and of which items.
//! - `row`: a row.
#![tactic(auto)]

mod bounds;
mod packing;
mod plan;
mod row;

pub use bounds::are_bounded;
pub use packing::pack_rows;
pub use row::Row;
