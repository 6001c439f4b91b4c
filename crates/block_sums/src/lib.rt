//! Long sums as sums of blocks of their terms.
//!
//! An end of a sum's variable is explained by up to all of its terms, so a search that sets n terms
//! one by one may keep n * n / 2 literals. Where each block is a variable of its own, the sum has
//! the same values, and each end is explained by the few terms of a block.
//!
//! - `blocks`: terms cut into blocks.
//! - `ordered`: a few terms as a sum in good order.
//! - `sum`: a variable that is what terms add up to.
#![tactic(auto)]

mod blocks;
mod ordered;
mod sum;

pub use sum::{settled_in_blocks, sum_variable, with_one_term};
