//! Which box a search splits next, and where: three orders, and stored choosers.
//!
//! A split is a part of an open box that is tried first: `first` and `small` take the least value,
//! of the first open variable or of one with the fewest values (first fail: Haralick and Elliott,
//! 1980); `former` takes the value that a variable had before, where that is still possible, so a
//! repair begins where it was (as phase saving does: Pipatsrisawat and Darwiche, 2007). None is
//! answered exactly where all searched boxes are single values, which is when a search is done.
//! Orders are definitions, so a log says by which order it went, and no order learns: what it
//! answers depends on boxes alone. Each is one walk over the searched boxes, without memory. A
//! caller's own function is as good, kept with what its maker proved of it.
//!
//! - `split`: splits, and the orders in which boxes are split.
//! - `chooser`: `Chooser`, a function that picks splits, kept with what is known of it.
//! - `orders`: the functions that pick by the orders. `halves`: what they ask of one box.
#![tactic(auto)]

mod chooser;
mod halves;
mod orders;
mod split;

pub use chooser::{Chooser, Pick};
pub use orders::{first, former, small};
pub use split::{Order, Split};
