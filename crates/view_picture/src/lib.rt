//! The picture of a placement: who stands where, and what a holder's guests sum to.
#![tactic(auto)]

mod holding;
mod lookup;
mod mentions;
mod named;
mod pictures;
mod scales;
mod totals;
mod ways;

pub use holding::{Guest, Holding, Load, Scale, Size};
pub use mentions::guest_by;
pub use named::{are_parts, has_attribute, has_object};
pub use pictures::holdings;
pub use scales::scales_of;
pub use totals::amount;
pub use ways::parts;
