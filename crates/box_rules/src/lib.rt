//! The rules of constraints: what each refutes and justifies, and when it is quiet.
//!
//! Each kind of constraint has one rule, which looks at the boxes of its variables. A constraint is
//! refuted where its rule leaves it no chance; a clause is justified by it where it is refuted in
//! what the clause's literals leave of the domains; and it is quiet where no single value of a box
//! would refute it. `specs/` holds these three tests, apart from this code.
//!
//! - `emptiness`: whether a variable of a constraint has an empty box.
//! - `flags`, `linear`, `all_different`, `packing`: the rule of each kind. `sums`: what the linear
//!   ones add up. `crowding`: values that differ among at most 64 boxes, by counters.
//!   `fixed_items`: loads of at most 64 items, by a row. `total`: sums of many numbers (`WideSum`).
//! - `exclude`: the rule of a constraint, whatever its kind.
//! - `refute`: when boxes refute a constraint. `justify`: when it justifies a clause.
//! - `fixpoint`: when it is quiet, and the values that are probed for that.
//! - `soundness`: a refuted constraint has no solution in the boxes, and which boxes are looked at.
#![tactic(auto)]

mod all_different;
mod crowding;
mod emptiness;
mod exclude;
mod fixed_items;
mod fixpoint;
mod flags;
mod justify;
mod linear;
mod packing;
mod refute;
mod soundness;
mod sums;
mod total;

pub use fixpoint::{are_all_quiet, first_at, quiet};
pub use justify::justified;
pub use refute::refutes;
pub use soundness::{quiet_looks_at_variables, refuted_is_false, some_interval_is_crowded};
