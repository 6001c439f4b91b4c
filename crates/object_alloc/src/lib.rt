//! Objects and cells of a model by containment; extents, paths, configurations.
//!
//! `allocate` is the entry: it lists them from the table of a model's classes, or says which limit
//! the model breaks. `specs` says which objects and cells a model has: `Walk` for objects, `Cells`
//! for extents and cells, `Limits` for the limits, `Configurations` and `Hints` for the values of
//! cells, `Counts` for how many configurations there are.
#![tactic(auto)]

mod cells;
mod changes;
mod extents;
mod fault;
mod finding;
mod groups;
mod hints;
mod layout;
mod object;
mod objects;
mod paths;
mod queue;
mod shapes;
mod spots;

pub use changes::own_values_are_no_changes;
pub use fault::AllocFault;
pub use hints::{configuration_is_hints, hints_lie_in_domains};
pub use object::{Cell, Config, Domain, Hints, Leaf, Object, ObjectList};
pub use objects::{Objects, allocate};
