//! The leaves of a configuration in JSON, in order; how path and value are spelled.
#![tactic(auto)]

mod leaf;
mod path;
mod reading;
mod spelling;
mod values;
mod walk;

pub use leaf::Leaf;
pub use path::{Step, path_order, step_order};
pub use reading::{TextError, read_text};
pub use spelling::{push_path, push_word};
pub use values::push_value;
pub use walk::leaves_of;
