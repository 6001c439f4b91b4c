//! From a text to the parts of its model, each step with its refusals. A refusal is a status.
//!
//! - `reading`: `read_model`, from a text to the tree of its model.
//! - `model`: its tokens and their tree, and why a text gives none.
//! - `building`: from the tree to the table, the resolved expressions and the objects, and whether
//!   the model keeps the limits.
//! - `built`: these parts.
//!
//! Which tree is a text's stands in `specs/TextModel`, what it says in `specs/Models`, and what
//! each refusal says in `specs/ModelRefusal`.
#![tactic(auto)]

mod building;
mod built;
mod model;
mod reading;

pub use building::{objects_of, table_of, typed_model};
pub use built::Built;
pub use reading::read_model;
