//! Typed models and objects of texts that a test gives. `texts` reads one, makes its table, and
//! types it.
#![tactic(auto)]

mod texts;

pub use texts::{TypedText, model_of, table_of, typed_of};
