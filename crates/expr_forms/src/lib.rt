//! What grounding answers for expressions: their forms, and what these mean.
//!
//! - `form`: the forms.
//! - `parts`: the part of a form that is of a kind.
#![tactic(auto)]

mod form;
mod parts;

pub use form::{Choice, Form, Listing, Member, Slot};
pub use parts::{number_of, truth_of};
