//! The model of a site, made of its tables: a text, line by line.
//!
//! - `lines`: lines made of pieces.
//! - `classes`: the enumerations of labels, and the classes of hosts and services.
//! - `facts`: the lines of a host, and of a service alone.
//! - `choosing`: which hosts a service may have, by a label.
//! - `goals`: what a placement is to be best at.
//! - `relations`: the lines of two services with the same word.
//! - `making`: the whole.
//!
//! Which text it is stands in `specs/Model`.
#![tactic(auto)]

mod choosing;
mod classes;
mod facts;
mod goals;
mod lines;
mod making;
mod relations;

pub use goals::{Goal, Kept};
pub use making::model_text;
