//! Classes, enumerations and top-level variables of a model, or a fault among them. They are
//! resolved: no name stands in them any more but as a label.
//!
//! `ClassTable::build` is the entry: it answers the table of a program in which names, ranges and
//! classes are right, or one of the faults that stand in it, with its place. `specs` says what each
//! name means, which class derives from which, which attributes a class has, and where each fault
//! stands.
#![tactic(auto)]

mod attributes;
mod build;
mod class_table;
mod cycles;
mod fault;
mod graphs;
mod law;
mod name_text;
mod names;
mod parents;
mod parts;
mod paths;
mod resolve;
mod table;

pub use class_table::{Attribute, ClassTable};
pub use fault::TableFault;
pub use law::{names_are_words, one_model_declares_the_same};
pub use names::NameMeaning;
pub use table::{Class, Enumeration, Resolved, Values, Variable, Variables};
