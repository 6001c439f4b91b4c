//! What is wrong with the tables of a site: the first fault, or none.
//!
//! - `columns`: of the headers.
//! - `hosts`, `services`: of the rows.
//! - `known`: which hosts there are, and which values their labels have.
//! - `meets`: of names that would become the same word.
//! - `site`: of both tables, `site_fault`.
//!
//! Which fault it is stands in `specs/Faults`.
#![tactic(auto)]

mod columns;
mod hosts;
mod known;
mod meets;
mod services;
mod site;

pub use site::site_fault;
