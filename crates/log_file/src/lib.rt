//! A log in a file, fed to the checker in pieces. Neither the file nor its lines are kept, so what
//! is taken of memory grows with what the checker keeps, and not with the length of the file.
//!
//! `reading` has `check_file`. `specs/Fronts` says how a checker stands to a file.
#![tactic(auto)]

mod reading;

pub use reading::{FileCheck, check_file};
