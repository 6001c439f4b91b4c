//! The outside as a program sees it: files, printing, and how often either has failed.
//!
//! Code that is generic over a `Desk` reaches files and the standard output by its four calls
//! alone. `MemoryDesk` and `SteadyDesk` hold all of that in memory; `RealDesk` is the edge over
//! real files. `read_all`, `print_all` and `store_all` make whole files and texts of the pieces
//! that a desk gives and takes.
#![tactic(auto)]

// The trait and its error.
mod desk;
// Files as a list of names and bytes.
mod file_list;
// Counters.
mod fault;
// How much one call handles.
mod piece;
// A desk in memory that fails when it is told to.
mod memory;
// A desk in memory that never fails.
mod steady;
// Real files and the standard output.
mod real;
// Whole files and texts over any desk.
mod whole;

pub use desk::{Desk, DeskError};
pub use file_list::StoredFile;
pub use memory::MemoryDesk;
pub use real::RealDesk;
pub use steady::SteadyDesk;
pub use whole::{PIECE, ReadError, WriteError, print_all, read_all, store_all};
