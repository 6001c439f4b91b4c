//! What the words behind the program's name ask for.
//!
//! The main function is `request_of`. Words are read where they stand, without memory, and copied
//! only once they are known to be a request. So words that are no request never want memory.
//!
//! - `options`: the three options, and the values that they may have.
//! - `scan`: the role of each word, from left to right: plain words, and options with values.
//! - `command`: the seven commands.
//! - `draft`: requests over borrowed words: what each command asks of its words and options.
//! - `request`: requests, which own their words.
//! - `file_name` and `paths`: names of files and lists of paths, seen by clauses as bytes.
//! - `numbers`: decimal numbers between bounds.
//!
//! The folder `specs` says, apart from these steps, which words are which request (`Words`).
#![tactic(auto)]

mod command;
mod draft;
mod file_name;
mod numbers;
mod options;
mod paths;
mod request;
mod scan;

pub use file_name::FileName;
pub use options::OrderName;
pub use paths::Paths;
pub use request::{Request, request_of};
