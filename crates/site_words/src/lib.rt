//! What the words behind the name of `confsolve-site` ask for.
//!
//! - `request`: `request_of`, a task and the files that it needs.
//! - `options`: what stands behind the files.
//!
//! What words ask for stands in `specs/Words`.
#![tactic(auto)]

mod options;
mod request;

pub use request::{Request, Task, request_of};
