//! Graphs of numbered nodes: a walk, cycles and orders; nodes told by their parents. The walk goes
//! depth first.
//!
//! - `walk`: a walk along the edges of a graph, step by step, on a list of its own.
//! - `cycle`: whether a graph has a cycle, and else an order of its nodes.
//! - `parents`: nodes of which each has at most one parent; who derives from whom, and the graph
//!   that leads from parents down.
//! - `heirs`: from which child of a node most nodes derive.
//!
//! A node is a number; what it stands for is its caller's.
#![tactic(auto)]

mod cycle;
mod heirs;
mod parents;
mod walk;

pub use cycle::{Outcome, find_cycle};
pub use heirs::{Descent, descents_of, in_order, zeros};
pub use parents::{Parents, children, derives};
pub use walk::{Edge, Edges, State, Step, Walk};
