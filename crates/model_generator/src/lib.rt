//! The model of `gen`, of any size. It has n hosts on each of two sites, n small and n large
//! virtual machines, and the aim to have as many of them as can be on the first site. What its text
//! is stands in `specs/Generated`.
#![tactic(auto)]

mod generator;

pub use generator::generate;
