//! The limits of models, each a constant and a definition of one name. The constant is for code,
//! the definition in `specs/Limits` for clauses. A proof that uses both ties them to each other.
#![tactic(auto)]

/// How many bytes the text of a model may have.
pub const MODEL_BYTES: u64 = 1_048_576;

/// How many bytes the text of a configuration may have.
pub const CONFIG_BYTES: u64 = 16_777_216;

/// The greatest number that a text may spell.
pub const MOST_LITERAL: u64 = 1_000_000_000;

/// How deep expressions may nest.
pub const MOST_NESTING: u32 = 200;

/// How many objects a model may have.
pub const MOST_OBJECTS: u32 = 10_000;

/// How many names the path of an object may have.
pub const MOST_NAMES: u32 = 60;

/// How many cells a model may have.
pub const MOST_CELLS: u32 = 20_000;

/// How much the expressions of a model may weigh.
pub const MOST_WEIGHT: u64 = 2_000_000;

/// How far from 0 a number may lie: 2 to the 50th.
pub const MOST_WIDTH: i64 = 1_125_899_906_842_624;

/// The least number of `int`.
pub const LEAST_INT: i64 = -1_048_576;

/// The greatest number of `int`.
pub const GREATEST_INT: i64 = 1_048_575;
