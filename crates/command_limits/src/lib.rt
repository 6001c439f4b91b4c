//! The limits of commands, each a constant and a definition of one name. The definitions are in
//! `specs/Limits`, for clauses; a proof that uses both ties them to each other. The limits of
//! models are in `model_limits`.
#![tactic(auto)]

/// How many bytes of a log are read.
pub const LOG_BYTES: u64 = 536_870_912;

/// How many bytes a text of events may have.
pub const EVENTS_BYTES: u64 = 1_048_576;

/// How many events a text may have.
pub const MOST_EVENTS: u32 = 100;

/// How many clauses a session keeps.
pub const MOST_KEPT: usize = 10_000;

/// How many decisions a search may take where no word says it.
pub const USUAL_BUDGET: u32 = 10_000;

/// How many decisions a word may give to a search.
pub const MOST_BUDGET: u32 = 1_000_000;

/// How many decisions `gen` may take.
pub const GENERATED_BUDGET: u32 = 10_000;
