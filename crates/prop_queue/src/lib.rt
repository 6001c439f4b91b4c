//! The constraints that a search still has to look at, and the next that prunes.
//!
//! A constraint that was quiet stays so until a box of its variables changes; so each change lists
//! the constraints of its variable, and an empty list means a fixpoint. That is all that is proved
//! of it (`Fits`: what isn't listed is quiet), so the order is free, and is: cheap kinds before
//! sums, sums before packings, each in sweeps. One that prunes stays listed, and goes off
//! where it is found quiet. Clauses aren't listed but watched, as learnt ones are, since a session
//! has thousands. A change costs a look at each constraint of the variable, an answer where nothing
//! is listed some nanoseconds, whatever the size.
//!
//! Queues by priority and when they pay: Schulte and Stuckey (2008).
//!
//! - `queue`: `Queue`, with what contracts see of it.
//! - `clauses`: the clauses, which are watched. `others`: the constraints that are listed.
//! - `search`: the first listed constraint that has something to say.
//! - `listing`: which constraints are listed. `lists`: in which order. `urgency`: what costs less
//!   comes first. `sweeps`: which of those that cost as much.
//! - `rows`: which constraints name each variable.
#![tactic(auto)]

mod clauses;
mod listing;
mod lists;
mod others;
mod queue;
mod rows;
mod search;
mod sweeps;
mod urgency;

pub use queue::Queue;
