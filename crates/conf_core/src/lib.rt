//! What to blame where nothing satisfies a model: an irreducible list of constraints.
//!
//! A core is constraints that no configuration satisfies, while without any single one some does.
//! The log of the first search tells which constraints its empty clause rests on, often few; they
//! are searched alone, with those that fix the values of cells. Then some are left out at a time:
//! twice as many after a part that was still impossible, half as many after one that wasn't, and one
//! without which the others are possible is needed for good. Those that fix values come last, all of
//! them at once to begin with: while they stand a search is short. Nothing is proved of these
//! choices: what is answered rests on the rounds, one over the core and one for each constraint
//! without it. A search that is undecided leaves its constraint in, as unsure. It costs a search for
//! each that is needed and a few for what isn't.
//!
//! Blame by a proof: Zhang and Malik (2003); leaving out in growing steps: progression
//! (Marques-Silva, Janota and Belov, 2013); also QuickXplain (Junker, 2004).
//!
//! - `core_search`: `find_core`, the first search and what comes behind it.
//! - `part_search`: a search over a part of the model, as a round of the journal.
//! - `blame`: which constraints the log of a round rests on.
//! - `suspects`: what is known of each constraint; `narrowing`: until none may be left out.
//! - `indexes`: the indexes of a list.
//! - `answer`: `CoreAnswer`.
//!
//! What a core is stands in `specs/Cores`, what its searches are over in `specs/Parts`.
#![tactic(auto)]

mod answer;
mod blame;
mod core_search;
mod indexes;
mod narrowing;
mod part_search;
mod suspects;

pub use answer::CoreAnswer;
pub use core_search::find_core;
