//! Which logs a search with learning may leave, and what every such log has.
//!
//! What a search promises ought not to name its code. So a run is defined on lines alone: behind
//! each line the boxes, level by level, and the clauses are known, and so is what may come next: a
//! pruning, a chain that is the walk of this conflict, a decision only at a fixpoint, a solution
//! and its bound. Of every such list laws are proved, whatever made it: the checker accepts it, a
//! front of it is a run, a learnt clause leads back from one level, and it decides fewer times than
//! there are points, so a search ends. The price is that a search can't restart or forget without a
//! new definition here. The functions do nothing; their contracts are the laws.
//!
//! The idea is that of transition systems for DPLL with learning (Nieuwenhuis, Oliveras and
//! Tinelli, 2006), with lines for transitions; proved for SAT by Blanchette et al. (2018).
//!
//! - `laws`: a line more and fronts; what every run leaves; how often a run decides.
//! - `following`: what a chooser picks, a walk's chain, a solution and its bound as the next line;
//!   from which level a clause leads back.
//! - `known`: what the types of a line's parts keep, which the laws need.
#![tactic(auto)]

mod following;
mod known;
mod laws;

pub use following::{
    bound_may_follow, found_may_follow, one_level_leads_back, pick_may_be_decided, walk_may_follow,
};
pub use laws::{
    front_is_run, line_more, ordered_line_more, run_decides_less, run_leaves, run_reaches,
};
