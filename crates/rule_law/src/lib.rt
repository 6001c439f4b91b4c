//! The face of propagators, and what they share: explanations, plain probing, kits.
//!
//! A propagator answers a clause that its constraint justifies and that is false or unit in the
//! boxes, or None, and then the constraint is quiet: no value that its rule probes would refute it.
//! So whoever asks knows when to stop, and needs to know nothing of how the answer was found. For
//! each kind plain probing answers too, at the price of the rule for each value of each box; what
//! is cleverer than that only has to be right about None, since a clause is checked by its rule.
//! The law of fixpoints is what a search rests on: where all are quiet and the searched variables
//! have single values, the boxes are a solution.
//!
//! Clauses in place of prunings: lazy clause generation (Ohrimenko, Stuckey and Codish, 2009).
//! Probing: singleton consistency (Debruyne and Bessiere, 1997), shaving (Martin and Shmoys, 1996).
//!
//! - `subject`: what a propagator is asked about.
//! - `propagator`, `kit`: the face of what prunes by constraints, and kits that have a member for
//!   every kind.
//! - `within`: the test that boxes are such as a propagator asks for.
//! - `explain`, `plan`: clauses made of reasons, and of plans of what an explanation leaves.
//! - `narrow`: clauses cut to the domains, and that they say the same.
//! - `probing`: probing that explains what it finds, for every kind.
//! - `variables`: the variables of a constraint. `repeats`: whether one stands twice in it, and
//!   what is kept of that.
//! - `clause`: what a clause says that is a constraint: itself, where it is false in the boxes or
//!   unit, or nothing. Its propagator and the queue, which watches clauses, both rest on this.
//! - `fixpoints`: the law of fixpoints, as the contract of a function that does nothing: what boxes
//!   are in which every constraint is quiet and the searched variables have single values.
//!
//! A search decides the first variables of a ground problem and asks propagators until they have
//! nothing more to say. The law of fixpoints is why it has found a solution then: all other
//! variables have single values too, and all these values together make every constraint true. So a
//! search may write down the values that it finds without a look at the constraints, whichever
//! propagators it asked and however the boxes came about. It rests on two things. In boxes of
//! single values a constraint is refuted exactly where it is false. And a definition is true at one
//! value of its variable alone, while both ends of that variable's box are probed; so the ends are
//! the same, variable after variable in their order.
#![tactic(auto)]

mod clause;
mod explain;
mod fixpoints;
mod kit;
mod narrow;
mod plan;
mod probing;
mod propagator;
mod repeats;
mod subject;
mod variables;
mod within;

pub use box_rules::{
    justified, quiet, quiet_looks_at_variables, refuted_is_false, refutes, some_interval_is_crowded,
};
pub use box_view::is_rest_within;
pub use clause::{own_reason, prune_clause};
pub use explain::{keep_out, pruning};
pub use fixpoints::fixpoint_is_solution;
pub use kit::{Kit, MissingKind};
pub use narrow::{cut_says_the_same, cut_to};
pub use plan::{planned_pruning, truth};
pub use probing::probe;
pub use propagator::Propagator;
pub use repeats::{Repeats, has_var};
pub use subject::Subject;
pub use variables::all_vars;
pub use within::are_boxes_within;
