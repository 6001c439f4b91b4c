//! The search for what is asked of a model, a repair too, and what its log says.
//!
//! A question is a model with its objects, and a repair or none. Its ground problem is searched by
//! whoever finds, the lines stand in the journal beside the problem, and the checker reads them.
//! Only its verdict is told: best, none, or open, with what was found last. So what is printed
//! follows from the checker's yes and from what the problem stands for, and from nothing that the
//! search did; a bug in a propagator could cost an answer, not make a wrong one. The price is the
//! check, a twentieth to a third of a search. An undecided end says more: so many decisions were
//! taken, and the model has at least two configurations more than that.
//!
//! A solver that answers by its checked proof: certifying algorithms (McConnell et al., 2011).
//!
//! - `question`: what is asked of a model.
//! - `problem`: the ground problem of a question.
//! - `finder`: `find`, a search with the check of its lines: what every finder does.
//! - `searching`: `find_best`, from a question to a journal and what is told of the model.
//! - `finding`: what a verdict tells of the model's configurations.
//! - `rounds`: rounds of a journal as runs of searches over a model.
//! - `log`: the text of the lines that are needed.
//! - `laws`: how often a search over a model may decide.
#![tactic(auto)]

mod finder;
mod finding;
mod laws;
mod log;
mod problem;
mod question;
mod rounds;
mod searching;

pub use finder::find;
pub use finding::{Finding, finding_of};
pub use laws::undecided_has_more;
pub use log::trimmed_text;
pub use problem::problem_of;
pub use question::Question;
pub use rounds::{last_round, round_is_run};
pub use searching::{find_best, no_hints};
