//! Sessions: one event after another, each by a round, and what each teaches.
//!
//! Each event is a repair of the same model, so what was learnt of the model alone holds for the
//! next. A learnt clause is kept where its chain leads to clauses of the session's own constraints;
//! what a bound or a failure had a part in goes with its round. Kept clauses are stated as
//! constraints, which changes nothing that the problem stands for, so a search needs no word on
//! them. The values found are the former ones of the next event. A round costs a copy of the
//! problem, whose clauses are shared, and its search; the journal keeps every round.
//!
//! Nogoods for dynamic problems: Schiex and Verfaillie (1994); clauses kept between calls: Een and
//! Sorensson (2003), who mark by a literal what is to go; here the log tells.
//!
//! - `session`: `Session`, and its step.
//! - `step`: `Step`, what a step hands back.
//! - `state`: what a session has come to.
//! - `round`: the problem of a round, and the search over it.
//! - `learning`: what a session takes from a round.
//! - `keeping`, `stated`: clauses that are kept, each once.
//! - `words`: the words that stand as failed.
//! - `values`: the values that were found last.
#![tactic(auto)]

mod keeping;
mod learning;
mod round;
mod session;
mod state;
mod stated;
mod step;
mod values;
mod words;

pub use session::Session;
pub use step::Step;
pub use words::copied_words;
