//! What is answered to the question what to blame.
use log_form::Indexes;

/// What a model's constraints leave possible, and which to blame where it is nothing.
#[derive(Drop)]
pub enum CoreAnswer {
    /// Some configuration satisfies the model.
    Solvable,
    /// The first search took as many decisions as it may.
    Undecided,
    /// No configuration satisfies the constraints of `keep`; without any one of them the others are
    /// satisfied by some, but for those of `unsure`, of which it wasn't decided. Both ascend.
    Core { keep: Indexes, unsure: Indexes },
}
