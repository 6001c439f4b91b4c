//! What a step of a session hands back.
use log_check::Verdict;
use reconfigure::Repair;

/// What answers an event: the repair that it asked for, and the verdict of the round's search.
#[derive(Drop)]
pub struct Step {
    /// The former values, and what stands as failed behind the event.
    pub repair: Repair,
    /// What the checker says of the round's lines.
    pub verdict: Verdict,
}
