//! What a search has come to behind a line.

/// How things stand behind a line.
#[derive(Clone, Copy, Debug)]
pub enum After {
    /// The search goes on.
    Going,
    /// The clause of this number is false in the present boxes.
    Conflict(u64),
    /// The empty clause was made.
    Closed,
}
