//! What is in a bin, as a row.

/// The sizes of what is in a bin add up to at most its room.
#[derive(Drop)]
pub struct Row {
    /// The bin.
    pub bin: i64,
    /// Variables that may have the bin as their value, each with the size that counts then.
    pub loads: Vec<(u32, i64)>,
    /// The room.
    pub room: i64,
}
