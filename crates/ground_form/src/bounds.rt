//! How large the numbers of a constraint may be.

/// How great a sum that a constraint speaks of may be, and its opposite.
pub const MOST_SUM: i64 = 1 << 60;

/// The greatest value that the bin of an item of a packing may have. The least is 0.
pub const LAST_BIN: i64 = 9999;
