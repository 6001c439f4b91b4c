//! Splits of boxes, and the orders that pick them.

/// A part of a variable's box, which a search tries first.
#[derive(Clone, Copy, Debug)]
pub struct Split {
    /// The variable.
    pub var: u32,
    /// The value that the part is about.
    pub value: i64,
    /// Whether the part is the values up to that one; else it is that value alone.
    pub upto: bool,
}

/// Which split is picked.
#[derive(Clone, Copy, Debug)]
pub enum Order {
    /// The least value of the first undecided variable.
    First,
    /// The least value of the undecided variable with fewest values.
    Small,
    /// The hint of the first undecided variable that can have it.
    Former,
    /// What a chooser's maker wants.
    Own,
}
