//! `Watch`, one clause that a variable watches, and `Site`, where a row is walked.

/// Values of a literal's set, by which most looks at its box are answered without the clause.
#[derive(Clone, Copy)]
pub(crate) enum Witness {
    /// Values as bits: bit j stands for the j-th value from the least one of the domain on.
    Mask(u64),
    /// One value.
    Value(i64),
}

/// A clause that a variable watches.
#[derive(Clone, Copy)]
pub(crate) struct Watch {
    /// The clause, by its index among the added ones.
    pub(crate) clause: u32,
    /// Values of its set for the variable.
    pub(crate) witness: Witness,
}

/// A variable whose row is walked.
#[derive(Clone, Copy)]
pub(crate) struct Site {
    /// The variable.
    pub(crate) variable: u32,
    /// The least value of its domain, which bit 0 of masks stands for.
    pub(crate) least: i64,
    /// The values of its box as bits.
    pub(crate) mask: u64,
}

/// The values of a box as bits.
#[derive(Clone, Copy)]
pub(crate) struct BoxBits {
    /// The bits.
    pub(crate) bits: u64,
    /// Whether all values of the box are among them.
    pub(crate) whole: bool,
}

/// A watch and the variable in whose row it belongs.
#[derive(Clone, Copy)]
pub(crate) struct Link {
    /// The variable.
    pub(crate) variable: u32,
    /// The watch.
    pub(crate) watch: Watch,
    /// Where the literal stands in its clause.
    pub(crate) place: usize,
}
