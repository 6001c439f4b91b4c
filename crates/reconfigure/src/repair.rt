//! What a repair goes by.
use conf_syntax::PathText;
use object_alloc::Hints;

/// The values that a model had before, and what failed since.
#[derive(Debug, Drop)]
pub struct Repair {
    /// For each cell the value that it had, if it had one.
    pub former: Hints,
    /// The paths of the objects that failed.
    pub failed: Vec<PathText>,
}
