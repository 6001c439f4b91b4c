//! `Counts`, how much has been done.

/// How much watches have done since they were made, for those who measure.
#[derive(Clone, Copy)]
pub struct Counts {
    /// Watches that were met on walks along rows.
    pub met: u64,
    /// Clauses that were opened to look at their literals.
    pub opened: u64,
}
