//! What may be wrong with the tables of a site, and where.

/// One of the tables.
#[derive(Clone, Copy, Debug, PartialEq, Eq)]
pub enum TableName {
    /// The machines.
    Hosts,
    /// What runs on them.
    Services,
    /// What runs where today.
    Today,
}

/// A cell of a table, by its row and its column, both counted from 0; the header is row 0.
#[derive(Clone, Copy, Debug, PartialEq, Eq)]
pub struct Place {
    pub table: TableName,
    pub row: usize,
    pub column: usize,
}

/// What is wrong at a place.
#[derive(Clone, Copy, Debug, PartialEq, Eq)]
pub enum FaultKind {
    /// A row is missing: the header, or the first host.
    NoRow,
    /// A column that means nothing.
    NoSuchColumn,
    /// A row that has more or fewer cells than the header.
    CellCount,
    /// A cell that is empty, or has a control byte, where a name has to stand.
    NotAName,
    /// A cell that isn't a whole number of at most nine digits where one has to stand.
    NotANumber,
    /// A host that isn't there.
    NoSuchHost,
    /// A service that isn't there.
    NoSuchService,
    /// A value that no host has.
    NoSuchValue,
    /// More rows than 10,000 behind the header.
    TooManyRows,
    /// A label of which two values become the same word.
    ValuesMeet,
    /// A name that becomes the same word as another one, which stands at this place.
    Meets(Place),
}

/// That something is wrong at a place.
#[derive(Clone, Copy, Debug, PartialEq, Eq)]
pub struct Fault {
    pub place: Place,
    pub kind: FaultKind,
}
