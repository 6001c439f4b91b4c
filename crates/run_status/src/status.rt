//! How a run ends, and the number of each way.
ghost use Rattle.std.specs.Prelude.{◌≡◌};
ghost use Rattle.run_status.specs.Status.{number_of};

use conf_syntax::PathText;
use std::alloc::AllocError;

/// How a run ends.
#[derive(Debug, Drop)]
pub enum Status {
    /// The answer was printed: a configuration that satisfies the model and than which none is
    /// better, or, of `verify`, that the configuration satisfies the model, or, of `core`, that
    /// some does, or, of `check`, what the log shows where that isn't that there is none.
    Done,
    /// `none exists` or a core was printed: no configuration satisfies the model.
    NoneExists,
    /// So many decisions were allowed, and they didn't suffice. The best configuration that was
    /// found, if any was, was printed.
    Undecided { decisions: u32 },
    /// The text is no model; the place is that of its first wrong byte.
    Syntax { place: u32 },
    /// The text is a model that means nothing: a fault of meaning stands at the place.
    Meaning { fault: Fault, place: u32 },
    /// A quantity is above its limit; with a place where it has one.
    Limit { kind: LimitKind, place: Option<u32> },
    /// The words are no request.
    Usage,
    /// Reading failed.
    ReadFault,
    /// Writing failed.
    WriteFault,
    /// The text of a configuration isn't read as one, or a word names no object.
    Former { kind: FormerKind },
    /// The log's line of this number, counted from 1, isn't spelled or isn't accepted.
    Rejected { line: u64 },
    /// The configuration doesn't satisfy the model: without a place it has no value for the
    /// variable or attribute of this path; with one the constraint there is broken for the object
    /// of this path, which is empty at the top level.
    Broken { place: Option<u32>, path: PathText },
    /// There was no memory.
    Memory,
    /// The line of this number, counted from 1, is no event.
    Events { line: u32 },
}

/// Why a text isn't read as a configuration, or what is said with it isn't understood.
#[derive(Clone, Copy, Debug, PartialEq, Eq)]
pub enum FormerKind {
    /// It is no JSON.
    NotJson,
    /// It is JSON, but no object.
    NotObject,
    /// The word of this number, counted from 1 among those that name failed objects, names none.
    UnknownObject { word: u64 },
}

/// What may be wrong with what a model says.
#[derive(Clone, Copy, Debug, PartialEq, Eq)]
pub enum Fault {
    /// A name that must differ from one that stands before it.
    Duplicate,
    /// A name that means nothing where it stands.
    Unknown,
    /// A name of something else where a class has to stand.
    NotAClass,
    /// The parent of a class that derives from itself.
    InheritCycle,
    /// The class of an attribute that contains, at some depth, an object of the attribute's own
    /// class.
    ContainCycle,
    /// An abstract class of which an object is declared.
    AbstractObject,
    /// A range whose least value is above its greatest.
    EmptyRange,
    /// An expression of another type than is needed there.
    WrongType,
    /// A product of two expressions neither of which is built of numbers alone.
    NonLinear,
    /// A quantifier's variable that hides another name.
    Shadow,
}

/// A quantity that has a limit.
#[derive(Clone, Copy, Debug, PartialEq, Eq)]
pub enum LimitKind {
    /// The length of a model's text.
    Model,
    /// A number in the text. It has a place.
    Literal,
    /// The depth of an expression. It has a place.
    Nesting,
    /// The number of objects.
    Objects,
    /// The number of names in an object's path.
    Depth,
    /// The number of cells.
    Cells,
    /// The weight of the constraints and objectives.
    Weight,
    /// The ends of each interval, either side of 0.
    Width,
    /// The length of a configuration's text.
    Former,
    /// The length of a log that is checked.
    Log,
    /// The length of a text of events.
    Events,
}

impl From<AllocError> for Status {
    ghost use Rattle.run_status.specs.declared.status.Status.TheVariants.{Memory};

    ghost from_gives = { λ _ s. s ≡ Memory };

    fn from(_: AllocError) -> Self {
        Status::Memory
    }
}

impl Status {
    /// The exit status of the program.
    pub fn number(&self) -> u8
        ensures { result ≡ number_of self.now }
    {
        match self {
            Status::Done => 0,
            Status::NoneExists => 1,
            Status::Undecided { .. } => 2,
            Status::Syntax { .. } => 3,
            Status::Meaning { .. } => 4,
            Status::Limit { .. } => 5,
            Status::Usage => 6,
            Status::ReadFault => 7,
            Status::WriteFault => 8,
            Status::Former { .. } => 9,
            Status::Rejected { .. } => 10,
            Status::Broken { .. } => 11,
            Status::Memory => 12,
            Status::Events { .. } => 14,
        }
    }
}
