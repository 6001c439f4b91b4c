//! Why files that were read give nothing to print.
ghost use Rattle.std.specs.Prelude.{◌≡◌};

use site_tables::{Fault, Place, TableName};
use std::alloc::AllocError;

/// A file that the words name.
#[derive(Clone, Copy, Debug, PartialEq, Eq)]
pub enum FileName {
    /// The table of the hosts.
    Hosts,
    /// The table of the services.
    Services,
    /// The table of today.
    Today,
    /// An answer of the solver.
    Answer,
    /// Constraints that stand behind a model.
    Extra,
    /// A former text.
    Former,
}

/// Why files that were read give nothing to print.
#[derive(Debug, Drop)]
pub enum Refusal {
    /// A table isn't UTF-8.
    NotText(TableName),
    /// Something is wrong with a table.
    Faulty(Fault),
    /// The resource of a goal is none of both tables.
    NoResource,
    /// The model would be longer than a model may be.
    LongModel,
    /// The model breaks a limit, or isn't one.
    Refused(run_status::Status),
    /// An answer or a former text is no JSON.
    NotJson(FileName),
    /// It is no object.
    NotObject(FileName),
    /// An answer has no host of the table for the service that stands here.
    Unplaced(Place),
    /// There was no memory.
    Memory,
}

impl From<AllocError> for Refusal {
    ghost use Rattle.site_drafts.specs.declared.refusal.Refusal.TheVariants.{Memory};

    ghost from_gives = { λ _ r. r ≡ Memory };

    fn from(_: AllocError) -> Self {
        Refusal::Memory
    }
}
