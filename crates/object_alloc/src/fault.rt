//! Why a model's objects are refused.
use std::alloc::{AllocError, AllocFailed};

/// Why a model's objects are refused. Where several limits are broken, the first in this order is
/// named.
#[derive(Clone, Copy, Debug, PartialEq, Eq)]
pub enum AllocFault {
    /// There would be more than `MOST_OBJECTS` objects.
    TooManyObjects,
    /// An object's path would have more than `MOST_NAMES` names.
    TooDeep,
    /// There would be more than `MOST_CELLS` cells.
    TooManyCells,
    /// There was no memory.
    Memory,
}

impl From<AllocError> for AllocFault {
    ghost use Rattle.std.specs.Prelude.{◌≡◌};
    ghost use Rattle.object_alloc.specs.declared.fault.AllocFault.TheVariants.{Memory};

    ghost from_gives = { λ _ e. e ≡ Memory };

    fn from(_: AllocError) -> Self {
        AllocFault::Memory
    }
}

impl<T: Drop> From<AllocFailed<T>> for AllocFault {
    ghost use Rattle.std.specs.Prelude.{◌≡◌};
    ghost use Rattle.object_alloc.specs.declared.fault.AllocFault.TheVariants.{Memory};

    ghost from_gives = { λ _ e. e ≡ Memory };

    fn from(_: AllocFailed<T>) -> Self {
        AllocFault::Memory
    }
}
