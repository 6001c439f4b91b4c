//! What may be wrong with the declarations of a model.
use std::alloc::{AllocError, AllocFailed};

/// A fault in a model's declarations, with its place in the text.
#[derive(Clone, Copy, Debug, PartialEq, Eq)]
pub enum TableFault {
    /// A name that must differ from one that stands before it.
    Duplicate(u32),
    /// A name that means nothing where it stands.
    Unknown(u32),
    /// A name of an enumeration or of a top-level variable where a class has to stand.
    NotAClass(u32),
    /// The parent of a class that derives from itself.
    InheritCycle(u32),
    /// The class of an attribute that contains, at some depth, an object of the attribute's own
    /// class.
    ContainCycle(u32),
    /// An abstract class of which an object is declared.
    AbstractObject(u32),
    /// A range whose least value is above its greatest.
    EmptyRange(u32),
    /// There was no memory.
    Memory,
}

impl From<AllocError> for TableFault {
    ghost use Rattle.std.specs.Prelude.{◌≡◌};
    ghost use Rattle.class_table.specs.declared.fault.TableFault.TheVariants.{Memory};

    ghost from_gives = { λ _ e. e ≡ Memory };

    fn from(_: AllocError) -> Self {
        TableFault::Memory
    }
}

impl<T: Drop> From<AllocFailed<T>> for TableFault {
    ghost use Rattle.std.specs.Prelude.{◌≡◌};
    ghost use Rattle.class_table.specs.declared.fault.TableFault.TheVariants.{Memory};

    ghost from_gives = { λ _ e. e ≡ Memory };

    fn from(_: AllocFailed<T>) -> Self {
        TableFault::Memory
    }
}
