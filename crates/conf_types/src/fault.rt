//! What may be wrong with the expressions of a model.
use std::alloc::{AllocError, AllocFailed};

/// A fault in a model's expressions, with its place in the text.
#[derive(Clone, Copy, Debug, PartialEq, Eq)]
pub enum TypeFault {
    /// A name that means nothing where it stands, or `this` outside a class.
    Unknown(u32),
    /// The first token of an expression whose type isn't the one that is needed, or of a comparison
    /// of two types that don't compare.
    WrongType(u32),
    /// A `*` with no side that is built of literals.
    NonLinear(u32),
    /// A quantifier's variable whose name means something already.
    Shadow(u32),
    /// There was no memory.
    Memory,
}

impl From<AllocError> for TypeFault {
    ghost use Rattle.std.specs.Prelude.{◌≡◌};
    ghost use Rattle.conf_types.specs.declared.fault.TypeFault.TheVariants.{Memory};

    ghost from_gives = { λ _ e. e ≡ Memory };

    fn from(_: AllocError) -> Self {
        TypeFault::Memory
    }
}

impl<T: Drop> From<AllocFailed<T>> for TypeFault {
    ghost use Rattle.std.specs.Prelude.{◌≡◌};
    ghost use Rattle.conf_types.specs.declared.fault.TypeFault.TheVariants.{Memory};

    ghost from_gives = { λ _ e. e ≡ Memory };

    fn from(_: AllocFailed<T>) -> Self {
        TypeFault::Memory
    }
}
