//! The kinds of constraints, by name.
ghost use Rattle.std.specs.Prelude.{◌≡◌};
ghost use Rattle.ground_form.specs.Kinds as kinds;

use crate::con::Con;

/// A kind of constraint. Kinds are ordered as they stand here.
#[derive(Clone, Copy, Debug, PartialEq, Eq, PartialOrd, Ord)]
pub enum Kind {
    /// A sum is at most a bound.
    LinLe,
    /// A variable is a sum.
    LinDef,
    /// A flag says whether a sum is at most a bound.
    ReifLe,
    /// A flag is a conjunction.
    AndDef,
    /// A flag says whether a value is in a set.
    MemberDef,
    /// A flag says whether two values are the same.
    EqDef,
    /// A variable is one of a list, by an index.
    ElementDef,
    /// A variable is another where a flag is set, and else 0.
    CondDef,
    /// A clause.
    ClauseCon,
    /// Values differ.
    AllDiff,
    /// Sizes fit the rooms of their places.
    Pack,
}

/// The kind of the constraint.
pub fn kind_of(con: &Con) -> Kind
    ensures { result ≡ kinds.kind_of con.now }
{
    match con {
        Con::LinLe { .. } => Kind::LinLe,
        Con::LinDef { .. } => Kind::LinDef,
        Con::ReifLe { .. } => Kind::ReifLe,
        Con::AndDef { .. } => Kind::AndDef,
        Con::MemberDef { .. } => Kind::MemberDef,
        Con::EqDef { .. } => Kind::EqDef,
        Con::ElementDef { .. } => Kind::ElementDef,
        Con::CondDef { .. } => Kind::CondDef,
        Con::ClauseCon { .. } => Kind::ClauseCon,
        Con::AllDiff { .. } => Kind::AllDiff,
        Con::Pack { .. } => Kind::Pack,
    }
}
