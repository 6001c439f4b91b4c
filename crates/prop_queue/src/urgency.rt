//! How soon constraints are looked at: those whose kind costs little come first. No public contract
//! speaks of it, since any order comes to the same end.
ghost use Rattle.std.specs.Prelude.{◌≡◌, IfOk, length, map};
ghost use Rattle.ground_form.specs.Kinds as kinds;
ghost use Rattle.prop_queue.specs.Urgencies as soon;

use ground_form::{Con, Kind, kind_of};
use std::alloc::{AllocError, Global};

/// How soon a constraint is looked at, the soonest first.
#[derive(Clone, Copy)]
pub enum Urgency {
    /// A few boxes, or a few sets.
    Cheap,
    /// A sum.
    Sum,
    /// All variables against all values.
    Packing,
}

/// How soon a constraint of the kind is looked at.
fn urgency_of(kind: Kind) -> Urgency
    ensures { result ≡ soon.urgency_of kind }
{
    match kind {
        Kind::LinLe | Kind::LinDef | Kind::ReifLe => Urgency::Sum,
        Kind::AllDiff | Kind::Pack => Urgency::Packing,
        Kind::AndDef
        | Kind::MemberDef
        | Kind::EqDef
        | Kind::ElementDef
        | Kind::CondDef
        | Kind::ClauseCon => Urgency::Cheap,
    }
}

/// How soon each of the constraints is looked at.
pub fn urgencies_of(cons: &[Con], alloc: Global) -> Result<Vec<Urgency>, AllocError>
    ensures size { IfOk result (λ urgencies. length urgencies.items ≡ length cons.now) }
    ensures urgencies { IfOk result (λ urgencies. urgencies.items
        ≡ map (λ con. soon.urgency_of (kinds.kind_of con)) cons.now) }
{
    let mut urgencies = Vec::with_capacity(alloc, cons.len())?;
    for con in cons {
        urgencies.push(urgency_of(kind_of(con)))?;
    }
    Ok(urgencies)
}
