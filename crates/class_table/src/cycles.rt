//! Classes that derive from themselves, and attributes that make an object contain one of its own
//! class.
ghost use Rattle.std.specs.Prelude.{◌≡◌, ◌<◌, ◌^◌, ℕ, List, length, IfOk, IfErr, OnOk};
ghost use Rattle.graph_walk.specs.declared.walk.State.{State as AState};
ghost use Rattle.graph_walk.specs.Cycles.{IsOrdered, IsOnCycle, IsPlainCycle};
ghost use Rattle.class_table.specs.Faults.{OnFault, IsNumbered, pointed};
ghost use Rattle.class_table.specs.Graphs.{derivation, containment};

use crate::TableFault;
use crate::graphs::{containment, derivation};
use crate::names::Space;
use conf_syntax::ClassDecl;
use graph_walk::{Outcome, State, find_cycle};
use std::alloc::Global;

/// Refuses a class that derives from itself. The states give an order in which each class stands
/// behind its parent.
#[tactic(auto, using(crate::proofs::RangeLaws::derivation_in_range, crate::proofs::RangeLaws::derivation_length))]
pub(crate) fn check_derivation(
    alloc: Global,
    names: &Space,
    decls: &[&ClassDecl],
) -> Result<Vec<State>, TableFault>
    requires numbered { IsNumbered names.now.entries (length decls.now) }
    requires few { length decls.now < 2 ^ 32 }
    requires marked { IsPlainCycle (derivation names.now.entries (pointed decls.now)) → ⊥ }
    ensures ordered { IfOk result (λ states. IsOrdered
        (derivation names.now.entries (pointed decls.now)) states.items) }
    ensures cycle { IfErr result (λ fault. OnFault fault (λ f. (at : ℕ)
        × (f ≡ TableFault.InheritCycle at)
        × IsOnCycle (derivation names.now.entries (pointed decls.now)) at)) }
{
    let graph = derivation(alloc, names, decls)?;
    match find_cycle(alloc, &graph)? {
        Outcome::Ordered(states) => Ok(states),
        Outcome::Cycle(Some(at)) => Err(TableFault::InheritCycle(at)),
        Outcome::Cycle(None) => unreachable!(),
    }
}

/// Refuses an attribute by which an object contains one of its own class.
#[tactic(auto, using(crate::proofs::RangeLaws::containment_in_range, crate::proofs::RangeLaws::containment_length))]
pub(crate) fn check_containment(
    alloc: Global,
    names: &Space,
    decls: &[&ClassDecl],
) -> Result<(), TableFault>
    requires numbered { IsNumbered names.now.entries (length decls.now) }
    requires few { length decls.now < 2 ^ 32 }
    requires marked { IsPlainCycle (containment names.now.entries (pointed decls.now)) → ⊥ }
    ensures ordered { OnOk result ((states : List AState)
        × IsOrdered (containment names.now.entries (pointed decls.now)) states) }
    ensures cycle { IfErr result (λ fault. OnFault fault (λ f. (at : ℕ)
        × (f ≡ TableFault.ContainCycle at)
        × IsOnCycle (containment names.now.entries (pointed decls.now)) at)) }
{
    let graph = containment(alloc, names, decls)?;
    match find_cycle(alloc, &graph)? {
        Outcome::Ordered(_) => Ok(()),
        Outcome::Cycle(Some(at)) => Err(TableFault::ContainCycle(at)),
        Outcome::Cycle(None) => unreachable!(),
    }
}
