//! Whether a graph has a cycle, and a place on it.
//!
//! `find_cycle` is the entry. Where there is no cycle it answers the order in which a walk left the
//! nodes: each edge leads to a node that was left before.
ghost use Rattle.std.specs.Prelude.{◌≡◌, ◌<◌, ◌≤◌, ◌^◌, [], length, IfOk, IfSome, IfNone, OnSome};
ghost use Rattle.graph_walk.specs.Walk.{IsWalk, InRange, StandsAt, IsOpen, IsDone, IsNew, state_at};
ghost use Rattle.graph_walk.specs.Cycles.{IsOutcome, NewStays, IsOnCycle, IsPlainCycle};

use crate::walk::{Edges, State, Step, Walk};
use std::alloc::{AllocError, Global};

/// What a search for a cycle found.
#[derive(Drop)]
pub enum Outcome {
    /// There is no cycle; the states say when each node was left.
    Ordered(Vec<State>),
    /// There is a cycle, and this is the place of an edge on it; None where no edge on it has a
    /// place.
    Cycle(Option<u32>),
}

/// Searches a graph for a cycle.
pub fn find_cycle(alloc: Global, graph: &[Edges]) -> Result<Outcome, AllocError>
    requires range { InRange graph.now }
    requires few { length graph.now < 2 ^ 32 }
    ensures outcome { IfOk result (λ outcome. IsOutcome graph.now outcome) }
{
    let mut walk = Walk::new(alloc, graph)?;
    for root in 0..graph.len() {
        if let Some(to) = walk_from(&mut walk, graph, root as u32)? {
            return Ok(Outcome::Cycle(place_on_cycle(graph, &walk, to)));
        }
    }
    Ok(Outcome::Ordered(walk.states))
}

/// Walks to all that can be reached from a node; Some where it stands at an edge to this open node.
fn walk_from(walk: &mut Walk, graph: &[Edges], root: u32) -> Result<Option<u32>, AllocError>
    requires range { InRange graph.now }
    requires walk { IsWalk graph.now walk.old.states.items walk.old.path.items walk.old.done }
    requires path { walk.old.path.items ≡ [] }
    requires root { root < length graph.now }
    ensures walk { IfOk result (λ found. IsWalk graph.now walk.new.states.items walk.new.path.items
        walk.new.done) }
    ensures stays { IfOk result (λ found. NewStays walk.old.states.items walk.new.states.items) }
    ensures reached { IfOk result (λ found. IfNone found
        (IsNew (state_at walk.new.states.items root) → ⊥)) }
    ensures path { IfOk result (λ found. IfNone found (walk.new.path.items ≡ [])) }
    ensures stands { IfOk result (λ found. IfSome found
        (λ to. StandsAt graph.now walk.new.states.items walk.new.path.items to)) }
    ensures opened { IfOk result (λ found. IfSome found
        (λ to. IsOpen (state_at walk.new.states.items to))) }
    ensures on_graph { IfOk result (λ found. IfSome found (λ to. to < length graph.now)) }
{
    let State::New(edges) = walk.state(root) else {
        return Ok(None);
    };
    walk.begin(graph, root, edges)?;
    while !walk.path.is_empty() {
        if let Step::Closed(to) = walk.step(graph)? {
            return Ok(Some(to));
        }
    }
    Ok(None)
}

/// The place of an edge on the cycle that the path closes with an edge from its last node to this
/// one.
fn place_on_cycle(graph: &[Edges], walk: &Walk, to: u32) -> Option<u32>
    requires range { InRange graph.now }
    requires walk { IsWalk graph.now walk.now.states.items walk.now.path.items walk.now.done }
    requires stands { StandsAt graph.now walk.now.states.items walk.now.path.items to }
    requires opened { IsOpen (state_at walk.now.states.items to) }
    requires on_graph { to < length graph.now }
    ensures some { IfSome result (λ at. IsOnCycle graph.now at) }
    ensures none { IfNone result (IsPlainCycle graph.now) }
{
    let mut at = walk.path.len();
    while at > 0 {
        at -= 1;
        let node = walk.path[at];
        if let Some(place) = walk.place(graph, node) {
            return Some(place);
        }
        if node == to {
            return None;
        }
    }
    None
}
