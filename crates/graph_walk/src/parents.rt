//! Nodes of which each has at most one parent: who derives from whom, and the graph from parents
//! down.
//!
//! `Parents` is the face of whoever knows the parents, so that no list of them is made.
ghost use Rattle.std.specs.Prelude.{◌≡◌, ◌+◌, ◌<◌, ◌^◌, ◌++◌, ◌∷◌, [], ℕ, Option, slice_set, length, IfOk, OnOk};
ghost use Rattle.graph_walk.specs.Ancestors.{derives};
ghost use Rattle.graph_walk.specs.Children.{AreParents, IsChildren, child};
ghost use Rattle.graph_walk.specs.Walk.{edges_at};

use crate::walk::{Edge, Edges};
use std::alloc::{AllocError, Global};

/// Nodes, of which each has at most one parent.
pub trait Parents {
    // how many there are
    ghost size: { Self → ℕ };
    // the parent of each
    ghost up: { Self → ℕ → Option ℕ };

    /// How many nodes there are.
    fn count(&self) -> usize
        ensures { result ≡ size self.now };

    /// The parent of a node.
    fn parent(&self, node: u32) -> Option<u32>
        requires { node < size self.now }
        ensures { result ≡ up self.now node };
}

/// Whether node `d` is node `c` or an ancestor of it. The cost is the number of parents between
/// them.
pub fn derives<P: Parents>(family: &P, c: u32, d: u32) -> bool
    requires parents { AreParents (P.up family.now) (P.size family.now) }
    requires node { c < P.size family.now }
    ensures { result ≡ derives (P.up family.now) (P.size family.now) c d }
{
    let mut at = c;
    for _step in 0..family.count() {
        if at == d {
            return true;
        }
        match family.parent(at) {
            Some(parent) => at = parent,
            None => return false,
        }
    }
    at == d
}

/// A node without edges for each node.
#[tactic(auto, using(crate::proofs::ChildLaws::no_child))]
fn no_children<P: Parents>(alloc: Global, family: &P) -> Result<Vec<Edges>, AllocError>
    ensures graph { IfOk result (λ graph. IsChildren (P.up family.now) (P.size family.now) 0
        graph.items) }
{
    let mut graph = Vec::new(alloc);
    for _node in 0..family.count() {
        graph.push(Edges::of(Vec::new(alloc)))?;
    }
    Ok(graph)
}

/// Adds an edge to a node.
fn add_child(graph: &mut Vec<Edges>, parent: u32, node: u32) -> Result<(), AllocError>
    requires parent { parent < length graph.old.items }
    ensures graph { OnOk result (graph.new.items ≡ slice_set graph.old.items parent
        (edges_at graph.old.items parent ++ child node ∷ [])) }
{
    graph[parent as usize].push(Edge {
        to: node,
        place: None,
    })
}

/// Adds the edge from the parent of the next node.
#[tactic(auto, using(crate::proofs::ChildLaws::child_none))]
fn link<P: Parents>(family: &P, graph: &mut Vec<Edges>, node: u32) -> Result<(), AllocError>
    requires parents { AreParents (P.up family.now) (P.size family.now) }
    requires node { node < P.size family.now }
    requires graph { IsChildren (P.up family.now) (P.size family.now) node graph.old.items }
    ensures graph { OnOk result (IsChildren (P.up family.now) (P.size family.now) (node + 1)
        graph.new.items) }
{
    match family.parent(node) {
        Some(parent) => add_child(graph, parent, node),
        None => Ok(()),
    }
}

/// The graph that leads from each node to those whose parent it is.
pub fn children<P: Parents>(alloc: Global, family: &P) -> Result<Vec<Edges>, AllocError>
    requires parents { AreParents (P.up family.now) (P.size family.now) }
    requires few { P.size family.now < 2 ^ 32 }
    ensures graph { IfOk result (λ graph. IsChildren (P.up family.now) (P.size family.now)
        (P.size family.now) graph.items) }
{
    let mut graph = no_children(alloc, family)?;
    for node in 0..family.count() {
        link(family, &mut graph, node as u32)?;
    }
    Ok(graph)
}
