//! A walk along the edges of a graph, depth first, on a list of its own in place of recursion.
//!
//! `Walk::step` is the entry. Nodes are numbers. Each is new, then open while its edges are looked
//! at, from the last to the first, then done. The open nodes are the path; each leads to the next
//! by the edge that is looked at. An edge to an open node closes a cycle.
ghost use Rattle.std.specs.Prelude.{◌≡◌};

use std::marker::Model;

/// A way from one node to another. Some have a place in the text.
#[derive(Clone, Copy, Debug, PartialEq, Eq)]
pub struct Edge {
    pub to: u32,
    pub place: Option<u32>,
}

/// The edges that leave a node.
#[derive(Debug, Drop)]
pub struct Edges {
    items: Vec<Edge>,
}

impl Model for Edges {
    ghost use Rattle.std.specs.Prelude.{List};
    ghost use Rattle.graph_walk.specs.declared.walk.Edge.{Edge};

    ghost Value = { List Edge };

    ghost view = { λ list. list.items.items };
}

impl Edges {
    /// The list of these edges.
    pub fn of(items: Vec<Edge>) -> Self
        ensures items { result ≡ items.items }
    {
        Edges { items }
    }

    /// Adds an edge.
    pub fn push(&mut self, edge: Edge) -> Result<(), AllocError>
        ensures edges { OnOk result (self.new ≡ self.old ++ edge ∷ []) }
    {
        self.items.push(edge)?;
        Ok(())
    }

    /// The edges, in order.
    pub fn items(&self) -> &[Edge]
        ensures items { result.now ≡ self.now }
    {
        &self.items
    }
}

/// How far the walk has come with a node.
#[derive(Clone, Copy, Debug, PartialEq, Eq)]
pub enum State {
    /// Not reached; it has so many edges.
    New(usize),
    /// On the path; so many of its edges are not passed.
    Open(usize),
    /// Left; it was the so-manieth to be left.
    Done(usize),
}

/// The walk: the state of each node, the path, and how many nodes are done.
#[derive(Drop)]
pub struct Walk {
    pub states: Vec<State>,
    pub path: Vec<u32>,
    pub done: usize,
}

/// What a step did.
#[derive(Clone, Copy, Debug, PartialEq, Eq)]
pub enum Step {
    /// It went on to this node, which was new.
    Entered(u32),
    /// It passed an edge to a node that is done.
    Passed,
    /// It left this node.
    Left(u32),
    /// It stands at an edge to this node, which is open.
    Closed(u32),
}

ghost use Rattle.std.specs.Prelude.{[], ◌∷◌, ◌++◌, slice_set, map, IfOk, OnOk, ◌<◌, ◌-◌, ◌+◌, length, take};
ghost use Rattle.graph_walk.specs.Walk.{IsWalk, fresh, InRange, Enters, Steps, StandsAt, IsNew, edge_at, edges_at, state_at, Makes, HasEdge, looked_at};
ghost use Rattle.graph_walk.specs.declared.walk.State.TheVariants.{New, Open, Done};

use std::alloc::{AllocError, Global};

impl Walk {
    /// The walk before its first step.
    pub fn new(alloc: Global, graph: &[Edges]) -> Result<Self, AllocError>
        ensures walk { IfOk result (λ walk. IsWalk graph.now walk.states.items walk.path.items
            walk.done) }
        ensures path { IfOk result (λ walk. walk.path.items ≡ []) }
        ensures states { IfOk result (λ walk. walk.states.items ≡ map fresh graph.now) }
    {
        let mut states = Vec::new(alloc);
        for edges in graph {
            states.push(State::New(edges.items().len()))?;
        }
        Ok(Walk {
            states,
            path: Vec::new(alloc),
            done: 0,
        })
    }

    /// Goes on to a new node from the last one of the path, or to begin with.
    fn enter(&mut self, node: u32, edges: usize) -> Result<(), AllocError>
        requires new { state_at self.old.states.items node ≡ New edges }
        requires node { node < length self.old.states.items }
        ensures states { OnOk result (self.new.states.items ≡ slice_set self.old.states.items node
            (Open edges)) }
        ensures path { OnOk result (self.new.path.items ≡ self.old.path.items ++ node ∷ []) }
        ensures done { OnOk result (self.new.done ≡ self.old.done) }
    {
        self.path.push(node)?;
        self.states[node as usize] = State::Open(edges);
        Ok(())
    }

    /// Begins a path at a new node.
    pub fn begin(&mut self, graph: &[Edges], node: u32, edges: usize) -> Result<(), AllocError>
        requires walk { IsWalk graph.now self.old.states.items self.old.path.items self.old.done }
        requires range { InRange graph.now }
        requires path { self.old.path.items ≡ [] }
        requires node { node < length graph.now }
        requires new { state_at self.old.states.items node ≡ New edges }
        ensures walk { OnOk result (IsWalk graph.now self.new.states.items self.new.path.items
            self.new.done) }
        ensures enters { OnOk result (Enters graph.now self.old.states.items self.old.path.items
            node self.new.states.items self.new.path.items) }
    {
        self.enter(node, edges)?;
        Ok(())
    }

    /// The last node of the path.
    pub fn last(&self) -> u32
        requires path { 0 < length self.now.path.items }
        ensures last { self.now.path.items ≡ take (length self.now.path.items - 1)
            self.now.path.items ++ result ∷ [] }
    {
        self.path[self.path.len() - 1]
    }

    /// The state of a node.
    pub fn state(&self, node: u32) -> State
        requires node { node < length self.now.states.items }
        ensures state { result ≡ state_at self.now.states.items node }
    {
        self.states[node as usize]
    }

    /// The place of the edge of an open node that is looked at.
    pub fn place(&self, graph: &[Edges], node: u32) -> Option<u32>
        requires node { node < length graph.now }
        requires walk { IsWalk graph.now self.now.states.items self.now.path.items self.now.done }
        requires links { HasEdge (state_at self.now.states.items node) }
        ensures place { result ≡ (edge_at graph.now node
            (looked_at (state_at self.now.states.items node))).place }
    {
        match self.state(node) {
            State::Open(edges) => graph[node as usize].items()[edges - 1].place,
            State::New(_) | State::Done(_) => unreachable!(),
        }
    }

    /// Leaves the last node of the path.
    fn leave(&mut self, node: u32)
        requires node { node < length self.old.states.items }
        requires done { self.old.done < length self.old.states.items }
        ensures states { self.new.states.items ≡ slice_set self.old.states.items node
            (Done self.old.done) }
        ensures path { self.new.path.items ≡ take (length self.old.path.items - 1)
            self.old.path.items }
        ensures done { self.new.done ≡ self.old.done + 1 }
    {
        self.path.pop();
        self.states[node as usize] = State::Done(self.done);
        self.done += 1;
    }

    /// Goes one step on: the last node of the path looks at its next edge, or is left.
    pub fn step(&mut self, graph: &[Edges]) -> Result<Step, AllocError>
        requires walk { IsWalk graph.now self.old.states.items self.old.path.items self.old.done }
        requires range { InRange graph.now }
        requires path { 0 < length self.old.path.items }
        ensures made { IfOk result (λ step. Makes graph.now self.old.states.items
            self.old.path.items self.old.done self.new.states.items self.new.path.items
            self.new.done step) }
    {
        let node = self.last();
        match self.state(node) {
            State::Open(0) => {
                self.leave(node);
                Ok(Step::Left(node))
            }
            State::Open(edges) => {
                let to = target(graph, node, edges - 1);
                match self.state(to) {
                    State::New(more) => {
                        self.enter(to, more)?;
                        Ok(Step::Entered(to))
                    }
                    State::Done(_) => {
                        self.states[node as usize] = State::Open(edges - 1);
                        Ok(Step::Passed)
                    }
                    State::Open(_) => Ok(Step::Closed(to)),
                }
            }
            State::New(_) | State::Done(_) => unreachable!(),
        }
    }
}

/// Where an edge of a node leads.
fn target(graph: &[Edges], node: u32, edge: usize) -> u32
    requires node { node < length graph.now }
    requires edge { edge < length (edges_at graph.now node) }
    ensures target { result ≡ (edge_at graph.now node edge).to }
{
    graph[node as usize].items()[edge].to
}
