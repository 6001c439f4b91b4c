//! From which child of a node most nodes derive, as a hint to whoever goes on to one child of each.
//!
//! `in_order` lists nodes by the order in which a walk left them, and `descents_of` counts along
//! such a list, backwards. No clause says more of them than how long their lists are: who takes the
//! hint has to be right without it.
ghost use Rattle.std.specs.Prelude.{◌≡◌, All, length, IfOk};
ghost use Rattle.graph_walk.specs.Children.{AreParents};

use crate::parents::Parents;
use crate::walk::State;
use std::alloc::{AllocError, Global};

/// How many nodes derive from a node, itself too, and the child from which most of them do.
#[derive(Clone, Copy, Debug)]
pub struct Descent {
    pub size: u32,
    pub most: u32,
    pub heir: u32,
}

/// A zero for each node.
pub fn zeros(alloc: Global, count: usize) -> Result<Vec<u32>, AllocError>
    ensures size { IfOk result (λ counts. length counts.items ≡ count) }
    ensures zeros { IfOk result (λ counts. All (λ n. n ≡ 0) counts.items) }
{
    let mut counts = Vec::new(alloc);
    for _node in 0..count {
        counts.push(0)?;
    }
    Ok(counts)
}

/// So many nodes, each behind its parent.
pub fn in_order(alloc: Global, count: u32, order: &[State]) -> Result<Vec<u32>, AllocError>
    ensures size { IfOk result (λ nodes. length nodes.items ≡ count) }
{
    let mut nodes = zeros(alloc, count as usize)?;
    for node in 0..count {
        if let Some(State::Done(rank)) = order.get(node as usize).copied() {
            if rank < nodes.len() {
                nodes[rank] = node;
            }
        }
    }
    Ok(nodes)
}

/// Counts a node and those that derive from it for its parent.
fn count_heir<P: Parents>(family: &P, descents: &mut [Descent], node: u32)
    requires parents { AreParents (P.up family.now) (P.size family.now) }
    requires size { length descents.old ≡ P.size family.now }
    ensures size { length descents.new ≡ length descents.old }
{
    if node as usize >= family.count() {
        return;
    }
    let Some(parent) = family.parent(node) else {
        return;
    };
    let size = descents[node as usize].size;
    let mut above = descents[parent as usize];
    above.size = above.size.saturating_add(size);
    if size > above.most {
        above.most = size;
        above.heir = node;
    }
    descents[parent as usize] = above;
}

/// A node without children, so many times.
fn childless(alloc: Global, count: usize) -> Result<Vec<Descent>, AllocError>
    ensures size { IfOk result (λ descents. length descents.items ≡ count) }
{
    let mut descents = Vec::new(alloc);
    for _node in 0..count {
        descents.push(Descent {
            size: 1,
            most: 0,
            heir: 0,
        })?;
    }
    Ok(descents)
}

/// For each node how many derive from it, and its heir. The nodes are given each behind its parent.
pub fn descents_of<P: Parents>(
    alloc: Global,
    family: &P,
    listed: &[u32],
) -> Result<Vec<Descent>, AllocError>
    requires parents { AreParents (P.up family.now) (P.size family.now) }
    ensures size { IfOk result (λ descents. length descents.items ≡ P.size family.now) }
{
    let mut descents = childless(alloc, family.count())?;
    for i in 0..listed.len() {
        count_heir(family, &mut descents, listed[listed.len() - 1 - i]);
    }
    Ok(descents)
}
