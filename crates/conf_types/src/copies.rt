//! Copies of resolved expressions and of constraints.
//!
//! `RExpr::copy` is the entry. The recursion is on the tree, which nests at most `MOST_NESTING`.
ghost use Rattle.std.specs.Prelude.{◌≡◌, ◌<◌, ℕ, All, length, map, IfOk};
ghost use Rattle.conf_types.specs.Programs.{constraint_at};
ghost use Rattle.conf_types.specs.TreeOf.{tree_of, node_tree, quant_tree, optional_tree, trees_of};

use crate::{Constraint, RExpr, RNode, RQuant};
use std::alloc::{AllocError, Global};

impl RExpr {
    /// The same expression again, with the same places.
    pub fn copy(&self, alloc: Global) -> Result<RExpr, AllocError>
        ensures tree { IfOk result (λ e. tree_of e ≡ tree_of self.now) }
    {
        copy_expr(alloc, self)
    }
}

/// An expression.
#[cycle(copy)]
fn copy_expr(alloc: Global, expr: &RExpr) -> Result<RExpr, AllocError>
    ensures tree { IfOk result (λ e. tree_of e ≡ tree_of expr.now) }
{
    let node = copy_node(alloc, &expr.node)?;
    Ok(RExpr { at: expr.at, node })
}

/// What an expression is made of.
#[cycle(copy)]
fn copy_node(alloc: Global, node: &RNode) -> Result<RNode, AllocError>
    ensures tree { IfOk result (λ n. (at : ℕ) → node_tree n at ≡ node_tree node.now at) }
{
    match node {
        RNode::Number(value) => Ok(RNode::Number(*value)),
        RNode::Truth(value) => Ok(RNode::Truth(*value)),
        RNode::This => Ok(RNode::This),
        RNode::Paren(inner) => Ok(RNode::Paren(Box::new(alloc, copy_expr(alloc, inner)?)?)),
        RNode::Minus(inner) => Ok(RNode::Minus(Box::new(alloc, copy_expr(alloc, inner)?)?)),
        RNode::Not(inner) => Ok(RNode::Not(Box::new(alloc, copy_expr(alloc, inner)?)?)),
        RNode::Pair(op, left, right) => {
            let left = Box::new(alloc, copy_expr(alloc, left)?)?;
            let right = Box::new(alloc, copy_expr(alloc, right)?)?;
            Ok(RNode::Pair(*op, left, right))
        }
        RNode::Local(distance) => Ok(RNode::Local(*distance)),
        RNode::Own(number, shape) => Ok(RNode::Own(*number, *shape)),
        RNode::Root(number, shape) => Ok(RNode::Root(*number, *shape)),
        RNode::Value(enumeration, value) => Ok(RNode::Value(*enumeration, *value)),
        RNode::Class(class) => Ok(RNode::Class(*class)),
        RNode::Dot(inner, number, shape) => {
            let inner = Box::new(alloc, copy_expr(alloc, inner)?)?;
            Ok(RNode::Dot(inner, *number, *shape))
        }
        RNode::Quant(quant) => Ok(RNode::Quant(Box::new(alloc, copy_quant(alloc, quant)?)?)),
    }
}

/// A quantifier.
#[cycle(copy)]
fn copy_quant(alloc: Global, quant: &RQuant) -> Result<RQuant, AllocError>
    ensures tree { IfOk result (λ q. (at : ℕ) → quant_tree q at ≡ quant_tree quant.now at) }
{
    let over = copy_expr(alloc, &quant.over)?;
    let filter = copy_filter(alloc, &quant.filter)?;
    let body = copy_bodies(alloc, &quant.body)?;
    Ok(RQuant {
        kind: quant.kind,
        over,
        filter,
        body,
    })
}

/// A filter, where there is one.
#[cycle(copy)]
fn copy_filter(alloc: Global, filter: &Option<RExpr>) -> Result<Option<RExpr>, AllocError>
    ensures tree { IfOk result (λ f. optional_tree f ≡ optional_tree filter.now) }
{
    match filter {
        Some(expr) => Ok(Some(copy_expr(alloc, expr)?)),
        None => Ok(None),
    }
}

/// The bodies of a quantifier.
#[cycle(copy)]
fn copy_bodies(alloc: Global, body: &[RExpr]) -> Result<Vec<RExpr>, AllocError>
    ensures trees { IfOk result (λ es. trees_of es.items ≡ trees_of body.now) }
{
    let mut found = Vec::with_capacity(alloc, body.len())?;
    for expr in body {
        found.push(copy_expr(alloc, expr)?)?;
    }
    Ok(found)
}

/// The constraint of this number.
fn copy_constraint(
    alloc: Global,
    constraints: &[Constraint],
    k: u32,
) -> Result<Constraint, AllocError>
    requires exists { k < length constraints.now }
    ensures constraint { IfOk result (λ c. c ≡ constraint_at constraints.now k) }
{
    let constraint = &constraints[k as usize];
    let expr = copy_expr(alloc, &constraint.expr)?;
    Ok(Constraint {
        class: constraint.class,
        place: constraint.place,
        expr,
    })
}

/// The constraints with these numbers, in order.
pub(crate) fn copy_constraints(
    alloc: Global,
    constraints: &[Constraint],
    keep: &[u32],
) -> Result<Vec<Constraint>, AllocError>
    requires exist { All (λ k. k < length constraints.now) keep.now }
    ensures constraints { IfOk result (λ found. found.items ≡ map (constraint_at constraints.now)
        keep.now) }
{
    let mut found = Vec::with_capacity(alloc, keep.len())?;
    for k in keep {
        found.push(copy_constraint(alloc, constraints, *k)?)?;
    }
    Ok(found)
}
