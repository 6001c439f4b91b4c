//! Which constraints may give cells their values: those that need no sum, count or packing. What
//! follows from them alone is known where the others are stated. No promise rests on this choice.
ghost use Rattle.std.specs.Prelude.{◌≡◌, ℕ};
ghost use Rattle.conf_types.specs.TreeOf.{tree_of, trees_of, optional_tree, quant_tree};
ghost use Rattle.form_truths.specs.Tests.{wanted};
ghost use Rattle.ground_model.specs.Fixing.{joins_truths, is_simple, is_simple_filter, are_simple, fixes};

use conf_syntax::QuantKind;
use conf_types::{RExpr, RNode, RQuant};

/// Whether a quantifier of this kind says that something holds of all, or of some.
fn joins_truths(kind: QuantKind) -> bool
    ensures { result ≡ joins_truths kind }
{
    match kind {
        QuantKind::Forall | QuantKind::Exists => true,
        QuantKind::Sum | QuantKind::Count | QuantKind::AllDifferent | QuantKind::Pack => false,
    }
}

/// Whether an expression has no quantifier.
fn is_simple(e: &RExpr) -> bool
    ensures { result ≡ is_simple (tree_of e.now) }
{
    match &e.node {
        RNode::Paren(inner) => is_simple(inner),
        RNode::Minus(inner) => is_simple(inner),
        RNode::Not(inner) => is_simple(inner),
        RNode::Dot(inner, _, _) => is_simple(inner),
        RNode::Pair(_, left, right) => is_simple(left) && is_simple(right),
        RNode::Quant(_) => false,
        RNode::Number(_) => true,
        RNode::Truth(_) => true,
        RNode::This => true,
        RNode::Local(_) => true,
        RNode::Own(_, _) => true,
        RNode::Root(_, _) => true,
        RNode::Value(_, _) => true,
        RNode::Class(_) => true,
    }
}

/// Whether a quantifier's filter has no quantifier.
fn is_simple_filter(filter: &Option<RExpr>) -> bool
    ensures { result ≡ is_simple_filter (optional_tree filter.now) }
{
    match filter {
        Some(e) => is_simple(e),
        None => true,
    }
}

/// Whether none of the expressions has a quantifier.
fn are_simple(list: &[RExpr]) -> bool
    ensures { result ≡ are_simple (trees_of list.now) }
{
    for e in list {
        if !is_simple(e) {
            return false;
        }
    }
    true
}

/// Whether a quantifier joins truths in which there is no other quantifier.
#[tactic(auto, using(crate::proofs::Fixings::joins))]
fn joins_simple(quant: &RQuant) -> bool
    ensures { (at : ℕ) → result ≡ fixes (quant_tree quant.now at) }
{
    if !joins_truths(quant.kind) {
        return false;
    }
    if !is_simple(&quant.over) {
        return false;
    }
    if !is_simple_filter(&quant.filter) {
        return false;
    }
    are_simple(&quant.body)
}

/// Whether a constraint may give cells their values.
fn fixes(e: &RExpr) -> bool
    ensures { result ≡ fixes (tree_of e.now) }
{
    match &e.node {
        RNode::Paren(inner) => fixes(inner),
        RNode::Minus(inner) => fixes(inner),
        RNode::Not(inner) => fixes(inner),
        RNode::Dot(inner, _, _) => fixes(inner),
        RNode::Pair(_, left, right) => fixes(left) && fixes(right),
        RNode::Quant(quant) => joins_simple(quant),
        RNode::Number(_) => true,
        RNode::Truth(_) => true,
        RNode::This => true,
        RNode::Local(_) => true,
        RNode::Own(_, _) => true,
        RNode::Root(_, _) => true,
        RNode::Value(_, _) => true,
        RNode::Class(_) => true,
    }
}

/// Whether a constraint is required in the pass for those that fix something, or in that for the
/// others.
pub(crate) fn is_of_pass(e: &RExpr, fixing: bool) -> bool
    ensures { result ≡ wanted fixing (fixes (tree_of e.now)) }
{
    let found = fixes(e);
    if fixing { found } else { !found }
}
