//! Expressions, each walked once: what is measured of a part serves all that is asked of the whole.
ghost use Rattle.std.specs.Prelude.{◌≡◌, ◌+◌, ℕ};
ghost use Rattle.conf_types.specs.TreeOf.{tree_of, optional_tree, trees_of, quant_tree};
ghost use Rattle.conf_limits.specs.Limits.{capped, chosen, IsThere, IsFilterThere, AreBodiesThere, IsMeasure, IsFilterMeasure, IsBodiesMeasure};

use crate::capped::capped_sum;
use crate::interval::{Interval, nothing};
use crate::measure::{
    Bodies, Filter, Measure, attribute, dot, literal, minus, negation, no_filter, objects, pair,
    paren, plain, quantifier, some_filter, summed,
};
use conf_types::{RExpr, RNode, RQuant};
use object_alloc::Objects;

/// What is measured of an expression.
#[cycle(measure)]
pub(crate) fn measured(all: &Objects<'_>, expr: &RExpr) -> Measure
    requires there { IsThere all.now (tree_of expr.now) }
    ensures measure { IsMeasure result all.now (tree_of expr.now) }
{
    match &expr.node {
        RNode::Number(value) => literal(*value),
        RNode::Truth(_) | RNode::Value(_, _) => plain(Some(nothing())),
        RNode::This | RNode::Local(_) => objects(1),
        RNode::Class(class) => objects(all.extent_count(*class) as u64),
        RNode::Own(_, shape) => attribute(all, 1, 3, *shape),
        RNode::Root(_, shape) => attribute(all, 1, 1, *shape),
        RNode::Dot(owner, _, shape) => dot(all, measured(all, owner), *shape),
        RNode::Paren(inner) => paren(measured(all, inner)),
        RNode::Minus(inner) => minus(measured(all, inner)),
        RNode::Not(inner) => negation(measured(all, inner)),
        RNode::Pair(op, left, right) => pair(*op, measured(all, left), measured(all, right)),
        RNode::Quant(quant) => measure_quant(all, quant),
    }
}

/// What is measured of a quantifier.
#[cycle(measure)]
fn measure_quant(all: &Objects<'_>, quant: &RQuant) -> Measure
    requires there { (at : ℕ) → IsThere all.now (quant_tree quant.now at) }
    ensures measure { (at : ℕ) → IsMeasure result all.now (quant_tree quant.now at) }
{
    let over = measured(all, &quant.over);
    let filter = measure_filter(all, &quant.filter);
    let bodies = measure_bodies(all, &quant.body, summed(quant.kind));
    quantifier(quant.kind, over, filter, bodies)
}

/// What is measured of a quantifier's filter.
#[cycle(measure)]
fn measure_filter(all: &Objects<'_>, expr: &Option<RExpr>) -> Filter
    requires there { IsFilterThere all.now (optional_tree expr.now) }
    ensures measure { IsFilterMeasure result all.now (optional_tree expr.now) }
{
    match expr {
        Some(inner) => some_filter(measured(all, inner)),
        None => no_filter(),
    }
}

/// The second interval where it is the wanted one, else the first; None where one is missing.
fn chosen(first: Option<Interval>, second: Option<Interval>, is_second: bool) -> Option<Interval>
    ensures { result ≡ chosen is_second first second }
{
    match (first, second) {
        (Some(one), Some(other)) => Some(if is_second { other } else { one }),
        _ => None,
    }
}

/// With one more body, which is the wanted one or another.
fn with_body(so_far: Bodies, found: Measure, is_wanted: bool) -> Bodies
    ensures weight { (m n : ℕ) → so_far.weight ≡ capped m → found.weight ≡ capped n → result.weight
        ≡ capped (m + n) }
    ensures interval { result.interval ≡ chosen is_wanted so_far.interval found.interval }
{
    Bodies {
        weight: capped_sum(so_far.weight, found.weight),
        interval: chosen(so_far.interval, found.interval, is_wanted),
    }
}

/// What is measured of a quantifier's bodies, with the interval of number `wanted`.
#[cycle(measure)]
fn measure_bodies(all: &Objects<'_>, body: &[RExpr], wanted: usize) -> Bodies
    requires there { AreBodiesThere all.now (trees_of body.now) }
    ensures measure { IsBodiesMeasure result all.now wanted (trees_of body.now) }
{
    let mut found = Bodies {
        weight: 0,
        interval: Some(nothing()),
    };
    for (k, expr) in body.iter().enumerate() {
        found = with_body(found, measured(all, expr), k == wanted);
    }
    found
}
