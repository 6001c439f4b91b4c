//! The row that a constraint is.
ghost use Rattle.std.specs.Prelude.{◌≡◌, ◌<◌, true, IfOk, IfSome};
ghost use Rattle.conf_types.specs.TreeOf.{tree_of, quant_tree};
ghost use Rattle.form_build.specs.Worlds.{Defines};
ghost use Rattle.expr_forms.specs.Standing.{IsStanding, HasCells};
ghost use Rattle.quantifier_forms.specs.Quantified.{adds_up};
ghost use Rattle.ground_model.specs.Adding.{AddsUp, IsRowOf, IsRowFor};

use crate::loads::{fixed_number, row_from};
use conf_syntax::{Op, QuantKind};
use conf_types::{RExpr, RNode, RQuant};
use expr_forms::number_of;
use form_build::Maker;
use ground_expr::{Scene, form_at, own_parts_at};
use packed_rows::Row;
use quantifier_forms::Part;
use std::alloc::AllocError;

/// A sum or a count in parts.
#[derive(Drop)]
struct Summands {
    /// Which of the two.
    kind: QuantKind,
    /// What each possible member gives.
    parts: Vec<Part>,
}

/// Whether it adds up what its members give.
fn adds_up(kind: QuantKind) -> bool
    ensures { result ≡ adds_up kind }
{
    match kind {
        QuantKind::Sum | QuantKind::Count => true,
        QuantKind::Forall | QuantKind::Exists | QuantKind::AllDifferent | QuantKind::Pack => false,
    }
}

/// The parts of a quantifier, where it is a sum or a count.
fn summands_of(
    maker: &mut Maker,
    scene: &Scene<'_, '_>,
    quant: &RQuant,
) -> Result<Option<Summands>, AllocError>
    requires standing { IsStanding scene.now.objects.now (quant_tree quant.now 0)
        scene.now.this scene.now.vars.now }
    requires cells { HasCells scene.now.objects.now maker.old }
    ensures sum { IfOk result (λ o. IfSome o (λ x. AddsUp scene.now.objects.now maker.new
        scene.now.known.now (quant_tree quant.now 0) scene.now.this scene.now.vars.now x.kind
        x.parts.items)) }
    ensures adds { IfOk result (λ o. Defines maker.old maker.new) }
{
    let kind = quant.kind;
    if !adds_up(kind) {
        return Ok(None);
    }
    let parts = own_parts_at(maker, scene, quant)?;
    Ok(Some(Summands { kind, parts }))
}

/// The parts of a sum or a count, where the expression is one.
fn parts_of_sum(
    maker: &mut Maker,
    scene: &Scene<'_, '_>,
    e: &RExpr,
) -> Result<Option<Summands>, AllocError>
    requires standing { IsStanding scene.now.objects.now (tree_of e.now)
        scene.now.this scene.now.vars.now }
    requires cells { HasCells scene.now.objects.now maker.old }
    ensures sum { IfOk result (λ o. IfSome o (λ x. AddsUp scene.now.objects.now maker.new
        scene.now.known.now (tree_of e.now) scene.now.this scene.now.vars.now x.kind
        x.parts.items)) }
    ensures adds { IfOk result (λ o. Defines maker.old maker.new) }
{
    match &e.node {
        RNode::Paren(inner) => parts_of_sum(maker, scene, inner),
        RNode::Quant(quant) => {
            let found = summands_of(maker, scene, quant)?;
            Ok(found)
        }
        _ => Ok(None),
    }
}

/// The row that says that a sum is at most a number.
fn row_of(
    maker: &mut Maker,
    scene: &Scene<'_, '_>,
    sum: &RExpr,
    most: &RExpr,
) -> Result<Option<Row>, AllocError>
    requires sum { IsStanding scene.now.objects.now (tree_of sum.now)
        scene.now.this scene.now.vars.now }
    requires most { IsStanding scene.now.objects.now (tree_of most.now)
        scene.now.this scene.now.vars.now }
    requires cells { HasCells scene.now.objects.now maker.old }
    ensures row { IfOk result (λ o. IfSome o (λ r. IsRowOf scene.now.objects.now maker.new
        scene.now.known.now (tree_of sum.now) (tree_of most.now) scene.now.this scene.now.vars.now
        r)) }
    ensures adds { IfOk result (λ o. Defines maker.old maker.new) }
{
    let Some(found) = parts_of_sum(maker, scene, sum)? else {
        return Ok(None);
    };
    let f = form_at(maker, scene, most)?;
    let number = number_of(maker.alloc(), f);
    let Some(room) = fixed_number(&number) else {
        return Ok(None);
    };
    let bin = i64::from(scene.this.unwrap_or(0));
    let row = row_from(maker.alloc(), bin, found.kind, found.parts.as_slice(), room)?;
    Ok(row)
}

/// The row that a constraint is: that a sum or a count of what is in the bin `this` is at most a
/// number. None where it has another form, or a size or the number isn't fixed.
pub fn row_at(
    maker: &mut Maker,
    scene: &Scene<'_, '_>,
    e: &RExpr,
) -> Result<Option<Row>, AllocError>
    requires standing { IsStanding scene.now.objects.now (tree_of e.now)
        scene.now.this scene.now.vars.now }
    requires cells { HasCells scene.now.objects.now maker.old }
    ensures row { IfOk result (λ o. IfSome o (λ r. IsRowFor scene.now.objects.now maker.new
        scene.now.known.now (tree_of e.now) scene.now.this scene.now.vars.now r)) }
    ensures adds { IfOk result (λ o. Defines maker.old maker.new) }
{
    match &e.node {
        RNode::Paren(inner) => row_at(maker, scene, inner),
        RNode::Pair(op, left, right) => match *op {
            Op::Le => {
                let r = row_of(maker, scene, left, right)?;
                Ok(r)
            }
            Op::Ge => {
                let r = row_of(maker, scene, right, left)?;
                Ok(r)
            }
            _ => Ok(None),
        },
        _ => Ok(None),
    }
}
