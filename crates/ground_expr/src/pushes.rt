//! Expressions that are pushed into a disjunction: `or` and `->` part by part, where one part is
//! enough, `not` with the other truth, all else as a truth of its own.
ghost use Rattle.std.specs.Prelude.{◌≡◌, ◌<◌, ℤ, List, length, IfOk, OnOk};
ghost use Rattle.conf_types.specs.TreeOf.{tree_of};
ghost use Rattle.form_build.specs.Forms.{truth_at, HasVariable};
ghost use Rattle.form_build.specs.Worlds.{IsWorld};
ghost use Rattle.form_truths.specs.Disjunctions.{IsWithin};
ghost use Rattle.form_truths.specs.Tests.{wanted};
ghost use Rattle.expr_forms.specs.Standing.{IsStanding, HasCells};
ghost use Rattle.ground_expr.specs.Stated.{Pushes};

use crate::forms::form_at;
use crate::scene::Scene;
use conf_types::{RExpr, RNode};
use expr_forms::truth_of;
use form_build::{Maker, Truth, turned};
use form_truths::Disjunction;
use operator_forms::either_side;
use std::alloc::AllocError;

/// The truth itself, or the one that holds where it doesn't.
pub(crate) fn as_wanted(maker: &Maker, t: Truth, want: bool) -> Result<Truth, AllocError>
    requires variable { HasVariable (length maker.now.domains) t }
    ensures variable { IfOk result (λ u. HasVariable (length maker.now.domains) u) }
    ensures value { IfOk result (λ u. (a : List ℤ) → IsWorld maker.now a
        → truth_at u a ≡ wanted want (truth_at t a)) }
{
    if want {
        return Ok(t);
    }
    let u = turned(maker.alloc(), maker.domains(), &t)?;
    Ok(u)
}

/// Adds the truth of an expression, or the other one, to a disjunction, by its form.
fn push_form(
    maker: &mut Maker,
    scene: &Scene<'_, '_>,
    e: &RExpr,
    want: bool,
    some: &mut Disjunction,
) -> Result<(), AllocError>
    requires standing { IsStanding scene.now.objects.now (tree_of e.now)
        scene.now.this scene.now.vars.now }
    requires cells { HasCells scene.now.objects.now maker.old }
    requires exist { IsWithin (length maker.old.domains) some.old.1 }
    ensures pushes { OnOk result (Pushes scene.now.objects.now scene.now.known.now
        maker.old maker.new (tree_of e.now) scene.now.this scene.now.vars.now want
        some.old some.new) }
{
    let f = form_at(maker, scene, e)?;
    let t = as_wanted(maker, truth_of(f), want)?;
    some.push(t)?;
    Ok(())
}

/// Adds the truth of an expression, or the other one, to a disjunction.
pub(crate) fn push_at(
    maker: &mut Maker,
    scene: &Scene<'_, '_>,
    e: &RExpr,
    want: bool,
    some: &mut Disjunction,
) -> Result<(), AllocError>
    requires standing { IsStanding scene.now.objects.now (tree_of e.now)
        scene.now.this scene.now.vars.now }
    requires cells { HasCells scene.now.objects.now maker.old }
    requires exist { IsWithin (length maker.old.domains) some.old.1 }
    ensures pushes { OnOk result (Pushes scene.now.objects.now scene.now.known.now
        maker.old maker.new (tree_of e.now) scene.now.this scene.now.vars.now want
        some.old some.new) }
{
    match &e.node {
        RNode::Paren(inner) => push_at(maker, scene, inner, want, some),
        RNode::Not(inner) => push_at(maker, scene, inner, !want, some),
        RNode::Pair(op, left, right) => match either_side(*op, want) {
            Some((p, q)) => {
                push_at(maker, scene, left, p, some)?;
                push_at(maker, scene, right, q, some)
            }
            None => push_form(maker, scene, e, want, some),
        },
        _ => push_form(maker, scene, e, want, some),
    }
}
