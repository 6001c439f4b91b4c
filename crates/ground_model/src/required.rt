//! One expression of a model: its form, and that it is required.
//!
//! These two calls are all that this crate asks of `ground_expr`.
ghost use Rattle.std.specs.Prelude.{[], IfOk, OnOk};
ghost use Rattle.conf_types.specs.TreeOf.{tree_of};
ghost use Rattle.form_build.specs.Worlds.{AreKnown, Defines};
ghost use Rattle.conf_eval.specs.Meaning.{value, truth_of};
ghost use Rattle.conf_eval.specs.Satisfying.{setting};
ghost use Rattle.expr_forms.specs.FormBounds.{IsGroundForm};
ghost use Rattle.ground_expr.specs.StandsWhole.{StandsWhole};
ghost use Rattle.ground_model.specs.Known.{HasKnown};
ghost use Rattle.ground_model.specs.Requiring.{Requires};
ghost use Rattle.ground_model.specs.Stated.{IsReady};

use conf_types::RExpr;
use expr_forms::Form;
use form_build::Maker;
use ground_expr::{Scene, form_at, require_constraint};
use object_alloc::Objects;
use std::alloc::AllocError;

/// The form of an expression round which no quantifier stands. Only definitions are made for it.
/// Where cells are known, the form need stand for the expression only where they have their values.
pub(crate) fn form_of(
    maker: &mut Maker,
    objects: &Objects<'_>,
    known: &[(u32, i64)],
    this: Option<u32>,
    e: &RExpr,
) -> Result<Form, AllocError>
    requires ready { IsReady objects.now (tree_of e.now) this }
    requires known { HasKnown objects.now known.now maker.old }
    ensures form { IfOk result (λ f. IsGroundForm objects.now maker.new known.now
        (tree_of e.now) this [] f) }
    ensures adds { IfOk result (λ f. Defines maker.old maker.new) }
{
    let scene = Scene {
        objects,
        this,
        vars: &[],
        known,
    };
    let f = form_at(maker, &scene, e)?;
    Ok(f)
}

/// States that an expression is true. Where cells are known, this need be so only where they have
/// their values.
pub(crate) fn require_tree(
    maker: &mut Maker,
    objects: &Objects<'_>,
    known: &[(u32, i64)],
    this: Option<u32>,
    e: &RExpr,
) -> Result<(), AllocError>
    requires ready { IsReady objects.now (tree_of e.now) this }
    requires known { HasKnown objects.now known.now maker.old }
    ensures says { OnOk result (Requires known.now maker.old maker.new
        (λ values. truth_of (value (tree_of e.now) (setting objects.now values this)))) }
    ensures whole { OnOk result (StandsWhole objects.now maker.new (AreKnown known.now)
        (tree_of e.now) this []) }
{
    let scene = Scene {
        objects,
        this,
        vars: &[],
        known,
    };
    require_constraint(maker, &scene, e)?;
    Ok(())
}
