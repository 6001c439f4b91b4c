//! The form of an expression. The recursion is on the resolved tree.
//!
//! A quantifier is made of parts: for each object that may be a member the truth that it is one
//! which the filter keeps, and the forms of the bodies there.
ghost use Rattle.std.specs.Prelude.{◌≡◌, ◌*◌, ◌+◌, ◌++◌, ◌≤◌, ◌∷◌, [], ℕ, ℤ, List, map, filter, cond, ◌&&◌, true, length, IfOk, OnOk};
ghost use Rattle.std.specs.List.{All};
ghost use Rattle.conf_types.specs.TreeOf.{tree_of, quant_tree, optional_tree, trees_of};
ghost use Rattle.conf_types.specs.Trees.{NoFilter};
ghost use Rattle.conf_types.specs.Trees as tree;
ghost use Rattle.conf_types.specs.declared.tree.RQuant as quants;
ghost use Rattle.conf_eval.specs.Evaluating.{AllEvaluable, IsRoom};
ghost use Rattle.conf_types.specs.Typing.{Place};
ghost use Rattle.conf_eval.specs.Fitting.{Fits, IsEvaluableFilter};
ghost use Rattle.conf_eval.specs.Meaning.{value, keeps, values_of, objects_of};
ghost use Rattle.conf_limits.specs.Measures.{reach};
ghost use Rattle.object_alloc.specs.Cells.{extent};
ghost use Rattle.form_build.specs.Forms.{truth_at, HasVariable};
ghost use Rattle.form_build.specs.Worlds.{IsWorld, AreKnown, Defines};
ghost use Rattle.form_build.specs.declared.form.Truth.TheVariants as truth;
ghost use Rattle.expr_forms.specs.FormValues.{members_at};
ghost use Rattle.expr_forms.specs.Standing.{IsStanding, HasCells, bare_setting, world_setting};
ghost use Rattle.expr_forms.specs.declared.form.Member.{Member as AMember};
ghost use Rattle.ground_expr.specs.Made.{IsMade};
ghost use Rattle.ground_expr.specs.Insides.{IsOver, IsInside};
ghost use Rattle.ground_expr.specs.Bodies.{own_filter, AreBodies, ArePartsOf, AreMembersOf, IsPartOf, IsKept, given};
ghost use Rattle.quantifier_forms.specs.PartValues.{kept_values};
ghost use Rattle.pairwise_forms.specs.Wholes.{AreKept};

use crate::known::attribute_at;
use crate::names::{
    choice_of, class_objects, class_of, listing_of, local_object, number_sum, object_form,
    set_last, with_room,
};
use crate::operators::operated;
use crate::quantifiers::quantified;
use crate::scene::Scene;
use class_table::Resolved;
use conf_syntax::{Op, QuantKind};
use conf_types::{RExpr, RNode, RQuant};
use expr_forms::{Choice, Form, Listing, Member, number_of, truth_of};
use form_build::{Linear, Maker, Truth, minus, turned};
use form_truths::copy_truth;
use identity_forms::{both, is_never, members_of};
use quantifier_forms::Part;
use reference_forms::dot_form;
use std::alloc::AllocError;

/// The form of an expression.
#[cycle(forms)]
pub fn form_at(maker: &mut Maker, scene: &Scene<'_, '_>, e: &RExpr) -> Result<Form, AllocError>
    requires standing { IsStanding scene.now.objects.now
        (tree_of e.now)
        scene.now.this scene.now.vars.now }
    requires cells { HasCells scene.now.objects.now maker.old }
    ensures made { IfOk result (λ f. IsMade scene.now.objects.now scene.now.known.now maker.old maker.new
        (tree_of e.now) scene.now.this scene.now.vars.now f) }
{
    let _count = scene.objects.count();
    match &e.node {
        RNode::Number(n) => Ok(Form::Number(number_sum(maker.alloc(), *n))),
        RNode::Truth(truth) => Ok(Form::Truth(Truth::Fixed(*truth))),
        RNode::This => Ok(object_form(scene.objects, scene.this.unwrap_or(0))),
        RNode::Local(k) => Ok(object_form(scene.objects, local_object(scene.vars, *k))),
        RNode::Value(enumeration, k) => Ok(Form::Choice(*enumeration, Choice::Fixed(*k))),
        RNode::Class(class) => {
            let all = class_objects(maker.alloc(), scene.objects, *class)?;
            Ok(Form::List(Listing::All(all)))
        }
        RNode::Own(k, shape) => attribute_at(maker, scene, scene.this, *k, *shape),
        RNode::Root(k, shape) => attribute_at(maker, scene, None, *k, *shape),
        RNode::Paren(inner) => form_at(maker, scene, inner),
        RNode::Minus(inner) => minus_at(maker, scene, inner),
        RNode::Not(inner) => not_at(maker, scene, inner),
        RNode::Pair(op, left, right) => pair_at(maker, scene, *op, left, right),
        RNode::Dot(inner, k, shape) => dot_at(maker, scene, inner, *k, *shape),
        RNode::Quant(quant) => quant_at(maker, scene, quant),
    }
}

/// `- ..`.
#[cycle(forms)]
fn minus_at(maker: &mut Maker, scene: &Scene<'_, '_>, inner: &RExpr) -> Result<Form, AllocError>
    requires standing { IsStanding scene.now.objects.now
        (tree.Minus 0 (tree_of inner.now))
        scene.now.this scene.now.vars.now }
    requires cells { HasCells scene.now.objects.now maker.old }
    ensures made { IfOk result (λ f. IsMade scene.now.objects.now scene.now.known.now maker.old maker.new
        (tree.Minus 0 (tree_of inner.now)) scene.now.this scene.now.vars.now f) }
{
    let f = form_at(maker, scene, inner)?;
    let number = number_of(maker.alloc(), f);
    let nought = Linear::number(maker.alloc(), 0);
    maker.ask(1)?;
    let r = minus(maker, &nought, &number)?;
    Ok(Form::Number(r))
}

/// `not ..`.
#[cycle(forms)]
fn not_at(maker: &mut Maker, scene: &Scene<'_, '_>, inner: &RExpr) -> Result<Form, AllocError>
    requires standing { IsStanding scene.now.objects.now
        (tree.Not 0 (tree_of inner.now))
        scene.now.this scene.now.vars.now }
    requires cells { HasCells scene.now.objects.now maker.old }
    ensures made { IfOk result (λ f. IsMade scene.now.objects.now scene.now.known.now maker.old maker.new
        (tree.Not 0 (tree_of inner.now)) scene.now.this scene.now.vars.now f) }
{
    let f = form_at(maker, scene, inner)?;
    let truth = turned(maker.alloc(), maker.domains(), &truth_of(f))?;
    Ok(Form::Truth(truth))
}

/// An operator between two expressions.
#[cycle(forms)]
fn pair_at(
    maker: &mut Maker,
    scene: &Scene<'_, '_>,
    op: Op,
    left: &RExpr,
    right: &RExpr,
) -> Result<Form, AllocError>
    requires standing { IsStanding scene.now.objects.now
        (tree.Pair 0 op (tree_of left.now) (tree_of right.now))
        scene.now.this scene.now.vars.now }
    requires cells { HasCells scene.now.objects.now maker.old }
    ensures made { IfOk result (λ f. IsMade scene.now.objects.now scene.now.known.now maker.old maker.new
        (tree.Pair 0 op (tree_of left.now) (tree_of right.now)) scene.now.this scene.now.vars.now f) }
{
    let l = form_at(maker, scene, left)?;
    let r = form_at(maker, scene, right)?;
    let f = operated(maker, op, l, r)?;
    Ok(f)
}

/// An attribute of what stands before the dot.
#[cycle(forms)]
fn dot_at(
    maker: &mut Maker,
    scene: &Scene<'_, '_>,
    inner: &RExpr,
    k: u32,
    shape: Resolved,
) -> Result<Form, AllocError>
    requires standing { IsStanding scene.now.objects.now
        (tree.Dot 0 (tree_of inner.now) k shape)
        scene.now.this scene.now.vars.now }
    requires cells { HasCells scene.now.objects.now maker.old }
    ensures made { IfOk result (λ f. IsMade scene.now.objects.now scene.now.known.now maker.old maker.new
        (tree.Dot 0 (tree_of inner.now) k shape) scene.now.this scene.now.vars.now f) }
{
    let _count = scene.objects.count();
    let f = form_at(maker, scene, inner)?;
    let class = class_of(&f);
    let choice = choice_of(f);
    if let Choice::Fixed(n) = &choice {
        let r = attribute_at(maker, scene, Some(*n), k, shape)?;
        return Ok(r);
    }
    let r = dot_form(maker, scene.objects, class, &choice, k, shape)?;
    Ok(r)
}

/// A quantifier.
#[cycle(forms)]
fn quant_at(maker: &mut Maker, scene: &Scene<'_, '_>, quant: &RQuant) -> Result<Form, AllocError>
    requires standing { IsStanding scene.now.objects.now
        (quant_tree quant.now 0)
        scene.now.this scene.now.vars.now }
    requires cells { HasCells scene.now.objects.now maker.old }
    ensures made { IfOk result (λ f. IsMade scene.now.objects.now scene.now.known.now maker.old maker.new
        (quant_tree quant.now 0) scene.now.this scene.now.vars.now f) }
{
    let _count = scene.objects.count();
    let parts = own_parts_at(maker, scene, quant)?;
    let f = quantified(maker, quant.kind, parts.as_slice())?;
    Ok(f)
}

/// What each object that may be a member gives to a quantifier; two kinds have no filter.
#[cycle(forms)]
pub fn own_parts_at(
    maker: &mut Maker,
    scene: &Scene<'_, '_>,
    quant: &RQuant,
) -> Result<Vec<Part>, AllocError>
    requires standing { IsStanding scene.now.objects.now (quant_tree quant.now 0)
        scene.now.this scene.now.vars.now }
    requires cells { HasCells scene.now.objects.now maker.old }
    ensures parts { IfOk result (λ parts. ArePartsOf scene.now.objects.now maker.new
        scene.now.known.now (tree_of (quants.out-RQuant quant.now).over)
        (own_filter (quants.out-RQuant quant.now).kind
        (optional_tree (quants.out-RQuant quant.now).filter))
        (trees_of (quants.out-RQuant quant.now).body.items)
        scene.now.this scene.now.vars.now parts.items) }
    ensures adds { IfOk result (λ parts. Defines maker.old maker.new) }
{
    match quant.kind {
        QuantKind::AllDifferent | QuantKind::Pack => {
            let parts = parts_at(maker, scene, &quant.over, &None, &quant.body)?;
            Ok(parts)
        }
        QuantKind::Forall | QuantKind::Exists | QuantKind::Sum | QuantKind::Count => {
            let parts = parts_at(maker, scene, &quant.over, &quant.filter, &quant.body)?;
            Ok(parts)
        }
    }
}

/// What each object that may be a member gives to a quantifier.
#[cycle(forms)]
fn parts_at(
    maker: &mut Maker,
    scene: &Scene<'_, '_>,
    over: &RExpr,
    filter: &Option<RExpr>,
    body: &[RExpr],
) -> Result<Vec<Part>, AllocError>
    requires over { IsOver scene.now.objects.now (tree_of over.now) (optional_tree filter.now)
        (trees_of body.now) scene.now.this scene.now.vars.now }
    requires cells { HasCells scene.now.objects.now maker.old }
    ensures parts { IfOk result (λ parts. ArePartsOf scene.now.objects.now maker.new
        scene.now.known.now (tree_of over.now) (optional_tree filter.now) (trees_of body.now)
        scene.now.this scene.now.vars.now parts.items) }
    ensures adds { IfOk result (λ parts. Defines maker.old maker.new) }
{
    let members = list_at(maker, scene, over)?;
    let parts = parts_over(maker, scene, members.as_slice(), filter, body)?;
    Ok(parts)
}

/// What each of these possible members gives to a quantifier.
#[cycle(forms)]
fn parts_over(
    maker: &mut Maker,
    scene: &Scene<'_, '_>,
    members: &[Member],
    filter: &Option<RExpr>,
    body: &[RExpr],
) -> Result<Vec<Part>, AllocError>
    requires inside { All (λ (m : AMember). IsInside scene.now.objects.now
        (optional_tree filter.now) (trees_of body.now) scene.now.this
        (scene.now.vars.now ++ m.object ∷ [])) members.now }
    requires variables { All (λ (m : AMember). HasVariable (length maker.old.domains) m.is)
        members.now }
    requires cells { HasCells scene.now.objects.now maker.old }
    ensures value { IfOk result (λ parts. (a : List ℤ) → IsWorld maker.new a
        → AreKnown scene.now.known.now a → kept_values parts.items a
        ≡ given (λ x. keeps (optional_tree filter.now)
        (world_setting scene.now.objects.now maker.new a scene.now.this
        (scene.now.vars.now ++ x ∷ [])))
        (λ x. values_of (trees_of body.now)
        (world_setting scene.now.objects.now maker.new a scene.now.this
        (scene.now.vars.now ++ x ∷ []))) members.now a) }
    ensures each { IfOk result (λ parts. (p : Place) → All (λ (m : AMember).
        Fits scene.now.objects.now [] p (bare_setting scene.now.objects.now scene.now.this
        (scene.now.vars.now ++ m.object ∷ []))) members.now
        → All (IsPartOf scene.now.objects.now maker.new.domains p scene.now.this
        (trees_of body.now)) parts.items) }
    ensures few { IfOk result (λ parts. length parts.items ≤ length members.now) }
    ensures kept { IfOk result (λ parts. optional_tree filter.now ≡ NoFilter
        → All (λ (m : AMember). m.is ≡ truth.Fixed true) members.now → AreKept parts.items) }
    ensures adds { IfOk result (λ parts. Defines maker.old maker.new) }
{
    let mut parts = Vec::new(maker.alloc());
    let mut inner = with_room(maker.alloc(), scene.vars)?;
    for m in members {
        set_last(&mut inner, m.object);
        let inside = scene.inside(&inner);
        push_part(maker, &inside, &m.is, filter, body, &mut parts)?;
    }
    Ok(parts)
}

/// The objects that may be members of the list that an expression is, each with the truth that it
/// is one.
#[cycle(forms)]
pub(crate) fn list_at(
    maker: &mut Maker,
    scene: &Scene<'_, '_>,
    e: &RExpr,
) -> Result<Vec<Member>, AllocError>
    requires standing { IsStanding scene.now.objects.now
        (tree_of e.now)
        scene.now.this scene.now.vars.now }
    requires cells { HasCells scene.now.objects.now maker.old }
    ensures members { IfOk result (λ ms. AreMembersOf scene.now.objects.now maker.new
        scene.now.known.now (tree_of e.now) scene.now.this scene.now.vars.now ms.items) }
    ensures adds { IfOk result (λ ms. Defines maker.old maker.new) }
{
    let f = form_at(maker, scene, e)?;
    let ms = members_of(maker, listing_of(maker.alloc(), f))?;
    Ok(ms)
}

/// Adds what the object of the innermost variable gives, where it may be kept.
#[cycle(forms)]
fn push_part(
    maker: &mut Maker,
    scene: &Scene<'_, '_>,
    is: &Truth,
    filter: &Option<RExpr>,
    body: &[RExpr],
    parts: &mut Vec<Part>,
) -> Result<(), AllocError>
    requires inside { IsInside scene.now.objects.now (optional_tree filter.now)
        (trees_of body.now) scene.now.this scene.now.vars.now }
    requires is { HasVariable (length maker.old.domains) is.now }
    requires cells { HasCells scene.now.objects.now maker.old }
    ensures value { OnOk result ((a : List ℤ) → IsWorld maker.new a
        → AreKnown scene.now.known.now a
        → kept_values parts.new.items a ≡ kept_values parts.old.items a
        ++ cond (truth_at is.now a && keeps (optional_tree filter.now)
        (world_setting scene.now.objects.now maker.new a scene.now.this scene.now.vars.now))
        (values_of (trees_of body.now)
        (world_setting scene.now.objects.now maker.new a scene.now.this scene.now.vars.now) ∷ [])
        []) }
    ensures each { OnOk result ((p : Place) → Fits scene.now.objects.now [] p
        (bare_setting scene.now.objects.now scene.now.this scene.now.vars.now)
        → All (IsPartOf scene.now.objects.now maker.old.domains p scene.now.this
        (trees_of body.now)) parts.old.items
        → All (IsPartOf scene.now.objects.now maker.new.domains p scene.now.this
        (trees_of body.now)) parts.new.items) }
    ensures few { OnOk result (length parts.new.items ≤ length parts.old.items + 1) }
    ensures kept { OnOk result (optional_tree filter.now ≡ NoFilter → is.now ≡ truth.Fixed true
        → AreKept parts.old.items → AreKept parts.new.items) }
    ensures adds { OnOk result (Defines maker.old maker.new) }
{
    let kept = kept_at(maker, scene, is, filter)?;
    if is_never(&kept) {
        return Ok(());
    }
    let bodies = bodies_at(maker, scene, body)?;
    parts.push(Part { kept, bodies })?;
    Ok(())
}

/// Whether the object of the innermost variable is a member which the filter keeps.
#[cycle(forms)]
fn kept_at(
    maker: &mut Maker,
    scene: &Scene<'_, '_>,
    is: &Truth,
    filter: &Option<RExpr>,
) -> Result<Truth, AllocError>
    requires filter { IsEvaluableFilter scene.now.objects.now [] (optional_tree filter.now)
        (bare_setting scene.now.objects.now scene.now.this scene.now.vars.now) }
    requires is { HasVariable (length maker.old.domains) is.now }
    requires cells { HasCells scene.now.objects.now maker.old }
    ensures kept { IfOk result (λ t. IsKept scene.now.objects.now maker.new scene.now.known.now
        is.now (optional_tree filter.now) scene.now.this scene.now.vars.now t) }
    ensures adds { IfOk result (λ t. Defines maker.old maker.new) }
{
    match filter {
        None => {
            let t = copy_truth(is)?;
            Ok(t)
        }
        Some(e) => {
            let f = form_at(maker, scene, e)?;
            let t = both(maker, is, &truth_of(f))?;
            Ok(t)
        }
    }
}

/// The forms of the bodies.
#[cycle(forms)]
fn bodies_at(
    maker: &mut Maker,
    scene: &Scene<'_, '_>,
    body: &[RExpr],
) -> Result<Vec<Form>, AllocError>
    requires bodies { AllEvaluable scene.now.objects.now [] (trees_of body.now)
        (bare_setting scene.now.objects.now scene.now.this scene.now.vars.now) }
    requires cells { HasCells scene.now.objects.now maker.old }
    ensures forms { IfOk result (λ fs. AreBodies scene.now.objects.now maker.new
        scene.now.known.now (trees_of body.now) scene.now.this scene.now.vars.now fs.items) }
    ensures adds { IfOk result (λ fs. Defines maker.old maker.new) }
{
    let mut forms = Vec::new(maker.alloc());
    for e in body {
        let f = form_at(maker, scene, e)?;
        forms.push(f)?;
    }
    Ok(forms)
}
