//! The values of expressions. The recursion is on the resolved tree.
//!
//! `value_at` is the entry. A quantifier and `in` look at the members of a list where they are kept
//! (`members_at`); a list is made only where its value is asked for.
ghost use Rattle.std.specs.Prelude.{◌≡◌, ◌<◌, ◌^◌, ◌++◌, ◌∷◌, [], ℕ, List, All, true, false, Some, drop, length, map, neg_ℤ, not, IfOk, count_by, cond, ◌||◌, IsOk};
ghost use Rattle.std.specs.List.{list_all, list_any};
ghost use Rattle.conf_types.specs.TreeOf.{tree_of, quant_tree, optional_tree, trees_of};
ghost use Rattle.conf_types.specs.Trees as tree;
ghost use Rattle.object_alloc.specs.Cells.{extent};
ghost use Rattle.conf_eval.specs.declared.value.Value.TheVariants.{Int, Truth, Objects};
ghost use Rattle.conf_eval.specs.Evaluating.{IsGiven, IsRoom, AllEvaluable, AreInner, setting_at, holds, number_of, term_of};
ghost use Rattle.conf_eval.specs.Fitting.{HasShape, IsEvaluable, IsEvaluableFilter, IsNarrow};
ghost use Rattle.conf_eval.specs.Listing.{held, members, slots};
ghost use Rattle.conf_eval.specs.Meaning.{value, keeps, values_of, bind, int_of, truth_of, object_of, objects_of, operate, attribute_value, local_object, total, all_true, first_of, item_of};
ghost use Rattle.conf_eval.specs.Memory.{is_list, takes_memory, is_member_test, members_take};
ghost use Rattle.conf_eval.specs.Packing.{item_view};

use crate::attributes::{attribute_value, collect};
use crate::members::{Members, has_member, listed, slot, slot_count};
use crate::operators::operate;
use crate::packing::{
    Item, Sum, all_differ, count_value, counted, fits_all, int_value, plus, sum_of,
};
use crate::scene::Scene;
use crate::value::{Value, int_of, object_of, truth_of};
use class_table::Resolved;
use conf_syntax::{Op, QuantKind};
use conf_types::{RExpr, RNode, RQuant};
use object_alloc::ObjectList;
use std::alloc::{AllocError, Global};

/// A quantifier in its parts: its kind, the list that it is over, its filter and its bodies.
#[derive(Clone, Copy)]
struct Parts<'a> {
    kind: QuantKind,
    over: &'a RExpr,
    filter: &'a Option<RExpr>,
    body: &'a [RExpr],
}

/// The object of the variable at this distance, 0 for the innermost.
fn local_object(vars: &[u32], k: u32) -> u32
    ensures object { result ≡ local_object vars.now k }
{
    let at = vars.len().saturating_sub(k as usize + 1);
    vars.get(at).copied().unwrap_or(0)
}

/// The value of an expression.
#[cycle(eval)]
pub(crate) fn value_at(
    alloc: Global,
    scene: &Scene<'_, '_>,
    vars: &[u32],
    e: &RExpr,
) -> Result<Value, AllocError>
    requires given { IsGiven scene.now.objects.now scene.now.values.now }
    requires expr { IsEvaluable scene.now.objects.now scene.now.values.now (tree_of e.now)
        (setting_at scene.now vars.now) }
    ensures value { IfOk result (λ v. v ≡ value (tree_of e.now) (setting_at scene.now vars.now)) }
    ensures memory { takes_memory (tree_of e.now) ≡ false → IsOk result }
{
    match &e.node {
        RNode::Number(number) => Ok(Value::Int(i64::from(*number))),
        RNode::Truth(truth) => Ok(Value::Truth(*truth)),
        RNode::This => Ok(Value::Object(scene.this.unwrap_or(0))),
        RNode::Paren(inner) => value_at(alloc, scene, vars, inner),
        RNode::Minus(inner) => minus_at(alloc, scene, vars, inner),
        RNode::Not(inner) => not_at(alloc, scene, vars, inner),
        RNode::Pair(op, left, right) => pair_at(alloc, scene, vars, *op, left, right),
        RNode::Local(k) => Ok(Value::Object(local_object(vars, *k))),
        RNode::Own(k, shape) => attribute_value(alloc, scene, scene.this, *k, *shape),
        RNode::Root(k, shape) => attribute_value(alloc, scene, None, *k, *shape),
        RNode::Value(enumeration, k) => Ok(Value::Choice(*enumeration, *k)),
        RNode::Class(class) => class_at(alloc, scene, *class),
        RNode::Dot(inner, k, shape) => dot_at(alloc, scene, vars, inner, *k, *shape),
        RNode::Quant(quant) => quant_at(alloc, scene, vars, quant),
    }
}

/// The number with the other sign.
fn negated(v: &Value) -> Value
    requires number { IsNarrow (int_of v.now) }
    ensures value { result ≡ Int (neg_ℤ (int_of v.now)) }
{
    Value::Int(-int_of(v))
}

/// All objects of a class.
fn class_at(alloc: Global, scene: &Scene<'_, '_>, class: u32) -> Result<Value, AllocError>
    ensures value { IfOk result (λ v. v ≡ Objects (extent scene.now.objects.now class)) }
{
    let numbers = collect(alloc, scene, &Members::Extent(class))?;
    Ok(Value::Objects(ObjectList::of(numbers)))
}

/// `- ..`.
#[cycle(eval)]
fn minus_at(
    alloc: Global,
    scene: &Scene<'_, '_>,
    vars: &[u32],
    inner: &RExpr,
) -> Result<Value, AllocError>
    requires given { IsGiven scene.now.objects.now scene.now.values.now }
    requires expr { IsEvaluable scene.now.objects.now scene.now.values.now (tree_of inner.now)
        (setting_at scene.now vars.now) }
    ensures value { IfOk result (λ v. v
        ≡ Int (neg_ℤ (int_of (value (tree_of inner.now) (setting_at scene.now vars.now))))) }
    ensures memory { takes_memory (tree_of inner.now) ≡ false → IsOk result }
{
    let v = value_at(alloc, scene, vars, inner)?;
    Ok(negated(&v))
}

/// `not ..`.
#[cycle(eval)]
fn not_at(
    alloc: Global,
    scene: &Scene<'_, '_>,
    vars: &[u32],
    inner: &RExpr,
) -> Result<Value, AllocError>
    requires given { IsGiven scene.now.objects.now scene.now.values.now }
    requires expr { IsEvaluable scene.now.objects.now scene.now.values.now (tree_of inner.now)
        (setting_at scene.now vars.now) }
    ensures value { IfOk result (λ v. v
        ≡ Truth (not (truth_of (value (tree_of inner.now) (setting_at scene.now vars.now))))) }
    ensures memory { takes_memory (tree_of inner.now) ≡ false → IsOk result }
{
    let v = value_at(alloc, scene, vars, inner)?;
    Ok(Value::Truth(!truth_of(&v)))
}

/// An attribute of what stands before the dot.
#[cycle(eval)]
fn dot_at(
    alloc: Global,
    scene: &Scene<'_, '_>,
    vars: &[u32],
    inner: &RExpr,
    k: u32,
    shape: Resolved,
) -> Result<Value, AllocError>
    requires given { IsGiven scene.now.objects.now scene.now.values.now }
    requires expr { IsEvaluable scene.now.objects.now scene.now.values.now (tree_of inner.now)
        (setting_at scene.now vars.now) }
    requires shape { HasShape scene.now.objects.now
        (Some (object_of (value (tree_of inner.now) (setting_at scene.now vars.now)))) k shape }
    ensures value { IfOk result (λ v. v ≡ attribute_value scene.now.objects.now scene.now.values.now
        (Some (object_of (value (tree_of inner.now) (setting_at scene.now vars.now)))) k shape) }
    ensures memory { (takes_memory (tree_of inner.now) || is_list shape) ≡ false → IsOk result }
{
    let v = value_at(alloc, scene, vars, inner)?;
    attribute_value(alloc, scene, Some(object_of(&v)), k, shape)
}

/// An operator between two expressions.
#[cycle(eval)]
fn pair_at(
    alloc: Global,
    scene: &Scene<'_, '_>,
    vars: &[u32],
    op: Op,
    left: &RExpr,
    right: &RExpr,
) -> Result<Value, AllocError>
    requires given { IsGiven scene.now.objects.now scene.now.values.now }
    requires left { IsEvaluable scene.now.objects.now scene.now.values.now (tree_of left.now)
        (setting_at scene.now vars.now) }
    requires right { IsEvaluable scene.now.objects.now scene.now.values.now (tree_of right.now)
        (setting_at scene.now vars.now) }
    requires number { IsNarrow (int_of
        (operate op (value (tree_of left.now) (setting_at scene.now vars.now))
        (value (tree_of right.now) (setting_at scene.now vars.now)))) }
    ensures value { IfOk result (λ v. v
        ≡ operate op (value (tree_of left.now) (setting_at scene.now vars.now))
        (value (tree_of right.now) (setting_at scene.now vars.now))) }
    ensures memory { (takes_memory (tree_of left.now) || cond (is_member_test op)
        (members_take (tree_of right.now)) (takes_memory (tree_of right.now))) ≡ false
        → IsOk result }
{
    let v = value_at(alloc, scene, vars, left)?;
    if op == Op::In {
        let list = members_at(alloc, scene, vars, right)?;
        return Ok(Value::Truth(has_member(scene, &list, object_of(&v))));
    }
    let w = value_at(alloc, scene, vars, right)?;
    Ok(operate(op, &v, &w))
}

/// The members of the list that an expression is; none where it is no list.
#[cycle(eval)]
fn members_at<'a>(
    alloc: Global,
    scene: &Scene<'a, '_>,
    vars: &[u32],
    e: &RExpr,
) -> Result<Members<'a>, AllocError>
    requires given { IsGiven scene.now.objects.now scene.now.values.now }
    requires expr { IsEvaluable scene.now.objects.now scene.now.values.now (tree_of e.now)
        (setting_at scene.now vars.now) }
    ensures members { IfOk result (λ list. members scene.now.objects.now scene.now.values.now list
        ≡ objects_of (value (tree_of e.now) (setting_at scene.now vars.now))) }
    ensures memory { members_take (tree_of e.now) ≡ false → IsOk result }
{
    match &e.node {
        RNode::Paren(inner) => members_at(alloc, scene, vars, inner),
        RNode::Class(class) => Ok(Members::Extent(*class)),
        RNode::Own(k, shape) => Ok(listed(scene, scene.this, *k, *shape)),
        RNode::Root(k, shape) => Ok(listed(scene, None, *k, *shape)),
        RNode::Dot(inner, k, shape) => dotted_at(alloc, scene, vars, inner, *k, *shape),
        RNode::Number(_)
        | RNode::Truth(_)
        | RNode::This
        | RNode::Minus(_)
        | RNode::Not(_)
        | RNode::Pair(_, _, _)
        | RNode::Local(_)
        | RNode::Value(_, _)
        | RNode::Quant(_) => Ok(Members::Nobody),
    }
}

/// The members of the list that an attribute of what stands before the dot is.
#[cycle(eval)]
fn dotted_at<'a>(
    alloc: Global,
    scene: &Scene<'a, '_>,
    vars: &[u32],
    inner: &RExpr,
    k: u32,
    shape: Resolved,
) -> Result<Members<'a>, AllocError>
    requires given { IsGiven scene.now.objects.now scene.now.values.now }
    requires expr { IsEvaluable scene.now.objects.now scene.now.values.now (tree_of inner.now)
        (setting_at scene.now vars.now) }
    ensures members { IfOk result (λ list. members scene.now.objects.now scene.now.values.now list
        ≡ objects_of (attribute_value scene.now.objects.now scene.now.values.now
        (Some (object_of (value (tree_of inner.now) (setting_at scene.now vars.now)))) k shape)) }
    ensures memory { takes_memory (tree_of inner.now) ≡ false → IsOk result }
{
    let v = value_at(alloc, scene, vars, inner)?;
    Ok(listed(scene, Some(object_of(&v)), k, shape))
}

/// A quantifier.
#[cycle(eval)]
fn quant_at(
    alloc: Global,
    scene: &Scene<'_, '_>,
    vars: &[u32],
    quant: &RQuant,
) -> Result<Value, AllocError>
    requires given { IsGiven scene.now.objects.now scene.now.values.now }
    requires expr { IsEvaluable scene.now.objects.now scene.now.values.now (quant_tree quant.now 0)
        (setting_at scene.now vars.now) }
    ensures value { IfOk result (λ v. v ≡ value (quant_tree quant.now 0)
        (setting_at scene.now vars.now)) }
{
    let parts = Parts {
        kind: quant.kind,
        over: &quant.over,
        filter: &quant.filter,
        body: &quant.body,
    };
    parts_at(alloc, scene, vars, parts)
}

/// A quantifier, of which the parts are given.
#[cycle(eval)]
fn parts_at(
    alloc: Global,
    scene: &Scene<'_, '_>,
    vars: &[u32],
    parts: Parts<'_>,
) -> Result<Value, AllocError>
    requires given { IsGiven scene.now.objects.now scene.now.values.now }
    requires expr { IsEvaluable scene.now.objects.now scene.now.values.now
        (tree.Quant 0 parts.kind (tree_of parts.over.now) (optional_tree parts.filter.now)
        (trees_of parts.body.now)) (setting_at scene.now vars.now) }
    ensures value { IfOk result (λ v. v
        ≡ value (tree.Quant 0 parts.entry.kind (tree_of parts.entry.over.now)
        (optional_tree parts.entry.filter.now) (trees_of parts.entry.body.now))
        (setting_at scene.now vars.now)) }
{
    let list = members_at(alloc, scene, vars, parts.over)?;
    match parts.kind {
        QuantKind::Forall => {
            let all = forall_at(alloc, scene, vars, &list, parts.filter, parts.body)?;
            Ok(Value::Truth(all))
        }
        QuantKind::Exists => {
            let some = exists_at(alloc, scene, vars, &list, parts.filter, parts.body)?;
            Ok(Value::Truth(some))
        }
        QuantKind::Count => {
            let count = count_at(alloc, scene, vars, &list, parts.filter, parts.body)?;
            Ok(count_value(count))
        }
        QuantKind::Sum => {
            let sum = sum_at(alloc, scene, vars, &list, parts.filter, parts.body)?;
            Ok(int_value(sum))
        }
        QuantKind::AllDifferent => {
            let values = firsts_at(alloc, scene, vars, &list, parts.body)?;
            Ok(Value::Truth(all_differ(&values)))
        }
        QuantKind::Pack => {
            let items = items_at(alloc, scene, vars, &list, parts.body)?;
            Ok(Value::Truth(fits_all(&items)))
        }
    }
}

/// Whether the bodies are true for each member that the filter keeps.
#[cycle(eval)]
fn forall_at(
    alloc: Global,
    scene: &Scene<'_, '_>,
    vars: &[u32],
    list: &Members<'_>,
    filter: &Option<RExpr>,
    body: &[RExpr],
) -> Result<bool, AllocError>
    requires given { IsGiven scene.now.objects.now scene.now.values.now }
    requires inner { AreInner scene.now.objects.now scene.now.values.now (optional_tree filter.now)
        (trees_of body.now) (setting_at scene.now vars.now) (members scene.now.objects.now
        scene.now.values.now list.now) }
    ensures all { IfOk result (λ b. b
        ≡ list_all (λ x. holds (optional_tree filter.now) (trees_of body.now) true
        (bind (setting_at scene.now vars.now) x)) (members scene.now.objects.now
        scene.now.values.now list.now)) }
{
    let mut inner = with_room(alloc, vars)?;
    for i in 0..slot_count(scene, list) {
        let Some(x) = slot(scene, list, i) else {
            continue;
        };
        set_last(&mut inner, x);
        if !holds_at(alloc, scene, &inner, filter, body, true)? {
            return Ok(false);
        }
    }
    Ok(true)
}

/// Whether the bodies are true for some member that the filter keeps.
#[cycle(eval)]
fn exists_at(
    alloc: Global,
    scene: &Scene<'_, '_>,
    vars: &[u32],
    list: &Members<'_>,
    filter: &Option<RExpr>,
    body: &[RExpr],
) -> Result<bool, AllocError>
    requires given { IsGiven scene.now.objects.now scene.now.values.now }
    requires inner { AreInner scene.now.objects.now scene.now.values.now (optional_tree filter.now)
        (trees_of body.now) (setting_at scene.now vars.now) (members scene.now.objects.now
        scene.now.values.now list.now) }
    ensures some { IfOk result (λ b. b
        ≡ list_any (λ x. holds (optional_tree filter.now) (trees_of body.now) false
        (bind (setting_at scene.now vars.now) x)) (members scene.now.objects.now
        scene.now.values.now list.now)) }
{
    let mut inner = with_room(alloc, vars)?;
    for i in 0..slot_count(scene, list) {
        let Some(x) = slot(scene, list, i) else {
            continue;
        };
        set_last(&mut inner, x);
        if holds_at(alloc, scene, &inner, filter, body, false)? {
            return Ok(true);
        }
    }
    Ok(false)
}

/// For how many members that the filter keeps the bodies are true.
#[cycle(eval)]
fn count_at(
    alloc: Global,
    scene: &Scene<'_, '_>,
    vars: &[u32],
    list: &Members<'_>,
    filter: &Option<RExpr>,
    body: &[RExpr],
) -> Result<usize, AllocError>
    requires given { IsGiven scene.now.objects.now scene.now.values.now }
    requires inner { AreInner scene.now.objects.now scene.now.values.now (optional_tree filter.now)
        (trees_of body.now) (setting_at scene.now vars.now) (members scene.now.objects.now
        scene.now.values.now list.now) }
    ensures count { IfOk result (λ n. n
        ≡ count_by (λ x. holds (optional_tree filter.now) (trees_of body.now) false
        (bind (setting_at scene.now vars.now) x)) (members scene.now.objects.now
        scene.now.values.now list.now)) }
{
    let mut inner = with_room(alloc, vars)?;
    let mut count = 0;
    for i in 0..slot_count(scene, list) {
        let Some(x) = slot(scene, list, i) else {
            continue;
        };
        set_last(&mut inner, x);
        let holds = holds_at(alloc, scene, &inner, filter, body, false)?;
        count = counted(count, holds);
    }
    Ok(count)
}

/// The sum of the first body over the members that the filter keeps.
#[cycle(eval)]
fn sum_at(
    alloc: Global,
    scene: &Scene<'_, '_>,
    vars: &[u32],
    list: &Members<'_>,
    filter: &Option<RExpr>,
    body: &[RExpr],
) -> Result<Sum, AllocError>
    requires given { IsGiven scene.now.objects.now scene.now.values.now }
    requires inner { AreInner scene.now.objects.now scene.now.values.now (optional_tree filter.now)
        (trees_of body.now) (setting_at scene.now vars.now) (members scene.now.objects.now
        scene.now.values.now list.now) }
    requires small { (i : ℕ) → IsNarrow
        (total (map (λ x. term_of (optional_tree filter.now) (trees_of body.now)
        (bind (setting_at scene.now vars.now) x))
        (held (drop i (slots scene.now.objects.now scene.now.values.now list.now))))) }
    ensures sum { IfOk result (λ sum. sum.value
        ≡ total (map (λ x. term_of (optional_tree filter.now) (trees_of body.now)
        (bind (setting_at scene.now vars.now) x)) (members scene.now.objects.now
        scene.now.values.now list.now))) }
{
    let mut inner = with_room(alloc, vars)?;
    let mut sum = Sum { value: 0 };
    for i in 0..slot_count(scene, list) {
        let Some(x) = slot(scene, list, i) else {
            continue;
        };
        set_last(&mut inner, x);
        let term = term_at(alloc, scene, &inner, filter, body)?;
        sum = plus(sum, term);
    }
    Ok(sum)
}

/// The values of the first body at the members.
#[cycle(eval)]
fn firsts_at(
    alloc: Global,
    scene: &Scene<'_, '_>,
    vars: &[u32],
    list: &Members<'_>,
    body: &[RExpr],
) -> Result<Vec<Value>, AllocError>
    requires given { IsGiven scene.now.objects.now scene.now.values.now }
    requires inner { All (λ x. AllEvaluable scene.now.objects.now scene.now.values.now
        (trees_of body.now) (bind (setting_at scene.now vars.now) x)) (members scene.now.objects.now
        scene.now.values.now list.now) }
    ensures values { IfOk result (λ values. values.items
        ≡ map (λ x. first_of (values_of (trees_of body.now) (bind (setting_at scene.now vars.now)
        x))) (members scene.now.objects.now scene.now.values.now list.now)) }
{
    let mut inner = with_room(alloc, vars)?;
    let mut values = Vec::new(alloc);
    for i in 0..slot_count(scene, list) {
        let Some(x) = slot(scene, list, i) else {
            continue;
        };
        set_last(&mut inner, x);
        let value = first_at(alloc, scene, &inner, body)?;
        values.push(value)?;
    }
    Ok(values)
}

/// What the members pack.
#[cycle(eval)]
fn items_at(
    alloc: Global,
    scene: &Scene<'_, '_>,
    vars: &[u32],
    list: &Members<'_>,
    body: &[RExpr],
) -> Result<Vec<Item>, AllocError>
    requires given { IsGiven scene.now.objects.now scene.now.values.now }
    requires inner { All (λ x. AllEvaluable scene.now.objects.now scene.now.values.now
        (trees_of body.now) (bind (setting_at scene.now vars.now) x)) (members scene.now.objects.now
        scene.now.values.now list.now) }
    ensures items { IfOk result (λ items. map item_view items.items
        ≡ map (λ x. item_of (values_of (trees_of body.now) (bind (setting_at scene.now vars.now)
        x))) (members scene.now.objects.now scene.now.values.now list.now)) }
{
    let mut inner = with_room(alloc, vars)?;
    let mut items = Vec::new(alloc);
    for i in 0..slot_count(scene, list) {
        let Some(x) = slot(scene, list, i) else {
            continue;
        };
        set_last(&mut inner, x);
        let item = item_at(alloc, scene, &inner, body)?;
        items.push(item)?;
    }
    Ok(items)
}

/// Whether the filter keeps a member and the bodies are true; `otherwise` where it leaves it out.
#[cycle(eval)]
fn holds_at(
    alloc: Global,
    scene: &Scene<'_, '_>,
    vars: &[u32],
    filter: &Option<RExpr>,
    body: &[RExpr],
    otherwise: bool,
) -> Result<bool, AllocError>
    requires given { IsGiven scene.now.objects.now scene.now.values.now }
    requires filter { IsEvaluableFilter scene.now.objects.now scene.now.values.now
        (optional_tree filter.now) (setting_at scene.now vars.now) }
    requires bodies { AllEvaluable scene.now.objects.now scene.now.values.now (trees_of body.now)
        (setting_at scene.now vars.now) }
    ensures holds { IfOk result (λ b. b ≡ holds (optional_tree filter.now) (trees_of body.now)
        otherwise (setting_at scene.now vars.now)) }
{
    if keeps_at(alloc, scene, vars, filter)? {
        all_true_at(alloc, scene, vars, body)
    } else {
        Ok(otherwise)
    }
}

/// What a member adds to a sum.
#[cycle(eval)]
fn term_at(
    alloc: Global,
    scene: &Scene<'_, '_>,
    vars: &[u32],
    filter: &Option<RExpr>,
    body: &[RExpr],
) -> Result<Sum, AllocError>
    requires given { IsGiven scene.now.objects.now scene.now.values.now }
    requires filter { IsEvaluableFilter scene.now.objects.now scene.now.values.now
        (optional_tree filter.now) (setting_at scene.now vars.now) }
    requires bodies { AllEvaluable scene.now.objects.now scene.now.values.now (trees_of body.now)
        (setting_at scene.now vars.now) }
    ensures term { IfOk result (λ sum. sum.value ≡ term_of (optional_tree filter.now)
        (trees_of body.now) (setting_at scene.now vars.now)) }
{
    if keeps_at(alloc, scene, vars, filter)? {
        let v = first_at(alloc, scene, vars, body)?;
        Ok(sum_of(&v))
    } else {
        Ok(Sum { value: 0 })
    }
}

/// Whether a filter keeps a member.
#[cycle(eval)]
fn keeps_at(
    alloc: Global,
    scene: &Scene<'_, '_>,
    vars: &[u32],
    filter: &Option<RExpr>,
) -> Result<bool, AllocError>
    requires given { IsGiven scene.now.objects.now scene.now.values.now }
    requires filter { IsEvaluableFilter scene.now.objects.now scene.now.values.now
        (optional_tree filter.now) (setting_at scene.now vars.now) }
    ensures keeps { IfOk result (λ b. b ≡ keeps (optional_tree filter.now)
        (setting_at scene.now vars.now)) }
{
    match filter {
        Some(test) => {
            let v = value_at(alloc, scene, vars, test)?;
            Ok(truth_of(&v))
        }
        None => Ok(true),
    }
}

/// Whether all bodies are true.
#[cycle(eval)]
fn all_true_at(
    alloc: Global,
    scene: &Scene<'_, '_>,
    vars: &[u32],
    body: &[RExpr],
) -> Result<bool, AllocError>
    requires given { IsGiven scene.now.objects.now scene.now.values.now }
    requires bodies { AllEvaluable scene.now.objects.now scene.now.values.now (trees_of body.now)
        (setting_at scene.now vars.now) }
    ensures all { IfOk result (λ b. b
        ≡ all_true (values_of (trees_of body.now) (setting_at scene.now vars.now))) }
{
    for e in body {
        let v = value_at(alloc, scene, vars, e)?;
        if !truth_of(&v) {
            return Ok(false);
        }
    }
    Ok(true)
}

/// The value of the first body.
#[cycle(eval)]
fn first_at(
    alloc: Global,
    scene: &Scene<'_, '_>,
    vars: &[u32],
    body: &[RExpr],
) -> Result<Value, AllocError>
    requires given { IsGiven scene.now.objects.now scene.now.values.now }
    requires bodies { AllEvaluable scene.now.objects.now scene.now.values.now (trees_of body.now)
        (setting_at scene.now vars.now) }
    ensures value { IfOk result (λ v. v
        ≡ first_of (values_of (trees_of body.now) (setting_at scene.now vars.now))) }
{
    match body.first() {
        Some(e) => value_at(alloc, scene, vars, e),
        None => Ok(Value::Truth(false)),
    }
}

/// The number of a body, 0 where there is none.
#[cycle(eval)]
fn number_at(
    alloc: Global,
    scene: &Scene<'_, '_>,
    vars: &[u32],
    body: &[RExpr],
    n: usize,
) -> Result<Sum, AllocError>
    requires given { IsGiven scene.now.objects.now scene.now.values.now }
    requires bodies { AllEvaluable scene.now.objects.now scene.now.values.now (trees_of body.now)
        (setting_at scene.now vars.now) }
    ensures number { IfOk result (λ sum. sum.value ≡ number_of (trees_of body.now) n
        (setting_at scene.now vars.now)) }
{
    match body.get(n) {
        Some(e) => {
            let v = value_at(alloc, scene, vars, e)?;
            Ok(sum_of(&v))
        }
        None => Ok(Sum { value: 0 }),
    }
}

/// What a member packs.
#[cycle(eval)]
fn item_at(
    alloc: Global,
    scene: &Scene<'_, '_>,
    vars: &[u32],
    body: &[RExpr],
) -> Result<Item, AllocError>
    requires given { IsGiven scene.now.objects.now scene.now.values.now }
    requires bodies { AllEvaluable scene.now.objects.now scene.now.values.now (trees_of body.now)
        (setting_at scene.now vars.now) }
    ensures item { IfOk result (λ item. item_view item
        ≡ item_of (values_of (trees_of body.now) (setting_at scene.now vars.now))) }
{
    let bin = first_at(alloc, scene, vars, body)?;
    let size = number_at(alloc, scene, vars, body, 1)?;
    let room = number_at(alloc, scene, vars, body, 2)?;
    Ok(Item { bin, size, room })
}

/// The variables of the quantifiers round an expression, with room for one more.
fn with_room(alloc: Global, vars: &[u32]) -> Result<Vec<u32>, AllocError>
    ensures room { IfOk result (λ inner. IsRoom vars.now inner.items) }
{
    let mut inner = Vec::new(alloc);
    inner.extend_from_slice(vars)?;
    inner.push(0)?;
    Ok(inner)
}

/// Sets the innermost variable.
fn set_last(inner: &mut Vec<u32>, x: u32)
    ensures set { (outer : List ℕ) → IsRoom outer inner.old.items → inner.new.items ≡ outer
        ++ x ∷ [] }
{
    let count = inner.len();
    if count > 0 {
        inner[count - 1] = x;
    }
}
