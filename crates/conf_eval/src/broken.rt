//! Which configurations satisfy a model, and what is broken first where one doesn't.
ghost use Rattle.std.specs.Prelude.{◌≡◌, ◌<◌, ◌^◌, All, Contains, Some, None, true, length, IfOk, IfNone, IfSome};
ghost use Rattle.conf_types.specs.Typing.{IsTypedModel};
ghost use Rattle.object_alloc.specs.Cells.{extent, leaf_cells};
ghost use Rattle.object_alloc.specs.Configurations.{IsConfiguration};
ghost use Rattle.object_alloc.specs.Walk.{walk, leaves_in};
ghost use Rattle.conf_eval.specs.Breaking.{IsFirstBroken};
ghost use Rattle.conf_eval.specs.Evaluating.{IsGiven};
ghost use Rattle.conf_eval.specs.Finding.{first_failing, holds_for, is_full, wrong_set, wrong_object, wrong_constraint, IsStated, IsStatedFor};
ghost use Rattle.conf_eval.specs.Fitting.{IsEvaluable};
ghost use Rattle.conf_eval.specs.Listing.{members};
ghost use Rattle.conf_limits.specs.Measures.{model_narrow};
ghost use Rattle.conf_eval.specs.Satisfying.{Satisfies, setting, stated_for};

use crate::evaluate::value_at;
use crate::members::{Members, listed, slot, slot_count};
use crate::scene::Scene;
use crate::value::truth_of;
use class_table::Resolved;
use conf_types::{Constraint, TypedModel};
use object_alloc::{Config, Leaf, Objects};
use std::alloc::{AllocError, Global};

/// What a configuration breaks first: sets stand before constraints, constraints in order of place,
/// objects in order of allocation.
#[derive(Clone, Copy, Debug, PartialEq, Eq)]
pub enum BrokenAt {
    /// A reference set of another size than its shape's. The number is that of its first cell, or
    /// the one that it would have.
    SetSize { cell: u32 },
    /// A constraint, by its number in order of place, and the object of its class for which it
    /// doesn't hold.
    Constraint { index: u32, object: Option<u32> },
}

/// How many members a list has.
fn member_count(scene: &Scene<'_, '_>, list: &Members<'_>) -> usize
    ensures count { result ≡ length (members scene.now.objects.now scene.now.values.now list.now) }
{
    let mut count = 0;
    for i in 0..slot_count(scene, list) {
        if slot(scene, list, i).is_some() {
            count += 1;
        }
    }
    count
}

/// Whether a leaf has as many members as its shape says, where it is a reference set.
fn is_full(scene: &Scene<'_, '_>, leaf: Leaf) -> bool
    ensures full { result ≡ is_full scene.now.objects.now scene.now.values.now leaf }
{
    match leaf.shape {
        Resolved::RefSet(_, size) => {
            let list = listed(scene, leaf.owner, leaf.attribute, leaf.shape);
            member_count(scene, &list) == size as usize
        }
        Resolved::Span(_, _)
        | Resolved::Truth
        | Resolved::Choice(_)
        | Resolved::One(_)
        | Resolved::Many(_, _)
        | Resolved::Ref(_) => true,
    }
}

/// How many cells a leaf gives.
fn cell_count(scene: &Scene<'_, '_>, leaf: &Leaf) -> usize
    requires leaf { Contains (leaves_in (walk scene.now.objects.now)) leaf.now }
    ensures count { result ≡ length (leaf_cells scene.now.objects.now leaf.now) }
{
    let _count = scene.objects.count();
    let cells = scene.objects.own_cells(leaf.owner, leaf.attribute);
    cells.len()
}

/// The number of the first cell of the first reference set of another size than its shape's.
fn wrong_set(scene: &Scene<'_, '_>) -> Option<u32>
    requires given { IsGiven scene.now.objects.now scene.now.values.now }
    ensures set { result ≡ wrong_set scene.now.objects.now scene.now.values.now 0
        (leaves_in (walk scene.now.objects.now)) }
{
    let mut cells = 0;
    for leaf in scene.objects.leaves() {
        if !is_full(scene, *leaf) {
            return Some(cells as u32);
        }
        cells += cell_count(scene, leaf);
    }
    None
}

/// Whether a constraint holds where this object is `this`.
fn holds_for(
    alloc: Global,
    scene: &Scene<'_, '_>,
    constraint: &Constraint,
    this: Option<u32>,
) -> Result<bool, AllocError>
    requires given { IsGiven scene.now.objects.now scene.now.values.now }
    requires expr { IsEvaluable scene.now.objects.now scene.now.values.now constraint.now.tree
        (setting scene.now.objects.now scene.now.values.now this) }
    ensures holds { IfOk result (λ b. b ≡ holds_for scene.now.objects.now scene.now.values.now
        constraint.now this) }
{
    let there = Scene {
        objects: scene.objects,
        values: scene.values,
        this,
    };
    let v = value_at(alloc, &there, &[], &constraint.expr)?;
    Ok(truth_of(&v))
}

/// The first object of a class for which a constraint doesn't hold.
fn wrong_member(
    alloc: Global,
    scene: &Scene<'_, '_>,
    constraint: &Constraint,
    class: u32,
) -> Result<Option<u32>, AllocError>
    requires given { IsGiven scene.now.objects.now scene.now.values.now }
    requires stated { IsStatedFor scene.now.objects.now scene.now.values.now constraint.now.tree
        (stated_for scene.now.objects.now (Some class)) }
    ensures member { IfOk result (λ found. found
        ≡ first_failing (λ n. holds_for scene.now.objects.now scene.now.values.now constraint.now
        (Some n)) (extent scene.now.objects.now class)) }
{
    let list = Members::Extent(class);
    for i in 0..slot_count(scene, &list) {
        let Some(x) = slot(scene, &list, i) else {
            continue;
        };
        if !holds_for(alloc, scene, constraint, Some(x))? {
            return Ok(Some(x));
        }
    }
    Ok(None)
}

/// The first object for which a constraint doesn't hold; at the top level that is none.
fn wrong_object(
    alloc: Global,
    scene: &Scene<'_, '_>,
    constraint: &Constraint,
) -> Result<Option<Option<u32>>, AllocError>
    requires given { IsGiven scene.now.objects.now scene.now.values.now }
    requires stated { IsStated scene.now.objects.now scene.now.values.now constraint.now }
    ensures object { IfOk result (λ found. found ≡ wrong_object scene.now.objects.now
        scene.now.values.now constraint.now) }
{
    match constraint.class {
        Some(class) => {
            let found = wrong_member(alloc, scene, constraint, class)?;
            match found {
                Some(object) => Ok(Some(Some(object))),
                None => Ok(None),
            }
        }
        None => {
            let right = holds_for(alloc, scene, constraint, None)?;
            Ok(if right { None } else { Some(None) })
        }
    }
}

/// The first constraint that doesn't hold.
fn wrong_constraint(
    alloc: Global,
    scene: &Scene<'_, '_>,
    constraints: &[Constraint],
) -> Result<Option<BrokenAt>, AllocError>
    requires given { IsGiven scene.now.objects.now scene.now.values.now }
    requires few { length constraints.now < 2 ^ 32 }
    requires stated { All (IsStated scene.now.objects.now scene.now.values.now) constraints.now }
    ensures constraint { IfOk result (λ found. found ≡ wrong_constraint scene.now.objects.now
        scene.now.values.now 0 constraints.now) }
{
    for i in 0..constraints.len() {
        if let Some(object) = wrong_object(alloc, scene, &constraints[i])? {
            let index = i as u32;
            return Ok(Some(BrokenAt::Constraint { index, object }));
        }
    }
    Ok(None)
}

/// What a configuration breaks first; None where it satisfies the model.
///
/// # Errors
///
/// Where there is no memory left.
pub fn satisfied(
    alloc: Global,
    m: &TypedModel,
    objects: &Objects<'_>,
    config: &Config,
) -> Result<Option<BrokenAt>, AllocError>
    requires typed { IsTypedModel objects.now m.now.constraints m.now.goals }
    requires narrow { model_narrow objects.now m.now.constraints m.now.goals ≡ true }
    requires config { IsConfiguration objects.now config.now }
    requires few { length m.now.constraints < 2 ^ 32 }
    ensures none { IfOk result (λ found. IfNone found (Satisfies objects.now m.now.constraints
        config.now)) }
    ensures broken { IfOk result (λ found. IfSome found (IsFirstBroken objects.now m.now.constraints
        config.now)) }
{
    let _count = objects.count();
    let scene = Scene {
        objects,
        values: config.items(),
        this: None,
    };
    if let Some(cell) = wrong_set(&scene) {
        return Ok(Some(BrokenAt::SetSize { cell }));
    }
    let found = wrong_constraint(alloc, &scene, m.constraints())?;
    Ok(found)
}
