//! The variable that is the cell of an attribute of a chosen object.
//!
//! None is made where one that stands has the value already.
ghost use Rattle.std.specs.Prelude.{◌≡◌, ◌<◌, true, length, IfOk, IfSome, Some};
ghost use Rattle.std.specs.List.{All};
ghost use Rattle.object_alloc.specs.declared.object.Domain.{Domain as ADomain};
ghost use Rattle.object_alloc.specs.Cells.{domain_of};
ghost use Rattle.object_alloc.specs.Groups.{own_cells};
ghost use Rattle.signed_clause.specs.Ranges.{IsValid};
ghost use Rattle.ground_form.specs.WellMade.{distinct_values};
ghost use Rattle.ground_build.specs.Growing.{HasRoom, HoldsDomain};
ghost use Rattle.form_build.specs.Worlds.{Defines};
ghost use Rattle.conf_eval.specs.Meaning.{first_object};
ghost use Rattle.expr_forms.specs.FormBounds.{IsMap};
ghost use Rattle.expr_forms.specs.Standing.{HasCells};
ghost use Rattle.reference_forms.specs.Candidates.{HaveShape};
ghost use Rattle.reference_forms.specs.Picks.{cell_items, AreAlike, IsFirst, IsCommon, HasDomain, IsPicked, IsChosenCell};

use crate::attributes::first;
use crate::variables::ends_at;
use class_table::Resolved;
use form_build::Maker;
use object_alloc::Objects;
use signed_clause::IntSet;
use std::alloc::{AllocError, Global};

/// Whether this number goes with all values.
fn is_for_all(pairs: &[(i64, u32)], n: u32) -> bool
    ensures { result ≡ true → All (λ p. p.1 ≡ n) pairs.now }
{
    for p in pairs {
        if p.1 != n {
            return false;
        }
    }
    true
}

/// The number that goes with the first value.
fn first_number(pairs: &[(i64, u32)]) -> Option<u32>
    ensures { IfSome result (λ n. IsFirst n pairs.now) }
{
    match pairs {
        [] => None,
        [p, ..] => Some(p.1),
    }
}

/// The number that goes with all values, if it is one.
pub(crate) fn common_number(pairs: &[(i64, u32)]) -> Option<u32>
    ensures first { IfSome result (λ n. IsFirst n pairs.now) }
    ensures all { IfSome result (λ n. All (λ p. p.1 ≡ n) pairs.now) }
{
    let n = first_number(pairs)?;
    if is_for_all(pairs, n) {
        return Some(n);
    }
    None
}

/// Whether the boxes of all items' variables have these ends.
fn are_alike(boxes: &[IntSet], ends: (i64, i64), items: &[(i64, u32)]) -> bool
    requires exist { All (λ t. t.1 < length boxes.now) items.now }
    ensures { result ≡ true → AreAlike boxes.now ends items.now }
{
    for t in items {
        if ends_at(boxes, t.1) != ends {
            return false;
        }
    }
    true
}

/// Whether two ends are the same.
fn are_same(ends: (i64, i64)) -> bool
    ensures { result ≡ true → ends.0 ≡ ends.1 }
{
    ends.0 == ends.1
}

/// A variable that has the value of each item's, if it is seen: they are all the same, or have the
/// same one value.
fn common_variable(boxes: &[IntSet], items: &[(i64, u32)]) -> Option<u32>
    requires exist { All (λ t. t.1 < length boxes.now) items.now }
    requires valid { All (λ d. IsValid d) boxes.now }
    ensures { IfSome result (λ y. IsCommon boxes.now items.now y) }
{
    if let Some(y) = common_number(items) {
        return Some(y);
    }
    let y = first_number(items)?;
    let ends = ends_at(boxes, y);
    if are_same(ends) && are_alike(boxes, ends, items) {
        return Some(y);
    }
    None
}

/// The variable of the item whose value `x` has: one that stands, or else a new one.
fn picked(maker: &mut Maker, x: u32, items: &[(i64, u32)]) -> Result<u32, AllocError>
    requires room { HasRoom maker.old }
    requires there { x < length maker.old.domains }
    requires exist { All (λ t. t.1 < length maker.old.domains) items.now }
    requires distinct { distinct_values items.now ≡ true }
    requires held { HoldsDomain maker.old x items.now }
    ensures picked { IfOk result (λ y. IsPicked maker.old maker.new x items.now y) }
    ensures adds { IfOk result (λ y. Defines maker.old maker.new) }
{
    if let Some(y) = common_variable(maker.domains(), items) {
        return Ok(y);
    }
    let y = maker.pick(x, items)?;
    Ok(y)
}

/// The value that chooses an object, with the cell of the object's attribute.
fn cell_item(objects: &Objects<'_>, k: u32, pair: (i64, u32)) -> (i64, u32)
    ensures { result ≡ (pair.0, first_object (own_cells objects.now (Some pair.1) k)) }
{
    (pair.0, first(objects.own_cells(Some(pair.1), k)))
}

/// For each value the cell of attribute `k` of the object that goes with it.
fn cell_items(
    alloc: Global,
    objects: &Objects<'_>,
    k: u32,
    pairs: &[(i64, u32)],
) -> Result<Vec<(i64, u32)>, AllocError>
    ensures { IfOk result (λ items. items.items ≡ cell_items objects.now k pairs.now) }
{
    let mut items = Vec::new(alloc);
    for p in pairs {
        items.push(cell_item(objects, k, *p))?;
    }
    Ok(items)
}

/// The variable that is the cell of attribute `k`, of this shape, of the object that the pairs give
/// for the value of `x`.
pub(crate) fn chosen_cell(
    maker: &mut Maker,
    objects: &Objects<'_>,
    x: u32,
    pairs: &[(i64, u32)],
    k: u32,
    shape: Resolved,
) -> Result<u32, AllocError>
    requires there { x < length maker.old.domains }
    requires map { IsMap maker.old.domains (HaveShape objects.now k shape) x pairs.now }
    requires domain { HasDomain objects.now shape }
    requires cells { HasCells objects.now maker.old }
    ensures cell { IfOk result (λ y. (values : ADomain) → domain_of objects.now shape ≡ Some values
        → IsChosenCell objects.now maker.new x pairs.now k values y) }
    ensures adds { IfOk result (λ y. Defines maker.old maker.new) }
{
    let _count = objects.count();
    maker.ask(1)?;
    let items = cell_items(maker.alloc(), objects, k, pairs)?;
    let y = picked(maker, x, &items)?;
    Ok(y)
}
