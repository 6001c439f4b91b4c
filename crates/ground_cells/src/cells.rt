//! One box for each cell.
//!
//! The box of an extent is made once and copied for each cell of a reference to its class.
ghost use Rattle.std.specs.Prelude.{◌≡◌, ◌↔◌, ◌<◌, ℤ, List, length, IfOk, IfSome, OnOk};
ghost use Rattle.class_table.specs.Outline.{Outline};
ghost use Rattle.object_alloc.specs.Cells.{IsDomainOf};
ghost use Rattle.object_alloc.specs.Configurations.{IsConfiguration};
ghost use Rattle.object_alloc.specs.declared.object.Domain.TheVariants.{Extent};
ghost use Rattle.ground_form.specs.Solutions.{IsPoint};
ghost use Rattle.ground_cells.specs.CellBoxes.{domain_box, cell_boxes};
ghost use Rattle.ground_cells.specs.ExtentBoxes.{AreExtentBoxes};

use crate::numbers::number_set;
use object_alloc::{Domain, Objects};
use signed_clause::IntSet;
use std::alloc::{AllocError, Global};

/// The box of a class's extent.
#[derive(Drop)]
struct ExtentBox {
    class: u32,
    set: IntSet,
}

/// The numbers of the objects of a class's extent.
fn extent_set(alloc: Global, objects: &Objects<'_>, class: u32) -> Result<IntSet, AllocError>
    requires class { class < length objects.now.classes }
    ensures list { IfOk result (λ s. s ≡ domain_box objects.now (Extent class)) }
{
    let numbers = objects.extent(alloc, class)?;
    let set = number_set(alloc, numbers.items())?;
    Ok(set)
}

/// The box of this class's extent, if it is among these.
fn found(boxes: &[ExtentBox], class: u32) -> Option<&IntSet>
    ensures { (o : Outline) → AreExtentBoxes o boxes.now
        → IfSome result (λ s. s.now ≡ domain_box o (Extent class)) }
{
    for b in boxes {
        if b.class == class {
            return Some(&b.set);
        }
    }
    None
}

/// The box of a class's extent, which is kept for further calls.
fn extent_box(
    alloc: Global,
    objects: &Objects<'_>,
    kept: &mut Vec<ExtentBox>,
    class: u32,
) -> Result<IntSet, AllocError>
    requires class { class < length objects.now.classes }
    requires kept { AreExtentBoxes objects.now kept.old.items }
    ensures list { IfOk result (λ s. s ≡ domain_box objects.now (Extent class)) }
    ensures kept { OnOk result (AreExtentBoxes objects.now kept.new.items) }
{
    if let Some(set) = found(kept, class) {
        return set.copy();
    }
    let set = extent_set(alloc, objects, class)?;
    let copy = set.copy()?;
    kept.push(ExtentBox { class, set })?;
    Ok(copy)
}

/// The box of a cell with this domain.
fn domain_set(
    alloc: Global,
    objects: &Objects<'_>,
    kept: &mut Vec<ExtentBox>,
    domain: Domain,
) -> Result<IntSet, AllocError>
    requires domain { IsDomainOf (length objects.now.classes) domain }
    requires kept { AreExtentBoxes objects.now kept.old.items }
    ensures list { IfOk result (λ s. s ≡ domain_box objects.now domain) }
    ensures kept { OnOk result (AreExtentBoxes objects.now kept.new.items) }
{
    match domain {
        Domain::Span(low, high) => {
            if low <= high {
                Ok(IntSet::range(alloc, low, high))
            } else {
                Ok(IntSet::empty(alloc))
            }
        }
        Domain::Extent(class) => {
            let set = extent_box(alloc, objects, kept, class)?;
            Ok(set)
        }
    }
}

/// The box of each cell of a model, in order: of a number its bounds, of a reference the numbers of
/// the objects that it may refer to.
pub fn cell_boxes(alloc: Global, objects: &Objects<'_>) -> Result<Vec<IntSet>, AllocError>
    ensures boxes { IfOk result (λ boxes. boxes.items ≡ cell_boxes objects.now) }
{
    let mut kept = Vec::new(alloc);
    let mut boxes = Vec::new(alloc);
    for cell in objects.cells() {
        let set = domain_set(alloc, objects, &mut kept, cell.domain)?;
        boxes.push(set)?;
    }
    Ok(boxes)
}

/// The points of the cells' boxes are the configurations: a law, the call does nothing.
pub fn configurations_are_points(objects: &Objects<'_>)
    ensures points { (t : List ℤ)
        → IsPoint (cell_boxes objects.now) t ↔ IsConfiguration objects.now t }
{
    let _count = objects.count();
}
