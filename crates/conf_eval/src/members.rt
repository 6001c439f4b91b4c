//! Lists of objects that are looked at where they are kept, member by member.
//!
//! A list has slots, numbered from 0, each of which holds a member or none.
ghost use Rattle.std.specs.Prelude.{◌≡◌, None, length, nat_eq, slice_index_or};
ghost use Rattle.std.specs.List.{list_any};
ghost use Rattle.object_alloc.specs.Cells.{cells as all_cells};
ghost use Rattle.object_alloc.specs.Walk.{objects as all_objects};
ghost use Rattle.object_alloc.specs.Members.{member_at};
ghost use Rattle.conf_eval.specs.Listing.{extent_slots, slots, members};
ghost use Rattle.conf_eval.specs.Meaning.{attribute_value, objects_of};

use crate::scene::Scene;
use class_table::Resolved;
use object_alloc::Objects;

/// A list of objects.
#[derive(Clone, Copy)]
pub(crate) enum Members<'a> {
    /// The extent of a class.
    Extent(u32),
    /// These objects.
    Parts(&'a [u32]),
    /// The objects of those of these cells that are in.
    Chosen(&'a [u32]),
    Nobody,
}

/// The objects that an attribute of an object, or a variable of the top level, lists.
#[tactic(auto, using(crate::proofs::ListingLaws::parts_held, crate::proofs::ListingLaws::chosen_held))]
pub(crate) fn listed<'a>(
    scene: &Scene<'a, '_>,
    owner: Option<u32>,
    k: u32,
    shape: Resolved,
) -> Members<'a>
    ensures members { members scene.now.objects.now scene.now.values.now result
        ≡ objects_of (attribute_value scene.now.objects.now scene.now.values.now owner k shape) }
{
    match shape {
        Resolved::Many(_, _) => Members::Parts(scene.objects.parts(owner, k)),
        Resolved::RefSet(_, _) => Members::Chosen(scene.objects.own_cells(owner, k)),
        Resolved::Span(_, _)
        | Resolved::Truth
        | Resolved::Choice(_)
        | Resolved::One(_)
        | Resolved::Ref(_) => Members::Nobody,
    }
}

/// How many slots a list has.
#[tactic(auto, using(crate::proofs::ListingLaws::extent_count))]
pub(crate) fn slot_count(scene: &Scene<'_, '_>, list: &Members<'_>) -> usize
    ensures count { result ≡ length (slots scene.now.objects.now scene.now.values.now list.now) }
{
    match list {
        Members::Extent(_) => scene.objects.count() as usize,
        Members::Parts(numbers) => numbers.len(),
        Members::Chosen(cells) => cells.len(),
        Members::Nobody => 0,
    }
}

/// The object of a reference set's cell, where it is in.
pub(crate) fn chosen_at(scene: &Scene<'_, '_>, cell: u32) -> Option<u32>
    ensures chosen { result
        ≡ member_at (all_cells scene.now.objects.now) scene.now.values.now cell }
{
    let value = scene.values.get(cell as usize).copied().unwrap_or(0);
    if value != 1 {
        return None;
    }
    let cells = scene.objects.cells();
    cells.get(cell as usize)?.element
}

/// The object of this number, where it is of the extent of a class.
fn extent_slot(scene: &Scene<'_, '_>, class: u32, i: usize) -> Option<u32>
    ensures slot { result ≡ slice_index_or (extent_slots scene.now.objects.now.classes class 0
        (all_objects scene.now.objects.now)) i None }
{
    if i >= scene.objects.count() as usize {
        return None;
    }
    let object = i as u32;
    if scene.objects.is_of(object, class) {
        Some(object)
    } else {
        None
    }
}

/// What a slot of a list holds; None behind the last one.
#[tactic(auto, using(crate::proofs::ListingLaws::some_slot, crate::proofs::ListingLaws::mapped_none, crate::proofs::ListingLaws::mapped_some))]
pub(crate) fn slot(scene: &Scene<'_, '_>, list: &Members<'_>, i: usize) -> Option<u32>
    ensures slot { result ≡ slice_index_or (slots scene.now.objects.now scene.now.values.now
        list.now) i None }
{
    match list {
        Members::Extent(class) => extent_slot(scene, *class, i),
        Members::Parts(numbers) => numbers.get(i).copied(),
        Members::Chosen(cells) => match cells.get(i) {
            Some(cell) => chosen_at(scene, *cell),
            None => None,
        },
        Members::Nobody => None,
    }
}

/// Whether an object is a member.
pub(crate) fn has_member(scene: &Scene<'_, '_>, list: &Members<'_>, object: u32) -> bool
    ensures member { result ≡ list_any (nat_eq object) (members scene.now.objects.now
        scene.now.values.now list.now) }
{
    for i in 0..slot_count(scene, list) {
        if slot(scene, list, i) == Some(object) {
            return true;
        }
    }
    false
}
