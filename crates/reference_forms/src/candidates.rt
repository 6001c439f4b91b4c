//! The objects that a variable may choose, each with the value that chooses it.
ghost use Rattle.std.specs.Prelude.{◌≡◌, ◌++◌, ◌∷◌, [], ◌<◌, length, IfOk, OnOk};
ghost use Rattle.object_alloc.specs.Cells.{extent};
ghost use Rattle.signed_clause.specs.Clauses.{box_of};
ghost use Rattle.reference_forms.specs.Candidates.{held};

use form_build::Maker;
use object_alloc::Objects;
use signed_clause::IntSet;
use std::alloc::{AllocError, Global};

/// Adds the object with its number, where that is in the set.
fn push_held(set: &IntSet, object: u32, map: &mut Vec<(i64, u32)>) -> Result<(), AllocError>
    ensures { OnOk result (map.new.items ≡ map.old.items ++ held set.now (object ∷ [])) }
{
    let number = i64::from(object);
    if set.contains(number) {
        map.push((number, object))?;
    }
    Ok(())
}

/// Those of these objects whose number is in the set, each with its number.
fn held_of(alloc: Global, set: &IntSet, objects: &[u32]) -> Result<Vec<(i64, u32)>, AllocError>
    ensures { IfOk result (λ map. map.items ≡ held set.now objects.now) }
{
    let mut map = Vec::new(alloc);
    for object in objects {
        push_held(set, *object, &mut map)?;
    }
    Ok(map)
}

/// The same of a variable's box.
fn held_at(
    alloc: Global,
    boxes: &[IntSet],
    x: u32,
    objects: &[u32],
) -> Result<Vec<(i64, u32)>, AllocError>
    requires { x < length boxes.now }
    ensures { IfOk result (λ map. map.items ≡ held (box_of boxes.now x) objects.now) }
{
    held_of(alloc, &boxes[x as usize], objects)
}

/// The objects of a class's extent that the box of the variable has, ascending, each with its
/// number.
pub fn candidates_of(
    maker: &Maker,
    objects: &Objects<'_>,
    class: u32,
    x: u32,
) -> Result<Vec<(i64, u32)>, AllocError>
    requires class { class < length objects.now.classes }
    requires exists { x < length maker.now.domains }
    ensures list { IfOk result (λ map. map.items
        ≡ held (box_of maker.now.domains x) (extent objects.now class)) }
{
    let all = objects.extent(maker.alloc(), class)?;
    let map = held_at(maker.alloc(), maker.domains(), x, all.items())?;
    Ok(map)
}
