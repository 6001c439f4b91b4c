//! Objects by where they are held.
ghost use Rattle.std.specs.Prelude.{◌≡◌, ◌<◌, ◌≤◌, IsTrue, false, length, slice_index_or};
ghost use Rattle.model_limits.specs.Limits.{most_objects};
ghost use Rattle.object_alloc.specs.declared.object.Object.{Object as AnObject};
ghost use Rattle.object_alloc.specs.Parts.{IsPart, HasPart};

use crate::object::Object;
use indexmap::IndexMap;
use std::alloc::{AllocError, Global};

/// Where an object is held: an element of an attribute of its owner, or of a variable of the top
/// level.
#[derive(Clone, Copy, Debug, PartialEq, Eq, Hash)]
pub(crate) struct Held {
    pub owner: Option<u32>,
    pub attribute: u32,
    pub element: u32,
}

/// The numbers of objects, by their spots.
pub(crate) type Spots = IndexMap<Held, u32>;

/// The spots of these objects.
pub(crate) fn spots_of(alloc: Global, objects: &[Object]) -> Result<Spots, AllocError>
    requires few { length objects.now ≤ most_objects }
{
    let mut spots = IndexMap::new(alloc);
    for n in 0..objects.len() {
        let object = objects[n];
        let spot = Held {
            owner: object.owner,
            attribute: object.attribute,
            element: object.element,
        };
        spots.insert(spot, n as u32)?;
    }
    Ok(spots)
}

/// Whether the object of this number has this spot.
fn is_at(objects: &[Object], n: u32, spot: Held) -> bool
    ensures there { IsTrue result → n < length objects.now }
    ensures part { IsTrue result → (d : AnObject) → IsPart spot.owner spot.attribute spot.element
        (slice_index_or objects.now n d) }
    ensures other { result ≡ false → n < length objects.now → (d : AnObject)
        → IsPart spot.owner spot.attribute spot.element (slice_index_or objects.now n d) → ⊥ }
{
    if n as usize >= objects.len() {
        return false;
    }
    let object = objects[n as usize];
    object.owner == spot.owner
        && object.attribute == spot.attribute
        && object.element == spot.element
}

/// The number of the object that has this spot. The look-up gives it at once; it is only tested
/// here.
pub(crate) fn part_at(objects: &[Object], spots: &Spots, spot: Held) -> u32
    requires part { HasPart objects.now spot.owner spot.attribute spot.element }
    requires few { length objects.now ≤ most_objects }
    ensures there { result < length objects.now }
    ensures part { (d : AnObject) → IsPart spot.owner spot.attribute spot.element
        (slice_index_or objects.now result d) }
{
    if let Some(n) = spots.get(&spot).copied() {
        if is_at(objects, n, spot) {
            return n;
        }
    }
    search(objects, spot)
}

/// The number of the object that has this spot, by a look at each.
fn search(objects: &[Object], spot: Held) -> u32
    requires part { HasPart objects.now spot.owner spot.attribute spot.element }
    requires few { length objects.now ≤ most_objects }
    ensures there { result < length objects.now }
    ensures part { (d : AnObject) → IsPart spot.owner spot.attribute spot.element
        (slice_index_or objects.now result d) }
{
    for n in 0..objects.len() {
        if is_at(objects, n as u32, spot) {
            return n as u32;
        }
    }
    unreachable!()
}
