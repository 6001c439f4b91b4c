//! Numbers by place: the objects that each attribute holds, and the cells of each attribute.
ghost use Rattle.std.specs.Prelude.{◌≡◌, ◌++◌, ◌∷◌, [], ◌<◌, ◌≤◌, ◌^◌, ℕ, Option, Bool, cond, length, IfOk, OnOk};
ghost use Rattle.model_limits.specs.Limits.{most_objects};
ghost use Rattle.object_alloc.specs.Groups.{numbers_from, is_at_place, is_part_of, is_cell_of};
ghost use Rattle.object_alloc.specs.Grouping.{group};

use crate::object::{Cell, Object};
use indexmap::IndexMap;
use std::alloc::{AllocError, Global};

/// An attribute of an object, or a variable of the top level, by its number.
#[derive(Clone, Copy, Debug, PartialEq, Eq, Hash)]
pub(crate) struct Place {
    pub owner: Option<u32>,
    pub attribute: u32,
}

/// Numbers, in order, by their places.
pub(crate) type Groups = IndexMap<Place, Vec<u32>>;

/// The numbers of a place.
pub(crate) fn group_of(groups: &Groups, place: Place) -> &[u32]
    ensures group { result.now ≡ group groups.now.entries place.owner place.attribute }
{
    match groups.get(&place) {
        Some(numbers) => numbers,
        None => &[],
    }
}

/// Takes the numbers of a place out.
fn take_out(alloc: Global, groups: &mut Groups, place: Place) -> Vec<u32>
    ensures taken { result.items ≡ group groups.old.entries place.owner place.attribute }
    ensures left { (owner : Option ℕ) → (k : ℕ) → group groups.new.entries owner k
        ≡ cond (is_at_place place.owner place.attribute owner k) [] (group groups.old.entries owner
        k) }
{
    match groups.swap_remove(&place) {
        Some(numbers) => numbers,
        None => Vec::new(alloc),
    }
}

/// Adds a number to a place.
fn add(alloc: Global, groups: &mut Groups, place: Place, n: u32) -> Result<(), AllocError>
    ensures group { OnOk result ((owner : Option ℕ) → (k : ℕ) → group groups.new.entries owner k
        ≡ group groups.old.entries owner k ++ cond (is_at_place owner k place.owner place.attribute)
        (n ∷ []) []) }
{
    let mut numbers = take_out(alloc, groups, place);
    numbers.push(n)?;
    groups.insert(place, numbers)?;
    Ok(())
}

/// The objects that each attribute of an object, and each variable of the top level, holds.
pub(crate) fn parts_of_objects(alloc: Global, objects: &[Object]) -> Result<Groups, AllocError>
    requires few { length objects.now ≤ most_objects }
    ensures groups { IfOk result (λ groups. (owner : Option ℕ) → (k : ℕ)
        → group groups.entries owner k ≡ numbers_from (is_part_of owner k) 0 objects.now) }
{
    let mut groups = IndexMap::new(alloc);
    for n in 0..objects.len() {
        let object = objects[n];
        let place = Place {
            owner: object.owner,
            attribute: object.attribute,
        };
        add(alloc, &mut groups, place, n as u32)?;
    }
    Ok(groups)
}

/// The cells of each attribute of an object, and of each variable of the top level.
pub(crate) fn cells_by_place(alloc: Global, cells: &[Cell]) -> Result<Groups, AllocError>
    requires few { length cells.now < 2 ^ 32 }
    ensures groups { IfOk result (λ groups. (owner : Option ℕ) → (k : ℕ)
        → group groups.entries owner k ≡ numbers_from (is_cell_of owner k) 0 cells.now) }
{
    let mut groups = IndexMap::new(alloc);
    for n in 0..cells.len() {
        let cell = cells[n];
        let place = Place {
            owner: cell.owner,
            attribute: cell.attribute,
        };
        add(alloc, &mut groups, place, n as u32)?;
    }
    Ok(groups)
}
