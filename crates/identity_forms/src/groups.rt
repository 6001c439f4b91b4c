//! The values of a map, by the objects that they give.
ghost use Rattle.std.specs.Prelude.{◌≡◌, ◌<◌, ◌++◌, ◌∷◌, [], ℕ, ℤ, Some, cond, nat_eq, slice_get, IfOk, OnOk};
ghost use Rattle.std.specs.List.{list_any};
ghost use Rattle.std.specs.Ordering.{int_eq};
ghost use Rattle.indexmap.specs.IndexMap.{keys, index_map_len};
ghost use Rattle.signed_clause.specs.Ranges.{has};
ghost use Rattle.identity_forms.specs.Choices.{values_where, group, AreGroups};

use crate::sets::value_set;
use expr_forms::Choice;
use indexmap::IndexMap;
use signed_clause::IntSet;
use std::alloc::{AllocError, Global};

/// Values, by the objects that they give.
pub(crate) type Groups = IndexMap<u32, Vec<i64>>;

/// Takes the values of an object out.
fn take_out(alloc: Global, groups: &mut Groups, object: u32) -> Vec<i64>
    ensures taken { result.items ≡ group groups.old.entries object }
    ensures left { (n : ℕ) → group groups.new.entries n
        ≡ cond (nat_eq object n) [] (group groups.old.entries n) }
{
    match groups.swap_remove(&object) {
        Some(values) => values,
        None => Vec::new(alloc),
    }
}

/// Adds a value to those of an object.
fn add(alloc: Global, groups: &mut Groups, object: u32, value: i64) -> Result<(), AllocError>
    ensures { OnOk result ((n : ℕ) → group groups.new.entries n
        ≡ group groups.old.entries n ++ cond (nat_eq object n) (value ∷ []) []) }
{
    let mut values = take_out(alloc, groups, object);
    values.push(value)?;
    groups.insert(object, values)?;
    Ok(())
}

/// The values of a map, by their objects.
fn grouped(alloc: Global, map: &[(i64, u32)]) -> Result<Groups, AllocError>
    ensures { IfOk result (λ gs. (n : ℕ)
        → group gs.entries n ≡ values_where (λ m. nat_eq m n) map.now) }
{
    let mut groups = IndexMap::new(alloc);
    for pair in map {
        add(alloc, &mut groups, pair.1, pair.0)?;
    }
    Ok(groups)
}

/// The values by which a choice gives each object, where it is made by a map.
pub(crate) fn groups_of(alloc: Global, c: &Choice) -> Result<Groups, AllocError>
    ensures { IfOk result (λ gs. AreGroups c.now gs.entries) }
{
    match c {
        Choice::Fixed(_) => Ok(IndexMap::new(alloc)),
        Choice::Cell(_) => Ok(IndexMap::new(alloc)),
        Choice::Mapped(_, map) => {
            let groups = grouped(alloc, map)?;
            Ok(groups)
        }
    }
}

/// The set of the values of an object.
pub(crate) fn values_of(alloc: Global, groups: &Groups, object: u32) -> Result<IntSet, AllocError>
    ensures { IfOk result (λ s. (v : ℤ) → has s v
        ≡ list_any (λ w. int_eq w v) (group groups.now.entries object)) }
{
    match groups.get(&object) {
        Some(values) => {
            let set = value_set(alloc, values)?;
            Ok(set)
        }
        None => Ok(IntSet::empty(alloc)),
    }
}

/// The object whose values stand there.
fn object_at(groups: &Groups, i: usize) -> u32
    requires { i < index_map_len groups.now }
    ensures { slice_get (keys groups.now) i ≡ Some result }
{
    match groups.get_index(i) {
        Some((object, _)) => *object,
        None => unreachable!(),
    }
}

/// The objects that have values.
pub(crate) fn objects_of(alloc: Global, groups: &Groups) -> Result<Vec<u32>, AllocError>
    ensures { IfOk result (λ objects. objects.items ≡ keys groups.now) }
{
    let mut objects = Vec::new(alloc);
    for i in 0..groups.len() {
        objects.push(object_at(groups, i))?;
    }
    Ok(objects)
}
