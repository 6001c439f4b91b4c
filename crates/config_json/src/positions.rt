//! The positions of objects and leaves in a JSON value: keys for names, elements for indexes.
ghost use Rattle.std.specs.Prelude.{◌≡◌, ◌<◌, None, Some, length, slice_get, slice_index_or, option_and_then, IfOk, IfSome};
ghost use Rattle.class_table.specs.Tables.{IsShapeOf};
ghost use Rattle.object_alloc.specs.Variables.{variables_of};
ghost use Rattle.object_alloc.specs.Walk.{objects as all_objects};
ghost use Rattle.serde_json.specs.Find.{get};
ghost use Rattle.serde_json.specs.View.{view};
ghost use Rattle.config_json.specs.Former.{element_of, step_to, under_name, owner_position, object_position};
ghost use Rattle.config_json.specs.Keys.{text_of};
ghost use Rattle.config_json.specs.Positions.{seen, ArePositions};

use class_table::{Attribute, Resolved};
use conf_syntax::Name;
use object_alloc::{Object, Objects};
use serde_json::Value;
use std::alloc::{AllocError, Global};

/// An attribute of an object, or a variable of the top level.
pub(crate) fn variable_of<'t>(objects: &Objects<'t>, owner: Option<u32>, k: u32) -> Attribute<'t>
    requires owner { IfSome owner (λ n. n < length (all_objects objects.now)) }
    requires attribute { k < length (variables_of objects.now owner) }
    ensures variable { slice_get (variables_of objects.now owner) k
        ≡ Some (record { name = result.name.now; shape = result.shape }) }
    ensures exists { IsShapeOf (length objects.now.classes) (length objects.now.enumerations)
        result.shape }
{
    let table = objects.table();
    match owner {
        Some(n) => table.attribute(objects.class(n), k),
        None => table.root(k),
    }
}

/// What stands under a name.
pub(crate) fn named<'v>(
    alloc: Global,
    value: &'v Value,
    name: &Name,
) -> Result<Option<&'v Value>, AllocError>
    ensures value { IfOk result (λ found. seen found ≡ get (text_of name.now) (view value.now)) }
{
    let key = String::from_utf8_lossy(alloc, name.as_bytes())?;
    Ok(value.get(&key))
}

/// The element of an array; where the shape is no array's, the value itself.
fn element_of<'v>(value: &'v Value, shape: Resolved, element: u32) -> Option<&'v Value>
    ensures value { seen result ≡ element_of shape element (view value.now) }
{
    match shape {
        Resolved::Many(_, _) => value.get(element as usize),
        _ => Some(value),
    }
}

/// Where the owner of an object or of a leaf stands.
pub(crate) fn owner_position<'v>(
    former: &'v Value,
    positions: &[Option<&'v Value>],
    owner: Option<u32>,
) -> Option<&'v Value>
    requires owner { IfSome owner (λ n. n < length positions.now) }
    ensures position { seen result
        ≡ owner_position (λ n. seen (slice_index_or positions.now n None)) (view former.now) owner }
{
    match owner {
        Some(n) => positions[n as usize],
        None => Some(former),
    }
}

/// An object, by its number.
fn object_of(objects: &Objects<'_>, n: u32) -> Object
    requires object { n < length (all_objects objects.now) }
    ensures object { slice_get (all_objects objects.now) n ≡ Some result }
{
    objects.objects()[n as usize]
}

/// Where an object stands, from where its owner stands.
fn step_to<'v>(
    alloc: Global,
    objects: &Objects<'_>,
    object: Object,
    owner: &'v Value,
) -> Result<Option<&'v Value>, AllocError>
    requires owner { IfSome object.owner (λ n. n < length (all_objects objects.now)) }
    requires attribute { object.attribute < length (variables_of objects.now object.owner) }
    ensures position { IfOk result (λ found. seen found
        ≡ step_to (variables_of objects.now object.owner) object (view owner.now)) }
{
    let variable = variable_of(objects, object.owner, object.attribute);
    match named(alloc, owner, variable.name)? {
        Some(under) => Ok(element_of(under, variable.shape, object.element)),
        None => Ok(None),
    }
}

/// The position of an object, from the positions of those before it: an object is held by one with
/// a lesser number.
fn position_of<'v>(
    alloc: Global,
    objects: &Objects<'_>,
    former: &'v Value,
    positions: &[Option<&'v Value>],
    n: u32,
) -> Result<Option<&'v Value>, AllocError>
    requires object { n < length (all_objects objects.now) }
    requires positions { ArePositions objects.now (view former.now) n positions.now }
    ensures position { IfOk result (λ found. seen found
        ≡ object_position objects.now (view former.now) n) }
{
    let object = object_of(objects, n);
    match owner_position(former, positions, object.owner) {
        Some(owner) => {
            let found = step_to(alloc, objects, object, owner)?;
            Ok(found)
        }
        None => Ok(None),
    }
}

/// The positions of all objects.
pub(crate) fn positions_of<'v>(
    alloc: Global,
    objects: &Objects<'_>,
    former: &'v Value,
) -> Result<Vec<Option<&'v Value>>, AllocError>
    ensures positions { IfOk result (λ positions. ArePositions objects.now (view former.now)
        (length (all_objects objects.now)) positions.items) }
{
    let mut positions = Vec::new(alloc);
    for n in 0..objects.count() {
        let position = position_of(alloc, objects, former, &positions, n)?;
        positions.push(position)?;
    }
    Ok(positions)
}
