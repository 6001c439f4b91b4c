//! The former values of leaves: hints for their cells, and the first leaf that has none.
ghost use Rattle.std.specs.Prelude.{◌≡◌, ◌++◌, ◌<◌, ℕ, List, Bool, None, Some, false, length, map, replicate, filter_map, slice_get, slice_index_or, option_map, option_and_then, IfOk, OnOk, IfSome};
ghost use Rattle.std.specs.Option.{option_map_or};
ghost use Rattle.class_table.specs.Sound.{IsSound};
ghost use Rattle.object_alloc.specs.Cells.{cells as all_cells, leaf_cells};
ghost use Rattle.object_alloc.specs.Hints.{AreHints};
ghost use Rattle.object_alloc.specs.Leaves.{IsHeldLeaf};
ghost use Rattle.object_alloc.specs.Paths.{path, owner_path};
ghost use Rattle.object_alloc.specs.Walk.{objects as all_objects};
ghost use Rattle.serde_json.specs.View.{view};
ghost use Rattle.config_json.specs.Former.{former, hints, leaf_path, leaf_position, missing, one, truth_number};
ghost use Rattle.config_json.specs.Marked.{element_at, marked, member_extent, numbers_of};
ghost use Rattle.config_json.specs.Positions.{seen, ArePositions};
ghost use Rattle.config_json.specs.Reading.{json_of};
ghost use Rattle.config_json.specs.Whole.{IsWhole};

use crate::former::ConfigText;
use crate::positions::{named, owner_position, positions_of, variable_of};
use crate::values::{FormerValue, value_in};
use class_table::ClassTable;
use conf_syntax::PathText;
use object_alloc::{Hints, Leaf, Objects};
use serde_json::Value;
use std::alloc::{AllocError, Global};

/// The position of a leaf.
fn leaf_position<'v>(
    alloc: Global,
    objects: &Objects<'_>,
    json: &'v Value,
    positions: &[Option<&'v Value>],
    leaf: Leaf,
) -> Result<Option<&'v Value>, AllocError>
    requires leaf { IsHeldLeaf objects.now leaf }
    requires positions { ArePositions objects.now (view json.now) (length (all_objects objects.now))
        positions.now }
    ensures position { IfOk result (λ found. seen found
        ≡ leaf_position objects.now (view json.now) leaf) }
{
    let Some(owner) = owner_position(json, positions, leaf.owner) else {
        return Ok(None);
    };
    let variable = variable_of(objects, leaf.owner, leaf.attribute);
    let found = named(alloc, owner, variable.name)?;
    Ok(found)
}

/// The former value of a leaf.
fn former_of(
    alloc: Global,
    objects: &Objects<'_>,
    json: &Value,
    positions: &[Option<&Value>],
    leaf: Leaf,
) -> Result<Option<FormerValue>, AllocError>
    requires sound { IsSound objects.now }
    requires leaf { IsHeldLeaf objects.now leaf }
    requires positions { ArePositions objects.now (view json.now) (length (all_objects objects.now))
        positions.now }
    ensures value { IfOk result (λ found. option_map
        (numbers_of (member_extent objects.now leaf.shape)) found
        ≡ former objects.now (view json.now) leaf) }
{
    match leaf_position(alloc, objects, json, positions, leaf)? {
        Some(value) => {
            let found = value_in(alloc, objects, leaf.shape, value)?;
            Ok(found)
        }
        None => Ok(None),
    }
}

/// The object that a cell stands for, by the cell's number, where it is one of a reference set.
pub(crate) fn element_at(objects: &Objects<'_>, i: u32) -> Option<u32>
    ensures element { result ≡ element_at (all_cells objects.now) i }
{
    match objects.cells().get(i as usize) {
        Some(cell) => cell.element,
        None => None,
    }
}

/// Whether an object is marked, as the value of its cell.
fn mark_of(marks: &[bool], n: u32) -> i64
    ensures value { result ≡ truth_number (slice_index_or marks.now n false) }
{
    match marks.get(n as usize) {
        Some(true) => 1,
        _ => 0,
    }
}

/// Adds the hints for the cells of a reference set.
fn push_members(
    hints: &mut Vec<Option<i64>>,
    objects: &Objects<'_>,
    own: &[u32],
    marks: &[bool],
) -> Result<(), AllocError>
    ensures hints { OnOk result (hints.new.items ≡ hints.old.items
        ++ map Some (marked (filter_map (element_at (all_cells objects.now)) own.now) marks.now)) }
{
    for i in own {
        if let Some(n) = element_at(objects, *i) {
            hints.push(Some(mark_of(marks, n)))?;
        }
    }
    Ok(())
}

/// Adds no hint for so many cells.
fn push_none(hints: &mut Vec<Option<i64>>, count: usize) -> Result<(), AllocError>
    ensures hints { OnOk result (hints.new.items ≡ hints.old.items ++ replicate count None) }
{
    for _cell in 0..count {
        hints.push(None)?;
    }
    Ok(())
}

/// Adds the hints for the cells of a leaf with this former value.
fn push_hints(
    hints: &mut Vec<Option<i64>>,
    objects: &Objects<'_>,
    leaf: Leaf,
    found: Option<FormerValue>,
) -> Result<(), AllocError>
    requires sound { IsSound objects.now }
    requires leaf { IsHeldLeaf objects.now leaf }
    ensures hints { OnOk result (hints.new.items ≡ hints.old.items ++ option_map_or (map Some)
        (option_map (numbers_of (member_extent objects.now leaf.shape)) found)
        (replicate (length (leaf_cells objects.now leaf)) None)) }
{
    let own = objects.own_cells(leaf.owner, leaf.attribute);
    match found {
        Some(FormerValue::One(value)) => {
            hints.push(Some(value))?;
        }
        Some(FormerValue::Members(marks)) => push_members(hints, objects, own, &marks)?,
        None => push_none(hints, own.len())?,
    }
    Ok(())
}

/// For each cell the former value of its leaf: the cells of one leaf have all a value, or none of
/// them has one; each value lies in its cell's domain, and a reference set has its size or no
/// value. Where no leaf lacks one they are a configuration.
pub fn hints_of(
    alloc: Global,
    former: &ConfigText,
    table: &ClassTable,
    objects: &Objects<'_>,
) -> Result<Hints, AllocError>
    requires same { objects.now ≡ table.now }
    ensures hints { IfOk result (λ found. found ≡ hints table.now (json_of former.now)) }
    ensures form { IfOk result (λ found. AreHints table.now found) }
    ensures whole { IfOk result (λ found. missing table.now (json_of former.now) ≡ None
        → IsWhole table.now found) }
{
    let _count = objects.count();
    let json = &former.value;
    let positions = positions_of(alloc, objects, json)?;
    let mut hints = Vec::new(alloc);
    for leaf in objects.leaves() {
        let found = former_of(alloc, objects, json, &positions, *leaf)?;
        push_hints(&mut hints, objects, *leaf, found)?;
    }
    Ok(Hints::of(hints))
}

/// The path of an object and a dot; nothing for the top level.
fn owner_text(
    alloc: Global,
    objects: &Objects<'_>,
    owner: Option<u32>,
) -> Result<Vec<u8>, AllocError>
    requires owner { IfSome owner (λ n. n < length (all_objects objects.now)) }
    ensures text { IfOk result (λ text. text.items ≡ owner_path (path objects.now) owner) }
{
    let mut text = Vec::new(alloc);
    if let Some(n) = owner {
        let path = objects.path_of(alloc, n)?;
        text.extend_from_slice(path.as_bytes())?;
        text.push(b'.')?;
    }
    Ok(text)
}

/// The path of a leaf.
fn leaf_text(alloc: Global, objects: &Objects<'_>, leaf: Leaf) -> Result<PathText, AllocError>
    requires leaf { IsHeldLeaf objects.now leaf }
    ensures path { IfOk result (λ text. text ≡ leaf_path objects.now leaf) }
{
    let mut text = owner_text(alloc, objects, leaf.owner)?;
    let variable = variable_of(objects, leaf.owner, leaf.attribute);
    text.extend_from_slice(variable.name.as_bytes())?;
    PathText::of(alloc, &text)
}

/// The path of the first leaf, in the order of the walk, that has no former value; None where each
/// leaf has one. A leaf that has no cell counts.
pub fn missing(
    alloc: Global,
    former: &ConfigText,
    table: &ClassTable,
    objects: &Objects<'_>,
) -> Result<Option<PathText>, AllocError>
    requires same { objects.now ≡ table.now }
    ensures path { IfOk result (λ path. path ≡ missing table.now (json_of former.now)) }
{
    let _count = objects.count();
    let json = &former.value;
    let positions = positions_of(alloc, objects, json)?;
    for leaf in objects.leaves() {
        let found = former_of(alloc, objects, json, &positions, *leaf)?;
        if found.is_none() {
            let path = leaf_text(alloc, objects, *leaf)?;
            return Ok(Some(path));
        }
    }
    Ok(None)
}
