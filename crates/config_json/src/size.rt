//! How long the text of a configuration may be.
//!
//! A text is made as a tree and then as bytes, so it stands in memory more than once. Where names
//! and paths are so long that it would have more than half a gigabyte, memory is said to lack
//! before it does. No former text may have a thirtieth of that.
ghost use Rattle.std.specs.Prelude.{◌≡◌, ◌+◌, ◌<◌, length, IfSome, IfOk, OnErr};
ghost use Rattle.object_alloc.specs.Variables.{variables_of};
ghost use Rattle.object_alloc.specs.Walk.{objects as all_objects};

use crate::config::{member_at, only_value};
use crate::positions::variable_of;
use class_table::Resolved;
use object_alloc::Objects;
use std::alloc::{AllocError, Global};

/// How many bytes of names and paths a text may have.
const MOST_BYTES: usize = 1 << 29;

/// What is counted for each attribute beside its name and the names or paths in its value.
const BYTES_BESIDE: usize = 16;

/// What is left of the room behind so many bytes.
fn behind(room: usize, bytes: usize) -> Result<usize, AllocError>
    ensures left { IfOk result (λ left. left + bytes ≡ room) }
    ensures refused { OnErr result (room < bytes) }
{
    room.checked_sub(bytes).ok_or(AllocError)
}

/// What is left of the room behind the name of a value of an enumeration.
fn behind_value(objects: &Objects<'_>, e: u32, k: u64, room: usize) -> Result<usize, AllocError>
    requires enumeration { e < length objects.now.enumerations }
{
    let table = objects.table();
    if k >= table.value_count(e) as u64 {
        return Ok(room);
    }
    behind(room, table.value_name(e, k as u32).as_bytes().len())
}

/// What is left of the room behind the path of an object.
fn behind_path(
    alloc: Global,
    objects: &Objects<'_>,
    n: u64,
    room: usize,
) -> Result<usize, AllocError> {
    if n >= objects.count() as u64 {
        return Ok(room);
    }
    let path = objects.path_of(alloc, n as u32)?;
    behind(room, path.as_bytes().len())
}

/// What is left of the room behind the paths of the members of a reference set with these cells.
fn behind_members(
    alloc: Global,
    objects: &Objects<'_>,
    values: &[i64],
    own: &[u32],
    room: usize,
) -> Result<usize, AllocError> {
    let mut left = room;
    for i in own {
        if let Some(n) = member_at(objects, values, *i) {
            left = behind_path(alloc, objects, n as u64, left)?;
        }
    }
    Ok(left)
}

/// What is left of the room behind an attribute of an object, or a variable of the top level, but
/// for the objects that it holds.
fn behind_attribute(
    alloc: Global,
    objects: &Objects<'_>,
    values: &[i64],
    owner: Option<u32>,
    k: u32,
    room: usize,
) -> Result<usize, AllocError>
    requires owner { IfSome owner (λ n. n < length (all_objects objects.now)) }
    requires attribute { k < length (variables_of objects.now owner) }
{
    let variable = variable_of(objects, owner, k);
    let left = behind(room, BYTES_BESIDE)?;
    let left = behind(left, variable.name.as_bytes().len())?;
    let own = objects.own_cells(owner, k);
    match variable.shape {
        Resolved::Choice(e) => {
            behind_value(objects, e, only_value(values, own).unsigned_abs(), left)
        }
        Resolved::Ref(_) => {
            behind_path(alloc, objects, only_value(values, own).unsigned_abs(), left)
        }
        Resolved::RefSet(_, _) => behind_members(alloc, objects, values, own, left),
        _ => Ok(left),
    }
}

/// What is left of the room behind the attributes of an object, or the variables of the top level.
fn behind_attributes(
    alloc: Global,
    objects: &Objects<'_>,
    values: &[i64],
    owner: Option<u32>,
    room: usize,
) -> Result<usize, AllocError>
    requires owner { IfSome owner (λ n. n < length (all_objects objects.now)) }
{
    let mut left = room;
    for k in 0..objects.shape_count(owner) {
        left = behind_attribute(alloc, objects, values, owner, k, left)?;
    }
    Ok(left)
}

/// What is left of the room behind the names of the objects' classes.
fn behind_classes(objects: &Objects<'_>, room: usize) -> Result<usize, AllocError> {
    let mut left = room;
    for n in 0..objects.count() {
        let class = objects.table().class_name(objects.class(n));
        left = behind(left, class.as_bytes().len())?;
    }
    Ok(left)
}

/// Refuses a configuration whose text would be too long.
pub(crate) fn check_size(
    alloc: Global,
    objects: &Objects<'_>,
    values: &[i64],
) -> Result<(), AllocError> {
    let mut left = behind_classes(objects, MOST_BYTES)?;
    left = behind_attributes(alloc, objects, values, None, left)?;
    for n in 0..objects.count() {
        left = behind_attributes(alloc, objects, values, Some(n), left)?;
    }
    Ok(())
}
