//! The values of leaves, read from JSON values by the shapes of the leaves.
ghost use Rattle.std.specs.Prelude.{◌≡◌, ◌<◌, ℕ, List, false, [], pos, length, nat_eq, slice_index_or, option_map, option_and_then, IfOk, IfSome};
ghost use Rattle.std.specs.List.{list_any};
ghost use Rattle.class_table.specs.Tables.{IsShapeOf};
ghost use Rattle.object_alloc.specs.Cells.{extent};
ghost use Rattle.object_alloc.specs.Walk.{objects as all_objects};
ghost use Rattle.serde_json.specs.Find.{as_str, as_bool, as_array};
ghost use Rattle.serde_json.specs.View.{view, items_view};
ghost use Rattle.config_json.specs.Former.{whole_in, value_number, object_in, members_in, marks, set_in, value_in, truth_number, one};
ghost use Rattle.config_json.specs.Marked.{marked, member_extent, numbers_of};

use class_table::Resolved;
use conf_syntax::Name;
use object_alloc::Objects;
use serde_json::Value;
use std::alloc::{AllocError, Global};

/// The former value of a leaf.
#[derive(Drop)]
pub(crate) enum FormerValue {
    /// The value of its one cell.
    One(i64),
    /// For each object of the model whether it is a member.
    Members(Vec<bool>),
}

/// The whole number within a range that a value is.
fn whole_in(value: &Value, low: i64, high: i64) -> Option<i64>
    ensures number { result ≡ whole_in low high (view value.now) }
{
    let number = value.as_i64()?;
    if low <= number && number <= high {
        Some(number)
    } else {
        None
    }
}

/// The number of the value of an enumeration that a string names.
fn value_number(
    alloc: Global,
    objects: &Objects<'_>,
    enumeration: u32,
    value: &Value,
) -> Result<Option<i64>, AllocError>
    requires enumeration { enumeration < length objects.now.enumerations }
    ensures number { IfOk result (λ number. number
        ≡ option_and_then (value_number objects.now enumeration) (as_str (view value.now))) }
{
    let Some(text) = value.as_str() else {
        return Ok(None);
    };
    let name = Name::of(alloc, text.as_bytes())?;
    match objects.table().value_of(enumeration, &name) {
        Some(number) => Ok(Some(number as i64)),
        None => Ok(None),
    }
}

/// Whether an object is of a class's extent.
fn is_of(objects: &Objects<'_>, object: u32, class: u32) -> bool
    requires object { object < length (all_objects objects.now) }
    ensures extent { result ≡ list_any (nat_eq object) (extent objects.now class) }
{
    objects.is_of(object, class)
}

/// The object of a class's extent that a string names by its path.
fn object_in(objects: &Objects<'_>, class: u32, value: &Value) -> Option<u32>
    ensures object { result ≡ object_in objects.now class (view value.now) }
    ensures there { IfSome result (λ n. n < length (all_objects objects.now)) }
{
    let text = value.as_str()?;
    let Some(object) = objects.object_at(text.as_bytes()) else {
        return None;
    };
    if is_of(objects, object, class) {
        Some(object)
    } else {
        None
    }
}

/// The number of the object of a class's extent that a string names.
fn object_number(objects: &Objects<'_>, class: u32, value: &Value) -> Option<i64>
    ensures number { result ≡ option_map pos (object_in objects.now class (view value.now)) }
{
    match object_in(objects, class, value) {
        Some(object) => Some(object as i64),
        None => None,
    }
}

/// The truth value that a value is, as a number.
fn truth_in(value: &Value) -> Option<i64>
    ensures number { result ≡ option_map truth_number (as_bool (view value.now)) }
{
    match value.as_bool() {
        Some(true) => Some(1),
        Some(false) => Some(0),
        None => None,
    }
}

/// A mark for each of so many objects, none of them set.
fn unmarked(alloc: Global, count: u32) -> Result<Vec<bool>, AllocError>
    ensures count { IfOk result (λ marks. length marks.items ≡ count) }
    ensures none { IfOk result (λ marks. (n : ℕ) → slice_index_or marks.items n false ≡ false) }
{
    let mut marks = Vec::new(alloc);
    for _object in 0..count {
        marks.push(false)?;
    }
    Ok(marks)
}

/// Marks the objects that the strings of an array name; None where one names no object of the
/// class's extent, or one that is named twice.
fn members_in(
    alloc: Global,
    objects: &Objects<'_>,
    class: u32,
    items: &[Value],
) -> Result<Option<Vec<bool>>, AllocError>
    ensures members { IfOk result (λ found. option_map (λ flags. marked (extent objects.now class)
        flags.items) found ≡ option_map (marks (extent objects.now class))
        (members_in objects.now class [] (items_view items.now))) }
{
    let mut marks = unmarked(alloc, objects.count())?;
    for item in items {
        let Some(n) = object_in(objects, class, item) else {
            return Ok(None);
        };
        if marks[n as usize] {
            return Ok(None);
        }
        marks[n as usize] = true;
    }
    Ok(Some(marks))
}

/// The members of a reference set with so many members.
fn set_in(
    alloc: Global,
    objects: &Objects<'_>,
    class: u32,
    count: u32,
    value: &Value,
) -> Result<Option<FormerValue>, AllocError>
    ensures set { IfOk result (λ found. option_map (numbers_of (extent objects.now class)) found
        ≡ option_and_then (set_in objects.now class count) (as_array (view value.now))) }
{
    let Some(items) = value.as_array() else {
        return Ok(None);
    };
    if items.len() != count as usize {
        return Ok(None);
    }
    match members_in(alloc, objects, class, items)? {
        Some(marks) => Ok(Some(FormerValue::Members(marks))),
        None => Ok(None),
    }
}

/// The value of a leaf's one cell.
fn one(value: Option<i64>) -> Option<FormerValue>
    ensures one { (members : List ℕ) → option_map (numbers_of members) result
        ≡ option_map one value }
{
    match value {
        Some(value) => Some(FormerValue::One(value)),
        None => None,
    }
}

/// The value of a leaf of this shape.
pub(crate) fn value_in(
    alloc: Global,
    objects: &Objects<'_>,
    shape: Resolved,
    value: &Value,
) -> Result<Option<FormerValue>, AllocError>
    requires shape { IsShapeOf (length objects.now.classes) (length objects.now.enumerations)
        shape }
    ensures value { IfOk result (λ found. option_map (numbers_of (member_extent objects.now shape))
        found ≡ value_in objects.now shape (view value.now)) }
{
    match shape {
        Resolved::Span(low, high) => Ok(one(whole_in(value, low, high))),
        Resolved::Truth => Ok(one(truth_in(value))),
        Resolved::Choice(enumeration) => Ok(one(value_number(alloc, objects, enumeration, value)?)),
        Resolved::Ref(class) => Ok(one(object_number(objects, class, value))),
        Resolved::RefSet(class, count) => {
            let found = set_in(alloc, objects, class, count, value)?;
            Ok(found)
        }
        Resolved::One(_) | Resolved::Many(_, _) => Ok(None),
    }
}
