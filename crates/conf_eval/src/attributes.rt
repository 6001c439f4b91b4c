//! The values of attributes of objects, and of variables of the top level.
ghost use Rattle.std.specs.Prelude.{◌≡◌, ◌++◌, ◌<◌, ◌^◌, [], nat_abs, drop, false, IfOk, IsOk};
ghost use Rattle.conf_eval.specs.Evaluating.{IsGiven};
ghost use Rattle.conf_eval.specs.Fitting.{HasShape};
ghost use Rattle.conf_eval.specs.Listing.{members};
ghost use Rattle.conf_eval.specs.Memory.{is_list};
ghost use Rattle.conf_eval.specs.Meaning.{attribute_value, first_object};
ghost use Rattle.object_alloc.specs.Members.{first_value};

use crate::members::{Members, listed, slot, slot_count};
use crate::scene::Scene;
use crate::value::Value;
use class_table::Resolved;
use object_alloc::ObjectList;
use std::alloc::{AllocError, Global};

/// The value of the first of these cells, 0 where there is none.
fn first_value(values: &[i64], cells: &[u32]) -> i64
    ensures first { result ≡ first_value values.now cells.now }
{
    match cells.first() {
        Some(cell) => values.get(*cell as usize).copied().unwrap_or(0),
        None => 0,
    }
}

/// The first of these objects, 0 where there is none.
fn first_object(numbers: &[u32]) -> u32
    ensures first { result ≡ first_object numbers.now }
{
    match numbers.first() {
        Some(object) => *object,
        None => 0,
    }
}

/// The number that the value of the first of these cells is.
fn first_number(values: &[i64], cells: &[u32]) -> u32
    requires small { nat_abs (first_value values.now cells.now) < 2 ^ 32 }
    ensures number { result ≡ nat_abs (first_value values.now cells.now) }
{
    first_value(values, cells).unsigned_abs() as u32
}

/// The members of a list, in order.
pub(crate) fn collect(
    alloc: Global,
    scene: &Scene<'_, '_>,
    list: &Members<'_>,
) -> Result<Vec<u32>, AllocError>
    ensures members { IfOk result (λ numbers. numbers.items ≡ members scene.now.objects.now
        scene.now.values.now list.now) }
{
    let mut numbers = Vec::new(alloc);
    for i in 0..slot_count(scene, list) {
        if let Some(object) = slot(scene, list, i) {
            numbers.push(object)?;
        }
    }
    Ok(numbers)
}

/// The value of an attribute of an object, or of a variable of the top level.
pub(crate) fn attribute_value(
    alloc: Global,
    scene: &Scene<'_, '_>,
    owner: Option<u32>,
    k: u32,
    shape: Resolved,
) -> Result<Value, AllocError>
    requires given { IsGiven scene.now.objects.now scene.now.values.now }
    requires shape { HasShape scene.now.objects.now owner k shape }
    ensures value { IfOk result (λ v. v ≡ attribute_value scene.now.objects.now scene.now.values.now
        owner k shape) }
    ensures memory { is_list shape ≡ false → IsOk result }
{
    let cells = scene.objects.own_cells(owner, k);
    match shape {
        Resolved::Span(_, _) => Ok(Value::Int(first_value(scene.values, cells))),
        Resolved::Truth => Ok(Value::Truth(first_value(scene.values, cells) == 1)),
        Resolved::Choice(enumeration) => {
            let number = first_number(scene.values, cells);
            Ok(Value::Choice(enumeration, number))
        }
        Resolved::Ref(_) => Ok(Value::Object(first_number(scene.values, cells))),
        Resolved::One(_) => {
            let parts = scene.objects.parts(owner, k);
            Ok(Value::Object(first_object(parts)))
        }
        Resolved::RefSet(_, _) | Resolved::Many(_, _) => {
            let list = listed(scene, owner, k, shape);
            let numbers = collect(alloc, scene, &list)?;
            Ok(Value::Objects(ObjectList::of(numbers)))
        }
    }
}
