//! The paths of objects.
ghost use Rattle.std.specs.Prelude.{◌≡◌, ◌++◌, ◌<◌, suc, length, OnOk, IfSome};
ghost use Rattle.object_alloc.specs.Variables.{class_in, variables};
ghost use Rattle.object_alloc.specs.Laying.{AreClassed};
ghost use Rattle.object_alloc.specs.Paths.{index_text, last_step, owner_path, path_within};
ghost use Rattle.object_alloc.specs.Walk.{objects as all_objects};

use crate::object::Object;
use crate::shapes::{class_of, variable_at};
use class_table::{ClassTable, Resolved};
use std::alloc::{AllocError, Global};

/// Adds the number of an element, where the shape is an array's.
fn push_index(
    alloc: Global,
    text: &mut Vec<u8>,
    shape: Resolved,
    element: u32,
) -> Result<(), AllocError>
    ensures text { OnOk result (text.new.items ≡ text.old.items ++ index_text shape element) }
{
    match shape {
        Resolved::Many(_, _) => {
            let index = format!(in alloc; "[{element}]")?;
            text.extend_from_slice(index.as_bytes())
        }
        _ => Ok(()),
    }
}

/// Adds the last name of an object's path.
fn push_step(
    alloc: Global,
    text: &mut Vec<u8>,
    table: &ClassTable,
    class: Option<u32>,
    object: Object,
) -> Result<(), AllocError>
    requires class { IfSome class (λ c. c < length table.now.classes) }
    requires attribute { object.attribute < length (variables table.now class) }
    ensures text { OnOk result (text.new.items ≡ text.old.items
        ++ last_step (variables table.now class) object) }
{
    let variable = variable_at(table, class, object.attribute);
    text.extend_from_slice(variable.name.as_bytes())?;
    push_index(alloc, text, variable.shape, object.element)
}

/// Adds the path of the object that holds another, and a dot; nothing at the top level.
#[cycle(path)]
fn push_owner(
    alloc: Global,
    text: &mut Vec<u8>,
    table: &ClassTable,
    objects: &[Object],
    owner: Option<u32>,
    steps: u32,
) -> Result<(), AllocError>
    requires objects { objects.now ≡ all_objects table.now }
    requires classes { AreClassed table.now objects.now }
    requires owner { IfSome owner (λ p. p < length objects.now) }
    requires before { IfSome owner (λ p. p < steps) }
    ensures text { OnOk result (text.new.items ≡ text.old.items
        ++ owner_path (path_within table.now objects.now steps) owner) }
{
    match owner {
        Some(owner) => {
            push_path(alloc, text, table, objects, owner)?;
            text.push(b'.')?;
            Ok(())
        }
        None => Ok(()),
    }
}

/// Adds the path of an object. The calls go as deep as the path has names.
#[cycle(path)]
pub(crate) fn push_path(
    alloc: Global,
    text: &mut Vec<u8>,
    table: &ClassTable,
    objects: &[Object],
    n: u32,
) -> Result<(), AllocError>
    requires objects { objects.now ≡ all_objects table.now }
    requires classes { AreClassed table.now objects.now }
    requires object { n < length objects.now }
    ensures text { OnOk result (text.new.items ≡ text.old.items ++ path_within table.now objects.now
        (suc n) n) }
{
    let object = objects[n as usize];
    push_owner(alloc, text, table, objects, object.owner, n)?;
    let class = class_of(objects, object.owner);
    push_step(alloc, text, table, class, object)
}
