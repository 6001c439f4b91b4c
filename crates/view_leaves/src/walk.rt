//! The walk over a configuration that lists its leaves.
ghost use Rattle.std.specs.Prelude.{◌≡◌, ◌++◌, ◌∷◌, [], map, IfOk, OnOk};
ghost use Rattle.serde_json.specs.View.{view, items_view, members_view};
ghost use Rattle.view_leaves.specs.Ascending.{IsAscending, paths};
ghost use Rattle.view_leaves.specs.Leaves.{leaves, leaves_from, item_leaves, member_leaves, IsInOrder, AreInOrder, MembersInOrder};
ghost use Rattle.view_leaves.specs.Views.{step_seen, leaves_seen};

use crate::leaf::{Leaf, all_words, has_parts, is_class};
use crate::path::Step;
use serde_json::{Map, Value};
use std::alloc::{AllocError, Global};

/// Lists one leaf.
fn push_leaf<'a>(
    path: &[Step<'a>],
    value: &'a Value,
    leaves: &mut Vec<Leaf<'a>>,
) -> Result<(), AllocError>
    ensures leaf { OnOk result (leaves_seen leaves.new.items ≡ leaves_seen leaves.old.items
        ++ (map step_seen path.now, view value.now) ∷ []) }
{
    let path = Vec::from_slice(*leaves.allocator(), path)?;
    leaves.push(Leaf { path, value })?;
    Ok(())
}

/// Lists the leaves of a value that stands at this path.
#[cycle(walk)]
fn push_value<'a>(
    path: &mut Vec<Step<'a>>,
    value: &'a Value,
    leaves: &mut Vec<Leaf<'a>>,
) -> Result<(), AllocError>
    ensures leaves { OnOk result (leaves_seen leaves.new.items ≡ leaves_seen leaves.old.items
        ++ leaves_from (map step_seen path.old.items) (view value.now)) }
    ensures path { OnOk result (path.new.items ≡ path.old.items) }
    ensures order { OnOk result (IsInOrder (view value.now)) }
{
    match value {
        Value::Array(items) => {
            if all_words(items) {
                push_leaf(path, value, leaves)
            } else {
                push_items(path, items, leaves)
            }
        }
        Value::Object(members) => {
            if has_parts(members) {
                push_members(path, members, leaves)
            } else {
                push_leaf(path, value, leaves)
            }
        }
        _ => push_leaf(path, value, leaves),
    }
}

/// Lists the leaves of the elements of a row.
#[cycle(walk)]
fn push_items<'a>(
    path: &mut Vec<Step<'a>>,
    items: &'a Vec<Value>,
    leaves: &mut Vec<Leaf<'a>>,
) -> Result<(), AllocError>
    ensures leaves { OnOk result (leaves_seen leaves.new.items ≡ leaves_seen leaves.old.items
        ++ item_leaves (map step_seen path.old.items) 0 (items_view items.now.items)) }
    ensures path { OnOk result (path.new.items ≡ path.old.items) }
    ensures order { OnOk result (AreInOrder (items_view items.now.items)) }
{
    for (number, item) in items.iter().enumerate() {
        path.push(Step::Index(number as u64))?;
        push_value(path, item, leaves)?;
        path.pop();
    }
    Ok(())
}

/// Lists the leaves of the parts of an object.
#[cycle(walk)]
fn push_members<'a>(
    path: &mut Vec<Step<'a>>,
    members: &'a Map<String, Value>,
    leaves: &mut Vec<Leaf<'a>>,
) -> Result<(), AllocError>
    ensures leaves { OnOk result (leaves_seen leaves.new.items ≡ leaves_seen leaves.old.items
        ++ member_leaves (map step_seen path.old.items) (members_view members.now.entries)) }
    ensures path { OnOk result (path.new.items ≡ path.old.items) }
    ensures order { OnOk result (MembersInOrder (members_view members.now.entries)) }
{
    for (key, member) in members.iter() {
        if !is_class(key) {
            path.push(Step::Key(key.as_str()))?;
            push_value(path, member, leaves)?;
            path.pop();
        }
    }
    Ok(())
}

/// The leaves of a configuration, each once, in order of path. A value that is no object has none.
pub fn leaves_of(alloc: Global, value: &Value) -> Result<Vec<Leaf<'_>>, AllocError>
    ensures leaves { IfOk result (λ list. leaves_seen list.items ≡ leaves (view value.now)) }
    ensures ascending { OnOk result (IsAscending (paths (leaves (view value.now)))) }
{
    let mut leaves = Vec::new(alloc);
    match value.as_object() {
        None => Ok(leaves),
        Some(members) => {
            push_members(&mut Vec::new(alloc), members, &mut leaves)?;
            Ok(leaves)
        }
    }
}
