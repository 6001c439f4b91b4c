//! Configurations as JSON values and as texts.
ghost use Rattle.std.specs.Prelude.{◌≡◌, ◌++◌, ◌<◌, [], Some, length, slice_get, slice_index_or, filter_map, IfOk, OnOk, IfSome};
ghost use Rattle.class_table.specs.Tables.{IsShapeOf};
ghost use Rattle.object_alloc.specs.Cells.{cells as all_cells};
ghost use Rattle.object_alloc.specs.Configurations.{IsConfiguration};
ghost use Rattle.object_alloc.specs.Groups.{parts_of, own_cells};
ghost use Rattle.object_alloc.specs.Variables.{variables_of};
ghost use Rattle.object_alloc.specs.Walk.{objects as all_objects};
ghost use Rattle.serde_json.specs.Data.{string, put, no_members};
ghost use Rattle.serde_json.specs.View.{view, items_view, members_view};
ghost use Rattle.config_json.specs.Contained.{AreContained};
ghost use Rattle.config_json.specs.Keys.{text_of, value_name, class_name};
ghost use Rattle.config_json.specs.Reading.{value_read};
ghost use Rattle.object_alloc.specs.Members.{member_at, value_at, first_value};
ghost use Rattle.config_json.specs.Tree.{all_data, attribute_data, first_data, class_member, config_bytes, config_data, leaf_data, object_data, path_data, paths_data, with_variables};

use crate::leaves::element_at;
use crate::positions::variable_of;
use crate::size::check_size;
use class_table::{ClassTable, Resolved};
use conf_syntax::Name;
use object_alloc::{Config, Objects};
use serde_json::{Map, Value};
use std::alloc::{AllocError, Global};

/// Bytes as a string.
fn text_value(alloc: Global, bytes: &[u8]) -> Result<Value, AllocError>
    ensures value { IfOk result (λ value. view value ≡ string (text_of bytes.now)) }
{
    let text = String::from_utf8_lossy(alloc, bytes)?;
    Ok(Value::String(text))
}

/// The path of an object as a string; nothing where there is no such object.
fn path_value(alloc: Global, objects: &Objects<'_>, n: u64) -> Result<Value, AllocError>
    ensures value { IfOk result (λ value. view value ≡ path_data objects.now n) }
{
    if n >= objects.count() as u64 {
        return text_value(alloc, &[]);
    }
    let path = objects.path_of(alloc, n as u32)?;
    let value = text_value(alloc, path.as_bytes())?;
    Ok(value)
}

/// The name of a value of an enumeration as a string; nothing where there is no such value.
fn name_value(alloc: Global, objects: &Objects<'_>, e: u32, k: u64) -> Result<Value, AllocError>
    requires enumeration { e < length objects.now.enumerations }
    ensures value { IfOk result (λ value. view value
        ≡ string (text_of (value_name objects.now e k))) }
{
    let table = objects.table();
    if k >= table.value_count(e) as u64 {
        let nothing = text_value(alloc, &[])?;
        return Ok(nothing);
    }
    let name = table.value_name(e, k as u32);
    let value = text_value(alloc, name.as_bytes())?;
    Ok(value)
}

/// The value of a cell.
fn value_at(values: &[i64], i: u32) -> i64
    ensures value { result ≡ value_at values.now i }
{
    match values.get(i as usize) {
        Some(value) => *value,
        None => 0,
    }
}

/// The value of a leaf that has one cell.
pub(crate) fn only_value(values: &[i64], own: &[u32]) -> i64
    ensures value { result ≡ first_value values.now own.now }
{
    match own.first() {
        Some(i) => value_at(values, *i),
        None => 0,
    }
}

/// The object that a cell of a reference set stands for, where it is in.
pub(crate) fn member_at(objects: &Objects<'_>, values: &[i64], i: u32) -> Option<u32>
    ensures member { result ≡ member_at (all_cells objects.now) values.now i }
{
    if value_at(values, i) == 1 {
        element_at(objects, i)
    } else {
        None
    }
}

/// The members of a reference set, by the numbers of its cells, in order of allocation.
fn members_of(
    alloc: Global,
    objects: &Objects<'_>,
    values: &[i64],
    own: &[u32],
) -> Result<Vec<u32>, AllocError>
    ensures members { IfOk result (λ members. members.items
        ≡ filter_map (member_at (all_cells objects.now) values.now) own.now) }
{
    let mut members = Vec::new(alloc);
    for i in own {
        if let Some(n) = member_at(objects, values, *i) {
            members.push(n)?;
        }
    }
    Ok(members)
}

/// The paths of these objects, in order.
fn path_values(
    alloc: Global,
    objects: &Objects<'_>,
    numbers: &[u32],
) -> Result<Vec<Value>, AllocError>
    ensures paths { IfOk result (λ paths. items_view paths.items
        ≡ paths_data objects.now numbers.now) }
{
    let mut paths = Vec::new(alloc);
    for n in numbers {
        let path = path_value(alloc, objects, *n as u64)?;
        paths.push(path)?;
    }
    Ok(paths)
}

/// A leaf of this shape with these cells.
fn leaf_value(
    alloc: Global,
    objects: &Objects<'_>,
    values: &[i64],
    own: &[u32],
    shape: Resolved,
) -> Result<Value, AllocError>
    requires shape { IsShapeOf (length objects.now.classes) (length objects.now.enumerations)
        shape }
    ensures value { IfOk result (λ value. view value ≡ leaf_data objects.now values.now own.now
        shape) }
{
    match shape {
        Resolved::Span(_, _) => Ok(Value::from(only_value(values, own))),
        Resolved::Truth => Ok(Value::Bool(only_value(values, own) == 1)),
        Resolved::Choice(e) => {
            let value = name_value(alloc, objects, e, only_value(values, own).unsigned_abs())?;
            Ok(value)
        }
        Resolved::Ref(_) => {
            let value = path_value(alloc, objects, only_value(values, own).unsigned_abs())?;
            Ok(value)
        }
        Resolved::RefSet(_, _) => {
            let members = members_of(alloc, objects, values, own)?;
            let paths = path_values(alloc, objects, &members)?;
            Ok(Value::Array(paths))
        }
        Resolved::One(_) | Resolved::Many(_, _) => Ok(Value::Null),
    }
}

/// Puts a value under a name.
fn put_value(
    alloc: Global,
    members: &mut Map<String, Value>,
    name: &Name,
    value: Value,
) -> Result<(), AllocError>
    ensures members { OnOk result (members_view members.new.entries
        ≡ put (text_of name.now) (view value) (members_view members.old.entries)) }
{
    let key = String::from_utf8_lossy(alloc, name.as_bytes())?;
    drop(members.insert(key, value)?);
    Ok(())
}

/// The keys of an object before its attributes: the name of its class.
fn class_members(
    alloc: Global,
    objects: &Objects<'_>,
    n: u32,
) -> Result<Map<String, Value>, AllocError>
    requires object { n < length (all_objects objects.now) }
    ensures members { IfOk result (λ members. members_view members.entries
        ≡ class_member objects.now n) }
{
    let class = objects.table().class_name(objects.class(n));
    let name = text_value(alloc, class.as_bytes())?;
    let mut members = Map::new(alloc);
    serde_json::put(&mut members, alloc, "class", name)?;
    Ok(members)
}

/// An object with its attributes.
#[cycle(tree)]
fn object_value(
    alloc: Global,
    objects: &Objects<'_>,
    values: &[i64],
    n: u32,
) -> Result<Value, AllocError>
    requires object { n < length (all_objects objects.now) }
    ensures value { IfOk result (λ value. view value ≡ object_data objects.now values.now n) }
{
    let members = class_members(alloc, objects, n)?;
    let members = with_variables(alloc, objects, values, Some(n), members)?;
    Ok(Value::Object(members))
}

/// The keys found so far, with one for each attribute of an object, or for each variable of the top
/// level.
#[cycle(tree)]
fn with_variables(
    alloc: Global,
    objects: &Objects<'_>,
    values: &[i64],
    owner: Option<u32>,
    found: Map<String, Value>,
) -> Result<Map<String, Value>, AllocError>
    requires owner { IfSome owner (λ n. n < length (all_objects objects.now)) }
    ensures members { IfOk result (λ members. members_view members.entries
        ≡ with_variables (object_data objects.now values.now) objects.now values.now owner 0
        (variables_of objects.now owner) (members_view found.entries)) }
{
    let mut members = found;
    for k in 0..objects.shape_count(owner) {
        let variable = variable_of(objects, owner, k);
        let value = attribute_value(alloc, objects, values, owner, k, variable.shape)?;
        put_value(alloc, &mut members, variable.name, value)?;
    }
    Ok(members)
}

/// What an attribute of an object, or a variable of the top level, shows.
#[cycle(tree)]
fn attribute_value(
    alloc: Global,
    objects: &Objects<'_>,
    values: &[i64],
    owner: Option<u32>,
    k: u32,
    shape: Resolved,
) -> Result<Value, AllocError>
    requires owner { IfSome owner (λ n. n < length (all_objects objects.now)) }
    requires shape { IsShapeOf (length objects.now.classes) (length objects.now.enumerations)
        shape }
    ensures value { IfOk result (λ value. view value
        ≡ attribute_data (object_data objects.now values.now) objects.now values.now owner k
        shape) }
{
    match shape {
        Resolved::One(_) => {
            let value = first_value(alloc, objects, values, owner, objects.parts(owner, k))?;
            Ok(value)
        }
        Resolved::Many(_, _) => {
            let items = object_values(alloc, objects, values, owner, objects.parts(owner, k))?;
            Ok(Value::Array(items))
        }
        _ => {
            let value = leaf_value(alloc, objects, values, objects.own_cells(owner, k), shape)?;
            Ok(value)
        }
    }
}

/// The first of these objects.
#[cycle(tree)]
fn first_value(
    alloc: Global,
    objects: &Objects<'_>,
    values: &[i64],
    owner: Option<u32>,
    parts: &[u32],
) -> Result<Value, AllocError>
    requires parts { AreContained objects.now owner parts.now }
    ensures value { IfOk result (λ value. view value
        ≡ first_data (object_data objects.now values.now) parts.now) }
{
    match parts.first() {
        Some(n) => {
            let value = object_value(alloc, objects, values, *n)?;
            Ok(value)
        }
        None => Ok(Value::Null),
    }
}

/// These objects, in order.
#[cycle(tree)]
fn object_values(
    alloc: Global,
    objects: &Objects<'_>,
    values: &[i64],
    owner: Option<u32>,
    parts: &[u32],
) -> Result<Vec<Value>, AllocError>
    requires parts { AreContained objects.now owner parts.now }
    ensures items { IfOk result (λ items. items_view items.items
        ≡ all_data (object_data objects.now values.now) parts.now) }
{
    let mut items = Vec::new(alloc);
    for n in parts {
        let item = object_value(alloc, objects, values, *n)?;
        items.push(item)?;
    }
    Ok(items)
}

/// A configuration as a JSON value: an object with one key for each variable of the top level.
///
/// # Errors
/// Want of memory, also where the text would have more than half a gigabyte.
pub fn to_json(
    alloc: Global,
    table: &ClassTable,
    objects: &Objects<'_>,
    config: &Config,
) -> Result<Value, AllocError>
    requires same { objects.now ≡ table.now }
    ensures value { IfOk result (λ value. view value ≡ config_data table.now config.now) }
{
    check_size(alloc, objects, config.items())?;
    let none = Map::new(alloc);
    let members = with_variables(alloc, objects, config.items(), None, none)?;
    Ok(Value::Object(members))
}

/// A configuration as a text: no spaces, keys in byte order. It is read as the tree that `to_json`
/// makes.
///
/// # Errors
/// As `to_json`.
pub fn config_text(
    alloc: Global,
    table: &ClassTable,
    objects: &Objects<'_>,
    config: &Config,
) -> Result<Vec<u8>, AllocError>
    requires same { objects.now ≡ table.now }
    ensures text { IfOk result (λ text. text.items ≡ config_bytes table.now config.now) }
    ensures read { IfOk result (λ text. value_read text.items
        ≡ Some (config_data table.now config.now)) }
{
    let _count = objects.count();
    let value = to_json(alloc, table, objects, config)?;
    let text = value.to_vec(alloc)?;
    Ok(text)
}
