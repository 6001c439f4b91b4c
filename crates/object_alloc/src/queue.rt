//! Counts the objects of a model without placing them.
//!
//! `queue_all` is the entry. It takes the objects level by level: first those of the top level,
//! then those that each one holds. It stops as soon as there are too many, so its work is bounded
//! however many objects a model would have.
ghost use Rattle.std.specs.Prelude.{◌≡◌, ◌+◌, ◌<◌, ◌≤◌, ◌^◌, ◌++◌, ℕ, nat_lt, None, is_some, length, replicate, IfOk, IfErr, OnOk, IfSome};
ghost use Rattle.std.specs.List.{sum_by};
ghost use Rattle.model_limits.specs.Limits.{most_objects};
ghost use Rattle.class_table.specs.Sound.{IsSound};
ghost use Rattle.class_table.specs.Outline.{attributes};
ghost use Rattle.object_alloc.specs.Holding.{AreHolding, HoldsSame, kinds_in, shapes_of};
ghost use Rattle.object_alloc.specs.Sums.{Weigh, of_object, of_kind, held_kinds, kinds_of, deep, IsExcess, IsLawful};
ghost use Rattle.object_alloc.specs.Variables.{variables};
ghost use Rattle.object_alloc.specs.Walk.{objects};

use crate::fault::AllocFault;
use crate::shapes::{shape_at, variable_count};
use class_table::{ClassTable, Resolved};
use model_limits::{MOST_NAMES, MOST_OBJECTS};
use std::alloc::{AllocError, Global};

/// An object's class and depth.
#[derive(Clone, Copy, Debug)]
pub(crate) struct Kind {
    pub class: u32,
    pub depth: u32,
}

/// Adds so many objects of a kind.
fn push_many(queue: &mut Vec<Kind>, kind: Kind, count: u32) -> Result<(), AllocFault>
    requires few { length queue.old.items ≤ most_objects }
    ensures queue { OnOk result (queue.new.items ≡ queue.old.items ++ replicate count kind) }
    ensures few { OnOk result (length queue.new.items ≤ most_objects) }
    ensures fault { IfErr result (IsExcess (length queue.old.items + count)) }
{
    if count as usize > MOST_OBJECTS as usize - queue.len() {
        return Err(AllocFault::TooManyObjects);
    }
    for _ in 0..count {
        queue.push(kind)?;
    }
    Ok(())
}

/// Adds the objects that a variable of this shape holds.
fn push_held(queue: &mut Vec<Kind>, shape: Resolved, depth: u32) -> Result<(), AllocFault>
    requires few { length queue.old.items ≤ most_objects }
    ensures queue { OnOk result (queue.new.items ≡ queue.old.items ++ held_kinds depth shape) }
    ensures few { OnOk result (length queue.new.items ≤ most_objects) }
    ensures fault { IfErr result (IsExcess (length queue.old.items + length
        (held_kinds depth shape))) }
{
    match shape {
        Resolved::One(class) => push_many(queue, Kind { class, depth }, 1),
        Resolved::Many(class, count) => push_many(queue, Kind { class, depth }, count),
        _ => Ok(()),
    }
}

/// Adds the objects that the variables of a class, or of the top level, hold.
fn push_members(
    queue: &mut Vec<Kind>,
    table: &ClassTable,
    class: Option<u32>,
    depth: u32,
) -> Result<(), AllocFault>
    requires class { IfSome class (λ c. c < length table.now.classes) }
    requires few { length queue.old.items ≤ most_objects }
    ensures queue { OnOk result (queue.new.items ≡ queue.old.items
        ++ kinds_of depth (variables table.now class)) }
    ensures few { OnOk result (length queue.new.items ≤ most_objects) }
    ensures fault { IfErr result (IsExcess (length queue.old.items + length
        (kinds_of depth (variables table.now class)))) }
{
    for k in 0..variable_count(table, class) {
        let shape = shape_at(table, class, k);
        if let Err(fault) = push_held(queue, shape, depth) {
            return Err(fault);
        }
    }
    Ok(())
}

/// For each class the shapes of its attributes that hold objects. They are listed when the first
/// object of the class is met, so that other objects of it need no look at other attributes.
type Holding = Vec<Option<Vec<Resolved>>>;

/// No list for each of so many classes.
fn no_holding(alloc: Global, count: u32) -> Result<Holding, AllocError>
    ensures size { IfOk result (λ lists. length lists.items ≡ count) }
    ensures none { IfOk result (λ lists. (c : ℕ) → shapes_of lists.items c ≡ None) }
{
    let mut lists = Vec::new(alloc);
    for _class in 0..count {
        lists.push(None)?;
    }
    Ok(lists)
}

/// Adds a shape, if an attribute of this shape holds objects.
fn add_shape(shapes: &mut Vec<Resolved>, shape: Resolved) -> Result<(), AllocError>
    ensures shapes { OnOk result ((d : ℕ) → kinds_in d shapes.new.items
        ≡ kinds_in d shapes.old.items ++ held_kinds d shape) }
{
    match shape {
        Resolved::One(_) | Resolved::Many(_, _) => shapes.push(shape)?,
        _ => {}
    }
    Ok(())
}

/// The shapes of a class's attributes that hold objects.
fn shapes_in(alloc: Global, table: &ClassTable, class: u32) -> Result<Vec<Resolved>, AllocError>
    requires class { class < length table.now.classes }
    ensures shapes { IfOk result (λ shapes. HoldsSame table.now class shapes.items) }
{
    let mut shapes = Vec::new(alloc);
    for k in 0..table.attribute_count(class) {
        let shape = shape_at(table, Some(class), k);
        add_shape(&mut shapes, shape)?;
    }
    Ok(shapes)
}

/// Whether a class's shapes are listed.
fn has_shapes(lists: &Holding, class: u32) -> bool
    requires class { class < length lists.now.items }
    ensures listed { result ≡ is_some (shapes_of lists.now.items class) }
{
    lists[class as usize].is_some()
}

/// Lists the shapes of a class, where they aren't yet.
fn list_shapes(
    alloc: Global,
    table: &ClassTable,
    lists: &mut Holding,
    class: u32,
) -> Result<(), AllocError>
    requires class { class < length table.now.classes }
    requires size { length lists.old.items ≡ length table.now.classes }
    requires lists { AreHolding table.now lists.old.items }
    ensures size { OnOk result (length lists.new.items ≡ length lists.old.items) }
    ensures lists { OnOk result (AreHolding table.now lists.new.items) }
    ensures there { OnOk result (shapes_of lists.new.items class ≡ None → ⊥) }
{
    if has_shapes(lists, class) {
        return Ok(());
    }
    let shapes = shapes_in(alloc, table, class)?;
    lists[class as usize] = Some(shapes);
    Ok(())
}

/// The shapes of a class.
fn shapes_at<'a>(table: &ClassTable, lists: &'a Holding, class: u32) -> &'a [Resolved]
    requires class { class < length lists.now.items }
    requires lists { AreHolding table.now lists.now.items }
    requires there { shapes_of lists.now.items class ≡ None → ⊥ }
    ensures shapes { HoldsSame table.now class result.now }
{
    match &lists[class as usize] {
        Some(shapes) => shapes,
        None => unreachable!(),
    }
}

/// Adds the objects that attributes of these shapes hold.
fn push_shapes(queue: &mut Vec<Kind>, shapes: &[Resolved], depth: u32) -> Result<(), AllocFault>
    requires few { length queue.old.items ≤ most_objects }
    ensures queue { OnOk result (queue.new.items ≡ queue.old.items ++ kinds_in depth shapes.now) }
    ensures few { OnOk result (length queue.new.items ≤ most_objects) }
    ensures fault { IfErr result (IsExcess (length queue.old.items + length
        (kinds_in depth shapes.now))) }
{
    for shape in shapes {
        if let Err(fault) = push_held(queue, *shape, depth) {
            return Err(fault);
        }
    }
    Ok(())
}

/// Adds the objects that an object of this class holds.
fn push_parts(
    alloc: Global,
    queue: &mut Vec<Kind>,
    table: &ClassTable,
    lists: &mut Holding,
    class: u32,
    depth: u32,
) -> Result<(), AllocFault>
    requires class { class < length table.now.classes }
    requires size { length lists.old.items ≡ length table.now.classes }
    requires lists { AreHolding table.now lists.old.items }
    requires few { length queue.old.items ≤ most_objects }
    ensures size { OnOk result (length lists.new.items ≡ length lists.old.items) }
    ensures lists { OnOk result (AreHolding table.now lists.new.items) }
    ensures queue { OnOk result (queue.new.items ≡ queue.old.items
        ++ kinds_of depth (attributes table.now.classes class)) }
    ensures few { OnOk result (length queue.new.items ≤ most_objects) }
    ensures fault { IfErr result (IsExcess (length queue.old.items + length
        (kinds_of depth (attributes table.now.classes class)))) }
{
    list_shapes(alloc, table, lists, class)?;
    push_shapes(queue, shapes_at(table, lists, class), depth)
}

/// The class and the depth of each object of a model, in some order.
pub(crate) fn queue_all(alloc: Global, table: &ClassTable) -> Result<Vec<Kind>, AllocFault>
    requires sound { IsSound table.now }
    ensures kinds { IfOk result (λ queue. (g : Weigh) → sum_by (of_kind g) queue.items
        ≡ sum_by (of_object g) (objects table.now)) }
    ensures lawful { IfOk result (λ queue. IsLawful (length table.now.classes) 1 queue.items) }
    ensures few { IfOk result (λ queue. length queue.items ≤ most_objects) }
    ensures fault { IfErr result (IsExcess (length (objects table.now))) }
{
    let mut queue = Vec::new(alloc);
    if let Err(fault) = push_members(&mut queue, table, None, 1) {
        return Err(fault);
    }
    let mut lists = no_holding(alloc, table.class_count())?;
    let mut head = 0;
    while head < queue.len() {
        let kind = queue[head];
        let depth = kind.depth + 1;
        if let Err(fault) = push_parts(alloc, &mut queue, table, &mut lists, kind.class, depth) {
            return Err(fault);
        }
        head += 1;
    }
    Ok(queue)
}

/// Whether an object stands too deep.
pub(crate) fn has_deep(queue: &[Kind]) -> bool
    ensures deep { result ≡ nat_lt 0 (sum_by (of_kind deep) queue.now) }
{
    for kind in queue {
        if kind.depth > MOST_NAMES {
            return true;
        }
    }
    false
}
