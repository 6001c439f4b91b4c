//! The cells that leaves give.
ghost use Rattle.std.specs.Prelude.{◌≡◌, ◌++◌, ◌<◌, ◌≤◌, ℕ, None, length, Contains, is_some, IfOk, OnOk};
ghost use Rattle.model_limits.specs.Limits.{most_objects};
ghost use Rattle.class_table.specs.Sound.{IsSound};
ghost use Rattle.class_table.specs.Tables.{IsShapeOf};
ghost use Rattle.object_alloc.specs.declared.object.Object.{Object as AnObject};
ghost use Rattle.object_alloc.specs.Cells.{extent, extent_from, member_cells, leaf_cells, domain_of};
ghost use Rattle.object_alloc.specs.Laying.{AreThere, AreClassed, AreSizes, cells_of};
ghost use Rattle.object_alloc.specs.Listed.{AreExtents, listed, list_of};
ghost use Rattle.object_alloc.specs.Walk.{objects as all_objects};

use crate::object::{Cell, Domain, Leaf, Object, ObjectList};
use class_table::{ClassTable, Resolved};
use std::alloc::{AllocError, Global};

/// What cells are made from: the objects of a model, and the sizes of all extents.
#[derive(Drop)]
pub(crate) struct Laid<'a> {
    pub table: &'a ClassTable,
    pub objects: &'a [Object],
    pub sizes: &'a [u32],
}

/// Extents by the numbers of their classes. Each is listed when it is first asked for, so that the
/// objects are walked once for a class and not for each set.
type Lists = Vec<Option<ObjectList>>;

/// No list for each of so many classes.
fn no_lists(alloc: Global, count: u32) -> Result<Lists, AllocError>
    ensures size { IfOk result (λ lists. length lists.items ≡ count) }
    ensures none { IfOk result (λ lists. (c : ℕ) → listed lists.items c ≡ None) }
{
    let mut lists = Vec::new(alloc);
    for _class in 0..count {
        lists.push(None)?;
    }
    Ok(lists)
}

/// Whether a class's extent is listed.
fn is_listed(lists: &Lists, class: u32) -> bool
    requires class { class < length lists.now.items }
    ensures listed { result ≡ is_some (listed lists.now.items class) }
{
    lists[class as usize].is_some()
}

/// Lists the extent of a class, where it isn't yet.
fn list_extent(
    alloc: Global,
    laid: &Laid<'_>,
    lists: &mut Lists,
    class: u32,
) -> Result<(), AllocError>
    requires classes { AreClassed laid.now.table.now laid.now.objects.now }
    requires few { length laid.now.objects.now ≤ most_objects }
    requires class { class < length lists.old.items }
    requires lists { AreExtents laid.now.table.now.classes laid.now.objects.now lists.old.items }
    ensures lists { OnOk result (AreExtents laid.now.table.now.classes laid.now.objects.now
        lists.new.items) }
    ensures size { OnOk result (length lists.new.items ≡ length lists.old.items) }
    ensures there { OnOk result (list_of lists.new.items class
        ≡ extent_from laid.now.table.now.classes class 0 laid.now.objects.now) }
{
    if is_listed(lists, class) {
        return Ok(());
    }
    let numbers = extent_of(alloc, laid.table, laid.objects, class)?;
    lists[class as usize] = Some(numbers);
    Ok(())
}

/// The objects of a class's list.
fn list_at(lists: &Lists, class: u32) -> &[u32]
    requires class { class < length lists.now.items }
    ensures numbers { result.now ≡ list_of lists.now.items class }
{
    match &lists[class as usize] {
        Some(numbers) => numbers.items(),
        None => &[],
    }
}

/// Adds the cells of a reference set whose members may be these objects.
fn push_members(cells: &mut Vec<Cell>, leaf: Leaf, numbers: &[u32]) -> Result<(), AllocError>
    ensures cells { OnOk result (cells.new.items ≡ cells.old.items
        ++ member_cells leaf numbers.now) }
{
    for number in numbers {
        cells.push(Cell {
            owner: leaf.owner,
            attribute: leaf.attribute,
            element: Some(*number),
            domain: Domain::Span(0, 1),
        })?;
    }
    Ok(())
}

/// Adds the cells of a reference set to objects of this class.
fn push_set(
    alloc: Global,
    cells: &mut Vec<Cell>,
    laid: &Laid<'_>,
    lists: &mut Lists,
    leaf: Leaf,
    class: u32,
) -> Result<(), AllocError>
    requires objects { laid.now.objects.now ≡ all_objects laid.now.table.now }
    requires classes { AreClassed laid.now.table.now laid.now.objects.now }
    requires few { length laid.now.objects.now ≤ most_objects }
    requires sizes { AreSizes laid.now.table.now laid.now.sizes.now }
    requires class { class < length laid.now.table.now.classes }
    requires lists { AreExtents laid.now.table.now.classes laid.now.objects.now lists.old.items }
    requires size { length lists.old.items ≡ length laid.now.table.now.classes }
    ensures cells { OnOk result (cells.new.items ≡ cells.old.items
        ++ member_cells leaf (extent laid.now.table.now class)) }
    ensures lists { OnOk result (AreExtents laid.now.table.now.classes laid.now.objects.now
        lists.new.items) }
    ensures size { OnOk result (length lists.new.items ≡ length lists.old.items) }
{
    if laid.sizes[class as usize] == 0 {
        return Ok(());
    }
    list_extent(alloc, laid, lists, class)?;
    push_members(cells, leaf, list_at(lists, class))
}

/// The values of a leaf that is no reference set.
fn domain_of(table: &ClassTable, shape: Resolved) -> Option<Domain>
    requires shape { IsShapeOf (length table.now.classes) (length table.now.enumerations) shape }
    ensures domain { result ≡ domain_of table.now shape }
{
    match shape {
        Resolved::Span(low, high) => Some(Domain::Span(low, high)),
        Resolved::Truth => Some(Domain::Span(0, 1)),
        Resolved::Choice(e) => Some(Domain::Span(0, table.value_count(e) as i64 - 1)),
        Resolved::Ref(class) => Some(Domain::Extent(class)),
        Resolved::RefSet(_, _) | Resolved::One(_) | Resolved::Many(_, _) => None,
    }
}

/// Adds the cells of a leaf.
fn push_leaf(
    alloc: Global,
    cells: &mut Vec<Cell>,
    laid: &Laid<'_>,
    lists: &mut Lists,
    leaf: Leaf,
) -> Result<(), AllocError>
    requires objects { laid.now.objects.now ≡ all_objects laid.now.table.now }
    requires classes { AreClassed laid.now.table.now laid.now.objects.now }
    requires few { length laid.now.objects.now ≤ most_objects }
    requires sizes { AreSizes laid.now.table.now laid.now.sizes.now }
    requires shape { IsShapeOf (length laid.now.table.now.classes)
        (length laid.now.table.now.enumerations) leaf.shape }
    requires lists { AreExtents laid.now.table.now.classes laid.now.objects.now lists.old.items }
    requires size { length lists.old.items ≡ length laid.now.table.now.classes }
    ensures cells { OnOk result (cells.new.items ≡ cells.old.items
        ++ leaf_cells laid.now.table.now leaf) }
    ensures lists { OnOk result (AreExtents laid.now.table.now.classes laid.now.objects.now
        lists.new.items) }
    ensures size { OnOk result (length lists.new.items ≡ length lists.old.items) }
{
    if let Resolved::RefSet(class, _) = leaf.shape {
        return push_set(alloc, cells, laid, lists, leaf, class);
    }
    let Some(domain) = domain_of(laid.table, leaf.shape) else {
        return Ok(());
    };
    cells.push(Cell {
        owner: leaf.owner,
        attribute: leaf.attribute,
        element: None,
        domain,
    })?;
    Ok(())
}

/// The cells of these leaves, in order.
pub(crate) fn cells_of_leaves(
    alloc: Global,
    laid: &Laid<'_>,
    leaves: &[Leaf],
) -> Result<Vec<Cell>, AllocError>
    requires objects { laid.now.objects.now ≡ all_objects laid.now.table.now }
    requires classes { AreClassed laid.now.table.now laid.now.objects.now }
    requires few { length laid.now.objects.now ≤ most_objects }
    requires sizes { AreSizes laid.now.table.now laid.now.sizes.now }
    requires shapes { AreThere laid.now.table.now leaves.now }
    ensures cells { IfOk result (λ cells. cells.items ≡ cells_of laid.now.table.now leaves.now) }
{
    let mut lists = no_lists(alloc, laid.table.class_count())?;
    let mut cells = Vec::new(alloc);
    for leaf in leaves {
        push_leaf(alloc, &mut cells, laid, &mut lists, *leaf)?;
    }
    Ok(cells)
}

/// The objects of a class's extent, by their numbers.
pub(crate) fn extent_of(
    alloc: Global,
    table: &ClassTable,
    objects: &[Object],
    class: u32,
) -> Result<ObjectList, AllocError>
    requires classes { AreClassed table.now objects.now }
    requires few { length objects.now ≤ most_objects }
    ensures extent { IfOk result (λ numbers. numbers ≡ extent_from table.now.classes class 0
        objects.now) }
{
    let mut numbers = Vec::new(alloc);
    for n in 0..objects.len() {
        let object = objects[n];
        if table.is_a(object.class, class) {
            numbers.push(n as u32)?;
        }
    }
    Ok(ObjectList::of(numbers))
}
