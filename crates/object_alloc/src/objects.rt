//! The objects of a model: how they are allocated, and what is asked of them.
ghost use Rattle.std.specs.Prelude.{All, ◌≡◌, ◌<◌, ℕ, Some, length, slice_index_or, IfOk, IfErr, IfSome};
ghost use Rattle.class_table.specs.declared.table.Variable.{Variable as AVariable};
ghost use Rattle.class_table.specs.Ancestry.{derives};
ghost use Rattle.class_table.specs.Outline.{is_a};
ghost use Rattle.class_table.specs.Sound.{IsSound};
ghost use Rattle.class_table.specs.Tables.{IsFew};
ghost use Rattle.object_alloc.specs.declared.object.Cell.{Cell as ACell};
ghost use Rattle.object_alloc.specs.declared.object.Object.{Object as AnObject};
ghost use Rattle.object_alloc.specs.Cells.{cells as all_cells, extent, IsDomainOf};
ghost use Rattle.object_alloc.specs.Groups.{parts_of, own_cells};
ghost use Rattle.object_alloc.specs.Variables.{variables_of};
ghost use Rattle.object_alloc.specs.Parts.{IsElement, IsPart};
ghost use Rattle.object_alloc.specs.Paths.{is_inside, owner_in, path};
ghost use Rattle.object_alloc.specs.Limits.{IsRefused, IsWithinLimits};
ghost use Rattle.object_alloc.specs.Walk.{objects as all_objects, leaves_in, walk};

use crate::cells::{Laid, cells_of_leaves, extent_of};
use crate::extents::extent_sizes;
use crate::fault::AllocFault;
use crate::groups::{Groups, Place, cells_by_place, group_of, parts_of_objects};
use crate::layout::{Extents, Layout, lay_members};
use crate::object::{Cell, Inside, Leaf, Object, ObjectList};
use crate::paths::push_path;
use crate::queue::{has_deep, queue_all};
use crate::shapes::{class_of, shape_at, variable_count};
use crate::spots::{Held, Spots, part_at, spots_of};
use class_table::{ClassTable, Resolved};
use conf_syntax::PathText;
use std::alloc::{AllocError, Global};
use std::marker::Model;

/// The objects and the cells of a model, with the table of its classes. They are seen as that table
/// is: the outline of a model decides its objects.
#[derive(Drop)]
pub struct Objects<'t> {
    table: &'t ClassTable,
    objects: Vec<Object>,
    leaves: Vec<Leaf>,
    cells: Vec<Cell>,
    /// How many objects the extent of each class has.
    sizes: Vec<u32>,
    /// The objects by where they are held. A look-up gives a hint, and no answer rests on it alone.
    spots: Spots,
    /// The numbers of the objects that each attribute holds.
    parts: Groups,
    /// The numbers of the cells of each attribute.
    own_cells: Groups,
}

impl<'t> Model for Objects<'t> {
    ghost use Rattle.class_table.specs.Outline.{Outline};
    ghost use Rattle.object_alloc.specs.Grouping.{group};
    ghost use Rattle.object_alloc.specs.Laid.{IsLaidOut};

    ghost Value = { Outline };

    ghost view = { λ t. t.table.now };

    ghost invariant = { λ t. IsLaidOut t.table.now t.objects.items t.leaves.items t.cells.items t.sizes.items (group t.parts.entries) (group t.own_cells.entries) };
}

/// The objects and the cells of a model.
///
/// # Errors
///
/// The first limit, in the order of `AllocFault`, that the model breaks; `Memory` where there is
/// none left, or where there would be more than 16,777,216 leaves. No limit is passed over: a model
/// that breaks one has no `Objects`.
pub fn allocate<'t>(alloc: Global, table: &'t ClassTable) -> Result<Objects<'t>, AllocFault>
    ensures objects { IfOk result (λ objects. objects ≡ table.now) }
    ensures limits { IfOk result (λ objects. IsWithinLimits table.now) }
    ensures fault { IfErr result (IsRefused table.now) }
{
    let _classes = table.class_count();
    let queue = match queue_all(alloc, table) {
        Ok(queue) => queue,
        Err(fault) => return Err(fault),
    };
    if has_deep(&queue) {
        return Err(AllocFault::TooDeep);
    }
    let sizes = extent_sizes(alloc, table, &queue)?;
    let mut layout = Layout {
        objects: Vec::new(alloc),
        leaves: Vec::new(alloc),
        cells: 0,
    };
    let top = Inside {
        owner: None,
        depth: 0,
    };
    let extents = Extents {
        table,
        sizes: &sizes,
    };
    if let Err(fault) = lay_members(&mut layout, extents, top, None) {
        return Err(fault);
    }
    let laid = Laid {
        table,
        objects: &layout.objects,
        sizes: &sizes,
    };
    let cells = cells_of_leaves(alloc, &laid, &layout.leaves)?;
    let spots = spots_of(alloc, &layout.objects)?;
    let parts = parts_of_objects(alloc, &layout.objects)?;
    let own_cells = cells_by_place(alloc, &cells)?;
    Ok(Objects {
        table,
        objects: layout.objects,
        leaves: layout.leaves,
        cells,
        sizes,
        spots,
        parts,
        own_cells,
    })
}

impl<'t> Objects<'t> {
    /// How many objects there are.
    pub fn count(&self) -> u32
        ensures count { result ≡ length (all_objects self.now) }
        ensures sound { IsSound self.now }
        ensures values { All IsFew self.now.enumerations }
        ensures limits { IsWithinLimits self.now }
    {
        self.objects.len() as u32
    }

    /// The class of an object.
    pub fn class(&self, object: u32) -> u32
        requires object { object < length (all_objects self.now) }
        ensures class { (d : AnObject) → result
            ≡ (slice_index_or (all_objects self.now) object d).class }
        ensures there { result < length self.now.classes }
    {
        self.objects[object as usize].class
    }

    /// Whether an object is of the extent of a class.
    pub fn is_of(&self, object: u32, class: u32) -> bool
        requires object { object < length (all_objects self.now) }
        ensures is { (d : AnObject) → result
            ≡ is_a self.now.classes (slice_index_or (all_objects self.now) object d).class class }
    {
        self.table.is_a(self.class(object), class)
    }

    /// The leaves, in the order of the walk, also those that give no cell.
    pub fn leaves(&self) -> &[Leaf]
        ensures leaves { result.now ≡ leaves_in (walk self.now) }
    {
        &self.leaves
    }

    /// The cells, in order.
    pub fn cells(&self) -> &[Cell]
        ensures cells { result.now ≡ all_cells self.now }
        ensures domains { All (λ (c : ACell). IsDomainOf (length self.now.classes) c.domain)
            result.now }
    {
        &self.cells
    }

    /// The objects, in order.
    pub fn objects(&self) -> &[Object]
        ensures objects { result.now ≡ all_objects self.now }
    {
        &self.objects
    }

    /// How many objects the extent of a class has.
    pub fn extent_count(&self, class: u32) -> u32
        requires class { class < length self.now.classes }
        ensures count { result ≡ length (extent self.now class) }
    {
        self.sizes[class as usize]
    }

    /// The objects of a class's extent, by their numbers, in order.
    pub fn extent(&self, alloc: Global, class: u32) -> Result<ObjectList, AllocError>
        requires class { class < length self.now.classes }
        ensures extent { IfOk result (λ numbers. numbers ≡ extent self.now class) }
    {
        extent_of(alloc, self.table, &self.objects, class)
    }

    /// Whether an object is `whole`, or is contained, at any depth, in it. The cost is the number
    /// of objects between them.
    pub fn inside(&self, object: u32, whole: u32) -> bool
        requires object { object < length (all_objects self.now) }
        ensures inside { result ≡ is_inside self.now object whole }
    {
        is_in(&self.objects, object, whole)
    }

    /// The path of an object.
    pub fn path_of(&self, alloc: Global, object: u32) -> Result<PathText, AllocError>
        requires object { object < length (all_objects self.now) }
        ensures path { IfOk result (λ text. text ≡ path self.now object) }
    {
        let mut text = Vec::new(alloc);
        push_path(alloc, &mut text, self.table, &self.objects, object)?;
        PathText::of(alloc, &text)
    }

    /// The object that is an element of an attribute of an object, or of a variable of the top
    /// level. The one object of an attribute that is no array is element 0.
    pub fn part(&self, owner: Option<u32>, k: u32, element: u32) -> u32
        requires owner { IfSome owner (λ n. n < length (all_objects self.now)) }
        requires attribute { k < length (variables_of self.now owner) }
        requires element { (d : AVariable) → IsElement (slice_index_or (variables_of self.now owner)
            k d).shape element }
        ensures there { result < length (all_objects self.now) }
        ensures part { (d : AnObject) → IsPart owner k element
            (slice_index_or (all_objects self.now) result d) }
    {
        let spot = Held {
            owner,
            attribute: k,
            element,
        };
        part_at(&self.objects, &self.spots, spot)
    }

    /// The objects that an attribute of an object, or a variable of the top level, holds, by their
    /// numbers, in order. Where there is no such attribute there are none.
    pub fn parts(&self, owner: Option<u32>, k: u32) -> &[u32]
        ensures parts { result.now ≡ parts_of self.now owner k }
    {
        let place = Place {
            owner,
            attribute: k,
        };
        group_of(&self.parts, place)
    }

    /// The numbers of the cells of an attribute of an object, or of a variable of the top level, in
    /// order. Where there is no such attribute there are none.
    pub fn own_cells(&self, owner: Option<u32>, k: u32) -> &[u32]
        ensures cells { result.now ≡ own_cells self.now owner k }
    {
        let place = Place {
            owner,
            attribute: k,
        };
        group_of(&self.own_cells, place)
    }

    /// How many attributes an object has, inherited ones too; for None how many variables the top
    /// level has.
    pub fn shape_count(&self, owner: Option<u32>) -> u32
        requires owner { IfSome owner (λ n. n < length (all_objects self.now)) }
        ensures count { result ≡ length (variables_of self.now owner) }
    {
        variable_count(self.table, class_of(&self.objects, owner))
    }

    /// The shape of an attribute of an object, by its number, or of a variable of the top level.
    pub fn shape(&self, owner: Option<u32>, k: u32) -> Resolved
        requires owner { IfSome owner (λ n. n < length (all_objects self.now)) }
        requires attribute { k < length (variables_of self.now owner) }
        ensures shape { (d : AVariable) → result
            ≡ (slice_index_or (variables_of self.now owner) k d).shape }
    {
        shape_at(self.table, class_of(&self.objects, owner), k)
    }

    /// The table of the model's classes, borrowed for as long as the objects borrow it.
    pub fn table(&self) -> &'t ClassTable
        ensures table { result.now ≡ self.now }
    {
        self.table
    }
}

/// Whether an object is `whole`, or is contained, at any depth, in it.
fn is_in(objects: &[Object], object: u32, whole: u32) -> bool
    requires owners { (n p : ℕ) → owner_in objects.now n ≡ Some p → p < length objects.now }
    requires object { object < length objects.now }
    ensures inside { result ≡ derives (owner_in objects.now) (length objects.now) object whole }
{
    let mut at = object;
    for _step in 0..objects.len() {
        if at == whole {
            return true;
        }
        match owner_of(objects, at) {
            Some(owner) => at = owner,
            None => return false,
        }
    }
    at == whole
}

/// The object that holds an object.
#[tactic(auto, using(crate::proofs::Asked::owner_read))]
fn owner_of(objects: &[Object], object: u32) -> Option<u32>
    requires object { object < length objects.now }
    ensures owner { result ≡ owner_in objects.now object }
{
    objects[object as usize].owner
}
