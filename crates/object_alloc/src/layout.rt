//! Lays out the objects and the leaves of a model in the order of its walk.
//!
//! `lay_members` is the entry. It is called for a model whose objects are counted: they are not too
//! many, and none stands so deep that the calls would go deep too. A leaf is kept also where it
//! gives no cell.
ghost use Rattle.std.specs.Prelude.{◌≡◌, ◌+◌, ◌<◌, ◌≤◌, ℕ, [], ◌∷◌, length, replicate, IfErr, OnOk, IfSome};
ghost use Rattle.model_limits.specs.Limits.{most_names};
ghost use Rattle.class_table.specs.Tables.{IsShapeOf};
ghost use Rattle.object_alloc.specs.declared.object.Leaf.{Leaf as ALeaf};
ghost use Rattle.object_alloc.specs.Cells.{shape_cells};
ghost use Rattle.object_alloc.specs.Laying.{AreSizes, IsReady, HasLaid, IsRefusedPart};
ghost use Rattle.object_alloc.specs.Sums.{held_kinds, kinds_of, kind, kinds_weight, weight, deep};
ghost use Rattle.object_alloc.specs.Variables.{variables};
ghost use Rattle.object_alloc.specs.Walk.{Passed, visit, members, attribute, elements};

use crate::fault::AllocFault;
use crate::object::{Inside, Leaf, Object};
use crate::shapes::{shape_at, variable_count};
use class_table::{ClassTable, Resolved};
use model_limits::MOST_CELLS;

/// How many leaves are laid out at most, those without cells too. A configuration's text has a key
/// for each, so with more of them it would take gigabytes: then memory is said to lack.
const MOST_LEAVES: usize = 1 << 24;

/// What was laid out so far, and how many cells its leaves give.
#[derive(Drop)]
pub(crate) struct Layout {
    pub objects: Vec<Object>,
    pub leaves: Vec<Leaf>,
    pub cells: u32,
}

/// The classes of a model, and how many objects the extent of each has.
#[derive(Clone, Copy)]
pub(crate) struct Extents<'a> {
    pub table: &'a ClassTable,
    pub sizes: &'a [u32],
}

/// How many cells a leaf of this shape gives.
fn cell_count(extents: Extents<'_>, shape: Resolved) -> u32
    requires sizes { AreSizes extents.table.now extents.sizes.now }
    requires shape { IsShapeOf (length extents.table.now.classes) (length
        extents.table.now.enumerations) shape }
    ensures count { (l : ALeaf) → result ≡ length (shape_cells extents.entry.table.now l shape) }
{
    match shape {
        Resolved::One(_) | Resolved::Many(_, _) => 0,
        Resolved::RefSet(class, _) => extents.sizes[class as usize],
        _ => 1,
    }
}

/// Lays out a leaf.
#[tactic(auto, using(crate::proofs::LayingLaws::leaf_laid, crate::proofs::LayingLaws::leaf_refused))]
fn lay_leaf(layout: &mut Layout, extents: Extents<'_>, leaf: Leaf) -> Result<(), AllocFault>
    requires ready { IsReady extents.table.now extents.sizes.now layout.old (λ n. Passed leaf ∷ []) }
    requires shape { IsShapeOf (length extents.table.now.classes) (length
        extents.table.now.enumerations) leaf.shape }
    ensures laid { OnOk result (HasLaid extents.entry.table.now layout.old layout.new (λ n. Passed
        leaf ∷ [])) }
    ensures fault { IfErr result (IsRefusedPart extents.entry.table.now layout.old (λ n. Passed leaf
        ∷ [])) }
{
    let count = cell_count(extents, leaf.shape);
    if count > MOST_CELLS - layout.cells {
        return Err(AllocFault::TooManyCells);
    }
    if layout.leaves.len() >= MOST_LEAVES {
        return Err(AllocFault::Memory);
    }
    layout.leaves.push(leaf)?;
    layout.cells += count;
    Ok(())
}

/// Lays out an object and all that is in it.
#[cycle(lay)]
fn lay_object(layout: &mut Layout, extents: Extents<'_>, object: Object) -> Result<(), AllocFault>
    requires ready { IsReady extents.table.now extents.sizes.now layout.old (λ n. visit
        extents.table.now n object) }
    requires class { object.class < length extents.table.now.classes }
    requires shallow { weight extents.table.now deep object.depth object.class ≡ 0 }
    ensures laid { OnOk result (HasLaid extents.entry.table.now layout.old layout.new
        (λ n. visit extents.entry.table.now n object)) }
    ensures fault { IfErr result (IsRefusedPart extents.entry.table.now layout.old
        (λ n. visit extents.entry.table.now n object)) }
{
    let number = layout.objects.len() as u32;
    layout.objects.push(object)?;
    let inside = Inside {
        owner: Some(number),
        depth: object.depth,
    };
    lay_members(layout, extents, inside, Some(object.class))
}

/// Lays out the variables of a class, or of the top level.
#[cycle(lay)]
pub(crate) fn lay_members(
    layout: &mut Layout,
    extents: Extents<'_>,
    inside: Inside,
    class: Option<u32>,
) -> Result<(), AllocFault>
    requires ready { IsReady extents.table.now extents.sizes.now layout.old (λ n. members (visit
        extents.table.now) inside 0 (variables extents.table.now class) n) }
    requires class { IfSome class (λ c. c < length extents.table.now.classes) }
    requires depth { inside.depth ≤ most_names }
    requires shallow { kinds_weight (weight extents.table.now deep)
        (kinds_of (inside.depth + 1) (variables extents.table.now class)) ≡ 0 }
    ensures laid { OnOk result (HasLaid extents.entry.table.now layout.old layout.new (λ n. members
        (visit extents.entry.table.now) inside 0 (variables extents.entry.table.now class) n)) }
    ensures fault { IfErr result (IsRefusedPart extents.entry.table.now layout.old (λ n. members
        (visit extents.entry.table.now) inside 0 (variables extents.entry.table.now class) n)) }
{
    for k in 0..variable_count(extents.table, class) {
        let shape = shape_at(extents.table, class, k);
        if let Err(fault) = lay_attribute(layout, extents, inside, k, shape) {
            return Err(fault);
        }
    }
    Ok(())
}

/// Lays out a variable of this number and shape.
#[cycle(lay)]
fn lay_attribute(
    layout: &mut Layout,
    extents: Extents<'_>,
    inside: Inside,
    k: u32,
    shape: Resolved,
) -> Result<(), AllocFault>
    requires ready { IsReady extents.table.now extents.sizes.now layout.old (λ n. attribute (visit
        extents.table.now) inside k shape n) }
    requires shape { IsShapeOf (length extents.table.now.classes) (length
        extents.table.now.enumerations) shape }
    requires depth { inside.depth ≤ most_names }
    requires shallow { kinds_weight (weight extents.table.now deep) (held_kinds (inside.depth + 1)
        shape) ≡ 0 }
    ensures laid { OnOk result (HasLaid extents.entry.table.now layout.old layout.new
        (λ n. attribute (visit extents.entry.table.now) inside k shape n)) }
    ensures fault { IfErr result (IsRefusedPart extents.entry.table.now layout.old
        (λ n. attribute (visit extents.entry.table.now) inside k shape n)) }
{
    match shape {
        Resolved::One(class) => {
            let object = Object {
                class,
                depth: inside.depth + 1,
                owner: inside.owner,
                attribute: k,
                element: 0,
            };
            lay_object(layout, extents, object)
        }
        Resolved::Many(class, count) => { lay_elements(layout, extents, inside, k, class, count) }
        _ => {
            let leaf = Leaf {
                owner: inside.owner,
                attribute: k,
                shape,
            };
            lay_leaf(layout, extents, leaf)
        }
    }
}

/// Lays out an array of so many objects of a class.
#[cycle(lay)]
fn lay_elements(
    layout: &mut Layout,
    extents: Extents<'_>,
    inside: Inside,
    k: u32,
    class: u32,
    count: u32,
) -> Result<(), AllocFault>
    requires ready { IsReady extents.table.now extents.sizes.now layout.old (λ n. elements (visit
        extents.table.now) inside k class count 0 n) }
    requires class { class < length extents.table.now.classes }
    requires depth { inside.depth ≤ most_names }
    requires shallow { kinds_weight (weight extents.table.now deep)
        (replicate count (kind class (inside.depth + 1))) ≡ 0 }
    ensures laid { OnOk result (HasLaid extents.entry.table.now layout.old layout.new
        (λ n. elements (visit extents.entry.table.now) inside k class count 0 n)) }
    ensures fault { IfErr result (IsRefusedPart extents.entry.table.now layout.old
        (λ n. elements (visit extents.entry.table.now) inside k class count 0 n)) }
{
    for i in 0..count {
        let object = Object {
            class,
            depth: inside.depth + 1,
            owner: inside.owner,
            attribute: k,
            element: i,
        };
        if let Err(fault) = lay_object(layout, extents, object) {
            return Err(fault);
        }
    }
    Ok(())
}
