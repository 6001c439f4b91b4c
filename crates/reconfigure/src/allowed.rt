//! What keeps failed objects out: for each cell that could name one a clause of one literal, which
//! leaves it its other values.
ghost use Rattle.std.specs.Prelude.{◌≡◌, ◌<◌, ℕ, ℤ, List, [], ◌∷◌, cond, not, ◌&&◌, length, pos, take, slice_index_or, IfOk, IfSome, OnOk};
ghost use Rattle.std.specs.List.{list_all};
ghost use Rattle.object_alloc.specs.declared.object.Cell.{Cell as ACell};
ghost use Rattle.object_alloc.specs.Cells.{cells as all_cells};
ghost use Rattle.object_alloc.specs.Changes.{allowed, is_sound, named_by};
ghost use Rattle.object_alloc.specs.Members.{is_one};
ghost use Rattle.signed_clause.specs.Ranges.{Ranges, has};
ghost use Rattle.signed_clause.specs.Clauses.{box_of};
ghost use Rattle.ground_form.specs.Meaning.{value_of};
ghost use Rattle.form_build.specs.Worlds.{Adds, IsFew};
ghost use Rattle.reconfigure.specs.CellsFirst.{HasCells};
ghost use Rattle.reconfigure.specs.Marking.{AreFailed};
ghost use Rattle.reconfigure.specs.Rests.{AreRests};

use crate::failed::Failed;
use form_build::{Maker, Truth};
use form_truths::state_truth;
use object_alloc::{Cell, Domain, Objects};
use signed_clause::IntSet;
use std::alloc::AllocError;

/// What is left of the box that cells of a class have.
#[derive(Drop)]
struct ExtentRest {
    class: u32,
    /// The box.
    whole: IntSet,
    /// Its values that aren't forbidden.
    rest: IntSet,
}

/// What is left of this box, if it is among these.
fn found<'a>(kept: &'a [ExtentRest], class: u32, whole: &IntSet) -> Option<&'a IntSet>
    ensures { (values : Ranges) → AreRests values kept.now
        → IfSome result (λ s. (v : ℤ) → has s.now v ≡ (has whole.now v && not (has values v))) }
{
    for r in kept {
        if r.class == class && r.whole.same(whole) {
            return Some(&r.rest);
        }
    }
    None
}

/// What is left of this box without the values of a set. It is kept for further cells, which share
/// its memory.
fn rest_of(
    kept: &mut Vec<ExtentRest>,
    class: u32,
    whole: &IntSet,
    values: &IntSet,
) -> Result<IntSet, AllocError>
    requires kept { AreRests values.now kept.old.items }
    ensures rest { IfOk result (λ s. (v : ℤ)
        → has s v ≡ (has whole.now v && not (has values.now v))) }
    ensures kept { OnOk result (AreRests values.now kept.new.items) }
{
    if let Some(rest) = found(kept, class, whole) {
        return rest.copy();
    }
    let rest = whole.less(values)?;
    let copy = rest.copy()?;
    let whole = whole.copy()?;
    kept.push(ExtentRest { class, whole, rest })?;
    Ok(copy)
}

/// The box of a variable.
fn box_at(boxes: &[IntSet], x: u32) -> &IntSet
    requires exists { x < length boxes.now }
    ensures { result.now ≡ box_of boxes.now x }
{
    &boxes[x as usize]
}

/// States that a variable has none of these values, where its box has one; `rest` has the others of
/// its box.
fn forbid(maker: &mut Maker, x: u32, values: &IntSet, rest: IntSet) -> Result<(), AllocError>
    requires exists { x < length maker.old.domains }
    requires rest { (v : ℤ) → has rest v
        ≡ (has (box_of maker.old.domains x) v && not (has values.now v)) }
    ensures says { OnOk result (Adds [] maker.old maker.new
        (λ a. not (has values.now (value_of a x)))) }
    ensures few { OnOk result (IsFew 1 maker.old maker.new) }
{
    if box_at(maker.domains(), x).disjoint(values) {
        return Ok(());
    }
    maker.ask(1)?;
    state_truth(maker, Truth::In(x, rest))?;
    Ok(())
}

/// Whether an object failed, or is in one that did.
fn is_failed(failed: &Failed, n: u32) -> bool
    ensures { result ≡ has failed.now.inside (pos n) }
{
    failed.inside.contains(i64::from(n))
}

/// States that an object isn't a member of a set, where it failed or is in one that did.
fn allow_member(
    maker: &mut Maker,
    objects: &Objects<'_>,
    failed: &Failed,
    n: u32,
    x: u32,
) -> Result<(), AllocError>
    requires failed { AreFailed objects.now failed.now }
    requires exists { x < length maker.old.domains }
    ensures says { OnOk result (Adds [] maker.old maker.new
        (λ a. list_all (is_sound objects.now failed.now.numbers.items)
        (cond (is_one (value_of a x)) (n ∷ []) []))) }
    ensures few { OnOk result (IsFew 1 maker.old maker.new) }
{
    let _count = objects.count();
    if is_failed(failed, n) {
        let member = IntSet::range(maker.alloc(), 1, 1);
        let rest = box_at(maker.domains(), x).less(&member)?;
        forbid(maker, x, &member, rest)?;
        return Ok(());
    }
    Ok(())
}

/// States that a cell names no failed object.
fn allow_cell(
    maker: &mut Maker,
    kept: &mut Vec<ExtentRest>,
    objects: &Objects<'_>,
    failed: &Failed,
    cell: Cell,
    x: u32,
) -> Result<(), AllocError>
    requires kept { AreRests failed.now.inside kept.old.items }
    requires cells { HasCells objects.now maker.old }
    requires failed { AreFailed objects.now failed.now }
    requires exists { x < length (all_cells objects.now) }
    requires cell { cell ≡ slice_index_or (all_cells objects.now) x cell }
    ensures says { OnOk result (Adds [] maker.old maker.new
        (λ a. list_all (is_sound objects.now failed.now.numbers.items)
        (named_by cell (value_of a x)))) }
    ensures few { OnOk result (IsFew 1 maker.old maker.new) }
    ensures kept { OnOk result (AreRests failed.now.inside kept.new.items) }
{
    if let Some(n) = cell.element {
        allow_member(maker, objects, failed, n, x)?;
        return Ok(());
    }
    if let Domain::Extent(class) = cell.domain {
        let rest = rest_of(kept, class, box_at(maker.domains(), x), &failed.inside)?;
        forbid(maker, x, &failed.inside, rest)?;
        return Ok(());
    }
    Ok(())
}

/// The cell of this number.
fn cell_at(cells: &[Cell], i: usize) -> Cell
    requires { i < length cells.now }
    ensures { (d : ACell) → result ≡ slice_index_or cells.now i d }
{
    cells[i]
}

/// States that no cell names a failed object.
pub(crate) fn require_allowed(
    maker: &mut Maker,
    objects: &Objects<'_>,
    failed: &Failed,
) -> Result<(), AllocError>
    requires cells { HasCells objects.now maker.old }
    requires failed { AreFailed objects.now failed.now }
    ensures says { OnOk result (Adds [] maker.old maker.new
        (λ a. allowed objects.now failed.now.numbers.items (take maker.old.search a))) }
    ensures few { OnOk result (IsFew (length (all_cells objects.now)) maker.old maker.new) }
{
    let _count = objects.count();
    let cells = objects.cells();
    let mut kept = Vec::new(maker.alloc());
    for i in 0..cells.len() {
        allow_cell(
            maker,
            &mut kept,
            objects,
            failed,
            cell_at(cells, i),
            i as u32,
        )?;
    }
    Ok(())
}
