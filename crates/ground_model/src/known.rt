//! Cells whose values follow from the constraints that need no sum, count or packing, and from the
//! sizes of sets.
//!
//! These are stated in a problem of their own, whose root boxes tell which cells have one value
//! left. In the model's problem the values are stated first, and everything else may name
//! them.
ghost use Rattle.std.specs.Prelude.{◌≤◌, ◌≡◌, ◌<◌, ◌∷◌, ℕ, ℤ, List, [], true, false, length, IfOk, IfSome, OnOk};
ghost use Rattle.std.specs.List.{All};
ghost use Rattle.std.specs.Ordering.{int_eq};
ghost use Rattle.signed_clause.specs.Ranges.{has, in_range};
ghost use Rattle.signed_clause.specs.Clauses.{box_of};
ghost use Rattle.ground_form.specs.Meaning.{value_of};
ghost use Rattle.ground_form.specs.Solutions.{IsPoint};
ghost use Rattle.ground_form.specs.StandsFor.{StandsFor};
ghost use Rattle.ground_cells.specs.CellBoxes.{cell_boxes};
ghost use Rattle.form_build.specs.Worlds.{AreSome, AreKnown};
ghost use Rattle.ground_model.specs.Fixing.{satisfied_by_fixing};
ghost use Rattle.ground_model.specs.Known.{IsSingle, IsValueOfCell, have_values};
ghost use Rattle.ground_model.specs.Requiring.{Requires};
ghost use Rattle.ground_model.specs.Stated.{IsReadyConstraint};

use crate::constraints::require_fixing;
use crate::origins::Origins;
use crate::sets::require_full_sets;
use conf_types::Constraint;
use form_build::Maker;
use form_truths::{Test, literal, state};
use ground_build::Builder;
use ground_cells::cell_boxes;
use ground_form::{Goals, Ground};
use object_alloc::Objects;
use root_boxes::{Root, root_of};
use signed_clause::IntSet;
use std::alloc::{AllocError, Global};

/// The problem of a model's cells, of the sizes of its sets, and of those constraints that may give
/// some cells their values.
fn fixing_problem(
    alloc: Global,
    objects: &Objects<'_>,
    list: &[Constraint],
    origins: &mut Origins,
) -> Result<Ground, AllocError>
    requires ready { All (IsReadyConstraint objects.now) list.now }
    requires some { AreSome (cell_boxes objects.now) }
    ensures some { IfOk result (λ g. AreSome g.domains) }
    ensures stands { IfOk result (λ g. StandsFor g (cell_boxes objects.now)
        (satisfied_by_fixing objects.now list.now) []) }
{
    let _count = objects.count();
    let cells = cell_boxes(alloc, objects)?;
    let mut maker = Maker::over(alloc, Builder::new(alloc, &cells)?);
    require_full_sets(&mut maker, objects)?;
    require_fixing(&mut maker, objects, list, origins)?;
    let _some = maker.domains();
    Ok(maker.into_builder().finish(Goals::of(Vec::new(alloc))))
}

/// The value of a set, where it has just one.
fn only_value(set: &IntSet) -> Option<i64>
    ensures { IfSome result (λ v. set.now ≡ (v, v) ∷ []) }
{
    match set.ranges() {
        [r] => { if r.0 == r.1 { Some(r.0) } else { None } }
        _ => None,
    }
}

/// Adds the variable with the value of its box, where that has just one.
fn push_single(found: &mut Vec<(u32, i64)>, boxes: &[IntSet], x: u32) -> Result<(), AllocError>
    requires exists { x < length boxes.now }
    ensures { OnOk result ((n : ℕ) → x < n → All (IsSingle boxes.now n) found.old.items
        → All (IsSingle boxes.now n) found.new.items) }
{
    if let Some(v) = only_value(&boxes[x as usize]) {
        found.push((x, v))?;
    }
    Ok(())
}

/// Those of the first variables whose boxes have one value, with this value, in their order.
fn singles(alloc: Global, boxes: &[IntSet], search: u32) -> Result<Vec<(u32, i64)>, AllocError>
    requires exist { search ≤ length boxes.now }
    ensures { IfOk result (λ ks. All (IsSingle boxes.now search) ks.items) }
{
    let mut found = Vec::new(alloc);
    for x in 0..search {
        push_single(&mut found, boxes, x)?;
    }
    Ok(found)
}

/// The cells whose values follow from the sizes of sets and the constraints that may fix some, with
/// these values. The origins are told which constraints these rest on.
pub(crate) fn known_cells(
    alloc: Global,
    objects: &Objects<'_>,
    list: &[Constraint],
    origins: &mut Origins,
) -> Result<Vec<(u32, i64)>, AllocError>
    requires ready { All (IsReadyConstraint objects.now) list.now }
    requires some { AreSome (cell_boxes objects.now) }
    ensures cells { IfOk result (λ ks. All (IsValueOfCell objects.now) ks.items) }
    ensures follow { IfOk result (λ ks. (t : List ℤ) → IsPoint (cell_boxes objects.now) t
        → satisfied_by_fixing objects.now list.now t ≡ true → AreKnown ks.items t) }
{
    let mut stated = Origins::new(alloc);
    let g = fixing_problem(alloc, objects, list, &mut stated)?;
    let root = root_of(alloc, &g)?;
    origins.note_fixing(&stated, root.acted.as_slice())?;
    let known = singles(alloc, root.boxes.as_slice(), g.search)?;
    Ok(known)
}

/// The set of a cell's value alone.
fn own_set(alloc: Global, k: (u32, i64)) -> IntSet
    ensures { (v : ℤ) → has result v ≡ in_range (k.1, k.1) v }
{
    IntSet::range(alloc, k.1, k.1)
}

/// States that a cell has its value.
fn require_value(maker: &mut Maker, k: (u32, i64)) -> Result<(), AllocError>
    requires cell { k.0 < maker.old.search }
    requires exists { k.0 < length maker.old.domains }
    ensures says { OnOk result (Requires [] maker.old maker.new
        (λ values. int_eq (value_of values k.0) k.1)) }
{
    maker.ask(2)?;
    let only = own_set(maker.alloc(), k);
    let test = Test::Holds(literal(maker.domains(), k.0, only));
    state(maker, &test)?;
    Ok(())
}

/// States that these cells have their values.
pub(crate) fn require_values(maker: &mut Maker, known: &[(u32, i64)]) -> Result<(), AllocError>
    requires cells { All (λ k. k.0 < maker.old.search) known.now }
    requires exist { All (λ k. k.0 < length maker.old.domains) known.now }
    ensures says { OnOk result (Requires [] maker.old maker.new
        (λ values. have_values values known.now)) }
{
    for k in known {
        require_value(maker, *k)?;
    }
    Ok(())
}
