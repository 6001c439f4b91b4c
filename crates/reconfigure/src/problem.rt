//! The problem of a repair.
//!
//! What keeps failed objects out is stated, and the number of changes is defined; everything else
//! that is made are definitions. The number of changes is the first goal.
ghost use Rattle.std.specs.Prelude.{◌≡◌, ◌<◌, ◌≤◌, ◌^◌, ◌&&◌, ◌∷◌, ℤ, Bool, List, None, true, false, length, pos, take, IfErr, IfOk};
ghost use Rattle.std.specs.List.{All, list_any};
ghost use Rattle.object_alloc.specs.Cells.{cells as all_cells};
ghost use Rattle.object_alloc.specs.Changes.{allowed, changes};
ghost use Rattle.signed_clause.specs.Ranges.{is_nil};
ghost use Rattle.signed_clause.specs.Clauses.{Boxes};
ghost use Rattle.ground_form.specs.StandsFor.{StandsFor};
ghost use Rattle.ground_form.specs.WellMade.{IsWellMade};
ghost use Rattle.form_build.specs.Worlds.{IsFew};
ghost use Rattle.ground_cells.specs.CellBoxes.{cell_boxes};
ghost use Rattle.reconfigure.specs.Counting.{IsCount};
ghost use Rattle.reconfigure.specs.Failing.{objects_named, unknown_word, IsFailedError};
ghost use Rattle.reconfigure.specs.Marking.{AreFailed};
ghost use Rattle.reconfigure.specs.Repairing.{Extends, IsCounted, least};

use crate::allowed::require_allowed;
use crate::changed::count_changes;
use crate::count::Count;
use crate::failed::{Failed, FailedError, failed_objects, unknown_word};
use block_sums::sum_variable;
use conf_syntax::PathText;
use form_build::Maker;
use ground_build::Builder;
use ground_form::{Goals, Ground, GroundGoal};
use object_alloc::Objects;
use signed_clause::IntSet;
use std::alloc::{AllocError, Global};

/// Whether some box is empty.
fn has_empty(boxes: &[IntSet]) -> bool
    ensures { result ≡ list_any is_nil boxes.now }
{
    for values in boxes {
        if values.is_empty() {
            return true;
        }
    }
    false
}

/// The goals with one more in front: to make the variable as small as can be.
fn with_least(goals: &Goals, var: u32) -> Result<Goals, AllocError>
    ensures { IfOk result (λ gs. gs ≡ least var ∷ goals.now) }
{
    let mut list = goals.copy()?.into_items();
    list.insert(0, GroundGoal { var, max: false })?;
    Ok(Goals::of(list))
}

/// The problem with a goal more, where some box is empty. No configuration has values of the other
/// variables then, so there is none, and the problem stands for whatever is asked of one.
fn idle_problem(g: Ground) -> Result<Ground, AllocError>
    requires well_made { IsWellMade g }
    requires empty { list_any is_nil g.domains ≡ true }
    ensures stands { IfOk result (λ new. (cells : Boxes) (test passes : List ℤ → Bool)
        (functions : List (Bool × (List ℤ → ℤ))) (count : List ℤ → ℤ)
        → StandsFor g cells test functions
        → StandsFor new cells passes ((false, count) ∷ functions)) }
    ensures extends { IfOk result (Extends g) }
    ensures few { IfOk result (IsFew 0 g) }
{
    let goals = with_least(&g.goals, 0)?;
    let new = Builder::over_owned(g).finish(goals);
    Ok(new)
}

/// What was built, with the count as a variable that is to be made as small as can be, before these
/// goals.
fn counted_problem(maker: Maker, count: &Count, goals: &Goals) -> Result<Ground, AllocError>
    requires goals { All (λ goal. goal.var < length maker.domains) goals.now }
    requires count { IsCount maker.domains (2 ^ 20) count.now }
    ensures { IfOk result (IsCounted maker count.now goals.now) }
{
    let mut maker = maker;
    let x = sum_variable(&mut maker, &count.terms, count.offset)?;
    let goals = with_least(goals, x)?;
    let new = maker.into_builder().finish(goals);
    Ok(new)
}

/// What is asked of a repair: the problem with what keeps failed objects out, and with the number
/// of changes as its first goal. No box is empty.
fn repaired_problem(
    alloc: Global,
    g: Ground,
    objects: &Objects<'_>,
    former: &[Option<i64>],
    failed: &Failed,
) -> Result<Ground, AllocError>
    requires well_made { IsWellMade g }
    requires some { list_any is_nil g.domains ≡ false }
    requires searched { g.search ≡ length (cell_boxes objects.now) }
    requires cells { take g.search g.domains ≡ cell_boxes objects.now }
    requires hints { length (all_cells objects.now) ≤ length former.now }
    requires failed { AreFailed objects.now failed.now }
    ensures stands { IfOk result (λ new. (test : List ℤ → Bool)
        (functions : List (Bool × (List ℤ → ℤ)))
        → StandsFor g (cell_boxes objects.now) test functions
        → StandsFor new (cell_boxes objects.now)
        (λ t. test t && allowed objects.now failed.now.numbers.items t)
        ((false, λ t. pos (changes objects.now former.now t)) ∷ functions)) }
    ensures extends { IfOk result (Extends g) }
    ensures few { IfOk result (IsFew (2 ^ 18) g) }
{
    let _count = objects.count();
    let goals = g.goals.copy()?;
    let mut maker = Maker::over(alloc, Builder::over_owned(g));
    require_allowed(&mut maker, objects, failed)?;
    let count = count_changes(&mut maker, objects, former)?;
    let new = counted_problem(maker, &count, &goals)?;
    Ok(new)
}

/// The same, where some box may be empty.
fn changed_problem(
    alloc: Global,
    g: Ground,
    objects: &Objects<'_>,
    former: &[Option<i64>],
    failed: &[PathText],
) -> Result<Ground, AllocError>
    requires well_made { IsWellMade g }
    requires searched { g.search ≡ length (cell_boxes objects.now) }
    requires cells { take g.search g.domains ≡ cell_boxes objects.now }
    requires hints { length (all_cells objects.now) ≤ length former.now }
    ensures stands { IfOk result (λ new. (test : List ℤ → Bool)
        (functions : List (Bool × (List ℤ → ℤ)))
        → StandsFor g (cell_boxes objects.now) test functions
        → StandsFor new (cell_boxes objects.now)
        (λ t. test t && allowed objects.now (objects_named objects.now failed.now) t)
        ((false, λ t. pos (changes objects.now former.now t)) ∷ functions)) }
    ensures extends { IfOk result (Extends g) }
    ensures few { IfOk result (IsFew (2 ^ 18) g) }
{
    let failed = failed_objects(alloc, objects, failed)?;
    if has_empty(g.domains.items()) {
        let new = idle_problem(g)?;
        return Ok(new);
    }
    let new = repaired_problem(alloc, g, objects, former, &failed)?;
    Ok(new)
}

/// The ground problem of a repair, made of that of a model. Where the old problem stands for a test
/// and for functions, the new one stands for that test and that no object that failed, or is in one
/// that did, is referred to; and it makes the number of leaves that have another value than their
/// former one as small as can be, before the functions. `former` has a hint, or none, for each
/// cell, in the cells' order, and the words of `failed` are paths of objects. The old variables and
/// constraints stand before the new ones, of which there are at most 2^18 each.
///
/// # Errors
///
/// `UnknownObject` exactly where a word is the path of no object: the first such one. `Memory`
/// where there is none left, or the old problem has so many variables or constraints that more
/// can't be numbered.
pub fn with_changes(
    alloc: Global,
    g: Ground,
    objects: &Objects<'_>,
    former: &[Option<i64>],
    failed: &[PathText],
) -> Result<Ground, FailedError>
    requires well_made { IsWellMade g }
    requires searched { g.search ≡ length (cell_boxes objects.now) }
    requires cells { take g.search g.domains ≡ cell_boxes objects.now }
    requires hints { length (all_cells objects.now) ≤ length former.now }
    ensures stands { IfOk result (λ new. (test : List ℤ → Bool)
        (functions : List (Bool × (List ℤ → ℤ)))
        → StandsFor g (cell_boxes objects.now) test functions
        → StandsFor new (cell_boxes objects.now)
        (λ t. test t && allowed objects.now (objects_named objects.now failed.now) t)
        ((false, λ t. pos (changes objects.now former.now t)) ∷ functions)) }
    ensures extends { IfOk result (Extends g) }
    ensures few { IfOk result (IsFew (2 ^ 18) g) }
    ensures known { IfOk result (λ new. unknown_word objects.now failed.now ≡ None) }
    ensures fault { IfErr result (IsFailedError objects.now failed.now) }
{
    if let Some(number) = unknown_word(objects, failed) {
        return Err(FailedError::UnknownObject(number));
    }
    let new = changed_problem(alloc, g, objects, former, failed)?;
    Ok(new)
}
