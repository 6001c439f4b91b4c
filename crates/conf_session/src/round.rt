//! The round that answers an event: its problem, and the search over it.
ghost use Rattle.std.specs.Prelude.{◌≡◌, List, ℤ, Bool, length, [], None, Some, true, IfOk, OnOk};
ghost use Rattle.ground_cells.specs.CellBoxes.{cell_boxes};
ghost use Rattle.ground_form.specs.StandsFor.{StandsFor};
ghost use Rattle.ground_form.specs.WellMade.{IsWellMade};
ghost use Rattle.reconfigure.specs.Failing.{unknown_word};
ghost use Rattle.reconfigure.specs.Repairing.{Extends};
ghost use Rattle.conf_session.specs.Standing.{IsOver};
ghost use Rattle.conf_session.specs.Steps.{RepairsFor, IsSearched};
ghost use Rattle.run_finder.specs.SoFar.{AreSoFar};

use crate::state::{State, copied};
use conf_syntax::PathText;
use ground_form::Ground;
use log_check::Verdict;
use object_alloc::Objects;
use proof_log::Journal;
use reconfigure::{FailedError, with_changes};
use run_finder::Finder;
use std::alloc::{AllocError, Global};

/// The problem of a repair: of this problem, these former values and these words.
fn repaired(
    alloc: Global,
    ground: &Ground,
    objects: &Objects<'_>,
    former: &[Option<i64>],
    failed: &[PathText],
) -> Result<Ground, AllocError>
    requires stands { (test : List ℤ → Bool) × (functions : List (Bool × (List ℤ → ℤ)))
        × StandsFor ground.now (cell_boxes objects.now) test functions }
    requires hints { length former.now ≡ ground.now.search }
    requires known { unknown_word objects.now failed.now ≡ None }
    ensures well_made { IfOk result (λ g. IsWellMade g) }
    ensures extends { IfOk result (λ g. Extends ground.now g) }
    ensures repairs { IfOk result (λ g. RepairsFor objects.now former.now failed.now ground.now g) }
{
    let g = copied(ground)?;
    match with_changes(alloc, g, objects, former, failed) {
        Ok(new) => Ok(new),
        Err(FailedError::UnknownObject(_)) => unreachable!(),
        Err(FailedError::Memory) => Err(AllocError),
    }
}

/// The problem of a repair of what stands.
fn problem_of(alloc: Global, state: &State, objects: &Objects<'_>) -> Result<Ground, AllocError>
    requires over { IsOver objects.now state.now }
    ensures well_made { IfOk result (λ g. IsWellMade g) }
    ensures extends { IfOk result (λ g. Extends state.now.ground g) }
    ensures repairs { IfOk result (λ g. RepairsFor objects.now state.now.former state.now.failed
        state.now.ground g) }
{
    let former = state.former.items();
    let g = repaired(alloc, &state.ground, objects, former, &state.failed)?;
    Ok(g)
}

/// Searches for the best repair of what stands, and leaves problem and run in the present round of
/// the journal.
pub(crate) fn searched<F: Finder>(
    alloc: Global,
    state: &State,
    objects: &Objects<'_>,
    finder: &mut F,
    journal: &mut Journal,
) -> Result<Verdict, AllocError>
    requires over { IsOver objects.now state.now }
    requires problem { journal.old.ground ≡ None }
    requires lines { journal.old.lines ≡ [] }
    ensures searched { IfOk result (λ verdict. IsSearched objects.now state.now
        (F.allowed finder.old) journal.new verdict) }
    ensures so_far { AreSoFar journal.new.lines }
    ensures rounds { journal.new.rounds ≡ journal.old.rounds }
    ensures budget { F.allowed finder.new ≡ F.allowed finder.old }
{
    let g = problem_of(alloc, state, objects)?;
    finder.find(g, state.former.items(), journal)
}
