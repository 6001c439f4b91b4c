//! A search by branch and bound, as a finder does it: its lines are checked when it ends.
ghost use Rattle.std.specs.Prelude.{◌≡◌, [], true, Some, length, IfOk, OnOk};
ghost use Rattle.ground_form.specs.WellMade.{IsWellMade};
ghost use Rattle.log_check.specs.Soundness.{Means, FoundSolves};
ghost use Rattle.log_check.specs.Verdicts.{ending};
ghost use Rattle.log_check.specs.Kinds.{shown_of};
ghost use Rattle.run_finder.specs.Searched.{HasSearched};
ghost use Rattle.run_law.specs.Ordered.{IsOrdered};
ghost use Rattle.run_law.specs.Replay.{is_run};

use bound_search::{Limits, search};
use branch_choice::Chooser;
use ground_form::Ground;
use log_check::{CheckError, Verdict, check};
use log_form::Line;
use proof_log::Journal;
use rule_law::Kit;
use std::alloc::{AllocError, Global};

/// The verdict of the lines of a run, which are never rejected. It costs a check of them.
///
/// # Errors
///
/// Want of memory.
#[tactic(auto, using(crate::proofs::Solutions::run_is_taken))]
fn verdict_of(alloc: Global, g: &Ground, lines: &[Line]) -> Result<Verdict, AllocError>
    requires well_made { IsWellMade g.now }
    requires run { is_run g.now lines.now ≡ true }
    ensures verdict { IfOk result (λ v. v ≡ ending g.now lines.now) }
    ensures sound { IfOk result (λ v. Means g.now (shown_of v)) }
    ensures found { IfOk result (λ v. FoundSolves g.now v.found) }
{
    match check(alloc, g, lines) {
        Ok(verdict) => Ok(verdict),
        Err(CheckError::Rejected(_)) => unreachable!(),
        Err(CheckError::Memory) => Err(AllocError),
    }
}

/// Searches for a best solution, leaves problem and run in the present round of the journal, and
/// has the run checked: all that `Finder::find` has to do, for a finder that has a kit and a
/// chooser at hand.
///
/// # Errors
///
/// Want of memory; the present round then has some lines of a run, and may lack the problem.
pub fn find(
    limits: Limits,
    kit: &mut Kit,
    chooser: &Chooser,
    g: Ground,
    hints: &[Option<i64>],
    journal: &mut Journal,
) -> Result<Verdict, AllocError>
    requires well_made { IsWellMade g }
    requires lines { journal.old.lines ≡ [] }
    requires hints { length hints.now ≡ g.search }
    ensures problem { OnOk result (journal.new.ground ≡ Some g) }
    ensures run { is_run g journal.new.lines ≡ true }
    ensures ordered { IsOrdered g chooser.now.order hints.now journal.new.lines }
    ensures searched { IfOk result (λ v. HasSearched g limits.budget journal.new.lines v) }
    ensures rounds { journal.new.rounds ≡ journal.old.rounds }
{
    let end = search(limits, &g, kit, chooser, hints, journal)?;
    let verdict = verdict_of(limits.alloc, &g, journal.lines())?;
    journal.keep(g);
    Ok(verdict)
}
