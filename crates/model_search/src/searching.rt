//! From a question to a journal of a search for its best configuration, and what it tells.
ghost use Rattle.std.specs.Prelude.{◌≡◌, [], true, length, None, Some, replicate, option_copied, IfOk, IfSome, OnOk};
ghost use Rattle.conf_limits.specs.Measures.{model_narrow};
ghost use Rattle.conf_types.specs.Typing.{IsTypedModel};
ghost use Rattle.ground_form.specs.WellMade.{IsWellMade};
ghost use Rattle.model_search.specs.Runs.{HasRun, HasBegun, IsRunBy, values_for};
ghost use Rattle.model_search.specs.Wanted.{IsUnderstood};
ghost use Rattle.run_finder.specs.Searched.{HasSearched};

use crate::finding::{Finding, finding_of};
use crate::laws::undecided_has_more;
use crate::problem::problem_of;
use crate::question::Question;
use ground_form::Ground;
use log_check::Verdict;
use proof_log::Journal;
use reconfigure::Repair;
use run_finder::Finder;
use std::alloc::{AllocError, Global};

/// No value for any of so many variables.
///
/// # Errors
///
/// Want of memory.
pub fn no_hints(alloc: Global, count: u32) -> Result<Vec<Option<i64>>, AllocError>
    ensures { IfOk result (λ hints. hints.items ≡ replicate count None) }
{
    let mut hints = Vec::new(alloc);
    hints.resize(count as usize, None)?;
    Ok(hints)
}

/// Searches by values to go by: the former ones of a repair, or none.
#[tactic(auto, using(crate::proofs::FoundRuns::none_run))]
fn searched<F: Finder>(
    alloc: Global,
    g: Ground,
    repair: Option<&Repair>,
    finder: &mut F,
    journal: &mut Journal,
) -> Result<Verdict, AllocError>
    requires well_made { IsWellMade g }
    requires hints { IfSome (option_copied repair) (λ r. length r.former ≡ g.search) }
    requires problem { journal.old.ground ≡ None }
    requires lines { journal.old.lines ≡ [] }
    ensures problem { OnOk result (journal.new.ground ≡ Some g) }
    ensures run { IsRunBy g (F.order finder.old)
        (values_for g.search (option_copied repair.entry)) journal.new.lines }
    ensures searched { IfOk result (λ v.
        HasSearched g (F.allowed finder.old) journal.new.lines v) }
    ensures rounds { journal.new.rounds ≡ journal.old.rounds }
{
    match repair {
        Some(repair) => finder.find(g, repair.former.items(), journal),
        None => {
            let hints = no_hints(alloc, g.search)?;
            finder.find(g, &hints, journal)
        }
    }
}

/// Searches for a best configuration of a model, or of a repair of it, which then gives the values
/// to go by. The present round of the journal, which is empty, then holds the ground problem and
/// the lines of the search; the checker has read them, and what is told is by its verdict.
///
/// # Errors
///
/// Want of memory; the journal's present round then has the lines so far, which are a run.
#[tactic(auto, using(crate::proofs::FoundRuns::no_lines, crate::proofs::FoundRuns::lines_begun))]
pub fn find_best<F: Finder>(
    alloc: Global,
    question: Question<'_>,
    finder: &mut F,
    journal: &mut Journal,
) -> Result<Finding, AllocError>
    requires typed { IsTypedModel question.objects.now question.model.now.constraints
        question.model.now.goals }
    requires narrow { model_narrow question.objects.now question.model.now.constraints
        question.model.now.goals ≡ true }
    requires understood { IfSome (option_copied question.repair)
        (IsUnderstood question.objects.now) }
    requires problem { journal.old.ground ≡ None }
    requires lines { journal.old.lines ≡ [] }
    ensures run { IfOk result (λ f. HasRun question.entry.objects.now
        question.entry.model.now.constraints question.entry.model.now.goals
        (option_copied question.entry.repair) (F.order finder.old) (F.allowed finder.old)
        journal.new f) }
    // however it ends
    ensures begun { HasBegun question.entry.objects.now question.entry.model.now.constraints
        question.entry.model.now.goals (option_copied question.entry.repair)
        (F.order finder.old) journal.new }
    ensures rounds { journal.new.rounds ≡ journal.old.rounds }
{
    let g = problem_of(alloc, question)?;
    let verdict = searched(alloc, g, question.repair, finder, journal)?;
    let Some(g) = journal.ground() else {
        unreachable!()
    };
    let told = finding_of(alloc, question, g, &verdict)?;
    undecided_has_more(question, g, journal.lines());
    Ok(told)
}
