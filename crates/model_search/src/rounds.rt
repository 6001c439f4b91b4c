//! Rounds of a journal as runs of searches over a model: the last one, and a law.
ghost use Rattle.std.specs.Prelude.{◌≡◌, ◌≤◌, ◌++◌, ◌∷◌, [], List, length, option_copied};
ghost use Rattle.branch_choice.specs.declared.split.Order.TheVariants as orders;
ghost use Rattle.log_check.specs.Kinds.{kind_of, shown_of};
ghost use Rattle.model_search.specs.Problems.{IsProblemOf};
ghost use Rattle.model_search.specs.Rounds.{journal_of, told_by, end_of};
ghost use Rattle.model_search.specs.Runs.{HasRun};
ghost use Rattle.proof_log.specs.declared.journal.Round.{Round as ARound};
ghost use Rattle.run_finder.specs.Searched.{HasSearched};

use crate::laws::undecided_has_more;
use crate::question::Question;
use log_check::Verdict;
use proof_log::{Journal, Round};

/// The last round of a journal that has one.
pub fn last_round(journal: &Journal) -> &Round
    requires { 1 ≤ length journal.now.rounds }
    ensures { (before : List ARound) (round : ARound)
        → journal.now.rounds ≡ before ++ round ∷ [] → result.now ≡ round }
{
    let rounds = journal.rounds();
    &rounds[rounds.len() - 1]
}

/// A round over the problem of what is asked of a model, by a search with this verdict, is a run
/// that tells what its lines tell: a law. It looks at each line once.
#[tactic(auto, using(crate::proofs::FoundRuns::run_of, crate::proofs::FoundRuns::ended_so))]
pub fn round_is_run(question: Question<'_>, round: &Round, verdict: &Verdict, budget: u32)
    requires problem { IsProblemOf question.objects.now question.model.now.constraints
        question.model.now.goals (option_copied question.repair) round.now.ground }
    requires searched { HasSearched round.now.ground budget round.now.lines verdict.now }
    ensures run { HasRun question.entry.objects.now question.entry.model.now.constraints
        question.entry.model.now.goals (option_copied question.entry.repair) orders.Own budget
        (journal_of round.now) (told_by round.now) }
    ensures ended { end_of (told_by round.now) ≡ kind_of (shown_of verdict.now) }
{
    let lines = round.lines.items();
    undecided_has_more(question, &round.ground, lines);
}
