//! How often a search over a model may decide: a law, in the contract of a function that does
//! nothing but look at lines once.
ghost use Rattle.std.specs.Prelude.{◌≡◌, ◌+◌, ◌≤◌, true, option_copied};
ghost use Rattle.ground_form.specs.WellMade.{IsWellMade};
ghost use Rattle.model_search.specs.Problems.{IsProblemOf};
ghost use Rattle.object_alloc.specs.Counts.{configuration_count};
ghost use Rattle.run_law.specs.Decisions.{decisions, MayDecide};
ghost use Rattle.run_law.specs.Replay.{is_run};

use crate::question::Question;
use ground_form::Ground;
use log_form::Line;
use run_law::run_decides_less;

/// Where a run over the ground problem of a model, or of a repair of it, may decide once more, the
/// model has at least two configurations more than the run has decisions. So a model with few
/// configurations is decided.
#[tactic(auto, using(crate::proofs::Sizes::problem_size))]
pub fn undecided_has_more(question: Question<'_>, g: &Ground, lines: &[Line])
    requires problem { IsProblemOf question.objects.now question.model.now.constraints
        question.model.now.goals (option_copied question.repair) g.now }
    requires run { is_run g.now lines.now ≡ true }
    ensures more { MayDecide g.now lines.now
        → decisions lines.now + 2 ≤ configuration_count question.entry.objects.now }
{
    run_decides_less(g, lines);
}
