//! `core`: what to blame where a model has no configuration, by searches that show it.
ghost use Rattle.std.specs.Prelude.{◌≡◌, ◌⊎◌, ◌≤◌, [], None, IfOk, OnErr};
ghost use Rattle.model_reader.specs.Ready.{IsReady};
ghost use Rattle.proof_log.specs.Rounds.{empty};
ghost use Rattle.run_finder.specs.SoFar.{AreSoFar};
ghost use Rattle.run_promise.specs.Blaming.{IsBlamed, IsSearchedSoFar};
ghost use Rattle.run_promise.specs.CoreTexts.{core_status};
ghost use Rattle.run_status.specs.Stages.{Answered, stage_of};

use crate::answer::Answer;
use crate::core_text::core_text;
use crate::finder::{Resources, Searching, place_of};
use bound_search::Limits;
use conf_core::{CoreAnswer, find_core};
use conf_request::OrderName;
use model_reader::Built;
use proof_log::Journal;
use rule_law::Kit;
use run_finder::Finder;
use run_status::Status;
use std::alloc::{AllocError, Global};

/// The status of an answer, of searches within a budget of decisions.
fn status_of(budget: u32, answer: &CoreAnswer) -> Status
    ensures status { result ≡ core_status budget answer.now }
    ensures stage { stage_of result ≡ Answered }
{
    match answer {
        CoreAnswer::Solvable => Status::Done,
        CoreAnswer::Undecided => Status::Undecided { decisions: budget },
        CoreAnswer::Core { .. } => Status::NoneExists,
    }
}

/// Tells what to blame where a model has no configuration. Each search is a round of the journal.
///
/// # Errors
///
/// Want of memory: the rounds are those of the searches that ended before.
fn blame<F: Finder>(
    alloc: Global,
    built: Built<'_>,
    finder: &mut F,
    journal: &mut Journal,
) -> Result<Answer, AllocError>
    requires ready { IsReady built.table.now built.objects.now built.model.now.constraints
        built.model.now.goals }
    requires empty { journal.old ≡ empty }
    ensures answer { IfOk result (λ b. IsBlamed built.entry.objects.now
        built.entry.model.now.constraints (F.allowed finder.old) journal.new.rounds b.status
        b.text.items) }
    ensures stage { IfOk result (λ b. stage_of b.status ≡ Answered) }
    ensures log { IfOk result (λ b. b.log ≡ None) }
    ensures cut { OnErr result ((journal.new.rounds ≡ [])
        ⊎ IsSearchedSoFar built.entry.objects.now built.entry.model.now.constraints
        (F.allowed finder.old) journal.new.rounds) }
    ensures so_far { AreSoFar journal.new.lines }
{
    let budget = finder.budget();
    let answer = find_core(alloc, built.model, built.objects, finder, journal)?;
    let text = core_text(alloc, built.model.constraints(), budget, &answer)?;
    let status = status_of(budget, &answer);
    Ok(Answer {
        status,
        text,
        log: None,
    })
}

/// The order of the first searches: that of the cells is by the values that were found last, where
/// there are some.
fn first_order(order: OrderName) -> OrderName {
    match order {
        OrderName::Small => OrderName::Small,
        OrderName::First | OrderName::Former => OrderName::Former,
    }
}

/// The order in which a search that was undecided is made once more: fewest values first, and of
/// that the order of the cells.
fn other_order(order: OrderName) -> OrderName {
    match order {
        OrderName::Small => OrderName::Former,
        OrderName::First | OrderName::Former => OrderName::Small,
    }
}

/// The answer to `core`, by searches each of which may take so many decisions, at first in this
/// order.
pub fn blame_model(
    with: Resources<'_>,
    built: Built<'_>,
    budget: u32,
    order: OrderName,
    kit: &mut Kit,
    journal: &mut Journal,
) -> Result<Answer, AllocError>
    requires ready { IsReady built.table.now built.objects.now built.model.now.constraints
        built.model.now.goals }
    requires empty { journal.old ≡ empty }
    ensures answer { IfOk result (λ b. IsBlamed built.entry.objects.now
        built.entry.model.now.constraints budget journal.new.rounds b.status b.text.items) }
    ensures stage { IfOk result (λ b. stage_of b.status ≡ Answered) }
    ensures log { IfOk result (λ b. b.log ≡ None) }
    ensures cut { OnErr result ((journal.new.rounds ≡ [])
        ⊎ IsSearchedSoFar built.entry.objects.now built.entry.model.now.constraints budget
        journal.new.rounds) }
    ensures so_far { AreSoFar journal.new.lines }
{
    let choosers = with.choosers;
    let all = &choosers[..];
    let chooser = &all[place_of(first_order(order))];
    let spare = &all[place_of(other_order(order))];
    kit.begin();
    let limits = Limits {
        alloc: with.alloc,
        budget,
    };
    let mut finder = Searching {
        limits,
        kit,
        chooser,
        spare,
        may_turn: true,
    };
    blame(with.alloc, built, &mut finder, journal)
}
