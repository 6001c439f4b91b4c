//! `solve`, `reconfigure` and `gen`: a best configuration of a model, by a search that leaves its
//! log.
ghost use Rattle.std.specs.Prelude.{map, ◌≡◌, ◌≤◌, true, None, IfOk, IfSome, option_copied};
ghost use Rattle.std.specs.Option.{option_map};
ghost use Rattle.conf_limits.specs.Measures.{model_narrow};
ghost use Rattle.conf_request.specs.declared.options.OrderName.TheVariants as names;
ghost use Rattle.conf_types.specs.Typing.{IsTypedModel};
ghost use Rattle.model_search.specs.Runs.{HasRun, HasBegun};
ghost use Rattle.model_search.specs.Wanted.{IsUnderstood};
ghost use Rattle.proof_log.specs.Rounds.{empty};
ghost use Rattle.run_promise.specs.Answer.{IsSearched, searched_status, order_at};
ghost use Rattle.answer_text.specs.Texts.{solve_text, gen_text};
ghost use Rattle.command_limits.specs.Limits.{generated_budget};
ghost use Rattle.model_reader.specs.Ready.{IsReady};
ghost use Rattle.run_status.specs.Stages.{Answered, stage_of};
ghost use Rattle.round_commands.specs.Told.{HoldsLog, IsToldLog};

use crate::answer::{Answer, question_of};
use crate::finder::{Resources, Searching, place_of};
use answer_text::{gen_text, solve_text};
use bound_search::Limits;
use command_limits::GENERATED_BUDGET;
use conf_request::OrderName;
use model_reader::Built;
use model_search::{Finding, Question, find_best, trimmed_text};
use proof_log::Journal;
use reconfigure::Repair;
use rule_law::Kit;
use run_status::Status;
use std::alloc::{AllocError, Global};

/// What is wanted of a search: its budget of decisions, its order, and whether its log is.
#[derive(Clone, Copy)]
pub struct SearchWish {
    pub budget: u32,
    pub order: OrderName,
    pub logged: bool,
}

/// The status of what a search within a budget tells.
fn status_of(budget: u32, told: &Finding) -> Status
    ensures { result ≡ searched_status budget told.now }
{
    match told {
        Finding::Best(_) => Status::Done,
        Finding::NoneExists => Status::NoneExists,
        Finding::Open(_) => Status::Undecided { decisions: budget },
    }
}

/// Searches for what is asked of a model, in this order.
fn found(
    with: Resources<'_>,
    question: Question<'_>,
    budget: u32,
    order: OrderName,
    kit: &mut Kit,
    journal: &mut Journal,
) -> Result<Finding, AllocError>
    requires typed { IsTypedModel question.objects.now question.model.now.constraints
        question.model.now.goals }
    requires narrow { model_narrow question.objects.now question.model.now.constraints
        question.model.now.goals ≡ true }
    requires understood { IfSome (option_copied question.repair)
        (IsUnderstood question.objects.now) }
    requires empty { journal.old ≡ empty }
    ensures run { IfOk result (λ told. HasRun question.entry.objects.now
        question.entry.model.now.constraints question.entry.model.now.goals
        (option_copied question.entry.repair)
        (order_at (map (λ c. c.order) with.entry.choosers.now) order) budget journal.new told) }
    ensures begun { HasBegun question.entry.objects.now question.entry.model.now.constraints
        question.entry.model.now.goals (option_copied question.entry.repair)
        (order_at (map (λ c. c.order) with.entry.choosers.now) order) journal.new }
    ensures rounds { journal.new.rounds ≡ journal.old.rounds }
{
    let choosers = with.choosers;
    let all = &choosers[..];
    let chooser = &all[place_of(order)];
    kit.begin();
    let limits = Limits {
        alloc: with.alloc,
        budget,
    };
    let mut finder = Searching {
        limits,
        kit,
        chooser,
        spare: chooser,
        may_turn: false,
    };
    find_best(with.alloc, question, &mut finder, journal)
}

/// The text of the journal's log, where it is wanted.
fn wanted_log(alloc: Global, logged: bool, journal: &Journal) -> Result<Option<Vec<u8>>, AllocError>
    requires holds { HoldsLog journal.now }
    ensures { IfOk result (λ log. IsToldLog logged journal.now
        (option_map (λ text. text.items) log)) }
{
    if !logged {
        return Ok(None);
    }
    match journal.ground() {
        Some(g) => Ok(Some(trimmed_text(alloc, g, journal.lines())?)),
        None => unreachable!(),
    }
}

/// The answer to `solve`, and of a repair to `reconfigure`.
pub fn solve(
    with: Resources<'_>,
    built: Built<'_>,
    repair: Option<&Repair>,
    wanted: SearchWish,
    kit: &mut Kit,
    journal: &mut Journal,
) -> Result<Answer, AllocError>
    requires ready { IsReady built.table.now built.objects.now built.model.now.constraints
        built.model.now.goals }
    requires understood { IfSome (option_copied repair) (IsUnderstood built.objects.now) }
    requires empty { journal.old ≡ empty }
    ensures answer { IfOk result (λ a. IsSearched built.entry.objects.now
        built.entry.model.now.constraints built.entry.model.now.goals (option_copied repair.entry)
        (order_at (map (λ c. c.order) with.entry.choosers.now) wanted.order) wanted.budget
        journal.new a.status (solve_text built.entry.objects.now built.entry.model.now.goals
        (option_copied repair.entry) wanted.budget) a.text.items) }
    ensures stage { IfOk result (λ a. stage_of a.status ≡ Answered) }
    ensures log { IfOk result (λ a. IsToldLog wanted.logged journal.new
        (option_map (λ text. text.items) a.log)) }
    ensures begun { HasBegun built.entry.objects.now built.entry.model.now.constraints
        built.entry.model.now.goals (option_copied repair.entry)
        (order_at (map (λ c. c.order) with.entry.choosers.now) wanted.order) journal.new }
    ensures rounds { journal.new.rounds ≡ journal.old.rounds }
{
    let question = question_of(built, repair);
    let told = found(with, question, wanted.budget, wanted.order, kit, journal)?;
    let text = solve_text(with.alloc, built, repair, wanted.budget, &told)?;
    let log = wanted_log(with.alloc, wanted.logged, journal)?;
    let status = status_of(wanted.budget, &told);
    Ok(Answer { status, text, log })
}

/// The answer to `gen`, of the model that is made for `n`.
pub fn generated(
    with: Resources<'_>,
    built: Built<'_>,
    n: u32,
    kit: &mut Kit,
    journal: &mut Journal,
) -> Result<Answer, AllocError>
    requires ready { IsReady built.table.now built.objects.now built.model.now.constraints
        built.model.now.goals }
    requires some { 1 ≤ n }
    requires few { n ≤ 100 }
    requires empty { journal.old ≡ empty }
    ensures answer { IfOk result (λ a. IsSearched built.entry.objects.now
        built.entry.model.now.constraints
        built.entry.model.now.goals None (order_at (map (λ c. c.order) with.entry.choosers.now)
        names.First)
        generated_budget
        journal.new a.status (gen_text built.entry.objects.now built.entry.model.now.goals n)
        a.text.items) }
    ensures stage { IfOk result (λ a. stage_of a.status ≡ Answered) }
    ensures log { IfOk result (λ a. a.log ≡ None) }
    ensures begun { HasBegun built.entry.objects.now built.entry.model.now.constraints
        built.entry.model.now.goals None
        (order_at (map (λ c. c.order) with.entry.choosers.now) names.First) journal.new }
    ensures rounds { journal.new.rounds ≡ journal.old.rounds }
{
    let told = found(
        with,
        question_of(built, None),
        GENERATED_BUDGET,
        OrderName::First,
        kit,
        journal,
    )?;
    let text = gen_text(with.alloc, built, n, &told)?;
    let status = status_of(GENERATED_BUDGET, &told);
    Ok(Answer {
        status,
        text,
        log: None,
    })
}
