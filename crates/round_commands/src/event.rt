//! The answer to one event of a session.
ghost use Rattle.std.specs.Prelude.{◌≡◌, ◌≤◌, ℤ, List, Some, IsSome, map, option_copied, IfOk, OnOk, OnErr, IsErrOf};
ghost use Rattle.answer_text.specs.Texts.{solve_text};
ghost use Rattle.desk_io.specs.Fault.{HasRisen};
ghost use Rattle.log_check.specs.Soundness.{Means, FoundSolves};
ghost use Rattle.log_check.specs.Kinds.{shown_of};
ghost use Rattle.model_reader.specs.Ready.{IsReady};
ghost use Rattle.model_search.specs.Findings.{finding, Tells};
ghost use Rattle.model_search.specs.Problems.{IsProblemOf};
ghost use Rattle.model_search.specs.Wanted.{IsUnderstood};
ghost use Rattle.model_search.specs.declared.finding.Finding.TheVariants as findings;
ghost use Rattle.object_alloc.specs.Hints.{AreHints};
ghost use Rattle.object_alloc.specs.Paths.{object_named};
ghost use Rattle.round_commands.specs.Events.{IsBetween, IsHinted, StandsAt, situation_of, HasStepped, HasRound, IsTold, IsTried, IsCut};
ghost use Rattle.run_finder.specs.SoFar.{AreSoFar};
ghost use Rattle.run_promise.specs.Sessions.{situation_behind, subject};

use crate::answer::question_of;
use answer_text::solve_text;
use conf_eval::full_sets_are_hints;
use conf_events::Event;
use conf_session::{Session, Step};
use desk_io::{Desk, WriteError, print_all};
use ground_form::Ground;
use model_reader::Built;
use model_search::{Finding, Question, finding_of, last_round, round_is_run};
use proof_log::Journal;
use run_finder::Finder;
use std::alloc::{AllocError, Global};

/// Where memory comes from, the model, and how many decisions each search may take.
#[derive(Clone, Copy)]
pub(crate) struct Setting<'a> {
    pub alloc: Global,
    pub built: Built<'a>,
    pub budget: u32,
}

/// What is told of an event, and its text.
#[derive(Drop)]
pub(crate) struct Told {
    pub told: Finding,
    pub text: Vec<u8>,
}

/// The step that answers an event.
fn stepped<F: Finder>(
    with: Setting<'_>,
    session: &mut Session,
    event: &Event,
    finder: &mut F,
    journal: &mut Journal,
) -> Result<Step, AllocError>
    requires at { StandsAt (subject with.built.objects.now
        with.built.model.now.constraints with.built.model.now.goals with.budget)
        (situation_of session.old.state) session.old.state }
    requires named { IsSome (object_named with.built.objects.now event.now.path) }
    requires budget { F.allowed finder.old ≡ with.budget }
    requires between { IsBetween journal.old }
    ensures step { IfOk result (λ step. HasStepped (subject with.entry.built.objects.now
        with.entry.built.model.now.constraints with.entry.built.model.now.goals with.entry.budget)
        (situation_of session.old.state) event.now journal.old.rounds journal.new.rounds
        session.new.state step) }
    ensures between { OnOk result (IsBetween journal.new) }
    ensures so_far { AreSoFar journal.new.lines }
    ensures rounds { OnErr result (journal.new.rounds ≡ journal.old.rounds) }
    ensures budget { F.allowed finder.new ≡ F.allowed finder.old }
{
    let step = session.step(with.alloc, with.built.objects, event, finder, journal)?;
    Ok(step)
}

/// The values of a best configuration are hints: a law.
fn best_is_hints(question: Question<'_>, told: &Finding)
    requires tells { Tells question.objects.now question.model.now.constraints
        question.model.now.goals (option_copied question.repair) told.now }
    ensures { (t : List ℤ) → told.now ≡ findings.Best t
        → AreHints question.entry.objects.now (map Some t) }
{
    if let Finding::Best(config) = told {
        full_sets_are_hints(question.objects, config);
    }
}

/// What the verdict over a round's problem tells of the model whose repair it is about, and its
/// text.
fn told_by(with: Setting<'_>, step: &Step, g: &Ground) -> Result<Told, AllocError>
    requires ready { IsReady with.built.table.now with.built.objects.now
        with.built.model.now.constraints with.built.model.now.goals }
    requires understood { IsUnderstood with.built.objects.now step.now.repair }
    requires problem { IsProblemOf with.built.objects.now with.built.model.now.constraints
        with.built.model.now.goals (Some step.now.repair) g.now }
    requires sound { Means g.now (shown_of step.now.verdict) }
    requires found { FoundSolves g.now step.now.verdict.found }
    ensures told { IfOk result (λ a. a.told ≡ finding g.now step.now.verdict) }
    ensures text { IfOk result (λ a. a.text.items ≡ solve_text with.entry.built.objects.now
        with.entry.built.model.now.goals (Some step.now.repair) with.entry.budget a.told) }
    ensures hints { IfOk result (λ a. IsHinted with.entry.built.objects.now a.told) }
{
    let repair = &step.repair;
    let question = question_of(with.built, Some(repair));
    let told = finding_of(with.alloc, question, g, &step.verdict)?;
    best_is_hints(question, &told);
    let text = solve_text(with.alloc, with.built, Some(repair), with.budget, &told)?;
    Ok(Told { told, text })
}

/// The answer to an event. Behind it the journal has one round more.
fn answered<F: Finder>(
    with: Setting<'_>,
    session: &mut Session,
    event: &Event,
    finder: &mut F,
    journal: &mut Journal,
) -> Result<Told, AllocError>
    requires ready { IsReady with.built.table.now with.built.objects.now
        with.built.model.now.constraints with.built.model.now.goals }
    requires at { StandsAt (subject with.built.objects.now
        with.built.model.now.constraints with.built.model.now.goals with.budget)
        (situation_of session.old.state) session.old.state }
    requires named { IsSome (object_named with.built.objects.now event.now.path) }
    requires budget { F.allowed finder.old ≡ with.budget }
    requires between { IsBetween journal.old }
    ensures round { IfOk result (λ a. HasRound (subject with.entry.built.objects.now
        with.entry.built.model.now.constraints with.entry.built.model.now.goals with.entry.budget)
        (situation_of session.old.state) event.now journal.old.rounds journal.new.rounds a.told
        a.text.items) }
    ensures at { IfOk result (λ a. StandsAt (subject with.entry.built.objects.now
        with.entry.built.model.now.constraints with.entry.built.model.now.goals with.entry.budget)
        (situation_behind (situation_of session.old.state) event.now a.told) session.new.state) }
    ensures between { OnOk result (IsBetween journal.new) }
    ensures so_far { AreSoFar journal.new.lines }
    ensures cut { OnErr result (IsTried (subject with.entry.built.objects.now
        with.entry.built.model.now.constraints with.entry.built.model.now.goals with.entry.budget)
        (situation_of session.old.state) event.now journal.old.rounds journal.new.rounds) }
    ensures budget { F.allowed finder.new ≡ F.allowed finder.old }
{
    let step = stepped(with, session, event, finder, journal)?;
    let round = last_round(journal);
    let question = question_of(with.built, Some(&step.repair));
    round_is_run(question, round, &step.verdict, with.budget);
    let answer = told_by(with, &step, &round.ground)?;
    Ok(answer)
}

/// Answers an event and prints the answer.
pub(crate) fn answer_event<D: Desk, F: Finder>(
    with: Setting<'_>,
    desk: &mut D,
    session: &mut Session,
    event: &Event,
    finder: &mut F,
    journal: &mut Journal,
) -> Result<Finding, WriteError>
    requires ready { IsReady with.built.table.now with.built.objects.now
        with.built.model.now.constraints with.built.model.now.goals }
    requires at { StandsAt (subject with.built.objects.now
        with.built.model.now.constraints with.built.model.now.goals with.budget)
        (situation_of session.old.state) session.old.state }
    requires named { IsSome (object_named with.built.objects.now event.now.path) }
    requires budget { F.allowed finder.old ≡ with.budget }
    requires between { IsBetween journal.old }
    ensures round { IfOk result (λ told. IsTold (subject with.entry.built.objects.now
        with.entry.built.model.now.constraints with.entry.built.model.now.goals with.entry.budget)
        (situation_of session.old.state) event.now journal.old.rounds journal.new.rounds told
        (D.printed desk.old) (D.printed desk.new)) }
    ensures at { IfOk result (λ told. StandsAt (subject with.entry.built.objects.now
        with.entry.built.model.now.constraints with.entry.built.model.now.goals with.entry.budget)
        (situation_behind (situation_of session.old.state) event.now told) session.new.state) }
    ensures between { OnOk result (IsBetween journal.new) }
    ensures so_far { AreSoFar journal.new.lines }
    ensures cut { OnErr result (IsCut (subject with.entry.built.objects.now
        with.entry.built.model.now.constraints with.entry.built.model.now.goals with.entry.budget)
        (situation_of session.old.state) event.now journal.old.rounds journal.new.rounds
        (D.printed desk.old) (D.printed desk.new)) }
    ensures budget { F.allowed finder.new ≡ F.allowed finder.old }
    ensures fault { IsErrOf result WriteError.WriteFault → HasRisen (D.write_faults desk.old)
        (D.write_faults desk.new) }
    ensures files { D.files desk.new ≡ D.files desk.old }
    ensures write_faults { D.write_faults desk.old ≤ D.write_faults desk.new }
    ensures read_faults { D.read_faults desk.new ≡ D.read_faults desk.old }
{
    let Ok(answer) = answered(with, session, event, finder, journal) else {
        return Err(WriteError::Memory);
    };
    print_all(desk, &answer.text)?;
    Ok(answer.told)
}
