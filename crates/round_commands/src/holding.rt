//! The loop over the events of a session.
ghost use Rattle.std.specs.Prelude.{◌≡◌, ◌≤◌, ◌||◌, ℕ, List, [], IsSome, IfOk, OnErr, IsErrOf};
ghost use Rattle.std.specs.List.{All, list_any};
ghost use Rattle.desk_io.specs.Desk.{with_printed};
ghost use Rattle.desk_io.specs.Fault.{HasRisen};
ghost use Rattle.desk_io.specs.Whole.{PrintsFront};
ghost use Rattle.model_reader.specs.Ready.{IsReady};
ghost use Rattle.model_search.specs.Runs.{is_open};
ghost use Rattle.model_search.specs.declared.finding.Finding.{Finding as AFinding};
ghost use Rattle.object_alloc.specs.Paths.{object_named};
ghost use Rattle.round_commands.specs.Events.{IsBetween, StandsAt, situation_of};
ghost use Rattle.run_finder.specs.SoFar.{AreSoFar};
ghost use Rattle.run_promise.specs.Sessions.{subject, is_none_told, session_status, AreHeld, AreBegun};

use crate::event::{Setting, answer_event};
use conf_events::Event;
use conf_session::Session;
use desk_io::{Desk, WriteError};
use model_search::Finding;
use proof_log::Journal;
use run_finder::Finder;
use run_status::Status;

/// Whether nothing is shown.
fn is_open(told: &Finding) -> bool
    ensures { result ≡ is_open told.now }
{
    match told {
        Finding::Open(_) => true,
        _ => false,
    }
}

/// Whether it is shown that none exists.
fn is_none(told: &Finding) -> bool
    ensures { result ≡ is_none_told told.now }
{
    match told {
        Finding::NoneExists => true,
        _ => false,
    }
}

/// Whether something was open before, or this is.
fn some_open(before: bool, told: &Finding) -> bool
    ensures { result ≡ (before || is_open told.now) }
{
    before || is_open(told)
}

/// Whether none existed before, or none does here.
fn some_none(before: bool, told: &Finding) -> bool
    ensures { result ≡ (before || is_none_told told.now) }
{
    before || is_none(told)
}

/// How a session ends, where some event is open or not, and for some event none exists or not.
fn end_of(budget: u32, undecided: bool, lacking: bool) -> Status
    ensures { (ts : List AFinding) → undecided ≡ list_any is_open ts
        → lacking ≡ list_any is_none_told ts → result ≡ session_status budget ts }
{
    if undecided {
        return Status::Undecided { decisions: budget };
    }
    if lacking {
        return Status::NoneExists;
    }
    Status::Done
}

/// Answers each event, one after the other, and prints each answer as soon as it is found. The
/// journal, which has no round yet, then has one round for each event.
///
/// # Errors
///
/// Where writing failed, or there was no memory: the rounds are those of the first events, and of
/// their answers all but the last were printed, and a front of that one.
#[tactic(auto, using(crate::proofs::Stepping::between_so_far))]
pub(crate) fn hold_session<D: Desk, F: Finder>(
    with: Setting<'_>,
    desk: &mut D,
    session: Session,
    events: &[Event],
    finder: &mut F,
    journal: &mut Journal,
) -> Result<Status, WriteError>
    requires ready { IsReady with.built.table.now with.built.objects.now
        with.built.model.now.constraints with.built.model.now.goals }
    requires at { StandsAt (subject with.built.objects.now with.built.model.now.constraints
        with.built.model.now.goals with.budget) (situation_of session.state) session.state }
    requires named { All (λ e. IsSome (object_named with.built.objects.now e.path)) events.now }
    requires budget { F.allowed finder.old ≡ with.budget }
    requires between { IsBetween journal.old }
    requires rounds { journal.old.rounds ≡ [] }
    ensures held { IfOk result (λ end. (text : List ℕ)
        × AreHeld (subject with.entry.built.objects.now with.entry.built.model.now.constraints
        with.entry.built.model.now.goals with.entry.budget) (situation_of session.state) events.now
        journal.new.rounds end text
        × (D.printed desk.new ≡ with_printed text (D.printed desk.old))) }
    ensures cut { OnErr result ((whole : List ℕ) × (text : List ℕ)
        × AreBegun (subject with.entry.built.objects.now with.entry.built.model.now.constraints
        with.entry.built.model.now.goals with.entry.budget) (situation_of session.state) events.now
        journal.new.rounds whole text
        × PrintsFront text (with_printed whole (D.printed desk.old)) (D.printed desk.new)) }
    ensures so_far { AreSoFar journal.new.lines }
    ensures fault { IsErrOf result WriteError.WriteFault → HasRisen (D.write_faults desk.old)
        (D.write_faults desk.new) }
    ensures files { D.files desk.new ≡ D.files desk.old }
    ensures write_faults { D.write_faults desk.old ≤ D.write_faults desk.new }
    ensures read_faults { D.read_faults desk.new ≡ D.read_faults desk.old }
{
    let mut session = session;
    let mut undecided = false;
    let mut lacking = false;
    for event in events {
        let told = answer_event(with, desk, &mut session, event, finder, journal)?;
        undecided = some_open(undecided, &told);
        lacking = some_none(lacking, &told);
    }
    let end = end_of(with.budget, undecided, lacking);
    Ok(end)
}
