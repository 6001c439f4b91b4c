//! `session`: the best repair behind each event of a text, each answer printed as it is found.
ghost use Rattle.std.specs.Prelude.{map, ◌≡◌, ◌⊎◌, ◌≤◌, ◌^◌, IsTrue, IsSome, List, [], None, Some, length, IfOk, IfErr, OnErr, OnOk, IsErrOf, ℕ};
ghost use Rattle.std.specs.List.{All};
ghost use Rattle.command_limits.specs.Limits.{events_bytes};
ghost use Rattle.conf_events.specs.Texts.{bad_line, events_of};
ghost use Rattle.conf_request.specs.declared.request.Request.TheVariants as requests;
ghost use Rattle.desk_io.specs.Desk.{OfFile};
ghost use Rattle.desk_io.specs.Fault.{HasRisen};
ghost use Rattle.model_reader.specs.Ready.{IsReady};
ghost use Rattle.model_search.specs.Problems.{IsProblemOf};
ghost use Rattle.object_alloc.specs.Hints.{AreHints};
ghost use Rattle.object_alloc.specs.Paths.{object_named};
ghost use Rattle.proof_log.specs.Rounds.{Journal as AJournal, empty};
ghost use Rattle.round_commands.specs.Events.{StandsAt, situation_of};
ghost use Rattle.run_finder.specs.SoFar.{AreSoFar};
ghost use Rattle.run_promise.specs.Sessions.{situation, subject};
ghost use Rattle.run_status.specs.Stages.{Denied};
ghost use Rattle.run_promise.specs.Asking.{IsShort, OfAsked, former_text};
ghost use Rattle.run_promise.specs.Delivery.{outside};
ghost use Rattle.round_commands.specs.Ending.{EndsModel, trace};
ghost use Rattle.round_commands.specs.Holding.{IsDayOf, IsDayRefused, AreTextsRefused, IsOpenedFor, IsOpen, ForModel, HasWhole, HasPart};
ghost use Rattle.run_promise.specs.Refusal.{IsDenied, AreEventsLong, IsEventRefused};
ghost use Rattle.round_commands.specs.Unreadable.{Unreadable};

use crate::event::Setting;
use crate::finder::{Resources, Searching, place_of};
use crate::former::{config_bytes, repair_in};
use crate::holding::hold_session;
use bound_search::Limits;
use command_limits::EVENTS_BYTES;
use conf_events::{Events, EventsError, read_events};
use conf_request::{FileName, OrderName};
use conf_session::Session;
use desk_io::{Desk, ReadError, WriteError, read_all};
use ground_form::Ground;
use ground_model::ground;
use model_reader::Built;
use object_alloc::{Hints, Objects};
use proof_log::Journal;
use rule_law::Kit;
use run_status::{LimitKind, Status};
use std::alloc::{AllocError, Global};

/// What a session is asked with: the files of the former configuration and of the events, how many
/// decisions each search may take, and its order.
#[derive(Clone, Copy)]
pub struct SessionWish<'a> {
    pub former: &'a FileName,
    pub events: &'a FileName,
    pub budget: u32,
    pub order: OrderName,
}

/// What a session goes by: the former values, and the events.
#[derive(Drop)]
struct Day {
    former: Hints,
    events: Events,
}

/// A session that nothing happened in yet, with its events, how many decisions each search may
/// take, and its order.
#[derive(Drop)]
struct Opened {
    session: Session,
    events: Events,
    budget: u32,
    order: OrderName,
}

/// The bytes of a text of events.
fn event_bytes<D: Desk>(alloc: Global, desk: &mut D, file: &FileName) -> Result<Vec<u8>, Status>
    requires may_read { IsTrue (D.may_read desk.old file.now) }
    ensures bytes { IfOk result (λ bytes. OfFile (D.files desk.old) file.now
        (λ read. read ≡ bytes.items)) }
    ensures short { IfOk result (λ bytes. length bytes.items ≤ events_bytes) }
    ensures refused { IfErr result (λ s. Unreadable (D.read_faults desk.old)
        (D.read_faults desk.new) s (OfFile (D.files desk.old) file.now
        (λ bytes. AreEventsLong bytes s))) }
    ensures files { D.files desk.new ≡ D.files desk.old }
    ensures printed { D.printed desk.new ≡ D.printed desk.old }
    ensures read_faults { D.read_faults desk.old ≤ D.read_faults desk.new }
    ensures write_faults { D.write_faults desk.new ≡ D.write_faults desk.old }
    ensures may_read { D.may_read desk.new ≡ D.may_read desk.old }
    ensures may_write { D.may_write desk.new ≡ D.may_write desk.old }
{
    match read_all(alloc, desk, file.as_str(), EVENTS_BYTES) {
        Ok(bytes) => Ok(bytes),
        Err(ReadError::ReadFault) => Err(Status::ReadFault),
        Err(ReadError::TooLong) => Err(Status::Limit {
            kind: LimitKind::Events,
            place: None,
        }),
        Err(ReadError::Memory) => Err(Status::Memory),
    }
}

/// The events of a text.
fn events_in(alloc: Global, bytes: &[u8], objects: &Objects<'_>) -> Result<Events, Status>
    requires short { length bytes.now ≤ events_bytes }
    ensures events { IfOk result (λ es. es ≡ events_of objects.now bytes.now) }
    ensures good { OnOk result (bad_line objects.now bytes.now ≡ None) }
    ensures named { IfOk result (λ es. All (λ e. IsSome (object_named objects.now e.path)) es) }
    ensures refused { IfErr result (λ s. Denied s (IsEventRefused objects.now bytes.now s)) }
{
    match read_events(alloc, bytes, objects) {
        Ok(events) => Ok(events),
        Err(EventsError::BadLine(line)) => Err(Status::Events { line }),
        Err(EventsError::Memory) => Err(Status::Memory),
    }
}

/// What a session goes by, by the texts of its files.
fn day_in(alloc: Global, built: Built<'_>, before: &[u8], bytes: &[u8]) -> Result<Day, Status>
    requires ready { IsReady built.table.now built.objects.now built.model.now.constraints
        built.model.now.goals }
    requires before { IsShort before.now }
    requires short { length bytes.now ≤ events_bytes }
    ensures day { IfOk result (λ d. IsDayOf built.entry.objects.now before.now bytes.now d) }
    ensures hints { IfOk result (λ d. AreHints built.entry.objects.now d.former) }
    ensures named { IfOk result (λ d.
        All (λ e. IsSome (object_named built.entry.objects.now e.path)) d.events) }
    ensures refused { IfErr result (λ s. Denied s (IsDayRefused built.entry.objects.now before.now
        bytes.now s)) }
{
    let repair = repair_in(alloc, built, before, &[])?;
    match events_in(alloc, bytes, built.objects) {
        Ok(events) => Ok(Day {
            former: repair.former,
            events,
        }),
        Err(status) => Err(status),
    }
}

/// The texts of a session's files: of the former configuration, and of the events.
#[derive(Drop)]
struct Texts {
    before: Vec<u8>,
    bytes: Vec<u8>,
}

/// The texts of a session's files.
fn texts_of<D: Desk>(
    alloc: Global,
    desk: &mut D,
    former: &FileName,
    events: &FileName,
) -> Result<Texts, Status>
    requires may_read_former { IsTrue (D.may_read desk.old former.now) }
    requires may_read_events { IsTrue (D.may_read desk.old events.now) }
    ensures former { IfOk result (λ t. OfFile (D.files desk.old) former.now
        (λ read. read ≡ t.before.items)) }
    ensures events { IfOk result (λ t. OfFile (D.files desk.old) events.now
        (λ read. read ≡ t.bytes.items)) }
    ensures before { IfOk result (λ t. IsShort t.before.items) }
    ensures short { IfOk result (λ t. length t.bytes.items ≤ events_bytes) }
    ensures refused { IfErr result (λ s. Unreadable (D.read_faults desk.old)
        (D.read_faults desk.new) s (AreTextsRefused (D.files desk.old) former.now events.now s)) }
    ensures files { D.files desk.new ≡ D.files desk.old }
    ensures printed { D.printed desk.new ≡ D.printed desk.old }
    ensures read_faults { D.read_faults desk.old ≤ D.read_faults desk.new }
    ensures write_faults { D.write_faults desk.new ≡ D.write_faults desk.old }
{
    let before = match config_bytes(alloc, desk, former) {
        Ok(before) => before,
        Err(status) => return Err(status),
    };
    match event_bytes(alloc, desk, events) {
        Ok(bytes) => Ok(Texts { before, bytes }),
        Err(status) => Err(status),
    }
}

/// The ground problem of a model.
fn model_problem(alloc: Global, built: Built<'_>) -> Result<Ground, AllocError>
    requires ready { IsReady built.table.now built.objects.now built.model.now.constraints
        built.model.now.goals }
    ensures problem { IfOk result (λ g. IsProblemOf built.entry.objects.now
        built.entry.model.now.constraints built.entry.model.now.goals None g) }
    ensures few { IfOk result (λ g. length g.cons ≤ 2 ^ 31) }
{
    let g = ground(alloc, built.model, built.objects)?;
    Ok(g)
}

/// A session over a model and former values, in which nothing failed yet.
fn session_of(alloc: Global, built: Built<'_>, former: Hints) -> Result<Session, AllocError>
    requires ready { IsReady built.table.now built.objects.now built.model.now.constraints
        built.model.now.goals }
    requires hints { AreHints built.objects.now former }
    ensures situation { IfOk result (λ s. situation_of s.state ≡ situation former []) }
    ensures at { IfOk result (λ s. (budget : ℕ) → StandsAt (subject built.entry.objects.now
        built.entry.model.now.constraints built.entry.model.now.goals budget) (situation_of s.state)
        s.state) }
{
    let g = model_problem(alloc, built)?;
    let session = Session::new(alloc, g, former);
    Ok(session)
}

/// The session over a model that has this day before it, with its budget and its order.
fn opening(
    alloc: Global,
    built: Built<'_>,
    day: Day,
    budget: u32,
    order: OrderName,
) -> Result<Opened, AllocError>
    requires ready { IsReady built.table.now built.objects.now built.model.now.constraints
        built.model.now.goals }
    requires hints { AreHints built.objects.now day.former }
    requires named { All (λ e. IsSome (object_named built.objects.now e.path)) day.events }
    ensures situation { IfOk result (λ x. situation_of x.session.state ≡ situation day.former []) }
    ensures events { IfOk result (λ x. x.events ≡ day.events) }
    ensures budget { IfOk result (λ x. x.budget ≡ budget) }
    ensures is_open { IfOk result (λ x. IsOpen built.entry.objects.now
        built.entry.model.now.constraints built.entry.model.now.goals x) }
{
    let Day { former, events } = day;
    let session = session_of(alloc, built, former)?;
    Ok(Opened {
        session,
        events,
        budget,
        order,
    })
}

/// The session that is asked for.
fn session_wished<D: Desk>(
    alloc: Global,
    desk: &mut D,
    wish: SessionWish<'_>,
    built: Built<'_>,
) -> Result<Opened, Status>
    requires may_read_former { IsTrue (D.may_read desk.old wish.former.now) }
    requires may_read_events { IsTrue (D.may_read desk.old wish.events.now) }
    requires ready { IsReady built.table.now built.objects.now built.model.now.constraints
        built.model.now.goals }
    ensures asked { IfOk result (λ x. (model : List ℕ) → OfAsked (D.files desk.old)
        (requests.Session model wish.entry.former.now wish.entry.events.now wish.entry.budget
        wish.entry.order) (IsOpenedFor built.entry.objects.now x)) }
    ensures is_open { IfOk result (λ x. IsOpen built.entry.objects.now
        built.entry.model.now.constraints built.entry.model.now.goals x) }
    ensures budget { IfOk result (λ x. x.budget ≡ wish.entry.budget) }
    ensures refused { IfErr result (λ s. Unreadable (D.read_faults desk.old)
        (D.read_faults desk.new) s ((model : List ℕ) (journal : AJournal)
        → IsDenied (D.files desk.old) (requests.Session model wish.entry.former.now
        wish.entry.events.now wish.entry.budget wish.entry.order) journal s
        built.entry.objects.now built.entry.model.now.constraints
        built.entry.model.now.goals)) }
    ensures files { D.files desk.new ≡ D.files desk.old }
    ensures printed { D.printed desk.new ≡ D.printed desk.old }
    ensures read_faults { D.read_faults desk.old ≤ D.read_faults desk.new }
    ensures write_faults { D.write_faults desk.new ≡ D.write_faults desk.old }
{
    let texts = match texts_of(alloc, desk, wish.former, wish.events) {
        Ok(texts) => texts,
        Err(status) => return Err(status),
    };
    let day = match day_in(alloc, built, &texts.before, &texts.bytes) {
        Ok(day) => day,
        Err(status) => return Err(status),
    };
    match opening(alloc, built, day, wish.budget, wish.order) {
        Ok(opened) => Ok(opened),
        Err(_) => Err(Status::Memory),
    }
}

/// Answers the events of a session.
fn hold_opened<D: Desk>(
    with: Resources<'_>,
    desk: &mut D,
    built: Built<'_>,
    opened: Opened,
    kit: &mut Kit,
    journal: &mut Journal,
) -> Result<Status, WriteError>
    requires ready { IsReady built.table.now built.objects.now built.model.now.constraints
        built.model.now.goals }
    requires open { IsOpen built.objects.now built.model.now.constraints built.model.now.goals
        opened }
    requires empty { journal.old ≡ empty }
    ensures whole { IfOk result (λ end. HasWhole built.entry.objects.now
        built.entry.model.now.constraints built.entry.model.now.goals opened journal.new end
        (D.printed desk.old) (D.printed desk.new)) }
    ensures part { OnErr result (HasPart built.entry.objects.now
        built.entry.model.now.constraints built.entry.model.now.goals opened journal.new
        (D.printed desk.old) (D.printed desk.new)) }
    ensures so_far { AreSoFar journal.new.lines }
    ensures fault { IsErrOf result WriteError.WriteFault → HasRisen (D.write_faults desk.old)
        (D.write_faults desk.new) }
    ensures files { D.files desk.new ≡ D.files desk.old }
    ensures write_faults { D.write_faults desk.old ≤ D.write_faults desk.new }
    ensures read_faults { D.read_faults desk.new ≡ D.read_faults desk.old }
{
    let choosers = with.choosers;
    let all = &choosers[..];
    let chooser = &all[place_of(opened.order)];
    kit.begin();
    let limits = Limits {
        alloc: with.alloc,
        budget: opened.budget,
    };
    let mut finder = Searching {
        limits,
        kit,
        chooser,
        spare: chooser,
        may_turn: false,
    };
    let setting = Setting {
        alloc: with.alloc,
        built,
        budget: opened.budget,
    };
    let Opened {
        session,
        events,
        ..
    } = opened;
    hold_session(setting, desk, session, events.items(), &mut finder, journal)
}

/// Answers the events of a session over a model: each by a round of the journal, and printed as
/// soon as it is found. What is refused leaves everything as it was.
#[tactic(auto, using(crate::proofs::Stepping::empty_so_far))]
pub fn hold_model<D: Desk>(
    with: Resources<'_>,
    desk: &mut D,
    wish: SessionWish<'_>,
    built: Built<'_>,
    kit: &mut Kit,
    journal: &mut Journal,
) -> Status
    requires may_read_former { IsTrue (D.may_read desk.old wish.former.now) }
    requires may_read_events { IsTrue (D.may_read desk.old wish.events.now) }
    requires ready { IsReady built.table.now built.objects.now built.model.now.constraints
        built.model.now.goals }
    requires empty { journal.old ≡ empty }
    ensures ends { (model : List ℕ) → ForModel built.entry.objects.now
        built.entry.model.now.constraints built.entry.model.now.goals
        (λ p. EndsModel (trace (requests.Session model wish.entry.former.now
        wish.entry.events.now wish.entry.budget wish.entry.order)
        (map (λ c. c.order) with.entry.choosers.now) journal.new
        (outside (D.files desk.old) (D.printed desk.old))
        (outside (D.files desk.new) (D.printed desk.new))
        (D.read_faults desk.old) (D.read_faults desk.new) (D.write_faults desk.old)
        (D.write_faults desk.new)) p result) }
    ensures so_far { AreSoFar journal.new.lines }
{
    let opened = match session_wished(with.alloc, desk, wish, built) {
        Ok(opened) => opened,
        Err(status) => return status,
    };
    match hold_opened(with, desk, built, opened, kit, journal) {
        Ok(status) => status,
        Err(WriteError::WriteFault) => Status::WriteFault,
        Err(WriteError::Memory) => Status::Memory,
    }
}
