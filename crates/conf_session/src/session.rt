//! `Session`: one failure after another.
ghost use Rattle.std.specs.Prelude.{◌≡◌, ◌^◌, ◌≤◌, [], ℕ, None, Some, length, IfSome, IfOk, IsSome, IsSomeAnd, OnErr};
ghost use Rattle.class_table.specs.Outline.{Outline};
ghost use Rattle.ground_form.specs.WellMade.{IsWellMade};
ghost use Rattle.object_alloc.specs.Paths.{object_named};
ghost use Rattle.conf_session.specs.Standing.{IsOver};
ghost use Rattle.conf_session.specs.Failed.{failed_behind};
ghost use Rattle.conf_session.specs.Steps.{Steps, IsStep, IsSearched, IsClosed};
ghost use Rattle.run_finder.specs.SoFar.{AreSoFar};

use crate::learning::behind;
use crate::round::searched;
use crate::state::State;
use crate::step::Step;
use crate::words::{copied_words, failed_behind};
use conf_events::Event;
use conf_syntax::PathText;
use ground_form::Ground;
use log_check::Verdict;
use object_alloc::{Hints, Objects};
use proof_log::Journal;
use reconfigure::Repair;
use run_finder::Finder;
use std::alloc::{AllocError, Global};

/// A session: the problem of a model with the clauses that were kept, the former values, and what
/// stands as failed. After want of memory in a step it is void, and has none of these.
pub struct Session {
    state: Option<State>,
}

impl Drop for Session {
    fn drop(self) {
        let Session { state: _ } = self;
    }
}

/// The state behind an event.
fn with_event(alloc: Global, state: State, event: &Event) -> Result<State, AllocError>
    ensures failed { IfOk result (λ new. new.failed ≡ failed_behind event.now state.failed) }
    ensures ground { IfOk result (λ new. new.ground ≡ state.ground) }
    ensures former { IfOk result (λ new. new.former ≡ state.former) }
    ensures begun { IfOk result (λ new. new.begun ≡ state.begun) }
{
    let State {
        ground,
        former,
        failed,
        begun,
    } = state;
    let failed = failed_behind(alloc, event, failed)?;
    Ok(State {
        ground,
        former,
        failed,
        begun,
    })
}

/// The repair of what stands.
fn repair_of(alloc: Global, state: &State) -> Result<Repair, AllocError>
    ensures former { IfOk result (λ r. r.former ≡ state.now.former) }
    ensures failed { IfOk result (λ r. r.failed.items ≡ state.now.failed) }
{
    let former = Hints::of(state.former.items().to_vec(alloc)?);
    let failed = copied_words(alloc, &state.failed)?;
    Ok(Repair { former, failed })
}

/// What a session has come to behind the present round of the journal, which is then closed.
fn closed(
    alloc: Global,
    state: State,
    verdict: &Verdict,
    journal: &mut Journal,
) -> Result<State, AllocError>
    requires searched { (o : Outline) × (budget : ℕ)
        × IsSearched o state budget journal.old verdict.now }
    ensures closed { IfOk result (λ new. IsClosed state journal.old journal.new verdict.now new) }
    ensures rounds { OnErr result (journal.new.rounds ≡ journal.old.rounds) }
    ensures lines { OnErr result (journal.new.lines ≡ journal.old.lines) }
{
    let Some(g) = journal.ground() else {
        unreachable!()
    };
    let new = behind(alloc, state, g, journal.lines(), verdict)?;
    journal.close_round()?;
    Ok(new)
}

/// The round that answers an event, and what the session has come to behind it.
fn advanced<F: Finder>(
    alloc: Global,
    state: State,
    objects: &Objects<'_>,
    event: &Event,
    finder: &mut F,
    journal: &mut Journal,
) -> Result<(State, Step), AllocError>
    requires over { IsOver objects.now state }
    requires named { IsSome (object_named objects.now event.now.path) }
    requires problem { journal.old.ground ≡ None }
    requires lines { journal.old.lines ≡ [] }
    ensures step { IfOk result (λ r. IsStep objects.now event.now (F.allowed finder.old)
        state r.0 journal.old journal.new r.1) }
    ensures rounds { OnErr result (journal.new.rounds ≡ journal.old.rounds) }
    ensures so_far { AreSoFar journal.new.lines }
    ensures budget { F.allowed finder.new ≡ F.allowed finder.old }
{
    let state = with_event(alloc, state, event)?;
    let verdict = searched(alloc, &state, objects, finder, journal)?;
    let repair = repair_of(alloc, &state)?;
    let new = closed(alloc, state, &verdict, journal)?;
    Ok((new, Step { repair, verdict }))
}

impl Session {
    /// A session over the problem of a model and former values, in which nothing failed yet. It
    /// takes no memory.
    pub fn new(alloc: Global, g: Ground, former: Hints) -> Session
        requires well_made { IsWellMade g }
        requires few { length g.cons ≤ 2 ^ 31 }
        requires hints { length former ≡ g.search }
        ensures ground { IsSomeAnd result.state (λ s. s.ground ≡ g) }
        ensures former { IfSome result.state (λ s. s.former ≡ former) }
        ensures failed { IfSome result.state (λ s. s.failed ≡ []) }
        ensures begun { IfSome result.state (λ s. s.begun ≡ length g.cons) }
    {
        let begun = g.cons.items().len();
        Session {
            state: Some(State {
                ground: g,
                former,
                failed: Vec::new(alloc),
                begun,
            }),
        }
    }

    /// What the session has come to, which isn't void.
    fn state(&self) -> &State
        requires { IsSome self.now.state }
        ensures { self.now.state ≡ Some result.now }
    {
        match &self.state {
            Some(state) => state,
            None => unreachable!(),
        }
    }

    /// The problem of the model, with the clauses that were kept.
    pub fn ground(&self) -> &Ground
        requires { IsSome self.now.state }
        ensures { IfSome self.now.state (λ s. result.now ≡ s.ground) }
    {
        &self.state().ground
    }

    /// The words that stand as failed, each once.
    pub fn failed(&self) -> &[PathText]
        requires { IsSome self.now.state }
        ensures { IfSome self.now.state (λ s. result.now ≡ s.failed) }
    {
        &self.state().failed
    }

    /// The former values: those of the last best configuration, or the ones at first.
    pub fn former(&self) -> &Hints
        requires { IsSome self.now.state }
        ensures { IfSome self.now.state (λ s. result.now ≡ s.former) }
    {
        &self.state().former
    }

    /// Answers an event by a round: a search for the best repair of what then stands. Behind it the
    /// journal has one round more, over a problem that is made of the session's; the values of a
    /// best configuration are the former ones; and clauses that rest on the session's problem alone
    /// are part of it, each once and at most 10,000 in all. It hands back the repair that it made,
    /// and the verdict of the search.
    ///
    /// # Errors
    ///
    /// Want of memory: the rounds are as before, and the session is void.
    pub fn step<F: Finder>(
        &mut self,
        alloc: Global,
        objects: &Objects<'_>,
        event: &Event,
        finder: &mut F,
        journal: &mut Journal,
    ) -> Result<Step, AllocError>
        requires over { IsSomeAnd self.old.state (IsOver objects.now) }
        requires named { IsSome (object_named objects.now event.now.path) }
        requires problem { journal.old.ground ≡ None }
        requires lines { journal.old.lines ≡ [] }
        ensures step { IfOk result (λ step. Steps objects.now event.now (F.allowed finder.old)
            self.old.state self.new.state journal.old journal.new step) }
        ensures void { OnErr result (self.new.state ≡ None) }
        ensures rounds { OnErr result (journal.new.rounds ≡ journal.old.rounds) }
        ensures so_far { AreSoFar journal.new.lines }
        ensures budget { F.allowed finder.new ≡ F.allowed finder.old }
    {
        let Some(state) = self.state.take() else {
            unreachable!()
        };
        let (state, step) = advanced(alloc, state, objects, event, finder, journal)?;
        self.state = Some(state);
        Ok(step)
    }
}
