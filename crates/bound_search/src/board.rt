//! `Board`, the boxes of a search and what goes with them.
//!
//! The levels of the boxes stand in a store; a queue and watches know what is still to be looked at
//! in the present boxes. Each change of a box is noted to both, so that they fit the boxes behind
//! every step.
ghost use Rattle.std.specs.Prelude.{◌≡◌, ◌<◌, [], ℕ, true, false, Some, None, length, slice_get, IfOk, OnOk, IfSome, IfNone};
ghost use Rattle.signed_clause.specs.Ranges.{is_nil};
ghost use Rattle.signed_clause.specs.SetAlgebra.{is_within};
ghost use Rattle.signed_clause.specs.Clauses.{box_of, IsWithinBoxes};
ghost use Rattle.ground_form.specs.declared.con.Con.{Con};
ghost use Rattle.ground_form.specs.WellMade.{IsWellMade};
ghost use Rattle.rule_law.specs.Answers.{AreBoxesWithin, IsPruning};
ghost use Rattle.prop_queue.specs.Work.{AreAllQuiet};
ghost use Rattle.clause_watches.specs.Watching.{acts, clause_of, IsActing};
ghost use Rattle.fd_store.specs.Levels.{bottom, moved, reacted};
ghost use Rattle.fd_store.specs.Undo.{dropped};
ghost use Rattle.run_law.specs.Replay.{mode_by};
ghost use Rattle.bound_search.specs.Modes.{mode_of};
ghost use Rattle.bound_search.specs.Standing.{IsReason};
ghost use Rattle.bound_search.specs.Boards.{IsBoard, AreLower};

use crate::after::After;
use clause_watches::Watches;
use fd_store::{Applied, Store};
use ground_form::Ground;
use prop_queue::Queue;
use rule_law::{Kit, cut_says_the_same, cut_to};
use signed_clause::{Clause, IntSet};
use std::alloc::{AllocError, Global};

/// The levels, and what is still to be looked at in the present boxes.
#[derive(Drop)]
pub struct Board {
    /// The boxes in levels.
    pub store: Store,
    /// The constraints that may have something to say.
    pub queue: Queue,
    /// The clauses that may have.
    pub watches: Watches,
}

impl Board {
    /// Level 0, with every constraint to be looked at, and no clause yet.
    pub fn new(alloc: Global, g: &Ground) -> Result<Board, AllocError>
        requires { IsWellMade g.now }
        ensures store { IfOk result (λ b. b.store ≡ bottom g.now.domains) }
        ensures board { IfOk result (λ b. IsBoard g.now b.store b.queue b.watches) }
        ensures added { IfOk result (λ b. b.watches.added ≡ []) }
    {
        let store = Store::new(alloc, g)?;
        let queue = Queue::new(alloc, g)?;
        let watches = Watches::new(alloc, g.domains.items())?;
        Ok(Board {
            store,
            queue,
            watches,
        })
    }

    /// What the clause of a number does in the present boxes.
    ///
    /// # Errors
    /// Want of memory.
    pub fn apply(&mut self, g: &Ground, number: u64, c: &Clause) -> Result<After, AllocError>
        requires well_made { IsWellMade g.now }
        requires board { IsBoard g.now self.old.store self.old.queue self.old.watches }
        requires vars { IsWithinBoxes c.now self.old.store.top.now }
        ensures mode { IfOk result (λ a. mode_of a
            ≡ mode_by self.old.store.top.now number c.now) }
        ensures store { OnOk result (self.new.store ≡ reacted number c.now self.old.store) }
        ensures board { OnOk result
            (IsBoard g.now self.new.store self.new.queue self.new.watches) }
        ensures added { self.new.watches.added ≡ self.old.watches.added }
    {
        c.literals();
        match self.store.apply(number, c)? {
            Applied::Conflict => {
                if c.is_empty() {
                    Ok(After::Closed)
                } else {
                    Ok(After::Conflict(number))
                }
            }
            Applied::Pruned(x) => {
                self.queue.note_narrower(x);
                self.watches.note_narrower(x);
                Ok(After::Going)
            }
            Applied::Nothing => Ok(After::Going),
        }
    }

    /// Opens a level, in which the variable has the values of the half left.
    ///
    /// # Errors
    /// Want of memory.
    pub fn decide(&mut self, g: &Ground, x: u32, half: &IntSet) -> Result<(), AllocError>
        requires well_made { IsWellMade g.now }
        requires board { IsBoard g.now self.old.store self.old.queue self.old.watches }
        requires var { x < length g.now.domains }
        requires some { is_nil half.now ≡ false }
        requires within { is_within half.now (box_of self.old.store.top.now x) ≡ true }
        requires less { is_within (box_of self.old.store.top.now x) half.now ≡ false }
        requires level { length self.old.store.below < 4294967295 }
        ensures store { OnOk result (self.new.store ≡ moved None x half.now self.old.store) }
        ensures board { OnOk result
            (IsBoard g.now self.new.store self.new.queue self.new.watches) }
        ensures added { self.new.watches.added ≡ self.old.watches.added }
    {
        half.ranges();
        self.store.decide(x, half)?;
        self.queue.note_narrower(x);
        self.watches.note_narrower(x);
        Ok(())
    }

    /// Drops the levels above one that stands below the last. In its boxes every constraint is
    /// quiet.
    pub fn undo_to(&mut self, g: &Ground, level: u32)
        requires board { IsBoard g.now self.old.store self.old.queue self.old.watches }
        requires level { level < length self.old.store.below }
        requires lower { AreLower g.now self.old.store.top.now self.old.store.below }
        ensures store { self.new.store ≡ dropped level self.old.store }
        ensures board { IsBoard g.now self.new.store self.new.queue self.new.watches }
        ensures lower { AreLower g.now self.new.store.top.now self.new.store.below }
        ensures added { self.new.watches.added ≡ self.old.watches.added }
    {
        while self.store.level() > level {
            if let Some(x) = self.store.undo_last() {
                self.queue.note_wider(x);
                self.watches.note_wider(x);
            }
        }
        self.queue.note_return();
    }

    /// A constraint that has something to say in the boxes, and what it says, cut to the domains;
    /// None where every constraint is quiet.
    ///
    /// # Errors
    /// Want of memory.
    pub fn next_cause(
        &mut self,
        alloc: Global,
        g: &Ground,
        kit: &mut Kit,
    ) -> Result<Option<(u32, Clause)>, AllocError>
        requires well_made { IsWellMade g.now }
        requires board { IsBoard g.now self.old.store self.old.queue self.old.watches }
        requires boxes { AreBoxesWithin g.now.domains self.old.store.top.now }
        ensures store { self.new.store ≡ self.old.store }
        ensures watches { self.new.watches ≡ self.old.watches }
        ensures board { IsBoard g.now self.new.store self.new.queue self.new.watches }
        ensures reason { IfOk result (λ o. IfSome o (λ a.
            IsReason g.now self.old.store.top.now a.0 a.1)) }
        ensures none { IfOk result (λ o. IfNone o (AreAllQuiet g.now self.old.store.top.now)) }
    {
        match self.queue.next(g, self.store.boxes(), kit)? {
            None => Ok(None),
            Some((k, c)) => {
                let cut = cut_reason(alloc, g, self.store.boxes(), k, c)?;
                Ok(Some((k, cut)))
            }
        }
    }

    /// The number of a watched clause that is false in the boxes or unit; None where none is.
    ///
    /// # Errors
    /// Want of memory.
    pub fn next_clause(&mut self, g: &Ground) -> Result<Option<u64>, AllocError>
        requires { IsBoard g.now self.old.store self.old.queue self.old.watches }
        ensures store { self.new.store ≡ self.old.store }
        ensures added { self.new.watches.added ≡ self.old.watches.added }
        ensures board { IsBoard g.now self.new.store self.new.queue self.new.watches }
        ensures some { IfOk result (λ o. IfSome o (λ n.
            IsActing self.old.store.top.now self.new.watches n)) }
        ensures none { IfOk result (λ o. IfNone o ((i : ℕ) → i < length self.old.watches.added
            → acts self.old.store.top.now (clause_of self.old.watches.added i) ≡ false)) }
    {
        let next = self.watches.next(self.store.boxes())?;
        Ok(next)
    }
}

/// The clause of a constraint's pruning, cut to the domains.
fn cut_reason(
    alloc: Global,
    g: &Ground,
    boxes: &[IntSet],
    k: u32,
    c: Clause,
) -> Result<Clause, AllocError>
    requires well_made { IsWellMade g.now }
    requires boxes { AreBoxesWithin g.now.domains boxes.now }
    requires there { k < length g.now.cons }
    requires pruning { (con : Con) → slice_get g.now.cons k ≡ Some con
        → IsPruning con g.now.domains boxes.now c }
    ensures { IfOk result (λ d. IsReason g.now boxes.now k d) }
{
    let con = &g.cons.items()[k as usize];
    cut_says_the_same(con, g.domains.items(), boxes, &c);
    let cut = cut_to(g.domains.items(), c, alloc)?;
    Ok(cut)
}
