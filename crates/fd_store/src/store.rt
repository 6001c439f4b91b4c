//! `Store`, the boxes of a search in levels.
//!
//! Level 0 begins with the domains of a ground problem. A decision opens a level, prunings stay in
//! the last one, and `undo_to` goes back to a lower level as it was left. A store has one box for
//! each variable, and for each change an entry of the trail, which owns the box before. So a change
//! costs one entry, and going back costs the entries that are taken back, whatever the number of
//! variables. Contracts see the levels (`specs/Levels`).
ghost use Rattle.std.specs.Prelude.{◌≡◌, ◌<◌, ◌≤◌, ℕ, suc, true, false, reverse, length, IfOk, IfSome, IfNone, OnOk, OnErr};
ghost use Rattle.std.specs.List.{All};
ghost use Rattle.signed_clause.specs.Ranges.{is_nil, IsValid};
ghost use Rattle.signed_clause.specs.SetAlgebra.{is_within};
ghost use Rattle.signed_clause.specs.Clauses.{box_of, unit_of, IsWithinBoxes};
ghost use Rattle.fd_store.specs.Levels.{bottom, moved, reacted};
ghost use Rattle.fd_store.specs.Applying.{applied};
ghost use Rattle.fd_store.specs.Undo.{dropped, taken_back, entries_in, IsWiderAt};
ghost use Rattle.fd_store.specs.Trails.{stack_of, IsStore, IsNarrowing};

use crate::trail::{Moved, last_level, narrow, undo, undo_last};
use ground_form::{Ground, copy_sets};
use signed_clause::{Clause, IntSet};
use std::alloc::{AllocError, Global};
use std::marker::Model;

/// What a clause did.
#[derive(Clone, Copy, Debug)]
pub enum Applied {
    /// It was unit, and pruned the box of this variable.
    Pruned(u32),
    /// It is false in the boxes.
    Conflict,
    /// Neither.
    Nothing,
}

/// Boxes in levels, and how they came to be.
pub struct Store {
    boxes: Vec<IntSet>,
    trail: Vec<Moved>,
}

impl Drop for Store {
    fn drop(self) {
        let Store { boxes: _, trail: _ } = self;
    }
}

impl Model for Store {
    ghost use Rattle.std.specs.Prelude.{reverse};
    ghost use Rattle.fd_store.specs.Levels.{Stack};
    ghost use Rattle.fd_store.specs.Trails.{stack_of, IsStore};

    ghost Value = { Stack };

    ghost view = { λ s. stack_of s.boxes.items (reverse s.trail.items) };

    ghost invariant = { λ s. IsStore s.boxes.items (reverse s.trail.items) };
}

impl Store {
    /// Level 0, with the domains of the problem.
    pub fn new(alloc: Global, g: &Ground) -> Result<Store, AllocError>
        ensures { IfOk result (λ s. s ≡ bottom g.now.domains) }
    {
        let boxes = copy_sets(alloc, g.domains.items())?;
        Ok(Store {
            boxes,
            trail: Vec::new(alloc),
        })
    }

    /// The present box of each variable.
    pub fn boxes(&self) -> &[IntSet]
        ensures boxes { result.now ≡ self.now.top.now }
        ensures sets { All (λ s. IsValid s) result.now }
    {
        self.boxes.as_slice()
    }

    /// How many decisions stand.
    pub fn level(&self) -> u32
        ensures { result ≡ length self.now.below }
    {
        last_level(self.trail.as_slice())
    }

    /// The entries that stand, the oldest first. With the present boxes they give all boxes on the
    /// way, and each entry's box lies within the one before.
    pub fn trail(&self) -> &[Moved]
        ensures stack { self.now ≡ stack_of self.now.top.now (reverse result.now) }
        ensures kept { IsStore self.now.top.now (reverse result.now) }
    {
        self.trail.as_slice()
    }

    /// Opens a level, in which `x` has the values of `half` left: some of those that it had, not
    /// all. It costs one entry and a copy of `half`.
    ///
    /// # Errors
    /// Want of memory; the store is then as before.
    pub fn decide(&mut self, x: u32, half: &IntSet) -> Result<(), AllocError>
        requires var { x < length self.old.top.now }
        requires some { is_nil half.now ≡ false }
        requires within { is_within half.now (box_of self.old.top.now x) ≡ true }
        requires less { is_within (box_of self.old.top.now x) half.now ≡ false }
        requires level { length self.old.below < 4294967295 }
        ensures ok { OnOk result (self.new ≡ moved None x half.now self.old) }
        ensures err { OnErr result (self.new ≡ self.old) }
    {
        let level = self.level() + 1;
        let set = half.copy()?;
        narrow(&mut self.boxes, &mut self.trail, x, set, None, level)
    }

    /// What a clause does in the present boxes: where it is unit it prunes, and else nothing
    /// changes. `number` is the clause's, for the trail. It costs the clause's literals, and a
    /// pruning one entry and the set that is left.
    ///
    /// # Errors
    /// Want of memory; the store is then as before.
    pub fn apply(&mut self, number: u64, c: &Clause) -> Result<Applied, AllocError>
        requires { IsWithinBoxes c.now self.old.top.now }
        ensures does { IfOk result (λ a. a ≡ applied self.old.top.now c.now) }
        ensures ok { OnOk result (self.new ≡ reacted number c.now self.old) }
        ensures err { OnErr result (self.new ≡ self.old) }
    {
        if c.is_false(self.boxes()) {
            return Ok(Applied::Conflict);
        }
        match unit_literal(c, self.boxes())? {
            None => Ok(Applied::Nothing),
            Some((x, set)) => {
                self.prune(x, set, number)?;
                Ok(Applied::Pruned(x))
            }
        }
    }

    /// Prunes a box in the last level.
    fn prune(&mut self, x: u32, set: IntSet, number: u64) -> Result<(), AllocError>
        requires var { x < length self.old.top.now }
        requires valid { IsValid set }
        requires within { is_within set (box_of self.old.top.now x) ≡ true }
        ensures ok { OnOk result (self.new ≡ moved (Some number) x set self.old) }
        ensures err { OnErr result (self.new ≡ self.old) }
    {
        let level = self.level();
        narrow(
            &mut self.boxes,
            &mut self.trail,
            x,
            set,
            Some(number),
            level,
        )
    }

    /// Drops the levels above `level`, which is then as it was left. It costs the entries that are
    /// dropped, takes no memory and always succeeds.
    pub fn undo_to(&mut self, level: u32)
        requires { level ≤ length self.old.below }
        ensures { self.new ≡ dropped level self.old }
    {
        undo(&mut self.boxes, &mut self.trail, level);
    }

    /// Takes back what was done last, and answers its variable, whose box is then as it was before;
    /// None where nothing was done. It takes no memory.
    pub fn undo_last(&mut self) -> Option<u32>
        ensures stack { self.new ≡ taken_back self.old }
        ensures wider { IfSome result (λ x. IsWiderAt x self.old.top.now self.new.top.now) }
        ensures fewer { IfSome result (λ _. suc (entries_in self.new) ≡ entries_in self.old) }
        ensures none { IfNone result (self.old ≡ bottom self.old.top.now) }
        ensures dropped { (k : ℕ) → k < length self.old.below
            → dropped k self.new ≡ dropped k self.old }
    {
        undo_last(&mut self.boxes, &mut self.trail)
    }
}

/// The variable of a unit clause, and what is left of its box, which lies within it.
fn unit_literal(c: &Clause, boxes: &[IntSet]) -> Result<Option<(u32, IntSet)>, AllocError>
    requires vars { IsWithinBoxes c.now boxes.now }
    requires sets { All (λ s. IsValid s) boxes.now }
    ensures value { IfOk result (λ u. u ≡ unit_of boxes.now c.now) }
    ensures valid { IfOk result (λ u. IfSome u (λ l. IsValid l.1)) }
    ensures narrows { IfOk result (λ u. IfSome u (λ l. IsNarrowing boxes.now l.0 l.1)) }
{
    let _literals = c.literals();
    let unit = c.unit(boxes)?;
    Ok(unit)
}
