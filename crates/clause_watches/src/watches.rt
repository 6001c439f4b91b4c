//! `Watches`, clauses that are looked at only where they may have become unit or false.
//!
//! A clause rests by two literals that meet their boxes, or by one whose box lies within its set;
//! the rows of their variables have it. Where the box of a variable becomes narrower, its row is
//! walked at the next search. A watch carries values of its literal's set, so most clauses aren't
//! opened then; only those are that lose a watch, and those that were added or answered. Where a
//! box becomes wider, those are that rest by it alone. So a search costs the watches of changed
//! variables and the clauses that lost one, however many clauses there are. Contracts see the
//! clauses, and why each of them rests (`specs/Watching.antt`).
ghost use Rattle.std.specs.Prelude.{◌≡◌, ◌<◌, ◌++◌, ◌∷◌, [], ℕ, true, false, map, length, IfOk, OnOk, OnErr, IfNone, IfSome};
ghost use Rattle.std.specs.List.{All};
ghost use Rattle.signed_clause.specs.Clauses.{Boxes};
ghost use Rattle.clause_watches.specs.Watching.{acts, clause_of, rest_of, is_listed, holds, touched, Fits, NarrowsAt, WidensAt, IsActing};

use crate::build::{add_clause, empty_table};
use crate::counts::Counts;
use crate::held::free_all;
use crate::next::next_acting;
use crate::rest::Rest;
use crate::table::Table;
use signed_clause::{ClauseHandle, IntSet};
use std::alloc::{AllocError, Global};
use std::marker::Model;

/// Clauses that are looked at only where they may have become unit or false.
pub struct Watches {
    table: Table,
}

impl Drop for Watches {
    fn drop(self) {
        let Watches { table: _ } = self;
    }
}

impl Model for Watches {
    ghost use Rattle.clause_watches.specs.Watching.{Watching};
    ghost use Rattle.clause_watches.specs.Sound.{IsSound, watching_of};

    ghost Value = { Watching };

    ghost view = { λ w. watching_of w.table };

    ghost invariant = { λ w. IsSound w.table };
}

impl Watches {
    /// No clauses yet, over the variables of these domains: one row for each of them.
    ///
    /// # Errors
    /// Want of memory.
    pub fn new(alloc: Global, domains: &[IntSet]) -> Result<Watches, AllocError>
        ensures variables { IfOk result (λ w. w.variables ≡ length domains.now) }
        ensures added { IfOk result (λ w. w.added ≡ []) }
        ensures rests { IfOk result (λ w. w.rests ≡ []) }
    {
        let table = empty_table(alloc, domains)?;
        Ok(Watches { table })
    }

    /// Adds a clause with its number, to be looked at. It makes the room that listing the clause
    /// will ever need. The watches own a handle: the clause itself isn't copied.
    ///
    /// # Errors
    /// Want of memory, or more clauses than 32 bits number; the watches are as before.
    pub fn add(&mut self, number: u64, clause: ClauseHandle) -> Result<(), AllocError>
        requires { All (λ l. l.0 < self.old.variables) clause }
        ensures variables { self.new.variables ≡ self.old.variables }
        ensures added { OnOk result (self.new.added ≡ self.old.added ++ (number, clause) ∷ []) }
        ensures rests { OnOk result (self.new.rests ≡ self.old.rests ++ Rest.Listed ∷ []) }
        ensures err { OnErr result (self.new ≡ self.old) }
    {
        add_clause(&mut self.table, number, clause)
    }

    /// Notes that the box of `x` may have become narrower; it has values left. A clause that rests
    /// by the literal of `x` alone stays at rest. It takes no memory and costs the same however
    /// many clauses there are.
    pub fn note_narrower(&mut self, x: u32)
        requires { x < self.old.variables }
        ensures variables { self.new.variables ≡ self.old.variables }
        ensures added { self.new.added ≡ self.old.added }
        ensures rests { self.new.rests ≡ map (touched x) self.old.rests }
        ensures fits { (a b : Boxes) → Fits a self.old → NarrowsAt x a b → Fits b self.new }
    {
        self.table.changed.add(x);
    }

    /// Notes that the box of `x` may have become wider, as where an entry of the trail is taken
    /// back. Only clauses that rest by the literal of `x` alone are to be looked at again. It takes
    /// no memory and costs those that came to rest so since the box of `x` became wider last.
    pub fn note_wider(&mut self, x: u32)
        requires { x < self.old.variables }
        ensures variables { self.new.variables ≡ self.old.variables }
        ensures added { self.new.added ≡ self.old.added }
        ensures size { length self.new.rests ≡ length self.old.rests }
        ensures others { (i : ℕ) → holds (rest_of self.old.rests i) x ≡ false
            → rest_of self.new.rests i ≡ rest_of self.old.rests i }
        ensures freed { (i : ℕ) → holds (rest_of self.old.rests i) x ≡ true
            → is_listed (rest_of self.new.rests i) ≡ true }
        ensures fits { (a b : Boxes) → Fits a self.old → WidensAt x a b → Fits b self.new }
    {
        free_all(&mut self.table, x);
    }

    /// The number of a clause that is false in the boxes or unit; None only where no clause is so.
    /// The clause stays listed, so it is answered again until its box has been narrowed or boxes
    /// have become wider. It costs the watches of the variables that were noted since the last
    /// search, and the literals of the clauses that lost a watch or were listed.
    ///
    /// # Errors
    /// Want of memory; what the watches know is still true in the boxes.
    pub fn next(&mut self, boxes: &[IntSet]) -> Result<Option<u64>, AllocError>
        requires boxes { length boxes.now ≡ self.old.variables }
        requires fits { Fits boxes.now self.old }
        ensures variables { self.new.variables ≡ self.old.variables }
        ensures added { self.new.added ≡ self.old.added }
        ensures size { length self.new.rests ≡ length self.old.rests }
        ensures fits { Fits boxes.now self.new }
        ensures some { IfOk result (λ o. IfSome o (λ n. IsActing boxes.now self.new n)) }
        ensures none { IfOk result (λ o. IfNone o ((i : ℕ) → i < length self.new.added
            → acts boxes.now (clause_of self.new.added i) ≡ false)) }
        ensures none_listed { IfOk result (λ o. IfNone o ((i : ℕ) → i < length self.new.added
            → is_listed (rest_of self.new.rests i) ≡ false)) }
    {
        next_acting(&mut self.table, boxes)
    }

    /// How much has been done since the watches were made.
    pub fn counts(&self) -> Counts {
        self.table.counts
    }
}
