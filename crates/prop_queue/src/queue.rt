//! `Queue`, the constraints that a search still has to look at.
//!
//! Constraints are listed when a variable of theirs has changed; clauses are watched. A queue fits
//! boxes in which every constraint that isn't listed is quiet, and what the watches know of the
//! clauses is true. Its caller notes each change of a box, and the queue stays one that fits; so
//! where nothing is listed any more and no watched clause acts, every constraint is quiet.
ghost use Rattle.std.specs.Prelude.{◌≡◌, ◌<◌, ◌||◌, ◌⊎◌, ℕ, true, false, length, map, slice_get, Some, IfOk, IfSome, IfNone};
ghost use Rattle.signed_clause.specs.Clauses.{Boxes};
ghost use Rattle.ground_form.specs.declared.ground.Ground.{Ground};
ghost use Rattle.ground_form.specs.declared.con.Con.{Con};
ghost use Rattle.ground_form.specs.WellMade.{IsWellMade};
ghost use Rattle.rule_law.specs.Answers.{AreBoxesWithin, IsPruning};
ghost use Rattle.rule_law.specs.Reasons.{has_number};
ghost use Rattle.clause_watches.specs.declared.rest.Rest.TheVariants as rest;
ghost use Rattle.clause_watches.specs.Watching.{rest_of, touched, NarrowsAt, WidensAt, IsActing};
ghost use Rattle.prop_queue.specs.Work.{is_marked, row_of, IsOver, AreKnown, Fits, AreAllQuiet};

use crate::clauses::{reason_of, watch_all};
use crate::listing::{Listing, list_none, list_row};
use crate::others::others_of;
use crate::rows::{Rows, rows_of};
use crate::search::find;
use crate::urgency::urgencies_of;
use clause_watches::Watches;
use ground_form::Ground;
use rule_law::Kit;
use signed_clause::{Clause, IntSet};
use std::alloc::{AllocError, Global};
use std::marker::Model;

/// The constraints that are still to be looked at. Clauses come first, and then those that cost
/// little.
pub struct Queue {
    listing: Listing,
    rows: Rows,
    others: Vec<u32>,
    clauses: Watches,
}

impl Drop for Queue {
    fn drop(self) {
        let Queue {
            listing: _,
            rows: _,
            others: _,
            clauses: _,
        } = self;
    }
}

impl Model for Queue {
    ghost use Rattle.std.specs.Prelude.{length};
    ghost use Rattle.prop_queue.specs.Work.{Work, work};
    ghost use Rattle.prop_queue.specs.Lists.{HasRoom};

    ghost Value = { Work };

    ghost view = { λ q. work q.listing.marks q.rows q.others.items q.clauses };

    ghost invariant = { λ q. HasRoom (length q.listing.marks) q.rows q.others.items
        q.clauses.variables };
}

impl Queue {
    /// The queue over the problem, with every constraint listed and every clause to be looked at.
    /// It makes the room that listing will ever need, 30 bytes a constraint, for each variable a
    /// list of the constraints that name it, and the watches of the clauses.
    ///
    /// # Errors
    /// Want of memory.
    pub fn new(alloc: Global, g: &Ground) -> Result<Queue, AllocError>
        requires { IsWellMade g.now }
        ensures over { IfOk result (λ q. IsOver g.now q) }
        ensures marks { IfOk result (λ q. (k : ℕ) → has_number k q.others ≡ true
            → is_marked q.marks k ≡ true) }
        ensures clauses { IfOk result (λ q. (i : ℕ) → rest_of q.clauses.rests i ≡ rest.Listed) }
        ensures fits { IfOk result (λ q. (boxes : Boxes) → Fits g.now q boxes) }
    {
        let cons = g.cons.items();
        let domains = g.domains.items();
        let rows = rows_of(cons, domains.len(), alloc)?;
        let others = others_of(cons, alloc)?;
        let clauses = watch_all(alloc, cons, domains)?;
        let urgencies = urgencies_of(cons, alloc)?;
        let mut listing = Listing::of(alloc, urgencies)?;
        list_row(&mut listing, others.as_slice());
        Ok(Queue {
            listing,
            rows,
            others,
            clauses,
        })
    }

    /// Lists the constraints of the variable, whose box has become narrower, and notes that to the
    /// watches. It costs a look at each of the constraints, clauses aside, and takes no memory.
    pub fn note_narrower(&mut self, x: u32)
        requires { x < length self.old.rows }
        ensures size { length self.new.marks ≡ length self.old.marks }
        ensures rows { self.new.rows ≡ self.old.rows }
        ensures over { (g : Ground) → IsOver g self.old → IsOver g self.new }
        ensures marks { (k : ℕ) → is_marked self.new.marks k
            ≡ (is_marked self.old.marks k || has_number k (row_of self.old.rows x)) }
        ensures clauses { self.new.clauses.rests ≡ map (touched x) self.old.clauses.rests }
        ensures fits { (g : Ground) (a b : Boxes) → IsWellMade g → IsOver g self.old
            → length a ≡ length g.domains → length a ≡ length b → Fits g self.old a
            → NarrowsAt x a b → Fits g self.new b }
    {
        list_row(&mut self.listing, self.rows.row(x));
        self.clauses.note_narrower(x);
    }

    /// Notes to the watches that the box of the variable has become wider, as where an entry of the
    /// trail is taken back. The lists stay as they are: behind the last of such changes the caller
    /// notes the return. It takes no memory, and costs the clauses that rested by the variable
    /// alone.
    pub fn note_wider(&mut self, x: u32)
        requires { x < length self.old.rows }
        ensures marks { self.new.marks ≡ self.old.marks }
        ensures rows { self.new.rows ≡ self.old.rows }
        ensures over { (g : Ground) → IsOver g self.old → IsOver g self.new }
        ensures clauses { (a b : Boxes) → AreKnown a self.old.clauses → WidensAt x a b
            → AreKnown b self.new.clauses }
    {
        self.clauses.note_wider(x);
    }

    /// Lists every constraint, after boxes have become wider, each of which was noted; of a clause
    /// the watches know whether it needs a look. It costs as many steps, and takes no memory.
    pub fn note_undo(&mut self)
        ensures size { length self.new.marks ≡ length self.old.marks }
        ensures rows { self.new.rows ≡ self.old.rows }
        ensures over { (g : Ground) → IsOver g self.old → IsOver g self.new }
        ensures marks { (k : ℕ) → has_number k self.new.others ≡ true
            → is_marked self.new.marks k ≡ true }
        ensures clauses { self.new.clauses ≡ self.old.clauses }
        ensures fits { (g : Ground) (b : Boxes) → IsOver g self.old → AreKnown b self.old.clauses
            → Fits g self.new b }
    {
        list_row(&mut self.listing, self.others.as_slice());
    }

    /// Takes every constraint off the list, after a return to wider boxes in which all were quiet,
    /// each of which was noted. It costs as many steps as there are listed ones, and takes no
    /// memory.
    pub fn note_return(&mut self)
        ensures size { length self.new.marks ≡ length self.old.marks }
        ensures rows { self.new.rows ≡ self.old.rows }
        ensures over { (g : Ground) → IsOver g self.old → IsOver g self.new }
        ensures marks { (k : ℕ) → is_marked self.new.marks k ≡ false }
        ensures clauses { self.new.clauses ≡ self.old.clauses }
        ensures fits { (g : Ground) (b : Boxes) → AreKnown b self.old.clauses
            → AreAllQuiet g b → Fits g self.new b }
    {
        list_none(&mut self.listing);
    }

    /// A constraint that has something to say, by its number, and what it says: a clause that the
    /// constraint justifies and that is unit or false in the boxes. The constraint stays listed.
    /// None only where every constraint is quiet. Constraints that are found quiet go off the list,
    /// also before want of memory, and none is added. Clauses are asked first, by their watches. It
    /// costs a call of `prune` for each other constraint that it looks at, and takes no memory but
    /// what these and the watches take; where nothing is listed or watched anew, it looks at
    /// nothing.
    ///
    /// # Errors
    /// Want of memory.
    pub fn next(
        &mut self,
        g: &Ground,
        boxes: &[IntSet],
        kit: &mut Kit,
    ) -> Result<Option<(u32, Clause)>, AllocError>
        requires well_made { IsWellMade g.now }
        requires over { IsOver g.now self.old }
        requires boxes { AreBoxesWithin g.now.domains boxes.now }
        requires fits { Fits g.now self.old boxes.now }
        ensures size { length self.new.marks ≡ length self.old.marks }
        ensures rows { self.new.rows ≡ self.old.rows }
        ensures over { IsOver g.now self.new }
        ensures fewer { (k : ℕ) → is_marked self.new.marks k ≡ true
            → is_marked self.old.marks k ≡ true }
        ensures fits { Fits g.now self.new boxes.now }
        ensures there { IfOk result (λ o. IfSome o (λ a. a.0 < length g.now.cons)) }
        ensures listed { IfOk result (λ o. IfSome o (λ a. (is_marked self.new.marks a.0 ≡ true)
            ⊎ IsActing boxes.now self.new.clauses a.0)) }
        ensures pruning { IfOk result (λ o. IfSome o (λ a. (con : Con)
            → slice_get g.now.cons a.0 ≡ Some con → IsPruning con g.now.domains boxes.now a.1)) }
        ensures none { IfOk result (λ o. IfNone o (AreAllQuiet g.now boxes.now)) }
    {
        match self.clauses.next(boxes)? {
            Some(n) => {
                let found = reason_of(g, n, boxes)?;
                Ok(Some(found))
            }
            None => find(&mut self.listing, g, boxes, kit),
        }
    }
}
