//! `Watched`, watches with boxes that they fit.
use crate::wider::{are_below, are_wider, has_box, is_part, set_box};
use clause_watches::{Counts, Watches};
use ground_form::copy_sets;
use signed_clause::{ClauseHandle, IntSet};
use std::alloc::{AllocError, Global};
use std::marker::Model;

/// Watches, and boxes that they fit.
#[derive(Drop)]
pub struct Watched {
    watches: Watches,
    boxes: Vec<IntSet>,
}

impl Model for Watched {
    ghost use Rattle.clause_watches.specs.Watching.{Watching};
    ghost use Rattle.test_search_checks.specs.WatchFitting.{IsFitting};

    ghost Value = { Watching };

    ghost view = { λ w. w.watches };

    ghost invariant = { λ w. IsFitting w.boxes.items w.watches };
}

impl Watched {
    /// No clauses yet, and boxes that are the domains.
    ///
    /// # Errors
    /// Want of memory.
    pub fn new(alloc: Global, domains: &[IntSet]) -> Result<Watched, AllocError> {
        let watches = Watches::new(alloc, domains)?;
        let boxes = copy_sets(alloc, domains)?;
        Ok(Watched { watches, boxes })
    }

    /// The boxes.
    pub fn boxes(&self) -> &[IntSet] {
        self.boxes.as_slice()
    }

    /// Adds a clause, where its variables have boxes; else nothing changes.
    ///
    /// # Errors
    /// Want of memory.
    #[tactic(auto, using(crate::proofs::WiderBoxes::fits_added))]
    pub fn add(&mut self, number: u64, clause: ClauseHandle) -> Result<(), AllocError> {
        if are_below(clause.clause(), self.boxes.len()) {
            self.watches.add(number, clause)?;
        }
        Ok(())
    }

    /// Gives a variable a part of its box, where that has values; else nothing changes.
    pub fn change(&mut self, x: u32, set: IntSet) {
        if is_part(self.boxes.as_slice(), x, &set) {
            set_box(&mut self.boxes, x, set);
            self.watches.note_narrower(x);
        }
    }

    /// Gives a variable a box with all values of its own and perhaps others; where it isn't so
    /// nothing changes.
    fn widen_at(&mut self, x: u32, set: IntSet) {
        if has_box(self.boxes.as_slice(), x, &set) {
            set_box(&mut self.boxes, x, set);
            self.watches.note_wider(x);
        }
    }

    /// Goes over to wider boxes, and answers whether they are wider; if not, nothing changes. It
    /// costs a look at every box.
    pub fn widen(&mut self, boxes: Vec<IntSet>) -> bool {
        if !are_wider(self.boxes.as_slice(), boxes.as_slice()) {
            return false;
        }
        let mut boxes = boxes;
        while let Some(set) = boxes.pop() {
            if let Ok(x) = u32::try_from(boxes.len()) {
                self.widen_at(x, set);
            }
        }
        true
    }

    /// The number of a clause that is false or unit in the boxes, where there is one.
    ///
    /// # Errors
    /// Want of memory.
    pub fn next(&mut self) -> Result<Option<u64>, AllocError> {
        self.watches.next(self.boxes.as_slice())
    }

    /// How much the watches have done.
    pub fn counts(&self) -> Counts {
        self.watches.counts()
    }
}
