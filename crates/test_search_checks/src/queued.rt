//! `Queued`, a problem, boxes of its variables, and a queue that fits them.
ghost use Rattle.std.specs.Prelude.{◌≡◌, ◌<◌, ◌^◌, length};
ghost use Rattle.ground_form.specs.declared.ground.Ground.{Ground};
ghost use Rattle.fd_store.specs.Undo.{AreWider};
ghost use Rattle.prop_queue.specs.Work.{IsOver, AreKnown};

use crate::quiet::{are_all_quiet, is_pruning, is_quiet};
use crate::wider::{are_wider, is_part, set_box};
use ground_form::{Ground, copy_sets};
use prop_queue::Queue;
use rule_law::{Kit, are_boxes_within};
use signed_clause::{Clause, IntSet};
use std::alloc::{AllocError, Global};
use std::marker::Model;
use test_well_made::is_search_well_made;

/// A problem, boxes within its domains, and a queue that fits them.
#[derive(Drop)]
pub struct Queued {
    ground: Ground,
    boxes: Vec<IntSet>,
    queue: Queue,
}

impl Model for Queued {
    ghost use Rattle.prop_queue.specs.Work.{Work};
    ghost use Rattle.test_search_checks.specs.QueueFitting.{IsFitting};

    ghost Value = { Work };

    ghost view = { λ q. q.queue };

    ghost invariant = { λ q. IsFitting q.ground q.boxes.items q.queue };
}

/// Takes over wider boxes one after the other, each of which is noted.
fn take_over(queue: &mut Queue, boxes: &mut Vec<IntSet>, wider: Vec<IntSet>)
    requires wider { AreWider boxes.old.items wider.items }
    requires size { length boxes.old.items ≡ length wider.items }
    requires few { length boxes.old.items < 2 ^ 32 }
    requires rows { length queue.old.rows ≡ length boxes.old.items }
    requires known { AreKnown boxes.old.items queue.old.clauses }
    ensures boxes { boxes.new.items ≡ wider.items }
    ensures over { (g : Ground) → IsOver g queue.old → IsOver g queue.new }
    ensures known { AreKnown boxes.new.items queue.new.clauses }
{
    let mut wider = wider;
    while let Some(set) = wider.pop() {
        let x = wider.len() as u32;
        set_box(boxes, x, set);
        queue.note_wider(x);
    }
}

impl Queued {
    /// The problem with its domains as boxes, and every constraint listed. None where the problem
    /// isn't known to be well made (`test_well_made`).
    ///
    /// # Errors
    /// Want of memory.
    pub fn new(alloc: Global, ground: Ground) -> Result<Option<Queued>, AllocError> {
        if !is_search_well_made(&ground, alloc)? {
            return Ok(None);
        }
        let boxes = copy_sets(alloc, ground.domains.items())?;
        if !are_boxes_within(ground.domains.items(), boxes.as_slice()) {
            return Ok(None);
        }
        let queue = Queue::new(alloc, &ground)?;
        Ok(Some(Queued {
            ground,
            boxes,
            queue,
        }))
    }

    /// The problem.
    pub fn ground(&self) -> &Ground {
        &self.ground
    }

    /// The boxes.
    pub fn boxes(&self) -> &[IntSet] {
        self.boxes.as_slice()
    }

    /// Gives a variable a part of its box, where that has values; else nothing changes.
    pub fn change(&mut self, x: u32, set: IntSet) {
        if is_part(self.boxes.as_slice(), x, &set) {
            set_box(&mut self.boxes, x, set);
            self.queue.note_narrower(x);
        }
    }

    /// Goes over to wider boxes, where they lie within the domains, and answers whether that is so;
    /// if not, nothing changes. The queue is told of an undo.
    pub fn undo(&mut self, boxes: Vec<IntSet>) -> bool {
        if !are_boxes_within(self.ground.domains.items(), boxes.as_slice())
            || !are_wider(self.boxes.as_slice(), boxes.as_slice())
        {
            return false;
        }
        take_over(&mut self.queue, &mut self.boxes, boxes);
        self.queue.note_undo();
        true
    }

    /// Goes over to wider boxes, where they lie within the domains and every constraint is quiet in
    /// them, and answers whether that is so; if not, nothing changes. The queue is told of a
    /// return.
    pub fn go_back(&mut self, boxes: Vec<IntSet>) -> bool {
        if !are_boxes_within(self.ground.domains.items(), boxes.as_slice())
            || !are_wider(self.boxes.as_slice(), boxes.as_slice())
            || !are_all_quiet(&self.ground, boxes.as_slice())
        {
            return false;
        }
        take_over(&mut self.queue, &mut self.boxes, boxes);
        self.queue.note_return();
        true
    }

    /// What the queue finds: a constraint's number, and a clause of it.
    ///
    /// # Errors
    /// Want of memory.
    pub fn next(&mut self, kit: &mut Kit) -> Result<Option<(u32, Clause)>, AllocError> {
        self.queue.next(&self.ground, self.boxes.as_slice(), kit)
    }

    /// Whether each constraint is quiet; each is looked at.
    pub fn are_all_quiet(&self) -> bool {
        are_all_quiet(&self.ground, self.boxes.as_slice())
    }

    /// Whether the constraint isn't quiet and the clause is a pruning of it.
    pub fn is_pruning(&self, k: u32, clause: &Clause) -> bool {
        (k as usize) < self.ground.cons.items().len()
            && !is_quiet(&self.ground, k, self.boxes.as_slice())
            && is_pruning(&self.ground, k, self.boxes.as_slice(), clause)
    }
}
