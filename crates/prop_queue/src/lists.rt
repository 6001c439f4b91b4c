//! Numbers that wait, of three urgencies, those of each in sweeps.
ghost use Rattle.std.specs.Prelude.{◌≡◌, ◌<◌, [], ◌∷◌, false, length, IfOk, IfSome, IfNone};
ghost use Rattle.prop_queue.specs.Urgencies.{sweep, waiting, order_of, first_of, queued};

use crate::sweeps::Sweeps;
use crate::urgency::Urgency;
use std::alloc::{AllocError, Global};
use std::marker::Model;

/// Numbers in the order in which they are taken: those of the soonest urgency first.
#[derive(Drop)]
pub struct Lists {
    cheap: Sweeps,
    sums: Sweeps,
    packings: Sweeps,
}

impl Model for Lists {
    ghost use Rattle.std.specs.Prelude.{◌≤◌};
    ghost use Rattle.prop_queue.specs.Urgencies.{Waiting, waiting};

    ghost Value = { Waiting };

    ghost view = { λ l. waiting l.cheap l.sums l.packings l.cheap.room };

    ghost invariant = { λ l. (l.cheap.room ≤ l.sums.room) × (l.cheap.room ≤ l.packings.room) };
}

impl Lists {
    /// No number, with room for so many.
    ///
    /// # Errors
    /// Want of memory.
    pub fn with_room(alloc: Global, room: usize) -> Result<Lists, AllocError>
        ensures { IfOk result (λ l. l ≡ waiting (sweep [] [] false room) (sweep [] [] false room)
            (sweep [] [] false room) room) }
    {
        let cheap = Sweeps::with_room(alloc, room)?;
        let sums = Sweeps::with_room(alloc, room)?;
        let packings = Sweeps::with_room(alloc, room)?;
        Ok(Lists {
            cheap,
            sums,
            packings,
        })
    }

    /// The number that is taken next, where there is one.
    pub fn front(&self) -> Option<u32>
        ensures { result ≡ first_of (order_of self.now) }
    {
        if let Some(k) = self.cheap.front() {
            return Some(k);
        }
        if let Some(k) = self.sums.front() {
            return Some(k);
        }
        self.packings.front()
    }

    /// Takes it.
    pub fn pop(&mut self) -> Option<u32>
        ensures some { IfSome result (λ k. order_of self.old ≡ k ∷ order_of self.new) }
        ensures none { IfNone result (order_of self.old ≡ []) }
        ensures left { IfNone result (order_of self.new ≡ []) }
        ensures room { self.new.room ≡ self.old.room }
    {
        if let Some(k) = self.cheap.pop() {
            return Some(k);
        }
        if let Some(k) = self.sums.pop() {
            return Some(k);
        }
        self.packings.pop()
    }

    /// Adds a number to those of its urgency. It takes no memory.
    pub fn push(&mut self, urgency: Urgency, k: u32)
        requires { length (order_of self.old) < self.old.room }
        ensures { self.new ≡ queued urgency k self.old }
    {
        match urgency {
            Urgency::Cheap => self.cheap.push(k),
            Urgency::Sum => self.sums.push(k),
            Urgency::Packing => self.packings.push(k),
        }
    }
}
