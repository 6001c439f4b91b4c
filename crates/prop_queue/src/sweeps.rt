//! Numbers that wait, taken in sweeps.
//!
//! A sweep takes the numbers that waited when it began; what is listed meanwhile waits for the next
//! one. So each is taken in the order in which it was listed, and a change that runs along a chain
//! of constraints in that order is done by one sweep. One that runs the other way comes on by a
//! constraint a sweep. So where sweeps go on, each takes with the newest first what was listed
//! during the one before: then they run to and fro.
ghost use Rattle.std.specs.Prelude.{◌≡◌, ◌<◌, [], ◌∷◌, false, length, IfOk, IfSome, IfNone};
ghost use Rattle.prop_queue.specs.Urgencies.{sweep, sweep_order, first_of, added};

use std::alloc::{AllocError, Global};
use std::collections::VecDeque;
use std::marker::Model;
use std::mem;

/// After so many sweeps each turns round what it leaves for the next one.
const TURN: u32 = 16;

/// Numbers in the order in which they are taken.
#[derive(Drop)]
pub struct Sweeps {
    current: VecDeque<u32>,
    later: VecDeque<u32>,
    turned: bool,
    begun: u32,
}

impl Model for Sweeps {
    ghost use Rattle.std.specs.Prelude.{◌≡◌};
    ghost use Rattle.std.specs.VecDeque.{deque_capacity};
    ghost use Rattle.prop_queue.specs.Urgencies.{Sweep, sweep};

    ghost Value = { Sweep };

    ghost view = { λ s. sweep s.current.items s.later.items s.turned (deque_capacity s.current) };

    ghost invariant = { λ s. deque_capacity s.later ≡ deque_capacity s.current };
}

impl Sweeps {
    /// No number, with room for so many.
    ///
    /// # Errors
    /// Want of memory.
    pub fn with_room(alloc: Global, room: usize) -> Result<Sweeps, AllocError>
        ensures { IfOk result (λ s. s ≡ sweep [] [] false room) }
    {
        let current = VecDeque::with_capacity(alloc, room)?;
        let later = VecDeque::with_capacity(alloc, room)?;
        Ok(Sweeps {
            current,
            later,
            turned: false,
            begun: 0,
        })
    }

    /// The number that is taken next, where there is one.
    pub fn front(&self) -> Option<u32>
        ensures { result ≡ first_of (sweep_order self.now) }
    {
        if let Some(k) = self.current.front() {
            return Some(*k);
        }
        self.later.front().copied()
    }

    /// Begins the next sweep, where this one has taken all of its numbers.
    fn begin(&mut self)
        ensures order { sweep_order self.new ≡ sweep_order self.old }
        ensures room { self.new.room ≡ self.old.room }
        ensures left { self.new.current ≡ [] → sweep_order self.old ≡ [] }
    {
        if self.current.is_empty() {
            mem::swap(&mut self.current, &mut self.later);
            self.begun = self.begun.saturating_add(1);
            self.turned = self.begun > TURN;
        }
    }

    /// Forgets how many sweeps there were, where no number waits.
    fn rest(&mut self)
        ensures order { sweep_order self.new ≡ sweep_order self.old }
        ensures room { self.new.room ≡ self.old.room }
    {
        if self.current.is_empty() && self.later.is_empty() {
            self.begun = 0;
            self.turned = false;
        }
    }

    /// Takes it.
    pub fn pop(&mut self) -> Option<u32>
        ensures some { IfSome result (λ k. sweep_order self.old ≡ k ∷ sweep_order self.new) }
        ensures none { IfNone result (sweep_order self.old ≡ []) }
        ensures left { IfNone result (sweep_order self.new ≡ []) }
        ensures room { self.new.room ≡ self.old.room }
    {
        self.begin();
        let first = self.current.pop_front();
        self.rest();
        first
    }

    /// Adds a number. It takes no memory.
    pub fn push(&mut self, k: u32)
        requires { length (sweep_order self.old) < self.old.room }
        ensures { self.new ≡ added k self.old }
    {
        if self.turned {
            self.later.push_front_reserved(k);
        } else {
            self.later.push_back_reserved(k);
        }
    }
}
