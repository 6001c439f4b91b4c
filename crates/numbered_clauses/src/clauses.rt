//! The clauses that were made, by number.
//!
//! Clauses are numbered from 0 in the order in which they were added; none is ever taken away or
//! changed. A number is looked up in constant time. Each is kept by a handle, so that a clause that
//! stands here and elsewhere takes memory once.
ghost use Rattle.std.specs.Prelude.{◌≡◌, ◌<◌, ◌↔◌, ◌++◌, [], ◌∷◌, IsSome, IfSome, IfOk, OnOk, OnErr, length};
ghost use Rattle.signed_clause.specs.Clauses.{IsClause};
ghost use Rattle.numbered_clauses.specs.Numbered.{clause_at};

use signed_clause::{Clause, ClauseHandle};
use std::alloc::{AllocError, Global};
use std::marker::Model;

/// Numbered clauses.
pub struct Clauses {
    items: Vec<ClauseHandle>,
}

impl Drop for Clauses {
    fn drop(self) {
        let Clauses { items: _ } = self;
    }
}

impl Model for Clauses {
    ghost use Rattle.std.specs.Prelude.{ℕ, ℤ, List};

    ghost Value = { List (List (ℕ × List (ℤ × ℤ))) };

    ghost view = { λ l. l.items.items };
}

impl Clauses {
    /// No clauses. It takes no memory until one is added.
    pub fn new(alloc: Global) -> Self
        ensures { result ≡ [] }
    {
        Clauses {
            items: Vec::new(alloc),
        }
    }

    /// How many clauses there are: the number that the next one gets.
    pub fn count(&self) -> u64
        ensures { result ≡ length self.now }
    {
        self.items.len() as u64
    }

    /// Adds a clause behind the others, and answers its number. After want of memory the clauses
    /// are as before.
    pub fn push(&mut self, c: ClauseHandle) -> Result<u64, AllocError>
        ensures number { IfOk result (λ k. k ≡ length self.old) }
        ensures ok { OnOk result (self.new ≡ self.old ++ c ∷ []) }
        ensures err { OnErr result (self.new ≡ self.old) }
    {
        let number = self.count();
        self.items.push(c)?;
        Ok(number)
    }

    /// The clause of a number, where there is one.
    pub fn get(&self, k: u64) -> Option<&Clause>
        ensures variant { IsSome result ↔ (k < length self.now) }
        ensures clause { IfSome result (λ c. c.now ≡ clause_at self.now k) }
        ensures form { IfSome result (λ c. IsClause c.now) }
    {
        let handle = self.handle(k)?;
        Some(handle.clause())
    }

    /// The handle of a number's clause, where there is one. Whoever keeps the clause copies it.
    pub fn handle(&self, k: u64) -> Option<&ClauseHandle>
        ensures variant { IsSome result ↔ (k < length self.now) }
        ensures clause { IfSome result (λ c. c.now ≡ clause_at self.now k) }
        ensures form { IfSome result (λ c. IsClause c.now) }
    {
        let handles = self.items.as_slice();
        if k < handles.len() as u64 {
            Some(checked(&handles[k as usize]))
        } else {
            None
        }
    }
}

/// The handle itself; that its clause has a clause's form, the clause's type says.
fn checked(c: &ClauseHandle) -> &ClauseHandle
    ensures same { result.now ≡ c.now }
    ensures form { IsClause c.now }
{
    let _literals = c.clause().literals();
    c
}
