//! The clauses that lines made, by number.
//!
//! The first ones are kept as they came, each by a handle, until they may take a gigabyte; those
//! behind them are packed, and made anew when a chain names them. A log of a search has its clauses
//! by handles, so a step of a chain borrows one; and no log takes many times its length.
ghost use Rattle.std.specs.Prelude.{◌≡◌, ◌<◌, ◌↔◌, ◌++◌, [], ◌∷◌, IsSome, IfSome, IfOk, OnOk, length, nat_lt};
ghost use Rattle.signed_clause.specs.Clauses.{IsClause};
ghost use Rattle.log_form.specs.Acceptance.{clause_at};

use numbered_clauses::{Clauses, PackedClauses};
use signed_clause::{Clause, ClauseHandle};
use std::alloc::{AllocError, Global};
use std::marker::Model;

/// How many bytes clauses that are kept by handles may take.
const ROOM: u64 = 1 << 30;
/// How many bytes a clause takes at most beside its literals.
const CLAUSE_SIZE: u64 = 240;
/// How many bytes a literal takes at most beside its ranges.
const LITERAL_SIZE: u64 = 64;
/// How many bytes a range takes.
const RANGE_SIZE: u64 = 16;

/// Clauses by number: those kept by handles, and then those that are packed.
#[derive(Drop)]
pub struct ClauseStore {
    kept: Clauses,
    packed: PackedClauses,
    room: u64,
}

impl Model for ClauseStore {
    ghost use Rattle.std.specs.Prelude.{ℕ, ℤ, List, ◌++◌};

    ghost Value = { List (List (ℕ × List (ℤ × ℤ))) };

    ghost view = { λ s. s.kept ++ s.packed };
}

impl ClauseStore {
    /// No clauses.
    pub fn new(alloc: Global) -> Self
        ensures { result ≡ [] }
    {
        ClauseStore {
            kept: Clauses::new(alloc),
            packed: PackedClauses::new(alloc),
            room: ROOM,
        }
    }

    /// Whether a clause has the number.
    #[tactic(auto, using(crate::proofs::Stored::count_both))]
    pub fn has(&self, k: u64) -> bool
        ensures { result ≡ nat_lt k (length self.now) }
    {
        let kept = self.kept.count();
        k < kept || k - kept < self.packed.count()
    }

    /// How many clauses are packed: the number among them that the next one gets.
    pub fn packed_count(&self) -> u64 {
        self.packed.count()
    }

    /// Adds a clause that has other owners: its handle, as long as none is packed.
    #[tactic(auto, using(crate::proofs::Stored::with_kept, crate::proofs::Stored::with_packed))]
    pub fn push_shared(&mut self, alloc: Global, c: ClauseHandle) -> Result<(), AllocError>
        ensures { OnOk result (self.new ≡ self.old ++ c ∷ []) }
    {
        if self.packed.count() == 0 {
            self.kept.push(c)?;
        } else {
            self.packed.push(alloc, c.clause(), None)?;
        }
        Ok(())
    }

    /// Adds a clause: its handle, as long as there is room and none is packed. Among those that are
    /// packed the one of the number `former` may be the same.
    #[tactic(auto, using(crate::proofs::Stored::with_packed))]
    pub fn push(
        &mut self,
        alloc: Global,
        c: ClauseHandle,
        former: Option<u64>,
    ) -> Result<(), AllocError>
        ensures { OnOk result (self.new ≡ self.old ++ c ∷ []) }
    {
        let size = size_of(c.clause());
        if size <= self.room {
            self.room -= size;
            return self.push_shared(alloc, c);
        }
        self.room = 0;
        self.packed.push(alloc, c.clause(), former)?;
        Ok(())
    }

    /// The clause of a number, where that is kept by a handle.
    #[tactic(auto, using(crate::proofs::Stored::count_both, crate::proofs::Stored::at_kept))]
    pub fn kept(&self, k: u64) -> Option<&Clause>
        ensures there { IfSome result (λ _. k < length self.now) }
        ensures clause { IfSome result (λ c. c.now ≡ clause_at self.now k) }
    {
        self.kept.get(k)
    }

    /// The clause of a number, made anew, where there is one.
    #[tactic(auto, using(crate::proofs::Stored::count_both, crate::proofs::Stored::at_kept, crate::proofs::Stored::at_packed))]
    pub fn make(&self, alloc: Global, k: u64) -> Result<Option<Clause>, AllocError>
        ensures variant { IfOk result (λ o. IsSome o ↔ (k < length self.now)) }
        ensures clause { IfOk result (λ o. IfSome o (λ c. c ≡ clause_at self.now k)) }
    {
        if let Some(c) = self.kept.get(k) {
            return Ok(Some(c.copy()?));
        }
        let clause = self.packed.get(alloc, k - self.kept.count())?;
        Ok(clause)
    }
}

/// How many bytes a clause takes at most, where it has one owner.
fn size_of(c: &Clause) -> u64 {
    let mut size = CLAUSE_SIZE;
    for l in c.literals() {
        let ranges = l.1.ranges().len() as u64;
        size = size
            .saturating_add(LITERAL_SIZE)
            .saturating_add(ranges.saturating_mul(RANGE_SIZE));
    }
    size
}
