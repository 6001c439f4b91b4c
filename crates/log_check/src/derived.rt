//! The clauses that the lines so far made, and whether one of them is empty.
ghost use Rattle.std.specs.Prelude.{◌≡◌, ◌++◌, [], ◌∷◌, false, OnOk};
ghost use Rattle.log_form.specs.Acceptance.{has_empty};

use crate::store::ClauseStore;
use signed_clause::{Clause, ClauseHandle};
use std::alloc::{AllocError, Global};

/// The clauses that were made.
#[derive(Drop)]
pub struct Derived {
    /// They, by number.
    pub clauses: ClauseStore,
    /// Whether one of them is empty.
    pub closed: bool,
    /// Of the last Bound line the first clause's number among those that are packed, if they are.
    pub bound: u64,
}

impl Derived {
    /// None yet.
    pub fn new(alloc: Global) -> Self
        ensures clauses { result.clauses ≡ [] }
        ensures closed { result.closed ≡ false }
    {
        Derived {
            clauses: ClauseStore::new(alloc),
            closed: false,
            bound: 0,
        }
    }

    /// Adds a clause that has other owners.
    #[tactic(auto, using(crate::proofs::BoundSteps::has_empty_more))]
    pub fn push_shared(&mut self, alloc: Global, c: ClauseHandle) -> Result<(), AllocError>
        requires { self.old.closed ≡ has_empty self.old.clauses }
        ensures clauses { OnOk result (self.new.clauses ≡ self.old.clauses ++ c ∷ []) }
        ensures closed { OnOk result (self.new.closed ≡ has_empty self.new.clauses) }
    {
        let empty = c.clause().is_empty();
        self.clauses.push_shared(alloc, c)?;
        self.closed = self.closed || empty;
        Ok(())
    }

    /// Adds a clause that has no other owner. Among those that are packed the one of the number
    /// `former` may be the same.
    #[tactic(auto, using(crate::proofs::BoundSteps::has_empty_more))]
    pub fn push(
        &mut self,
        alloc: Global,
        c: ClauseHandle,
        former: Option<u64>,
    ) -> Result<(), AllocError>
        requires { self.old.closed ≡ has_empty self.old.clauses }
        ensures clauses { OnOk result (self.new.clauses ≡ self.old.clauses ++ c ∷ []) }
        ensures closed { OnOk result (self.new.closed ≡ has_empty self.new.clauses) }
    {
        let empty = c.clause().is_empty();
        self.clauses.push(alloc, c, former)?;
        self.closed = self.closed || empty;
        Ok(())
    }

    /// Adds a clause that has no handle yet.
    pub fn push_own(&mut self, alloc: Global, c: Clause) -> Result<(), AllocError>
        requires { self.old.closed ≡ has_empty self.old.clauses }
        ensures clauses { OnOk result (self.new.clauses ≡ self.old.clauses ++ c ∷ []) }
        ensures closed { OnOk result (self.new.closed ≡ has_empty self.new.clauses) }
    {
        match ClauseHandle::of(alloc, c) {
            Ok(c) => self.push(alloc, c, None),
            Err(_) => Err(AllocError),
        }
    }
}
