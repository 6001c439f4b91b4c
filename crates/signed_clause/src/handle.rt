//! `ClauseHandle`, a clause that several owners have.
//!
//! The clause is counted: `copy` makes one more owner in a few nanoseconds and takes no memory,
//! however long the clause is, and the last owner frees it. `clause` lends the clause with all that
//! it can do. Contracts see the clause's list, as of a clause of its own.
ghost use Rattle.std.specs.Prelude.{◌≡◌, IfOk, IfErr};

use crate::clause::Clause;
use std::alloc::{AllocError, Global};
use std::marker::Model;
use std::rc::Rc;

/// One owner of a clause.
pub struct ClauseHandle {
    clause: Rc<Clause>,
}

impl Drop for ClauseHandle {
    fn drop(self) {
        let ClauseHandle { clause: _ } = self;
    }
}

impl Model for ClauseHandle {
    ghost use Rattle.std.specs.Prelude.{ℕ, ℤ, List};

    ghost Value = { List (ℕ × List (ℤ × ℤ)) };

    ghost view = { λ h. h.clause.value };
}

impl ClauseHandle {
    /// The first owner of a clause. It takes one small block for the count.
    ///
    /// # Errors
    /// The clause, where there is no memory.
    pub fn of(alloc: Global, clause: Clause) -> Result<ClauseHandle, Clause>
        ensures ok { IfOk result (λ h. h ≡ clause) }
        ensures err { IfErr result (λ c. c ≡ clause) }
    {
        match Rc::new(alloc, clause) {
            Ok(clause) => Ok(ClauseHandle { clause }),
            Err(failed) => Err(failed.value),
        }
    }

    /// The clause.
    pub fn clause(&self) -> &Clause
        ensures { result.now ≡ self.now }
    {
        self.clause.as_ref()
    }

    /// One more owner of the same clause, in a few nanoseconds. It takes no memory.
    ///
    /// # Errors
    /// Only where the count of owners is at the greatest `usize`, which no machine's memory holds.
    pub fn copy(&self) -> Result<ClauseHandle, AllocError>
        ensures { IfOk result (λ h. h ≡ self.now) }
    {
        let clause = self.clause.clone()?;
        Ok(ClauseHandle { clause })
    }

    /// The clause to own, where this is its one owner.
    ///
    /// # Errors
    /// The handle, where there are other owners.
    pub fn into_clause(self) -> Result<Clause, ClauseHandle>
        ensures ok { IfOk result (λ c. c ≡ self) }
        ensures err { IfErr result (λ h. h ≡ self) }
    {
        let ClauseHandle { clause } = self;
        match Rc::try_unwrap(clause) {
            Ok(clause) => Ok(clause),
            Err(clause) => Err(ClauseHandle { clause }),
        }
    }
}
