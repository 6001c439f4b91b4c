//! A line of a log.
ghost use Rattle.std.specs.Prelude.{◌≡◌, IfOk};

use crate::lists::Values;
use numbered_clauses::Chain;
use signed_clause::{ClauseHandle, IntSet};
use std::alloc::AllocError;

/// A line of a log. The clauses that lines make are numbered from 0, in the order in which they are
/// made. A line has its clause by a handle, so whoever keeps the clause too copies no literal.
#[derive(Drop)]
pub enum Line {
    /// A clause that the constraint of this number justifies.
    Axiom(u32, ClauseHandle),
    /// A clause, and the chain of earlier clauses that it is derived by.
    Chain(Chain, ClauseHandle),
    /// The goals' values at the solution found last. It makes a clause for each goal; together they
    /// ask for a better one.
    Bound(Values),
    /// The clause of this number was used.
    Use(u64),
    /// A solution.
    Found(Values),
    /// The search narrows a variable to a set.
    Decide(u32, IntSet),
    /// The domain of this variable is empty, which makes the empty clause.
    Empty(u32),
}

impl Line {
    /// The same line again. Its clause is not copied, but gets one more owner.
    pub fn copy(&self) -> Result<Self, AllocError>
        ensures { IfOk result (λ l. l ≡ self.now) }
    {
        match self {
            Line::Axiom(k, clause) => Ok(Line::Axiom(*k, clause.copy()?)),
            Line::Chain(chain, clause) => {
                let steps = chain.steps.copy()?;
                let first = chain.first;
                Ok(Line::Chain(Chain { first, steps }, clause.copy()?))
            }
            Line::Bound(values) => Ok(Line::Bound(values.copy()?)),
            Line::Use(i) => Ok(Line::Use(*i)),
            Line::Found(values) => Ok(Line::Found(values.copy()?)),
            Line::Decide(x, set) => Ok(Line::Decide(*x, set.copy()?)),
            Line::Empty(x) => Ok(Line::Empty(*x)),
        }
    }
}
