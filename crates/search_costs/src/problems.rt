//! Problems in the making: places, what is defined by them, and constants.
//!
//! Every variable is searched. The places come first, so no decision is ever taken on what is
//! defined by them.
use ground_form::{Con, Cons, Domains, Goals, Ground, Terms};
use signed_clause::IntSet;
use std::alloc::{AllocError, Global};

/// A problem without goals, and the variable that is to be least, where there is one.
#[derive(Drop)]
pub(crate) struct Problem {
    /// The problem.
    pub(crate) ground: Ground,
    /// The variable.
    pub(crate) least: Option<u32>,
}

/// Variables and constraints.
#[derive(Drop)]
pub(crate) struct Draft {
    alloc: Global,
    domains: Vec<IntSet>,
    cons: Vec<Con>,
}

impl Draft {
    /// So many variables, each of so many values from 0 on.
    pub(crate) fn new(alloc: Global, count: u32, values: u32) -> Result<Draft, AllocError> {
        let mut draft = Draft {
            alloc,
            domains: Vec::new(alloc),
            cons: Vec::new(alloc),
        };
        for _ in 0..count {
            draft.variable(0, values.saturating_sub(1))?;
        }
        Ok(draft)
    }

    /// A further variable of the values of a range.
    pub(crate) fn variable(&mut self, least: u32, most: u32) -> Result<u32, AllocError> {
        let number = self.domains.len().min(1_000_000) as u32;
        let set = IntSet::of(self.alloc, &[(i64::from(least), i64::from(most))])?;
        self.domains.push(set.unwrap_or(IntSet::empty(self.alloc)))?;
        Ok(number)
    }

    /// A flag that says whether the variable has the value.
    pub(crate) fn flag(&mut self, var: u32, value: u32) -> Result<u32, AllocError> {
        let flag = self.variable(0, 1)?;
        let set = IntSet::range(self.alloc, i64::from(value), i64::from(value));
        self.state(Con::MemberDef { flag, var, set })?;
        Ok(flag)
    }

    /// What the terms and the offset add up to, from 0 to a number.
    pub(crate) fn sum(
        &mut self,
        terms: Vec<(i64, u32)>,
        offset: u32,
        most: u32,
    ) -> Result<u32, AllocError> {
        let out = self.variable(0, most)?;
        let terms = Terms::of(terms);
        let offset = i64::from(offset);
        self.state(Con::LinDef { out, terms, offset })?;
        Ok(out)
    }

    /// Adds a constraint.
    pub(crate) fn state(&mut self, con: Con) -> Result<(), AllocError> {
        self.cons.push(con)?;
        Ok(())
    }

    /// The problem in which the variable is to be least.
    pub(crate) fn finish(self, least: Option<u32>) -> Problem {
        let search = self.domains.len().min(1_000_000) as u32;
        let goals = Goals::of(Vec::new(self.alloc));
        Problem {
            ground: Ground {
                domains: Domains::of(self.domains),
                search,
                cons: Cons::of(self.cons),
                goals,
            },
            least,
        }
    }
}
