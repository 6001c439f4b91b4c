//! Constraints of many parts over domains, and clauses of which a line of a log may say that they
//! are justified.

use crate::packs::{items, push_sizes};
use ground_form::{Con, VarList};
use signed_clause::{Clause, IntSet};
use std::alloc::{AllocError, Global};

/// A constraint and the domains of its variables, of which the first are its parts' values or bins.
#[derive(Drop)]
pub(crate) struct Case {
    /// What the row of the table is called.
    pub name: &'static str,
    /// How many parts there are.
    pub parts: u32,
    /// The constraint.
    pub con: Con,
    /// The domains.
    pub domains: Vec<IntSet>,
}

/// As many values that differ as there are numbers.
fn different(alloc: Global, n: u32) -> Result<Case, AllocError> {
    let mut vars = Vec::new(alloc);
    let mut domains = Vec::new(alloc);
    for x in 0..n {
        vars.push(x)?;
        domains.push(upto(alloc, n.saturating_sub(1)))?;
    }
    Ok(Case {
        name: "AllDiff",
        parts: n,
        con: Con::AllDiff {
            vars: VarList::of(vars),
        },
        domains,
    })
}

/// As many items as bins, of sizes of 1 and rooms of 4, each with a room of its own.
fn packed(alloc: Global, n: u32) -> Result<Case, AllocError> {
    let mut domains = Vec::new(alloc);
    for _ in 0..n {
        domains.push(upto(alloc, n.saturating_sub(1)))?;
    }
    push_sizes(&mut domains, alloc, n, 1, (4, 4))?;
    Ok(Case {
        name: "Pack",
        parts: n,
        con: Con::Pack {
            items: items(alloc, n)?,
        },
        domains,
    })
}

/// The same with bins 0, the item's own number and one below 9,999, so that most numbers between
/// them are no item's bin.
fn far(alloc: Global, n: u32) -> Result<Case, AllocError> {
    let mut domains = Vec::new(alloc);
    for x in 0..n {
        let from = i64::from(9999u32.saturating_sub(n));
        let own = i64::from(x);
        let behind = from.saturating_add(own);
        let near = upto(alloc, 0).join(&IntSet::range(alloc, own, own))?;
        domains.push(near.join(&IntSet::range(alloc, behind, behind))?)?;
    }
    push_sizes(&mut domains, alloc, n, 1, (4, 4))?;
    Ok(Case {
        name: "Pack, far bins",
        parts: n,
        con: Con::Pack {
            items: items(alloc, n)?,
        },
        domains,
    })
}

/// The numbers from 0 on.
fn upto(alloc: Global, last: u32) -> IntSet {
    IntSet::range(alloc, 0, i64::from(last))
}

/// The clause that leaves the first half of the parts one value each: its own number, or 0. None
/// where these aren't literals of a clause.
pub(crate) fn fixing(
    alloc: Global,
    domains: &[IntSet],
    half: u32,
    apart: bool,
) -> Result<Option<Clause>, AllocError> {
    let mut literals = Vec::new(alloc);
    for x in 0..half {
        let at = if apart { i64::from(x) } else { 0 };
        if (x as usize) < domains.len() {
            let others = domains[x as usize].less(&IntSet::range(alloc, at, at))?;
            literals.push((x, others))?;
        }
    }
    Ok(Clause::of(literals).ok())
}

/// The case of a row of the table, which has `ROWS`.
pub(crate) fn nth_case(alloc: Global, row: u32) -> Result<Case, AllocError> {
    match row {
        0 => different(alloc, 8),
        1 => different(alloc, 16),
        2 => different(alloc, 32),
        3 => different(alloc, 64),
        4 => different(alloc, 65),
        5 => packed(alloc, 16),
        6 => packed(alloc, 64),
        7 => packed(alloc, 200),
        _ => far(alloc, 64),
    }
}

/// How many rows there are.
pub(crate) const ROWS: u32 = 9;
