//! Given problems, by number.
use ground_form::{
    Con, Cons, Domains, Goals, Ground, GroundGoal, PackItems, Parts, Terms, VarList,
};
use signed_clause::{Clause, IntSet};
use std::alloc::{AllocError, Global};

/// Two variables of 0 and 1 that differ, by a flag.
pub(crate) const UNEQUAL: u64 = 0;
/// Two variables of 0 and 1, the first less than the second.
pub(crate) const LESS: u64 = 1;
/// A variable of 1 to 3, at least 2, as small as can be.
pub(crate) const AT_LEAST_TWO: u64 = 2;
/// Two variables of 0 to 3 that add up to at most 4, the first as great as can be, then the second.
pub(crate) const FIRST_GOAL: u64 = 3;
/// The same, with the second variable before the first.
pub(crate) const SECOND_GOAL: u64 = 4;
/// A variable of 0 to 3, as great as can be, and then as small.
pub(crate) const OPPOSED: u64 = 5;
/// No searched variable: one defined as 1, as great as can be, and one as 2, as small as can be.
pub(crate) const CONSTANTS: u64 = 6;
/// Two variables of 0 and 1, the first as great as can be, and then the second.
pub(crate) const TWO_GOALS: u64 = 7;
/// A variable of 0 to 9, as great as can be.
pub(crate) const GREATEST: u64 = 8;
/// Three variables of 1 and 2 that differ.
pub(crate) const CROWDED: u64 = 9;
/// Three items of size 2 for two places of room 2.
pub(crate) const OVERFULL: u64 = 10;
/// Two items of size 2 for two places of room 2.
pub(crate) const FITTING: u64 = 11;
/// A variable without a value.
pub(crate) const NO_VALUE: u64 = 12;
/// Two flags: not the first, and the first or the second; by conjunctions.
pub(crate) const FLAGS: u64 = 13;

/// So many variables of the values from one to another.
fn equal_domains(alloc: Global, count: u32, low: i64, high: i64) -> Result<Domains, AllocError> {
    let mut sets = Vec::new(alloc);
    for _ in 0..count {
        if low <= high {
            sets.push(IntSet::range(alloc, low, high))?;
        } else {
            sets.push(IntSet::empty(alloc))?;
        }
    }
    Ok(Domains::of(sets))
}

/// Goals, each a variable and whether greater is better.
fn goals_of(alloc: Global, list: &[(u32, bool)]) -> Result<Goals, AllocError> {
    let mut goals = Vec::new(alloc);
    for goal in list {
        goals.push(GroundGoal {
            var: goal.0,
            max: goal.1,
        })?;
    }
    Ok(Goals::of(goals))
}

/// The sum of the terms is at most the bound.
fn at_most(alloc: Global, terms: &[(i64, u32)], bound: i64) -> Result<Con, AllocError> {
    let terms = Terms::of(terms.to_vec(alloc)?);
    Ok(Con::LinLe { terms, bound })
}

/// The variable has the value.
fn is_value(alloc: Global, x: u32, value: i64) -> Result<Con, AllocError> {
    match Clause::of(vec![in alloc; (x, IntSet::range(alloc, value, value))]?) {
        Ok(clause) => Con::of_clause(alloc, clause),
        Err(_) => Err(AllocError),
    }
}

/// The variable is the number.
fn constant(alloc: Global, out: u32, offset: i64) -> Con {
    Con::LinDef {
        out,
        terms: Terms::of(Vec::new(alloc)),
        offset,
    }
}

/// The flag says whether both variables are 0.
fn neither(alloc: Global, flag: u32, vars: [u32; 2]) -> Result<Con, AllocError> {
    let parts = vec![in alloc; (vars[0], false), (vars[1], false)]?;
    Ok(Con::AndDef {
        flag,
        parts: Parts::of(parts),
    })
}

/// The items of the places from 0 on, with one variable for all sizes and rooms behind them.
fn pack(alloc: Global, count: u32) -> Result<Con, AllocError> {
    let mut items = Vec::new(alloc);
    for place in 0..count {
        items.push((place, count, count))?;
    }
    Ok(Con::Pack {
        items: PackItems::of(items),
    })
}

/// The constraints of a problem.
fn cons_of(alloc: Global, number: u64) -> Result<Vec<Con>, AllocError> {
    Ok(match number {
        UNEQUAL => {
            let equal = Con::EqDef {
                flag: 2,
                left: 0,
                right: 1,
            };
            vec![in alloc; equal, is_value(alloc, 2, 0)?]?
        }
        LESS => vec![in alloc; at_most(alloc, &[(1, 0), (-1, 1)], -1)?]?,
        AT_LEAST_TWO => vec![in alloc; at_most(alloc, &[(-1, 0)], -2)?]?,
        FIRST_GOAL | SECOND_GOAL => vec![in alloc; at_most(alloc, &[(1, 0), (1, 1)], 4)?]?,
        CONSTANTS => vec![in alloc; constant(alloc, 0, 1), constant(alloc, 1, 2)]?,
        CROWDED => {
            let vars = VarList::of(vec![in alloc; 0u32, 1, 2]?);
            vec![in alloc; Con::AllDiff { vars }]?
        }
        OVERFULL => vec![in alloc; constant(alloc, 3, 2), pack(alloc, 3)?]?,
        FITTING => vec![in alloc; constant(alloc, 2, 2), pack(alloc, 2)?]?,
        FLAGS => vec![in alloc;
            neither(alloc, 2, [0, 1])?,
            neither(alloc, 3, [0, 2])?,
            is_value(alloc, 3, 1)?,
        ]?,
        _ => Vec::new(alloc),
    })
}

/// How many variables a problem has, how many are searched, and the least and the greatest value of
/// each.
fn shape_of(number: u64) -> (u32, u32, i64, i64) {
    match number {
        UNEQUAL => (3, 2, 0, 1),
        LESS | TWO_GOALS => (2, 2, 0, 1),
        AT_LEAST_TWO => (1, 1, 1, 3),
        FIRST_GOAL | SECOND_GOAL => (2, 2, 0, 3),
        OPPOSED => (1, 1, 0, 3),
        CONSTANTS => (2, 0, 1, 2),
        GREATEST => (1, 1, 0, 9),
        CROWDED => (3, 3, 1, 2),
        OVERFULL => (4, 3, 1, 2),
        FITTING => (3, 2, 1, 2),
        FLAGS => (4, 2, 0, 1),
        _ => (1, 1, 1, 0),
    }
}

/// The goals of a problem.
fn goals(alloc: Global, number: u64) -> Result<Goals, AllocError> {
    match number {
        AT_LEAST_TWO => goals_of(alloc, &[(0, false)]),
        FIRST_GOAL | TWO_GOALS => goals_of(alloc, &[(0, true), (1, true)]),
        SECOND_GOAL => goals_of(alloc, &[(1, true), (0, true)]),
        OPPOSED => goals_of(alloc, &[(0, true), (0, false)]),
        CONSTANTS => goals_of(alloc, &[(0, true), (1, false)]),
        GREATEST => goals_of(alloc, &[(0, true)]),
        _ => goals_of(alloc, &[]),
    }
}

/// The problem of the number.
pub(crate) fn given(alloc: Global, number: u64) -> Result<Ground, AllocError> {
    let shape = shape_of(number);
    Ok(Ground {
        domains: equal_domains(alloc, shape.0, shape.2, shape.3)?,
        search: shape.1,
        cons: Cons::of(cons_of(alloc, number)?),
        goals: goals(alloc, number)?,
    })
}
