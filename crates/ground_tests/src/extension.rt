//! The values of all variables of a ground problem, from those of its cells on: each further
//! variable has the value that its definition gives it. What the kinds of constraints mean is
//! written here once more, in the plainest way.
use ground_form::{Con, Ground};
use signed_clause::IntSet;
use std::alloc::{AllocError, Global};

/// What a constraint gives at values.
#[derive(Drop)]
enum Given {
    /// It defines this variable, which has this value.
    Value(u32, i64),
    /// It defines none.
    None,
    /// It defines a variable, and names one that has no value yet, or there is no value for it.
    Missing,
}

/// The value of a variable; None where it has none yet.
fn value_of(values: &[i64], x: u32) -> Option<i64> {
    values.get(x as usize).copied()
}

/// What terms and an offset add up to; None where a variable has no value, or a number is too
/// large.
fn sum_of(values: &[i64], terms: &[(i64, u32)], offset: i64) -> Option<i64> {
    let mut sum = offset;
    for t in terms {
        let term = t.0.checked_mul(value_of(values, t.1)?)?;
        sum = sum.checked_add(term)?;
    }
    Some(sum)
}

/// 1 where all parts have the truth that they want, else 0.
fn conjunction(values: &[i64], parts: &[(u32, bool)]) -> Option<i64> {
    let mut all = 1;
    for p in parts {
        if value_of(values, p.0)? != i64::from(p.1) {
            all = 0;
        }
    }
    Some(all)
}

/// 1 where the variable's value is in the set, else 0.
fn membership(values: &[i64], var: u32, set: &IntSet) -> Option<i64> {
    Some(i64::from(set.contains(value_of(values, var)?)))
}

/// 1 where both variables have the same value, else 0.
fn equality(values: &[i64], left: u32, right: u32) -> Option<i64> {
    Some(i64::from(value_of(values, left)? == value_of(values, right)?))
}

/// 1 where the sum is at most the bound, else 0.
fn comparison(values: &[i64], terms: &[(i64, u32)], bound: i64) -> Option<i64> {
    Some(i64::from(sum_of(values, terms, 0)? <= bound))
}

/// The value of the item that the index has.
fn element(values: &[i64], index: u32, items: &[(i64, u32)]) -> Option<i64> {
    let at = value_of(values, index)?;
    for t in items {
        if t.0 == at {
            return value_of(values, t.1);
        }
    }
    None
}

/// The item where the flag is 1, 0 where it is 0.
fn conditional(values: &[i64], flag: u32, item: u32) -> Option<i64> {
    match value_of(values, flag)? {
        0 => Some(0),
        1 => value_of(values, item),
        _ => None,
    }
}

/// The variable with the value, where there is one.
fn defined(x: u32, value: Option<i64>) -> Given {
    match value {
        Some(value) => Given::Value(x, value),
        None => Given::Missing,
    }
}

/// What a constraint gives at values.
fn given_by(values: &[i64], con: &Con) -> Given {
    match con {
        Con::LinDef { out, terms, offset } => defined(*out, sum_of(values, terms.items(), *offset)),
        Con::ReifLe { flag, terms, bound } => {
            defined(*flag, comparison(values, terms.items(), *bound))
        }
        Con::AndDef { flag, parts } => defined(*flag, conjunction(values, parts.items())),
        Con::MemberDef { flag, var, set } => defined(*flag, membership(values, *var, set)),
        Con::EqDef { flag, left, right } => defined(*flag, equality(values, *left, *right)),
        Con::ElementDef { out, index, items } => {
            defined(*out, element(values, *index, items.items()))
        }
        Con::CondDef { out, flag, item } => defined(*out, conditional(values, *flag, *item)),
        Con::LinLe { .. } | Con::ClauseCon { .. } | Con::AllDiff { .. } | Con::Pack { .. } => {
            Given::None
        }
    }
}

/// The values of all variables; None where some definition isn't of the next variable, or has no
/// value for it.
pub(crate) fn extension(
    alloc: Global,
    g: &Ground,
    cells: &[i64],
) -> Result<Option<Vec<i64>>, AllocError> {
    let mut values = cells.to_vec(alloc)?;
    for con in g.cons.items() {
        match given_by(values.as_slice(), con) {
            Given::Value(x, value) if x as usize == values.len() => values.push(value)?,
            Given::None => {}
            _ => return Ok(None),
        }
    }
    Ok(Some(values))
}

/// Whether there is a value for each variable, in its domain.
pub(crate) fn lies_within(g: &Ground, values: &[i64]) -> bool {
    let domains = g.domains.items();
    if domains.len() != values.len() {
        return false;
    }
    for (k, set) in domains.iter().enumerate() {
        if !set.contains(values[k]) {
            return false;
        }
    }
    true
}
