//! Whether the constraints of a ground problem that define nothing are true at values, once more in
//! the plainest way.
use ground_form::{Con, Ground};
use signed_clause::IntSet;

/// The value of a variable; 0 where there is none.
fn value_of(values: &[i64], x: u32) -> i64 {
    values.get(x as usize).copied().unwrap_or(0)
}

/// Whether the terms add up to at most the bound.
fn is_at_most(values: &[i64], terms: &[(i64, u32)], bound: i64) -> bool {
    let mut sum = 0_i64;
    for t in terms {
        sum = sum.saturating_add(t.0.saturating_mul(value_of(values, t.1)));
    }
    sum <= bound
}

/// Whether some literal's variable has a value in its set.
fn some_holds(values: &[i64], literals: &[(u32, IntSet)]) -> bool {
    for l in literals {
        if l.1.contains(value_of(values, l.0)) {
            return true;
        }
    }
    false
}

/// How many of the variables have this value.
fn count_of(values: &[i64], vars: &[u32], value: i64) -> u64 {
    let mut count = 0_u64;
    for x in vars {
        if value_of(values, *x) == value {
            count = count.saturating_add(1);
        }
    }
    count
}

/// Whether each variable's value is that of no other one.
fn all_differ(values: &[i64], vars: &[u32]) -> bool {
    for x in vars {
        if count_of(values, vars, value_of(values, *x)) > 1 {
            return false;
        }
    }
    true
}

/// What the sizes of the items at a place add up to.
fn load_of(values: &[i64], items: &[(u32, u32, u32)], place: i64) -> i64 {
    let mut load = 0_i64;
    for i in items {
        if value_of(values, i.0) == place {
            load = load.saturating_add(value_of(values, i.1));
        }
    }
    load
}

/// Whether each item's place has no more load than the item's room.
fn all_fit(values: &[i64], items: &[(u32, u32, u32)]) -> bool {
    for i in items {
        if load_of(values, items, value_of(values, i.0)) > value_of(values, i.2) {
            return false;
        }
    }
    true
}

/// Whether a constraint is true at values, where it defines nothing; else it is taken as true.
fn is_true(values: &[i64], con: &Con) -> bool {
    match con {
        Con::LinLe { terms, bound } => is_at_most(values, terms.items(), *bound),
        Con::ClauseCon { clause } => some_holds(values, clause.clause().literals()),
        Con::AllDiff { vars } => all_differ(values, vars.items()),
        Con::Pack { items } => all_fit(values, items.items()),
        Con::LinDef { .. }
        | Con::ReifLe { .. }
        | Con::AndDef { .. }
        | Con::MemberDef { .. }
        | Con::EqDef { .. }
        | Con::ElementDef { .. }
        | Con::CondDef { .. } => true,
    }
}

/// Whether all constraints that define nothing are true at values.
pub(crate) fn all_true(g: &Ground, values: &[i64]) -> bool {
    for con in g.cons.items() {
        if !is_true(values, con) {
            return false;
        }
    }
    true
}
