//! What constraints mean at a point, written out; and a best point of all that there are.
use crate::rows::{Row, least_bit, least_value};
use ground_form::{Con, Ground, GroundGoal};
use signed_clause::Clause;

/// The value of `x` at the point.
fn value(at: &Row, x: u32) -> i64 {
    least_value(at.get(x as usize))
}

/// The terms added up.
fn sum(terms: &[(i64, u32)], at: &Row) -> i64 {
    let mut total = 0i64;
    for t in terms {
        total = total.saturating_add(t.0.saturating_mul(value(at, t.1)));
    }
    total
}

/// Whether the flag says whether it is so.
fn says(at: &Row, flag: u32, so: bool) -> bool {
    value(at, flag) == i64::from(so)
}

/// Whether some item is the one that the index picks, with the value of `out`.
fn is_picked(at: &Row, out: u32, index: u32, items: &[(i64, u32)]) -> bool {
    items.iter().any(|i| value(at, index) == i.0 && value(at, out) == value(at, i.1))
}

/// Whether `out` is the item where the flag is 1, and 0 where it is 0.
fn is_conditional(at: &Row, out: u32, flag: u32, item: u32) -> bool {
    match value(at, flag) {
        0 => value(at, out) == 0,
        1 => value(at, out) == value(at, item),
        _ => false,
    }
}

/// Whether some literal has the value of its variable.
fn is_clause_true(clause: &Clause, at: &Row) -> bool {
    clause
        .literals()
        .iter()
        .any(|l| l.1.contains(value(at, l.0)))
}

/// Whether the first of the variables has another value than each behind it.
fn is_first_alone(vars: &[u32], at: &Row) -> bool {
    match vars {
        [x, rest @ ..] => rest.iter().all(|y| value(at, *x) != value(at, *y)),
        [] => true,
    }
}

/// Whether the sizes of the items at the item's place add up to at most its room.
fn has_room(items: &[(u32, u32, u32)], item: (u32, u32, u32), at: &Row) -> bool {
    let mut load = 0i64;
    for i in items {
        if value(at, i.0) == value(at, item.0) {
            load = load.saturating_add(value(at, i.1));
        }
    }
    load <= value(at, item.2)
}

/// Whether the constraint is true at the point.
fn is_true(con: &Con, at: &Row) -> bool {
    match con {
        Con::LinLe { terms, bound } => sum(terms.items(), at) <= *bound,
        Con::LinDef { out, terms, offset } => {
            value(at, *out) == sum(terms.items(), at).saturating_add(*offset)
        }
        Con::ReifLe { flag, terms, bound } => says(at, *flag, sum(terms.items(), at) <= *bound),
        Con::AndDef { flag, parts } => {
            let all = parts.items().iter().all(|p| says(at, p.0, p.1));
            says(at, *flag, all)
        }
        Con::MemberDef { flag, var, set } => says(at, *flag, set.contains(value(at, *var))),
        Con::EqDef { flag, left, right } => says(at, *flag, value(at, *left) == value(at, *right)),
        Con::ElementDef { out, index, items } => is_picked(at, *out, *index, items.items()),
        Con::CondDef { out, flag, item } => is_conditional(at, *out, *flag, *item),
        Con::ClauseCon { clause } => is_clause_true(clause.clause(), at),
        Con::AllDiff { vars } => {
            let all = vars.items();
            (0..all.len()).all(|k| is_first_alone(&all[k..], at))
        }
        Con::Pack { items } => {
            let all = items.items();
            all.iter().all(|i| has_room(all, *i, at))
        }
    }
}

/// Whether all constraints are true at the point.
pub fn is_solution(g: &Ground, at: &Row) -> bool {
    g.cons.items().iter().all(|con| is_true(con, at))
}

/// Whether the one point is better than the other: at the first goal whose values differ.
pub fn is_better(goals: &[GroundGoal], one: &Row, other: &Row) -> bool {
    for goal in goals {
        let ours = value(one, goal.var);
        let theirs = value(other, goal.var);
        if ours != theirs {
            return (theirs < ours) == goal.max;
        }
    }
    false
}

/// Goes on to the next point of the first `count` domains; false behind the last.
fn go_on(domains: &Row, count: usize, at: &mut Row) -> bool {
    for x in 0..count {
        let mask = domains.get(x);
        let here = at.get(x);
        let behind = mask & !(here | here.wrapping_sub(1));
        if behind != 0 {
            at.put(x, least_bit(behind));
            return true;
        }
        at.put(x, least_bit(mask));
    }
    false
}

/// A best solution, by a look at every point.
pub fn best_point(g: &Ground, domains: &Row) -> Option<Row> {
    let count = g.domains.items().len();
    if !domains.are_some(count) {
        return None;
    }
    let mut at = Row::empty();
    for x in 0..count {
        at.put(x, least_bit(domains.get(x)));
    }
    let mut best: Option<Row> = None;
    for _ in 0..1_000_000u32 {
        let beats = match &best {
            Some(b) => is_better(g.goals.items(), &at, b),
            None => true,
        };
        if beats && is_solution(g, &at) {
            best = Some(at);
        }
        if !go_on(domains, count, &mut at) {
            return best;
        }
    }
    best
}

/// How many points the first `count` domains have.
pub fn size(domains: &Row, count: usize) -> u64 {
    let mut product = 1u64;
    for x in 0..count {
        product = product.saturating_mul(u64::from(domains.get(x).count_ones()));
    }
    product
}
