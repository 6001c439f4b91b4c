//! The walk back from a conflict, over changes that have the whole boxes before them.
use numbered_clauses::Chain;
use test_small_problems::Row;

/// A change of a box.
#[derive(Clone, Copy)]
pub(crate) struct Entry {
    /// The number of the clause that it came from; none of a decision.
    pub(crate) from: Option<u64>,
    /// The variable.
    pub(crate) var: usize,
    /// All boxes before it.
    pub(crate) before: Row,
}

/// A clause on its way back, and how many steps were taken.
#[derive(Clone, Copy)]
struct Walker {
    clause: Row,
    steps: usize,
}

/// The clause of the number.
fn clause_at(clauses: &[Row], number: u64) -> Option<Row> {
    let mut left = number;
    for row in clauses {
        if left == 0 {
            return Some(*row);
        }
        left -= 1;
    }
    None
}

/// The step over a change by the clause of a number, where both clauses have its variable and the
/// chain has that step.
fn step(
    walker: Walker,
    var: usize,
    number: u64,
    clauses: &[Row],
    steps: &[(u32, u64)],
) -> Option<Walker> {
    let other = clause_at(clauses, number)?;
    let stated = steps.get(walker.steps)?;
    if stated.0 as usize != var || stated.1 != number {
        return None;
    }
    if walker.clause.get(var) == 0 || other.get(var) == 0 {
        return None;
    }
    Some(Walker {
        clause: walker.clause.resolvent(var, &other),
        steps: walker.steps.saturating_add(1),
    })
}

/// Where the walk ends that begins with the clause: changes before which it is false are passed
/// over, and a decision ends it. None where the chain has other steps.
fn walk(start: Row, trail: &[Entry], clauses: &[Row], steps: &[(u32, u64)]) -> Option<Walker> {
    let mut walker = Walker {
        clause: start,
        steps: 0,
    };
    for entry in trail.iter().rev() {
        if !walker.clause.is_false(&entry.before) {
            match entry.from {
                Some(number) => walker = step(walker, entry.var, number, clauses, steps)?,
                None => return Some(walker),
            }
        }
    }
    Some(walker)
}

/// Whether the chain has the steps of the walk back from its first clause, and the clause is the
/// one that it ends with.
pub(crate) fn is_walk(trail: &[Entry], clauses: &[Row], chain: &Chain, clause: &Row) -> bool {
    let steps = chain.steps.items();
    let Some(start) = clause_at(clauses, chain.first) else {
        return false;
    };
    match walk(start, trail, clauses, steps) {
        Some(end) => end.steps == steps.len() && end.clause.same(clause),
        None => false,
    }
}
