//! Given decisions and clauses, and what their conflict shows.
use crate::given::{are_same, clause_of, problem_of, set_of_bits, sets_of_bits};
use crate::moves::{apply, decide, learn, push};
use fd_store::{Applied, Store};
use learn_clauses::Clauses;
use signed_clause::IntSet;
use std::alloc::{AllocError, Global};

/// A step of a store, and what it comes to.
#[derive(Clone, Copy)]
enum Step {
    /// The variable is decided to have these bits.
    Decide(u32, u32),
    /// The clause of the number prunes the variable, which has these bits left.
    Prune(u64, u32, u32),
    /// The clause of the number has nothing to say.
    Nothing(u64),
}

/// A literal: a variable and bits.
type Literal = (u32, u32);

/// Steps that end in the conflict of a clause, and what it shows.
#[derive(Clone, Copy)]
struct Row<'a> {
    /// The domains, as bits.
    domains: &'a [u32],
    /// The clauses, from number 0 on.
    clauses: &'a [&'a [Literal]],
    /// The steps.
    steps: &'a [Step],
    /// The number of the clause that is false then.
    conflict: u64,
    /// The steps of the chain.
    chain: &'a [(u32, u64)],
    /// The learnt clause.
    learnt: &'a [Literal],
    /// The level that it drops.
    level: u32,
    /// The boxes of the level to which one goes back, as bits.
    boxes: &'a [u32],
}

/// The clauses of these rows.
fn clauses_of(alloc: Global, rows: &[&[Literal]]) -> Result<Clauses, AllocError> {
    let mut clauses = Clauses::new(alloc);
    for row in rows {
        push(alloc, &mut clauses, clause_of(alloc, row)?)?;
    }
    Ok(clauses)
}

/// Whether the box of `x` has these bits.
fn has_bits(alloc: Global, boxes: &[IntSet], x: u32, bits: u32) -> Result<bool, AllocError> {
    let set = set_of_bits(alloc, bits)?;
    Ok((x as usize) < boxes.len() && boxes[x as usize].same(&set))
}

/// Whether the step comes to what it says.
fn take(
    alloc: Global,
    store: &mut Store,
    clauses: &Clauses,
    step: Step,
) -> Result<bool, AllocError> {
    match step {
        Step::Decide(x, bits) => {
            let level = store.level();
            let half = set_of_bits(alloc, bits)?;
            Ok(decide(store, x, &half)? && store.level() > level)
        }
        Step::Prune(number, x, bits) => match apply(store, clauses, number)? {
            Some(Applied::Pruned(y)) => Ok(x == y && has_bits(alloc, store.boxes(), x, bits)?),
            _ => Ok(false),
        },
        Step::Nothing(number) => Ok(matches!(
            apply(store, clauses, number)?,
            Some(Applied::Nothing)
        )),
    }
}

/// Whether the row's steps come to what it says, and its conflict shows what it says.
fn is_as_said(alloc: Global, row: &Row) -> Result<bool, AllocError> {
    let g = problem_of(alloc, sets_of_bits(alloc, row.domains)?);
    let clauses = clauses_of(alloc, row.clauses)?;
    let mut store = Store::new(alloc, &g)?;
    for s in row.steps {
        if !take(alloc, &mut store, &clauses, *s)? {
            return Ok(false);
        }
    }
    if !matches!(
        apply(&mut store, &clauses, row.conflict)?,
        Some(Applied::Conflict)
    ) {
        return Ok(false);
    }
    let Some(learnt) = learn(alloc, &store, &clauses, row.conflict)? else {
        return Ok(false);
    };
    let level = learnt.level.saturating_sub(1);
    if level > store.level() {
        return Ok(false);
    }
    store.undo_to(level);
    Ok(
        learnt.chain.first == row.conflict
            && learnt.chain.steps.items() == row.chain
            && learnt.clause.same(&clause_of(alloc, row.learnt)?)
            && learnt.level == row.level
            && store.level() == level
            && are_same(store.boxes(), &sets_of_bits(alloc, row.boxes)?),
    )
}

#[test]
fn conflicts_show_given_clauses(rt: HostRuntime) -> Result<(), AllocError> {
    let alloc = rt.alloc();
    for row in [
        Row {
            domains: &[0b1110],
            clauses: &[&[(0, 0b1100)], &[(0, 0b10)]],
            steps: &[Step::Prune(0, 0, 0b1100), Step::Decide(0, 0b100)],
            conflict: 1,
            chain: &[(0, 0)],
            learnt: &[],
            level: 0,
            boxes: &[0b1100],
        },
        Row {
            domains: &[0b11, 0b11, 0b11],
            clauses: &[&[(0, 0b10), (2, 0b10)], &[(1, 0b10), (2, 0b1)]],
            steps: &[
                Step::Nothing(0),
                Step::Decide(0, 0b1),
                Step::Decide(1, 0b1),
                Step::Prune(0, 2, 0b10),
                Step::Nothing(0),
            ],
            conflict: 1,
            chain: &[(2, 0)],
            learnt: &[(0, 0b10), (1, 0b10)],
            level: 2,
            boxes: &[0b1, 0b11, 0b11],
        },
        Row {
            domains: &[0b11, 0b11, 0b11, 0b11],
            clauses: &[
                &[(0, 0b10), (1, 0b10)],
                &[(1, 0b1), (2, 0b10), (3, 0b10)],
                &[(2, 0b10), (3, 0b1)],
            ],
            steps: &[
                Step::Decide(0, 0b1),
                Step::Prune(0, 1, 0b10),
                Step::Decide(2, 0b1),
                Step::Prune(1, 3, 0b10),
            ],
            conflict: 2,
            chain: &[(3, 1)],
            learnt: &[(1, 0b1), (2, 0b10)],
            level: 2,
            boxes: &[0b1, 0b10, 0b11, 0b11],
        },
    ] {
        assert!(rt;
            is_as_said(alloc, &row)?,
            "the conflict of clause {}",
            row.conflict
        );
    }
    Ok(())
}
