//! How much watches look at while boxes change.
use clause_watches::Counts;
use signed_clause::{Clause, ClauseHandle, IntSet};
use std::alloc::{AllocError, Global};
use test_problems::Random;
use test_search_checks::Watched;

/// How many variables are changed; as many stand in clauses that are to be left alone.
const VARIABLES: u32 = 400;

/// How many literals a clause has, one of each 20 variables.
const LITERALS: u32 = 20;

/// How many boxes are changed before all of them are as before.
const CHANGES: u32 = 20;

/// The values 0 to 11 whose bits are 1; 11 where there is none.
fn some_values(alloc: Global, bits: u32) -> Result<IntSet, AllocError> {
    let mut set = IntSet::empty(alloc);
    for k in 0..12u32 {
        if (bits >> k) & 1 == 1 {
            set = set.join(&IntSet::range(alloc, i64::from(k), i64::from(k)))?;
        }
    }
    if set.is_empty() {
        Ok(IntSet::range(alloc, 11, 11))
    } else {
        Ok(set)
    }
}

/// A clause of one of each 20 variables from the first one on.
fn clause(alloc: Global, numbers: &mut Random, first: u32) -> Result<ClauseHandle, AllocError> {
    let mut literals = Vec::new(alloc);
    for k in 0..LITERALS {
        let x = first
            .saturating_add(k.saturating_mul(20))
            .saturating_add(numbers.below(20));
        let set = some_values(alloc, numbers.below(4096))?;
        literals.push((x, set))?;
    }
    let Ok(clause) = Clause::of(literals) else {
        return Err(AllocError);
    };
    match ClauseHandle::of(alloc, clause) {
        Ok(handle) => Ok(handle),
        Err(_) => Err(AllocError),
    }
}

/// The boxes of all variables, each of the values 0 to 11.
fn full_boxes(alloc: Global) -> Result<Vec<IntSet>, AllocError> {
    let mut boxes = Vec::new(alloc);
    for _ in 0..VARIABLES * 2 {
        boxes.push(IntSet::range(alloc, 0, 11))?;
    }
    Ok(boxes)
}

/// So many clauses over the changed variables, and so many over the others; all have been looked
/// at.
fn filled(
    alloc: Global,
    numbers: &mut Random,
    many: u32,
    others: u32,
) -> Result<Watched, AllocError> {
    let mut watched = Watched::new(alloc, &full_boxes(alloc)?)?;
    for k in 0..many {
        watched.add(u64::from(k), clause(alloc, numbers, 0)?)?;
    }
    for k in 0..others {
        watched.add(u64::from(k), clause(alloc, numbers, VARIABLES)?)?;
    }
    watched.next()?;
    Ok(watched)
}

/// Changes one box to some of its values, and lets the watches look; whether they find nothing.
fn change(watched: &mut Watched, numbers: &mut Random, alloc: Global) -> Result<bool, AllocError> {
    let x = numbers.below(VARIABLES);
    let bits = numbers.below(4096);
    let boxes = watched.boxes();
    if (x as usize) < boxes.len() {
        let part = some_values(alloc, bits)?.meet(&boxes[x as usize])?;
        if !part.is_empty() {
            watched.change(x, part);
        }
    }
    Ok(watched.next()?.is_none())
}

/// Changes boxes until something is found, but not more than `CHANGES`, and then all are as before;
/// how many changes that were.
fn round(watched: &mut Watched, numbers: &mut Random, alloc: Global) -> Result<u32, AllocError> {
    let full = full_boxes(alloc)?;
    let mut changes = 0u32;
    for _ in 0..CHANGES {
        changes = changes.saturating_add(1);
        if !change(watched, numbers, alloc)? {
            break;
        }
    }
    watched.widen(full);
    Ok(changes)
}

/// What watches over so many clauses did while boxes changed.
#[derive(Clone, Copy)]
pub(crate) struct Looked {
    /// How many changes there were.
    pub(crate) changes: u64,
    /// What was met and opened in them.
    pub(crate) counts: Counts,
}

/// So many rounds over so many clauses, and so many others whose variables don't change.
pub(crate) fn watching(
    alloc: Global,
    many: u32,
    others: u32,
    rounds: u32,
) -> Result<Looked, AllocError> {
    let mut numbers = Random::of(1);
    let mut watched = filled(alloc, &mut numbers, many, others)?;
    let before = watched.counts();
    let mut numbers = Random::of(2);
    let mut changes = 0u64;
    for _ in 0..rounds {
        let more = round(&mut watched, &mut numbers, alloc)?;
        changes = changes.saturating_add(u64::from(more));
    }
    let after = watched.counts();
    Ok(Looked {
        changes,
        counts: Counts {
            met: after.met.saturating_sub(before.met),
            opened: after.opened.saturating_sub(before.opened),
        },
    })
}
