//! A store against boxes that are copied whole: after each step the boxes and the level are the
//! same. The steps are decisions, clauses and undos.
use crate::given::{are_same, clause_of, equal_boxes, problem_of, set_of_bits};
use crate::moves;
use fd_store::{Applied, Store};
use ground_form::copy_sets;
use signed_clause::{Clause, IntSet};
use std::alloc::{AllocError, Global};
use test_problems::Random;
use test_search_checks::has_boxes;

/// How many variables there are.
const VARIABLES: u32 = 6;

/// The boxes of each level, the lowest first.
#[derive(Drop)]
struct Copies {
    levels: Vec<Vec<IntSet>>,
}

/// The last level's boxes; none where there is no level.
fn top(copies: &Copies) -> &[IntSet] {
    match copies.levels.last() {
        Some(boxes) => boxes.as_slice(),
        None => &[],
    }
}

/// Whether the store shows the last level.
fn agrees(store: &Store, copies: &Copies) -> bool {
    are_same(store.boxes(), top(copies)) && store.level() as usize + 1 == copies.levels.len()
}

/// Gives a variable another box in the last level.
fn set_box(copies: &mut Copies, x: u32, set: IntSet) {
    if let Some(boxes) = copies.levels.last_mut() {
        if (x as usize) < boxes.len() {
            boxes[x as usize] = set;
        }
    }
}

/// Decides, where the half is some of the box and not all of it.
fn decide(
    store: &mut Store,
    copies: &mut Copies,
    x: u32,
    half: &IntSet,
    alloc: Global,
) -> Result<(), AllocError> {
    if moves::decide(store, x, half)? {
        let next = copy_sets(alloc, top(copies))?;
        copies.levels.push(next)?;
        set_box(copies, x, half.copy()?);
    }
    Ok(())
}

/// Applies the clause, and whether that came to what the copied boxes say.
fn apply(store: &mut Store, copies: &mut Copies, clause: &Clause) -> Result<bool, AllocError> {
    let boxes = top(copies);
    if !has_boxes(clause, store.boxes()) || !has_boxes(clause, boxes) {
        return Ok(false);
    }
    let is_false = clause.is_false(boxes);
    let unit = clause.unit(boxes)?;
    let applied = store.apply(7, clause)?;
    Ok(match (applied, unit) {
        (Applied::Pruned(x), Some((y, set))) => {
            set_box(copies, y, set);
            x == y
        }
        (Applied::Conflict, None) => is_false,
        (Applied::Nothing, None) => !is_false,
        _ => false,
    })
}

/// Goes back to the level.
fn undo(store: &mut Store, copies: &mut Copies, level: u32) {
    if level <= store.level() {
        store.undo_to(level);
        copies.levels.truncate(level as usize + 1);
    }
}

/// One step, and whether store and copies agree behind it.
fn step(
    store: &mut Store,
    copies: &mut Copies,
    numbers: &mut Random,
    alloc: Global,
) -> Result<bool, AllocError> {
    let x = numbers.below(VARIABLES);
    let bits = numbers.below(256);
    let mut right = true;
    match numbers.below(8) {
        0 | 1 => {
            let boxes = top(copies);
            if (x as usize) < boxes.len() {
                let half = set_of_bits(alloc, bits)?.meet(&boxes[x as usize])?;
                decide(store, copies, x, &half, alloc)?;
            }
        }
        2 => {
            let level = numbers.below(store.level().saturating_add(1).max(1));
            undo(store, copies, level);
        }
        _ => {
            let rest = numbers.below(256);
            let clause = clause_of(alloc, &[(x, bits), (VARIABLES, rest)])?;
            right = apply(store, copies, &clause)?;
        }
    }
    Ok(right && agrees(store, copies))
}

#[test]
fn stores_agree_with_copied_boxes(rt: HostRuntime) -> Result<(), AllocError> {
    let alloc = rt.alloc();
    let g = problem_of(alloc, equal_boxes(alloc, VARIABLES + 1, 7)?);
    for seed in 0..20u64 {
        let mut numbers = Random::of(seed);
        let mut store = Store::new(alloc, &g)?;
        let mut copies = Copies {
            levels: vec![in alloc; copy_sets(alloc, g.domains.items())?]?,
        };
        for k in 0..200u32 {
            assert!(rt;
                step(&mut store, &mut copies, &mut numbers, alloc)?,
                "seed {seed}, step {k}"
            );
        }
    }
    Ok(())
}
