//! Watches against a scan of all clauses: each finds something exactly where the other does. The
//! steps are narrowed boxes, undos and clauses that are added.
use crate::given::{clause_of, equal_boxes, set_of_bits};
use crate::moves::{acts, first_acting};
use ground_form::copy_sets;
use numbered_clauses::Clauses;
use signed_clause::{ClauseHandle, IntSet};
use std::alloc::{AllocError, Global};
use test_problems::Random;
use test_search_checks::{Watched, has_boxes};

/// How many variables there are.
const VARIABLES: u32 = 6;

/// Watches, all their clauses by number, and the boxes to which one may go back.
#[derive(Drop)]
struct Bench {
    watched: Watched,
    clauses: Clauses,
    levels: Vec<Vec<IntSet>>,
}

/// Whether watches and scan agree, and what the watches find.
fn found(bench: &mut Bench) -> Result<(bool, Option<u64>), AllocError> {
    let found = bench.watched.next()?;
    let agree = match found {
        Some(number) => acts(&bench.clauses, number, bench.watched.boxes()),
        None => first_acting(&bench.clauses, bench.watched.boxes()).is_none(),
    };
    Ok((agree, found))
}

/// Adds a clause.
fn add(bench: &mut Bench, literals: &[(u32, u32)], alloc: Global) -> Result<(), AllocError> {
    let Ok(handle) = ClauseHandle::of(alloc, clause_of(alloc, literals)?) else {
        return Err(AllocError);
    };
    let number = bench.clauses.push(handle.copy()?)?;
    bench.watched.add(number, handle)
}

/// Narrows the box to some of these bits, where some are left.
fn narrow(bench: &mut Bench, x: u32, bits: u32, alloc: Global) -> Result<(), AllocError> {
    let boxes = bench.watched.boxes();
    if (x as usize) < boxes.len() {
        let part = set_of_bits(alloc, bits)?.meet(&boxes[x as usize])?;
        if !part.is_empty() {
            bench.watched.change(x, part);
        }
    }
    Ok(())
}

/// Goes back one level; whether the boxes are wider then.
fn undo(bench: &mut Bench) -> bool {
    match bench.levels.pop() {
        Some(boxes) => bench.watched.widen(boxes),
        None => true,
    }
}

/// Prunes by the clause of the number, where it is unit.
fn prune(bench: &mut Bench, number: u64) -> Result<(), AllocError> {
    let boxes = bench.watched.boxes();
    let unit = match bench.clauses.get(number) {
        Some(clause) if has_boxes(clause, boxes) => clause.unit(boxes)?,
        _ => None,
    };
    if let Some((x, set)) = unit {
        bench.watched.change(x, set);
    }
    Ok(())
}

/// One step, and whether watches and scan agree behind it.
fn step(bench: &mut Bench, numbers: &mut Random, alloc: Global) -> Result<bool, AllocError> {
    let x = numbers.below(VARIABLES - 2);
    let bits = numbers.below(256);
    match numbers.below(8) {
        0 => {
            let more = (VARIABLES - 1, numbers.below(256));
            add(
                bench,
                &[(x, bits), (x + 1, numbers.below(256)), more],
                alloc,
            )?;
        }
        1 | 2 => {
            if !undo(bench) {
                return Ok(false);
            }
        }
        3 => bench.levels.push(copy_sets(alloc, bench.watched.boxes())?)?,
        _ => narrow(bench, x, bits, alloc)?,
    }
    let (agree, found) = found(bench)?;
    if let Some(number) = found {
        prune(bench, number)?;
    }
    Ok(agree)
}

#[test]
fn watches_find_what_a_scan_finds(rt: HostRuntime) -> Result<(), AllocError> {
    let alloc = rt.alloc();
    let domains = equal_boxes(alloc, VARIABLES, 7)?;
    for seed in 0..20u64 {
        let mut numbers = Random::of(seed);
        let mut bench = Bench {
            watched: Watched::new(alloc, &domains)?,
            clauses: Clauses::new(alloc),
            levels: Vec::new(alloc),
        };
        for k in 0..200u32 {
            assert!(rt;
                step(&mut bench, &mut numbers, alloc)?,
                "seed {seed}, step {k}"
            );
        }
    }
    Ok(())
}

#[test]
fn a_clause_is_found_until_boxes_are_wider(rt: HostRuntime) -> Result<(), AllocError> {
    let alloc = rt.alloc();
    let domains = equal_boxes(alloc, 3, 1)?;
    let mut bench = Bench {
        watched: Watched::new(alloc, &domains)?,
        clauses: Clauses::new(alloc),
        levels: Vec::new(alloc),
    };
    add(&mut bench, &[(0, 0b10), (1, 0b10), (2, 0b10)], alloc)?;
    assert!(rt; bench.watched.next()?.is_none());
    narrow(&mut bench, 0, 0b1, alloc)?;
    narrow(&mut bench, 1, 0b1, alloc)?;
    assert_eq!(rt; bench.watched.next()?, Some(0));
    assert_eq!(rt; bench.watched.next()?, Some(0));
    assert!(rt; bench.watched.widen(domains));
    assert!(rt; bench.watched.next()?.is_none());
    Ok(())
}
