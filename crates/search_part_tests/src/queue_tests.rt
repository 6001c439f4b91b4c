//! The queue against a scan of all constraints: each finds something exactly where the other does.
//! The steps are narrowed boxes, undos, and returns to boxes in which every constraint was quiet.
use crate::given::set_of_bits;
use crate::problems::{VARIABLES, numbers_of, problem};
use bool_prop::BoolProp;
use element_prop::ElementProp;
use ground_form::copy_sets;
use linear_prop::LinearProp;
use pack_prop::PackProp;
use rule_law::{Kit, Propagator};
use signed_clause::{Clause, IntSet};
use std::alloc::{AllocError, Global};
use test_problems::Random;
use test_search_checks::{Queued, has_boxes};

/// A queue with its boxes, and the boxes to which one may go back.
#[derive(Drop)]
struct Bench {
    queued: Queued,
    levels: Vec<Vec<IntSet>>,
    /// How often the queue was told of a return.
    returns: u32,
    /// How often it has found something.
    found: u32,
}

/// Narrows the box to some of these bits, where some are left.
fn narrow(bench: &mut Bench, x: u32, bits: u32, alloc: Global) -> Result<(), AllocError> {
    let boxes = bench.queued.boxes();
    if (x as usize) < boxes.len() {
        let part = set_of_bits(alloc, bits)?.meet(&boxes[x as usize])?;
        bench.queued.change(x, part);
    }
    Ok(())
}

/// Goes back one level, with a return where every constraint is quiet there and it is wanted.
fn go_back(bench: &mut Bench, wanted: bool) -> Result<bool, AllocError> {
    let Some(boxes) = bench.levels.pop() else {
        return Ok(true);
    };
    if wanted {
        let again = copy_sets(*boxes.allocator(), boxes.as_slice())?;
        if bench.queued.go_back(again) {
            bench.returns = bench.returns.saturating_add(1);
            return Ok(true);
        }
    }
    Ok(bench.queued.undo(boxes))
}

/// Prunes by the clause, where it is unit.
fn prune(bench: &mut Bench, clause: &Clause) -> Result<(), AllocError> {
    let boxes = bench.queued.boxes();
    if has_boxes(clause, boxes) {
        if let Some((x, set)) = clause.unit(boxes)? {
            bench.queued.change(x, set);
        }
    }
    Ok(())
}

/// Asks the queue, prunes by what it finds, and answers whether it found what a scan finds.
fn ask(bench: &mut Bench, kit: &mut Kit) -> Result<bool, AllocError> {
    match bench.queued.next(kit)? {
        Some((k, clause)) => {
            bench.found = bench.found.saturating_add(1);
            let right = bench.queued.is_pruning(k, &clause);
            prune(bench, &clause)?;
            Ok(right)
        }
        None => Ok(bench.queued.are_all_quiet()),
    }
}

/// One step, and whether queue and scan agree behind it.
fn step(
    bench: &mut Bench,
    kit: &mut Kit,
    numbers: &mut Random,
    alloc: Global,
) -> Result<bool, AllocError> {
    match numbers.below(8) {
        0 => {
            let level = copy_sets(alloc, bench.queued.boxes())?;
            bench.levels.push(level)?;
        }
        1 => {
            let wanted = numbers.below(2) == 1;
            if !go_back(bench, wanted)? {
                return Ok(false);
            }
        }
        2 | 3 => {
            let x = numbers.below(VARIABLES);
            narrow(bench, x, numbers.below(16), alloc)?;
        }
        _ => {}
    }
    ask(bench, kit)
}

/// One sequence of steps over the problem of the seed: how often the queue found something and how
/// often it was told of a return; None where queue and scan don't agree.
fn sequence(
    alloc: Global,
    kit: &mut Kit,
    seed: u64,
    steps: u32,
) -> Result<Option<(u32, u32)>, AllocError> {
    let mut numbers = numbers_of(seed);
    let ground = problem(alloc, 4, &mut numbers)?;
    let Some(queued) = Queued::new(alloc, ground)? else {
        return Ok(None);
    };
    let mut bench = Bench {
        queued,
        levels: Vec::new(alloc),
        returns: 0,
        found: 0,
    };
    for _ in 0..steps {
        if !step(&mut bench, kit, &mut numbers, alloc)? {
            return Ok(None);
        }
    }
    Ok(Some((bench.found, bench.returns)))
}

#[test]
fn the_queue_finds_what_a_scan_finds(rt: HostRuntime) -> Result<(), AllocError> {
    let alloc = rt.alloc();
    let sums: Box<dyn Propagator> = Box::new(alloc, LinearProp::new(alloc))?;
    let truths: Box<dyn Propagator> = Box::new(alloc, BoolProp::new(alloc))?;
    let choices: Box<dyn Propagator> = Box::new(alloc, ElementProp::new(alloc))?;
    let places: Box<dyn Propagator> = Box::new(alloc, PackProp::new(alloc))?;
    let Ok(mut kit) = Kit::new(vec![in alloc; sums, truths, choices, places]?) else {
        assert!(rt; false, "no kit");
        return Ok(());
    };
    let mut found = 0u32;
    let mut returns = 0u32;
    for seed in 0..2000u64 {
        kit.begin();
        let Some(seen) = sequence(alloc, &mut kit, seed, 16)? else {
            assert!(rt; false, "the sequence of seed {seed}");
            return Ok(());
        };
        found = found.saturating_add(seen.0);
        returns = returns.saturating_add(seen.1);
    }
    assert!(rt; found > 5000, "{found} found");
    assert!(rt; returns > 200, "{returns} returns");
    Ok(())
}
