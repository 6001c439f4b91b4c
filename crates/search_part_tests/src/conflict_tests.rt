//! Conflicts that propagators make, and what they show. A generated problem is searched: clauses
//! that constraints give are numbered, a chooser decides, and at each conflict `analyse` has to
//! show what the walk with whole boxes shows. The learnt clause is then one more clause.
ghost use Rattle.ground_form.specs.WellMade.{IsWellMade};
ghost use Rattle.branch_choice.specs.declared.split.Order.TheVariants as orders;
ghost use Rattle.branch_choice.specs.Picks.{IsAsked, IsPick};

use crate::choosing::is_asked;
use crate::moves::{apply, decide, first_acting, learn, push};
use crate::problems::{numbers_of, problem};
use crate::walks::{dropped_level, walk};
use bool_prop::BoolProp;
use branch_choice::{Chooser, Order, Pick, Split, small};
use element_prop::ElementProp;
use fd_store::{Applied, Store};
use ground_form::Ground;
use learn_clauses::{Clauses, Learnt};
use linear_prop::LinearProp;
use pack_prop::PackProp;
use rule_law::{Kit, Propagator, are_boxes_within, cut_to};
use signed_clause::{Clause, IntSet};
use std::alloc::{AllocError, Global};
use test_well_made::is_search_well_made;

/// Boxes in levels, the clauses by number, and what was seen.
#[derive(Drop)]
struct Run {
    store: Store,
    clauses: Clauses,
    /// How many conflicts there were.
    conflicts: u32,
    /// How many steps their chains have.
    steps: usize,
}

/// What a step comes to.
#[derive(Clone, Copy)]
enum Came {
    /// Something was pruned, or decided, or learnt.
    On,
    /// The clause of this number is false.
    Conflict(u64),
    /// Nothing is left to do.
    End,
    /// `analyse` and the walk don't agree, or something that is due couldn't be done.
    Wrong,
}

/// What the first constraint says that has something to say.
fn first_said(g: &Ground, boxes: &[IntSet], kit: &mut Kit) -> Result<Option<Clause>, AllocError>
    requires { IsWellMade g.now }
{
    if !are_boxes_within(g.domains.items(), boxes) {
        return Ok(None);
    }
    for k in 0..g.cons.items().len() {
        if let Some(clause) = kit.prune(g, k as u32, boxes)? {
            return Ok(Some(clause));
        }
    }
    Ok(None)
}

/// The number of a clause that acts: one of those that there are, or a new one that a constraint
/// gives, cut to the domains.
fn next_acting(
    alloc: Global,
    g: &Ground,
    run: &mut Run,
    kit: &mut Kit,
) -> Result<Option<u64>, AllocError>
    requires { IsWellMade g.now }
{
    if let Some(number) = first_acting(&run.clauses, run.store.boxes()) {
        return Ok(Some(number));
    }
    match first_said(g, run.store.boxes(), kit)? {
        Some(clause) => {
            let cut = cut_to(g.domains.items(), clause, alloc)?;
            Ok(Some(push(alloc, &mut run.clauses, cut)?))
        }
        None => Ok(None),
    }
}

/// What the clause of the number comes to.
fn prune(run: &mut Run, number: u64) -> Result<Came, AllocError> {
    Ok(match apply(&mut run.store, &run.clauses, number)? {
        Some(Applied::Pruned(_)) => Came::On,
        Some(Applied::Conflict) => Came::Conflict(number),
        _ => Came::Wrong,
    })
}

/// Whether that is what the walk shows.
fn is_as_walked(
    alloc: Global,
    run: &Run,
    conflict: u64,
    learnt: &Learnt,
) -> Result<bool, AllocError> {
    let Some(walked) = walk(alloc, &run.store, &run.clauses, conflict)? else {
        return Ok(false);
    };
    let level = dropped_level(alloc, &run.store, &walked.clause)?;
    Ok(
        learnt.chain.first == conflict
            && learnt.chain.steps.items() == walked.steps.as_slice()
            && learnt.clause.same(&walked.clause)
            && learnt.level == level
            && (level == 0) == walked.clause.is_empty(),
    )
}

/// Learns from the conflict, goes back, and has the learnt clause as one more.
fn go_back(alloc: Global, run: &mut Run, conflict: u64) -> Result<Came, AllocError> {
    let Some(learnt) = learn(alloc, &run.store, &run.clauses, conflict)? else {
        return Ok(Came::Wrong);
    };
    if !is_as_walked(alloc, run, conflict, &learnt)? || learnt.level > run.store.level() {
        return Ok(Came::Wrong);
    }
    run.conflicts = run.conflicts.saturating_add(1);
    run.steps = run.steps.saturating_add(learnt.chain.steps.items().len());
    if learnt.level == 0 {
        return Ok(Came::End);
    }
    run.store.undo_to(learnt.level - 1);
    push(alloc, &mut run.clauses, learnt.clause)?;
    Ok(Came::On)
}

/// The part of a box that the split takes first.
fn half_of(alloc: Global, split: Split, set: &IntSet) -> Result<IntSet, AllocError> {
    let low = if split.upto { i64::MIN } else { split.value };
    if low > split.value {
        return Ok(IntSet::empty(alloc));
    }
    IntSet::range(alloc, low, split.value).meet(set)
}

/// Decides by the split, where both its halves have values.
fn decide_split(alloc: Global, store: &mut Store, split: Split) -> Result<Came, AllocError> {
    let boxes = store.boxes();
    let x = split.var as usize;
    if x >= boxes.len() {
        return Ok(Came::Wrong);
    }
    let half = half_of(alloc, split, &boxes[x])?;
    if decide(store, split.var, &half)? {
        Ok(Came::On)
    } else {
        Ok(Came::Wrong)
    }
}

/// Decides by the chooser.
fn choose(
    alloc: Global,
    store: &mut Store,
    chooser: &Chooser,
    hints: &[Option<i64>],
    search: u32,
) -> Result<Came, AllocError> {
    if !is_asked(store.boxes(), hints, search) {
        return Ok(Came::Wrong);
    }
    match chooser.choose(store.boxes(), hints, search) {
        Some(split) => decide_split(alloc, store, split),
        None => Ok(Came::End),
    }
}

/// One step of the search.
fn step(
    alloc: Global,
    g: &Ground,
    run: &mut Run,
    kit: &mut Kit,
    chooser: &Chooser,
) -> Result<Came, AllocError>
    requires { IsWellMade g.now }
{
    match next_acting(alloc, g, run, kit)? {
        Some(number) => match prune(run, number)? {
            Came::Conflict(conflict) => go_back(alloc, run, conflict),
            came => Ok(came),
        },
        None => {
            let hints = vec![in alloc; None; g.search as usize]?;
            choose(alloc, &mut run.store, chooser, hints.as_slice(), g.search)
        }
    }
}

/// Searches the problem of the seed to its end; what was seen, None where something is wrong.
fn searched(
    alloc: Global,
    kit: &mut Kit,
    chooser: &Chooser,
    seed: u64,
) -> Result<Option<Run>, AllocError> {
    let mut numbers = numbers_of(seed);
    let g = problem(alloc, 9, &mut numbers)?;
    if !is_search_well_made(&g, alloc)? {
        return Ok(None);
    }
    let mut run = Run {
        store: Store::new(alloc, &g)?,
        clauses: Clauses::new(alloc),
        conflicts: 0,
        steps: 0,
    };
    for _ in 0..2000u32 {
        match step(alloc, &g, &mut run, kit, chooser)? {
            Came::On => {}
            Came::End => return Ok(Some(run)),
            _ => return Ok(None),
        }
    }
    Ok(None)
}

#[test]
fn conflicts_show_what_the_walk_shows(rt: HostRuntime) -> Result<(), AllocError> {
    let alloc = rt.alloc();
    let sums: Box<dyn Propagator> = Box::new(alloc, LinearProp::new(alloc))?;
    let truths: Box<dyn Propagator> = Box::new(alloc, BoolProp::new(alloc))?;
    let choices: Box<dyn Propagator> = Box::new(alloc, ElementProp::new(alloc))?;
    let places: Box<dyn Propagator> = Box::new(alloc, PackProp::new(alloc))?;
    let Ok(mut kit) = Kit::new(vec![in alloc; sums, truths, choices, places]?) else {
        assert!(rt; false, "no kit");
        return Ok(());
    };
    let pick: Pick = Box::new(
        alloc,
        move |boxes: &[IntSet], hints: &[Option<i64>], search: u32| -> Option<Split>
            requires { IsAsked boxes.now hints.now search }
            ensures { IsPick orders.Small boxes.now hints.now search result }
        { small(boxes, hints, search) },
    )?;
    let chooser = Chooser::new(Order::Small, pick);
    let mut conflicts = 0u32;
    let mut steps = 0usize;
    for seed in 0..400u64 {
        kit.begin();
        let Some(run) = searched(alloc, &mut kit, &chooser, seed)? else {
            assert!(rt; false, "the search of seed {seed}");
            return Ok(());
        };
        conflicts = conflicts.saturating_add(run.conflicts);
        steps = steps.saturating_add(run.steps);
    }
    assert!(rt; conflicts > 400, "{conflicts} conflicts");
    assert!(rt; steps > 1000, "{steps} steps");
    Ok(())
}
