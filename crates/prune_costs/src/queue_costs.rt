//! What the next constraint costs where nothing is listed.
ghost use Rattle.ground_form.specs.WellMade.{IsWellMade};
ghost use Rattle.rule_law.specs.Answers.{AreBoxesWithin};
ghost use Rattle.prop_queue.specs.Work.{IsOver, Fits};

use ground_form::{Con, Cons, Domains, Goals, Ground, Terms};
use prop_queue::Queue;
use rule_law::{Kit, Propagator, are_boxes_within};
use signed_clause::IntSet;
use std::alloc::{AllocError, Global};
use std::rt::Runtime;
use test_clock::Clock;
use test_problems::Prober;
use test_well_made::is_search_well_made;

/// A problem of so many constraints that have nothing to say.
fn problem(alloc: Global, count: u32) -> Result<Ground, AllocError> {
    let mut cons = Vec::new(alloc);
    for _ in 0..count {
        let terms = Terms::of(vec![in alloc; (1, 0)]?);
        cons.push(Con::LinLe { terms, bound: 9 })?;
    }
    Ok(Ground {
        domains: Domains::of(vec![in alloc; IntSet::range(alloc, 0, 9)]?),
        search: 1,
        cons: Cons::of(cons),
        goals: Goals::of(Vec::new(alloc)),
    })
}

/// Asks so many times; whether the last answer is a constraint.
fn asks(
    queue: &mut Queue,
    g: &Ground,
    boxes: &[IntSet],
    kit: &mut Kit,
    times: u32,
) -> Result<bool, AllocError>
    requires well_made { IsWellMade g.now }
    requires over { IsOver g.now queue.old }
    requires boxes { AreBoxesWithin g.now.domains boxes.now }
    requires fits { Fits g.now queue.old boxes.now }
    ensures over { IsOver g.now queue.new }
    ensures fits { Fits g.now queue.new boxes.now }
{
    let mut some = false;
    for k in 0..times {
        some = queue.next(g, boxes, kit)?.is_some();
    }
    Ok(some)
}

/// What answers cost.
#[derive(Clone, Copy)]
pub(crate) struct AnswerCost {
    /// Whether the last answer is a constraint.
    pub(crate) some: bool,
    /// How many nanoseconds all answers took.
    pub(crate) spent: u128,
}

/// Asks once over so many constraints, and then so many times; None where this can't be asked.
pub(crate) fn asked<R: Runtime>(
    rt: &R,
    alloc: Global,
    count: u32,
    times: u32,
) -> Result<Option<AnswerCost>, AllocError> {
    let g = problem(alloc, count)?;
    let boxes = g.domains.items();
    if !is_search_well_made(&g, alloc)? || !are_boxes_within(boxes, boxes) {
        return Ok(None);
    }
    let prober: Box<dyn Propagator> = Box::new(alloc, Prober { alloc })?;
    let Ok(mut kit) = Kit::new(vec![in alloc; prober]?) else {
        return Ok(None);
    };
    let mut queue = Queue::new(alloc, &g)?;
    asks(&mut queue, &g, boxes, &mut kit, 1)?;
    let clock = Clock::start(rt);
    let some = asks(&mut queue, &g, boxes, &mut kit, times)?;
    Ok(Some(AnswerCost {
        some,
        spent: clock.passed(rt),
    }))
}
