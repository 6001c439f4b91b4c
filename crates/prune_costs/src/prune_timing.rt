//! What a call of `prune` answers, and how long it takes.
ghost use Rattle.std.specs.Prelude.{◌<◌, length};
ghost use Rattle.ground_form.specs.WellMade.{IsWellMade};
ghost use Rattle.rule_law.specs.Answers.{AreBoxesWithin};

use ground_form::Ground;
use rule_law::Kit;
use signed_clause::IntSet;
use std::alloc::AllocError;
use std::rt::Runtime;
use test_clock::{Clock, is_long_enough, mean};

/// How many calls in a row answer, one after the other; and whether the last of them answers a
/// clause.
fn call(kit: &mut Kit, g: &Ground, boxes: &[IntSet], times: u32) -> Result<bool, AllocError>
    requires well_made { IsWellMade g.now }
    requires con { 0 < length g.now.cons }
    requires boxes { AreBoxesWithin g.now.domains boxes.now }
{
    let mut says = false;
    for _ in 0..times {
        says = kit.prune(g, 0, boxes)?.is_some();
    }
    Ok(says)
}

/// Whether the constraint says something in the boxes.
pub(crate) fn does_say(kit: &mut Kit, g: &Ground, boxes: &[IntSet]) -> Result<bool, AllocError>
    requires well_made { IsWellMade g.now }
    requires con { 0 < length g.now.cons }
    requires boxes { AreBoxesWithin g.now.domains boxes.now }
{
    call(kit, g, boxes, 1)
}

/// How many nanoseconds a call takes, over so many calls that they take 50 milliseconds or so.
pub(crate) fn nanoseconds<R: Runtime>(
    rt: &R,
    kit: &mut Kit,
    g: &Ground,
    boxes: &[IntSet],
) -> Result<u128, AllocError>
    requires well_made { IsWellMade g.now }
    requires con { 0 < length g.now.cons }
    requires boxes { AreBoxesWithin g.now.domains boxes.now }
{
    let mut times = 1u32;
    for _ in 0..24u32 {
        let clock = Clock::start(rt);
        call(kit, g, boxes, times)?;
        let spent = clock.passed(rt);
        if is_long_enough(spent, times) {
            return Ok(mean(spent, u64::from(times)));
        }
        times = times.saturating_mul(2);
    }
    Ok(0)
}
