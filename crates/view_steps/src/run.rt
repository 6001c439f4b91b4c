//! One step after the other, each where it fits.
ghost use Rattle.std.specs.Prelude.{◌≡◌, ◌+◌, ◌<◌, ℕ, List, Option, true, false, length, option_map, IfNone, IfOk, IfSome, OnOk};
ghost use Rattle.std.specs.List.{All};
ghost use Rattle.std.specs.Borrow.{Bor};
ghost use Rattle.serde_json.specs.Data.{Data};
ghost use Rattle.serde_json.specs.View.{view};
ghost use Rattle.view_plan.specs.Views.{change_seen};
ghost use Rattle.view_steps.specs.Moves.{from_stop, from_word, to_word, is_word};
ghost use Rattle.view_steps.specs.Rooms.{found};
ghost use Rattle.view_steps.specs.Runs.{change_fits, is_fit, may_halt, put_by, steps_of, IsFitAt, IsHaltAt, IsAtEnd, IsRun};
ghost use Rattle.view_steps.specs.Steps.{Site};
ghost use Rattle.view_steps.specs.Views.{move_line, goes_to, goes_from};

use crate::moves::{Move, from_stop, from_word, to_stop, to_word};
use crate::rooms::{Rooms, is_allowed, put_at};
use serde_json::Value;
use std::alloc::{AllocError, Global};
use view_plan::{Change, Line};

/// How far the moves have come.
#[derive(Drop)]
pub(crate) struct Run<'t, 'l, 'a> {
    /// What each holder can still take.
    pub rooms: Rooms<'t>,
    /// The steps so far, in order.
    pub made: Vec<Line<'l, 'a>>,
    /// The moves that are left; of one by way of the stop its second half, once it is there.
    pub left: Vec<Move<'l, 'a>>,
}

/// Whether a move's guest fits by this change.
fn change_fits(rooms: &Rooms<'_>, change: &Change<'_>, step: &Move<'_, '_>) -> bool
    ensures { result ≡ change_fits rooms.now.entries (change_seen change.now) step.now.more.items
        step.now.less.items }
{
    is_allowed(rooms, to_word(change), &step.more)
        && is_allowed(rooms, from_word(change), &step.less)
}

/// Whether a move fits.
pub(crate) fn is_fit(rooms: &Rooms<'_>, step: &Move<'_, '_>) -> bool
    ensures { result ≡ is_fit rooms.now.entries step.now }
{
    change_fits(rooms, &step.line.change, step)
}

/// Whether a move may go to the stop, and fits there.
pub(crate) fn may_halt<'a>(rooms: &Rooms<'_>, step: &Move<'_, 'a>, stop: Option<&'a Value>) -> bool
    ensures { result ≡ may_halt rooms.now.entries (option_map (λ v. view v.now) stop.entry) step.now }
{
    match to_stop(&step.line.change, stop) {
        None => false,
        Some(change) => change_fits(rooms, &change, step),
    }
}

/// Puts a move's guest where this change goes.
fn put_change(
    alloc: Global,
    rooms: &mut Rooms<'_>,
    change: &Change<'_>,
    step: &Move<'_, '_>,
) -> Result<(), AllocError>
    ensures { OnOk result ((w : Bor (List ℕ)) → found rooms.new.entries w.now
        ≡ put_by (is_word (to_word (change_seen change.now)) w.now)
        (is_word (from_word (change_seen change.now)) w.now) step.now.more.items
        step.now.less.items (found rooms.old.entries w.now)) }
{
    put_at(alloc, rooms, to_word(change), &step.more)?;
    put_at(alloc, rooms, from_word(change), &step.less)?;
    Ok(())
}

/// Puts a guest back where its move came from.
pub(crate) fn put_back(
    alloc: Global,
    rooms: &mut Rooms<'_>,
    step: &Move<'_, '_>,
) -> Result<(), AllocError>
    ensures { OnOk result ((w : Bor (List ℕ)) → found rooms.new.entries w.now
        ≡ put_by (goes_from step.now w.now) (goes_to step.now w.now) step.now.more.items
        step.now.less.items (found rooms.old.entries w.now)) }
{
    put_at(alloc, rooms, from_word(&step.line.change), &step.more)?;
    put_at(alloc, rooms, to_word(&step.line.change), &step.less)?;
    Ok(())
}

/// Makes a move that fits.
pub(crate) fn make(
    alloc: Global,
    run: &mut Run<'_, '_, '_>,
    number: usize,
) -> Result<(), AllocError>
    requires there { IsFitAt run.old number }
    ensures kept { OnOk result ((site : Site) (stop : Option Data) → IsRun site stop run.old
        → IsRun site stop run.new) }
    ensures fewer { OnOk result ((stop : Option Data) → steps_of stop run.new.left.items
        < steps_of stop run.old.left.items) }
{
    let step = run.left.swap_remove(number);
    put_change(alloc, &mut run.rooms, &step.line.change, &step)?;
    run.made.push(step.line)?;
    Ok(())
}

/// The second half of a move by way of the stop.
fn second_half<'l, 'a>(step: Move<'l, 'a>, stop: Option<&'a Value>) -> Move<'l, 'a>
    ensures line { move_line result ≡ (
      (move_line step.entry).0,
      from_stop (option_map (λ v. view v.now) stop.entry) (move_line step.entry).1,
    ) }
    ensures more { result.more.items ≡ step.entry.more.items }
    ensures less { result.less.items ≡ step.entry.less.items }
{
    let Move {
        line,
        more,
        less,
        number,
    } = step;
    let path = line.path;
    let change = from_stop(line.change, stop);
    Move {
        line: Line { path, change },
        more,
        less,
        number,
    }
}

/// Makes the first half of a move that may go to the stop; the second is left.
pub(crate) fn halt<'a>(
    alloc: Global,
    run: &mut Run<'_, '_, 'a>,
    number: usize,
    stop: Option<&'a Value>,
) -> Result<(), AllocError>
    requires there { IsHaltAt (option_map (λ v. view v.now) stop) run.old number }
    ensures kept { OnOk result ((site : Site)
        → IsRun site (option_map (λ v. view v.now) stop.entry) run.old
        → IsRun site (option_map (λ v. view v.now) stop.entry) run.new) }
    ensures fewer { OnOk result (steps_of (option_map (λ v. view v.now) stop.entry)
        run.new.left.items < steps_of (option_map (λ v. view v.now) stop.entry)
        run.old.left.items) }
{
    let step = run.left.swap_remove(number);
    if let Some(change) = to_stop(&step.line.change, stop) {
        put_change(alloc, &mut run.rooms, &change, &step)?;
        let path = step.line.path;
        run.made.push(Line { path, change })?;
        run.left.push(second_half(step, stop))?;
    }
    Ok(())
}

/// The first of the moves that are left that fits.
fn first_fit(run: &Run<'_, '_, '_>) -> Option<usize>
    ensures some { IfSome result (λ number. IsFitAt run.now number) }
    ensures none { IfNone result (All (λ m. is_fit run.now.rooms.entries m ≡ false)
        run.now.left.items) }
{
    for (number, step) in run.left.iter().enumerate() {
        if is_fit(&run.rooms, step) {
            return Some(number);
        }
    }
    None
}

/// The first of the moves that are left that may go to the stop.
fn first_halt<'a>(run: &Run<'_, '_, 'a>, stop: Option<&'a Value>) -> Option<usize>
    ensures some { IfSome result (λ index. IsHaltAt (option_map (λ v. view v.now) stop.entry)
        run.now index) }
    ensures none { IfNone result (All (λ m. may_halt run.now.rooms.entries
        (option_map (λ v. view v.now) stop.entry) m ≡ false) run.now.left.items) }
{
    for (index, step) in run.left.iter().enumerate() {
        if may_halt(&run.rooms, step, stop) {
            return Some(index);
        }
    }
    None
}

/// Makes the next step, if there is one: a move that fits, or else the first half of one.
fn next_step<'a>(
    alloc: Global,
    run: &mut Run<'_, '_, 'a>,
    stop: Option<&'a Value>,
) -> Result<bool, AllocError>
    ensures kept { OnOk result ((site : Site)
        → IsRun site (option_map (λ v. view v.now) stop.entry) run.old
        → IsRun site (option_map (λ v. view v.now) stop.entry) run.new) }
    ensures fewer { IfOk result (λ more. more ≡ true
        → steps_of (option_map (λ v. view v.now) stop.entry) run.new.left.items
        < steps_of (option_map (λ v. view v.now) stop.entry) run.old.left.items) }
    ensures end { IfOk result (λ more. more ≡ false
        → IsAtEnd (option_map (λ v. view v.now) stop.entry) run.new) }
{
    match first_fit(run) {
        Some(number) => {
            make(alloc, run, number)?;
            Ok(true)
        }
        None => match first_halt(run, stop) {
            Some(number) => {
                halt(alloc, run, number, stop)?;
                Ok(true)
            }
            None => Ok(false),
        },
    }
}

/// Makes steps until no move that is left fits, and none may go to the stop.
pub(crate) fn finish<'a>(
    alloc: Global,
    run: &mut Run<'_, '_, 'a>,
    stop: Option<&'a Value>,
) -> Result<(), AllocError>
    ensures kept { OnOk result ((site : Site)
        → IsRun site (option_map (λ v. view v.now) stop.entry) run.old
        → IsRun site (option_map (λ v. view v.now) stop.entry) run.new) }
    ensures end { OnOk result (IsAtEnd (option_map (λ v. view v.now) stop.entry) run.new) }
{
    while next_step(alloc, run, stop)? {}
    Ok(())
}

/// Puts the moves that are left in order of number.
pub(crate) fn arrange(run: &mut Run<'_, '_, '_>) -> Result<(), AllocError>
    ensures kept { OnOk result ((site : Site) (stop : Option Data) → IsRun site stop run.old
        → IsRun site stop run.new) }
    ensures end { OnOk result ((stop : Option Data) → IsAtEnd stop run.old
        → IsAtEnd stop run.new) }
{
    run.left.sort_by_key(|step| step.number)?;
    Ok(())
}
