//! From two configurations to an order of the moves between them.
ghost use Rattle.std.specs.Prelude.{◌≡◌, ℕ, List, [], false, map, option_map, IfErr, IfOk, OnOk};
ghost use Rattle.std.specs.Borrow.{Bor};
ghost use Rattle.serde_json.specs.View.{view};
ghost use Rattle.view_leaves.specs.Ascending.{IsAscending, paths};
ghost use Rattle.view_leaves.specs.Leaves.{leaves};
ghost use Rattle.view_leaves.specs.Views.{leaves_seen};
ghost use Rattle.view_picture.specs.PictureViews.{scale_seen, size_seen};
ghost use Rattle.view_steps.specs.Answer.{has_some, IsSteps, IsStepsRefused};
ghost use Rattle.view_steps.specs.Rooms.{found, first_rooms};
ghost use Rattle.view_steps.specs.Runs.{all_back, IsAtEnd, IsRun};
ghost use Rattle.view_steps.specs.Steps.{Site};
ghost use Rattle.view_steps.specs.Views.{move_line};
ghost use Rattle.view_steps.specs.declared.steps.StepsError.TheVariants.{Memory};

use crate::agenda::{all_ready, rush};
use crate::moves::{Measure, Move, are_plain, moves_of};
use crate::rooms::{Rooms, rooms_of};
use crate::run::{Run, arrange, finish, put_back};
use crate::text::steps_text;
use serde_json::Value;
use std::alloc::{AllocError, Global};
use view_leaves::{Leaf, leaves_of};
use view_picture::{Scale, scales_of};
use view_plan::plan;

/// An order of moves.
#[derive(Drop)]
pub struct Steps {
    /// Its text.
    pub text: Vec<u8>,
    /// Whether moves are left of which none fits.
    pub stuck: bool,
}

/// Why there is no order.
#[derive(Clone, Copy, Debug, PartialEq, Eq)]
pub enum StepsError {
    /// A set is among what moves.
    Sets,
    /// There was no memory.
    Memory,
}

impl From<AllocError> for StepsError {
    ghost from_gives = { λ _ e. e ≡ Memory };

    fn from(_: AllocError) -> Self {
        StepsError::Memory
    }
}

/// Puts all guests back where their moves come from.
fn put_all_back(
    alloc: Global,
    rooms: &mut Rooms<'_>,
    moves: &[Move<'_, '_>],
) -> Result<(), AllocError>
    ensures { OnOk result ((w : Bor (List ℕ)) → found rooms.new.entries w.now
        ≡ all_back moves.now w.now (found rooms.old.entries w.now)) }
{
    for step in moves {
        put_back(alloc, rooms, step)?;
    }
    Ok(())
}

/// The run before the first move.
fn begun<'t, 'l, 'a>(
    alloc: Global,
    scales: &'t [Scale<'_>],
    moves: Vec<Move<'l, 'a>>,
) -> Result<Run<'t, 'l, 'a>, AllocError>
    ensures moves { IfOk result (λ run. run.left.items ≡ moves.entry.items) }
    ensures none { IfOk result (λ run. run.made.items ≡ []) }
    ensures rooms { IfOk result (λ run. (w : Bor (List ℕ)) → found run.rooms.entries w.now
        ≡ all_back moves.entry.items w.now (first_rooms (map scale_seen scales.now) w.now)) }
{
    let mut rooms = rooms_of(alloc, scales)?;
    put_all_back(alloc, &mut rooms, &moves)?;
    Ok(Run {
        rooms,
        made: Vec::new(alloc),
        left: moves,
    })
}

/// Makes the moves that fit, one after the other, and some by way of the stop where none fits, until
/// nothing can be done. What stands on a holder that failed goes first.
fn ran<'t, 'l, 'a>(
    alloc: Global,
    start: Run<'t, 'l, 'a>,
    sizes: usize,
    failed: &[&str],
    stop: Option<&'a Value>,
) -> Result<Run<'t, 'l, 'a>, AllocError>
    ensures kept { IfOk result (λ made. (site : Site)
        → IsRun site (option_map (λ v. view v.now) stop.entry) start.entry
        → IsRun site (option_map (λ v. view v.now) stop.entry) made) }
    ensures end { IfOk result (λ made. IsAtEnd (option_map (λ v. view v.now) stop.entry) made) }
{
    let mut run = start;
    let mut agenda = all_ready(alloc, &run.left, sizes, failed, stop)?;
    rush(alloc, &mut run, &mut agenda, stop)?;
    finish(alloc, &mut run, stop)?;
    arrange(&mut run)?;
    Ok(run)
}

/// Whether moves are left.
fn has_left(run: &Run<'_, '_, '_>) -> bool
    ensures { result ≡ has_some (map move_line run.now.left.items) }
{
    !run.left.is_empty()
}

/// An order of the moves from one configuration to another, of which these are the leaves.
fn steps_between<'v>(
    alloc: Global,
    former: &'v Value,
    old: &[Leaf<'v>],
    new: &[Leaf<'v>],
    measure: Measure<'_, 'v>,
    failed: &[&str],
    stop: Option<&'v Value>,
) -> Result<Steps, StepsError>
    requires old { leaves_seen old.now ≡ leaves (view former.now) }
    requires new { leaves_seen new.now ≡ leaves (view measure.whole.now) }
    requires before { IsAscending (paths (leaves_seen old.now)) }
    requires behind { IsAscending (paths (leaves_seen new.now)) }
    ensures steps { IfOk result (λ made. IsSteps (view former.now) (view measure.entry.whole.now)
        measure.entry.attribute.now (map size_seen measure.entry.sizes.now)
        (option_map (λ v. view v.now) stop.entry) made.text.items made.stuck) }
    ensures refused { IfErr result (IsStepsRefused (view former.now) (view measure.entry.whole.now)
        measure.entry.attribute.now) }
{
    let lines = plan(alloc, old, new)?;
    let moves = moves_of(alloc, measure, lines)?;
    if !are_plain(&moves) {
        return Err(StepsError::Sets);
    }
    let scales = scales_of(alloc, measure.whole, new, measure.attribute, measure.sizes)?;
    let start = begun(alloc, &scales, moves)?;
    let ended = ran(alloc, start, measure.sizes.len(), failed, stop)?;
    let text = steps_text(alloc, &ended, measure.sizes, stop)?;
    let stuck = has_left(&ended);
    Ok(Steps { text, stuck })
}

/// An order of the moves from one configuration to another, some by way of the stop, if one is
/// given, where no move fits.
pub fn steps_of<'v>(
    alloc: Global,
    former: &'v Value,
    measure: Measure<'_, 'v>,
    failed: &[&str],
    stop: Option<&'v Value>,
) -> Result<Steps, StepsError>
    ensures steps { IfOk result (λ made. IsSteps (view former.now) (view measure.entry.whole.now)
        measure.entry.attribute.now (map size_seen measure.entry.sizes.now)
        (option_map (λ v. view v.now) stop.entry) made.text.items made.stuck) }
    ensures refused { IfErr result (IsStepsRefused (view former.now) (view measure.entry.whole.now)
        measure.entry.attribute.now) }
{
    let old = leaves_of(alloc, former)?;
    let new = leaves_of(alloc, measure.whole)?;
    let steps = steps_between(alloc, former, &old, &new, measure, failed, stop)?;
    Ok(steps)
}
