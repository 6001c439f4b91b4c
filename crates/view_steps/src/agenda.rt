//! Which moves to try, so that none is looked at before room was made for it. Nothing rests on
//! this: what is tried is asked once more whether it fits.
ghost use Rattle.std.specs.Prelude.{Option, OnOk, option_map};
ghost use Rattle.serde_json.specs.Data.{Data};
ghost use Rattle.serde_json.specs.View.{view};
ghost use Rattle.view_steps.specs.Runs.{IsRun};
ghost use Rattle.view_steps.specs.Steps.{Site};

use crate::halts::{Halts, Queue, all_fresh, is_late, lacking, next_halt, room_at, stir};
use crate::lines::{Waiting, join, release};
use crate::moves::{Move, from_word, to_word};
use crate::rooms::Rooms;
use crate::run::{Run, halt, is_fit, make, may_halt};
use indexmap::IndexMap;
use serde_json::Value;
use std::alloc::{AllocError, Global};
use std::cmp::Reverse;
use std::collections::BinaryHeap;

/// What is known of the moves that are left.
#[derive(Drop)]
pub(crate) struct Agenda<'t> {
    /// Those to be tried: the urgent ones first, then by number.
    ready: Queue,
    /// Where each move stands among those that are left.
    indices: Vec<usize>,
    /// Those that wait for room, for each size by holder.
    waiting: Vec<Waiting<'t>>,
    /// Those that may go to the stop.
    halts: Halts<'t>,
}

/// The first agenda: all moves are to be tried.
pub(crate) fn all_ready<'t>(
    alloc: Global,
    moves: &[Move<'_, 't>],
    sizes: usize,
    failed: &[&str],
    stop: Option<&'t Value>,
) -> Result<Agenda<'t>, AllocError> {
    let mut agenda = Agenda {
        ready: BinaryHeap::new(alloc),
        indices: Vec::new(alloc),
        waiting: Vec::new(alloc),
        halts: all_fresh(alloc, moves, sizes, failed, stop)?,
    };
    for number in 0..moves.len() {
        let late = is_late(&agenda.halts.patient, number);
        agenda.ready.push(Reverse((late, number)))?;
        agenda.indices.push(number)?;
    }
    add_waiting(alloc, &mut agenda, sizes)?;
    Ok(agenda)
}

/// Adds an empty map for each size.
fn add_waiting(alloc: Global, agenda: &mut Agenda<'_>, sizes: usize) -> Result<(), AllocError> {
    for _ in 0..sizes {
        agenda.waiting.push(IndexMap::new(alloc))?;
    }
    Ok(())
}

/// Lets a move wait for a holder's room.
fn wait_at<'t>(
    alloc: Global,
    agenda: &mut Agenda<'t>,
    rooms: &Rooms<'_>,
    word: Option<&'t str>,
    lack: Option<(usize, i128)>,
    number: usize,
) -> Result<(), AllocError> {
    if let (Some(word), Some((size, amount))) = (word, lack) {
        if size < agenda.waiting.len() {
            let map = &mut agenda.waiting[size];
            let mut lines = match map.swap_remove(word.as_bytes()) {
                Some(lines) => lines,
                None => Vec::new(alloc),
            };
            join(alloc, &mut lines, &agenda.halts.patient, amount, number)?;
            map.insert(word.as_bytes(), lines)?;
            stir(&mut agenda.halts, &agenda.waiting, rooms, word)?;
        }
    }
    Ok(())
}

/// Lets a move wait for the room that it lacks.
fn wait<'t>(
    alloc: Global,
    agenda: &mut Agenda<'t>,
    rooms: &Rooms<'_>,
    step: &Move<'_, 't>,
) -> Result<(), AllocError> {
    let to = to_word(&step.line.change);
    let lack = lacking(rooms, to, &step.more);
    if lack.is_some() {
        wait_at(alloc, agenda, rooms, to, lack, step.number)
    } else {
        let from = from_word(&step.line.change);
        let lack = lacking(rooms, from, &step.less);
        wait_at(alloc, agenda, rooms, from, lack, step.number)
    }
}

/// Makes ready the first that waits for this size of a holder and has room now.
fn wake_size(
    agenda: &mut Agenda<'_>,
    run: &Run<'_, '_, '_>,
    word: &str,
    size: usize,
) -> Result<(), AllocError> {
    if size < agenda.waiting.len() {
        if let Some(room) = room_at(&run.rooms, word, size) {
            if let Some(lines) = agenda.waiting[size].get_mut(word.as_bytes()) {
                release(&mut agenda.ready, lines, room, &run.left, &agenda.indices)?;
            }
        }
    }
    Ok(())
}

/// Makes ready the first that waits for a holder and now has room there, for each size. The next one
/// is made ready when this one was tried.
fn wake(
    agenda: &mut Agenda<'_>,
    run: &Run<'_, '_, '_>,
    word: Option<&str>,
) -> Result<(), AllocError> {
    if let Some(word) = word {
        for size in 0..agenda.waiting.len() {
            wake_size(agenda, run, word, size)?;
        }
        stir(&mut agenda.halts, &agenda.waiting, &run.rooms, word)?;
    }
    Ok(())
}

/// Tries a move.
fn attempt<'t>(
    alloc: Global,
    run: &mut Run<'_, '_, 't>,
    agenda: &mut Agenda<'t>,
    number: usize,
) -> Result<(), AllocError>
    ensures kept { OnOk result ((site : Site) (stop : Option Data) → IsRun site stop run.old
        → IsRun site stop run.new) }
{
    if number >= agenda.indices.len() {
        return Ok(());
    }
    let index = agenda.indices[number];
    if index >= run.left.len() || run.left[index].number != number {
        return Ok(());
    }
    let from = from_word(&run.left[index].line.change);
    let to = to_word(&run.left[index].line.change);
    if is_fit(&run.rooms, &run.left[index]) {
        make(alloc, run, index)?;
        note_index(run, agenda, index);
    } else {
        wait(alloc, agenda, &run.rooms, &run.left[index])?;
    }
    wake(agenda, run, from)?;
    wake(agenda, run, to)
}

/// Tries to send a move to the stop, and says whether one went there.
fn attempt_halt<'t>(
    alloc: Global,
    run: &mut Run<'_, '_, 't>,
    agenda: &mut Agenda<'t>,
    stop: Option<&'t Value>,
) -> Result<bool, AllocError>
    ensures kept { OnOk result ((site : Site)
        → IsRun site (option_map (λ v. view v.now) stop.entry) run.old
        → IsRun site (option_map (λ v. view v.now) stop.entry) run.new) }
{
    match next_halt(
        alloc,
        run,
        &mut agenda.halts,
        &agenda.waiting,
        &agenda.indices,
        stop,
    )? {
        None => Ok(false),
        Some(index) => {
            if index >= run.left.len() || !may_halt(&run.rooms, &run.left[index], stop) {
                return Ok(false);
            }
            let from = from_word(&run.left[index].line.change);
            halt(alloc, run, index, stop)?;
            note_halted(run, agenda, index)?;
            wake(agenda, run, from)?;
            Ok(true)
        }
    }
}

/// Notes which move took this index.
fn note_index(run: &Run<'_, '_, '_>, agenda: &mut Agenda<'_>, index: usize) {
    if index < run.left.len() {
        let number = run.left[index].number;
        if number < agenda.indices.len() {
            agenda.indices[number] = index;
        }
    }
}

/// Notes where a second half stands, and which move took the index of the first; the second half is
/// to be tried.
fn note_halted(
    run: &Run<'_, '_, '_>,
    agenda: &mut Agenda<'_>,
    index: usize,
) -> Result<(), AllocError> {
    note_index(run, agenda, index);
    if !run.left.is_empty() {
        let last = run.left.len() - 1;
        note_index(run, agenda, last);
        let number = run.left[last].number;
        let late = is_late(&agenda.halts.patient, number);
        agenda.ready.push(Reverse((late, number)))?;
    }
    Ok(())
}

/// Tries what may be tried, until nothing is left to try. Only where no move may fit one goes to the
/// stop.
pub(crate) fn rush<'t>(
    alloc: Global,
    run: &mut Run<'_, '_, 't>,
    agenda: &mut Agenda<'t>,
    stop: Option<&'t Value>,
) -> Result<(), AllocError>
    ensures kept { OnOk result ((site : Site)
        → IsRun site (option_map (λ v. view v.now) stop.entry) run.old
        → IsRun site (option_map (λ v. view v.now) stop.entry) run.new) }
{
    for _ in 0..u64::MAX {
        match agenda.ready.pop() {
            Some(Reverse((_, number))) => attempt(alloc, run, agenda, number)?,
            None => {
                if !attempt_halt(alloc, run, agenda, stop)? {
                    return Ok(());
                }
            }
        }
    }
    Ok(())
}
