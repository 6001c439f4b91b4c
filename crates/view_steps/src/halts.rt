//! Which move to send to the stop: the first that fits there and whose going makes room for one that
//! waits; where there is none, the first that fits there. They are looked at by number, the urgent
//! ones first. Nothing rests on this: what is to go is asked once more whether it may.
use crate::lines::{Waiting, least};
use crate::moves::{Move, from_word, to_stop};
use crate::rooms::{Rooms, allowed, amount_at};
use crate::run::{Run, may_halt};
use indexmap::IndexMap;
use serde_json::Value;
use std::alloc::{AllocError, Global};
use std::cmp::Reverse;
use std::collections::BinaryHeap;

/// Moves by number, the one that needs least room on top.
type Heap = BinaryHeap<Reverse<(i128, usize)>>;

/// Moves in the order in which they are tried: whether they are patient, and their number.
pub(crate) type Queue = BinaryHeap<Reverse<(bool, usize)>>;

/// Moves by number, the one that makes most room on top, by the spelling of where they stand.
type Asleep<'t> = IndexMap<&'t [u8], BinaryHeap<(i128, usize)>>;

/// What is known of the moves that may go to the stop.
#[derive(Drop)]
pub(crate) struct Halts<'t> {
    /// How the stop is spelled, where there is one.
    stop: Option<&'t str>,
    /// Whether a move may wait until the urgent ones were tried.
    pub patient: Vec<bool>,
    /// Those to be looked at: the urgent ones first, then by number.
    fresh: Queue,
    /// Those that were looked at, and whose going made no room for another.
    spare: Queue,
    /// Those that wait for the stop's room, for each size.
    parked: Vec<Heap>,
    /// Those whose going makes too little room, for each size.
    asleep: Vec<Asleep<'t>>,
}

/// Whether a guest stands on a holder that failed.
fn is_urgent(step: &Move<'_, '_>, failed: &[&str]) -> bool {
    match from_word(&step.line.change) {
        None => false,
        Some(word) => failed.iter().any(|path| *path == word),
    }
}

/// Whether the move of a number is patient.
pub(crate) fn is_late(patient: &[bool], number: usize) -> bool {
    number < patient.len() && patient[number]
}

/// All that may go to the stop is to be looked at.
pub(crate) fn all_fresh<'t>(
    alloc: Global,
    moves: &[Move<'_, 't>],
    sizes: usize,
    failed: &[&str],
    stop: Option<&'t Value>,
) -> Result<Halts<'t>, AllocError> {
    let mut halts = Halts {
        stop: match stop {
            None => None,
            Some(value) => value.as_str(),
        },
        patient: Vec::new(alloc),
        fresh: BinaryHeap::new(alloc),
        spare: BinaryHeap::new(alloc),
        parked: Vec::new(alloc),
        asleep: Vec::new(alloc),
    };
    for (number, step) in moves.iter().enumerate() {
        let patient = !is_urgent(step, failed);
        halts.patient.push(patient)?;
        if to_stop(&step.line.change, stop).is_some() {
            halts.fresh.push(Reverse((patient, number)))?;
        }
    }
    add_sizes(alloc, &mut halts, sizes)?;
    Ok(halts)
}

/// Adds what waits for each size: nothing.
fn add_sizes(alloc: Global, halts: &mut Halts<'_>, sizes: usize) -> Result<(), AllocError> {
    for _ in 0..sizes {
        halts.parked.push(BinaryHeap::new(alloc))?;
        halts.asleep.push(IndexMap::new(alloc))?;
    }
    Ok(())
}

/// A size of which a holder lacks room, and how much is needed there.
pub(crate) fn lacking(
    rooms: &Rooms<'_>,
    word: Option<&str>,
    amounts: &[i128],
) -> Option<(usize, i128)> {
    let list = rooms.get(word?.as_bytes())?;
    for (size, room) in list.iter().enumerate() {
        let amount = amount_at(amounts, size);
        if !allowed(*room, amount) {
            return Some((size, amount));
        }
    }
    None
}

/// The room of a size, where it is bounded.
pub(crate) fn room_at(rooms: &Rooms<'_>, word: &str, size: usize) -> Option<i128> {
    let list = rooms.get(word.as_bytes())?;
    if size < list.len() { list[size] } else { None }
}

/// How much room a holder lacks for the move that needs least of those that wait there.
fn gap(waiting: &[Waiting<'_>], rooms: &Rooms<'_>, word: &str, size: usize) -> Option<i128> {
    if size >= waiting.len() {
        return None;
    }
    let room = room_at(rooms, word, size)?;
    least(waiting[size].get(word.as_bytes())?)?.checked_sub(room)
}

/// Whether a move makes room for one that waits.
fn helps(waiting: &[Waiting<'_>], rooms: &Rooms<'_>, step: &Move<'_, '_>) -> bool {
    if let Some(word) = from_word(&step.line.change) {
        for size in 0..waiting.len() {
            if let Some(lack) = gap(waiting, rooms, word, size) {
                if lack <= amount_at(&step.more, size) {
                    return true;
                }
            }
        }
    }
    false
}

/// Lets those be looked at that make so much room.
fn rouse(
    fresh: &mut Queue,
    patient: &[bool],
    heap: &mut BinaryHeap<(i128, usize)>,
    lack: i128,
) -> Result<(), AllocError> {
    for _ in 0..heap.len() {
        match heap.peek() {
            Some((amount, number)) if lack <= *amount => {
                let number = *number;
                fresh.push(Reverse((is_late(patient, number), number)))?;
            }
            _ => return Ok(()),
        }
        heap.pop();
    }
    Ok(())
}

/// Lets those be looked at that now fit on the stop.
fn unpark(
    fresh: &mut Queue,
    patient: &[bool],
    heap: &mut Heap,
    room: i128,
) -> Result<(), AllocError> {
    for _ in 0..heap.len() {
        match heap.peek() {
            Some(Reverse((amount, number))) if *amount <= room => {
                let number = *number;
                fresh.push(Reverse((is_late(patient, number), number)))?;
            }
            _ => return Ok(()),
        }
        heap.pop();
    }
    Ok(())
}

/// Whether a word is how the stop is spelled.
fn is_stop(halts: &Halts<'_>, word: &str) -> bool {
    match halts.stop {
        None => false,
        Some(stop) => stop == word,
    }
}

/// Lets those be looked at that wait for this size of a holder.
fn stir_size(
    halts: &mut Halts<'_>,
    waiting: &[Waiting<'_>],
    rooms: &Rooms<'_>,
    word: &str,
    size: usize,
) -> Result<(), AllocError> {
    if size < halts.asleep.len() {
        if let Some(lack) = gap(waiting, rooms, word, size) {
            if let Some(heap) = halts.asleep[size].get_mut(word.as_bytes()) {
                rouse(&mut halts.fresh, &halts.patient, heap, lack)?;
            }
        }
    }
    if size < halts.parked.len() && is_stop(halts, word) {
        if let Some(room) = room_at(rooms, word, size) {
            unpark(
                &mut halts.fresh,
                &halts.patient,
                &mut halts.parked[size],
                room,
            )?;
        }
    }
    Ok(())
}

/// Lets those be looked at that wait for what has changed at a holder.
pub(crate) fn stir(
    halts: &mut Halts<'_>,
    waiting: &[Waiting<'_>],
    rooms: &Rooms<'_>,
    word: &str,
) -> Result<(), AllocError> {
    if halts.stop.is_some() {
        for size in 0..waiting.len() {
            stir_size(halts, waiting, rooms, word, size)?;
        }
    }
    Ok(())
}

/// Lets a move wait for the stop's room.
fn park(halts: &mut Halts<'_>, rooms: &Rooms<'_>, step: &Move<'_, '_>) -> Result<(), AllocError> {
    if let Some((size, amount)) = lacking(rooms, halts.stop, &step.more) {
        if size < halts.parked.len() {
            halts.parked[size].push(Reverse((amount, step.number)))?;
        }
    }
    Ok(())
}

/// Lets a move wait until it makes room for another.
fn rest<'t>(alloc: Global, halts: &mut Halts<'t>, step: &Move<'_, 't>) -> Result<(), AllocError> {
    let late = is_late(&halts.patient, step.number);
    halts.spare.push(Reverse((late, step.number)))?;
    if let Some(word) = from_word(&step.line.change) {
        for size in 0..halts.asleep.len() {
            let amount = amount_at(&step.more, size);
            rest_at(alloc, halts, word, size, (amount, step.number))?;
        }
    }
    Ok(())
}

/// Lets a move wait for a size of where it stands.
fn rest_at<'t>(
    alloc: Global,
    halts: &mut Halts<'t>,
    word: &'t str,
    size: usize,
    item: (i128, usize),
) -> Result<(), AllocError> {
    if size < halts.asleep.len() {
        let map = &mut halts.asleep[size];
        let mut heap = match map.swap_remove(word.as_bytes()) {
            Some(heap) => heap,
            None => BinaryHeap::new(alloc),
        };
        heap.push(item)?;
        map.insert(word.as_bytes(), heap)?;
    }
    Ok(())
}

/// Where a move stands, if it may go to the stop and fits there; if it doesn't fit, it waits.
fn halt_at<'t>(
    run: &Run<'_, '_, 't>,
    halts: &mut Halts<'t>,
    indices: &[usize],
    number: usize,
    stop: Option<&'t Value>,
) -> Result<Option<usize>, AllocError> {
    if number >= indices.len() {
        return Ok(None);
    }
    let index = indices[number];
    if index >= run.left.len() || run.left[index].number != number {
        return Ok(None);
    }
    if to_stop(&run.left[index].line.change, stop).is_none() {
        return Ok(None);
    }
    if !may_halt(&run.rooms, &run.left[index], stop) {
        park(halts, &run.rooms, &run.left[index])?;
        return Ok(None);
    }
    Ok(Some(index))
}

/// Where a move stands that makes room for one that waits, if there is one.
fn next_helper<'t>(
    alloc: Global,
    run: &Run<'_, '_, 't>,
    halts: &mut Halts<'t>,
    waiting: &[Waiting<'t>],
    indices: &[usize],
    stop: Option<&'t Value>,
) -> Result<Option<usize>, AllocError> {
    for _ in 0..u64::MAX {
        match halts.fresh.pop() {
            None => return Ok(None),
            Some(Reverse((_, number))) => {
                if let Some(index) = halt_at(run, halts, indices, number, stop)? {
                    if index < run.left.len() {
                        if helps(waiting, &run.rooms, &run.left[index]) {
                            return Ok(Some(index));
                        }
                        rest(alloc, halts, &run.left[index])?;
                    }
                }
            }
        }
    }
    Ok(None)
}

/// Where the next move stands that is to go to the stop, if there is one.
pub(crate) fn next_halt<'t>(
    alloc: Global,
    run: &Run<'_, '_, 't>,
    halts: &mut Halts<'t>,
    waiting: &[Waiting<'t>],
    indices: &[usize],
    stop: Option<&'t Value>,
) -> Result<Option<usize>, AllocError> {
    if let Some(index) = next_helper(alloc, run, halts, waiting, indices, stop)? {
        return Ok(Some(index));
    }
    for _ in 0..u64::MAX {
        match halts.spare.pop() {
            None => return Ok(None),
            Some(Reverse((_, number))) => {
                if let Some(index) = halt_at(run, halts, indices, number, stop)? {
                    return Ok(Some(index));
                }
            }
        }
    }
    Ok(None)
}
