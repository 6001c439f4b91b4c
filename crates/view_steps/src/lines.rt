//! Moves that wait for a holder's room: a queue for each amount that is needed, so that the first of
//! all that now have room is found by a look at each amount. Nothing rests on this.
use crate::halts::{Queue, is_late};
use crate::moves::Move;
use indexmap::IndexMap;
use std::alloc::{AllocError, Global};
use std::cmp::Reverse;
use std::collections::BinaryHeap;

/// The moves that wait for the same amount of room.
#[derive(Drop)]
pub(crate) struct Line {
    amount: i128,
    queue: Queue,
}

/// The moves that wait for a holder's room, by its spelling; no two lines of it are of one amount.
pub(crate) type Waiting<'t> = IndexMap<&'t [u8], Vec<Line>>;

/// Lets a move wait for this amount.
pub(crate) fn join(
    alloc: Global,
    lines: &mut Vec<Line>,
    patient: &[bool],
    amount: i128,
    number: usize,
) -> Result<(), AllocError> {
    let key = (is_late(patient, number), number);
    for i in 0..lines.len() {
        if lines[i].amount == amount {
            lines[i].queue.push(Reverse(key))?;
            return Ok(());
        }
    }
    let mut queue = BinaryHeap::new(alloc);
    queue.push(Reverse(key))?;
    lines.push(Line { amount, queue })?;
    Ok(())
}

/// The least amount that is waited for.
pub(crate) fn least(lines: &[Line]) -> Option<i128> {
    let mut least = None;
    for line in lines {
        least = Some(match least {
            Some(other) if other <= line.amount => other,
            _ => line.amount,
        });
    }
    least
}

/// The place of the line whose first move comes before those of all other lines that have room.
fn first_within(lines: &[Line], room: i128) -> Option<usize> {
    let mut first: Option<((bool, usize), usize)> = None;
    for (at, line) in lines.iter().enumerate() {
        if line.amount <= room {
            if let Some(Reverse(key)) = line.queue.peek() {
                first = Some(match first {
                    Some((other, place)) if other <= *key => (other, place),
                    _ => (*key, at),
                });
            }
        }
    }
    match first {
        Some((_, place)) => Some(place),
        None => None,
    }
}

/// Takes the first move out of its line that now has room.
fn take_first(lines: &mut Vec<Line>, room: i128) -> Option<(bool, usize)> {
    let at = first_within(lines, room)?;
    if at >= lines.len() {
        return None;
    }
    let first = lines[at].queue.pop();
    if lines[at].queue.is_empty() {
        lines.swap_remove(at);
    }
    match first {
        Some(Reverse(key)) => Some(key),
        None => None,
    }
}

/// Whether the move of a number is left, by where it stands.
fn is_left(left: &[Move<'_, '_>], indices: &[usize], number: usize) -> bool {
    if number >= indices.len() {
        return false;
    }
    let index = indices[number];
    index < left.len() && left[index].number == number
}

/// Makes the first move ready that now has room, of those that are left.
pub(crate) fn release(
    ready: &mut Queue,
    lines: &mut Vec<Line>,
    room: i128,
    left: &[Move<'_, '_>],
    indices: &[usize],
) -> Result<(), AllocError> {
    for _ in 0..u64::MAX {
        match take_first(lines, room) {
            None => return Ok(()),
            Some((late, number)) => {
                if is_left(left, indices, number) {
                    ready.push(Reverse((late, number)))?;
                    return Ok(());
                }
            }
        }
    }
    Ok(())
}
