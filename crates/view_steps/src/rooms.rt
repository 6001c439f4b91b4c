//! What each holder can still take.
ghost use Rattle.std.specs.Prelude.{◌≡◌, ◌<◌, ◌∷◌, [], None, Some, ℕ, List, map, drop, length, option_map, slice_index_or, if◌then◌else◌, IfOk, IfSome, OnOk, true};
ghost use Rattle.std.specs.Borrow.{Bor};
ghost use Rattle.view_picture.specs.PictureViews.{load_seen, scale_seen};
ghost use Rattle.view_steps.specs.Moves.{is_word};
ghost use Rattle.view_steps.specs.Rooms.{Room, allowed, taken, first, all_allowed, all_taken, found, is_one, word_allowed, some_taken, load_room, first_rooms, first_of};

use indexmap::IndexMap;
use std::alloc::{AllocError, Global};
use view_picture::{Load, Scale};

/// What each holder can still take, by its spelling: a number for each size, where it has a
/// capacity.
pub(crate) type Rooms<'t> = IndexMap<&'t [u8], Vec<Option<i128>>>;

/// Whether so much may be put where there is this room. What makes a load no greater may be.
pub(crate) fn allowed(room: Option<i128>, amount: i128) -> bool
    ensures { result ≡ allowed room amount }
{
    match room {
        None => true,
        Some(free) => amount <= free || amount <= 0,
    }
}

/// The room that is left behind so much.
fn taken(room: Option<i128>, amount: i128) -> Result<Option<i128>, AllocError>
    ensures { IfOk result (λ left. left ≡ taken room amount) }
{
    match room {
        None => Ok(None),
        Some(free) => match free.checked_sub(amount) {
            Some(left) => Ok(Some(left)),
            None => Err(AllocError),
        },
    }
}

/// The amount of a number, 0 behind the last.
pub(crate) fn amount_at(amounts: &[i128], number: usize) -> i128
    ensures { result ≡ first (drop number amounts.now) }
{
    if number < amounts.len() {
        amounts[number]
    } else {
        0
    }
}

/// The room of a number.
fn room_at(rooms: &[Option<i128>], number: usize) -> Option<i128>
    requires { number < length rooms.now }
    ensures { (d : Room) → result ≡ slice_index_or rooms.now number d }
{
    rooms[number]
}

/// Whether so much of the size of a number may be put where there is this room.
fn allowed_at(rooms: &[Option<i128>], amounts: &[i128], number: usize) -> bool
    requires { number < length rooms.now }
    ensures { result ≡ allowed (slice_index_or rooms.now number None)
        (first (drop number amounts.now)) }
{
    let room = room_at(rooms, number);
    let amount = amount_at(amounts, number);
    allowed(room, amount)
}

/// Whether so much of each size may be put where there is this room.
fn all_allowed(rooms: &[Option<i128>], amounts: &[i128]) -> bool
    ensures { result ≡ all_allowed rooms.now amounts.now }
{
    for number in 0..rooms.len() {
        if !allowed_at(rooms, amounts, number) {
            return false;
        }
    }
    true
}

/// The room that is left of the size of a number.
fn taken_at(
    rooms: &[Option<i128>],
    amounts: &[i128],
    number: usize,
) -> Result<Option<i128>, AllocError>
    requires { number < length rooms.now }
    ensures { IfOk result (λ left. left ≡ taken (slice_index_or rooms.now number None)
        (first (drop number amounts.now))) }
{
    let room = room_at(rooms, number);
    let amount = amount_at(amounts, number);
    let left = taken(room, amount)?;
    Ok(left)
}

/// The room that is left behind so much of each size.
fn all_taken(
    alloc: Global,
    rooms: &[Option<i128>],
    amounts: &[i128],
) -> Result<Vec<Option<i128>>, AllocError>
    ensures { IfOk result (λ left. left.items ≡ all_taken rooms.now amounts.now) }
{
    let mut left = Vec::new(alloc);
    for number in 0..rooms.len() {
        let room = taken_at(rooms, amounts, number)?;
        left.push(room)?;
    }
    Ok(left)
}

/// Whether a holder, if there is one of that spelling, can take so much.
pub(crate) fn is_allowed(rooms: &Rooms<'_>, word: Option<&str>, amounts: &[i128]) -> bool
    ensures { result ≡ word_allowed rooms.now.entries (option_map (λ w. w.now) word.entry) amounts.now }
{
    match word {
        None => true,
        Some(word) => match rooms.get(word.as_bytes()) {
            None => true,
            Some(list) => all_allowed(list, amounts),
        },
    }
}

/// Takes the rooms of a holder out, with the spelling under which they are kept.
fn take_out<'t>(rooms: &mut Rooms<'t>, word: &str) -> Option<(&'t [u8], Vec<Option<i128>>)>
    ensures taken { option_map (λ p. p.1.items) result ≡ found rooms.old.entries word.now }
    ensures same { IfSome result (λ p. is_one word.now p.0.now ≡ true) }
    ensures left { (w : Bor (List ℕ)) → found rooms.new.entries w.now
        ≡ (if is_one word.now w.now then None else found rooms.old.entries w.now) }
{
    rooms.swap_remove_entry(word.as_bytes())
}

/// Puts the rooms of a holder in.
fn put_in<'t>(
    rooms: &mut Rooms<'t>,
    word: &'t [u8],
    list: Vec<Option<i128>>,
) -> Result<(), AllocError>
    ensures { OnOk result ((w : Bor (List ℕ)) → found rooms.new.entries w.now
        ≡ (if is_one word.entry.now w.now then Some list.items
        else found rooms.old.entries w.now)) }
{
    rooms.insert(word, list)?;
    Ok(())
}

/// Puts so much where a word says, if there is such a holder.
pub(crate) fn put_at(
    alloc: Global,
    rooms: &mut Rooms<'_>,
    word: Option<&str>,
    amounts: &[i128],
) -> Result<(), AllocError>
    ensures { OnOk result ((w : Bor (List ℕ)) → found rooms.new.entries w.now
        ≡ (if is_word (option_map (λ v. v.now) word.entry) w.now
        then some_taken (found rooms.old.entries w.now) amounts.now
        else found rooms.old.entries w.now)) }
{
    match word {
        None => Ok(()),
        Some(word) => match take_out(rooms, word) {
            None => Ok(()),
            Some((text, list)) => {
                let left = all_taken(alloc, &list, amounts)?;
                put_in(rooms, text, left)?;
                Ok(())
            }
        },
    }
}

/// The room beside a load.
fn load_room(load: Load<'_>) -> Result<Option<i128>, AllocError>
    ensures { IfOk result (λ room. room ≡ load_room (load_seen load.entry)) }
{
    match load.capacity {
        None => Ok(None),
        Some(capacity) => match (capacity as i128).checked_sub(load.sum) {
            Some(room) => Ok(Some(room)),
            None => Err(AllocError),
        },
    }
}

/// The rooms beside the loads of a holder.
fn load_rooms(alloc: Global, loads: &[Load<'_>]) -> Result<Vec<Option<i128>>, AllocError>
    ensures { IfOk result (λ list. list.items ≡ map load_room (map load_seen loads.now)) }
{
    let mut list = Vec::new(alloc);
    for load in loads {
        list.push(load_room(*load)?)?;
    }
    Ok(list)
}

/// Notes the rooms of a part, where none is noted of that spelling.
fn note<'t>(alloc: Global, rooms: &mut Rooms<'t>, scale: &'t Scale<'_>) -> Result<(), AllocError>
    ensures { OnOk result ((w : Bor (List ℕ)) → found rooms.new.entries w.now
        ≡ first_of (found rooms.old.entries w.now) (first_rooms (scale_seen scale.now ∷ []) w.now)) }
{
    let text = scale.text.as_slice();
    if !rooms.contains_key(text) {
        rooms.insert(text, load_rooms(alloc, &scale.loads)?)?;
    }
    Ok(())
}

/// The rooms of all parts.
pub(crate) fn rooms_of<'t>(alloc: Global, scales: &'t [Scale<'_>]) -> Result<Rooms<'t>, AllocError>
    ensures { IfOk result (λ rooms. (w : Bor (List ℕ)) → found rooms.entries w.now
        ≡ first_rooms (map scale_seen scales.now) w.now) }
{
    let mut rooms = IndexMap::new(alloc);
    for scale in scales {
        note(alloc, &mut rooms, scale)?;
    }
    Ok(rooms)
}
