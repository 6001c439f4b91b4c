//! Names in a picture, and what guests come to.
ghost use Rattle.std.specs.Prelude.{◌≡◌, ◌++◌, ◌≤◌, ℤ, Option, map, IfOk, OnOk};
ghost use Rattle.view_drawing.specs.Names.{is_among, mark_text, name_text, filled, fill_of, is_over, capacity_text, load_text};
ghost use Rattle.view_leaves.specs.Spelling.{path_text};
ghost use Rattle.view_leaves.specs.Views.{step_seen};
ghost use Rattle.view_picture.specs.PictureViews.{load_seen};

use itoa::Buffer;
use std::alloc::{AllocError, Global};
use view_leaves::{Step, push_path, push_word};
use view_picture::Load;

/// Whether a name is one of those that failed.
pub fn is_among(failed: &[&str], name: &[u8]) -> bool
    ensures { result ≡ is_among (map (λ w. w.now) failed.now) name.now }
{
    for word in failed {
        if word.as_bytes() == name {
            return true;
        }
    }
    false
}

/// Whether what stands at a path failed.
pub(crate) fn has_failed(
    alloc: Global,
    failed: &[&str],
    path: &[Step<'_>],
) -> Result<bool, AllocError>
    ensures { IfOk result (λ is. is ≡ is_among (map (λ w. w.now) failed.now)
        (path_text (map step_seen path.now))) }
{
    let mut text = Vec::new(alloc);
    push_path(&mut text, path)?;
    Ok(is_among(failed, &text))
}

/// The text of a path, with a mark where it failed.
pub(crate) fn name_of(
    alloc: Global,
    failed: &[&str],
    path: &[Step<'_>],
) -> Result<Vec<u8>, AllocError>
    ensures { IfOk result (λ text. text.items ≡ name_text (map (λ w. w.now) failed.now)
        (map step_seen path.now)) }
{
    let mut text = Vec::new(alloc);
    push_path(&mut text, path)?;
    if is_among(failed, &text) {
        text.extend_from_slice(b" (failed)")?;
    }
    Ok(text)
}

/// How much of a capacity is taken, in hundredths.
fn filled(sum: i128, capacity: i64) -> u64
    ensures filled { result ≡ filled sum capacity }
    ensures most { result ≤ 100 }
{
    if sum <= 0 {
        0
    } else if sum >= capacity as i128 {
        100
    } else {
        let taken = sum.unsigned_abs() * 100;
        (taken / capacity.unsigned_abs() as u128) as u64
    }
}

/// How much of the capacity of a holder is taken, in hundredths; nothing of one that isn't said.
pub(crate) fn fill_of(load: &Load<'_>) -> u64
    ensures fill { result ≡ fill_of (load_seen load.now) }
    ensures most { result ≤ 100 }
{
    match load.capacity {
        None => 0,
        Some(capacity) => filled(load.sum, capacity),
    }
}

/// Whether it is more than the holder can take.
pub(crate) fn is_over(load: &Load<'_>) -> bool
    ensures { result ≡ is_over (load_seen load.now) }
{
    match load.capacity {
        None => false,
        Some(capacity) => (capacity as i128) < load.sum,
    }
}

/// Writes what a holder can take, where it says so.
fn push_capacity(text: &mut Vec<u8>, capacity: Option<i64>) -> Result<(), AllocError>
    ensures { OnOk result (text.new.items ≡ text.old.items ++ capacity_text capacity) }
{
    match capacity {
        None => Ok(()),
        Some(number) => {
            text.extend_from_slice(b" of ")?;
            text.extend_from_slice(Buffer::new().format(number).as_bytes())
        }
    }
}

/// Writes what the guests of a holder come to.
pub(crate) fn push_load(text: &mut Vec<u8>, load: &Load<'_>) -> Result<(), AllocError>
    ensures { OnOk result (text.new.items ≡ text.old.items ++ load_text (load_seen load.now)) }
{
    push_word(text, load.name)?;
    text.push(b' ')?;
    text.extend_from_slice(Buffer::new().format(load.sum).as_bytes())?;
    push_capacity(text, load.capacity)
}
