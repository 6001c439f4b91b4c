//! What the guests of a holder come to.
ghost use Rattle.std.specs.Prelude.{◌≡◌, ℤ, map, IfOk};
ghost use Rattle.serde_json.specs.View.{view};
ghost use Rattle.view_leaves.specs.Views.{step_seen};
ghost use Rattle.view_picture.specs.Picture.{number_at, amount, total, load_of};
ghost use Rattle.view_picture.specs.PictureViews.{guest_path, load_seen, size_seen};

use crate::holding::{Guest, Load, Size};
use crate::lookup::{number_of, value_at};
use serde_json::Value;
use std::alloc::{AllocError, Global};
use view_leaves::Step;

/// The number that a part has under a name.
fn number_at(whole: &Value, path: &[Step<'_>], name: &str) -> Option<i64>
    ensures { result ≡ number_at (view whole.now) name.now (map step_seen path.now) }
{
    number_of(value_at(whole, path)?, name)
}

/// The size of a guest; 0 where it has none.
pub fn amount(whole: &Value, guest: &[Step<'_>], name: &str) -> i64
    ensures { result ≡ amount (view whole.now) name.now (map step_seen guest.now) }
{
    number_at(whole, guest, name).unwrap_or(0)
}

/// The sum of the guests' sizes.
fn total(whole: &Value, guests: &[Guest<'_, '_>], name: &str) -> i128
    ensures { result ≡ total (view whole.now) name.now (map guest_path guests.now) }
{
    let mut sum: i128 = 0;
    for guest in guests {
        sum += amount(whole, guest.path, name) as i128;
    }
    sum
}

/// What the guests of a holder come to.
fn load_of<'s>(
    whole: &Value,
    holder: &[Step<'_>],
    guests: &[Guest<'_, '_>],
    size: Size<'s>,
) -> Load<'s>
    ensures { load_seen result ≡ load_of (view whole.now) (map step_seen holder.now)
        (map guest_path guests.now) (size_seen size.entry) }
{
    Load {
        name: size.name,
        sum: total(whole, guests, size.name),
        capacity: number_at(whole, holder, size.capacity),
    }
}

/// The loads of a holder, one for each size.
pub(crate) fn loads_of<'s>(
    alloc: Global,
    whole: &Value,
    holder: &[Step<'_>],
    guests: &[Guest<'_, '_>],
    sizes: &[Size<'s>],
) -> Result<Vec<Load<'s>>, AllocError>
    ensures { IfOk result (λ loads. map load_seen loads.items ≡ map (load_of (view whole.now)
        (map step_seen holder.now) (map guest_path guests.now)) (map size_seen sizes.now)) }
{
    let mut loads = Vec::new(alloc);
    for size in sizes {
        loads.push(load_of(whole, holder, guests, *size))?;
    }
    Ok(loads)
}
