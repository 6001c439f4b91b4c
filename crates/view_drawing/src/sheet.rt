//! A picture as lines of text.
ghost use Rattle.std.specs.Prelude.{◌≡◌, ◌++◌, ◌≤◌, [], false, codes, if◌then◌else◌, map, IfOk, OnOk};
ghost use Rattle.std.specs.List.{flat_map};
ghost use Rattle.view_drawing.specs.Names.{name_text};
ghost use Rattle.view_drawing.specs.Sheet.{bar_text, gauge_by, load_line, guests_text, holding_text, sheet_text};
ghost use Rattle.view_picture.specs.PictureViews.{guest_seen, load_seen, holding_seen, holdings_seen};

use crate::names::{fill_of, is_over, name_of, push_load};
use itoa::Buffer;
use std::alloc::{AllocError, Global};
use view_picture::{Guest, Holding, Load};

/// Writes a bar of 20 marks, for so many hundredths.
fn push_bar(text: &mut Vec<u8>, filled: u64) -> Result<(), AllocError>
    requires { filled ≤ 100 }
    ensures { OnOk result (text.new.items ≡ text.old.items ++ bar_text filled) }
{
    let marks = (filled / 5) as usize;
    let taken: &[u8] = b"####################";
    let free: &[u8] = b"....................";
    text.extend_from_slice(b" [")?;
    text.extend_from_slice(&taken[..marks])?;
    text.extend_from_slice(&free[marks..])?;
    text.extend_from_slice(b"]")
}

/// Writes a load's bar, where it has a capacity.
fn push_gauge(text: &mut Vec<u8>, load: &Load<'_>) -> Result<(), AllocError>
    ensures { OnOk result (text.new.items ≡ text.old.items
        ++ gauge_by load.now.capacity (load_seen load.now)) }
{
    if load.capacity.is_none() {
        return Ok(());
    }
    push_bar(text, fill_of(load))?;
    if is_over(load) {
        text.extend_from_slice(b" over")?;
    }
    Ok(())
}

/// Writes the lines of a holder's loads.
fn push_loads(text: &mut Vec<u8>, loads: &[Load<'_>]) -> Result<(), AllocError>
    ensures { OnOk result (text.new.items ≡ text.old.items
        ++ flat_map load_line (map load_seen loads.now)) }
{
    for load in loads {
        text.extend_from_slice(b"  ")?;
        push_load(text, load)?;
        push_gauge(text, load)?;
        text.extend_from_slice(b"\n")?;
    }
    Ok(())
}

/// Writes a guest, behind a comma where it isn't the first.
fn push_guest(
    alloc: Global,
    text: &mut Vec<u8>,
    failed: &[&str],
    later: bool,
    guest: &Guest<'_, '_>,
) -> Result<(), AllocError>
    ensures { OnOk result (text.new.items ≡ text.old.items ++ ((if later then codes ", " else [])
        ++ name_text (map (λ w. w.now) failed.now) (guest_seen guest.now).path)) }
{
    if later {
        text.extend_from_slice(b", ")?;
    }
    let name = name_of(alloc, failed, guest.path)?;
    text.extend_from_slice(&name)
}

/// Writes the guests of a holder.
fn push_guests(
    alloc: Global,
    text: &mut Vec<u8>,
    failed: &[&str],
    guests: &[Guest<'_, '_>],
) -> Result<(), AllocError>
    ensures { OnOk result (text.new.items ≡ text.old.items
        ++ guests_text (map (λ w. w.now) failed.now) false (map guest_seen guests.now)) }
{
    let mut later = false;
    for guest in guests {
        push_guest(alloc, text, failed, later, guest)?;
        later = true;
    }
    Ok(())
}

/// Writes a holder with its guests and loads.
fn push_holding(
    alloc: Global,
    text: &mut Vec<u8>,
    failed: &[&str],
    holding: &Holding<'_, '_, '_>,
) -> Result<(), AllocError>
    ensures { OnOk result (text.new.items ≡ text.old.items
        ++ holding_text (map (λ w. w.now) failed.now) (holding_seen holding.now)) }
{
    let name = name_of(alloc, failed, holding.holder)?;
    text.extend_from_slice(&name)?;
    text.extend_from_slice(b": ")?;
    push_guests(alloc, text, failed, &holding.guests)?;
    text.extend_from_slice(b"\n")?;
    push_loads(text, &holding.loads)
}

/// Writes the holders.
fn push_holdings(
    alloc: Global,
    text: &mut Vec<u8>,
    failed: &[&str],
    holdings: &[Holding<'_, '_, '_>],
) -> Result<(), AllocError>
    ensures { OnOk result (text.new.items ≡ text.old.items
        ++ flat_map (holding_text (map (λ w. w.now) failed.now)) (holdings_seen holdings.now)) }
{
    for holding in holdings {
        push_holding(alloc, text, failed, holding)?;
    }
    Ok(())
}

/// The lines of a picture, with a mark on those that failed.
pub fn lines_of(
    alloc: Global,
    failed: &[&str],
    holdings: &[Holding<'_, '_, '_>],
) -> Result<Vec<u8>, AllocError>
    ensures { IfOk result (λ text. text.items ≡ sheet_text (map (λ w. w.now) failed.now)
        (holdings_seen holdings.now)) }
{
    let mut text = Vec::new(alloc);
    push_holdings(alloc, &mut text, failed, holdings)?;
    text.extend_from_slice(Buffer::new().format(holdings.len()).as_bytes())?;
    text.extend_from_slice(b" holders\n")?;
    Ok(text)
}
