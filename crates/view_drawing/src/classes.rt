//! The classes of guests, and their colours.
ghost use Rattle.std.specs.Prelude.{◌≡◌, [], map, option_map, IfOk, OnOk};
ghost use Rattle.std.specs.List.{list_any};
ghost use Rattle.view_drawing.specs.Classes.{with_class, with_guests, with_holdings, class_index, palette, colour_of};
ghost use Rattle.view_picture.specs.PictureViews.{guest_seen, holdings_seen};

use crate::names::is_among;
use std::alloc::{AllocError, Global};
use view_picture::{Guest, Holding};

/// How many classes have a colour of their own.
const COLOURS: usize = 8;

/// The index of a class, or their number where it is none of them.
fn class_index(classes: &[&str], class: &str) -> usize
    ensures { result ≡ class_index (map (λ w. w.now) classes.now) class.now }
{
    for (index, known) in classes.iter().enumerate() {
        if *known == class {
            return index;
        }
    }
    classes.len()
}

/// Adds a class that isn't there, while there are colours.
#[tactic(auto, using(crate::proofs::DrawingLaws::words_counted))]
fn add_class<'a>(classes: &mut Vec<&'a str>, class: Option<&'a str>) -> Result<(), AllocError>
    ensures { OnOk result (map (λ w. w.now) classes.new.items
        ≡ with_class (map (λ w. w.now) classes.old.items) (option_map (λ w. w.now) class.entry)) }
{
    match class {
        None => Ok(()),
        Some(name) => {
            if classes.len() < COLOURS && !is_among(classes, name.as_bytes()) {
                classes.push(name)?;
            }
            Ok(())
        }
    }
}

/// Adds the classes of guests.
fn add_guests<'a>(classes: &mut Vec<&'a str>, guests: &[Guest<'_, 'a>]) -> Result<(), AllocError>
    ensures { OnOk result (map (λ w. w.now) classes.new.items
        ≡ with_guests (map (λ w. w.now) classes.old.items) (map guest_seen guests.now)) }
{
    for guest in guests {
        add_class(classes, guest.class)?;
    }
    Ok(())
}

/// The classes of all guests that have a colour of their own, as they are met.
pub(crate) fn classes_of<'a>(
    alloc: Global,
    holdings: &[Holding<'_, '_, 'a>],
) -> Result<Vec<&'a str>, AllocError>
    ensures { IfOk result (λ classes. map (λ w. w.now) classes.items
        ≡ with_holdings [] (holdings_seen holdings.now)) }
{
    let mut classes = Vec::new(alloc);
    for holding in holdings {
        add_guests(&mut classes, &holding.guests)?;
    }
    Ok(classes)
}

/// The colour of the class of an index, and that of all others.
pub(crate) fn palette(index: usize) -> &'static str
    ensures { result.now ≡ palette index }
{
    match index {
        0 => "#bfdbfe",
        1 => "#bbf7d0",
        2 => "#fde68a",
        3 => "#fbcfe8",
        4 => "#ddd6fe",
        5 => "#a5f3fc",
        6 => "#fed7aa",
        7 => "#d9f99d",
        _ => "#e5e7eb",
    }
}

/// The colour of a guest, by its class.
pub(crate) fn colour_of(classes: &[&str], class: Option<&str>) -> &'static str
    ensures { result.now
        ≡ colour_of (map (λ w. w.now) classes.now) (option_map (λ w. w.now) class.entry) }
{
    match class {
        None => "#e5e7eb",
        Some(name) => palette(class_index(classes, name)),
    }
}
