//! Boxes with a part of one of them in its place.
ghost use Rattle.std.specs.Prelude.{◌≡◌, ◌<◌, length};
ghost use Rattle.signed_clause.specs.Clauses.{box_of};
ghost use Rattle.ground_form.specs.Bounds.{low_of, high_of};
ghost use Rattle.box_rules.specs.Refuted.{fixed_at};
ghost use Rattle.pack_prop.specs.Sources.{with_part};

use ground_form::{Number, ends_of};
use signed_clause::IntSet;

/// Items to be packed, and boxes of which one is tried with a part of it in its place.
#[derive(Clone, Copy)]
pub struct Tried<'a> {
    /// Of each item its bin, its size and its room.
    pub items: &'a [(u32, u32, u32)],
    /// The domains of all variables.
    pub domains: &'a [IntSet],
    /// The boxes of all variables.
    pub boxes: &'a [IntSet],
    /// The variable whose box is replaced.
    pub x: u32,
    /// The part of its box.
    pub part: &'a IntSet,
}

/// The box of `y`, with the part in place of that of `x`.
#[tactic(auto, using(crate::proofs::OverReason::part_box))]
pub fn box_at<'a>(tried: Tried<'a>, y: u32) -> &'a IntSet
    requires var { tried.x < length tried.boxes.now }
    requires named { y < length tried.boxes.now }
    ensures { result.now ≡ box_of
        (with_part tried.entry.boxes.now tried.entry.x tried.entry.part.now) y }
{
    if y == tried.x {
        tried.part
    } else {
        &tried.boxes[y as usize]
    }
}

/// Whether the box of `y` is the value alone.
pub fn is_fixed(tried: Tried<'_>, y: u32, at: Number) -> bool
    requires var { tried.x < length tried.boxes.now }
    requires named { y < length tried.boxes.now }
    ensures { result ≡ fixed_at (box_of
        (with_part tried.entry.boxes.now tried.entry.x tried.entry.part.now) y) at.value }
{
    let set = box_at(tried, y);
    let ends = ends_of(set);
    !set.is_empty() && (ends.0 == at.value && ends.1 == at.value)
}

/// The least value of the box of `y`.
pub fn least(tried: Tried<'_>, y: u32) -> Number
    requires var { tried.x < length tried.boxes.now }
    requires named { y < length tried.boxes.now }
    ensures { result.value ≡ low_of (box_of
        (with_part tried.entry.boxes.now tried.entry.x tried.entry.part.now) y) }
{
    Number {
        value: ends_of(box_at(tried, y)).0,
    }
}

/// The greatest value of the box of `y`.
pub fn greatest(tried: Tried<'_>, y: u32) -> Number
    requires var { tried.x < length tried.boxes.now }
    requires named { y < length tried.boxes.now }
    ensures { result.value ≡ high_of (box_of
        (with_part tried.entry.boxes.now tried.entry.x tried.entry.part.now) y) }
{
    Number {
        value: ends_of(box_at(tried, y)).1,
    }
}
