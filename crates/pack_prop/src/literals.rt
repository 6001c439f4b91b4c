//! What explanations say of an item's room and bin.
ghost use Rattle.std.specs.Prelude.{◌≡◌, ◌<◌, ◌≤ℤ◌, IfOk, OnOk, length, slice_index_or};
ghost use Rattle.signed_clause.specs.SetAlgebra.{less};
ghost use Rattle.signed_clause.specs.Clauses.{box_of};
ghost use Rattle.ground_form.specs.Bounds.{high_of};
ghost use Rattle.box_view.specs.Views.{cut};
ghost use Rattle.pack_prop.specs.Collected.{said, AreCollected, SaysMore};
ghost use Rattle.pack_prop.specs.Sources.{with_part, IsPart};

use crate::collected::{above, say};
use crate::with_part::{Tried, box_at, greatest};
use ground_form::Number;
use signed_clause::IntSet;
use std::alloc::AllocError;

/// The domain of `y`.
pub fn domain_at<'a>(domains: &'a [IntSet], y: u32) -> &'a IntSet
    requires { y < length domains.now }
    ensures { result.now ≡ box_of domains.now y }
{
    &domains[y as usize]
}

/// Says of an item's room that it is at most the greatest value of its box, and gives that value.
pub fn say_room(
    literals: &mut Vec<(u32, IntSet)>,
    tried: Tried<'_>,
    k: usize,
) -> Result<Number, AllocError>
    requires ground { IsPart tried.domains.now tried.boxes.now tried.items.now tried.x
        tried.part.now }
    requires there { k < length tried.items.now }
    requires literals { AreCollected (with_part tried.boxes.now tried.x tried.part.now)
        literals.old.items }
    ensures literals { IfOk result (λ h. AreCollected
        (with_part tried.entry.boxes.now tried.entry.x tried.entry.part.now) literals.new.items) }
    ensures more { IfOk result (λ h. SaysMore literals.old.items literals.new.items) }
    ensures high { IfOk result (λ h. h.value
        ≡ high_of (box_of (with_part tried.entry.boxes.now tried.entry.x tried.entry.part.now)
        (slice_index_or tried.entry.items.now k (0, 0, 0)).2)) }
    ensures upto { IfOk result (λ h. high_of (box_of (cut tried.entry.domains.now
        literals.new.items) (slice_index_or tried.entry.items.now k (0, 0, 0)).2) ≤ℤ h.value) }
{
    let alloc = *literals.allocator();
    let y = tried.items[k].2;
    let high = greatest(tried, y);
    let over = above(alloc, domain_at(tried.domains, y), high)?;
    say(literals, y, over)?;
    Ok(high)
}

/// Says of an item's bin that it is in its box.
pub fn say_bin(
    literals: &mut Vec<(u32, IntSet)>,
    tried: Tried<'_>,
    k: usize,
) -> Result<(), AllocError>
    requires ground { IsPart tried.domains.now tried.boxes.now tried.items.now tried.x
        tried.part.now }
    requires there { k < length tried.items.now }
    ensures { OnOk result (literals.new.items
        ≡ said (slice_index_or tried.entry.items.now k (0, 0, 0)).0
        (less (box_of tried.entry.domains.now (slice_index_or tried.entry.items.now k (0, 0, 0)).0)
        (box_of (with_part tried.entry.boxes.now tried.entry.x tried.entry.part.now)
        (slice_index_or tried.entry.items.now k (0, 0, 0)).0)) literals.old.items) }
{
    let y = tried.items[k].0;
    let outside = domain_at(tried.domains, y).less(box_at(tried, y))?;
    say(literals, y, outside)
}
