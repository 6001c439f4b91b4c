//! Bins that would be overfull, and why.
//!
//! An item that doesn't fit at a value gives a part of some box: the value of its bin, the greater
//! ones of its size, or the smaller ones of its room. With that part in the place of the box the
//! value is overfull. The literals say of the room that is too small that it is at most what its
//! box has, of the bins that make the load that they aren't the value, and of their sizes that they
//! are at least what their boxes have. Items that the load has to spare are left out, the first
//! ones first.
ghost use Rattle.std.specs.Prelude.{◌≡◌, ◌<◌, ◌+◌, ◌≤ℤ◌, ◌^◌, ◌-◌, ◌+ℤ◌, true, cond, pos, IfOk, IfSome, int_lt, length, ◌&&◌, false, IfNone};
ghost use Rattle.signed_clause.specs.Clauses.{box_of};
ghost use Rattle.ground_form.specs.declared.con.Con.TheVariants.{Pack};
ghost use Rattle.ground_form.specs.Bounds.{low_of, high_of};
ghost use Rattle.rule_law.specs.Answers.{IsPruning};
ghost use Rattle.box_rules.specs.Named.{AreItemsNamed, IsItemNamed};
ghost use Rattle.box_rules.specs.Refuted.{fixed_at, fixed_load};
ghost use Rattle.pack_prop.specs.LoadSteps.{AreOverfull};
ghost use Rattle.pack_prop.specs.Sources.{with_part, IsPart, IsOverfilled, some_over};

use crate::collected::{below, say};
use crate::literals::{domain_at, say_bin, say_room};
use crate::total::{difference, spare_of};
use crate::with_part::{Tried, greatest, is_fixed, least};
use ground_form::{Con, Number};
use pack_fit::Load;
use rule_law::pruning;
use signed_clause::{Clause, IntSet};
use std::alloc::{AllocError, Global};

/// The load with the item's least size, where its bin is fixed at the value.
fn with_load(load: Load, i: (u32, u32, u32), tried: Tried<'_>, at: Number) -> Load
    requires var { tried.x < length tried.boxes.now }
    requires item { IsItemNamed i tried.boxes.now }
    requires low { pos 0 ≤ℤ (load.value +ℤ pos (2 ^ 127 - 2 ^ 63)) }
    requires high { load.value ≤ℤ pos (2 ^ 127 - 2 ^ 63) }
    ensures load { result.value ≡ cond (fixed_at (box_of
        (with_part tried.entry.boxes.now tried.entry.x tried.entry.part.now) i.0) at.value)
        (load.value +ℤ low_of (box_of
        (with_part tried.entry.boxes.now tried.entry.x tried.entry.part.now) i.1)) load.value }
    ensures low { load.value ≤ℤ (result.value +ℤ pos (2 ^ 63)) }
    ensures high { result.value ≤ℤ (load.value +ℤ pos (2 ^ 63 - 1)) }
{
    if is_fixed(tried, i.0, at) {
        load.plus(least(tried, i.1))
    } else {
        load
    }
}

/// The least sizes of the items whose bin is fixed at the value, added up.
fn load_at(tried: Tried<'_>, at: Number) -> Load
    requires var { tried.x < length tried.boxes.now }
    requires items { AreItemsNamed tried.items.now tried.boxes.now }
    ensures { result.value ≡ fixed_load at.value tried.entry.items.now
        (with_part tried.entry.boxes.now tried.entry.x tried.entry.part.now) }
{
    let mut load = Load { value: 0 };
    for i in tried.items {
        load = with_load(load, *i, tried, at);
    }
    load
}

/// Whether the item is fixed at the value, and the load there is more than its greatest room.
fn is_over(i: (u32, u32, u32), tried: Tried<'_>, at: Number, load: Load) -> bool
    requires var { tried.x < length tried.boxes.now }
    requires item { IsItemNamed i tried.boxes.now }
    ensures { result ≡ (fixed_at (box_of
        (with_part tried.entry.boxes.now tried.entry.x tried.entry.part.now) i.0) at.value
        && int_lt (high_of (box_of
        (with_part tried.entry.boxes.now tried.entry.x tried.entry.part.now) i.2)) load.value) }
{
    is_fixed(tried, i.0, at) && !load.is_upto(greatest(tried, i.2))
}

/// The first item at whose bin, the value, the load is more than its greatest room.
pub fn overfilled(tried: Tried<'_>, at: Number) -> Option<usize>
    requires var { tried.x < length tried.boxes.now }
    requires items { AreItemsNamed tried.items.now tried.boxes.now }
    ensures some { IfSome result (λ k. IsOverfilled at.value tried.entry.items.now
        (with_part tried.entry.boxes.now tried.entry.x tried.entry.part.now) k) }
    ensures none { IfNone result (some_over at.value (fixed_load at.value tried.entry.items.now
        (with_part tried.entry.boxes.now tried.entry.x tried.entry.part.now)) tried.entry.items.now
        (with_part tried.entry.boxes.now tried.entry.x tried.entry.part.now) ≡ false) }
{
    let load = load_at(tried, at);
    let mut k = 0;
    while k < tried.items.len() {
        if is_over(tried.items[k], tried, at, load) {
            return Some(k);
        }
        k += 1;
    }
    None
}

/// Whether item `m` is left out: its least size is to spare, and it isn't the one whose room is too
/// small.
fn is_left_out(m: usize, k: usize, low: Number, spare: Number) -> bool
    ensures { result ≡ true → low.value ≤ℤ spare.value }
{
    m != k && low.value <= spare.value
}

/// Says what has to be said of item `m`, and gives what is left to spare: nothing where its bin
/// isn't fixed at the value, or where it is left out. The room of item `k` is too small.
fn say_item(
    literals: &mut Vec<(u32, IntSet)>,
    tried: Tried<'_>,
    m: usize,
    k: usize,
    at: Number,
    spare: Number,
) -> Result<Number, AllocError>
    requires ground { IsPart tried.domains.now tried.boxes.now tried.items.now tried.x
        tried.part.now }
    requires there { m < length tried.items.now }
    requires so_far { AreOverfull at.value tried.items.now tried.domains.now
        (with_part tried.boxes.now tried.x tried.part.now) m spare.value literals.old.items }
    ensures { IfOk result (λ left. AreOverfull at.value tried.entry.items.now
        tried.entry.domains.now (with_part tried.entry.boxes.now tried.entry.x tried.entry.part.now)
        (m + 1) left.value literals.new.items) }
{
    let alloc = *literals.allocator();
    let i = tried.items[m];
    if !is_fixed(tried, i.0, at) {
        return Ok(spare);
    }
    let low = least(tried, i.1);
    if is_left_out(m, k, low, spare) {
        return Ok(difference(spare, low));
    }
    say_bin(literals, tried, m)?;
    let under = below(alloc, domain_at(tried.domains, i.1), low)?;
    say(literals, i.1, under)?;
    Ok(spare)
}

/// Says what has to be said of the items, and gives what is left to spare. The room of item `k` is
/// too small.
fn say_load(
    literals: &mut Vec<(u32, IntSet)>,
    tried: Tried<'_>,
    k: usize,
    at: Number,
    spare: Number,
) -> Result<Number, AllocError>
    requires ground { IsPart tried.domains.now tried.boxes.now tried.items.now tried.x
        tried.part.now }
    requires so_far { AreOverfull at.value tried.items.now tried.domains.now
        (with_part tried.boxes.now tried.x tried.part.now) 0 spare.value literals.old.items }
    ensures { IfOk result (λ left. AreOverfull at.value tried.entry.items.now
        tried.entry.domains.now (with_part tried.entry.boxes.now tried.entry.x tried.entry.part.now)
        (length tried.entry.items.now) left.value literals.new.items) }
{
    let mut left = spare;
    for m in 0..tried.items.len() {
        left = say_item(literals, tried, m, k, at, left)?;
    }
    Ok(left)
}

/// The clause of a part of a box that makes item `k` overfull.
///
/// # Errors
/// Want of memory.
pub fn explain_part(
    alloc: Global,
    con: &Con,
    tried: Tried<'_>,
    at: Number,
    k: usize,
) -> Result<Clause, AllocError>
    requires con { con.now ≡ Pack tried.items.now }
    requires ground { IsPart tried.domains.now tried.boxes.now tried.items.now tried.x
        tried.part.now }
    requires over { IsOverfilled at.value tried.items.now
        (with_part tried.boxes.now tried.x tried.part.now) k }
    ensures { IfOk result (λ c. IsPruning con.now tried.entry.domains.now tried.entry.boxes.now c) }
{
    let load = load_at(tried, at);
    let mut literals = Vec::new(alloc);
    let room = say_room(&mut literals, tried, k)?;
    say_bin(&mut literals, tried, k)?;
    let spare = spare_of(load, Load::of(room));
    say_load(&mut literals, tried, k, at, spare)?;
    Ok(pruning(con, tried.domains, tried.boxes, literals))
}
