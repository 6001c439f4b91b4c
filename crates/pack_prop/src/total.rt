//! Why all sizes are more than all room.
//!
//! Of a room the literals say that it is at most what its box has; of a size that it is at least
//! that; of a bin that it is none of the values of its domain whose best room is less than the
//! item's. What the sizes have more than is needed is spent: a bin needs no literal where its
//! domain's values may have the item's room as well, and then they are counted with it; and a size
//! may be less.
//!
//! The first bins and then the first sizes are let go.
ghost use Rattle.std.specs.Prelude.{◌≡◌, ◌<◌, ◌≤◌, ◌+◌, ◌≤ℤ◌, ◌<ℤ◌, ◌+ℤ◌, ◌-ℤ◌, ℤ, pos, IfOk, IfSome, length};
ghost use Rattle.std.specs.List.{All};
ghost use Rattle.ground_form.specs.declared.con.Con.TheVariants.{Pack};
ghost use Rattle.ground_form.specs.Bounds.{last_bin};
ghost use Rattle.rule_law.specs.Answers.{IsPruning};
ghost use Rattle.box_rules.specs.Named.{AreItemsNamed};
ghost use Rattle.box_rules.specs.Refuted.{least_sizes};
ghost use Rattle.pack_prop.specs.Sources.{with_part, IsPart};
ghost use Rattle.pack_prop.specs.TotalSteps.{AreTotalled, AreWeighed, IsWindow};

use crate::collected::{below, say};
use crate::literals::{domain_at, say_room};
use crate::room_row::{best_row, raise, short_values, sum_of};
use crate::with_part::{self, Tried};
use ground_form::{Con, LAST_BIN, Number};
use pack_fit::{Load, first_bin, last_bin, least};
use rule_law::pruning;
use signed_clause::{Clause, IntSet};
use std::alloc::{AllocError, Global};

/// How many values there are from the first to the last.
fn count_of(first: Number, last: Number) -> usize
    requires low { pos 0 ≤ℤ first.value }
    requires order { first.value ≤ℤ last.value }
    requires high { last.value ≤ℤ pos last_bin }
    ensures { first.value +ℤ pos result ≡ last.value +ℤ pos 1 }
{
    (last.value - first.value) as usize + 1
}

/// The first value that a bin has in its domain, and how many there are up to the last; None where
/// they aren't those of a well made problem.
fn window(items: &[(u32, u32, u32)], domains: &[IntSet]) -> Option<(Number, usize)>
    requires { AreItemsNamed items.now domains.now }
    ensures { IfSome result (λ w. IsWindow w.0.value w.1 items.now domains.now) }
{
    let first = first_bin(items, domains, Number { value: LAST_BIN });
    let last = last_bin(items, domains, Number { value: 0 });
    if first.value < 0 || last.value < first.value || LAST_BIN < last.value {
        return None;
    }
    Some((first, count_of(first, last)))
}

/// All least sizes, added up.
fn sizes_of(tried: Tried<'_>) -> Load
    requires var { tried.x < length tried.boxes.now }
    requires items { AreItemsNamed tried.items.now tried.boxes.now }
    ensures { result.value ≡ least_sizes tried.entry.items.now
        (with_part tried.entry.boxes.now tried.entry.x tried.entry.part.now) }
{
    let mut sum = Load { value: 0 };
    for i in tried.items {
        sum = sum.plus(with_part::least(tried, i.1));
    }
    sum
}

/// Says what has to be said of the bin and the room of item `k`, and gives the row with which it is
/// counted.
fn seat(
    literals: &mut Vec<(u32, IntSet)>,
    tried: Tried<'_>,
    k: usize,
    row: Vec<(i64, i64)>,
    sizes: Load,
) -> Result<Vec<(i64, i64)>, AllocError>
    requires ground { IsPart tried.domains.now tried.boxes.now tried.items.now tried.x
        tried.part.now }
    requires there { k < length tried.items.now }
    requires sizes { sizes.value ≡ least_sizes tried.items.now
        (with_part tried.boxes.now tried.x tried.part.now) }
    requires so_far { AreTotalled tried.items.now tried.domains.now
        (with_part tried.boxes.now tried.x tried.part.now) k 0 row.items (pos 0)
        literals.old.items }
    ensures { IfOk result (λ r. AreTotalled tried.entry.items.now tried.entry.domains.now
        (with_part tried.entry.boxes.now tried.entry.x tried.entry.part.now) (k + 1) 0 r.items
        (pos 0) literals.new.items) }
{
    let alloc = *literals.allocator();
    let y = tried.items[k].0;
    let high = say_room(literals, tried, k)?;
    let more = raise(alloc, row.as_slice(), domain_at(tried.domains, y), high)?;
    if !sizes.is_at_most(sum_of(more.as_slice())) {
        return Ok(more);
    }
    let short = short_values(alloc, row.as_slice(), domain_at(tried.domains, y), high)?;
    say(literals, y, short)?;
    Ok(row)
}

/// Says what has to be said of the bins and rooms, and gives the row with which they are counted.
fn seat_all(
    literals: &mut Vec<(u32, IntSet)>,
    tried: Tried<'_>,
    row: Vec<(i64, i64)>,
    sizes: Load,
) -> Result<Vec<(i64, i64)>, AllocError>
    requires ground { IsPart tried.domains.now tried.boxes.now tried.items.now tried.x
        tried.part.now }
    requires sizes { sizes.value ≡ least_sizes tried.items.now
        (with_part tried.boxes.now tried.x tried.part.now) }
    requires so_far { AreTotalled tried.items.now tried.domains.now
        (with_part tried.boxes.now tried.x tried.part.now) 0 0 row.items (pos 0)
        literals.old.items }
    ensures { IfOk result (λ r. AreTotalled tried.entry.items.now tried.entry.domains.now
        (with_part tried.entry.boxes.now tried.entry.x tried.entry.part.now)
        (length tried.entry.items.now) 0 r.items (pos 0) literals.new.items) }
{
    let mut seated = row;
    for k in 0..tried.items.len() {
        seated = seat(literals, tried, k, seated, sizes)?;
    }
    Ok(seated)
}

/// What the first number has above the second.
pub fn difference(a: Number, b: Number) -> Number
    requires low { pos 0 ≤ℤ b.value }
    requires order { b.value ≤ℤ a.value }
    ensures { result.value ≡ a.value -ℤ b.value }
{
    Number {
        value: a.value - b.value,
    }
}

/// By how much more the sizes are above the rooms than by one, as far as 64 bits tell.
pub fn spare_of(sizes: Load, rooms: Load) -> Number
    requires { rooms.value <ℤ sizes.value }
    ensures some { pos 0 ≤ℤ result.value }
    ensures fits { ((rooms.value +ℤ pos 1) +ℤ result.value) ≤ℤ sizes.value }
{
    match sizes.value.checked_sub(rooms.value) {
        Some(more) => Number {
            value: i64::try_from(more - 1).unwrap_or(i64::MAX),
        },
        None => Number { value: 0 },
    }
}

/// Says what has to be said of the size of item `m`, and gives what is left to spare.
fn weigh(
    literals: &mut Vec<(u32, IntSet)>,
    tried: Tried<'_>,
    m: usize,
    spare: Number,
) -> Result<Number, AllocError>
    requires ground { IsPart tried.domains.now tried.boxes.now tried.items.now tried.x
        tried.part.now }
    requires there { m < length tried.items.now }
    requires so_far { AreWeighed tried.items.now tried.domains.now
        (with_part tried.boxes.now tried.x tried.part.now) m spare.value literals.old.items }
    ensures { IfOk result (λ left. AreWeighed tried.entry.items.now tried.entry.domains.now
        (with_part tried.entry.boxes.now tried.entry.x tried.entry.part.now) (m + 1) left.value
        literals.new.items) }
{
    let alloc = *literals.allocator();
    let y = tried.items[m].1;
    let low = with_part::least(tried, y);
    let fall = difference(low, least(tried.domains, y));
    if fall.value <= spare.value {
        return Ok(difference(spare, fall));
    }
    let under = below(alloc, domain_at(tried.domains, y), difference(low, spare))?;
    say(literals, y, under)?;
    Ok(Number { value: 0 })
}

/// Says what has to be said of the sizes, and gives what is left to spare.
fn weigh_all(
    literals: &mut Vec<(u32, IntSet)>,
    tried: Tried<'_>,
    spare: Number,
) -> Result<Number, AllocError>
    requires ground { IsPart tried.domains.now tried.boxes.now tried.items.now tried.x
        tried.part.now }
    requires so_far { AreWeighed tried.items.now tried.domains.now
        (with_part tried.boxes.now tried.x tried.part.now) 0 spare.value literals.old.items }
    ensures { IfOk result (λ left. AreWeighed tried.entry.items.now tried.entry.domains.now
        (with_part tried.entry.boxes.now tried.entry.x tried.entry.part.now)
        (length tried.entry.items.now) left.value literals.new.items) }
{
    let mut left = spare;
    for m in 0..tried.items.len() {
        left = weigh(literals, tried, m, left)?;
    }
    Ok(left)
}

/// The clause of a part of a box with which all sizes are more than all room; None where they
/// aren't.
///
/// # Errors
/// Want of memory.
pub fn explain_total(
    alloc: Global,
    con: &Con,
    tried: Tried<'_>,
) -> Result<Option<Clause>, AllocError>
    requires con { con.now ≡ Pack tried.items.now }
    requires ground { IsPart tried.domains.now tried.boxes.now tried.items.now tried.x
        tried.part.now }
    ensures { IfOk result (λ r. IfSome r (λ c. IsPruning con.now tried.entry.domains.now
        tried.entry.boxes.now c)) }
{
    let Some((first, n)) = window(tried.items, tried.domains) else {
        return Ok(None);
    };
    let best = best_row(alloc, tried, first, n)?;
    let sizes = sizes_of(tried);
    if sizes.is_at_most(sum_of(best.as_slice())) {
        return Ok(None);
    }
    let mut literals = Vec::new(alloc);
    let row = seat_all(&mut literals, tried, best, sizes)?;
    let spare = spare_of(sizes, sum_of(row.as_slice()));
    weigh_all(&mut literals, tried, spare)?;
    Ok(Some(pruning(con, tried.domains, tried.boxes, literals)))
}
