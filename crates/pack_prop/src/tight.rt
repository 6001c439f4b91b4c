//! Packings in which there may be too little room in all.
//!
//! With the greatest and the second greatest room of each value it is told of each box of an item
//! whether a value of it takes too much room: whether there is room enough where the size is
//! greatest, where the bin is each that it may be, and where the room is least. What would take too
//! much is tried, and explained by `total`.
//!
//! Cost: the number of bins times that of items.
//!
//! So each size, bin and room is decided by sums over one row, and nothing is probed. What the
//! search finds to take too much isn't trusted: `explain_total` computes the rule with that part in
//! place of the box, so only 'nothing was found' has to be proved.
ghost use Rattle.std.specs.Prelude.{◌≡◌, ◌<◌, ◌≤ℤ◌, ◌<ℤ◌, ◌+ℤ◌, pos, true, false, IfOk, IfSome, IfNone, length};
ghost use Rattle.std.specs.List.{All};
ghost use Rattle.signed_clause.specs.Ranges.{IsValid};
ghost use Rattle.signed_clause.specs.Clauses.{box_of};
ghost use Rattle.ground_form.specs.declared.con.Con.TheVariants.{Pack};
ghost use Rattle.ground_form.specs.Bounds.{low_of, high_of};
ghost use Rattle.ground_form.specs.Meaning.{vars_of};
ghost use Rattle.ground_form.specs.WellMade.{IsWellMadeCon};
ghost use Rattle.rule_law.specs.Answers.{AreBoxesWithin, IsAnswer, IsPruning};
ghost use Rattle.box_rules.specs.Named.{AreItemsNamed, IsItemNamed};
ghost use Rattle.rule_law.specs.Reasons.{no_repeat};
ghost use Rattle.box_rules.specs.Refuted.{least_sizes};
ghost use Rattle.rule_law.specs.Repeats.{open_vars};
ghost use Rattle.pack_fit.specs.Packing.{AllFit};
ghost use Rattle.pack_prop.specs.Tight.{AreBestRooms, firsts, seconds, left_at, lefts, may_grow, all_grow, may_be_at, may_move, may_shrink, all_loose, HasEach};

use crate::best_rooms::{BestRooms, ValueRooms};
use crate::total::explain_total;
use crate::unplaceable::{Trial, clamped, part_of};
use crate::with_part::Tried;
use ground_form::Number;
use pack_fit::{Load, bins_of, ends_at, greater, greatest, is_single, least, may_be, sizes_of};
use rule_law::{Subject, probe};
use signed_clause::{Clause, IntSet};
use std::alloc::{AllocError, Global};

// ---- what is left

/// The greatest room of the value.
fn first_at(b: ValueRooms) -> Number
    ensures { result.value ≡ b.first.value }
{
    b.first
}

/// The greatest rooms, added up.
fn firsts_of(best_rooms: &[ValueRooms]) -> Load
    ensures { result.value ≡ firsts best_rooms.now }
{
    let mut sum = Load { value: 0 };
    for b in best_rooms {
        sum = sum.plus(first_at(*b));
    }
    sum
}

/// The second greatest room of the value.
fn second_at(b: ValueRooms) -> Number
    ensures { result.value ≡ b.second.value }
{
    b.second
}

/// The second greatest rooms, added up.
fn seconds_of(best_rooms: &[ValueRooms]) -> Load
    ensures { result.value ≡ seconds best_rooms.now }
{
    let mut sum = Load { value: 0 };
    for b in best_rooms {
        sum = sum.plus(second_at(*b));
    }
    sum
}

/// What is left of the greatest room, where that of the item counts as `room` only.
fn left_at(boxes: &[IntSet], i: (u32, u32, u32), b: ValueRooms, room: Number) -> Number
    requires { IsItemNamed i boxes.now }
    ensures { result.value ≡ left_at b room.value i boxes.now }
{
    if may_be(boxes, i.0, b.at) && b.first.value <= greatest(boxes, i.2).value {
        greater(b.second, room)
    } else {
        b.first
    }
}

/// What is left of all, added up.
fn lefts_of(boxes: &[IntSet], i: (u32, u32, u32), best_rooms: &[ValueRooms], room: Number) -> Load
    requires { IsItemNamed i boxes.now }
    ensures { result.value ≡ lefts best_rooms.now room.value i boxes.now }
{
    let mut sum = Load { value: 0 };
    for b in best_rooms {
        sum = sum.plus(left_at(boxes, i, *b, room));
    }
    sum
}

// ---- sizes

/// Whether the sum is at least the need with some more.
fn does_reach(sum: Load, need: Load, more: Load) -> bool
    ensures { result ≡ true → (need.value +ℤ more.value) ≤ℤ sum.value }
{
    match need.with(more) {
        Some(most) => most.is_at_most(sum),
        None => false,
    }
}

/// The sizes of the item that take too much of all room, where there are some.
fn excess_of_size(boxes: &[IntSet], i: (u32, u32, u32), need: Load, all: Load) -> Option<Trial>
    requires { IsItemNamed i boxes.now }
    ensures some { IfSome result (λ t. t.var < length boxes.now) }
    ensures none { IfNone result (may_grow need.value all.value i boxes.now ≡ true) }
{
    let low = least(boxes, i.1);
    if does_reach(all, need, Load::of(greatest(boxes, i.1)).less(low)) {
        return None;
    }
    let spare = all.value.saturating_sub(need.value);
    let most = spare.saturating_add(i128::from(low.value));
    Some(Trial {
        var: i.1,
        span: (clamped(most.saturating_add(1)), i64::MAX),
    })
}

/// The sizes of an item that take too much of all room, where there are some.
fn excess_of_sizes(
    items: &[(u32, u32, u32)],
    boxes: &[IntSet],
    need: Load,
    all: Load,
) -> Option<Trial>
    requires { AreItemsNamed items.now boxes.now }
    ensures some { IfSome result (λ t. t.var < length boxes.now) }
    ensures none { IfNone result (all_grow need.value all.value items.now boxes.now ≡ true) }
{
    for i in items {
        let found = excess_of_size(boxes, *i, need, all);
        if found.is_some() {
            return found;
        }
    }
    None
}

// ---- bins and rooms

/// Whether there is room enough where the bin of the item is that of `b`, and `sum` is left without
/// the item.
fn is_enough_at(boxes: &[IntSet], i: (u32, u32, u32), b: ValueRooms, sum: Load, need: Load) -> bool
    requires { IsItemNamed i boxes.now }
    ensures { result ≡ true → may_be_at need.value sum.value b i boxes.now ≡ true }
{
    if !may_be(boxes, i.0, b.at) {
        return true;
    }
    let left = left_at(boxes, i, b, Number { value: 0 });
    match sum.with(Load::of(b.first).less(left)) {
        Some(gained) => need.is_at_most(gained),
        None => false,
    }
}

/// A value of the item's bin at which it takes too much room, where there is one.
fn excess_of_bin(
    boxes: &[IntSet],
    i: (u32, u32, u32),
    best_rooms: &[ValueRooms],
    need: Load,
) -> Option<Trial>
    requires { IsItemNamed i boxes.now }
    ensures some { IfSome result (λ t. t.var < length boxes.now) }
    ensures none { IfNone result (may_move need.value best_rooms.now i boxes.now ≡ true) }
{
    if is_single(boxes, i.0) {
        return None;
    }
    let sum = lefts_of(boxes, i, best_rooms, Number { value: 0 });
    if need.is_at_most(sum) {
        return None;
    }
    for b in best_rooms {
        if !is_enough_at(boxes, i, *b, sum, need) {
            return Some(Trial {
                var: i.0,
                span: (b.at.value, b.at.value),
            });
        }
    }
    None
}

/// A number between two.
fn middle(low: Number, high: Number) -> Number
    requires { (low.value +ℤ pos 1) <ℤ high.value }
    ensures above { low.value <ℤ result.value }
    ensures below { result.value <ℤ high.value }
{
    let half = high.value.abs_diff(low.value) / 2;
    Number {
        value: low.value.saturating_add_unsigned(half),
    }
}

/// The greatest room of the item that is too little; `ends` are one that is too little and one that
/// isn't.
fn most_too_little(
    boxes: &[IntSet],
    i: (u32, u32, u32),
    best_rooms: &[ValueRooms],
    need: Load,
    ends: (Number, Number),
) -> Number
    requires item { IsItemNamed i boxes.now }
    requires order { ends.0.value ≤ℤ ends.1.value }
    ensures { ends.0.value ≤ℤ result.value }
{
    let mut low = ends.0;
    let mut high = ends.1;
    while i128::from(low.value) + 1 < i128::from(high.value) {
        let at = middle(low, high);
        if need.is_at_most(lefts_of(boxes, i, best_rooms, at)) {
            high = at;
        } else {
            low = at;
        }
    }
    low
}

/// The rooms of the item that are too little, where there are some.
fn excess_of_room(
    boxes: &[IntSet],
    i: (u32, u32, u32),
    best_rooms: &[ValueRooms],
    need: Load,
) -> Option<Trial>
    requires item { IsItemNamed i boxes.now }
    ensures some { IfSome result (λ t. t.var < length boxes.now) }
    ensures none { IfNone result (may_shrink need.value best_rooms.now i boxes.now ≡ true) }
{
    let ends = ends_at(boxes, i.2);
    if is_single(boxes, i.2) || need.is_at_most(lefts_of(boxes, i, best_rooms, ends.0)) {
        return None;
    }
    let most = most_too_little(boxes, i, best_rooms, need, ends);
    Some(Trial {
        var: i.2,
        span: (i64::MIN, most.value),
    })
}

/// What takes too much room of the bin or the room of an item, where something does.
fn excess_of_bins(
    items: &[(u32, u32, u32)],
    boxes: &[IntSet],
    best_rooms: &[ValueRooms],
    need: Load,
) -> Option<Trial>
    requires { AreItemsNamed items.now boxes.now }
    ensures some { IfSome result (λ t. t.var < length boxes.now) }
    ensures none { IfNone result (all_loose need.value best_rooms.now items.now boxes.now ≡ true) }
{
    for i in items {
        let bin = excess_of_bin(boxes, *i, best_rooms, need);
        if bin.is_some() {
            return bin;
        }
        let room = excess_of_room(boxes, *i, best_rooms, need);
        if room.is_some() {
            return room;
        }
    }
    None
}

// ---- all boxes

/// What takes too much room, where something does: all of a bin's box, where the least sizes do.
/// Where the second greatest rooms are enough, no bin or room takes too much.
#[tactic(auto, using(crate::proofs::TightRows::sure_loose))]
fn excess(
    items: &[(u32, u32, u32)],
    boxes: &[IntSet],
    best_rooms: &[ValueRooms],
    head: (u32, u32, u32),
    first: Number,
) -> Option<Trial>
    requires items { AreItemsNamed items.now boxes.now }
    requires head { IsItemNamed head boxes.now }
    requires rooms { AreBestRooms first.value best_rooms.now items.now boxes.now }
    ensures some { IfSome result (λ t. t.var < length boxes.now) }
    ensures enough { IfNone result (least_sizes items.now boxes.now ≤ℤ firsts best_rooms.now) }
    ensures grow { IfNone result (all_grow (least_sizes items.now boxes.now) (firsts best_rooms.now)
        items.now boxes.now ≡ true) }
    ensures loose { IfNone result (all_loose (least_sizes items.now boxes.now) best_rooms.now
        items.now boxes.now ≡ true) }
{
    let need = sizes_of(items, boxes);
    let all = firsts_of(best_rooms);
    if !need.is_at_most(all) {
        return Some(Trial {
            var: head.0,
            span: (i64::MIN, i64::MAX),
        });
    }
    let size = excess_of_sizes(items, boxes, need, all);
    if size.is_some() {
        return size;
    }
    if need.is_at_most(seconds_of(best_rooms)) {
        return None;
    }
    excess_of_bins(items, boxes, best_rooms, need)
}

// ---- what is answered

/// The clause of what takes too much room, where one is found.
fn prune_excess(
    alloc: Global,
    subject: Subject<'_>,
    items: &[(u32, u32, u32)],
    trial: Trial,
) -> Result<Option<Clause>, AllocError>
    requires con { subject.con.now ≡ Pack items.now }
    requires items { AreItemsNamed items.now subject.boxes.now }
    requires var { trial.var < length subject.boxes.now }
    requires sizes { All (λ i. pos 0 ≤ℤ low_of (box_of subject.domains.now i.1)) items.now }
    requires boxes { AreBoxesWithin subject.domains.now subject.boxes.now }
    requires sets { All (λ d. IsValid d) subject.domains.now }
    ensures { IfOk result (λ r. IfSome r (λ c. IsPruning subject.entry.con.now
        subject.entry.domains.now subject.entry.boxes.now c)) }
{
    if trial.span.1 < trial.span.0 {
        return Ok(None);
    }
    let part = part_of(alloc, subject.boxes, trial.var, trial.span)?;
    if part.is_empty() {
        return Ok(None);
    }
    let tried = Tried {
        items,
        domains: subject.domains,
        boxes: subject.boxes,
        x: trial.var,
        part: &part,
    };
    explain_total(alloc, subject.con, tried)
}

/// What something that takes too much room answers.
#[tactic(auto, using(crate::proofs::Slack::pack_sizes))]
fn prune_or_probe(
    alloc: Global,
    subject: Subject<'_>,
    items: &[(u32, u32, u32)],
    trial: Trial,
) -> Result<Option<Clause>, AllocError>
    requires con { subject.con.now ≡ Pack items.now }
    requires items { AreItemsNamed items.now subject.boxes.now }
    requires var { trial.var < length subject.boxes.now }
    requires well_made { IsWellMadeCon subject.domains.now subject.con.now }
    requires boxes { AreBoxesWithin subject.domains.now subject.boxes.now }
    requires sets { All (λ d. IsValid d) subject.domains.now }
    ensures { IfOk result (λ a. IsAnswer subject.entry.con.now subject.entry.domains.now
        subject.entry.boxes.now a) }
{
    let pruned = prune_excess(alloc, subject, items, trial)?;
    if pruned.is_some() {
        return Ok(pruned);
    }
    probe(subject.con, subject.domains, subject.boxes, alloc)
}

/// What takes too much room of the items, where something does.
pub fn find_excess(
    best_rooms: &mut BestRooms,
    items: &[(u32, u32, u32)],
    boxes: &[IntSet],
    head: (u32, u32, u32),
) -> Result<Option<Trial>, AllocError>
    requires items { AreItemsNamed items.now boxes.now }
    requires head { IsItemNamed head boxes.now }
    requires sets { All (λ s. IsValid s) boxes.now }
    ensures some { IfOk result (λ r. IfSome r (λ t. t.var < length boxes.now)) }
    ensures none { IfOk result (λ r. IfNone r (HasEach items.now boxes.now)) }
{
    let bins = bins_of(items, boxes, head);
    let rows = best_rooms.find(items, boxes, bins.0, bins.1)?;
    Ok(excess(items, boxes, rows, head, bins.0))
}

/// What items answer of which each fits wherever it may be, and no open variable stands twice.
///
/// # Errors
/// Want of memory.
#[tactic(auto, using(crate::proofs::Slack::tight_quiet))]
pub fn prune_tight(
    alloc: Global,
    best_rooms: &mut BestRooms,
    subject: Subject<'_>,
    items: &[(u32, u32, u32)],
) -> Result<Option<Clause>, AllocError>
    requires con { subject.con.now ≡ Pack items.now }
    requires items { AreItemsNamed items.now subject.boxes.now }
    requires well_made { IsWellMadeCon subject.domains.now subject.con.now }
    requires boxes { AreBoxesWithin subject.domains.now subject.boxes.now }
    requires sets { All (λ d. IsValid d) subject.domains.now }
    requires fit { AllFit items.now subject.boxes.now }
    requires once { no_repeat (open_vars (vars_of subject.con.now) subject.boxes.now) ≡ true }
    ensures { IfOk result (λ a. IsAnswer subject.entry.con.now subject.entry.domains.now
        subject.entry.boxes.now a) }
{
    if items.is_empty() {
        return probe(subject.con, subject.domains, subject.boxes, alloc);
    }
    let excess = find_excess(best_rooms, items, subject.boxes, items[0])?;
    match excess {
        None => Ok(None),
        Some(trial) => prune_or_probe(alloc, subject, items, trial),
    }
}
