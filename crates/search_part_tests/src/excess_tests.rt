//! That what is found to take too much room of a packing does so, which no clause says. Where it
//! didn't, the packing would be probed, so no answer of `prune` tells.
ghost use Rattle.std.specs.Prelude.{◌≡◌};
ghost use Rattle.ground_form.specs.declared.con.Con.TheVariants.{Pack};
ghost use Rattle.ground_form.specs.WellMade.{IsWellMadeCon};
ghost use Rattle.rule_law.specs.Answers.{AreBoxesWithin};

use ground_form::{Con, PackItems};
use pack_prop::{BestRooms, find_excess, part_of};
use rule_law::are_boxes_within;
use signed_clause::IntSet;
use std::alloc::{AllocError, Global};
use test_well_made::is_constraint_well_made;

/// The values 0 to 3 whose bits are set in the number.
fn bits_of(alloc: Global, n: u32) -> Result<IntSet, AllocError> {
    let mut rest = n;
    let mut set = IntSet::empty(alloc);
    for v in 0..4i64 {
        if rest % 2 == 1 {
            set = set.join(&IntSet::range(alloc, v, v))?;
        }
        rest /= 2;
    }
    Ok(set)
}

/// Of each domain the values 0 to 3 whose bits are set in a digit of `n`, and all of a domain of
/// one value.
fn nth_boxes(alloc: Global, domains: &[IntSet], n: u32) -> Result<Vec<IntSet>, AllocError> {
    let mut rest = n;
    let mut boxes = Vec::new(alloc);
    for d in domains {
        if d.is_single() {
            boxes.push(d.copy()?)?;
        } else {
            boxes.push(d.meet(&bits_of(alloc, rest % 16)?)?)?;
            rest /= 16;
        }
    }
    Ok(boxes)
}

/// The box of `y`, with the part in place of that of `x`.
fn set_at<'a>(boxes: &'a [IntSet], x: u32, part: &'a IntSet, y: u32) -> &'a IntSet {
    match boxes.get(y as usize) {
        Some(set) if y != x => set,
        _ => part,
    }
}

/// Whether all least sizes are more than all room, with the part in place of the box of `x`, by
/// what that says of places 0 to 3.
fn is_too_much(items: &[(u32, u32, u32)], boxes: &[IntSet], x: u32, part: &IntSet) -> bool {
    let mut sizes = 0i64;
    for i in items {
        let least = set_at(boxes, x, part, i.1).least().unwrap_or(0);
        sizes = sizes.saturating_add(least);
    }
    let mut rooms = 0i64;
    for v in 0..4i64 {
        let mut best = 0i64;
        for i in items {
            if set_at(boxes, x, part, i.0).contains(v) {
                best = best.max(set_at(boxes, x, part, i.2).greatest().unwrap_or(0));
            }
        }
        rooms = rooms.saturating_add(best);
    }
    rooms < sizes
}

/// Whether what is found to take too much room does so, where something is found.
#[tactic(auto, using(pack_prop::proofs::Slack::pack_named))]
fn is_found_right(
    alloc: Global,
    con: &Con,
    items: &[(u32, u32, u32)],
    domains: &[IntSet],
    boxes: &[IntSet],
) -> Result<Option<bool>, AllocError>
    requires con { con.now ≡ Pack items.now }
    requires well_made { IsWellMadeCon domains.now con.now }
    requires boxes { AreBoxesWithin domains.now boxes.now }
{
    if items.is_empty() {
        return Ok(None);
    }
    let mut best_rooms = BestRooms::new(alloc);
    let Some(trial) = find_excess(&mut best_rooms, items, boxes, items[0])? else {
        return Ok(None);
    };
    if trial.span.1 < trial.span.0 {
        return Ok(Some(false));
    }
    let part = part_of(alloc, boxes, trial.var, trial.span)?;
    let is_right = !part.is_empty() && is_too_much(items, boxes, trial.var, &part);
    Ok(Some(is_right))
}

/// In how many boxes within the domains something is found to take too much room, and does.
fn count_found(
    alloc: Global,
    con: &Con,
    domains: &[IntSet],
    count: u32,
) -> Result<u32, AllocError> {
    if !is_constraint_well_made(con, domains, alloc)? {
        return Ok(0);
    }
    let Con::Pack { items } = con else {
        return Ok(0);
    };
    let mut cases = 0u32;
    for k in 0..count {
        let boxes = nth_boxes(alloc, domains, k.saturating_mul(11))?;
        if are_boxes_within(domains, boxes.as_slice()) {
            match is_found_right(alloc, con, items.items(), domains, boxes.as_slice())? {
                Some(true) => cases = cases.saturating_add(1),
                Some(false) => return Ok(0),
                None => {}
            }
        }
    }
    Ok(cases)
}

#[test]
fn what_is_found_takes_too_much_room(rt: HostRuntime) -> Result<(), AllocError> {
    let alloc = rt.alloc();
    let domains = vec![in alloc;
        IntSet::range(alloc, 0, 2),
        IntSet::range(alloc, 0, 2),
        IntSet::range(alloc, 1, 3),
        IntSet::range(alloc, 1, 1),
    ]?;
    // an item of size 1 or more and one of 1, and one fixed at 1, of room 1 each; and the first of
    // more room
    for items in [
        [(0u32, 2u32, 3u32), (1, 3, 3), (3, 3, 3)],
        [(0, 3, 2), (1, 3, 3), (3, 3, 3)],
    ] {
        let con = Con::Pack {
            items: PackItems::of(vec![in alloc; items[0], items[1], items[2]]?),
        };
        assert!(rt; count_found(alloc, &con, domains.as_slice(), 1400)? > 100);
    }
    Ok(())
}

#[test]
fn what_is_found_takes_too_much_of_different_rooms(rt: HostRuntime) -> Result<(), AllocError> {
    let alloc = rt.alloc();
    let domains = vec![in alloc;
        IntSet::range(alloc, 0, 2),
        IntSet::range(alloc, 0, 2),
        IntSet::range(alloc, 0, 3),
        IntSet::range(alloc, 2, 2),
    ]?;
    // three sizes of 2 in three places of room 2 each, of which one may be less; and room for one
    // more
    for items in [
        [(0u32, 3u32, 3u32), (1, 3, 3), (3, 3, 2)],
        [(0, 2, 3), (1, 3, 3), (3, 3, 3)],
    ] {
        let con = Con::Pack {
            items: PackItems::of(vec![in alloc; items[0], items[1], items[2]]?),
        };
        assert!(rt; count_found(alloc, &con, domains.as_slice(), 1400)? > 100);
    }
    Ok(())
}
