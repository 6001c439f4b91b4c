//! What an item that can't be placed takes away.
//!
//! Where it may be put at the value, it leaves that bin. Where it is fixed there, and the load
//! isn't too much already, its room loses what is below the load, or its size what would make the
//! load too much. That this part of a box does make the bin overfull is computed by the rule; where
//! it doesn't, nothing is said.
ghost use Rattle.std.specs.Prelude.{◌≡◌, ◌<◌, ◌≤ℤ◌, ◌<ℤ◌, true, pos, negsuc, IfOk, IfSome, length};
ghost use Rattle.std.specs.List.{All};
ghost use Rattle.signed_clause.specs.Ranges.{IsValid};
ghost use Rattle.signed_clause.specs.SetAlgebra.{is_within};
ghost use Rattle.signed_clause.specs.Clauses.{box_of};
ghost use Rattle.ground_form.specs.declared.con.Con.TheVariants.{Pack};
ghost use Rattle.ground_form.specs.Bounds.{low_of};
ghost use Rattle.rule_law.specs.Answers.{AreBoxesWithin, IsPruning};
ghost use Rattle.box_rules.specs.Named.{AreItemsNamed, IsItemNamed};

use crate::overfull::{explain_part, overfilled};
use crate::with_part::Tried;
use ground_form::Number;
use pack_fit::{greatest, is_fixed, least, load_at, tight_at};
use rule_law::Subject;
use signed_clause::{Clause, IntSet};
use std::alloc::{AllocError, Global};

/// A variable, and the numbers of its box that are tried.
#[derive(Clone, Copy)]
pub struct Trial {
    /// The variable.
    pub var: u32,
    /// The least and the greatest number.
    pub span: (i64, i64),
}

/// The number, or the nearest one of 64 bits.
pub fn clamped(n: i128) -> i64
    ensures same { negsuc 9223372036854775807 ≤ℤ n → n ≤ℤ pos 9223372036854775807 → result ≡ n }
    ensures least { n <ℤ negsuc 9223372036854775807 → result ≡ negsuc 9223372036854775807 }
    ensures greatest { pos 9223372036854775807 <ℤ n → result ≡ pos 9223372036854775807 }
{
    if n < i128::from(i64::MIN) {
        i64::MIN
    } else {
        i64::try_from(n).unwrap_or(i64::MAX)
    }
}

/// What is tried of the item, which doesn't fit at the value.
fn trial_of(items: &[(u32, u32, u32)], boxes: &[IntSet], i: (u32, u32, u32), at: Number) -> Trial
    requires items { AreItemsNamed items.now boxes.now }
    requires item { IsItemNamed i boxes.now }
    ensures { result.var < length boxes.now }
{
    let load = load_at(items, boxes, at).value;
    let tight = i128::from(tight_at(items, boxes, at).value);
    if !is_fixed(boxes, i.0, at) || tight < load {
        return Trial {
            var: i.0,
            span: (at.value, at.value),
        };
    }
    if i128::from(least(boxes, i.2).value) < load {
        return Trial {
            var: i.2,
            span: (i64::MIN, clamped(load.saturating_sub(1))),
        };
    }
    let size = i128::from(least(boxes, i.1).value);
    let over = tight.saturating_sub(load).saturating_add(size);
    Trial {
        var: i.1,
        span: (clamped(over.saturating_add(1)), i64::MAX),
    }
}

/// The values of the box of `x` in the range, which isn't empty.
#[tactic(auto, using(crate::proofs::OverReason::meet_within))]
pub fn part_of(
    alloc: Global,
    boxes: &[IntSet],
    x: u32,
    span: (i64, i64),
) -> Result<IntSet, AllocError>
    requires var { x < length boxes.now }
    requires order { span.0 ≤ℤ span.1 }
    ensures valid { IfOk result (λ s. IsValid s) }
    ensures within { IfOk result (λ s. is_within s (box_of boxes.now x) ≡ true) }
{
    let set = &boxes[x as usize];
    set.ranges();
    let range = IntSet::range(alloc, span.0, span.1);
    let part = set.meet(&range)?;
    Ok(part)
}

/// The clause of an item that doesn't fit at the value, where one is found.
pub fn prune_unplaceable(
    alloc: Global,
    subject: Subject<'_>,
    items: &[(u32, u32, u32)],
    at: Number,
    i: (u32, u32, u32),
) -> Result<Option<Clause>, AllocError>
    requires con { subject.con.now ≡ Pack items.now }
    requires items { AreItemsNamed items.now subject.boxes.now }
    requires item { IsItemNamed i subject.boxes.now }
    requires sizes { All (λ i. pos 0 ≤ℤ low_of (box_of subject.domains.now i.1)) items.now }
    requires boxes { AreBoxesWithin subject.domains.now subject.boxes.now }
    requires sets { All (λ d. IsValid d) subject.domains.now }
    ensures { IfOk result (λ r. IfSome r (λ c. IsPruning subject.entry.con.now
        subject.entry.domains.now subject.entry.boxes.now c)) }
{
    let trial = trial_of(items, subject.boxes, i, at);
    if trial.span.1 < trial.span.0 {
        return Ok(None);
    }
    let part = part_of(alloc, subject.boxes, trial.var, trial.span)?;
    if part.is_empty() {
        return Ok(None);
    }
    let tried = Tried {
        items,
        domains: subject.domains,
        boxes: subject.boxes,
        x: trial.var,
        part: &part,
    };
    let Some(k) = overfilled(tried, at) else {
        return Ok(None);
    };
    let clause = explain_part(alloc, subject.con, tried, at, k)?;
    Ok(Some(clause))
}
