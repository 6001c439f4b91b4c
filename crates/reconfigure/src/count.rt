//! The number of changes as a sum of flags.
//!
//! A truth of a flag of its own, which asks for one of its two values, takes no new variable.
ghost use Rattle.std.specs.Prelude.{◌≡◌, ◌<◌, ◌≤◌, ◌≤ℤ◌, ◌+◌, ◌^◌, ◌+ℤ◌, ℕ, ℤ, List, length, pos, unsigned_abs, IfOk, IfSome, OnOk};
ghost use Rattle.std.specs.Ordering.{int_eq};
ghost use Rattle.signed_clause.specs.Ranges.{has, IsValid};
ghost use Rattle.signed_clause.specs.Clauses.{Boxes, box_of};
ghost use Rattle.ground_form.specs.Meaning.{value_of, bit};
ghost use Rattle.ground_form.specs.Bounds.{LiesWithin};
ghost use Rattle.ground_build.specs.Growing.{HasRoom};
ghost use Rattle.form_build.specs.Forms.{truth_at, HasVariable};
ghost use Rattle.form_build.specs.Worlds.{IsWorld, Defines, IsFew};
ghost use Rattle.form_truths.specs.Parts.{IsOwnPart, IsPartOf};
ghost use Rattle.reconfigure.specs.Counting.{count_at, IsCount};

use form_build::{Maker, Truth};
use signed_clause::IntSet;
use std::alloc::{AllocError, Global};

/// Terms and an offset, which add up to how many truths hold.
#[derive(Drop)]
pub(crate) struct Count {
    /// The terms.
    pub terms: Vec<(i64, u32)>,
    /// The offset.
    pub offset: i64,
}

impl Count {
    /// The count of no truths.
    pub fn new(alloc: Global) -> Count
        ensures value { (a : List ℤ) → count_at result a ≡ pos 0 }
        ensures numbers { (boxes : Boxes) → IsCount boxes 0 result }
    {
        Count {
            terms: Vec::new(alloc),
            offset: 0,
        }
    }
}

/// Which value of a flag is in the set, where the box is a flag's, and the set has just one of its
/// values.
fn own_want(at: &IntSet, set: &IntSet) -> Option<bool>
    ensures { IfSome result (λ w. IsOwnPart at.now set.now w) }
{
    let (low, high) = (at.least()?, at.greatest()?);
    if low < 0 || high > 1 {
        return None;
    }
    match (set.contains(0), set.contains(1)) {
        (false, true) => Some(true),
        (true, false) => Some(false),
        _ => None,
    }
}

/// The same of a variable's box.
fn own_want_at(boxes: &[IntSet], x: u32, set: &IntSet) -> Option<bool>
    requires { x < length boxes.now }
    ensures { IfSome result (λ w. IsOwnPart (box_of boxes.now x) set.now w) }
{
    own_want(&boxes[x as usize], set)
}

/// A flag, and the value that it has exactly where the variable's value is in the set.
fn part_of(maker: &mut Maker, x: u32, set: &IntSet) -> Result<(u32, bool), AllocError>
    requires room { HasRoom maker.old }
    requires exists { x < length maker.old.domains }
    ensures part { IfOk result (λ p. IsPartOf maker.new p (λ a. has set.now (value_of a x))) }
    ensures adds { IfOk result (λ p. Defines maker.old maker.new) }
    ensures few { IfOk result (λ p. IsFew 1 maker.old maker.new) }
{
    if let Some(want) = own_want_at(maker.domains(), x, set) {
        return Ok((x, want));
    }
    let flag = maker.member(x, set.copy()?)?;
    Ok((flag, true))
}

/// Adds 1 where a truth holds in any case.
fn add_fixed(count: &mut Count, holds: bool)
    requires small { unsigned_abs count.old.offset ≤ 2 ^ 32 }
    ensures terms { count.new.terms.items ≡ count.old.terms.items }
    ensures offset { count.new.offset ≡ count.old.offset +ℤ bit holds }
{
    if holds {
        count.offset += 1;
    }
}

/// Adds 1 where the flag, whose value is 0 or 1, has the wanted value.
fn push_flag(count: &mut Count, flag: u32, want: bool) -> Result<(), AllocError>
    requires small { unsigned_abs count.old.offset ≤ 2 ^ 32 }
    ensures value { OnOk result ((a : List ℤ) → pos 0 ≤ℤ value_of a flag → value_of a flag ≤ℤ pos 1
        → count_at count.new a
        ≡ count_at count.old a +ℤ bit (int_eq (value_of a flag) (bit want))) }
    ensures few { OnOk result ((boxes : Boxes) (n : ℕ) → flag < length boxes
        → IsValid (box_of boxes flag) → LiesWithin (pos 0) (pos 1) (box_of boxes flag)
        → IsCount boxes n count.old → IsCount boxes (n + 2) count.new) }
{
    if want {
        count.terms.push((1, flag))?;
        return Ok(());
    }
    count.terms.push((-1, flag))?;
    add_fixed(count, true);
    Ok(())
}

/// Adds 1 where the truth holds.
pub(crate) fn add_truth(maker: &mut Maker, count: &mut Count, t: &Truth) -> Result<(), AllocError>
    requires room { HasRoom maker.old }
    requires variable { HasVariable (length maker.old.domains) t.now }
    requires small { unsigned_abs count.old.offset ≤ 2 ^ 32 }
    ensures value { OnOk result ((a : List ℤ) → IsWorld maker.new a
        → count_at count.new a ≡ count_at count.old a +ℤ bit (truth_at t.now a)) }
    ensures numbers { OnOk result ((n : ℕ) → IsCount maker.old.domains n count.old
        → IsCount maker.new.domains (n + 2) count.new) }
    ensures adds { OnOk result (Defines maker.old maker.new) }
    ensures few { OnOk result (IsFew 1 maker.old maker.new) }
{
    match t {
        Truth::Fixed(holds) => {
            add_fixed(count, *holds);
            Ok(())
        }
        Truth::In(x, set) => {
            let (flag, want) = part_of(maker, *x, set)?;
            let _domains = maker.domains();
            push_flag(count, flag, want)?;
            Ok(())
        }
    }
}
