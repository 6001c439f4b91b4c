//! Whether an object is a member of a list.
ghost use Rattle.std.specs.Prelude.{◌≡◌, ◌<◌, ◌&&◌, ◌||◌, ℤ, List, pos, length, nat_eq, IfOk, OnOk};
ghost use Rattle.std.specs.List.{All, list_any};
ghost use Rattle.std.specs.Ordering.{int_eq};
ghost use Rattle.ground_form.specs.Meaning.{value_of};
ghost use Rattle.form_build.specs.Forms.{truth_at, HasVariable};
ghost use Rattle.form_build.specs.Worlds.{IsWorld, Defines};
ghost use Rattle.expr_forms.specs.declared.form.Member.{Member as AMember};
ghost use Rattle.form_truths.specs.Disjunctions.{disjunction_at, IsWithin};
ghost use Rattle.expr_forms.specs.FormValues.{choice_at, number_for, cell_for, members_at, owned_at, listing_at};
ghost use Rattle.identity_forms.specs.Choices.{IsChoice};
ghost use Rattle.identity_forms.specs.Lists.{HasMembers, IsOwnedSlot};

use crate::groups::groups_of;
use crate::literals::{is_in, is_object};
use crate::pairs::{is_never, push_both};
use crate::sets::object_set;
use crate::slots::slot_truth;
use expr_forms::{Choice, Listing, Member, Slot};
use form_build::{Maker, Truth};
use form_truths::{Disjunction, truth_in_blocks};
use std::alloc::AllocError;

/// Whether this object is among them.
fn is_among(objects: &[u32], n: u32) -> bool
    ensures { result ≡ list_any (nat_eq n) objects.now }
{
    for m in objects {
        if *m == n {
            return true;
        }
    }
    false
}

/// Whether the object is one of these.
fn is_one_of(maker: &Maker, c: &Choice, objects: &[u32]) -> Result<Truth, AllocError>
    requires choice { IsChoice maker.now.domains c.now }
    ensures variable { IfOk result (λ t. HasVariable (length maker.now.domains) t) }
    ensures value { IfOk result (λ t. (a : List ℤ) → IsWorld maker.now a
        → truth_at t a ≡ list_any (nat_eq (choice_at c.now a)) objects.now) }
{
    if let Choice::Fixed(n) = c {
        return Ok(Truth::Fixed(is_among(objects, *n)));
    }
    let set = object_set(maker.alloc(), objects)?;
    let t = is_in(maker, c, set)?;
    Ok(t)
}

/// Whether the object is one of these members.
fn is_one_of_members(maker: &mut Maker, c: &Choice, members: &[Member]) -> Result<Truth, AllocError>
    requires choice { IsChoice maker.old.domains c.now }
    requires members { All (λ (m : AMember). HasVariable (length maker.old.domains) m.is)
        members.now }
    ensures variable { IfOk result (λ t. HasVariable (length maker.new.domains) t) }
    ensures value { IfOk result (λ t. (a : List ℤ) → IsWorld maker.new a
        → truth_at t a ≡ list_any (nat_eq (choice_at c.now a)) (members_at members.now a)) }
    ensures adds { IfOk result (λ t. Defines maker.old maker.new) }
{
    let groups = groups_of(maker.alloc(), c)?;
    let mut some = Disjunction::new(maker.alloc());
    for m in members {
        let same = is_object(maker, c, &groups, m.object)?;
        push_both(maker, &mut some, &same, &m.is)?;
    }
    let t = truth_in_blocks(maker, &some)?;
    Ok(t)
}

/// Adds, to a disjunction, that the object is the slot's and is in the set of the chosen owner.
fn push_slot(
    maker: &mut Maker,
    some: &mut Disjunction,
    same: &Truth,
    x: u32,
    pairs: &[(i64, u32)],
    slot: &Slot,
) -> Result<(), AllocError>
    requires variable { HasVariable (length maker.old.domains) same.now }
    requires exists { x < length maker.old.domains }
    requires slot { IsOwnedSlot maker.old.domains x pairs.now slot.now }
    ensures value { OnOk result ((a : List ℤ) → IsWorld maker.new a → disjunction_at some.new a
        ≡ ((truth_at same.now a
        && int_eq (cell_for (number_for (value_of a x) pairs.now) slot.now.cells.items a) (pos 1))
        || disjunction_at some.old a)) }
    ensures exist { OnOk result (IsWithin (length maker.old.domains) some.old.1
        → IsWithin (length maker.new.domains) some.new.1) }
    ensures adds { OnOk result (Defines maker.old maker.new) }
{
    if is_never(same) {
        return Ok(());
    }
    let is = slot_truth(maker, x, pairs, slot)?;
    push_both(maker, some, same, &is)?;
    Ok(())
}

/// Whether the object is in the set of the owner that the pairs give for the value of x.
fn is_one_of_slots(
    maker: &mut Maker,
    c: &Choice,
    x: u32,
    pairs: &[(i64, u32)],
    slots: &[Slot],
) -> Result<Truth, AllocError>
    requires choice { IsChoice maker.old.domains c.now }
    requires exists { x < length maker.old.domains }
    requires slots { All (IsOwnedSlot maker.old.domains x pairs.now) slots.now }
    ensures variable { IfOk result (λ t. HasVariable (length maker.new.domains) t) }
    ensures value { IfOk result (λ t. (a : List ℤ) → IsWorld maker.new a → truth_at t a
        ≡ list_any (nat_eq (choice_at c.now a))
        (owned_at (number_for (value_of a x) pairs.now) slots.now a)) }
    ensures adds { IfOk result (λ t. Defines maker.old maker.new) }
{
    let groups = groups_of(maker.alloc(), c)?;
    let mut some = Disjunction::new(maker.alloc());
    for slot in slots {
        let same = is_object(maker, c, &groups, slot.object)?;
        push_slot(maker, &mut some, &same, x, pairs, slot)?;
    }
    let t = truth_in_blocks(maker, &some)?;
    Ok(t)
}

/// Whether the object is a member of the list. Of a list that is fixed this is one literal at most;
/// of another one a disjunction over those of its objects that the choice may be.
pub fn is_member(maker: &mut Maker, c: &Choice, listing: &Listing) -> Result<Truth, AllocError>
    requires choice { IsChoice maker.old.domains c.now }
    requires members { HasMembers maker.old.domains listing.now }
    ensures variable { IfOk result (λ t. HasVariable (length maker.new.domains) t) }
    ensures value { IfOk result (λ t. (a : List ℤ) → IsWorld maker.new a
        → truth_at t a ≡ list_any (nat_eq (choice_at c.now a)) (listing_at listing.now a)) }
    ensures adds { IfOk result (λ t. Defines maker.old maker.new) }
{
    match listing {
        Listing::All(objects) => {
            let t = is_one_of(maker, c, objects)?;
            Ok(t)
        }
        Listing::Some(members) => {
            let t = is_one_of_members(maker, c, members)?;
            Ok(t)
        }
        Listing::Owned(x, pairs, slots) => {
            let t = is_one_of_slots(maker, c, *x, pairs, slots)?;
            Ok(t)
        }
    }
}
