//! Lists as members with a truth each.
ghost use Rattle.std.specs.Prelude.{◌≡◌, ◌<◌, ℕ, ℤ, List, true, length, map, IfOk};
ghost use Rattle.std.specs.List.{All};
ghost use Rattle.ground_form.specs.Meaning.{value_of};
ghost use Rattle.form_build.specs.Forms.{HasVariable};
ghost use Rattle.form_build.specs.declared.form.Truth.TheVariants as truth;
ghost use Rattle.form_build.specs.Worlds.{IsWorld, Defines};
ghost use Rattle.expr_forms.specs.declared.form.Member.{Member as AMember};
ghost use Rattle.expr_forms.specs.declared.form.Slot.{Slot as ASlot};
ghost use Rattle.expr_forms.specs.FixedForms.{is_fixed_list};
ghost use Rattle.expr_forms.specs.FormValues.{number_for, members_at, owned_at, listing_at};
ghost use Rattle.identity_forms.specs.Lists.{slot_objects, HasMembers, IsOwnedSlot};

use crate::slots::slot_truth;
use expr_forms::{Listing, Member, Slot};
use form_build::{Maker, Truth};
use std::alloc::{AllocError, Global};

/// These objects as members in any case.
fn sure_members(alloc: Global, objects: &[u32]) -> Result<Vec<Member>, AllocError>
    ensures members { IfOk result (λ ms. (a : List ℤ) → members_at ms.items a ≡ objects.now) }
    ensures objects { IfOk result (λ ms. map (λ (m : AMember). m.object) ms.items ≡ objects.now) }
    ensures variables { IfOk result
        (λ ms. (n : ℕ) → All (λ (m : AMember). HasVariable n m.is) ms.items) }
    ensures sure { IfOk result (λ ms. All (λ (m : AMember). m.is ≡ truth.Fixed true) ms.items) }
{
    let mut members = Vec::new(alloc);
    for object in objects {
        members.push(Member {
            object: *object,
            is: Truth::Fixed(true),
        })?;
    }
    Ok(members)
}

/// The objects of these slots as members of the set of the owner that the pairs give for the value
/// of x.
fn owned_members(
    maker: &mut Maker,
    x: u32,
    pairs: &[(i64, u32)],
    slots: &[Slot],
) -> Result<Vec<Member>, AllocError>
    requires exists { x < length maker.old.domains }
    requires slots { All (IsOwnedSlot maker.old.domains x pairs.now) slots.now }
    ensures members { IfOk result (λ ms. (a : List ℤ) → IsWorld maker.new a
        → members_at ms.items a ≡ owned_at (number_for (value_of a x) pairs.now) slots.now a) }
    ensures objects { IfOk result (λ ms. map (λ (m : AMember). m.object) ms.items
        ≡ map (λ (s : ASlot). s.object) slots.now) }
    ensures variables { IfOk result
        (λ ms. All (λ (m : AMember). HasVariable (length maker.new.domains) m.is) ms.items) }
    ensures adds { IfOk result (λ ms. Defines maker.old maker.new) }
{
    let mut members = Vec::new(maker.alloc());
    for slot in slots {
        let is = slot_truth(maker, x, pairs, slot)?;
        members.push(Member {
            object: slot.object,
            is,
        })?;
    }
    Ok(members)
}

/// The objects of a list, each with the truth that it is a member. One in the set of a chosen owner
/// takes a new variable, where the owners have different cells for it.
pub fn members_of(maker: &mut Maker, listing: Listing) -> Result<Vec<Member>, AllocError>
    requires members { HasMembers maker.old.domains listing }
    ensures members { IfOk result (λ ms. (a : List ℤ) → IsWorld maker.new a
        → members_at ms.items a ≡ listing_at listing a) }
    ensures objects { IfOk result
        (λ ms. map (λ (m : AMember). m.object) ms.items ≡ slot_objects listing) }
    ensures variables { IfOk result
        (λ ms. All (λ (m : AMember). HasVariable (length maker.new.domains) m.is) ms.items) }
    ensures fixed { is_fixed_list listing ≡ true → IfOk result
        (λ ms. All (λ (m : AMember). m.is ≡ truth.Fixed true) ms.items) }
    ensures adds { IfOk result (λ ms. Defines maker.old maker.new) }
{
    match listing {
        Listing::All(objects) => {
            let members = sure_members(maker.alloc(), &objects)?;
            Ok(members)
        }
        Listing::Some(members) => Ok(members),
        Listing::Owned(x, pairs, slots) => {
            let members = owned_members(maker, x, &pairs, &slots)?;
            Ok(members)
        }
    }
}
