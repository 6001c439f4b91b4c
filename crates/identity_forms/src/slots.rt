//! The truth that an object is in the reference set of a chosen owner.
ghost use Rattle.std.specs.Prelude.{◌≡◌, ◌<◌, ◌++◌, ◌∷◌, [], ℕ, ℤ, List, pos, true, length, nat_eq, IfOk, OnOk, IfSome};
ghost use Rattle.std.specs.List.{All};
ghost use Rattle.std.specs.Map.{lookup};
ghost use Rattle.std.specs.Option.{unwrap_or};
ghost use Rattle.std.specs.Ordering.{int_eq};
ghost use Rattle.ground_form.specs.Meaning.{value_of};
ghost use Rattle.ground_form.specs.WellMade.{distinct_values};
ghost use Rattle.ground_build.specs.Growing.{HoldsDomain};
ghost use Rattle.form_build.specs.Forms.{truth_at, HasVariable};
ghost use Rattle.form_build.specs.Worlds.{IsWorld, Defines};
ghost use Rattle.expr_forms.specs.FormValues.{number_for, cell_for};
ghost use Rattle.identity_forms.specs.Lists.{IsOwnedSlot, AreAll, cell_items};

use expr_forms::Slot;
use form_build::{Maker, Truth};
use form_truths::literal;
use indexmap::IndexMap;
use signed_clause::IntSet;
use std::alloc::{AllocError, Global};

/// Notes the cell of an owner, where none is noted.
fn note(cells: &mut IndexMap<u32, u32>, owner: u32, cell: u32) -> Result<(), AllocError>
    ensures { OnOk result ((n : ℕ) → lookup (nat_eq n) cells.new.entries
        ≡ lookup (nat_eq n) (cells.old.entries ++ (owner, cell) ∷ [])) }
{
    if cells.get(&owner).is_none() {
        cells.insert(owner, cell)?;
    }
    Ok(())
}

/// The cells by their owners: of each owner the first.
fn by_owner(alloc: Global, cells: &[(u32, u32)]) -> Result<IndexMap<u32, u32>, AllocError>
    ensures { IfOk result (λ m. (n : ℕ)
        → lookup (nat_eq n) m.entries ≡ lookup (nat_eq n) cells.now) }
{
    let mut noted = IndexMap::new(alloc);
    for pair in cells {
        note(&mut noted, pair.0, pair.1)?;
    }
    Ok(noted)
}

/// The pair's value with the cell that is noted of its owner, 0 where there is none.
fn item_of(noted: &IndexMap<u32, u32>, pair: (i64, u32)) -> (i64, u32)
    ensures { result ≡ (pair.0, unwrap_or (lookup (nat_eq pair.1) noted.now.entries) 0) }
{
    (pair.0, noted.get(&pair.1).copied().unwrap_or(0))
}

/// Each value with the cell of its owner.
fn items_of(
    alloc: Global,
    pairs: &[(i64, u32)],
    cells: &[(u32, u32)],
) -> Result<Vec<(i64, u32)>, AllocError>
    ensures { IfOk result (λ items. items.items ≡ cell_items cells.now pairs.now) }
{
    let noted = by_owner(alloc, cells)?;
    let mut items = Vec::new(alloc);
    for pair in pairs {
        items.push(item_of(&noted, *pair))?;
    }
    Ok(items)
}

/// Whether all items have this variable.
fn are_all(items: &[(i64, u32)], x: u32) -> bool
    ensures { result ≡ true → All (λ t. t.1 ≡ x) items.now }
{
    for t in items {
        if t.1 != x {
            return false;
        }
    }
    true
}

/// The one variable of all items.
fn common(items: &[(i64, u32)]) -> Option<u32>
    ensures { IfSome result (λ y. AreAll y items.now) }
{
    let first = items.first()?;
    if are_all(items, first.1) {
        Some(first.1)
    } else {
        None
    }
}

/// A variable that is the item's whose value x has.
fn picked(maker: &mut Maker, x: u32, items: &[(i64, u32)]) -> Result<u32, AllocError>
    requires exists { x < length maker.old.domains }
    requires variables { All (λ t. t.1 < length maker.old.domains) items.now }
    requires distinct { distinct_values items.now ≡ true }
    requires held { HoldsDomain maker.old x items.now }
    ensures exists { IfOk result (λ y. y < length maker.new.domains) }
    ensures value { IfOk result (λ y. (a : List ℤ) → IsWorld maker.new a
        → All (λ t. value_of a x ≡ t.0 → value_of a y ≡ value_of a t.1) items.now) }
    ensures adds { IfOk result (λ y. Defines maker.old maker.new) }
{
    if let Some(y) = common(items) {
        return Ok(y);
    }
    maker.ask(1)?;
    let y = maker.pick(x, items)?;
    Ok(y)
}

/// Whether the object is in the set of the owner that the pairs give for the value of x.
pub(crate) fn slot_truth(
    maker: &mut Maker,
    x: u32,
    pairs: &[(i64, u32)],
    slot: &Slot,
) -> Result<Truth, AllocError>
    requires exists { x < length maker.old.domains }
    requires slot { IsOwnedSlot maker.old.domains x pairs.now slot.now }
    ensures variable { IfOk result (λ t. HasVariable (length maker.new.domains) t) }
    ensures value { IfOk result (λ t. (a : List ℤ) → IsWorld maker.new a → truth_at t a
        ≡ int_eq (cell_for (number_for (value_of a x) pairs.now) slot.now.cells.items a) (pos 1)) }
    ensures adds { IfOk result (λ t. Defines maker.old maker.new) }
{
    let items = items_of(maker.alloc(), pairs, &slot.cells)?;
    let y = picked(maker, x, &items)?;
    let one = IntSet::range(maker.alloc(), 1, 1);
    Ok(literal(maker.domains(), y, one))
}
