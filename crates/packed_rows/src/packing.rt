//! Rows stated as one packing.
//!
//! Each item has the greatest room. Where a bin has less, an item that is fixed there fills it up
//! to the greatest.
ghost use Rattle.std.specs.Prelude.{◌≡◌, ◌<◌, ◌++◌, ◌∷◌, ◌||◌, ◌≤ℤ◌, ℕ, ℤ, List, [], true, not, pos, length, IfOk, OnOk, ◌-ℤ◌};
ghost use Rattle.std.specs.List.{All};
ghost use Rattle.form_build.specs.Worlds.{Adds, Defines};
ghost use Rattle.packed_rows.specs.declared.row.Row.{Row as ARow};
ghost use Rattle.packed_rows.specs.Loads.{rows_hold};
ghost use Rattle.packed_rows.specs.Plans.{IsSmall, IsItem, IsRowOf, IsPlan, IsConstant, ArePacked};

use crate::bounds::are_bounded;
use crate::plan::{Plan, plan_of};
use crate::row::Row;
use form_build::{Linear, Maker, settled};
use ground_form::Number;
use std::alloc::AllocError;

/// A variable that is the number.
fn constant(maker: &mut Maker, v: Number) -> Result<u32, AllocError>
    requires small { IsSmall v.value }
    ensures constant { IfOk result (λ x. IsConstant maker.new x v.value) }
    ensures adds { IfOk result (λ x. Defines maker.old maker.new) }
{
    maker.ask(1)?;
    let number = Linear::number(maker.alloc(), v.value);
    let x = settled(maker, &number)?;
    Ok(x)
}

/// The size of an item.
fn size_of(item: (u32, i64)) -> Number
    ensures { result.value ≡ item.1 }
{
    Number { value: item.1 }
}

/// Adds an item: its variable, its size and the room.
fn push_item(
    maker: &mut Maker,
    item: (u32, i64),
    room: u32,
    packed: &mut Vec<(u32, u32, u32)>,
) -> Result<(), AllocError>
    requires exists { item.0 < length maker.old.domains }
    requires small { IsSmall item.1 }
    ensures packed { OnOk result ((items : List (ℕ × ℤ)) (most : ℤ) → IsConstant maker.old room most
        → ArePacked maker.old items [] most packed.old.items
        → ArePacked maker.new (items ++ item ∷ []) [] most packed.new.items) }
    ensures adds { OnOk result (Defines maker.old maker.new) }
{
    let size = constant(maker, size_of(item))?;
    packed.push((item.0, size, room))?;
    Ok(())
}

/// The items, packed.
fn packed_items(
    maker: &mut Maker,
    items: &[(u32, i64)],
    room: u32,
) -> Result<Vec<(u32, u32, u32)>, AllocError>
    requires exist { All (λ i. i.0 < length maker.old.domains) items.now }
    requires small { All (λ i. IsSmall i.1) items.now }
    ensures packed { IfOk result (λ packed. (most : ℤ) → IsConstant maker.old room most
        → ArePacked maker.new items.now [] most packed.items) }
    ensures adds { IfOk result (λ packed. Defines maker.old maker.new) }
{
    let mut packed = Vec::new(maker.alloc());
    for item in items {
        push_item(maker, *item, room, &mut packed)?;
    }
    Ok(packed)
}

/// What the row's room lacks of the greatest.
fn lack_of(row: &Row, most: Number) -> Number
    requires low { pos 0 ≤ℤ row.now.room }
    requires high { row.now.room ≤ℤ most.value }
    ensures { result.value ≡ most.value -ℤ row.now.room }
{
    Number {
        value: most.value - row.room,
    }
}

/// Whether the number is 0.
fn is_nought(n: Number) -> bool
    ensures { result ≡ true → n.value ≡ pos 0 }
{
    n.value == 0
}

/// The bin of a row.
fn bin_of(row: &Row) -> Number
    ensures { result.value ≡ row.now.bin }
{
    Number { value: row.bin }
}

/// Adds the item that fills a row's bin up to the greatest room, where the row has less.
fn fill(
    maker: &mut Maker,
    row: &Row,
    room: u32,
    most: Number,
    packed: &mut Vec<(u32, u32, u32)>,
) -> Result<(), AllocError>
    requires bin { IsSmall row.now.bin }
    requires low { pos 0 ≤ℤ row.now.room }
    requires high { row.now.room ≤ℤ most.value }
    requires small { IsSmall most.value }
    ensures packed { OnOk result ((items : List (ℕ × ℤ)) (rows : List ARow)
        → IsConstant maker.old room most.value
        → ArePacked maker.old items rows most.value packed.old.items
        → ArePacked maker.new items (rows ++ row.now ∷ []) most.value packed.new.items) }
    ensures adds { OnOk result (Defines maker.old maker.new) }
{
    let lack = lack_of(row, most);
    if is_nought(lack) {
        return Ok(());
    }
    let bin = constant(maker, bin_of(row))?;
    let size = constant(maker, lack)?;
    packed.push((bin, size, room))?;
    Ok(())
}

/// Adds the items that fill the bins of the rows up to the greatest room.
fn fill_all(
    maker: &mut Maker,
    rows: &[Row],
    room: u32,
    most: Number,
    packed: &mut Vec<(u32, u32, u32)>,
) -> Result<(), AllocError>
    requires bins { All (λ r. IsSmall r.bin) rows.now }
    requires low { All (λ r. pos 0 ≤ℤ r.room) rows.now }
    requires high { All (λ r. r.room ≤ℤ most.value) rows.now }
    requires small { IsSmall most.value }
    requires room { IsConstant maker.old room most.value }
    ensures packed { OnOk result ((items : List (ℕ × ℤ))
        → ArePacked maker.old items [] most.value packed.old.items
        → ArePacked maker.new items rows.now most.value packed.new.items) }
    ensures adds { OnOk result (Defines maker.old maker.new) }
{
    for row in rows {
        fill(maker, row, room, most, packed)?;
    }
    Ok(())
}

/// The items of the packing that the rows are.
fn packing(maker: &mut Maker, rows: &[Row], plan: &Plan) -> Result<Vec<(u32, u32, u32)>, AllocError>
    requires plan { IsPlan maker.old.domains rows.now plan.now.items.items plan.now.most.value }
    ensures packed { IfOk result (λ packed. ArePacked maker.new plan.now.items.items rows.now
        plan.now.most.value packed.items) }
    ensures adds { IfOk result (λ packed. Defines maker.old maker.new) }
{
    let room = constant(maker, plan.most)?;
    let mut packed = packed_items(maker, plan.items.as_slice(), room)?;
    fill_all(maker, rows, room, plan.most, &mut packed)?;
    Ok(packed)
}

/// States that rows hold, where they are a packing: where each item may be in the bin of each
/// row, or can't be there, and in no other bin. Says whether they are; if not, nothing is stated.
pub fn pack_rows(maker: &mut Maker, rows: &[Row]) -> Result<bool, AllocError>
    ensures says { IfOk result (λ packs. Adds [] maker.old maker.new
        (λ a. not packs || rows_hold rows.now a)) }
{
    let Some(plan) = plan_of(maker.alloc(), maker.domains(), rows)? else {
        return Ok(false);
    };
    let items = packing(maker, rows, &plan)?;
    maker.ask(1)?;
    if !are_bounded(maker.domains(), items.as_slice()) {
        return Ok(false);
    }
    maker.require_pack(items.as_slice())?;
    Ok(true)
}
