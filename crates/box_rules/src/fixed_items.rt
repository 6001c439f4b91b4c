//! Loads of bins among at most 64 items, by a row on the stack.
//!
//! Of each item whose bin is fixed the row has the bin, the least size and the greatest room, which
//! are asked of the view once. No memory is taken.
ghost use Rattle.std.specs.Prelude.{◌≡◌, ◌≤◌, ◌<◌, ◌≤ℤ◌, ◌^◌, ◌-◌, ◌+◌, ◌+ℤ◌, ◌++◌, ◌∷◌, [], cond, pos, int_lt, length, take};
ghost use Rattle.std.specs.Ordering.{int_eq};
ghost use Rattle.signed_clause.specs.Clauses.{box_of};
ghost use Rattle.box_rules.specs.Refuted.{some_overfull};
ghost use Rattle.box_rules.specs.Named.{AreItemsNamed, IsItemNamed};
ghost use Rattle.box_rules.specs.FixedItems.{read_of, is_put, fixed_of, load_of, some_over};

use crate::flags::{greatest, is_fixed_at, least};
use crate::total::WideSum;
use box_view::View;
use ground_form::Number;

/// The bin, the least size and the greatest room of the item.
fn read<V: View>(view: &V, i: (u32, u32, u32)) -> (i64, i64, i64)
    requires { IsItemNamed i (V.boxes view.now) }
    ensures { result ≡ read_of i (V.boxes view.now) }
{
    (view.ends(i.0).0, view.ends(i.1).0, view.ends(i.2).1)
}

/// Whether the item's bin is fixed.
fn is_put<V: View>(view: &V, i: (u32, u32, u32)) -> bool
    requires { IsItemNamed i (V.boxes view.now) }
    ensures { result ≡ is_put i (V.boxes view.now) }
{
    is_fixed_at(view, i.0, least(view, i.0))
}

/// Adds the item to the `count` ones of the row, where its bin is fixed, and tells how many there
/// are now.
fn with_item<V: View>(
    row: &mut [(i64, i64, i64); 64],
    count: usize,
    i: (u32, u32, u32),
    view: &V,
) -> usize
    requires item { IsItemNamed i (V.boxes view.now) }
    requires few { count < 64 }
    ensures most { result ≤ count + 1 }
    ensures row { take result row.new
        ≡ take count row.old ++ fixed_of (i ∷ []) (V.boxes view.now) }
{
    if is_put(view, i) {
        row[count] = read(view, i);
        return count + 1;
    }
    count
}

/// A row, and how many of its first are those of the items whose bins are fixed.
fn fixed_row<V: View>(view: &V, items: &[(u32, u32, u32)]) -> ([(i64, i64, i64); 64], usize)
    requires items { AreItemsNamed items.now (V.boxes view.now) }
    requires few { length items.now ≤ 64 }
    ensures most { result.1 ≤ 64 }
    ensures row { take result.1 result.0 ≡ fixed_of items.now (V.boxes view.now) }
{
    let mut row = [(0, 0, 0); 64];
    let mut count = 0;
    for i in items {
        count = with_item(&mut row, count, *i, view);
    }
    (row, count)
}

/// The load with the size of one of the row, where it is at the bin.
fn with_size(load: WideSum, p: (i64, i64, i64), bin: (i64, i64, i64)) -> WideSum
    requires low { pos 0 ≤ℤ (load.value +ℤ pos (2 ^ 127 - 2 ^ 63)) }
    requires high { load.value ≤ℤ pos (2 ^ 127 - 2 ^ 63) }
    ensures load { result.value ≡ cond (int_eq p.0 bin.0) (load.value +ℤ p.1) load.value }
    ensures low { load.value ≤ℤ (result.value +ℤ pos (2 ^ 63)) }
    ensures high { result.value ≤ℤ (load.value +ℤ pos (2 ^ 63 - 1)) }
{
    if p.0 == bin.0 {
        load.plus(Number { value: p.1 })
    } else {
        load
    }
}

/// The sizes of those of the row that are at the bin of one of them, added up.
fn load_at(row: &[(i64, i64, i64)], bin: (i64, i64, i64)) -> WideSum
    ensures { result.value ≡ load_of bin.0 row.now }
{
    let mut load = WideSum { value: 0 };
    for p in row {
        load = with_size(load, *p, bin);
    }
    load
}

/// Whether the load at the bin of one of the row is more than its room.
fn is_over(row: &[(i64, i64, i64)], p: (i64, i64, i64)) -> bool
    ensures { result ≡ int_lt p.2 (load_of p.0 row.now) }
{
    load_at(row, p).is_above(Number { value: p.2 })
}

/// Whether that is so of some of the row.
fn is_some_over(row: &[(i64, i64, i64)]) -> bool
    ensures { result ≡ some_over row.now row.now }
{
    for p in row {
        if is_over(row, *p) {
            return true;
        }
    }
    false
}

/// Whether the bin of some of at most 64 items is overfull.
pub fn are_few_overfull<V: View>(view: &V, items: &[(u32, u32, u32)]) -> bool
    requires items { AreItemsNamed items.now (V.boxes view.now) }
    requires few { length items.now ≤ 64 }
    ensures { result ≡ some_overfull items.now items.now (V.boxes view.now) }
{
    let (row, count) = fixed_row(view, items);
    is_some_over(&row[..count])
}
