//! What is made of the values at the members of a list: sums, differing values, and items that are
//! packed.
ghost use Rattle.std.specs.Prelude.{◌≡◌, ◌+◌, ◌<◌, ◌^◌, ◌+ℤ◌, ℕ, cond, drop, map, not, pos};
ghost use Rattle.std.specs.List.{list_any};
ghost use Rattle.conf_eval.specs.declared.value.Value.{Value as AValue};
ghost use Rattle.conf_eval.specs.declared.value.Value.TheVariants.{Int};
ghost use Rattle.conf_eval.specs.Evaluating.{IsSmall};
ghost use Rattle.conf_eval.specs.Fitting.{IsNarrow};
ghost use Rattle.conf_eval.specs.Meaning.{all_differ, fits_all, int_of, load, same_value};
ghost use Rattle.conf_eval.specs.Packing.{item_view, size_at};

use crate::value::{Value, int_of, same_value};

/// A sum.
#[derive(Clone, Copy)]
pub(crate) struct Sum {
    pub value: i64,
}

/// What a member packs: its bin, its size and its room.
#[derive(Drop)]
pub(crate) struct Item {
    pub bin: Value,
    pub size: Sum,
    pub room: Sum,
}

/// The sum that is a number alone.
pub(crate) fn sum_of(value: &Value) -> Sum
    ensures sum { result.value ≡ int_of value.now }
{
    Sum {
        value: int_of(value),
    }
}

/// The number that is a sum.
pub(crate) fn int_value(sum: Sum) -> Value
    ensures value { result ≡ Int sum.value }
{
    Value::Int(sum.value)
}

/// One more, where it holds.
pub(crate) fn counted(count: usize, holds: bool) -> usize
    requires more { count + 1 < 2 ^ 64 }
    ensures count { result ≡ count + cond holds 1 0 }
{
    if holds { count + 1 } else { count }
}

/// The number that a count is.
pub(crate) fn count_value(count: usize) -> Value
    requires small { IsNarrow (pos count) }
    ensures value { result ≡ Int (pos count) }
{
    Value::Int(count as i64)
}

/// The sum of two.
pub(crate) fn plus(sum: Sum, term: Sum) -> Sum
    requires small { IsSmall (sum.value +ℤ term.value) }
    ensures sum { result.value ≡ sum.value +ℤ term.value }
{
    Sum {
        value: sum.value + term.value,
    }
}

/// Whether a value differs from all of these.
fn differs(value: &Value, others: &[Value]) -> bool
    ensures differs { result ≡ not (list_any (same_value value.now) others.now) }
{
    for other in others {
        if same_value(value, other) {
            return false;
        }
    }
    true
}

/// Whether any two of these values differ.
pub(crate) fn all_differ(values: &[Value]) -> bool
    ensures differ { result ≡ all_differ values.now }
{
    for i in 0..values.len() {
        if !differs(&values[i], &values[i + 1..]) {
            return false;
        }
    }
    true
}

/// The size of an item at this bin, 0 at another.
fn size_at(bin: &Value, item: &Item) -> Sum
    ensures size { result.value ≡ size_at bin.now (item_view item.now) }
{
    if same_value(bin, &item.bin) {
        item.size
    } else {
        Sum { value: 0 }
    }
}

/// The sizes of the items at this bin.
fn load(bin: &Value, items: &[Item]) -> Sum
    requires small { (i : ℕ) → IsNarrow (load bin.now (drop i (map item_view items.now))) }
    ensures load { result.value ≡ load bin.now (map item_view items.now) }
{
    let mut sum = Sum { value: 0 };
    for item in items {
        sum = plus(sum, size_at(bin, item));
    }
    sum
}

/// Whether for each item the sizes at its bin add up to at most its room.
pub(crate) fn fits_all(items: &[Item]) -> bool
    requires small { (bin : AValue) → (i : ℕ)
        → IsNarrow (load bin (drop i (map item_view items.now))) }
    ensures fits { result ≡ fits_all (map item_view items.now) (map item_view items.now) }
{
    for item in items {
        if load(&item.bin, items).value > item.room.value {
            return false;
        }
    }
    true
}
