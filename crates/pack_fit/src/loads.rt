//! Loads of bins and the rooms that are there, over the boxes of items.
ghost use Rattle.std.specs.Prelude.{◌≡◌, ◌<◌, ◌≤ℤ◌, ◌^◌, ◌-◌, ◌&&◌, ◌+ℤ◌, ◌-ℤ◌, true, cond, pos, int_le, IfSome, length};
ghost use Rattle.std.specs.Int.{int_max, int_min};
ghost use Rattle.signed_clause.specs.Ranges.{has, IsValid};
ghost use Rattle.signed_clause.specs.Clauses.{box_of};
ghost use Rattle.ground_form.specs.Bounds.{low_of, high_of};
ghost use Rattle.box_rules.specs.Refuted.{fixed_at, fixed_load, least_sizes};
ghost use Rattle.box_rules.specs.Named.{AreItemsNamed, IsItemNamed};
ghost use Rattle.rule_law.specs.Repeats.{is_one};
ghost use Rattle.pack_fit.specs.Packing.{tight_room};

use ground_form::{Number, ends_of};
use signed_clause::IntSet;

/// A sum of many numbers.
#[derive(Clone, Copy)]
pub struct Load {
    /// It.
    pub value: i128,
}

impl Load {
    /// The sum with one more number.
    pub fn plus(self, n: Number) -> Load
        requires low { pos 0 ≤ℤ (self.value +ℤ pos (2 ^ 127 - 2 ^ 63)) }
        requires high { self.value ≤ℤ pos (2 ^ 127 - 2 ^ 63) }
        ensures sum { result.value ≡ self.value +ℤ n.value }
        ensures low { self.value ≤ℤ (result.value +ℤ pos (2 ^ 63)) }
        ensures high { result.value ≤ℤ (self.value +ℤ pos (2 ^ 63 - 1)) }
    {
        Load {
            value: self.value + i128::from(n.value),
        }
    }

    /// Whether it is at most the number.
    pub fn is_upto(self, n: Number) -> bool
        ensures { result ≡ int_le self.value n.value }
    {
        self.value <= i128::from(n.value)
    }

    /// The number as a sum.
    pub fn of(n: Number) -> Load
        ensures { result.value ≡ n.value }
    {
        Load {
            value: i128::from(n.value),
        }
    }

    /// The sum without the number.
    pub fn less(self, n: Number) -> Load
        requires low { pos 0 ≤ℤ (self.value +ℤ pos (2 ^ 66)) }
        requires high { self.value ≤ℤ pos (2 ^ 66) }
        ensures { result.value ≡ self.value -ℤ n.value }
    {
        Load {
            value: self.value - i128::from(n.value),
        }
    }

    /// Both sums, where that is a number of 128 bits.
    pub fn with(self, o: Load) -> Option<Load>
        ensures { IfSome result (λ t. t.value ≡ self.value +ℤ o.value) }
    {
        match self.value.checked_add(o.value) {
            Some(value) => Some(Load { value }),
            None => None,
        }
    }

    /// Whether it is at most the other.
    pub fn is_at_most(self, o: Load) -> bool
        ensures { result ≡ int_le self.value o.value }
    {
        self.value <= o.value
    }

    /// Whether both sums together are at most the number, where they are a number of 128 bits.
    pub fn are_upto(self, o: Load, n: Number) -> bool
        ensures { result ≡ true → (self.value +ℤ o.value) ≤ℤ n.value }
    {
        match self.with(o) {
            Some(both) => both.is_upto(n),
            None => false,
        }
    }

    /// Whether it is at most what the first number has above the second.
    pub fn is_upto_less(self, n: Number, less: Number) -> bool
        ensures { result ≡ int_le self.value (n.value -ℤ less.value) }
    {
        self.is_at_most(Load::of(n).less(less))
    }

    /// Whether it is at most what the first number has above the second, and the third.
    pub fn is_upto_between(self, n: Number, less: Number, more: Number) -> bool
        ensures { result ≡ int_le self.value ((n.value -ℤ less.value) +ℤ more.value) }
    {
        self.is_at_most(Load::of(n).less(less).plus(more))
    }
}

/// The least value of the box of `x`, 0 where it is empty.
pub fn least(boxes: &[IntSet], x: u32) -> Number
    requires { x < length boxes.now }
    ensures { result.value ≡ low_of (box_of boxes.now x) }
{
    Number {
        value: ends_of(&boxes[x as usize]).0,
    }
}

/// The greatest value of the box of `x`, 0 where it is empty.
pub fn greatest(boxes: &[IntSet], x: u32) -> Number
    requires { x < length boxes.now }
    ensures { result.value ≡ high_of (box_of boxes.now x) }
{
    Number {
        value: ends_of(&boxes[x as usize]).1,
    }
}

/// Whether the box of `x` is the value alone.
pub fn is_fixed(boxes: &[IntSet], x: u32, at: Number) -> bool
    requires { x < length boxes.now }
    ensures { result ≡ fixed_at (box_of boxes.now x) at.value }
{
    let set = &boxes[x as usize];
    let ends = ends_of(set);
    !set.is_empty() && (ends.0 == at.value && ends.1 == at.value)
}

/// Whether the box of `x` is one value.
pub fn is_single(boxes: &[IntSet], x: u32) -> bool
    requires { x < length boxes.now }
    ensures { result ≡ is_one (box_of boxes.now x) }
{
    is_fixed(boxes, x, least(boxes, x))
}

/// Whether the box of `x` has the value.
pub fn may_be(boxes: &[IntSet], x: u32, at: Number) -> bool
    requires { x < length boxes.now }
    ensures { result ≡ has (box_of boxes.now x) at.value }
{
    boxes[x as usize].contains(at.value)
}

/// The ranges of the box of `x`.
pub fn ranges_at(boxes: &[IntSet], x: u32) -> &[(i64, i64)]
    requires { x < length boxes.now }
    ensures list { result.now ≡ box_of boxes.now x }
    ensures valid { IsValid result.now }
{
    boxes[x as usize].ranges()
}

/// The greater of two numbers.
pub fn greater(a: Number, b: Number) -> Number
    ensures { result.value ≡ int_max a.value b.value }
{
    if b.value < a.value { a } else { b }
}

/// The smaller of two numbers.
pub fn smaller(a: Number, b: Number) -> Number
    ensures { result.value ≡ int_min a.value b.value }
{
    if b.value < a.value { b } else { a }
}

/// The load with the item's least size, where its bin is fixed at the value.
fn with_load(load: Load, i: (u32, u32, u32), boxes: &[IntSet], at: Number) -> Load
    requires item { IsItemNamed i boxes.now }
    requires low { pos 0 ≤ℤ (load.value +ℤ pos (2 ^ 127 - 2 ^ 63)) }
    requires high { load.value ≤ℤ pos (2 ^ 127 - 2 ^ 63) }
    ensures load { result.value ≡ cond (fixed_at (box_of boxes.now i.0) at.value)
        (load.value +ℤ low_of (box_of boxes.now i.1)) load.value }
    ensures low { load.value ≤ℤ (result.value +ℤ pos (2 ^ 63)) }
    ensures high { result.value ≤ℤ (load.value +ℤ pos (2 ^ 63 - 1)) }
{
    if is_fixed(boxes, i.0, at) {
        load.plus(least(boxes, i.1))
    } else {
        load
    }
}

/// The least sizes of the items whose bin is fixed at the value, added up.
pub fn load_at(items: &[(u32, u32, u32)], boxes: &[IntSet], at: Number) -> Load
    requires { AreItemsNamed items.now boxes.now }
    ensures { result.value ≡ fixed_load at.value items.now boxes.now }
{
    let mut load = Load { value: 0 };
    for i in items {
        load = with_load(load, *i, boxes, at);
    }
    load
}

/// The least room so far, with the item's greatest where its bin is fixed at the value.
fn with_tight(tight: Number, i: (u32, u32, u32), boxes: &[IntSet], at: Number) -> Number
    requires { IsItemNamed i boxes.now }
    ensures { result.value ≡ cond (fixed_at (box_of boxes.now i.0) at.value)
        (int_min tight.value (high_of (box_of boxes.now i.2))) tight.value }
{
    if is_fixed(boxes, i.0, at) {
        smaller(tight, greatest(boxes, i.2))
    } else {
        tight
    }
}

/// The least of the greatest rooms of the items whose bin is fixed at the value.
pub fn tight_at(items: &[(u32, u32, u32)], boxes: &[IntSet], at: Number) -> Number
    requires { AreItemsNamed items.now boxes.now }
    ensures { result.value ≡ tight_room at.value items.now boxes.now }
{
    let mut tight = Number { value: i64::MAX };
    for i in items {
        tight = with_tight(tight, *i, boxes, at);
    }
    tight
}

/// All least sizes, added up.
pub fn sizes_of(items: &[(u32, u32, u32)], boxes: &[IntSet]) -> Load
    requires { AreItemsNamed items.now boxes.now }
    ensures { result.value ≡ least_sizes items.now boxes.now }
{
    let mut sum = Load { value: 0 };
    for i in items {
        sum = sum.plus(least(boxes, i.1));
    }
    sum
}
