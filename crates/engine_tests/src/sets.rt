//! That what is asked of sets is answered as of plain lists of numbers.
use signed_clause::IntSet;
use std::alloc::{AllocError, Global};

/// Whether bit `k` is 1.
fn bit(bits: u64, k: usize) -> bool {
    (bits >> (k % 64)) & 1 == 1
}

/// The set of the values whose bits are 1, joined value by value.
fn set_of_bits(alloc: Global, values: &[i64], bits: u64) -> Result<IntSet, AllocError> {
    let mut set = IntSet::empty(alloc);
    for (k, v) in values.iter().enumerate() {
        if bit(bits, k) {
            set = set.join(&IntSet::range(alloc, *v, *v))?;
        }
    }
    Ok(set)
}

/// Whether the set has exactly the values whose bits are 1, in as few ranges as that takes.
fn has_bits(set: &IntSet, values: &[i64], bits: u64) -> bool {
    for (k, v) in values.iter().enumerate() {
        if set.contains(*v) != bit(bits, k) {
            return false;
        }
    }
    set.ranges().len() == (bits & !(bits << 1)).count_ones() as usize
}

/// Whether what is asked of one set is answered as of its list of numbers.
fn one_agrees(set: &IntSet, values: &[i64], bits: u64) -> bool {
    let count = bits.count_ones() as u64;
    has_bits(set, values, bits)
        && set.is_empty() == (count == 0)
        && set.is_single() == (count == 1)
        && set.at_most(count)
        && (count == 0 || !set.at_most(count - 1))
        && set.least() == values.get(bits.trailing_zeros() as usize).copied()
        && set.greatest()
            == values
                .get(63u32.wrapping_sub(bits.leading_zeros()) as usize)
                .copied()
}

/// Whether two sets make the sets, and answer the tests, that their lists of numbers do.
fn pair_agrees(alloc: Global, values: &[i64], a: u64, b: u64) -> Result<bool, AllocError> {
    let first = set_of_bits(alloc, values, a)?;
    let second = set_of_bits(alloc, values, b)?;
    let made = has_bits(&first.meet(&second)?, values, a & b)
        && has_bits(&first.join(&second)?, values, a | b)
        && has_bits(&first.less(&second)?, values, a & !b)
        && first.copy()?.same(&first);
    let tests = first.disjoint(&second) == (a & b == 0)
        && first.within(&second) == (a & !b == 0)
        && first.same(&second) == (a == b);
    Ok(made && tests && one_agrees(&first, values, a))
}

/// So many numbers, the first of them and those behind it.
fn numbers_from(alloc: Global, first: i64, count: i64) -> Result<Vec<i64>, AllocError> {
    let mut values = Vec::new(alloc);
    for k in 0..count {
        values.push(first.saturating_add(k))?;
    }
    Ok(values)
}

/// How many pairs of sets of six numbers, the first of them and those behind it, are as their
/// lists of numbers.
pub(crate) fn count_agreeing(alloc: Global, first: i64) -> Result<u32, AllocError> {
    let values = numbers_from(alloc, first, 6)?;
    let mut count = 0u32;
    for pair in 0..4096u64 {
        if pair_agrees(alloc, &values, pair / 64, pair % 64)? {
            count = count.saturating_add(1);
        }
    }
    Ok(count)
}

/// Sets of 44 numbers, of up to 22 ranges: long ones whose copies share their memory, and some of
/// them within others.
const LONG: [u64; 9] = [
    0,
    0xfff_ffff_ffff,
    0x555_5555_5555,
    0xaaa_aaaa_aaaa,
    0x111_1111_1111,
    0x555_5555_5554,
    0x5ff_5555_5555,
    0x555_5500_0000,
    0xaaa_aa55_5555,
];

/// How many pairs of long sets, of 44 numbers from the first on, are as their lists of numbers.
pub(crate) fn count_long_agreeing(alloc: Global, first: i64) -> Result<u32, AllocError> {
    let values = numbers_from(alloc, first, 44)?;
    let mut count = 0u32;
    for pair in 0..81usize {
        if pair_agrees(alloc, &values, LONG[pair / 9], LONG[pair % 9])? {
            count = count.saturating_add(1);
        }
    }
    Ok(count)
}
