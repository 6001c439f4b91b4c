//! Sets of small values, as bits: bit k stands for the value k - 8. A row has one for each of eight
//! variables; it is boxes, a clause whose literals have values, or a point, which has one bit each.
use signed_clause::{Clause, IntSet};
use std::alloc::{AllocError, Global};

/// The least value that has a bit.
pub const LEAST: i64 = -8;

/// Sets of eight variables.
#[derive(Clone, Copy, Debug)]
pub struct Row {
    masks: [u64; 8],
}

impl Row {
    /// Eight empty sets.
    pub fn empty() -> Row {
        Row { masks: [0; 8] }
    }

    /// The set of `x`, the empty one of a variable that there isn't.
    pub fn get(&self, x: usize) -> u64 {
        if x < 8 { self.masks[x] } else { 0 }
    }

    /// Gives `x` this set.
    pub fn put(&mut self, x: usize, mask: u64) {
        if x < 8 {
            self.masks[x] = mask;
        }
    }

    /// Whether the other has the same sets.
    pub fn same(&self, other: &Row) -> bool {
        (0..8).all(|x| self.get(x) == other.get(x))
    }

    /// Whether all sets are empty.
    pub fn is_empty(&self) -> bool {
        (0..8).all(|x| self.get(x) == 0)
    }

    /// Whether the sets of the first `count` variables have values.
    pub fn are_some(&self, count: usize) -> bool {
        (0..count).all(|x| self.get(x) != 0)
    }

    /// Whether each set lies within that of the other.
    pub fn lies_within(&self, other: &Row) -> bool {
        (0..8).all(|x| self.get(x) & !other.get(x) == 0)
    }

    /// As a clause: whether no literal is left a value by the boxes.
    pub fn is_false(&self, boxes: &Row) -> bool {
        (0..8).all(|x| self.get(x) & boxes.get(x) == 0)
    }

    /// As a clause: the variable of the one literal that is left a value by the boxes, where its
    /// box has another value too.
    pub fn unit(&self, boxes: &Row) -> Option<usize> {
        for x in 0..8usize {
            if self.get(x) & boxes.get(x) != 0 {
                let mut others = *boxes;
                others.put(x, 0);
                let cuts = boxes.get(x) & !self.get(x) != 0;
                return if cuts && self.is_false(&others) {
                    Some(x)
                } else {
                    None
                };
            }
        }
        None
    }

    /// As a clause: whether it is false or unit in the boxes.
    pub fn acts(&self, boxes: &Row) -> bool {
        self.is_false(boxes) || self.unit(boxes).is_some()
    }

    /// The clause that two clauses have together: of `x` the values that both have, of other
    /// variables those that either has.
    pub fn resolvent(&self, x: usize, other: &Row) -> Row {
        let mut out = Row::empty();
        for y in 0..8usize {
            if y == x {
                out.put(y, self.get(y) & other.get(y));
            } else {
                out.put(y, self.get(y) | other.get(y));
            }
        }
        out
    }
}

/// The least value of the set alone; none of the empty set.
pub fn least_bit(mask: u64) -> u64 {
    mask & mask.wrapping_neg()
}

/// The greatest value of the set alone; none of the empty set.
pub fn greatest_bit(mask: u64) -> u64 {
    let mut bit = 0;
    for k in 0..64u32 {
        if mask & (1 << k) != 0 {
            bit = 1 << k;
        }
    }
    bit
}

/// Whether the set is one value.
pub fn is_single(mask: u64) -> bool {
    mask != 0 && mask == least_bit(mask)
}

/// The least value of the set.
pub fn least_value(mask: u64) -> i64 {
    i64::from(mask.trailing_zeros()) + LEAST
}

/// The value alone; none where it has no bit.
pub fn bit_of(value: i64) -> u64 {
    if LEAST <= value && value < 56 {
        1 << ((value + 8) as u64)
    } else {
        0
    }
}

/// The set as bits; None where a value has none.
pub fn mask_of(set: &IntSet) -> Option<u64> {
    let mut mask = 0u64;
    for r in set.ranges() {
        if r.0 < LEAST || r.1 >= 56 {
            return None;
        }
        for v in LEAST..56 {
            if r.0 <= v && v <= r.1 {
                mask |= bit_of(v);
            }
        }
    }
    Some(mask)
}

/// The clause as a row; None where a value or a variable has no place in it.
pub fn row_of(clause: &Clause) -> Option<Row> {
    let mut row = Row::empty();
    for l in clause.literals() {
        let mask = mask_of(&l.1)?;
        if l.0 >= 8 {
            return None;
        }
        row.put(l.0 as usize, mask);
    }
    Some(row)
}

/// The point of these values.
pub fn point_of(values: &[i64]) -> Row {
    let mut point = Row::empty();
    for (x, v) in values.iter().enumerate() {
        point.put(x, bit_of(*v));
    }
    point
}

/// Boxes as a row; None where a value or a variable has no place in it.
pub fn boxes_of(boxes: &[IntSet]) -> Option<Row> {
    let mut row = Row::empty();
    for (x, set) in boxes.iter().enumerate() {
        let mask = mask_of(set)?;
        if x >= 8 {
            return None;
        }
        row.put(x, mask);
    }
    Some(row)
}

/// The set of the bits.
pub fn set_of(alloc: Global, mask: u64) -> Result<IntSet, AllocError> {
    let mut set = IntSet::empty(alloc);
    for v in LEAST..56 {
        if mask & bit_of(v) != 0 {
            set = set.join(&IntSet::range(alloc, v, v))?;
        }
    }
    Ok(set)
}

/// The sets of the first `count` variables.
pub fn sets_of(alloc: Global, row: &Row, count: usize) -> Result<Vec<IntSet>, AllocError> {
    let mut sets = Vec::new(alloc);
    for x in 0..count {
        sets.push(set_of(alloc, row.get(x))?)?;
    }
    Ok(sets)
}
