//! How an order decides, written out over sets as bits.
use test_small_problems::{Row, bit_of, greatest_bit, is_single, least_bit};

/// Whose splits are looked for.
#[derive(Clone, Copy, Debug)]
pub enum Way {
    /// The first undecided variable's least value.
    First,
    /// The least value of the undecided variable with fewest values, the first of those.
    Small,
    /// The hint of the first undecided variable that can have it, or else as the first way.
    Former,
    /// The first undecided variable's greatest value.
    Greatest,
}

/// A variable, and the values that it is to have.
#[derive(Clone, Copy)]
pub(crate) struct Half {
    pub(crate) var: usize,
    pub(crate) mask: u64,
}

/// The first undecided variable.
fn first_undecided(boxes: &Row, search: usize) -> Option<usize> {
    (0..search).find(|x| !is_single(boxes.get(*x)))
}

/// The undecided variable with fewest values, the first of those.
fn smallest_undecided(boxes: &Row, search: usize) -> Option<usize> {
    let mut best: Option<usize> = None;
    for x in 0..search {
        if !is_single(boxes.get(x)) {
            let is_smaller = match best {
                Some(y) => boxes.get(x).count_ones() < boxes.get(y).count_ones(),
                None => true,
            };
            if is_smaller {
                best = Some(x);
            }
        }
    }
    best
}

/// The first undecided variable that can have its hint, and that value.
fn first_hinted(boxes: &Row, hints: &[Option<i64>], search: usize) -> Option<Half> {
    for x in 0..search {
        if let Some(Some(hint)) = hints.get(x) {
            let mask = boxes.get(x) & bit_of(*hint);
            if mask != 0 && !is_single(boxes.get(x)) {
                return Some(Half { var: x, mask });
            }
        }
    }
    None
}

/// The half of the least value.
fn least_half(boxes: &Row, x: usize) -> Half {
    Half {
        var: x,
        mask: least_bit(boxes.get(x)),
    }
}

/// The split that the way picks; none where every searched variable has one value.
pub(crate) fn split_of(
    way: Way,
    boxes: &Row,
    hints: &[Option<i64>],
    search: usize,
) -> Option<Half> {
    let x = first_undecided(boxes, search)?;
    match way {
        Way::First => Some(least_half(boxes, x)),
        Way::Small => Some(least_half(boxes, smallest_undecided(boxes, search)?)),
        Way::Former => match first_hinted(boxes, hints, search) {
            Some(half) => Some(half),
            None => Some(least_half(boxes, x)),
        },
        Way::Greatest => Some(Half {
            var: x,
            mask: greatest_bit(boxes.get(x)),
        }),
    }
}
