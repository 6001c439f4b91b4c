//! Rows that count the same items, each in a bin of its own. No promise rests on which are found.
use form_build::Maker;
use ground_form::Con;
use stated_facts::question;
use std::alloc::AllocError;

/// So many groups, the last ones, are looked at for each row.
const MOST_GROUPS: usize = 8;

/// An item that a row counts.
#[derive(Clone, Copy)]
pub(crate) struct Counted {
    /// The variable of the bin.
    pub var: u32,
    /// The size.
    pub size: i64,
    /// The flag that tells whether it is in the row's bin.
    pub flag: u32,
}

/// A row that counts items in a bin.
#[derive(Drop)]
pub(crate) struct Counting {
    /// Which constraint it is.
    pub row: usize,
    /// The bin.
    pub bin: u64,
    /// The items, by ascending variables.
    pub items: Vec<Counted>,
    /// Whether it says how much is there at least, and not at most.
    pub is_least: bool,
    /// Whether it has other terms too.
    pub is_open: bool,
}

/// The rows that count items in bins.
#[derive(Drop)]
pub(crate) struct Sides {
    /// Those that say how much is there at most.
    pub most: Vec<Counting>,
    /// Those that say how much is there at least, by what they count.
    pub least: Vec<Counting>,
}

/// How much an item with this factor counts, on one side or the other.
fn size_of(factor: i64, is_least: bool) -> i64 {
    if is_least {
        factor.saturating_neg()
    } else {
        factor
    }
}

/// Adds an item where the term's flag tells of one in the row's bin, which is that of the first.
fn push_counted(
    maker: &Maker,
    indexes: &[usize],
    c: &mut Counting,
    t: (i64, u32),
) -> Result<(), AllocError> {
    let Some((var, bin)) = question(maker, indexes, t.1) else {
        return Ok(());
    };
    let size = size_of(t.0, c.is_least);
    if c.items.is_empty() {
        c.bin = bin;
    }
    if c.bin == bin && size > 0 {
        c.items.push(Counted {
            var,
            size,
            flag: t.1,
        })?;
    }
    Ok(())
}

/// What the terms of a row count, on one side.
fn counting_of(
    maker: &Maker,
    indexes: &[usize],
    terms: &[(i64, u32)],
    row: usize,
    is_least: bool,
) -> Result<Counting, AllocError> {
    let mut c = Counting {
        row,
        bin: 0,
        items: Vec::new(maker.alloc()),
        is_least,
        is_open: false,
    };
    for t in terms {
        push_counted(maker, indexes, &mut c, *t)?;
    }
    c.items.sort_unstable_by_key(|i| i.var);
    c.is_open = c.items.len() < terms.len();
    Ok(c)
}

/// The row that constraint k is, where it counts items in a bin on this side.
fn counting_at(
    maker: &Maker,
    indexes: &[usize],
    k: usize,
    is_least: bool,
) -> Result<Option<Counting>, AllocError> {
    let Some(Con::LinLe { terms, .. }) = maker.cons().get(k) else {
        return Ok(None);
    };
    let c = counting_of(maker, indexes, terms.items(), k, is_least)?;
    if c.items.len() < 2 {
        return Ok(None);
    }
    Ok(Some(c))
}

/// Whether both rows count the same items.
fn count_same(c: &Counting, o: &Counting) -> bool {
    if c.items.len() != o.items.len() {
        return false;
    }
    for i in 0..c.items.len() {
        let (a, b) = (c.items[i], o.items[i]);
        if a.var != b.var || a.size != b.size {
            return false;
        }
    }
    true
}

/// Whether the row can be one of a group: it counts the same in a bin of its own.
fn can_join(group: &[Counting], c: &Counting) -> bool {
    for o in group {
        if o.bin == c.bin || !count_same(o, c) {
            return false;
        }
    }
    true
}

/// Which of the last groups the row can join.
fn group_for(groups: &[Vec<Counting>], c: &Counting) -> Option<usize> {
    for k in 0..groups.len().min(MOST_GROUPS) {
        let i = groups.len() - 1 - k;
        if can_join(groups[i].as_slice(), c) {
            return Some(i);
        }
    }
    None
}

/// Puts the row into a group, its own where it fits into none.
fn place(maker: &Maker, groups: &mut Vec<Vec<Counting>>, c: Counting) -> Result<(), AllocError> {
    match group_for(groups.as_slice(), &c) {
        Some(i) if i < groups.len() => {
            groups[i].push(c)?;
        }
        _ => {
            let mut own = Vec::new(maker.alloc());
            own.push(c)?;
            groups.push(own)?;
        }
    }
    Ok(())
}

/// The rows that count the same items, each in a bin of its own, in groups; of those alone that
/// have other terms too.
pub(crate) fn groups_of(
    maker: &Maker,
    rows: Vec<Counting>,
) -> Result<Vec<Vec<Counting>>, AllocError> {
    let mut groups = Vec::new(maker.alloc());
    for c in rows {
        if c.is_open {
            place(maker, &mut groups, c)?;
        }
    }
    Ok(groups)
}

// ---- both sides

/// What rows that count the same have in common: the bin, the first item, and how many there are.
fn key_of(c: &Counting) -> (u64, u32, usize) {
    match c.items.first() {
        Some(i) => (c.bin, i.var, c.items.len()),
        None => (c.bin, 0, 0),
    }
}

/// The rows that count items in bins, on both sides.
pub(crate) fn sides_of(maker: &Maker, indexes: &[usize]) -> Result<Sides, AllocError> {
    let mut most = Vec::new(maker.alloc());
    let mut least = Vec::new(maker.alloc());
    for k in 0..maker.cons().len() {
        if let Some(c) = counting_at(maker, indexes, k, false)? {
            most.push(c)?;
        }
        if let Some(c) = counting_at(maker, indexes, k, true)? {
            least.push(c)?;
        }
    }
    least.sort_unstable_by_key(|c| key_of(c));
    Ok(Sides { most, least })
}

/// A row that says how much is there at least of what the row counts, by its constraint.
pub(crate) fn least_of(least: &[Counting], c: &Counting) -> Option<usize> {
    let key = key_of(c);
    let first = least.partition_point(|o| key_of(o) < key);
    for k in first..least.len().min(first.saturating_add(MOST_GROUPS)) {
        if key_of(&least[k]) == key && count_same(&least[k], c) {
            return Some(least[k].row);
        }
    }
    None
}

/// The flags that ask where the item of this number is, each with its bin.
pub(crate) fn flags_of(
    maker: &Maker,
    group: &[Counting],
    i: usize,
) -> Result<Vec<(u32, u64)>, AllocError> {
    let mut flags = Vec::new(maker.alloc());
    for c in group {
        if i < c.items.len() {
            flags.push((c.items[i].flag, c.bin))?;
        }
    }
    Ok(flags)
}
