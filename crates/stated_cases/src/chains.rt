//! What the first entries of a table say together.
ghost use Rattle.std.specs.Prelude.{◌≡◌, IfOk, IfSome, OnOk};
ghost use Rattle.std.specs.List.{All};
ghost use Rattle.ground_form.specs.declared.ground.Ground.{Ground};
ghost use Rattle.stated_cases.specs.Tables.{IsEntry};

use crate::entries::{Entry, both};
use std::alloc::{AllocError, Global};

/// A value, and where the entry is that has it as its least or its greatest.
pub(crate) type Place = (i64, usize);

/// The greatest value that the number may have in each entry, ascending.
pub(crate) fn by_greatest(alloc: Global, entries: &[Entry]) -> Result<Vec<Place>, AllocError> {
    let mut out = Vec::new(alloc);
    for (i, e) in entries.iter().enumerate() {
        out.push((e.values.greatest().unwrap_or(0), i))?;
    }
    out.sort_unstable();
    Ok(out)
}

/// The least value that the number may have in each entry, descending.
pub(crate) fn by_least(alloc: Global, entries: &[Entry]) -> Result<Vec<Place>, AllocError> {
    let mut out = Vec::new(alloc);
    for (i, e) in entries.iter().enumerate() {
        out.push((e.values.least().unwrap_or(0), i))?;
    }
    out.sort_unstable();
    out.reverse();
    Ok(out)
}

/// The same entry again.
fn copy_of(e: &Entry) -> Result<Entry, AllocError>
    ensures { IfOk result (λ f. f ≡ e.now) }
{
    let others = e.others.copy()?;
    let values = e.values.copy()?;
    Ok(Entry {
        index: e.index,
        others,
        number: e.number,
        values,
    })
}

/// The last one of the chain.
fn last_of(chain: &[Entry]) -> Option<&Entry>
    ensures { IfSome result (λ e. (g : Ground) → All (IsEntry g) chain.now → IsEntry g e.now) }
{
    if chain.is_empty() {
        None
    } else {
        Some(&chain[chain.len() - 1])
    }
}

/// The entry at a place.
fn entry_in(entries: &[Entry], i: usize) -> Option<&Entry>
    ensures { IfSome result (λ e. (g : Ground) → All (IsEntry g) entries.now → IsEntry g e.now) }
{
    if i < entries.len() {
        Some(&entries[i])
    } else {
        None
    }
}

/// What the last one of the chain and the entry say together; of none, the entry.
fn next_of(chain: &[Entry], e: &Entry) -> Result<Option<Entry>, AllocError>
    ensures { IfOk result (λ o. IfSome o (λ f. (g : Ground) → IsEntry g e.now
        → All (IsEntry g) chain.now → IsEntry g f)) }
{
    match last_of(chain) {
        Some(last) => {
            let f = both(last, e)?;
            Ok(f)
        }
        None => {
            let f = copy_of(e)?;
            Ok(Some(f))
        }
    }
}

/// Adds an entry to the chain.
fn push_entry(chain: &mut Vec<Entry>, f: Entry) -> Result<(), AllocError>
    ensures { OnOk result ((g : Ground) → IsEntry g f → All (IsEntry g) chain.old.items
        → All (IsEntry g) chain.new.items) }
{
    chain.push(f)?;
    Ok(())
}

/// Adds what the chain's last one and the entry at this place say together.
fn push_next(chain: &mut Vec<Entry>, entries: &[Entry], i: usize) -> Result<(), AllocError>
    ensures { OnOk result ((g : Ground) → All (IsEntry g) entries.now
        → All (IsEntry g) chain.old.items → All (IsEntry g) chain.new.items) }
{
    let Some(e) = entry_in(entries, i) else {
        return Ok(());
    };
    if let Some(f) = next_of(chain.as_slice(), e)? {
        push_entry(chain, f)?;
    }
    Ok(())
}

/// What the first entry says, the first two together, the first three, and so on in this order.
pub(crate) fn chain_of(
    alloc: Global,
    entries: &[Entry],
    order: &[Place],
) -> Result<Vec<Entry>, AllocError>
    ensures { IfOk result (λ chain. (g : Ground) → All (IsEntry g) entries.now
        → All (IsEntry g) chain.items) }
{
    let mut chain = Vec::new(alloc);
    for place in order {
        push_next(&mut chain, entries, place.1)?;
    }
    Ok(chain)
}
