//! Lists of ascending numbers as sets.
ghost use Rattle.std.specs.Prelude.{◌≡◌, ◌++◌, ◌∷◌, [], ℤ, List, IfOk, OnOk};
ghost use Rattle.signed_clause.specs.Union.{fuse};
ghost use Rattle.signed_clause.specs.Merging.{fuse_pending};
ghost use Rattle.ground_cells.specs.CellBoxes.{single, AscendFrom, number_ranges};

use signed_clause::IntSet;
use std::alloc::{AllocError, Global};

/// Takes in a number that isn't less than those of the pending range: where there is a gap, the
/// pending range is done.
fn absorb(
    out: &mut Vec<(i64, i64)>,
    pending: Option<(i64, i64)>,
    n: u32,
) -> Result<(i64, i64), AllocError>
    ensures { IfOk result (λ p. (rs : List (ℤ × ℤ))
        → out.old.items ++ fuse_pending pending (single n ∷ rs)
        ≡ out.new.items ++ fuse p.0 p.1 rs) }
{
    let v = i64::from(n);
    match pending {
        None => Ok((v, v)),
        Some((low, high)) => {
            if high < v - 1 {
                out.push((low, high))?;
                Ok((v, v))
            } else {
                Ok((low, high.max(v)))
            }
        }
    }
}

/// Adds the pending range, if there is one.
fn push_pending(out: &mut Vec<(i64, i64)>, pending: Option<(i64, i64)>) -> Result<(), AllocError>
    ensures { OnOk result (out.new.items ≡ out.old.items ++ fuse_pending pending []) }
{
    if let Some(r) = pending {
        out.push(r)?;
    }
    Ok(())
}

/// The ranges of ascending numbers.
fn ranges_of(alloc: Global, numbers: &[u32]) -> Result<Vec<(i64, i64)>, AllocError>
    ensures { IfOk result (λ out. out.items ≡ number_ranges numbers.now) }
{
    let mut out = Vec::new(alloc);
    let mut pending = None;
    for n in numbers {
        pending = Some(absorb(&mut out, pending, *n)?);
    }
    push_pending(&mut out, pending)?;
    Ok(out)
}

/// The set of ascending numbers.
pub fn number_set(alloc: Global, numbers: &[u32]) -> Result<IntSet, AllocError>
    requires ascend { AscendFrom 0 numbers.now }
    ensures list { IfOk result (λ s. s ≡ number_ranges numbers.now) }
{
    let ranges = ranges_of(alloc, numbers)?;
    match IntSet::of(alloc, &ranges)? {
        Some(set) => Ok(set),
        None => unreachable!(),
    }
}
