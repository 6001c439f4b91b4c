//! Lists of values as sets.
ghost use Rattle.std.specs.Prelude.{◌≡◌, ℕ, ℤ, pos, map, nat_eq, IfOk};
ghost use Rattle.std.specs.List.{list_any};
ghost use Rattle.std.specs.Ordering.{int_eq};
ghost use Rattle.signed_clause.specs.Ranges.{has};

use signed_clause::IntSet;
use std::alloc::{AllocError, Global};

/// The set of these values, in whatever order they stand. It is made by halves, so that no long set
/// is copied for each value.
pub(crate) fn value_set(alloc: Global, values: &[i64]) -> Result<IntSet, AllocError>
    ensures { IfOk result (λ s. (v : ℤ) → has s v ≡ list_any (λ w. int_eq w v) values.now) }
{
    match values {
        [] => Ok(IntSet::empty(alloc)),
        [v] => Ok(IntSet::range(alloc, *v, *v)),
        more => {
            let half = more.len() / 2;
            let front = value_set(alloc, &more[..half])?;
            let back = value_set(alloc, &more[half..])?;
            let all = front.join(&back)?;
            Ok(all)
        }
    }
}

/// These numbers as values.
fn numbers(alloc: Global, objects: &[u32]) -> Result<Vec<i64>, AllocError>
    ensures { IfOk result (λ vs. vs.items ≡ map pos objects.now) }
{
    let mut values = Vec::new(alloc);
    for n in objects {
        values.push(i64::from(*n))?;
    }
    Ok(values)
}

/// The set of the numbers of these objects.
pub(crate) fn object_set(alloc: Global, objects: &[u32]) -> Result<IntSet, AllocError>
    ensures { IfOk result (λ s. (n : ℕ) → has s (pos n) ≡ list_any (nat_eq n) objects.now) }
{
    let values = numbers(alloc, objects)?;
    let set = value_set(alloc, &values)?;
    Ok(set)
}
