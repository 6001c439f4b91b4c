//! Literals that are collected one by one, and the sets that they take of domains.
//!
//! A set that is said of a variable which has a literal already joins that one, so that the
//! literals are of different variables whatever stands twice.
//!
//! So a variable may stand twice in any roles.
ghost use Rattle.std.specs.Prelude.{◌≡◌, ◌≤◌, ◌<◌, ◌≤ℤ◌, ◌&&◌, ◌++◌, ℤ, pos, negsuc, [], ◌∷◌, IfOk, IfSome, OnOk, int_lt, length, slice_index_or, slice_set};
ghost use Rattle.signed_clause.specs.Ranges.{has, IsValid};
ghost use Rattle.signed_clause.specs.SetAlgebra.{join};
ghost use Rattle.pack_prop.specs.Collected.{with_set, said};

use ground_form::Number;
use signed_clause::IntSet;
use std::alloc::{AllocError, Global};

/// Adds the set to what the literals say of the variable.
fn say_some(literals: &mut Vec<(u32, IntSet)>, y: u32, set: IntSet) -> Result<(), AllocError>
    ensures { OnOk result (literals.new.items ≡ with_set y set literals.old.items) }
{
    let mut k = 0;
    while k < literals.len() {
        if literals[k].0 == y {
            let joined = literals[k].1.join(&set)?;
            literals[k].1 = joined;
            return Ok(());
        }
        k += 1;
    }
    literals.push((y, set))?;
    Ok(())
}

/// Adds the set to what the literals say of the variable, where it isn't empty.
///
/// # Errors
/// Want of memory.
pub fn say(literals: &mut Vec<(u32, IntSet)>, y: u32, set: IntSet) -> Result<(), AllocError>
    ensures { OnOk result (literals.new.items ≡ said y set literals.old.items) }
{
    if set.is_empty() {
        return Ok(());
    }
    say_some(literals, y, set)
}

/// All numbers up to this one.
fn upto(alloc: Global, most: Number) -> IntSet
    ensures { result ≡ (negsuc 9223372036854775807, most.value) ∷ [] }
{
    IntSet::range(alloc, i64::MIN, most.value)
}

/// All numbers from this one on.
fn from(alloc: Global, least: Number) -> IntSet
    ensures { result ≡ (least.value, pos 9223372036854775807) ∷ [] }
{
    IntSet::range(alloc, least.value, i64::MAX)
}

/// The values of the set that are greater than the number.
///
/// # Errors
/// Want of memory.
pub fn above(alloc: Global, set: &IntSet, most: Number) -> Result<IntSet, AllocError>
    ensures valid { IfOk result (λ s. IsValid s) }
    ensures values { IfOk result (λ s. (v : ℤ) → has s v ≡ (has set.now v && int_lt most.value v)) }
{
    set.ranges();
    let rest = set.less(&upto(alloc, most))?;
    Ok(rest)
}

/// The values of the set that are less than the number.
///
/// # Errors
/// Want of memory.
pub fn below(alloc: Global, set: &IntSet, least: Number) -> Result<IntSet, AllocError>
    ensures valid { IfOk result (λ s. IsValid s) }
    ensures values { IfOk result (λ s. (v : ℤ) → has s v
        ≡ (has set.now v && int_lt v least.value)) }
{
    set.ranges();
    let rest = set.less(&from(alloc, least))?;
    Ok(rest)
}
