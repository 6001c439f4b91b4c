//! The domains of the variables that a builder defines.
//!
//! Each is as small as the boxes of what it stands on say, so that a search never leaves a range
//! that no values can reach.
ghost use Rattle.std.specs.Prelude.{◌≡◌, ◌<◌, ◌≤◌, ◌+◌, [], length, unsigned_abs, IfOk};
ghost use Rattle.std.specs.List.{All};
ghost use Rattle.signed_clause.specs.Ranges.{IsValid, is_nil};
ghost use Rattle.signed_clause.specs.SetAlgebra.{join};
ghost use Rattle.signed_clause.specs.Clauses.{box_of};
ghost use Rattle.ground_form.specs.Bounds.{weight_of, most_sum};
ghost use Rattle.ground_build.specs.NewDomains.{truth_values, some_empty, linear_domain, picked_domain, when_domain};

use ground_form::{Number, greatest_sum, least_sum};
use signed_clause::IntSet;
use std::alloc::{AllocError, Global};

/// The values of a flag.
pub fn truths(alloc: Global) -> IntSet
    ensures list { result ≡ truth_values }
    ensures valid { IsValid result }
{
    IntSet::range(alloc, 0, 1)
}

/// Whether a variable has an empty box.
fn is_empty_at(boxes: &[IntSet], x: u32) -> bool
    requires { x < length boxes.now }
    ensures { result ≡ is_nil (box_of boxes.now x) }
{
    boxes[x as usize].is_empty()
}

/// Whether some term's variable has an empty box.
fn has_empty(boxes: &[IntSet], terms: &[(i64, u32)]) -> bool
    requires { All (λ t. t.1 < length boxes.now) terms.now }
    ensures { result ≡ some_empty terms.now boxes.now }
{
    for t in terms {
        if is_empty_at(boxes, t.1) {
            return true;
        }
    }
    false
}

/// From the least to the greatest sum, with the offset; empty where a term's box is.
#[tactic(auto, using(crate::proofs::Sums::sums_ordered))]
pub fn sums(alloc: Global, boxes: &[IntSet], terms: &[(i64, u32)], offset: i64) -> IntSet
    requires variables { All (λ t. t.1 < length boxes.now) terms.now }
    requires bounded { weight_of terms.now boxes.now + unsigned_abs offset ≤ most_sum }
    ensures list { result ≡ linear_domain terms.now offset boxes.now }
    ensures valid { IsValid result }
{
    if has_empty(boxes, terms) {
        return IntSet::empty(alloc);
    }
    let offset = Number { value: offset };
    let least = least_sum(terms, boxes).plus(offset);
    let greatest = greatest_sum(terms, boxes).plus(offset);
    IntSet::range(alloc, least.value, greatest.value)
}

/// The boxes of the items' variables, joined.
pub fn picked(alloc: Global, boxes: &[IntSet], items: &[(i64, u32)]) -> Result<IntSet, AllocError>
    requires { All (λ t. t.1 < length boxes.now) items.now }
    ensures list { IfOk result (λ s. s ≡ picked_domain [] items.now boxes.now) }
    ensures valid { IfOk result (λ s. IsValid s) }
{
    let mut made = IntSet::empty(alloc);
    for t in items {
        made = joined(&made, boxes, t.1)?;
    }
    Ok(made)
}

/// The set with a variable's box.
fn joined(made: &IntSet, boxes: &[IntSet], x: u32) -> Result<IntSet, AllocError>
    requires { x < length boxes.now }
    ensures list { IfOk result (λ s. s ≡ join made.now (box_of boxes.now x)) }
    ensures valid { IfOk result (λ s. IsValid s) }
{
    made.join(&boxes[x as usize])
}

/// The item's box and 0.
pub fn item_or_nought(alloc: Global, boxes: &[IntSet], item: u32) -> Result<IntSet, AllocError>
    requires { item < length boxes.now }
    ensures list { IfOk result (λ s. s ≡ when_domain item boxes.now) }
    ensures valid { IfOk result (λ s. IsValid s) }
{
    boxes[item as usize].join(&IntSet::range(alloc, 0, 0))
}
