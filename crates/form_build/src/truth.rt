//! Truths: the one that holds where another doesn't.
ghost use Rattle.std.specs.Prelude.{◌≡◌, List, ℤ, true, not, length, IfOk};
ghost use Rattle.signed_clause.specs.Ranges.{has};
ghost use Rattle.form_build.specs.Forms.{truth_at, HasVariable};
ghost use Rattle.form_build.specs.Worlds.{IsInBoxes};

use crate::form::Truth;
use signed_clause::IntSet;
use std::alloc::{AllocError, Global};

/// All values from a set's least to its greatest, none of the empty one. It takes no memory.
fn hull(alloc: Global, set: &IntSet) -> IntSet
    ensures { (v : ℤ) → has set.now v ≡ true → has result v ≡ true }
{
    match (set.least(), set.greatest()) {
        (Some(least), Some(greatest)) => {
            if least <= greatest {
                IntSet::range(alloc, least, greatest)
            } else {
                IntSet::empty(alloc)
            }
        }
        _ => IntSet::empty(alloc),
    }
}

/// The truth that holds in the boxes exactly where this one doesn't. Its set lies between the ends
/// of the variable's box, so a box of many ranges isn't copied.
pub fn turned(alloc: Global, boxes: &[IntSet], t: &Truth) -> Result<Truth, AllocError>
    requires variable { HasVariable (length boxes.now) t.now }
    ensures variable { IfOk result (λ u. HasVariable (length boxes.now) u) }
    ensures value { IfOk result (λ u. (a : List ℤ)
        → IsInBoxes boxes.now a → truth_at u a ≡ not (truth_at t.now a)) }
{
    match t {
        Truth::Fixed(b) => Ok(Truth::Fixed(!*b)),
        Truth::In(x, set) => {
            let all = hull(alloc, &boxes[*x as usize]);
            let rest = all.less(set)?;
            Ok(Truth::In(*x, rest))
        }
    }
}
