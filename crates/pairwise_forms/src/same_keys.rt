//! Whether two variables have the same value.
ghost use Rattle.std.specs.Prelude.{◌≡◌, ◌<◌, ℤ, List, true, false, length, IfOk};
ghost use Rattle.std.specs.Ordering.{int_eq};
ghost use Rattle.signed_clause.specs.Ranges.{HaveNoCommonValue};
ghost use Rattle.signed_clause.specs.Clauses.{box_of};
ghost use Rattle.ground_form.specs.Meaning.{value_of};
ghost use Rattle.form_build.specs.Forms.{truth_at, HasVariable};
ghost use Rattle.form_build.specs.Worlds.{IsWorld, Defines};

use form_build::{Maker, Truth};
use form_truths::same_truth;
use signed_clause::IntSet;
use std::alloc::AllocError;

/// Whether the boxes of the variables have no value in common.
fn are_apart(boxes: &[IntSet], x: u32, y: u32) -> bool
    requires left { x < length boxes.now }
    requires right { y < length boxes.now }
    ensures { result ≡ true → HaveNoCommonValue (box_of boxes.now x) (box_of boxes.now y) }
{
    boxes[x as usize].disjoint(&boxes[y as usize])
}

/// Whether two variables have the same value. Where the boxes tell nothing is made.
pub(crate) fn same_keys(maker: &mut Maker, x: u32, y: u32) -> Result<Truth, AllocError>
    requires left { x < length maker.old.domains }
    requires right { y < length maker.old.domains }
    ensures variable { IfOk result (λ t. HasVariable (length maker.new.domains) t) }
    ensures value { IfOk result (λ t. (a : List ℤ) → IsWorld maker.new a
        → truth_at t a ≡ int_eq (value_of a x) (value_of a y)) }
    ensures adds { IfOk result (λ t. Defines maker.old maker.new) }
{
    if x == y {
        return Ok(Truth::Fixed(true));
    }
    if are_apart(maker.domains(), x, y) {
        return Ok(Truth::Fixed(false));
    }
    maker.ask(1)?;
    let t = same_truth(maker, x, y, true)?;
    Ok(t)
}

/// Whether the truth surely doesn't hold.
pub(crate) fn is_out(t: &Truth) -> bool
    ensures { result ≡ true → (a : List ℤ) → truth_at t.now a ≡ false }
{
    match t {
        Truth::Fixed(b) => !*b,
        Truth::In(_, _) => false,
    }
}
