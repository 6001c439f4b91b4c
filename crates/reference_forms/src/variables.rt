//! A variable as a truth or as a choice: fixed, where its box has one value.
ghost use Rattle.std.specs.Prelude.{◌≡◌, ◌<◌, ℤ, List, pos, nat_abs, int_lt, length, IfSome};
ghost use Rattle.signed_clause.specs.Clauses.{box_of};
ghost use Rattle.ground_form.specs.Bounds.{low_of, high_of};
ghost use Rattle.ground_form.specs.Meaning.{value_of};
ghost use Rattle.form_build.specs.Forms.{truth_at, HasVariable};
ghost use Rattle.form_build.specs.Worlds.{IsInBoxes};
ghost use Rattle.conf_eval.specs.Meaning.{int_same};
ghost use Rattle.expr_forms.specs.FormValues.{choice_at};
ghost use Rattle.reference_forms.specs.Attributes.{IsOnly, IsCellChoice};

use expr_forms::Choice;
use form_build::{Maker, Truth};
use ground_form::ends_of;
use signed_clause::IntSet;

/// The ends of a variable's box.
pub fn ends_at(boxes: &[IntSet], x: u32) -> (i64, i64)
    requires { x < length boxes.now }
    ensures { result ≡ (low_of (box_of boxes.now x), high_of (box_of boxes.now x)) }
{
    ends_of(&boxes[x as usize])
}

/// Whether there is more than one number between the ends.
fn are_apart(ends: (i64, i64)) -> bool
    ensures { result ≡ int_lt ends.0 ends.1 }
{
    ends.0 < ends.1
}

/// The ends of a variable's box, where they are its one value.
fn only_value(maker: &Maker, x: u32) -> Option<(i64, i64)>
    requires { x < length maker.now.domains }
    ensures { IfSome result (λ e. IsOnly maker.now.domains x e.0) }
{
    let ends = ends_at(maker.domains(), x);
    if are_apart(ends) {
        return None;
    }
    Some(ends)
}

/// Whether the lesser of two ends is 1.
fn is_one(ends: (i64, i64)) -> bool
    ensures { result ≡ int_same ends.0 (pos 1) }
{
    ends.0 == 1
}

/// Whether the value of a variable is 1.
pub fn variable_truth(maker: &Maker, x: u32) -> Truth
    requires exists { x < length maker.now.domains }
    ensures variable { HasVariable (length maker.now.domains) result }
    ensures value { (a : List ℤ) → IsInBoxes maker.now.domains a
        → truth_at result a ≡ int_same (value_of a x) (pos 1) }
{
    match only_value(maker, x) {
        Some(ends) => Truth::Fixed(is_one(ends)),
        None => Truth::In(x, IntSet::range(maker.alloc(), 1, 1)),
    }
}

/// The number that the lesser of two ends is, if it is one.
fn number_of(ends: (i64, i64)) -> Option<u32>
    ensures { IfSome result (λ n. ends.0 ≡ pos n) }
{
    if ends.0 < 0 || ends.0 > i64::from(u32::MAX) {
        return None;
    }
    Some(ends.0 as u32)
}

/// The object or the enumeration's value whose number the variable's value is.
pub fn variable_choice(maker: &Maker, x: u32) -> Choice
    requires exists { x < length maker.now.domains }
    ensures value { (a : List ℤ) → IsInBoxes maker.now.domains a
        → choice_at result a ≡ nat_abs (value_of a x) }
    ensures choice { IsCellChoice maker.now.domains x result }
{
    let _domains = maker.domains();
    let Some(ends) = only_value(maker, x) else {
        return Choice::Cell(x);
    };
    match number_of(ends) {
        Some(n) => Choice::Fixed(n),
        None => Choice::Cell(x),
    }
}
