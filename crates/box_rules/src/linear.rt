//! The rules of the linear kinds, over a view of boxes.
ghost use Rattle.std.specs.Prelude.{◌≡◌, ◌<◌, ◌≤◌, ◌+◌, ◌+ℤ◌, ◌&&◌, ◌||◌, int_lt, int_le, length, unsigned_abs, true, false};
ghost use Rattle.signed_clause.specs.Clauses.{box_of};
ghost use Rattle.ground_form.specs.Bounds.{low_of, high_of, weight_of, least_sum, greatest_sum, most_sum};
ghost use Rattle.box_rules.specs.Refuted.{barred};
ghost use Rattle.box_rules.specs.Named.{AreTermsNamed};

use crate::flags::{greatest, is_barred, least};
use crate::sums::{greatest_sum, least_sum};
use box_view::{View, is_at_most, is_below};
use ground_form::Number;

/// The rule of a sum that is at most the bound.
pub fn excludes_at_most<V: View>(view: &V, terms: &[(i64, u32)], bound: Number) -> bool
    requires terms { AreTermsNamed terms.now (V.boxes view.now) }
    requires fits { weight_of terms.now (V.outer view.now) ≤ most_sum }
    ensures { result ≡ int_lt bound.value (least_sum terms.now (V.boxes view.now)) }
{
    is_below(bound, least_sum(terms, view))
}

/// Whether the greatest sum is at most the bound.
fn is_surely_at_most<V: View>(view: &V, terms: &[(i64, u32)], bound: Number) -> bool
    requires terms { AreTermsNamed terms.now (V.boxes view.now) }
    requires fits { weight_of terms.now (V.outer view.now) ≤ most_sum }
    ensures { result ≡ int_le (greatest_sum terms.now (V.boxes view.now)) bound.value }
{
    is_at_most(greatest_sum(terms, view), bound)
}

/// The rule of a variable that is a sum.
pub fn excludes_sum<V: View>(view: &V, out: u32, terms: &[(i64, u32)], offset: Number) -> bool
    requires out { out < length (V.boxes view.now) }
    requires terms { AreTermsNamed terms.now (V.boxes view.now) }
    requires fits { weight_of terms.now (V.outer view.now) + unsigned_abs offset.value ≤ most_sum }
    ensures { result ≡ (int_lt (greatest_sum terms.now (V.boxes view.now) +ℤ offset.value) (low_of (box_of (V.boxes view.now) out))
        || int_lt (high_of (box_of (V.boxes view.now) out)) (least_sum terms.now (V.boxes view.now) +ℤ offset.value)) }
{
    is_below(greatest_sum(terms, view).plus(offset), least(view, out))
        || is_below(greatest(view, out), least_sum(terms, view).plus(offset))
}

/// The rule of a flag that says whether a sum is at most the bound.
pub fn excludes_reified<V: View>(view: &V, flag: u32, terms: &[(i64, u32)], bound: Number) -> bool
    requires flag { flag < length (V.boxes view.now) }
    requires terms { AreTermsNamed terms.now (V.boxes view.now) }
    requires fits { weight_of terms.now (V.outer view.now) ≤ most_sum }
    ensures { result ≡ ((barred (V.boxes view.now) flag true || int_lt bound.value (least_sum terms.now (V.boxes view.now)))
        && (barred (V.boxes view.now) flag false || int_le (greatest_sum terms.now (V.boxes view.now)) bound.value)) }
{
    (is_barred(view, flag, true) || excludes_at_most(view, terms, bound))
        && (is_barred(view, flag, false) || is_surely_at_most(view, terms, bound))
}
