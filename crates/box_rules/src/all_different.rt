//! Values that differ, over a view of boxes.
//!
//! Variables that differ can't be crowded: no interval has fewer numbers than variables whose boxes
//! lie within it. It is enough to look at intervals from where some box begins to where some box
//! ends.
//!
//! Of at most 64 boxes that is counted by slots (`crowding`). Of more, each pair of ends is looked
//! at by itself; an interval with as many numbers as there are variables can't be crowded and isn't
//! counted.
ghost use Rattle.std.specs.Prelude.{◌≡◌, ◌<◌, ◌≤◌, ◌&&◌, ◌+ℤ◌, ◌-ℤ◌, pos, int_le, int_lt, length};
ghost use Rattle.std.specs.List.{All};
ghost use Rattle.signed_clause.specs.Clauses.{box_of};
ghost use Rattle.box_rules.specs.Refuted.{lies_in, count_in, crowded, crowded_from, some_crowded};

use crate::crowding::are_few_crowded;
use crate::flags::{greatest, least};
use box_view::View;
use ground_form::Number;

/// Whether the box of `x` lies within `a..b`.
fn does_lie_in<V: View>(view: &V, x: u32, a: Number, b: Number) -> bool
    requires { x < length (V.boxes view.now) }
    ensures { result ≡ lies_in a.value b.value (box_of (V.boxes view.now) x) }
{
    let ends = view.ends(x);
    a.value <= ends.0 && ends.1 <= b.value
}

/// How many variables have a box within `a..b`.
fn count_in<V: View>(view: &V, vars: &[u32], a: Number, b: Number) -> usize
    requires { All (λ x. x < length (V.boxes view.now)) vars.now }
    ensures { result ≡ count_in a.value b.value vars.now (V.boxes view.now) }
{
    let mut count = 0;
    for x in vars {
        if does_lie_in(view, *x, a, b) {
            count += 1;
        }
    }
    count
}

/// Whether `count` is more than `a..b` has numbers, of which it has some.
fn is_more(count: usize, a: Number, b: Number) -> bool
    ensures { result ≡ (int_le a.value b.value && int_lt ((b.value -ℤ a.value) +ℤ pos 1)
        (pos count)) }
{
    a.value <= b.value && 0 < count && b.value.abs_diff(a.value) < count as u64 - 1
}

/// Whether more variables than `a..b` has numbers have a box within it. Only where there are more
/// variables than numbers are they counted.
#[tactic(auto, using(crate::proofs::FewVars::no_more))]
fn is_crowded<V: View>(view: &V, vars: &[u32], a: Number, b: Number) -> bool
    requires { All (λ x. x < length (V.boxes view.now)) vars.now }
    ensures { result ≡ crowded a.value b.value vars.now (V.boxes view.now) }
{
    is_more(vars.len(), a, b) && is_more(count_in(view, vars, a, b), a, b)
}

/// Whether that is so from `a` to where some box ends.
fn is_crowded_from<V: View>(view: &V, vars: &[u32], a: Number) -> bool
    requires { All (λ x. x < length (V.boxes view.now)) vars.now }
    ensures { result ≡ crowded_from a.value vars.now vars.now (V.boxes view.now) }
{
    for y in vars {
        if is_crowded(view, vars, a, greatest(view, *y)) {
            return true;
        }
    }
    false
}

/// Whether that is so from where some box begins.
fn are_many_crowded<V: View>(view: &V, vars: &[u32]) -> bool
    requires { All (λ x. x < length (V.boxes view.now)) vars.now }
    ensures { result ≡ some_crowded vars.now vars.now (V.boxes view.now) }
{
    for y in vars {
        if is_crowded_from(view, vars, least(view, *y)) {
            return true;
        }
    }
    false
}

/// The rule of values that differ.
pub fn excludes_differing<V: View>(view: &V, vars: &[u32]) -> bool
    requires { All (λ x. x < length (V.boxes view.now)) vars.now }
    ensures { result ≡ some_crowded vars.now vars.now (V.boxes view.now) }
{
    if vars.len() <= 64 {
        are_few_crowded(view, vars)
    } else {
        are_many_crowded(view, vars)
    }
}
