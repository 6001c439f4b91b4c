//! Flags, conjunctions, memberships, equalities, elements, conditionals and clauses over a view of
//! boxes.
//!
//! One function for each rule, and small ones that ask of one variable. None takes memory; a list
//! is walked once, up to the first item that decides.
ghost use Rattle.std.specs.Prelude.{◌≡◌, ◌<◌, ◌&&◌, ◌||◌, not, pos, int_le, int_lt, true, false, length};
ghost use Rattle.std.specs.List.{All};
ghost use Rattle.signed_clause.specs.Ranges.{has};
ghost use Rattle.signed_clause.specs.SetAlgebra.{is_disjoint, is_within};
ghost use Rattle.signed_clause.specs.Clauses.{box_of, false_in};
ghost use Rattle.ground_form.specs.Meaning.{bit};
ghost use Rattle.ground_form.specs.Bounds.{low_of, high_of};
ghost use Rattle.box_rules.specs.Gaps.{IsGap};
ghost use Rattle.box_rules.specs.Refuted.{fixed_at, barred, some_barred, all_fixed, same_single, none_picked};

use box_view::View;
use ground_form::Number;
use signed_clause::IntSet;

/// Whether the flag can't have the truth.
pub fn is_barred<V: View>(view: &V, flag: u32, truth: bool) -> bool
    requires { flag < length (V.boxes view.now) }
    ensures { result ≡ barred (V.boxes view.now) flag truth }
{
    if truth {
        !view.has(flag, 1)
    } else {
        !view.has(flag, 0)
    }
}

/// Whether the box of `x` is the value alone.
pub fn is_fixed_at<V: View>(view: &V, x: u32, at: Number) -> bool
    requires { x < length (V.boxes view.now) }
    ensures { result ≡ fixed_at (box_of (V.boxes view.now) x) at.value }
{
    let ends = view.ends(x);
    ends.0 == at.value && ends.1 == at.value && !view.is_empty(x)
}

/// Whether the part can't be as it wants.
fn is_part_barred<V: View>(view: &V, p: (u32, bool)) -> bool
    requires { p.0 < length (V.boxes view.now) }
    ensures { result ≡ barred (V.boxes view.now) p.0 p.1 }
{
    is_barred(view, p.0, p.1)
}

/// Whether the part is fixed at what it wants.
fn is_part_fixed<V: View>(view: &V, p: (u32, bool)) -> bool
    requires { p.0 < length (V.boxes view.now) }
    ensures { result ≡ fixed_at (box_of (V.boxes view.now) p.0) (bit p.1) }
{
    is_fixed_at(
        view,
        p.0,
        Number {
            value: i64::from(p.1),
        },
    )
}

/// Whether some part can't be as it wants.
fn is_some_barred<V: View>(view: &V, parts: &[(u32, bool)]) -> bool
    requires { All (λ p. p.0 < length (V.boxes view.now)) parts.now }
    ensures { result ≡ some_barred parts.now (V.boxes view.now) }
{
    for p in parts {
        if is_part_barred(view, *p) {
            return true;
        }
    }
    false
}

/// Whether each part is fixed at what it wants.
fn are_all_fixed<V: View>(view: &V, parts: &[(u32, bool)]) -> bool
    requires { All (λ p. p.0 < length (V.boxes view.now)) parts.now }
    ensures { result ≡ all_fixed parts.now (V.boxes view.now) }
{
    for p in parts {
        if !is_part_fixed(view, *p) {
            return false;
        }
    }
    true
}

/// Whether a flag can be neither: not 1 since it is barred or denied, and not 0 since it is barred
/// or held.
pub fn is_flag_excluded<V: View>(view: &V, flag: u32, denied: bool, held: bool) -> bool
    requires { flag < length (V.boxes view.now) }
    ensures { result ≡ ((barred (V.boxes view.now) flag true || denied)
        && (barred (V.boxes view.now) flag false || held)) }
{
    (is_barred(view, flag, true) || denied) && (is_barred(view, flag, false) || held)
}

/// The rule of a conjunction.
pub fn excludes_conjunction<V: View>(view: &V, flag: u32, parts: &[(u32, bool)]) -> bool
    requires flag { flag < length (V.boxes view.now) }
    requires parts { All (λ p. p.0 < length (V.boxes view.now)) parts.now }
    ensures { result ≡ ((barred (V.boxes view.now) flag true || some_barred parts.now (V.boxes view.now))
        && (barred (V.boxes view.now) flag false || all_fixed parts.now (V.boxes view.now))) }
{
    (is_barred(view, flag, true) || is_some_barred(view, parts))
        && (is_barred(view, flag, false) || are_all_fixed(view, parts))
}

/// The rule of a membership.
pub fn excludes_member<V: View>(view: &V, flag: u32, var: u32, set: &IntSet) -> bool
    requires flag { flag < length (V.boxes view.now) }
    requires var { var < length (V.boxes view.now) }
    ensures { result ≡ ((barred (V.boxes view.now) flag true || is_disjoint (box_of (V.boxes view.now) var) set.now)
        && (barred (V.boxes view.now) flag false || is_within (box_of (V.boxes view.now) var) set.now)) }
{
    (is_barred(view, flag, true) || view.is_disjoint(var, set))
        && (is_barred(view, flag, false) || view.is_within(var, set))
}

/// Whether both boxes are the same single value.
fn is_same_single<V: View>(view: &V, left: u32, right: u32) -> bool
    requires left { left < length (V.boxes view.now) }
    requires right { right < length (V.boxes view.now) }
    ensures { result ≡ same_single (box_of (V.boxes view.now) left)
        (box_of (V.boxes view.now) right) }
{
    let at = least(view, left);
    is_fixed_at(view, left, at) && is_fixed_at(view, right, at)
}

/// The least value of the box of `x`, 0 where it is empty.
pub fn least<V: View>(view: &V, x: u32) -> Number
    requires { x < length (V.boxes view.now) }
    ensures { result.value ≡ low_of (box_of (V.boxes view.now) x) }
{
    Number {
        value: view.ends(x).0,
    }
}

/// The greatest value of the box of `x`, 0 where it is empty.
pub fn greatest<V: View>(view: &V, x: u32) -> Number
    requires { x < length (V.boxes view.now) }
    ensures { result.value ≡ high_of (box_of (V.boxes view.now) x) }
{
    Number {
        value: view.ends(x).1,
    }
}

/// The rule of an equality.
pub fn excludes_equality<V: View>(view: &V, flag: u32, left: u32, right: u32) -> bool
    requires flag { flag < length (V.boxes view.now) }
    requires left { left < length (V.boxes view.now) }
    requires right { right < length (V.boxes view.now) }
    ensures { result ≡ ((barred (V.boxes view.now) flag true || is_disjoint (box_of (V.boxes view.now) left) (box_of (V.boxes view.now) right))
        && (barred (V.boxes view.now) flag false || same_single (box_of (V.boxes view.now) left) (box_of (V.boxes view.now) right))) }
{
    (is_barred(view, flag, true) || view.are_disjoint(left, right))
        && (is_barred(view, flag, false) || is_same_single(view, left, right))
}

/// Whether the item can't be picked: its value isn't in the index's box, or its variable's box
/// misses that of `out`.
fn is_not_picked<V: View>(view: &V, out: u32, index: u32, t: (i64, u32)) -> bool
    requires out { out < length (V.boxes view.now) }
    requires index { index < length (V.boxes view.now) }
    requires item { t.1 < length (V.boxes view.now) }
    ensures { result ≡ (not (has (box_of (V.boxes view.now) index) t.0)
        || is_disjoint (box_of (V.boxes view.now) t.1) (box_of (V.boxes view.now) out)) }
{
    !view.has(index, t.0) || view.are_disjoint(t.1, out)
}

/// Numbers from one up to another one, this one left out, none of which the index's box has.
#[derive(Clone, Copy)]
pub struct Gap {
    /// The first of them.
    pub from: Number,
    /// The one behind them.
    pub to: Number,
}

/// Whether the item's value is in the gap.
fn is_in_gap(gap: Gap, t: (i64, u32)) -> bool
    ensures { result ≡ (int_le gap.from.value t.0 && int_lt t.0 gap.to.value) }
{
    gap.from.value <= t.0 && t.0 < gap.to.value
}

/// The gap that begins with the number; it is empty where the index's box has that.
fn gap_from<V: View>(view: &V, index: u32, from: Number) -> Gap
    requires { index < length (V.boxes view.now) }
    ensures { IsGap (box_of (V.boxes view.now) index) result }
{
    match view.first_from(index, from) {
        Some(to) => Gap { from, to },
        None => Gap {
            from,
            to: Number { value: i64::MAX },
        },
    }
}

/// The item's value.
fn value_of(t: (i64, u32)) -> Number
    ensures { result.value ≡ t.0 }
{
    Number { value: t.0 }
}

/// Whether the item can't be picked, which a gap may tell at once.
fn is_passed_over<V: View>(view: &V, out: u32, index: u32, gap: Gap, t: (i64, u32)) -> bool
    requires out { out < length (V.boxes view.now) }
    requires index { index < length (V.boxes view.now) }
    requires item { t.1 < length (V.boxes view.now) }
    requires gap { IsGap (box_of (V.boxes view.now) index) gap }
    ensures { result ≡ (not (has (box_of (V.boxes view.now) index) t.0)
        || is_disjoint (box_of (V.boxes view.now) t.1) (box_of (V.boxes view.now) out)) }
{
    is_in_gap(gap, t) || is_not_picked(view, out, index, t)
}

/// The gap for the items behind this one: another one where the index's box lacks its value.
fn next_gap<V: View>(view: &V, index: u32, gap: Gap, t: (i64, u32)) -> Gap
    requires index { index < length (V.boxes view.now) }
    requires gap { IsGap (box_of (V.boxes view.now) index) gap }
    ensures { IsGap (box_of (V.boxes view.now) index) result }
{
    if is_in_gap(gap, t) || view.has(index, t.0) {
        gap
    } else {
        gap_from(view, index, value_of(t))
    }
}

/// The rule of an element. Items whose values lie between two values of the index's box are passed
/// over by a comparison, where they stand in the order of their values.
pub fn excludes_element<V: View>(view: &V, out: u32, index: u32, items: &[(i64, u32)]) -> bool
    requires out { out < length (V.boxes view.now) }
    requires index { index < length (V.boxes view.now) }
    requires items { All (λ t. t.1 < length (V.boxes view.now)) items.now }
    ensures { result ≡ none_picked (box_of (V.boxes view.now) out) (box_of (V.boxes view.now) index)
        items.now (V.boxes view.now) }
{
    let mut gap = gap_from(view, index, Number { value: i64::MIN });
    for t in items {
        if !is_passed_over(view, out, index, gap, *t) {
            return false;
        }
        gap = next_gap(view, index, gap, *t);
    }
    true
}

/// The rule of a conditional.
pub fn excludes_conditional<V: View>(view: &V, out: u32, flag: u32, item: u32) -> bool
    requires out { out < length (V.boxes view.now) }
    requires flag { flag < length (V.boxes view.now) }
    requires item { item < length (V.boxes view.now) }
    ensures { result ≡ ((barred (V.boxes view.now) flag true || is_disjoint (box_of (V.boxes view.now) out) (box_of (V.boxes view.now) item))
        && (barred (V.boxes view.now) flag false || not (has (box_of (V.boxes view.now) out) (pos 0)))) }
{
    (is_barred(view, flag, true) || view.are_disjoint(out, item))
        && (is_barred(view, flag, false) || !view.has(out, 0))
}

/// Whether the literal's set misses its box.
fn is_literal_false<V: View>(view: &V, l: &(u32, IntSet)) -> bool
    requires { l.now.0 < length (V.boxes view.now) }
    ensures { result ≡ is_disjoint l.now.1 (box_of (V.boxes view.now) l.now.0) }
{
    view.is_disjoint(l.0, &l.1)
}

/// The rule of a clause.
pub fn excludes_clause<V: View>(view: &V, literals: &[(u32, IntSet)]) -> bool
    requires { All (λ l. l.0 < length (V.boxes view.now)) literals.now }
    ensures { result ≡ false_in (V.boxes view.now) literals.now }
{
    for l in literals {
        if !is_literal_false(view, l) {
            return false;
        }
    }
    true
}
