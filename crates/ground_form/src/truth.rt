//! Whether a constraint is true at values.
//!
//! `holds_at` looks at the kind and asks one function for it, which walks the constraint's list
//! once. `AllDiff` and `Pack` compare each place of their list with the others. Nothing takes
//! memory, and no sum overflows within the bounds that the constraint keeps.
ghost use Rattle.std.specs.Prelude.{◌≡◌, ◌<◌, ◌≤◌, ◌^◌, ◌+◌, ◌*◌, ◌+ℤ◌, ◌*ℤ◌, ◌≤ℤ◌, ◌&&◌, ◌||◌, not, cond, pos, length, unsigned_abs, int_le};
ghost use Rattle.std.specs.List.{All};
ghost use Rattle.std.specs.Ordering.{int_eq};
ghost use Rattle.signed_clause.specs.Ranges.{has};
ghost use Rattle.signed_clause.specs.Clauses.{clause_true};
ghost use Rattle.ground_form.specs.Meaning.{value_of, bit, sum_at, parts_true, picks, lacks, all_differ, load_at, rooms_hold, con_true, vars_of};
ghost use Rattle.ground_form.specs.Bounds.{weight_of, IsBounded, IsPackBounded, singles, most_sum};

use crate::con::Con;
use crate::sums::Number;
use signed_clause::IntSet;

/// Whether the constraint is true at the values. It takes no memory.
pub fn holds_at(con: &Con, values: &[i64]) -> bool
    requires variables { All (λ x. x < length values.now) (vars_of con.now) }
    requires bounded { IsBounded con.now (singles values.now) }
    ensures { result ≡ con_true con.now values.now }
{
    match con {
        Con::LinLe { terms, bound } => sum_is_at_most(terms.items(), values, *bound),
        Con::LinDef { out, terms, offset } => is_sum(values, *out, terms.items(), *offset),
        Con::ReifLe { flag, terms, bound } => {
            is_flag(values, *flag, sum_is_at_most(terms.items(), values, *bound))
        }
        Con::AndDef { flag, parts } => is_flag(values, *flag, parts_hold(parts.items(), values)),
        Con::MemberDef { flag, var, set } => is_flag(values, *flag, is_member(values, *var, set)),
        Con::EqDef { flag, left, right } => is_flag(
            values,
            *flag,
            are_equal(values, *left, *right),
        ),
        Con::ElementDef { out, index, items } => is_picked(values, *out, *index, items.items()),
        Con::CondDef { out, flag, item } => is_conditional(values, *out, *flag, *item),
        Con::ClauseCon { clause } => clause_holds(clause.clause().literals(), values),
        Con::AllDiff { vars } => all_different(vars.items(), values),
        Con::Pack { items } => all_fit(items.items(), values),
    }
}

/// The value of a variable.
fn value(values: &[i64], x: u32) -> Number
    requires { x < length values.now }
    ensures { result.value ≡ value_of values.now x }
{
    Number {
        value: values[x as usize],
    }
}

/// Whether two variables have the same value.
fn are_equal(values: &[i64], left: u32, right: u32) -> bool
    requires left { left < length values.now }
    requires right { right < length values.now }
    ensures { result ≡ int_eq (value_of values.now left) (value_of values.now right) }
{
    value(values, left).value == value(values, right).value
}

/// Whether a variable has the value that stands for the truth.
fn is_flag(values: &[i64], flag: u32, truth: bool) -> bool
    requires { flag < length values.now }
    ensures { result ≡ int_eq (value_of values.now flag) (bit truth) }
{
    value(values, flag).value == i64::from(truth)
}

/// Whether a variable's value is in the set.
fn is_member(values: &[i64], var: u32, set: &IntSet) -> bool
    requires { var < length values.now }
    ensures { result ≡ has set.now (value_of values.now var) }
{
    set.contains(value(values, var).value)
}

/// Whether `out` has the item's value and the flag is set, or both are 0.
fn is_conditional(values: &[i64], out: u32, flag: u32, item: u32) -> bool
    requires out { out < length values.now }
    requires flag { flag < length values.now }
    requires item { item < length values.now }
    ensures { result ≡ ((int_eq (value_of values.now flag) (pos 1)
        && int_eq (value_of values.now out) (value_of values.now item))
        || (int_eq (value_of values.now flag) (pos 0) && int_eq (value_of values.now out) (pos 0))) }
{
    (is_flag(values, flag, true) && are_equal(values, out, item))
        || (is_flag(values, flag, false) && is_flag(values, out, false))
}

/// Whether the item's value is that of the index, and its variable has the value of `out`.
fn is_item(t: (i64, u32), values: &[i64], out: u32, index: u32) -> bool
    requires variable { t.1 < length values.now }
    requires out { out < length values.now }
    requires index { index < length values.now }
    ensures { result ≡ (int_eq t.0 (value_of values.now index)
        && int_eq (value_of values.now t.1) (value_of values.now out)) }
{
    t.0 == value(values, index).value && are_equal(values, t.1, out)
}

/// Whether some item is so.
fn is_picked(values: &[i64], out: u32, index: u32, items: &[(i64, u32)]) -> bool
    requires variables { All (λ t. t.1 < length values.now) items.now }
    requires out { out < length values.now }
    requires index { index < length values.now }
    ensures { result ≡ picks (value_of values.now out) (value_of values.now index)
        items.now values.now }
{
    for t in items {
        if is_item(*t, values, out, index) {
            return true;
        }
    }
    false
}

/// Whether each part has the truth that it wants.
fn parts_hold(parts: &[(u32, bool)], values: &[i64]) -> bool
    requires { All (λ p. p.0 < length values.now) parts.now }
    ensures { result ≡ parts_true parts.now values.now }
{
    for p in parts {
        if !is_flag(values, p.0, p.1) {
            return false;
        }
    }
    true
}

/// Whether some literal's set holds its variable's value.
fn clause_holds(lits: &[(u32, IntSet)], values: &[i64]) -> bool
    requires { All (λ l. l.0 < length values.now) lits.now }
    ensures { result ≡ clause_true lits.now values.now }
{
    for l in lits {
        if literal_holds(l, values) {
            return true;
        }
    }
    false
}

/// Whether the literal's set holds its variable's value.
fn literal_holds(l: &(u32, IntSet), values: &[i64]) -> bool
    requires { l.now.0 < length values.now }
    ensures { result ≡ has l.now.1 (value_of values.now l.now.0) }
{
    is_member(values, l.0, &l.1)
}

/// Whether the values at different places of the list differ.
fn all_different(vars: &[u32], values: &[i64]) -> bool
    requires { All (λ x. x < length values.now) vars.now }
    ensures { result ≡ all_differ vars.now values.now }
{
    for (k, x) in vars.iter().enumerate() {
        if !none_equals(&vars[k + 1..], values, *x) {
            return false;
        }
    }
    true
}

/// Whether none of the variables has the value of `of`.
fn none_equals(vars: &[u32], values: &[i64], of: u32) -> bool
    requires variables { All (λ x. x < length values.now) vars.now }
    requires of { of < length values.now }
    ensures { result ≡ lacks (value_of values.now of) vars.now values.now }
{
    for x in vars {
        if are_equal(values, *x, of) {
            return false;
        }
    }
    true
}

/// What a term is at the values.
fn term_at(t: (i64, u32), values: &[i64]) -> Number
    requires variable { t.1 < length values.now }
    requires fits { unsigned_abs t.0 * unsigned_abs (value_of values.now t.1) ≤ most_sum }
    ensures { result.value ≡ t.0 *ℤ value_of values.now t.1 }
{
    Number {
        value: t.0 * value(values, t.1).value,
    }
}

/// What the terms add up to.
fn sum_of(terms: &[(i64, u32)], values: &[i64]) -> Number
    requires variables { All (λ t. t.1 < length values.now) terms.now }
    requires fits { weight_of terms.now (singles values.now) ≤ most_sum }
    ensures value { result.value ≡ sum_at terms.now values.now }
    ensures fits { unsigned_abs result.value ≤ weight_of terms.now (singles values.now) }
{
    let mut sum = Number { value: 0 };
    for t in terms {
        sum = sum.plus(term_at(*t, values));
    }
    sum
}

/// Whether the terms add up to at most the bound.
fn sum_is_at_most(terms: &[(i64, u32)], values: &[i64], bound: i64) -> bool
    requires variables { All (λ t. t.1 < length values.now) terms.now }
    requires fits { weight_of terms.now (singles values.now) ≤ most_sum }
    ensures { result ≡ int_le (sum_at terms.now values.now) bound }
{
    sum_of(terms, values).value <= bound
}

/// Whether a variable is what the terms and the offset add up to.
fn is_sum(values: &[i64], out: u32, terms: &[(i64, u32)], offset: i64) -> bool
    requires variables { All (λ t. t.1 < length values.now) terms.now }
    requires out { out < length values.now }
    requires fits { weight_of terms.now (singles values.now) + unsigned_abs offset ≤ most_sum }
    ensures { result ≡ int_eq (value_of values.now out) (sum_at terms.now values.now +ℤ offset) }
{
    value(values, out).value == sum_of(terms, values).plus(Number { value: offset }).value
}

/// Whether each item's place has no more load than the item's room.
fn all_fit(items: &[(u32, u32, u32)], values: &[i64]) -> bool
    requires places { All (λ i. i.0 < length values.now) items.now }
    requires sizes { All (λ i. i.1 < length values.now) items.now }
    requires rooms { All (λ i. i.2 < length values.now) items.now }
    requires bounded { IsPackBounded items.now (singles values.now) }
    ensures { result ≡ rooms_hold items.now items.now values.now }
{
    for i in items {
        if !fits(*i, items, values) {
            return false;
        }
    }
    true
}

/// Whether the item's place has no more load than its room.
fn fits(i: (u32, u32, u32), items: &[(u32, u32, u32)], values: &[i64]) -> bool
    requires place { i.0 < length values.now }
    requires room { i.2 < length values.now }
    requires places { All (λ i. i.0 < length values.now) items.now }
    requires sizes { All (λ i. i.1 < length values.now) items.now }
    requires bounded { IsPackBounded items.now (singles values.now) }
    ensures { result ≡ int_le (load_at (value_of values.now i.0) items.now values.now)
        (value_of values.now i.2) }
{
    load_of(items, values, i.0).value <= value(values, i.2).value
}

/// The sum with the item's size, where the item is at the place that `of` has.
fn with_item(sum: Number, i: (u32, u32, u32), values: &[i64], of: u32) -> Number
    requires place { i.0 < length values.now }
    requires size { i.1 < length values.now }
    requires of { of < length values.now }
    requires fits { unsigned_abs sum.value + unsigned_abs (value_of values.now i.1) ≤ 2 ^ 61 }
    ensures { result.value ≡ cond (int_eq (value_of values.now i.0) (value_of values.now of))
        (sum.value +ℤ value_of values.now i.1) sum.value }
{
    if are_equal(values, i.0, of) {
        sum.plus(value(values, i.1))
    } else {
        sum
    }
}

/// The load of the place that `of` has.
fn load_of(items: &[(u32, u32, u32)], values: &[i64], of: u32) -> Number
    requires place { of < length values.now }
    requires places { All (λ i. i.0 < length values.now) items.now }
    requires sizes { All (λ i. i.1 < length values.now) items.now }
    requires bounded { IsPackBounded items.now (singles values.now) }
    ensures { result.value ≡ load_at (value_of values.now of) items.now values.now }
{
    let mut sum = Number { value: 0 };
    for i in items {
        sum = with_item(sum, *i, values, of);
    }
    sum
}
