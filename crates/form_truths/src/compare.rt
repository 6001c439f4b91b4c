//! Sums compared with 0, as truths.
//!
//! A sum of one variable asks whether its value lies in a set, which takes no new variable. A sum
//! of none is fixed.
ghost use Rattle.std.specs.Prelude.{◌≡◌, ◌<◌, ◌≤◌, ◌-ℤ◌, ℕ, ℤ, Bool, List, [], true, not, int_le, length, unsigned_abs, pos, IfOk, IfSome};
ghost use Rattle.std.specs.Ordering.{int_eq};
ghost use Rattle.signed_clause.specs.Ranges.{has, in_range, IsValid};
ghost use Rattle.signed_clause.specs.Clauses.{box_of};
ghost use Rattle.ground_form.specs.Meaning.{value_of, bit};
ghost use Rattle.ground_form.specs.Bounds.{low_of, high_of, most_sum};
ghost use Rattle.ground_build.specs.Growing.{HasRoom};
ghost use Rattle.form_build.specs.Forms.{linear_at, truth_at, HasVariable};
ghost use Rattle.form_build.specs.Worlds.{IsInBoxes, IsWorld, Defines, IsFew, IsFlagOf};
ghost use Rattle.form_build.specs.Sums.{IsLinear};
ghost use Rattle.form_truths.specs.Lines.{line_at, IsSpan, IsLineOf, IsLineOver};

use crate::lines::{Line, Span, at_most, zero};
use form_build::{Linear, Maker, Truth, settled};
use ground_form::ends_of;
use signed_clause::IntSet;
use std::alloc::{AllocError, Global};

/// Whether the value of the variable is in the set, as a truth: a fixed one where the box tells.
pub fn literal(boxes: &[IntSet], x: u32, set: IntSet) -> Truth
    requires exists { x < length boxes.now }
    ensures variable { HasVariable (length boxes.now) result }
    ensures value { (a : List ℤ) → IsInBoxes boxes.now a → truth_at result a
        ≡ has set (value_of a x) }
{
    let at = &boxes[x as usize];
    if set.disjoint(at) {
        Truth::Fixed(false)
    } else if at.within(&set) {
        Truth::Fixed(true)
    } else {
        Truth::In(x, set)
    }
}

/// A line over the values of a variable.
#[derive(Clone, Copy)]
pub struct Only {
    /// The line.
    pub line: Line,
    /// The variable.
    pub variable: u32,
}

/// The line that a sum of one term is.
fn only_line(f: &Linear) -> Option<Only>
    ensures { IfSome result (λ o. IsLineOf o.line o.variable f.now) }
{
    match f.terms.items() {
        [t] => Some(Only {
            line: Line {
                factor: t.0,
                offset: f.offset,
            },
            variable: t.1,
        }),
        _ => None,
    }
}

/// The values from the least to the greatest.
fn span_of(set: &IntSet) -> Span
    ensures low { result.low ≡ low_of set.now }
    ensures high { result.high ≡ high_of set.now }
    ensures valid { IsValid set.now }
{
    set.ranges();
    let ends = ends_of(set);
    Span {
        low: ends.0,
        high: ends.1,
    }
}

/// The span of a variable's box.
fn span_at(boxes: &[IntSet], x: u32) -> Span
    requires { x < length boxes.now }
    ensures low { result.low ≡ low_of (box_of boxes.now x) }
    ensures high { result.high ≡ high_of (box_of boxes.now x) }
    ensures valid { IsValid (box_of boxes.now x) }
{
    span_of(&boxes[x as usize])
}

/// The same over a maker's problem.
fn span_in(m: &Maker, x: u32) -> Span
    requires { x < length m.now.domains }
    ensures low { result.low ≡ low_of (box_of m.now.domains x) }
    ensures high { result.high ≡ high_of (box_of m.now.domains x) }
    ensures valid { IsValid (box_of m.now.domains x) }
{
    span_at(m.domains(), x)
}

/// Whether a variable's value lies in the span, as a truth.
fn within(m: &Maker, x: u32, span: Span) -> Truth
    requires exists { x < length m.now.domains }
    requires span { IsSpan span }
    ensures variable { HasVariable (length m.now.domains) result }
    ensures value { (a : List ℤ) → IsInBoxes m.now.domains a
        → truth_at result a ≡ in_range (span.low, span.high) (value_of a x) }
{
    literal(
        m.domains(),
        x,
        IntSet::range(m.alloc(), span.low, span.high),
    )
}

/// Whether the line is at most 0 at the value of the variable, as a truth.
fn line_below(m: &Maker, o: Only) -> Truth
    requires exists { o.variable < length m.now.domains }
    requires line { IsLineOver m.now.domains o.variable o.line }
    ensures variable { HasVariable (length m.now.domains) result }
    ensures value { (a : List ℤ) → IsInBoxes m.now.domains a
        → truth_at result a ≡ int_le (line_at o.line (value_of a o.variable)) (pos 0) }
{
    let span = span_in(m, o.variable);
    match at_most(o.line, span) {
        Some(r) => within(m, o.variable, r),
        None => Truth::Fixed(false),
    }
}

/// Whether the line is 0 at the value of the variable, as a truth.
fn line_zero(m: &Maker, o: Only) -> Truth
    requires exists { o.variable < length m.now.domains }
    requires line { IsLineOver m.now.domains o.variable o.line }
    ensures variable { HasVariable (length m.now.domains) result }
    ensures value { (a : List ℤ) → IsInBoxes m.now.domains a
        → truth_at result a ≡ int_eq (line_at o.line (value_of a o.variable)) (pos 0) }
{
    let span = span_in(m, o.variable);
    match zero(o.line, span) {
        Some(r) => within(m, o.variable, r),
        None => Truth::Fixed(false),
    }
}

/// Whether a flag is 1. It takes no memory.
pub fn is_one(alloc: Global, flag: u32) -> Truth
    ensures variable { (n : ℕ) → flag < n → HasVariable n result }
    ensures value { (a : List ℤ) (b : Bool) → value_of a flag ≡ bit b → truth_at result a ≡ b }
{
    Truth::In(flag, IntSet::range(alloc, 1, 1))
}

/// Whether a flag is 0. It takes no memory.
pub fn is_nought(alloc: Global, flag: u32) -> Truth
    ensures variable { (n : ℕ) → flag < n → HasVariable n result }
    ensures value { (a : List ℤ) (b : Bool) → value_of a flag ≡ bit b
        → truth_at result a ≡ not b }
{
    Truth::In(flag, IntSet::range(alloc, 0, 0))
}

/// The number with the other sign.
pub(crate) fn minus(f: &Linear) -> i64
    requires { unsigned_abs f.now.offset ≤ most_sum }
    ensures { result ≡ pos 0 -ℤ f.now.offset }
{
    -f.offset
}

/// Whether the sum names no variable.
pub(crate) fn is_number(f: &Linear) -> bool
    ensures { result ≡ true → f.now.terms ≡ [] }
{
    f.terms.items().is_empty()
}

/// Whether the offset is at most 0.
fn offset_below(f: &Linear) -> bool
    ensures { result ≡ int_le f.now.offset (pos 0) }
{
    f.offset <= 0
}

/// Whether the offset is 0.
fn offset_zero(f: &Linear) -> bool
    ensures { result ≡ int_eq f.now.offset (pos 0) }
{
    f.offset == 0
}

/// A flag that says whether the sum is at most 0.
fn flag_below(m: &mut Maker, f: &Linear) -> Result<u32, AllocError>
    requires room { HasRoom m.old }
    requires linear { IsLinear most_sum m.old.domains f.now }
    ensures flag { IfOk result (λ y. IsFlagOf m.new y (λ a. int_le (linear_at f.now a) (pos 0))) }
    ensures adds { IfOk result (λ y. Defines m.old m.new) }
    ensures few { IfOk result (λ y. IsFew 1 m.old m.new) }
{
    let y = m.at_most(f.terms.items(), minus(f))?;
    Ok(y)
}

/// Whether the sum is at most 0, as a truth.
pub fn is_below(m: &mut Maker, f: &Linear) -> Result<Truth, AllocError>
    requires room { HasRoom m.old }
    requires linear { IsLinear most_sum m.old.domains f.now }
    ensures variable { IfOk result (λ t. HasVariable (length m.new.domains) t) }
    ensures value { IfOk result (λ t. (a : List ℤ) → IsWorld m.new a
        → truth_at t a ≡ int_le (linear_at f.now a) (pos 0)) }
    ensures adds { IfOk result (λ t. Defines m.old m.new) }
    ensures few { IfOk result (λ t. IsFew 1 m.old m.new) }
{
    if is_number(f) {
        return Ok(Truth::Fixed(offset_below(f)));
    }
    if let Some(o) = only_line(f) {
        return Ok(line_below(m, o));
    }
    let y = flag_below(m, f)?;
    Ok(is_one(m.alloc(), y))
}

/// Whether the sum is 0, as a truth.
pub fn is_zero(m: &mut Maker, f: &Linear) -> Result<Truth, AllocError>
    requires room { HasRoom m.old }
    requires linear { IsLinear most_sum m.old.domains f.now }
    ensures variable { IfOk result (λ t. HasVariable (length m.new.domains) t) }
    ensures value { IfOk result (λ t. (a : List ℤ) → IsWorld m.new a
        → truth_at t a ≡ int_eq (linear_at f.now a) (pos 0)) }
    ensures adds { IfOk result (λ t. Defines m.old m.new) }
    ensures few { IfOk result (λ t. IsFew 1 m.old m.new) }
{
    if is_number(f) {
        return Ok(Truth::Fixed(offset_zero(f)));
    }
    if let Some(o) = only_line(f) {
        return Ok(line_zero(m, o));
    }
    let y = settled(m, f)?;
    Ok(literal(m.domains(), y, IntSet::range(m.alloc(), 0, 0)))
}
