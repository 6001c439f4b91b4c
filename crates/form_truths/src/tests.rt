//! Comparisons before they are stated, pushed into a disjunction, or made a truth.
ghost use Rattle.std.specs.Prelude.{◌≡◌, ◌<◌, ◌≤◌, ◌+ℤ◌, ◌+◌, ◌||◌, ℕ, ℤ, Bool, List, [], true, int_le, length, pos, IfOk, OnOk};
ghost use Rattle.std.specs.Ordering.{int_eq};
ghost use Rattle.ground_form.specs.Meaning.{value_of};
ghost use Rattle.ground_form.specs.Bounds.{most_sum};
ghost use Rattle.ground_build.specs.Growing.{HasRoom};
ghost use Rattle.form_build.specs.Forms.{linear_at, truth_at, HasVariable};
ghost use Rattle.form_build.specs.Worlds.{IsWorld, Adds, Defines, IsFew, HasRoomFor};
ghost use Rattle.form_build.specs.Sums.{IsLinear};
ghost use Rattle.form_truths.specs.Disjunctions.{disjunction_at, IsWithin};
ghost use Rattle.form_truths.specs.Tests.{wanted, test_at, IsTest};

use crate::compare::{is_below, is_nought, is_one, is_zero, minus};
use crate::disjunction::Disjunction;
use crate::flags::require;
use form_build::{Linear, Maker, Truth, turned};
use std::alloc::AllocError;

/// A comparison.
#[derive(Drop)]
pub enum Test {
    /// A truth.
    Holds(Truth),
    /// Whether the sum is at most 0.
    AtMost(Linear),
    /// Whether it is so that the sum is 0, or that it isn't.
    Zero(Linear, bool),
    /// Whether it is so that the variables have the same value, or that they haven't.
    Same(u32, u32, bool),
}

/// The truth itself, or the one that holds where it doesn't.
fn as_wanted(m: &Maker, t: Truth, want: bool) -> Result<Truth, AllocError>
    requires variable { HasVariable (length m.now.domains) t }
    ensures variable { IfOk result (λ u. HasVariable (length m.now.domains) u) }
    ensures value { IfOk result (λ u. (a : List ℤ) → IsWorld m.now a
        → truth_at u a ≡ wanted want (truth_at t a)) }
{
    if want {
        return Ok(t);
    }
    let u = turned(m.alloc(), m.domains(), &t)?;
    Ok(u)
}

/// The same truth again.
pub fn copy_truth(t: &Truth) -> Result<Truth, AllocError>
    ensures { IfOk result (λ u. u ≡ t.now) }
{
    Ok(match t {
        Truth::Fixed(b) => Truth::Fixed(*b),
        Truth::In(x, set) => Truth::In(*x, set.copy()?),
    })
}

/// Whether the sum is 0, or isn't, as a truth.
fn zero_truth(m: &mut Maker, f: &Linear, want: bool) -> Result<Truth, AllocError>
    requires room { HasRoom m.old }
    requires linear { IsLinear most_sum m.old.domains f.now }
    ensures variable { IfOk result (λ t. HasVariable (length m.new.domains) t) }
    ensures value { IfOk result (λ t. (a : List ℤ) → IsWorld m.new a
        → truth_at t a ≡ wanted want (int_eq (linear_at f.now a) (pos 0))) }
    ensures adds { IfOk result (λ t. Defines m.old m.new) }
    ensures few { IfOk result (λ t. IsFew 1 m.old m.new) }
{
    let t = is_zero(m, f)?;
    let u = as_wanted(m, t, want)?;
    Ok(u)
}

/// Whether two variables have the same value, or haven't, as a truth.
pub fn same_truth(m: &mut Maker, x: u32, y: u32, want: bool) -> Result<Truth, AllocError>
    requires room { HasRoom m.old }
    requires left { x < length m.old.domains }
    requires right { y < length m.old.domains }
    ensures variable { IfOk result (λ t. HasVariable (length m.new.domains) t) }
    ensures value { IfOk result (λ t. (a : List ℤ) → IsWorld m.new a
        → truth_at t a ≡ wanted want (int_eq (value_of a x) (value_of a y))) }
    ensures adds { IfOk result (λ t. Defines m.old m.new) }
    ensures few { IfOk result (λ t. IsFew 1 m.old m.new) }
{
    let flag = m.same(x, y)?;
    if want {
        Ok(is_one(m.alloc(), flag))
    } else {
        Ok(is_nought(m.alloc(), flag))
    }
}

/// The test as a truth.
pub fn truth_of_test(m: &mut Maker, test: &Test) -> Result<Truth, AllocError>
    requires room { HasRoom m.old }
    requires test { IsTest m.old.domains test.now }
    ensures variable { IfOk result (λ t. HasVariable (length m.new.domains) t) }
    ensures value { IfOk result (λ t. (a : List ℤ) → IsWorld m.new a
        → truth_at t a ≡ test_at test.now a) }
    ensures adds { IfOk result (λ t. Defines m.old m.new) }
    ensures few { IfOk result (λ t. IsFew 1 m.old m.new) }
{
    match test {
        Test::Holds(t) => {
            let t = copy_truth(t)?;
            Ok(t)
        }
        Test::AtMost(f) => {
            let t = is_below(m, f)?;
            Ok(t)
        }
        Test::Zero(f, want) => {
            let t = zero_truth(m, f, *want)?;
            Ok(t)
        }
        Test::Same(x, y, want) => {
            let t = same_truth(m, *x, *y, *want)?;
            Ok(t)
        }
    }
}

/// States a truth.
pub fn state_truth(m: &mut Maker, t: Truth) -> Result<(), AllocError>
    requires room { HasRoom m.old }
    requires variable { HasVariable (length m.old.domains) t }
    ensures says { OnOk result (Adds [] m.old m.new (λ a. truth_at t a)) }
    ensures few { OnOk result (IsFew 1 m.old m.new) }
{
    let mut d = Disjunction::new(m.alloc());
    d.push(t)?;
    require(m, d)?;
    Ok(())
}

/// Adds the test as a truth.
pub fn push_test(m: &mut Maker, d: &mut Disjunction, test: &Test) -> Result<(), AllocError>
    requires room { HasRoom m.old }
    requires test { IsTest m.old.domains test.now }
    ensures value { OnOk result ((a : List ℤ) → IsWorld m.new a
        → disjunction_at d.new a ≡ (test_at test.now a || disjunction_at d.old a)) }
    ensures exist { OnOk result (IsWithin (length m.old.domains) d.old.1
        → IsWithin (length m.new.domains) d.new.1) }
    ensures length { OnOk result (length d.new.1 ≤ length d.old.1 + 1) }
    ensures adds { OnOk result (Defines m.old m.new) }
    ensures few { OnOk result (IsFew 1 m.old m.new) }
{
    let t = truth_of_test(m, test)?;
    d.push(t)?;
    Ok(())
}

/// Whether the sum names two variables or more.
fn is_wide(f: &Linear) -> bool {
    f.terms.items().len() > 1
}

/// States that the sum is at most 0, as a row.
fn state_row(m: &mut Maker, f: &Linear) -> Result<(), AllocError>
    requires room { HasRoom m.old }
    requires linear { IsLinear most_sum m.old.domains f.now }
    ensures says { OnOk result (Adds [] m.old m.new (λ a. int_le (linear_at f.now a) (pos 0))) }
    ensures few { OnOk result (IsFew 1 m.old m.new) }
{
    m.require_at_most(f.terms.items(), minus(f))?;
    Ok(())
}

/// States that the sum is at most 0.
pub fn state_below(m: &mut Maker, f: &Linear) -> Result<(), AllocError>
    requires room { HasRoomFor 2 m.old }
    requires linear { IsLinear most_sum m.old.domains f.now }
    ensures says { OnOk result (Adds [] m.old m.new (λ a. int_le (linear_at f.now a) (pos 0))) }
    ensures few { OnOk result (IsFew 2 m.old m.new) }
{
    if is_wide(f) {
        state_row(m, f)?;
        return Ok(());
    }
    let t = is_below(m, f)?;
    state_truth(m, t)?;
    Ok(())
}

/// States that the sum is at most 0, and at least 0.
fn state_rows(m: &mut Maker, f: &Linear) -> Result<(), AllocError>
    requires room { HasRoomFor 2 m.old }
    requires linear { IsLinear most_sum m.old.domains f.now }
    ensures says { OnOk result (Adds [] m.old m.new (λ a. int_eq (linear_at f.now a) (pos 0))) }
    ensures few { OnOk result (IsFew 2 m.old m.new) }
{
    let less = f.times(m.alloc(), -1)?;
    state_row(m, f)?;
    state_row(m, &less)?;
    Ok(())
}

/// States the test as a truth.
fn state_as_truth(m: &mut Maker, test: &Test) -> Result<(), AllocError>
    requires room { HasRoomFor 2 m.old }
    requires test { IsTest m.old.domains test.now }
    ensures says { OnOk result (Adds [] m.old m.new (λ a. test_at test.now a)) }
    ensures few { OnOk result (IsFew 2 m.old m.new) }
{
    let t = truth_of_test(m, test)?;
    state_truth(m, t)?;
    Ok(())
}

/// States the test: sums of several variables as rows, all else as a literal.
pub fn state(m: &mut Maker, test: &Test) -> Result<(), AllocError>
    requires room { HasRoomFor 2 m.old }
    requires test { IsTest m.old.domains test.now }
    ensures says { OnOk result (Adds [] m.old m.new (λ a. test_at test.now a)) }
    ensures few { OnOk result (IsFew 2 m.old m.new) }
{
    if let Test::AtMost(f) = test {
        state_below(m, f)?;
        return Ok(());
    }
    if let Test::Zero(f, want) = test {
        if *want && is_wide(f) {
            state_rows(m, f)?;
            return Ok(());
        }
    }
    state_as_truth(m, test)?;
    Ok(())
}
