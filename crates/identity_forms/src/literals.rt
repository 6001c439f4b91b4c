//! A question about one choice as a literal.
//!
//! Nothing new is made for it: the answer is fixed, or asks for the value of the choice's variable.
ghost use Rattle.std.specs.Prelude.{◌≡◌, ◌++◌, ◌∷◌, [], ℤ, List, pos, length, nat_eq, IfOk, OnOk};
ghost use Rattle.signed_clause.specs.Ranges.{has};
ghost use Rattle.form_build.specs.Forms.{truth_at, HasVariable};
ghost use Rattle.form_build.specs.Worlds.{IsInBoxes};
ghost use Rattle.expr_forms.specs.FormValues.{choice_at};
ghost use Rattle.identity_forms.specs.Choices.{IsChoice, values_where, AreGroups};

use crate::groups::{Groups, values_of};
use crate::sets::value_set;
use expr_forms::Choice;
use form_build::{Maker, Truth};
use form_truths::literal;
use signed_clause::IntSet;
use std::alloc::{AllocError, Global};

/// Adds the pair's value, where its object is in the set.
fn push_value(set: &IntSet, pair: (i64, u32), values: &mut Vec<i64>) -> Result<(), AllocError>
    ensures { OnOk result (values.new.items
        ≡ values.old.items ++ values_where (λ n. has set.now (pos n)) (pair ∷ [])) }
{
    if set.contains(i64::from(pair.1)) {
        values.push(pair.0)?;
    }
    Ok(())
}

/// The values of a map whose objects are in the set.
fn values_in(alloc: Global, map: &[(i64, u32)], set: &IntSet) -> Result<Vec<i64>, AllocError>
    ensures { IfOk result (λ values. values.items
        ≡ values_where (λ n. has set.now (pos n)) map.now) }
{
    let mut values = Vec::new(alloc);
    for pair in map {
        push_value(set, *pair, &mut values)?;
    }
    Ok(values)
}

/// Whether the object is in the set.
pub(crate) fn is_in(maker: &Maker, c: &Choice, set: IntSet) -> Result<Truth, AllocError>
    requires choice { IsChoice maker.now.domains c.now }
    ensures variable { IfOk result (λ t. HasVariable (length maker.now.domains) t) }
    ensures value { IfOk result (λ t. (a : List ℤ) → IsInBoxes maker.now.domains a
        → truth_at t a ≡ has set (pos (choice_at c.now a))) }
{
    match c {
        Choice::Fixed(n) => Ok(Truth::Fixed(set.contains(i64::from(*n)))),
        Choice::Cell(x) => Ok(literal(maker.domains(), *x, set)),
        Choice::Mapped(x, map) => {
            let values = values_in(maker.alloc(), map, &set)?;
            let those = value_set(maker.alloc(), &values)?;
            Ok(literal(maker.domains(), *x, those))
        }
    }
}

/// Whether the object is this one.
pub(crate) fn is_number(maker: &Maker, c: &Choice, n: u32) -> Result<Truth, AllocError>
    requires choice { IsChoice maker.now.domains c.now }
    ensures variable { IfOk result (λ t. HasVariable (length maker.now.domains) t) }
    ensures value { IfOk result (λ t. (a : List ℤ) → IsInBoxes maker.now.domains a
        → truth_at t a ≡ nat_eq (choice_at c.now a) n) }
{
    let v = i64::from(n);
    let t = is_in(maker, c, IntSet::range(maker.alloc(), v, v))?;
    Ok(t)
}

/// Whether the object is this one, by the values of each object, so that no map is walked for it.
pub(crate) fn is_object(
    maker: &Maker,
    c: &Choice,
    groups: &Groups,
    n: u32,
) -> Result<Truth, AllocError>
    requires choice { IsChoice maker.now.domains c.now }
    requires groups { AreGroups c.now groups.now.entries }
    ensures variable { IfOk result (λ t. HasVariable (length maker.now.domains) t) }
    ensures value { IfOk result (λ t. (a : List ℤ) → IsInBoxes maker.now.domains a
        → truth_at t a ≡ nat_eq (choice_at c.now a) n) }
{
    match c {
        Choice::Fixed(m) => Ok(Truth::Fixed(*m == n)),
        Choice::Cell(_) => {
            let t = is_number(maker, c, n)?;
            Ok(t)
        }
        Choice::Mapped(x, _) => {
            let set = values_of(maker.alloc(), groups, n)?;
            Ok(literal(maker.domains(), *x, set))
        }
    }
}
