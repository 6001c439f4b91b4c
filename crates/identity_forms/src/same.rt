//! Whether two choices are the same object.
ghost use Rattle.std.specs.Prelude.{◌≡◌, ◌<◌, ℤ, List, true, length, nat_eq, IfOk};
ghost use Rattle.std.specs.List.{list_any};
ghost use Rattle.std.specs.Ordering.{int_eq};
ghost use Rattle.signed_clause.specs.Ranges.{HaveNoCommonValue};
ghost use Rattle.signed_clause.specs.Clauses.{box_of};
ghost use Rattle.ground_form.specs.Meaning.{value_of};
ghost use Rattle.form_build.specs.Forms.{truth_at, HasVariable};
ghost use Rattle.form_build.specs.Worlds.{IsInBoxes, IsWorld, Defines};
ghost use Rattle.expr_forms.specs.FormValues.{choice_at};
ghost use Rattle.identity_forms.specs.Choices.{IsChoice, IsCell, is_mapped, AreGroups};

use crate::groups::{Groups, groups_of, objects_of};
use crate::literals::{is_number, is_object};
use crate::pairs::push_both;
use expr_forms::Choice;
use form_build::{Maker, Truth};
use form_truths::{Disjunction, same_truth, truth_in_blocks};
use signed_clause::IntSet;
use std::alloc::AllocError;

/// Whether the boxes of the variables have no value in common.
fn are_apart(boxes: &[IntSet], x: u32, y: u32) -> bool
    requires left { x < length boxes.now }
    requires right { y < length boxes.now }
    ensures { result ≡ true → HaveNoCommonValue (box_of boxes.now x) (box_of boxes.now y) }
{
    boxes[x as usize].disjoint(&boxes[y as usize])
}

/// Whether two variables have the same value.
fn same_values(maker: &mut Maker, x: u32, y: u32) -> Result<Truth, AllocError>
    requires left { x < length maker.old.domains }
    requires right { y < length maker.old.domains }
    ensures variable { IfOk result (λ t. HasVariable (length maker.new.domains) t) }
    ensures value { IfOk result (λ t. (a : List ℤ) → IsWorld maker.new a
        → truth_at t a ≡ int_eq (value_of a x) (value_of a y)) }
    ensures adds { IfOk result (λ t. Defines maker.old maker.new) }
{
    if x == y {
        return Ok(Truth::Fixed(true));
    }
    if are_apart(maker.domains(), x, y) {
        return Ok(Truth::Fixed(false));
    }
    maker.ask(1)?;
    let t = same_truth(maker, x, y, true)?;
    Ok(t)
}

/// Whether both choices are the same one of these objects. The first is always among them.
fn same_among(
    maker: &mut Maker,
    c: &Choice,
    c_groups: &Groups,
    d: &Choice,
    d_groups: &Groups,
    objects: &[u32],
) -> Result<Truth, AllocError>
    requires left { IsChoice maker.old.domains c.now }
    requires left_groups { AreGroups c.now c_groups.now.entries }
    requires right { IsChoice maker.old.domains d.now }
    requires right_groups { AreGroups d.now d_groups.now.entries }
    requires among { (a : List ℤ) → IsInBoxes maker.old.domains a
        → list_any (nat_eq (choice_at c.now a)) objects.now ≡ true }
    ensures variable { IfOk result (λ t. HasVariable (length maker.new.domains) t) }
    ensures value { IfOk result (λ t. (a : List ℤ) → IsWorld maker.new a
        → truth_at t a ≡ nat_eq (choice_at c.now a) (choice_at d.now a)) }
    ensures adds { IfOk result (λ t. Defines maker.old maker.new) }
{
    let mut some = Disjunction::new(maker.alloc());
    for n in objects {
        let left = is_object(maker, c, c_groups, *n)?;
        let right = is_object(maker, d, d_groups, *n)?;
        push_both(maker, &mut some, &left, &right)?;
    }
    let t = truth_in_blocks(maker, &some)?;
    Ok(t)
}

/// Whether both are the same one of the objects that the map gives by which the first is made.
fn same_by_map(maker: &mut Maker, c: &Choice, d: &Choice) -> Result<Truth, AllocError>
    requires left { IsChoice maker.old.domains c.now }
    requires mapped { is_mapped c.now ≡ true }
    requires right { IsChoice maker.old.domains d.now }
    ensures variable { IfOk result (λ t. HasVariable (length maker.new.domains) t) }
    ensures value { IfOk result (λ t. (a : List ℤ) → IsWorld maker.new a
        → truth_at t a ≡ nat_eq (choice_at c.now a) (choice_at d.now a)) }
    ensures adds { IfOk result (λ t. Defines maker.old maker.new) }
{
    let c_groups = groups_of(maker.alloc(), c)?;
    let d_groups = groups_of(maker.alloc(), d)?;
    let objects = objects_of(maker.alloc(), &c_groups)?;
    let t = same_among(maker, c, &c_groups, d, &d_groups, &objects)?;
    Ok(t)
}

/// Whether both are the same object, where the first is made by a map.
fn same_as_mapped(maker: &mut Maker, c: &Choice, d: &Choice) -> Result<Truth, AllocError>
    requires left { IsChoice maker.old.domains c.now }
    requires mapped { is_mapped c.now ≡ true }
    requires right { IsChoice maker.old.domains d.now }
    ensures variable { IfOk result (λ t. HasVariable (length maker.new.domains) t) }
    ensures value { IfOk result (λ t. (a : List ℤ) → IsWorld maker.new a
        → truth_at t a ≡ nat_eq (choice_at c.now a) (choice_at d.now a)) }
    ensures adds { IfOk result (λ t. Defines maker.old maker.new) }
{
    if let Choice::Fixed(n) = d {
        let t = is_number(maker, c, *n)?;
        return Ok(t);
    }
    let t = same_by_map(maker, c, d)?;
    Ok(t)
}

/// Whether both are the same object, where the first is the value of a variable.
fn same_as_cell(maker: &mut Maker, x: u32, c: &Choice, d: &Choice) -> Result<Truth, AllocError>
    requires left { IsChoice maker.old.domains c.now }
    requires cell { IsCell x c.now }
    requires right { IsChoice maker.old.domains d.now }
    ensures variable { IfOk result (λ t. HasVariable (length maker.new.domains) t) }
    ensures value { IfOk result (λ t. (a : List ℤ) → IsWorld maker.new a
        → truth_at t a ≡ nat_eq (choice_at c.now a) (choice_at d.now a)) }
    ensures adds { IfOk result (λ t. Defines maker.old maker.new) }
{
    match d {
        Choice::Fixed(n) => {
            let t = is_number(maker, c, *n)?;
            Ok(t)
        }
        Choice::Cell(y) => {
            let t = same_values(maker, x, *y)?;
            Ok(t)
        }
        Choice::Mapped(_, _) => {
            let t = same_by_map(maker, d, c)?;
            Ok(t)
        }
    }
}

/// Whether two choices are the same object, or the same value of an enumeration. Where one of them
/// is fixed, or both are made from one variable, this is one literal; of the values of two
/// variables it is a flag, and else a disjunction over the objects that a map gives.
pub fn same_choice(maker: &mut Maker, c: &Choice, d: &Choice) -> Result<Truth, AllocError>
    requires left { IsChoice maker.old.domains c.now }
    requires right { IsChoice maker.old.domains d.now }
    ensures variable { IfOk result (λ t. HasVariable (length maker.new.domains) t) }
    ensures value { IfOk result (λ t. (a : List ℤ) → IsWorld maker.new a
        → truth_at t a ≡ nat_eq (choice_at c.now a) (choice_at d.now a)) }
    ensures adds { IfOk result (λ t. Defines maker.old maker.new) }
{
    match c {
        Choice::Fixed(n) => {
            let t = is_number(maker, d, *n)?;
            Ok(t)
        }
        Choice::Cell(x) => {
            let t = same_as_cell(maker, *x, c, d)?;
            Ok(t)
        }
        Choice::Mapped(_, _) => {
            let t = same_as_mapped(maker, c, d)?;
            Ok(t)
        }
    }
}
