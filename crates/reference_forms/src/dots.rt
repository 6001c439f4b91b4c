//! An attribute of a chosen object as a form.
ghost use Rattle.std.specs.Prelude.{◌≡◌, ◌<◌, true, Some, length, IfOk};
ghost use Rattle.object_alloc.specs.Groups.{parts_of};
ghost use Rattle.form_build.specs.Worlds.{Defines};
ghost use Rattle.conf_eval.specs.Meaning.{first_object};
ghost use Rattle.conf_limits.specs.Measures.{shape_interval, is_narrow};
ghost use Rattle.expr_forms.specs.FormBounds.{IsMap, IsChoiceOf, IsFrom};
ghost use Rattle.expr_forms.specs.Standing.{HasCells};
ghost use Rattle.reference_forms.specs.Candidates.{HaveShape};
ghost use Rattle.reference_forms.specs.Dots.{part_items, IsMappedChoice, IsMappedForm, IsDotForm};

use crate::attributes::{attribute_form, first};
use crate::candidates::candidates_of;
use crate::lists::{chosen_parts, slots_of};
use crate::picks::{chosen_cell, common_number};
use crate::variables::{variable_choice, variable_truth};
use class_table::Resolved;
use expr_forms::{Choice, Form, Listing};
use form_build::{Maker, variable};
use object_alloc::Objects;
use std::alloc::{AllocError, Global};

/// The value that chooses an object, with the one part that the object's attribute holds.
fn part_item(objects: &Objects<'_>, k: u32, pair: (i64, u32)) -> (i64, u32)
    ensures { result ≡ (pair.0, first_object (parts_of objects.now (Some pair.1) k)) }
{
    (pair.0, first(objects.parts(Some(pair.1), k)))
}

/// For each value the part that attribute `k` of the object holds which goes with it.
fn part_items(
    alloc: Global,
    objects: &Objects<'_>,
    k: u32,
    pairs: &[(i64, u32)],
) -> Result<Vec<(i64, u32)>, AllocError>
    ensures { IfOk result (λ items. items.items ≡ part_items objects.now k pairs.now) }
{
    let mut items = Vec::new(alloc);
    for p in pairs {
        items.push(part_item(objects, k, *p))?;
    }
    Ok(items)
}

/// The object that the map gives for the value of `x`: fixed, where it is the same for each.
fn mapped_choice(x: u32, map: Vec<(i64, u32)>) -> Choice
    ensures { IsMappedChoice x map.items result }
{
    match common_number(&map) {
        Some(n) => Choice::Fixed(n),
        None => Choice::Mapped(x, map),
    }
}

/// The form of attribute `k`, of this shape, of the object that the pairs give for the value of
/// `x`: a variable that is its cell, or a list over the parts or the sets of all of them.
fn chosen_form(
    maker: &mut Maker,
    objects: &Objects<'_>,
    x: u32,
    pairs: &[(i64, u32)],
    k: u32,
    shape: Resolved,
) -> Result<Form, AllocError>
    requires there { x < length maker.old.domains }
    requires map { IsMap maker.old.domains (HaveShape objects.now k shape) x pairs.now }
    requires narrow { is_narrow (shape_interval shape) ≡ true }
    requires cells { HasCells objects.now maker.old }
    ensures form { IfOk result (λ f. IsMappedForm objects.now maker.new x pairs.now k shape f) }
    ensures adds { IfOk result (λ f. Defines maker.old maker.new) }
{
    let _count = objects.count();
    let _before = maker.domains();
    match shape {
        Resolved::Span(_, _) => {
            let y = chosen_cell(maker, objects, x, pairs, k, shape)?;
            let _after = maker.domains();
            let number = variable(maker, y)?;
            Ok(Form::Number(number))
        }
        Resolved::Truth => {
            let y = chosen_cell(maker, objects, x, pairs, k, shape)?;
            Ok(Form::Truth(variable_truth(maker, y)))
        }
        Resolved::Choice(enumeration) => {
            let y = chosen_cell(maker, objects, x, pairs, k, shape)?;
            Ok(Form::Choice(enumeration, variable_choice(maker, y)))
        }
        Resolved::Ref(class) => {
            let y = chosen_cell(maker, objects, x, pairs, k, shape)?;
            let _after = maker.domains();
            Ok(Form::Object(class, variable_choice(maker, y)))
        }
        Resolved::One(class) => {
            let parts = part_items(maker.alloc(), objects, k, pairs)?;
            Ok(Form::Object(class, mapped_choice(x, parts)))
        }
        Resolved::Many(_, _) => {
            let members = chosen_parts(maker.alloc(), objects, x, pairs, k)?;
            Ok(Form::List(Listing::Some(members)))
        }
        Resolved::RefSet(class, _) => {
            let members = objects.extent(maker.alloc(), class)?;
            let slots = slots_of(maker.alloc(), objects, pairs, k, members.items())?;
            let map = Vec::from_slice(maker.alloc(), pairs)?;
            Ok(Form::List(Listing::Owned(x, map, slots)))
        }
    }
}

/// The form of attribute `k`, of this shape, of the object that the pairs give for the value of
/// `x`: where they give the same one for every value, that of a known owner.
fn mapped_form(
    maker: &mut Maker,
    objects: &Objects<'_>,
    x: u32,
    pairs: &[(i64, u32)],
    k: u32,
    shape: Resolved,
) -> Result<Form, AllocError>
    requires there { x < length maker.old.domains }
    requires map { IsMap maker.old.domains (HaveShape objects.now k shape) x pairs.now }
    requires narrow { is_narrow (shape_interval shape) ≡ true }
    requires cells { HasCells objects.now maker.old }
    ensures form { IfOk result (λ f. IsMappedForm objects.now maker.new x pairs.now k shape f) }
    ensures adds { IfOk result (λ f. Defines maker.old maker.new) }
{
    if let Some(owner) = common_number(pairs) {
        let form = attribute_form(maker, objects, Some(owner), k, shape)?;
        return Ok(form);
    }
    let form = chosen_form(maker, objects, x, pairs, k, shape)?;
    Ok(form)
}

/// The form of attribute `k`, of this shape, of the object that the choice is; where that is a
/// cell's value, the object is of the class.
pub fn dot_form(
    maker: &mut Maker,
    objects: &Objects<'_>,
    class: u32,
    choice: &Choice,
    k: u32,
    shape: Resolved,
) -> Result<Form, AllocError>
    requires choice { IsChoiceOf maker.old.domains (HaveShape objects.now k shape) choice.now }
    requires class { IsFrom objects.now maker.old.domains class choice.now }
    requires narrow { is_narrow (shape_interval shape) ≡ true }
    requires cells { HasCells objects.now maker.old }
    ensures dot { IfOk result (λ f. IsDotForm objects.now maker.new class choice.now k shape f) }
    ensures adds { IfOk result (λ f. Defines maker.old maker.new) }
{
    match choice {
        Choice::Fixed(n) => {
            let form = attribute_form(maker, objects, Some(*n), k, shape)?;
            Ok(form)
        }
        Choice::Cell(x) => {
            let pairs = candidates_of(maker, objects, class, *x)?;
            let form = mapped_form(maker, objects, *x, &pairs, k, shape)?;
            Ok(form)
        }
        Choice::Mapped(x, pairs) => {
            let form = mapped_form(maker, objects, *x, pairs, k, shape)?;
            Ok(form)
        }
    }
}
