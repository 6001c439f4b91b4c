//! An attribute of any shape as a form.
ghost use Rattle.std.specs.Prelude.{◌≡◌, ◌++◌, true, Some, IfOk};
ghost use Rattle.object_alloc.specs.declared.object.Domain.{Domain as ADomain};
ghost use Rattle.object_alloc.specs.Cells.{domain_of};
ghost use Rattle.conf_eval.specs.Fitting.{HasShape};
ghost use Rattle.conf_eval.specs.Meaning.{first_object};
ghost use Rattle.conf_limits.specs.Measures.{shape_interval, is_narrow};
ghost use Rattle.expr_forms.specs.Standing.{HasCells};
ghost use Rattle.expr_forms.specs.FixedForms.{is_part, is_fixed_form};
ghost use Rattle.reference_forms.specs.Attributes.{IsCellOf, IsAttributeForm};

use crate::sets::set_members;
use crate::variables::{variable_choice, variable_truth};
use class_table::Resolved;
use expr_forms::{Choice, Form, Listing};
use form_build::{Maker, variable};
use object_alloc::Objects;
use std::alloc::{AllocError, Global};

/// The first of these numbers, 0 where there is none.
pub fn first(numbers: &[u32]) -> u32
    ensures { result ≡ first_object numbers.now }
{
    match numbers.first() {
        Some(number) => *number,
        None => 0,
    }
}

/// The variable of the one cell of an attribute, where its shape has one.
fn cell_of(maker: &Maker, objects: &Objects<'_>, owner: Option<u32>, k: u32, shape: Resolved) -> u32
    requires shape { HasShape objects.now owner k shape }
    requires cells { HasCells objects.now maker.now }
    ensures cell { (values : ADomain) → domain_of objects.now shape ≡ Some values
        → IsCellOf objects.now maker.now owner k values result }
{
    let _count = objects.count();
    let _search = maker.search();
    first(objects.own_cells(owner, k))
}

/// A copy of these numbers.
fn copied(alloc: Global, numbers: &[u32]) -> Result<Vec<u32>, AllocError>
    ensures { IfOk result (λ copy. copy.items ≡ numbers.now) }
{
    let mut copy = Vec::new(alloc);
    for n in numbers {
        copy.push(*n)?;
    }
    Ok(copy)
}

/// The form of attribute `k` of the owner, or of variable `k` of the top level, which has this
/// shape.
pub fn attribute_form(
    maker: &Maker,
    objects: &Objects<'_>,
    owner: Option<u32>,
    k: u32,
    shape: Resolved,
) -> Result<Form, AllocError>
    requires shape { HasShape objects.now owner k shape }
    requires narrow { is_narrow (shape_interval shape) ≡ true }
    requires cells { HasCells objects.now maker.now }
    ensures form { IfOk result (λ f. IsAttributeForm objects.now maker.now owner k shape f) }
    ensures fixed { is_part shape ≡ true → IfOk result (λ f. is_fixed_form f ≡ true) }
{
    let _count = objects.count();
    let _domains = maker.domains();
    match shape {
        Resolved::Span(_, _) => {
            let x = cell_of(maker, objects, owner, k, shape);
            let number = variable(maker, x)?;
            Ok(Form::Number(number))
        }
        Resolved::Truth => {
            let x = cell_of(maker, objects, owner, k, shape);
            Ok(Form::Truth(variable_truth(maker, x)))
        }
        Resolved::Choice(enumeration) => {
            let x = cell_of(maker, objects, owner, k, shape);
            Ok(Form::Choice(enumeration, variable_choice(maker, x)))
        }
        Resolved::Ref(class) => {
            let x = cell_of(maker, objects, owner, k, shape);
            Ok(Form::Object(class, variable_choice(maker, x)))
        }
        Resolved::One(class) => {
            let object = first(objects.parts(owner, k));
            Ok(Form::Object(class, Choice::Fixed(object)))
        }
        Resolved::Many(_, _) => {
            let parts = copied(maker.alloc(), objects.parts(owner, k))?;
            Ok(Form::List(Listing::All(parts)))
        }
        Resolved::RefSet(_, _) => {
            let members = set_members(maker, objects, objects.own_cells(owner, k))?;
            Ok(Form::List(Listing::Some(members)))
        }
    }
}
