//! The variables of a class or of the top level, by their numbers.
ghost use Rattle.std.specs.Prelude.{◌≡◌, ◌<◌, length, slice_index_or, IfSome};
ghost use Rattle.class_table.specs.declared.table.Variable.{Variable as AVariable};
ghost use Rattle.object_alloc.specs.Variables.{class_in, variables};

use crate::object::Object;
use class_table::{Attribute, ClassTable, Resolved};

/// How many variables a class has, inherited ones too, or the top level.
pub(crate) fn variable_count(table: &ClassTable, class: Option<u32>) -> u32
    requires class { IfSome class (λ c. c < length table.now.classes) }
    ensures count { result ≡ length (variables table.now class) }
{
    match class {
        Some(class) => table.attribute_count(class),
        None => table.root_count(),
    }
}

/// The shape of a variable of a class or of the top level.
pub(crate) fn shape_at(table: &ClassTable, class: Option<u32>, k: u32) -> Resolved
    requires class { IfSome class (λ c. c < length table.now.classes) }
    requires variable { k < length (variables table.now class) }
    ensures shape { (d : AVariable) → result
        ≡ (slice_index_or (variables table.now class) k d).shape }
{
    match class {
        Some(class) => table.attribute(class, k).shape,
        None => table.root(k).shape,
    }
}

/// A variable of a class or of the top level.
pub(crate) fn variable_at(table: &ClassTable, class: Option<u32>, k: u32) -> Attribute<'_>
    requires class { IfSome class (λ c. c < length table.now.classes) }
    requires variable { k < length (variables table.now class) }
    ensures name { (d : AVariable) → result.name.now
        ≡ (slice_index_or (variables table.now class) k d).name }
    ensures shape { (d : AVariable) → result.shape
        ≡ (slice_index_or (variables table.now class) k d).shape }
{
    match class {
        Some(class) => table.attribute(class, k),
        None => table.root(k),
    }
}

/// The class of an object; None for the top level.
pub(crate) fn class_of(objects: &[Object], owner: Option<u32>) -> Option<u32>
    requires owner { IfSome owner (λ n. n < length objects.now) }
    ensures class { result ≡ class_in objects.now owner }
{
    match owner {
        Some(number) => Some(objects[number as usize].class),
        None => None,
    }
}
