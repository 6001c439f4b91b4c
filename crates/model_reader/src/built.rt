//! What a model is built of.
use class_table::ClassTable;
use conf_types::TypedModel;
use object_alloc::Objects;

/// A model with its table and its objects.
#[derive(Clone, Copy)]
pub struct Built<'a> {
    pub table: &'a ClassTable,
    pub model: &'a TypedModel,
    pub objects: &'a Objects<'a>,
}
