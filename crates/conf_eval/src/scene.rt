//! Where expressions are evaluated.
use object_alloc::Objects;

/// The objects of a model, one value for each of its cells, and the object that is `this`.
#[derive(Clone, Copy)]
pub(crate) struct Scene<'a, 't> {
    pub objects: &'a Objects<'t>,
    pub values: &'a [i64],
    pub this: Option<u32>,
}
