//! Where an expression stands.
ghost use Rattle.std.specs.Prelude.{◌≡◌};

use object_alloc::Objects;

/// The objects of a model, the object that is `this`, the objects of the variables of the
/// quantifiers round an expression, the innermost last, and the cells whose values are known, each
/// with its value.
#[derive(Clone, Copy)]
pub struct Scene<'a, 't> {
    pub objects: &'a Objects<'t>,
    pub this: Option<u32>,
    pub vars: &'a [u32],
    pub known: &'a [(u32, i64)],
}

impl<'a, 't> Scene<'a, 't> {
    /// The same with other objects of variables.
    pub(crate) fn inside<'b>(&self, vars: &'b [u32]) -> Scene<'b, 't>
    where
        'a: 'b,
        ensures objects { result.objects.now ≡ self.now.objects.now }
        ensures this { result.this ≡ self.now.this }
        ensures vars { result.vars.now ≡ vars.now }
        ensures known { result.known.now ≡ self.now.known.now }
    {
        Scene {
            objects: self.objects,
            this: self.this,
            vars,
            known: self.known,
        }
    }
}
