//! What is asked of a model.
use conf_types::TypedModel;
use object_alloc::Objects;
use reconfigure::Repair;

/// A model, with its objects, and where one is wanted a repair of it: without one the best of the
/// configurations that satisfy it is asked for, with one the best that names nothing failed and
/// changes the fewest former values.
#[derive(Clone, Copy)]
pub struct Question<'a> {
    /// The model's constraints and objectives.
    pub model: &'a TypedModel,
    /// Its objects.
    pub objects: &'a Objects<'a>,
    /// The former values and what failed since.
    pub repair: Option<&'a Repair>,
}
