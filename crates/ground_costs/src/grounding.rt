//! One model that is made ground.
ghost use Rattle.conf_types.specs.Typing.{IsTypedModel};

use conf_limits::{limits, model_weight};
use conf_types::TypedModel;
use ground_form::Ground;
use ground_model::ground;
use object_alloc::{Objects, allocate};
use std::alloc::{AllocError, Global};
use std::rt::Runtime;
use test_clock::Clock;
use test_models::typed_of;

/// A ground problem, and how long it took.
#[derive(Drop)]
pub(crate) struct Grounded {
    /// The problem.
    pub(crate) ground: Ground,
    /// How much the model's expressions weigh.
    pub(crate) weight: u64,
    /// Nanoseconds of reading, typing and allocating.
    pub(crate) typing_time: u128,
    /// Nanoseconds of making it ground.
    pub(crate) time: u128,
}

/// A typed model made ground; None where its expressions cost too much.
fn make_typed<R: Runtime>(
    rt: &R,
    alloc: Global,
    m: &TypedModel,
    objects: &Objects<'_>,
    typing_time: u128,
) -> Result<Option<Grounded>, AllocError>
    requires typed { IsTypedModel objects.now m.now.constraints m.now.goals }
{
    if limits(m, objects).is_err() {
        return Ok(None);
    }
    let clock = Clock::start(rt);
    let ground = ground(alloc, m, objects)?;
    let time = clock.passed(rt);
    Ok(Some(Grounded {
        ground,
        weight: model_weight(m, objects),
        typing_time,
        time,
    }))
}

/// A text's model made ground; None where the text is refused.
pub(crate) fn made_ground<R: Runtime>(
    rt: &R,
    alloc: Global,
    text: &[u8],
) -> Result<Option<Grounded>, AllocError> {
    let clock = Clock::start(rt);
    let Some(typed) = typed_of(alloc, text) else {
        return Ok(None);
    };
    let Ok(objects) = allocate(alloc, &typed.table) else {
        return Ok(None);
    };
    let time = clock.passed(rt);
    make_typed(rt, alloc, &typed.model, &objects, time)
}
