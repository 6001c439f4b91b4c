//! The steps from one configuration to another, as a text.
ghost use Rattle.std.specs.Prelude.{◌≡◌, ◌||◌, true, option_map, IfErr, IfOk};
ghost use Rattle.std.specs.Option.{option_map_or};
ghost use Rattle.serde_json.specs.Data.{string};
ghost use Rattle.serde_json.specs.View.{view};
ghost use Rattle.view_leaves.specs.Leaves.{leaves};
ghost use Rattle.view_leaves.specs.Views.{leaves_seen};
ghost use Rattle.view_picture.specs.Named.{has_attribute, has_object};
ghost use Rattle.view_run.specs.Stepped.{IsStepped, IsUnstepped};
ghost use Rattle.view_run.specs.Words.{steps_seen};

use crate::options::{failed_of, sizes_of, stop_of};
use crate::request::StepsRequest;
use crate::status::Status;
use serde_json::Value;
use std::alloc::{AllocError, Global};
use view_leaves::{Leaf, leaves_of};
use view_picture::{are_parts, has_attribute, has_object};
use view_steps::{Measure, Steps, StepsError, steps_of};

/// Whether one of two configurations has an attribute of this name.
fn is_known(
    alloc: Global,
    former: &Value,
    new: &[Leaf<'_>],
    attribute: &str,
) -> Result<bool, AllocError>
    ensures { IfOk result (λ known. known ≡ (has_attribute attribute.now (leaves_seen new.now)
        || has_attribute attribute.now (leaves (view former.now)))) }
{
    if has_attribute(new, attribute) {
        return Ok(true);
    }
    let old = leaves_of(alloc, former)?;
    Ok(has_attribute(&old, attribute))
}

/// Whether what is named as a stop, if something is, is an object.
fn has_stop(
    alloc: Global,
    new: &Value,
    leaves: &[Leaf<'_>],
    stop: Option<&str>,
) -> Result<bool, AllocError>
    ensures { IfOk result (λ has. has ≡ option_map_or (has_object (view new.now)
        (leaves_seen leaves.now)) (option_map (λ w. w.now) stop.entry) true) }
{
    match stop {
        None => Ok(true),
        Some(word) => has_object(alloc, new, leaves, word),
    }
}

/// The stop as what refers to it.
fn stop_value(alloc: Global, stop: Option<&str>) -> Result<Option<Value>, AllocError>
    ensures { IfOk result (λ value. option_map view value
        ≡ option_map string (option_map (λ w. w.now) stop.entry)) }
{
    match stop {
        None => Ok(None),
        Some(word) => Ok(Some(Value::String(String::from_str(alloc, word)?))),
    }
}

/// The steps from one configuration to another.
pub(crate) fn steps_between(
    alloc: Global,
    former: &Value,
    new: &Value,
    request: StepsRequest<'_>,
) -> Result<Steps, Status>
    ensures steps { IfOk result (λ made. IsStepped (view former.now) (view new.now) (steps_seen
        request.entry) made.text.items made.stuck) }
    ensures refused { IfErr result (IsUnstepped (view former.now) (view new.now) (steps_seen
        request.entry)) }
{
    let leaves = leaves_of(alloc, new)?;
    if !is_known(alloc, former, &leaves, request.attribute)? {
        return Err(Status::NoAttribute);
    }
    let failed = failed_of(alloc, request.options)?;
    if !are_parts(alloc, &leaves, &failed)? {
        return Err(Status::NoPart);
    }
    let stop = stop_of(request.options);
    if !has_stop(alloc, new, &leaves, stop)? {
        return Err(Status::NoStop);
    }
    let value = stop_value(alloc, stop)?;
    let sizes = sizes_of(alloc, request.options)?;
    let measure = Measure {
        whole: new,
        attribute: request.attribute,
        sizes: &sizes,
    };
    match steps_of(alloc, former, measure, &failed, value.as_ref()) {
        Ok(steps) => Ok(steps),
        Err(StepsError::Sets) => Err(Status::MovesSets),
        Err(StepsError::Memory) => Err(Status::Memory),
    }
}
