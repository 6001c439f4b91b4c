//! The picture of a configuration, as a text.
ghost use Rattle.std.specs.Prelude.{IfOk, IfErr};
ghost use Rattle.serde_json.specs.View.{view};
ghost use Rattle.view_run.specs.Pictured.{IsPicture, IsBlank};
ghost use Rattle.view_run.specs.Words.{picture_seen};

use crate::options::{failed_of, sizes_of, wants_svg, wants_table};
use crate::request::PictureRequest;
use crate::status::Status;
use serde_json::Value;
use std::alloc::Global;
use view_drawing::{lines_of, svg_of};
use view_leaves::leaves_of;
use view_picture::{are_parts, has_attribute, holdings};
use view_tables::picture_table;

/// The picture of a configuration.
pub(crate) fn picture_of(
    alloc: Global,
    whole: &Value,
    request: PictureRequest<'_>,
) -> Result<Vec<u8>, Status>
    ensures picture { IfOk result (λ text. IsPicture (view whole.now) (picture_seen request.entry)
        text.items) }
    ensures refused { IfErr result (IsBlank (view whole.now) (picture_seen request.entry)) }
{
    let leaves = leaves_of(alloc, whole)?;
    if !has_attribute(&leaves, request.attribute) {
        return Err(Status::NoAttribute);
    }
    let failed = failed_of(alloc, request.options)?;
    if !are_parts(alloc, &leaves, &failed)? {
        return Err(Status::NoPart);
    }
    let sizes = sizes_of(alloc, request.options)?;
    let held = holdings(alloc, whole, &leaves, request.attribute, &sizes)?;
    if wants_svg(request.options) {
        Ok(svg_of(alloc, &failed, &held)?)
    } else if wants_table(request.options) {
        Ok(picture_table(alloc, &failed, &sizes, &held)?)
    } else {
        Ok(lines_of(alloc, &failed, &held)?)
    }
}
