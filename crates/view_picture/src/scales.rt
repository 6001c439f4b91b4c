//! What each part of a configuration carries, also where nothing stands.
ghost use Rattle.std.specs.Prelude.{◌≡◌, map, IfOk};
ghost use Rattle.serde_json.specs.View.{view};
ghost use Rattle.view_leaves.specs.Views.{step_seen, leaves_seen};
ghost use Rattle.view_picture.specs.Held.{carried_at, carried_by};
ghost use Rattle.view_picture.specs.Picture.{carried};
ghost use Rattle.view_picture.specs.PictureViews.{load_seen, size_seen, scale_seen};
ghost use Rattle.view_picture.specs.Parts.{parts};
ghost use Rattle.view_picture.specs.Views.{paths_seen};

use crate::holding::{Load, Scale, Size};
use crate::mentions::mentions_of;
use crate::pictures::{Scene, guests_of};
use crate::totals::loads_of;
use crate::ways::parts;
use serde_json::Value;
use std::alloc::{AllocError, Global};
use view_leaves::{Leaf, Step, push_path};

/// What the guests of a part come to, by the mentions of its spelling.
fn loads_by<'s>(
    alloc: Global,
    scene: &Scene<'s, '_, '_>,
    part: &[Step<'_>],
    text: &[u8],
) -> Result<Vec<Load<'s>>, AllocError>
    ensures { IfOk result (λ loads. map load_seen loads.items ≡ carried_by (view
        scene.now.whole.now) (map size_seen scene.now.sizes.now) scene.now.mentions.entries
        (map step_seen part.now) text.now) }
{
    match scene.mentions.get(text) {
        None => loads_of(alloc, scene.whole, part, &[], scene.sizes),
        Some(list) => {
            let guests = guests_of(alloc, scene.whole, list)?;
            loads_of(alloc, scene.whole, part, &guests, scene.sizes)
        }
    }
}

/// What a part carries.
fn scale_at<'s>(
    alloc: Global,
    scene: &Scene<'s, '_, '_>,
    part: &[Step<'_>],
) -> Result<Scale<'s>, AllocError>
    ensures { IfOk result (λ made. scale_seen made ≡ carried_at (view scene.now.whole.now)
        (map size_seen scene.now.sizes.now) scene.now.mentions.entries (map step_seen part.now)) }
{
    let mut text = Vec::new(alloc);
    push_path(&mut text, part)?;
    let loads = loads_by(alloc, scene, part, &text)?;
    Ok(Scale { text, loads })
}

/// What each of these parts carries.
fn scales_among<'s>(
    alloc: Global,
    scene: &Scene<'s, '_, '_>,
    parts: &[&[Step<'_>]],
) -> Result<Vec<Scale<'s>>, AllocError>
    ensures { IfOk result (λ made. map scale_seen made.items ≡ map (carried_at (view
        scene.now.whole.now) (map size_seen scene.now.sizes.now) scene.now.mentions.entries)
        (paths_seen parts.now)) }
{
    let mut list = Vec::new(alloc);
    for part in parts {
        list.push(scale_at(alloc, scene, part)?)?;
    }
    Ok(list)
}

/// What each part of a configuration carries: its spelling, and what the guests that refer to it by
/// an attribute of this name come to.
pub fn scales_of<'s>(
    alloc: Global,
    whole: &Value,
    leaves: &[Leaf<'_>],
    attribute: &str,
    sizes: &'s [Size<'s>],
) -> Result<Vec<Scale<'s>>, AllocError>
    ensures { IfOk result (λ made. map scale_seen made.items ≡ map (carried (view whole.now)
        attribute.now (map size_seen sizes.now) (leaves_seen leaves.now)) (parts (leaves_seen
        leaves.now))) }
{
    let mentions = mentions_of(alloc, attribute, leaves)?;
    let scene = Scene {
        whole,
        sizes,
        mentions,
    };
    let made = scales_among(alloc, &scene, &parts(alloc, leaves)?)?;
    Ok(made)
}
