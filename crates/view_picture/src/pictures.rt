//! The picture: the parts that are referred to, in order, each with its guests.
ghost use Rattle.std.specs.Prelude.{◌≡◌, map, option_to_list, IfOk};
ghost use Rattle.std.specs.List.{flat_map};
ghost use Rattle.serde_json.specs.View.{view};
ghost use Rattle.view_leaves.specs.Ascending.{IsAscending, paths};
ghost use Rattle.view_leaves.specs.Views.{step_seen, leaves_seen};
ghost use Rattle.view_picture.specs.Held.{held_at};
ghost use Rattle.view_picture.specs.Mentioned.{mention_seen, mention_paths};
ghost use Rattle.view_picture.specs.Picture.{guest_of, holding_of, holders, holdings};
ghost use Rattle.view_picture.specs.PictureViews.{guest_seen, guest_path, size_seen, holding_seen, holdings_seen};
ghost use Rattle.view_picture.specs.Views.{paths_seen};

use crate::holding::{Guest, Holding, Size};
use crate::lookup::{class_of, value_at};
use crate::mentions::{Mention, Mentions, mentions_of};
use crate::totals::loads_of;
use crate::ways::parts;
use serde_json::Value;
use std::alloc::{AllocError, Global};
use view_leaves::{Leaf, Step, push_path};

/// Who stands at a path.
fn guest_of<'l, 'a>(whole: &'a Value, path: &'l [Step<'a>]) -> Guest<'l, 'a>
    ensures { guest_seen result ≡ guest_of (view whole.now) (map step_seen path.now) }
{
    match value_at(whole, path) {
        Some(object) => Guest {
            path,
            class: class_of(object),
        },
        None => Guest { path, class: None },
    }
}

/// The guests by whom a word is mentioned.
pub(crate) fn guests_of<'l, 'a>(
    alloc: Global,
    whole: &'a Value,
    mentions: &[Mention<'l, 'a>],
) -> Result<Vec<Guest<'l, 'a>>, AllocError>
    ensures guests { IfOk result (λ guests. map guest_seen guests.items
        ≡ map (guest_of (view whole.now)) (mention_paths (map mention_seen mentions.now))) }
    ensures paths { IfOk result (λ guests. map guest_path guests.items
        ≡ mention_paths (map mention_seen mentions.now)) }
{
    let mut guests = Vec::new(alloc);
    for mention in mentions {
        guests.push(guest_of(whole, mention.guest))?;
    }
    Ok(guests)
}

/// What a picture is drawn from.
#[derive(Drop)]
pub(crate) struct Scene<'s, 'l, 'a> {
    /// The configuration.
    pub whole: &'a Value,
    /// The sizes that are asked for.
    pub sizes: &'s [Size<'s>],
    /// Who refers to which word.
    pub mentions: Mentions<'l, 'a>,
}

/// What a holder is, by the mentions of it.
fn holding_of<'s, 'l, 'a>(
    alloc: Global,
    whole: &'a Value,
    sizes: &[Size<'s>],
    holder: &'l [Step<'a>],
    mentions: &[Mention<'l, 'a>],
) -> Result<Holding<'s, 'l, 'a>, AllocError>
    ensures { IfOk result (λ made. holding_seen made ≡ holding_of (view whole.now)
        (map size_seen sizes.now) (map step_seen holder.now) (mention_paths (map mention_seen
        mentions.now))) }
{
    let guests = guests_of(alloc, whole, mentions)?;
    let loads = loads_of(alloc, whole, holder, &guests, sizes)?;
    Ok(Holding {
        holder,
        loads,
        guests,
    })
}

/// What stands at a part, where something does. The text is written anew.
fn holding_at<'s, 'l, 'a>(
    alloc: Global,
    scene: &Scene<'s, 'l, 'a>,
    part: &'l [Step<'a>],
    text: &mut Vec<u8>,
) -> Result<Option<Holding<'s, 'l, 'a>>, AllocError>
    ensures { IfOk result (λ made. map holding_seen (option_to_list made)
        ≡ held_at (view scene.now.whole.now) (map size_seen scene.now.sizes.now)
        scene.now.mentions.entries (map step_seen part.now)) }
{
    text.clear();
    push_path(text, part)?;
    match scene.mentions.get(text.as_slice()) {
        None => Ok(None),
        Some(list) => {
            if list.is_empty() {
                Ok(None)
            } else {
                let made = holding_of(alloc, scene.whole, scene.sizes, part, list)?;
                Ok(Some(made))
            }
        }
    }
}

/// What stands at each of these parts where something does.
fn holdings_among<'s, 'l, 'a>(
    alloc: Global,
    scene: &Scene<'s, 'l, 'a>,
    parts: &[&'l [Step<'a>]],
) -> Result<Vec<Holding<'s, 'l, 'a>>, AllocError>
    ensures { IfOk result (λ made. holdings_seen made.items
        ≡ flat_map (held_at (view scene.now.whole.now) (map size_seen scene.now.sizes.now)
        scene.now.mentions.entries) (paths_seen parts.now)) }
{
    let mut text = Vec::new(alloc);
    let mut list = Vec::new(alloc);
    for part in parts {
        if let Some(made) = holding_at(alloc, scene, part, &mut text)? {
            list.push(made)?;
        }
    }
    Ok(list)
}

/// The picture of a configuration: the parts to which an attribute of this name refers, in order of
/// path, each with its guests and what these come to.
pub fn holdings<'s, 'l, 'a>(
    alloc: Global,
    whole: &'a Value,
    leaves: &'l [Leaf<'a>],
    attribute: &str,
    sizes: &'s [Size<'s>],
) -> Result<Vec<Holding<'s, 'l, 'a>>, AllocError>
    ensures holdings { IfOk result (λ made. holdings_seen made.items ≡ holdings (view whole.now)
        attribute.now (map size_seen sizes.now) (leaves_seen leaves.now)) }
    ensures ascending { IfOk result (λ made. IsAscending (paths (leaves_seen leaves.now))
        → IsAscending (holders (holdings_seen made.items))) }
{
    let mentions = mentions_of(alloc, attribute, leaves)?;
    let scene = Scene {
        whole,
        sizes,
        mentions,
    };
    let made = holdings_among(alloc, &scene, &parts(alloc, leaves)?)?;
    Ok(made)
}
